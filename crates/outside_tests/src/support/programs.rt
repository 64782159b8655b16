//! Programs, and texts that the program prints.

pub const ONE_ASSIGNMENT: &str = "int main(int a) {
    int x;
    x = a;
    assert(x == 2);
}
";

pub const ONE_REPORT: &str = "located: weight 1, sets 1
set 1:
  3:5 assignment | x = a;
";

pub const BRANCHES: &str = "int Array[3];
int main(int index) {
    int i;
    if (index != 1)
        index = 2;
    else
        index = index + 2;
    i = index;
    assert(i >= 0 && i < 3);
    return Array[i];
}
";

/// Each of three statements alone could repair it.
pub const BRANCHES_REPORT: &str = "located: weight 1, sets 3
set 1:
  4:9 condition | if (index != 1)
set 2:
  7:9 assignment | index = index + 2;
set 3:
  8:5 assignment | i = index;
";

/// The edits of these statements that make it pass on 1 and on 0.
pub const BRANCHES_EDITS: &str = "edits: 4
  4:9 condition, node 1: != -> == | if (index != 1)
  4:9 condition, node 2: 1 -> 0 | if (index != 1)
  4:9 condition, node 2: 1 -> 2 | if (index != 1)
  7:9 assignment, node 2: 2 -> 1 | index = index + 2;
";

/// A function that is called twice, and whose value is wrong.
pub const TWICE: &str = "int up(int x) {
    return x + 1;
}
int main(int a) {
    int y;
    y = up(a) + up(a);
    assert(y == 2 * a);
    return 0;
}
";

/// Each of three executions alone could repair it.
pub const TWICE_REPORT: &str = "located: places 1, sets 3
set 1:
  2:5 return at main/call 1 | return x + 1;
set 2:
  2:5 return at main/call 2 | return x + 1;
set 3:
  6:5 assignment at main | y = up(a) + up(a);
";

/// How a certificate begins that a search by the default settings and a bound of 1 writes.
pub const HEAD: &str = "bugassist 2\nb 1 16 200000 1000\n";

/// How a certificate of version 1 begins.
pub const OLD_HEAD: &str = "bugassist 1\n";
