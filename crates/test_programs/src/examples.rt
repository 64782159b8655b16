//! Programs, and runs of them with the outcomes that were worked out by hand.

use crate::Relaxed;
use ba_numbers::ids::{CallId, StmtId};
use ba_tree::run::{Outcome, Step};

/// A program, an input, the bounds on iterations and on frames, what may be relaxed, choices, and the outcome
/// of the run.
pub type Example = (
    &'static str,
    &'static str,
    u32,
    u32,
    Relaxed,
    &'static str,
    Outcome,
);

/// Nothing may be relaxed.
const NONE: Relaxed = Relaxed::Statements(&[]);

/// The run meets every assertion.
const DONE: Outcome = Outcome::Done;

/// The choices are wrong.
const WRONG: Outcome = Outcome::WrongChoices;

/// An array, `if` and `else`, an assert, an element returned.
pub const ELEMENT: &str = "int Array[3];
int main(int index) {
    int i;
    if (index != 1)
        index = 2;
    else
        index = index + 2;
    i = index;
    assert(i >= 0 && i < 3);
    return Array[i];
}
";

/// A call whose function returns a wrong value.
pub const CALL: &str = "int up(int x) {
    return x + 1;
}
int main(int a) {
    int y;
    y = up(a);
    assert(y == a);
    return 0;
}
";

/// A sum in a `for`.
pub const SUM: &str = "int main(unsigned n) {
    unsigned s, i;
    s = 0;
    for (i = 1; i < n; i++)
        s = s + i;
    assert(s == 6);
    return 0;
}
";

/// A function that calls itself down to 0.
pub const DOWN: &str = "int f(int n) {
    if (n == 0)
        return 0;
    return f(n - 1);
}
int main(int n) {
    return f(n);
}
";

/// A store, whose index is the input.
pub const STORE: &str = "int main(int k) {
    int a[2];
    a[k] = 1;
    assert(a[0] == 1);
    return 0;
}
";

/// A division by the input.
pub const DIVISION: &str = "int main(int d) {
    int q;
    q = 6 / d;
    assert(q == 2);
    return 0;
}
";

/// A call that changes a global.
pub const GLOBAL: &str = "int g;
int f(void) {
    g = 1;
    return 0;
}
int main(void) {
    int a;
    a = f();
    assert(g == 0);
    return a;
}
";

/// Two wrong assignments.
pub const TWO: &str = "int main(void) {
    int x, y;
    x = 1;
    y = 1;
    assert(x == 2);
    assert(y == 2);
    return 0;
}
";

/// A loop for ever.
pub const ENDLESS: &str = "int main(int a) {
    while (a) { }
    return 0;
}
";

/// An array's initialiser that reads its array.
pub const OWN: &str = "int main(void) {
    int a[2] = {5, a[0]};
    assert(a[1] == 0);
}
";

/// A global's initialiser that divides by 0.
pub const INITIALISER: &str = "int g = 1 / 0;
int main(void) {
    return g;
}
";

/// The arguments of a call make calls: one divides by the input, and the next one fails.
pub const ARGUMENTS: &str = "int first(int a, int b) {
    return a;
}
int part(int d) {
    return 6 / d;
}
int fail(void) {
    assert(0);
    return 0;
}
int main(int d) {
    return first(part(d), fail());
}
";

/// A function that calls itself with its own array, and writes to the one that it was given.
pub const ARRAYS: &str = "void f(int p[], int n) {
    int a[2];
    if (n)
        f(a, n - 1);
    assert(a[0] == n);
    p[0] = 1;
}
int main(void) {
    int a[2];
    f(a, 1);
    assert(a[0] == 1);
}
";

/// As many iterations as the input says.
pub const TURNS: &str = "int main(int n) {
    int i;
    for (i = 0; i < n; i++) { }
}
";

/// `break` and `continue`.
pub const JUMPS: &str = "int main(void) {
    int i;
    for (i = 0; i < 5; i++) {
        if (i == 3)
            break;
        continue;
    }
    assert(i == 3);
}
";

/// A `do` whose condition is the input.
pub const BEHIND: &str = "int main(int a) {
    int n;
    do
        n = n + 1;
    while (a);
    assert(n == 1);
}
";

/// A comparison as unsigned, a short variable, the operators that evaluate one side.
pub const VALUES: &str = "int main(int a) {
    short s;
    assert(((unsigned)-1 < (unsigned)1) == 0);
    s = a;
    assert(s == a && (1 || 1 / 0));
    assert((a ? 7 : 1 / 0) == 7);
    printf(\"%d\", 1 / a);
}
";

/// A local of a loop's body, which is 0 again in each iteration.
pub const AGAIN: &str = "int main(void) {
    int i, s;
    for (i = 0; i < 2; i++) {
        int x;
        s = s + x;
        x = 5;
    }
    assert(s == 0);
}
";

/// A `return` out of two loops in one another.
pub const INNER: &str = "int f(int n) {
    while (1)
        while (1) {
            if (n)
                return 3;
            n = 1;
        }
    return 4;
}
int main(void) {
    assert(f(0) == 3);
    return 0;
}
";

/// Calls on the right of the operators that evaluate one side.
pub const SIDES: &str = "int g;
int f(void) {
    g = 1;
    return 1;
}
int main(void) {
    assert((0 && f()) == g);
    assert((0 || f()) == g);
    return 0;
}
";

/// An array that a function passes on to another one, which writes to it.
pub const HANDED: &str = "int set(int p[]) {
    p[1] = 7;
    return p[1];
}
int on(int p[]) {
    return set(p);
}
int main(void) {
    int a[2];
    assert(on(a) == 7);
    assert(a[1] == 7);
}
";

/// A `switch` whose statements after one label fall through to those after the next.
pub const FALLS: &str = "int main(int a) {
    int r;
    switch (a) {
    case 1:
        r = 5;
    case 2:
        r = 7;
        break;
    default:
        r = 9;
    }
    assert(r == 5);
    return 0;
}
";

/// Several labels at one statement, a `default` in the middle, a negative label of an unsigned `switch`, a
/// `return` in one.
pub const PATHS: &str = "int path(unsigned u) {
    int r;
    r = 0;
    switch (u) {
    case 0:
    case 1:
        r = r + 1;
    default:
        r = r + 10;
        break;
    case -1:
        r = r + 100;
    case 7:
        return r + 1000;
    }
    return r;
}
int main(unsigned u, int expected) {
    int r;
    r = path(u);
    assert(r == expected);
    return 0;
}
";

/// A `switch` in another one, in each kind of loop, with `continue`, with a call, of a `char`, and without a
/// label.
pub const NESTED: &str = "int half(int n) {
    return n / 2;
}
int main(int n, int expected) {
    int i, s;
    char c;
    s = 0;
    for (i = 0; i < n; i++) {
        c = i % 4;
        switch (c) {
        case 0:
            continue;
        case 1:
            switch (half(s)) {
            case 0:
                s = 3;
                break;
            default:
                break;
            }
            s = s + 1;
            break;
        case 2:
            s = s * 2;
        }
        s = s + 100;
    }
    while (1) {
        switch (n) {
        }
        break;
    }
    do {
        switch (s % 3) {
        case 0:
            continue;
        default:
            ;
        }
        s = s + 1;
    } while (s % 3);
    assert(s == expected);
    return 0;
}
";

/// A `switch` without `default`, over an expression that can trap.
pub const LABELLED_ONE: &str = "int main(int a) {
    switch (1 / a) {
    case 1:
        return 0;
    }
    assert(0);
    return 0;
}
";

/// Runs of these programs, with each way to end.
pub static EXAMPLES: [Example; 96] = [
    (AGAIN, "", 2, 16, NONE, "", DONE),
    (AGAIN, "", 1, 16, NONE, "", Outcome::Beyond(StmtId(2))),
    (
        AGAIN,
        "",
        2,
        16,
        Relaxed::Statements(&[4]),
        "k t 7",
        Outcome::AssertFails(StmtId(6)),
    ),
    (AGAIN, "", 2, 16, Relaxed::Statements(&[5]), "t 3 t 4", DONE),
    (INNER, "", 2, 16, NONE, "", DONE),
    (INNER, "", 1, 16, NONE, "", Outcome::Beyond(StmtId(2))),
    (INNER, "", 2, 16, Relaxed::Statements(&[3]), "t 1", DONE),
    (INNER, "", 2, 16, Relaxed::Statements(&[2]), "t 0", WRONG),
    (INNER, "", 2, 16, Relaxed::Statements(&[2]), "t 0 k k", DONE),
    (
        INNER,
        "",
        2,
        16,
        Relaxed::Place(
            &[
                Step::Call(CallId(1)),
                Step::Turn(StmtId(1), 1),
                Step::Turn(StmtId(2), 2),
            ],
            4,
        ),
        "t 4",
        Outcome::AssertFails(StmtId(7)),
    ),
    (SIDES, "", 1, 16, NONE, "", DONE),
    (
        SIDES,
        "",
        1,
        16,
        Relaxed::Statements(&[1]),
        "t 5",
        Outcome::AssertFails(StmtId(4)),
    ),
    (SIDES, "", 1, 1, NONE, "", Outcome::Beyond(StmtId(4))),
    (HANDED, "", 1, 16, NONE, "", DONE),
    (
        HANDED,
        "",
        1,
        16,
        Relaxed::Statements(&[1]),
        "t 0 7",
        Outcome::AssertFails(StmtId(4)),
    ),
    (
        HANDED,
        "",
        1,
        16,
        Relaxed::Statements(&[3]),
        "t 7",
        Outcome::AssertFails(StmtId(5)),
    ),
    (
        ELEMENT,
        "1",
        1,
        16,
        NONE,
        "",
        Outcome::AssertFails(StmtId(5)),
    ),
    (ELEMENT, "0", 1, 16, NONE, "", DONE),
    (ELEMENT, "1", 1, 16, Relaxed::Statements(&[1]), "t 1", DONE),
    (ELEMENT, "1", 1, 16, Relaxed::Statements(&[1]), "t 2", WRONG),
    (ELEMENT, "1", 1, 16, Relaxed::Statements(&[4]), "t 2", DONE),
    (
        ELEMENT,
        "1",
        1,
        16,
        Relaxed::Statements(&[4]),
        "k",
        Outcome::AssertFails(StmtId(5)),
    ),
    (ELEMENT, "1", 1, 16, Relaxed::Statements(&[5]), "k", WRONG),
    (CALL, "4", 1, 16, NONE, "", Outcome::AssertFails(StmtId(3))),
    (CALL, "4", 1, 16, Relaxed::Statements(&[1]), "t 4", DONE),
    (
        CALL,
        "4",
        1,
        16,
        Relaxed::Place(&[Step::Call(CallId(1))], 1),
        "t 4",
        DONE,
    ),
    (CALL, "4", 1, 16, Relaxed::Place(&[], 1), "t 4", WRONG),
    (CALL, "4", 1, 16, Relaxed::Statements(&[2]), "t 4", DONE),
    (CALL, "4", 1, 1, NONE, "", Outcome::Beyond(StmtId(2))),
    (SUM, "3", 3, 16, NONE, "", Outcome::AssertFails(StmtId(6))),
    (SUM, "4", 3, 16, NONE, "", DONE),
    (SUM, "5", 3, 16, NONE, "", Outcome::Beyond(StmtId(3))),
    (
        SUM,
        "3",
        3,
        16,
        Relaxed::Statements(&[3]),
        "k k t 1 t 0",
        DONE,
    ),
    (
        SUM,
        "3",
        3,
        16,
        Relaxed::Place(&[Step::Turn(StmtId(3), 3)], 3),
        "t 1",
        DONE,
    ),
    (
        SUM,
        "4",
        3,
        16,
        Relaxed::Place(&[Step::Turn(StmtId(3), 4)], 3),
        "t 1",
        Outcome::Beyond(StmtId(3)),
    ),
    (DOWN, "14", 1, 16, NONE, "", DONE),
    (DOWN, "15", 1, 16, NONE, "", Outcome::Beyond(StmtId(3))),
    (DOWN, "30", 1, 32, NONE, "", DONE),
    (DOWN, "31", 1, 32, NONE, "", Outcome::Beyond(StmtId(3))),
    (STORE, "2", 1, 16, NONE, "", Outcome::Trap(StmtId(1))),
    (STORE, "0", 1, 16, NONE, "", DONE),
    (STORE, "2", 1, 16, Relaxed::Statements(&[1]), "t 0 1", DONE),
    (STORE, "2", 1, 16, Relaxed::Statements(&[1]), "t 2 1", WRONG),
    (STORE, "2", 1, 16, Relaxed::Statements(&[1]), "t 0", WRONG),
    (DIVISION, "0", 1, 16, NONE, "", Outcome::Trap(StmtId(1))),
    (DIVISION, "0", 1, 16, Relaxed::Statements(&[1]), "t 2", DONE),
    (GLOBAL, "", 1, 16, NONE, "", Outcome::AssertFails(StmtId(4))),
    (GLOBAL, "", 1, 16, Relaxed::Statements(&[1]), "t 0", DONE),
    (GLOBAL, "", 1, 16, Relaxed::Statements(&[3]), "t 7", DONE),
    (
        TWO,
        "",
        1,
        16,
        Relaxed::Statements(&[1, 2]),
        "t 2 t 2",
        DONE,
    ),
    (TWO, "", 1, 16, Relaxed::Statements(&[1, 2]), "t 2", WRONG),
    (
        TWO,
        "",
        1,
        16,
        Relaxed::Statements(&[1, 2]),
        "t 2 t 2 k",
        WRONG,
    ),
    (ENDLESS, "1", 5, 16, NONE, "", Outcome::Beyond(StmtId(1))),
    (
        ENDLESS,
        "1",
        5,
        16,
        Relaxed::Place(&[Step::Turn(StmtId(1), 6)], 1),
        "t 0",
        DONE,
    ),
    (OWN, "", 1, 16, NONE, "", DONE),
    (OWN, "", 1, 16, Relaxed::Statements(&[1]), "t 4 0", DONE),
    (OWN, "", 1, 16, Relaxed::Statements(&[1]), "t 4", WRONG),
    (INITIALISER, "", 1, 16, NONE, "", Outcome::Trap(StmtId(1))),
    (
        INITIALISER,
        "",
        1,
        16,
        Relaxed::Statements(&[1]),
        "t 3",
        DONE,
    ),
    (ARGUMENTS, "0", 1, 16, NONE, "", Outcome::Trap(StmtId(2))),
    (
        ARGUMENTS,
        "1",
        1,
        16,
        NONE,
        "",
        Outcome::AssertFails(StmtId(3)),
    ),
    (ARGUMENTS, "1", 1, 16, Relaxed::Statements(&[3]), "k", WRONG),
    (
        ARGUMENTS,
        "1",
        1,
        16,
        Relaxed::Statements(&[5]),
        "t 0",
        DONE,
    ),
    (ARRAYS, "", 1, 16, NONE, "", DONE),
    (
        ARRAYS,
        "",
        1,
        16,
        Relaxed::Statements(&[5]),
        "t",
        Outcome::AssertFails(StmtId(6)),
    ),
    (TURNS, "128", 128, 16, NONE, "", DONE),
    (TURNS, "129", 128, 16, NONE, "", Outcome::Beyond(StmtId(2))),
    (JUMPS, "", 4, 16, NONE, "", DONE),
    (JUMPS, "", 3, 16, NONE, "", Outcome::Beyond(StmtId(2))),
    (BEHIND, "0", 1, 16, NONE, "", DONE),
    (BEHIND, "1", 1, 16, NONE, "", Outcome::Beyond(StmtId(2))),
    (
        BEHIND,
        "1",
        1,
        16,
        Relaxed::Place(&[Step::Turn(StmtId(2), 1)], 2),
        "t 0",
        DONE,
    ),
    (VALUES, "5", 1, 16, NONE, "", DONE),
    (VALUES, "0", 1, 16, NONE, "", Outcome::Trap(StmtId(4))),
    (
        VALUES,
        "5",
        1,
        16,
        Relaxed::Statements(&[2]),
        "t 40000",
        WRONG,
    ),
    (
        VALUES,
        "5",
        1,
        16,
        Relaxed::Statements(&[2]),
        "t 6",
        Outcome::AssertFails(StmtId(3)),
    ),
    (FALLS, "1", 1, 16, NONE, "", Outcome::AssertFails(StmtId(5))),
    (FALLS, "1", 1, 16, Relaxed::Statements(&[3]), "t 5", DONE),
    (
        FALLS,
        "1",
        1,
        16,
        Relaxed::Statements(&[2]),
        "t 5",
        Outcome::AssertFails(StmtId(5)),
    ),
    (
        FALLS,
        "1",
        1,
        16,
        Relaxed::Statements(&[1, 3, 4]),
        "t 3 t 5",
        DONE,
    ),
    (
        FALLS,
        "1",
        1,
        16,
        Relaxed::Statements(&[1, 3, 4]),
        "t 2 k t 5",
        WRONG,
    ),
    (PATHS, "0 11", 1, 16, NONE, "", DONE),
    (PATHS, "1 11", 1, 16, NONE, "", DONE),
    (PATHS, "5 10", 1, 16, NONE, "", DONE),
    (PATHS, "4294967295 1100", 1, 16, NONE, "", DONE),
    (PATHS, "7 1000", 1, 16, NONE, "", DONE),
    (
        PATHS,
        "5 1100",
        1,
        16,
        Relaxed::Statements(&[2]),
        "t 4294967295",
        DONE,
    ),
    (
        PATHS,
        "5 1100",
        1,
        16,
        Relaxed::Statements(&[2]),
        "t -1",
        WRONG,
    ),
    (NESTED, "8 1218", 8, 16, NONE, "", DONE),
    (
        NESTED,
        "8 1218",
        7,
        16,
        NONE,
        "",
        Outcome::Beyond(StmtId(4)),
    ),
    (
        NESTED,
        "1 0",
        2,
        16,
        Relaxed::Place(&[Step::Turn(StmtId(4), 1)], 7),
        "t 1000",
        Outcome::AssertFails(StmtId(18)),
    ),
    (LABELLED_ONE, "1", 1, 16, NONE, "", DONE),
    (LABELLED_ONE, "0", 1, 16, NONE, "", Outcome::Trap(StmtId(1))),
    (
        LABELLED_ONE,
        "2",
        1,
        16,
        NONE,
        "",
        Outcome::AssertFails(StmtId(3)),
    ),
    (
        LABELLED_ONE,
        "0",
        1,
        16,
        Relaxed::Statements(&[1]),
        "t 1",
        DONE,
    ),
    (
        LABELLED_ONE,
        "0",
        1,
        16,
        Relaxed::Statements(&[1]),
        "t -2",
        Outcome::AssertFails(StmtId(3)),
    ),
];
