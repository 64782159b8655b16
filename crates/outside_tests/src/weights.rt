//! Texts of weights, with the weights of a program's statements or the line that is wrong.

use ba_inputs::{WeightsError, read_weights};
use ba_tree::tree::Program;
use std::alloc::{AllocError, Global};
use std::panic::Expect;
use std::process::Abort;
use test_programs::program_of;

/// Its statements begin in the lines 2, 3, 3, 4, 8 and 9; the fourth is an assert.
const PROGRAM: &str = "int main(void) { int a;
a = 1;
a = 2; a = 3;
assert(a);


/* nothing here */
a = 5;
return a; }
";

/// The weights as text, with `-` for none.
fn add_weights(text: &mut String, weights: &[Option<u32>]) -> Result<(), AllocError> {
    for weight in weights {
        match weight {
            Some(weight) => write!(text, " {weight}")?,
            None => text.push_str(" -")?,
        }
    }
    Ok(())
}

/// The weights as a line of text.
fn shown(rt: &impl Abort, alloc: Global, weights: &[Option<u32>]) -> String {
    let mut text = String::new(alloc);
    add_weights(&mut text, weights).expect(rt, "memory");
    text
}

/// What a text is for the program.
fn read(rt: &impl Abort, alloc: Global, program: &Program, text: &str) -> String {
    match read_weights(alloc, program, text.as_bytes()) {
        Ok(weights) => shown(rt, alloc, weights.of.as_slice()),
        Err(WeightsError::Line(number)) => format!(in alloc; "line {number}").expect(rt, "memory"),
        Err(WeightsError::Memory) => panic!(rt; "memory"),
    }
}

/// The first row whose text is something else for the program, if there is one.
fn first_other(
    rt: &impl Abort,
    alloc: Global,
    program: &Program,
    rows: &[(&str, &str)],
) -> Option<usize> {
    for i in 0..rows.len() {
        let (text, want) = rows[i];
        if read(rt, alloc, program, text).as_str() != want {
            return Some(i);
        }
    }
    None
}

/// The first row whose text is something else for the program with six statements, if there is one.
fn first_difference(rt: &impl Abort, alloc: Global, rows: &[(&str, &str)]) -> Option<usize> {
    let program = program_of(alloc, PROGRAM).expect(rt, "a program");
    first_other(rt, alloc, &program, rows)
}

/// Texts with the weights of the statements.
static WEIGHED: [(&str, &str); 12] = [
    // nothing, blank lines and comments
    ("", " 1 1 1 - 1 1"),
    ("\n \t\r\n\u{b}\u{c}", " 1 1 1 - 1 1"),
    ("# 3 fixed\n  #3 2\n#", " 1 1 1 - 1 1"),
    // a weight, and none
    ("3 7", " 1 7 7 - 1 1"),
    ("3 7\n", " 1 7 7 - 1 1"),
    ("2 1000\n3 1", " 1000 1 1 - 1 1"),
    ("3 fixed\n2 fixed", " - - - - 1 1"),
    ("8 2", " 1 1 1 - 2 1"),
    // blanks at both ends and between, and a carriage return before the line's end
    ("\t3 \u{b} 4 \r\n  2\t5", " 5 4 4 - 1 1"),
    // as many digits as there may be
    ("00003 0004", " 1 4 4 - 1 1"),
    // an assert and a line without a statement may be named
    ("4 5\n7 fixed\n1 2\n5 3\n99999 2", " 1 1 1 - 1 1"),
    // a comment is in a line of its own
    ("# c\n\n3 2\n# 3 4\n2 3", " 3 2 2 - 1 1"),
];

#[test]
fn each_statement_has_the_weight_of_its_line(rt: HostRuntime) {
    let difference = first_difference(&rt, rt.alloc(), WEIGHED.as_slice());
    assert_eq!(rt; difference, None);
}

/// Texts with the line that is wrong.
static WRONG: [(&str, &str); 26] = [
    // a weight is one to four digits, 1 to 1,000, or `fixed`
    ("4 0", "line 1"),
    ("4 1001", "line 1"),
    ("4 x", "line 1"),
    ("3 00001", "line 1"),
    ("3 -1", "line 1"),
    ("3 +1", "line 1"),
    ("3 Fixed", "line 1"),
    ("3 fixedly", "line 1"),
    ("3 4#", "line 1"),
    ("3 99999999999999999999", "line 1"),
    // the number of a line is one to five digits, at least 1
    ("0 5", "line 1"),
    ("000003 1", "line 1"),
    ("100000 1", "line 1"),
    ("-3 1", "line 1"),
    ("x 1", "line 1"),
    ("fixed 3", "line 1"),
    // two pieces
    ("3", "line 1"),
    ("3 2 1", "line 1"),
    ("3 2 # two", "line 1"),
    ("3# 2", "line 1"),
    // a line is named once, by its value
    ("3 2\n3 2", "line 2"),
    ("4 1\n04 2", "line 2"),
    ("7 3\n7 fixed", "line 2"),
    // all lines count
    ("\n# c\n3 4\n\n2 2\n00003 5\n0 0", "line 6"),
    ("3 2\r\n\r\nx\r\n", "line 3"),
    ("3 2\n2 0\n3 2", "line 2"),
];

#[test]
fn the_first_wrong_line_is_refused(rt: HostRuntime) {
    let difference = first_difference(&rt, rt.alloc(), WRONG.as_slice());
    assert_eq!(rt; difference, None);
}
