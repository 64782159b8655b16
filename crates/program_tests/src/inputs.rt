//! Texts of an input and of several, with the values or the error that each has.

use crate::support::programs::program_of;
use ba_inputs::{InputError, InputLine, InputsError, read_input, read_inputs};
use ba_tree::run::Input;
use std::alloc::Global;
use std::panic::Expect;
use std::process::Abort;

/// Whether an input has these values for each parameter.
fn has(input: &Input, values: &[&[i64]]) -> bool {
    let lists = input.values.as_slice();
    lists.len() == values.len()
        && lists
            .iter()
            .zip(values.iter())
            .all(|(list, other)| list.as_slice() == *other)
}

/// Whether the text is read as these values for each parameter.
fn has_values(
    rt: &impl Abort,
    alloc: Global,
    program: &str,
    text: &[u8],
    values: &[&[i64]],
) -> bool {
    assert!(rt; text.len() <= 65_536);
    let program = program_of(rt, alloc, program);
    match read_input(alloc, &program, text) {
        Ok(input) => has(&input, values),
        Err(_) => false,
    }
}

/// The error of a text, if it has one.
fn error_of(rt: &impl Abort, alloc: Global, program: &str, text: &[u8]) -> Option<InputError> {
    assert!(rt; text.len() <= 65_536);
    let program = program_of(rt, alloc, program);
    read_input(alloc, &program, text).err()
}

const NONE: &str = "int main(void) { }";

const CHAR: &str = "int main(char c) { }";

const INT: &str = "int main(int i) { }";

const UNSIGNED: &str = "int main(unsigned u) { }";

const FOUR: &str = "int main(int i, short s, int a[3], unsigned u) { }";

/// A program, a text, and the values of each parameter that it has.
type Row = (&'static str, &'static str, &'static [&'static [i64]]);

static VALUES: [Row; 10] = [
    (NONE, "", &[]),
    (NONE, " \n\t", &[]),
    (CHAR, "-128", &[&[-128]]),
    (CHAR, "127", &[&[127]]),
    (INT, "-2147483648\n", &[&[-2147483648]]),
    (INT, "-0", &[&[0]]),
    (INT, "007", &[&[7]]),
    (UNSIGNED, "4294967295", &[&[4294967295]]),
    (FOUR, "1 2 3 4 5 6", &[&[1], &[2], &[3, 4, 5], &[6]]),
    (
        FOUR,
        "\t-1\n-2\u{b}-3\u{c}-4\r-5  6 ",
        &[&[-1], &[-2], &[-3, -4, -5], &[6]],
    ),
];

/// The first text with other values, if there is one.
fn first_other_values(rt: &impl Abort, alloc: Global, rows: &[Row]) -> Option<usize> {
    for i in 0..rows.len() {
        let (program, text, values) = rows[i];
        if !has_values(rt, alloc, program, text.as_bytes(), values) {
            return Some(i);
        }
    }
    None
}

#[test]
fn numbers_go_to_their_parameters(rt: HostRuntime) {
    let other = first_other_values(&rt, rt.alloc(), VALUES.as_slice());
    assert_eq!(rt; other, None);
}

/// Programs, texts and their errors.
static ERRORS: [(&str, &str, InputError); 23] = [
    (INT, "1 x", InputError::NotANumber(2)),
    (INT, "2147483648", InputError::OutOfRange(1)),
    (INT, "", InputError::WrongCount),
    (INT, "1 2", InputError::WrongCount),
    (NONE, "0", InputError::WrongCount),
    (NONE, "-", InputError::NotANumber(1)),
    (CHAR, "128", InputError::OutOfRange(1)),
    (CHAR, "-129", InputError::OutOfRange(1)),
    (UNSIGNED, "4294967296", InputError::OutOfRange(1)),
    (UNSIGNED, "-1", InputError::OutOfRange(1)),
    (INT, "18446744073709551617", InputError::OutOfRange(1)),
    (INT, "-18446744073709551615", InputError::OutOfRange(1)),
    (INT, "+1", InputError::NotANumber(1)),
    (INT, "--1", InputError::NotANumber(1)),
    (INT, "1-", InputError::NotANumber(1)),
    (INT, "0x1", InputError::NotANumber(1)),
    (INT, "1\u{8}", InputError::NotANumber(1)),
    (FOUR, "1 2 3 4 5", InputError::WrongCount),
    (FOUR, "1 40000 3 -4 5 -6", InputError::OutOfRange(2)),
    (FOUR, "1 2 3 4 5 -6", InputError::OutOfRange(6)),
    (FOUR, "1 40000 3 4 y z", InputError::NotANumber(5)),
    (FOUR, "1 40000 3 4 5 6 z", InputError::NotANumber(7)),
    (FOUR, "1 40000 3 4 5 6 7", InputError::WrongCount),
];

/// The first text with another error or none, if there is one.
fn first_other_error(
    rt: &impl Abort,
    alloc: Global,
    rows: &[(&str, &str, InputError)],
) -> Option<usize> {
    for i in 0..rows.len() {
        let (program, text, error) = rows[i];
        if error_of(rt, alloc, program, text.as_bytes()) != Some(error) {
            return Some(i);
        }
    }
    None
}

#[test]
fn each_error_comes_at_its_piece(rt: HostRuntime) {
    let other = first_other_error(&rt, rt.alloc(), ERRORS.as_slice());
    assert_eq!(rt; other, None);
}

/// So many equal digits, and then one.
fn digits(rt: &impl Abort, alloc: Global, count: usize, digit: u8, last: u8) -> Vec<u8> {
    let mut text = Vec::new(alloc);
    for _ in 0..count {
        text.push(digit).expect(rt, "memory");
    }
    text.push(last).expect(rt, "memory");
    text
}

/// Whether 4,999 zeros and a 7 are read as 7.
fn reads_zeros(rt: &impl Abort, alloc: Global) -> bool {
    let zeros = digits(rt, alloc, 4_999, b'0', b'7');
    has_values(rt, alloc, INT, zeros.as_slice(), &[&[7]])
}

/// The error of 5,000 nines.
fn error_of_nines(rt: &impl Abort, alloc: Global) -> Option<InputError> {
    let nines = digits(rt, alloc, 4_999, b'9', b'9');
    error_of(rt, alloc, INT, nines.as_slice())
}

#[test]
fn a_number_may_have_thousands_of_digits(rt: HostRuntime) {
    assert!(rt; reads_zeros(&rt, rt.alloc()));
    let error = error_of_nines(&rt, rt.alloc());
    assert_eq!(rt; error, Some(InputError::OutOfRange(1)));
}

/// Whether inputs of one parameter are in these lines, with these values.
fn are(inputs: &[InputLine], rows: &[(u64, i64)]) -> bool {
    inputs.len() == rows.len()
        && inputs.iter().zip(rows.iter()).all(|(input, row)| {
            let lists = input.input.values.as_slice();
            input.line == row.0 && lists.len() == 1 && lists[0].as_slice() == [row.1].as_slice()
        })
}

/// Whether the text is read as at least so many inputs, in these lines and with these values.
fn has_inputs(
    rt: &impl Abort,
    alloc: Global,
    program: &str,
    text: &[u8],
    least: u32,
    rows: &[(u64, i64)],
) -> bool {
    assert!(rt; text.len() <= 65_536);
    let program = program_of(rt, alloc, program);
    match read_inputs(alloc, &program, text, least) {
        Ok(inputs) => are(inputs.as_slice(), rows),
        Err(_) => false,
    }
}

/// The error of a text of several inputs, if it has one.
fn inputs_error_of(
    rt: &impl Abort,
    alloc: Global,
    program: &str,
    text: &[u8],
    least: u32,
) -> Option<InputsError> {
    assert!(rt; text.len() <= 65_536);
    let program = program_of(rt, alloc, program);
    read_inputs(alloc, &program, text, least).err()
}

/// A program, a text, how many inputs there are to be, and their lines and values.
type Lines = (&'static str, &'static str, u32, &'static [(u64, i64)]);

static LINES: [Lines; 10] = [
    (INT, "# c\n\n3\n  3 ", 1, &[(3, 3), (4, 3)]),
    (INT, "7\r\n\t# x\n \r\n-1\r\n", 2, &[(1, 7), (4, -1)]),
    (INT, "\u{c}3\u{b}\n\u{b}4\u{c}", 1, &[(1, 3), (2, 4)]),
    (INT, "3\n", 1, &[(1, 3)]),
    (INT, "\n#\n##3\n# 3\n5", 0, &[(5, 5)]),
    (INT, "", 0, &[]),
    (INT, "# 3", 0, &[]),
    (NONE, "", 0, &[]),
    (NONE, "#\n\n \r", 0, &[]),
    (UNSIGNED, "4294967295\n0", 2, &[(1, 4294967295), (2, 0)]),
];

/// The first text with other inputs, if there is one.
fn first_other_inputs(rt: &impl Abort, alloc: Global, rows: &[Lines]) -> Option<usize> {
    for i in 0..rows.len() {
        let (program, text, least, inputs) = rows[i];
        if !has_inputs(rt, alloc, program, text.as_bytes(), least, inputs) {
            return Some(i);
        }
    }
    None
}

#[test]
fn each_line_is_an_input_but_blanks_and_comments(rt: HostRuntime) {
    let other = first_other_inputs(&rt, rt.alloc(), LINES.as_slice());
    assert_eq!(rt; other, None);
}

/// A program, a text, how many inputs there are to be, and the error.
type BadLines = (&'static str, &'static str, u32, InputsError);

static BAD_LINES: [BadLines; 13] = [
    (
        INT,
        "3\nx",
        1,
        InputsError::NotANumber { line: 2, number: 1 },
    ),
    (INT, "3 1", 1, InputsError::WrongCount { line: 1 }),
    (
        UNSIGNED,
        "3\n-1",
        1,
        InputsError::OutOfRange { line: 2, number: 1 },
    ),
    (
        INT,
        "# c\n\n4\n3 # c",
        1,
        InputsError::NotANumber { line: 4, number: 2 },
    ),
    (INT, "1 2\nx", 1, InputsError::WrongCount { line: 1 }),
    (
        INT,
        "3\nx",
        9,
        InputsError::NotANumber { line: 2, number: 1 },
    ),
    (INT, "", 1, InputsError::NoInput),
    (INT, "# c\n\n", 1, InputsError::NoInput),
    (INT, "3\n4", 3, InputsError::NoInput),
    (NONE, "0", 0, InputsError::WrongCount { line: 1 }),
    (
        NONE,
        "#\n\n0 x",
        1,
        InputsError::NotANumber { line: 3, number: 2 },
    ),
    (NONE, "", 1, InputsError::NoInput),
    (
        INT,
        "3\n \u{8}",
        1,
        InputsError::NotANumber { line: 2, number: 1 },
    ),
];

/// The first text with another error or none, if there is one.
fn first_other_bad_line(rt: &impl Abort, alloc: Global, rows: &[BadLines]) -> Option<usize> {
    for i in 0..rows.len() {
        let (program, text, least, error) = rows[i];
        if inputs_error_of(rt, alloc, program, text.as_bytes(), least) != Some(error) {
            return Some(i);
        }
    }
    None
}

#[test]
fn the_first_line_that_is_refused_is_told(rt: HostRuntime) {
    let other = first_other_bad_line(&rt, rt.alloc(), BAD_LINES.as_slice());
    assert_eq!(rt; other, None);
}

/// The error of a comment, so many lines `3` and this end.
fn error_of_lines(rt: &impl Abort, alloc: Global, count: usize, end: &[u8]) -> Option<InputsError> {
    let mut text = b"# c\n".to_vec(alloc).expect(rt, "memory");
    for _ in 0..count {
        text.extend_from_slice(b"3\n").expect(rt, "memory");
    }
    text.extend_from_slice(end).expect(rt, "memory");
    inputs_error_of(rt, alloc, INT, text.as_slice(), 1)
}

/// Counts of lines `3`, the end after them, and the error.
static LONG: [(usize, &str, Option<InputsError>); 6] = [
    (64, "", None),
    (64, " \n# x", None),
    (64, "\nx", Some(InputsError::TooMany { line: 67 })),
    (65, "x", Some(InputsError::TooMany { line: 66 })),
    (
        63,
        "x\n3",
        Some(InputsError::NotANumber {
            line: 65,
            number: 1,
        }),
    ),
    (63, "3\n3", Some(InputsError::TooMany { line: 66 })),
];

/// The first row with another error, if there is one.
fn first_other_length(rt: &impl Abort, alloc: Global) -> Option<usize> {
    for i in 0..LONG.len() {
        let (count, end, error) = LONG[i];
        if error_of_lines(rt, alloc, count, end.as_bytes()) != error {
            return Some(i);
        }
    }
    None
}

#[test]
fn sixty_four_lines_may_be_inputs(rt: HostRuntime) {
    let other = first_other_length(&rt, rt.alloc());
    assert_eq!(rt; other, None);
}
