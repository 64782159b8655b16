//! Certificates beside what they say, and damaged ones beside the first line that is refused, worked out by
//! hand from the table of steps.

use crate::support::problems::{Problem, array_example, feed_all, judge, settings};
use crate::support::programs::OLD_HEAD;
use ba_cert::head_text;
use ba_check::{CheckError, Confirmed, head_of};
use ba_items::Items;
use ba_numbers::ids::StmtId;
use std::alloc::Global;
use std::panic::Expect;
use std::process::Abort;

/// What a text says, or the line at which it is refused and the code.
#[derive(Clone, Copy, Debug, PartialEq, Eq)]
enum Answer {
    /// The array example's sets, of weight 1.
    Located,
    NoRepair,
    /// More sets of weight 1 than may be listed.
    TooMany,
    Spent,
    Refused(u64, u8),
    /// Another answer.
    Other,
}

use Answer::{Located, NoRepair, Refused, Spent, TooMany};

/// Some of the three statements is given up that can repair the array example.
const SOME: &[&[i64]] = &[&[-1, -3, -4]];

/// No assignment is a model.
const NONE: &[&[i64]] = &[&[1], &[-1]];

/// The two lines of version 2, with the settings of five conflicts and nine sets.
const HEAD: &str = "bugassist 2\nb 1 16 5 9\n";

/// The array example after the head: its core, the three sets, each with a run, and that there is no further
/// set.
const WHOLE: &str = "c -1 -3 -4 0 1 0
s 1 0 t 1
s 3 0 t 2
s 4 0 t 2
e l 0 12 13 14 2 0
";

fn are_example_sets(sets: &[Items<StmtId>]) -> bool {
    match sets {
        [first, second, third] => {
            first.as_slice() == [StmtId(1)].as_slice()
                && second.as_slice() == [StmtId(3)].as_slice()
                && third.as_slice() == [StmtId(4)].as_slice()
        }
        _ => false,
    }
}

fn answer_of(told: &Result<Confirmed, CheckError>) -> Answer {
    match told {
        Ok(Confirmed::Located { weight: 1, sets }) if are_example_sets(sets.as_slice()) => Located,
        Ok(Confirmed::NoRepair) => NoRepair,
        Ok(Confirmed::TooMany { weight: 1 }) => TooMany,
        Ok(Confirmed::Spent) => Spent,
        Err(CheckError::Line { line, code }) => Refused(*line, *code),
        _ => Answer::Other,
    }
}

/// The line that is refused, whatever the code.
fn refused_line(told: &Result<Confirmed, CheckError>) -> Option<u64> {
    match told {
        Err(CheckError::Line { line, .. }) => Some(*line),
        _ => None,
    }
}

/// What is shown, the text after the head, how many conflicts and sets there may be, and the answer.
type Row = (&'static str, &'static str, u64, u32, Answer);

/// A text after a head.
fn behind_head(rt: &impl Abort, alloc: Global, head: &[u8], body: &str) -> Vec<u8> {
    let mut text = Vec::new(alloc);
    text.extend_from_slice(head).expect(rt, "memory");
    text.extend_from_slice(body.as_bytes()).expect(rt, "memory");
    text
}

/// Whether a text is answered so as a whole, and in pieces of 1, 7 and 4,096 bytes.
fn are_answered(
    rt: &impl Abort,
    alloc: Global,
    problem: &Problem,
    text: &[u8],
    conflicts: u64,
    sets: u32,
    answer: Answer,
) -> bool {
    for size in [None, Some(1), Some(7), Some(4096)] {
        let told = judge(rt, alloc, problem, settings(conflicts, sets), text, size);
        if answer_of(&told) != answer {
            return false;
        }
    }
    true
}

/// The first row that is answered otherwise.
fn first_wrong(
    rt: &impl Abort,
    alloc: Global,
    clauses: &[&[i64]],
    rows: &[Row],
) -> Option<&'static str> {
    let problem = array_example(rt, alloc, clauses);
    for row in rows {
        let (shown, body, conflicts, sets, answer) = row;
        let text = behind_head(rt, alloc, OLD_HEAD.as_bytes(), body);
        if !are_answered(
            rt,
            alloc,
            &problem,
            text.as_slice(),
            *conflicts,
            *sets,
            *answer,
        ) {
            return Some(*shown);
        }
        // After the two lines of version 2 it is the same, one line later.
        let own = head_of(settings(*conflicts, *sets));
        let head = head_text(alloc, &own).expect(rt, "memory");
        let text = behind_head(rt, alloc, head.as_slice(), body);
        let later = a_line_later(*answer);
        if !are_answered(
            rt,
            alloc,
            &problem,
            text.as_slice(),
            *conflicts,
            *sets,
            later,
        ) {
            return Some(*shown);
        }
    }
    None
}

/// The same answer, if a line more is before the steps.
fn a_line_later(answer: Answer) -> Answer {
    match answer {
        Refused(line, code) => Refused(line.saturating_add(1), code),
        same => same,
    }
}

static ROWS: [Row; 36] = [
    ("all sets", WHOLE, 5, 9, Located),
    (
        "more than two sets",
        "c -1 -3 -4 0 1 0\ns 1 0 t 1\ns 3 0 t 2\ns 4 0 t 2\ne m\n",
        5,
        2,
        TooMany,
    ),
    ("one conflict", "c -1 -3 -4 0 1 0\ne b\n", 1, 9, Spent),
    ("no conflict", "e b\n", 0, 9, Spent),
    (
        "a hint names no clause",
        "c -1 -3 -4 0 9 0\n",
        5,
        9,
        Refused(2, 1),
    ),
    (
        "a false clause before the last hint",
        "c -1 -3 -4 0 1 1 0\n",
        5,
        9,
        Refused(2, 2),
    ),
    (
        "a clause with two literals left",
        "c -1 0 1 0\n",
        5,
        9,
        Refused(2, 2),
    ),
    (
        "hints end without a false clause",
        "e n 0\n",
        5,
        9,
        Refused(2, 3),
    ),
    (
        "a core of a literal that is no soft one's",
        "c 1 0 1 0\n",
        5,
        9,
        Refused(2, 4),
    ),
    (
        "a clause of the formula is deleted",
        "d 1 0\n",
        5,
        9,
        Refused(2, 5),
    ),
    (
        "a run that fails",
        "c -1 -3 -4 0 1 0\ns 1 0 k\n",
        5,
        9,
        Refused(3, 6),
    ),
    (
        "a run with choices of another set",
        "c -1 -3 -4 0 1 0\ns 3 0 t 1 t 1\n",
        5,
        9,
        Refused(3, 6),
    ),
    (
        "a set twice",
        "c -1 -3 -4 0 1 0\ns 1 0 t 1\ns 1 0 t 1\n",
        5,
        9,
        Refused(4, 7),
    ),
    (
        "a set that weighs more than the bound",
        "s 3 0 t 2\n",
        5,
        9,
        Refused(2, 8),
    ),
    (
        "a step after the end",
        "c -1 -3 -4 0 1 0\ns 1 0 t 1\ns 3 0 t 2\ns 4 0 t 2\ne l 0 12 13 14 2 0\ne b\n",
        5,
        9,
        Refused(7, 9),
    ),
    (
        "a clause that is there",
        "l -1 -3 -4 0 1 0\n",
        5,
        9,
        Refused(2, 10),
    ),
    (
        "too soon for a deletion",
        "c -1 -3 -4 0 1 0\nl -3 -4 -6 0 7 3 0\nd 12 0\n",
        5,
        9,
        Refused(4, 11),
    ),
    (
        "a core after a set",
        "c -1 -3 -4 0 1 0\ns 1 0 t 1\nc -2 0 1 0\n",
        5,
        9,
        Refused(4, 12),
    ),
    (
        "conflicts that are not spent",
        "e b\n",
        5,
        9,
        Refused(2, 13),
    ),
    ("no set of too many", "e m\n", 5, 9, Refused(2, 13)),
    ("no set of all", "e l 0 1 0\n", 5, 9, Refused(2, 13)),
    (
        "as many sets as may be listed",
        "c -1 -3 -4 0 1 0\ns 1 0 t 1\ns 3 0 t 2\ns 4 0 t 2\ne m\n",
        5,
        3,
        Refused(6, 13),
    ),
    (
        "a set is missing",
        "c -1 -3 -4 0 1 0\ns 1 0 t 1\ns 3 0 t 2\ne l 0 12 13 14 2 0\n",
        5,
        9,
        Refused(5, 1),
    ),
    (
        "a clause after the last conflict",
        "c -1 -3 -4 0 1 0\nl -3 -4 -6 0 7 3 0\n",
        1,
        9,
        Refused(3, 13),
    ),
    ("an assert in a set", "s 5 0 k\n", 5, 9, Refused(2, 14)),
    (
        "a variable that is not there",
        "l 5 0 1 0\n",
        5,
        9,
        Refused(2, 14),
    ),
    ("a leading zero", "l 01 0 1 0\n", 5, 9, Refused(2, 20)),
    ("no step", "x\n", 5, 9, Refused(2, 20)),
    ("an empty line", "\n", 0, 9, Refused(2, 20)),
    ("a space at the end", "e b \n", 0, 9, Refused(2, 20)),
    ("two spaces", "e  b\n", 0, 9, Refused(2, 20)),
    ("a carriage return", "e b\r\n", 0, 9, Refused(2, 20)),
    ("no step after the end", "e b\nx\n", 0, 9, Refused(3, 20)),
    (
        "the head line again",
        "bugassist 1\ne b\n",
        0,
        9,
        Refused(2, 20),
    ),
    ("bytes after the end", "e b\ne", 0, 9, Refused(3, 21)),
    ("the last line feed is missing", "e b", 0, 9, Refused(2, 21)),
];

#[test]
fn certificates_are_answered_by_the_table(rt: HostRuntime) {
    let wrong = first_wrong(&rt, rt.alloc(), SOME, &ROWS);
    assert_eq!(rt; wrong, None);
}

static WITHOUT_MODEL: [Row; 2] = [
    ("no model", "e n 1 2 0\n", 1, 9, NoRepair),
    (
        "the conflicts are spent",
        "e n 1 2 0\n",
        0,
        9,
        Refused(2, 13),
    ),
];

#[test]
fn no_model_is_no_repair(rt: HostRuntime) {
    let wrong = first_wrong(&rt, rt.alloc(), NONE, &WITHOUT_MODEL);
    assert_eq!(rt; wrong, None);
}

/// Texts without a right head, and what they are answered if there may be no conflict and nine sets.
static HEADLESS: [(&str, Answer); 44] = [
    ("", Refused(1, 21)),
    ("bugassist 1", Refused(1, 21)),
    ("bugassist 1\n", Refused(2, 21)),
    ("bugassist 1 \ne b\n", Refused(1, 20)),
    ("\n", Refused(1, 20)),
    ("bugassist 2", Refused(1, 21)),
    ("bugassist 2\n", Refused(2, 21)),
    ("bugassist 3\n", Refused(1, 20)),
    ("bugassist 12\n", Refused(1, 20)),
    ("bugassist 2 \nb 1 16 0 9\ne b\n", Refused(1, 20)),
    ("b 1 16 0 9\ne b\n", Refused(1, 20)),
    ("bugassist 2\nb 1 16 0 9", Refused(2, 21)),
    ("bugassist 2\nb 1 16 0 9\n", Refused(3, 21)),
    ("bugassist 2\nb 1 16 0 9\ne b", Refused(3, 21)),
    ("bugassist 2\nb 1 16 0 9\ne b\n", Spent),
    ("bugassist 1\ne b\n", Spent),
    // Each of the four numbers differs alone.
    ("bugassist 2\nb 2 16 0 9\ne b\n", Refused(2, 22)),
    ("bugassist 2\nb 1 17 0 9\ne b\n", Refused(2, 22)),
    ("bugassist 2\nb 1 16 1 9\ne b\n", Refused(2, 22)),
    ("bugassist 2\nb 1 16 0 8\ne b\n", Refused(2, 22)),
    ("bugassist 2\nb 0 16 0 9\ne b\n", Refused(2, 22)),
    ("bugassist 2\nb 1 0 0 9\ne b\n", Refused(2, 22)),
    ("bugassist 2\nb 4294967295 16 0 9\ne b\n", Refused(2, 22)),
    ("bugassist 2\nb 1 16 0 4294967295\ne b\n", Refused(2, 22)),
    (
        "bugassist 2\nb 1 16 4611686018427387903 9\ne b\n",
        Refused(2, 22),
    ),
    // Lines that are no settings.
    (
        "bugassist 2\nb 1 16 4611686018427387904 9\ne b\n",
        Refused(2, 20),
    ),
    ("bugassist 2\nb 4294967296 16 0 9\ne b\n", Refused(2, 20)),
    ("bugassist 2\nb 1 4294967296 0 9\ne b\n", Refused(2, 20)),
    ("bugassist 2\nb 1 16 0 4294967296\ne b\n", Refused(2, 20)),
    ("bugassist 2\nb 00 16 0 9\ne b\n", Refused(2, 20)),
    ("bugassist 2\nb 01 16 0 9\ne b\n", Refused(2, 20)),
    ("bugassist 2\nb 1 16 0\ne b\n", Refused(2, 20)),
    ("bugassist 2\nb 1 16 0 9 9\ne b\n", Refused(2, 20)),
    ("bugassist 2\nb 1 16  0 9\ne b\n", Refused(2, 20)),
    ("bugassist 2\nb 1 16 0 9 \ne b\n", Refused(2, 20)),
    ("bugassist 2\nb 1 16 0 9\r\ne b\n", Refused(2, 20)),
    ("bugassist 2\nb 1 16 -0 9\ne b\n", Refused(2, 20)),
    ("bugassist 2\nb 1 -16 0 9\ne b\n", Refused(2, 20)),
    ("bugassist 2\n\nb 1 16 0 9\ne b\n", Refused(2, 20)),
    ("bugassist 2\nbugassist 2\n", Refused(2, 20)),
    ("bugassist 2\ne b\n", Refused(2, 20)),
    ("bugassist 2\nb 1 16 0 9\nb 1 16 0 9\ne b\n", Refused(3, 20)),
    ("bugassist 1\nb 1 16 0 9\ne b\n", Refused(2, 20)),
    ("bugassist 2\nb 1 16 0 9\nbugassist 2\n", Refused(3, 20)),
];

/// Whether texts without a right head are answered so.
fn are_headless(rt: &impl Abort, alloc: Global) -> bool {
    let problem = array_example(rt, alloc, SOME);
    for row in &HEADLESS {
        let (text, answer) = *row;
        if !are_answered(rt, alloc, &problem, text.as_bytes(), 0, 9, answer) {
            return false;
        }
    }
    true
}

#[test]
fn a_right_head_stands_first(rt: HostRuntime) {
    let are_right = are_headless(&rt, rt.alloc());
    assert!(rt; are_right);
}

/// The number of the line in which what follows these bytes stands.
pub fn line_behind(bytes: &[u8]) -> u64 {
    let mut line: u64 = 1;
    for byte in bytes {
        if *byte == b'\n' {
            line = line.saturating_add(1);
        }
    }
    line
}

/// Whether each part of the example's certificate that is cut off ends too early, in its last line.
fn end_too_early(rt: &impl Abort, alloc: Global, head: &str) -> bool {
    let problem = array_example(rt, alloc, SOME);
    let text = behind_head(rt, alloc, head.as_bytes(), WHOLE);
    for count in 0..text.len() {
        let front = &text.as_slice()[..count];
        let answer = Refused(line_behind(front), 21);
        if !are_answered(rt, alloc, &problem, front, 5, 9, answer) {
            return false;
        }
    }
    true
}

#[test]
fn a_certificate_that_is_cut_off_ends_too_early(rt: HostRuntime) {
    let are_right = end_too_early(&rt, rt.alloc(), OLD_HEAD)
        && end_too_early(&rt, rt.alloc(), HEAD);
    assert!(rt; are_right);
}

/// Whether the example's certificate is refused if another digit is in the place of one of its bytes, in the
/// line of that byte.
fn are_refused_in_their_lines(rt: &impl Abort, alloc: Global, head: &str) -> bool {
    let problem = array_example(rt, alloc, SOME);
    let mut text = behind_head(rt, alloc, head.as_bytes(), WHOLE);
    for place in 0..text.len() {
        let byte = text[place];
        text[place] = if byte == b'9' { b'8' } else { b'9' };
        let told = judge(rt, alloc, &problem, settings(5, 9), text.as_slice(), None);
        if refused_line(&told) != Some(line_behind(&text.as_slice()[..place])) {
            return false;
        }
        text[place] = byte;
    }
    true
}

#[test]
fn a_byte_that_is_changed_is_refused_in_its_line(rt: HostRuntime) {
    let are_right = are_refused_in_their_lines(&rt, rt.alloc(), OLD_HEAD)
        && are_refused_in_their_lines(&rt, rt.alloc(), HEAD);
    assert!(rt; are_right);
}

/// What each piece is answered, and in the end the text.
type Pieces = (&'static [(&'static str, Option<(u64, u8)>)], Answer);

/// Whether the pieces are answered so, one after the other.
fn are_fed(rt: &impl Abort, alloc: Global, pieces: &Pieces) -> bool {
    let problem = array_example(rt, alloc, SOME);
    let mut refusals = Vec::new(alloc);
    let mut texts = Vec::new(alloc);
    let mut expected = Vec::new(alloc);
    for (text, refusal) in pieces.0 {
        texts.push(*text).expect(rt, "memory");
        expected
            .push(refusal.map(|(line, code)| CheckError::Line { line, code }))
            .expect(rt, "memory");
    }
    let told = feed_all(
        rt,
        alloc,
        &problem,
        settings(5, 9),
        texts.as_slice(),
        &mut refusals,
    );
    answer_of(&told) == pieces.1 && refusals.as_slice() == expected.as_slice()
}

static FED: [Pieces; 6] = [
    (&[("bugassist 1", None), ("\n", None)], Refused(2, 21)),
    (
        &[
            ("bugassist 1\n", None),
            ("e b\n", Some((2, 13))),
            ("", Some((2, 13))),
            ("e n 0\n", Some((2, 13))),
        ],
        Refused(2, 13),
    ),
    (
        &[
            ("bugassist 1\nx", None),
            ("", None),
            ("\ny\n", Some((2, 20))),
        ],
        Refused(2, 20),
    ),
    (
        &[
            (
                "bugassist 1\nc -1 -3 -4 0 1 0\ns 1 0 t 1\ns 3 0 t 2\ns 4 0 t 2\ne l 0 12",
                None,
            ),
            (" 13 14 2 0", None),
            ("\n", None),
        ],
        Located,
    ),
    (
        &[
            ("bugassist 2", None),
            ("\nb 1 1", None),
            (
                "6 5 9\nc -1 -3 -4 0 1 0\ns 1 0 t 1\ns 3 0 t 2\ns 4 0 t 2\ne l 0 12",
                None,
            ),
            (" 13 14 2 0\n", None),
        ],
        Located,
    ),
    (
        &[
            ("bugassist 2\nb 1 16 5 9", None),
            ("9\ne b\n", Some((2, 22))),
            ("e b\n", Some((2, 22))),
        ],
        Refused(2, 22),
    ),
];

/// The first of these that is answered otherwise.
fn first_misfed(rt: &impl Abort, alloc: Global) -> Option<usize> {
    for (place, pieces) in FED.iter().enumerate() {
        if !are_fed(rt, alloc, pieces) {
            return Some(place);
        }
    }
    None
}

#[test]
fn pieces_are_answered_one_after_the_other(rt: HostRuntime) {
    let wrong = first_misfed(&rt, rt.alloc());
    assert_eq!(rt; wrong, None);
}
