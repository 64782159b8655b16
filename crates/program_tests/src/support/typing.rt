//! What typing answers for a text, as words.

use ba_lex::{MAX_TEXT, tokens};
use ba_numbers::ids::At;
use ba_parse::parse;
use ba_types::check;
use ba_typing::TypeError;
use std::alloc::Global;
use std::panic::Expect;
use std::process::Abort;

/// The number of a fault and its place, or `fits` if there is none.
fn fault(rt: &impl Abort, alloc: Global, error: Option<TypeError>) -> String {
    match error {
        None => String::from_str(alloc, "fits").expect(rt, "memory"),
        Some(TypeError::UnknownName(at)) => at_position(rt, alloc, 1, at),
        Some(TypeError::Twice(at)) => at_position(rt, alloc, 2, at),
        Some(TypeError::WrongKind(at)) => at_position(rt, alloc, 3, at),
        Some(TypeError::WrongCount(at)) => at_position(rt, alloc, 4, at),
        Some(TypeError::NoMain) => String::from_str(alloc, "5").expect(rt, "memory"),
        Some(TypeError::BadLength(at)) => at_position(rt, alloc, 6, at),
        Some(TypeError::BreakOutside(at)) => at_position(rt, alloc, 7, at),
        Some(TypeError::CallInIndex(at)) => at_position(rt, alloc, 8, at),
        Some(TypeError::Limit(at)) => at_position(rt, alloc, 9, at),
        Some(TypeError::Memory) => panic!(rt; "memory"),
    }
}

fn at_position(rt: &impl Abort, alloc: Global, number: u32, at: At) -> String {
    format!(in alloc; "{number} at {}:{}", at.line, at.column).expect(rt, "memory")
}

/// What typing says of a text that has a tree.
fn answer(rt: &impl Abort, alloc: Global, text: &str) -> String {
    assert!(rt; text.len() <= MAX_TEXT);
    let tokens = tokens(alloc, text.as_bytes()).expect(rt, "tokens");
    let tree = parse(alloc, tokens.as_slice()).expect(rt, "a tree");
    fault(rt, alloc, check(alloc, &tree).err())
}

/// Whether typing says this of a text.
pub fn is_answer(rt: &impl Abort, alloc: Global, text: &str, expected: &str) -> bool {
    answer(rt, alloc, text).as_str() == expected
}

/// The first text with another answer, if there is one.
pub fn first_difference(rt: &impl Abort, alloc: Global, rows: &[(&str, &str)]) -> Option<usize> {
    for i in 0..rows.len() {
        let (text, expected) = rows[i];
        if !is_answer(rt, alloc, text, expected) {
            return Some(i);
        }
    }
    None
}
