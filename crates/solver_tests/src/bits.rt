//! Lists of constants, whose bits are constants: the values are those that C gives.

use crate::support::lists::{are_names, are_words, row};
use ba_bits::{Cells, bits_of, needed_entries};
use ba_items::Items;
use ba_nodes::Nodes;
use ba_numbers::numbers::{BinOp, CType, UnOp};
use ba_wordlist::words::WordOp;
use ba_words::Word;
use std::alloc::Global;
use std::panic::Expect;
use std::process::Abort;

/// The number of a word of constant bits.
fn number_of(word: &Word) -> Option<u32> {
    let mut number = 0;
    for i in 0..32 {
        let bit = word[31 - i];
        if bit.index != 0 {
            return None;
        }
        number = number << 1 | u32::from(bit.negated);
    }
    Some(number)
}

/// The cells of the entries of a list, of which those that are marked are needed.
fn cells_of(
    rt: &impl Abort,
    alloc: Global,
    nodes: &mut Nodes,
    words: &[WordOp],
    needed: &[bool],
) -> Vec<Cells> {
    assert!(rt; are_words(rt, alloc, words));
    assert_eq!(rt; needed.len(), words.len());
    bits_of(alloc, nodes, words, needed).expect(rt, "memory")
}

/// The numbers of the words of the last entry of a list of constants, all entries of which are needed.
fn last_of(rt: &impl Abort, alloc: Global, words: &[WordOp]) -> Vec<Option<u32>> {
    let needed = vec![in alloc; true; words.len()].expect(rt, "memory");
    let mut nodes = Nodes::new(alloc);
    let entries = cells_of(rt, alloc, &mut nodes, words, needed.as_slice());
    last_numbers(rt, alloc, entries.as_slice(), words.len())
}

/// The numbers of the words of the last one of so many entries.
fn last_numbers(
    rt: &impl Abort,
    alloc: Global,
    entries: &[Cells],
    count: usize,
) -> Vec<Option<u32>> {
    assert_eq!(rt; entries.len(), count);
    let mut numbers = Vec::new(alloc);
    if let Some(cells) = entries.last() {
        for word in cells.as_slice() {
            numbers.push(number_of(word)).expect(rt, "memory");
        }
    }
    numbers
}

/// The numbers of the words of the last entry are these.
fn expect_last(rt: &impl Abort, alloc: Global, words: &[WordOp], numbers: &[Option<u32>]) {
    let last = last_of(rt, alloc, words);
    assert_eq!(rt; last.as_slice(), numbers);
}

/// The value of a binary operator at two constants.
fn value_of(rt: &impl Abort, alloc: Global, op: BinOp, t: CType, a: i64, b: i64) -> Option<u32> {
    let words = row(
        rt,
        alloc,
        [
            WordOp::Const(a),
            WordOp::Const(b),
            WordOp::Binary { op, t, a: 0, b: 1 },
        ],
    );
    let numbers = last_of(rt, alloc, words.as_slice());
    only(rt, numbers.as_slice())
}

/// The only one of some numbers.
fn only(rt: &impl Abort, numbers: &[Option<u32>]) -> Option<u32> {
    assert_eq!(rt; numbers.len(), 1);
    numbers[0]
}

/// Operators, types, operands and values.
static OPERATIONS: [(BinOp, CType, i64, i64, i64); 21] = [
    (BinOp::Mul, CType::I32, 7, -3, -21),
    (BinOp::Div, CType::I32, 7, -3, -2),
    (BinOp::Div, CType::U32, 7, -3, 0),
    (BinOp::Rem, CType::I32, -7, 3, -1),
    (BinOp::Rem, CType::I32, -7, 0, -7),
    (BinOp::Add, CType::I32, 2147483647, 1, -2147483648),
    (BinOp::Sub, CType::U32, 0, 1, 4294967295),
    (BinOp::Shl, CType::I32, 3, 33, 6),
    (BinOp::Shr, CType::I32, -3, 1, -2),
    (BinOp::Shr, CType::U32, -3, 1, 2147483646),
    (BinOp::Lt, CType::I32, -1, 0, 1),
    (BinOp::Lt, CType::U32, -1, 0, 0),
    (BinOp::Gt, CType::I32, 5, 4, 1),
    (BinOp::Le, CType::I32, 5, 4, 0),
    (BinOp::Le, CType::U32, 4, 4, 1),
    (BinOp::Ge, CType::I32, 4, 5, 0),
    (BinOp::Eq, CType::U32, -1, 4294967295, 1),
    (BinOp::Ne, CType::I32, 4, 4, 0),
    (BinOp::And, CType::I32, 12, 10, 8),
    (BinOp::Xor, CType::I32, 12, 10, 6),
    (BinOp::Or, CType::I32, 12, 10, 14),
];

#[test]
fn binary_operators(rt: HostRuntime) {
    for case in &OPERATIONS {
        let (op, t, a, b, value) = *case;
        let wanted = i64::rem_euclid(value, 4294967296);
        let got = value_of(&rt, rt.alloc(), op, t, a, b).map(i64::from);
        assert_eq!(rt; got, Some(wanted), "{op:?} in {t:?} of {a} and {b}");
    }
}

#[test]
fn unary_operators_and_conversions(rt: HostRuntime) {
    let alloc = rt.alloc();
    let words = row(
        &rt,
        alloc,
        [
            WordOp::Const(200),
            WordOp::Convert { t: CType::I8, a: 0 },
            WordOp::Unary {
                op: UnOp::Neg,
                t: CType::I32,
                a: 1,
            },
            WordOp::Unary {
                op: UnOp::Flip,
                t: CType::I32,
                a: 2,
            },
        ],
    );
    expect_last(&rt, alloc, words.as_slice(), &[Some(4294967239)]);
}

#[test]
fn arrays_are_filled_written_and_read(rt: HostRuntime) {
    let alloc = rt.alloc();
    let values = Items::from_slice(alloc, [2, 1, 2].as_slice()).expect(&rt, "memory");
    let words = row(
        &rt,
        alloc,
        [
            WordOp::Const(0),
            WordOp::Const(1),
            WordOp::Const(2),
            WordOp::Zeros(3),
            WordOp::Fill {
                of: 3,
                values,
                when: 1,
            },
            WordOp::Write {
                of: 4,
                index: 2,
                value: 1,
                when: 2,
            },
            WordOp::Write {
                of: 5,
                index: 0,
                value: 1,
                when: 0,
            },
        ],
    );
    expect_last(&rt, alloc, words.as_slice(), &[Some(2), Some(1), Some(1)]);
}

/// The entries that roots need are those that are marked.
fn expect_needed(rt: &impl Abort, alloc: Global, words: &[WordOp], roots: &[u32], marks: &[bool]) {
    assert!(rt; are_words(rt, alloc, words));
    assert!(rt; are_names(words.len(), roots));
    let needed = needed_entries(alloc, words, roots).expect(rt, "memory");
    assert_eq!(rt; needed.as_slice(), marks);
}

/// How many entries a list has, and how many nodes its needed entries take.
fn sizes(rt: &impl Abort, alloc: Global, words: &[WordOp], needed: &[bool]) -> (usize, usize) {
    let mut nodes = Nodes::new(alloc);
    let entries = cells_of(rt, alloc, &mut nodes, words, needed);
    (entries.len(), nodes.as_slice().len())
}

#[test]
fn what_nothing_names_is_not_needed(rt: HostRuntime) {
    let alloc = rt.alloc();
    let words = row(
        &rt,
        alloc,
        [
            WordOp::Free,
            WordOp::Free,
            WordOp::Convert { t: CType::U8, a: 0 },
            WordOp::Select {
                which: 1,
                yes: 2,
                no: 0,
            },
            WordOp::Convert { t: CType::U8, a: 2 },
        ],
    );
    let marks = [true, false, true, false, true];
    expect_needed(&rt, alloc, words.as_slice(), &[4], &marks);
    assert_eq!(rt; sizes(&rt, alloc, words.as_slice(), &marks), (5, 32));
}
