//! Which entries of a word list are needed.

ghost use Rattle.std.specs.Prelude.{◌≡◌, ◌<◌, true, length, cond, IfOk};
ghost use Rattle.ba_bits.specs.Bits.{is_needed};
ghost use Rattle.ba_bits.specs.Needs.{AreClosed, AreFewest, are_needed, marked, names_of};
ghost use Rattle.ba_wordlist.specs.Facts.{are_names, are_words};

use ba_wordlist::words::WordOp;
use std::alloc::{AllocError, Global};

/// For each entry of the list, whether it is a root or some root is made from it.
///
/// The only error is out of memory.
pub fn needed_entries(
    alloc: Global,
    words: &[WordOp],
    roots: &[u32],
) -> Result<Vec<bool>, AllocError>
    requires words { are_words words.now ≡ true }
    requires roots { are_names (length words.now) roots.now ≡ true }
    ensures many { IfOk result (λ needed. length needed.items ≡ length words.now) }
    ensures roots { IfOk result (λ needed. are_needed needed.items roots.now ≡ true) }
    ensures closed { IfOk result (λ needed. AreClosed words.now needed.items) }
    ensures fewest { IfOk result (λ needed. AreFewest words.now roots.now needed.items) }
{
    let mut needed = Vec::new(alloc);
    needed.resize(words.len(), false)?;
    mark_all(needed.as_mut_slice(), roots);
    for i in 0..words.len() {
        let number = words.len() - 1 - i;
        mark_from(needed.as_mut_slice(), number, &words[number]);
    }
    Ok(needed)
}

/// Marks the entries that the entry of this number names, if it is marked itself.
fn mark_from(needed: &mut [bool], number: usize, op: &WordOp)
    requires number { number < length needed.old }
    requires names { are_names (length needed.old) (names_of op.now) ≡ true }
    ensures { needed.new
        ≡ cond (is_needed needed.old number) (marked needed.old (names_of op.now)) needed.old }
{
    if needed[number] {
        mark_names(needed, op);
    }
}

/// Marks the entries that an entry names.
fn mark_names(needed: &mut [bool], op: &WordOp)
    requires { are_names (length needed.old) (names_of op.now) ≡ true }
    ensures { needed.new ≡ marked needed.old (names_of op.now) }
{
    match op {
        WordOp::Const(_) | WordOp::Free | WordOp::Flag | WordOp::Zeros(_) => {}
        WordOp::Unary { a, .. } | WordOp::Convert { a, .. } => mark_all(needed, &[*a]),
        WordOp::Binary { a, b, .. } => mark_all(needed, &[*a, *b]),
        WordOp::Select { which, yes, no } => mark_all(needed, &[*which, *yes, *no]),
        WordOp::Read { array, index } => mark_all(needed, &[*array, *index]),
        WordOp::Fill { of, values, when } => {
            mark_all(needed, &[*of, *when]);
            mark_all(needed, values.as_slice());
        }
        WordOp::Write {
            of,
            index,
            value,
            when,
        } => mark_all(needed, &[*of, *index, *value, *when]),
    }
}

/// Marks entries.
fn mark_all(needed: &mut [bool], numbers: &[u32])
    requires { are_names (length needed.old) numbers.now ≡ true }
    ensures { needed.new ≡ marked needed.old numbers.now }
{
    for number in numbers {
        needed[*number as usize] = true;
    }
}
