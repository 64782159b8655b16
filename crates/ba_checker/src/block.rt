//! Sets of groups, their weights, and the clauses that block them.

ghost use Rattle.std.specs.Prelude.{◌≡◌, ◌≤◌, ◌==◌, List, OnOk, IfOk, insert, length, nat_eq};
ghost use Rattle.std.specs.List.{list_any};
ghost use Rattle.std.specs.Cmp.Lexicographic.{pointwise};
ghost use Rattle.ba_checker.specs.Blocks.{entry_of, weight_at, set_weight, lacks_group, is_among, inserted, with_selector, block_clause};

use ba_items::Items;
use ba_lits::Lit;
use std::alloc::{AllocError, Global};

/// The entry of a group, by its number, from 1 on; `None` if there is none.
fn entry_of(groups: &[(Lit, u32)], number: u32) -> Option<(Lit, u32)>
    ensures { result ≡ entry_of groups.now number }
{
    if number == 0 {
        return None;
    }
    groups.get(number as usize - 1).copied()
}

/// The weight of a group; 0 if there is none.
fn weight_at(groups: &[(Lit, u32)], number: u32) -> u32
    ensures { result ≡ weight_at groups.now number }
{
    match entry_of(groups, number) {
        None => 0,
        Some(entry) => entry.1,
    }
}

/// Whether a number of the set names no group.
pub fn lacks_group(groups: &[(Lit, u32)], set: &[u32]) -> bool
    ensures { result ≡ lacks_group groups.now set.now }
{
    set.iter().any(|group| weight_at(groups, *group) == 0)
}

/// The sum of the weights of a set's groups.
pub fn set_weight(groups: &[(Lit, u32)], set: &[u32]) -> u128
    ensures { result ≡ set_weight groups.now set.now }
{
    let mut weight = 0u128;
    for group in set {
        weight += weight_at(groups, *group) as u128;
    }
    weight
}

/// Whether the set is one of these.
pub fn is_among(sets: &[Items<u32>], set: &[u32]) -> bool
    ensures { result ≡ is_among sets.now set.now }
{
    sets.iter().any(|other| other.as_slice() == set)
}

/// The clause that blocks a set: the selectors of its groups, by ascending variable.
pub fn block_clause(
    alloc: Global,
    groups: &[(Lit, u32)],
    set: &[u32],
) -> Result<Vec<Lit>, AllocError>
    ensures { IfOk result (λ lits. lits.items ≡ block_clause groups.now set.now) }
{
    let mut lits = Vec::new(alloc);
    for place in (0..set.len()).rev() {
        add_selector(&mut lits, entry_of(groups, set[place]))?;
    }
    Ok(lits)
}

/// Inserts the selector of an entry, if there is one, into literals of ascending variables.
fn add_selector(lits: &mut Vec<Lit>, entry: Option<(Lit, u32)>) -> Result<(), AllocError>
    ensures { OnOk result (lits.new.items ≡ with_selector entry lits.old.items) }
{
    if let Some((lit, _)) = entry {
        let place = insertion_index(lits.as_slice(), lit);
        lits.insert(place, lit)?;
    }
    Ok(())
}

/// The index of a literal among literals of ascending variables.
fn insertion_index(lits: &[Lit], lit: Lit) -> usize
    ensures within { result ≤ length lits.now }
    ensures place { insert lits.now result lit ≡ inserted lit lits.now }
{
    for (place, other) in lits.iter().enumerate() {
        if lit.variable() < other.variable() {
            return place;
        }
    }
    lits.len()
}
