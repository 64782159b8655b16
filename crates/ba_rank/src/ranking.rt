//! The ranking of statements.

ghost use Rattle.std.specs.Prelude.{◌≡◌, ℕ, map, nat_eq, AllPairs, IfOk, IsPermutation, flat_map, count_by, nat_lt};
ghost use Rattle.std.specs.List.{IsDistinct};
ghost use Rattle.std.specs.List.Sorted.{IsNonDecreasing};
ghost use Rattle.ba_rank.specs.Counts.{entry_of, is_named, is_of_same, once_if, times_named};
ghost use Rattle.ba_rank.specs.Ranking.{IsRanking, Precedes, lists_with, stands_in};

use ba_items::Items;
use ba_numbers::ids::StmtId;
use std::alloc::{AllocError, Global};

/// A statement, and the number of inputs that have it in one of their sets.
#[derive(Clone, Copy, Debug, PartialEq, Eq)]
pub struct Ranked {
    pub stmt: StmtId,
    pub inputs: u32,
}

/// All numbers of the sets, one set after the other.
fn all_of(alloc: Global, sets: &[Items<u32>]) -> Result<Vec<u32>, AllocError>
    ensures { IfOk result (λ numbers. numbers.items ≡ flat_map (λ set. set) sets.now) }
{
    let mut numbers = Vec::new(alloc);
    for set in sets {
        numbers.extend_from_slice(set.as_slice())?;
    }
    Ok(numbers)
}

/// Removes repeated numbers.
fn leave_once(numbers: &mut Vec<u32>)
    ensures once { (n : ℕ) →
        times_named n numbers.new.items ≡ once_if (is_named n numbers.old.items) }
    ensures distinct { IsDistinct nat_eq numbers.new.items }
{
    numbers.sort_unstable();
    numbers.dedup();
}

/// The numbers that are in some of the sets, each once.
fn numbers_in(alloc: Global, sets: &[Items<u32>]) -> Result<Vec<u32>, AllocError>
    ensures { IfOk result (λ numbers. (n : ℕ) →
        times_named n numbers.items ≡ once_if (stands_in n sets.now)) }
{
    let mut numbers = all_of(alloc, sets)?;
    leave_once(&mut numbers);
    Ok(numbers)
}

/// The numbers in the lists, each once for each list that has it.
fn named_by(alloc: Global, lists: &[Items<Items<u32>>]) -> Result<Vec<u32>, AllocError>
    ensures { IfOk result (λ numbers. (n : ℕ) →
        times_named n numbers.items ≡ lists_with n lists.now) }
{
    let mut numbers = Vec::new(alloc);
    for sets in lists {
        let others = numbers_in(alloc, sets.as_slice())?;
        numbers.extend_from_slice(others.as_slice())?;
    }
    Ok(numbers)
}

/// How many of the ascending numbers are below this one.
fn count_below(numbers: &[u32], limit: u64) -> usize
    requires { IsNonDecreasing numbers.now }
    ensures { result ≡ count_by (λ n. nat_lt n limit) numbers.now }
{
    numbers.partition_point(|number| u64::from(*number) < limit)
}

/// How often a number is among the ascending numbers.
fn times_named(numbers: &[u32], number: u32) -> usize
    requires { IsNonDecreasing numbers.now }
    ensures { result ≡ times_named number numbers.now }
{
    let number = u64::from(number);
    count_below(numbers, number + 1) - count_below(numbers, number)
}

/// The entry of the statement of this number, by how often it is among the ascending numbers.
///
/// The only error is out of memory, also for a count past 32 bits.
fn entry_of(numbers: &[u32], number: u32) -> Result<Ranked, AllocError>
    requires { IsNonDecreasing numbers.now }
    ensures { IfOk result (λ entry. entry ≡ entry_of numbers.now number) }
{
    let Ok(inputs) = u32::try_from(times_named(numbers, number)) else {
        return Err(AllocError);
    };
    Ok(Ranked {
        stmt: StmtId(number),
        inputs,
    })
}

/// The entries of the statements of these numbers.
fn entries_of(alloc: Global, numbers: &[u32], named: &[u32]) -> Result<Vec<Ranked>, AllocError>
    requires { IsNonDecreasing named.now }
    ensures { IfOk result (λ entries. entries.items ≡ map (entry_of named.now) numbers.now) }
{
    let mut entries = Vec::with_capacity(alloc, numbers.len())?;
    for number in numbers {
        entries.push(entry_of(named, *number)?)?;
    }
    Ok(entries)
}

/// Puts entries in order: by falling number of inputs, and then by ascending statement.
fn put_in_order(entries: &mut Vec<Ranked>)
    requires { IsDistinct is_of_same entries.old.items }
    ensures same { IsPermutation entries.old.items entries.new.items }
    ensures order { AllPairs Precedes entries.new.items }
{
    entries.sort_unstable_by(|entry, other| {
        other
            .inputs
            .cmp(&entry.inputs)
            .then(entry.stmt.0.cmp(&other.stmt.0))
    });
}

/// Ranks statements over several inputs. Each input has a list of sets, and each set the numbers of its
/// statements.
///
/// A statement that is in some set has one entry, with the number of inputs that have it in some of their
/// sets. The entries come by falling number of inputs, and those of one number by ascending statement.
///
/// The only error is out of memory, also for a count past 32 bits.
pub fn rank(alloc: Global, lists: &[Items<Items<u32>>]) -> Result<Items<Ranked>, AllocError>
    ensures { IfOk result (IsRanking lists.now) }
{
    let mut named = named_by(alloc, lists)?;
    named.sort_unstable();
    let mut numbers = Vec::from_slice(alloc, named.as_slice())?;
    leave_once(&mut numbers);
    let mut entries = entries_of(alloc, numbers.as_slice(), named.as_slice())?;
    put_in_order(&mut entries);
    Ok(Items::from_vec(entries))
}
