//! Deletion of clauses: they are marked dead, the others are moved down in place, and the lists are threaded
//! anew.

ghost use Rattle.std.specs.Prelude.{◌≡◌, ◌≢◌, ℕ, ◌+◌, ◌*◌, ◌<◌, ◌≤◌, None, Some, OnOk, List, length, take, map, get_or};
ghost use Rattle.std.specs.List.{Contains};
ghost use Rattle.ba_lits.specs.Literals.{lit_at};
ghost use Rattle.ba_arena.specs.Clauses.{Clauses, IsLive, lits_at};
ghost use Rattle.ba_watch.specs.Threads.{AreThreaded, AreApart, SamePlain, index_at};
ghost use Rattle.ba_watch.specs.Deletion.{AreReferenced, AreAlone, IsNamed, IsWithout, IsKept, DeletesAll, MayLink, unnamed_of};

use crate::lists::Lists;
use crate::trail::Trail;
use ba_arena::{Arena, ClauseRef, Link};
use ba_items::fill_up;
use std::alloc::AllocError;

/// Makes room for the reference of the clause of a number.
///
/// The only error is out of memory, also if the number is 2^32 or more.
pub fn make_room(references: &mut Vec<Option<ClauseRef>>, number: u64) -> Result<(), AllocError>
    ensures same { (k : ℕ) → get_or references.new.items k None
        ≡ get_or references.old.items k None }
    ensures room { OnOk result (number < length references.new.items) }
{
    if number > u32::MAX as u64 {
        return Err(AllocError);
    }
    fill_up(references, number as usize + 1, None)
}

/// Removes the clauses of the numbers from a list of live clauses.
fn keep_unnamed(arena: &Arena, list: &mut Vec<ClauseRef>, numbers: &[u64])
    requires live { (k : ℕ) → k < length list.old.items
        → IsLive arena.now (get_or list.old.items k 0) }
    ensures { list.new.items ≡ unnamed_of arena.now numbers.now list.old.items }
{
    let mut count = 0;
    for place in 0..list.len() {
        let clause = list[place];
        let number = arena.number(clause);
        list[count] = clause;
        if !numbers.contains(&number) {
            count += 1;
        }
    }
    list.truncate(count);
}

/// Marks the clauses of the numbers dead.
pub fn mark_all(arena: &mut Arena, references: &mut Vec<Option<ClauseRef>>, numbers: &[u64])
    requires referenced { AreReferenced arena.old references.old.items }
    requires alone { AreAlone arena.old }
    ensures without { IsWithout (IsNamed numbers.now (length numbers.now)) arena.old arena.new }
    ensures referenced { AreReferenced arena.new references.new.items }
{
    for place in 0..numbers.len() {
        mark_one(arena, references, numbers[place]);
    }
}

/// Marks the clause of a number dead, if there is one.
fn mark_one(arena: &mut Arena, references: &mut Vec<Option<ClauseRef>>, number: u64)
    requires referenced { AreReferenced arena.old references.old.items }
    requires alone { AreAlone arena.old }
    ensures without { IsWithout (λ n. n ≡ number) arena.old arena.new }
    ensures referenced { AreReferenced arena.new references.new.items }
{
    let place = number as usize;
    if place >= references.len() {
        return;
    }
    if let Some(clause) = references[place] {
        arena.mark_dead(clause);
        references[place] = None;
    }
}

/// Threads the lists anew: each clause of two or more literals goes into those of its first two.
pub fn relink(arena: &mut Arena, heads: &mut Vec<Link>)
    requires apart { (clause : ℕ) → AreApart (lits_at arena.old clause) }
    requires room { (clause : ℕ) → MayLink (lits_at arena.old clause) (length heads.old.items) }
    ensures plain { SamePlain arena.old arena.new }
    ensures heads { length heads.new.items ≡ length heads.old.items }
    ensures threaded { (visited : ℕ) → AreThreaded arena.new heads.new.items visited None }
{
    empty_all(heads);
    let mut next = arena.first();
    while let Some(clause) = next {
        link_clause(arena, heads, clause);
        next = arena.after(clause);
    }
}

/// Empties all lists.
fn empty_all(heads: &mut Vec<Link>)
    ensures len { length heads.new.items ≡ length heads.old.items }
    ensures none { (k : ℕ) → get_or heads.new.items k None ≡ None }
{
    for place in 0..heads.len() {
        heads[place] = Link::none();
    }
}

/// Puts a clause into the lists of its first two literals, if it has two.
fn link_clause(arena: &mut Arena, heads: &mut Vec<Link>, clause: ClauseRef)
    requires live { IsLive arena.old clause }
    requires apart { AreApart (lits_at arena.old clause) }
    requires room { MayLink (lits_at arena.old clause) (length heads.old.items) }
    ensures live { IsLive arena.new clause }
    ensures plain { SamePlain arena.old arena.new }
    ensures heads { length heads.new.items ≡ length heads.old.items }
    ensures threaded { (visited : ℕ)
        → AreThreaded (take clause arena.old) heads.old.items visited None
        → AreThreaded (take (clause + 1) arena.new) heads.new.items visited None }
{
    if arena.len(clause) < 2 {
        return;
    }
    let one = arena.lit(clause, 0).index();
    let two = arena.lit(clause, 1).index();
    arena.set_link(clause, 0, heads[one].get());
    arena.set_link(clause, 1, heads[two].get());
    heads[one] = Link::some(clause);
    heads[two] = Link::some(clause);
}

/// Deletes the clauses of the numbers, none of which waits any more. Trail, waiting clauses and table follow
/// the others to their new indices.
pub fn delete_all(
    lists: &mut Lists,
    trail: &mut Trail,
    waiting: &mut Vec<ClauseRef>,
    references: &mut Vec<Option<ClauseRef>>,
    numbers: &[u64],
)
    requires idle { lists.old.pending ≡ None }
    requires referenced { AreReferenced lists.old.arena references.old.items }
    requires alone { AreAlone lists.old.arena }
    requires reasons { (p clause : ℕ) → get_or trail.old.reasons p None ≡ Some clause
        → IsKept lists.old.arena numbers.now clause }
    requires waiting { (k : ℕ) → k < length waiting.old.items
        → IsLive lists.old.arena (get_or waiting.old.items k 0) }
    requires room { (clause : ℕ) → MayLink (lits_at lists.old.arena clause)
        (length lists.old.heads.items) }
    ensures pending { lists.new.pending ≡ None }
    ensures heads { length lists.new.heads.items ≡ length lists.old.heads.items }
    ensures deletes { DeletesAll lists.old.arena lists.new.arena trail.old trail.new
        waiting.old.items waiting.new.items references.new.items numbers.now }
{
    let arena = &mut lists.arena;
    keep_unnamed(arena, waiting, numbers);
    mark_all(arena, references, numbers);
    trail.compact(arena, references, waiting);
    relink(arena, &mut lists.heads);
}
