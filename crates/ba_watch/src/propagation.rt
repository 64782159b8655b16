//! Propagation of literals: visits of the clauses that watch a literal that became false.

ghost use Rattle.std.specs.Prelude.{◌≡◌, ◌≢◌, ℕ, ◌+◌, ◌*◌, ◌-◌, ◌<◌, ◌≤◌, ◌∷◌, [], None, Some, Option, false, true, IsTrue, ◌↔◌, IfSome, IfNone, List, length};
ghost use Rattle.ba_lits.specs.Literals.{lit_at};
ghost use Rattle.ba_arena.specs.Clauses.{Clauses, IsLive, lits_at};
ghost use Rattle.ba_watch.specs.Chains.{occurrences};
ghost use Rattle.ba_watch.specs.Threads.{pending_of, watch_count};
ghost use Rattle.ba_watch.specs.Trails.{Assignments, value_of};
ghost use Rattle.ba_watch.specs.Propagation.{is_false, AreFacts, Visits, IsUnderway, InRange, Propagates};

use crate::lists::Lists;
use crate::trail::Trail;
use ba_arena::{Arena, ClauseRef};

/// The first index from 2 on whose literal isn't false.
fn find_watch(arena: &Arena, trail: &Trail, clause: ClauseRef) -> Option<usize>
    requires live { IsLive arena.now clause }
    requires range { InRange arena.now trail.now.variables }
    ensures some { IfSome result (λ k. (2 ≤ k) × (k < length (lits_at arena.now clause))
        × (value_of trail.now.lits (lit_at (lits_at arena.now clause) k) ≢ Some false)) }
    ensures none { IfNone result ((k : ℕ) → 2 ≤ k → k < length (lits_at arena.now clause)
        → value_of trail.now.lits (lit_at (lits_at arena.now clause) k) ≡ Some false) }
{
    for place in 2..arena.len(clause) {
        if !trail.is_false(arena.lit(clause, place)) {
            return Some(place);
        }
    }
    None
}

/// Visits the next clause of the visited list, and answers whether it is false. Else its other watched
/// literal is true or becomes true, or the clause watches another literal from now on.
fn visit_watch(lists: &mut Lists, trail: &mut Trail, clause: ClauseRef) -> bool
    requires next { lists.old.pending ≡ Some clause }
    requires range { InRange lists.old.arena trail.old.variables }
    requires room { 2 * trail.old.variables + 2 ≤ length lists.old.heads.items }
    requires within { lists.old.visited < length lists.old.heads.items }
    ensures visited { lists.new.visited ≡ lists.old.visited }
    ensures heads { length lists.new.heads.items ≡ length lists.old.heads.items }
    ensures pending { pending_of lists.old.arena lists.old.visited lists.old.pending ≡ clause
        ∷ pending_of lists.new.arena lists.new.visited lists.new.pending }
    ensures visits { (rest : List ℕ)
        → Visits lists.old.arena lists.new.arena trail.old trail.new lists.old.visited (clause
        ∷ rest) rest clause result }
{
    let place = lists.watched_index(clause);
    let other = lists.arena.lit(clause, 1 - place);
    if trail.is_true(other) {
        lists.keep(clause, place);
        return false;
    }
    if let Some(free) = find_watch(&lists.arena, trail, clause) {
        lists.move_watch(clause, place, free);
        return false;
    }
    lists.keep(clause, place);
    if trail.is_false(other) {
        return true;
    }
    trail.push(other, Some(clause));
    false
}

/// Takes the next clause off the visited list. It visits the clause, or only puts it back once a clause is
/// false.
fn visit_next(
    lists: &mut Lists,
    trail: &mut Trail,
    clause: ClauseRef,
    conflict: Option<ClauseRef>,
) -> Option<ClauseRef>
    requires next { lists.old.pending ≡ Some clause }
    requires range { InRange lists.old.arena trail.old.variables }
    requires room { 2 * trail.old.variables + 2 ≤ length lists.old.heads.items }
    requires within { lists.old.visited < length lists.old.heads.items }
    ensures visited { lists.new.visited ≡ lists.old.visited }
    ensures heads { length lists.new.heads.items ≡ length lists.old.heads.items }
    ensures pending { pending_of lists.old.arena lists.old.visited lists.old.pending ≡ clause
        ∷ pending_of lists.new.arena lists.new.visited lists.new.pending }
    ensures underway { (start : Clauses) (t : Assignments) (rest : List ℕ)
        → IsUnderway start lists.old.arena t trail.old lists.old.visited (clause ∷ rest) conflict
        → IsUnderway start lists.new.arena t trail.new lists.old.visited rest result }
{
    if conflict.is_some() {
        let place = lists.watched_index(clause);
        lists.keep(clause, place);
        return conflict;
    }
    if visit_watch(lists, trail, clause) {
        Some(clause)
    } else {
        None
    }
}

/// Visits the clauses of the list that was taken, and gives a false clause if there is one.
pub fn propagate_literal(lists: &mut Lists, trail: &mut Trail) -> Option<ClauseRef>
    requires taken { (clause : ℕ) → occurrences clause
        (pending_of lists.old.arena lists.old.visited lists.old.pending)
        ≡ watch_count lists.old.arena lists.old.visited clause }
    requires range { InRange lists.old.arena trail.old.variables }
    requires room { 2 * trail.old.variables + 2 ≤ length lists.old.heads.items }
    requires within { lists.old.visited < length lists.old.heads.items }
    ensures pending { lists.new.pending ≡ None }
    ensures heads { length lists.new.heads.items ≡ length lists.old.heads.items }
    ensures underway { IsUnderway lists.old.arena lists.new.arena trail.old trail.new
        lists.old.visited [] result }
{
    let mut conflict = None;
    while let Some(clause) = lists.pending {
        conflict = visit_next(lists, trail, clause, conflict);
    }
    conflict
}

/// Visits the lists of the literals that became false, from an index of the trail on, until a clause is
/// false. It gives that clause, and the index of the literal whose list was visited last. If no clause is
/// false, the index is the trail's end.
pub fn propagate_all(lists: &mut Lists, trail: &mut Trail, head: &mut usize) -> Option<ClauseRef>
    requires facts { AreFacts (lits_at lists.old.arena) trail.old.variables trail.old.lits
        trail.old.reasons head.old }
    requires idle { lists.old.pending ≡ None }
    requires room { 0 < trail.old.variables
        → 2 * trail.old.variables + 2 ≤ length lists.old.heads.items }
    ensures facts { AreFacts (lits_at lists.new.arena) trail.new.variables trail.new.lits
        trail.new.reasons head.new }
    ensures idle { lists.new.pending ≡ None }
    ensures heads { length lists.new.heads.items ≡ length lists.old.heads.items }
    ensures propagates { Propagates lists.old.arena lists.new.arena trail.old trail.new }
    ensures none { IfNone result (head.new ≡ length trail.new.lits) }
    ensures some { IfSome result (λ clause. IsLive lists.new.arena clause
        × (is_false (value_of trail.new.lits) (lits_at lists.new.arena clause) ≡ true)) }
{
    while *head < trail.len() {
        let lit = trail.lit(*head).negated();
        lists.take(lit.index());
        if let Some(conflict) = propagate_literal(lists, trail) {
            return Some(conflict);
        }
        *head += 1;
    }
    None
}
