//! Clauses of fewer than two literals, which are visited once, at level 0.

ghost use Rattle.std.specs.Prelude.{◌≡◌, ◌≢◌, ℕ, ◌+◌, ◌*◌, ◌-◌, ◌<◌, ◌≤◌, ◌∷◌, [], None, Some, Option, false, true, IfSome, IfNone, List, length};
ghost use Rattle.ba_arena.specs.Clauses.{IsLive, lits_at};
ghost use Rattle.ba_watch.specs.Trails.{value_of, decided};
ghost use Rattle.ba_watch.specs.Propagation.{is_false, AreUnits, InRange, AssignsUnit, AssignsUnits};

use crate::trail::Trail;
use ba_arena::{Arena, ClauseRef};

/// Makes the literal of a clause of fewer than two literals true, and answers whether it is. If not, the
/// clause is false.
fn assign_unit(arena: &Arena, trail: &mut Trail, clause: ClauseRef) -> bool
    requires live { IsLive arena.now clause }
    requires short { length (lits_at arena.now clause) < 2 }
    requires range { InRange arena.now trail.old.variables }
    requires level { decided trail.old.reasons ≡ 0 }
    ensures assigns { AssignsUnit arena.now trail.old trail.new clause result }
{
    if arena.len(clause) == 0 {
        return false;
    }
    let lit = arena.lit(clause, 0);
    match trail.value(lit) {
        Some(value) => value,
        None => {
            trail.push(lit, Some(clause));
            true
        }
    }
}

/// Makes the literals of the waiting clauses true, one after the other, until one of the clauses is false.
/// That clause is given, and still waits.
pub fn assign_units(
    arena: &Arena,
    trail: &mut Trail,
    waiting: &mut Vec<ClauseRef>,
) -> Option<ClauseRef>
    requires range { InRange arena.now trail.old.variables }
    requires units { AreUnits arena.now trail.old.lits trail.old.reasons waiting.old.items }
    requires raised { 0 < decided trail.old.reasons → waiting.old.items ≡ [] }
    ensures assigns { AssignsUnits arena.now trail.old trail.new }
    ensures units { AreUnits arena.now trail.new.lits trail.new.reasons waiting.new.items }
    ensures raised { 0 < decided trail.new.reasons → waiting.new.items ≡ [] }
    ensures none { IfNone result (waiting.new.items ≡ []) }
    ensures some { IfSome result (λ clause. IsLive arena.now clause
        × (is_false (value_of trail.new.lits) (lits_at arena.now clause) ≡ true)) }
{
    while !waiting.is_empty() {
        let clause = waiting[waiting.len() - 1];
        if !assign_unit(arena, trail, clause) {
            return Some(clause);
        }
        waiting.pop();
    }
    None
}
