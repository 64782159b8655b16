//! Tests of the arena of clauses.

ghost use Rattle.std.specs.Prelude.{IfSome};
ghost use Rattle.ba_arena.specs.Clauses.{IsLive};

use ba_arena::{Arena, ClauseRef};
use std::alloc::Global;
use std::panic::Expect;
use std::process::Abort;
use test_formulas::lit;

/// The numbers of the live clauses, in their order.
fn numbers(rt: &impl Abort, alloc: Global, arena: &Arena) -> Vec<u64> {
    let mut numbers = Vec::new(alloc);
    let mut next = arena.first();
    while let Some(clause) = next {
        numbers.push(arena.number(clause)).expect(rt, "memory");
        next = arena.after(clause);
    }
    numbers
}

/// Adds two clauses, and asserts that they keep their numbers, literals and links.
fn assert_kept(rt: &impl Abort, arena: &mut Arena) {
    let first = arena
        .add([lit(1), lit(2)].as_slice(), 7)
        .expect(rt, "memory");
    let second = arena.add([lit(-2)].as_slice(), 9).expect(rt, "memory");
    assert!(rt; arena.number(first) == 7 && arena.number(second) == 9);
    arena.set_link(first, 1, Some(second));
    assert!(rt; arena.link(first, 0).is_none() && arena.link(first, 1) == Some(second));
    arena.swap(first, 0, 1);
    assert!(rt; arena.lit(first, 0) == lit(2) && arena.lit(second, 0) == lit(-2));
}

#[test]
fn clauses_keep_their_literals_and_links(rt: HostRuntime) {
    let mut arena = Arena::new(rt.alloc());
    assert_kept(&rt, &mut arena);
}

/// Adds three clauses, of which the second is dead; where it was is answered.
fn add_three(rt: &impl Abort, arena: &mut Arena) -> ClauseRef {
    let _ = arena
        .add([lit(1), lit(2)].as_slice(), 7)
        .expect(rt, "memory");
    let second = arena.add([lit(-2)].as_slice(), 9).expect(rt, "memory");
    arena.mark_dead(second);
    let third = arena
        .add([lit(-1), lit(2), lit(3)].as_slice(), 11)
        .expect(rt, "memory");
    arena.swap(third, 0, 2);
    second
}

/// Asserts that the live clauses have the numbers 7 and 11.
fn assert_live(rt: &impl Abort, alloc: Global, arena: &Arena) {
    let numbers = numbers(rt, alloc, arena);
    assert!(rt; numbers.as_slice() == [7, 11].as_slice());
}

/// The clause after the first one.
fn after_first(arena: &Arena) -> Option<ClauseRef>
    ensures { IfSome result (λ clause. IsLive arena.now clause) }
{
    arena.after(arena.first()?)
}

/// Compacts an arena, and gives where the second of its live clauses is then.
fn second_moved(arena: &mut Arena) -> Option<ClauseRef> {
    let mut kept = [after_first(arena)];
    arena.compact(kept.as_mut_slice(), &mut [], &mut []);
    kept[0]
}

#[test]
fn live_clauses_keep_their_order_in_compaction(rt: HostRuntime) {
    let mut arena = Arena::new(rt.alloc());
    let second = add_three(&rt, &mut arena);
    assert_live(&rt, rt.alloc(), &arena);
    let moved = second_moved(&mut arena);
    assert_live(&rt, rt.alloc(), &arena);
    assert!(rt; moved == Some(second) && after_first(&arena) == moved);
}

/// Adds a clause.
fn added(rt: &impl Abort, arena: &mut Arena) -> ClauseRef
    ensures { IsLive arena.new result }
{
    arena.add([lit(3)].as_slice(), 5).expect(rt, "memory")
}

/// Adds a clause, deletes it, compacts the arena, and gives where its reference leads.
fn deleted(rt: &impl Abort, arena: &mut Arena) -> Option<ClauseRef> {
    let clause = added(rt, arena);
    arena.keep_apart();
    arena.mark_dead(clause);
    let mut kept = [Some(clause)];
    arena.compact(kept.as_mut_slice(), &mut [], &mut []);
    kept[0]
}

#[test]
fn a_reference_of_a_deleted_clause_becomes_none(rt: HostRuntime) {
    let mut arena = Arena::new(rt.alloc());
    let _ = add_three(&rt, &mut arena);
    assert!(rt; deleted(&rt, &mut arena).is_none());
    assert_live(&rt, rt.alloc(), &arena);
}
