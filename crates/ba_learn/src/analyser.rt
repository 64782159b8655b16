//! Conflict analysis.

ghost use Rattle.std.specs.Prelude.{◌≡◌, ℕ, ◌<◌, ◌≤◌, ◌⊎◌, [], Some, true, false, IfOk, IsSome, List, length, All};
ghost use Rattle.ba_lits.specs.Literals.{IsClause};
ghost use Rattle.ba_watch.specs.Trails.{value_of, trail_index, decided, reason_of};
ghost use Rattle.ba_watch.specs.Propagation.{clause_in, lits_in, is_false};
ghost use Rattle.ba_learn.specs.Live.{Follows, IsNewTo};
ghost use Rattle.ba_learn.specs.Levels.{level_in, level_of_literal, IsReached, IsBacked, IsShort, IsCoreOf};

use crate::learnt::Learnt;
use crate::resolution::{Resolution, level_start};
use ba_arena::ClauseRef;
use ba_items::Items;
use ba_lits::Lit;
use ba_watch::Watch;
use std::alloc::{AllocError, Global};

/// The marks of an analysis, kept from one to the next. So an analysis costs what it resolves, and not the
/// size of the trail.
#[derive(Drop)]
pub struct Analyser {
    alloc: Global,
    resolution: Resolution,
    /// How many trail indices the last analysis resolved above level 0.
    above: usize,
}

impl Analyser {
    /// Marks for no variables. It takes no memory.
    pub fn new(alloc: Global) -> Analyser {
        Analyser {
            alloc,
            resolution: Resolution::new(alloc),
            above: 0,
        }
    }

    /// The clause to learn from a clause that is false above level 0. It is that of the first unique
    /// implication point of the present level, without the literals that the reasons of others cover.
    ///
    /// Exactly one of its literals was assigned at the present level, and `back` is the greatest level of the
    /// others, or 0. It follows by its hints from the live clauses and is new to propagation for them. Each
    /// of the others with a reason has in it one more literal that isn't in the clause and was assigned above
    /// level 0.
    ///
    /// The only error is out of memory.
    pub fn analyse(&mut self, watch: &Watch, conflict: ClauseRef) -> Result<Learnt, AllocError>
        requires live { IsSome (clause_in watch.now.clauses conflict) }
        requires false_ { is_false (value_of watch.now.trail) (lits_in watch.now.clauses conflict)
            ≡ true }
        requires level { 1 ≤ decided watch.now.reasons }
        ensures clause { IfOk result (λ learnt. IsClause watch.now.variables learnt.lits) }
        ensures follows { IfOk result (λ learnt.
            Follows watch.now.clauses learnt.lits learnt.hints) }
        ensures new { IfOk result (λ learnt. IsNewTo watch.now.clauses learnt.lits) }
        ensures backed { IfOk result (λ learnt. IsBacked watch.now learnt.lits learnt.back) }
        ensures short { IfOk result (λ learnt. IsShort watch.now learnt.lits) }
    {
        watch.keeps_facts();
        let resolution = &mut self.resolution;
        resolution.start(watch, conflict, level_start(watch), false)?;
        let place = resolution.walk(watch)?;
        resolution.minimise(watch)?;
        self.above = resolution.resolved().len();
        resolution.close(watch)?;
        resolution.sort();
        let lits = resolution.clause(self.alloc, watch, watch.trail()[place].negated())?;
        let hints = resolution.hints(self.alloc, watch, conflict)?;
        let back = backjump_level(watch, lits.as_slice());
        Ok(Learnt {
            lits: Items::from_vec(lits),
            hints: Items::from_vec(hints),
            back,
        })
    }

    /// The trail indices of the literals above level 0 that the last call of `analyse` resolved, in ascending
    /// order. They serve measures of a variable's activity.
    pub fn resolved(&self) -> &[usize] {
        let resolved = self.resolution.resolved();
        let below = resolved.len().saturating_sub(self.above);
        resolved.split_at(below).1
    }

    /// A clause of the negation of a false literal and of decided literals: those because of which the
    /// literal is false. Its `back` is 0.
    ///
    /// The only error is out of memory.
    pub fn core_of(&mut self, watch: &Watch, lit: Lit) -> Result<Learnt, AllocError>
        requires within { lit.variable ≤ watch.now.variables }
        requires false_ { value_of watch.now.trail lit ≡ Some false }
        requires reason { IsSome (reason_of watch.now.trail watch.now.reasons lit.variable) }
        ensures clause { IfOk result (λ learnt. IsClause watch.now.variables learnt.lits) }
        ensures follows { IfOk result (λ learnt.
            Follows watch.now.clauses learnt.lits learnt.hints) }
        ensures core { IfOk result (λ learnt. IsCoreOf watch.now lit learnt.lits) }
        ensures back { IfOk result (λ learnt. learnt.back ≡ 0) }
    {
        watch.keeps_facts();
        let variable = lit.variable();
        let place = watch.trail_index(variable).unwrap();
        let reason = watch.reason(variable).unwrap();
        let resolution = &mut self.resolution;
        resolution.start(watch, reason, place, true)?;
        resolution.close(watch)?;
        resolution.sort();
        let lits = resolution.clause(self.alloc, watch, lit.negated())?;
        let hints = resolution.hints(self.alloc, watch, reason)?;
        Ok(Learnt {
            lits: Items::from_vec(lits),
            hints: Items::from_vec(hints),
            back: 0,
        })
    }

    /// Hints for the empty clause, from a clause that is false at level 0.
    ///
    /// The only error is out of memory.
    pub fn refutation(&mut self, watch: &Watch, conflict: ClauseRef) -> Result<Vec<u64>, AllocError>
        requires live { IsSome (clause_in watch.now.clauses conflict) }
        requires false_ { is_false (value_of watch.now.trail) (lits_in watch.now.clauses conflict)
            ≡ true }
        requires level { decided watch.now.reasons ≡ 0 }
        ensures { IfOk result (λ hints. Follows watch.now.clauses [] hints.items) }
    {
        watch.keeps_facts();
        let resolution = &mut self.resolution;
        resolution.start(watch, conflict, watch.trail().len(), false)?;
        resolution.close(watch)?;
        resolution.sort();
        resolution.hints(self.alloc, watch, conflict)
    }
}

/// The greater of a level and that of a literal, which counts only below the present level.
fn raised(watch: &Watch, lit: Lit, back: usize) -> usize
    requires within { lit.variable ≤ watch.now.variables }
    requires assigned { trail_index watch.now.trail lit.variable < length watch.now.trail }
    ensures grows { back ≤ result }
    ensures below { level_of_literal watch.now lit < decided watch.now.reasons
        → level_of_literal watch.now lit ≤ result }
    ensures one { (result ≡ back) ⊎ ((level_of_literal watch.now lit < decided watch.now.reasons)
        × (level_of_literal watch.now lit ≡ result)) }
{
    let level = watch.level_of(lit.variable()).unwrap();
    if level < watch.level() {
        back.max(level)
    } else {
        back
    }
}

/// The greatest level of a clause's literals below the present one, or 0.
fn backjump_level(watch: &Watch, lits: &[Lit]) -> usize
    requires within { All (λ l. l.variable ≤ watch.now.variables) lits.now }
    requires assigned { All (λ l. trail_index watch.now.trail l.variable < length watch.now.trail)
        lits.now }
    ensures greatest { (k : ℕ) → k < length lits.now
        → level_in watch.now lits.now k < decided watch.now.reasons
        → level_in watch.now lits.now k ≤ result }
    ensures met { IsReached watch.now lits.now (length lits.now) result }
{
    let mut back = 0;
    for lit in lits {
        back = raised(watch, *lit, back);
    }
    back
}

/// [`Analyser::analyse`] with new marks.
///
/// The only error is out of memory.
pub fn analyse(alloc: Global, watch: &Watch, conflict: ClauseRef) -> Result<Learnt, AllocError>
    requires live { IsSome (clause_in watch.now.clauses conflict) }
    requires false_ { is_false (value_of watch.now.trail) (lits_in watch.now.clauses conflict)
        ≡ true }
    requires level { 1 ≤ decided watch.now.reasons }
    ensures clause { IfOk result (λ learnt. IsClause watch.now.variables learnt.lits) }
    ensures follows { IfOk result (λ learnt. Follows watch.now.clauses learnt.lits learnt.hints) }
    ensures new { IfOk result (λ learnt. IsNewTo watch.now.clauses learnt.lits) }
    ensures backed { IfOk result (λ learnt. IsBacked watch.now learnt.lits learnt.back) }
    ensures short { IfOk result (λ learnt. IsShort watch.now learnt.lits) }
{
    Analyser::new(alloc).analyse(watch, conflict)
}

/// [`Analyser::core_of`] with new marks.
///
/// The only error is out of memory.
pub fn core_of(alloc: Global, watch: &Watch, lit: Lit) -> Result<Learnt, AllocError>
    requires within { lit.variable ≤ watch.now.variables }
    requires false_ { value_of watch.now.trail lit ≡ Some false }
    requires reason { IsSome (reason_of watch.now.trail watch.now.reasons lit.variable) }
    ensures clause { IfOk result (λ learnt. IsClause watch.now.variables learnt.lits) }
    ensures follows { IfOk result (λ learnt. Follows watch.now.clauses learnt.lits learnt.hints) }
    ensures core { IfOk result (λ learnt. IsCoreOf watch.now lit learnt.lits) }
    ensures back { IfOk result (λ learnt. learnt.back ≡ 0) }
{
    Analyser::new(alloc).core_of(watch, lit)
}

/// [`Analyser::refutation`] with new marks.
///
/// The only error is out of memory.
pub fn refutation(alloc: Global, watch: &Watch, conflict: ClauseRef) -> Result<Vec<u64>, AllocError>
    requires live { IsSome (clause_in watch.now.clauses conflict) }
    requires false_ { is_false (value_of watch.now.trail) (lits_in watch.now.clauses conflict)
        ≡ true }
    requires level { decided watch.now.reasons ≡ 0 }
    ensures { IfOk result (λ hints. Follows watch.now.clauses [] hints.items) }
{
    Analyser::new(alloc).refutation(watch, conflict)
}
