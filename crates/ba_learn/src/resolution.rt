//! Resolution along the trail.

ghost use Rattle.std.specs.Prelude.{◌≡◌, ℕ, ◌+◌, ◌^◌, ◌<◌, ◌≤◌, [], ◌∷◌, ◌++◌, None, true, false, IfOk, OnOk, IsSome, IsTrue, ◌↔◌, length, map, get_or, All};
ghost use Rattle.std.specs.List.{swap_remove};
ghost use Rattle.ba_lits.specs.Literals.{lit_at};
ghost use Rattle.ba_watch.specs.Trails.{trail_index, decided, level_at};
ghost use Rattle.ba_watch.specs.Propagation.{clause_in, lits_in};
ghost use Rattle.ba_learn.specs.Resolving.{Work, IsWork, is_seen, is_above, count_below, MayKeep, AreBelow, AreSeen, MayMeet, MayStart, Parts, Meets, with_resolved, MayResolve, reason_of_index, MustResolve, IsAbsorbed, AreAbsorbed, IsRedundant, IsMinimised, MinimisesAt, StandsBehind, Resolves, KeepsWork, IsStart, number_in, number_at, negated_at, SortsNumbers, SortsLiterals};

use ba_arena::ClauseRef;
use ba_lits::{Lit, Marks};
use ba_watch::Watch;
use std::alloc::{AllocError, Global};
use std::marker::Model;

/// A false clause under resolution with the reasons of its literals. Literals are named by their trail
/// indices.
///
/// Those from the floor on are pending until a walk down the trail comes to them. Of the others those are
/// kept that were decided, or, unless the resolution is deep, assigned above level 0. The rest waits to be
/// resolved.
#[derive(Drop)]
pub struct Resolution {
    seen: Marks,
    floor: usize,
    deep: bool,
    pending: usize,
    kept: Vec<usize>,
    resolved: Vec<usize>,
    waiting: Vec<usize>,
}

impl Model for Resolution {
    ghost use Rattle.ba_learn.specs.Resolving.{Work};

    ghost Value = { Work };

    ghost view = { λ r. record {
      seen = r.seen;
      floor = r.floor;
      deep = r.deep;
      pending =
          r.pending;
      kept = r.kept.items;
      resolved = r.resolved.items;
      waiting = r.waiting.items;
    } };
}

impl Resolution {
    /// A resolution of nothing. It takes no memory.
    pub fn new(alloc: Global) -> Resolution {
        Resolution {
            seen: Marks::new(alloc),
            floor: 0,
            deep: false,
            pending: 0,
            kept: Vec::new(alloc),
            resolved: Vec::new(alloc),
            waiting: Vec::new(alloc),
        }
    }

    /// Begins anew.
    fn begin(&mut self, floor: usize, deep: bool)
        ensures seen { (p : ℕ) → is_seen self.new p ≡ false }
        ensures floor { self.new.floor ≡ floor }
        ensures deep { self.new.deep ≡ deep }
        ensures pending { self.new.pending ≡ 0 }
        ensures kept { self.new.kept ≡ [] }
        ensures resolved { self.new.resolved ≡ [] }
        ensures waiting { self.new.waiting ≡ [] }
    {
        self.seen.clear();
        self.floor = floor;
        self.deep = deep;
        self.pending = 0;
        self.kept.clear();
        self.resolved.clear();
        self.waiting.clear();
    }

    /// Whether a literal below the floor is kept.
    fn is_kept(&self, watch: &Watch, variable: u64) -> bool
        requires counted { 1 ≤ variable }
        requires within { variable ≤ watch.now.variables }
        requires assigned { trail_index watch.now.trail variable < length watch.now.trail }
        ensures kept { result ≡ true → MayKeep watch.now self.now.deep
            (trail_index watch.now.trail variable) }
        ensures resolved { result ≡ false
            → MustResolve watch.now self.now.deep (trail_index watch.now.trail variable) }
    {
        watch.keeps_facts();
        if self.deep {
            watch.reason(variable).is_none()
        } else {
            watch.level_of(variable).unwrap() > 0
        }
    }

    /// Puts the trail index of a variable into its part of the work.
    fn part(&mut self, watch: &Watch, variable: u64, place: usize) -> Result<(), AllocError>
        requires counted { 1 ≤ variable }
        requires within { variable ≤ watch.now.variables }
        requires assigned { trail_index watch.now.trail variable < length watch.now.trail }
        requires place { place ≡ trail_index watch.now.trail variable }
        requires room { self.old.pending < 2 ^ 62 }
        ensures { OnOk result (Parts watch.now self.old self.new place) }
    {
        if place >= self.floor {
            self.pending += 1;
            return Ok(());
        }
        if self.is_kept(watch, variable) {
            Ok(self.kept.push(place)?)
        } else {
            Ok(self.waiting.push(place)?)
        }
    }

    /// Marks a literal that has a value.
    fn meet(&mut self, watch: &Watch, lit: Lit) -> Result<(), AllocError>
        requires within { lit.variable ≤ watch.now.variables }
        requires may { MayMeet watch.now self.old (lit ∷ []) }
        ensures { OnOk result (Meets watch.now self.old self.new (lit ∷ [])) }
    {
        let variable = lit.variable();
        watch.keeps_facts();
        let place = watch.trail_index(variable).unwrap();
        if self.seen.contains(place) {
            return Ok(());
        }
        self.seen.insert(place)?;
        self.part(watch, variable, place)
    }

    /// Marks the literals of a clause.
    fn meet_all(&mut self, watch: &Watch, clause: ClauseRef) -> Result<(), AllocError>
        requires live { IsSome (clause_in watch.now.clauses clause) }
        requires may { MayMeet watch.now self.old (lits_in watch.now.clauses clause) }
        ensures { OnOk result (Meets watch.now self.old self.new
            (lits_in watch.now.clauses clause)) }
    {
        watch.keeps_facts();
        let arena = watch.arena();
        for place in 0..arena.len(clause) {
            self.meet(watch, arena.lit(clause, place))?;
        }
        Ok(())
    }

    /// Begins anew, with the literals of a clause.
    pub fn start(
        &mut self,
        watch: &Watch,
        clause: ClauseRef,
        floor: usize,
        deep: bool,
    ) -> Result<(), AllocError>
        requires live { IsSome (clause_in watch.now.clauses clause) }
        requires may { (high : ℕ) × MayStart watch.now floor high
            (lits_in watch.now.clauses clause) }
        ensures work { OnOk result ((high : ℕ)
            → MayStart watch.now floor high (lits_in watch.now.clauses clause)
            → IsWork watch.now high self.new) }
        ensures seen { OnOk result (AreSeen watch.now (is_seen self.new)
            (lits_in watch.now.clauses clause)) }
        ensures resolved { OnOk result (self.new.resolved ≡ []) }
        ensures floor { OnOk result (self.new.floor ≡ floor) }
        ensures deep { OnOk result (self.new.deep ≡ deep) }
    {
        watch.keeps_facts();
        prove!(watch.variables() < 1 << 62);
        self.begin(floor, deep);
        self.meet_all(watch, clause)
    }

    /// The latest index below an end whose literal is pending.
    fn next_pending(&self, end: usize) -> usize
        requires { 1 ≤ count_below (is_above self.now) end }
        ensures below { result < end }
        ensures floor { self.now.floor ≤ result }
        ensures seen { is_seen self.now result ≡ true }
        ensures latest { (p : ℕ) → result < p → p < end → is_seen self.now p ≡ false }
    {
        let mut place = end - 1;
        while !self.seen.contains(place) {
            place -= 1;
        }
        place
    }

    /// Adds an index to those that were resolved.
    fn push_resolved(&mut self, place: usize) -> Result<(), AllocError>
        ensures { OnOk result (self.new ≡ with_resolved self.old place) }
    {
        Ok(self.resolved.push(place)?)
    }

    /// Resolves the latest pending literal, if there are others.
    fn resolve_pending(&mut self, watch: &Watch, place: usize) -> Result<(), AllocError>
        requires work { IsWork watch.now (place + 1) self.old }
        requires start { IsStart watch.now self.old.floor }
        requires shallow { self.old.deep ≡ false }
        requires floor { self.old.floor ≤ place }
        requires seen { is_seen self.old place ≡ true }
        requires others { 2 ≤ self.old.pending }
        ensures resolves { OnOk result (Resolves watch.now self.old self.new) }
        ensures work { OnOk result (IsWork watch.now place self.new) }
        ensures pending { OnOk result (1 ≤ self.new.pending) }
    {
        watch.keeps_facts();
        let reason = reason_at(watch, place);
        self.meet_all(watch, reason)?;
        self.pending -= 1;
        self.push_resolved(place)
    }

    /// Walks down the trail from its end, and resolves pending literals until one is left. That is the first
    /// unique implication point, whose index it gives.
    pub fn walk(&mut self, watch: &Watch) -> Result<usize, AllocError>
        requires work { IsWork watch.now (length watch.now.trail) self.old }
        requires start { IsStart watch.now self.old.floor }
        requires shallow { self.old.deep ≡ false }
        requires some { 1 ≤ self.old.pending }
        ensures resolves { IfOk result (λ place. Resolves watch.now self.old self.new) }
        ensures work { IfOk result (λ place. IsWork watch.now (place + 1) self.new) }
        ensures one { IfOk result (λ place. self.new.pending ≡ 1) }
        ensures floor { IfOk result (λ place. self.new.floor ≤ place) }
        ensures seen { IfOk result (λ place. is_seen self.new place ≡ true) }
    {
        let mut place = self.next_pending(watch.trail().len());
        while self.pending > 1 {
            self.resolve_pending(watch, place)?;
            place = self.next_pending(place);
        }
        Ok(place)
    }

    /// Resolves an index that is in no part of the work.
    fn resolve(&mut self, watch: &Watch, place: usize) -> Result<(), AllocError>
        requires within { place < length watch.now.trail }
        requires reason { IsSome (get_or watch.now.reasons place None) }
        requires may { MayResolve watch.now self.old place }
        ensures { OnOk result (Meets watch.now (with_resolved self.old place) self.new
            (reason_of_index watch.now place)) }
    {
        watch.keeps_facts();
        let reason = reason_at(watch, place);
        self.push_resolved(place)?;
        self.meet_all(watch, reason)
    }

    /// Whether a literal is seen, or was assigned at level 0.
    fn is_absorbed(&self, watch: &Watch, lit: Lit) -> bool
        requires { lit.variable ≤ watch.now.variables }
        ensures { IsTrue result ↔ IsAbsorbed watch.now (is_seen self.now) lit }
    {
        let variable = lit.variable();
        let Some(place) = watch.trail_index(variable) else {
            return false;
        };
        if self.seen.contains(place) {
            return true;
        }
        watch.level_of(variable) == Some(0)
    }

    /// Whether an index has a reason each of whose literals is absorbed.
    fn is_redundant(&self, watch: &Watch, place: usize) -> bool
        requires { place < length watch.now.trail }
        ensures { IsTrue result ↔ IsRedundant watch.now self.now place }
    {
        watch.keeps_facts();
        match watch.reasons()[place] {
            None => false,
            Some(reason) => self.are_absorbed(watch, reason),
        }
    }

    /// Whether each literal of a clause is absorbed.
    fn are_absorbed(&self, watch: &Watch, clause: ClauseRef) -> bool
        requires { IsSome (clause_in watch.now.clauses clause) }
        ensures { IsTrue result ↔ AreAbsorbed watch.now (is_seen self.now)
            (lits_in watch.now.clauses clause) }
    {
        watch.keeps_facts();
        let arena = watch.arena();
        for index in 0..arena.len(clause) {
            if !self.is_absorbed(watch, arena.lit(clause, index)) {
                return false;
            }
        }
        true
    }

    /// Removes one of the kept indices. Those from it on had been after it.
    fn drop_kept(&mut self, index: usize)
        requires { index < length self.old.kept }
        ensures drops { self.new ≡ record self.old {
          kept = swap_remove self.old.kept index (get_or self.old.kept index 0);
        } }
        ensures behind { (k : ℕ) → index ≤ k → k < length self.new.kept
            → StandsBehind self.old.kept index (get_or self.new.kept k 0) }
    {
        self.kept.swap_remove(index);
    }

    /// Resolves one of the kept literals, if the others imply its negation.
    fn minimise_at(&mut self, watch: &Watch, index: usize) -> Result<(), AllocError>
        requires work { (high : ℕ) × IsWork watch.now high self.old }
        requires within { index < length self.old.kept }
        ensures resolves { OnOk result (Resolves watch.now self.old self.new) }
        ensures work { OnOk result (KeepsWork watch.now self.old self.new) }
        ensures pending { OnOk result (self.new.pending ≡ self.old.pending) }
        ensures kept { OnOk result (index ≤ length self.new.kept) }
        ensures short { OnOk result (MinimisesAt watch.now self.old self.new index) }
    {
        watch.keeps_facts();
        let place = self.kept[index];
        if !self.is_redundant(watch, place) {
            return Ok(());
        }
        self.drop_kept(index);
        self.resolve(watch, place)
    }

    /// Resolves the kept literals whose negations the others imply.
    pub fn minimise(&mut self, watch: &Watch) -> Result<(), AllocError>
        requires work { (high : ℕ) × IsWork watch.now high self.old }
        requires shallow { self.old.deep ≡ false }
        ensures resolves { OnOk result (Resolves watch.now self.old self.new) }
        ensures work { OnOk result (KeepsWork watch.now self.old self.new) }
        ensures pending { OnOk result (self.new.pending ≡ self.old.pending) }
        ensures short { OnOk result (IsMinimised watch.now self.new) }
    {
        let mut index = self.kept.len();
        while index > 0 {
            index -= 1;
            self.minimise_at(watch, index)?;
        }
        Ok(())
    }

    /// Resolves what waits, and all that comes to wait because of that.
    pub fn close(&mut self, watch: &Watch) -> Result<(), AllocError>
        requires work { (high : ℕ) × IsWork watch.now high self.old }
        ensures resolves { OnOk result (Resolves watch.now self.old self.new) }
        ensures work { OnOk result (KeepsWork watch.now self.old self.new) }
        ensures pending { OnOk result (self.new.pending ≡ self.old.pending) }
        ensures all { OnOk result (self.new.waiting ≡ []) }
        ensures short { OnOk result (self.old.deep ≡ false → IsMinimised watch.now self.old
            → IsMinimised watch.now self.new) }
    {
        watch.keeps_facts();
        while let Some(place) = self.waiting.pop() {
            self.resolve(watch, place)?;
        }
        Ok(())
    }

    /// Sorts the resolved indices.
    pub fn sort(&mut self)
        ensures sorted { SortsNumbers self.old.resolved self.new.resolved }
        ensures rest { self.new ≡ record self.old { resolved = self.new.resolved } }
    {
        self.resolved.sort_unstable();
    }

    /// The indices that were resolved.
    pub fn resolved(&self) -> &[usize]
        ensures { result.now ≡ self.now.resolved }
    {
        self.resolved.as_slice()
    }

    /// The numbers of the reasons of the resolved indices, and then that of a clause.
    pub fn hints(
        &self,
        alloc: Global,
        watch: &Watch,
        conflict: ClauseRef,
    ) -> Result<Vec<u64>, AllocError>
        requires live { IsSome (clause_in watch.now.clauses conflict) }
        requires reasons { All (λ p. IsSome (get_or watch.now.reasons p None)) self.now.resolved }
        ensures { IfOk result (λ hints. hints.items ≡ map (number_at watch.now) self.now.resolved
            ++ number_in watch.now conflict ∷ []) }
    {
        let mut hints = Vec::new(alloc);
        for place in &self.resolved {
            hints.push(reason_number(watch, *place))?;
        }
        hints.push(watch.arena().number(conflict))?;
        Ok(hints)
    }

    /// A literal and the negations of those that are kept, by their variables.
    pub fn clause(&self, alloc: Global, watch: &Watch, lead: Lit) -> Result<Vec<Lit>, AllocError>
        requires { All (λ p. p < length watch.now.trail) self.now.kept }
        ensures { IfOk result (λ lits. SortsLiterals (lead
            ∷ map (negated_at watch.now) self.now.kept) lits.items) }
    {
        let trail = watch.trail();
        let mut lits = Vec::new(alloc);
        lits.push(lead)?;
        for place in &self.kept {
            lits.push(trail[*place].negated())?;
        }
        lits.sort_unstable_by_key(|lit| lit.variable());
        Ok(lits)
    }
}

/// The reason of a trail index.
fn reason_at(watch: &Watch, place: usize) -> ClauseRef
    requires within { place < length watch.now.trail }
    requires reason { IsSome (get_or watch.now.reasons place None) }
    ensures { get_or watch.now.reasons place None ≡ Some result }
{
    watch.keeps_facts();
    watch.reasons()[place].unwrap()
}

/// The number of the reason of a trail index.
fn reason_number(watch: &Watch, place: usize) -> u64
    requires { IsSome (get_or watch.now.reasons place None) }
    ensures { result ≡ number_at watch.now place }
{
    watch.keeps_facts();
    let reason = reason_at(watch, place);
    watch.arena().number(reason)
}

/// The trail index of the last decision.
pub fn level_start(watch: &Watch) -> usize
    requires { 1 ≤ decided watch.now.reasons }
    ensures { IsStart watch.now result }
{
    watch.keeps_facts();
    let reasons = watch.reasons();
    let mut place = reasons.len() - 1;
    while reasons[place].is_some() {
        place -= 1;
    }
    place
}
