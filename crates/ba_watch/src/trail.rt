//! The trail: the assigned literals in their order, with their levels and reasons.

ghost use Rattle.std.specs.Prelude.{◌≡◌, ◌≢◌, ℕ, ◌+◌, ◌-◌, ◌<◌, ◌≤◌, ◌^◌, ◌∷◌, ◌++◌, [], None, Some, Option, true, false, IsTrue, ◌↔◌, OnOk, OnErr, List, length, take, drop, get_or, max, map, is_some, IsSome, if◌then◌else◌};
ghost use Rattle.ba_lits.specs.Literals.{lit_at};
ghost use Rattle.ba_arena.specs.Clauses.{IsLive, AreReferences};
ghost use Rattle.ba_arena.specs.Compaction.{moved, led, AreLiveReferences, Compacts};
ghost use Rattle.ba_watch.specs.Trails.{value_of, trail_index_if, decided, level_of, reason_of, kept, IsTrail, Begins};

use crate::lifted::LiftedBool;
use ba_arena::{Arena, ClauseRef};
use ba_items::fill_up;
use ba_lits::Lit;
use std::alloc::{AllocError, Global};
use std::marker::Model;

/// The trail, and the value of each variable.
#[derive(Drop)]
pub struct Trail {
    variables: u64,
    lits: Vec<Lit>,
    reasons: Vec<Option<ClauseRef>>,
    levels: Vec<u32>,
    assigned: usize,
    level: usize,
    values: Vec<LiftedBool>,
    places: Vec<u32>,
}

impl Model for Trail {
    ghost use Rattle.std.specs.Prelude.{take, ◌<◌, ◌^◌};
    ghost use Rattle.ba_watch.specs.Trails.{Assignments, Holds};

    ghost Value = { Assignments };

    ghost view = { λ t. record {
      variables = t.variables;
      lits = take t.assigned t.lits.items;
      reasons = take t.assigned t.reasons.items;
    } };

    ghost invariant = { λ t. (t.variables < 2 ^ 32)
        × Holds t.variables t.lits.items t.reasons.items t.levels.items t.assigned t.level
        t.values.items t.places.items };
}

impl Trail {
    /// The empty trail over no variables. It takes no memory.
    pub fn new(alloc: Global) -> Trail
        ensures { result ≡ record { variables = 0; lits = []; reasons = [] } }
    {
        Trail {
            variables: 0,
            lits: Vec::new(alloc),
            reasons: Vec::new(alloc),
            levels: Vec::new(alloc),
            assigned: 0,
            level: 0,
            values: Vec::new(alloc),
            places: Vec::new(alloc),
        }
    }

    /// How many variables there are.
    pub fn variables(&self) -> u64
        ensures variables { result ≡ self.now.variables }
        ensures below { result < 2 ^ 62 }
    {
        self.variables
    }

    /// How many literals are assigned.
    pub fn len(&self) -> usize
        ensures len { result ≡ length self.now.lits }
        ensures trail { IsTrail self.now.variables self.now.lits self.now.reasons }
    {
        self.assigned
    }

    /// The assigned literals in their order.
    pub fn lits(&self) -> &[Lit]
        ensures { result.now ≡ self.now.lits }
    {
        &self.lits[..self.assigned]
    }

    /// The reasons of the assigned literals, in their order.
    pub fn reasons(&self) -> &[Option<ClauseRef>]
        ensures { result.now ≡ self.now.reasons }
    {
        &self.reasons[..self.assigned]
    }

    /// The literal at an index of the trail.
    pub fn lit(&self, place: usize) -> Lit
        requires { place < length self.now.lits }
        ensures { result ≡ lit_at self.now.lits place }
    {
        self.lits[place]
    }

    /// The present level.
    pub fn level(&self) -> usize
        ensures level { result ≡ decided self.now.reasons }
        ensures lengths { length self.now.reasons ≡ length self.now.lits }
    {
        self.level
    }

    /// The value of a literal.
    pub fn value(&self, lit: Lit) -> Option<bool>
        requires { lit.variable ≤ self.now.variables }
        ensures { result ≡ value_of self.now.lits lit }
    {
        match self.values[lit.variable() as usize - 1].get() {
            None => None,
            Some(value) => Some(value != lit.is_negated()),
        }
    }

    /// Whether a literal is true.
    pub fn is_true(&self, lit: Lit) -> bool
        requires { lit.variable ≤ self.now.variables }
        ensures { IsTrue result ↔ value_of self.now.lits lit ≡ Some true }
    {
        self.values[lit.variable() as usize - 1].is(!lit.is_negated())
    }

    /// Whether a literal is false.
    pub fn is_false(&self, lit: Lit) -> bool
        requires { lit.variable ≤ self.now.variables }
        ensures { IsTrue result ↔ value_of self.now.lits lit ≡ Some false }
    {
        self.values[lit.variable() as usize - 1].is(lit.is_negated())
    }

    /// The trail index of a variable's literal, if the variable has a value.
    pub fn trail_index(&self, variable: u64) -> Option<usize>
        requires counted { 1 ≤ variable }
        requires within { variable ≤ self.now.variables }
        ensures { result ≡ trail_index_if self.now.lits variable }
    {
        let index = variable as usize - 1;
        if self.values[index].is_some() {
            Some(self.places[index] as usize)
        } else {
            None
        }
    }

    /// The level at which a variable was assigned.
    pub fn level_of(&self, variable: u64) -> Option<usize>
        requires counted { 1 ≤ variable }
        requires within { variable ≤ self.now.variables }
        ensures { result ≡ level_of self.now.lits self.now.reasons variable }
    {
        match self.trail_index(variable) {
            None => None,
            Some(place) => Some(self.levels[place] as usize),
        }
    }

    /// The reason of a variable: the clause that gave it its value.
    pub fn reason(&self, variable: u64) -> Option<ClauseRef>
        requires counted { 1 ≤ variable }
        requires within { variable ≤ self.now.variables }
        ensures { result ≡ reason_of self.now.lits self.now.reasons variable }
    {
        match self.trail_index(variable) {
            None => None,
            Some(place) => self.reasons[place],
        }
    }

    /// Makes a literal true. Without a reason it begins a level.
    pub fn push(&mut self, lit: Lit, reason: Option<ClauseRef>)
        requires within { lit.variable ≤ self.old.variables }
        requires free { value_of self.old.lits lit ≡ None }
        ensures pushed { self.new ≡ record self.old {
          lits = self.old.lits ++ lit
              ∷ [];
          reasons = self.old.reasons ++ reason ∷ [];
        } }
        ensures trail { IsTrail self.new.variables self.new.lits self.new.reasons }
        ensures lengths { length self.old.reasons ≡ length self.old.lits }
    {
        let index = lit.variable() as usize - 1;
        let level = self.level + decisions(&reason);
        self.level = level;
        self.levels[self.assigned] = level as u32;
        self.lits[self.assigned] = lit;
        self.reasons[self.assigned] = reason;
        self.values[index] = LiftedBool::some(!lit.is_negated());
        self.places[index] = self.assigned as u32;
        self.assigned += 1;
    }

    /// Removes the last literal of the trail.
    fn pop(&mut self)
        requires { 0 < length self.old.lits }
        ensures { self.new ≡ record self.old {
          lits = take (length self.old.lits - 1) self.old.lits;
          reasons = take
              (length self.old.lits - 1) self.old.reasons;
        } }
    {
        let place = self.assigned - 1;
        let index = self.lits[place].variable() as usize - 1;
        self.level -= decisions(&self.reasons[place]);
        self.values[index] = LiftedBool::none();
        self.assigned = place;
    }

    /// Removes the literals of the levels above one from the trail.
    pub fn back_to(&mut self, level: usize)
        ensures { self.new ≡ record self.old {
          lits = take (kept level self.old.reasons) self.old.lits;
          reasons = take
              (kept level self.old.reasons) self.old.reasons;
        } }
    {
        while self.level() > level {
            self.pop();
        }
    }

    /// Compacts the arena. The reasons and the other references follow their clauses.
    pub fn compact(
        &mut self,
        arena: &mut Arena,
        references: &mut Vec<Option<ClauseRef>>,
        live: &mut Vec<ClauseRef>,
    )
        requires reasons { AreLiveReferences arena.old self.old.reasons }
        requires references { AreReferences arena.old references.old.items }
        requires live { (k : ℕ) → k < length live.old.items
            → IsLive arena.old (get_or live.old.items k 0) }
        ensures compacts { Compacts arena.old arena.new }
        ensures reasons { self.new ≡ record self.old
            { reasons = map (led arena.old) self.old.reasons } }
        ensures references { references.new.items ≡ map (led arena.old) references.old.items }
        ensures live { live.new.items ≡ map (moved arena.old) live.old.items }
    {
        compact_front(
            arena,
            self.reasons.as_mut_slice(),
            self.assigned,
            references.as_mut_slice(),
            live.as_mut_slice(),
        );
    }

    /// Makes room for the assignment of variables up to a number.
    pub fn grow(&mut self, variables: u64) -> Result<(), AllocError>
        ensures ok { OnOk result (self.new
            ≡ record self.old { variables = max self.old.variables variables }) }
        ensures err { OnErr result (self.new ≡ self.old) }
    {
        if variables <= self.variables {
            return Ok(());
        }
        if variables > u32::MAX as u64 {
            return Err(AllocError);
        }
        let count = variables as usize;
        fill_up(&mut self.lits, count, Lit::positive(1))?;
        fill_up(&mut self.reasons, count, None)?;
        fill_up(&mut self.levels, count, 0)?;
        fill_up(&mut self.places, count, 0)?;
        self.values.resize(count, LiftedBool::none())?;
        self.variables = variables;
        Ok(())
    }
}

/// Compacts the arena. The first `count` reasons and the other references follow their clauses.
fn compact_front(
    arena: &mut Arena,
    reasons: &mut [Option<ClauseRef>],
    count: usize,
    references: &mut [Option<ClauseRef>],
    live: &mut [ClauseRef],
)
    requires within { count ≤ length reasons.old }
    requires reasons { AreLiveReferences arena.old (take count reasons.old) }
    requires references { AreReferences arena.old references.old }
    requires live { (k : ℕ) → k < length live.old → IsLive arena.old (get_or live.old k 0) }
    ensures compacts { Compacts arena.old arena.new }
    ensures reasons { reasons.new ≡ map (led arena.old) (take count reasons.old)
        ++ drop count reasons.old }
    ensures references { references.new ≡ map (led arena.old) references.old }
    ensures live { live.new ≡ map (moved arena.old) live.old }
{
    let (front, _) = reasons.split_at_mut(count);
    arena.compact(front, references, live);
}

/// How many decisions a reason means: one, if there is none.
fn decisions(reason: &Option<ClauseRef>) -> usize
    ensures { result ≡ (if is_some reason.now then 0 else 1) }
{
    if reason.is_some() { 0 } else { 1 }
}
