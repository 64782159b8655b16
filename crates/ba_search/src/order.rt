//! The order of decisions: variables by activity (VSIDS), with the value that each had last (phase saving).
//! Each conflict bumps a variable at most once. Figures: `docs/measurements.md`.

ghost use Rattle.std.specs.Prelude.{◌≡◌, ℕ, ◌≤◌, None, false, IfSome, IfNone, is_none};
ghost use Rattle.ba_lits.specs.Literals.{positive};
ghost use Rattle.ba_watch.specs.Trails.{value_of};
ghost use Rattle.ba_search.specs.Values.{IsUnassigned};

use crate::phases::first_phases;
use ba_checker::Checker;
use ba_lits::Lit;
use ba_watch::Watch;
use std::alloc::{AllocError, Global};

/// The first increment: by how much a bump raises an activity.
const FIRST_INCREMENT: u64 = 1 << 20;

/// From this increment on it and the activities are rescaled. An activity is at most ten times the increment
/// times the most bumps of a variable from one decay to the next. With up to 6000 bumps it stays below 2^64.
const GREATEST_INCREMENT: u64 = 1 << 48;

/// By how many bits they are rescaled.
const RESCALE_BITS: u32 = 28;

/// Variables by their activity, the greatest first, with the value that each had last. Activities: M.
/// Moskewicz, C. Madigan, Y. Zhao, L. Zhang, S. Malik, Chaff: Engineering an Efficient SAT Solver. Saved
/// values: K. Pipatsrisawat, A. Darwiche, A Lightweight Component Caching Scheme for Satisfiability Solvers.
#[derive(Drop)]
pub struct Order {
    activities: Vec<u64>,
    heap: Vec<u64>,
    size: usize,
    heap_indices: Vec<usize>,
    phases: Vec<bool>,
    increment: u64,
    has_begun: bool,
}

impl Order {
    /// No variables. It takes no memory.
    pub fn new(alloc: Global) -> Order {
        Order {
            activities: Vec::new(alloc),
            heap: Vec::new(alloc),
            size: 0,
            heap_indices: Vec::new(alloc),
            phases: Vec::new(alloc),
            increment: FIRST_INCREMENT,
            has_begun: false,
        }
    }

    /// Adds the variables up to a number.
    ///
    /// The only error is out of memory.
    pub fn grow(&mut self, variables: u64) -> Result<(), AllocError> {
        let known = self.phases.len() as u64;
        for variable in known..=variables {
            self.add(variable)?;
        }
        Ok(())
    }

    /// Adds the next variable. There is no variable 0, but it has its entry in the tables.
    fn add(&mut self, variable: u64) -> Result<(), AllocError> {
        self.activities.push(0)?;
        self.heap.push(0)?;
        self.heap_indices.push(usize::MAX)?;
        self.phases.push(true)?;
        if variable > 0 {
            self.insert(variable);
        }
        Ok(())
    }

    /// Begins a first search: the phases are the values in the run in which these literals are true. Without
    /// memory for that they stay. In a later search nothing changes.
    pub fn begin(&mut self, alloc: Global, checker: &Checker, lits: &[Lit]) {
        if self.has_begun {
            return;
        }
        self.has_begun = true;
        if let Ok(phases) = first_phases(alloc, checker, lits) {
            self.take_phases(phases.as_slice());
        }
    }

    /// Takes phases of the variables, by their numbers.
    fn take_phases(&mut self, phases: &[bool]) {
        for place in 0..phases.len() {
            if let Some(phase) = self.phases.get_mut(place) {
                *phase = phases[place];
            }
        }
    }

    /// The value that a variable had last, true if it had none.
    pub fn phase(&self, variable: u64) -> bool {
        self.phases.get(variable as usize).copied().unwrap_or(true)
    }

    /// A variable without a value up to a limit; that of the wanted literal if it has none. `None` exactly if
    /// all have values.
    pub fn pick(&mut self, watch: &Watch, limit: u64, wanted: Option<Lit>) -> Option<u64>
        requires { limit ≤ watch.now.variables }
        ensures some { IfSome result (λ variable. IsUnassigned watch.now.trail limit variable) }
        ensures none { IfNone result ((variable : ℕ) → 1 ≤ variable → variable ≤ limit
            → is_none (value_of watch.now.trail (positive variable)) ≡ false) }
    {
        if let Some(variable) = self.take(watch, limit, wanted) {
            return Some(variable);
        }
        if let Some(variable) = self.pop_unassigned(watch, limit) {
            return Some(variable);
        }
        first_unassigned(watch, limit)
    }

    /// The variable of a wanted literal, if it has no value; its phase becomes that of the literal.
    fn take(&mut self, watch: &Watch, limit: u64, wanted: Option<Lit>) -> Option<u64>
        requires { limit ≤ watch.now.variables }
        ensures { IfSome result (λ variable. IsUnassigned watch.now.trail limit variable) }
    {
        let lit = wanted?;
        let variable = lit.variable();
        if variable > limit || !is_unassigned(watch, variable) {
            return None;
        }
        self.set_phase(lit);
        Some(variable)
    }

    /// Sets the phase of the literal's variable so that the literal is true.
    pub fn set_phase(&mut self, lit: Lit) {
        if let Some(phase) = self.phases.get_mut(lit.variable() as usize) {
            *phase = !lit.is_negated();
        }
    }

    /// Removes variables from the heap until one has no value.
    fn pop_unassigned(&mut self, watch: &Watch, limit: u64) -> Option<u64>
        requires { limit ≤ watch.now.variables }
        ensures { IfSome result (λ variable. IsUnassigned watch.now.trail limit variable) }
    {
        for _ in 0..self.size {
            let variable = self.pop();
            if 1 <= variable && variable <= limit && is_unassigned(watch, variable) {
                return Some(variable);
            }
        }
        None
    }

    /// Removes the variable of the greatest activity from the heap; 0 if there is none.
    fn pop(&mut self) -> u64 {
        let first = self.at(0);
        self.set_heap_index(first, usize::MAX);
        self.size = self.size.saturating_sub(1);
        if self.size > 0 {
            let last = self.at(self.size);
            self.sift_down(last);
        }
        first
    }

    /// Saves the values of the variables of the levels above one, and puts these variables back on the heap.
    pub fn release(&mut self, watch: &Watch, level: usize) {
        let trail = watch.trail();
        let reasons = watch.reasons();
        let mut left = watch.level().saturating_sub(level);
        for index in (0..trail.len()).rev() {
            if left == 0 {
                return;
            }
            if let Some(lit) = trail.get(index) {
                self.keep(*lit);
            }
            if let Some(None) = reasons.get(index) {
                left -= 1;
            }
        }
    }

    /// Saves the value of a literal's variable, and puts the variable back on the heap.
    fn keep(&mut self, lit: Lit) {
        self.set_phase(lit);
        self.insert(lit.variable());
    }

    /// Puts a variable on the heap, unless it is there.
    fn insert(&mut self, variable: u64) {
        if self.heap_index(variable) != usize::MAX || self.size >= self.heap.len() {
            return;
        }
        let index = self.size;
        self.size += 1;
        self.sift_up(index, variable);
    }

    /// Bumps the activities of the variables of literals.
    pub fn bump(&mut self, lits: &[Lit]) {
        for lit in lits {
            self.bump_variable(lit.variable());
        }
    }

    /// Bumps the activities of the variables of the literals at these trail indices.
    pub fn bump_at(&mut self, trail: &[Lit], indices: &[usize]) {
        for index in indices {
            if let Some(lit) = trail.get(*index) {
                self.bump_variable(lit.variable());
            }
        }
    }

    /// Bumps the activity of a variable.
    fn bump_variable(&mut self, variable: u64) {
        let increment = self.increment;
        if let Some(activity) = self.activities.get_mut(variable as usize) {
            *activity = activity.saturating_add(increment);
        }
        let index = self.heap_index(variable);
        if index != usize::MAX {
            self.sift_up(index, variable);
        }
    }

    /// Decays activities by a tenth: later bumps count for more than earlier ones.
    pub fn decay(&mut self) {
        self.increment = self.increment.saturating_add(self.increment / 9);
        if self.increment >= GREATEST_INCREMENT {
            self.increment >>= RESCALE_BITS;
            for activity in self.activities.iter_mut() {
                *activity >>= RESCALE_BITS;
            }
        }
    }

    /// Puts a variable at a free index of the heap, or above it.
    fn sift_up(&mut self, index: usize, variable: u64) {
        let activity = self.activity(variable);
        let mut index = index;
        for _ in 0..usize::BITS {
            let above = self.at(index.saturating_sub(1) / 2);
            if index == 0 || self.activity(above) >= activity {
                break;
            }
            self.put(index, above);
            index = (index - 1) / 2;
        }
        self.put(index, variable);
    }

    /// Puts a variable at the free top of the heap, or below it.
    fn sift_down(&mut self, variable: u64) {
        let activity = self.activity(variable);
        let mut index = 0;
        for _ in 0..usize::BITS {
            let below = self.greater_below(index);
            let other = self.at(below);
            if below >= self.size || self.activity(other) <= activity {
                break;
            }
            self.put(index, other);
            index = below;
        }
        self.put(index, variable);
    }

    /// The index below another whose variable has the greater activity.
    fn greater_below(&self, index: usize) -> usize {
        let left = index.saturating_mul(2).saturating_add(1);
        let right = left.saturating_add(1);
        if right < self.size && self.activity(self.at(right)) > self.activity(self.at(left)) {
            right
        } else {
            left
        }
    }

    /// Puts a variable at an index of the heap.
    fn put(&mut self, index: usize, variable: u64) {
        if let Some(entry) = self.heap.get_mut(index) {
            *entry = variable;
        }
        self.set_heap_index(variable, index);
    }

    /// The variable at an index of the heap.
    fn at(&self, index: usize) -> u64 {
        self.heap.get(index).copied().unwrap_or(0)
    }

    /// The index of a variable on the heap, the greatest number if it isn't there.
    fn heap_index(&self, variable: u64) -> usize {
        self.heap_indices
            .get(variable as usize)
            .copied()
            .unwrap_or(usize::MAX)
    }

    /// Sets the index of a variable on the heap.
    fn set_heap_index(&mut self, variable: u64, index: usize) {
        if let Some(entry) = self.heap_indices.get_mut(variable as usize) {
            *entry = index;
        }
    }

    /// The activity of a variable.
    fn activity(&self, variable: u64) -> u64 {
        self.activities.get(variable as usize).copied().unwrap_or(0)
    }
}

/// Whether a variable has no value.
pub fn is_unassigned(watch: &Watch, variable: u64) -> bool
    requires counted { 1 ≤ variable }
    requires within { variable ≤ watch.now.variables }
    ensures { result ≡ is_none (value_of watch.now.trail (positive variable)) }
{
    let variables = watch.variables();
    watch
        .value(Lit::positive(variable.min(variables)))
        .is_none()
}

/// The first variable without a value up to a limit.
fn first_unassigned(watch: &Watch, limit: u64) -> Option<u64>
    requires { limit ≤ watch.now.variables }
    ensures some { IfSome result (λ variable. IsUnassigned watch.now.trail limit variable) }
    ensures none { IfNone result ((variable : ℕ) → 1 ≤ variable → variable ≤ limit
        → is_none (value_of watch.now.trail (positive variable)) ≡ false) }
{
    for variable in 1..=limit {
        if is_unassigned(watch, variable) {
            return Some(variable);
        }
    }
    None
}
