//! What is counted while a program is type checked: calls, and the fault that comes first.

ghost use Rattle.std.specs.Prelude.{◌≡◌, ◌+◌, ℕ, Some, List, [], ◌∷◌, IfOk, OnOk, OnErr, MatchOption};
ghost use Rattle.ba_typing.specs.Faults.{IsFirst, fault_if, limit_faults};
ghost use Rattle.ba_expressions.specs.Inferring.{after, nothing_found, sooner, with_faults};
ghost use Rattle.ba_typing.specs.declared.fault.Fault.{Fault};

use ba_numbers::ids::{At, CallId};
use ba_typing::fault::{Cause, Fault};
use std::alloc::AllocError;

/// The greatest height that an expression may have.
pub const HEIGHT_LIMIT: u32 = 100;

/// How many calls come before, and the first fault so far.
#[derive(Clone, Copy)]
pub struct Tally {
    pub calls: u32,
    pub least: Option<Fault>,
}

impl Tally {
    /// No call and no fault.
    pub fn new() -> Tally
        ensures { result ≡ nothing_found }
    {
        Tally {
            calls: 0,
            least: None,
        }
    }

    /// The first fault that was found, `None` if there is none.
    pub fn first_fault(&self) -> Option<Fault>
        ensures { (calls : ℕ) (faults : List Fault) → self.now ≡ after nothing_found calls faults →
            MatchOption result (faults ≡ []) (IsFirst faults) }
    {
        self.least
    }

    /// Adds a fault.
    pub fn add(&mut self, fault: Fault)
        ensures { self.new ≡ with_faults self.old (fault ∷ []) }
    {
        self.least = match self.least {
            None => Some(fault),
            Some(least) => Some(sooner(least, fault)),
        };
    }

    /// Adds a fault of this cause at this position, if `is_so` is true.
    pub fn add_if(&mut self, is_so: bool, cause: Cause, at: At)
        ensures { self.new ≡ with_faults self.old (fault_if is_so cause at) }
    {
        if is_so {
            self.add(Fault { at, cause });
        }
    }

    /// Adds a fault if the item of this number, counted from 1, is past the limit.
    pub fn add_limit(&mut self, limit: u32, number: u32, at: At)
        ensures { self.new ≡ with_faults self.old (limit_faults limit number at) }
    {
        self.add_if(limit < number, Cause::Limit, at);
    }

    /// The number of the next call. The only error is out of memory, also if the numbers run out.
    pub fn next_call(&mut self) -> Result<CallId, AllocError>
        ensures number { IfOk result (λ call. call ≡ record { 0 = self.old.calls + 1 }) }
        ensures counted { OnOk result (self.new ≡ after self.old 1 []) }
        ensures err { OnErr result (self.new ≡ self.old) }
    {
        let Some(calls) = self.calls.checked_add(1) else {
            return Err(AllocError);
        };
        self.calls = calls;
        Ok(CallId(calls))
    }
}

/// The fault of the two that comes first; the first one if they are equal.
fn sooner(least: Fault, fault: Fault) -> Fault
    ensures { Some result ≡ sooner (Some least) fault }
{
    if fault.comes_before(least) {
        fault
    } else {
        least
    }
}
