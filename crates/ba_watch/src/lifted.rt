//! The values of variables, each in one byte.

ghost use Rattle.std.specs.Prelude.{◌≡◌, ◌↔◌, IsTrue, None, Some, is_some};

use std::marker::Model;

/// The byte of no value.
const NONE: u8 = 2;

/// A lifted Boolean: false, true, or none, as the value of a variable is.
#[derive(Clone, Copy)]
pub struct LiftedBool {
    /// 0 for false, 1 for true, 2 for none.
    code: u8,
}

impl Model for LiftedBool {
    ghost use Rattle.std.specs.Prelude.{◌<◌, Bool, Option};
    ghost use Rattle.ba_watch.specs.Lifted.{lifted, code_of, code_of-lifted};
    ghost use Rattle.std.proofs.Common.{ap};

    ghost Value = { Option Bool };

    ghost view = { λ value. lifted value.code };

    ghost invariant = { λ value. value.code < 3 };

    ghost inverse = { λ value. record { code = code_of value } };

    ghost inverse_ok = { λ value h.
        ap (λ code. record { code = code }) (code_of-lifted value.code h) };
}

impl LiftedBool {
    /// No value.
    pub fn none() -> LiftedBool
        ensures { result ≡ None }
    {
        LiftedBool { code: NONE }
    }

    /// A value.
    pub fn some(value: bool) -> LiftedBool
        ensures { result ≡ Some value }
    {
        LiftedBool { code: value as u8 }
    }

    /// The value, if there is one.
    pub fn get(self) -> Option<bool>
        ensures { result ≡ self }
    {
        if self.code == NONE {
            None
        } else {
            Some(self.code == 1)
        }
    }

    /// Whether there is a value.
    pub fn is_some(self) -> bool
        ensures { result ≡ is_some self }
    {
        self.code != NONE
    }

    /// Whether there is a value, and it is this one.
    pub fn is(self, value: bool) -> bool
        ensures { IsTrue result ↔ self ≡ Some value }
    {
        self.code == value as u8
    }
}
