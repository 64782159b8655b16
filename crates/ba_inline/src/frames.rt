//! What is known while a program's calls are inlined.

ghost use Rattle.std.specs.Prelude.{◌≡◌};
ghost use Rattle.ba_inline.specs.Making.{body_exits, break_label, continue_label, turn_exits};
ghost use Rattle.ba_inline.specs.Parts.{wanted_take};

use crate::scope::Scope;
use ba_code::nodes::{Operand, Take};
use ba_numbers::numbers::CType;
use ba_tree::run::Step;
use ba_tree::tree::Program;
use std::alloc::Global;

/// What stays the same while a program is inlined.
#[derive(Clone, Copy)]
pub struct Setting<'a> {
    pub alloc: Global,
    pub program: &'a Program,
}

/// Whether a loop or `switch` is around a statement, which a `break` leaves, and whether a loop is, which a
/// `continue` goes on with.
#[derive(Clone, Copy)]
pub struct Exits {
    pub breaks: bool,
    pub continues: bool,
}

/// What is known of the inlined function: the variable of its result, the loops around, its type, and how
/// many frames may still begin.
#[derive(Clone, Copy)]
pub struct Frame {
    pub home: u32,
    pub exits: Exits,
    pub result: Option<CType>,
    pub frames: u32,
}

/// Inlines within one frame, at one path: the setting, what the variables of the program are there, the
/// frame, and the path.
#[derive(Clone, Copy)]
pub struct Inliner<'a> {
    pub setting: &'a Setting<'a>,
    pub scope: &'a Scope,
    pub frame: Frame,
    pub path: &'a [Step],
}

/// What a call gives to a parameter: a value, or the location of an array.
#[derive(Clone, Copy)]
pub enum Given {
    Value(Operand),
    Array(u32),
}

/// What may replace an expression: a value of a type, or the value of a condition.
#[derive(Clone, Copy)]
pub enum Wanted {
    Value(CType),
    Truth,
}

/// The label of the block that a `return` leaves.
pub const RETURNED: u32 = 0;

/// The label of the block that a `break` leaves.
pub const BROKEN: u32 = 1;

/// The label of the block that a `continue` leaves.
pub const CONTINUED: u32 = 2;

/// The label of the block that a `break` leaves here. Outside of loops, where no program has one, it is the
/// function's.
pub fn break_label(exits: Exits) -> u32
    ensures { result ≡ break_label exits }
{
    if exits.breaks { BROKEN } else { RETURNED }
}

/// The label of the block that a `continue` leaves here. Outside of loops, where no program has one, it is
/// the function's.
pub fn continue_label(exits: Exits) -> u32
    ensures { result ≡ continue_label exits }
{
    if exits.continues { CONTINUED } else { RETURNED }
}

/// The frame inside the body of a loop.
pub fn in_body(frame: Frame) -> Frame
    ensures { result ≡ record frame { exits = body_exits } }
{
    Frame {
        exits: Exits {
            breaks: true,
            continues: true,
        },
        ..frame
    }
}

/// The frame inside the step of a loop, or the body of a `switch`: a `continue` goes on with the loop around
/// it.
pub fn in_step(frame: Frame) -> Frame
    ensures { result ≡ record frame { exits = turn_exits frame.exits } }
{
    Frame {
        exits: Exits {
            breaks: true,
            continues: frame.exits.continues,
        },
        ..frame
    }
}

/// What the values of a choice do in place of an expression.
pub fn take_of(wanted: Wanted, to: u32) -> Take
    ensures { result ≡ wanted_take wanted to }
{
    match wanted {
        Wanted::Value(t) => Take::Value { to, t },
        Wanted::Truth => Take::Truth { to },
    }
}
