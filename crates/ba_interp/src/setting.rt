//! What stays the same while a program or a function's body runs.

ghost use Rattle.std.specs.Prelude.{ℕ, ◌≤◌};

use ba_numbers::numbers::CType;
use ba_tree::run::Allowed;
use ba_tree::tree::Program;
use std::alloc::Global;

/// What stays the same while a program runs.
#[derive(Clone, Copy)]
pub struct Setting<'a> {
    pub alloc: Global,
    pub program: &'a Program,
    pub allowed: &'a Allowed,
    /// The bound on iterations of each entry of a loop, at most 128.
    pub turns: u32,
    pub ghost few: { turns ≤ 128 },
}

/// What stays the same while a function's body runs: the type that it returns, and how many more frames may
/// begin.
#[derive(Clone, Copy)]
pub struct Frame {
    pub result: Option<CType>,
    pub frames: u32,
}
