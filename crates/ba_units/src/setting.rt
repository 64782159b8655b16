//! What stays the same while a program is counted.

use ba_tree::tree::Program;

/// What stays the same while a program is counted: its tree, and the bound on iterations.
#[derive(Clone, Copy)]
pub struct Setting<'t> {
    pub program: &'t Program,
    pub turns: u32,
}
