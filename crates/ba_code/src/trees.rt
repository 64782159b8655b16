//! Programs without calls.

ghost use Rattle.std.specs.Prelude.{IsTrue};
ghost use Rattle.ba_code.specs.Facts.{is_loop_tree, is_bound_tree};

use crate::nodes::{ArrayInfo, Node, Param};
use ba_items::Items;

/// The parts of a program without calls, which may fit together or not. They are the number of variables, the
/// arrays, the parameters of `main` in order, and the nodes.
#[derive(Drop)]
pub struct Code {
    pub vars: u32,
    pub arrays: Items<ArrayInfo>,
    pub params: Items<Param>,
    pub body: Items<Node>,
}

/// A program without calls, whose parts fit together:
/// - each number names a declared variable or array
/// - each `Leave` is inside a block of its label
/// - an array has 1 to 256 elements, and a `Fill` one value for each
/// - constants are in the range of `I32` or of `U32`, and operators work in one of these types
pub struct LoopTree {
    pub vars: u32,
    pub arrays: Items<ArrayInfo>,
    pub params: Items<Param>,
    pub body: Items<Node>,
    pub ghost fit: { IsTrue (is_loop_tree (record {
      vars = vars;
      arrays = arrays;
      params = params;
      body = body;
    })) },
}

impl Drop for LoopTree {
    fn drop(self) {
        let LoopTree {
            vars: _,
            arrays: _,
            params: _,
            body: _,
        } = self;
    }
}

/// A program without calls and loops. What holds of a [`LoopTree`] holds of it, it has no `Loop`, and
/// iterations in its places are counted from 1.
pub struct BoundTree {
    pub vars: u32,
    pub arrays: Items<ArrayInfo>,
    pub params: Items<Param>,
    pub body: Items<Node>,
    pub ghost fit: { IsTrue (is_bound_tree (record {
      vars = vars;
      arrays = arrays;
      params = params;
      body = body;
    })) },
}

impl Drop for BoundTree {
    fn drop(self) {
        let BoundTree {
            vars: _,
            arrays: _,
            params: _,
            body: _,
        } = self;
    }
}
