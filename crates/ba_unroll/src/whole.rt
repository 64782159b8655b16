//! Whole trees.

ghost use Rattle.std.specs.Prelude.{◌≡◌, IfOk};
ghost use Rattle.ba_unroll.specs.Outcomes.{HasOutcomes};

use crate::nodes::add_nodes;
use ba_code::trees::{BoundTree, LoopTree};
use ba_items::Items;
use std::alloc::{AllocError, Global};

/// The tree with each loop replaced by at most `turns` iterations for each entry. A condition that is true
/// after the last one leads to a `Beyond` of the loop's statement.
///
/// It has the same variables, arrays and parameters. It has the outcome of the tree with that bound on
/// iterations, for every input, all that may be relaxed, and all choices.
///
/// The only error is out of memory. It is answered also if the numbers of iterations run out. So is a place
/// with more iterations of number 0 than loops around, which no program has.
pub fn unroll(alloc: Global, tree: &LoopTree, turns: u32) -> Result<BoundTree, AllocError>
    ensures vars { IfOk result (λ made. made.vars ≡ tree.now.vars) }
    ensures arrays { IfOk result (λ made. made.arrays ≡ tree.now.arrays) }
    ensures params { IfOk result (λ made. made.params ≡ tree.now.params) }
    ensures outcomes { IfOk result (λ made. HasOutcomes made tree.now turns) }
{
    let mut body = Vec::new(alloc);
    add_nodes(alloc, turns, &[], tree.body.as_slice(), &mut body)?;
    Ok(BoundTree {
        vars: tree.vars,
        arrays: Items::from_slice(alloc, tree.arrays.as_slice())?,
        params: Items::from_slice(alloc, tree.params.as_slice())?,
        body: Items::from_vec(body),
    })
}
