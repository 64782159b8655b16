//! The formula of a program on several inputs.

ghost use Rattle.std.specs.Prelude.{◌≡◌, true, All, IfOk};
ghost use Rattle.ba_formula.specs.AllFormulas.{IsFormulaOfAll};
ghost use Rattle.ba_tree.specs.Least.{AreWeightsOf};
ghost use Rattle.ba_tree.specs.Run.{fits};

use crate::runs::words_of_all;
use crate::whole::encode_statements;
use ba_encode::Encoded;
use ba_tree::run::{Bounds, Input, Weights};
use ba_tree::tree::Program;
use std::alloc::{AllocError, Global};

/// The formula of a program on several inputs, with a group for each statement that has a weight. The runs
/// share nothing but the groups: where a statement is given up, it is in all runs.
///
/// It encodes the program faithfully. It has a model in which exactly the selectors of a set of these
/// statements are false if and only if the set is feasible for each input. So it is if some run on the input
/// is good in which executions of these statements may yield any value of their type. The choices of such
/// runs are read from the model, those of one run behind those of the other, in the order of the inputs.
///
/// The only error is out of memory.
pub fn formula_of_all(
    alloc: Global,
    program: &Program,
    inputs: &[Input],
    bounds: Bounds,
    weights: &Weights,
) -> Result<Encoded, AllocError>
    requires fits { All (λ input. fits program.now input ≡ true) inputs.now }
    requires weights { AreWeightsOf program.now weights.now.of }
    ensures { IfOk result (IsFormulaOfAll program.now inputs.now bounds weights.now.of) }
{
    let words = words_of_all(alloc, program, inputs, bounds)?;
    encode_statements(alloc, &words, weights)
}
