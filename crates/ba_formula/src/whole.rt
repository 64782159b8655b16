//! The formula of a program.

ghost use Rattle.std.specs.Prelude.{◌≡◌, true, All, IfOk};
ghost use Rattle.ba_encode.specs.Encodings.{IsEncodingOf};
ghost use Rattle.ba_encode.specs.declared.grouping.Grouping.{Grouping};
ghost use Rattle.ba_formula.specs.Formulas.{IsFormulaOf};
ghost use Rattle.ba_lits.specs.Literals.{IsClause};
ghost use Rattle.ba_tree.specs.Least.{AreWeightsOf};
ghost use Rattle.ba_tree.specs.Run.{fits};

use crate::runs::words_of;
use ba_encode::{Encoded, Grouping, encode};
use ba_items::Items;
use ba_tree::run::{Bounds, Input, Weights};
use ba_tree::tree::Program;
use ba_wordlist::words::WordList;
use std::alloc::{AllocError, Global};

/// The formula of a program on an input, with a group for each statement that has a weight.
///
/// It encodes the program faithfully. It has a model in which exactly the selectors of a set of these
/// statements are false if and only if the set is feasible. A set is feasible if some run is good in which
/// their executions may yield any value of their type. The choices of such a run are read from the model.
///
/// The only error is out of memory.
pub fn formula_of(
    alloc: Global,
    program: &Program,
    input: &Input,
    bounds: Bounds,
    weights: &Weights,
) -> Result<Encoded, AllocError>
    requires fits { fits program.now input.now ≡ true }
    requires weights { AreWeightsOf program.now weights.now.of }
    ensures { IfOk result (IsFormulaOf program.now input.now bounds weights.now.of) }
{
    let words = words_of(alloc, program, input, bounds)?;
    encode_statements(alloc, &words, weights)
}

/// The formula of a list of words, with a group for each statement that has a weight.
///
/// The only error is out of memory.
pub(crate) fn encode_statements(
    alloc: Global,
    words: &WordList,
    weights: &Weights,
) -> Result<Encoded, AllocError>
    ensures encodes { IfOk result (IsEncodingOf words.now (Grouping.ByStatement weights.now)) }
    ensures clauses { IfOk result (λ encoded.
        All (IsClause encoded.formula.variables) encoded.formula.clauses) }
{
    let grouping = Grouping::ByStatement(Weights {
        of: Items::from_slice(alloc, weights.of.as_slice())?,
    });
    let encoded = encode(alloc, words, &grouping)?;
    // That the formula's clauses are clauses over its variables is promised by this call.
    let _ = encoded.formula().variables();
    Ok(encoded)
}
