//! The formula of a program where single executions are relaxed.

ghost use Rattle.std.specs.Prelude.{◌≡◌, true, All, IfOk};
ghost use Rattle.ba_encode.specs.Encodings.{IsEncodingOf};
ghost use Rattle.ba_encode.specs.Groups.{are_apart};
ghost use Rattle.ba_encode.specs.declared.grouping.Grouping.{Grouping};
ghost use Rattle.ba_formula.specs.PlaceFormulas.{IsPlaceFormulaOf};
ghost use Rattle.ba_lits.specs.Literals.{IsClause};
ghost use Rattle.ba_tree.specs.Least.{AreWeightsOf};
ghost use Rattle.ba_tree.specs.Run.{fits};

use crate::runs::words_of;
use ba_encode::{Encoded, Grouping, encode};
use ba_items::Items;
use ba_places::places_of;
use ba_tree::run::{Bounds, Input, Place, Weights};
use ba_tree::tree::Program;
use ba_wordlist::words::WordList;
use std::alloc::{AllocError, Global};

/// A list of places, and a formula with a group for each of them, by its number from 1.
#[derive(Drop)]
pub struct PlaceFormula {
    pub places: Items<Place>,
    pub encoded: Encoded,
}

/// The formula of a list of words, with a group for each of these places.
///
/// The only error is out of memory.
fn encode_places(
    alloc: Global,
    words: &WordList,
    places: Items<Place>,
) -> Result<PlaceFormula, AllocError>
    requires { are_apart (Grouping.ByPlace places) ≡ true }
    ensures places { IfOk result (λ made. made.places ≡ places) }
    ensures encodes { IfOk result (λ made.
        IsEncodingOf words.now (Grouping.ByPlace places) made.encoded) }
    ensures clauses { IfOk result (λ made.
        All (IsClause made.encoded.formula.variables) made.encoded.formula.clauses) }
{
    let grouping = Grouping::ByPlace(places);
    let encoded = encode(alloc, words, &grouping)?;
    // That the formula's clauses are clauses over its variables is promised by this call.
    let _ = encoded.formula().variables();
    match grouping {
        Grouping::ByPlace(places) => Ok(PlaceFormula { places, encoded }),
        Grouping::ByStatement(_weights) => unreachable!(),
    }
}

/// The formula of a program on an input, where single executions of statements that have a weight may be
/// relaxed. Each has a group, by its number in the list of places. The places are in their order, and each
/// weighs 1.
///
/// The formula encodes the program faithfully. It has a model in which exactly the selectors of a set of
/// these places are false if and only if the set is feasible. A set is feasible if some run is good in which
/// these executions may yield any value of their type. The choices of such a run are read from the model.
/// Whichever executions are relaxed, a good run uses up its choices at places of the list alone.
///
/// The only error is out of memory.
pub fn place_formula_of(
    alloc: Global,
    program: &Program,
    input: &Input,
    bounds: Bounds,
    weights: &Weights,
) -> Result<PlaceFormula, AllocError>
    requires fits { fits program.now input.now ≡ true }
    requires weights { AreWeightsOf program.now weights.now.of }
    ensures { IfOk result (IsPlaceFormulaOf program.now input.now bounds weights.now.of) }
{
    let words = words_of(alloc, program, input, bounds)?;
    let places = places_of(alloc, &words, weights)?;
    encode_places(alloc, &words, places)
}
