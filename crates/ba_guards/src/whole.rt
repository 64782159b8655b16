//! The words of a whole program and its input.

ghost use Rattle.std.specs.Prelude.{◌≡◌, true, IfOk};
ghost use Rattle.ba_guards.specs.Contract.{IsGuarded, are_word_values};
ghost use Rattle.ba_tree.specs.Run.{fits};
ghost use Rattle.ba_tree.specs.declared.run.Input.{Input};
ghost use Rattle.ba_tree.specs.declared.tree.Program.{Program};

use crate::starting::{give_input, start};
use crate::walking::guard_nodes;
use ba_code::trees::BoundTree;
use ba_tree::run::Input;
use ba_wordlist::words::WordList;
use std::alloc::{AllocError, Global};

/// The words of a loop-free program, on an input whose values are in the range of `I32` or of `U32`.
///
/// Let each execution of a statement be relaxed, with the choice that an assignment spells. The assignment
/// meets the requirements exactly if that run is good. The places whose guard is not 0 are then, in order,
/// those at which the run uses up its choices. Each good run has the choices of some assignment. The same
/// holds if only some executions may be relaxed, for assignments with Keep at all other places.
///
/// A value that the input lacks is 0. Values past the parameters, or past the elements of an array, are not
/// used.
///
/// The only error is out of memory, also for more than 2^32 - 1 words.
pub fn guard(alloc: Global, tree: &BoundTree, input: &Input) -> Result<WordList, AllocError>
    requires { are_word_values input.now.values ≡ true }
    ensures { IfOk result (λ list. IsGuarded tree.now input.now list) }
{
    let arrays = tree.arrays.as_slice();
    let mut b = start(alloc, tree.vars, arrays)?;
    give_input(
        alloc,
        arrays,
        &mut b,
        tree.params.as_slice(),
        input.values.as_slice(),
    )?;
    guard_nodes(alloc, arrays, &mut b, tree.body.as_slice())?;
    Ok(WordList {
        words: b.words.into_items(),
        require: b.require.into_items(),
        places: b.places,
    })
}

/// Law: the values of an input that fits a program are in the range of `I32` or of `U32`.
pub fn inputs_are_words()
    ensures { (p : Program) (input : Input) → fits p input ≡ true
        → are_word_values input.values ≡ true }
{}
