//! The words of the runs of a program.

ghost use Rattle.std.specs.Prelude.{◌≡◌, true, All, IfOk};
ghost use Rattle.ba_formula.specs.Words.{HasOutcomesOf, HasRuns, good_on, good_on_all};
ghost use Rattle.ba_tree.specs.Run.{fits};
ghost use Rattle.ba_tree.specs.declared.run.Input.{Input};

use ba_code::trees::BoundTree;
use ba_guards::{guard, inputs_are_words};
use ba_inline::inline;
use ba_tree::run::{Bounds, Input};
use ba_tree::tree::Program;
use ba_unroll::unroll;
use ba_wordlist::words::WordList;
use ba_wordlist::{append, empty_list};
use std::alloc::{AllocError, Global};

/// The program without calls and loops, which has its outcomes within these bounds.
///
/// The only error is out of memory.
fn loop_free(alloc: Global, program: &Program, bounds: Bounds) -> Result<BoundTree, AllocError>
    ensures { IfOk result (HasOutcomesOf program.now bounds) }
{
    let looping = inline(alloc, program, bounds.frames)?;
    unroll(alloc, &looping, bounds.turns)
}

/// The words of the runs of a program on an input.
///
/// The only error is out of memory.
pub(crate) fn words_of(
    alloc: Global,
    program: &Program,
    input: &Input,
    bounds: Bounds,
) -> Result<WordList, AllocError>
    requires { fits program.now input.now ≡ true }
    ensures { IfOk result (HasRuns program.now (good_on program.now input.now bounds)) }
{
    let tree = loop_free(alloc, program, bounds)?;
    inputs_are_words();
    guard(alloc, &tree, input)
}

/// The words of the runs of a program on several inputs, those of one run behind those of the one before.
///
/// The only error is out of memory.
pub(crate) fn words_of_all(
    alloc: Global,
    program: &Program,
    inputs: &[Input],
    bounds: Bounds,
) -> Result<WordList, AllocError>
    requires { All (λ (input : Input). fits program.now input ≡ true) inputs.now }
    ensures { IfOk result (HasRuns program.now (good_on_all program.now inputs.now bounds)) }
{
    let tree = loop_free(alloc, program, bounds)?;
    inputs_are_words();
    let mut words = empty_list(alloc);
    for input in inputs {
        let more = guard(alloc, &tree, input)?;
        words = append(alloc, words, more)?;
    }
    Ok(words)
}
