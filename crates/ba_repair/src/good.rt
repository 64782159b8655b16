//! Which edits are good.

ghost use Rattle.std.specs.Prelude.{◌≡◌, ◌↔◌, true, map, All, IfOk};
ghost use Rattle.ba_repair.specs.Edits.{IsEditOf};
ghost use Rattle.ba_repair.specs.Good.{AreGood, IsGood, Passes};
ghost use Rattle.ba_tree.specs.Run.{are_bounds, runs_well};

use crate::listing::Edit;
use crate::programs::edited;
use ba_interp::run;
use ba_items::Items;
use ba_tree::run::{Allowed, Bounds, Input, Outcome};
use ba_tree::tree::Program;
use std::alloc::{AllocError, Global};

/// Whether the run as written is done on an input.
fn runs_well(
    alloc: Global,
    program: &Program,
    input: &Input,
    bounds: Bounds,
) -> Result<bool, AllocError>
    requires bounds { are_bounds bounds ≡ true }
    ensures { IfOk result (λ well. well ≡ runs_well program.now input.now bounds) }
{
    let nothing = Allowed::Statements(Items::new(alloc));
    let outcome = run(alloc, program, input, bounds, &nothing, &[])?;
    Ok(matches!(outcome, Outcome::Done))
}

/// Whether the run as written is done on each of the inputs.
fn passes(
    alloc: Global,
    program: &Program,
    inputs: &[&Input],
    bounds: Bounds,
) -> Result<bool, AllocError>
    requires bounds { are_bounds bounds ≡ true }
    ensures { IfOk result (λ passes. (passes ≡ true)
        ↔ Passes bounds (map (λ input. input.now) inputs.now) program.now) }
{
    for input in inputs {
        if !runs_well(alloc, program, *input, bounds)? {
            return Ok(false);
        }
    }
    Ok(true)
}

/// Whether an edit of the program is good for the inputs.
fn is_good(
    alloc: Global,
    program: &Program,
    edit: &Edit,
    inputs: &[&Input],
    bounds: Bounds,
) -> Result<bool, AllocError>
    requires own { IsEditOf program.now edit.now }
    requires bounds { are_bounds bounds ≡ true }
    ensures { IfOk result (λ good. (good ≡ true)
        ↔ IsGood program.now bounds (map (λ input. input.now) inputs.now) edit.now) }
{
    let program = edited(alloc, program, edit)?;
    passes(alloc, &program, inputs, bounds)
}

/// The good ones of the program's edits, in their order. An edit is good if the edited program's run as
/// written is done on each input, within the bounds.
///
/// Each edit is tried on the inputs in their order, up to the first on which it fails. One edited program is
/// in memory at a time. The only error is out of memory.
pub fn good_edits(
    alloc: Global,
    program: &Program,
    edits: &[Edit],
    inputs: &[&Input],
    bounds: Bounds,
) -> Result<Vec<Edit>, AllocError>
    requires own { All (IsEditOf program.now) edits.now }
    requires bounds { are_bounds bounds ≡ true }
    ensures { IfOk result (λ good. AreGood program.now bounds
        (map (λ input. input.now) inputs.now) edits.now good.items) }
{
    let mut good = Vec::new(alloc);
    for edit in edits {
        if is_good(alloc, program, edit, inputs, bounds)? {
            good.push(*edit)?;
        }
    }
    Ok(good)
}
