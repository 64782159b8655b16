//! Places with the present iterations of loops.

ghost use Rattle.std.specs.Prelude.{◌≡◌, true, IfOk, List, ◌∷◌, reverse};
ghost use Rattle.std.specs.List.{list_all};
ghost use Rattle.ba_code.specs.Facts.{is_counted};
ghost use Rattle.ba_code.specs.Meaning.{filled, path_in};
ghost use Rattle.ba_tree.specs.declared.run.Step.{Step};

use ba_items::Items;
use ba_tree::run::{Place, Step};
use std::alloc::{AllocError, Global};

/// The step with the present iterations of the loops around, innermost first, and the iterations left for the
/// steps outside it.
fn step_in<'t>(turns: &'t [u32], step: Step) -> (Step, &'t [u32])
    ensures { (path : List Step) → filled turns.now (step ∷ path)
        ≡ result.0 ∷ filled result.1.now path }
{
    match step {
        Step::Turn(stmt, 0) => match turns.split_first() {
            Some((turn, outer)) => (Step::Turn(stmt, *turn), outer),
            None => (step, turns),
        },
        _ => (step, turns),
    }
}

/// The path, innermost step first, with these present iterations.
fn steps_in(alloc: Global, turns: &[u32], path: &[Step]) -> Result<Vec<Step>, AllocError>
    ensures { IfOk result (λ steps. steps.items ≡ filled turns.now path.now) }
{
    let mut steps = Vec::with_capacity(alloc, path.len())?;
    let mut left = turns;
    for step in path {
        let (step, outer) = step_in(left, *step);
        steps.push(step)?;
        left = outer;
    }
    Ok(steps)
}

/// Whether the step is a call, or an iteration that is counted from 1.
fn has_number(step: Step) -> bool
    ensures { result ≡ is_counted step }
{
    match step {
        Step::Call(_) => true,
        Step::Turn(_, turn) => 1 <= turn,
    }
}

/// Whether all iterations of the path are counted from 1.
fn have_numbers(path: &[Step]) -> bool
    ensures { result ≡ list_all is_counted path.now }
{
    path.iter().all(|step| has_number(*step))
}

/// The place with the present iterations of the loops around, innermost first. Each iteration of number 0
/// gets the number of its loop's iteration.
///
/// The only error is out of memory. A place with more iterations of number 0 than loops around, which no
/// program has, is answered so too.
pub fn place_in(alloc: Global, turns: &[u32], place: &Place) -> Result<Place, AllocError>
    ensures path { IfOk result (λ made. made.path
        ≡ reverse (path_in turns.now place.now.path)) }
    ensures stmt { IfOk result (λ made. made.stmt ≡ place.now.stmt) }
    ensures counted { IfOk result (λ made. list_all is_counted made.path ≡ true) }
{
    let inner_first: Vec<Step> = place.path.as_slice().iter().rev().copied().collect(alloc)?;
    let mut steps = steps_in(alloc, turns, inner_first.as_slice())?;
    steps.reverse();
    if !have_numbers(steps.as_slice()) {
        return Err(AllocError);
    }
    Ok(Place {
        path: Items::from_vec(steps),
        stmt: place.stmt,
    })
}
