//! The calls and iterations around what is being executed.

ghost use Rattle.std.specs.Prelude.{◌≡◌, ◌∷◌, ◌==◌, ◌&&◌, [], List, reverse};
ghost use Rattle.ba_tree.specs.Choices.{is_there, same_path, same_step};
ghost use Rattle.ba_interp.specs.Paths.{steps_of};

use ba_numbers::ids::StmtId;
use ba_tree::run::{Place, Step};

/// The steps from `main` to what is being executed, innermost first.
///
/// A new step refers to the path before it, so no path is copied.
#[derive(Clone, Copy)]
pub enum Path<'a> {
    Main,
    Within { step: Step, outer: &'a Path<'a> },
}

impl<'a> Path<'a> {
    /// The path without steps.
    pub fn main() -> Path<'a>
        ensures { steps_of result ≡ [] }
    {
        Path::Main
    }

    /// The path with one more step inside.
    pub fn within(outer: &'a Path<'a>, step: Step) -> Path<'a>
        ensures { steps_of result ≡ step ∷ steps_of outer.now }
    {
        Path::Within { step, outer }
    }
}

/// Whether a path is made of these steps, outermost first.
pub fn has_steps(path: &Path, steps: &[Step]) -> bool
    ensures { result ≡ same_path steps.now (reverse (steps_of path.now)) }
{
    match path {
        Path::Main => steps.is_empty(),
        Path::Within { step, outer } => match steps.split_last() {
            None => false,
            Some((last, others)) => has_steps(outer, others) && is_same(*last, *step),
        },
    }
}

/// Whether two steps are the same.
fn is_same(step: Step, other: Step) -> bool
    ensures { result ≡ same_step step other }
{
    match (step, other) {
        (Step::Call(call), Step::Call(other)) => call.0 == other.0,
        (Step::Turn(stmt, turn), Step::Turn(other, number)) => stmt.0 == other.0 && turn == number,
        _ => false,
    }
}

/// Whether a place is this statement, reached by this path.
pub fn is_there(path: &Path, stmt: StmtId, place: &Place) -> bool
    ensures { result ≡ is_there (steps_of path.now) stmt place.now }
{
    place.stmt.0 == stmt.0 && has_steps(path, place.path.as_slice())
}
