//! What is told of a solved formula.

use std::fmt;

/// What a search comes to, and how that was tried.
#[derive(Drop)]
pub enum Verdict {
    /// There is a model, which satisfies each clause of the formula or doesn't.
    Satisfiable { holds: bool },
    /// There is no model, and the checker allows the step that says so or doesn't.
    Unsatisfiable { allowed: bool },
    /// There is no answer, since the conflicts are spent.
    Spent,
}

impl fmt::Display for Verdict {
    fn fmt<W: fmt::Write>(&self, f: &mut fmt::Formatter<W>) -> fmt::Result {
        let text = match self {
            Verdict::Satisfiable { holds: true } => "satisfiable, and the model holds",
            Verdict::Satisfiable { holds: false } => "satisfiable, but the model does not hold",
            Verdict::Unsatisfiable { allowed: true } => "unsatisfiable, and the end is allowed",
            Verdict::Unsatisfiable { allowed: false } =>
                "unsatisfiable, but the end is not allowed",
            Verdict::Spent => "no answer, since the conflicts are spent",
        };
        write!(f, "{text}")
    }
}

/// A verdict with the work that it took.
#[derive(Drop)]
pub struct Report {
    /// The verdict.
    pub verdict: Verdict,
    /// How many conflicts the search had.
    pub conflicts: u64,
    /// How many literals propagation assigned.
    pub propagated: u64,
}
