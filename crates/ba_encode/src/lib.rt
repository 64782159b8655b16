//! The partial weighted MaxSAT encoding: from a word list with groups of executions to clauses with
//! selectors.
//!
//! Each group has a selector, a variable that is true if the group runs as written. The formula says that all
//! requirements of the list are met. It also says that an execution which takes place and isn't kept is in a
//! group with a false selector. The choices of such a run are read from a model.
#![tactic(auto)]

mod choices;
mod encoded;
mod formulas;
mod grouping;
mod places;
mod reading;
mod required;
mod roots;
mod selectors;
mod softs;

pub use choices::choices_of;
pub use encoded::{Encoded, Group, PlaceReading, ValueReading};
pub use formulas::encode;
pub use grouping::{Grouping, Numbered};
pub use softs::softs_of;
