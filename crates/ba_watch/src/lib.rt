//! Unit propagation with two watched literals, and the trail.
//!
//! Each clause of two or more literals watches two of them. If a watched literal becomes false, only the
//! clauses in its list are visited. Sources: M. Moskewicz, C. Madigan, Y. Zhao, L. Zhang, S. Malik, Chaff:
//! Engineering an Efficient SAT Solver. N. Een, N. Sorensson, An Extensible SAT-solver. The lists are
//! threaded through the arena, so propagation takes no memory.
#![tactic(auto)]

mod choice;
mod deletion;
mod lifted;
mod lists;
mod propagation;
mod trail;
mod units;
mod watch;

pub use watch::Watch;
