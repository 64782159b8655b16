//! What the tests of the front end share.

pub mod programs;
pub mod shown;
pub mod typing;
