//! The interface to files and standard output.
//!
//! A [`World`] is all that the program meets of the outside. Its contract says what each call gives and
//! changes, as far as the world tells it, and when a call may fail. [`MemoryWorld`] tells everything, and
//! chosen calls of it fail; it is for tests. [`HostWorld`] is made over a [`FileSystem`] and standard output,
//! and tells no content.
#![tactic(auto)]

mod file_system;
mod host;
mod memory;
mod read;
mod world;

pub use file_system::{FileSystem, RuntimeFiles};
pub use host::HostWorld;
pub use memory::MemoryWorld;
pub use read::{ReadFileError, read_whole};
pub use world::{World, WorldError};
