//! Calls of the program over worlds in memory.

ghost use Rattle.std.specs.Prelude.{◌<◌, ◌≡◌};
ghost use Rattle.std.specs.String.{string_bytes};

use crate::support::counted::Counted;
use crate::support::programs::BRANCHES;
use ba_answers::status::Status;
use ba_rules::rules::{Rules, keep, luby, steady};
use ba_steps::{NoSink, StepSink};
use ba_tool::tool::tool;
use ba_world::{MemoryWorld, World};
use std::alloc::Global;
use std::panic::Expect;
use std::process::Abort;

/// A file of this name with these bytes.
fn file(rt: &impl Abort, alloc: Global, name: &str, bytes: &[u8]) -> (String, Vec<u8>)
    ensures { string_bytes result.0 ≡ name.now }
{
    (
        String::from_str(alloc, name).expect(rt, "memory"),
        Vec::from_slice(alloc, bytes).expect(rt, "memory"),
    )
}

/// A world that holds a program and an input.
pub fn world_of(
    rt: &impl Abort,
    alloc: Global,
    program: &str,
    input: &str,
    fails: &[u64],
    piece: usize,
) -> MemoryWorld
    requires { 0 < piece }
{
    let mut files = Vec::new(alloc);
    files
        .push(file(rt, alloc, "p.c", program.as_bytes()))
        .expect(rt, "memory");
    files
        .push(file(rt, alloc, "in.txt", input.as_bytes()))
        .expect(rt, "memory");
    let fails = Vec::from_slice(alloc, fails).expect(rt, "memory");
    MemoryWorld::new(alloc, files, fails, piece).expect(rt, "memory")
}

/// A world that holds a program, an input on which it fails, and inputs on which it passes.
pub fn repair_world(
    rt: &impl Abort,
    alloc: Global,
    program: &str,
    failing: &str,
    passing: &str,
) -> MemoryWorld {
    let mut files = Vec::new(alloc);
    files
        .push(file(rt, alloc, "p.c", program.as_bytes()))
        .expect(rt, "memory");
    files
        .push(file(rt, alloc, "failing.txt", failing.as_bytes()))
        .expect(rt, "memory");
    files
        .push(file(rt, alloc, "passing.txt", passing.as_bytes()))
        .expect(rt, "memory");
    MemoryWorld::new(alloc, files, Vec::new(alloc), 4096).expect(rt, "memory")
}

/// A world that gives pieces of 16 bytes and counts its calls. It holds the array example and weights for it.
/// The example fails on `in.txt`, `failing.txt` and each line of `all.txt`, and passes on `passing.txt`. The
/// certificate has these bytes.
pub fn counted_world(
    rt: &impl Abort,
    alloc: Global,
    certificate: &[u8],
    fails: &[u64],
) -> Counted<MemoryWorld> {
    let mut files = Vec::new(alloc);
    files
        .push(file(rt, alloc, "p.c", BRANCHES.as_bytes()))
        .expect(rt, "memory");
    files
        .push(file(rt, alloc, "in.txt", b"1"))
        .expect(rt, "memory");
    files
        .push(file(rt, alloc, "all.txt", b"1\n# the same once more\n1\n"))
        .expect(rt, "memory");
    files
        .push(file(rt, alloc, "w.txt", b"7 3\n"))
        .expect(rt, "memory");
    files
        .push(file(rt, alloc, "failing.txt", b"1"))
        .expect(rt, "memory");
    files
        .push(file(rt, alloc, "passing.txt", b"0\n"))
        .expect(rt, "memory");
    files
        .push(file(rt, alloc, "c", certificate))
        .expect(rt, "memory");
    let fails = Vec::from_slice(alloc, fails).expect(rt, "memory");
    let inside = MemoryWorld::new(alloc, files, fails, 16).expect(rt, "memory");
    Counted::new(Vec::new(alloc), inside)
}

/// Calls the program by these words, with its own rules of a search.
pub fn end<W: World, D: StepSink + Drop>(
    alloc: Global,
    words: &[&str],
    world: &mut W,
    steps: &mut D,
) -> Status {
    tool(alloc, words, world, steps, Rules::new(luby, steady, keep))
}

/// Calls the program over a world, by a bound of 1.
pub fn localise(alloc: Global, world: &mut MemoryWorld) -> Status {
    let words = ["localise", "p.c", "in.txt", "--bound", "1"];
    end(alloc, &words, world, &mut NoSink)
}
