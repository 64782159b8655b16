//! The steps from a program to its list of words.

ghost use Rattle.std.specs.Prelude.{◌≡◌, true};
ghost use Rattle.ba_tree.specs.Run.{fits};

use crate::formulas::sizes::nodes_in;
use anyhow::Result;
use ba_guards::{guard, inputs_are_words};
use ba_inline::inline;
use ba_tree::run::{Bounds, Input};
use ba_tree::tree::Program;
use ba_unroll::unroll;
use std::io;
use std::time::{Clock, Instant};

/// Makes the word list of a program on an input step by step, and prints its sizes. They are the nodes of the
/// trees without calls and without loops, and the list's words, requirements and places.
pub fn print_steps<R: AllocGlobal + Clock + Eprint + Print>(
    rt: &R,
    program: &Program,
    input: &Input,
    bounds: Bounds,
) -> Result<()>
    requires fits { fits program.now input.now ≡ true }
{
    let alloc = rt.alloc();
    let start = Instant::now(rt)?;
    let looping = inline(alloc, program, bounds.frames)?;
    tell_time(rt, "inline", &start)?;
    let start = Instant::now(rt)?;
    let straight = unroll(alloc, &looping, bounds.turns)?;
    tell_time(rt, "unroll", &start)?;
    inputs_are_words();
    let start = Instant::now(rt)?;
    let list = guard(alloc, &straight, input)?;
    tell_time(rt, "guard", &start)?;
    let with_loops = nodes_in(looping.body.as_slice());
    let without_loops = nodes_in(straight.body.as_slice());
    let words = list.words.len();
    let requirements = list.require.len();
    let places = list.places.len();
    println!(rt; "c nodes without calls: {with_loops}\nc nodes without loops: {without_loops}")?;
    println!(rt; "c words: {words}\nc requirements: {requirements}\nc places: {places}")?;
    Ok(())
}

/// Tells on standard error how long a step took.
pub fn tell_time<R: Clock + Eprint>(rt: &R, step: &str, start: &Instant) -> io::Result<()> {
    let seconds = start.elapsed(rt)?.as_secs_f64();
    eprintln!(rt; "{step}: {seconds:.3} s")
}
