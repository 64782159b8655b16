//! Calls of the program.

use anyhow::Result;
use ba_answers::status::Status;
use ba_rules::rules::{Rules, keep, luby, steady};
use ba_steps::NoSink;
use ba_tool::tool::tool;
use ba_world::{HostWorld, RuntimeFiles};
use std::io;
use std::rt::Files;

/// Calls the program by words, over files of the current folder, and tells its status if that is not 0.
pub fn call<R: AllocGlobal + Files + Print>(rt: &R, words: &[&str]) -> Result<()> {
    let mut world = HostWorld::new(RuntimeFiles(rt), io::writer(rt));
    let rules = Rules::new(luby, steady, keep);
    let status = tool(rt.alloc(), words, &mut world, &mut NoSink, rules);
    if status != Status::Ok {
        let number = status.number();
        println!(rt; "status {number}")?;
    }
    Ok(())
}
