//! The rules of a search.

ghost use Rattle.std.specs.Prelude.{◌↔◌, ◌≤◌, IsTrue};

use crate::support::calls::world_of;
use ba_answers::status::Status;
use ba_rules::rules::{Rules, keep, luby, steady};
use ba_steps::NoSink;
use ba_tool::tool::tool;
use std::alloc::Global;
use std::panic::Expect;
use std::process::Abort;

/// Numbers of restarts, and how many conflicts come before the next one by Luby's sequence.
static LUBY: [(u64, u64); 8] = [
    (0, 100),
    (1, 100),
    (2, 200),
    (5, 200),
    (6, 400),
    (7, 100),
    (14, 800),
    (1_000_000, 100),
];

#[test]
fn restarts_follow_the_sequence(rt: HostRuntime) {
    for (restarts, conflicts) in &LUBY {
        assert_eq!(rt; luby(*restarts), *conflicts, "after {restarts}");
    }
    assert_eq!(rt; steady(3), 1000);
    assert!(rt; keep(6, 4000) && keep(7, 3999) && !keep(7, 4000));
}

/// A program whose search restarts by Luby's sequence, and not yet at the steady pace.
const CUBE: &str = "int main(int a) {
    int x;
    x = a + 1;
    assert(x * x * x == 343);
}
";

/// Its report on the input 5.
const CUBE_REPORT: &str = "located: weight 1, sets 1
set 1:
  3:5 assignment | x = a + 1;
";

/// The certificate of a search with this option, by the program's rules, or with its two restart rules
/// exchanged.
fn certificate(rt: &impl Abort, alloc: Global, option: &str, exchanged: bool) -> Vec<u8> {
    let words = ["localise", "p.c", "in.txt", "--bound=1", "--cert=c", option];
    let mut world = world_of(rt, alloc, CUBE, "5", &[], 4096);
    let status = if exchanged {
        tool(
            alloc,
            &words,
            &mut world,
            &mut NoSink,
            Rules::new(steady, luby, keep),
        )
    } else {
        tool(
            alloc,
            &words,
            &mut world,
            &mut NoSink,
            Rules::new(luby, steady, keep),
        )
    };
    assert_eq!(rt; status, Status::Ok);
    let written = world.file("c").expect(rt, "no certificate");
    Vec::from_slice(alloc, written).expect(rt, "memory")
}

#[test]
fn the_words_name_the_restart_rule(rt: HostRuntime) {
    let alloc = rt.alloc();
    let by_luby = certificate(&rt, alloc, "--restart=luby", false);
    let by_steady = certificate(&rt, alloc, "--restart=steady", false);
    assert!(rt; by_luby.as_slice() != by_steady.as_slice());
    let exchanged = certificate(&rt, alloc, "--restart=luby", true);
    assert!(rt; exchanged.as_slice() == by_steady.as_slice());
    let exchanged = certificate(&rt, alloc, "--restart=steady", true);
    assert!(rt; exchanged.as_slice() == by_luby.as_slice());
}

/// Whether a clause has at most two literals: such clauses any keep rule keeps.
fn keep_narrow(width: u64, _age: u64) -> bool
    ensures { IsTrue result ↔ (width ≤ 2) }
{
    width <= 2
}

#[test]
fn a_search_that_keeps_few_clauses_lists_the_same_sets(rt: HostRuntime) {
    let alloc = rt.alloc();
    let words = ["localise", "p.c", "in.txt", "--bound=1"];
    let mut world = world_of(&rt, alloc, CUBE, "5", &[], 4096);
    let rules = Rules::new(luby, steady, keep_narrow);
    assert_eq!(rt;
        tool(alloc, &words, &mut world, &mut NoSink, rules),
        Status::Ok
    );
    assert!(rt; world.printed() == CUBE_REPORT.as_bytes());
}
