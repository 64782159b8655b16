//! Certificates in a world of files, with and without faults.

ghost use Rattle.std.specs.Prelude.{◌≡◌, codes};
ghost use Rattle.outside_tests.specs.Settings.{settings};

use ba_cert::{CertHead, CertSink, Start, TextSink, begin_text, read_line};
use ba_lits::Formula;
use ba_steps::{ListSink, NoSink, SinkError, StepSink};
use ba_tree::run::Bounds;
use ba_world::{MemoryWorld, World};
use std::alloc::Global;
use std::marker::Brand;
use std::panic::Expect;
use std::process::Abort;

/// A world without files, whose calls of these numbers fail.
fn world_of(rt: &impl Abort, alloc: Global, fails: &[u64]) -> MemoryWorld {
    let fails = Vec::from_slice(alloc, fails).expect(rt, "memory");
    MemoryWorld::new(alloc, Vec::new(alloc), fails, 1).expect(rt, "memory")
}

/// The settings that the certificates name.
fn settings() -> CertHead
    ensures { result ≡ settings }
{
    CertHead {
        bounds: Bounds {
            turns: 5,
            frames: 16,
        },
        conflicts: 200_000,
        sets: 1000,
    }
}

/// What a sink answered to the last of some steps, and whether its file was whole then.
#[derive(Drop)]
struct Written {
    last: Result<(), SinkError>,
    whole: bool,
}

/// Begins a certificate in the file `c` and hands the steps of these lines to a sink that writes
/// them, and then to `next`.
fn write_from<S: Start, W: World, D: StepSink + Drop>(
    rt: &impl Abort,
    alloc: Global,
    world: &mut W,
    lines: &[&[u8]],
    next: &mut D,
) -> Written
    requires named { S.name ≡ codes "c" }
    requires headed { S.head ≡ settings }
    requires start { W.outside world.old ≡ S.outside }
    requires faults { (D.told next.old).faults ≡ S.faults }
{
    let head = settings();
    begin_text(alloc, world, "c", &head).expect(rt, "two lines");
    let text: TextSink<W, S> = TextSink::new(alloc, world, "c", head);
    let mut sink = CertSink { text, next };
    sink.begin(&Formula::new(alloc), &[])
        .expect(rt, "a formula");
    let mut last = Ok(());
    for line in lines {
        last = sink.take(&read_line(alloc, line).expect(rt, "a step"));
    }
    let whole = sink.text.is_whole("c") && !sink.text.is_whole("another");
    Written { last, whole }
}

/// The same from this moment of the world on.
fn write<W: World, D: StepSink + Drop>(
    rt: &impl Abort,
    alloc: Global,
    world: &mut W,
    lines: &[&[u8]],
    next: &mut D,
) -> Written {
    write_from::<Brand, W, D>(rt, alloc, world, lines, next)
}

fn holds(rt: &impl Abort, world: &MemoryWorld, name: &str, text: &str) {
    assert_eq!(rt; world.file(name).expect(rt, "no file"), text.as_bytes());
}

#[test]
fn steps_are_written_as_they_are_made(rt: HostRuntime) {
    let alloc = rt.alloc();
    let mut world = world_of(&rt, alloc, &[]);
    let mut next = ListSink::new(alloc);
    let lines = [b"c -1 -2 0 1 0".as_slice(), b"e b".as_slice()];
    let written = write(&rt, alloc, &mut world, &lines, &mut next);
    assert_eq!(rt; written.last, Ok(()));
    assert!(rt; written.whole);
    holds(
        &rt,
        &world,
        "c",
        "bugassist 2\nb 5 16 200000 1000\nc -1 -2 0 1 0\ne b\n",
    );
    assert_eq!(rt; next.steps().len(), 2);
    assert_eq!(rt; next.over().len(), 1);
}

#[test]
fn a_refused_sink_refuses_from_then_on(rt: HostRuntime) {
    let alloc = rt.alloc();
    let learn = b"l 1 0 0".as_slice();
    let end = b"e l 0 0".as_slice();
    // Call 0 begins the file, 1 adds the first two lines, 2 and 3 the steps. The fault comes after half of
    // `e l 0 0` and its line feed.
    for (lines, last) in [
        ([learn, end].as_slice(), SinkError::Failed),
        ([learn, end, learn].as_slice(), SinkError::Memory),
    ] {
        let mut world = world_of(&rt, alloc, &[3]);
        let mut next = ListSink::new(alloc);
        let written = write(&rt, alloc, &mut world, lines, &mut next);
        assert_eq!(rt; written.last, Err(last));
        assert!(rt; !written.whole);
        holds(
            &rt,
            &world,
            "c",
            "bugassist 2\nb 5 16 200000 1000\nl 1 0 0\ne l ",
        );
        assert_eq!(rt; next.steps().len(), 1);
    }
}

#[test]
fn a_fault_in_the_first_lines_is_answered(rt: HostRuntime) {
    for call in 0..2 {
        let mut world = world_of(&rt, rt.alloc(), &[call]);
        let answer = begin_text(rt.alloc(), &mut world, "c", &settings());
        assert_eq!(rt; answer, Err(SinkError::Failed), "call {call}");
    }
    // Half of both lines is kept if they are added by one call that fails.
    let mut world = world_of(&rt, rt.alloc(), &[1]);
    let answer = begin_text(rt.alloc(), &mut world, "c", &settings());
    assert_eq!(rt; answer, Err(SinkError::Failed));
    holds(&rt, &world, "c", "bugassist 2\nb 5");
}

#[test]
fn a_certificate_is_written_in_place_of_another(rt: HostRuntime) {
    let alloc = rt.alloc();
    let mut world = world_of(&rt, alloc, &[7]);
    let long = [b"c -1 -2 0 1 0".as_slice(), b"e n 2 0".as_slice()];
    let written = write(&rt, alloc, &mut world, &long, &mut NoSink);
    assert!(rt; written.whole);
    holds(
        &rt,
        &world,
        "c",
        "bugassist 2\nb 5 16 200000 1000\nc -1 -2 0 1 0\ne n 2 0\n",
    );
    let short = [b"l 1 0 0".as_slice(), b"e b".as_slice()];
    let written = write(&rt, alloc, &mut world, &short, &mut NoSink);
    assert_eq!(rt; written.last, Err(SinkError::Failed));
    holds(
        &rt,
        &world,
        "c",
        "bugassist 2\nb 5 16 200000 1000\nl 1 0 0\ne ",
    );
}
