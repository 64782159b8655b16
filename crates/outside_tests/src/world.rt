//! What no clause says: that calls succeed with ample memory, and how real files behave.

ghost use Rattle.std.specs.Prelude.{◌<◌};

use crate::support::endless::Endless;
use ba_world::{
    HostWorld, MemoryWorld, ReadFileError, RuntimeFiles, World, WorldError, read_whole,
};
use std::alloc::Global;
use std::io;
use std::panic::Expect;
use std::process::Abort;

const LIMIT: u64 = 65_536;

/// A world that holds one file.
fn world_of(
    rt: &impl Abort,
    alloc: Global,
    name: &str,
    bytes: &[u8],
    fails: &[u64],
    piece: usize,
) -> MemoryWorld
    requires { 0 < piece }
{
    let mut files = Vec::new(alloc);
    let name = String::from_str(alloc, name).expect(rt, "memory");
    let bytes = Vec::from_slice(alloc, bytes).expect(rt, "memory");
    files.push((name, bytes)).expect(rt, "memory");
    let fails = Vec::from_slice(alloc, fails).expect(rt, "memory");
    MemoryWorld::new(alloc, files, fails, piece).expect(rt, "memory")
}

fn spaces(rt: &impl Abort, alloc: Global, length: usize) -> Vec<u8> {
    vec![in alloc; b' '; length].expect(rt, "memory")
}

#[test]
fn reads_files_up_to_the_limit(rt: HostRuntime) {
    for piece in [1, 7, 4096] {
        for length in [0, 1, 4095, 4096, 4097, 65_536] {
            let file = spaces(&rt, rt.alloc(), length);
            let mut world = world_of(&rt, rt.alloc(), "program", file.as_slice(), &[], piece);
            let bytes = read_whole(rt.alloc(), &mut world, "program", LIMIT).expect(&rt, "memory");
            assert_eq!(rt;
                bytes.as_slice(),
                file.as_slice(),
                "{length} bytes by {piece}"
            );
        }
        let file = spaces(&rt, rt.alloc(), 65_537);
        let mut world = world_of(&rt, rt.alloc(), "program", file.as_slice(), &[], piece);
        let outcome = read_whole(rt.alloc(), &mut world, "program", LIMIT);
        assert_eq!(rt; outcome.err(), Some(ReadFileError::TooLong), "by {piece}");
        let absent = read_whole(rt.alloc(), &mut world, "input", LIMIT);
        assert_eq!(rt; absent.err(), Some(ReadFileError::Failed));
    }
}

#[test]
fn fails_at_the_calls_that_are_listed(rt: HostRuntime) {
    // Ten bytes by four are one call to open, three that give bytes, and one that gives none.
    for call in 0..6 {
        let mut world = world_of(&rt, rt.alloc(), "input", b"1 2 3\n4 5\n", &[call], 4);
        let outcome = read_whole(rt.alloc(), &mut world, "input", LIMIT);
        if call < 5 {
            assert_eq!(rt; outcome.err(), Some(ReadFileError::Failed), "call {call}");
        } else {
            assert_eq!(rt;
                outcome.expect(&rt, "memory").as_slice(),
                b"1 2 3\n4 5\n".as_slice()
            );
        }
    }
}

#[test]
fn takes_half_of_the_bytes_before_a_failure(rt: HostRuntime) {
    let mut world = world_of(&rt, rt.alloc(), "input", b"1\n", &[2, 4, 6], 1);
    world.begin_file("report").expect(&rt, "memory");
    world.add(b"abc").expect(&rt, "memory");
    assert_eq!(rt; world.add(b"defgh"), Err(WorldError::Failed));
    assert_eq!(rt;
        world.file("report").expect(&rt, "no report"),
        b"abcde".as_slice()
    );

    world.print(b"xyz").expect(&rt, "memory");
    assert_eq!(rt; world.print(b"12345"), Err(WorldError::Failed));
    assert_eq!(rt; world.printed(), b"xyz12".as_slice());

    world.begin_file("report").expect(&rt, "memory");
    assert_eq!(rt;
        world.file("report").expect(&rt, "no report"),
        b"".as_slice()
    );
    assert_eq!(rt; world.begin_file("other"), Err(WorldError::Failed));
    assert!(rt; world.file("other").is_none());
    assert_eq!(rt;
        world.file("input").expect(&rt, "no input"),
        b"1\n".as_slice()
    );
}

#[test]
fn stops_where_a_file_never_ends(rt: HostRuntime) {
    let mut world = Endless::new(rt.alloc(), &[("program", "", " ")]);
    let outcome = read_whole(rt.alloc(), &mut world, "program", LIMIT);
    assert_eq!(rt; outcome.err(), Some(ReadFileError::TooLong));
    assert_eq!(rt; world.given, LIMIT + 1);
}

#[test]
fn reads_what_it_wrote_to_a_real_file(rt: HostRuntime) {
    let alloc = rt.alloc();
    let mut world = HostWorld::new(RuntimeFiles(&rt), io::writer(&rt));
    world.begin_file("written").expect(&rt, "memory");
    world.add(b"int main(void) ").expect(&rt, "memory");
    world.add(b"{ return 0; }\n").expect(&rt, "memory");
    let bytes = read_whole(alloc, &mut world, "written", 29).expect(&rt, "memory");
    world.print(bytes.as_slice()).expect(&rt, "memory");
    assert_eq!(rt;
        bytes.as_slice(),
        b"int main(void) { return 0; }\n".as_slice()
    );
    let too_long = read_whole(alloc, &mut world, "written", 28);
    assert_eq!(rt; too_long.err(), Some(ReadFileError::TooLong));
    let missing = read_whole(alloc, &mut world, "missing", 28);
    assert_eq!(rt; missing.err(), Some(ReadFileError::Failed));
}
