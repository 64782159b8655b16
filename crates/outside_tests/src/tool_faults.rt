//! Calls of a world and of a sink that fail, and files that are too long or have no end.

use crate::check::line_behind;
use crate::support::calls::{counted_world, end, localise, world_of};
use crate::support::counted::{Counted, FailingSink, Refusal};
use crate::support::endless::{Endless, EndlessFile};
use crate::support::programs::{BRANCHES, BRANCHES_REPORT, HEAD, OLD_HEAD, ONE_ASSIGNMENT};
use ba_answers::status::Status;
use ba_steps::NoSink;
use ba_world::MemoryWorld;
use std::alloc::Global;
use std::panic::Expect;
use std::process::Abort;

const PLAIN: &[&str] = &["localise", "p.c", "in.txt", "--bound=1"];

const CERTIFIED: &[&str] = &["localise", "p.c", "in.txt", "--bound=1", "--cert=c"];

const WEIGHED: &[&str] = &["localise", "p.c", "in.txt", "--bound=1", "--weights=w.txt"];

const PLACED: &[&str] = &["localise", "p.c", "in.txt", "--bound=1", "--places"];

const REPAIRING: &[&str] = &[
    "repair",
    "p.c",
    "failing.txt",
    "passing.txt",
    "--bound=1",
    "--weights=w.txt",
];

const TOGETHER: &[&str] = &[
    "localise",
    "p.c",
    "all.txt",
    "--bound=1",
    "--cert=c",
    "--all",
];

const CHECKING: &[&str] = &["check", "p.c", "in.txt", "c", "--bound=1"];

const CHECKING_TOGETHER: &[&str] = &["check", "p.c", "all.txt", "c", "--bound=1", "--all"];

const RUNNING: &[&str] = &["run", "p.c", "in.txt", "--bound=1"];

/// What is in the file of the certificate before it is begun.
const OLD: &[u8] = b"old";

/// Asserts that a file could not be read, and that the call ended there. Only its refusal was printed, or
/// half of it if the next call fails too. The certificate is as it was.
fn assert_unread(
    rt: &impl Abort,
    world: &Counted<MemoryWorld>,
    status: Status,
    fails: &[u64],
    refusal: &str,
    held: &[u8],
) {
    let text = refusal.as_bytes();
    let (due, printed) = match fails {
        [_] => (Status::ReadFault, text),
        _ => (Status::WriteFault, &text[..text.len() / 2]),
    };
    let calls = fails.first().map(|number| number.saturating_add(2));
    assert!(rt;
        status == due
            && world.inside.printed() == printed
            && world.inside.file("c") == Some(held)
            && calls == Some(world.calls.len() as u64),
        "where {fails:?} fail: {status:?}"
    );
}

/// Asserts that a write failed, and that the call ended there. What was printed is a prefix of what is
/// printed without a fault. So is the certificate, or it is as it was.
fn assert_cut_off(
    rt: &impl Abort,
    world: &Counted<MemoryWorld>,
    status: Status,
    fails: &[u64],
    whole: &Counted<MemoryWorld>,
    held: &[u8],
) {
    let calls = fails.first().map(|number| number.saturating_add(1));
    let certificate = world.inside.file("c").unwrap_or(&[]);
    let whole_certificate = whole.inside.file("c").unwrap_or(&[]);
    assert!(rt;
        status == Status::WriteFault
            && whole.inside.printed().starts_with(world.inside.printed())
            && (certificate == held || whole_certificate.starts_with(certificate))
            && calls == Some(world.calls.len() as u64),
        "where {fails:?} fail: {status:?}"
    );
}

/// Asserts how a call ends in which these calls of the world fail, the first of which prints this if it is a
/// read.
fn assert_failing(
    rt: &impl Abort,
    alloc: Global,
    words: &[&str],
    fails: &[u64],
    refusal: Refusal,
    whole: &Counted<MemoryWorld>,
    held: &[u8],
) {
    let mut world = counted_world(rt, alloc, held, fails);
    let status = end(alloc, words, &mut world, &mut NoSink);
    match refusal {
        Some(refusal) => assert_unread(rt, &world, status, fails, refusal, held),
        None => assert_cut_off(rt, &world, status, fails, whole, held),
    }
}

/// Asserts how a call ends in which each call of the world fails in turn, and the next one too if it is a
/// read.
fn assert_each_failing(
    rt: &impl Abort,
    alloc: Global,
    words: &[&str],
    whole: &Counted<MemoryWorld>,
    held: &[u8],
) {
    let mut number: u64 = 0;
    for refusal in whole.calls.as_slice() {
        let next = number.saturating_add(1);
        assert_failing(rt, alloc, words, &[number], *refusal, whole, held);
        if refusal.is_some() {
            assert_failing(rt, alloc, words, &[number, next], *refusal, whole, held);
        }
        number = next;
    }
}

/// Makes these calls over a certificate, and then each with faults.
fn sweep(rt: &impl Abort, alloc: Global, calls: &[&[&str]], held: &[u8]) {
    for words in calls {
        let mut whole = counted_world(rt, alloc, held, &[]);
        assert_eq!(rt; end(alloc, words, &mut whole, &mut NoSink), Status::Ok);
        assert_each_failing(rt, alloc, words, &whole, held);
    }
}

#[test]
fn each_call_of_the_world_may_fail(rt: HostRuntime) {
    let alloc = rt.alloc();
    sweep(
        &rt,
        alloc,
        &[CERTIFIED, WEIGHED, PLACED, TOGETHER, REPAIRING],
        OLD,
    );
    let mut world = counted_world(&rt, alloc, OLD, &[]);
    end(alloc, CERTIFIED, &mut world, &mut NoSink);
    assert_eq!(rt; world.inside.printed(), BRANCHES_REPORT.as_bytes());
    sweep(
        &rt,
        alloc,
        &[CHECKING, RUNNING],
        world.inside.file("c").expect(&rt, "no certificate"),
    );
}

#[test]
fn each_call_of_the_world_may_fail_in_a_check_of_several_runs(rt: HostRuntime) {
    let alloc = rt.alloc();
    let mut world = counted_world(&rt, alloc, OLD, &[]);
    assert_eq!(rt; end(alloc, TOGETHER, &mut world, &mut NoSink), Status::Ok);
    let certificate = world.inside.file("c").expect(&rt, "no certificate");
    sweep(&rt, alloc, &[CHECKING_TOGETHER], certificate);
}

/// A certificate up to its head and so many steps.
fn front_of(certificate: &[u8], steps: u64) -> &[u8] {
    let mut left = steps;
    let mut place = HEAD.len().min(certificate.len());
    for byte in &certificate[place..] {
        if left == 0 {
            break;
        }
        if *byte == b'\n' {
            left -= 1;
        }
        place = place.saturating_add(1);
    }
    certificate.get(..place).unwrap_or(certificate)
}

/// Asserts how a call ends whose sink fails in its call of this number. Nothing is printed. It also asserts
/// what is in the file of the certificate.
fn assert_sink_fault(rt: &impl Abort, alloc: Global, words: &[&str], number: u64, held: &[u8]) {
    let mut world = counted_world(rt, alloc, OLD, &[]);
    let mut sink = FailingSink::new(number);
    let status = end(alloc, words, &mut world, &mut sink);
    assert!(rt;
        status == Status::WriteFault
            && world.inside.printed().is_empty()
            && world.inside.file("c") == Some(held)
            && sink.calls == number.saturating_add(1),
        "where call {number} of the sink fails: {status:?}"
    );
}

/// Asserts so for each call of the sink that the array example makes.
fn assert_sink_faults(rt: &impl Abort, alloc: Global, whole: &Counted<MemoryWorld>, calls: u64) {
    let certificate = whole.inside.file("c").expect(rt, "no certificate");
    for number in 0..calls {
        let front = front_of(certificate, number);
        assert_sink_fault(rt, alloc, CERTIFIED, number, front);
        assert_sink_fault(rt, alloc, PLAIN, number, OLD);
    }
}

#[test]
fn each_call_of_the_sink_may_fail(rt: HostRuntime) {
    let alloc = rt.alloc();
    let mut world = counted_world(&rt, alloc, OLD, &[]);
    let mut sink = FailingSink::new(u64::MAX);
    end(alloc, CERTIFIED, &mut world, &mut sink);
    assert!(rt; sink.calls > 2);
    assert_sink_faults(&rt, alloc, &world, sink.calls);
}

/// Asserts so for each call of the sink that a call without a certificate makes.
fn assert_plain_sink_faults(rt: &impl Abort, alloc: Global, words: &[&str]) {
    let mut world = counted_world(rt, alloc, OLD, &[]);
    let mut sink = FailingSink::new(u64::MAX);
    assert_eq!(rt; end(alloc, words, &mut world, &mut sink), Status::Ok);
    assert!(rt; sink.calls > 2);
    for number in 0..sink.calls {
        assert_sink_fault(rt, alloc, words, number, OLD);
    }
}

#[test]
fn each_call_of_the_sink_may_fail_over_places(rt: HostRuntime) {
    assert_plain_sink_faults(&rt, rt.alloc(), PLACED);
}

#[test]
fn each_call_of_the_sink_may_fail_in_a_repair(rt: HostRuntime) {
    assert_plain_sink_faults(&rt, rt.alloc(), REPAIRING);
}

#[test]
fn each_call_of_the_sink_may_fail_over_several_inputs(rt: HostRuntime) {
    let alloc = rt.alloc();
    let mut world = counted_world(&rt, alloc, OLD, &[]);
    let mut sink = FailingSink::new(u64::MAX);
    assert_eq!(rt; end(alloc, TOGETHER, &mut world, &mut sink), Status::Ok);
    assert!(rt; sink.calls > 2);
    let certificate = world.inside.file("c").expect(&rt, "no certificate");
    for number in 0..sink.calls {
        assert_sink_fault(&rt, alloc, TOGETHER, number, front_of(certificate, number));
    }
}

/// Asserts how a call over a program and an input ends, and what it prints.
fn assert_read(
    rt: &impl Abort,
    alloc: Global,
    program: &str,
    input: &str,
    status: Status,
    printed: &str,
) {
    let mut world = world_of(rt, alloc, program, input, &[], 4096);
    let ended = localise(alloc, &mut world);
    assert_eq!(rt; ended, status);
    assert_eq!(rt; world.printed(), printed.as_bytes());
}

const TOO_LONG_PROGRAM: &str = "refused: program is longer than 65536 bytes\n";

const TOO_LONG_INPUT: &str = "refused: input is longer than 65536 bytes\n";

const TOO_LONG_WEIGHTS: &str = "refused: weights is longer than 65536 bytes\n";

const NO_MAIN: &str = "refused: program, error 3.5 at end\n";

const WRONG_COUNT: &str = "refused: input, error 3\n";

#[test]
fn names_the_file_that_is_too_long(rt: HostRuntime) {
    let alloc = rt.alloc();
    let long = String::from_utf8(vec![in alloc; b' '; 65_537].expect(&rt, "memory")).expect(
        &rt,
        "blanks are text",
    );
    let long = long.as_str();
    let most = long.get(..65_536).expect(&rt, "it is longer");
    assert_read(&rt, alloc, long, "1", Status::TooLong, TOO_LONG_PROGRAM);
    assert_read(
        &rt,
        alloc,
        ONE_ASSIGNMENT,
        long,
        Status::TooLong,
        TOO_LONG_INPUT,
    );
    // One that is too long is named before what comes after it is looked at.
    assert_read(&rt, alloc, long, long, Status::TooLong, TOO_LONG_PROGRAM);
    assert_read(&rt, alloc, most, "1", Status::BadProgram, NO_MAIN);
    assert_read(
        &rt,
        alloc,
        ONE_ASSIGNMENT,
        most,
        Status::BadInput,
        WRONG_COUNT,
    );
}

/// The files, the words of the call, the file that has no end as refusals name it, and how the call ends.
type EndlessRow = (
    &'static [EndlessFile],
    &'static [&'static str],
    &'static str,
);

static WITHOUT_END: [EndlessRow; 3] = [
    (&[("p.c", "", " ")], PLAIN, TOO_LONG_PROGRAM),
    (
        &[("p.c", BRANCHES, ""), ("in.txt", "", "\n")],
        PLAIN,
        TOO_LONG_INPUT,
    ),
    (
        &[
            ("p.c", BRANCHES, ""),
            ("in.txt", "1", ""),
            ("w.txt", "7 3\n", "#"),
        ],
        WEIGHED,
        TOO_LONG_WEIGHTS,
    ),
];

#[test]
fn a_file_without_an_end_is_too_long(rt: HostRuntime) {
    for row in &WITHOUT_END {
        let (files, words, printed) = *row;
        let mut world = Endless::new(rt.alloc(), files);
        let status = end(rt.alloc(), words, &mut world, &mut NoSink);
        assert!(rt;
            status == Status::TooLong
                && world.printed.as_slice() == printed.as_bytes()
                && world.given_of_last == 65_537,
            "{printed} {status:?}"
        );
    }
}

static CERTIFICATE_WITHOUT_END: [EndlessFile; 3] = [
    ("p.c", BRANCHES, ""),
    ("in.txt", "1", ""),
    ("c", HEAD, "e b\n"),
];

static OLD_CERTIFICATE_WITHOUT_END: [EndlessFile; 3] = [
    ("p.c", BRANCHES, ""),
    ("in.txt", "1", ""),
    ("c", OLD_HEAD, "e b\n"),
];

/// Asserts that a certificate that never ends is read to its first refused line, the one after its head.
fn assert_read_so_far(
    rt: &impl Abort,
    alloc: Global,
    files: &'static [EndlessFile],
    head: &'static str,
) {
    let mut world = Endless::new(alloc, files);
    let status = end(alloc, CHECKING, &mut world, &mut NoSink);
    let line = line_behind(head.as_bytes());
    let refusal = format!(in alloc; "refused: certificate, error 13 at line {line}\n").expect(
        rt, "memory",
    );
    assert!(rt;
        status == Status::BadCertificate
            && world.printed.as_slice() == refusal.as_bytes()
            && world.given_of_last == head.len() as u64 + 4,
        "behind {head}: {status:?}"
    );
}

#[test]
fn a_certificate_without_an_end_is_read_to_its_first_refused_line(rt: HostRuntime) {
    assert_read_so_far(&rt, rt.alloc(), &CERTIFICATE_WITHOUT_END, HEAD);
    assert_read_so_far(&rt, rt.alloc(), &OLD_CERTIFICATE_WITHOUT_END, OLD_HEAD);
}
