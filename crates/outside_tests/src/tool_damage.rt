//! The array example's certificate, as a search writes it, cut off and with bytes that were changed.

ghost use Rattle.std.specs.Prelude.{◌<◌};

use crate::check::line_behind;
use crate::support::calls::{counted_world, end, world_of};
use crate::support::programs::{BRANCHES, HEAD, OLD_HEAD};
use ba_answers::status::Status;
use ba_steps::NoSink;
use std::alloc::Global;
use std::panic::Expect;
use std::process::Abort;

const LOCALISING: &[&str] = &["localise", "p.c", "in.txt", "--bound=1", "--cert=c"];

const CHECKING: &[&str] = &["check", "p.c", "in.txt", "c", "--bound=1"];

const CHECKING_OTHER_SETS: &[&str] = &["check", "p.c", "in.txt", "c", "--bound=1", "--sets=9"];

const TOGETHER: &[&str] = &[
    "localise",
    "p.c",
    "all.txt",
    "--bound=1",
    "--cert=c",
    "--all",
];

const CHECKING_TOGETHER: &[&str] = &["check", "p.c", "all.txt", "c", "--bound=1", "--all"];

/// Whether an answer tells that the certificate is refused.
fn is_refusal(printed: &[u8], error: &str) -> bool {
    printed.starts_with(b"refused: certificate, error ")
        && printed
            .get(28..)
            .unwrap_or(&[])
            .starts_with(error.as_bytes())
}

/// The number at the end of a text.
fn last_number(printed: &[u8]) -> u64 {
    let mut number: u64 = 0;
    for byte in printed {
        if *byte == b' ' {
            number = 0;
        } else if byte.is_ascii_digit() {
            number = number
                .saturating_mul(10)
                .saturating_add(u64::from(byte.saturating_sub(b'0')));
        }
    }
    number
}

/// Asserts that a text is refused as one that ends too early, after its whole lines.
fn assert_too_early(rt: &impl Abort, alloc: Global, front: &[u8]) {
    let mut world = counted_world(rt, alloc, front, &[]);
    let status = end(alloc, CHECKING, &mut world, &mut NoSink);
    let printed = world.inside.printed();
    assert!(rt;
        status == Status::BadCertificate
            && is_refusal(printed, "21 at line ")
            && last_number(printed) == line_behind(front),
        "cut off behind {} bytes: {status:?}",
        front.len()
    );
}

/// Asserts that a text that was changed at this place is accepted, or refused no later than in the line of
/// this place.
fn assert_judged(rt: &impl Abort, alloc: Global, text: &[u8], place: usize) {
    let line = line_behind(text.get(..place).unwrap_or(text));
    let mut world = counted_world(rt, alloc, text, &[]);
    let status = end(alloc, CHECKING, &mut world, &mut NoSink);
    let printed = world.inside.printed();
    assert!(rt;
        match status {
            Status::Ok => printed == b"accepted: located\n".as_slice(),
            Status::BadCertificate => is_refusal(printed, "") && last_number(printed) <= line,
            _ => false,
        },
        "changed at {place}: {status:?}"
    );
}

/// The array example's certificate.
fn certificate(rt: &impl Abort, alloc: Global) -> Vec<u8> {
    let mut world = counted_world(rt, alloc, b"", &[]);
    assert_eq!(rt; end(alloc, LOCALISING, &mut world, &mut NoSink), Status::Ok);
    let written = world.inside.file("c").expect(rt, "no certificate");
    Vec::from_slice(alloc, written).expect(rt, "memory")
}

/// Cuts a text off before each of its bytes.
fn cut_off(rt: &impl Abort, alloc: Global, text: &[u8]) {
    for place in 0..text.len() {
        assert_too_early(rt, alloc, &text[..place]);
    }
}

/// Puts a `9` in the place of each byte that is another.
fn change(rt: &impl Abort, alloc: Global, text: &mut [u8]) {
    for place in 0..text.len() {
        let byte = text[place];
        if byte != b'9' {
            text[place] = b'9';
            assert_judged(rt, alloc, text, place);
            text[place] = byte;
        }
    }
}

/// The line of a listed set without the last choice of its runs.
fn before_the_last_choice(line: &[u8]) -> &[u8] {
    let mut front = line;
    let mut place: usize = 0;
    for byte in line {
        if *byte == b't' || *byte == b'k' {
            front = line.get(..place.saturating_sub(1)).unwrap_or(line);
        }
        place = place.saturating_add(1);
    }
    front
}

/// A certificate whose first listed set lacks the last choice of its runs.
fn without_a_choice(rt: &impl Abort, alloc: Global, text: &[u8]) -> Vec<u8> {
    let mut shorter = Vec::new(alloc);
    let mut is_cut = false;
    for line in text.split(|byte| *byte == b'\n') {
        let mut kept = line;
        if !is_cut && line.starts_with(b"s ") {
            kept = before_the_last_choice(line);
            is_cut = true;
        }
        shorter.extend_from_slice(kept).expect(rt, "memory");
        shorter.extend_from_slice(b"\n").expect(rt, "memory");
    }
    assert!(rt; is_cut);
    shorter
}

#[test]
fn a_listed_set_needs_the_runs_on_all_inputs(rt: HostRuntime) {
    let alloc = rt.alloc();
    let mut world = counted_world(&rt, alloc, b"", &[]);
    assert_eq!(rt; end(alloc, TOGETHER, &mut world, &mut NoSink), Status::Ok);
    let written = world.inside.file("c").expect(&rt, "no certificate");
    let text = without_a_choice(&rt, alloc, written);
    let mut world = counted_world(&rt, alloc, text.as_slice(), &[]);
    let status = end(alloc, CHECKING_TOGETHER, &mut world, &mut NoSink);
    assert_eq!(rt; status, Status::BadCertificate);
    assert!(rt; is_refusal(world.inside.printed(), "6 at line "));
}

#[test]
fn a_written_certificate_that_is_cut_off_is_refused(rt: HostRuntime) {
    let text = certificate(&rt, rt.alloc());
    assert!(rt; text.len() > 100);
    cut_off(&rt, rt.alloc(), text.as_slice());
}

#[test]
fn a_written_certificate_that_is_changed_is_refused_in_that_line_or_right(rt: HostRuntime) {
    let mut text = certificate(&rt, rt.alloc());
    change(&rt, rt.alloc(), text.as_mut_slice());
}

#[test]
fn the_steps_of_a_written_certificate_are_accepted_behind_the_head_of_version_1(rt: HostRuntime) {
    let written = certificate(&rt, rt.alloc());
    assert!(rt; written.as_slice().starts_with(HEAD.as_bytes()));
    let mut text = Vec::from_slice(rt.alloc(), OLD_HEAD.as_bytes()).expect(&rt, "memory");
    text.extend_from_slice(written.get(HEAD.len()..).unwrap_or(&[]))
        .expect(&rt, "memory");
    let mut world = counted_world(&rt, rt.alloc(), text.as_slice(), &[]);
    assert_eq!(rt;
        end(rt.alloc(), CHECKING, &mut world, &mut NoSink),
        Status::Ok
    );
    assert!(rt; world.inside.printed() == b"accepted: located\n".as_slice());
}

/// Writes a certificate, and checks it in pieces of this size, by its own settings and by others.
fn check_in_pieces(rt: &impl Abort, alloc: Global, piece: usize)
    requires { 0 < piece }
{
    let mut world = world_of(rt, alloc, BRANCHES, "1", &[], piece);
    assert_eq!(rt; end(alloc, LOCALISING, &mut world, &mut NoSink), Status::Ok);
    assert_eq!(rt; end(alloc, CHECKING, &mut world, &mut NoSink), Status::Ok);
    assert!(rt; world.printed().ends_with(b"accepted: located\n"));
    assert_eq!(rt;
        end(alloc, CHECKING_OTHER_SETS, &mut world, &mut NoSink),
        Status::BadCertificate
    );
    assert!(rt;
        world
            .printed()
            .ends_with(b"refused: certificate, error 22 at line 2\n")
    );
}

#[test]
fn a_certificate_is_read_in_small_pieces(rt: HostRuntime) {
    check_in_pieces(&rt, rt.alloc(), 1);
    check_in_pieces(&rt, rt.alloc(), 7);
}
