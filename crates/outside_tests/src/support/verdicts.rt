//! Verdicts that name sets.

ghost use Rattle.ba_report.specs.Report.{IsLocated};

use ba_derivations::{FoundSet, Verdict};
use ba_items::Items;
use std::alloc::Global;
use std::panic::Expect;
use std::process::Abort;
use test_programs::choices_of;

/// A set's statements, and the choices of its run.
pub(crate) type Found = (&'static [u32], &'static str);

/// A verdict that names these sets.
pub(crate) fn located(rt: &impl Abort, alloc: Global, weight: u64, found: &[Found]) -> Verdict
    ensures { IsLocated result }
{
    let mut sets = Items::new(alloc);
    for (groups, run) in found {
        sets.push(FoundSet {
            groups: Items::from_slice(alloc, groups).expect(rt, "memory"),
            run: Items::from_vec(choices_of(alloc, run).expect(rt, "choices")),
        })
        .expect(rt, "memory");
    }
    Verdict::Located { weight, sets }
}
