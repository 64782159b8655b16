//! Reading the settings line of a certificate.

ghost use Rattle.std.specs.Prelude.{◌≡◌, option_map};
ghost use Rattle.ba_cert.specs.Readers.{IsReading};
ghost use Rattle.ba_cert.specs.Text.{IsHead, settings_line};
ghost use Rattle.ba_cert.specs.Reading.{head_at, next_by, number_of, settings_at, settings_in, small_of};

use crate::head::CertHead;
use crate::numerals::{number_of, small_of};
use crate::parts::{Parts, has_more};
use ba_tree::run::Bounds;

/// The next part, a number below 2^62.
fn next_number(parts: &mut Parts) -> Option<u64>
    ensures { option_map (λ n. (n, parts.new)) result ≡ next_by number_of parts.old }
{
    let part = parts.next_part()?;
    number_of(part)
}

/// The next part, a number of 32 bits.
fn next_small(parts: &mut Parts) -> Option<u32>
    ensures { option_map (λ n. (n, parts.new)) result ≡ next_by small_of parts.old }
{
    let part = parts.next_part()?;
    small_of(part)
}

/// The settings whose numbers are the remaining parts.
#[tactic(auto, unfolding(crate::specs::Reading::head_at))]
fn head_at(parts: &mut Parts) -> Option<CertHead>
    ensures { result ≡ head_at parts.old }
{
    let turns = next_small(parts)?;
    let frames = next_small(parts)?;
    let conflicts = next_number(parts)?;
    let sets = next_small(parts)?;
    if has_more(parts) {
        return None;
    }
    Some(CertHead {
        bounds: Bounds { turns, frames },
        conflicts,
        sets,
    })
}

/// The settings that the parts write.
fn settings_at(parts: &mut Parts) -> Option<CertHead>
    ensures { result ≡ settings_at parts.old }
{
    let part = parts.next_part()?;
    if part != b"b".as_slice() {
        return None;
    }
    head_at(parts)
}

/// The settings of this line, without its line feed. It takes no memory.
///
/// `None` comes exactly if no settings have this line.
pub fn read_settings(line: &[u8]) -> Option<CertHead>
    ensures exact { result ≡ settings_in line.now }

    // Settings that are read have this line, and settings that have this line are read.
    ensures reads { IsReading IsHead settings_line line.now result }
{
    let mut parts = Parts::new(line);
    settings_at(&mut parts)
}
