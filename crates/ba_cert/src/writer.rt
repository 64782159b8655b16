//! Writing the line of a step.

ghost use Rattle.std.specs.Prelude.{◌≡◌, ◌++◌, ◌^◌, ◌<◌, ◌∷◌, [], decimal, All, IfOk};
ghost use Rattle.ba_cert.specs.Text.{HasSmallGroups, IsHead, clause_parts, head_text, line_of, settings_line, with_feed};
ghost use Rattle.ba_cert.specs.Writers.{Adds};
ghost use Rattle.ba_text.specs.Texts.{spaced};

use crate::entry::push_list;
use crate::head::CertHead;
use ba_lits::Lit;
use ba_steps::CertStep;
use ba_text::{push_choices, push_number};
use std::alloc::{AllocError, Global};

/// Appends the letters of a kind of step, and then literals and hints, each part after a space.
fn push_clause(
    kind: &[u8],
    lits: &[Lit],
    hints: &[u64],
    text: &mut Vec<u8>,
) -> Result<(), AllocError>
    ensures { Adds result text.old text.new (kind.now ++ spaced (clause_parts lits.now hints.now)) }
{
    text.extend_from_slice(kind)?;
    push_list(lits, text)?;
    push_list(hints, text)
}

/// Appends the line of a step, without its line feed.
fn push_line(step: &CertStep, text: &mut Vec<u8>) -> Result<(), AllocError>
    ensures { Adds result text.old text.new (line_of step.now) }
{
    match step {
        CertStep::Learn { lits, hints } => {
            push_clause(b"l", lits.as_slice(), hints.as_slice(), text)
        }
        CertStep::Core { lits, hints } => {
            push_clause(b"c", lits.as_slice(), hints.as_slice(), text)
        }
        CertStep::Delete { clauses } => {
            text.extend_from_slice(b"d")?;
            push_list(clauses.as_slice(), text)
        }
        CertStep::Block { groups, run } => {
            text.extend_from_slice(b"s")?;
            push_list(groups.as_slice(), text)?;
            push_choices(run.as_slice(), text)
        }
        CertStep::EndLocated { lits, hints } => {
            push_clause(b"e l", lits.as_slice(), hints.as_slice(), text)
        }
        CertStep::EndNoRepair { hints } => {
            text.extend_from_slice(b"e n")?;
            push_list(hints.as_slice(), text)
        }
        CertStep::EndTooMany => text.extend_from_slice(b"e m"),
        CertStep::EndSpent => text.extend_from_slice(b"e b"),
    }
}

/// The line of a step, with its line feed.
///
/// The only error is out of memory.
pub fn step_text(alloc: Global, step: &CertStep) -> Result<Vec<u8>, AllocError>
    ensures { IfOk result (λ text. text.items ≡ with_feed (line_of step.now)) }
{
    let mut text = Vec::new(alloc);
    push_line(step, &mut text)?;
    text.extend_from_slice(b"\n")?;
    Ok(text)
}

/// Appends a number after a space.
fn push_spaced(number: u64, text: &mut Vec<u8>) -> Result<(), AllocError>
    ensures { Adds result text.old text.new (spaced (decimal number ∷ [])) }
{
    text.extend_from_slice(b" ")?;
    push_number(number, text)
}

/// Appends the settings line, without its line feed.
fn push_settings(head: &CertHead, text: &mut Vec<u8>) -> Result<(), AllocError>
    ensures { Adds result text.old text.new (settings_line head.now) }
{
    text.extend_from_slice(b"b")?;
    push_spaced(u64::from(head.bounds.turns), text)?;
    push_spaced(u64::from(head.bounds.frames), text)?;
    push_spaced(head.conflicts, text)?;
    push_spaced(u64::from(head.sets), text)
}

/// The first two lines of a certificate, each with its line feed: the version, and the settings.
///
/// The only error is out of memory.
pub fn head_text(alloc: Global, head: &CertHead) -> Result<Vec<u8>, AllocError>
    ensures { IfOk result (λ text. text.items ≡ head_text head.now) }
{
    let mut text = Vec::new(alloc);
    text.extend_from_slice(b"bugassist 2\n")?;
    push_settings(head, &mut text)?;
    text.extend_from_slice(b"\n")?;
    Ok(text)
}

/// States what the type of a number keeps.
fn has_32_bits(number: u32)
    ensures { number < 2 ^ 32 }
{}

/// States what the types of settings keep, besides the conflicts: these settings have a line.
pub(crate) fn is_head(head: &CertHead)
    ensures { head.now.conflicts < 2 ^ 62 → IsHead head.now }
{
    has_32_bits(head.bounds.turns);
    has_32_bits(head.bounds.frames);
    has_32_bits(head.sets);
}

/// States what the type of a step keeps: group numbers have 32 bits.
pub(crate) fn have_32_bits(groups: &[u32])
    ensures { All (λ n. n < 2 ^ 32) groups.now }
{}

/// The same for a step.
pub(crate) fn groups_have_32_bits(step: &CertStep)
    ensures { HasSmallGroups step.now }
{
    if let CertStep::Block { groups, .. } = step {
        have_32_bits(groups.as_slice());
    }
}
