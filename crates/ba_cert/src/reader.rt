//! Reading the line of a step.

ghost use Rattle.std.specs.Prelude.{None, Some, cond};
ghost use Rattle.ba_cert.specs.Text.{HasLine, line_of};
ghost use Rattle.ba_cert.specs.Reading.{alone, block_at, clause_at, core_at, delete_at, end_at, end_by, learn_at, located_at, no_repair_at, step_at, step_by, step_in};
ghost use Rattle.ba_cert.specs.Readers.{IsReading, Parses};

use crate::choices::run_at;
use crate::entry::{ascends, list_at};
use crate::error::CertError;
use crate::parts::{Parts, has_more, letter_at};
use ba_items::Items;
use ba_lits::Lit;
use ba_steps::CertStep;
use std::alloc::Global;

/// The step that was read, if it is good.
fn if_good(good: bool, step: CertStep) -> Result<CertStep, CertError>
    ensures { Parses (λ step. step) result (cond good (Some step) None) }
{
    if good {
        Ok(step)
    } else {
        Err(CertError::BadLine)
    }
}

/// Reads literals with ascending variables, and hints, and no more.
#[tactic(auto, unfolding(crate::specs::Reading::clause_at))]
fn clause_at(alloc: Global, parts: &mut Parts) -> Result<(Items<Lit>, Items<u64>), CertError>
    ensures { Parses (λ clause. clause) result (clause_at parts.old) }
{
    let lits = list_at::<Lit>(alloc, parts)?;
    let hints = list_at::<u64>(alloc, parts)?;
    if has_more(parts) | !ascends(lits.as_slice()) {
        return Err(CertError::BadLine);
    }
    Ok((lits, hints))
}

/// The rest of a Learn step.
#[tactic(auto, unfolding(crate::specs::Reading::learn_at))]
fn learn_at(alloc: Global, parts: &mut Parts) -> Result<CertStep, CertError>
    ensures { Parses (λ step. step) result (learn_at parts.old) }
{
    let (lits, hints) = clause_at(alloc, parts)?;
    if_good(!lits.is_empty(), CertStep::Learn { lits, hints })
}

/// The rest of a Core step.
#[tactic(auto, unfolding(crate::specs::Reading::core_at))]
fn core_at(alloc: Global, parts: &mut Parts) -> Result<CertStep, CertError>
    ensures { Parses (λ step. step) result (core_at parts.old) }
{
    let (lits, hints) = clause_at(alloc, parts)?;
    if_good(!lits.is_empty(), CertStep::Core { lits, hints })
}

/// The rest of a Delete step.
#[tactic(auto, unfolding(crate::specs::Reading::delete_at))]
fn delete_at(alloc: Global, parts: &mut Parts) -> Result<CertStep, CertError>
    ensures { Parses (λ step. step) result (delete_at parts.old) }
{
    let clauses = list_at::<u64>(alloc, parts)?;
    let good = !has_more(parts) & !clauses.is_empty() & ascends(clauses.as_slice());
    if_good(good, CertStep::Delete { clauses })
}

/// The rest of a Block step.
#[tactic(auto, unfolding(crate::specs::Reading::block_at))]
fn block_at(alloc: Global, parts: &mut Parts) -> Result<CertStep, CertError>
    ensures { Parses (λ step. step) result (block_at parts.old) }
{
    let groups = list_at::<u32>(alloc, parts)?;
    let run = run_at(alloc, parts)?;
    let good = !groups.is_empty() & ascends(groups.as_slice());
    if_good(good, CertStep::Block { groups, run })
}

/// The rest of an EndLocated step.
#[tactic(auto, unfolding(crate::specs::Reading::located_at))]
fn located_at(alloc: Global, parts: &mut Parts) -> Result<CertStep, CertError>
    ensures { Parses (λ step. step) result (located_at parts.old) }
{
    let (lits, hints) = clause_at(alloc, parts)?;
    Ok(CertStep::EndLocated { lits, hints })
}

/// The rest of an EndNoRepair step.
#[tactic(auto, unfolding(crate::specs::Reading::no_repair_at))]
fn no_repair_at(alloc: Global, parts: &mut Parts) -> Result<CertStep, CertError>
    ensures { Parses (λ step. step) result (no_repair_at parts.old) }
{
    let hints = list_at::<u64>(alloc, parts)?;
    if_good(!has_more(parts), CertStep::EndNoRepair { hints })
}

/// A step that ends with its letters.
#[tactic(auto, unfolding(crate::specs::Reading::alone))]
fn alone(step: CertStep, parts: &mut Parts) -> Result<CertStep, CertError>
    ensures { Parses (λ step. step) result (alone step parts.old) }
{
    if_good(!has_more(parts), step)
}

/// The rest of a step that ends a derivation, after its second letter.
#[tactic(auto, unfolding(crate::specs::Reading::end_by))]
fn end_by(alloc: Global, letter: u8, parts: &mut Parts) -> Result<CertStep, CertError>
    ensures { Parses (λ step. step) result (end_by letter parts.old) }
{
    match letter {
        b'l' => located_at(alloc, parts),
        b'n' => no_repair_at(alloc, parts),
        b'm' => alone(CertStep::EndTooMany, parts),
        b'b' => alone(CertStep::EndSpent, parts),
        _ => Err(CertError::BadLine),
    }
}

/// The rest of a step that ends a derivation.
#[tactic(auto, unfolding(crate::specs::Reading::end_at))]
fn end_at(alloc: Global, parts: &mut Parts) -> Result<CertStep, CertError>
    ensures { Parses (λ step. step) result (end_at parts.old) }
{
    let letter = letter_at(parts)?;
    end_by(alloc, letter, parts)
}

/// The rest of a step, after its letter.
#[tactic(auto, unfolding(crate::specs::Reading::step_by))]
fn step_by(alloc: Global, letter: u8, parts: &mut Parts) -> Result<CertStep, CertError>
    ensures { Parses (λ step. step) result (step_by letter parts.old) }
{
    match letter {
        b'l' => learn_at(alloc, parts),
        b'c' => core_at(alloc, parts),
        b'd' => delete_at(alloc, parts),
        b's' => block_at(alloc, parts),
        b'e' => end_at(alloc, parts),
        _ => Err(CertError::BadLine),
    }
}

/// The step that the parts write.
#[tactic(auto, unfolding(crate::specs::Reading::step_at))]
fn step_at(alloc: Global, parts: &mut Parts) -> Result<CertStep, CertError>
    ensures { Parses (λ step. step) result (step_at parts.old) }
{
    let letter = letter_at(parts)?;
    step_by(alloc, letter, parts)
}

/// The step of this line, without its line feed. It is formed.
///
/// `BadLine` comes exactly if no step has this line. The other error is out of memory.
pub fn read_line(alloc: Global, line: &[u8]) -> Result<CertStep, CertError>
    ensures exact { Parses (λ step. step) result (step_in line.now) }

    // A step that is read has this line, and a step that has this line is read.
    ensures reads { IsReading HasLine line_of line.now (step_in line.now) }
{
    let mut parts = Parts::new(line);
    step_at(alloc, &mut parts)
}
