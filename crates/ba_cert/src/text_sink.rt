//! A certificate written as its steps are made.

ghost use base.Fml.{GName};
ghost use Rattle.std.specs.Prelude.{◌≡◌, ◌<◌, ◌≤◌, ◌^◌, ◌&&◌, bytes_eq, is_ok, ℕ, List, true, false, [], OnOk, OnErr};
ghost use Rattle.ba_world.specs.World.{Outside};
ghost use Rattle.ba_cert.specs.declared.head.CertHead.{CertHead};
ghost use Rattle.ba_steps.specs.Steps.{IsFormed};
ghost use Rattle.ba_steps.specs.Sinks.{RefusesInTurn, Takes};
ghost use Rattle.ba_cert.specs.Text.{text_of};
ghost use Rattle.ba_cert.specs.Writing.{HasNoStep, HoldsBeginning, HoldsLog, OnlyWritesTo, Writes, is_sound, no_head, nothing_told, sink_error, told_at};

use crate::head::CertHead;
use crate::writer::{groups_have_32_bits, head_text, is_head, step_text};
use ba_lits::{Formula, Lit};
use ba_steps::{CertStep, SinkError, StepSink};
use ba_world::{World, WorldError};
use std::alloc::Global;
use std::marker::{Brand, PhantomData};

/// The error of a sink for one of the world.
fn sink_error(error: WorldError) -> SinkError
    ensures { result ≡ sink_error error }
{
    match error {
        WorldError::Failed => SinkError::Failed,
        WorldError::Memory => SinkError::Memory,
    }
}

/// Begins the file of this name, and writes the first two lines of a certificate of these settings. It
/// replaces a file of that name.
///
/// `Failed` comes only if the world's faults of writing rose in this call; the other error is out of memory.
/// A file that was begun then holds a prefix of these lines.
pub fn begin_text<W: World>(
    alloc: Global,
    world: &mut W,
    name: &str,
    head: &CertHead,
) -> Result<(), SinkError>
    requires countable { head.now.conflicts < 2 ^ 62 }
    ensures sound { OnOk result (is_sound head.now true name.now (W.outside world.new) ≡ true) }
    ensures no_step { OnOk result (HasNoStep head.now name.now (W.outside world.new)) }
    ensures writes { Writes name.now (text_of head.now []) result
        (W.outside world.old) (W.outside world.new) }
{
    // So these settings have a line.
    is_head(head);
    if let Err(error) = world.begin_file(name) {
        return Err(sink_error(error));
    }
    let lines = head_text(alloc, head)?;
    if let Err(error) = world.add(lines.as_slice()) {
        return Err(sink_error(error));
    }
    Ok(())
}

/// Adds the line of a step to the file of this name, which ends with a whole line.
fn add_line<W: World>(
    alloc: Global,
    world: &mut W,
    name: &str,
    head: &CertHead,
    step: &CertStep,
) -> Result<(), SinkError>
    requires formed { IsFormed step.now }
    requires sound { is_sound head.now true name.now (W.outside world.old) ≡ true }
    ensures sound { is_sound head.now (is_ok result) name.now (W.outside world.new) ≡ true }
    ensures takes { (reference : GName) → Takes step.now result
        (told_at head.now name.now (W.outside world.old) reference)
        (told_at head.now name.now (W.outside world.new) reference) }
    ensures begins { HoldsBeginning head.now name.now (W.outside world.new) }
    ensures stays { OnlyWritesTo name.now (W.outside world.old) (W.outside world.new) }
{
    is_head(head);
    groups_have_32_bits(step);
    let line = step_text(alloc, step)?;
    if let Err(error) = world.add(line.as_slice()) {
        return Err(sink_error(error));
    }
    Ok(())
}

/// What held before a file was begun: its name, its settings, the outside, and the faults of the sink that
/// steps are handed on to. A proof picks them at a call with [`Brand`].
pub trait Start {
    // The name.
    ghost name: { List ℕ };

    // The settings.
    ghost head: { CertHead };

    // The outside before.
    ghost outside: { Outside };

    // The faults of the sink before.
    ghost faults: { ℕ };
}

impl Start for Brand {
    ghost name = { [] };

    ghost head = { no_head };

    ghost outside = { nothing_told };

    ghost faults = { 0 };
}

/// A sink that writes each step as a line of a certificate, into a file of a world.
///
/// Its log has the steps of the whole lines after the settings, as the world keeps them under the file's
/// name, if told. Its faults are the world's faults of writing, and it tells no formulas. After a refusal the
/// file may end inside a line, so every further step is refused with `Memory`, and the world isn't called.
///
/// Since the start `S` only the file of this name was written. It holds the first bytes of a certificate of
/// the settings of `S`, which are the sink's.
#[derive(Drop)]
pub struct TextSink<'a, W: World, S: Start> {
    alloc: Global,
    world: &'a mut W,
    name: &'a str,
    head: CertHead,
    /// No step was refused.
    whole: bool,
    start: PhantomData<S>,
    ghost sound: { is_sound head whole name.now (W.outside world.now) ≡ true },
    ghost named: { name.now ≡ S.name },
    ghost headed: { head ≡ S.head },
    ghost stays: { OnlyWritesTo name.now S.outside (W.outside world.now) },
    ghost begins: { HoldsBeginning head name.now (W.outside world.now) },
}

impl<'a, W: World, S: Start> TextSink<'a, W, S> {
    /// A sink over a file that [`begin_text`] has begun, in a world that has not changed since. It takes no
    /// memory.
    pub fn new(alloc: Global, world: &'a mut W, name: &'a str, head: CertHead) -> TextSink<'a, W, S>
        requires sound { is_sound head true name.now (W.outside world.old) ≡ true }
        requires named { name.now ≡ S.name }
        requires headed { head ≡ S.head }
        requires stays { OnlyWritesTo name.now S.outside (W.outside world.old) }
        ensures whole { result.whole ≡ true }
        ensures same_reference { result.world.ghost_name ≡ world.entry.ghost_name }
        ensures same_world { result.world.now ≡ world.old }
        ensures named { result.name.now ≡ name.now }
        ensures head { result.head ≡ head }
    {
        is_head(&head);
        TextSink {
            alloc,
            world,
            name,
            head,
            whole: true,
            start: PhantomData,
        }
    }

    /// Whether the file has this name and no step was refused. If so it holds the certificate of the steps in
    /// the log, and nothing more.
    pub fn is_whole(&self, name: &str) -> bool
        ensures exactly { result ≡ self.now.whole && bytes_eq self.now.name.now name.now }
        ensures named { result ≡ true → name.now ≡ self.now.name.now }
        ensures whole { result ≡ true
            → HoldsLog self.now.head name.now (W.outside self.now.world.now) }
    {
        is_head(&self.head);
        self.whole && self.name == name
    }
}

impl<'a, W: World, S: Start> StepSink for TextSink<'a, W, S> {
    ghost use Rattle.ba_cert.specs.Sinks.{text_told};

    ghost told = { text_told W.outside };

    fn begin(&mut self, _formula: &Formula, _softs: &[(Lit, u32)]) -> Result<(), SinkError>
        ensures never { result ≡ Ok tt }
        ensures same { self.new ≡ self.old }
    {
        Ok(())
    }

    /// Writes the line of a step. After a refused step the file is not whole; each further step is refused
    /// and nothing is written.
    #[tactic(auto, using(crate::proofs::SinkLaws::stays_then))]
    fn take(&mut self, step: &CertStep) -> Result<(), SinkError>
        requires formed { IsFormed step.now }
        ensures whole { self.new.whole ≡ is_ok result }
        ensures again { self.old.whole ≡ false → result ≡ Err SinkError.Memory }
        ensures unchanged { self.old.whole ≡ false → self.new ≡ self.old }
        ensures takes { Takes step.now result
            (text_told W.outside self.old) (text_told W.outside self.new) }
    {
        if !self.whole {
            return Err(SinkError::Memory);
        }
        self.whole = false;
        add_line(self.alloc, &mut *self.world, self.name, &self.head, step)?;
        self.whole = true;
        Ok(())
    }
}

/// A sink that hands each step to a [`TextSink`], and then to another sink, which alone takes the formulas.
/// The other sink's faults are no fewer than at the start `S`.
#[derive(Drop)]
pub struct CertSink<'a, 'b, W: World, S: Start, D: StepSink> {
    pub text: TextSink<'a, W, S>,
    pub next: &'b mut D,
    ghost no_fall: { S.faults ≤ (D.told next.now).faults },
}

impl<'a, 'b, W: World, S: Start, D: StepSink> StepSink for CertSink<'a, 'b, W, S, D> {
    ghost use Rattle.ba_cert.specs.Sinks.{cert_told, text_told};

    ghost told = { cert_told W.outside D.told };

    fn begin(&mut self, formula: &Formula, softs: &[(Lit, u32)]) -> Result<(), SinkError> {
        self.next.begin(formula, softs)
    }

    fn take(&mut self, step: &CertStep) -> Result<(), SinkError>
        requires formed { IsFormed step.now }
        ensures takes { Takes step.now result
            (cert_told W.outside D.told self.old) (cert_told W.outside D.told self.new) }
        ensures in_turn { OnErr result (RefusesInTurn step.now
            (text_told W.outside self.old.text).logs (text_told W.outside self.new.text).logs
            (D.told self.old.next.now).logs (D.told self.new.next.now).logs) }
    {
        self.text.take(step)?;
        self.next.take(step)
    }
}
