//! A world and a sink that count their calls.

ghost use Rattle.std.specs.Prelude.{◌≡◌, ◌≤◌, Err};
ghost use Rattle.ba_steps.specs.Sinks.{Rose, untold};
ghost use Rattle.ba_steps.specs.declared.sink.SinkError.TheVariants.{Failed};

use ba_lits::{Formula, Lit};
use ba_steps::{CertStep, SinkError, StepSink};
use ba_world::{World, WorldError};

/// What is printed if a call fails that reads; nothing for one that writes or prints.
pub type Refusal = Option<&'static str>;

/// A world that notes the calls of the world inside. It tells what that one tells.
#[derive(Drop)]
pub struct Counted<W> {
    pub inside: W,
    /// What is printed if the call of this number fails, and no later one.
    pub calls: Vec<Refusal>,
    reading: Refusal,
}

impl<W: World> Counted<W> {
    /// The world inside before its first call, with an empty list of calls.
    pub fn new(calls: Vec<Refusal>, inside: W) -> Counted<W> {
        Counted {
            inside,
            calls,
            reading: None,
        }
    }
}

/// What is printed if the file of this name can't be read.
fn refusal_of(name: &str) -> Refusal {
    match name {
        "p.c" => Some("refused: program cannot be read\n"),
        "in.txt" => Some("refused: input cannot be read\n"),
        "failing.txt" => Some("refused: failing cannot be read\n"),
        "passing.txt" => Some("refused: passing cannot be read\n"),
        "all.txt" => Some("refused: inputs cannot be read\n"),
        "w.txt" => Some("refused: weights cannot be read\n"),
        _ => Some("refused: certificate cannot be read\n"),
    }
}

impl<W: World> World for Counted<W> {
    ghost outside = { λ world. W.outside world.inside };

    fn open_file(&mut self, name: &str) -> Result<(), WorldError> {
        self.reading = refusal_of(name);
        let _ = self.calls.push(self.reading);
        self.inside.open_file(name)
    }

    fn next_piece(&mut self, into: &mut [u8]) -> Result<usize, WorldError> {
        let _ = self.calls.push(self.reading);
        self.inside.next_piece(into)
    }

    fn begin_file(&mut self, name: &str) -> Result<(), WorldError> {
        let _ = self.calls.push(None);
        self.inside.begin_file(name)
    }

    fn add(&mut self, bytes: &[u8]) -> Result<(), WorldError> {
        let _ = self.calls.push(None);
        self.inside.add(bytes)
    }

    fn print(&mut self, bytes: &[u8]) -> Result<(), WorldError> {
        let _ = self.calls.push(None);
        self.inside.print(bytes)
    }
}

/// A sink that counts its calls, `begin` as call 0, and fails in one of them.
#[derive(Drop)]
pub struct FailingSink {
    pub calls: u64,
    fails: u64,
    faults: u64,
}

impl FailingSink {
    /// A sink whose call of this number fails.
    pub fn new(fails: u64) -> FailingSink {
        FailingSink {
            calls: 0,
            fails,
            faults: 0,
        }
    }

    /// Counts a call, which fails if it is the one.
    fn count(&mut self) -> Result<(), SinkError>
        ensures cause { result ≡ Err Failed → Rose self.old.faults self.new.faults }
        ensures no_fall { self.old.faults ≤ self.new.faults }
    {
        let fails = self.calls == self.fails;
        self.calls = self.calls.saturating_add(1);
        if fails {
            self.faults = self.faults.saturating_add(1);
            return Err(SinkError::Failed);
        }
        Ok(())
    }
}

impl StepSink for FailingSink {
    ghost told = { λ s. record untold { faults = s.faults } };

    fn begin(&mut self, _formula: &Formula, _softs: &[(Lit, u32)]) -> Result<(), SinkError> {
        self.count()
    }

    fn take(&mut self, _step: &CertStep) -> Result<(), SinkError> {
        self.count()
    }
}
