//! A certificate that comes in pieces.

ghost use Rattle.std.specs.Prelude.{◌≡◌, ◌++◌, ℕ, List, [], None, Err, IfOk, IfSome};
ghost use Rattle.ba_cert.specs.declared.head.CertHead.{CertHead};
ghost use Rattle.ba_check.specs.Answers.{Answers, head_of, problem_by};
ghost use Rattle.ba_check.specs.Readers.{seen};
ghost use Rattle.ba_check.specs.Readings.{HasRead, answer_by};
ghost use Rattle.ba_derivations.specs.Derivations.{Problem};
ghost use Rattle.ba_encode.specs.Softs.{softs_of};
ghost use Rattle.ba_checker.specs.Facts.{AreSelectors};

use crate::checked_lines::CheckedLines;
use crate::confirmed::Confirmed;
use crate::error::CheckError;
use crate::reading::LineReader;
use crate::settings::{Settings, head_of};
use ba_cert::CertHead;
use ba_checker::Checker;
use ba_encode::{Encoded, softs_of};
use ba_steps::RunJudge;
use std::alloc::{AllocError, Global};

/// A reader that takes a certificate in pieces, and checks each line once its line feed is there. It keeps
/// only what follows the last line feed. An error is answered from then on.
#[derive(Drop)]
pub struct Confirm<J> {
    head: CertHead,
    judge: J,
    reading: LineReader,
    refusal: Option<CheckError>,
}

impl<J: RunJudge + Drop> Confirm<J> {
    /// A reader that has read nothing, over an encoding of which runs are good as this judge says.
    ///
    /// The only error is out of memory.
    pub fn new(
        alloc: Global,
        judge: J,
        settings: Settings,
        encoded: &Encoded,
    ) -> Result<Confirm<J>, AllocError>
        requires selectors { AreSelectors encoded.now.formula.variables
            (softs_of encoded.now.groups) }
        ensures nothing_read { IfOk result (λ confirm. HasRead (head_of settings)
            (problem_by (J.accepts judge) settings encoded.now) [] (seen J.accepts confirm)) }
        ensures no_refusal { IfOk result (λ confirm. (seen J.accepts confirm).refusal ≡ None) }
    {
        let softs = softs_of(alloc, encoded)?;
        let checker = Checker::new(
            alloc,
            encoded.formula(),
            softs.as_slice(),
            settings.conflicts,
            settings.sets,
        )?;
        Ok(Confirm {
            head: head_of(settings),
            judge,
            reading: LineReader {
                checked: CheckedLines::new(alloc, checker),
                rest: Vec::new(alloc),
            },
            refusal: None,
        })
    }

    /// Takes the next bytes of the text.
    ///
    /// `Line` comes exactly if a whole line of the bytes so far is refused, with the first such line. The
    /// other error is out of memory. After an error nothing changes any more, and the answer stays the same.
    pub fn feed(&mut self, piece: &[u8]) -> Result<(), CheckError>
        ensures reads { (h : CertHead) (p : Problem) (text : List ℕ)
            → HasRead h p text (seen J.accepts self.old)
            → HasRead h p (text ++ piece.now) (seen J.accepts self.new) }
        ensures answer { result ≡ answer_by self.new.refusal }
        ensures again { IfSome self.old.refusal
            (λ _. seen J.accepts self.new ≡ seen J.accepts self.old) }
    {
        if let Some(refusal) = self.refusal {
            return Err(refusal);
        }
        let answer = self.reading.take(&self.head, &self.judge, piece);
        self.refusal = refusal_of(&answer);
        answer
    }

    /// What the text that was read says.
    ///
    /// `Line` comes exactly if the text is no certificate of the problem. It has the first refused whole
    /// line; if no line is refused, the line after the whole ones with code 21. The other error is out of
    /// memory.
    pub fn finish(self) -> Result<Confirmed, CheckError>
        ensures answers { (h : CertHead) (p : Problem) (text : List ℕ)
            → HasRead h p text (seen J.accepts self) → Answers h p text result }
        ensures again { IfSome self.refusal (λ error. result ≡ Err error) }
    {
        if let Some(refusal) = self.refusal {
            return Err(refusal);
        }
        self.reading.checked.finish(self.reading.rest.as_slice())
    }
}

/// The error of an answer.
fn refusal_of(answer: &Result<(), CheckError>) -> Option<CheckError>
    ensures { answer.now ≡ answer_by result }
{
    match answer {
        Ok(()) => None,
        Err(error) => Some(*error),
    }
}
