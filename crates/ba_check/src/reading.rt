//! Pieces of a certificate, one after the other.

ghost use Rattle.std.specs.Prelude.{◌≡◌, ◌++◌, [], OnOk};
ghost use Rattle.ba_check.specs.Findings.{after_line, after_lines};
ghost use Rattle.ba_check.specs.Lines.{HasNoFeed};
ghost use Rattle.ba_check.specs.Readings.{Keeps, KeepsWith, course_kept};

use crate::checked_lines::CheckedLines;
use crate::cut::cut;
use crate::error::CheckError;
use ba_cert::CertHead;
use ba_steps::RunJudge;

/// The course of the whole lines so far, and what follows the last line feed.
#[derive(Drop)]
pub(crate) struct LineReader {
    pub(crate) checked: CheckedLines,
    pub(crate) rest: Vec<u8>,
}

impl LineReader {
    /// Takes the next bytes of the text, and keeps only what follows the last line feed.
    ///
    /// `Line` comes exactly if a line that ends in them is refused.
    pub(crate) fn take<J: RunJudge>(
        &mut self,
        head: &CertHead,
        judge: &J,
        piece: &[u8],
    ) -> Result<(), CheckError>
        ensures { HasNoFeed self.old.rest.items → KeepsWith result self.new.checked
            self.new.rest.items (after_lines head.now (J.accepts judge.now)
            (course_kept self.old.checked)) (self.old.rest.items ++ piece.now) }
    {
        let mut left = piece;
        while let Some((end, behind)) = cut(left) {
            self.end_line(head, judge, end)?;
            left = behind;
        }
        self.rest.extend_from_slice(left)?;
        Ok(())
    }

    /// Takes the end of a line, without the line feed.
    fn end_line<J: RunJudge>(
        &mut self,
        head: &CertHead,
        judge: &J,
        end: &[u8],
    ) -> Result<(), CheckError>
        ensures keeps { Keeps result self.new.checked (after_line head.now (J.accepts judge.now)
            (course_kept self.old.checked) (self.old.rest.items ++ end.now)) }
        ensures empty { OnOk result (self.new.rest.items ≡ []) }
    {
        self.rest.extend_from_slice(end)?;
        self.checked.take_line(head, judge, self.rest.as_slice())?;
        self.rest.clear();
        Ok(())
    }
}
