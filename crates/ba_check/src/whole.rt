//! A whole certificate.

ghost use Rattle.std.specs.Prelude.{◌≡◌, true};
ghost use Rattle.ba_check.specs.Answers.{Answers, head_of, problem_of};
ghost use Rattle.ba_encode.specs.Softs.{softs_of};
ghost use Rattle.ba_checker.specs.Facts.{AreSelectors};
ghost use Rattle.ba_tree.specs.Run.{are_bounds};

use crate::confirmed::Confirmed;
use crate::error::CheckError;
use crate::pieces::Confirm;
use crate::settings::Settings;
use ba_encode::Encoded;
use ba_judge::ProgramJudge;
use ba_tree::run::Input;
use ba_tree::tree::Program;
use std::alloc::Global;

/// What a text says, as a certificate on the problem of a program's run over an encoding of it. If the
/// encoding is faithful, what is said is true, wherever the text comes from.
///
/// `Line` comes exactly if the text is no certificate of the problem, with the first refused line and its
/// code. The other error is out of memory.
pub fn confirm(
    alloc: Global,
    program: &Program,
    input: &Input,
    settings: Settings,
    encoded: &Encoded,
    text: &[u8],
) -> Result<Confirmed, CheckError>
    requires bounds { are_bounds settings.bounds ≡ true }
    requires selectors { AreSelectors encoded.now.formula.variables (softs_of encoded.now.groups) }
    ensures { Answers (head_of settings) (problem_of program.now input.now settings encoded.now)
        text.now result }
{
    let judge = ProgramJudge::new(alloc, program, input, settings.bounds);
    let mut confirm = Confirm::new(alloc, judge, settings, encoded)?;
    confirm.feed(text)?;
    confirm.finish()
}
