//! The settings by which a certificate is checked, besides the program, its input and the encoding of its
//! run.

ghost use Rattle.std.specs.Prelude.{◌≡◌};
ghost use Rattle.ba_check.specs.Answers.{head_of};

use ba_cert::CertHead;
use ba_tree::run::Bounds;

/// The bounds of runs, the limit on conflicts, and the limit on least sets. The weights of statements are in
/// the encoding.
#[derive(Clone, Copy)]
pub struct Settings {
    pub bounds: Bounds,
    pub conflicts: u64,
    pub sets: u32,
}

/// These settings as a certificate has them.
pub fn head_of(settings: Settings) -> CertHead
    ensures { result ≡ head_of settings }
{
    CertHead {
        bounds: settings.bounds,
        conflicts: settings.conflicts,
        sets: settings.sets,
    }
}
