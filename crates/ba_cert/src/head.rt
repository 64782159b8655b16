//! The settings that a certificate names.

use ba_tree::run::Bounds;

/// The settings of a certificate: the bounds of runs, the limit on conflicts, and the limit on listed sets.
/// If the conflicts are 2^62 or more, no line has these settings.
#[derive(Clone, Copy, Debug, PartialEq, Eq)]
pub struct CertHead {
    pub bounds: Bounds,
    pub conflicts: u64,
    pub sets: u32,
}
