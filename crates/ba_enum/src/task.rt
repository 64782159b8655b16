//! The task of an enumeration.

ghost use Rattle.std.specs.Prelude.{◌≡◌};
ghost use Rattle.ba_encode.specs.Softs.{softs_of};

use ba_encode::Encoded;
use ba_lits::Lit;

/// The sets of a formula whose groups have these soft literals are wanted, of the models that satisfy the
/// assumptions. At most `most` may be listed.
#[derive(Drop)]
pub struct Task<'a> {
    pub encoded: &'a Encoded,
    pub softs: Vec<(Lit, u32)>,
    pub assumptions: Vec<Lit>,
    pub sets: u32,
    pub ghost are_softs: { softs.items ≡ softs_of encoded.now.groups },
}
