//! The soft literals of groups.

ghost use Rattle.std.specs.Prelude.{◌≡◌, ◌++◌, replicate, OnOk, IfOk};
ghost use Rattle.ba_encode.specs.Softs.{softs_of};

use crate::encoded::Encoded;
use ba_lits::Lit;
use std::alloc::{AllocError, Global};

/// The selectors of groups with their weights, as soft literals. If the numbers of the groups ascend, as in
/// an encoding that [`encode`](crate::encode) made, entry n - 1 is that of the group of number n. An entry of
/// weight 0 fills each gap.
///
/// The only error is out of memory.
pub fn softs_of(alloc: Global, encoded: &Encoded) -> Result<Vec<(Lit, u32)>, AllocError>
    ensures { IfOk result (λ softs. softs.items ≡ softs_of encoded.now.groups) }
{
    let mut softs = Vec::new(alloc);
    let mut next = 1;
    for group in encoded.groups.as_slice() {
        let number = u64::from(group.number);
        add_gap(&mut softs, group.selector, number.saturating_sub(next))?;
        softs.push((group.selector, group.weight))?;
        next = number + 1;
    }
    Ok(softs)
}

/// Adds `count` entries of weight 0, for no group.
///
/// The only error is out of memory.
fn add_gap(softs: &mut Vec<(Lit, u32)>, lit: Lit, count: u64) -> Result<(), AllocError>
    ensures { OnOk result (softs.new.items ≡ softs.old.items ++ replicate count (lit, 0)) }
{
    for _ in 0..count {
        softs.push((lit, 0))?;
    }
    Ok(())
}
