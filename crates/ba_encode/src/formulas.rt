//! The formula of a word list.

ghost use Rattle.std.specs.Prelude.{◌≡◌, true, length, All, IfOk};
ghost use Rattle.ba_encode.specs.Built.{IsBuilt};
ghost use Rattle.ba_encode.specs.Encodings.{IsEncodingOf};
ghost use Rattle.ba_encode.specs.Groups.{are_apart};
ghost use Rattle.ba_nodes.specs.Gates.{IsBitOf};

use crate::encoded::Encoded;
use crate::grouping::{Grouping, groups_of};
use crate::places::{PlaceBits, places_of};
use crate::reading::{bits_read, place_readings};
use crate::required::{add_kept, met};
use crate::roots::{groups_of_places, roots_of};
use crate::selectors::{free_bits, with_selectors};
use ba_bits::{bits_of, needed_entries};
use ba_clauses::clauses_of;
use ba_nodes::{Bit, Nodes};
use ba_wordlist::words::WordList;
use std::alloc::{AllocError, Global};

/// The formula of a word list. Its models are the good runs in which groups may be relaxed. An execution in
/// no group never is.
///
/// The only error is out of memory.
pub fn encode(alloc: Global, words: &WordList, grouping: &Grouping) -> Result<Encoded, AllocError>
    requires { are_apart grouping.now ≡ true }
    ensures { IfOk result (IsEncodingOf words.now grouping.now) }
{
    let mut nodes = Nodes::new(alloc);
    encode_by(alloc, &mut nodes, words, grouping)
}

/// The formula of a word list, by gates that are added to these nodes.
fn encode_by(
    alloc: Global,
    nodes: &mut Nodes,
    words: &WordList,
    grouping: &Grouping,
) -> Result<Encoded, AllocError>
    requires { are_apart grouping.now ≡ true }
    ensures { IfOk result (IsEncodingOf words.now grouping.now) }
{
    let groups = groups_of(alloc, grouping)?;
    let selectors = free_bits(alloc, nodes, groups.len())?;
    let places = words.places.as_slice();
    let found = groups_of_places(alloc, grouping, groups.as_slice(), places)?;
    let built = build(alloc, nodes, words, found.as_slice(), selectors.as_slice())?;
    let places = built.places.as_slice();
    let read = bits_read(alloc, selectors.as_slice(), places)?;
    let encoding = clauses_of(alloc, nodes, built.required.as_slice(), read.as_slice())?;
    let readings = encoding.readings.as_slice();
    let named = with_selectors(alloc, groups.as_slice(), readings)?;
    let (_, others) = readings.split_at(groups.len());
    let places = place_readings(alloc, places, others)?;
    Ok(Encoded {
        formula: encoding.formula,
        groups: named,
        places,
    })
}

/// The parts of a formula: the bits that have to be true, and the executions.
struct Built {
    required: Vec<Bit>,
    places: Vec<PlaceBits>,
}

impl Drop for Built {
    fn drop(self) {
        let Built {
            required: _,
            places: _,
        } = self;
    }
}

/// The bits of a word list, by the positions of the groups of its executions.
fn build(
    alloc: Global,
    nodes: &mut Nodes,
    list: &WordList,
    groups: &[Option<usize>],
    selectors: &[Bit],
) -> Result<Built, AllocError>
    requires grouped { length groups.now ≡ length list.now.places }
    requires selectors { All (IsBitOf nodes.old) selectors.now }
    ensures { IfOk result (λ built. IsBuilt list.now groups.now selectors.now
        nodes.old nodes.new built.required.items built.places.items) }
{
    let words = list.words.as_slice();
    let roots = roots_of(alloc, list, groups)?;
    let needed = needed_entries(alloc, words, roots.as_slice())?;
    let entries = bits_of(alloc, nodes, words, needed.as_slice())?;
    let mut required = met(alloc, nodes, entries.as_slice(), list.require.as_slice())?;
    let places = places_of(alloc, nodes, list, entries.as_slice(), groups, selectors)?;
    add_kept(nodes, places.as_slice(), &mut required)?;
    Ok(Built { required, places })
}
