//! Array reads and writes at a symbolic index, as chains of selects.
//!
//! Whether the index is that of a cell is one gate, the `and` of its row and its column. All reads and writes
//! at this index share it. A read is a chain of selects by these gates, one fewer than there are cells. A
//! write selects in each cell.
//!
//! The only error is out of memory. It leaves every bit its value; gates may have been added.
#![tactic(auto)]

ghost use Rattle.std.specs.Prelude.{◌≡◌, ℕ, ◌+◌, ◌*◌, ◌/◌, ◌%◌, ◌<◌, ◌≤◌, ◌^◌, ◌==◌, Bool, ◌&&◌, nat_lt, List, length, IfOk};
ghost use Rattle.ba_nodes.specs.declared.Bit.{Bit};
ghost use Rattle.ba_nodes.specs.declared.Node.{Node};
ghost use Rattle.ba_nodes.specs.Gates.{truth, IsBitOf, HasValue, Grows, MakesBit};
ghost use Rattle.ba_words.specs.Words.{digit, number_of, low_number, bit_at, AreBitsOf, AreWords};
ghost use Rattle.ba_cells.specs.Cells.{AreCellsOf, IsCellAt, IsCellRead, AreWritten, Spells, IsGrid};

use ba_nodes::{Bit, Nodes};
use ba_words::{Word, select};
use std::alloc::{AllocError, Global};

/// How many bits of an index tell 256 cells apart.
const INDEX_BITS: usize = 8;

/// Up to this many cells have rows of four; more have rows of 16.
const FEW_CELLS: usize = 64;

/// For each number below 16, a bit that tells whether it is the one.
type Numbers = [Bit; 16];

/// The cell at the index, by at most 96 gates a cell and 224 more. For an index out of range it is the cell
/// at the index's low 8 bits, or the first if these lead past the last.
pub fn read_cell(nodes: &mut Nodes, cells: &[Word], index: &Word) -> Result<Word, AllocError>
    requires some { 0 < length cells.now }
    requires few { length cells.now ≤ 256 }
    requires cells { AreCellsOf nodes.old cells.now }
    requires index { AreBitsOf nodes.old index.now }
    ensures bits { IfOk result (AreBitsOf nodes.new) }
    ensures value { IfOk result (IsCellAt (λ free. number_of free nodes.old index.now) nodes.old
        cells.now nodes.new) }
    ensures read { IfOk result (IsCellRead nodes.old cells.now index.now nodes.new) }
    ensures grows { Grows nodes.old nodes.new (96 * length cells.now + 224) }
{
    let (rows, columns, width) = grid_of(nodes, index, cells.len())?;
    let mut word = cells[0];
    for place in 1..cells.len() {
        let here = is_at(nodes, index, &rows, &columns, width, place)?;
        word = select(nodes, here, &cells[place], &word)?;
    }
    Ok(word)
}

/// The cells, with `value` at the index if `when` is true and the index is in range. It takes at most 104
/// gates a cell and 224 more.
pub fn write_cell(
    alloc: Global,
    nodes: &mut Nodes,
    cells: &[Word],
    index: &Word,
    value: &Word,
    when: Bit,
) -> Result<Vec<Word>, AllocError>
    requires some { 0 < length cells.now }
    requires few { length cells.now ≤ 256 }
    requires cells { AreCellsOf nodes.old cells.now }
    requires index { AreBitsOf nodes.old index.now }
    requires value { AreBitsOf nodes.old value.now }
    requires when { IsBitOf nodes.old when }
    ensures cells { IfOk result (λ written. (length written.items ≡ length cells.now)
        × AreCellsOf nodes.new written.items) }
    ensures value { IfOk result (λ written.
        AreWritten (λ free. truth free nodes.old when)
        (λ free. number_of free nodes.old index.now)
        nodes.old cells.now value.now nodes.new written.items) }
    ensures grows { Grows nodes.old nodes.new (104 * length cells.now + 224) }
{
    let beyond = is_beyond(nodes, index)?;
    let hit = nodes.and(when, Nodes::not(beyond))?;
    let (rows, columns, width) = grid_of(nodes, index, cells.len())?;
    let mut written = Vec::new(alloc);
    for place in 0..cells.len() {
        let here = is_at(nodes, index, &rows, &columns, width, place)?;
        let replaced = nodes.and(hit, here)?;
        let cell = select(nodes, replaced, value, &cells[place])?;
        written.push(cell)?;
    }
    Ok(written)
}

/// Whether a bit of the index above the low 8 is true.
fn is_beyond(nodes: &mut Nodes, index: &Word) -> Result<Bit, AllocError>
    requires { AreBitsOf nodes.old index.now }
    ensures { MakesBit nodes.old nodes.new result 24
        (λ free. nat_lt (low_number free nodes.old index.now 8)
        (number_of free nodes.old index.now)) }
{
    let mut some = Nodes::constant(false);
    for i in INDEX_BITS..32 {
        some = nodes.or(some, index[i])?;
    }
    Ok(some)
}

/// Whether the low 8 bits of the index are this number, by its row and its column.
fn is_at(
    nodes: &mut Nodes,
    index: &Word,
    rows: &Numbers,
    columns: &Numbers,
    width: usize,
    place: usize,
) -> Result<Bit, AllocError>
    requires some { 0 < width }
    requires wide { width ≤ 16 }
    requires place { place < 16 * width }
    requires row { HasValue nodes.old (bit_at rows.now (place / width))
        (λ free. low_number free nodes.old index.now 8 / width == place / width) }
    requires column { HasValue nodes.old (bit_at columns.now (place % width))
        (λ free. low_number free nodes.old index.now 8 % width == place % width) }
    ensures { MakesBit nodes.old nodes.new result 1
        (λ free. low_number free nodes.old index.now 8 == place) }
{
    nodes.and(rows[place / width], columns[place % width])
}

/// Bits that tell row and column of the low 8 bits of the index, and how many columns there are. Few cells
/// take the fewest clauses with four columns, many the fewest gates with 16.
fn grid_of(
    nodes: &mut Nodes,
    index: &Word,
    cells: usize,
) -> Result<(Numbers, Numbers, usize), AllocError>
    requires few { cells ≤ 256 }
    requires index { AreBitsOf nodes.old index.now }
    ensures grid { IfOk result (λ r. IsGrid nodes.new index.now cells r.0 r.1 r.2) }
    ensures long { IfOk result (λ r. (length r.0 ≡ 16) × (length r.1 ≡ 16)) }
    ensures grows { Grows nodes.old nodes.new 48 }
{
    let lowest = pair_of(nodes, index, 0)?;
    let low = pair_of(nodes, index, 2)?;
    let high = pair_of(nodes, index, 4)?;
    let highest = pair_of(nodes, index, 6)?;
    let upper = combined(nodes, &highest, &high, (cells + 15) / 16)?;
    if cells > FEW_CELLS {
        let columns = combined(nodes, &low, &lowest, 16)?;
        Ok((upper, columns, 16))
    } else {
        let rows = combined(nodes, &upper, &low, (cells + 3) / 4)?;
        Ok((rows, lowest, 4))
    }
}

/// Which number two bits of the index are, from this bit on.
fn pair_of(nodes: &mut Nodes, index: &Word, place: usize) -> Result<Numbers, AllocError>
    requires within { place < 31 }
    requires index { AreBitsOf nodes.old index.now }
    ensures long { IfOk result (λ bits. length bits ≡ 16) }
    ensures bits { IfOk result (AreBitsOf nodes.new) }
    ensures value { IfOk result (λ bits. Spells nodes.new bits 4
        (λ free. digit (truth free nodes.old (bit_at index.now place))
        + 2 * digit (truth free nodes.old (bit_at index.now (place + 1))))) }
    ensures grows { Grows nodes.old nodes.new 4 }
{
    let (first, second) = (index[place], index[place + 1]);
    let mut bits = [Nodes::constant(false); 16];
    bits[0] = nodes.and(Nodes::not(second), Nodes::not(first))?;
    bits[1] = nodes.and(Nodes::not(second), first)?;
    bits[2] = nodes.and(second, Nodes::not(first))?;
    bits[3] = nodes.and(second, first)?;
    Ok(bits)
}

/// For each number below `count`, whether `upper` tells its quarter and `lower` the rest.
fn combined(
    nodes: &mut Nodes,
    upper: &Numbers,
    lower: &Numbers,
    count: usize,
) -> Result<Numbers, AllocError>
    requires few { count ≤ 16 }
    requires words { AreWords nodes.old upper.now lower.now }
    ensures long { IfOk result (λ bits. length bits ≡ 16) }
    ensures bits { IfOk result (AreBitsOf nodes.new) }
    ensures value { IfOk result (λ bits. (n : ℕ) → n < count → HasValue nodes.new (bit_at bits n)
        (λ free. truth free nodes.old (bit_at upper.now (n / 4))
        && truth free nodes.old (bit_at lower.now (n % 4)))) }
    ensures grows { Grows nodes.old nodes.new count }
{
    let mut bits = [Nodes::constant(false); 16];
    for n in 0..count {
        bits[n] = nodes.and(upper[n / 4], lower[n % 4])?;
    }
    Ok(bits)
}
