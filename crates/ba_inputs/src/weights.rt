//! The weights of a program's statements, from the text of a file.

ghost use Rattle.std.specs.Prelude.{◌≡◌, ◌≤◌, ◌<◌, ℕ, true, false, None, map, length, get_or, MatchOption, IfErr, IfOk};
ghost use Rattle.ba_tree.specs.Least.{AreWeightsOf};
ghost use Rattle.ba_tree.specs.Weights.{is_weight};
ghost use Rattle.ba_tree.specs.declared.tree.StmtInfo.{StmtInfo};
ghost use Rattle.ba_inputs.specs.Weights.{IsWithinTable, bad_line, begins_comment, named_by, content_of, statement_weight, weight_in, weight_of, weights_in, Tells};
ghost use Rattle.ba_inputs.specs.Tables.{IsTableOf, after_line};

use ba_bytes::lines::Lines;
use ba_bytes::numbers::number_in;
use ba_bytes::pieces::Pieces;
use ba_items::Items;
use ba_tree::run::Weights;
use ba_tree::tree::{Program, StmtInfo, StmtKind};
use std::alloc::{AllocError, AllocFailed, Global};
use thiserror::Error;

/// Why a text gives no weights, or out of memory.
#[derive(Clone, Copy, Debug, Error)]
pub enum WeightsError {
    /// The line of this number, counted from 1, is the first bad one. It has no form of a line, or names a
    /// line that an earlier one names.
    #[error("line {0} of the weights is wrong")]
    Line(u64),
    /// Out of memory.
    #[error("out of memory")]
    Memory,
}

impl From<AllocError> for WeightsError {
    ghost use Rattle.std.specs.Prelude.{◌≡◌};
    ghost use Rattle.ba_inputs.specs.declared.weights.WeightsError.TheVariants.{Memory};

    ghost from_gives = { λ _ error. error ≡ Memory };

    fn from(_error: AllocError) -> WeightsError {
        WeightsError::Memory
    }
}

impl<T: Drop> From<AllocFailed<T>> for WeightsError {
    ghost use Rattle.std.specs.Prelude.{◌≡◌};
    ghost use Rattle.ba_inputs.specs.declared.weights.WeightsError.TheVariants.{Memory};

    ghost from_gives = { λ _ error. error ≡ Memory };

    fn from(_error: AllocFailed<T>) -> WeightsError {
        WeightsError::Memory
    }
}

/// What the weights say of the statements of a line.
#[derive(Clone, Copy)]
pub enum LineWeight {
    /// They may not be relaxed.
    Fixed,
    /// Each has this weight, from 1 to 1,000.
    Weight(u32),
}

/// What a line of the weights is.
#[derive(Clone, Copy)]
pub enum LineContent {
    /// A blank line or a comment.
    Skipped,
    /// A line of the program with its weight. The number is 1 to 99,999.
    Named { line: u32, weight: LineWeight },
    /// No form of a line.
    Bad,
}

/// The size of the table: line numbers are 1 to 99,999, and entry 0 is not used.
const LINES: usize = 100_000;

/// Whether a piece begins a comment.
pub(crate) fn begins_comment(piece: &[u8]) -> bool
    ensures { result ≡ begins_comment piece.now }
{
    match piece.first() {
        None => false,
        Some(first) => *first == b'#',
    }
}

/// The weight that a piece writes, if it writes one.
fn weight_in(piece: &[u8]) -> Option<LineWeight>
    ensures { result ≡ weight_in piece.now }
{
    if piece == b"fixed".as_slice() {
        return Some(LineWeight::Fixed);
    }
    let weight = number_in(piece, 4, 1, 1000)?;
    Some(LineWeight::Weight(weight))
}

/// The content of a line with these two pieces.
fn named(line: &[u8], weight: &[u8]) -> LineContent
    ensures value { result ≡ named_by line.now weight.now }
    ensures within { IsWithinTable result }
{
    let Some(line) = number_in(line, 5, 1, 99_999) else {
        return LineContent::Bad;
    };
    let Some(weight) = weight_in(weight) else {
        return LineContent::Bad;
    };
    LineContent::Named { line, weight }
}

/// The content of a line of the weights.
#[tactic(auto, unfolding(crate::specs::Weights::content_of))]
fn content_of(line: &[u8]) -> LineContent
    ensures value { result ≡ content_of line.now }
    ensures within { IsWithinTable result }
{
    let mut pieces = Pieces::new(line);
    let Some(first) = pieces.next_piece() else {
        return LineContent::Skipped;
    };
    if begins_comment(first) {
        return LineContent::Skipped;
    }
    let Some(second) = pieces.next_piece() else {
        return LineContent::Bad;
    };
    if pieces.next_piece().is_some() {
        return LineContent::Bad;
    }
    named(first, second)
}

/// Enters the weight of a line of the program, unless the line is there already, and tells whether it did.
fn put(table: &mut [Option<LineWeight>], line: usize, weight: LineWeight) -> bool
    requires { line < length table.old }
    ensures { MatchOption (after_line table.old (LineContent.Named line weight)) (result ≡ false)
        (λ next. (result ≡ true) × (table.new ≡ next)) }
{
    if table[line].is_some() {
        return false;
    }
    table[line] = Some(weight);
    true
}

/// Enters what a line of the weights says, and tells whether the line is good.
fn put_line(table: &mut [Option<LineWeight>], line: &[u8]) -> bool
    requires { length table.old ≡ LINES }
    ensures { MatchOption (after_line table.old (content_of line.now)) (result ≡ false)
        (λ next. (result ≡ true) × (table.new ≡ next)) }
{
    match content_of(line) {
        LineContent::Skipped => true,
        LineContent::Named { line, weight } => put(table, line as usize, weight),
        LineContent::Bad => false,
    }
}

/// A table of `lines` entries that says nothing of any line.
///
/// The only error is out of memory.
fn empty_table(alloc: Global, lines: usize) -> Result<Vec<Option<LineWeight>>, AllocError>
    ensures size { IfOk result (λ table. length table.items ≡ lines) }
    ensures empty { IfOk result (λ table. (line : ℕ) → get_or table.items line None ≡ None) }
{
    let table = vec![in alloc; None; lines]?;
    Ok(table)
}

/// The table of the weights by line numbers.
fn table_of(alloc: Global, text: &[u8]) -> Result<Vec<Option<LineWeight>>, WeightsError>
    ensures ok { IfOk result (λ table. IsTableOf text.now table.items) }
    ensures err { IfErr result (λ error. Tells error (bad_line text.now)) }
{
    let mut table = empty_table(alloc, LINES)?;
    let mut lines = Lines::new(text);
    let mut number = 0;
    while let Some(line) = lines.next_line() {
        prove!(number <= text.len());
        number += 1;
        if !put_line(table.as_mut_slice(), line) {
            return Err(WeightsError::Line(number as u64));
        }
    }
    Ok(table)
}

/// The weight of a statement of which the weights say this.
fn weight_of(said: Option<LineWeight>) -> Option<u32>
    ensures { result ≡ weight_of said }
{
    match said {
        None => Some(1),
        Some(LineWeight::Fixed) => None,
        Some(LineWeight::Weight(weight)) => Some(weight),
    }
}

/// What the weights say of the statements of a line, by their table.
fn said_at(table: &[Option<LineWeight>], line: u32) -> Option<LineWeight>
    ensures { result ≡ get_or table.now line None }
{
    match table.get(line as usize) {
        Some(said) => *said,
        None => None,
    }
}

/// The weight of a statement, by the table of the weights: an assert has none.
fn statement_weight(table: &[Option<LineWeight>], info: StmtInfo) -> Option<u32>
    ensures { result ≡ statement_weight info.kind (get_or table.now info.at.line None) }
{
    match info.kind {
        StmtKind::Assert => None,
        _ => weight_of(said_at(table, info.at.line)),
    }
}

/// The weights of the statements, by the table of the weights.
///
/// The only error is out of memory.
fn weights_of(
    alloc: Global,
    statements: &[StmtInfo],
    table: &[Option<LineWeight>],
) -> Result<Weights, AllocError>
    requires { (line : ℕ) → is_weight (weight_of (get_or table.now line None)) ≡ true }
    ensures { IfOk result (λ weights. weights.of
        ≡ map (λ (info : StmtInfo).
        statement_weight info.kind (get_or table.now info.at.line None)) statements.now) }
{
    let mut of = Items::new(alloc);
    for info in statements {
        of.push(statement_weight(table, *info))?;
    }
    Ok(Weights { of })
}

/// Reads the weights of a program's statements. The forms of a line:
/// - blank, or a comment that begins with `#`
/// - LINE and WEIGHT, between blanks: the statements that begin in line LINE of the program weigh 1 to 1,000
/// - LINE and `fixed`: they may not be relaxed
///
/// LINE is one to five digits and at least 1, WEIGHT one to four digits. Other statements weigh 1. An assert
/// is never relaxed.
///
/// `Line` comes exactly if a line has none of these forms or names a line that an earlier one names. It has
/// the number of the first such line. `Memory` is out of memory.
pub fn read_weights(alloc: Global, program: &Program, text: &[u8]) -> Result<Weights, WeightsError>
    ensures accepted { IfOk result (λ _. bad_line text.now ≡ None) }
    ensures value { IfOk result (λ weights. weights.of ≡ weights_in program.now text.now) }
    ensures kept { IfOk result (λ weights. AreWeightsOf program.now weights.of) }
    ensures err { IfErr result (λ error. Tells error (bad_line text.now)) }
{
    let table = table_of(alloc, text)?;
    let weights = weights_of(alloc, program.statements.as_slice(), table.as_slice())?;
    Ok(weights)
}
