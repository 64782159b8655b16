//! Formulas that encode bits of gates.

ghost use Rattle.std.specs.Prelude.{◌≡◌, ◌^◌, ◌<◌, ◌-◌, not, map, slice_index, IfOk, All};
ghost use Rattle.std.specs.List.{list_any};
ghost use Rattle.ba_nodes.specs.Gates.{IsBitOf};
ghost use Rattle.ba_clauses.specs.Clauses.{HasVariable};
ghost use Rattle.ba_clauses.specs.Encodings.{IsEncoding, reading_by, is_false};
ghost use Rattle.ba_lits.specs.Satisfaction.{Assignment, all_true};

use crate::numbers::{literal, variables_of};
use crate::sides::add_nodes;
use crate::uses::uses_of;
use ba_items::Items;
use ba_lits::{Formula, Lit};
use ba_nodes::{Bit, Nodes};
use std::alloc::{AllocError, Global};

/// How the value of a bit is read from a model.
#[derive(Clone, Copy)]
pub enum Reading {
    /// It is this value in each model.
    Constant(bool),
    /// It is the value of a literal.
    Variable(Lit),
}

/// A formula, and how bits are read from its models.
#[derive(Drop)]
pub struct Encoding {
    /// The formula.
    pub formula: Formula,
    /// How each of the bits is read, in their order.
    pub readings: Items<Reading>,
}

/// The formula that some bits are all true, with the readings of others.
///
/// Its models are the assignments of the free bits under which all `required` bits are true. In a model each
/// bit of `read` has the value of its reading. A free bit without any use has no variable. A required negated
/// `and` is one clause of its operands.
///
/// The only error is out of memory.
pub fn clauses_of(
    alloc: Global,
    nodes: &Nodes,
    required: &[Bit],
    read: &[Bit],
) -> Result<Encoding, AllocError>
    requires required { All (IsBitOf nodes.now) required.now }
    requires read { All (IsBitOf nodes.now) read.now }
    ensures { IfOk result
        (λ encoding. IsEncoding nodes.now required.now read.now
        encoding.formula encoding.readings) }
{
    let nodes = nodes.as_slice();
    let uses = uses_of(alloc, nodes, required, read)?;
    let mut formula = first_clauses(alloc, required)?;
    let variables = variables_of(alloc, nodes, uses.as_slice(), &mut formula)?;
    add_nodes(
        alloc,
        &mut formula,
        nodes,
        uses.as_slice(),
        variables.as_slice(),
    )?;
    let readings = readings_of(alloc, formula.variables(), variables.as_slice(), read)?;
    Ok(Encoding {
        formula,
        readings: Items::from_vec(readings),
    })
}

/// The formula without variables. It has the empty clause if a constant among the bits is false.
fn first_clauses(alloc: Global, bits: &[Bit]) -> Result<Formula, AllocError>
    ensures variables { IfOk result (λ formula. formula.variables ≡ 0) }
    ensures holds { IfOk result (λ formula. (v : Assignment) →
        all_true v formula.clauses ≡ not (list_any is_false bits.now)) }
{
    let mut formula = Formula::new(alloc);
    if has_false(bits) {
        formula.push(&[])?;
    }
    Ok(formula)
}

/// Whether a constant among the bits is false.
fn has_false(bits: &[Bit]) -> bool
    ensures { result ≡ list_any is_false bits.now }
{
    bits.iter().any(|bit| bit.index == 0 && !bit.negated)
}

/// How bits are read.
fn readings_of(
    alloc: Global,
    bound: u64,
    variables: &[u64],
    read: &[Bit],
) -> Result<Vec<Reading>, AllocError>
    requires bound { bound < 2 ^ 62 }
    requires bits { All (λ bit. 0 < bit.index → HasVariable variables.now bound bit) read.now }
    ensures { IfOk result (λ readings. readings.items ≡
        map (reading_by (λ index. slice_index variables.now (index - 1))) read.now) }
{
    let mut readings = Vec::new(alloc);
    for bit in read {
        readings.push(reading_of(bound, variables, *bit))?;
    }
    Ok(readings)
}

/// How a bit is read.
fn reading_of(bound: u64, variables: &[u64], bit: Bit) -> Reading
    requires bound { bound < 2 ^ 62 }
    requires bit { 0 < bit.index → HasVariable variables.now bound bit }
    ensures { result ≡ reading_by (λ index. slice_index variables.now (index - 1)) bit }
{
    if bit.index == 0 {
        return Reading::Constant(bit.negated);
    }
    Reading::Variable(literal(bound, variables, bit))
}
