//! Gates as clauses see them.

ghost use Rattle.std.specs.Prelude.{◌≡◌, ◌≢◌, ℕ, ◌+◌, ◌-◌, ◌<◌, ◌≤◌, ◌&&◌, ◌||◌, Bool, true, false, List, [], ◌∷◌, length, map, IfOk, OnOk, MatchOption, All, Some, slice_get, if◌then◌else◌};
ghost use Rattle.ba_nodes.specs.declared.Node.{Node};
ghost use Rattle.ba_nodes.specs.declared.Node.TheVariants.{And};
ghost use Rattle.ba_nodes.specs.Gates.{opposite, truth};
ghost use Rattle.ba_clauses.specs.Clauses.{all_of, gate_value, operands_of};
ghost use Rattle.ba_clauses.specs.Uses.{use_at, is_side};
ghost use Rattle.ba_clauses.specs.Sides.{ArePassedOn, is_taken_in, IsConjunct, IsLeaf, IsOperand, IsOfNode, Expands};

use crate::uses::Use;
use ba_nodes::{Bit, Node, Nodes};
use std::alloc::{AllocError, Global};

/// A gate over bits.
#[derive(Drop)]
pub enum Gate {
    /// True if all of the bits are.
    All(Vec<Bit>),
    /// True if one of the bits is.
    Any(Vec<Bit>),
    /// True if just one of the two is.
    Xor(Bit, Bit),
    /// The value of the second if the first is true, and else that of the third.
    Mux(Bit, Bit, Bit),
    /// True if at least two of the three are.
    Majority(Bit, Bit, Bit),
}

/// The gate of a bit in use. An `and` merges those operands that are `and`s used there alone.
///
/// The only error is out of memory.
pub fn gate_of(alloc: Global, nodes: &[Node], uses: &[Use], bit: Bit) -> Result<Gate, AllocError>
    requires graph { ArePassedOn nodes.now uses.now }
    requires node { 0 < bit.index }
    requires among { bit.index ≤ length nodes.now }
    requires side { is_side (use_at uses.now (bit.index - 1)) bit.negated ≡ true }
    ensures value { IfOk result (λ gate. (free : ℕ → Bool) →
        gate_value (truth free nodes.now) gate ≡ truth free nodes.now bit) }
    ensures operands { IfOk result (λ gate. All (IsOperand nodes.now uses.now (bit.index - 1))
        (operands_of gate)) }
{
    let negated = bit.negated;
    match nodes[bit.index as usize - 1] {
        Node::Free(_) => Ok(Gate::All(single(alloc, bit)?)),
        Node::And(a, b) => {
            let conjuncts = conjuncts_of(alloc, nodes, uses, a, b)?;
            if negated {
                Ok(Gate::Any(opposites(alloc, conjuncts.as_slice())?))
            } else {
                Ok(Gate::All(conjuncts))
            }
        }
        Node::Xor(a, b) => Ok(Gate::Xor(negated_if(a, negated), b)),
        Node::Mux(which, yes, no) => Ok(Gate::Mux(
            which,
            negated_if(yes, negated),
            negated_if(no, negated),
        )),
        Node::Majority(a, b, c) => Ok(Gate::Majority(
            negated_if(a, negated),
            negated_if(b, negated),
            negated_if(c, negated),
        )),
    }
}

/// The bit alone.
fn single(alloc: Global, bit: Bit) -> Result<Vec<Bit>, AllocError>
    ensures { IfOk result (λ bits. bits.items ≡ bit ∷ []) }
{
    let mut bits = Vec::new(alloc);
    bits.push(bit)?;
    Ok(bits)
}

/// The operands of an `and`, with those of the `and`s that it merges.
fn conjuncts_of(
    alloc: Global,
    nodes: &[Node],
    uses: &[Use],
    a: Bit,
    b: Bit,
) -> Result<Vec<Bit>, AllocError>
    requires graph { ArePassedOn nodes.now uses.now }
    requires first { IsOfNode nodes.now a }
    requires second { IsOfNode nodes.now b }
    ensures value { IfOk result (λ bits. (free : ℕ → Bool) →
        all_of (truth free nodes.now) bits.items ≡
        (truth free nodes.now a && truth free nodes.now b)) }
    ensures leaves { IfOk result (λ bits. (number : ℕ) (positive negative : Bool) →
        (positive || negative) ≡ true →
        IsConjunct uses.now number positive negative a →
        IsConjunct uses.now number positive negative b →
        All (IsLeaf nodes.now uses.now number positive negative) bits.items) }
{
    let mut conjuncts = Vec::new(alloc);
    let mut left = Vec::new(alloc);
    left.push(b)?;
    left.push(a)?;
    while let Some(bit) = left.pop() {
        expand(nodes, uses, bit, &mut left, &mut conjuncts)?;
    }
    Ok(conjuncts)
}

/// Finds a conjunct, or merges it and leaves its operands.
fn expand(
    nodes: &[Node],
    uses: &[Use],
    bit: Bit,
    left: &mut Vec<Bit>,
    conjuncts: &mut Vec<Bit>,
) -> Result<(), AllocError>
    requires size { length uses.now ≡ length nodes.now }
    requires bit { IsOfNode nodes.now bit }
    ensures { OnOk result (Expands nodes.now uses.now bit
        left.old.items conjuncts.old.items left.new.items conjuncts.new.items) }
{
    match operands_taken_in(nodes, uses, bit) {
        Some((first, second)) => {
            left.push(second)?;
            left.push(first)?;
            Ok(())
        }
        None => {
            conjuncts.push(bit)?;
            Ok(())
        }
    }
}

/// The operands of an `and`, if the `and` that uses it merges it.
fn operands_taken_in(nodes: &[Node], uses: &[Use], bit: Bit) -> Option<(Bit, Bit)>
    requires size { length uses.now ≡ length nodes.now }
    requires bit { IsOfNode nodes.now bit }
    ensures { MatchOption result
        ((node : Node) → slice_get nodes.now (bit.index - 1) ≡ Some node →
        is_taken_in bit node (use_at uses.now (bit.index - 1)) ≡ false)
        (λ pair. (bit.negated ≡ false) × ((use_at uses.now (bit.index - 1)).merged ≡ true) ×
        (slice_get nodes.now (bit.index - 1) ≡ Some (And pair.0 pair.1))) }
{
    let number = bit.index as usize - 1;
    if bit.negated || !uses[number].merged {
        return None;
    }
    match nodes[number] {
        Node::And(a, b) => Some((a, b)),
        Node::Free(_) | Node::Xor(_, _) | Node::Mux(_, _, _) | Node::Majority(_, _, _) => None,
    }
}

/// The opposites of bits.
fn opposites(alloc: Global, bits: &[Bit]) -> Result<Vec<Bit>, AllocError>
    ensures { IfOk result (λ others. others.items ≡ map opposite bits.now) }
{
    let mut others = Vec::new(alloc);
    for bit in bits {
        others.push(Nodes::not(*bit))?;
    }
    Ok(others)
}

/// The bit, negated if `negated` is true.
fn negated_if(bit: Bit, negated: bool) -> Bit
    ensures { result ≡ (if negated then opposite bit else bit) }
{
    if negated { Nodes::not(bit) } else { bit }
}
