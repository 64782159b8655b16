//! The needs of each node.

ghost use Rattle.std.specs.Prelude.{◌≡◌, ℕ, ◌+◌, ◌-◌, ◌<◌, ◌≤◌, ◌||◌, true, false, [], ◌∷◌, length, map, IfOk, All, slice_get, Some};
ghost use Rattle.ba_nodes.specs.declared.Node.{Node};
ghost use Rattle.ba_nodes.specs.Gates.{IsBitOf, AreOrdered, MayStandAt};
ghost use Rattle.ba_clauses.specs.Uses.{no_use, is_used, with_operand, with_asked, IsServed, AreServed, NeedMoreBelow, Asks, IsRead, AreUses, IsPassedOn};

use ba_nodes::{Bit, Node};
use std::alloc::{AllocError, Global};

/// What is needed of a node: that its literal implies its value, for each of the two values apart; and that
/// it has a value.
#[derive(Clone, Copy)]
pub struct Use {
    /// If its literal is true the node must be true.
    pub positive: bool,
    /// If its literal is false the node must be false.
    pub negative: bool,
    /// The node must be true.
    pub required: bool,
    /// The node must be false.
    pub refused: bool,
    /// It is used once, as a conjunct of an `and`, without negation.
    pub merged: bool,
}

impl Use {
    /// No use.
    pub const NONE: Use = Use {
        positive: false,
        negative: false,
        required: false,
        refused: false,
        merged: false,
    };

    /// Whether anything is needed of the node.
    pub fn is_used(self) -> bool
        ensures { result ≡ is_used self }
    {
        self.positive || self.negative || self.required || self.refused
    }

    /// The use if the bit of the node, negated or not, must be true.
    fn with_asked(self, negated: bool) -> Use
        ensures { result ≡ with_asked self negated }
    {
        Use {
            required: self.required || !negated,
            refused: self.refused || negated,
            merged: false,
            ..self
        }
    }

    /// The use if a gate has the node's bit, negated or not, as an operand. If `positive`, its literal must
    /// imply the operand; if `negative`, the negated literal the negated operand. An `and` has it as a
    /// conjunct.
    fn with_operand(self, negated: bool, positive: bool, negative: bool, conjunct: bool) -> Use
        ensures { result ≡ with_operand self negated positive negative conjunct }
    {
        if negated {
            Use {
                positive: self.positive || negative,
                negative: self.negative || positive,
                merged: false,
                ..self
            }
        } else {
            Use {
                positive: self.positive || positive,
                negative: self.negative || negative,
                merged: conjunct && !self.is_used(),
                ..self
            }
        }
    }
}

/// The needs of all nodes if some bits must be true and some are read.
///
/// The only error is out of memory.
pub fn uses_of(
    alloc: Global,
    nodes: &[Node],
    required: &[Bit],
    read: &[Bit],
) -> Result<Vec<Use>, AllocError>
    requires ordered { AreOrdered nodes.now }
    requires required { All (IsBitOf nodes.now) required.now }
    requires read { All (IsBitOf nodes.now) read.now }
    ensures { IfOk result (λ uses. AreUses nodes.now required.now read.now uses.items) }
{
    let mut uses = unused(alloc, nodes)?;
    need_all(&mut uses, nodes, required, read);
    Ok(uses)
}

/// Enters all needs, starting from none.
fn need_all(uses: &mut [Use], nodes: &[Node], required: &[Bit], read: &[Bit])
    requires unused { uses.old ≡ map (λ node. no_use) nodes.now }
    requires ordered { AreOrdered nodes.now }
    requires required { All (IsBitOf nodes.now) required.now }
    requires read { All (IsBitOf nodes.now) read.now }
    ensures { AreUses nodes.now required.now read.now uses.new }
{
    ask_all(uses, required);
    read_all(uses, read);
    pass_on_all(uses, nodes);
}

/// Nothing is needed of any node.
fn unused(alloc: Global, nodes: &[Node]) -> Result<Vec<Use>, AllocError>
    ensures { IfOk result (λ uses. uses.items ≡ map (λ node. no_use) nodes.now) }
{
    nodes.iter().map(|_| Use::NONE).collect(alloc)
}

/// Bits must be true.
fn ask_all(uses: &mut [Use], bits: &[Bit])
    requires { All (λ bit. bit.index ≤ length uses.old) bits.now }
    ensures { Asks bits.now uses.old uses.new }
{
    for bit in bits {
        ask(uses, *bit);
    }
}

/// A bit must be true.
fn ask(uses: &mut [Use], bit: Bit)
    requires { bit.index ≤ length uses.old }
    ensures { Asks (bit ∷ []) uses.old uses.new }
{
    if bit.index > 0 {
        let number = bit.index as usize - 1;
        uses[number] = uses[number].with_asked(bit.negated);
    }
}

/// Bits are read.
fn read_all(uses: &mut [Use], bits: &[Bit])
    requires { All (λ bit. bit.index ≤ length uses.old) bits.now }
    ensures read { All (IsRead uses.new) bits.now }
    ensures more { NeedMoreBelow (length uses.old) uses.old uses.new }
{
    for bit in bits {
        read(uses, *bit);
    }
}

/// A bit is read.
fn read(uses: &mut [Use], bit: Bit)
    requires { bit.index ≤ length uses.old }
    ensures read { IsRead uses.new bit }
    ensures more { NeedMoreBelow (length uses.old) uses.old uses.new }
{
    if bit.index > 0 {
        demand(uses, bit, true, true, false);
    }
}

/// Passes the needs of each node on to its operands, from the last node down to the first.
fn pass_on_all(uses: &mut [Use], nodes: &[Node])
    requires size { length uses.old ≡ length nodes.now }
    requires ordered { AreOrdered nodes.now }
    ensures passed { (number : ℕ) (node : Node) → slice_get nodes.now number ≡ Some node →
        IsPassedOn uses.new number node }
    ensures more { NeedMoreBelow (length uses.old) uses.old uses.new }
{
    for number in (0..nodes.len()).rev() {
        pass_on(uses, number, nodes[number]);
    }
}

/// A gate has a bit as an operand.
fn demand(uses: &mut [Use], bit: Bit, positive: bool, negative: bool, conjunct: bool)
    requires node { 0 < bit.index }
    requires among { bit.index ≤ length uses.old }
    requires some { (positive || negative) ≡ true }
    ensures served { IsServed uses.new bit positive negative conjunct }
    ensures more { NeedMoreBelow bit.index uses.old uses.new }
{
    let number = bit.index as usize - 1;
    uses[number] = uses[number].with_operand(bit.negated, positive, negative, conjunct);
}

/// Passes the needs of a node on to its operands.
fn pass_on(uses: &mut [Use], number: usize, node: Node)
    requires among { number < length uses.old }
    requires stands { MayStandAt number node }
    ensures passed { IsPassedOn uses.new number node }
    ensures more { NeedMoreBelow number uses.old uses.new }
{
    let own = uses[number];
    let positive = own.positive || own.required;
    let negative = own.negative || own.refused;
    if positive || negative {
        demand_operands(uses, number, node, positive, negative);
    }
}

/// Enters the operands of a gate, if these sides of it are needed.
fn demand_operands(uses: &mut [Use], number: usize, node: Node, positive: bool, negative: bool)
    requires among { number < length uses.old }
    requires stands { MayStandAt number node }
    requires some { (positive || negative) ≡ true }
    ensures served { AreServed uses.new node positive negative }
    ensures more { NeedMoreBelow number uses.old uses.new }
{
    match node {
        Node::Free(_) => {}
        Node::And(a, b) => {
            demand(uses, a, positive, negative, true);
            demand(uses, b, positive, negative, true);
        }
        Node::Xor(a, b) => {
            demand(uses, a, true, true, false);
            demand(uses, b, true, true, false);
        }
        Node::Mux(which, yes, no) => {
            demand(uses, which, true, true, false);
            demand(uses, yes, positive, negative, false);
            demand(uses, no, positive, negative, false);
        }
        Node::Majority(a, b, c) => {
            demand(uses, a, positive, negative, false);
            demand(uses, b, positive, negative, false);
            demand(uses, c, positive, negative, false);
        }
    }
}
