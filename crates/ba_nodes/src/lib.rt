//! An and-inverter graph with structural hashing, with further kinds of gates. Source: A. Kuehlmann, V.
//! Paruthi, F. Krohm and M. K. Ganai, "Robust Boolean reasoning for equivalence checking and functional
//! property verification".
//!
//! Each node of a [`Nodes`] is a free bit, or the `and`, the exclusive `or`, the choice or the majority of
//! earlier bits. A negation is a flag of the bit that names a node. Constants, equal bits and opposite bits
//! are folded. Negations and the order of operands are moved out of a gate if possible, so that equal gates
//! are found.
#![tactic(auto)]

ghost use Rattle.std.specs.Prelude.{◌≡◌, ℕ, ◌+◌, ◌<◌, ◌≤◌, ◌^◌, ◌⊎◌, ◌==◌, ◌≢◌, Bool, true, false, not, ◌&&◌, ◌||◌, List, [], ◌∷◌, ◌++◌, length, slice_get, IfOk, OnOk, OnErr, IfSome, IsNone, Ok, Some, if◌then◌else◌};
ghost use Rattle.ba_nodes.specs.declared.Bit.{Bit};
ghost use Rattle.ba_nodes.specs.declared.Node.{Node};
ghost use Rattle.ba_nodes.specs.Gates.{bool_xor, bool_majority, constant_bit, node_bit, opposite, truth, node_truth, IsBitOf, gates_in, MayStandAt, AreOrdered, IsGateOf, IsMade, folded, Extends, HasValue, MakesBit, Puts, IsAbsent, weight};

use indexmap::IndexSet;
use std::alloc::{AllocError, Global};
use std::marker::Model;

/// A bit of a [`Nodes`]: a constant, or a node as it is or negated.
///
/// Index 0 is the constant: false as it is, true if it is negated. Index k + 1 is node number k.
#[derive(Clone, Copy, Debug, PartialEq, Eq, Hash)]
pub struct Bit {
    pub index: u32,
    pub negated: bool,
}

/// A node: a free bit, which names its own number, or a gate of earlier bits.
#[derive(Clone, Copy, Debug, PartialEq, Eq, Hash)]
pub enum Node {
    /// A free bit of this number.
    Free(u32),
    /// True if both are.
    And(Bit, Bit),
    /// True if just one of the two is.
    Xor(Bit, Bit),
    /// The value of the second if the first is true, and else that of the third.
    Mux(Bit, Bit, Bit),
    /// True if at least two of the three are.
    Majority(Bit, Bit, Bit),
}

/// The nodes in their order. A contract sees the list of the nodes.
pub struct Nodes {
    nodes: IndexSet<Node>,
    gates: u64,
}

impl Drop for Nodes {
    fn drop(self) {
        let Nodes { nodes: _, gates: _ } = self;
    }
}

impl Model for Nodes {
    ghost use Rattle.std.specs.Prelude.{List, ◌≡◌, ◌<◌, ◌^◌, length};
    ghost use Rattle.ba_nodes.specs.declared.Node.{Node};

    ghost Value = { List Node };

    ghost use Rattle.ba_nodes.specs.Gates.{AreOrdered, gates_in};

    ghost view = { λ n. n.nodes.keys };

    ghost invariant = { λ n. AreOrdered n.nodes.keys × (length n.nodes.keys < 2 ^ 32)
        × (n.gates ≡ gates_in n.nodes.keys) };
}

impl Nodes {
    /// No nodes. It takes no memory.
    pub fn new(alloc: Global) -> Nodes
        ensures { result ≡ [] }
    {
        Nodes {
            nodes: IndexSet::new(alloc),
            gates: 0,
        }
    }

    /// The bit that always has this value. It takes no memory.
    pub fn constant(value: bool) -> Bit
        ensures bit { result ≡ constant_bit value }
        ensures value { (nodes : List Node) → HasValue nodes result (λ free. value) }
    {
        Bit {
            index: 0,
            negated: value,
        }
    }

    /// The bit with the other value. It takes no memory.
    #[tactic(auto, using(crate::proofs::Constants::opposites))]
    pub fn not(a: Bit) -> Bit
        ensures bit { result ≡ opposite a }
        ensures value { (nodes : List Node) (free : ℕ → Bool) → truth free nodes result
            ≡ not (truth free nodes a) }
    {
        Bit {
            index: a.index,
            negated: !a.negated,
        }
    }

    /// How many gates there are, counted as and-gates. An `and` counts one, an exclusive `or`, a choice or a
    /// majority three, a free bit none. It takes no memory.
    pub fn count(&self) -> u64
        ensures { result ≡ gates_in self.now }
    {
        self.gates
    }

    /// The nodes in their order. A gate names earlier nodes, and no two nodes are the same. The bit of a node
    /// has the node's value ([`node_law`]). It takes no memory.
    pub fn as_slice(&self) -> &[Node]
        ensures nodes { result.now ≡ self.now }
        ensures ordered { AreOrdered self.now }
        ensures small { length self.now < 2 ^ 32 }
    {
        self.nodes.as_slice()
    }

    /// A new free bit, whose value an assignment gives by its node's number.
    ///
    /// The only error is out of memory, which leaves the nodes as they were.
    pub fn free(&mut self) -> Result<Bit, AllocError>
        ensures bit { IfOk result (λ bit. bit ≡ node_bit (length self.old)) }
        ensures value { IfOk result (λ bit.
            HasValue self.new bit (λ free. free (length self.old))) }
        ensures extends { Extends self.old self.new }
        ensures count { gates_in self.new ≡ gates_in self.old }
        ensures err { OnErr result (self.new ≡ self.old) }
    {
        let number = self.next_number()?;
        self.add(Node::Free(number))
    }

    /// The bit that is true if `a` and `b` both are, by at most one new gate. A gate of the same two bits is
    /// found again, in either order. Constants, equal bits and opposite bits need no gate.
    ///
    /// The only error is out of memory, which leaves the nodes as they were.
    pub fn and(&mut self, a: Bit, b: Bit) -> Result<Bit, AllocError>
        requires first { IsBitOf self.old a }
        requires second { IsBitOf self.old b }
        ensures makes { MakesBit self.old self.new result 1
            (λ free. truth free self.old a && truth free self.old b) }
        ensures again { (bit : Bit) → IsMade self.old a b bit → (result ≡ Ok bit)
            × (self.new ≡ self.old) }
        ensures made { IfOk result (IsMade self.new a b) }
        ensures err { OnErr result (self.new ≡ self.old) }
    {
        match folded(a, b) {
            Some(bit) => Ok(bit),
            None => self.gate(a, b),
        }
    }

    /// The bit that is true if one of `a` and `b` is, by at most one new gate.
    ///
    /// The only error is out of memory, which leaves the nodes as they were.
    pub fn or(&mut self, a: Bit, b: Bit) -> Result<Bit, AllocError>
        requires first { IsBitOf self.old a }
        requires second { IsBitOf self.old b }
        ensures makes { MakesBit self.old self.new result 1
            (λ free. truth free self.old a || truth free self.old b) }
        ensures err { OnErr result (self.new ≡ self.old) }
    {
        let neither = self.and(Nodes::not(a), Nodes::not(b))?;
        Ok(Nodes::not(neither))
    }

    /// The bit that is true if exactly one of `a` and `b` is, by at most one new gate, which counts three.
    ///
    /// The only error is out of memory, which leaves the nodes as they were.
    pub fn xor(&mut self, a: Bit, b: Bit) -> Result<Bit, AllocError>
        requires first { IsBitOf self.old a }
        requires second { IsBitOf self.old b }
        ensures makes { MakesBit self.old self.new result 3
            (λ free. bool_xor (truth free self.old a) (truth free self.old b)) }
        ensures err { OnErr result (self.new ≡ self.old) }
    {
        if a.index == 0 {
            return Ok(negated_if(b, a.negated));
        }
        if b.index == 0 {
            return Ok(negated_if(a, b.negated));
        }
        if a.index == b.index {
            return Ok(negated_if(Nodes::constant(a.negated), b.negated));
        }
        let gate = self.xor_gate(negated_if(a, a.negated), negated_if(b, b.negated))?;
        Ok(negated_if(negated_if(gate, a.negated), b.negated))
    }

    /// The value of `yes` if `which` is true, and else that of `no`, by at most one new gate, which counts
    /// three.
    ///
    /// The only error is out of memory, which leaves the nodes as they were.
    pub fn mux(&mut self, which: Bit, yes: Bit, no: Bit) -> Result<Bit, AllocError>
        requires chooser { IsBitOf self.old which }
        requires first { IsBitOf self.old yes }
        requires second { IsBitOf self.old no }
        ensures makes { MakesBit self.old self.new result 3
            (λ free. if truth free self.old which then truth free self.old yes
            else truth free self.old no) }
        ensures err { OnErr result (self.new ≡ self.old) }
    {
        if which.index == 0 {
            return Ok(if which.negated { yes } else { no });
        }
        let on = given(yes, which);
        let off = given(no, Nodes::not(which));
        self.choice(which, on, off)
    }

    /// The bit that is true if at least two of the three are, by at most one new gate, which counts three.
    ///
    /// The only error is out of memory, which leaves the nodes as they were.
    pub fn majority(&mut self, a: Bit, b: Bit, c: Bit) -> Result<Bit, AllocError>
        requires first { IsBitOf self.old a }
        requires second { IsBitOf self.old b }
        requires third { IsBitOf self.old c }
        ensures makes { MakesBit self.old self.new result 3
            (λ free. bool_majority (truth free self.old a) (truth free self.old b)
            (truth free self.old c)) }
        ensures err { OnErr result (self.new ≡ self.old) }
    {
        if a.index > b.index {
            return self.majority_above(b, a, c);
        }
        self.majority_above(a, b, c)
    }

    /// The majority of three bits, the first two of which are in order.
    fn majority_above(&mut self, a: Bit, b: Bit, c: Bit) -> Result<Bit, AllocError>
        requires first { IsBitOf self.old a }
        requires second { IsBitOf self.old b }
        requires third { IsBitOf self.old c }
        requires order { a.index ≤ b.index }
        ensures makes { MakesBit self.old self.new result 3
            (λ free. bool_majority (truth free self.old a) (truth free self.old b)
            (truth free self.old c)) }
        ensures err { OnErr result (self.new ≡ self.old) }
    {
        if c.index < a.index {
            return self.ordered_majority(c, a, b);
        }
        if c.index < b.index {
            return self.ordered_majority(a, c, b);
        }
        self.ordered_majority(a, b, c)
    }

    /// The majority of three bits in their order.
    fn ordered_majority(&mut self, a: Bit, b: Bit, c: Bit) -> Result<Bit, AllocError>
        requires first { IsBitOf self.old a }
        requires second { IsBitOf self.old b }
        requires third { IsBitOf self.old c }
        requires lower { a.index ≤ b.index }
        requires upper { b.index ≤ c.index }
        ensures makes { MakesBit self.old self.new result 3
            (λ free. bool_majority (truth free self.old a) (truth free self.old b)
            (truth free self.old c)) }
        ensures err { OnErr result (self.new ≡ self.old) }
    {
        if a.index == 0 {
            return self.settled(b, c, a.negated);
        }
        if a.index == b.index {
            return Ok(if a.negated == b.negated { a } else { c });
        }
        if b.index == c.index {
            return Ok(if b.negated == c.negated { b } else { a });
        }
        let negated = two_of(a.negated, b.negated, c.negated);
        let (a, b, c) = (
            negated_if(a, negated),
            negated_if(b, negated),
            negated_if(c, negated),
        );
        let gate = self.add(Node::Majority(a, b, c))?;
        Ok(negated_if(gate, negated))
    }

    /// The `or` of two bits, or their `and`.
    fn settled(&mut self, a: Bit, b: Bit, one_is_enough: bool) -> Result<Bit, AllocError>
        requires first { IsBitOf self.old a }
        requires second { IsBitOf self.old b }
        ensures makes { MakesBit self.old self.new result 1
            (λ free. bool_majority one_is_enough (truth free self.old a) (truth free self.old b)) }
        ensures err { OnErr result (self.new ≡ self.old) }
    {
        if one_is_enough {
            self.or(a, b)
        } else {
            self.and(a, b)
        }
    }

    /// The choice between two bits of other nodes than that of `which`.
    fn choice(&mut self, which: Bit, yes: Bit, no: Bit) -> Result<Bit, AllocError>
        requires chooser { IsBitOf self.old which }
        requires first { IsBitOf self.old yes }
        requires second { IsBitOf self.old no }
        requires some { 0 < which.index }
        requires first_apart { which.index ≢ yes.index }
        requires second_apart { which.index ≢ no.index }
        ensures makes { MakesBit self.old self.new result 3
            (λ free. if truth free self.old which then truth free self.old yes
            else truth free self.old no) }
        ensures err { OnErr result (self.new ≡ self.old) }
    {
        if yes.index == no.index {
            return self.choice_of_one(which, yes, no);
        }
        if yes.index == 0 {
            return self.unless(which, yes.negated, no);
        }
        if no.index == 0 {
            return self.unless(Nodes::not(which), no.negated, yes);
        }
        if which.negated {
            self.mux_gate(Nodes::not(which), no, yes)
        } else {
            self.mux_gate(which, yes, no)
        }
    }

    /// The choice between two bits of one node.
    fn choice_of_one(&mut self, which: Bit, yes: Bit, no: Bit) -> Result<Bit, AllocError>
        requires chooser { IsBitOf self.old which }
        requires first { IsBitOf self.old yes }
        requires second { IsBitOf self.old no }
        requires same { yes.index ≡ no.index }
        ensures makes { MakesBit self.old self.new result 3
            (λ free. if truth free self.old which then truth free self.old yes
            else truth free self.old no) }
        ensures err { OnErr result (self.new ≡ self.old) }
    {
        if yes.negated == no.negated {
            return Ok(yes);
        }
        self.xor(which, no)
    }

    /// `value` if `which` is true, and else the value of `other`.
    fn unless(&mut self, which: Bit, value: bool, other: Bit) -> Result<Bit, AllocError>
        requires first { IsBitOf self.old which }
        requires second { IsBitOf self.old other }
        ensures makes { MakesBit self.old self.new result 1
            (λ free. if truth free self.old which then value else truth free self.old other) }
        ensures err { OnErr result (self.new ≡ self.old) }
    {
        if value {
            self.or(which, other)
        } else {
            self.and(Nodes::not(which), other)
        }
    }

    /// The gate that chooses between bits of other nodes. If `yes` is negated, the whole gate is negated
    /// instead.
    fn mux_gate(&mut self, which: Bit, yes: Bit, no: Bit) -> Result<Bit, AllocError>
        requires chooser { (0 < which.index) × IsBitOf self.old which }
        requires first { (0 < yes.index) × IsBitOf self.old yes }
        requires second { (0 < no.index) × IsBitOf self.old no }
        requires first_apart { which.index ≢ yes.index }
        requires second_apart { which.index ≢ no.index }
        requires third_apart { yes.index ≢ no.index }
        ensures makes { MakesBit self.old self.new result 3
            (λ free. if truth free self.old which then truth free self.old yes
            else truth free self.old no) }
        ensures err { OnErr result (self.new ≡ self.old) }
    {
        let negated = yes.negated;
        let gate = self.add(Node::Mux(which, negated_if(yes, negated), negated_if(no, negated)))?;
        Ok(negated_if(gate, negated))
    }

    /// The exclusive `or` of two bits of different nodes.
    fn xor_gate(&mut self, a: Bit, b: Bit) -> Result<Bit, AllocError>
        requires first { (0 < a.index) × IsBitOf self.old a }
        requires second { (0 < b.index) × IsBitOf self.old b }
        requires apart { a.index ≢ b.index }
        ensures makes { MakesBit self.old self.new result 3
            (λ free. bool_xor (truth free self.old a) (truth free self.old b)) }
        ensures err { OnErr result (self.new ≡ self.old) }
    {
        if a.index < b.index {
            self.add(Node::Xor(a, b))
        } else {
            self.add(Node::Xor(b, a))
        }
    }

    /// The `and` of two bits that need a gate.
    fn gate(&mut self, a: Bit, b: Bit) -> Result<Bit, AllocError>
        requires first { IsBitOf self.old a }
        requires second { IsBitOf self.old b }
        requires needed { IsNone (folded a b) }
        ensures makes { MakesBit self.old self.new result 1
            (λ free. truth free self.old a && truth free self.old b) }
        ensures again { (number : ℕ) → IsGateOf self.old number a b
            → (result ≡ Ok (node_bit number)) × (self.new ≡ self.old) }
        ensures made { IfOk result (λ bit. (number : ℕ) × (bit ≡ node_bit number)
            × IsGateOf self.new number a b) }
        ensures err { OnErr result (self.new ≡ self.old) }
    {
        if a.index < b.index {
            self.add(Node::And(a, b))
        } else {
            self.add(Node::And(b, a))
        }
    }

    /// The bit of a node, which is added if it is not there.
    fn add(&mut self, node: Node) -> Result<Bit, AllocError>
        requires { MayStandAt (length self.old) node }
        ensures ordered { AreOrdered self.new }
        ensures puts { OnOk result (Puts self.old node self.new) }
        ensures makes { MakesBit self.old self.new result (weight node)
            (λ free. node_truth free self.old node) }
        ensures again { (number : ℕ) → slice_get self.old number ≡ Some node
            → (result ≡ Ok (node_bit number)) × (self.new ≡ self.old) }
        ensures made { IfOk result (λ bit. (number : ℕ) × (bit ≡ node_bit number)
            × (slice_get self.new number ≡ Some node)) }
        ensures err { OnErr result (self.new ≡ self.old) }
    {
        let before = self.nodes.len();
        let number = put(&mut self.nodes, node)?;
        self.gates += node.gates_more(before < self.nodes.len());
        Ok(bit_of(number))
    }

    /// The number of the next node, if there is one left.
    fn next_number(&self) -> Result<u32, AllocError>
        ensures { IfOk result (λ number. number ≡ length self.now) }
    {
        let number = self.nodes.len();
        if number >= u32::MAX as usize {
            return Err(AllocError);
        }
        Ok(number as u32)
    }
}

impl Node {
    /// How many gates more there are, counted as and-gates, after the node was added or found.
    fn gates_more(&self, added: bool) -> u64
        ensures { result ≡ (if added then weight self.now else 0) }
    {
        if !added {
            return 0;
        }
        match self {
            Node::Free(_) => 0,
            Node::And(_, _) => 1,
            Node::Xor(_, _) | Node::Mux(_, _, _) | Node::Majority(_, _, _) => 3,
        }
    }
}

/// Law: among the nodes that [`Nodes::as_slice`] gives, the bit of a node has the node's value. That follows
/// from the values of the bits that the node names.
pub fn node_law()
    ensures { (free : ℕ → Bool) (nodes : List Node) (number : ℕ) (node : Node) →
        AreOrdered nodes → slice_get nodes number ≡ Some node →
        truth free nodes (node_bit number) ≡ node_truth free nodes node }
{}

/// Law: nodes added later extend all earlier ones. An `and` that was made is found among later nodes, also
/// with its bits in the other order.
pub fn extension_law()
    ensures through { (old middle new : List Node) → Extends old middle → Extends middle new
        → Extends old new }
    ensures made_stays { (old new : List Node) (a b bit : Bit) → Extends old new
        → IsMade old a b bit → IsMade new a b bit }
    ensures made_turned { (nodes : List Node) (a b bit : Bit) → IsMade nodes a b bit
        → IsMade nodes b a bit }
{}

/// The bit, negated if `negated` is true.
fn negated_if(bit: Bit, negated: bool) -> Bit
    ensures index { result.index ≡ bit.index }
    ensures value { (nodes : List Node) (free : ℕ → Bool) → truth free nodes result
        ≡ bool_xor negated (truth free nodes bit) }
{
    if negated { Nodes::not(bit) } else { bit }
}

/// What `bit` is if `which` is true: a constant, if both are of one node.
fn given(bit: Bit, which: Bit) -> Bit
    requires { 0 < which.index }
    ensures apart { which.index ≢ result.index }
    ensures bits { (nodes : List Node) → IsBitOf nodes bit → IsBitOf nodes result }
    ensures value { (nodes : List Node) (free : ℕ → Bool) → truth free nodes which ≡ true
        → truth free nodes result ≡ truth free nodes bit }
{
    if bit.index == which.index {
        Nodes::constant(bit.negated == which.negated)
    } else {
        bit
    }
}

/// Whether at least two of the three are true.
fn two_of(a: bool, b: bool, c: bool) -> bool
    ensures { result ≡ bool_majority a b c }
{
    if a { b || c } else { b && c }
}

/// The bit of the `and` of `a` and `b` that needs no gate, if there is one.
fn folded(a: Bit, b: Bit) -> Option<Bit>
    ensures { result ≡ folded a b }
{
    if a.index == 0 {
        return Some(if a.negated { b } else { a });
    }
    if b.index == 0 {
        return Some(if b.negated { a } else { b });
    }
    if a.index != b.index {
        return None;
    }
    let opposite = a.negated != b.negated;
    Some(if opposite { Nodes::constant(false) } else { a })
}

/// The number of the node, which is added if it is not there.
fn put(nodes: &mut IndexSet<Node>, node: Node) -> Result<usize, AllocError>
    requires { length nodes.old.keys < 2 ^ 32 }
    ensures ok { IfOk result (λ number. (slice_get nodes.new.keys number ≡ Some node)
        × Puts nodes.old.keys node nodes.new.keys) }
    ensures small { length nodes.new.keys < 2 ^ 32 }
    ensures err { OnErr result ((nodes.new.keys ≡ nodes.old.keys) × IsAbsent nodes.old.keys node) }
{
    if nodes.len() >= u32::MAX as usize {
        return nodes.get_index_of(&node).ok_or(AllocError);
    }
    let (number, _) = nodes.insert_full(node)?;
    Ok(number)
}

/// The bit of the node of this number.
fn bit_of(number: usize) -> Bit
    requires { number + 1 < 2 ^ 32 }
    ensures { result ≡ node_bit number }
{
    Bit {
        index: number as u32 + 1,
        negated: false,
    }
}
