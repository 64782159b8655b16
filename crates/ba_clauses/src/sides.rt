//! The clauses of nodes.

ghost use Rattle.std.specs.Prelude.{◌≡◌, ℕ, ◌+◌, ◌-◌, ◌<◌, ◌≤◌, ◌^◌, Bool, true, length, OnOk, All};
ghost use Rattle.ba_clauses.specs.Clauses.{IsLiteralOf};
ghost use Rattle.ba_clauses.specs.Uses.{use_at, is_side, node_side};
ghost use Rattle.ba_clauses.specs.Sides.{ArePassedOn, IsNumbering, Tells, HeadOrBit, IsAskedTrue, IsImpliedTrue, IsSound, TellsUpTo, free_of};

use crate::clauses::imply;
use crate::gates::gate_of;
use crate::numbers::literal;
use crate::uses::Use;
use ba_lits::{Formula, Lit};
use ba_nodes::{Bit, Node};
use std::alloc::{AllocError, Global};

/// Adds the clauses of all nodes.
///
/// The only error is out of memory.
pub fn add_nodes(
    alloc: Global,
    formula: &mut Formula,
    nodes: &[Node],
    uses: &[Use],
    variables: &[u64],
) -> Result<(), AllocError>
    requires graph { ArePassedOn nodes.now uses.now }
    requires size { length variables.now ≡ length nodes.now }
    requires numbering { IsNumbering nodes.now uses.now variables.now formula.old.variables }
    ensures { OnOk result (TellsUpTo nodes.now uses.now variables.now (length nodes.now)
        formula.old formula.new) }
{
    for number in 0..nodes.len() {
        add_node(alloc, formula, nodes, uses, variables, number)?;
    }
    Ok(())
}

/// Adds the clauses of a node.
fn add_node(
    alloc: Global,
    formula: &mut Formula,
    nodes: &[Node],
    uses: &[Use],
    variables: &[u64],
    number: usize,
) -> Result<(), AllocError>
    requires graph { ArePassedOn nodes.now uses.now }
    requires size { length variables.now ≡ length nodes.now }
    requires numbering { IsNumbering nodes.now uses.now variables.now formula.old.variables }
    requires among { number < length nodes.now }
    ensures { OnOk result (Tells nodes.now uses.now variables.now number formula.old formula.new
        (λ v. IsSound nodes.now uses.now variables.now v number)
        (λ free v. IsAskedTrue nodes.now uses.now free number)) }
{
    add_asked(alloc, formula, nodes, uses, variables, number)?;
    add_implied(alloc, formula, nodes, uses, variables, number)
}

/// Adds clauses that say: the sides of a node that must be true are true.
fn add_asked(
    alloc: Global,
    formula: &mut Formula,
    nodes: &[Node],
    uses: &[Use],
    variables: &[u64],
    number: usize,
) -> Result<(), AllocError>
    requires graph { ArePassedOn nodes.now uses.now }
    requires size { length variables.now ≡ length nodes.now }
    requires numbering { IsNumbering nodes.now uses.now variables.now formula.old.variables }
    requires among { number < length nodes.now }
    ensures { OnOk result (Tells nodes.now uses.now variables.now number formula.old formula.new
        (λ v. IsAskedTrue nodes.now uses.now (free_of variables.now v) number)
        (λ free v. IsAskedTrue nodes.now uses.now free number)) }
{
    let own = uses[number];
    imply_where(
        own.required,
        alloc,
        formula,
        nodes,
        uses,
        variables,
        &[],
        number,
        false,
    )?;
    imply_where(
        own.refused,
        alloc,
        formula,
        nodes,
        uses,
        variables,
        &[],
        number,
        true,
    )
}

/// Adds clauses that say: the literals of a node's sides imply these, as far as needed.
fn add_implied(
    alloc: Global,
    formula: &mut Formula,
    nodes: &[Node],
    uses: &[Use],
    variables: &[u64],
    number: usize,
) -> Result<(), AllocError>
    requires graph { ArePassedOn nodes.now uses.now }
    requires size { length variables.now ≡ length nodes.now }
    requires numbering { IsNumbering nodes.now uses.now variables.now formula.old.variables }
    requires among { number < length nodes.now }
    ensures { OnOk result (Tells nodes.now uses.now variables.now number formula.old formula.new
        (λ v. IsImpliedTrue nodes.now uses.now variables.now v number)
        (λ free v. Unit {0})) }
{
    if variables[number] == 0 {
        return Ok(());
    }
    let own = uses[number];
    let lit = literal(formula.variables(), variables, side(number, false));
    imply_where(
        own.positive,
        alloc,
        formula,
        nodes,
        uses,
        variables,
        &[lit.negated()],
        number,
        false,
    )?;
    imply_where(
        own.negative,
        alloc,
        formula,
        nodes,
        uses,
        variables,
        &[lit],
        number,
        true,
    )
}

/// Adds clauses that say: a literal of `head` or a side of a node is true; if they are needed.
fn imply_where(
    needed: bool,
    alloc: Global,
    formula: &mut Formula,
    nodes: &[Node],
    uses: &[Use],
    variables: &[u64],
    head: &[Lit],
    number: usize,
    negated: bool,
) -> Result<(), AllocError>
    requires graph { ArePassedOn nodes.now uses.now }
    requires size { length variables.now ≡ length nodes.now }
    requires numbering { IsNumbering nodes.now uses.now variables.now formula.old.variables }
    requires head { All (IsLiteralOf formula.old.variables) head.now }
    requires among { number < length nodes.now }
    requires side { needed ≡ true → is_side (use_at uses.now number) negated ≡ true }
    ensures { OnOk result (Tells nodes.now uses.now variables.now number formula.old formula.new
        (λ v. needed ≡ true → HeadOrBit nodes.now head.now (node_side number negated)
        (free_of variables.now v) v)
        (λ free v. needed ≡ true → HeadOrBit nodes.now head.now
        (node_side number negated) free v)) }
{
    if needed {
        imply_side(
            alloc, formula, nodes, uses, variables, head, number, negated,
        )
    } else {
        Ok(())
    }
}

/// Adds clauses that say: a literal of `head` or a side of a node is true.
fn imply_side(
    alloc: Global,
    formula: &mut Formula,
    nodes: &[Node],
    uses: &[Use],
    variables: &[u64],
    head: &[Lit],
    number: usize,
    negated: bool,
) -> Result<(), AllocError>
    requires graph { ArePassedOn nodes.now uses.now }
    requires size { length variables.now ≡ length nodes.now }
    requires numbering { IsNumbering nodes.now uses.now variables.now formula.old.variables }
    requires head { All (IsLiteralOf formula.old.variables) head.now }
    requires among { number < length nodes.now }
    requires side { is_side (use_at uses.now number) negated ≡ true }
    ensures { OnOk result (Tells nodes.now uses.now variables.now number formula.old formula.new
        (λ v. HeadOrBit nodes.now head.now (node_side number negated) (free_of variables.now v) v)
        (λ free v. HeadOrBit nodes.now head.now (node_side number negated) free v)) }
{
    let bit = side(number, negated);
    let gate = gate_of(alloc, nodes, uses, bit)?;
    imply(alloc, formula, variables, head, &gate)
}

/// The bit of the node of a number, or its negation.
fn side(number: usize, negated: bool) -> Bit
    requires { number + 1 < 2 ^ 32 }
    ensures { result ≡ node_side number negated }
{
    Bit {
        index: number as u32 + 1,
        negated,
    }
}
