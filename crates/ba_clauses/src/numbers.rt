//! The variables of nodes.

ghost use Rattle.std.specs.Prelude.{◌≡◌, ◌^◌, ◌<◌, length, IfOk};
ghost use Rattle.ba_clauses.specs.Clauses.{literal_of, HasVariable};
ghost use Rattle.ba_clauses.specs.Sides.{has_variable, IsNumbering, IsNext};

use crate::uses::Use;
use ba_lits::{Formula, Lit};
use ba_nodes::{Bit, Node};
use std::alloc::{AllocError, Global};

/// The variables of nodes, in order: a new one for each node that has a variable, and 0 for any other.
///
/// The only error is out of memory.
pub fn variables_of(
    alloc: Global,
    nodes: &[Node],
    uses: &[Use],
    formula: &mut Formula,
) -> Result<Vec<u64>, AllocError>
    requires { length uses.now ≡ length nodes.now }
    ensures numbering { IfOk result
        (λ variables. IsNumbering nodes.now uses.now variables.items formula.new.variables) }
    ensures size { IfOk result (λ variables. length variables.items ≡ length nodes.now) }
    ensures clauses { formula.new.clauses ≡ formula.old.clauses }
{
    let mut variables = Vec::new(alloc);
    for number in 0..nodes.len() {
        let variable = next_variable(formula, has_variable(nodes[number], uses[number]))?;
        variables.push(variable)?;
    }
    Ok(variables)
}

/// The next variable if one is wanted, and else 0.
///
/// The only error is that there would be too many variables.
fn next_variable(formula: &mut Formula, wanted: bool) -> Result<u64, AllocError>
    ensures next { IfOk result (λ variable. IsNext formula.old formula.new wanted variable) }
    ensures clauses { formula.new.clauses ≡ formula.old.clauses }
{
    if wanted { formula.fresh() } else { Ok(0) }
}

/// Whether a node has a variable.
fn has_variable(node: Node, own: Use) -> bool
    ensures { result ≡ has_variable node own }
{
    match node {
        Node::Free(_) => own.is_used(),
        Node::And(_, _) => (own.positive || own.negative) && !own.merged,
        Node::Xor(_, _) | Node::Mux(_, _, _) | Node::Majority(_, _, _) => {
            own.positive || own.negative
        }
    }
}

/// The literal of a bit whose node has a variable below `bound`.
pub fn literal(bound: u64, variables: &[u64], bit: Bit) -> Lit
    requires bound { bound < 2 ^ 62 }
    requires bit { HasVariable variables.now bound bit }
    ensures { result ≡ literal_of variables.now bit }
{
    let lit = Lit::positive(variables[bit.index as usize - 1]);
    if bit.negated { lit.negated() } else { lit }
}
