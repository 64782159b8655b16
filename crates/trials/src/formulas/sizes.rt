//! The sizes of trees and formulas.

use ba_code::nodes::Node;
use ba_lits::Formula;

/// How many literals the clauses of a formula have.
pub fn literals_in(formula: &Formula) -> u64 {
    let mut count: u64 = 0;
    for place in 0..formula.len() {
        count = count.saturating_add(formula.clause(place + 1).len() as u64);
    }
    count
}

/// How many nodes there are, those inside of others among them.
#[cycle(nodes)]
pub fn nodes_in(nodes: &[Node]) -> u64 {
    let mut count: u64 = 0;
    for node in nodes {
        count = count.saturating_add(nodes_of(node));
    }
    count
}

/// How many nodes a node is, with those inside of it.
#[cycle(nodes)]
fn nodes_of(node: &Node) -> u64 {
    let inside = match node {
        Node::Set { .. }
        | Node::Unary { .. }
        | Node::Binary { .. }
        | Node::Convert { .. }
        | Node::Load { .. }
        | Node::Save { .. }
        | Node::Fill { .. }
        | Node::Leave { .. }
        | Node::Assert { .. }
        | Node::Beyond { .. } => 0,
        Node::Pick { keep, .. } => nodes_in(keep.as_slice()),
        Node::If { yes, no, .. } => nodes_in(yes.as_slice()).saturating_add(nodes_in(
            no.as_slice(),
        )),
        Node::Block { body, .. } => nodes_in(body.as_slice()),
        Node::Loop {
            head,
            body,
            step,
            ..
        } => nodes_in(head.as_slice())
            .saturating_add(nodes_in(body.as_slice()))
            .saturating_add(nodes_in(step.as_slice())),
    };
    inside.saturating_add(1)
}
