//! The nodes of a program, one after another.

ghost use Rattle.std.specs.Prelude.{ℕ, ◌≡◌, true, length, OnOk, slice_index_or};
ghost use Rattle.std.specs.List.{list_all};
ghost use Rattle.ba_code.specs.Facts.{is_array_info, is_take};
ghost use Rattle.ba_code_laws.specs.Tracing.{trace_node, trace_nodes};
ghost use Rattle.ba_guards.specs.Making.{AreFit, AreSides, Fits, IsFit, Means, are_right, picked, values_in};
ghost use Rattle.ba_guards.specs.Parts.{declared};
ghost use Rattle.ba_wordlist.specs.Facts.{are_names};
ghost use Rattle.ba_wordlist.specs.Meaning.{Assignment};

use crate::builder::{Builder, Sides};
use crate::choices::offered;
use crate::steps::{
    assert_nonzero, beyond, binary, convert, demand_index, fill, length_of, load, save, set, unary,
};
use ba_code::nodes::{ArrayInfo, Node, Take};
use ba_items::Items;
use std::alloc::{AllocError, Global};

/// Adds the words of nodes in a row.
#[cycle(walk)]
pub fn guard_nodes(
    alloc: Global,
    arrays: &[ArrayInfo],
    b: &mut Builder,
    nodes: &[Node],
) -> Result<(), AllocError>
    ensures { OnOk result ((vars : ℕ) → list_all is_array_info arrays.now ≡ true
        → Fits (declared vars arrays.now) b.old
        → AreFit (declared vars arrays.now) nodes.now
        → Means (declared vars arrays.now)
        (λ f r. trace_nodes r arrays.now nodes.now) b.old b.new) }
{
    for node in nodes {
        guard_node(alloc, arrays, b, node)?;
    }
    Ok(())
}

/// Adds the words of a node. There are none if the run never comes to it, and only one side's if a condition
/// is a constant.
#[cycle(walk)]
fn guard_node(
    alloc: Global,
    arrays: &[ArrayInfo],
    b: &mut Builder,
    node: &Node,
) -> Result<(), AllocError>
    ensures { OnOk result ((vars : ℕ) → list_all is_array_info arrays.now ≡ true
        → Fits (declared vars arrays.now) b.old
        → IsFit (declared vars arrays.now) node.now
        → Means (declared vars arrays.now) (λ f r. trace_node r arrays.now node.now) b.old b.new) }
{
    if b.words.is_zero(b.live) {
        return Ok(());
    }
    match node {
        Node::Pick { place, take, keep } => {
            let offer = offered(alloc, arrays, &mut b.words, *take)?;
            b.add_place(alloc, place, &offer)?;
            let fork = b.open(alloc, offer.keep)?;
            guard_nodes(alloc, arrays, b, keep.as_slice())?;
            let sides = b.switch(alloc, fork)?;
            take_values(arrays, b, *take, offer.values, &sides)?;
            b.join(alloc, sides)
        }
        Node::If { when, yes, no } => {
            let which = b.operand(*when)?;
            if b.words.is_met(which) {
                return guard_nodes(alloc, arrays, b, yes.as_slice());
            }
            if b.words.is_zero(which) {
                return guard_nodes(alloc, arrays, b, no.as_slice());
            }
            let fork = b.open(alloc, which)?;
            guard_nodes(alloc, arrays, b, yes.as_slice())?;
            let sides = b.switch(alloc, fork)?;
            guard_nodes(alloc, arrays, b, no.as_slice())?;
            b.join(alloc, sides)
        }
        Node::Block { label, body } => {
            b.begin_block(alloc, *label)?;
            guard_nodes(alloc, arrays, b, body.as_slice())?;
            b.end_block(alloc)
        }
        Node::Set { .. }
        | Node::Unary { .. }
        | Node::Binary { .. }
        | Node::Convert { .. }
        | Node::Load { .. }
        | Node::Save { .. }
        | Node::Fill { .. }
        | Node::Leave { .. }
        | Node::Loop { .. }
        | Node::Assert { .. }
        | Node::Beyond { .. } => guard_leaf(alloc, arrays, b, node),
    }
}

/// Adds the words of a node without nodes inside. Any other node is answered as out of memory.
#[inline(never)]
fn guard_leaf(
    alloc: Global,
    arrays: &[ArrayInfo],
    b: &mut Builder,
    node: &Node,
) -> Result<(), AllocError>
    ensures { OnOk result ((vars : ℕ) → list_all is_array_info arrays.now ≡ true
        → Fits (declared vars arrays.now) b.old
        → IsFit (declared vars arrays.now) node.now
        → Means (declared vars arrays.now) (λ f r. trace_node r arrays.now node.now) b.old b.new) }
{
    match node {
        Node::Set { to, from } => set(b, *to, *from),
        Node::Unary { to, op, t, a } => unary(b, *to, *op, *t, *a),
        Node::Binary {
            to,
            op,
            t,
            a,
            b: right,
            stmt,
        } => binary(b, *to, *op, *t, *a, *right, *stmt),
        Node::Convert { to, t, a } => convert(b, *to, *t, *a),
        Node::Load {
            to,
            array,
            index,
            stmt,
        } => load(b, arrays, *to, *array, *index, *stmt),
        Node::Save {
            array,
            index,
            value,
            stmt,
        } => save(b, arrays, *array, *index, *value, *stmt),
        Node::Fill { array, values } => fill(alloc, b, *array, values.as_slice()),
        Node::Leave { label } => b.leave(alloc, *label),
        Node::Loop { .. } => Ok(()),
        Node::Assert { when, stmt } => assert_nonzero(b, *when, *stmt),
        Node::Beyond { stmt } => beyond(b, *stmt),
        Node::Pick { .. } | Node::If { .. } | Node::Block { .. } => Err(AllocError),
    }
}

/// Does what the values of a choice do, which these words have, on the second side of a branch.
#[inline(never)]
pub fn take_values(
    arrays: &[ArrayInfo],
    b: &mut Builder,
    take: Take,
    values: Items<u32>,
    sides: &Sides,
) -> Result<(), AllocError>
    ensures { OnOk result ((vars : ℕ) → list_all is_array_info arrays.now ≡ true
        → Fits (declared vars arrays.now) b.old
        → is_take (declared vars arrays.now) take ≡ true
        → AreSides b.old.words sides.now → b.old.live ≡ sides.now.second
        → are_names (length b.old.words) values ≡ true
        → ((f : Assignment)
        → are_right (declared vars arrays.now) take (values_in b.old.words values f) ≡ true)
        → Means (declared vars arrays.now)
        (λ f r. picked (declared vars arrays.now) take (values_in b.old.words values f))
        b.old b.new) }
{
    match take {
        Take::Value { to, .. } => {
            b.assign(to, word_at(&values, 0))?;
            Ok(())
        }
        Take::Truth { to } => {
            b.assign(to, word_at(&values, 0))?;
            Ok(())
        }
        Take::Cell { array } => {
            let index = word_at(&values, 0);
            let value = word_at(&values, 1);
            demand_index(b, length_of(arrays, array), index)?;
            let version = b
                .words
                .write_second(b.arrays.at(array), index, value, sides)?;
            b.arrays.set(array, version);
            Ok(())
        }
        Take::Cells { array } => {
            let version = b.words.fill(b.arrays.at(array), values, b.live)?;
            b.arrays.set(array, version);
            Ok(())
        }
        Take::Nothing => Ok(()),
    }
}

/// The word of a value, and word 0 past the end.
fn word_at(values: &Items<u32>, index: usize) -> u32
    ensures { result ≡ slice_index_or values.now index 0 }
{
    if index < values.len() {
        values.as_slice()[index]
    } else {
        0
    }
}
