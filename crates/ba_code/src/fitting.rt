//! Whether the parts of a program without calls fit together, and whether its variables and arrays keep to
//! their types.

ghost use Rattle.std.specs.Prelude.{◌≡◌, ◌==◌, ◌∷◌, false, nat_lt, map, length, slice_get, IfOk, MatchOption};
ghost use Rattle.std.specs.List.{list_all, list_any};
ghost use Rattle.ba_code.specs.Facts.{are_inside, fits_inside, is_array_info, is_loop_tree, is_operand, is_param, is_take};
ghost use Rattle.ba_code.specs.Meaning.{info_at};
ghost use Rattle.ba_code.specs.Run.{code_of_loops};
ghost use Rattle.ba_code.specs.Types.{all_typed, can_hold, has_type, is_typed, is_within, takes_type};
ghost use Rattle.ba_tree.specs.Facts.{holds};
ghost use Rattle.ba_numbers.specs.Types.{is_promoted, shifts, type_of_binary, type_of_unary};

use crate::nodes::{ArrayInfo, Node, Operand, Param, Take};
use crate::trees::{Code, LoopTree};
use ba_numbers::numbers::CType;
use ba_numbers::types::{is_promoted, shifts, type_of_binary, type_of_unary};
use std::alloc::{AllocError, Global};

/// The declaration of an array, or one without elements if it isn't declared.
fn info_at(arrays: &[ArrayInfo], array: u32) -> ArrayInfo
    ensures { result ≡ info_at arrays.now array }
{
    match arrays.get(array as usize) {
        Some(info) => *info,
        None => ArrayInfo {
            len: 0,
            t: CType::I32,
        },
    }
}

// WHETHER ALL NUMBERS ARE DECLARED

/// Whether the variable is declared.
fn is_var(vars: u32, var: u32) -> bool
    ensures { result ≡ nat_lt var vars }
{
    var < vars
}

/// Whether the array is declared.
fn is_array(arrays: &[ArrayInfo], array: u32) -> bool
    ensures { result ≡ nat_lt array (length arrays.now) }
{
    (array as usize) < arrays.len()
}

/// Whether the operand is a constant in the range of `I32` or of `U32`, or a declared variable.
fn is_operand(vars: u32, arrays: &[ArrayInfo], operand: Operand) -> bool
    ensures { result ≡ is_operand (record { vars = vars; arrays = arrays.now }) operand }
{
    match operand {
        Operand::Const(value) => CType::I32.contains(value) || CType::U32.contains(value),
        Operand::Var(var) => is_var(vars, var),
    }
}

/// Whether all operands are so.
fn are_operands(vars: u32, arrays: &[ArrayInfo], operands: &[Operand]) -> bool
    ensures { result
        ≡ list_all (is_operand (record { vars = vars; arrays = arrays.now })) operands.now }
{
    operands
        .iter()
        .all(|operand| is_operand(vars, arrays, *operand))
}

/// Whether what the values of a choice change is declared.
fn is_take(vars: u32, arrays: &[ArrayInfo], take: Take) -> bool
    ensures { result ≡ is_take (record { vars = vars; arrays = arrays.now }) take }
{
    match take {
        Take::Value { to, .. } | Take::Truth { to } => is_var(vars, to),
        Take::Cell { array } | Take::Cells { array } => is_array(arrays, array),
        Take::Nothing => true,
    }
}

/// The labels of the blocks around the contents of a block, innermost first.
fn inside(alloc: Global, label: u32, labels: &[u32]) -> Result<Vec<u32>, AllocError>
    ensures { IfOk result (λ inside. inside.items ≡ label ∷ labels.now) }
{
    let mut inside = Vec::new(alloc);
    inside.push(label)?;
    inside.extend_from_slice(labels)?;
    Ok(inside)
}

/// Whether a label is one of these.
fn is_among(labels: &[u32], label: u32) -> bool
    ensures { result ≡ list_any (λ other. other == label) labels.now }
{
    labels.iter().any(|other| *other == label)
}

/// Whether a node inside blocks of these labels fits the declarations.
#[cycle(fits)]
#[tactic(auto, unfolding(crate::specs::Facts::fits_inside))]
fn node_fits(
    alloc: Global,
    vars: u32,
    arrays: &[ArrayInfo],
    labels: &[u32],
    node: &Node,
) -> Result<bool, AllocError>
    ensures { IfOk result (λ fits.
        fits ≡ fits_inside (record { vars = vars; arrays = arrays.now }) node.now labels.now) }
{
    match node {
        Node::Set { to, from } => Ok(is_var(vars, *to) & is_operand(vars, arrays, *from)),
        Node::Unary { to, t, a, .. } => {
            Ok(is_var(vars, *to) & is_promoted(*t) & is_operand(vars, arrays, *a))
        }
        Node::Binary { to, t, a, b, .. } => Ok(
            is_var(vars, *to)
                & is_promoted(*t)
                & is_operand(vars, arrays, *a)
                & is_operand(vars, arrays, *b),
        ),
        Node::Convert { to, a, .. } => Ok(is_var(vars, *to) & is_operand(vars, arrays, *a)),
        Node::Load {
            to,
            array,
            index,
            ..
        } => Ok(is_var(vars, *to) & is_array(arrays, *array) & is_operand(vars, arrays, *index)),
        Node::Save {
            array,
            index,
            value,
            ..
        } => Ok(
            is_array(arrays, *array)
                & is_operand(vars, arrays, *index)
                & is_operand(vars, arrays, *value),
        ),
        Node::Fill { array, values } => Ok(
            is_array(arrays, *array)
                & are_operands(vars, arrays, values.as_slice())
                & (values.len() == info_at(arrays, *array).len as usize),
        ),
        Node::Pick { take, keep, .. } => {
            let kept = all_fit(alloc, vars, arrays, labels, keep.as_slice())?;
            Ok(is_take(vars, arrays, *take) & kept)
        }
        Node::If { when, yes, no } => {
            let first = all_fit(alloc, vars, arrays, labels, yes.as_slice())?;
            let second = all_fit(alloc, vars, arrays, labels, no.as_slice())?;
            Ok(is_operand(vars, arrays, *when) & first & second)
        }
        Node::Block { label, body } => {
            let around = inside(alloc, *label, labels)?;
            all_fit(alloc, vars, arrays, around.as_slice(), body.as_slice())
        }
        Node::Leave { label } => Ok(is_among(labels, *label)),
        Node::Loop {
            head,
            when,
            body,
            step,
            ..
        } => {
            let first = all_fit(alloc, vars, arrays, labels, head.as_slice())?;
            let second = all_fit(alloc, vars, arrays, labels, body.as_slice())?;
            let third = all_fit(alloc, vars, arrays, labels, step.as_slice())?;
            Ok(is_operand(vars, arrays, *when) & first & second & third)
        }
        Node::Assert { when, .. } => Ok(is_operand(vars, arrays, *when)),
        Node::Beyond { .. } => Ok(true),
    }
}

/// Whether nodes inside blocks of these labels fit the declarations.
#[cycle(fits)]
fn all_fit(
    alloc: Global,
    vars: u32,
    arrays: &[ArrayInfo],
    labels: &[u32],
    nodes: &[Node],
) -> Result<bool, AllocError>
    ensures { IfOk result (λ fit. fit ≡ are_inside labels.now
        (map (fits_inside (record { vars = vars; arrays = arrays.now })) nodes.now)) }
{
    for node in nodes {
        if !node_fits(alloc, vars, arrays, labels, node)? {
            return Ok(false);
        }
    }
    Ok(true)
}

/// Whether an array has 1 to 256 elements.
fn is_array_info(info: &ArrayInfo) -> bool
    ensures { result ≡ is_array_info info.now }
{
    1 <= info.len && info.len <= 256
}

/// Whether the variable or array of a parameter is declared.
fn is_param(vars: u32, arrays: &[ArrayInfo], param: Param) -> bool
    ensures { result ≡ is_param (record { vars = vars; arrays = arrays.now }) param }
{
    match param {
        Param::Var(var) => is_var(vars, var),
        Param::Array(array) => is_array(arrays, array),
    }
}

/// Whether each array has 1 to 256 elements.
fn are_array_infos(arrays: &[ArrayInfo]) -> bool
    ensures { result ≡ list_all is_array_info arrays.now }
{
    arrays.iter().all(|info| is_array_info(info))
}

/// Whether the variables and arrays of parameters are declared.
fn are_params(vars: u32, arrays: &[ArrayInfo], params: &[Param]) -> bool
    ensures { result
        ≡ list_all (is_param (record { vars = vars; arrays = arrays.now })) params.now }
{
    params.iter().all(|param| is_param(vars, arrays, *param))
}

/// Whether the parts fit together as a program without calls.
#[tactic(auto, unfolding(crate::specs::Facts::is_loop_tree))]
fn is_loop_tree(alloc: Global, code: &Code) -> Result<bool, AllocError>
    ensures { IfOk result (λ fit. fit ≡ is_loop_tree code.now) }
{
    let arrays = code.arrays.as_slice();
    let body = all_fit(alloc, code.vars, arrays, &[], code.body.as_slice())?;
    Ok(are_array_infos(arrays) & are_params(code.vars, arrays, code.params.as_slice()) & body)
}

/// The program without calls of these parts, or `None` exactly if they do not fit together. The only error is
/// out of memory.
pub fn loop_tree_of(alloc: Global, code: Code) -> Result<Option<LoopTree>, AllocError>
    ensures { IfOk result (λ made.
        MatchOption made (is_loop_tree code ≡ false) (λ tree. code_of_loops tree ≡ code)) }
{
    if !is_loop_tree(alloc, &code)? {
        return Ok(None);
    }
    Ok(Some(LoopTree {
        vars: code.vars,
        arrays: code.arrays,
        params: code.params,
        body: code.body,
    }))
}

// WHETHER VARIABLES KEEP TO THEIR TYPES

/// Whether the numbers of the first type are numbers of the second.
fn is_within(a: CType, b: CType) -> bool
    ensures { result ≡ is_within a b }
{
    match (a, b) {
        (CType::I8, CType::I8 | CType::I16 | CType::I32)
        | (CType::U8, CType::U8 | CType::I16 | CType::U16 | CType::I32 | CType::U32)
        | (CType::I16, CType::I16 | CType::I32)
        | (CType::U16, CType::U16 | CType::I32 | CType::U32)
        | (CType::I32, CType::I32)
        | (CType::U32, CType::U32) => true,
        _ => false,
    }
}

/// Whether the variable can hold each number of the type.
fn can_hold(vars: &[CType], arrays: &[ArrayInfo], var: u32, t: CType) -> bool
    ensures { result ≡ can_hold (record { vars = vars.now; arrays = arrays.now }) var t }
{
    match vars.get(var as usize) {
        Some(own) => is_within(t, *own),
        None => false,
    }
}

/// Whether the operand's value is in the range of the type.
fn has_type(vars: &[CType], arrays: &[ArrayInfo], t: CType, operand: Operand) -> bool
    ensures { result ≡ has_type (record { vars = vars.now; arrays = arrays.now }) t operand }
{
    match operand {
        Operand::Const(value) => t.contains(value),
        Operand::Var(var) => match vars.get(var as usize) {
            Some(own) => is_within(*own, t),
            None => false,
        },
    }
}

/// Whether all operands' values are in the range of the type.
fn have_type(vars: &[CType], arrays: &[ArrayInfo], t: CType, operands: &[Operand]) -> bool
    ensures { result
        ≡ list_all (has_type (record { vars = vars.now; arrays = arrays.now }) t) operands.now }
{
    operands
        .iter()
        .all(|operand| has_type(vars, arrays, t, *operand))
}

/// Whether the variable can hold the value that it gets.
fn sets_type(vars: &[CType], arrays: &[ArrayInfo], to: u32, from: Operand) -> bool
    ensures { result
        ≡ holds (λ t. has_type (record { vars = vars.now; arrays = arrays.now }) t from)
        (slice_get vars.now to) }
{
    match vars.get(to as usize) {
        Some(own) => has_type(vars, arrays, *own, from),
        None => false,
    }
}

/// Whether what a choice changes can hold the values.
fn takes_type(vars: &[CType], arrays: &[ArrayInfo], take: Take) -> bool
    ensures { result ≡ takes_type (record { vars = vars.now; arrays = arrays.now }) take }
{
    match take {
        Take::Value { to, t } => can_hold(vars, arrays, to, t),
        Take::Truth { to } => (to as usize) < vars.len(),
        Take::Cell { .. } | Take::Cells { .. } | Take::Nothing => true,
    }
}

/// Whether each variable and each array keeps to its type in a node.
#[cycle(typed)]
#[tactic(auto, unfolding(crate::specs::Types::is_typed))]
fn is_typed(vars: &[CType], arrays: &[ArrayInfo], node: &Node) -> bool
    ensures { result ≡ is_typed (record { vars = vars.now; arrays = arrays.now }) node.now }
{
    match node {
        Node::Set { to, from } => sets_type(vars, arrays, *to, *from),
        Node::Unary { to, op, t, a } => {
            has_type(vars, arrays, *t, *a) & can_hold(vars, arrays, *to, type_of_unary(*op, *t))
        }
        Node::Binary {
            to,
            op,
            t,
            a,
            b,
            ..
        } => {
            has_type(vars, arrays, *t, *a)
                & (shifts(*op) | has_type(vars, arrays, *t, *b))
                & can_hold(vars, arrays, *to, type_of_binary(*op, *t))
        }
        Node::Convert { to, t, .. } => can_hold(vars, arrays, *to, *t),
        Node::Load { to, array, .. } => can_hold(vars, arrays, *to, info_at(arrays, *array).t),
        Node::Save { array, value, .. } => {
            has_type(vars, arrays, info_at(arrays, *array).t, *value)
        }
        Node::Fill { array, values } => {
            have_type(vars, arrays, info_at(arrays, *array).t, values.as_slice())
        }
        Node::Pick { take, keep, .. } => {
            takes_type(vars, arrays, *take) & are_typed(vars, arrays, keep.as_slice())
        }
        Node::If { yes, no, .. } => {
            are_typed(vars, arrays, yes.as_slice()) & are_typed(vars, arrays, no.as_slice())
        }
        Node::Block { body, .. } => are_typed(vars, arrays, body.as_slice()),
        Node::Leave { .. } | Node::Assert { .. } | Node::Beyond { .. } => true,
        Node::Loop {
            head,
            body,
            step,
            ..
        } => {
            are_typed(vars, arrays, head.as_slice())
                & are_typed(vars, arrays, body.as_slice())
                & are_typed(vars, arrays, step.as_slice())
        }
    }
}

/// Whether each variable keeps to this type in the nodes, and each array to its own. Then operators find
/// their operands in the range of their types.
#[cycle(typed)]
pub fn are_typed(vars: &[CType], arrays: &[ArrayInfo], nodes: &[Node]) -> bool
    ensures { result
        ≡ all_typed (map (is_typed (record { vars = vars.now; arrays = arrays.now })) nodes.now) }
{
    for node in nodes {
        if !is_typed(vars, arrays, node) {
            return false;
        }
    }
    true
}
