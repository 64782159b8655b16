//! The entry of a `switch` by flags of the code, which are variables that have 0 or 1.

ghost use Rattle.std.specs.Prelude.{◌≡◌, ℕ, ◌≤◌, ◌∷◌, [], map, length, pos, slice_index_or, IfOk, OnOk};
ghost use Rattle.std.specs.Bool.{OnTrue};
ghost use Rattle.std.specs.List.{list_any};
ghost use Rattle.std.specs.Ordering.{int_eq};
ghost use Rattle.ba_code.specs.State.{operand_value};
ghost use Rattle.ba_inline.specs.Adding.{if_act};
ghost use Rattle.ba_inline.specs.Flags.{AreBetween, IsBetween, IsEither, IsLater, IsNone};
ghost use Rattle.ba_inline.specs.Flags.{MakesFlag, MakesFlags, MakesFrom};
ghost use Rattle.ba_inline.specs.Labels.{IsDefault, IsJoined, entry_flags, stands_at, tests_of};
ghost use Rattle.ba_inline.specs.Making.{Adds};
ghost use Rattle.ba_inline.specs.Names.{IsBelow};
ghost use Rattle.ba_inline.specs.Switching.{GoesOn};
ghost use Rattle.ba_tree.specs.Facts.{values_differ};
ghost use Rattle.ba_tree.specs.Meaning.{label_at};
ghost use Rattle.ba_tree.specs.declared.tree.Start.{Start};

use crate::declared::Declared;
use crate::emit::add;
use ba_code::nodes::{Node, Operand};
use ba_numbers::ids::StmtId;
use ba_numbers::numbers::{BinOp, CType, UnOp};
use ba_tree::tree::Start;
use std::alloc::{AllocError, Global};

/// The labels of a `switch`: its controlling expression, its type, the `case` labels, and the index of
/// `default`.
#[derive(Clone, Copy)]
pub struct Labels<'a> {
    pub stmt: StmtId,
    pub t: CType,
    pub starts: &'a [Start],
    pub other: Option<u32>,
}

/// Whether one of these labels has the value of another.
fn has_value(starts: &[Start], other: Start) -> bool
    ensures { result ≡ list_any (λ (start : Start). int_eq start.value other.value) starts.now }
{
    starts.iter().any(|start| start.value == other.value)
}

/// Whether no two labels have the same value.
fn values_differ(starts: &[Start]) -> bool
    ensures { result ≡ values_differ (map (λ (start : Start). start.value) starts.now) }
{
    for (place, start) in starts.iter().enumerate() {
        let (_, others) = starts.split_at(place + 1);
        if has_value(others, *start) {
            return false;
        }
    }
    true
}

/// A flag that tells whether an operand has the value of a label.
fn equals(
    declared: &mut Declared,
    out: &mut Vec<Node>,
    stmt: StmtId,
    t: CType,
    a: Operand,
    start: Start,
) -> Result<Operand, AllocError>
    ensures { IfOk result (λ flag. (base : ℕ) → base ≤ length declared.old.vars
        → MakesFlag (λ s. int_eq start.value (operand_value s a)) base flag
        declared.old declared.new out.old.items out.new.items) }
{
    let to = declared.variable(CType::I32)?;
    add(
        out,
        Node::Binary {
            to,
            op: BinOp::Eq,
            t,
            a: Operand::Const(start.value),
            b: a,
            stmt,
        },
    )?;
    Ok(Operand::Var(to))
}

/// Whether an operand is the constant 0.
fn is_never(operand: Operand) -> bool
    ensures { OnTrue result (operand ≡ Operand.Const (pos 0)) }
{
    match operand {
        Operand::Const(value) => value == 0,
        Operand::Var(_) => false,
    }
}

/// A flag that tells whether one of two flags is set.
fn either(
    declared: &mut Declared,
    out: &mut Vec<Node>,
    stmt: StmtId,
    a: Operand,
    b: Operand,
) -> Result<Operand, AllocError>
    ensures { IfOk result (λ flag. (base : ℕ) → base ≤ length declared.old.vars
        → IsBetween base (length declared.old.vars) b
        → MakesFrom (λ s u. IsEither (operand_value s a) (operand_value s b) (operand_value u flag))
        base flag declared.old declared.new out.old.items out.new.items) }
{
    if is_never(a) {
        return Ok(b);
    }
    let to = declared.variable(CType::I32)?;
    add(
        out,
        Node::Binary {
            to,
            op: BinOp::Or,
            t: CType::I32,
            a,
            b,
            stmt,
        },
    )?;
    Ok(Operand::Var(to))
}

/// For each label, a flag that tells whether an operand has its value.
fn tests(
    alloc: Global,
    declared: &mut Declared,
    out: &mut Vec<Node>,
    labels: &Labels,
    a: Operand,
) -> Result<Vec<Operand>, AllocError>
    ensures { IfOk result (λ tests. (base : ℕ) → base ≤ length declared.old.vars
        → IsBelow (length declared.old.vars) a
        → MakesFlags (λ s. tests_of labels.now.starts.now (operand_value s a)) base tests.items
        declared.old declared.new out.old.items out.new.items) }
{
    let mut tests = Vec::with_capacity(alloc, labels.starts.len())?;
    for start in labels.starts {
        tests.push(equals(declared, out, labels.stmt, labels.t, a, *start)?)?;
    }
    Ok(tests)
}

/// A flag that tells whether none of these flags is set.
fn none_of(
    declared: &mut Declared,
    out: &mut Vec<Node>,
    stmt: StmtId,
    flags: &[Operand],
) -> Result<Operand, AllocError>
    ensures { IfOk result (λ flag. (base : ℕ) → base ≤ length declared.old.vars
        → AreBetween base (length declared.old.vars) flags.now
        → MakesFrom (λ s u. IsNone (map (operand_value s) flags.now) (operand_value u flag))
        base flag declared.old declared.new out.old.items out.new.items) }
{
    let mut any = Operand::Const(0);
    for flag in flags {
        any = either(declared, out, stmt, any, *flag)?;
    }
    let to = declared.variable(CType::I32)?;
    add(
        out,
        Node::Unary {
            to,
            op: UnOp::IsZero,
            t: CType::I32,
            a: any,
        },
    )?;
    Ok(Operand::Var(to))
}

/// A flag that tells whether none of the tests of the labels passes. It is only used if there is a `default`.
fn default_flag(
    declared: &mut Declared,
    out: &mut Vec<Node>,
    labels: &Labels,
    tests: &[Operand],
) -> Result<Operand, AllocError>
    ensures { IfOk result (λ flag. (base : ℕ) → base ≤ length declared.old.vars
        → AreBetween base (length declared.old.vars) tests.now
        → MakesFrom (λ s u. IsDefault labels.now.other (map (operand_value s) tests.now)
        (operand_value u flag)) base flag
        declared.old declared.new out.old.items out.new.items) }
{
    match labels.other {
        Some(_) => none_of(declared, out, labels.stmt, tests),
        None => Ok(Operand::Const(0)),
    }
}

/// The first flag; or, if the condition holds, a flag that tells whether one of both is set.
fn either_where(
    declared: &mut Declared,
    out: &mut Vec<Node>,
    stmt: StmtId,
    holds: bool,
    a: Operand,
    b: Operand,
) -> Result<Operand, AllocError>
    ensures { IfOk result (λ flag. (base : ℕ) → base ≤ length declared.old.vars
        → AreBetween base (length declared.old.vars) (a ∷ b ∷ [])
        → MakesFrom (λ s u. IsLater holds (operand_value s a) (operand_value s b)
        (operand_value u flag)) base flag
        declared.old declared.new out.old.items out.new.items) }
{
    if holds {
        return either(declared, out, stmt, a, b);
    }
    Ok(a)
}

/// Whether `default` is at an index.
fn stands_at(other: Option<u32>, place: usize) -> bool
    ensures { result ≡ stands_at other place }
{
    match other {
        Some(at) => at as usize == place,
        None => false,
    }
}

/// A flag that tells whether the `switch` is entered before an index, or at it. `before` is the flag for the
/// first of these.
fn joined(
    declared: &mut Declared,
    out: &mut Vec<Node>,
    labels: &Labels,
    tests: &[Operand],
    none: Operand,
    before: Operand,
    place: usize,
) -> Result<Operand, AllocError>
    ensures { IfOk result (λ flag. (base : ℕ) → base ≤ length declared.old.vars
        → AreBetween base (length declared.old.vars) (before ∷ none ∷ tests.now)
        → MakesFrom (λ s u. IsJoined labels.now.starts.now labels.now.other place
        (map (operand_value s) tests.now) (operand_value s none) (operand_value s before)
        (operand_value u flag)) base flag
        declared.old declared.new out.old.items out.new.items) }
{
    let mut flag = before;
    for (index, start) in labels.starts.iter().enumerate() {
        let is_here = start.at as usize == place;
        let test = flag_at(tests, index);
        flag = either_where(declared, out, labels.stmt, is_here, flag, test)?;
    }
    let is_here = stands_at(labels.other, place);
    either_where(declared, out, labels.stmt, is_here, flag, none)
}

/// For each of `count` statements, a flag that tells whether the `switch` is entered before it. In a program
/// no two labels have the same value.
#[inline(never)]
pub fn entry_flags(
    alloc: Global,
    declared: &mut Declared,
    out: &mut Vec<Node>,
    labels: &Labels,
    a: Operand,
    count: usize,
) -> Result<Vec<Operand>, AllocError>
    ensures long { IfOk result (λ flags. length flags.items ≡ count) }
    ensures made { IfOk result (λ flags. (base : ℕ) → base ≤ length declared.old.vars
        → IsBelow (length declared.old.vars) a
        → MakesFlags (λ s. entry_flags
        (label_at labels.now.starts.now (operand_value s a) labels.now.other) 0 count)
        base flags.items declared.old declared.new out.old.items out.new.items) }
{
    if !values_differ(labels.starts) {
        return Err(AllocError);
    }
    let tests = tests(alloc, declared, out, labels, a)?;
    let none = default_flag(declared, out, labels, tests.as_slice())?;
    let mut flags = Vec::with_capacity(alloc, count)?;
    let mut flag = Operand::Const(0);
    for place in 0..count {
        flag = joined(declared, out, labels, tests.as_slice(), none, flag, place)?;
        flags.push(flag)?;
    }
    Ok(flags)
}

/// The flag of the statement at this index.
pub fn flag_at(flags: &[Operand], place: usize) -> Operand
    ensures { result ≡ slice_index_or flags.now place (Operand.Const (pos 0)) }
{
    match flags.get(place) {
        Some(flag) => *flag,
        None => Operand::Const(0),
    }
}

/// Nodes that run if a flag is set.
#[derive(Drop)]
pub struct Group {
    pub when: Operand,
    pub nodes: Vec<Node>,
}

/// The group of the nodes that run by this flag. It is the present group if the flag is the same. Else it is
/// a new one, and the present group is appended.
pub fn group_for(
    alloc: Global,
    out: &mut Vec<Node>,
    group: Group,
    flag: Operand,
) -> Result<Group, AllocError>
    ensures { IfOk result (λ next. GoesOn flag group.when next.when
        group.nodes.items next.nodes.items out.old.items out.new.items) }
{
    if is_same(flag, group.when) {
        return Ok(group);
    }
    let Group { when, nodes } = group;
    add_where(alloc, out, when, nodes)?;
    Ok(Group {
        when: flag,
        nodes: Vec::new(alloc),
    })
}

/// Appends nodes, to run if a flag is set.
#[inline(never)]
pub fn add_where(
    alloc: Global,
    out: &mut Vec<Node>,
    when: Operand,
    nodes: Vec<Node>,
) -> Result<(), AllocError>
    ensures { OnOk result (Adds out.old.items out.new.items (if_act when nodes.items [])) }
{
    if is_never(when) || nodes.is_empty() {
        return Ok(());
    }
    add(
        out,
        Node::If {
            when,
            yes: nodes,
            no: Vec::new(alloc),
        },
    )
}

/// Whether two operands are the same.
fn is_same(a: Operand, b: Operand) -> bool
    ensures { OnTrue result (a ≡ b) }
{
    match (a, b) {
        (Operand::Const(y), Operand::Const(z)) => y == z,
        (Operand::Var(m), Operand::Var(n)) => m == n,
        _ => false,
    }
}
