//! What is inferred of an expression, from what is inferred of its operands (C90 6.3).

ghost use Rattle.std.specs.Prelude.{◌≡◌, ◌&&◌, [], ◌∷◌, List, Some, cond, option_map, IfOk};
ghost use Rattle.ba_numbers.specs.Numbers.{value_of_one};
ghost use Rattle.ba_numbers.specs.Types.{same_type, type_of_unary};
ghost use Rattle.ba_typing.specs.Expressions.{Typed, TypedCall, array_of, element_type, placeholder, operator_over, typed_binary, typed_called, typed_cast, typed_constant, typed_element, typed_name, typed_named, typed_select, typed_unary, typed_value, typed_with, tree_as, value_as, variable_tree, variable_type};
ghost use Rattle.ba_expressions.specs.Inferring.{AreOperands, Infers, InfersCall};
ghost use Rattle.ba_typing.specs.Names.{is_array_object};
ghost use Rattle.ba_tree.specs.Trees.{convert, tree_of_expr, unary};
ghost use Rattle.ba_typing.specs.declared.fault.Fault.{Fault};
ghost use Rattle.ba_typing.specs.declared.names.Operator.TheVariants.{AndAlso, OrElse};

use crate::values::{value_as, value_of, value_of_one};
use crate::{trees, values};
use ba_numbers::ids::{At, CallId, FnId, VarId};
use ba_numbers::numbers::{BinOp, CType, UnOp};
use ba_numbers::types::{
    promoted, right_type, same_type, type_of_binary, type_of_unary, usual, working_type,
};
use ba_tree::tree::{Arg, Expr, Shape};
use ba_typing::meanings::{Meaning, Object};
use ba_typing::names::Operator;
use ba_typing::text::Text;
use std::alloc::{AllocError, Global};

/// What is inferred of an expression:
/// - the position of its first token
/// - the name that it is, in parentheses or not
/// - its height
/// - whether it is constant (C90 6.4)
/// - its type and its typed tree
/// - its value if it is constant, `None` if it traps
#[derive(Drop)]
pub struct Inferred<'a> {
    pub first: At,
    pub name: Option<Text<'a>>,
    pub height: u32,
    pub is_constant: bool,
    pub t: CType,
    pub expr: Expr,
    pub value: Option<i64>,
}

/// What is inferred of a call: its number; the function, and the type that it returns; the arguments; and
/// their greatest height.
#[derive(Drop)]
pub struct InferredCall {
    pub call: CallId,
    pub function: FnId,
    pub result: CType,
    pub args: Vec<Arg>,
    pub height: u32,
}

/// What an operator keeps of its operands: their greatest height, and whether all are constant.
#[derive(Clone, Copy)]
pub struct Operands {
    pub tallest: u32,
    pub are_constant: bool,
}

impl Operands {
    /// No operand.
    fn none() -> Operands
        ensures { AreOperands result [] }
    {
        Operands {
            tallest: 0,
            are_constant: true,
        }
    }

    /// The operands with one more before them.
    fn behind(self, a: &Inferred) -> Operands
        ensures { (s : Typed) (es : List Typed) → Infers a.now s → AreOperands self es →
            AreOperands result (s ∷ es) }
    {
        Operands {
            tallest: a.height.max(self.tallest),
            are_constant: both(a.is_constant, self.are_constant),
        }
    }
}

/// Whether both are true.
fn both(a: bool, b: bool) -> bool
    ensures { result ≡ (a && b) }
{
    a && b
}

impl<'a> Inferred<'a> {
    /// The typed tree of the expression converted to a type (C90 6.2.1). A conversion is made only if it
    /// changes the type.
    ///
    /// The only error is out of memory.
    pub fn into_tree(self, alloc: Global, t: CType) -> Result<Expr, AllocError>
        ensures { IfOk result (λ e. (s : Typed) → Infers self.entry s →
            tree_of_expr e ≡ tree_as t s) }
    {
        let from = self.t;
        tree_as(alloc, from, t, self.expr)
    }

    /// The expression, as this name.
    fn called(self, name: Text<'a>) -> Inferred<'a>
        ensures { (s : Typed) → Infers self.entry s
            → Infers result (record s { name = Some name.entry }) }
    {
        Inferred {
            first: self.first,
            name: Some(name),
            height: self.height,
            is_constant: self.is_constant,
            t: self.t,
            expr: self.expr,
            value: self.value,
        }
    }

    /// The expression with an opening parenthesis at this position before it.
    pub fn beginning_at(self, at: At) -> Inferred<'a>
        ensures { (s : Typed) → Infers self.entry s → Infers result (record s { first = at }) }
    {
        Inferred {
            first: at,
            name: self.name,
            height: self.height,
            is_constant: self.is_constant,
            t: self.t,
            expr: self.expr,
            value: self.value,
        }
    }
}

/// A tree of one type converted to another one.
fn tree_as(alloc: Global, from: CType, to: CType, expr: Expr) -> Result<Expr, AllocError>
    ensures { IfOk result (λ e.
        tree_of_expr e
        ≡ cond (same_type from to) (tree_of_expr expr) (convert to (tree_of_expr expr))) }
{
    if same_type(from, to) {
        return Ok(expr);
    }
    trees::convert(alloc, to, expr)
}

/// An operator over these operands.
///
/// The only error is out of memory, also if the numbers for heights run out.
fn over<'a>(
    first: At,
    operands: Operands,
    t: CType,
    expr: Expr,
    value: Option<i64>,
) -> Result<Inferred<'a>, AllocError>
    ensures { IfOk result (λ j. (es : List Typed) → AreOperands operands es →
        Infers j (operator_over first es t (tree_of_expr expr) value)) }
{
    let Some(height) = operands.tallest.checked_add(1) else {
        return Err(AllocError);
    };
    Ok(Inferred {
        first,
        name: None,
        height,
        is_constant: operands.are_constant,
        t,
        expr,
        value,
    })
}

/// A unary operator over its operand, `None` for `+` (C90 6.3.3.3).
///
/// The only error is out of memory, also if the numbers for heights run out.
pub fn unary<'a>(
    alloc: Global,
    first: At,
    op: Option<UnOp>,
    a: Inferred<'a>,
) -> Result<Inferred<'a>, AllocError>
    ensures { IfOk result (λ j. (s : Typed) → Infers a.entry s
        → Infers j (typed_unary first op s)) }
{
    let t = promoted(a.t);
    match op {
        None => converted(alloc, first, t, a),
        Some(op) => operation(alloc, first, op, t, a),
    }
}

/// An expression converted to a type, as an operator.
fn converted<'a>(
    alloc: Global,
    first: At,
    t: CType,
    a: Inferred<'a>,
) -> Result<Inferred<'a>, AllocError>
    ensures { IfOk result (λ j. (s : Typed) → Infers a.entry s →
        Infers j (operator_over first (s ∷ []) t (tree_as t s) (value_as t s))) }
{
    let operands = Operands::none().behind(&a);
    let value = value_as(t, a.value);
    let expr = a.into_tree(alloc, t)?;
    over(first, operands, t, expr, value)
}

/// A unary operator that works in a type.
fn operation<'a>(
    alloc: Global,
    first: At,
    op: UnOp,
    t: CType,
    a: Inferred<'a>,
) -> Result<Inferred<'a>, AllocError>
    ensures { IfOk result (λ j. (s : Typed) → Infers a.entry s →
        Infers j (operator_over first (s ∷ []) (type_of_unary op t) (unary op t (tree_as t s))
        (option_map (value_of_one op t) (value_as t s)))) }
{
    let operands = Operands::none().behind(&a);
    let value = value_of_one(op, t, value_as(t, a.value));
    let expr = a.into_tree(alloc, t)?;
    let expr = trees::unary(alloc, op, t, expr)?;
    over(first, operands, type_of_unary(op, t), expr, value)
}

/// A cast (C90 6.3.4), `None` for one to `void`.
///
/// The only error is out of memory, also if the numbers for heights run out.
pub fn cast<'a>(
    alloc: Global,
    first: At,
    to: Option<CType>,
    a: Inferred<'a>,
) -> Result<Inferred<'a>, AllocError>
    ensures { IfOk result (λ j. (s : Typed) → Infers a.entry s
        → Infers j (typed_cast first to s)) }
{
    match to {
        None => converted(alloc, first, CType::I32, a),
        Some(t) => converted(alloc, first, t, a),
    }
}

/// A binary operator over its operands (C90 6.3.5 to 6.3.12).
///
/// The only error is out of memory, also if the numbers for heights run out.
pub fn value<'a>(
    alloc: Global,
    op: BinOp,
    a: Inferred<'a>,
    b: Inferred<'a>,
) -> Result<Inferred<'a>, AllocError>
    ensures { IfOk result (λ j. (s u : Typed) → Infers a.entry s → Infers b.entry u →
        Infers j (typed_value op s u)) }
{
    let t = working_type(op, a.t, b.t);
    let right_t = right_type(op, a.t, b.t);
    let value = value_of(op, t, value_as(t, a.value), value_as(right_t, b.value));
    let operands = Operands::none().behind(&b).behind(&a);
    let first = a.first;
    let left = a.into_tree(alloc, t)?;
    let right = b.into_tree(alloc, right_t)?;
    let expr = trees::binary(alloc, op, t, left, right)?;
    over(first, operands, type_of_binary(op, t), expr, value)
}

/// An operator between two operands (C90 6.3.5 to 6.3.14).
///
/// The only error is out of memory, also if the numbers for heights run out.
pub fn binary<'a>(
    alloc: Global,
    operator: Operator,
    a: Inferred<'a>,
    b: Inferred<'a>,
) -> Result<Inferred<'a>, AllocError>
    ensures { IfOk result (λ j. (s u : Typed) → Infers a.entry s → Infers b.entry u →
        Infers j (typed_binary operator s u)) }
{
    match operator {
        Operator::Value(op) => value(alloc, op, a, b),
        Operator::AndAlso => and_also(alloc, a, b),
        Operator::OrElse => or_else(alloc, a, b),
    }
}

/// `&&` over its operands (C90 6.3.13).
fn and_also<'a>(alloc: Global, a: Inferred<'a>, b: Inferred<'a>) -> Result<Inferred<'a>, AllocError>
    ensures { IfOk result (λ j. (s u : Typed) → Infers a.entry s → Infers b.entry u →
        Infers j (typed_binary AndAlso s u)) }
{
    let value = values::and_also(a.value, b.value);
    let operands = Operands::none().behind(&b).behind(&a);
    let first = a.first;
    let left_t = promoted(a.t);
    let right_t = promoted(b.t);
    let left = a.into_tree(alloc, left_t)?;
    let right = b.into_tree(alloc, right_t)?;
    let expr = trees::and_also(alloc, left, right)?;
    over(first, operands, CType::I32, expr, value)
}

/// `||` over its operands (C90 6.3.14).
fn or_else<'a>(alloc: Global, a: Inferred<'a>, b: Inferred<'a>) -> Result<Inferred<'a>, AllocError>
    ensures { IfOk result (λ j. (s u : Typed) → Infers a.entry s → Infers b.entry u →
        Infers j (typed_binary OrElse s u)) }
{
    let value = values::or_else(a.value, b.value);
    let operands = Operands::none().behind(&b).behind(&a);
    let first = a.first;
    let left_t = promoted(a.t);
    let right_t = promoted(b.t);
    let left = a.into_tree(alloc, left_t)?;
    let right = b.into_tree(alloc, right_t)?;
    let expr = trees::or_else(alloc, left, right)?;
    over(first, operands, CType::I32, expr, value)
}

/// `?:` over its condition and its branches (C90 6.3.15).
///
/// The only error is out of memory, also if the numbers for heights run out.
pub fn select<'a>(
    alloc: Global,
    when: Inferred<'a>,
    a: Inferred<'a>,
    b: Inferred<'a>,
) -> Result<Inferred<'a>, AllocError>
    ensures { IfOk result (λ j. (s u v : Typed) → Infers when.entry s → Infers a.entry u →
        Infers b.entry v → Infers j (typed_select s u v)) }
{
    let t = usual(a.t, b.t);
    let value = values::select(when.value, value_as(t, a.value), value_as(t, b.value));
    let operands = Operands::none().behind(&b).behind(&a).behind(&when);
    let first = when.first;
    let yes = a.into_tree(alloc, t)?;
    let no = b.into_tree(alloc, t)?;
    let expr = trees::select(alloc, t, when.expr, yes, no)?;
    over(first, operands, t, expr, value)
}

/// A constant of a type (C90 6.1.3).
///
/// The only error is out of memory, which never comes.
pub fn constant<'a>(at: At, t: CType, value: i64) -> Result<Inferred<'a>, AllocError>
    ensures { IfOk result (λ j. Infers j (typed_constant at t value)) }
{
    over(
        at,
        Operands::none(),
        t,
        Expr::Const { t, value },
        Some(value),
    )
}

/// The expression, as a name or without one; it is not constant.
fn named<'a>(j: Inferred<'a>, name: Option<Text<'a>>) -> Inferred<'a>
    ensures { (s : Typed) (faults : List Fault) → Infers j.entry s →
        Infers result (typed_with s name.entry faults) }
{
    Inferred {
        first: j.first,
        name,
        height: j.height,
        is_constant: false,
        t: j.t,
        expr: j.expr,
        value: None,
    }
}

/// A name of this meaning as a value (C90 6.3.1). An enumeration constant is a constant of `int` (C90
/// 6.1.3.3).
///
/// The only error is out of memory, which never comes.
pub fn name<'a>(at: At, name: Text<'a>, meaning: &Meaning) -> Result<Inferred<'a>, AllocError>
    ensures { IfOk result (λ j. Infers j (typed_name at name.entry meaning.now)) }
{
    match meaning {
        Meaning::Constant(value) => {
            let j = constant(at, CType::I32, *value)?;
            Ok(j.called(name))
        }
        _ => name_of_variable(at, name, meaning),
    }
}

/// A name of another meaning.
///
/// The only error is out of memory, which never comes.
fn name_of_variable<'a>(
    at: At,
    name: Text<'a>,
    meaning: &Meaning,
) -> Result<Inferred<'a>, AllocError>
    ensures { IfOk result (λ j. Infers j (typed_named at name.entry meaning.now)) }
{
    let expr = variable_tree(meaning);
    let j = over(at, Operands::none(), variable_type(meaning), expr, None)?;
    Ok(named(j, Some(name)))
}

/// The variable of a name of this meaning; any variable if that is a fault.
fn variable_tree(meaning: &Meaning) -> Expr
    ensures { tree_of_expr result ≡ variable_tree meaning.now }
{
    match meaning {
        Meaning::Variable(object) => {
            if is_array(object) {
                placeholder()
            } else {
                Expr::Var { var: object.var }
            }
        }
        Meaning::Unknown | Meaning::Function | Meaning::Constant(_) => placeholder(),
    }
}

/// What replaces a name that is at fault.
pub fn placeholder() -> Expr
    ensures { tree_of_expr result ≡ placeholder }
{
    Expr::Const {
        t: CType::I32,
        value: 0,
    }
}

/// The type of the variable; any type if the name is at fault.
pub fn variable_type(meaning: &Meaning) -> CType
    ensures { result ≡ variable_type meaning.now }
{
    match meaning {
        Meaning::Variable(object) if !is_array(object) => object.variable.t,
        _ => CType::I32,
    }
}

/// An element of the array that a name of this meaning denotes (C90 6.3.2.1).
///
/// The only error is out of memory, also if the numbers for heights run out.
pub fn element<'a>(
    alloc: Global,
    at: At,
    meaning: &Meaning,
    index: Inferred<'a>,
) -> Result<Inferred<'a>, AllocError>
    ensures { IfOk result (λ j. (s : Typed) → Infers index.entry s →
        Infers j (typed_element at meaning.now s)) }
{
    let operands = Operands::none().behind(&index);
    let t = promoted(index.t);
    let index = index.into_tree(alloc, t)?;
    let expr = trees::element(alloc, array_of(meaning), index)?;
    let j = over(at, operands, element_type(meaning), expr, None)?;
    Ok(named(j, None))
}

/// The array that a name of this meaning denotes; any number if it denotes none.
pub fn array_of(meaning: &Meaning) -> VarId
    ensures { result ≡ array_of meaning.now }
{
    match meaning {
        Meaning::Variable(object) if is_array(object) => object.var,
        _ => VarId(0),
    }
}

/// The type of the array's elements; any type if the name denotes no array.
pub fn element_type(meaning: &Meaning) -> CType
    ensures { result ≡ element_type meaning.now }
{
    match meaning {
        Meaning::Variable(object) if is_array(object) => object.variable.t,
        _ => CType::I32,
    }
}

/// The value of a call (C90 6.3.2.2), whose name is at this position.
///
/// The only error is out of memory, also if the numbers for heights run out.
pub fn called<'a>(at: At, call: InferredCall) -> Result<Inferred<'a>, AllocError>
    ensures { IfOk result (λ j. (c : TypedCall) → InfersCall call c
        → Infers j (typed_called at c)) }
{
    let Some(height) = call.height.checked_add(1) else {
        return Err(AllocError);
    };
    Ok(Inferred {
        first: at,
        name: None,
        height,
        is_constant: false,
        t: call.result,
        expr: Expr::Call {
            call: call.call,
            function: call.function,
            args: call.args,
        },
        value: None,
    })
}

/// Whether a variable is an array.
pub fn is_array(object: &Object) -> bool
    ensures { result ≡ is_array_object object.now }
{
    match object.variable.shape {
        Shape::Value => false,
        Shape::Array(_) | Shape::Passed => true,
    }
}
