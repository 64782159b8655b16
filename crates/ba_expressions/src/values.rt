//! The types and the values of operators on constants (C90 6.2.1, 6.3, 6.4). A value is `None` if it is not
//! constant or traps.

ghost use Rattle.std.specs.Prelude.{◌≡◌, ℤ, pos, Some, cond, option_and_then, option_map};
ghost use Rattle.ba_numbers.specs.Numbers.{converted, value_of, value_of_one};
ghost use Rattle.ba_typing.specs.Expressions.{both_then, is_true, truth_of};

use ba_numbers::numbers::{BinOp, CType, UnOp, apply, apply_one, convert};

/// A value converted to the type.
pub(crate) fn value_as(t: CType, value: Option<i64>) -> Option<i64>
    ensures { result ≡ option_map (converted t) value }
{
    match value {
        None => None,
        Some(value) => Some(convert(t, value)),
    }
}

/// The value of a unary operator that works in the type `t`.
pub(crate) fn value_of_one(op: UnOp, t: CType, a: Option<i64>) -> Option<i64>
    ensures { result ≡ option_map (value_of_one op t) a }
{
    match a {
        None => None,
        Some(a) => Some(apply_one(op, t, a)),
    }
}

/// The value of a binary operator that works in the type `t`.
pub(crate) fn value_of(op: BinOp, t: CType, a: Option<i64>, b: Option<i64>) -> Option<i64>
    ensures { result ≡ both_then (value_of op t) a b }
{
    match (a, b) {
        (Some(a), Some(b)) => apply(op, t, a, b),
        _ => None,
    }
}

/// 1 for a value other than 0, and 0 for 0.
fn truth_of(value: i64) -> i64
    ensures { result ≡ truth_of value }
{
    i64::from(value != 0)
}

/// The value of `&&`, whose right operand counts only if the left one is not 0 (C90 6.3.13).
pub(crate) fn and_also(a: Option<i64>, b: Option<i64>) -> Option<i64>
    ensures { result
        ≡ option_and_then (λ y. cond (is_true y) (option_map truth_of b) (Some (pos 0))) a }
{
    let a = a?;
    if a == 0 {
        return Some(0);
    }
    let b = b?;
    Some(truth_of(b))
}

/// The value of `||`, whose right operand counts only if the left one is 0 (C90 6.3.14).
pub(crate) fn or_else(a: Option<i64>, b: Option<i64>) -> Option<i64>
    ensures { result
        ≡ option_and_then (λ y. cond (is_true y) (Some (pos 1)) (option_map truth_of b)) a }
{
    let a = a?;
    if a != 0 {
        return Some(1);
    }
    let b = b?;
    Some(truth_of(b))
}

/// The value of `?:`, which is that of one branch (C90 6.3.15).
pub(crate) fn select(when: Option<i64>, a: Option<i64>, b: Option<i64>) -> Option<i64>
    ensures { result ≡ option_and_then (λ y. cond (is_true y) a b) when }
{
    let when = when?;
    if when != 0 { a } else { b }
}
