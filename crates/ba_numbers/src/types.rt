//! The types of operators and of their operands (C90 6.2.1, 6.3).

ghost use Rattle.std.specs.Prelude.{◌≡◌};
ghost use Rattle.ba_numbers.specs.Types.{is_promoted, promoted, right_type, same_type, shifts, type_of_binary, type_of_unary, usual, working_type};

use crate::numbers::{BinOp, CType, UnOp};

/// Whether two types are the same.
pub fn same_type(s: CType, t: CType) -> bool
    ensures { result ≡ same_type s t }
{
    s == t
}

/// Whether the integral promotions give this type (C90 6.2.1.1). Operators work in such types.
pub fn is_promoted(t: CType) -> bool
    ensures { result ≡ is_promoted t }
{
    match t {
        CType::I32 | CType::U32 => true,
        CType::I8 | CType::U8 | CType::I16 | CType::U16 => false,
    }
}

/// The type that the integral promotions give (C90 6.2.1.1).
pub fn promoted(t: CType) -> CType
    ensures { result ≡ promoted t }
{
    match t {
        CType::U32 => CType::U32,
        _ => CType::I32,
    }
}

/// The type that the usual arithmetic conversions give (C90 6.2.1.5).
pub fn usual(s: CType, t: CType) -> CType
    ensures { result ≡ usual s t }
{
    match (s, t) {
        (CType::U32, _) | (_, CType::U32) => CType::U32,
        _ => CType::I32,
    }
}

/// Whether an operator is a shift.
pub fn shifts(op: BinOp) -> bool
    ensures { result ≡ shifts op }
{
    matches!(op, BinOp::Shl | BinOp::Shr)
}

/// The type in which an operator works on operands of these types (C90 6.3.5 to 6.3.12).
pub fn working_type(op: BinOp, s: CType, t: CType) -> CType
    ensures { result ≡ working_type op s t }
{
    if shifts(op) { promoted(s) } else { usual(s, t) }
}

/// The type that an operator's right operand is converted to.
pub fn right_type(op: BinOp, s: CType, t: CType) -> CType
    ensures { result ≡ right_type op s t }
{
    if shifts(op) { promoted(t) } else { usual(s, t) }
}

/// The type of the value of a binary operator that works in the type `t`.
pub fn type_of_binary(op: BinOp, t: CType) -> CType
    ensures { result ≡ type_of_binary op t }
{
    match op {
        BinOp::Lt | BinOp::Le | BinOp::Gt | BinOp::Ge | BinOp::Eq | BinOp::Ne => CType::I32,
        _ => t,
    }
}

/// The type of the value of a unary operator that works in the type `t`.
pub fn type_of_unary(op: UnOp, t: CType) -> CType
    ensures { result ≡ type_of_unary op t }
{
    match op {
        UnOp::IsZero => CType::I32,
        UnOp::Neg | UnOp::Flip => t,
    }
}
