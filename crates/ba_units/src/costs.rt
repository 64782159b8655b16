//! What single forms cost.

ghost use Rattle.std.specs.Prelude.{◌≡◌, ◌-◌, ℕ, length};
ghost use Rattle.ba_tree.specs.Meaning.{variable_of};
ghost use Rattle.ba_tree.specs.Units.{declaration_units, declared_length, element_units, loop_units, operator_units};

use ba_numbers::ids::VarId;
use ba_numbers::numbers::BinOp;
use ba_tree::lookup::variable_of;
use ba_tree::tree::{Program, Shape, Start};

/// How many elements a variable of this shape owns; 0 if it is no array.
pub fn declared_length(shape: Shape) -> u32
    ensures { result ≡ declared_length shape }
{
    match shape {
        Shape::Array(length) => length,
        Shape::Value | Shape::Passed => 0,
    }
}

/// What the declaration of a variable of this shape costs.
fn declaration_units(shape: Shape) -> u32
    ensures { result ≡ declaration_units shape }
{
    match shape {
        Shape::Value => 1,
        Shape::Array(length) => 1 + length.div_ceil(2),
        Shape::Passed => 0,
    }
}

/// The units left after the declaration of a variable.
pub fn left_after_declaration(program: &Program, left: u32, var: VarId) -> u32
    ensures { result ≡ left - declaration_units (variable_of program.now var).shape }
{
    let shape = variable_of(program, var).shape;
    left.saturating_sub(declaration_units(shape))
}

/// The units of one read or write of an element of an array of `length`, without its index.
pub fn element_units(length: u32) -> u32
    ensures { result ≡ element_units length }
{
    1 + length.div_ceil(3)
}

/// The units of a binary operator without its operands.
pub fn operator_units(op: BinOp) -> u32
    ensures { result ≡ operator_units op }
{
    match op {
        BinOp::Mul => 15,
        BinOp::Div | BinOp::Rem => 40,
        BinOp::Shl | BinOp::Shr => 2,
        _ => 1,
    }
}

/// The units left after the `case` labels of a `switch`, which cost 1 each.
pub fn left_after_labels(left: u32, starts: &[Start]) -> u32
    ensures { result ≡ left - length starts.now }
{
    (left as usize).saturating_sub(starts.len()) as u32
}

/// The units left after a loop of at most `turns` iterations. Before it `left` are left, after one of its
/// conditions `condition`, and after a condition and an iteration `turn`.
pub fn left_after_turns(turns: u32, left: u32, condition: u32, turn: u32) -> u32
    ensures { (c b s : ℕ) → condition ≡ left - c → turn ≡ (condition - b) - s
        → result ≡ left - loop_units turns c b s }
{
    let once = left.saturating_sub(turn);
    condition.saturating_sub(turns.saturating_mul(once))
}
