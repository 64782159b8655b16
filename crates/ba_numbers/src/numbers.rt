//! The whole numbers of C: types, operators and their values.

ghost use Rattle.std.specs.Prelude.{◌≡◌, ℕ, ◌+◌, ◌*◌, ◌^◌, ◌<◌, ◌≤◌, ◌↔◌, ◌⊎◌, ℤ, pos, neg_ℤ, ◌-ℤ◌, ◌*ℤ◌, ◌≤ℤ◌, ◌<ℤ◌, IsTrue, IsNone, IfSome, unsigned_abs};
ghost use Rattle.std.specs.Int.{int_rem_euclid};
ghost use Rattle.ba_numbers.specs.declared.numbers.CType.{CType};
ghost use Rattle.ba_numbers.specs.declared.numbers.BinOp.{BinOp};
ghost use Rattle.ba_numbers.specs.declared.numbers.UnOp.{UnOp};
ghost use Rattle.ba_numbers.specs.Numbers.{IsIn, is_in, IsCongruent, width_of, centred, converted, plain_value, value_of, value_of_one, divides, compares, count_of, low_word};

/// A type of whole numbers: signed (`I`) or unsigned (`U`), with its width in bits (C90 6.1.2.5).
///
/// - `I8`: `char` and `signed char`.
/// - `U8`: `unsigned char`.
/// - `I16`: `short`.
/// - `U16`: `unsigned short`.
/// - `I32`: `int` and `long`.
/// - `U32`: `unsigned` and `unsigned long`.
#[derive(Clone, Copy, Debug, PartialEq, Eq)]
pub enum CType {
    I8,
    U8,
    I16,
    U16,
    I32,
    U32,
}

impl CType {
    /// Whether a number is in the range of the type.
    pub fn contains(self, value: i64) -> bool
        ensures { result ≡ is_in self value }
    {
        match self {
            CType::I8 => -0x80 <= value && value <= 0x7f,
            CType::U8 => 0 <= value && value <= 0xff,
            CType::I16 => -0x8000 <= value && value <= 0x7fff,
            CType::U16 => 0 <= value && value <= 0xffff,
            CType::I32 => -0x8000_0000 <= value && value <= 0x7fff_ffff,
            CType::U32 => 0 <= value && value <= 0xffff_ffff,
        }
    }
}

/// A binary operator, in the order of C's binary levels (C90 6.3.5 to 6.3.12).
#[derive(Clone, Copy, Debug, PartialEq, Eq)]
pub enum BinOp {
    Mul,
    Div,
    Rem,
    Add,
    Sub,
    Shl,
    Shr,
    Lt,
    Le,
    Gt,
    Ge,
    Eq,
    Ne,
    And,
    Xor,
    Or,
}

/// A unary operator: arithmetic negation, the complement of the bits, and the test for zero (C's `!`).
#[derive(Clone, Copy, Debug, PartialEq, Eq)]
pub enum UnOp {
    Neg,
    Flip,
    IsZero,
}

/// The number of the type's range that is congruent to `value` modulo 2 to the type's width (C90 6.2.1.2).
///
/// It takes no memory.
pub fn convert(t: CType, value: i64) -> i64
    ensures value { result ≡ converted t value }
    ensures in_range { IsIn t result }
{
    reduced(t, i128::from(value))
}

/// The value of a binary operator that works in the type `t` (C90 6.3.5 to 6.3.12): plain arithmetic on whole
/// numbers, converted to `t`. The count of a shift is its low five bits, a right shift rounds down, and a
/// division rounds towards zero.
///
/// `None` comes exactly if `op` is `Div` or `Rem` and `b` is 0. It takes no memory.
#[tactic(auto, unfolding(crate::specs::Numbers::value_of))]
pub fn apply(op: BinOp, t: CType, a: i64, b: i64) -> Option<i64>
    ensures value { result ≡ value_of op t a b }
    ensures none { IsNone result ↔ (IsTrue (divides op) × (b ≡ pos 0)) }
    ensures in_range { IfSome result (IsIn t) }
{
    Some(reduced(t, plain(op, a, b)?))
}

/// The value of a unary operator that works in the type `t` (C90 6.3.3.3).
///
/// It takes no memory.
#[tactic(auto, unfolding(crate::specs::Numbers::value_of_one, crate::specs::Numbers::converted))]
pub fn apply_one(op: UnOp, t: CType, a: i64) -> i64
    ensures value { result ≡ value_of_one op t a }
    ensures in_range { IsIn t result }
{
    match op {
        UnOp::Neg => reduced(t, -i128::from(a)),
        UnOp::Flip => reduced(t, -i128::from(a) - 1),
        UnOp::IsZero => i64::from(a == 0),
    }
}

/// Law: the conversion of a number is the only number of the type's range that is congruent to it modulo 2 to
/// the type's width. So a number of the range is its own conversion.
pub fn conversion_law()
    ensures in_range { (t : CType) (number : ℤ) → IsIn t (converted t number) }
    ensures congruent { (t : CType) (number : ℤ)
        → IsCongruent (2 ^ width_of t) (converted t number) number }
    ensures own { (t : CType) (number : ℤ) → IsIn t number → converted t number ≡ number }
    ensures only { (t : CType) (other number : ℤ) → IsIn t other
        → IsCongruent (2 ^ width_of t) other number → other ≡ converted t number }
{}

/// Law: the value of an operator is in the range of the type that it works in. A comparison and the test
/// for zero have the value 0 or 1.
pub fn value_law()
    ensures in_range { (op : BinOp) (t : CType) (a b : ℤ) → IfSome (value_of op t a b) (IsIn t) }
    ensures in_range_one { (op : UnOp) (t : CType) (a : ℤ) → IsIn t (value_of_one op t a) }
    ensures compared { (op : BinOp) (t : CType) (a b : ℤ) → IsTrue (compares op) →
        (value_of op t a b ≡ Some (pos 0)) ⊎ (value_of op t a b ≡ Some (pos 1)) }
    ensures tested { (t : CType) (a : ℤ) →
        (value_of_one UnOp.IsZero t a ≡ pos 0) ⊎ (value_of_one UnOp.IsZero t a ≡ pos 1) }
{}

/// The number of the type's range that is congruent to a wider number.
#[tactic(auto, unfolding(crate::specs::Numbers::converted))]
fn reduced(t: CType, value: i128) -> i64
    requires { unsigned_abs value ≤ 2 ^ 126 }
    ensures value { result ≡ converted t value }
    ensures in_range { IsIn t result }
{
    match t {
        CType::I8 => signed_part(0x80, value),
        CType::U8 => unsigned_part(0x100, value),
        CType::I16 => signed_part(0x8000, value),
        CType::U16 => unsigned_part(0x1_0000, value),
        CType::I32 => signed_part(0x8000_0000, value),
        CType::U32 => unsigned_part(0x1_0000_0000, value),
    }
}

/// The number from `-half` to `half - 1` that is congruent to `value` modulo twice `half`.
fn signed_part(half: u32, value: i128) -> i64
    requires positive { 0 < half }
    requires small { unsigned_abs value ≤ 2 ^ 126 }
    ensures value { result ≡ centred half value }
    ensures low { neg_ℤ (pos half) ≤ℤ result }
    ensures high { result ≤ℤ (pos half -ℤ pos 1) }
{
    let half = i128::from(half);
    ((value + half).rem_euclid(2 * half) - half) as i64
}

/// The number from 0 to `size - 1` that is congruent to `value` modulo `size`.
fn unsigned_part(size: u64, value: i128) -> i64
    requires positive { 0 < size }
    requires small { size ≤ 2 ^ 32 }
    ensures value { result ≡ int_rem_euclid value (pos size) }
    ensures low { pos 0 ≤ℤ result }
    ensures high { result <ℤ pos size }
{
    value.rem_euclid(i128::from(size)) as i64
}

/// Plain arithmetic on whole numbers, `None` for a zero divisor.
fn plain(op: BinOp, a: i64, b: i64) -> Option<i128>
    ensures value { result ≡ plain_value op a b }
    ensures small { IfSome result (λ value. unsigned_abs value ≤ 2 ^ 126) }
{
    match op {
        BinOp::Mul => Some(product(a, b)),
        BinOp::Div => quotient(a, b),
        BinOp::Rem => remainder(a, b),
        BinOp::Add => Some(i128::from(a) + i128::from(b)),
        BinOp::Sub => Some(i128::from(a) - i128::from(b)),
        BinOp::Shl => Some(product(a, shift_factor(b))),
        BinOp::Shr => Some(i128::from(a.div_euclid(shift_factor(b)))),
        BinOp::And => Some(i128::from(low_word(a) & low_word(b))),
        BinOp::Xor => Some(i128::from(low_word(a) ^ low_word(b))),
        BinOp::Or => Some(i128::from(low_word(a) | low_word(b))),
        BinOp::Lt => Some(i128::from(a < b)),
        BinOp::Le => Some(i128::from(a <= b)),
        BinOp::Gt => Some(i128::from(a > b)),
        BinOp::Ge => Some(i128::from(a >= b)),
        BinOp::Eq => Some(i128::from(a == b)),
        BinOp::Ne => Some(i128::from(a != b)),
    }
}

/// The product of two numbers, which has room in 128 bits.
fn product(a: i64, b: i64) -> i128
    ensures value { result ≡ a *ℤ b }
    ensures small { unsigned_abs result ≤ 2 ^ 126 }
{
    i128::from(a) * i128::from(b)
}

/// The quotient rounded towards zero, `None` for a zero divisor.
fn quotient(a: i64, b: i64) -> Option<i128>
    ensures value { result ≡ plain_value BinOp.Div a b }
    ensures small { IfSome result (λ value. unsigned_abs value ≤ 2 ^ 126) }
{
    if b == 0 {
        return None;
    }
    Some(i128::from(a) / i128::from(b))
}

/// The remainder of that quotient, `None` for a zero divisor.
fn remainder(a: i64, b: i64) -> Option<i128>
    ensures value { result ≡ plain_value BinOp.Rem a b }
    ensures small { IfSome result (λ value. unsigned_abs value ≤ 2 ^ 126) }
{
    if b == 0 {
        return None;
    }
    Some(i128::from(a) % i128::from(b))
}

/// The 32 low bits of a number.
fn low_word(a: i64) -> u32
    ensures { result ≡ low_word a }
{
    a.rem_euclid(0x1_0000_0000) as u32
}

/// The power of two that a shift by the low five bits of `count` multiplies or divides by.
fn shift_factor(count: i64) -> i64
    ensures value { result ≡ pos (2 ^ count_of count) }
    ensures small { result ≤ℤ pos (2 ^ 31) }
{
    1 << (low_word(count) % 32)
}
