//! The clauses of gates.

ghost use Rattle.std.specs.Prelude.{◌≡◌, ◌≢◌, ◌↔◌, ℕ, ◌+◌, ◌*◌, ◌-◌, ◌%◌, ◌<◌, ◌≤◌, ◌^◌, ◌||◌, Bool, true, false, List, [], ◌∷◌, ◌++◌, length, map, slice_index, IfOk, OnOk, All, Contains};
ghost use Rattle.std.specs.List.{list_any};
ghost use Rattle.std.specs.List.Sorted.{IsStrictlyIncreasing};
ghost use Rattle.ba_lits.specs.Literals.{Literal, literal_at, index_of};
ghost use Rattle.ba_lits.specs.Satisfaction.{any_true};
ghost use Rattle.ba_clauses.specs.Clauses.{Adds, all_of, any_of, gate_value, operands_of, literal_of, literal_value, IsLiteralOf, HasVariable, IsCodeOf, code_true};

use crate::gates::Gate;
use crate::numbers::literal;
use ba_lits::{Formula, Lit};
use ba_nodes::{Bit, Nodes};
use std::alloc::{AllocError, Global};

/// Adds clauses that say: a literal of `head` is true, or the gate is, over the literals of its bits.
///
/// The only error is out of memory.
pub fn imply(
    alloc: Global,
    formula: &mut Formula,
    variables: &[u64],
    head: &[Lit],
    gate: &Gate,
) -> Result<(), AllocError>
    requires head { All (IsLiteralOf formula.old.variables) head.now }
    requires operands { All (HasVariable variables.now formula.old.variables)
        (operands_of gate.now) }
    ensures { OnOk result (Adds formula.old formula.new (λ v. any_true v head.now ||
        gate_value (literal_value variables.now v) gate.now)) }
{
    match gate {
        Gate::All(bits) => add_each(alloc, formula, variables, head, bits.as_slice()),
        Gate::Any(bits) => add(alloc, formula, variables, head, bits.as_slice()),
        Gate::Xor(a, b) => {
            add(alloc, formula, variables, head, &[*a, *b])?;
            add(
                alloc,
                formula,
                variables,
                head,
                &[Nodes::not(*a), Nodes::not(*b)],
            )
        }
        Gate::Mux(which, yes, no) => {
            add(alloc, formula, variables, head, &[Nodes::not(*which), *yes])?;
            add(alloc, formula, variables, head, &[*which, *no])
        }
        Gate::Majority(a, b, c) => {
            add(alloc, formula, variables, head, &[*a, *b])?;
            add(alloc, formula, variables, head, &[*a, *c])?;
            add(alloc, formula, variables, head, &[*b, *c])
        }
    }
}

/// Adds a clause for each of the bits: `head`, or the bit.
fn add_each(
    alloc: Global,
    formula: &mut Formula,
    variables: &[u64],
    head: &[Lit],
    bits: &[Bit],
) -> Result<(), AllocError>
    requires head { All (IsLiteralOf formula.old.variables) head.now }
    requires bits { All (HasVariable variables.now formula.old.variables) bits.now }
    ensures { OnOk result (Adds formula.old formula.new (λ v. any_true v head.now ||
        all_of (literal_value variables.now v) bits.now)) }
{
    for bit in bits {
        add(alloc, formula, variables, head, &[*bit])?;
    }
    Ok(())
}

/// Adds a clause: one of the literals of `head` and of the bits is true.
fn add(
    alloc: Global,
    formula: &mut Formula,
    variables: &[u64],
    head: &[Lit],
    bits: &[Bit],
) -> Result<(), AllocError>
    requires head { All (IsLiteralOf formula.old.variables) head.now }
    requires bits { All (HasVariable variables.now formula.old.variables) bits.now }
    ensures { OnOk result (Adds formula.old formula.new (λ v. any_true v head.now ||
        any_of (literal_value variables.now v) bits.now)) }
{
    let codes = codes_of(alloc, formula.variables(), variables, head, bits)?;
    add_clause(alloc, formula, codes)
}

/// The indices of the literals of `head` and of the bits.
fn codes_of(
    alloc: Global,
    bound: u64,
    variables: &[u64],
    head: &[Lit],
    bits: &[Bit],
) -> Result<Vec<usize>, AllocError>
    requires bound { bound < 2 ^ 62 }
    requires head { All (IsLiteralOf bound) head.now }
    requires bits { All (HasVariable variables.now bound) bits.now }
    ensures { IfOk result (λ codes. codes.items ≡ map index_of head.now ++
        map (λ bit. index_of (literal_of variables.now bit)) bits.now) }
{
    let mut codes = Vec::new(alloc);
    for lit in head {
        codes.push(lit.index())?;
    }
    for bit in bits {
        codes.push(literal(bound, variables, *bit).index())?;
    }
    Ok(codes)
}

/// Adds the clause of the literals of these indices, in order and each once, unless it always holds.
fn add_clause(alloc: Global, formula: &mut Formula, codes: Vec<usize>) -> Result<(), AllocError>
    requires { All (IsCodeOf formula.old.variables) codes.items }
    ensures { OnOk result (Adds formula.old formula.new
        (λ v. list_any (code_true v) codes.items)) }
{
    let codes = distinct(codes);
    if has_opposites(codes.as_slice()) {
        return Ok(());
    }
    let lits = literals_at(alloc, formula.variables(), codes.as_slice())?;
    formula.push(lits.as_slice())
}

/// The numbers in order, each once.
fn distinct(mut codes: Vec<usize>) -> Vec<usize>
    ensures rising { IsStrictlyIncreasing result.items }
    ensures within { (bound : ℕ) → All (IsCodeOf bound) codes.items →
        All (IsCodeOf bound) result.items }
    ensures same { (test : ℕ → Bool) →
        list_any test result.items ≡ list_any test codes.items }
{
    codes.sort_unstable();
    codes.dedup();
    codes
}

/// Whether both literals of a variable are among ascending indices.
fn has_opposites(codes: &[usize]) -> bool
    ensures found { result ≡ true → (k : ℕ) × (k + 1 < length codes.now) ×
        (slice_index codes.now k % 2 ≡ 0) × (slice_index codes.now (k + 1) ≡
        slice_index codes.now k + 1) }
    ensures none { result ≡ false → (k : ℕ) → k + 1 < length codes.now →
        slice_index codes.now k % 2 ≡ 0 →
        slice_index codes.now (k + 1) ≢ slice_index codes.now k + 1 }
{
    for place in 1..codes.len() {
        if codes[place - 1] % 2 == 0 && codes[place] == codes[place - 1] + 1 {
            return true;
        }
    }
    false
}

/// The literals of these indices.
fn literals_at(alloc: Global, bound: u64, codes: &[usize]) -> Result<Vec<Lit>, AllocError>
    requires bound { bound < 2 ^ 62 }
    requires codes { All (IsCodeOf bound) codes.now }
    ensures { IfOk result (λ lits. lits.items ≡ map literal_at codes.now) }
{
    let mut lits = Vec::new(alloc);
    for code in codes {
        lits.push(Lit::from_index(*code))?;
    }
    Ok(lits)
}
