//! The split of a core.

ghost use Rattle.std.specs.Prelude.{◌≡◌, ◌+◌, ◌^◌, ◌<◌, ◌≤◌, ◌∷◌, ◌++◌, [], OnOk, IfOk, map, length};
ghost use Rattle.ba_lits.specs.Satisfaction.{Soft};
ghost use Rattle.ba_checker.specs.Splits.{in_order, or_gate, and_gate, some_of, or_clauses, and_clauses, split_clauses, fresh_count, late_softs, lightest, lowered, lesser};
ghost use Rattle.ba_checker.specs.States.{kept};
ghost use Rattle.ba_checker.specs.declared.store.Origin.TheVariants as origins;

use crate::clauses::Clauses;
use crate::store::Origin;
use ba_lits::{Lit, LiteralSet};
use std::alloc::{AllocError, Global};

/// Two literals by ascending variable.
fn in_order(a: Lit, b: Lit) -> (Lit, Lit)
    ensures { result.0 ∷ result.1 ∷ [] ≡ in_order a b }
{
    if a.variable() < b.variable() {
        (a, b)
    } else {
        (b, a)
    }
}

/// Adds the clauses of `d means b or c`.
fn add_or_gate(clauses: &mut Clauses, d: u64, b: Lit, c: Lit) -> Result<(), AllocError>
    requires counted { 1 ≤ d }
    requires below { d < 2 ^ 62 }
    ensures { OnOk result (clauses.new ≡ clauses.old ++ map (kept origins.Split) (or_gate d b c)) }
{
    let fresh = Lit::positive(d);
    let (low, high) = in_order(fresh.negated(), c);
    clauses.add([b, low, high].as_slice(), Origin::Split)?;
    clauses.add([b.negated(), fresh].as_slice(), Origin::Split)?;
    let (low, high) = in_order(fresh, c.negated());
    clauses.add([low, high].as_slice(), Origin::Split)
}

/// Adds the clauses of `e means b and c`.
fn add_and_gate(clauses: &mut Clauses, e: u64, b: Lit, c: Lit) -> Result<(), AllocError>
    requires counted { 1 ≤ e }
    requires below { e < 2 ^ 62 }
    ensures { OnOk result (clauses.new ≡ clauses.old ++ map (kept origins.Split) (and_gate e b c)) }
{
    let fresh = Lit::positive(e);
    clauses.add([b, fresh.negated()].as_slice(), Origin::Split)?;
    clauses.add([c, fresh.negated()].as_slice(), Origin::Split)?;
    clauses.add([b.negated(), c.negated(), fresh].as_slice(), Origin::Split)
}

/// A literal for `one of these literals is true`: a single one itself, for several the variable d.
fn some_of(d: u64, lits: &[Lit]) -> Lit
    requires counted { 1 ≤ d }
    requires below { d < 2 ^ 62 }
    requires some { 0 < length lits.now }
    ensures { result ≡ some_of d lits.now }
{
    if lits.len() == 1 {
        lits[0]
    } else {
        Lit::positive(d)
    }
}

/// Adds the clauses of the variables from d on: `one of these literals from here on is true`.
fn add_ors(clauses: &mut Clauses, d: u64, lits: &[Lit]) -> Result<(), AllocError>
    requires counted { 1 ≤ d }
    requires below { d + length lits.now < 2 ^ 62 }
    ensures { OnOk result (clauses.new ≡ clauses.old
        ++ map (kept origins.Split) (or_clauses d lits.now)) }
{
    for place in 1..lits.len() {
        let fresh = d + place as u64 - 1;
        let later = some_of(fresh + 1, &lits[place..]);
        add_or_gate(clauses, fresh, lits[place - 1], later)?;
    }
    Ok(())
}

/// Adds the clauses of the variables from e on: `this literal and a later one are true`. The variables from d
/// on say `one of the literals from the second on is true`.
fn add_ands(clauses: &mut Clauses, d: u64, e: u64, lits: &[Lit]) -> Result<(), AllocError>
    requires or_counted { 1 ≤ d }
    requires or_below { d + length lits.now < 2 ^ 62 }
    requires counted { 1 ≤ e }
    requires below { e + length lits.now < 2 ^ 62 }
    ensures { OnOk result (clauses.new ≡ clauses.old
        ++ map (kept origins.Split) (and_clauses d e lits.now)) }
{
    for place in 1..lits.len() {
        let step = place as u64 - 1;
        let later = some_of(d + step, &lits[place..]);
        add_and_gate(clauses, e + step, lits[place - 1], later)?;
    }
    Ok(())
}

/// Adds the clauses of the split of a core, whose fresh variables begin at `first`.
pub fn add_split(clauses: &mut Clauses, first: u64, lits: &[Lit]) -> Result<(), AllocError>
    requires counted { 1 ≤ first }
    requires some { 0 < length lits.now }
    requires below { first + (length lits.now + length lits.now) < 2 ^ 62 }
    ensures { OnOk result (clauses.new ≡ clauses.old
        ++ map (kept origins.Split) (split_clauses first lits.now)) }
{
    let later = lits.len() as u64 - 1;
    add_ors(clauses, first, &lits[1..])?;
    add_ands(clauses, first, first + later.saturating_sub(1), lits)
}

/// How many fresh variables a core of `lits` literals takes.
pub fn fresh_count(lits: u64) -> u64
    requires { lits < 2 ^ 62 }
    ensures { result ≡ fresh_count lits }
{
    lits.saturating_sub(2) + lits.saturating_sub(1)
}

/// The least weight of the soft literals whose negations are members of the set; `None` if there is none.
pub fn lightest(core: &LiteralSet, softs: &[(Lit, u32)]) -> Option<u32>
    ensures { result ≡ lightest core.now softs.now }
{
    let mut least = None;
    for (lit, weight) in softs {
        if core.contains(lit.negated()) {
            least = Some(lesser(*weight, least));
        }
    }
    least
}

/// The lesser of two weights, one of which may be missing.
fn lesser(weight: u32, other: Option<u32>) -> u32
    ensures { result ≡ lesser weight other }
{
    match other {
        None => weight,
        Some(other) => weight.min(other),
    }
}

/// The soft literals after those whose negations are members of the set lost a weight; they are gone at 0.
pub fn lowered(
    alloc: Global,
    core: &LiteralSet,
    weight: u32,
    softs: &[(Lit, u32)],
) -> Result<Vec<(Lit, u32)>, AllocError>
    ensures { IfOk result (λ left. left.items ≡ lowered core.now weight softs.now) }
{
    let mut left = Vec::new(alloc);
    for soft in softs {
        keep_soft(&mut left, core, weight, *soft)?;
    }
    Ok(left)
}

/// Appends a soft literal to those that are left, lowered if its negation is a member of the set.
fn keep_soft(
    left: &mut Vec<(Lit, u32)>,
    core: &LiteralSet,
    weight: u32,
    soft: (Lit, u32),
) -> Result<(), AllocError>
    ensures { OnOk result (left.new.items ≡ left.old.items ++ lowered core.now weight (soft ∷ [])) }
{
    if !core.contains(soft.0.negated()) {
        left.push(soft)?;
    } else if weight < soft.1 {
        left.push((soft.0, soft.1 - weight))?;
    }
    Ok(())
}

/// Appends the negations of the variables from e on, each with the weight, one for each literal but the last.
pub fn add_late_softs(
    softs: &mut Vec<(Lit, u32)>,
    weight: u32,
    e: u64,
    lits: &[Lit],
) -> Result<(), AllocError>
    requires counted { 1 ≤ e }
    requires below { e + length lits.now < 2 ^ 62 }
    ensures { OnOk result (softs.new.items ≡ softs.old.items ++ late_softs weight e lits.now) }
{
    for place in 1..lits.len() {
        let fresh = Lit::positive(e + place as u64 - 1);
        softs.push((fresh.negated(), weight))?;
    }
    Ok(())
}
