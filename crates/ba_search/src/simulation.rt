//! Simulation: the values of all variables in many random runs. Clauses of gates define variables by earlier
//! ones. So values of the variables that none defines give all others theirs. Literals that are never both
//! true in many runs may be so in none. Sweeping tries that (`sweep.rt`).

use ba_checker::Checker;
use ba_lits::Lit;
use ba_watch::Watch;
use indexmap::IndexMap;
use rand_xoshiro::Xoshiro256PlusPlus;
use rand_xoshiro::rand_core::{Rng, SeedableRng};
use std::alloc::{AllocError, Global};

/// How many clauses all passes over them may visit, unless the fewest passes visit more.
const MOST_CLAUSES: u64 = 1 << 24;

/// The fewest passes, each of which simulates 64 runs.
const FEWEST_PASSES: u64 = 8;

/// The most passes.
const MOST_PASSES: u64 = 128;

/// Where the pseudo-random values begin.
const SEED: u64 = 1;

/// Two literals that no simulated run made both true; twice the same if none made it true.
#[derive(Clone, Copy, Drop)]
pub struct Hypothesis {
    pub first: Lit,
    pub second: Lit,
}

/// The values of a variable in the runs of the present pass, a bit each, and a hash of those of all passes.
/// The hash is that of the negation if the flip is all ones.
#[derive(Clone, Copy, Drop)]
struct Signature {
    values: u64,
    flip: u64,
    hash: u64,
}

/// The signature of each variable by its number; index 0 has that of a variable which is never true.
#[derive(Drop)]
struct Simulation {
    random: Xoshiro256PlusPlus,
    signatures: Vec<Signature>,
}

/// What simulated runs suggest of the variables without a value on the trail. Two are equal, which makes two
/// hypotheses, or one has a single value. They come by the variable of the second literal. In the runs a
/// variable that no clause defines has its value on the trail, or random ones.
///
/// The only error is out of memory.
pub fn hypotheses(
    alloc: Global,
    watch: &Watch,
    checker: &Checker,
) -> Result<Vec<Hypothesis>, AllocError> {
    let mut simulation = Simulation::new(alloc, watch)?;
    simulation.run_pass(watch, checker, 0);
    for signature in simulation.signatures.iter_mut() {
        signature.choose_flip();
    }
    for pass in 0..passes(checker) {
        simulation.run_pass(watch, checker, pass);
        for signature in simulation.signatures.iter_mut() {
            signature.take_in();
        }
    }
    simulation.hypotheses(alloc, watch)
}

/// How many passes over the clauses there are.
fn passes(checker: &Checker) -> u64 {
    (MOST_CLAUSES / checker.last().max(1))
        .max(FEWEST_PASSES)
        .min(MOST_PASSES)
}

impl Signature {
    /// Flips the values if the first is true.
    fn choose_flip(&mut self) {
        self.flip = mask(self.values & 1 == 1);
    }

    /// Adds the values of the present pass to the hash.
    fn take_in(&mut self) {
        let mixed = (self.hash ^ self.values ^ self.flip).wrapping_mul(0x9e37_79b9_7f4a_7c15);
        self.hash = mixed ^ (mixed >> 32);
    }
}

impl Simulation {
    /// No runs.
    ///
    /// The only error is out of memory.
    fn new(alloc: Global, watch: &Watch) -> Result<Simulation, AllocError> {
        let none = Signature {
            values: 0,
            flip: 0,
            hash: 0,
        };
        let count = (watch.variables() as usize).saturating_add(1);
        Ok(Simulation {
            random: Xoshiro256PlusPlus::seed_from_u64(SEED),
            signatures: vec![in alloc; none; count]?,
        })
    }

    /// Simulates 64 runs.
    fn run_pass(&mut self, watch: &Watch, checker: &Checker, pass: u64) {
        self.draw(watch, pass);
        let mut greatest = 0;
        for place in 0..checker.last() {
            greatest = self.define(checker, place + 1, greatest);
        }
    }

    /// Gives each variable its value on the trail, or else random values. These are often those of the
    /// variable before, so that words of many equal bits come up.
    fn draw(&mut self, watch: &Watch, pass: u64) {
        let mut values = 0;
        for variable in 1..=watch.variables() {
            values = match watch.value(Lit::positive(variable)) {
                Some(value) => mask(value),
                None => values ^ rare_bits(&mut self.random, pass % 5),
            };
            self.set_values(variable, values);
        }
    }

    /// Uses a clause as a definition of its greatest variable, if it is one. If its other literals are false,
    /// its last is true. It gives the greatest variable defined so far.
    fn define(&mut self, checker: &Checker, number: u64, greatest: u64) -> u64 {
        let Some((last, others)) = definition(checker, number, greatest) else {
            return greatest;
        };
        let mut forced = u64::MAX;
        for lit in others {
            forced &= !self.values_of(*lit);
        }
        let values = self.values_of(last) | forced;
        self.set_values(last.variable(), values ^ mask(last.is_negated()));
        last.variable()
    }

    /// The values of a literal in the present runs.
    fn values_of(&self, lit: Lit) -> u64 {
        let values = match self.signatures.get(lit.variable() as usize) {
            Some(signature) => signature.values,
            None => 0,
        };
        values ^ mask(lit.is_negated())
    }

    /// Gives a variable its values in the present runs.
    fn set_values(&mut self, variable: u64, values: u64) {
        if let Some(signature) = self.signatures.get_mut(variable as usize) {
            signature.values = values;
        }
    }

    /// What the runs suggest of the variables without a value on the trail.
    ///
    /// The only error is out of memory.
    fn hypotheses(&self, alloc: Global, watch: &Watch) -> Result<Vec<Hypothesis>, AllocError> {
        let mut hypotheses = Vec::new(alloc);
        let mut classes = IndexMap::new(alloc);
        for variable in 1..=watch.variables() {
            let lit = Lit::positive(variable);
            if watch.value(lit).is_none() {
                self.suggest(lit, &mut classes, &mut hypotheses)?;
            }
        }
        Ok(hypotheses)
    }

    /// Adds what the runs suggest of a variable: that it equals the first of its class, or that it has a
    /// single value.
    ///
    /// The only error is out of memory.
    fn suggest(
        &self,
        positive: Lit,
        classes: &mut IndexMap<u64, Lit>,
        hypotheses: &mut Vec<Hypothesis>,
    ) -> Result<(), AllocError> {
        let (Some(never), Some(signature)) = (
            self.signatures.first(),
            self.signatures.get(positive.variable() as usize),
        ) else {
            return Ok(());
        };
        let lit = if signature.flip == 0 {
            positive
        } else {
            positive.negated()
        };
        if signature.hash == never.hash {
            hypotheses.push(Hypothesis {
                first: lit,
                second: lit,
            })?;
            return Ok(());
        }
        let Some(first) = classes.get(&signature.hash).copied() else {
            classes.insert(signature.hash, lit)?;
            return Ok(());
        };
        hypotheses.push(Hypothesis {
            first,
            second: lit.negated(),
        })?;
        hypotheses.push(Hypothesis {
            first: first.negated(),
            second: lit,
        })?;
        Ok(())
    }
}

/// The last literal of a clause and its others, if it defines its greatest variable: it wasn't learnt, and no
/// greater variable was defined before.
pub fn definition(checker: &Checker, number: u64, greatest: u64) -> Option<(Lit, &[Lit])> {
    if checker.is_learnt(number) {
        return None;
    }
    let [others @ .., last] = checker.clause(number)? else {
        return None;
    };
    if others.is_empty() || last.variable() < greatest {
        return None;
    }
    Some((*last, others))
}

/// Random bits, of which about one in 2^(rarity + 1) is set.
fn rare_bits(random: &mut Xoshiro256PlusPlus, rarity: u64) -> u64 {
    let mut bits = random.next_u64();
    for _ in 0..rarity {
        bits &= random.next_u64();
    }
    bits
}

/// All ones, or all zeros.
fn mask(bit: bool) -> u64 {
    if bit { u64::MAX } else { 0 }
}
