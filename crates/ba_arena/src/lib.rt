//! A clause arena with compaction in place (mark-compact).
//!
//! One vector of words holds every clause: how many literals it has, its number, two links, and its literals
//! by their indices. A link is 0 for none, and otherwise 1 more than the index of a clause.
//!
//! The links thread lists of clauses through the arena without taking memory. Link 0 belongs to the clause's
//! first literal, link 1 to its second. Watched literals: M. Moskewicz, C. Madigan, Y. Zhao, L. Zhang, S.
//! Malik, Chaff: Engineering an Efficient SAT Solver.
#![tactic(auto)]

ghost use Rattle.std.specs.Prelude.{◌≡◌, ◌+◌, ◌-◌, ◌^◌, ◌<◌, ◌≤◌, [], ◌++◌, ◌⊎◌, None, Some, length, get_or, set, take, drop, map, ℕ, IfOk, IfSome, OnOk, OnErr};
ghost use Rattle.ba_lits.specs.Literals.{lit_at, index_of};
ghost use Rattle.ba_arena.specs.Clauses.{IsLive, IsOutside, AreReferences, lits_at, number_at, link_at, changed, swapped, linked, Adds};
ghost use Rattle.ba_arena.specs.Compaction.{moved, compacted, forwarded, followed, led, Compacts, Plans, IsFirstFrom};
ghost use Rattle.ba_arena.specs.Words.{words_of, word_of_link, link_of_word, clauses_of, AreIndexed, AreWords, IsCut, IsWiped};

mod link;

use ba_lits::Lit;
pub use link::Link;
use std::alloc::{AllocError, Global};
use std::marker::Model;

/// The index of a clause's number among its words.
const NUMBER: usize = 1;

/// The index of a clause's first link among its words; the second follows it.
const LINKS: usize = 2;

/// The index of a clause's first literal among its words.
const LITS: usize = 4;

/// The word that a dead clause has as its number.
const DEAD: u32 = u32::MAX;

/// A reference to a clause of an arena: the index of its first word. It names the clause as long as the
/// clause is live.
#[derive(Clone, Copy, PartialEq, Eq, Debug)]
pub struct ClauseRef {
    index: u32,
}

impl Model for ClauseRef {
    ghost use Rattle.std.specs.Prelude.{ℕ, ◌-◌, ◌<◌, ◌^◌};

    ghost Value = { ℕ };

    ghost view = { λ clause. clause.index };

    ghost invariant = { λ clause. clause.index < 2 ^ 32 - 1 };

    ghost inverse = { λ index. record { index = index } };
}

impl ClauseRef {
    /// The word for a link.
    fn to_word(link: Option<ClauseRef>) -> u32
        ensures { result ≡ word_of_link link }
    {
        match link {
            None => 0,
            Some(clause) => clause.index + 1,
        }
    }

    /// The link of a word.
    fn from_word(word: u32) -> Option<ClauseRef>
        ensures { result ≡ link_of_word word }
    {
        if word == 0 {
            None
        } else {
            Some(ClauseRef { index: word - 1 })
        }
    }
}

/// Clauses by their references.
#[derive(Drop)]
pub struct Arena {
    words: Vec<u32>,
}

impl Model for Arena {
    ghost use Rattle.ba_arena.specs.Clauses.{Clauses};
    ghost use Rattle.ba_arena.specs.Words.{clauses_of, AreWords};

    ghost Value = { Clauses };

    ghost view = { λ arena. clauses_of 0 arena.words.items };

    ghost invariant = { λ arena. AreWords arena.words.items };
}

impl Arena {
    /// The arena without clauses. It takes no memory.
    pub fn new(alloc: Global) -> Arena
        ensures { result ≡ [] }
    {
        Arena {
            words: Vec::new(alloc),
        }
    }

    /// Adds a clause without links and gives its reference.
    ///
    /// The only error is out of memory, which leaves the arena as it was. It comes also for 2^32 words in the
    /// arena, a number of 2^32 - 1 or more, or a literal's index of 2^32 or more.
    pub fn add(&mut self, lits: &[Lit], number: u64) -> Result<ClauseRef, AllocError>
        ensures ok { IfOk result (λ clause.
            Adds self.old self.new clause (record
            { lits = lits.now; number = number; first = None; second = None })) }
        ensures err { OnErr result (self.new ≡ self.old) }
    {
        let place = self.words.len();
        if place + LITS + lits.len() > u32::MAX as usize || number >= DEAD as u64 {
            return Err(AllocError);
        }
        if let Err(error) = append(&mut self.words, lits, number) {
            self.words.truncate(place);
            return Err(error);
        }
        Ok(ClauseRef {
            index: place as u32,
        })
    }

    /// The literal at an index of a clause.
    pub fn lit(&self, clause: ClauseRef, place: usize) -> Lit
        requires { place < length (lits_at self.now clause) }
        ensures { result ≡ lit_at (lits_at self.now clause) place }
    {
        Lit::from_index(self.words[clause.index as usize + LITS + place] as usize)
    }

    /// How many literals a clause has.
    pub fn len(&self, clause: ClauseRef) -> usize
        requires { IsLive self.now clause }
        ensures { result ≡ length (lits_at self.now clause) }
    {
        self.words[clause.index as usize] as usize
    }

    /// The number that a clause was given.
    pub fn number(&self, clause: ClauseRef) -> u64
        requires { IsLive self.now clause }
        ensures { result ≡ number_at self.now clause }
    {
        self.words[clause.index as usize + NUMBER] as u64
    }

    /// The link of a clause's first literal (0) or second literal (1): `None` exactly if none is set.
    pub fn link(&self, clause: ClauseRef, which: usize) -> Option<ClauseRef>
        requires live { IsLive self.now clause }
        requires which { which ≤ 1 }
        ensures { result ≡ link_at self.now clause which }
    {
        ClauseRef::from_word(self.words[clause.index as usize + LINKS + which])
    }

    /// Sets the link of a clause's first literal (0) or second literal (1).
    pub fn set_link(&mut self, clause: ClauseRef, which: usize, next: Option<ClauseRef>)
        requires live { IsLive self.old clause }
        requires which { which ≤ 1 }
        ensures { self.new ≡ changed (linked which next) self.old clause }
    {
        self.words[clause.index as usize + LINKS + which] = ClauseRef::to_word(next);
    }

    /// Deletes a clause. Its words stay until the arena is compacted. Lists that name it have to be threaded
    /// anew.
    pub fn mark_dead(&mut self, clause: ClauseRef)
        requires { IsLive self.old clause }
        ensures { self.new ≡ set self.old clause None }
    {
        self.words[clause.index as usize + NUMBER] = DEAD;
    }

    /// Exchanges two literals of a clause. The links stay where they are.
    pub fn swap(&mut self, clause: ClauseRef, a: usize, b: usize)
        requires a_within { a < length (lits_at self.old clause) }
        requires b_within { b < length (lits_at self.old clause) }
        ensures { self.new ≡ changed (swapped a b) self.old clause }
    {
        let first = clause.index as usize + LITS;
        self.words.swap(first + a, first + b);
    }
}

impl Arena {
    /// The first live clause.
    pub fn first(&self) -> Option<ClauseRef>
        ensures { IsFirstFrom self.now 0 result }
    {
        to_reference(live_from(self.words.as_slice(), 0))
    }

    /// The first live clause after one.
    pub fn after(&self, clause: ClauseRef) -> Option<ClauseRef>
        requires { IsLive self.now clause }
        ensures first { IsFirstFrom self.now (clause + 1) result }
        ensures room { IfSome result
            (λ next. clause + 4 + length (lits_at self.now clause) ≤ next) }
        ensures below { clause + 4 + length (lits_at self.now clause) < 2 ^ 32 }
    {
        let end = clause.index as usize + LITS + self.words[clause.index as usize] as usize;
        to_reference(live_from(self.words.as_slice(), end))
    }

    /// Law: live clauses have no word in common. It does nothing.
    pub fn keep_apart(&self)
        ensures { (clause : ℕ) → IsLive self.now clause → IsOutside self.now clause }
    {
        let _ = &self.words;
    }

    /// Moves the live clauses down over the gaps of dead ones. References follow their clauses. In `kept` and
    /// `others` the references of deleted clauses become `None`; the clauses of `live` are live. It takes no
    /// memory.
    pub fn compact(
        &mut self,
        kept: &mut [Option<ClauseRef>],
        others: &mut [Option<ClauseRef>],
        live: &mut [ClauseRef],
    )
        requires kept { AreReferences self.old kept.old }
        requires others { AreReferences self.old others.old }
        requires live { (k : ℕ) → k < length live.old → IsLive self.old (get_or live.old k 0) }
        ensures compacts { Compacts self.old self.new }
        ensures kept { kept.new ≡ map (led self.old) kept.old }
        ensures others { others.new ≡ map (led self.old) others.old }
        ensures live { live.new ≡ map (moved self.old) live.old }
    {
        self.plan();
        self.follow(live);
        wipe(&mut self.words);
        rewrite(self.words.as_slice(), kept);
        rewrite(self.words.as_slice(), others);
        move_down(&mut self.words);
    }

    /// Sets the first link of each live clause to the index to which `move_down` moves it.
    fn plan(&mut self)
        ensures { Plans self.old self.new }
    {
        let mut place = 0;
        let mut next = self.first();
        while let Some(clause) = next {
            next = self.after(clause);
            let size = LITS + self.len(clause);
            self.set_link(
                clause,
                0,
                Some(ClauseRef {
                    index: place as u32,
                }),
            );
            place += size;
        }
    }

    /// Replaces references by what the first links of their clauses name, if these name a clause.
    fn follow(&self, live: &mut [ClauseRef])
        requires { (k : ℕ) → k < length live.old → IsLive self.now (get_or live.old k 0) }
        ensures { live.new ≡ map (followed self.now) live.old }
    {
        for place in 0..live.len() {
            if let Some(clause) = self.link(live[place], 0) {
                live[place] = clause;
            }
        }
    }
}

/// The reference of the clause at an index.
fn to_reference(place: Option<usize>) -> Option<ClauseRef>
    requires { IfSome place (λ p. p < 2 ^ 32 - 1) }
    ensures { result ≡ place }
{
    match place {
        None => None,
        Some(place) => Some(ClauseRef {
            index: place as u32,
        }),
    }
}

/// The index of the first live clause from the beginning of a clause on.
fn live_from(words: &[u32], start: usize) -> Option<usize>
    requires { IsCut words.now start }
    ensures first { IsFirstFrom (clauses_of 0 words.now) start result }
    ensures below { IfSome result (λ place. place + 4 ≤ length words.now) }
{
    let mut place = start;
    while place < words.len() {
        if words[place + NUMBER] != DEAD {
            return Some(place);
        }
        place += LITS + words[place] as usize;
    }
    None
}

/// Moves the words of the live clauses down, over those of the dead ones.
fn move_down(words: &mut Vec<u32>)
    requires { AreWords words.old.items }
    ensures words { AreWords words.new.items }
    ensures clauses { clauses_of 0 words.new.items ≡ compacted (clauses_of 0 words.old.items) }
{
    let mut place = 0;
    let mut end = 0;
    while place < words.len() {
        let size = LITS + words[place] as usize;
        if words[place + NUMBER] != DEAD {
            words.copy_within(place..place + size, end);
            end += size;
        }
        place += size;
    }
    words.truncate(end);
}

/// Overwrites the words of dead clauses, except the first of each, by the dead word.
fn wipe(words: &mut Vec<u32>)
    requires { AreWords words.old.items }
    ensures words { AreWords words.new.items }
    ensures wiped { IsWiped words.new.items }
    ensures clauses { clauses_of 0 words.new.items ≡ clauses_of 0 words.old.items }
{
    let mut left = 0;
    let mut gone = false;
    for place in 0..words.len() {
        if left == 0 {
            left = LITS + words[place] as usize;
            gone = words[place + NUMBER] == DEAD;
        } else if gone {
            words[place] = DEAD;
        }
        left -= 1;
    }
}

/// Replaces references by what the first links of their clauses name; those of no live clause by none.
fn rewrite(words: &[u32], kept: &mut [Option<ClauseRef>])
    requires words { AreWords words.now }
    requires wiped { IsWiped words.now }
    requires kept { AreReferences (clauses_of 0 words.now) kept.old }
    ensures { kept.new ≡ map (forwarded (clauses_of 0 words.now)) kept.old }
{
    for place in 0..kept.len() {
        if let Some(clause) = kept[place] {
            kept[place] = forward(words, clause);
        }
    }
}

/// What the first link of a clause names; `None` if the clause isn't live.
fn forward(words: &[u32], clause: ClauseRef) -> Option<ClauseRef>
    requires words { AreWords words.now }
    requires wiped { IsWiped words.now }
    requires reference { IsLive (clauses_of 0 words.now) clause
        ⊎ IsOutside (clauses_of 0 words.now) clause }
    ensures { result ≡ link_at (clauses_of 0 words.now) clause 0 }
{
    let place = clause.index as usize;
    if place + NUMBER >= words.len() {
        return None;
    }
    if words[place] == DEAD || words[place + NUMBER] == DEAD {
        return None;
    }
    ClauseRef::from_word(words[place + LINKS])
}

/// Appends the words of a clause.
fn append(words: &mut Vec<u32>, lits: &[Lit], number: u64) -> Result<(), AllocError>
    requires few { length lits.now < 2 ^ 32 }
    requires small { number < 2 ^ 32 - 1 }
    ensures begins { take (length words.old.items) words.new.items ≡ words.old.items }
    ensures ok { OnOk result (words.new.items ≡ words.old.items ++ words_of lits.now number) }
    ensures indexed { OnOk result (AreIndexed lits.now) }
{
    words.extend_from_slice([lits.len() as u32, number as u32, 0, 0].as_slice())?;
    for lit in lits {
        words.push(word_of(*lit)?)?;
    }
    Ok(())
}

/// The word of a literal.
///
/// The only error is that its index is 2^32 or more.
fn word_of(lit: Lit) -> Result<u32, AllocError>
    ensures word { IfOk result (λ word. word ≡ index_of lit) }
    ensures counted { IfOk result (λ word. 2 ≤ word) }
    ensures below { IfOk result (λ word. word < 2 ^ 63) }
{
    let index = lit.index();
    if index > u32::MAX as usize {
        return Err(AllocError);
    }
    Ok(index as u32)
}
