//! The lists of the clauses that watch a literal.

ghost use Rattle.std.specs.Prelude.{◌≡◌, ◌≢◌, ℕ, ◌+◌, ◌<◌, ◌≤◌, ◌∷◌, [], None, Some, Option, IsSome, IfOk, OnOk, OnErr, List, length, max, get_or};
ghost use Rattle.std.specs.List.{swap, All};
ghost use Rattle.ba_lits.specs.Literals.{index_of};
ghost use Rattle.ba_arena.specs.Clauses.{IsLive, lits_at, link_at};
ghost use Rattle.ba_watch.specs.Chains.{occurrences};
ghost use Rattle.ba_watch.specs.Threads.{AreThreaded, AreApart, pending_of, watch_count, index_at, SamePlain, ReordersOne, AddsPlain};

use ba_arena::{Arena, ClauseRef, Link};
use ba_lits::Lit;
use std::alloc::{AllocError, Global};

/// The clauses, each in the lists of its first two literals. A visited list gives its clauses one by one, and
/// each goes back or into the list of another literal.
#[derive(Drop)]
pub struct Lists {
    pub arena: Arena,
    pub heads: Vec<Link>,
    pub visited: usize,
    pub pending: Option<ClauseRef>,
    ghost threaded: { AreThreaded arena heads.items visited pending },
}

impl Lists {
    /// No clauses and no lists. It takes no memory.
    pub fn new(alloc: Global) -> Lists
        ensures arena { result.arena ≡ [] }
        ensures pending { result.pending ≡ None }
    {
        Lists {
            arena: Arena::new(alloc),
            heads: Vec::new(alloc),
            visited: 0,
            pending: None,
        }
    }

    /// Law: no literal occurs twice in a clause. It does nothing.
    pub fn keep_apart(&self)
        ensures { (clause : ℕ) → AreApart (lits_at self.now.arena clause) }
    {
        let _ = &self.visited;
    }

    /// Makes room for the lists of the literals with indices below a number.
    pub fn grow(&mut self, indices: usize) -> Result<(), AllocError>
        ensures room { OnOk result (indices ≤ length self.new.heads.items) }
        ensures grows { length self.old.heads.items ≤ length self.new.heads.items }
        ensures arena { self.new.arena ≡ self.old.arena }
        ensures visited { self.new.visited ≡ self.old.visited }
        ensures pending { self.new.pending ≡ self.old.pending }
    {
        if indices > self.heads.len() {
            self.heads.resize(indices, Link::none())?;
        }
        Ok(())
    }

    /// Takes the list of the literal of an index, to be visited.
    pub fn take(&mut self, index: usize)
        requires idle { self.old.pending ≡ None }
        requires within { index < length self.old.heads.items }
        ensures visited { self.new.visited ≡ index }
        ensures arena { self.new.arena ≡ self.old.arena }
        ensures heads { length self.new.heads.items ≡ length self.old.heads.items }
        ensures pending { (clause : ℕ) → occurrences clause
            (pending_of self.new.arena self.new.visited self.new.pending)
            ≡ watch_count self.new.arena index clause }
    {
        self.pending = self.heads[index].get();
        self.heads[index] = Link::none();
        self.visited = index;
    }

    /// The index, 0 or 1, at which the next clause of the visited list has the visited literal.
    pub fn watched_index(&self, clause: ClauseRef) -> usize
        requires { self.now.pending ≡ Some clause }
        ensures place { result ≤ 1 }
        ensures watched { index_at (lits_at self.now.arena clause) result ≡ self.now.visited }
        ensures long { 2 ≤ length (lits_at self.now.arena clause) }
        ensures apart { AreApart (lits_at self.now.arena clause) }
        ensures live { IsLive self.now.arena clause }
    {
        if self.arena.lit(clause, 0).index() == self.visited {
            0
        } else {
            1
        }
    }

    /// Puts the next clause of the visited list back into it.
    pub fn keep(&mut self, clause: ClauseRef, place: usize)
        requires next { self.old.pending ≡ Some clause }
        requires place { place ≤ 1 }
        requires watched { index_at (lits_at self.old.arena clause) place ≡ self.old.visited }
        requires within { self.old.visited < length self.old.heads.items }
        ensures visited { self.new.visited ≡ self.old.visited }
        ensures heads { length self.new.heads.items ≡ length self.old.heads.items }
        ensures arena { SamePlain self.old.arena self.new.arena }
        ensures pending { pending_of self.old.arena self.old.visited self.old.pending ≡ clause
            ∷ pending_of self.new.arena self.new.visited self.new.pending }
    {
        let next = self.arena.link(clause, place);
        let head = self.heads[self.visited].get();
        self.arena.set_link(clause, place, head);
        self.heads[self.visited] = Link::some(clause);
        self.pending = next;
    }

    /// Lets the next clause of the visited list watch another of its literals.
    pub fn move_watch(&mut self, clause: ClauseRef, place: usize, other: usize)
        requires next { self.old.pending ≡ Some clause }
        requires place { place ≤ 1 }
        requires watched { index_at (lits_at self.old.arena clause) place ≡ self.old.visited }
        requires unwatched { 2 ≤ other }
        requires other { other < length (lits_at self.old.arena clause) }
        requires within { index_at (lits_at self.old.arena clause) other < length
            self.old.heads.items }
        ensures visited { self.new.visited ≡ self.old.visited }
        ensures heads { length self.new.heads.items ≡ length self.old.heads.items }
        ensures arena { ReordersOne clause place other self.old.arena self.new.arena }
        ensures pending { pending_of self.old.arena self.old.visited self.old.pending ≡ clause
            ∷ pending_of self.new.arena self.new.visited self.new.pending }
    {
        let next = self.arena.link(clause, place);
        let index = self.arena.lit(clause, other).index();
        let head = self.heads[index].get();
        self.arena.swap(clause, place, other);
        self.arena.set_link(clause, place, head);
        self.heads[index] = Link::some(clause);
        self.pending = next;
    }

    /// Adds a clause of fewer than two literals, which watches none.
    pub fn add_short(&mut self, lits: &[Lit], number: u64) -> Result<ClauseRef, AllocError>
        requires idle { self.old.pending ≡ None }
        requires short { length lits.now < 2 }
        ensures pending { self.new.pending ≡ None }
        ensures heads { length self.new.heads.items ≡ length self.old.heads.items }
        ensures ok { IfOk result (λ clause.
            AddsPlain self.old.arena self.new.arena clause lits.now number) }
        ensures err { OnErr result (self.new.arena ≡ self.old.arena) }
    {
        self.arena.add(lits, number)
    }

    /// Adds a clause that watches the literals at two of its indices.
    pub fn add_long(
        &mut self,
        lits: &[Lit],
        number: u64,
        first: usize,
        second: usize,
    ) -> Result<ClauseRef, AllocError>
        requires idle { self.old.pending ≡ None }
        requires order { first < second }
        requires places { second < length lits.now }
        requires apart { AreApart lits.now }
        requires within { (k : ℕ) → k < length lits.now
            → index_at lits.now k < length self.old.heads.items }
        ensures pending { self.new.pending ≡ None }
        ensures heads { length self.new.heads.items ≡ length self.old.heads.items }
        ensures ok { IfOk result (λ clause.
            AddsPlain self.old.arena self.new.arena clause (swap (swap lits.now 0 first) 1 second)
            number) }
        ensures err { OnErr result (self.new.arena ≡ self.old.arena) }
    {
        let clause = self.arena.add(lits, number)?;
        let one = lits[first].index();
        let two = lits[second].index();
        self.arena.swap(clause, 0, first);
        self.arena.swap(clause, 1, second);
        self.arena.set_link(clause, 0, self.heads[one].get());
        self.arena.set_link(clause, 1, self.heads[two].get());
        self.heads[one] = Link::some(clause);
        self.heads[two] = Link::some(clause);
        Ok(clause)
    }
}
