//! The builder of a word list, and where the run is at the list's end.

ghost use Rattle.std.specs.Prelude.{◌≡◌, ◌<◌, ◌++◌, ◌∷◌, [], ℕ, pos, true, IfOk, OnOk, Some, drop, length, slice_get, slice_set};
ghost use Rattle.ba_code.specs.Facts.{Declared, is_operand};
ghost use Rattle.ba_guards.specs.Making.{AreSides, Closes, Demands, EitherWay, Emits, Fits, Gathers, Joins, Leaving, Opens, Places, Scopes, Switches, fork_at, operand_at, sides_at, word_in};
ghost use Rattle.ba_guards.specs.declared.exits.Exit.{Exit};
ghost use Rattle.ba_guards.specs.Written.{AgreeBut};
ghost use Rattle.ba_wordlist.specs.Facts.{are_names, are_words};
ghost use Rattle.ba_wordlist.specs.Meaning.{values_of};
ghost use Rattle.ba_wordlist.specs.declared.words.WordOp.TheVariants.{Const};

use crate::choices::Offer;
use crate::exits::{Exit, Exits};
use crate::names::Names;
use crate::variables::Variables;
use crate::words::{ONE, Words, ZERO};
use ba_code::nodes::Operand;
use ba_items::Items;
use ba_tree::run::Place;
use ba_wordlist::words::PlaceWords;
use std::alloc::{AllocError, Global};
use std::mem;

/// The list so far, and where the run is at its end. The run comes to the end if the word `live` isn't 0,
/// with the variables at `vars`. The arrays are at `arrays`, whether it does or not. `written` has the
/// numbers of the variables that were written, in order. Those of a branch or block that ended occur once
/// each.
#[derive(Drop)]
pub struct Builder {
    pub words: Words,
    pub require: Names,
    pub places: Items<PlaceWords>,
    pub vars: Variables,
    pub written: Names,
    pub arrays: Names,
    pub live: u32,
    pub exits: Exits,
}

/// Where the run was at some moment: it came there if `live` isn't 0, with the variables at `vars`.
#[derive(Drop)]
pub struct Branch {
    pub live: u32,
    pub vars: Variables,
}

/// A branch whose first side was begun:
/// - the word of its condition
/// - where the run was before, and how many variables had been written then
/// - the path condition `first` of that side
#[derive(Drop)]
pub struct Fork {
    pub which: u32,
    pub first: u32,
    pub since: usize,
    pub before: Branch,
}

/// A branch whose second side was begun:
/// - the word of its condition
/// - the path conditions of the branch, of its first side and of its second
/// - the variables before it, and how many had been written then
/// - where the run was after the first side, and what that side wrote
#[derive(Drop)]
pub struct Sides {
    pub which: u32,
    pub live: u32,
    pub first: u32,
    pub second: u32,
    pub before: Variables,
    pub since: usize,
    pub after: Branch,
    pub written: Names,
}

impl Builder {
    /// The word of an operand.
    pub fn operand(&mut self, operand: Operand) -> Result<u32, AllocError>
        ensures same { IfOk result (λ word. self.new ≡ record self.old { words = self.new.words }) }
        ensures word { IfOk result (λ word. (d : Declared) → Fits d self.old
            → is_operand d operand ≡ true
            → Emits self.old.words self.new.words word
            (λ f. operand_at (values_of f self.old.words) self.old.vars operand)) }
    {
        match operand {
            Operand::Const(value) => {
                let word = self.words.constant(value)?;
                Ok(word)
            }
            Operand::Var(number) => Ok(self.vars.at(number)),
        }
    }

    /// Gives a variable another word.
    pub fn assign(&mut self, to: u32, word: u32) -> Result<(), AllocError>
        ensures { OnOk result (self.new ≡ record self.old {
          vars = slice_set self.old.vars to word;
          written = self.old.written ++ to ∷ [];
        }) }
    {
        self.vars.set(to, word)?;
        self.written.push(to)?;
        Ok(())
    }

    /// Requires a word to be other than 0, if the run comes to the end of the list.
    pub fn demand(&mut self, condition: u32) -> Result<(), AllocError>
        ensures { OnOk result ((d : Declared) → Fits d self.old → condition < length self.old.words
            → Demands d self.old self.new (word_in self.old.words condition)) }
    {
        let met = self.words.select(self.live, condition, ONE)?;
        if self.words.is_met(met) {
            return Ok(());
        }
        self.require.push(met)?;
        Ok(())
    }

    /// Begins the first side of a branch, which is taken if a word isn't 0.
    #[inline(never)]
    pub fn open(&mut self, alloc: Global, which: u32) -> Result<Box<Fork>, AllocError>
        ensures fork { IfOk result
            (λ fork. fork.value ≡ fork_at which (length self.old.written)
            self.new.live self.old.live self.old.vars) }
        ensures opens { IfOk result (λ fork. (d : Declared) → Fits d self.old
            → which < length self.old.words
            → Opens self.old self.new which) }
    {
        let vars = self.vars.copied(alloc)?;
        let first = self.words.select(which, self.live, ZERO)?;
        let before = Branch {
            live: self.live,
            vars,
        };
        self.live = first;
        let fork = Fork {
            which,
            first,
            since: self.written.len(),
            before,
        };
        let fork = Box::new(alloc, fork)?;
        Ok(fork)
    }

    /// Begins the second side, from where the run was before the branch.
    #[inline(never)]
    pub fn switch(&mut self, alloc: Global, fork: Box<Fork>) -> Result<Box<Sides>, AllocError>
        ensures sides { IfOk result
            (λ sides. sides.value ≡ sides_at fork.value self.new.live self.old.live self.old.vars
            self.old.written) }
        ensures switches { IfOk result (λ sides. (d : Declared) → Fits d self.old
            → fork.value.which < length self.old.words
            → fork.value.before.live < length self.old.words
            → Switches fork.value.since fork.value.before.live fork.value.before.vars
            self.old self.new fork.value.which) }
    {
        let Fork {
            which,
            first,
            since,
            before,
        } = Box::into_inner(fork);
        let Branch { live, vars } = before;
        let second = self.words.select(which, ZERO, live)?;
        let written = self.written.behind(alloc, since)?;
        self.written.truncate(since);
        let before = vars.copied(alloc)?;
        let after = Branch {
            live: self.live,
            vars: mem::replace(&mut self.vars, vars),
        };
        self.live = second;
        let sides = Sides {
            which,
            live,
            first,
            second,
            before,
            since,
            after,
            written,
        };
        let sides = Box::new(alloc, sides)?;
        Ok(sides)
    }

    /// Ends both sides of a branch. If neither side leaves a block, the path condition is that of the branch.
    #[inline(never)]
    pub fn join(&mut self, alloc: Global, sides: Box<Sides>) -> Result<(), AllocError>
        ensures { OnOk result ((d : Declared) → Fits d self.old
            → sides.value.after.live < length self.old.words
            → are_names (length self.old.words) sides.value.after.vars ≡ true
            → length sides.value.after.vars ≡ length self.old.vars
            → AreSides self.old.words sides.value
            → AgreeBut sides.value.written sides.value.before sides.value.after.vars
            → AgreeBut (drop sides.value.since self.old.written) sides.value.before self.old.vars
            → Joins sides.value.since sides.value.before
            sides.value.after.live sides.value.after.vars self.old self.new) }
    {
        let sides = Box::into_inner(sides);
        let numbers = self.written.since(alloc, sides.since, &sides.written)?;
        self.join_sides(alloc, &numbers, &sides)?;
        self.write_since(alloc, sides.since, &sides.before, &numbers)?;
        Ok(())
    }

    /// Goes on after both sides, whose variables have the same words except for these.
    fn join_sides(
        &mut self,
        alloc: Global,
        numbers: &Names,
        sides: &Sides,
    ) -> Result<(), AllocError>
        ensures same { OnOk result (self.new ≡ record self.old {
          words = self.new.words;
          live = self.new.live;
          vars = self.new.vars;
        }) }
        ensures kept { OnOk result (AgreeBut numbers.now sides.now.after.vars self.old.vars
            → AgreeBut numbers.now self.old.vars self.new.vars) }
        ensures ways { OnOk result ((d : Declared) → Fits d self.old
            → sides.now.after.live < length self.old.words
            → are_names (length self.old.words) sides.now.after.vars ≡ true
            → length sides.now.after.vars ≡ length self.old.vars
            → AreSides self.old.words sides.now
            → AgreeBut numbers.now sides.now.after.vars self.old.vars
            → EitherWay self.old.words self.new.words (length self.old.vars) sides.now.after.live
            sides.now.after.vars self.old.live self.old.vars self.new.live self.new.vars) }
    {
        let after = &sides.after;
        if (after.live == sides.first) & (self.live == sides.second) {
            self.vars.merge(
                &mut self.words,
                sides.which,
                &after.vars,
                numbers.as_slice(),
            )?;
            self.live = sides.live;
            return Ok(());
        }
        either_way(
            alloc,
            &mut self.words,
            numbers,
            after.live,
            &after.vars,
            &mut self.live,
            &mut self.vars,
        )?;
        Ok(())
    }

    /// Of the variables written since a moment, keeps in `written` those that have other words than then.
    fn write_since(
        &mut self,
        alloc: Global,
        since: usize,
        before: &Variables,
        numbers: &Names,
    ) -> Result<(), AllocError>
        ensures same { OnOk result (self.new ≡ record self.old { written = self.new.written }) }
        ensures gathers { OnOk result (AgreeBut numbers.now before.now self.old.vars
            → Gathers since before.now self.old self.new) }
    {
        let changed = self.vars.changed(alloc, before, numbers.as_slice())?;
        self.written.truncate(since);
        self.written.append(&changed)?;
        Ok(())
    }

    /// Begins a block.
    #[inline(never)]
    pub fn begin_block(&mut self, alloc: Global, label: u32) -> Result<(), AllocError>
        ensures { OnOk result (Scopes self.old self.new label) }
    {
        let base = self.vars.copied(alloc)?;
        let vars = self.vars.copied(alloc)?;
        self.exits.push(Exit {
            label,
            since: self.written.len(),
            base,
            live: ZERO,
            vars,
            written: Names::new(alloc),
        })?;
        Ok(())
    }

    /// Ends the innermost block.
    #[inline(never)]
    pub fn end_block(&mut self, alloc: Global) -> Result<(), AllocError>
        ensures { OnOk result ((d : Declared) → Fits d self.old
            → (exit : Exit) × Closes self.old self.new exit) }
    {
        let Some(exit) = self.exits.pop() else {
            return Ok(());
        };
        let numbers = self.written.since(alloc, exit.since, &exit.written)?;
        either_way(
            alloc,
            &mut self.words,
            &numbers,
            exit.live,
            &exit.vars,
            &mut self.live,
            &mut self.vars,
        )?;
        self.write_since(alloc, exit.since, &exit.base, &numbers)?;
        Ok(())
    }

    /// Leaves the innermost block of a label.
    pub fn leave(&mut self, alloc: Global, label: u32) -> Result<(), AllocError>
        ensures { OnOk result ((d : Declared) → Fits d self.old → Leaving self.old self.new label) }
    {
        let index = self.exits.position(label);
        let Some(exit) = self.exits.get(index) else {
            return Ok(());
        };
        let numbers = self.written.since(alloc, exit.since, &exit.written)?;
        let mut live = exit.live;
        let mut vars = exit.vars.copied(alloc)?;
        either_way(
            alloc,
            &mut self.words,
            &numbers,
            self.live,
            &self.vars,
            &mut live,
            &mut vars,
        )?;
        let written = vars.changed(alloc, &exit.base, numbers.as_slice())?;
        self.exits.set(index, live, vars, written);
        self.live = ZERO;
        Ok(())
    }

    /// Adds an execution of a statement that may be relaxed at the end of the list, with the words of its
    /// choice.
    #[inline(never)]
    pub fn add_place(
        &mut self,
        alloc: Global,
        place: &Place,
        offer: &Offer,
    ) -> Result<(), AllocError>
        ensures { OnOk result (Places self.old self.new place.now offer.now.keep offer.now.values) }
    {
        let path = Items::from_slice(alloc, place.path.as_slice())?;
        let values = Items::from_slice(alloc, offer.values.as_slice())?;
        self.places.push(PlaceWords {
            place: Place {
                path,
                stmt: place.stmt,
            },
            guard: self.live,
            keep: offer.keep,
            values,
        })?;
        Ok(())
    }
}

/// The run after two ways, of which it takes at most one. `live` and `vars` are those of the other way
/// before, and of both after. All variables but these have the same word on both ways.
///
/// The only error is out of memory.
#[inline(never)]
fn either_way(
    alloc: Global,
    words: &mut Words,
    numbers: &Names,
    way_live: u32,
    way_vars: &Variables,
    live: &mut u32,
    vars: &mut Variables,
) -> Result<(), AllocError>
    ensures kept { OnOk result (AgreeBut numbers.now way_vars.now vars.old
        → AgreeBut numbers.now vars.old vars.new) }
    ensures ways { OnOk result (are_words words.old ≡ true
        → slice_get words.old 1 ≡ Some (Const (pos 1))
        → way_live < length words.old → are_names (length words.old) way_vars.now ≡ true
        → live.old < length words.old → are_names (length words.old) vars.old ≡ true
        → length way_vars.now ≡ length vars.old → AgreeBut numbers.now way_vars.now vars.old
        → EitherWay words.old words.new (length vars.old) way_live way_vars.now live.old vars.old
        live.new vars.new) }
{
    if words.is_zero(way_live) {
        return Ok(());
    }
    if words.is_zero(*live) {
        let copied = way_vars.copied(alloc)?;
        *live = way_live;
        *vars = copied;
        return Ok(());
    }
    vars.merge(words, way_live, way_vars, numbers.as_slice())?;
    let both = words.select(way_live, ONE, *live)?;
    *live = both;
    Ok(())
}
