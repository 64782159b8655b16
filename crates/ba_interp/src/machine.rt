//! The state of a run, and all access to it.

ghost use Rattle.std.specs.Prelude.{◌≡◌, ℕ, ℤ, pos, Option, None, Some, List, [], ◌∷◌, length, replicate, take, slice_set, true, false, unsigned_abs, MatchOption, IfOk, OnOk, option_map};
ghost use Rattle.ba_tree.specs.Choices.{choice_at};
ghost use Rattle.ba_tree.specs.Meaning.{declare, elements_with, or_trap, set_element};
ghost use Rattle.ba_tree.specs.Run.{begin_shape, bind_one, with_input_one};
ghost use Rattle.ba_tree.specs.State.{State, element_at, elements_of, is_index, location_of, value_at, with_elements, with_value};
ghost use Rattle.ba_interp.specs.Doing.{Did, ok_map};
ghost use Rattle.ba_interp.specs.Frames.{taken_of};

use crate::stop::Stop;
use ba_choices::{Choice, Values};
use ba_numbers::ids::{StmtId, VarId};
use ba_tree::run::{Argument, Exit, Flow, Halt};
use ba_tree::tree::Shape;
use std::alloc::{AllocError, Global};
use std::marker::Model;

/// The elements of an array.
#[derive(Drop)]
pub struct Elements {
    items: Vec<i64>,
}

impl Model for Elements {
    ghost use Rattle.std.specs.Prelude.{List, ℤ};

    ghost Value = { List ℤ };

    ghost view = { λ elements. elements.items.items };
}

/// Whether an index is in an array of this length.
pub fn is_index(count: usize, index: i64) -> bool
    ensures { result ≡ is_index count index }
{
    0 <= index && (index as u64) < count as u64
}

/// Sets the elements to these values in order, and the rest to 0.
fn fill(elements: &mut [i64], values: &[i64])
    ensures { elements.new ≡ elements_with (length elements.old) values.now }
{
    for k in 0..elements.len() {
        elements[k] = values.get(k).copied().unwrap_or(0);
    }
}

impl Elements {
    /// An array of `count` elements, each 0.
    fn zeros(alloc: Global, count: usize) -> Result<Elements, AllocError>
        ensures { IfOk result (λ elements. elements ≡ replicate count (pos 0)) }
    {
        Ok(Elements {
            items: vec![in alloc; 0; count]?,
        })
    }

    /// The elements.
    fn as_slice(&self) -> &[i64]
        ensures { result.now ≡ self.now }
    {
        self.items.as_slice()
    }

    /// Sets the elements to these values in order, and the rest to 0.
    fn fill(&mut self, values: &[i64])
        ensures { self.new ≡ elements_with (length self.old) values.now }
    {
        fill(&mut self.items, values);
    }

    /// Sets the element at an index, and tells whether the index is in the array.
    fn set(&mut self, index: i64, value: i64) -> bool
        ensures there { result ≡ is_index (length self.old) index }
        ensures set { result ≡ true → self.new ≡ slice_set self.old (unsigned_abs index) value }
        ensures same { result ≡ false → self.new ≡ self.old }
    {
        if !is_index(self.items.len(), index) {
            return false;
        }
        self.items[index as usize] = value;
        true
    }
}

/// The state of a run: the value of each variable, the arrays by location, and the location that each array
/// variable names. The choices not used up yet belong to it.
pub struct Machine<'a> {
    values: Vec<i64>,
    arrays: Vec<Elements>,
    locations: Vec<usize>,
    choices: &'a [Choice],
}

impl<'a> Drop for Machine<'a> {
    fn drop(self) {
        let Machine {
            values: _,
            arrays: _,
            locations: _,
            choices: _,
        } = self;
    }
}

impl<'a> Model for Machine<'a> {
    ghost use Rattle.ba_tree.specs.State.{State};

    ghost Value = { State };

    ghost view = { λ machine. record {
      values = machine.values.items;
      arrays = machine.arrays.items;
      locations = machine.locations.items;
      choices = machine.choices.now;
    } };
}

/// The entry of a variable before a call: its value, and the location that it named.
#[derive(Clone, Copy)]
pub struct Taken {
    value: i64,
    location: usize,
}

impl<'a> Machine<'a> {
    /// A state with `count` variables, each 0, no array, and all choices unused.
    pub fn new(
        alloc: Global,
        variables: usize,
        choices: &'a [Choice],
    ) -> Result<Machine<'a>, AllocError>
        ensures { IfOk result (λ machine. machine ≡ record {
          values = replicate variables (pos 0);
          arrays = [];
          locations = replicate variables 0;
          choices = choices.now;
        }) }
    {
        Ok(Machine {
            values: vec![in alloc; 0; variables]?,
            arrays: Vec::new(alloc),
            locations: vec![in alloc; 0; variables]?,
            choices,
        })
    }

    /// The value of a variable.
    pub fn value(&self, var: VarId) -> i64
        ensures { result ≡ value_at self.now var }
    {
        self.values.get(var.0 as usize).copied().unwrap_or(0)
    }

    /// Sets the value of a variable.
    pub fn set_value(&mut self, var: VarId, value: i64)
        ensures { self.new ≡ with_value self.old var value }
    {
        let place = var.0 as usize;
        if place < self.values.len() {
            self.values[place] = value;
        }
    }

    /// The location that an array variable names.
    pub fn location(&self, array: VarId) -> usize
        ensures { result ≡ location_of self.now array }
    {
        self.locations.get(array.0 as usize).copied().unwrap_or(0)
    }

    /// Makes an array variable name a location.
    pub fn set_location(&mut self, array: VarId, location: usize)
        ensures { self.new ≡ record self.old {
          locations = slice_set self.old.locations array.0
              location;
        } }
    {
        let place = array.0 as usize;
        if place < self.locations.len() {
            self.locations[place] = location;
        }
    }

    /// The elements of the array that a variable names.
    pub fn elements(&self, array: VarId) -> &[i64]
        ensures { result.now ≡ elements_of self.now array }
    {
        match self.arrays.get(self.location(array)) {
            Some(elements) => elements.as_slice(),
            None => &[],
        }
    }

    /// Sets the elements of the array that a variable names to these values in order, and the rest to 0.
    pub fn set_elements(&mut self, array: VarId, values: &[i64])
        ensures { self.new ≡ with_elements self.old array (elements_with (length
            (elements_of self.old array)) values.now) }
    {
        let location = self.location(array);
        if location < self.arrays.len() {
            self.arrays[location].fill(values);
        }
    }

    /// The element of an array at an index, or a trap at this statement.
    pub fn element(&self, here: StmtId, array: VarId, index: i64) -> Result<i64, Stop>
        ensures { (s : State) → Did result s (or_trap here (element_at self.now array index) s) }
    {
        let elements = self.elements(array);
        if !is_index(elements.len(), index) {
            return Err(Stop::Halts(Halt::Trap(here)));
        }
        Ok(elements[index as usize])
    }

    /// Sets the element of an array at an index, or traps at this statement.
    pub fn set_element(
        &mut self,
        here: StmtId,
        array: VarId,
        index: i64,
        value: i64,
    ) -> Result<Flow<Exit>, Stop>
        ensures { Did result self.new (set_element here array (index, value) self.old) }
    {
        let location = self.location(array);
        if location < self.arrays.len() && self.arrays[location].set(index, value) {
            return Ok(Flow::Next);
        }
        Err(Stop::Halts(Halt::Trap(here)))
    }

    /// Uses up the next choice, if there is one.
    fn next_choice(&mut self) -> Option<&'a Choice>
        ensures { MatchOption result ((self.old.choices ≡ []) × (self.new ≡ self.old))
            (λ choice. self.old ≡ record self.new { choices = choice.now ∷ self.new.choices }) }
    {
        let (choice, others) = self.choices.split_first()?;
        self.choices = others;
        Some(choice)
    }

    /// The values that replace a statement's own expressions; none if it isn't relaxed or is kept.
    pub fn choice_at(&mut self, admitted: bool) -> Result<Option<&'a Values>, Stop>
        ensures { Did (ok_map (option_map (λ values. values.now)) result) self.new
            (choice_at admitted self.old) }
    {
        if !admitted {
            return Ok(None);
        }
        match self.next_choice() {
            None => Err(Stop::Halts(Halt::WrongChoices)),
            Some(Choice::Keep) => Ok(None),
            Some(Choice::Take(values)) => Ok(Some(values)),
        }
    }

    /// How many choices are not used yet.
    pub fn left(&self) -> usize
        ensures { result ≡ length self.now.choices }
    {
        self.choices.len()
    }

    /// A variable begins as 0, an array with a new location.
    pub fn begin(&mut self, alloc: Global, shape: Shape, var: VarId) -> Result<(), AllocError>
        ensures { OnOk result (self.new ≡ begin_shape shape var self.old) }
    {
        match shape {
            Shape::Value => self.set_value(var, 0),
            Shape::Array(count) => {
                let location = self.arrays.len();
                self.arrays.push(Elements::zeros(alloc, count as usize)?)?;
                self.set_location(var, location);
            }
            Shape::Passed => {}
        }
        Ok(())
    }

    /// A parameter has the value, or names the array, of its argument.
    pub fn bind(&mut self, param: VarId, argument: Argument)
        ensures { self.new ≡ bind_one param argument self.old }
    {
        match argument {
            Argument::Value(value) => self.set_value(param, value),
            Argument::Array(location) => self.set_location(param, location),
        }
    }

    /// A parameter of `main` has what the input gives it.
    pub fn give(&mut self, shape: Shape, param: VarId, values: &[i64])
        ensures { self.new ≡ with_input_one shape param values.now self.old }
    {
        match shape {
            Shape::Value => self.set_value(param, values.first().copied().unwrap_or(0)),
            Shape::Array(_) => self.set_elements(param, values),
            Shape::Passed => {}
        }
    }

    /// A declaration sets its variable, or all elements of its array, to 0.
    pub fn declare(&mut self, shape: Shape, var: VarId)
        ensures { self.new ≡ declare shape var self.old }
    {
        match shape {
            Shape::Value => self.set_value(var, 0),
            Shape::Array(_) => self.set_elements(var, &[]),
            Shape::Passed => {}
        }
    }

    /// The entry of a variable, to be restored later.
    pub fn taken(&self, var: VarId) -> Taken
        ensures { result ≡ taken_of self.now var }
    {
        Taken {
            value: self.value(var),
            location: self.location(var),
        }
    }

    /// Restores the entry of a variable.
    pub fn give_back(&mut self, var: VarId, taken: Taken)
        ensures { self.new ≡ record self.old {
          values = slice_set self.old.values var.0 taken.value;
          locations = slice_set self.old.locations var.0 taken.location;
        } }
    {
        self.set_value(var, taken.value);
        self.set_location(var, taken.location);
    }

    /// How many arrays there are.
    pub fn arrays(&self) -> usize
        ensures { result ≡ length self.now.arrays }
    {
        self.arrays.len()
    }

    /// Drops all arrays but the first `count`.
    pub fn cut(&mut self, count: usize)
        ensures { self.new ≡ record self.old { arrays = take count self.old.arrays } }
    {
        self.arrays.truncate(count);
    }
}
