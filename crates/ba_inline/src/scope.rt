//! Where the code keeps the parts of a program's state.

ghost use Rattle.std.specs.Prelude.{◌≡◌, ◌++◌, ◌∷◌, [], pos, Some, length, replicate, slice_get, IfOk, OnOk};
ghost use Rattle.ba_inline.specs.Names.{array_of, location_at, name_of, with_location, with_name};

use ba_code::nodes::Operand;
use ba_numbers::ids::VarId;
use std::alloc::{AllocError, Global};
use std::marker::Model;

/// The operand of each variable of the program, the location of each array variable, and the code's array for
/// each location.
pub struct Scope {
    values: Vec<Operand>,
    locations: Vec<u32>,
    arrays: Vec<u32>,
}

impl Drop for Scope {
    fn drop(self) {
        let Scope {
            values: _,
            locations: _,
            arrays: _,
        } = self;
    }
}

impl Model for Scope {
    ghost use Rattle.ba_inline.specs.Names.{Names};

    ghost Value = { Names };

    ghost view = { λ scope. record {
      values = scope.values.items;
      locations = scope.locations.items;
      arrays = scope.arrays.items;
    } };
}

impl Scope {
    /// A scope with this many variables, none of which is in use, and no array.
    pub fn new(alloc: Global, variables: usize) -> Result<Scope, AllocError>
        ensures { IfOk result (λ scope. scope ≡ record {
          values = replicate variables (Operand.Const (pos 0));
          locations = replicate variables 0;
          arrays = [];
        }) }
    {
        Ok(Scope {
            values: vec![in alloc; Operand::Const(0); variables]?,
            locations: vec![in alloc; 0; variables]?,
            arrays: Vec::new(alloc),
        })
    }

    /// Another copy of the scope.
    pub fn copy(&self, alloc: Global) -> Result<Scope, AllocError>
        ensures { IfOk result (λ copy. copy ≡ self.now) }
    {
        Ok(Scope {
            values: Vec::from_slice(alloc, self.values.as_slice())?,
            locations: Vec::from_slice(alloc, self.locations.as_slice())?,
            arrays: Vec::from_slice(alloc, self.arrays.as_slice())?,
        })
    }

    /// The operand of a variable.
    pub fn value(&self, var: VarId) -> Operand
        ensures { result ≡ name_of self.now var }
    {
        self.values
            .get(var.0 as usize)
            .copied()
            .unwrap_or(Operand::Const(0))
    }

    /// The code's variable for a variable that is in use. Each variable that a program assigns to is in use.
    pub fn variable(&self, var: VarId) -> Result<u32, AllocError>
        ensures { IfOk result (λ number. slice_get self.now.values var.0
            ≡ Some (Operand.Var number)) }
    {
        match self.values.get(var.0 as usize) {
            Some(Operand::Var(number)) => Ok(*number),
            _ => Err(AllocError),
        }
    }

    /// The location that an array variable names.
    pub fn location(&self, array: VarId) -> u32
        ensures { result ≡ location_at self.now array }
    {
        self.locations.get(array.0 as usize).copied().unwrap_or(0)
    }

    /// The code's array for an array variable that is in use. Each array that a program names is in use.
    pub fn array(&self, array: VarId) -> Result<u32, AllocError>
        ensures { IfOk result (λ number. array_of self.now array ≡ Some number) }
    {
        match self.arrays.get(self.location(array) as usize) {
            Some(number) => Ok(*number),
            None => Err(AllocError),
        }
    }

    /// Makes a variable read as a variable of the code.
    pub fn set_value(&mut self, var: VarId, number: u32)
        ensures { self.new ≡ with_name var number self.old }
    {
        let place = var.0 as usize;
        if place < self.values.len() {
            self.values[place] = Operand::Var(number);
        }
    }

    /// Makes an array variable name a location.
    pub fn set_location(&mut self, array: VarId, location: u32)
        ensures { self.new ≡ with_location array location self.old }
    {
        let place = array.0 as usize;
        if place < self.locations.len() {
            self.locations[place] = location;
        }
    }

    /// Adds one of the code's arrays, and gives its location.
    pub fn add_array(&mut self, number: u32) -> Result<u32, AllocError>
        ensures { IfOk result (λ location. (location ≡ length self.old.arrays)
            × (self.new ≡ record self.old { arrays = self.old.arrays ++ number ∷ [] })) }
    {
        let location = self.arrays.len();
        if location >= u32::MAX as usize {
            return Err(AllocError);
        }
        self.arrays.push(number)?;
        Ok(location as u32)
    }
}
