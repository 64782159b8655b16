//! The declarations of the code.

ghost use Rattle.std.specs.Prelude.{◌≡◌, [], length, slice_get, IfOk, OnOk};
ghost use Rattle.ba_inline.specs.Declarations.{with_array_info, with_var};
ghost use Rattle.ba_inline.specs.Wiping.{Wipes};

use crate::emit::add_zero;
use ba_code::nodes::{ArrayInfo, Node};
use ba_numbers::numbers::CType;
use std::alloc::{AllocError, Global};
use std::marker::Model;

/// The variables of the code, by their types, and its arrays, by number. A variable is in `in_use` if it is
/// still read, or may not be 0 yet.
pub struct Declared {
    vars: Vec<CType>,
    arrays: Vec<ArrayInfo>,
    in_use: Vec<u32>,
}

impl Drop for Declared {
    fn drop(self) {
        let Declared {
            vars: _,
            arrays: _,
            in_use: _,
        } = self;
    }
}

impl Model for Declared {
    ghost use Rattle.ba_code.specs.Types.{Types};

    ghost Value = { Types };

    ghost view = { λ declared. record {
      vars = declared.vars.items;
      arrays = declared.arrays.items;
    } };
}

/// How many variables and arrays are declared.
#[derive(Clone, Copy)]
pub struct Counts {
    pub vars: usize,
    pub arrays: usize,
}

/// A moment of the translation: how many variables are declared, and how many of them are in use.
#[derive(Clone, Copy)]
pub struct Moment {
    pub vars: usize,
    pub in_use: usize,
}

/// The number of the next entry of a list. Numbers have 32 bits; past them the answer is out of memory.
fn next_number(count: usize) -> Result<u32, AllocError>
    ensures { IfOk result (λ number. number ≡ count) }
{
    if count < u32::MAX as usize {
        Ok(count as u32)
    } else {
        Err(AllocError)
    }
}

impl Declared {
    /// No declarations.
    pub fn new(alloc: Global) -> Declared
        ensures { result ≡ record { vars = []; arrays = [] } }
    {
        Declared {
            vars: Vec::new(alloc),
            arrays: Vec::new(alloc),
            in_use: Vec::new(alloc),
        }
    }

    /// Declares a variable that holds numbers of the type, and gives its number. The caller sets it to 0 when
    /// it is read no more.
    #[inline(never)]
    pub fn own_variable(&mut self, t: CType) -> Result<u32, AllocError>
        ensures { IfOk result (λ number. (number ≡ length self.old.vars)
            × (self.new ≡ with_var t self.old)) }
    {
        let number = next_number(self.vars.len())?;
        self.vars.push(t)?;
        Ok(number)
    }

    /// Declares a variable that holds numbers of the type, and gives its number. It is in use from now on.
    #[inline(never)]
    pub fn variable(&mut self, t: CType) -> Result<u32, AllocError>
        ensures { IfOk result (λ number. (number ≡ length self.old.vars)
            × (self.new ≡ with_var t self.old)) }
    {
        let number = self.own_variable(t)?;
        self.use_on(number)?;
        Ok(number)
    }

    /// A variable is in use from now on.
    pub fn use_on(&mut self, number: u32) -> Result<(), AllocError>
        ensures { self.new ≡ self.old }
    {
        self.in_use.push(number)?;
        Ok(())
    }

    /// The present moment.
    pub fn moment(&self) -> Moment
        ensures { result.vars ≡ length self.now.vars }
    {
        Moment {
            vars: self.vars.len(),
            in_use: self.in_use.len(),
        }
    }

    /// Appends nodes that set to 0 the variables declared since a moment that are in use, except `kept`.
    #[inline(never)]
    pub fn wipe(&self, since: Moment, kept: u32, out: &mut Vec<Node>) -> Result<(), AllocError>
        ensures { OnOk result (Wipes since.vars kept out.old.items out.new.items) }
    {
        if since.in_use >= self.in_use.len() {
            return Ok(());
        }
        let (_, dead) = self.in_use.as_slice().split_at(since.in_use);
        wipe_all(since.vars, kept, out, dead)
    }

    /// Appends nodes that set to 0 the variables declared since a moment that are in use, except `kept`. They
    /// are then in use no more.
    #[inline(never)]
    pub fn give_back(
        &mut self,
        since: Moment,
        kept: u32,
        out: &mut Vec<Node>,
    ) -> Result<(), AllocError>
        ensures same { self.new ≡ self.old }
        ensures wipes { OnOk result (Wipes since.vars kept out.old.items out.new.items) }
    {
        self.wipe(since, kept, out)?;
        self.in_use.truncate(since.in_use);
        Ok(())
    }

    /// Declares an array, and gives its number.
    pub fn array(&mut self, info: ArrayInfo) -> Result<u32, AllocError>
        ensures { IfOk result (λ number. (number ≡ length self.old.arrays)
            × (self.new ≡ with_array_info info self.old)) }
    {
        let number = next_number(self.arrays.len())?;
        self.arrays.push(info)?;
        Ok(number)
    }

    /// The array of this number, if it is declared.
    pub fn info(&self, array: u32) -> Option<ArrayInfo>
        ensures { result ≡ slice_get self.now.arrays array }
    {
        self.arrays.get(array as usize).copied()
    }

    /// The type of the variable of this number, if it is declared.
    pub fn type_of(&self, var: u32) -> Option<CType>
        ensures { result ≡ slice_get self.now.vars var }
    {
        self.vars.get(var as usize).copied()
    }

    /// How many variables and arrays there are.
    pub fn counts(&self) -> Counts
        ensures { result ≡ record {
          vars = length self.now.vars;
          arrays = length self.now.arrays;
        } }
    {
        Counts {
            vars: self.vars.len(),
            arrays: self.arrays.len(),
        }
    }

    /// The types of the variables.
    pub fn vars(&self) -> &[CType]
        ensures { result.now ≡ self.now.vars }
    {
        self.vars.as_slice()
    }

    /// The arrays.
    pub fn arrays(&self) -> &[ArrayInfo]
        ensures { result.now ≡ self.now.arrays }
    {
        self.arrays.as_slice()
    }

    /// The arrays, without the variables.
    pub fn into_arrays(self) -> Vec<ArrayInfo>
        ensures { result.items ≡ self.arrays }
    {
        let Declared {
            vars: _,
            arrays,
            in_use: _,
        } = self;
        arrays
    }
}

/// Appends nodes that set to 0 these variables, if their number is at least `from`, except `kept`.
fn wipe_all(from: usize, kept: u32, out: &mut Vec<Node>, numbers: &[u32]) -> Result<(), AllocError>
    ensures { OnOk result (Wipes from kept out.old.items out.new.items) }
{
    for number in numbers {
        wipe_one(from, kept, out, *number)?;
    }
    Ok(())
}

/// Appends a node that sets a variable to 0, if its number is at least `from` and not `kept`.
fn wipe_one(from: usize, kept: u32, out: &mut Vec<Node>, number: u32) -> Result<(), AllocError>
    ensures { OnOk result (Wipes from kept out.old.items out.new.items) }
{
    if (number as usize) < from || number == kept {
        return Ok(());
    }
    add_zero(out, number)
}
