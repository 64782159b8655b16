//! Models of formulas.

ghost use Rattle.std.specs.Prelude.{◌≡◌, ◌≤◌, ◌-◌, length};
ghost use Rattle.ba_lits.specs.Satisfaction.{assignment_of};

use ba_items::Items;

/// An assignment of the variables from 1 on: variable v has the value at index v - 1.
#[derive(Debug, Drop)]
pub struct Model {
    /// The values in the order of the variables.
    pub values: Items<bool>,
}

impl Model {
    /// The value of a variable.
    pub fn value(&self, variable: u64) -> bool
        requires counted { 1 ≤ variable }
        requires within { variable ≤ length self.now.values }
        ensures { result ≡ assignment_of self.now.values variable }
    {
        self.values.as_slice()[variable as usize - 1]
    }
}
