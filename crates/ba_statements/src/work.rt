//! What type checking has made of a program so far.

ghost use Rattle.std.specs.Prelude.{◌≡◌, [], ◌∷◌, ◌++◌, ◌+◌, IfOk, OnOk, length, map};
ghost use Rattle.ba_statements.specs.Adding.{Numbers, no_work, with_constant, with_elements, with_variable};
ghost use Rattle.ba_tree.specs.Trees.{tree_of_stmt};

use ba_expressions::tally::Tally;
use ba_items::Items;
use ba_numbers::ids::{At, StmtId, VarId};
use ba_tree::tree::{Stmt, StmtInfo, StmtKind, Variable};
use std::alloc::{AllocError, Global};

/// The limit on variables and enumeration constants together.
const VARIABLE_LIMIT: u32 = 2000;

/// The limit on numbered statements.
const STATEMENT_LIMIT: u32 = 4000;

/// The limit on elements of all arrays together.
const ELEMENT_LIMIT: u32 = 1024;

/// The variables and numbered statements in the order of the text; how many enumeration constants and array
/// elements there are; and the calls and faults.
#[derive(Drop)]
pub struct Work {
    pub variables: Items<Variable>,
    pub constants: u32,
    pub statements: Items<StmtInfo>,
    pub elements: u32,
    pub tally: Tally,
}

impl Work {
    /// Nothing yet. It takes no memory.
    pub fn new(alloc: Global) -> Work
        ensures { result ≡ no_work }
    {
        Work {
            variables: Items::new(alloc),
            constants: 0,
            statements: Items::new(alloc),
            elements: 0,
            tally: Tally::new(),
        }
    }

    /// The number of the next variable. The only error is out of memory, also if the numbers run out.
    pub fn next_variable(&self) -> Result<VarId, AllocError>
        ensures { IfOk result (λ var. var ≡ record { 0 = length self.now.variables }) }
    {
        let count = number_of(self.variables.len())?;
        Ok(VarId(count))
    }

    /// Adds a variable whose name is at this position; past the limit it is a fault.
    ///
    /// The only error is out of memory, also if the numbers run out.
    pub fn add_variable(&mut self, at: At, variable: Variable) -> Result<VarId, AllocError>
        ensures var { IfOk result (λ var. var ≡ record { 0 = length self.old.variables }) }
        ensures added { OnOk result (self.new ≡ with_variable self.old at variable) }
    {
        let count = number_of(self.variables.len())?;
        let number = self.next_name(count)?;
        self.variables.push(variable)?;
        self.tally.add_limit(VARIABLE_LIMIT, number, at);
        Ok(VarId(count))
    }

    /// Adds an enumeration constant whose name is at this position; past the limit it is a fault.
    ///
    /// The only error is out of memory, also if the numbers run out.
    pub fn add_constant(&mut self, at: At) -> Result<(), AllocError>
        ensures { OnOk result (self.new ≡ with_constant self.old at) }
    {
        let count = number_of(self.variables.len())?;
        let number = self.next_name(count)?;
        let Some(constants) = self.constants.checked_add(1) else {
            return Err(AllocError);
        };
        self.constants = constants;
        self.tally.add_limit(VARIABLE_LIMIT, number, at);
        Ok(())
    }

    /// The number of the next variable or constant, after this many variables. The only error is out of
    /// memory, also if the numbers run out.
    fn next_name(&self, variables: u32) -> Result<u32, AllocError>
        ensures { IfOk result (λ number. number ≡ variables + self.now.constants + 1) }
    {
        let Some(names) = variables.checked_add(self.constants) else {
            return Err(AllocError);
        };
        match names.checked_add(1) {
            Some(number) => Ok(number),
            None => Err(AllocError),
        }
    }

    /// Numbers a statement of this kind, whose first token is at this position; past the limit it is a fault.
    ///
    /// The only error is out of memory, also if the numbers run out.
    pub fn number(&mut self, at: At, kind: StmtKind) -> Result<StmtId, AllocError>
        ensures { IfOk result (λ stmt. Numbers at kind stmt self.old self.new) }
    {
        let count = number_of(self.statements.len())?;
        let Some(number) = count.checked_add(1) else {
            return Err(AllocError);
        };
        self.statements.push(StmtInfo { at, kind })?;
        self.tally.add_limit(STATEMENT_LIMIT, number, at);
        Ok(StmtId(number))
    }

    /// Adds `count` elements of an array whose name is at this position; past the limit they are a fault.
    ///
    /// The only error is out of memory, also if the numbers run out.
    pub fn add_elements(&mut self, count: u32, at: At) -> Result<(), AllocError>
        ensures { OnOk result (self.new ≡ with_elements self.old count at) }
    {
        let Some(elements) = self.elements.checked_add(count) else {
            return Err(AllocError);
        };
        self.elements = elements;
        self.tally.add_limit(ELEMENT_LIMIT, elements, at);
        Ok(())
    }
}

/// A count as a number of 32 bits. The only error is out of memory, also if the count needs more.
pub(crate) fn number_of(count: usize) -> Result<u32, AllocError>
    ensures { IfOk result (λ number. number ≡ count) }
{
    match u32::try_from(count) {
        Ok(number) => Ok(number),
        Err(_) => Err(AllocError),
    }
}

/// Appends a statement. The only error is out of memory.
pub fn put(stmts: &mut Vec<Stmt>, stmt: Stmt) -> Result<(), AllocError>
    ensures { OnOk result
        (map tree_of_stmt stmts.new.items
        ≡ map tree_of_stmt stmts.old.items ++ tree_of_stmt stmt ∷ []) }
{
    stmts.push(stmt)?;
    Ok(())
}
