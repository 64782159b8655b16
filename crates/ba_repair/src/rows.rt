//! Editable nodes by the number of their statement.

ghost use Rattle.std.specs.Prelude.{◌≡◌, ◌<◌, ℕ, length, IfOk, OnOk};
ghost use Rattle.ba_repair.specs.Nodes.{nodes_of};
ghost use Rattle.ba_repair.specs.Rows.{row_at, with_node};

use crate::nodes::{EditableNode, StmtNode};
use std::alloc::{AllocError, Global};
use std::marker::Model;

/// A row of nodes for each number of a statement, from 0 up to the greatest that has a node. Contracts see
/// the list of rows.
#[derive(Drop)]
pub struct Rows {
    rows: Vec<Vec<EditableNode>>,
}

impl Model for Rows {
    ghost use Rattle.std.specs.Prelude.{List, map};
    ghost use Rattle.ba_repair.specs.declared.nodes.EditableNode.{EditableNode};

    ghost Value = { List (List EditableNode) };

    ghost view = { λ rows. map (λ row. row.items) rows.rows.items };
}

impl Rows {
    /// Makes empty rows up to that of this number. The others stay.
    fn reach(&mut self, alloc: Global, number: u32) -> Result<(), AllocError>
        ensures same { OnOk result ((n : ℕ) → row_at self.new n ≡ row_at self.old n) }
        ensures there { OnOk result (number < length self.new) }
    {
        while self.rows.len() <= number as usize {
            self.rows.push(Vec::new(alloc))?;
        }
        Ok(())
    }

    /// Appends a node at the end of the row of its statement.
    fn add(&mut self, alloc: Global, found: StmtNode) -> Result<(), AllocError>
        ensures { OnOk result ((n : ℕ) → row_at self.new n ≡ with_node (row_at self.old n) n found) }
    {
        self.reach(alloc, found.stmt.0)?;
        self.rows[found.stmt.0 as usize].push(found.node)?;
        Ok(())
    }

    /// The rows of these nodes: in each, those of the statement of its number, in their order.
    ///
    /// The only error is out of memory.
    pub fn new(alloc: Global, found: &[StmtNode]) -> Result<Rows, AllocError>
        ensures { IfOk result (λ rows. (n : ℕ) → row_at rows n ≡ nodes_of n found.now) }
    {
        let mut rows = Rows {
            rows: Vec::new(alloc),
        };
        for node in found {
            rows.add(alloc, *node)?;
        }
        Ok(rows)
    }

    /// The row of a number; without nodes if there is none.
    pub fn at(&self, number: u32) -> &[EditableNode]
        ensures { result.now ≡ row_at self.now number }
    {
        match self.rows.get(number as usize) {
            Some(row) => row.as_slice(),
            None => &[],
        }
    }
}
