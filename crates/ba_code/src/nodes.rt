//! The nodes of three-address code (Aho, Sethi and Ullman, "Compilers", 1986, section 8.1). Operators take
//! constants and variables, and nodes are executed in their order.

use ba_numbers::ids::StmtId;
use ba_numbers::numbers::{BinOp, CType, UnOp};
use ba_tree::run::Place;

/// An array: how many elements it has, from 1 to 256, and their type.
#[derive(Clone, Copy, Debug, PartialEq, Eq)]
pub struct ArrayInfo {
    pub len: u32,
    pub t: CType,
}

/// A parameter of `main`: the variable or array that has it, by number.
#[derive(Clone, Copy, Debug, PartialEq, Eq)]
pub enum Param {
    Var(u32),
    Array(u32),
}

/// An operand: a constant, in the range of `I32` or of `U32`, or the variable of this number.
#[derive(Clone, Copy, Debug, PartialEq, Eq)]
pub enum Operand {
    Const(i64),
    Var(u32),
}

/// What the values of a choice do in place of a relaxed statement. They have to fit, as in a run of the
/// program.
#[derive(Clone, Copy, Debug, PartialEq, Eq)]
pub enum Take {
    /// One value of the type, for the variable.
    Value { to: u32, t: CType },
    /// 0 or 1, for the variable.
    Truth { to: u32 },
    /// An index in the array, and a value of its type for that element.
    Cell { array: u32 },
    /// One value of its type for each element of the array.
    Cells { array: u32 },
    /// No value: nothing happens.
    Nothing,
}

/// A step of a program without calls. Variables and arrays have numbers, from 0. If the node ends the run,
/// the run ends at the statement `stmt` of the program.
pub enum Node {
    /// The variable `to` has the value of `from`.
    Set {
        to: u32,
        from: Operand,
    },
    /// A unary operator that works in the type `t`, which is `I32` or `U32` (C90 6.3.3.3).
    Unary {
        to: u32,
        op: UnOp,
        t: CType,
        a: Operand,
    },
    /// A binary operator that works in the type `t`, which is `I32` or `U32` (C90 6.3.5 to 6.3.12). It traps
    /// on a zero divisor.
    Binary {
        to: u32,
        op: BinOp,
        t: CType,
        a: Operand,
        b: Operand,
        stmt: StmtId,
    },
    /// A conversion to the type `t` (C90 6.2.1).
    Convert {
        to: u32,
        t: CType,
        a: Operand,
    },
    /// The variable `to` has the element at the index. It traps on an index outside the array.
    Load {
        to: u32,
        array: u32,
        index: Operand,
        stmt: StmtId,
    },
    /// The element at the index has the value. It traps on an index outside the array.
    Save {
        array: u32,
        index: Operand,
        value: Operand,
        stmt: StmtId,
    },
    /// Sets all elements of the array to these values, one for each.
    Fill {
        array: u32,
        values: Vec<Operand>,
    },
    /// An execution of a statement that may be relaxed. If its place is relaxed it uses up a choice: Keep
    /// runs `keep`, and the values of Take do what `take` says. If it isn't relaxed, `keep` runs. An
    /// iteration of number 0 in the place is the present iteration of its loop.
    Pick {
        place: Place,
        take: Take,
        keep: Vec<Node>,
    },
    /// Runs the first nodes if the value isn't 0, and else the second.
    If {
        when: Operand,
        yes: Vec<Node>,
        no: Vec<Node>,
    },
    /// Runs the nodes of the body. A `Leave` of the label ends them.
    Block {
        label: u32,
        body: Vec<Node>,
    },
    /// Ends the innermost block around it that has this label.
    Leave {
        label: u32,
    },
    /// A loop: `head`, and if `when` isn't 0 then, `body`, `step` and again. If `after` is true, no `head`
    /// comes before the first iteration, as in a `do`. `stmt` is its condition: a run that passes the bound
    /// on iterations ends there.
    Loop {
        after: bool,
        head: Vec<Node>,
        when: Operand,
        body: Vec<Node>,
        step: Vec<Node>,
        stmt: StmtId,
    },
    /// An assertion, which fails if its value is 0.
    Assert {
        when: Operand,
        stmt: StmtId,
    },
    /// Ends the run, because a bound is passed.
    Beyond {
        stmt: StmtId,
    },
}

impl Drop for Node {
    fn drop(self) {
        match self {
            Node::Set { to: _, from: _ } => {}
            Node::Unary {
                to: _,
                op: _,
                t: _,
                a: _,
            } => {}
            Node::Binary {
                to: _,
                op: _,
                t: _,
                a: _,
                b: _,
                stmt: _,
            } => {}
            Node::Convert { to: _, t: _, a: _ } => {}
            Node::Load {
                to: _,
                array: _,
                index: _,
                stmt: _,
            } => {}
            Node::Save {
                array: _,
                index: _,
                value: _,
                stmt: _,
            } => {}
            Node::Fill {
                array: _,
                values: _,
            } => {}
            Node::Pick {
                place: _,
                take: _,
                keep: _,
            } => {}
            Node::If {
                when: _,
                yes: _,
                no: _,
            } => {}
            Node::Block { label: _, body: _ } => {}
            Node::Leave { label: _ } => {}
            Node::Loop {
                after: _,
                head: _,
                when: _,
                body: _,
                step: _,
                stmt: _,
            } => {}
            Node::Assert { when: _, stmt: _ } => {}
            Node::Beyond { stmt: _ } => {}
        }
    }
}
