//! The typed tree of a C program.

ghost use Rattle.std.specs.Prelude.{IsTrue};
ghost use Rattle.ba_tree.specs.Facts.{is_program};

use ba_items::Items;
use ba_numbers::ids::{At, CallId, FnId, StmtId, VarId};
use ba_numbers::numbers::{BinOp, CType, UnOp};

/// An expression, with each conversion written out (C90 6.2.1, 6.3).
#[cycle(expression)]
pub enum Expr {
    /// A constant, in the range of its type.
    Const {
        t: CType,
        value: i64,
    },
    /// The value of a variable.
    Var {
        var: VarId,
    },
    /// An element of an array (C90 6.3.2.1).
    Element {
        array: VarId,
        index: Box<Expr>,
    },
    /// A unary operator that works in the type `t` (C90 6.3.3.3). The value of `IsZero` has the type `I32`.
    Unary {
        op: UnOp,
        t: CType,
        a: Box<Expr>,
    },
    /// A binary operator that works in the type `t`; the left operand is evaluated first (C90 6.3.5 to
    /// 6.3.12). The value of a comparison has the type `I32`.
    Binary {
        op: BinOp,
        t: CType,
        a: Box<Expr>,
        b: Box<Expr>,
    },
    /// C's `&&`: the right side is evaluated only if the left one isn't 0 (C90 6.3.13).
    AndAlso {
        a: Box<Expr>,
        b: Box<Expr>,
    },
    /// C's `||`: the right side is evaluated only if the left one is 0 (C90 6.3.14).
    OrElse {
        a: Box<Expr>,
        b: Box<Expr>,
    },
    /// C's `?:`, whose branches have the type `t`; only one of them is evaluated (C90 6.3.15).
    Select {
        t: CType,
        when: Box<Expr>,
        yes: Box<Expr>,
        no: Box<Expr>,
    },
    /// A conversion to the type `t`, written or implied (C90 6.2.1, 6.3.4).
    Convert {
        t: CType,
        a: Box<Expr>,
    },
    /// The value of a call of a function that has a result (C90 6.3.2.2).
    Call {
        call: CallId,
        function: FnId,
        args: Vec<Arg>,
    },
}

impl Drop for Expr {
    #[cycle(expression)]
    fn drop(self) {
        match self {
            Expr::Const { t: _, value: _ } => {}
            Expr::Var { var: _ } => {}
            Expr::Element { array: _, index: _ } => {}
            Expr::Unary { op: _, t: _, a: _ } => {}
            Expr::Binary {
                op: _,
                t: _,
                a: _,
                b: _,
            } => {}
            Expr::AndAlso { a: _, b: _ } => {}
            Expr::OrElse { a: _, b: _ } => {}
            Expr::Select {
                t: _,
                when: _,
                yes: _,
                no: _,
            } => {}
            Expr::Convert { t: _, a: _ } => {}
            Expr::Call {
                call: _,
                function: _,
                args: _,
            } => {}
        }
    }
}

/// An argument of a call: a value, or an array, which the parameter then names.
#[cycle(expression)]
pub enum Arg {
    Value(Expr),
    Array(VarId),
}

impl Drop for Arg {
    #[cycle(expression)]
    fn drop(self) {
        match self {
            Arg::Value(_) => {}
            Arg::Array(_) => {}
        }
    }
}

/// A `case` label of a `switch` (C90 6.6.1, 6.6.4.2). It has its constant, converted to the type of the
/// controlling expression, and how many statements of the body are before it.
#[derive(Clone, Copy, Debug, PartialEq, Eq)]
pub struct Start {
    pub value: i64,
    pub at: u32,
}

/// A statement (C90 6.6), or a declaration that is executed (C90 6.5). Those with a `stmt` are numbered:
/// asserts, and all that a report can name.
pub enum Stmt {
    /// A block's statements, one after the other (C90 6.6.2).
    Block {
        body: Vec<Stmt>,
    },
    /// The declaration of a local variable, which sets it, or all elements of an array, to 0.
    Declare {
        var: VarId,
    },
    /// The initialiser of a variable; the value has the variable's type (C90 6.5.7).
    Init {
        stmt: StmtId,
        var: VarId,
        value: Expr,
    },
    /// The initialiser of an array: all values are evaluated before it is set, and the elements that have no
    /// value are 0 (C90 6.5.7).
    InitArray {
        stmt: StmtId,
        array: VarId,
        values: Vec<Expr>,
    },
    /// An assignment to a variable; the value has the variable's type (C90 6.3.16).
    Assign {
        stmt: StmtId,
        var: VarId,
        value: Expr,
    },
    /// An assignment to an element of an array; the index is evaluated before the value, and tested after it
    /// (C90 6.3.16).
    Store {
        stmt: StmtId,
        array: VarId,
        index: Expr,
        value: Expr,
    },
    /// C's `if` (C90 6.6.4.1); `stmt` is its condition.
    If {
        stmt: StmtId,
        when: Expr,
        yes: Box<Stmt>,
        no: Option<Box<Stmt>>,
    },
    /// C's `switch` (C90 6.6.4.2); `stmt` is its controlling expression, whose promoted type is `t`. The body
    /// is executed from the label of its value on. Without one it is executed from `default` on, which is
    /// after `other` statements, or not at all.
    Switch {
        stmt: StmtId,
        t: CType,
        on: Expr,
        starts: Vec<Start>,
        other: Option<u32>,
        body: Vec<Stmt>,
    },
    /// C's `while` (C90 6.6.5.1); `stmt` is its condition.
    While {
        stmt: StmtId,
        when: Expr,
        body: Box<Stmt>,
    },
    /// C's `do` (C90 6.6.5.2); `stmt` is its condition.
    DoWhile {
        stmt: StmtId,
        when: Expr,
        body: Box<Stmt>,
    },
    /// C's `for` (C90 6.6.5.3); `stmt` is its condition, which is the constant 1 if none is written.
    For {
        stmt: StmtId,
        first: Vec<Stmt>,
        when: Expr,
        step: Vec<Stmt>,
        body: Box<Stmt>,
    },
    /// C's `break` (C90 6.6.6.3).
    Break,
    /// C's `continue` (C90 6.6.6.2).
    Continue,
    /// A `return` with a value of the function's type (C90 6.6.6.4).
    Return {
        stmt: StmtId,
        value: Expr,
    },
    /// A `return` without a value (C90 6.6.6.4).
    ReturnNone,
    /// A call statement; the function's value, if it has one, is not used (C90 6.6.3).
    CallStmt {
        stmt: StmtId,
        call: CallId,
        function: FnId,
        args: Vec<Arg>,
    },
    /// A `printf`, which evaluates its arguments after the format and prints nothing (C90 7.9.6.3).
    Print {
        stmt: StmtId,
        args: Vec<Expr>,
    },
    /// An assertion, which fails if its value is 0 (C90 7.2.1.1).
    Assert {
        stmt: StmtId,
        when: Expr,
    },
}

impl Drop for Stmt {
    fn drop(self) {
        match self {
            Stmt::Block { body: _ } => {}
            Stmt::Declare { var: _ } => {}
            Stmt::Init {
                stmt: _,
                var: _,
                value: _,
            } => {}
            Stmt::InitArray {
                stmt: _,
                array: _,
                values: _,
            } => {}
            Stmt::Assign {
                stmt: _,
                var: _,
                value: _,
            } => {}
            Stmt::Store {
                stmt: _,
                array: _,
                index: _,
                value: _,
            } => {}
            Stmt::If {
                stmt: _,
                when: _,
                yes: _,
                no: _,
            } => {}
            Stmt::Switch {
                stmt: _,
                t: _,
                on: _,
                starts: _,
                other: _,
                body: _,
            } => {}
            Stmt::While {
                stmt: _,
                when: _,
                body: _,
            } => {}
            Stmt::DoWhile {
                stmt: _,
                when: _,
                body: _,
            } => {}
            Stmt::For {
                stmt: _,
                first: _,
                when: _,
                step: _,
                body: _,
            } => {}
            Stmt::Break => {}
            Stmt::Continue => {}
            Stmt::Return { stmt: _, value: _ } => {}
            Stmt::ReturnNone => {}
            Stmt::CallStmt {
                stmt: _,
                call: _,
                function: _,
                args: _,
            } => {}
            Stmt::Print { stmt: _, args: _ } => {}
            Stmt::Assert { stmt: _, when: _ } => {}
        }
    }
}

/// What a variable holds.
#[derive(Clone, Copy, Debug, PartialEq, Eq)]
pub enum Shape {
    /// One value of the variable's type.
    Value,
    /// An array of this many elements of the variable's type, from 1 to 256.
    Array(u32),
    /// No elements of its own: an array parameter of a function other than `main`. It names the array that
    /// its call gives (C90 6.7.1).
    Passed,
}

/// A variable's declaration.
#[derive(Clone, Copy, Debug, PartialEq, Eq)]
pub struct Variable {
    pub t: CType,
    pub shape: Shape,
}

/// A function's definition: the type that it returns, if any, its parameters, its other variables, and its
/// body. Parameters and variables are in the order of the text.
pub struct Function {
    pub result: Option<CType>,
    pub params: Items<VarId>,
    pub locals: Items<VarId>,
    pub body: Items<Stmt>,
}

impl Drop for Function {
    fn drop(self) {
        let Function {
            result: _,
            params: _,
            locals: _,
            body: _,
        } = self;
    }
}

/// The kind of a numbered statement.
#[derive(Clone, Copy, Debug, PartialEq, Eq)]
pub enum StmtKind {
    /// An initialiser of a variable or of an array.
    Initialiser,
    /// An assignment to a variable.
    Assignment,
    /// An assignment to an element of an array.
    Store,
    /// The condition of an `if` or of a loop.
    Condition,
    /// The controlling expression of a `switch`.
    Switch,
    /// A `return` with a value.
    Return,
    /// A call statement, or a `printf`.
    Call,
    /// An `assert`.
    Assert,
}

/// A numbered statement's kind, and the position of its first token.
#[derive(Clone, Copy, Debug, PartialEq, Eq)]
pub struct StmtInfo {
    pub at: At,
    pub kind: StmtKind,
}

/// The parts of a program, which may fit together or not. `VarId` v names `variables[v]`, `FnId` f names
/// `functions[f]`, and `StmtId` n names `statements[n - 1]`. `globals` and their initialisers, `inits`, are
/// in the order of the text. Calls are counted from 1. `main` is the function that a run executes.
#[derive(Drop)]
pub struct Parts {
    pub variables: Items<Variable>,
    pub globals: Items<VarId>,
    pub inits: Items<Stmt>,
    pub functions: Items<Function>,
    pub main: FnId,
    pub statements: Items<StmtInfo>,
}

/// A program: parts that fit together. All numbers name something, and the types of expressions fit. Each
/// `break` has a loop or `switch` around it, each `continue` a loop, and all limits on size are kept.
pub struct Program {
    pub variables: Items<Variable>,
    pub globals: Items<VarId>,
    pub inits: Items<Stmt>,
    pub functions: Items<Function>,
    pub main: FnId,
    pub statements: Items<StmtInfo>,
    pub ghost fit: { IsTrue (is_program (record {
      variables = variables;
      globals = globals;
      inits = inits;
      functions = functions;
      main = main;
      statements = statements;
    })) },
}

impl Drop for Program {
    fn drop(self) {
        let Program {
            variables: _,
            globals: _,
            inits: _,
            functions: _,
            main: _,
            statements: _,
        } = self;
    }
}
