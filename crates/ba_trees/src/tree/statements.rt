//! The trees of statements and of what is at the level of the file (C90 6.6, 6.7).

ghost use Rattle.std.specs.Prelude.{IsTrue, map};
ghost use Rattle.ba_trees.specs.ExternalMarks.{external_marks};
ghost use Rattle.ba_trees.specs.Marks.{has_accepted_levels};
ghost use Rattle.ba_trees.specs.Marks.{node_of, file};
ghost use Rattle.ba_trees.specs.Views.{joined};

use crate::tree::declarations::{Declaration, Declarators, Parameters, Specifiers};
use crate::tree::expressions::{Arguments, Conditional, NextExpression, TypeName};
use ba_tokens::token::Token;

/// A variable or an element that is assigned to.
pub struct Target {
    pub name: Token,
    pub index: Option<Index>,
}

impl Drop for Target {
    fn drop(self) {
        let Target { name: _, index: _ } = self;
    }
}

/// An index in brackets.
pub struct Index {
    /// `[`
    pub open: Token,
    pub value: Box<Conditional>,
    /// `]`
    pub close: Token,
}

impl Drop for Index {
    fn drop(self) {
        let Index {
            open: _,
            value: _,
            close: _,
        } = self;
    }
}

/// An assignment, a step or a call, as in a statement or in the head of a `for`.
pub enum Simple {
    /// `=` or a compound assignment (C90 6.3.16).
    Assign {
        target: Target,
        operator: Token,
        value: Conditional,
    },
    /// `++` or `--` after (C90 6.3.2.4).
    Step {
        target: Target,
        operator: Token,
    },
    /// `++` or `--` before (C90 6.3.3.1).
    PrefixStep {
        operator: Token,
        target: Target,
    },
    /// A call as a statement (C90 6.3.2.2).
    Call {
        name: Token,
        open: Token,
        arguments: Arguments,
        close: Token,
    },
}

impl Drop for Simple {
    fn drop(self) {
        match self {
            Simple::Assign {
                target: _,
                operator: _,
                value: _,
            } => {}
            Simple::Step {
                target: _,
                operator: _,
            } => {}
            Simple::PrefixStep {
                operator: _,
                target: _,
            } => {}
            Simple::Call {
                name: _,
                open: _,
                arguments: _,
                close: _,
            } => {}
        }
    }
}

/// An assignment or the like in a list, and the comma before it, if it is not the first.
pub struct ListedSimple {
    pub comma: Option<Token>,
    pub simple: Simple,
}

impl Drop for ListedSimple {
    fn drop(self) {
        let ListedSimple {
            comma: _,
            simple: _,
        } = self;
    }
}

/// One or more, with commas between: each but the first has the comma before it.
pub struct Simples {
    pub all: Vec<ListedSimple>,
}

impl Drop for Simples {
    fn drop(self) {
        let Simples { all: _ } = self;
    }
}

/// The controlling expression of a statement, in its parentheses (C90 6.6.4, 6.6.5).
pub struct Condition {
    /// `(`
    pub open: Token,
    pub test: Box<Conditional>,
    /// `)`
    pub close: Token,
}

impl Drop for Condition {
    fn drop(self) {
        let Condition {
            open: _,
            test: _,
            close: _,
        } = self;
    }
}

/// A label of a `switch` (C90 6.6.1).
pub enum Label {
    /// `case`, a constant expression, and `:`.
    Case {
        keyword: Token,
        value: Conditional,
        colon: Token,
    },
    /// `default` and `:`.
    Default {
        keyword: Token,
        colon: Token,
    },
}

impl Drop for Label {
    fn drop(self) {
        match self {
            Label::Case {
                keyword: _,
                value: _,
                colon: _,
            } => {}
            Label::Default {
                keyword: _,
                colon: _,
            } => {}
        }
    }
}

/// The first part of the head of a `for` (C90 6.6.5.3).
pub enum ForFirst {
    /// A declaration of variables of the loop, which the profile has beyond C90.
    Declaration {
        name: TypeName,
        declarators: Declarators,
    },
    /// One or more assignments, steps or calls.
    Simples(Simples),
    /// Neither.
    Nothing,
}

impl Drop for ForFirst {
    fn drop(self) {
        match self {
            ForFirst::Declaration {
                name: _,
                declarators: _,
            } => {}
            ForFirst::Simples(_) => {}
            ForFirst::Nothing => {}
        }
    }
}

/// The head of a `for`, between its parentheses.
pub struct ForHead {
    /// What is done once, before the loop.
    pub first: ForFirst,
    pub first_semicolon: Token,
    /// The controlling expression, if there is one.
    pub test: Option<Conditional>,
    pub second_semicolon: Token,
    /// The step, which is executed after each iteration.
    pub step: Option<Simples>,
}

impl Drop for ForHead {
    fn drop(self) {
        let ForHead {
            first: _,
            first_semicolon: _,
            test: _,
            second_semicolon: _,
            step: _,
        } = self;
    }
}

/// What a `printf` prints, between its parentheses: a string in one part or more, and values.
pub struct Printed {
    /// The first part of the string.
    pub first: Token,
    /// The parts that follow it with nothing between (C90 6.1.4).
    pub rest: Vec<Token>,
    pub values: Vec<NextExpression>,
}

impl Drop for Printed {
    fn drop(self) {
        let Printed {
            first: _,
            rest: _,
            values: _,
        } = self;
    }
}

/// Declarations and statements in braces (C90 6.6.2).
#[cycle(statement)]
pub struct Block {
    /// `{`
    pub open: Token,
    pub items: Vec<BlockItem>,
    /// `}`
    pub close: Token,
}

impl Drop for Block {
    #[cycle(statement)]
    fn drop(self) {
        let Block {
            open: _,
            items: _,
            close: _,
        } = self;
    }
}

/// An item of a block. The profile allows declarations among the statements (C90 6.6.2 has them first).
#[cycle(statement)]
pub enum BlockItem {
    Declaration(Declaration),
    Statement(Statement),
}

impl Drop for BlockItem {
    #[cycle(statement)]
    fn drop(self) {
        match self {
            BlockItem::Declaration(_) => {}
            BlockItem::Statement(_) => {}
        }
    }
}

/// A statement (C90 6.6).
#[cycle(statement)]
pub struct Statement {
    pub form: StatementForm,
}

impl Drop for Statement {
    #[cycle(statement)]
    fn drop(self) {
        let Statement { form: _ } = self;
    }
}

/// The forms of a statement. `assert` and `printf` are among them.
#[cycle(statement)]
pub enum StatementForm {
    /// A compound statement (C90 6.6.2).
    Block(Block),
    /// A null statement (C90 6.6.3).
    Empty {
        semicolon: Token,
    },
    /// An assignment, a step or a call (C90 6.6.3).
    Simple {
        simple: Simple,
        semicolon: Token,
    },
    /// C90 6.6.4.1.
    If {
        keyword: Token,
        condition: Condition,
        holds: Controlled,
        fails: Option<Else>,
    },
    /// C90 6.6.4.2. The profile allows labels only directly in the braces.
    Switch {
        keyword: Token,
        condition: Condition,
        /// `{`
        open: Token,
        groups: Vec<Group>,
        /// `}`
        close: Token,
    },
    /// C90 6.6.5.1.
    While {
        keyword: Token,
        condition: Condition,
        body: Controlled,
    },
    /// C90 6.6.5.2.
    DoWhile(DoWhile),
    /// C90 6.6.5.3.
    For(For),
    /// C90 6.6.6.3.
    Break {
        keyword: Token,
        semicolon: Token,
    },
    /// C90 6.6.6.2.
    Continue {
        keyword: Token,
        semicolon: Token,
    },
    /// C90 6.6.6.4.
    Return {
        keyword: Token,
        value: Option<Conditional>,
        semicolon: Token,
    },
    /// C90 7.2.1.1.
    Assert {
        keyword: Token,
        condition: Condition,
        semicolon: Token,
    },
    /// C90 7.9.6.3.
    Printf {
        keyword: Token,
        open: Token,
        printed: Printed,
        close: Token,
        semicolon: Token,
    },
}

impl Drop for StatementForm {
    #[cycle(statement)]
    fn drop(self) {
        match self {
            StatementForm::Block(_) => {}
            StatementForm::Empty { semicolon: _ } => {}
            StatementForm::Simple {
                simple: _,
                semicolon: _,
            } => {}
            StatementForm::If {
                keyword: _,
                condition: _,
                holds: _,
                fails: _,
            } => {}
            StatementForm::Switch {
                keyword: _,
                condition: _,
                open: _,
                groups: _,
                close: _,
            } => {}
            StatementForm::While {
                keyword: _,
                condition: _,
                body: _,
            } => {}
            StatementForm::DoWhile(_) => {}
            StatementForm::For(_) => {}
            StatementForm::Break {
                keyword: _,
                semicolon: _,
            } => {}
            StatementForm::Continue {
                keyword: _,
                semicolon: _,
            } => {}
            StatementForm::Return {
                keyword: _,
                value: _,
                semicolon: _,
            } => {}
            StatementForm::Assert {
                keyword: _,
                condition: _,
                semicolon: _,
            } => {}
            StatementForm::Printf {
                keyword: _,
                open: _,
                printed: _,
                close: _,
                semicolon: _,
            } => {}
        }
    }
}

/// The substatement or loop body that another statement controls (C90 6.6.4, 6.6.5). It counts as one more
/// construct around its tokens.
#[cycle(statement)]
pub struct Controlled {
    pub statement: Box<Statement>,
}

impl Drop for Controlled {
    #[cycle(statement)]
    fn drop(self) {
        let Controlled { statement: _ } = self;
    }
}

/// `else` and its statement.
#[cycle(statement)]
pub struct Else {
    pub keyword: Token,
    pub statement: Controlled,
}

impl Drop for Else {
    #[cycle(statement)]
    fn drop(self) {
        let Else {
            keyword: _,
            statement: _,
        } = self;
    }
}

/// A `do` loop (C90 6.6.5.2).
#[cycle(statement)]
pub struct DoWhile {
    /// `do`
    pub keyword: Token,
    pub body: Controlled,
    /// `while`
    pub while_keyword: Token,
    pub condition: Condition,
    pub semicolon: Token,
}

impl Drop for DoWhile {
    #[cycle(statement)]
    fn drop(self) {
        let DoWhile {
            keyword: _,
            body: _,
            while_keyword: _,
            condition: _,
            semicolon: _,
        } = self;
    }
}

/// A `for` loop (C90 6.6.5.3).
#[cycle(statement)]
pub struct For {
    /// `for`
    pub keyword: Token,
    /// `(`
    pub open: Token,
    pub head: Box<ForHead>,
    /// `)`
    pub close: Token,
    pub body: Controlled,
}

impl Drop for For {
    #[cycle(statement)]
    fn drop(self) {
        let For {
            keyword: _,
            open: _,
            head: _,
            close: _,
            body: _,
        } = self;
    }
}

/// A label in the braces of a `switch`, and the statements up to the next one (C90 6.6.1, 6.6.4.2).
#[cycle(statement)]
pub struct Group {
    pub label: Label,
    pub statements: Vec<Statement>,
}

impl Drop for Group {
    #[cycle(statement)]
    fn drop(self) {
        let Group {
            label: _,
            statements: _,
        } = self;
    }
}

/// What is at the level of the file: variables or a function (C90 6.7).
pub struct External {
    pub specifiers: Specifiers,
    pub form: ExternalForm,
}

impl Drop for External {
    fn drop(self) {
        let External {
            specifiers: _,
            form: _,
        } = self;
    }
}

/// The forms of what is at the level of the file.
pub enum ExternalForm {
    /// Variables of the file (C90 6.7.2), or none after the constants of an enumerated type.
    Variables {
        declarators: Option<Declarators>,
        semicolon: Token,
    },
    /// A function's definition or prototype (C90 6.7.1, 6.5.4.3).
    Function {
        name: Token,
        open: Token,
        parameters: Parameters,
        close: Token,
        end: FunctionEnd,
    },
}

impl Drop for ExternalForm {
    fn drop(self) {
        match self {
            ExternalForm::Variables {
                declarators: _,
                semicolon: _,
            } => {}
            ExternalForm::Function {
                name: _,
                open: _,
                parameters: _,
                close: _,
                end: _,
            } => {}
        }
    }
}

/// A function's body, or the end of its prototype.
pub enum FunctionEnd {
    /// The body of a definition (C90 6.7.1).
    Body(Block),
    /// The semicolon of a prototype.
    Prototype { semicolon: Token },
}

impl Drop for FunctionEnd {
    fn drop(self) {
        match self {
            FunctionEnd::Body(_) => {}
            FunctionEnd::Prototype { semicolon: _ } => {}
        }
    }
}

/// The tree of a file, a translation unit (C90 6.7). No token in it has more than 100 constructs around it.
pub struct RawProgram {
    pub externals: Vec<External>,
    pub ghost accepted: { IsTrue (has_accepted_levels
        (node_of file (joined (map external_marks externals.items)))) },
}

impl Drop for RawProgram {
    fn drop(self) {
        let RawProgram { externals: _ } = self;
    }
}
