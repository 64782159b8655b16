//! The trees of expressions (C90 6.3).

use ba_tokens::token::Token;

/// The words that name a type (C90 6.5.1, 6.5.2, 6.5.3), in the order of the text.
pub struct TypeName {
    pub words: Vec<Token>,
}

impl Drop for TypeName {
    fn drop(self) {
        let TypeName { words: _ } = self;
    }
}

/// A conditional expression (C90 6.3.15), the widest expression of the profile.
#[cycle(expression)]
pub struct Conditional {
    /// What precedes the `?`, or the whole.
    pub test: Operand,
    pub branches: Option<Branches>,
}

impl Drop for Conditional {
    #[cycle(expression)]
    fn drop(self) {
        let Conditional {
            test: _,
            branches: _,
        } = self;
    }
}

/// The branches of a conditional expression: `? expression : expression`.
#[cycle(expression)]
pub struct Branches {
    /// `?`
    pub question: Token,
    pub holds: Box<Conditional>,
    /// `:`
    pub colon: Token,
    pub fails: Box<Conditional>,
}

impl Drop for Branches {
    #[cycle(expression)]
    fn drop(self) {
        let Branches {
            question: _,
            holds: _,
            colon: _,
            fails: _,
        } = self;
    }
}

/// A unary expression and the chains of binary operators that follow it, the tightest first (C90 6.3.5 to
/// 6.3.14). Each chain takes all that is before it as its leftmost operand.
#[cycle(expression)]
pub struct Operand {
    pub first: Unary,
    pub chains: Vec<Chain>,
}

impl Drop for Operand {
    #[cycle(expression)]
    fn drop(self) {
        let Operand {
            first: _,
            chains: _,
        } = self;
    }
}

/// What follows the leftmost operand in a chain of binary operators of one level: an operator, its right
/// operand, and the rest of the chain. So `a - b - c` is `a` and the chain `- b` with the rest `- c`. It
/// groups from the left.
#[cycle(expression)]
pub struct Chain {
    /// The level of the operators, from 1 for `*` to 10 for `||`.
    pub level: u32,
    pub operator: Token,
    pub operand: Operand,
    pub rest: Option<Box<Chain>>,
}

impl Drop for Chain {
    #[cycle(expression)]
    fn drop(self) {
        let Chain {
            level: _,
            operator: _,
            operand: _,
            rest: _,
        } = self;
    }
}

/// A unary expression (C90 6.3.3, 6.3.4).
#[cycle(expression)]
pub enum Unary {
    /// `+`, `-`, `~` or `!` before its operand.
    Prefix {
        operator: Token,
        operand: Box<Unary>,
    },
    /// A cast before its operand.
    Cast {
        open: Token,
        name: TypeName,
        close: Token,
        operand: Box<Unary>,
    },
    /// A primary expression, or one with `[ ]` or `( )` after it.
    Primary(Primary),
}

impl Drop for Unary {
    #[cycle(expression)]
    fn drop(self) {
        match self {
            Unary::Prefix {
                operator: _,
                operand: _,
            } => {}
            Unary::Cast {
                open: _,
                name: _,
                close: _,
                operand: _,
            } => {}
            Unary::Primary(_) => {}
        }
    }
}

/// A name, an element of an array, a call, a constant or an expression in parentheses (C90 6.3.1, 6.3.2).
#[cycle(expression)]
pub enum Primary {
    /// An identifier.
    Name {
        name: Token,
    },
    /// An element of an array (C90 6.3.2.1).
    Element {
        name: Token,
        open: Token,
        index: Box<Conditional>,
        close: Token,
    },
    /// A function call (C90 6.3.2.2).
    Call {
        name: Token,
        open: Token,
        arguments: Arguments,
        close: Token,
    },
    /// A constant (C90 6.1.3).
    Constant {
        constant: Token,
    },
    /// An expression in parentheses.
    Parenthesized {
        open: Token,
        expression: Box<Conditional>,
        close: Token,
    },
}

impl Drop for Primary {
    #[cycle(expression)]
    fn drop(self) {
        match self {
            Primary::Name { name: _ } => {}
            Primary::Element {
                name: _,
                open: _,
                index: _,
                close: _,
            } => {}
            Primary::Call {
                name: _,
                open: _,
                arguments: _,
                close: _,
            } => {}
            Primary::Constant { constant: _ } => {}
            Primary::Parenthesized {
                open: _,
                expression: _,
                close: _,
            } => {}
        }
    }
}

/// The arguments of a call, none or more (C90 6.3.2.2).
#[cycle(expression)]
pub struct Arguments {
    pub values: Option<Expressions>,
}

impl Drop for Arguments {
    #[cycle(expression)]
    fn drop(self) {
        let Arguments { values: _ } = self;
    }
}

/// One expression or more, with commas between.
#[cycle(expression)]
pub struct Expressions {
    pub first: Box<Conditional>,
    pub rest: Vec<NextExpression>,
}

impl Drop for Expressions {
    #[cycle(expression)]
    fn drop(self) {
        let Expressions { first: _, rest: _ } = self;
    }
}

/// A comma and the expression after it.
#[cycle(expression)]
pub struct NextExpression {
    pub comma: Token,
    pub expression: Conditional,
}

impl Drop for NextExpression {
    #[cycle(expression)]
    fn drop(self) {
        let NextExpression {
            comma: _,
            expression: _,
        } = self;
    }
}
