//! The trees of declarations (C90 6.5).

use crate::tree::expressions::{Conditional, NextExpression, TypeName};
use ba_tokens::token::Token;

/// The length of an array after its name: `[ ]`, with an expression or without.
pub struct ArrayLength {
    /// `[`
    pub open: Token,
    pub length: Option<Conditional>,
    /// `]`
    pub close: Token,
}

impl Drop for ArrayLength {
    fn drop(self) {
        let ArrayLength {
            open: _,
            length: _,
            close: _,
        } = self;
    }
}

/// Initial values in braces (C90 6.5.7).
pub struct Braced {
    /// `{`
    pub open: Token,
    pub first: Conditional,
    pub rest: Vec<NextExpression>,
    /// The comma before the `}`, if there is one.
    pub comma: Option<Token>,
    /// `}`
    pub close: Token,
}

impl Drop for Braced {
    fn drop(self) {
        let Braced {
            open: _,
            first: _,
            rest: _,
            comma: _,
            close: _,
        } = self;
    }
}

/// `=` and the initial value of a variable (C90 6.5.7): an expression, or values in braces.
pub enum Initialiser {
    /// `=` and an expression.
    Expression { assign: Token, value: Conditional },
    /// `=` and values in braces.
    Braced { assign: Token, values: Braced },
}

impl Drop for Initialiser {
    fn drop(self) {
        match self {
            Initialiser::Expression {
                assign: _,
                value: _,
            } => {}
            Initialiser::Braced {
                assign: _,
                values: _,
            } => {}
        }
    }
}

/// A declared name, with its length if it is an array, and its initialiser (C90 6.5.4).
pub struct Declarator {
    pub name: Token,
    pub length: Option<ArrayLength>,
    pub initialiser: Option<Initialiser>,
}

impl Drop for Declarator {
    fn drop(self) {
        let Declarator {
            name: _,
            length: _,
            initialiser: _,
        } = self;
    }
}

/// A declarator in a list, and the comma before it, if it is not the first.
pub struct ListedDeclarator {
    pub comma: Option<Token>,
    pub declarator: Declarator,
}

impl Drop for ListedDeclarator {
    fn drop(self) {
        let ListedDeclarator {
            comma: _,
            declarator: _,
        } = self;
    }
}

/// One declarator or more, with commas between: each but the first has the comma before it.
pub struct Declarators {
    pub all: Vec<ListedDeclarator>,
}

impl Drop for Declarators {
    fn drop(self) {
        let Declarators { all: _ } = self;
    }
}

/// An enumeration constant, with its value if one is written (C90 6.5.2.2).
pub struct Enumerator {
    pub name: Token,
    pub value: Option<EnumeratorValue>,
}

impl Drop for Enumerator {
    fn drop(self) {
        let Enumerator { name: _, value: _ } = self;
    }
}

/// `=` and the value of an enumeration constant.
pub struct EnumeratorValue {
    pub assign: Token,
    pub value: Conditional,
}

impl Drop for EnumeratorValue {
    fn drop(self) {
        let EnumeratorValue {
            assign: _,
            value: _,
        } = self;
    }
}

/// A comma and the enumeration constant after it.
pub struct NextEnumerator {
    pub comma: Token,
    pub enumerator: Enumerator,
}

impl Drop for NextEnumerator {
    fn drop(self) {
        let NextEnumerator {
            comma: _,
            enumerator: _,
        } = self;
    }
}

/// One enumeration constant or more, with commas between, and the comma before the `}`, if there is one.
pub struct EnumeratorList {
    pub first: Enumerator,
    pub rest: Vec<NextEnumerator>,
    pub comma: Option<Token>,
}

impl Drop for EnumeratorList {
    fn drop(self) {
        let EnumeratorList {
            first: _,
            rest: _,
            comma: _,
        } = self;
    }
}

/// The constants of an enumerated type, in braces (C90 6.5.2.2).
pub struct Enumerators {
    /// `{`
    pub open: Token,
    pub list: EnumeratorList,
    /// `}`
    pub close: Token,
}

impl Drop for Enumerators {
    fn drop(self) {
        let Enumerators {
            open: _,
            list: _,
            close: _,
        } = self;
    }
}

/// The words at the front of a declaration of a file or a block (C90 6.5). They name a type. An enumerated
/// type has a tag, constants in braces, or both, with words before and after them.
pub struct Specifiers {
    pub words: Vec<Token>,
    pub enumerators: Option<Enumerators>,
    pub behind: Vec<Token>,
}

impl Drop for Specifiers {
    fn drop(self) {
        let Specifiers {
            words: _,
            enumerators: _,
            behind: _,
        } = self;
    }
}

/// A declaration in a block (C90 6.5). It has declarators, or the constants of an enumerated type, or both.
pub struct Declaration {
    pub specifiers: Specifiers,
    pub declarators: Option<Declarators>,
    pub semicolon: Token,
}

impl Drop for Declaration {
    fn drop(self) {
        let Declaration {
            specifiers: _,
            declarators: _,
            semicolon: _,
        } = self;
    }
}

/// A parameter of a function (C90 6.5.4.3).
pub struct Parameter {
    pub type_name: TypeName,
    pub name: Option<Token>,
    pub length: Option<ArrayLength>,
}

impl Drop for Parameter {
    fn drop(self) {
        let Parameter {
            type_name: _,
            name: _,
            length: _,
        } = self;
    }
}

/// A comma and the parameter after it.
pub struct NextParameter {
    pub comma: Token,
    pub parameter: Parameter,
}

impl Drop for NextParameter {
    fn drop(self) {
        let NextParameter {
            comma: _,
            parameter: _,
        } = self;
    }
}

/// One parameter or more, with commas between.
pub struct ParameterList {
    pub first: Parameter,
    pub rest: Vec<NextParameter>,
}

impl Drop for ParameterList {
    fn drop(self) {
        let ParameterList { first: _, rest: _ } = self;
    }
}

/// The parameters of a function, none or more; `void` alone is one without a name.
pub struct Parameters {
    pub list: Option<ParameterList>,
}

impl Drop for Parameters {
    fn drop(self) {
        let Parameters { list: _ } = self;
    }
}
