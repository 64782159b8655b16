//! The names of a program's parts, and positions in its text.

/// A statement, by its number: statements are counted from 1 in the order of the text.
#[derive(Clone, Copy, Debug, PartialEq, Eq, PartialOrd, Ord)]
pub struct StmtId(pub u32);

/// A variable, by its number: variables are counted from 0 in the order of their declarations in the text.
#[derive(Clone, Copy, Debug, PartialEq, Eq, PartialOrd, Ord)]
pub struct VarId(pub u32);

/// A function, by its number: functions are counted from 0 in the order of their definitions in the text.
#[derive(Clone, Copy, Debug, PartialEq, Eq, PartialOrd, Ord)]
pub struct FnId(pub u32);

/// A call, by its number: calls are counted from 1 in the order of their names in the text.
#[derive(Clone, Copy, Debug, PartialEq, Eq, PartialOrd, Ord)]
pub struct CallId(pub u32);

/// A position in a text: the line and the byte column, both counted from 1.
#[derive(Clone, Copy, Debug, PartialEq, Eq, PartialOrd, Ord)]
pub struct At {
    pub line: u32,
    pub column: u32,
}
