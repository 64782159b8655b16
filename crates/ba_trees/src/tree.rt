//! The tree of a program by the grammar: one type a rule, the parts of a rule in their order, and tokens as
//! leaves. A contract sees a tree written out by the folds of `specs/`: its leaves in order, with marks
//! around each node.

pub mod declarations;
pub mod expressions;
pub mod statements;
