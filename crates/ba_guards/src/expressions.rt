//! Value numbering: entries that are determined by what they name. Equal ones have equal values, so each is
//! made once.

ghost use Rattle.std.specs.Prelude.{◌≡◌};
ghost use Rattle.ba_guards.specs.Sharing.{entry};

use ba_numbers::numbers::{BinOp, CType, UnOp};
use ba_wordlist::words::WordOp;

/// A constant, or a word that earlier entries determine. The hash is of the entries that it names, without
/// its operator and type.
#[derive(Clone, Copy, PartialEq, Eq)]
#[derive_where(Hash)]
pub enum Expression {
    Const(i64),
    Unary {
        #[derive_where(skip(Hash))]
        op: UnOp,
        #[derive_where(skip(Hash))]
        t: CType,
        a: u32,
    },
    Binary {
        #[derive_where(skip(Hash))]
        op: BinOp,
        #[derive_where(skip(Hash))]
        t: CType,
        a: u32,
        b: u32,
    },
    Convert {
        #[derive_where(skip(Hash))]
        t: CType,
        a: u32,
    },
    Select {
        which: u32,
        yes: u32,
        no: u32,
    },
    Read {
        array: u32,
        index: u32,
    },
}

impl Expression {
    /// The expression as an entry of a list.
    pub fn entry(self) -> WordOp
        ensures { result ≡ entry self }
    {
        match self {
            Expression::Const(value) => WordOp::Const(value),
            Expression::Unary { op, t, a } => WordOp::Unary { op, t, a },
            Expression::Binary { op, t, a, b } => WordOp::Binary { op, t, a, b },
            Expression::Convert { t, a } => WordOp::Convert { t, a },
            Expression::Select { which, yes, no } => WordOp::Select { which, yes, no },
            Expression::Read { array, index } => WordOp::Read { array, index },
        }
    }
}
