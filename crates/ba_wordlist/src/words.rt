//! Entries, requirements, and the words of places.

ghost use Rattle.std.specs.Prelude.{◌≡◌, IsTrue};
ghost use Rattle.ba_wordlist.specs.Facts.{is_word_list};

use ba_items::Items;
use ba_numbers::numbers::{BinOp, CType, UnOp};
use ba_tree::run::Place;

/// An entry of a word list: a word of 32 bits, or an array's state at some moment of the run, as words. It
/// names earlier entries by their numbers, from 0. An array's entry is its first element if a word is wanted.
pub enum WordOp {
    /// A number in the range of `I32` or of `U32`.
    Const(i64),
    /// Any number in the range of `I32`.
    Free,
    /// 0 or 1.
    Flag,
    /// A unary operator that works in the type `t`, which is `I32` or `U32` (C90 6.3.3.3).
    Unary {
        op: UnOp,
        t: CType,
        a: u32,
    },
    /// A binary operator that works in the type `t`, which is `I32` or `U32` (C90 6.3.5 to 6.3.12).
    Binary {
        op: BinOp,
        t: CType,
        a: u32,
        b: u32,
    },
    /// A conversion to the type `t` (C90 6.2.1).
    Convert {
        t: CType,
        a: u32,
    },
    /// The word `yes` if `which` is not 0, and else `no`.
    Select {
        which: u32,
        yes: u32,
        no: u32,
    },
    /// The element of the array at the index.
    Read {
        array: u32,
        index: u32,
    },
    /// An array of this many elements, from 1 to 256, all 0.
    Zeros(u32),
    /// The array with these values for its elements, one for each, if `when` is not 0; else as before.
    Fill {
        of: u32,
        values: Items<u32>,
        when: u32,
    },
    /// The array with another value at the index, if `when` is not 0 and the index is in the array; else as
    /// before.
    Write {
        of: u32,
        index: u32,
        value: u32,
        when: u32,
    },
}

impl Drop for WordOp {
    fn drop(self) {
        match self {
            WordOp::Const(_) => {}
            WordOp::Free => {}
            WordOp::Flag => {}
            WordOp::Unary { op: _, t: _, a: _ } => {}
            WordOp::Binary {
                op: _,
                t: _,
                a: _,
                b: _,
            } => {}
            WordOp::Convert { t: _, a: _ } => {}
            WordOp::Select {
                which: _,
                yes: _,
                no: _,
            } => {}
            WordOp::Read { array: _, index: _ } => {}
            WordOp::Zeros(_) => {}
            WordOp::Fill {
                of: _,
                values: _,
                when: _,
            } => {}
            WordOp::Write {
                of: _,
                index: _,
                value: _,
                when: _,
            } => {}
        }
    }
}

/// The words of an execution of a statement that may be relaxed. The execution takes place if `guard` is not
/// 0. It goes as written if `keep` is not 0; else the words `values` have the values of its choice.
pub struct PlaceWords {
    pub place: Place,
    pub guard: u32,
    pub keep: u32,
    pub values: Items<u32>,
}

impl Drop for PlaceWords {
    fn drop(self) {
        let PlaceWords {
            place: _,
            guard: _,
            keep: _,
            values: _,
        } = self;
    }
}

/// A word list: its entries, its requirements (entries that must not be 0), and the places that a run may
/// come to, in order.
///
/// - Each entry names earlier ones.
/// - Operators work in `I32` or `U32`, and a constant is in the range of one of these.
/// - An array has 1 to 256 elements, and a `Fill` one value for each.
/// - A value of a choice is no `Select`, element or array, so its entry shows its type.
pub struct WordList {
    pub words: Items<WordOp>,
    pub require: Items<u32>,
    pub places: Items<PlaceWords>,
    pub ghost fit: { IsTrue (is_word_list words require places) },
}

impl Drop for WordList {
    fn drop(self) {
        let WordList {
            words: _,
            require: _,
            places: _,
        } = self;
    }
}

impl WordList {
    /// The words, the requirements and the places. It takes no memory.
    pub fn into_parts(self) -> (Items<WordOp>, Items<u32>, Items<PlaceWords>)
        ensures words { result.0 ≡ self.words }
        ensures require { result.1 ≡ self.require }
        ensures places { result.2 ≡ self.places }
    {
        let WordList {
            words,
            require,
            places,
        } = self;
        (words, require, places)
    }
}
