//! Word lists as they are made, with constants folded.

ghost use Rattle.std.specs.Prelude.{◌≡◌, ◌<◌, ℕ, ℤ, pos, true, false, cond, ◌++◌, ◌∷◌, [], length, map, replicate, Some, IfOk, IfSome, nat_le, ◌&&◌, ◌==◌, slice_get, slice_index_or, slice_set};
ghost use Rattle.ba_code.specs.Operators.{converting};
ghost use Rattle.ba_numbers.specs.Numbers.{converted, is_in, low_word, truth};
ghost use Rattle.ba_numbers.specs.Types.{is_promoted, shifts};
ghost use Rattle.ba_guards.specs.Sharing.{entry};
ghost use Rattle.ba_guards.specs.Making.{AreSides, Draws, Emits, EmitsArray, StandsAt, elements_in, holds_in, is_one, word_in};
ghost use Rattle.ba_wordlist.specs.Facts.{are_names, are_words, is_word_value, lengths_of, shows_type};
ghost use Rattle.ba_wordlist.specs.Meaning.{Assignment, binary_value, element_read, is_nonzero};
ghost use Rattle.ba_wordlist.specs.declared.words.WordOp.TheVariants.{Const, Write};

use crate::builder::Sides;
use crate::expressions::Expression;
use ba_items::Items;
use ba_numbers::numbers::{BinOp, CType, UnOp, apply, apply_one, convert};
use ba_wordlist::words::WordOp;
use std::alloc::{AllocError, Global};
use std::collections::HashMap;
use std::marker::Model;

/// The words so far, with the numbers of the expressions among them. A contract sees their list.
#[derive(Drop)]
pub struct Words {
    items: Vec<WordOp>,
    numbers: HashMap<Expression, u32>,
}

impl Model for Words {
    ghost use Rattle.std.specs.Prelude.{List};
    ghost use Rattle.std.specs.HashMap.{get};
    ghost use Rattle.ba_guards.specs.Sharing.{AreNumbered};
    ghost use Rattle.ba_guards.specs.contracts.expressions.ExpressionPartialEq.TheImpl.{eq-value};
    ghost use Rattle.ba_wordlist.specs.declared.words.WordOp.{WordOp};

    ghost Value = { List WordOp };

    ghost view = { λ words. words.items.items };

    ghost invariant = { λ words. AreNumbered words.items.items (get eq-value.it words.numbers) };
}

/// Word 0, which is the number 0.
pub const ZERO: u32 = 0;

/// Word 1, which is the number 1.
pub const ONE: u32 = 1;

impl Words {
    /// No words. It takes no memory.
    pub fn new(alloc: Global) -> Words
        ensures { result ≡ [] }
    {
        Words {
            items: Vec::new(alloc),
            numbers: HashMap::new(alloc),
        }
    }

    /// The words as a list. It takes no memory.
    pub fn into_items(self) -> Items<WordOp>
        ensures { result ≡ self }
    {
        let Words { items, numbers: _ } = self;
        Items::from_vec(items)
    }

    /// Adds a word and gives its number.
    ///
    /// The only error is out of memory, also for more than 2^32 - 1 words.
    pub fn push(&mut self, op: WordOp) -> Result<u32, AllocError>
        ensures name { IfOk result (λ word. word ≡ length self.old) }
        ensures words { IfOk result (λ word. self.new ≡ self.old ++ op ∷ []) }
    {
        let count = self.items.len();
        if count >= 0xffff_ffff {
            return Err(AllocError);
        }
        self.items.push(op)?;
        Ok(count as u32)
    }

    /// The word of an expression: the one that has it, or else a new one.
    fn made(&mut self, expression: Expression) -> Result<u32, AllocError>
        ensures { IfOk result (λ word. StandsAt self.old self.new word (entry expression)) }
    {
        if let Some(word) = self.numbers.get(&expression) {
            return Ok(*word);
        }
        let word = self.push(expression.entry())?;
        self.numbers.insert(expression, word)?;
        Ok(word)
    }

    /// The value of a word that is a constant.
    pub fn constant_of(&self, word: u32) -> Option<i64>
        ensures { IfSome result (λ z. slice_get self.now word ≡ Some (Const z)) }
    {
        match self.items.get(word as usize) {
            Some(WordOp::Const(value)) => Some(*value),
            _ => None,
        }
    }

    /// Whether a word is a constant other than 0.
    pub fn is_met(&self, word: u32) -> bool
        ensures { result ≡ true → (f : Assignment) → is_nonzero (word_in self.now word f) ≡ true }
    {
        match self.constant_of(word) {
            Some(value) => is_other_than_zero(value),
            None => false,
        }
    }

    /// Whether a word is the constant 0.
    pub fn is_zero(&self, word: u32) -> bool
        ensures { result ≡ true → (f : Assignment) → is_nonzero (word_in self.now word f) ≡ false }
    {
        self.is_constant(word, 0)
    }

    /// A word with this value.
    pub fn constant(&mut self, value: i64) -> Result<u32, AllocError>
        ensures { IfOk result (λ word. are_words self.old ≡ true → is_word_value value ≡ true
            → Emits self.old self.new word (λ f. value)) }
    {
        if self.is_constant(ZERO, value) {
            return Ok(ZERO);
        }
        if self.is_constant(ONE, value) {
            return Ok(ONE);
        }
        let word = self.made(Expression::Const(value))?;
        Ok(word)
    }

    /// Whether a word is the constant of this value.
    fn is_constant(&self, word: u32, value: i64) -> bool
        ensures { result ≡ true → slice_get self.now word ≡ Some (Const value) }
    {
        match self.items.get(word as usize) {
            Some(WordOp::Const(known)) => *known == value,
            _ => false,
        }
    }

    /// A word that may be any number of a type.
    pub fn any(&mut self, t: CType) -> Result<u32, AllocError>
        ensures { IfOk result (λ word. are_words self.old ≡ true
            → Draws self.old self.new (word ∷ []) (is_one (is_in t))) }
    {
        let free = self.push(WordOp::Free)?;
        let word = self.push(WordOp::Convert { t, a: free })?;
        Ok(word)
    }

    /// A word that may be 0 or 1.
    pub fn flag(&mut self) -> Result<u32, AllocError>
        ensures { IfOk result (λ word. are_words self.old ≡ true → (word ≡ length self.old)
            × Emits self.old self.new word (λ f. truth (is_nonzero (f word)))
            × (shows_type (slice_get self.new word) ≡ true)) }
    {
        let word = self.push(WordOp::Flag)?;
        Ok(word)
    }

    /// A unary operator at a word.
    pub fn unary(&mut self, op: UnOp, t: CType, a: u32) -> Result<u32, AllocError>
        ensures { IfOk result (λ word. are_words self.old ≡ true → is_promoted t ≡ true
            → a < length self.old
            → Emits self.old self.new word (λ f. converting.unary op t (word_in self.old a f))) }
    {
        match self.constant_of(a) {
            Some(value) => {
                let word = self.constant(apply_one(op, t, convert(t, value)))?;
                Ok(word)
            }
            None => {
                let word = self.made(Expression::Unary { op, t, a })?;
                Ok(word)
            }
        }
    }

    /// A word converted to a type.
    pub fn convert(&mut self, t: CType, a: u32) -> Result<u32, AllocError>
        ensures { IfOk result (λ word. are_words self.old ≡ true → a < length self.old
            → Emits self.old self.new word (λ f. converted t (word_in self.old a f))) }
    {
        match self.constant_of(a) {
            Some(value) => {
                let word = self.constant(convert(t, value))?;
                Ok(word)
            }
            None => {
                let word = self.made(Expression::Convert { t, a })?;
                Ok(word)
            }
        }
    }

    /// A binary operator at two words.
    pub fn binary(&mut self, op: BinOp, t: CType, a: u32, b: u32) -> Result<u32, AllocError>
        ensures { IfOk result (λ word. are_words self.old ≡ true → is_promoted t ≡ true
            → a < length self.old
            → b < length self.old
            → Emits self.old self.new word
            (λ f. binary_value op t (word_in self.old a f) (word_in self.old b f))) }
    {
        match self.computed(op, t, a, b) {
            Some(value) => {
                let word = self.constant(value)?;
                Ok(word)
            }
            None => {
                let word = self.made(Expression::Binary { op, t, a, b })?;
                Ok(word)
            }
        }
    }

    /// The value of a binary operator on two constants, if it has one.
    fn computed(&self, op: BinOp, t: CType, a: u32, b: u32) -> Option<i64>
        ensures { IfSome result (λ z. (is_word_value z ≡ true)
            × ((f : Assignment)
            → binary_value op t (word_in self.now a f) (word_in self.now b f) ≡ z)) }
    {
        let a = self.constant_of(a)?;
        let b = self.constant_of(b)?;
        apply(op, t, convert(t, a), right_operand(op, t, b))
    }

    /// The word `yes` if `which` isn't 0, and else the word `no`.
    pub fn select(&mut self, which: u32, yes: u32, no: u32) -> Result<u32, AllocError>
        ensures { IfOk result (λ word. are_words self.old ≡ true → which < length self.old
            → yes < length self.old
            → no < length self.old → Emits self.old self.new word
            (λ f. cond (is_nonzero (word_in self.old which f)) (word_in self.old yes f)
            (word_in self.old no f))) }
    {
        if yes == no {
            return Ok(yes);
        }
        match self.constant_of(which) {
            Some(value) => Ok(chosen(value, yes, no)),
            None => {
                let word = self.made(Expression::Select { which, yes, no })?;
                Ok(word)
            }
        }
    }

    /// The element of an array at an index.
    pub fn read(&mut self, array: u32, index: u32) -> Result<u32, AllocError>
        ensures { IfOk result (λ word. are_words self.old ≡ true → array < length self.old
            → index < length self.old
            → Emits self.old self.new word
            (λ f. element_read (elements_in self.old array f) (word_in self.old index f))) }
    {
        let word = self.made(Expression::Read { array, index })?;
        Ok(word)
    }

    /// An array whose elements are 0.
    pub fn zeros(&mut self, count: u32) -> Result<u32, AllocError>
        ensures { IfOk result (λ word. are_words self.old ≡ true
            → (nat_le 1 count && nat_le count 256) ≡ true
            → EmitsArray self.old self.new word count (λ f. replicate count (pos 0))) }
    {
        let word = self.push(WordOp::Zeros(count))?;
        Ok(word)
    }

    /// An array with these elements, if `when` isn't 0.
    pub fn fill(&mut self, of: u32, values: Items<u32>, when: u32) -> Result<u32, AllocError>
        ensures { IfOk result (λ word. (count : ℕ) → are_words self.old ≡ true
            → of < length self.old
            → slice_index_or (lengths_of self.old) of 1 ≡ count → length values ≡ count
            → are_names (length self.old) values ≡ true → when < length self.old
            → EmitsArray self.old self.new word count
            (λ f. cond (is_nonzero (word_in self.old when f))
            (map (λ w. word_in self.old w f) values) (elements_in self.old of f))) }
    {
        let word = self.push(WordOp::Fill { of, values, when })?;
        Ok(word)
    }

    /// An array with another element at an index, if `when` isn't 0 and the index is in it.
    pub fn write(&mut self, of: u32, index: u32, value: u32, when: u32) -> Result<u32, AllocError>
        ensures { IfOk result (λ word. (count : ℕ) → are_words self.old ≡ true
            → of < length self.old
            → slice_index_or (lengths_of self.old) of 1 ≡ count → index < length self.old
            → value < length self.old
            → when < length self.old → EmitsArray self.old self.new word count
            (λ f. cond (is_nonzero (word_in self.old when f))
            (slice_set (elements_in self.old of f) (low_word (word_in self.old index f))
            (word_in self.old value f))
            (elements_in self.old of f))) }
    {
        let word = self.push(WordOp::Write {
            of,
            index,
            value,
            when,
        })?;
        Ok(word)
    }

    /// The write of an entry, if it is one that takes place if this word isn't 0.
    fn write_at(&self, array: u32, when: u32) -> Option<Store>
        ensures { IfSome result
            (λ s. slice_get self.now array ≡ Some (Write s.of s.index s.value when)) }
    {
        match self.items.get(array as usize) {
            Some(
                WordOp::Write {
                    of,
                    index,
                    value,
                    when: other,
                },
            ) => {
                if *other == when {
                    Some(Store {
                        of: *of,
                        index: *index,
                        value: *value,
                    })
                } else {
                    None
                }
            }
            _ => None,
        }
    }

    /// An array with another element at an index, on the second side of a branch. If its last change was a
    /// write on the first side, both become one write with selects.
    pub fn write_second(
        &mut self,
        of: u32,
        index: u32,
        value: u32,
        sides: &Sides,
    ) -> Result<u32, AllocError>
        ensures { IfOk result (λ word. (count : ℕ) → are_words self.old ≡ true
            → AreSides self.old sides.now → of < length self.old
            → slice_index_or (lengths_of self.old) of 1 ≡ count → index < length self.old
            → value < length self.old → EmitsArray self.old self.new word count
            (λ f. cond (is_nonzero (word_in self.old sides.now.second f))
            (slice_set (elements_in self.old of f) (low_word (word_in self.old index f))
            (word_in self.old value f))
            (elements_in self.old of f))) }
    {
        match self.write_at(of, sides.first) {
            Some(first) => {
                let index = self.select(sides.which, first.index, index)?;
                let value = self.select(sides.which, first.value, value)?;
                let word = self.write(first.of, index, value, sides.live)?;
                Ok(word)
            }
            None => {
                let word = self.write(of, index, value, sides.second)?;
                Ok(word)
            }
        }
    }
}

/// A write of an element: the array as it was, the index, and the value.
#[derive(Clone, Copy)]
struct Store {
    of: u32,
    index: u32,
    value: u32,
}

/// The right operand of an operator: the count of a shift as it is, any other converted.
fn right_operand(op: BinOp, t: CType, b: i64) -> i64
    ensures { result ≡ cond (shifts op) b (converted t b) }
{
    match op {
        BinOp::Shl | BinOp::Shr => b,
        _ => convert(t, b),
    }
}

/// The first word if the value isn't 0, and else the second.
fn chosen(value: i64, yes: u32, no: u32) -> u32
    ensures { result ≡ cond (is_nonzero value) yes no }
{
    if value == 0 { no } else { yes }
}

/// Whether a value isn't 0.
fn is_other_than_zero(value: i64) -> bool
    ensures { result ≡ is_nonzero value }
{
    value != 0
}
