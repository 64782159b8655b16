//! Laws of the definitions, each the clause of a function that does nothing.

ghost use Rattle.std.specs.Prelude.{◌≡◌, ℕ, List, Err, false, slice_index, take, drop};
ghost use Rattle.std.specs.Bool.{Decides};
ghost use Rattle.std.specs.List.{prefix_len};
ghost use Rattle.ba_numbers.specs.declared.ids.At.{At};
ghost use Rattle.ba_lex.specs.Lines.{Reading, answer, same_kind, sequence};
ghost use Rattle.ba_bytes.specs.Classes.{is_number_byte, is_word_byte};
ghost use Rattle.ba_lex.specs.Pieces.{cut, position_after};
ghost use Rattle.ba_lex.specs.declared.error.LexError.{LexError};
ghost use Rattle.ba_tokens.specs.declared.token.TokenKind.{TokenKind};

/// Law: the test of two kinds of tokens decides whether they are the same. Names are compared by bytes,
/// constants by type and value, keywords and punctuators by themselves. All strings are alike.
pub fn kinds_are_compared_whole()
    ensures { (a b : TokenKind) → Decides (same_kind a b) (a ≡ b) }
{}

/// Law: the cut passes over the bytes of a piece that has begun, and goes on at the position after them.
pub fn pieces_stand_side_by_side()
    ensures { (bytes : List ℕ) (at : At) (left : ℕ) →
        cut at left bytes ≡ cut (position_after at (take left bytes)) 0 (drop left bytes) }
{}

/// Law: words and numbers are as long as they can be. The byte after one, if there is one, could not continue
/// it.
pub fn words_and_numbers_are_longest()
    ensures word { (bytes : List ℕ)
        → is_word_byte (slice_index bytes (prefix_len is_word_byte bytes)) ≡ false }
    ensures number { (bytes : List ℕ)
        → is_number_byte (slice_index bytes (prefix_len is_number_byte bytes)) ≡ false }
{}

/// Law: the first error stays, whatever follows it.
pub fn first_error_stands()
    ensures { (first next : Reading) (e : LexError) →
        answer first ≡ Err e → answer (sequence first next) ≡ Err e }
{}
