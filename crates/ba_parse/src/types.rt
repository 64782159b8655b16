//! Reading the words of a type (C90 6.5.1, 6.5.2, 6.5.3).

ghost use Rattle.std.specs.Prelude.{◌≡◌, false, true, ◌∷◌, [], map, MatchResult};
ghost use Rattle.ba_parse.specs.declared.reader.Stop.TheVariants.{Memory};
ghost use Rattle.std.specs.List.{list_any, list_all};
ghost use Rattle.ba_tokens.specs.declared.token.Keyword.TheVariants as keyword;
ghost use Rattle.ba_trees.specs.Classes.{Classes, class_of, word, ◌or◌, type_word, excludes, agree};
ghost use Rattle.ba_trees.specs.ExpressionMarks.{type_name_marks};
ghost use Rattle.ba_trees.specs.Marks.{leaf};
ghost use Rattle.ba_parse.specs.Grammar.{has_class};
ghost use Rattle.ba_parse.specs.Readings.{◌▹◌, read_maybe, read_key, read_name, read_qualifiers_left, read_qualifiers_behind, read_type_words, words_after};
ghost use Rattle.ba_parse.specs.Telling.{Told, next_word, agrees_with};

use crate::reader::{Reader, Stop};
use crate::sets::{TokenSet, is_type_word};
use ba_tokens::token::{Keyword, Token};
use ba_trees::class::{TokenClass, class_of};
use ba_trees::tree::expressions::TypeName;
use std::alloc::Global;

/// The words of a type, at least one of which names it.
///
/// # Errors
///
/// `Syntax` at the first word that does not agree with those before it. It is after the words if none names a
/// type, and after `enum` if no name comes next. `Memory` if memory runs out.
pub fn type_name(alloc: Global, reader: &mut Reader) -> Result<TypeName, Stop>
    ensures { Told type_name_marks result (read_type_words reader.old) reader.new }
{
    let mut words = specifier_words(alloc, reader, false)?;
    if has_word(words.as_slice(), Keyword::Enum) {
        let mut behind = tag_words(alloc, reader, words.as_slice())?;
        words.append(&mut behind)?;
    }
    Ok(TypeName { words })
}

/// The tag after `enum`, and the qualifiers after it.
fn tag_words(alloc: Global, reader: &mut Reader, words: &[Token]) -> Result<Vec<Token>, Stop>
    ensures { Told (λ v. map leaf v.items) result
        ((read_name ▹ read_qualifiers_behind false (map leaf words.now)) reader.old) reader.new }
{
    let tag = reader.take(TokenSet::Name)?;
    let behind = qualifiers_behind(alloc, reader, words, false)?;
    with_first(tag, behind)
}

/// `const` and `static` if they are not among these words, and `static` is accepted.
///
/// # Errors
///
/// Out of memory.
pub fn qualifiers_behind(
    alloc: Global,
    reader: &mut Reader,
    words: &[Token],
    with_static: bool,
) -> Result<Vec<Token>, Stop>
    ensures { Told (λ v. map leaf v.items) result
        (read_qualifiers_behind with_static (map leaf words.now) reader.old) reader.new }
{
    let with_const = !has_word(words, Keyword::Const);
    let static_left = with_static && !has_word(words, Keyword::Static);
    qualifiers_left(alloc, reader, with_const, static_left)
}

/// `const` and `static` after a tag, each at most once.
fn qualifiers_left(
    alloc: Global,
    reader: &mut Reader,
    with_const: bool,
    with_static: bool,
) -> Result<Vec<Token>, Stop>
    ensures { Told (λ v. map leaf v.items) result
        (read_qualifiers_left with_const with_static reader.old) reader.new }
{
    if with_const {
        if with_static {
            both_qualifiers(alloc, reader)
        } else {
            maybe_word(alloc, reader, Keyword::Const)
        }
    } else if with_static {
        maybe_word(alloc, reader, Keyword::Static)
    } else {
        Ok(Vec::new(alloc))
    }
}

/// `const` and `static`, in any order, if they come next.
fn both_qualifiers(alloc: Global, reader: &mut Reader) -> Result<Vec<Token>, Stop>
    ensures { Told (λ v. map leaf v.items) result (read_qualifiers_left true true reader.old)
        reader.new }
{
    if reader.next_is(TokenSet::Keyword(Keyword::Const)) {
        let first = reader.take(TokenSet::Keyword(Keyword::Const))?;
        let behind = maybe_word(alloc, reader, Keyword::Static)?;
        with_first(first, behind)
    } else if reader.next_is(TokenSet::Keyword(Keyword::Static)) {
        let first = reader.take(TokenSet::Keyword(Keyword::Static))?;
        let behind = maybe_word(alloc, reader, Keyword::Const)?;
        with_first(first, behind)
    } else {
        Ok(Vec::new(alloc))
    }
}

/// This keyword, if it comes next.
fn maybe_word(alloc: Global, reader: &mut Reader, keyword: Keyword) -> Result<Vec<Token>, Stop>
    ensures { Told (λ v. map leaf v.items) result
        (read_maybe (word keyword) (read_key keyword) reader.old) reader.new }
{
    let mut found = Vec::new(alloc);
    if reader.next_is(TokenSet::Keyword(keyword)) {
        found.push(reader.take(TokenSet::Keyword(keyword))?)?;
    }
    Ok(found)
}

/// The tokens with another one before them. The only error is out of memory.
fn with_first(first: Token, mut behind: Vec<Token>) -> Result<Vec<Token>, Stop>
    ensures { MatchResult result (λ v. v.items ≡ first ∷ behind.items) (λ stop. stop ≡ Memory) }
{
    behind.insert(0, first)?;
    Ok(behind)
}

/// Whether this keyword is among the words.
pub fn has_word(words: &[Token], keyword: Keyword) -> bool
    ensures { result ≡ has_class (word keyword) (map leaf words.now) }
{
    some_is(words, keyword)
}

/// Whether one of the words is this keyword.
fn some_is(words: &[Token], keyword: Keyword) -> bool
    ensures { result ≡ list_any (λ t. word keyword (class_of t)) words.now }
{
    words.iter().any(|token| is_keyword(token, keyword))
}

/// Whether the token is this keyword.
fn is_keyword(token: &Token, keyword: Keyword) -> bool
    ensures { result ≡ word keyword (class_of token.now) }
{
    class_of(token) == TokenClass::Keyword(keyword)
}

/// The words of a type, the last of which may be `enum`. `static` is accepted if `with_static` is true.
///
/// # Errors
///
/// `Syntax` at the first word that does not agree with those before it, or after the words, if none names a
/// type. `Memory` if memory runs out.
pub fn specifier_words(
    alloc: Global,
    reader: &mut Reader,
    with_static: bool,
) -> Result<Vec<Token>, Stop>
    ensures { Told (λ v. map leaf v.items) result (words_after with_static [] reader.old)
        reader.new }
{
    let mut words = Vec::new(alloc);
    let mut classes = Vec::new(alloc);
    while reader.next_is(TokenSet::DeclarationWord { with_static }) {
        let word = next_word(reader, classes.as_slice(), with_static)?;
        classes.push(class_of(&word))?;
        words.push(word)?;
    }
    if !some_names_type(classes.as_slice()) {
        return Err(Stop::Syntax);
    }
    Ok(words)
}

/// The next word, which has to agree with those of these classes before it.
fn next_word(reader: &mut Reader, before: &[TokenClass], with_static: bool) -> Result<Token, Stop>
    ensures { Told (λ token. leaf token
        ∷ []) result (next_word with_static before.now reader.old) reader.new }
{
    if !agrees_with(before, reader.rest()) {
        return Err(Stop::Syntax);
    }
    reader.take(TokenSet::DeclarationWord { with_static })
}

/// Whether the next token agrees with words of these classes.
fn agrees_with(before: &[TokenClass], rest: &[Token]) -> bool
    ensures { result ≡ agrees_with before.now rest.now }
{
    match rest.split_first() {
        Some((token, _rest)) => agree_all(before, class_of(token)),
        None => false,
    }
}

/// Whether the class agrees with each of the words before.
fn agree_all(before: &[TokenClass], class: TokenClass) -> bool
    ensures { result ≡ list_all (λ c. agree c class) before.now }
{
    before.iter().all(|before| agree(*before, class))
}

/// Whether one of the words names a type.
fn some_names_type(words: &[TokenClass]) -> bool
    ensures { result ≡ list_any type_word words.now }
{
    words.iter().any(|class| is_type_word(*class))
}

/// Whether two words may be in one type, in this order.
fn agree(first: TokenClass, second: TokenClass) -> bool
    ensures { result ≡ agree first second }
{
    !(first == TokenClass::Keyword(Keyword::Enum)
        || first == second
        || excludes(first, second)
        || excludes(second, first))
}

/// Whether the first word excludes the second, in one order of the two.
fn excludes(first: TokenClass, second: TokenClass) -> bool
    ensures { result ≡ excludes first second }
{
    (first == TokenClass::Keyword(Keyword::Void) && is_type_word(second))
        || (first == TokenClass::Keyword(Keyword::Enum) && is_type_word(second))
        || (first == TokenClass::Keyword(Keyword::Char) && is_length_word(second))
        || (first == TokenClass::Keyword(Keyword::Short)
            && second == TokenClass::Keyword(Keyword::Long))
        || (first == TokenClass::Keyword(Keyword::Signed)
            && second == TokenClass::Keyword(Keyword::Unsigned))
}

/// Whether the word is `short`, `int` or `long`.
fn is_length_word(class: TokenClass) -> bool
    ensures { result ≡ (word keyword.Short or word keyword.Int or word keyword.Long) class }
{
    class == TokenClass::Keyword(Keyword::Short)
        || class == TokenClass::Keyword(Keyword::Int)
        || class == TokenClass::Keyword(Keyword::Long)
}
