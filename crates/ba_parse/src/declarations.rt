//! Reading declarations (C90 6.5).
//!
//! `levels` is how many more constructs may be around a token.

ghost use Rattle.std.specs.Prelude.{◌≡◌, if◌then◌else◌, ◌++◌, map, option_map, MatchResult};
ghost use Rattle.ba_parse.specs.declared.reader.Stop.TheVariants.{Memory};
ghost use Rattle.ba_tokens.specs.declared.token.Punct.TheVariants as punct;
ghost use Rattle.ba_trees.specs.Classes.{mark, only};
ghost use Rattle.ba_trees.specs.declared.class.TokenClass.TheVariants as class;
ghost use Rattle.ba_trees.specs.Marks.{leaf, no_name, specifiers};
ghost use Rattle.ba_parse.specs.Readings.{◌▹◌, around, with_front, read_either, read_maybe, read_nothing, read_name, read_node, read_many, read_listed, read_sign, next_is, is_next_value, is_next_enumerator, levels_left, shallow, in_enumerators, in_length, in_parameters, maybe_declarators, maybe_expression, maybe_length, read_declaration_words, read_enumerated, read_qualifiers_behind, read_enumerator, read_enumerator_list, read_enumerators, read_expression, read_braced, read_initialiser, read_declarator, read_declarators, read_declaration, read_parameter, read_parameters};
ghost use Rattle.ba_parse.specs.Grammar.{has_enumerators};
ghost use Rattle.ba_parse.specs.Telling.{Told};
ghost use Rattle.ba_trees.specs.Views.{optional, optional_leaf, name_marks, joined};
ghost use Rattle.ba_trees.specs.ExpressionMarks.{conditional_marks, next_expression_marks};
ghost use Rattle.ba_trees.specs.DeclarationMarks.{array_length_marks, braced_marks, declaration_marks, declarator_marks, declarators_marks, enumerator_list_marks, enumerator_marks, enumerator_value_marks, enumerators_marks, initialiser_marks, listed_declarator_marks, next_enumerator_marks, next_parameter_marks, parameter_list_marks, parameter_marks, parameters_marks, specifiers_marks};

use crate::expressions::{conditional, next_expression, refusal};
use crate::reader::{Reader, Stop};
use crate::sets::TokenSet;
use crate::types::{has_word, qualifiers_behind, specifier_words, type_name};
use ba_tokens::token::{Keyword, Punct, Token};
use ba_trees::tree::declarations::{
    ArrayLength, Braced, Declaration, Declarator, Declarators, Enumerator, EnumeratorList,
    EnumeratorValue, Enumerators, Initialiser, ListedDeclarator, NextEnumerator, NextParameter,
    Parameter, ParameterList, Parameters, Specifiers,
};
use ba_trees::tree::expressions::{Conditional, NextExpression};
use std::alloc::Global;

/// A comma.
const COMMA: TokenSet = TokenSet::Punct(Punct::Comma);

/// A word of a declaration inside a function.
const DECLARATION_WORD: TokenSet = TokenSet::DeclarationWord { with_static: false };

/// An expression, if one begins.
///
/// # Errors
///
/// [`Stop::Syntax`] or [`Stop::TooDeep`] as reading by the grammar stops; [`Stop::Memory`]: out of memory.
pub fn maybe_expression(
    alloc: Global,
    reader: &mut Reader,
    levels: u32,
) -> Result<Option<Conditional>, Stop>
    ensures { Told (λ e. optional (option_map conditional_marks e)) result
        (maybe_expression (levels_left levels) reader.old) reader.new }
{
    if !reader.next_is(TokenSet::OperandStart) {
        return Ok(None);
    }
    let expression = conditional(alloc, reader, levels)?;
    Ok(Some(expression))
}

/// The length of an array in square brackets, if they follow.
fn maybe_length(
    alloc: Global,
    reader: &mut Reader,
    levels: u32,
) -> Result<Option<ArrayLength>, Stop>
    ensures { Told (λ l. optional (option_map array_length_marks l)) result
        (maybe_length (levels_left levels) reader.old) reader.new }
{
    if !reader.next_is(TokenSet::Punct(Punct::OpenBracket)) {
        return Ok(None);
    }
    let open = reader.take(TokenSet::Punct(Punct::OpenBracket))?;
    let length = inner_length(alloc, reader, levels)?;
    let close = reader.take(TokenSet::Punct(Punct::CloseBracket))?;
    Ok(Some(ArrayLength {
        open,
        length,
        close,
    }))
}

/// What is between the brackets of an array, if anything.
fn inner_length(
    alloc: Global,
    reader: &mut Reader,
    levels: u32,
) -> Result<Option<Conditional>, Stop>
    ensures { Told (λ e. optional (option_map conditional_marks e)) result
        (levels_left levels in_length reader.old) reader.new }
{
    if levels == 0 {
        return no_length(reader);
    }
    maybe_expression(alloc, reader, levels - 1)
}

/// The length if no level is left: none, or a refusal.
fn no_length(reader: &Reader) -> Result<Option<Conditional>, Stop>
    ensures { Told (λ e. optional (option_map conditional_marks e)) result
        (shallow in_length reader.now) reader.now }
{
    if reader.next_is(TokenSet::OperandStart) {
        return Err(Stop::TooDeep);
    }
    Ok(None)
}

/// Values between braces.
fn braced(alloc: Global, reader: &mut Reader, levels: u32) -> Result<Braced, Stop>
    ensures { Told braced_marks result (read_braced (levels_left levels) reader.old) reader.new }
{
    let open = reader.take(TokenSet::Punct(Punct::OpenBrace))?;
    let first = conditional(alloc, reader, levels)?;
    let rest = next_values(alloc, reader, levels)?;
    let comma = maybe_comma(reader)?;
    let close = reader.take(TokenSet::Punct(Punct::CloseBrace))?;
    Ok(Braced {
        open,
        first,
        rest,
        comma,
        close,
    })
}

/// A comma, if one follows.
fn maybe_comma(reader: &mut Reader) -> Result<Option<Token>, Stop>
    ensures { Told optional_leaf result
        (read_maybe (mark punct.Comma) (read_sign punct.Comma) reader.old) reader.new }
{
    if !reader.next_is(COMMA) {
        return Ok(None);
    }
    let comma = reader.take(COMMA)?;
    Ok(Some(comma))
}

/// Expressions, each after a comma. A comma before the closing brace is the last one.
fn next_values(alloc: Global, reader: &mut Reader, levels: u32) -> Result<Vec<NextExpression>, Stop>
    ensures { Told (λ v. joined (map next_expression_marks v.items)) result
        (read_many is_next_value (read_sign punct.Comma ▹ read_expression (levels_left levels))
        reader.old) reader.new }
{
    let mut rest = Vec::new(alloc);
    let most = reader.rest().len();
    for _read in 0..most {
        if !reader.next_is_without(COMMA, TokenSet::Punct(Punct::CloseBrace)) {
            return Ok(rest);
        }
        rest.push(next_expression(alloc, reader, levels)?)?;
    }
    Ok(rest)
}

/// An initialiser after `=`, if one follows.
fn maybe_initialiser(
    alloc: Global,
    reader: &mut Reader,
    levels: u32,
) -> Result<Option<Initialiser>, Stop>
    ensures { Told (λ i. optional (option_map initialiser_marks i)) result
        (read_maybe (mark punct.Assign) (read_initialiser (levels_left levels)) reader.old)
        reader.new }
{
    if !reader.next_is(TokenSet::Punct(Punct::Assign)) {
        return Ok(None);
    }
    let given = initialiser(alloc, reader, levels)?;
    Ok(Some(given))
}

/// An initialiser: an expression, or values between braces.
fn initialiser(alloc: Global, reader: &mut Reader, levels: u32) -> Result<Initialiser, Stop>
    ensures { Told initialiser_marks result (read_initialiser (levels_left levels) reader.old)
        reader.new }
{
    let assign = reader.take(TokenSet::Punct(Punct::Assign))?;
    if reader.next_is(TokenSet::Punct(Punct::OpenBrace)) {
        let values = braced(alloc, reader, levels)?;
        Ok(Initialiser::Braced { assign, values })
    } else {
        let value = conditional(alloc, reader, levels)?;
        Ok(Initialiser::Expression { assign, value })
    }
}

/// A declarator: a name, a length, an initialiser.
fn declarator(alloc: Global, reader: &mut Reader, levels: u32) -> Result<Declarator, Stop>
    ensures { Told declarator_marks result (read_declarator (levels_left levels) reader.old)
        reader.new }
{
    let name = reader.take(TokenSet::Name)?;
    let length = maybe_length(alloc, reader, levels)?;
    let initialiser = maybe_initialiser(alloc, reader, levels)?;
    Ok(Declarator {
        name,
        length,
        initialiser,
    })
}

/// A declarator after a comma.
fn next_declarator(
    alloc: Global,
    reader: &mut Reader,
    levels: u32,
) -> Result<ListedDeclarator, Stop>
    ensures { Told listed_declarator_marks result
        ((read_sign punct.Comma ▹ read_declarator (levels_left levels)) reader.old) reader.new }
{
    let comma = reader.take(COMMA)?;
    let next = declarator(alloc, reader, levels)?;
    Ok(ListedDeclarator {
        comma: Some(comma),
        declarator: next,
    })
}

/// Declarators, each after a comma.
fn next_declarators(
    alloc: Global,
    reader: &mut Reader,
    levels: u32,
) -> Result<Vec<ListedDeclarator>, Stop>
    ensures { Told (λ v. joined (map listed_declarator_marks v.items)) result
        (read_many (next_is (mark punct.Comma))
        (read_sign punct.Comma ▹ read_declarator (levels_left levels)) reader.old) reader.new }
{
    let mut rest = Vec::new(alloc);
    let most = reader.rest().len();
    for _read in 0..most {
        if !reader.next_is(COMMA) {
            return Ok(rest);
        }
        rest.push(next_declarator(alloc, reader, levels)?)?;
    }
    Ok(rest)
}

/// Declarators with commas between.
///
/// # Errors
///
/// [`Stop::Syntax`] or [`Stop::TooDeep`] as reading by the grammar stops; [`Stop::Memory`]: out of memory.
pub fn declarators(alloc: Global, reader: &mut Reader, levels: u32) -> Result<Declarators, Stop>
    ensures { Told declarators_marks result (read_declarators (levels_left levels) reader.old)
        reader.new }
{
    let first = declarator(alloc, reader, levels)?;
    let mut all = next_declarators(alloc, reader, levels)?;
    put_first(&mut all, first)?;
    Ok(Declarators { all })
}

/// Puts the first declarator, which has no comma, before the others.
#[tactic(auto, using(crate::proofs::Repeats::each_front))]
fn put_first(all: &mut Vec<ListedDeclarator>, first: Declarator) -> Result<(), Stop>
    ensures { MatchResult result (λ _. joined (map listed_declarator_marks all.new.items)
        ≡ declarator_marks first ++ joined (map listed_declarator_marks all.old.items))
        (λ stop. stop ≡ Memory) }
{
    all.insert(
        0,
        ListedDeclarator {
            comma: None,
            declarator: first,
        },
    )?;
    Ok(())
}

/// The words at the front of a declaration of a file or a block, with the constants of an enumerated type
/// among them. `static` is accepted if `with_static` is true.
///
/// # Errors
///
/// [`Stop::Syntax`] or [`Stop::TooDeep`] as reading by the grammar stops; [`Stop::Memory`]: out of memory.
pub fn specifiers(
    alloc: Global,
    reader: &mut Reader,
    levels: u32,
    with_static: bool,
) -> Result<Specifiers, Stop>
    ensures { Told specifiers_marks result
        (read_declaration_words (levels_left levels) with_static reader.old) reader.new }
{
    let words = specifier_words(alloc, reader, with_static)?;
    if !has_word(words.as_slice(), Keyword::Enum) {
        return Ok(Specifiers {
            words,
            enumerators: None,
            behind: Vec::new(alloc),
        });
    }
    behind_words(alloc, reader, levels, words, with_static)
}

/// These words, the last of which is `enum`, and what follows them.
fn behind_words(
    alloc: Global,
    reader: &mut Reader,
    levels: u32,
    mut words: Vec<Token>,
    with_static: bool,
) -> Result<Specifiers, Stop>
    ensures { Told specifiers_marks result (around specifiers (with_front (map leaf words.items)
        ((read_enumerated (levels_left levels)
        ▹ read_qualifiers_behind with_static (map leaf words.items)) reader.old))) reader.new }
{
    let (tag, list) = enumerated(alloc, reader, levels)?;
    let behind = qualifiers_behind(alloc, reader, words.as_slice(), with_static)?;
    put_tag(&mut words, tag)?;
    Ok(Specifiers {
        words,
        enumerators: list,
        behind,
    })
}

/// The tag of an enumerated type, its constants in braces, or both.
fn enumerated(
    alloc: Global,
    reader: &mut Reader,
    levels: u32,
) -> Result<(Option<Token>, Option<Enumerators>), Stop>
    ensures { Told (λ e. optional_leaf e.0 ++ optional (option_map enumerators_marks e.1)) result
        (read_enumerated (levels_left levels) reader.old) reader.new }
{
    if reader.next_is(TokenSet::Name) {
        let tag = reader.take(TokenSet::Name)?;
        let list = maybe_enumerators(alloc, reader, levels)?;
        Ok((Some(tag), list))
    } else {
        let list = enumerators(alloc, reader, levels)?;
        Ok((None, Some(list)))
    }
}

/// The enumeration constants between braces, if they follow.
fn maybe_enumerators(
    alloc: Global,
    reader: &mut Reader,
    levels: u32,
) -> Result<Option<Enumerators>, Stop>
    ensures { Told (λ e. optional (option_map enumerators_marks e)) result
        (read_maybe (mark punct.OpenBrace) (read_enumerators (levels_left levels)) reader.old)
        reader.new }
{
    if !reader.next_is(TokenSet::Punct(Punct::OpenBrace)) {
        return Ok(None);
    }
    let list = enumerators(alloc, reader, levels)?;
    Ok(Some(list))
}

/// A tag, if there is one, after these words. The only error is out of memory.
fn put_tag(words: &mut Vec<Token>, tag: Option<Token>) -> Result<(), Stop>
    ensures { MatchResult result
        (λ _. map leaf words.new.items ≡ map leaf words.old.items ++ optional_leaf tag)
        (λ stop. stop ≡ Memory) }
{
    if let Some(tag) = tag {
        words.push(tag)?;
    }
    Ok(())
}

/// The constants of an enumerated type, in braces (C90 6.5.2.2).
fn enumerators(alloc: Global, reader: &mut Reader, levels: u32) -> Result<Enumerators, Stop>
    ensures { Told enumerators_marks result (read_enumerators (levels_left levels) reader.old)
        reader.new }
{
    let open = reader.take(TokenSet::Punct(Punct::OpenBrace))?;
    let list = inner_enumerators(alloc, reader, levels)?;
    let close = reader.take(TokenSet::Punct(Punct::CloseBrace))?;
    Ok(Enumerators { open, list, close })
}

/// What is between the braces of an enumerated type.
fn inner_enumerators(
    alloc: Global,
    reader: &mut Reader,
    levels: u32,
) -> Result<EnumeratorList, Stop>
    ensures { Told enumerator_list_marks result (levels_left levels in_enumerators reader.old)
        reader.new }
{
    if levels == 0 {
        return Err(refusal(reader, TokenSet::Name));
    }
    enumerator_list(alloc, reader, levels - 1)
}

/// Enumeration constants with commas between, and maybe one after the last.
fn enumerator_list(alloc: Global, reader: &mut Reader, levels: u32) -> Result<EnumeratorList, Stop>
    ensures { Told enumerator_list_marks result
        (read_enumerator_list (levels_left levels) reader.old) reader.new }
{
    let first = enumerator(alloc, reader, levels)?;
    let rest = next_enumerators(alloc, reader, levels)?;
    let comma = maybe_comma(reader)?;
    Ok(EnumeratorList { first, rest, comma })
}

/// An enumeration constant, maybe with its value.
fn enumerator(alloc: Global, reader: &mut Reader, levels: u32) -> Result<Enumerator, Stop>
    ensures { Told enumerator_marks result (read_enumerator (levels_left levels) reader.old)
        reader.new }
{
    let name = reader.take(TokenSet::Name)?;
    let value = maybe_enumerator_value(alloc, reader, levels)?;
    Ok(Enumerator { name, value })
}

/// The value of an enumeration constant after `=`, if one follows.
fn maybe_enumerator_value(
    alloc: Global,
    reader: &mut Reader,
    levels: u32,
) -> Result<Option<EnumeratorValue>, Stop>
    ensures { Told (λ v. optional (option_map enumerator_value_marks v)) result
        (read_maybe (mark punct.Assign)
        (read_sign punct.Assign ▹ read_expression (levels_left levels)) reader.old) reader.new }
{
    if !reader.next_is(TokenSet::Punct(Punct::Assign)) {
        return Ok(None);
    }
    let assign = reader.take(TokenSet::Punct(Punct::Assign))?;
    let value = conditional(alloc, reader, levels)?;
    Ok(Some(EnumeratorValue { assign, value }))
}

/// An enumeration constant after a comma.
fn next_enumerator(alloc: Global, reader: &mut Reader, levels: u32) -> Result<NextEnumerator, Stop>
    ensures { Told next_enumerator_marks result
        ((read_sign punct.Comma ▹ read_enumerator (levels_left levels)) reader.old) reader.new }
{
    let comma = reader.take(COMMA)?;
    let next = enumerator(alloc, reader, levels)?;
    Ok(NextEnumerator {
        comma,
        enumerator: next,
    })
}

/// Constants, each after a comma. A comma before no name is the last one.
fn next_enumerators(
    alloc: Global,
    reader: &mut Reader,
    levels: u32,
) -> Result<Vec<NextEnumerator>, Stop>
    ensures { Told (λ v. joined (map next_enumerator_marks v.items)) result
        (read_many is_next_enumerator
        (read_sign punct.Comma ▹ read_enumerator (levels_left levels)) reader.old) reader.new }
{
    let mut rest = Vec::new(alloc);
    let most = reader.rest().len();
    for _read in 0..most {
        if !reader.next_are(COMMA, TokenSet::Name) {
            return Ok(rest);
        }
        rest.push(next_enumerator(alloc, reader, levels)?)?;
    }
    Ok(rest)
}

/// Whether the constants of an enumerated type are among these words.
pub fn has_list(words: &Specifiers) -> bool
    ensures { result ≡ has_enumerators (specifiers_marks words.now) }
{
    words.enumerators.is_some()
}

/// Declarators, which may be absent after the constants of an enumerated type.
///
/// # Errors
///
/// [`Stop::Syntax`] or [`Stop::TooDeep`] as reading by the grammar stops; [`Stop::Memory`]: out of memory.
pub fn declared(
    alloc: Global,
    reader: &mut Reader,
    levels: u32,
    may_lack: bool,
) -> Result<Option<Declarators>, Stop>
    ensures { Told (λ d. optional (option_map declarators_marks d)) result
        ((if may_lack then maybe_declarators (levels_left levels)
        else read_declarators (levels_left levels)) reader.old) reader.new }
{
    if may_lack && !reader.next_is(TokenSet::Name) {
        return Ok(None);
    }
    let all = declarators(alloc, reader, levels)?;
    Ok(Some(all))
}

/// A declaration in a block.
///
/// # Errors
///
/// [`Stop::Syntax`] or [`Stop::TooDeep`] as reading by the grammar stops; [`Stop::Memory`]: out of memory.
pub fn declaration(alloc: Global, reader: &mut Reader, levels: u32) -> Result<Declaration, Stop>
    ensures { Told declaration_marks result (read_declaration (levels_left levels) reader.old)
        reader.new }
{
    let words = specifiers(alloc, reader, levels, false)?;
    let with_list = has_list(&words);
    let all = declared(alloc, reader, levels, with_list)?;
    let semicolon = reader.take(TokenSet::Punct(Punct::Semicolon))?;
    Ok(Declaration {
        specifiers: words,
        declarators: all,
        semicolon,
    })
}

/// A name, if one follows.
fn maybe_name(reader: &mut Reader) -> Result<Option<Token>, Stop>
    ensures { Told name_marks result
        (read_either (next_is (only class.Name)) read_name (read_node no_name read_nothing)
        reader.old) reader.new }
{
    if !reader.next_is(TokenSet::Name) {
        return Ok(None);
    }
    let name = reader.take(TokenSet::Name)?;
    Ok(Some(name))
}

/// A parameter: its type, its name, its length.
fn parameter(alloc: Global, reader: &mut Reader, levels: u32) -> Result<Parameter, Stop>
    ensures { Told parameter_marks result (read_parameter (levels_left levels) reader.old)
        reader.new }
{
    let words = type_name(alloc, reader)?;
    let name = maybe_name(reader)?;
    let length = maybe_length(alloc, reader, levels)?;
    Ok(Parameter {
        type_name: words,
        name,
        length,
    })
}

/// A parameter after a comma.
fn next_parameter(alloc: Global, reader: &mut Reader, levels: u32) -> Result<NextParameter, Stop>
    ensures { Told next_parameter_marks result
        ((read_sign punct.Comma ▹ read_parameter (levels_left levels)) reader.old) reader.new }
{
    let comma = reader.take(COMMA)?;
    let next = parameter(alloc, reader, levels)?;
    Ok(NextParameter {
        comma,
        parameter: next,
    })
}

/// Parameters, each after a comma.
fn next_parameters(
    alloc: Global,
    reader: &mut Reader,
    levels: u32,
) -> Result<Vec<NextParameter>, Stop>
    ensures { Told (λ v. joined (map next_parameter_marks v.items)) result
        (read_many (next_is (mark punct.Comma))
        (read_sign punct.Comma ▹ read_parameter (levels_left levels)) reader.old) reader.new }
{
    let mut rest = Vec::new(alloc);
    let most = reader.rest().len();
    for _read in 0..most {
        if !reader.next_is(COMMA) {
            return Ok(rest);
        }
        rest.push(next_parameter(alloc, reader, levels)?)?;
    }
    Ok(rest)
}

/// Parameters with commas between.
fn parameter_list(alloc: Global, reader: &mut Reader, levels: u32) -> Result<ParameterList, Stop>
    ensures { Told parameter_list_marks result
        (read_listed (read_parameter (levels_left levels)) reader.old) reader.new }
{
    let first = parameter(alloc, reader, levels)?;
    let rest = next_parameters(alloc, reader, levels)?;
    Ok(ParameterList { first, rest })
}

/// The parameters of a function, if a type follows.
fn parameters(alloc: Global, reader: &mut Reader, levels: u32) -> Result<Parameters, Stop>
    ensures { Told parameters_marks result (read_parameters (levels_left levels) reader.old)
        reader.new }
{
    if !reader.next_is(DECLARATION_WORD) {
        return Ok(Parameters { list: None });
    }
    let list = parameter_list(alloc, reader, levels)?;
    Ok(Parameters { list: Some(list) })
}

/// The parameters of a function, between its parentheses.
///
/// # Errors
///
/// [`Stop::Syntax`] or [`Stop::TooDeep`] as reading by the grammar stops; [`Stop::Memory`]: out of memory.
pub fn inner_parameters(alloc: Global, reader: &mut Reader, levels: u32) -> Result<Parameters, Stop>
    ensures { Told parameters_marks result (levels_left levels in_parameters reader.old)
        reader.new }
{
    if levels == 0 {
        return no_parameters(reader);
    }
    parameters(alloc, reader, levels - 1)
}

/// The parameters if no level is left: none, or a refusal.
fn no_parameters(reader: &Reader) -> Result<Parameters, Stop>
    ensures { Told parameters_marks result (shallow in_parameters reader.now) reader.now }
{
    if reader.next_is(DECLARATION_WORD) {
        return Err(Stop::TooDeep);
    }
    Ok(Parameters { list: None })
}
