//! Reading a file (C90 6.7).

ghost use Rattle.std.specs.Prelude.{◌≡◌, ◌⊎◌, if◌then◌else◌, true, List, ◌++◌, map, Err};
ghost use Rattle.ba_tokens.specs.declared.token.Token.{Token};
ghost use Rattle.ba_trees.specs.Classes.{declaration_word};
ghost use Rattle.ba_parse.specs.Grammar.{is_void, takes_block};
ghost use Rattle.ba_trees.specs.Marks.{yield, one_deeper, node_of, file};
ghost use Rattle.ba_parse.specs.Readings.{done, ◌▹◌, read_either, read_many, read_semicolon, next_is, is_function, levels_left, maybe_declarators, read_declarators, read_function_end, read_function_tail, read_external, read_file};
ghost use Rattle.ba_parse.specs.Telling.{Told};
ghost use Rattle.ba_trees.specs.Views.{joined};
ghost use Rattle.ba_trees.specs.DeclarationMarks.{parameters_marks};
ghost use Rattle.ba_trees.specs.ExternalMarks.{end_marks, external_form_marks, external_marks};
ghost use Rattle.ba_parse.specs.Outcomes.{written};
ghost use Rattle.ba_parse.specs.Outcomes.{outcome_of, token_number};
ghost use Rattle.ba_parse.specs.Files.{Verdict, Says};
ghost use Rattle.ba_trees.specs.Marks.{has_accepted_levels};
ghost use Rattle.ba_parse.specs.Told.{IsTold, result_of};
ghost use Rattle.ba_parse.specs.declared.error.ParseError.TheVariants.{Memory};

use crate::declarations::{declared, has_list, inner_parameters, specifiers};
use crate::error::ParseError;
use crate::naming::are_named;
use crate::reader::{Reader, Stop};
use crate::sets::TokenSet;
use crate::statements::block;
use ba_tokens::token::{Keyword, Punct, Token};
use ba_trees::class::{TokenClass, class_of};
use ba_trees::tree::declarations::Parameters;
use ba_trees::tree::statements::{External, ExternalForm, FunctionEnd, RawProgram};
use std::alloc::Global;

/// How many constructs may be around a token.
pub const MAX_LEVEL: u32 = 100;

/// An opening parenthesis.
const OPEN: TokenSet = TokenSet::Punct(Punct::OpenParenthesis);

/// A closing parenthesis.
const CLOSE: TokenSet = TokenSet::Punct(Punct::CloseParenthesis);

/// A semicolon.
const SEMICOLON: TokenSet = TokenSet::Punct(Punct::Semicolon);

/// A word of a declaration at the level of the file.
const EXTERNAL_WORD: TokenSet = TokenSet::DeclarationWord { with_static: true };

/// The one tree of the grammar whose leaves are the tokens (C90 6.3 to 6.7).
///
/// # Errors
///
/// The number in an error is that of a token, from 0, or the count of tokens for the end of the list. Of two
/// causes the smaller number is answered, and `Syntax` if both have the same.
///
/// - [`ParseError::Syntax`]: the least number such that no file's tokens begin with the tokens up to this
///   one. At the end, the list begins a file's tokens and is no file's.
/// - [`ParseError::TooDeep`]: the least number of a token with more than [`MAX_LEVEL`] constructs around it.
/// - [`ParseError::Memory`]: out of memory.
pub fn parse(alloc: Global, tokens: &[Token]) -> Result<RawProgram, ParseError>
    ensures told { IsTold tokens.now (written result) }
    ensures only { (verdict : Verdict) → Says tokens.now verdict
        → (written result ≡ result_of verdict) ⊎ (result ≡ Err Memory) }
{
    whole_file(alloc, tokens)
}

/// The tree of a file, or the error at the token at which reading stops.
fn whole_file(alloc: Global, tokens: &[Token]) -> Result<RawProgram, ParseError>
    ensures { (result ≡ Err Memory)
        ⊎ (written result ≡ outcome_of tokens.now (read_file (levels_left 100) tokens.now)) }
{
    let mut reader = Reader::new(tokens);
    match externals(alloc, &mut reader, MAX_LEVEL) {
        Ok(all) => file_of(all, tokens, reader.rest()),
        Err(Stop::Syntax) => Err(ParseError::Syntax(token_number(tokens, reader.rest()))),
        Err(Stop::TooDeep) => Err(ParseError::TooDeep(token_number(tokens, reader.rest()))),
        Err(Stop::Memory) => Err(ParseError::Memory),
    }
}

/// The file, if no token follows what was read.
fn file_of(all: Vec<External>, tokens: &[Token], rest: &[Token]) -> Result<RawProgram, ParseError>
    requires { has_accepted_levels (node_of file (joined (map external_marks all.items))) ≡ true }
    ensures { written result ≡ outcome_of tokens.now
        (done (node_of file (joined (map external_marks all.items))) rest.now) }
{
    match rest.split_first() {
        Some(_) => Err(ParseError::Syntax(token_number(tokens, rest))),
        None => Ok(RawProgram { externals: all }),
    }
}

/// The number of the first token of `rest`, which is the end of `tokens`.
fn token_number(tokens: &[Token], rest: &[Token]) -> usize
    ensures { result ≡ token_number tokens.now rest.now }
{
    tokens.len().saturating_sub(rest.len())
}

/// Declarations and functions, as long as a word of a declaration follows.
fn externals(alloc: Global, reader: &mut Reader, levels: u32) -> Result<Vec<External>, Stop>
    ensures { Told (λ v. joined (map external_marks v.items)) result
        (read_many (next_is (declaration_word true)) (read_external (levels_left levels))
        reader.old) reader.new }
{
    let mut all = Vec::new(alloc);
    let most = reader.rest().len();
    for _read in 0..most {
        if !reader.next_is(EXTERNAL_WORD) {
            return Ok(all);
        }
        all.push(external(alloc, reader, levels)?)?;
    }
    Ok(all)
}

/// A declaration or a function.
fn external(alloc: Global, reader: &mut Reader, levels: u32) -> Result<External, Stop>
    ensures { Told external_marks result (read_external (levels_left levels) reader.old)
        reader.new }
{
    let words = specifiers(alloc, reader, levels, true)?;
    let with_list = has_list(&words);
    let form = external_form(alloc, reader, levels, with_list)?;
    Ok(External {
        specifiers: words,
        form,
    })
}

/// What follows the words of an external declaration, which may list the constants of an enumerated type.
fn external_form(
    alloc: Global,
    reader: &mut Reader,
    levels: u32,
    with_list: bool,
) -> Result<ExternalForm, Stop>
    ensures { Told external_form_marks result
        ((if with_list then maybe_declarators (levels_left levels) ▹ read_semicolon
        else read_either is_function (read_function_tail (levels_left levels))
        (read_declarators (levels_left levels) ▹ read_semicolon)) reader.old) reader.new }
{
    if !with_list && reader.next_are(TokenSet::Name, OPEN) {
        function(alloc, reader, levels)
    } else {
        variables(alloc, reader, levels, with_list)
    }
}

/// Variables of the file, which may be absent after the constants of an enumerated type.
fn variables(
    alloc: Global,
    reader: &mut Reader,
    levels: u32,
    may_lack: bool,
) -> Result<ExternalForm, Stop>
    ensures { Told external_form_marks result
        (((if may_lack then maybe_declarators (levels_left levels)
        else read_declarators (levels_left levels)) ▹ read_semicolon) reader.old) reader.new }
{
    let all = declared(alloc, reader, levels, may_lack)?;
    let semicolon = reader.take(SEMICOLON)?;
    Ok(ExternalForm::Variables {
        declarators: all,
        semicolon,
    })
}

/// A function from its name on.
fn function(alloc: Global, reader: &mut Reader, levels: u32) -> Result<ExternalForm, Stop>
    ensures { Told external_form_marks result (read_function_tail (levels_left levels) reader.old)
        reader.new }
{
    let name = reader.take(TokenSet::Name)?;
    let open = reader.take(OPEN)?;
    let before = reader.rest();
    let parameters = inner_parameters(alloc, reader, levels)?;
    let with_block = takes_block(&parameters, before, reader.rest());
    let close = reader.take(CLOSE)?;
    let end = function_end(alloc, reader, levels, with_block)?;
    Ok(ExternalForm::Function {
        name,
        open,
        parameters,
        close,
        end,
    })
}

/// Whether a block may follow these parameters, which were read from `before` to `after`.
fn takes_block(parameters: &Parameters, before: &[Token], after: &[Token]) -> bool
    requires { yield (parameters_marks parameters.now) ++ after.now ≡ before.now }
    ensures { result ≡ takes_block (one_deeper (parameters_marks parameters.now)) }
{
    are_named(parameters) || is_void(before, after)
}

/// Whether the tokens from `before` to `after` are `void` alone.
fn is_void(before: &[Token], after: &[Token]) -> bool
    ensures told { (ts : List Token) → ts ++ after.now ≡ before.now → result ≡ is_void ts }
{
    match before.split_first() {
        Some((first, rest)) if rest.len() == after.len() => class_of(first)
            == TokenClass::Keyword(Keyword::Void),
        _ => false,
    }
}

/// A body, if it may follow, or a semicolon.
fn function_end(
    alloc: Global,
    reader: &mut Reader,
    levels: u32,
    with_block: bool,
) -> Result<FunctionEnd, Stop>
    ensures { Told end_marks result (read_function_end (levels_left levels) with_block reader.old)
        reader.new }
{
    if with_block && reader.next_is(TokenSet::Punct(Punct::OpenBrace)) {
        let body = block(alloc, reader, levels)?;
        Ok(FunctionEnd::Body(body))
    } else {
        let semicolon = reader.take(SEMICOLON)?;
        Ok(FunctionEnd::Prototype { semicolon })
    }
}
