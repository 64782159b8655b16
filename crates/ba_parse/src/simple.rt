//! Reading assignments, steps and calls, and what is between the parentheses of a statement (C90 6.3.2,
//! 6.3.16, 6.6.5).
//!
//! `levels` is how many more constructs may be around a token.

ghost use Rattle.std.specs.Prelude.{◌≡◌, ◌++◌, map, option_map, MatchResult};
ghost use Rattle.ba_parse.specs.declared.reader.Stop.TheVariants.{Memory};
ghost use Rattle.ba_tokens.specs.declared.token.Punct.TheVariants as punct;
ghost use Rattle.ba_trees.specs.declared.class.TokenClass.TheVariants as class;
ghost use Rattle.ba_trees.specs.Classes.{mark, only};
ghost use Rattle.ba_parse.specs.Grammar.{step_sign, assign_sign};
ghost use Rattle.ba_trees.specs.Marks.{leaf, simple};
ghost use Rattle.ba_parse.specs.Readings.{◌▹◌, read_maybe, read_either, read_many, read_token, read_node, read_name, read_sign, read_bracketed, read_parenthesized, next_is, levels_left, in_expression, in_arguments, in_for, in_printf, simple_start, read_expression, read_target, read_simple, read_simples, read_for_first, read_condition, read_label, read_for_head, read_printed};
ghost use Rattle.ba_parse.specs.Telling.{Told};
ghost use Rattle.ba_trees.specs.Views.{optional, joined};
ghost use Rattle.ba_trees.specs.SimpleMarks.{condition_marks, for_first_marks, for_head_marks, index_marks, label_marks, listed_simple_marks, printed_marks, simple_marks, simples_marks, target_marks};

use crate::declarations::{declarators, maybe_expression};
use crate::expressions::{
    conditional, inner_arguments, inner_expression, next_expressions, refusal,
};
use crate::reader::{Reader, Stop};
use crate::sets::TokenSet;
use crate::types::type_name;
use ba_tokens::token::{Keyword, Punct, Token};
use ba_trees::tree::statements::{
    Condition, ForFirst, ForHead, Index, Label, ListedSimple, Printed, Simple, Simples, Target,
};
use std::alloc::Global;

/// An opening parenthesis.
const OPEN: TokenSet = TokenSet::Punct(Punct::OpenParenthesis);

/// A closing parenthesis.
const CLOSE: TokenSet = TokenSet::Punct(Punct::CloseParenthesis);

/// A colon.
const COLON: TokenSet = TokenSet::Punct(Punct::Colon);

/// A comma.
const COMMA: TokenSet = TokenSet::Punct(Punct::Comma);

/// A semicolon.
const SEMICOLON: TokenSet = TokenSet::Punct(Punct::Semicolon);

/// The left side of an assignment: a name, maybe with an index.
fn target(alloc: Global, reader: &mut Reader, levels: u32) -> Result<Target, Stop>
    ensures { Told target_marks result (read_target (levels_left levels) reader.old) reader.new }
{
    let name = reader.take(TokenSet::Name)?;
    let index = maybe_index(alloc, reader, levels)?;
    Ok(Target { name, index })
}

/// An index in square brackets, if one follows.
fn maybe_index(alloc: Global, reader: &mut Reader, levels: u32) -> Result<Option<Index>, Stop>
    ensures { Told (λ i. optional (option_map index_marks i)) result
        (read_maybe (mark punct.OpenBracket) (read_bracketed (levels_left levels) in_expression)
        reader.old) reader.new }
{
    if !reader.next_is(TokenSet::Punct(Punct::OpenBracket)) {
        return Ok(None);
    }
    let open = reader.take(TokenSet::Punct(Punct::OpenBracket))?;
    let value = inner_expression(alloc, reader, levels)?;
    let close = reader.take(TokenSet::Punct(Punct::CloseBracket))?;
    Ok(Some(Index { open, value, close }))
}

/// An assignment, a step or a call.
///
/// # Errors
///
/// [`Stop::Syntax`] or [`Stop::TooDeep`] as reading by the grammar stops; [`Stop::Memory`]: out of memory.
pub fn simple(alloc: Global, reader: &mut Reader, levels: u32) -> Result<Simple, Stop>
    ensures { Told simple_marks result (read_simple (levels_left levels) reader.old) reader.new }
{
    if reader.next_is(TokenSet::StepSign) {
        prefix_step(alloc, reader, levels)
    } else if reader.next_are(TokenSet::Name, OPEN) {
        called(alloc, reader, levels)
    } else {
        assigned(alloc, reader, levels)
    }
}

/// A `++` or `--` before its variable or element.
fn prefix_step(alloc: Global, reader: &mut Reader, levels: u32) -> Result<Simple, Stop>
    ensures { Told simple_marks result
        (read_node simple (read_token step_sign ▹ read_target (levels_left levels)) reader.old)
        reader.new }
{
    let operator = reader.take(TokenSet::StepSign)?;
    let stepped = target(alloc, reader, levels)?;
    Ok(Simple::PrefixStep {
        operator,
        target: stepped,
    })
}

/// A call as a statement.
fn called(alloc: Global, reader: &mut Reader, levels: u32) -> Result<Simple, Stop>
    ensures { Told simple_marks result
        (read_node simple (read_name ▹ read_parenthesized (levels_left levels) in_arguments)
        reader.old) reader.new }
{
    let name = reader.take(TokenSet::Name)?;
    let open = reader.take(OPEN)?;
    let arguments = inner_arguments(alloc, reader, levels)?;
    let close = reader.take(CLOSE)?;
    Ok(Simple::Call {
        name,
        open,
        arguments,
        close,
    })
}

/// An assignment, or `++` or `--` after its variable or element.
fn assigned(alloc: Global, reader: &mut Reader, levels: u32) -> Result<Simple, Stop>
    ensures { Told simple_marks result
        (read_node simple (read_target (levels_left levels) ▹ read_either (next_is step_sign)
        (read_token step_sign) (read_token assign_sign ▹ read_expression (levels_left levels)))
        reader.old) reader.new }
{
    let place = target(alloc, reader, levels)?;
    if reader.next_is(TokenSet::StepSign) {
        let operator = reader.take(TokenSet::StepSign)?;
        Ok(Simple::Step {
            target: place,
            operator,
        })
    } else {
        let operator = reader.take(TokenSet::AssignSign)?;
        let value = conditional(alloc, reader, levels)?;
        Ok(Simple::Assign {
            target: place,
            operator,
            value,
        })
    }
}

/// An assignment, step or call after a comma.
fn next_simple(alloc: Global, reader: &mut Reader, levels: u32) -> Result<ListedSimple, Stop>
    ensures { Told listed_simple_marks result
        ((read_sign punct.Comma ▹ read_simple (levels_left levels)) reader.old) reader.new }
{
    let comma = reader.take(COMMA)?;
    let next = simple(alloc, reader, levels)?;
    Ok(ListedSimple {
        comma: Some(comma),
        simple: next,
    })
}

/// Assignments, steps and calls, each after a comma.
fn next_simples(alloc: Global, reader: &mut Reader, levels: u32) -> Result<Vec<ListedSimple>, Stop>
    ensures { Told (λ v. joined (map listed_simple_marks v.items)) result
        (read_many (next_is (mark punct.Comma))
        (read_sign punct.Comma ▹ read_simple (levels_left levels)) reader.old) reader.new }
{
    let mut rest = Vec::new(alloc);
    let most = reader.rest().len();
    for _read in 0..most {
        if !reader.next_is(COMMA) {
            return Ok(rest);
        }
        rest.push(next_simple(alloc, reader, levels)?)?;
    }
    Ok(rest)
}

/// Assignments, steps and calls with commas between.
fn simples(alloc: Global, reader: &mut Reader, levels: u32) -> Result<Simples, Stop>
    ensures { Told simples_marks result (read_simples (levels_left levels) reader.old) reader.new }
{
    let first = simple(alloc, reader, levels)?;
    let mut all = next_simples(alloc, reader, levels)?;
    put_first(&mut all, first)?;
    Ok(Simples { all })
}

/// Puts the first one, which has no comma, before the others.
#[tactic(auto, using(crate::proofs::Repeats::each_front))]
fn put_first(all: &mut Vec<ListedSimple>, first: Simple) -> Result<(), Stop>
    ensures { MatchResult result (λ _. joined (map listed_simple_marks all.new.items)
        ≡ simple_marks first ++ joined (map listed_simple_marks all.old.items)) (λ stop. stop
        ≡ Memory) }
{
    all.insert(
        0,
        ListedSimple {
            comma: None,
            simple: first,
        },
    )?;
    Ok(())
}

/// Assignments, steps and calls, if one follows.
fn maybe_simples(alloc: Global, reader: &mut Reader, levels: u32) -> Result<Option<Simples>, Stop>
    ensures { Told (λ s. optional (option_map simples_marks s)) result
        (read_maybe simple_start (read_simples (levels_left levels)) reader.old) reader.new }
{
    if !reader.next_is(TokenSet::SimpleStart) {
        return Ok(None);
    }
    let all = simples(alloc, reader, levels)?;
    Ok(Some(all))
}

/// A condition in parentheses.
///
/// # Errors
///
/// [`Stop::Syntax`] or [`Stop::TooDeep`] as reading by the grammar stops; [`Stop::Memory`]: out of memory.
pub fn condition(alloc: Global, reader: &mut Reader, levels: u32) -> Result<Condition, Stop>
    ensures { Told condition_marks result (read_condition (levels_left levels) reader.old)
        reader.new }
{
    let open = reader.take(OPEN)?;
    let test = inner_expression(alloc, reader, levels)?;
    let close = reader.take(CLOSE)?;
    Ok(Condition { open, test, close })
}

/// A label of a `switch` (C90 6.6.1).
///
/// # Errors
///
/// [`Stop::Syntax`] or [`Stop::TooDeep`] as reading by the grammar stops; [`Stop::Memory`]: out of memory.
pub fn label(alloc: Global, reader: &mut Reader, levels: u32) -> Result<Label, Stop>
    ensures { Told label_marks result (read_label (levels_left levels) reader.old) reader.new }
{
    if reader.next_is(TokenSet::Keyword(Keyword::Case)) {
        let keyword = reader.take(TokenSet::Keyword(Keyword::Case))?;
        let value = conditional(alloc, reader, levels)?;
        let colon = reader.take(COLON)?;
        Ok(Label::Case {
            keyword,
            value,
            colon,
        })
    } else {
        let keyword = reader.take(TokenSet::Keyword(Keyword::Default))?;
        let colon = reader.take(COLON)?;
        Ok(Label::Default { keyword, colon })
    }
}

/// The first part of a `for` head: a declaration, assignments, steps and calls, or nothing.
fn for_first(alloc: Global, reader: &mut Reader, levels: u32) -> Result<ForFirst, Stop>
    ensures { Told for_first_marks result (read_for_first (levels_left levels) reader.old)
        reader.new }
{
    if reader.next_is(TokenSet::DeclarationWord { with_static: false }) {
        let name = type_name(alloc, reader)?;
        let declarators = declarators(alloc, reader, levels)?;
        Ok(ForFirst::Declaration { name, declarators })
    } else if reader.next_is(TokenSet::SimpleStart) {
        let simples = simples(alloc, reader, levels)?;
        Ok(ForFirst::Simples(simples))
    } else {
        Ok(ForFirst::Nothing)
    }
}

/// What is between the parentheses of a `for`.
fn for_head(alloc: Global, reader: &mut Reader, levels: u32) -> Result<ForHead, Stop>
    ensures { Told for_head_marks result (read_for_head (levels_left levels) reader.old)
        reader.new }
{
    let first = for_first(alloc, reader, levels)?;
    let first_semicolon = reader.take(SEMICOLON)?;
    let test = maybe_expression(alloc, reader, levels)?;
    let second_semicolon = reader.take(SEMICOLON)?;
    let step = maybe_simples(alloc, reader, levels)?;
    Ok(ForHead {
        first,
        first_semicolon,
        test,
        second_semicolon,
        step,
    })
}

/// The head of a `for`, between its parentheses.
///
/// # Errors
///
/// [`Stop::Syntax`] or [`Stop::TooDeep`] as reading by the grammar stops; [`Stop::Memory`]: out of memory.
pub fn inner_for_head(alloc: Global, reader: &mut Reader, levels: u32) -> Result<ForHead, Stop>
    ensures { Told for_head_marks result (levels_left levels in_for reader.old) reader.new }
{
    if levels == 0 {
        return Err(refusal(reader, TokenSet::ForStart));
    }
    for_head(alloc, reader, levels - 1)
}

/// Further strings of a format, side by side with the first.
fn next_strings(alloc: Global, reader: &mut Reader) -> Result<Vec<Token>, Stop>
    ensures { Told (λ v. map leaf v.items) result
        (read_many (next_is (only class.Quoted)) (read_token (only class.Quoted)) reader.old)
        reader.new }
{
    let mut rest = Vec::new(alloc);
    let most = reader.rest().len();
    for _read in 0..most {
        if !reader.next_is(TokenSet::Quoted) {
            return Ok(rest);
        }
        let string = reader.take(TokenSet::Quoted)?;
        rest.push(string)?;
    }
    Ok(rest)
}

/// What is between the parentheses of a `printf`: the format, then expressions.
fn printed(alloc: Global, reader: &mut Reader, levels: u32) -> Result<Printed, Stop>
    ensures { Told printed_marks result (read_printed (levels_left levels) reader.old) reader.new }
{
    let first = reader.take(TokenSet::Quoted)?;
    let rest = next_strings(alloc, reader)?;
    let values = next_expressions(alloc, reader, levels)?;
    Ok(Printed {
        first,
        rest,
        values,
    })
}

/// What a `printf` prints, between its parentheses.
///
/// # Errors
///
/// [`Stop::Syntax`] or [`Stop::TooDeep`] as reading by the grammar stops; [`Stop::Memory`]: out of memory.
pub fn inner_printed(alloc: Global, reader: &mut Reader, levels: u32) -> Result<Printed, Stop>
    ensures { Told printed_marks result (levels_left levels in_printf reader.old) reader.new }
{
    if levels == 0 {
        return Err(refusal(reader, TokenSet::Quoted));
    }
    printed(alloc, reader, levels - 1)
}
