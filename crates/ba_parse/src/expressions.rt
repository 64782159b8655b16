//! Reading expressions (C90 6.3).
//!
//! `levels` is how many more constructs may be around a token.

ghost use Rattle.std.specs.Prelude.{◌≡◌, ◌<◌, ◌∷◌, ◌++◌, [], Option, map, option_map, MatchResult};
ghost use Rattle.ba_tokens.specs.declared.token.Punct.TheVariants as punct;
ghost use Rattle.ba_parse.specs.declared.reader.Stop.TheVariants.{Memory};
ghost use Rattle.ba_trees.specs.Classes.{mark};
ghost use Rattle.ba_parse.specs.Grammar.{operator, prefix_sign};
ghost use Rattle.ba_trees.specs.Marks.{primary, unary};
ghost use Rattle.ba_parse.specs.Readings.{◌▹◌, read_maybe, read_token, read_many, read_node, read_listed, read_sign, read_parenthesized, deeper_in, levels_left, next_is, in_expression, in_arguments, in_cast, in_unary, in_chained, read_expression, read_branches, read_operand, read_chain, read_unary, read_primary, after_name, read_name, read_arguments, shallow};
ghost use Rattle.ba_parse.specs.Telling.{Told, refusal};
ghost use Rattle.ba_parse.specs.Sets.{classes};
ghost use Rattle.ba_trees.specs.Views.{optional, joined};
ghost use Rattle.ba_trees.specs.ExpressionMarks.{type_name_marks, arguments_marks, branches_marks, chain_marks, conditional_marks, expressions_marks, next_expression_marks, operand_marks, primary_marks, unary_marks};

use crate::reader::{Reader, Stop};
use crate::sets::TokenSet;
use crate::types::type_name;
use ba_tokens::token::Punct;
use ba_trees::tree::expressions::{
    Arguments, Branches, Chain, Conditional, Expressions, NextExpression, Operand, Primary,
    TypeName, Unary,
};
use std::alloc::Global;

/// The level of the operators that bind loosest.
const LOOSEST: u32 = 10;

/// An opening parenthesis.
const OPEN: TokenSet = TokenSet::Punct(Punct::OpenParenthesis);

/// A closing parenthesis.
const CLOSE: TokenSet = TokenSet::Punct(Punct::CloseParenthesis);

/// An expression.
///
/// # Errors
///
/// [`Stop::Syntax`] or [`Stop::TooDeep`] as reading by the grammar stops; [`Stop::Memory`]: out of memory.
#[cycle(expression)]
pub fn conditional(alloc: Global, reader: &mut Reader, levels: u32) -> Result<Conditional, Stop>
    ensures { Told conditional_marks result (read_expression (levels_left levels) reader.old)
        reader.new }
{
    let test = operand(alloc, reader, levels, LOOSEST)?;
    let branches = maybe_branches(alloc, reader, levels)?;
    Ok(Conditional { test, branches })
}

/// Both values of a conditional operator, if a question mark follows.
#[cycle(expression)]
fn maybe_branches(alloc: Global, reader: &mut Reader, levels: u32) -> Result<Option<Branches>, Stop>
    ensures { Told (λ b. optional (option_map branches_marks b)) result
        (read_maybe (mark punct.Question) (read_branches (levels_left levels)) reader.old)
        reader.new }
{
    if !reader.next_is(TokenSet::Punct(Punct::Question)) {
        return Ok(None);
    }
    let question = reader.take(TokenSet::Punct(Punct::Question))?;
    let holds = inner_expression(alloc, reader, levels)?;
    let colon = reader.take(TokenSet::Punct(Punct::Colon))?;
    let fails = inner_expression(alloc, reader, levels)?;
    Ok(Some(Branches {
        question,
        holds,
        colon,
        fails,
    }))
}

/// An expression inside one more construct.
#[cycle(expression)]
pub fn inner_expression(
    alloc: Global,
    reader: &mut Reader,
    levels: u32,
) -> Result<Box<Conditional>, Stop>
    ensures { Told (λ e. conditional_marks e.value) result
        (levels_left levels in_expression reader.old) reader.new }
{
    if levels == 0 {
        return Err(refusal(reader, TokenSet::OperandStart));
    }
    let expression = conditional(alloc, reader, levels - 1)?;
    Ok(Box::new(alloc, expression)?)
}

/// Why a part with no level left is refused: too many constructs, if the next token begins the part.
pub fn refusal(reader: &Reader, starts: TokenSet) -> Stop
    ensures { result ≡ refusal (next_is (classes starts) reader.now) }
{
    if reader.next_is(starts) {
        Stop::TooDeep
    } else {
        Stop::Syntax
    }
}

/// A unary expression, with the operators of each level up to the loosest one after it.
#[cycle(expression)]
fn operand(alloc: Global, reader: &mut Reader, levels: u32, loosest: u32) -> Result<Operand, Stop>
    ensures { Told operand_marks result (read_operand (levels_left levels) loosest reader.old)
        reader.new }
{
    let first = unary(alloc, reader, levels)?;
    let mut chains = Vec::new(alloc);
    for tighter in 0..loosest {
        let chain = maybe_chain(alloc, reader, levels, tighter + 1)?;
        push_some(&mut chains, chain)?;
    }
    Ok(Operand { first, chains })
}

/// Appends a chain, if there is one.
#[tactic(auto, using(crate::proofs::Repeats::each_push))]
fn push_some(chains: &mut Vec<Chain>, added: Option<Chain>) -> Result<(), Stop>
    ensures { MatchResult result (λ _. joined (map chain_marks chains.new.items)
        ≡ joined (map chain_marks chains.old.items)
        ++ optional (option_map chain_marks added)) (λ stop. stop ≡ Memory) }
{
    if let Some(chain) = added {
        chains.push(chain)?;
    }
    Ok(())
}

/// The operators of a level with their right operands, if one follows.
#[cycle(expression)]
fn maybe_chain(
    alloc: Global,
    reader: &mut Reader,
    levels: u32,
    level: u32,
) -> Result<Option<Chain>, Stop>
    requires { 0 < level }
    ensures { Told (λ c. optional (option_map chain_marks c)) result
        (read_maybe (operator level) (read_chain (levels_left levels) level) reader.old)
        reader.new }
{
    if !reader.next_is(TokenSet::Operator(level)) {
        return Ok(None);
    }
    let operator = reader.take(TokenSet::Operator(level))?;
    let (operand, rest) = chained(alloc, reader, levels, level)?;
    Ok(Some(Chain {
        level,
        operator,
        operand,
        rest,
    }))
}

/// The right operand of an operator of this level, and the rest of its chain, inside one more construct.
#[cycle(expression)]
fn chained(
    alloc: Global,
    reader: &mut Reader,
    levels: u32,
    level: u32,
) -> Result<(Operand, Option<Box<Chain>>), Stop>
    requires { 0 < level }
    ensures { Told (λ p. operand_marks p.0 ++ optional (option_map (λ c. chain_marks c.value) p.1))
        result (levels_left levels (in_chained level) reader.old) reader.new }
{
    if levels == 0 {
        return Err(refusal(reader, TokenSet::OperandStart));
    }
    let operand = operand(alloc, reader, levels - 1, level - 1)?;
    match maybe_chain(alloc, reader, levels - 1, level)? {
        Some(chain) => Ok((operand, Some(Box::new(alloc, chain)?))),
        None => Ok((operand, None)),
    }
}

/// A unary expression: a sign before an operand, a cast, or a primary expression.
#[cycle(expression)]
fn unary(alloc: Global, reader: &mut Reader, levels: u32) -> Result<Unary, Stop>
    ensures { Told unary_marks result (read_unary (levels_left levels) reader.old) reader.new }
{
    if reader.next_is(TokenSet::PrefixSign) {
        prefixed(alloc, reader, levels)
    } else if reader.next_are(OPEN, TokenSet::DeclarationWord { with_static: false }) {
        cast(alloc, reader, levels)
    } else {
        let primary = primary(alloc, reader, levels)?;
        Ok(Unary::Primary(primary))
    }
}

/// A sign before its operand.
#[cycle(expression)]
fn prefixed(alloc: Global, reader: &mut Reader, levels: u32) -> Result<Unary, Stop>
    ensures { Told unary_marks result
        (read_node unary (read_token prefix_sign ▹ deeper_in (levels_left levels) in_unary)
        reader.old) reader.new }
{
    let operator = reader.take(TokenSet::PrefixSign)?;
    let operand = inner_unary(alloc, reader, levels)?;
    Ok(Unary::Prefix { operator, operand })
}

/// A cast before its operand.
#[cycle(expression)]
fn cast(alloc: Global, reader: &mut Reader, levels: u32) -> Result<Unary, Stop>
    ensures { Told unary_marks result
        (read_node unary (read_parenthesized (levels_left levels) in_cast ▹ deeper_in
        (levels_left levels) in_unary) reader.old) reader.new }
{
    let open = reader.take(OPEN)?;
    let name = inner_type_name(alloc, reader, levels)?;
    let close = reader.take(CLOSE)?;
    let operand = inner_unary(alloc, reader, levels)?;
    Ok(Unary::Cast {
        open,
        name,
        close,
        operand,
    })
}

/// A unary expression inside one more construct.
#[cycle(expression)]
fn inner_unary(alloc: Global, reader: &mut Reader, levels: u32) -> Result<Box<Unary>, Stop>
    ensures { Told (λ u. unary_marks u.value) result (levels_left levels in_unary reader.old)
        reader.new }
{
    if levels == 0 {
        return Err(refusal(reader, TokenSet::OperandStart));
    }
    let operand = unary(alloc, reader, levels - 1)?;
    Ok(Box::new(alloc, operand)?)
}

/// The words of a type inside one more construct.
fn inner_type_name(alloc: Global, reader: &mut Reader, levels: u32) -> Result<TypeName, Stop>
    ensures { Told type_name_marks result (levels_left levels in_cast reader.old) reader.new }
{
    if levels == 0 {
        return Err(refusal(reader, TokenSet::DeclarationWord { with_static: false }));
    }
    type_name(alloc, reader)
}

/// A primary expression: a name with what may follow it, a constant, or an expression in parentheses.
#[cycle(expression)]
fn primary(alloc: Global, reader: &mut Reader, levels: u32) -> Result<Primary, Stop>
    ensures { Told primary_marks result (read_primary (levels_left levels) reader.old) reader.new }
{
    if reader.next_is(TokenSet::Name) {
        named(alloc, reader, levels)
    } else if reader.next_is(TokenSet::Constant) {
        let constant = reader.take(TokenSet::Constant)?;
        Ok(Primary::Constant { constant })
    } else {
        parenthesized(alloc, reader, levels)
    }
}

/// An expression in parentheses.
#[cycle(expression)]
fn parenthesized(alloc: Global, reader: &mut Reader, levels: u32) -> Result<Primary, Stop>
    ensures { Told primary_marks result
        (read_node primary (read_parenthesized (levels_left levels) in_expression) reader.old)
        reader.new }
{
    let open = reader.take(OPEN)?;
    let expression = inner_expression(alloc, reader, levels)?;
    let close = reader.take(CLOSE)?;
    Ok(Primary::Parenthesized {
        open,
        expression,
        close,
    })
}

/// A name, an element of an array or a call.
#[cycle(expression)]
fn named(alloc: Global, reader: &mut Reader, levels: u32) -> Result<Primary, Stop>
    ensures { Told primary_marks result
        (read_node primary (read_name ▹ after_name (levels_left levels)) reader.old) reader.new }
{
    let name = reader.take(TokenSet::Name)?;
    if reader.next_is(TokenSet::Punct(Punct::OpenBracket)) {
        let open = reader.take(TokenSet::Punct(Punct::OpenBracket))?;
        let index = inner_expression(alloc, reader, levels)?;
        let close = reader.take(TokenSet::Punct(Punct::CloseBracket))?;
        Ok(Primary::Element {
            name,
            open,
            index,
            close,
        })
    } else if reader.next_is(OPEN) {
        let open = reader.take(OPEN)?;
        let arguments = inner_arguments(alloc, reader, levels)?;
        let close = reader.take(CLOSE)?;
        Ok(Primary::Call {
            name,
            open,
            arguments,
            close,
        })
    } else {
        Ok(Primary::Name { name })
    }
}

/// The arguments of a call inside one more construct.
#[cycle(expression)]
pub fn inner_arguments(alloc: Global, reader: &mut Reader, levels: u32) -> Result<Arguments, Stop>
    ensures { Told arguments_marks result (levels_left levels in_arguments reader.old) reader.new }
{
    if levels == 0 {
        return no_arguments(reader);
    }
    arguments(alloc, reader, levels - 1)
}

/// The arguments if no level is left: none, or a refusal.
fn no_arguments(reader: &Reader) -> Result<Arguments, Stop>
    ensures { Told arguments_marks result (shallow in_arguments reader.now) reader.now }
{
    if reader.next_is(TokenSet::OperandStart) {
        return Err(Stop::TooDeep);
    }
    Ok(Arguments { values: None })
}

/// The arguments of a call, if an expression follows.
#[cycle(expression)]
fn arguments(alloc: Global, reader: &mut Reader, levels: u32) -> Result<Arguments, Stop>
    ensures { Told arguments_marks result (read_arguments (levels_left levels) reader.old)
        reader.new }
{
    if !reader.next_is(TokenSet::OperandStart) {
        return Ok(Arguments { values: None });
    }
    let values = expressions(alloc, reader, levels)?;
    Ok(Arguments {
        values: Some(values),
    })
}

/// One expression or more, with commas between.
#[cycle(expression)]
fn expressions(alloc: Global, reader: &mut Reader, levels: u32) -> Result<Expressions, Stop>
    ensures { Told expressions_marks result
        (read_listed (read_expression (levels_left levels)) reader.old) reader.new }
{
    let first = conditional(alloc, reader, levels)?;
    let first = Box::new(alloc, first)?;
    let rest = next_expressions(alloc, reader, levels)?;
    Ok(Expressions { first, rest })
}

/// Expressions, each after a comma.
#[cycle(expression)]
pub fn next_expressions(
    alloc: Global,
    reader: &mut Reader,
    levels: u32,
) -> Result<Vec<NextExpression>, Stop>
    ensures { Told (λ v. joined (map next_expression_marks v.items)) result
        (read_many (next_is (mark punct.Comma))
        (read_sign punct.Comma ▹ read_expression (levels_left levels)) reader.old) reader.new }
{
    let mut rest = Vec::new(alloc);
    let most = reader.rest().len();
    for _read in 0..most {
        if !reader.next_is(TokenSet::Punct(Punct::Comma)) {
            return Ok(rest);
        }
        rest.push(next_expression(alloc, reader, levels)?)?;
    }
    Ok(rest)
}

/// A comma and an expression.
#[cycle(expression)]
pub fn next_expression(
    alloc: Global,
    reader: &mut Reader,
    levels: u32,
) -> Result<NextExpression, Stop>
    ensures { Told next_expression_marks result
        ((read_sign punct.Comma ▹ read_expression (levels_left levels)) reader.old) reader.new }
{
    let comma = reader.take(TokenSet::Punct(Punct::Comma))?;
    let expression = conditional(alloc, reader, levels)?;
    Ok(NextExpression { comma, expression })
}
