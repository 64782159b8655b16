//! The program that a text spells, or why it spells none.

ghost use Rattle.std.specs.Prelude.{◌≡◌, ◌≤◌, length, IfOk, IfErr};
ghost use Rattle.ba_tree_laws.specs.Spelling.{Spells};
ghost use Rattle.ba_cases.specs.AtOnce.{IsNoProgram};
ghost use Rattle.ba_cases.specs.Programs.{TellsFault, lexical_fault, position_of_token, tree_fault, type_fault};
ghost use Rattle.ba_answers.specs.Limits.{limit};

use crate::stop::Stop;
use ba_answers::answers::Answer;
use ba_answers::fault::{Cause, Fault};
use ba_lex::error::LexError;
use ba_lex::tokens;
use ba_numbers::ids::At;
use ba_parse::{ParseError, parse};
use ba_tokens::token::Token;
use ba_tree::tree::Program;
use ba_types::check;
use ba_typing::TypeError;
use std::alloc::Global;

/// The fault of an error of the tokens; none if memory ran out.
fn lexical_fault(error: LexError) -> Option<Fault>
    ensures { result ≡ lexical_fault error }
{
    match error {
        LexError::BadByte(at) => Some(Fault::new(Cause::BadByte, at)),
        LexError::BadToken(at) => Some(Fault::new(Cause::BadToken, at)),
        LexError::NotInProfile(at) => Some(Fault::new(Cause::NotInProfile, at)),
        LexError::BadDirective(at) => Some(Fault::new(Cause::BadDirective, at)),
        LexError::MacroOrder(at) => Some(Fault::new(Cause::MacroOrder, at)),
        LexError::Redefined(at) => Some(Fault::new(Cause::Redefined, at)),
        LexError::TooMany(at) => Some(Fault::new(Cause::TooMany, at)),
        LexError::Memory => None,
    }
}

/// The position of a token, counted from 0; none past the last.
fn position_of_token(tokens: &[Token], number: usize) -> Option<At>
    ensures { result ≡ position_of_token tokens.now number }
{
    tokens.get(number).map(|token| token.at)
}

/// The fault of an error of the tree of these tokens; none if memory ran out.
fn tree_fault(tokens: &[Token], error: ParseError) -> Option<Fault>
    ensures { result ≡ tree_fault tokens.now error }
{
    match error {
        ParseError::Syntax(number) => Some(Fault {
            cause: Cause::Syntax,
            at: position_of_token(tokens, number),
        }),
        ParseError::TooDeep(number) => Some(Fault {
            cause: Cause::TooDeep,
            at: position_of_token(tokens, number),
        }),
        ParseError::Memory => None,
    }
}

/// The fault of an error of typing; none if memory ran out.
fn type_fault(error: TypeError) -> Option<Fault>
    ensures { result ≡ type_fault error }
{
    match error {
        TypeError::UnknownName(at) => Some(Fault::new(Cause::UnknownName, at)),
        TypeError::Twice(at) => Some(Fault::new(Cause::Twice, at)),
        TypeError::WrongKind(at) => Some(Fault::new(Cause::WrongKind, at)),
        TypeError::WrongCount(at) => Some(Fault::new(Cause::WrongCount, at)),
        TypeError::NoMain => Some(Fault {
            cause: Cause::NoMain,
            at: None,
        }),
        TypeError::BadLength(at) => Some(Fault::new(Cause::BadLength, at)),
        TypeError::BreakOutside(at) => Some(Fault::new(Cause::BreakOutside, at)),
        TypeError::CallInIndex(at) => Some(Fault::new(Cause::CallInIndex, at)),
        TypeError::Limit(at) => Some(Fault::new(Cause::Limit, at)),
        TypeError::Memory => None,
    }
}

/// The program that a text spells; else its fault, or none if memory ran out.
fn spelled_by(alloc: Global, source: &[u8]) -> Result<Program, Option<Fault>>
    requires { length source.now ≤ limit }
    ensures ok { IfOk result (λ program. Spells source.now program) }
    ensures err { IfErr result (λ fault. TellsFault source.now fault) }
{
    let tokens = match tokens(alloc, source) {
        Ok(tokens) => tokens,
        Err(error) => return Err(lexical_fault(error)),
    };
    let raw = match parse(alloc, tokens.as_slice()) {
        Ok(raw) => raw,
        Err(error) => return Err(tree_fault(tokens.as_slice(), error)),
    };
    match check(alloc, &raw) {
        Ok(program) => Ok(program),
        Err(error) => Err(type_fault(error)),
    }
}

/// The program that a text spells; else the refusal of the text, or out of memory.
pub fn read_program(alloc: Global, source: &[u8]) -> Result<Program, Stop>
    requires { length source.now ≤ limit }
    ensures ok { IfOk result (λ program. Spells source.now program) }
    ensures err { IfErr result (IsNoProgram source.now) }
{
    match spelled_by(alloc, source) {
        Ok(program) => Ok(program),
        Err(Some(fault)) => Err(Stop::Answered(Answer::BadProgram(fault))),
        Err(None) => Err(Stop::Memory),
    }
}
