//! Uses of names: their faults, and their meanings (C90 6.3.1, 6.3.2).

ghost use Rattle.std.specs.Prelude.{◌≡◌, ◌==◌, cond, option_map, slice_get, []};
ghost use Rattle.ba_typing.specs.Expressions.{array_given, function_of, named_array, params_of_called, result_of};
ghost use Rattle.ba_typing.specs.Faults.{array_name_faults, call_faults, count_of_params, definition_faults, height_limit, limit_faults, tag_faults, target_name_faults, value_name_faults};
ghost use Rattle.ba_expressions.specs.Inferring.{with_faults};
ghost use Rattle.ba_typing.specs.Names.{is_main_name};

use crate::inferred::is_array;
use crate::tally::{HEIGHT_LIMIT, Tally};
use ba_numbers::ids::{At, FnId, VarId};
use ba_numbers::numbers::CType;
use ba_numbers::types::same_type;
use ba_scopes::scopes::Scope;
use ba_tokens::token::Token;
use ba_typing::fault::Cause;
use ba_typing::meanings::{Meaning, ParamType, Signature};
use ba_typing::names::name_of;
use ba_typing::text::Text;

/// How a call is used, as a value or as a statement, and the position of the called name.
#[derive(Clone, Copy)]
pub struct CallUse {
    pub as_value: bool,
    pub at: At,
}

/// Adds the faults of a name as a value.
pub fn add_value_name_faults(meaning: &Meaning, at: At, tally: &mut Tally)
    ensures { tally.new ≡ with_faults tally.old (value_name_faults meaning.now at) }
{
    match meaning {
        Meaning::Unknown => tally.add_if(true, Cause::UnknownName, at),
        Meaning::Function => tally.add_if(true, Cause::WrongKind, at),
        Meaning::Variable(object) => tally.add_if(is_array(object), Cause::WrongKind, at),
        Meaning::Constant(_) => {}
    }
}

/// Adds the faults of a name whose element is taken.
pub fn add_array_name_faults(meaning: &Meaning, at: At, tally: &mut Tally)
    ensures { tally.new ≡ with_faults tally.old (array_name_faults meaning.now at) }
{
    match meaning {
        Meaning::Unknown => tally.add_if(true, Cause::UnknownName, at),
        Meaning::Function => tally.add_if(true, Cause::WrongKind, at),
        Meaning::Variable(object) => tally.add_if(!is_array(object), Cause::WrongKind, at),
        Meaning::Constant(_) => tally.add_if(true, Cause::WrongKind, at),
    }
}

/// Adds the fault of an enumeration constant's name that is assigned to.
pub fn add_target_name_faults(meaning: &Meaning, at: At, tally: &mut Tally)
    ensures { tally.new ≡ with_faults tally.old (target_name_faults meaning.now at) }
{
    match meaning {
        Meaning::Constant(_) => tally.add_if(true, Cause::WrongKind, at),
        Meaning::Unknown | Meaning::Function | Meaning::Variable(_) => {}
    }
}

/// Adds the fault of a tag without a list, if no tag of its name is in scope.
pub fn add_tag_faults<'a>(tag: Option<&'a Token>, scope: &Scope<'a>, tally: &mut Tally)
    ensures { tally.new ≡ with_faults tally.old
        (tag_faults scope.now (option_map (λ t. t.now) tag.entry)) }
{
    if let Some(tag) = tag {
        let is_known = scope.is_tag_known(&name_of(tag));
        tally.add_if(!is_known, Cause::UnknownName, tag.at);
    }
}

/// Adds the faults of a called name with this definition and this number of arguments.
pub fn add_call_faults(
    name: &Text,
    meaning: &Meaning,
    definition: Option<&Signature>,
    call: CallUse,
    arguments: usize,
    tally: &mut Tally,
)
    ensures { tally.new ≡ with_faults tally.old (call_faults meaning.now (is_main_name name.now)
        (option_map (λ s. s.now) definition.entry) call.as_value arguments call.at) }
{
    match meaning {
        Meaning::Unknown => tally.add_if(true, Cause::UnknownName, call.at),
        Meaning::Variable(_) | Meaning::Constant(_) => {
            tally.add_if(true, Cause::WrongKind, call.at);
        }
        Meaning::Function => {
            tally.add_if(is_main(name), Cause::WrongKind, call.at);
            add_definition_faults(definition, call, arguments, tally);
        }
    }
}

/// Adds the faults of a function that is called.
fn add_definition_faults(
    definition: Option<&Signature>,
    call: CallUse,
    arguments: usize,
    tally: &mut Tally,
)
    ensures { tally.new ≡ with_faults tally.old
        (definition_faults (option_map (λ s. s.now) definition.entry)
        call.as_value arguments call.at) }
{
    match definition {
        None => tally.add_if(true, Cause::UnknownName, call.at),
        Some(signature) => {
            let is_void = signature.result.is_none();
            tally.add_if(call.as_value && is_void, Cause::WrongKind, call.at);
            let count = count_of_params(signature);
            tally.add_if(arguments != count, Cause::WrongCount, call.at);
        }
    }
}

/// How many parameters a declaration has.
fn count_of_params(signature: &Signature) -> usize
    ensures { result ≡ count_of_params signature.now.params }
{
    match &signature.params {
        None => 0,
        Some(params) => params.len(),
    }
}

/// Whether a name is `main`.
pub fn is_main(name: &Text) -> bool
    ensures { result ≡ is_main_name name.now }
{
    b"main".as_slice() == name.as_bytes()
}

/// Adds the fault of an argument of a call statement that is too high.
pub fn add_height_fault(call: CallUse, height: u32, tally: &mut Tally)
    ensures { tally.new ≡ with_faults tally.old
        (cond call.as_value [] (limit_faults height_limit height call.at)) }
{
    if !call.as_value {
        tally.add_limit(HEIGHT_LIMIT, height, call.at);
    }
}

/// The type of the parameter of this number, counted from 0, `None` if the function has no more.
pub fn param_of(definition: Option<&Signature>, number: usize) -> Option<ParamType>
    ensures { result ≡ slice_get (params_of_called (option_map (λ s. s.now) definition.entry))
        number }
{
    match definition {
        None => None,
        Some(signature) => match &signature.params {
            None => None,
            Some(params) => params.as_slice().get(number).copied(),
        },
    }
}

/// The called function; any number without a definition.
pub fn function_of(definition: Option<&Signature>) -> FnId
    ensures { result ≡ function_of (option_map (λ s. s.now) definition.entry) }
{
    match definition {
        None => FnId(0),
        Some(signature) => signature.function,
    }
}

/// The type that a called function returns; any type without a result.
pub fn result_of(definition: Option<&Signature>) -> CType
    ensures { result ≡ result_of (option_map (λ s. s.now) definition.entry) }
{
    match definition {
        None => CType::I32,
        Some(signature) => signature.result.unwrap_or(CType::I32),
    }
}

/// The array that a name denotes, if its elements have the wanted type; `None` otherwise.
pub fn named_array<'a>(
    scope: &Scope<'a>,
    t: Option<CType>,
    name: &Option<Text<'a>>,
) -> Option<VarId>
    ensures { result ≡ named_array scope.now t name.now }
{
    match name {
        None => None,
        Some(name) => array_given(t, &scope.meaning_of(name)),
    }
}

/// The array that a name of this meaning denotes, if its elements have this type.
fn array_given(t: Option<CType>, meaning: &Meaning) -> Option<VarId>
    ensures { result ≡ array_given t meaning.now }
{
    let t = t?;
    match meaning {
        Meaning::Variable(object) => {
            if is_array(object) && same_type(object.variable.t, t) {
                Some(object.var)
            } else {
                None
            }
        }
        Meaning::Unknown | Meaning::Function | Meaning::Constant(_) => None,
    }
}
