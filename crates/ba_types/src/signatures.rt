//! The declarations of functions in a file (C90 6.5.4.3, 6.7.1).

ghost use Rattle.std.specs.Prelude.{◌≡◌, ◌+◌, ◌==◌, ◌&&◌, not, nat_lt, cond, ◌++◌, [], None, Some, option_map, length, map, IfOk, OnOk};
ghost use Rattle.std.specs.List.{list_all, list_any};
ghost use Rattle.ba_trees.specs.declared.tree.declarations.NextParameter.{NextParameter};
ghost use Rattle.ba_typing.specs.Faults.{function_limit};
ghost use Rattle.ba_typing.specs.Files.{agrees, count_functions, definitions_of, is_definition, is_main_result, is_void_parameter, is_void_word, params_agree, params_of, params_of_list, same_param, same_params, same_result, says_params, signature_faults, signature_of, signatures, type_of_param, with_signature};
ghost use Rattle.ba_types.specs.Filing.{same_named};
ghost use Rattle.ba_expressions.specs.Inferring.{with_faults};
ghost use Rattle.ba_typing.specs.Names.{is_declared_in, is_main_name, same_name, words_of};
ghost use Rattle.ba_typing.specs.declared.meanings.Signature.{Signature};

use ba_expressions::tally::Tally;
use ba_expressions::uses::is_main;
use ba_items::Items;
use ba_numbers::ids::{At, FnId};
use ba_numbers::numbers::CType;
use ba_numbers::types::same_type;
use ba_scopes::scopes::{Functions, Scope};
use ba_tokens::token::Keyword;
use ba_trees::tree::declarations::{NextParameter, Parameter, ParameterList, Parameters};
use ba_trees::tree::expressions::TypeName;
use ba_trees::tree::statements::{External, ExternalForm, FunctionEnd};
use ba_typing::fault::Cause;
use ba_typing::meanings::{ParamType, Signature, Space};
use ba_typing::names::{is_keyword, name_of, type_named, type_specified};
use ba_typing::text::Text;
use std::alloc::{AllocError, Global};

/// The limit on functions.
const FUNCTION_LIMIT: u32 = 100;

/// Whether a type's name is the one word `void`.
fn is_void_word(name: &TypeName) -> bool
    ensures { result ≡ is_void_word (words_of name.now) }
{
    if name.words.len() != 1 {
        return false;
    }
    is_keyword(&name.words[0], Keyword::Void)
}

/// Whether a parameter is the word `void`, without a name or a length.
fn is_void_parameter(parameter: &Parameter) -> bool
    ensures { result ≡ is_void_parameter parameter.now }
{
    is_void_word(&parameter.type_name) && parameter.name.is_none() && parameter.length.is_none()
}

/// Whether a list has one parameter.
fn has_one(list: &ParameterList) -> bool
    ensures { result ≡ (length list.now.rest.items == 0) }
{
    list.rest.is_empty()
}

/// Whether a list is `void` alone.
fn is_void_alone(list: &ParameterList) -> bool
    ensures { result ≡ ((length list.now.rest.items == 0) && is_void_parameter list.now.first) }
{
    has_one(list) && is_void_parameter(&list.first)
}

/// The list of a function's parameters, `None` if it has none; a list that is `void` alone has none (C90
/// 6.5.4.3).
pub(crate) fn listed(parameters: &Parameters) -> Option<&ParameterList>
    ensures { params_of_list (option_map (λ l. l.now) result) ≡ params_of parameters.now }
{
    match &parameters.list {
        None => None,
        Some(list) => {
            if is_void_alone(list) {
                None
            } else {
                Some(list)
            }
        }
    }
}

/// The type of a parameter.
fn type_of_param(parameter: &Parameter) -> ParamType
    ensures { result ≡ type_of_param parameter.now }
{
    ParamType {
        t: type_named(&parameter.type_name),
        is_array: parameter.length.is_some(),
    }
}

/// Appends the types of these parameters. The only error is out of memory.
fn add_types(types: &mut Vec<ParamType>, rest: &[NextParameter]) -> Result<(), AllocError>
    ensures { OnOk result (types.new.items
        ≡ types.old.items ++ map (λ (n : NextParameter). type_of_param n.parameter) rest.now) }
{
    for next in rest {
        types.push(type_of_param(&next.parameter))?;
    }
    Ok(())
}

/// The types of a function's parameters. The only error is out of memory.
fn param_types(alloc: Global, parameters: &Parameters) -> Result<Items<ParamType>, AllocError>
    ensures { IfOk result (λ types. types ≡ map type_of_param (params_of parameters.now)) }
{
    let Some(list) = listed(parameters) else {
        return Ok(Items::new(alloc));
    };
    let mut types = Vec::new(alloc);
    types.push(type_of_param(&list.first))?;
    add_types(&mut types, list.rest.as_slice())?;
    Ok(Items::from_vec(types))
}

/// Whether a function is defined here.
fn is_definition(end: &FunctionEnd) -> bool
    ensures { result ≡ is_definition end.now }
{
    matches!(end, FunctionEnd::Body(_))
}

/// Whether a declaration tells the parameters; a prototype with empty parentheses does not.
fn says_params(end: &FunctionEnd, parameters: &Parameters) -> bool
    ensures { result ≡ says_params end.now parameters.now }
{
    is_definition(end) || parameters.list.is_some()
}

/// The types of the parameters, `None` if the declaration does not tell them. The only error is out of
/// memory.
fn said_types(
    alloc: Global,
    parameters: &Parameters,
    end: &FunctionEnd,
) -> Result<Option<Items<ParamType>>, AllocError>
    ensures { IfOk result (λ types. types ≡ cond (says_params end.now parameters.now)
        (Some (map type_of_param (params_of parameters.now))) None) }
{
    if !says_params(end, parameters) {
        return Ok(None);
    }
    let types = param_types(alloc, parameters)?;
    Ok(Some(types))
}

/// The signature of a declaration after this many definitions; `None` if it declares variables.
///
/// The only error is out of memory.
pub(crate) fn signature<'a>(
    alloc: Global,
    definitions: u32,
    external: &'a External,
) -> Result<Option<Signature<'a>>, AllocError>
    ensures { IfOk result (λ s. s ≡ signature_of definitions external.now) }
{
    match &external.form {
        ExternalForm::Variables { .. } => Ok(None),
        ExternalForm::Function {
            name,
            parameters,
            end,
            ..
        } => {
            let params = said_types(alloc, parameters, end)?;
            Ok(Some(Signature {
                name: name_of(name),
                result: type_specified(&external.specifiers),
                params,
                is_definition: is_definition(end),
                function: FnId(definitions),
            }))
        }
    }
}

/// How many definitions there are after an external declaration with this signature, if it is a function's.
/// The only error is out of memory, also if the numbers run out.
pub(crate) fn definitions_behind(
    definitions: u32,
    signature: &Option<Signature>,
) -> Result<u32, AllocError>
    ensures { IfOk result (λ more. more ≡ definitions + definitions_of signature.now) }
{
    match signature {
        None => Ok(definitions),
        Some(signature) => {
            if !signature.is_definition {
                return Ok(definitions);
            }
            number_behind(definitions)
        }
    }
}

/// The next number. The only error is out of memory, also if the numbers run out.
pub(crate) fn number_behind(number: u32) -> Result<u32, AllocError>
    ensures { IfOk result (λ more. more ≡ number + 1) }
{
    match number.checked_add(1) {
        Some(more) => Ok(more),
        None => Err(AllocError),
    }
}

/// Adds the signature of an external declaration, if it is a function's. The only error is out of memory.
pub(crate) fn add_signature<'a>(
    functions: &mut Functions<'a>,
    signature: Option<Signature<'a>>,
) -> Result<(), AllocError>
    ensures { OnOk result (functions.new ≡ functions.old ++ with_signature signature.entry []) }
{
    match signature {
        None => Ok(()),
        Some(signature) => functions.push(signature),
    }
}

/// Adds the declarations of functions among these external declarations.
///
/// The only error is out of memory, also if the numbers run out.
fn add_signatures<'a>(
    alloc: Global,
    externals: &'a [External],
    functions: &mut Functions<'a>,
) -> Result<(), AllocError>
    ensures { OnOk result (functions.new ≡ functions.old ++ signatures externals.now) }
{
    let mut definitions = 0u32;
    for external in externals {
        let declared = signature(alloc, definitions, external)?;
        definitions = definitions_behind(definitions, &declared)?;
        add_signature(functions, declared)?;
    }
    Ok(())
}

/// All declarations of functions in a file.
///
/// The only error is out of memory, also if the numbers run out.
pub(crate) fn functions<'a>(
    alloc: Global,
    externals: &'a [External],
) -> Result<Functions<'a>, AllocError>
    ensures { IfOk result (λ functions. functions ≡ signatures externals.now) }
{
    let mut functions = Functions::new(alloc);
    add_signatures(alloc, externals, &mut functions)?;
    Ok(functions)
}

/// Whether two result types are the same; `None` is `void`.
fn same_result(s: Option<CType>, t: Option<CType>) -> bool
    ensures { result ≡ same_result s t }
{
    match (s, t) {
        (None, None) => true,
        (Some(s), Some(t)) => same_type(s, t),
        (None, Some(_)) | (Some(_), None) => false,
    }
}

/// Whether two parameters have the same type.
fn same_param(p: ParamType, q: ParamType) -> bool
    ensures { result ≡ same_param p q }
{
    same_result(p.t, q.t) && p.is_array == q.is_array
}

/// Whether two functions have parameters of the same types.
fn same_params(params: &[ParamType], others: &[ParamType]) -> bool
    ensures { result ≡ same_params params.now others.now }
{
    if params.len() != others.len() {
        return false;
    }
    for i in 0..params.len() {
        if !same_param(params[i], others[i]) {
            return false;
        }
    }
    true
}

/// Whether the parameters of two declarations agree; a declaration that does not tell them agrees with every
/// other.
fn params_agree(params: &Option<Items<ParamType>>, others: &Option<Items<ParamType>>) -> bool
    ensures { result ≡ params_agree params.now others.now }
{
    match params {
        None => true,
        Some(params) => match others {
            None => true,
            Some(others) => same_params(params.as_slice(), others.as_slice()),
        },
    }
}

/// Whether two declarations of a function agree in its result and in its parameters (C90 6.5.4.3).
fn agrees(signature: &Signature, other: &Signature) -> bool
    ensures { result ≡ agrees signature.now other.now }
{
    same_result(signature.result, other.result) && params_agree(&signature.params, &other.params)
}

/// Whether two names are the same.
fn is_same_name(name: &Text, other: &Text) -> bool
    ensures { result ≡ same_name name.now other.now }
{
    name.as_bytes() == other.as_bytes()
}

/// Whether a declaration is one of the same function and does not agree with it.
fn contradicts(signature: &Signature, other: &Signature) -> bool
    ensures { result
        ≡ (same_name other.now.name signature.now.name && not (agrees signature.now other.now)) }
{
    is_same_name(&other.name, &signature.name) && !agrees(signature, other)
}

/// Whether a declaration agrees with all earlier ones of its function.
fn agrees_with_each<'a>(signature: &Signature<'a>, earlier: &[Signature<'a>]) -> bool
    ensures { result
        ≡ list_all (agrees signature.now) (same_named signature.now.name earlier.now) }
{
    for other in earlier {
        if contradicts(signature, other) {
            return false;
        }
    }
    true
}

/// Whether a function of this name is past the limit, after these declarations.
fn is_past_limit<'a>(name: &Text<'a>, earlier: &Functions<'a>) -> bool
    ensures { result ≡ nat_lt function_limit
        (count_functions earlier.now + cond (is_declared_in earlier.now name.now) 0 1) }
{
    let count = earlier.count();
    if earlier.is_declared(name) {
        FUNCTION_LIMIT < count
    } else {
        FUNCTION_LIMIT <= count
    }
}

/// Whether a declaration is a second definition of its function.
fn is_second_definition<'a>(signature: &Signature<'a>, earlier: &Functions<'a>) -> bool
    ensures { result ≡ (signature.now.is_definition && list_any
        (λ (s : Signature). s.is_definition) (same_named signature.now.name earlier.now)) }
{
    signature.is_definition && earlier.definition(&signature.name).is_some()
}

/// Whether `main` may return this type (C90 5.1.2.2.1), or nothing.
fn is_main_result(t: Option<CType>) -> bool
    ensures { result ≡ is_main_result t }
{
    match t {
        None => true,
        Some(t) => same_type(t, CType::I32),
    }
}

/// Whether a declaration is one of a `main` with a wrong result type.
fn is_wrong_main(signature: &Signature) -> bool
    ensures { result
        ≡ (is_main_name signature.now.name && not (is_main_result signature.now.result)) }
{
    is_main(&signature.name) && !is_main_result(signature.result)
}

/// Adds the faults of a declared function, whose name is at this position, after these declarations.
pub(crate) fn add_signature_faults<'a>(
    at: At,
    signature: &Signature<'a>,
    earlier: &Functions<'a>,
    scope: &Scope<'a>,
    tally: &mut Tally,
)
    ensures { tally.new
        ≡ with_faults tally.old (signature_faults scope.now earlier.now signature.now at) }
{
    let name = &signature.name;
    tally.add_if(
        scope.is_declared_here(Space::Ordinary, name),
        Cause::Twice,
        at,
    );
    tally.add_if(is_past_limit(name, earlier), Cause::Limit, at);
    tally.add_if(is_second_definition(signature, earlier), Cause::Twice, at);
    let agrees = agrees_with_each(signature, earlier.as_slice());
    tally.add_if(!agrees, Cause::WrongKind, at);
    tally.add_if(is_wrong_main(signature), Cause::WrongKind, at);
}
