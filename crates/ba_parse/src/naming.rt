//! Whether the parameters of a function have names.

ghost use Rattle.std.specs.Prelude.{◌≡◌, not};
ghost use Rattle.std.specs.List.{list_all};
ghost use Rattle.ba_trees.specs.DeclarationMarks.{parameter_marks, next_parameter_marks, parameter_list_marks, parameters_marks};
ghost use Rattle.ba_parse.specs.Grammar.{has_unnamed};

use ba_trees::tree::declarations::{NextParameter, Parameter, ParameterList, Parameters};

/// Whether a parameter has a name.
fn is_named(parameter: &Parameter) -> bool
    ensures { result ≡ not (has_unnamed (parameter_marks parameter.now)) }
{
    parameter.name.is_some()
}

/// Whether the parameter after a comma has a name.
fn next_is_named(next: &NextParameter) -> bool
    ensures { result ≡ not (has_unnamed (next_parameter_marks next.now)) }
{
    is_named(&next.parameter)
}

/// Whether each of the parameters after commas has a name.
fn each_is_named(rest: &[NextParameter]) -> bool
    ensures { result ≡ list_all (λ next. not (has_unnamed (next_parameter_marks next))) rest.now }
{
    rest.iter().all(|next| next_is_named(next))
}

/// Whether each parameter of a list has a name.
fn list_is_named(list: &ParameterList) -> bool
    ensures { result ≡ not (has_unnamed (parameter_list_marks list.now)) }
{
    is_named(&list.first) && each_is_named(list.rest.as_slice())
}

/// Whether each parameter has a name.
pub fn are_named(parameters: &Parameters) -> bool
    ensures { result ≡ not (has_unnamed (parameters_marks parameters.now)) }
{
    match &parameters.list {
        Some(list) => list_is_named(list),
        None => true,
    }
}
