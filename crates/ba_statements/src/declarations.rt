//! Declarations of variables (C90 6.5).

ghost use Rattle.std.specs.Prelude.{◌≡◌, ◌==◌, ◌&&◌, not, ◌∷◌, [], List, Option, None, Some, false, cond, pos, option_map, is_some, length, map, unsigned_abs, IfOk, OnOk, MatchOption};
ghost use Rattle.ba_statements.specs.Adding.{AddsEnumerator, AddsLength, GivesValue, GivesWhole, GivesWritten, IsLength, state_with, behind_part, first_of, initialising, keep_each, keep_one, kept, plain_length, state, value_at, with_count};
ghost use Rattle.ba_typing.specs.Declarations.{TypedLength, add_constant, add_declaration, add_declarator, add_declarators, add_declare, add_enumerator_list, add_initialiser, add_optional_declarators, add_optional_initialiser, add_specifiers, add_tag, add_variable, braced_values, count_of_values, enumerators_in, exceeds, following, has_braces, init_tree, is_declared, is_length, length_in_range, written_count, typed_array_length, shape_of, values_of, written_length};
ghost use Rattle.ba_typing.specs.Expressions.{Typed, constant_value, typed_conditional, tree_as};
ghost use Rattle.ba_expressions.specs.Inferring.{Infers};
ghost use Rattle.ba_tree.specs.Trees.{StmtTree, tree_of_expr, tree_of_stmt};
ghost use Rattle.ba_statements.specs.declared.work.Work.{Work};

use crate::work::{Work, put};
use ba_expressions::expressions::conditional;
use ba_expressions::inferred::{Inferred, placeholder};
use ba_expressions::tally::{HEIGHT_LIMIT, Tally};
use ba_expressions::uses::add_tag_faults;
use ba_numbers::ids::{At, StmtId, VarId};
use ba_numbers::numbers::{BinOp, CType, apply, convert};
use ba_scopes::scopes::{Functions, Scope};
use ba_tokens::token::Token;
use ba_tree::tree::{Expr, Shape, Stmt, StmtKind, Variable};
use ba_trees::tree::declarations::{
    ArrayLength, Braced, Declaration, Declarator, Declarators, Enumerator, EnumeratorList,
    Initialiser, Specifiers,
};
use ba_trees::tree::expressions::Conditional;
use ba_typing::fault::Cause;
use ba_typing::meanings::{Entity, Entry, Object, Space};
use ba_typing::names::{name_of, tag_of_declaration, type_specified};
use ba_typing::text::Text;
use std::alloc::{AllocError, Global};

/// The length of an array: how many elements, `None` if it is bad, and whether it is written.
#[derive(Clone, Copy)]
pub struct Length {
    pub count: Option<u32>,
    pub is_written: bool,
}

/// A declared variable: the position of its name, its number and its type, and its length if it is an array.
#[derive(Clone, Copy)]
pub struct Declared {
    pub at: At,
    pub var: VarId,
    pub t: CType,
    pub length: Option<Length>,
}

/// A whole expression of a statement at this position; its height is limited.
///
/// The only error is out of memory, also if the numbers for calls or heights run out.
pub fn whole<'a>(
    alloc: Global,
    scope: &Scope<'a>,
    at: At,
    c: &'a Conditional,
    tally: &mut Tally,
) -> Result<Inferred<'a>, AllocError>
    ensures { GivesWhole at (typed_conditional c.now scope.now tally.old.calls) tally.old tally.new
        result }
{
    let j = conditional(alloc, scope, c, tally)?;
    tally.add_limit(HEIGHT_LIMIT, j.height, at);
    Ok(j)
}

/// The number of elements if it is from 1 to 256.
fn in_range(value: i64) -> Option<u32>
    ensures { result ≡ cond (is_length value) (Some (unsigned_abs value)) None }
{
    if 1 <= value && value <= 256 {
        u32::try_from(value).ok()
    } else {
        None
    }
}

/// The value of a constant expression converted to a type, `None` if it is not constant or traps.
pub(crate) fn constant_value(t: CType, j: &Inferred) -> Option<i64>
    ensures { (s : Typed) → Infers j.now s → result ≡ constant_value t s }
{
    if !j.is_constant {
        return None;
    }
    match j.value {
        None => None,
        Some(value) => Some(convert(t, value)),
    }
}

/// The length of an array with this many initialisers and no written length.
fn counted_length(values: Option<usize>) -> Option<u32>
    ensures { result ≡ length_in_range (option_map pos values) }
{
    let values = values?;
    match i64::try_from(values) {
        Ok(value) => in_range(value),
        Err(_) => None,
    }
}

/// A written length, `None` if it is not constant, traps or is out of range.
fn written_length(j: &Inferred) -> Option<u32>
    ensures { (s : Typed) → Infers j.now s → result ≡ written_length s }
{
    if !j.is_constant {
        return None;
    }
    match j.value {
        None => None,
        Some(value) => in_range(value),
    }
}

/// The length of an array whose name is at this position, with the number of its initialisers, if it has any.
///
/// The only error is out of memory, also if the numbers for calls or heights run out.
pub fn array_length<'a>(
    alloc: Global,
    at: At,
    values: Option<usize>,
    length: &'a Option<ArrayLength>,
    scope: &Scope<'a>,
    tally: &mut Tally,
) -> Result<Option<Length>, AllocError>
    ensures { IfOk result (λ l. IsLength
        (typed_array_length at values scope.now tally.old.calls length.now)
        tally.old tally.new l) }
{
    let Some(array) = length else {
        return Ok(None);
    };
    match &array.length {
        None => Ok(Some(Length {
            count: counted_length(values),
            is_written: false,
        })),
        Some(c) => {
            let j = whole(alloc, scope, at, c, tally)?;
            Ok(Some(Length {
                count: written_length(&j),
                is_written: true,
            }))
        }
    }
}

/// Counts the elements of a length; a bad length is a fault.
///
/// The only error is out of memory, also if the numbers run out.
fn add_count(at: At, count: Option<u32>, work: &mut Work) -> Result<(), AllocError>
    ensures { OnOk result (work.new ≡ with_count work.old at count) }
{
    match count {
        None => {
            work.tally.add_if(true, Cause::BadLength, at);
            Ok(())
        }
        Some(count) => work.add_elements(count, at),
    }
}

/// The length of an array whose name is at this position; its elements are counted.
///
/// The only error is out of memory, also if the numbers run out.
pub fn add_length<'a>(
    alloc: Global,
    at: At,
    values: Option<usize>,
    length: &'a Option<ArrayLength>,
    scope: &Scope<'a>,
    work: &mut Work,
) -> Result<Option<Length>, AllocError>
    ensures { IfOk result (λ l. AddsLength at
        (typed_array_length at values scope.now work.old.tally.calls length.now)
        scope.now work.old work.new l) }
{
    let found = array_length(alloc, at, values, length, scope, &mut work.tally)?;
    match found {
        None => Ok(None),
        Some(length) => {
            add_count(at, length.count, work)?;
            Ok(Some(length))
        }
    }
}

/// The shape of a variable: an array if it has a length; a bad length counts as 1.
pub fn shape_of(length: Option<Length>) -> Shape
    ensures { (l : Option TypedLength) → length ≡ plain_length l → result ≡ shape_of l }
{
    match length {
        None => Shape::Value,
        Some(length) => Shape::Array(length.count.unwrap_or(1)),
    }
}

/// Whether the innermost scope has declared a name before. In the file's scope these functions count too.
fn is_declared<'a>(scope: &Scope<'a>, functions: &Functions<'a>, name: &Text<'a>) -> bool
    ensures { result ≡ is_declared scope.now functions.now name.now }
{
    scope.is_declared_here(Space::Ordinary, name)
        || (scope.depth() == 0 && functions.is_declared(name))
}

/// Declares a variable whose name is at this position, after these functions were declared. It is in scope
/// from now on.
///
/// The only error is out of memory, also if the numbers run out.
pub fn add_variable<'a>(
    functions: &Functions<'a>,
    at: At,
    name: Text<'a>,
    variable: Variable,
    scope: &mut Scope<'a>,
    work: &mut Work,
) -> Result<(), AllocError>
    ensures { OnOk result ((stmts : List StmtTree) → state_with scope.new work.new stmts
        ≡ behind_part (add_variable functions.now at name.entry variable)
        (state_with scope.old work.old stmts)) }
{
    work.tally
        .add_if(is_declared(scope, functions, &name), Cause::Twice, at);
    let var = work.add_variable(at, variable)?;
    let depth = scope.depth();
    scope.declare(Entry {
        name,
        depth,
        entity: Entity::Variable(Object { var, variable }),
    })
}

/// Declares a tag with a list. It is in scope from now on.
///
/// The only error is out of memory.
fn add_tag<'a>(
    tag: Option<&'a Token>,
    scope: &mut Scope<'a>,
    tally: &mut Tally,
) -> Result<(), AllocError>
    ensures { OnOk result ((work : Work) (stmts : List StmtTree) → work.tally ≡ tally.old →
        state_with scope.new (record work { tally = tally.new }) stmts
        ≡ behind_part (add_tag (option_map (λ t. t.now) tag.entry))
        (state_with scope.old work stmts)) }
{
    let Some(tag) = tag else {
        return Ok(());
    };
    let name = name_of(tag);
    tally.add_if(
        scope.is_declared_here(Space::Tags, &name),
        Cause::Twice,
        tag.at,
    );
    let depth = scope.depth();
    scope.declare(Entry {
        name,
        depth,
        entity: Entity::Tag,
    })
}

/// Declares an enumeration constant of this value whose name is at this position, after these functions were
/// declared. It is in scope from now on.
///
/// The only error is out of memory, also if the numbers run out.
fn add_constant<'a>(
    functions: &Functions<'a>,
    at: At,
    name: Text<'a>,
    value: i64,
    scope: &mut Scope<'a>,
    work: &mut Work,
) -> Result<(), AllocError>
    ensures { OnOk result ((stmts : List StmtTree) → state_with scope.new work.new stmts
        ≡ behind_part (add_constant functions.now at name.entry value)
        (state_with scope.old work.old stmts)) }
{
    work.tally
        .add_if(is_declared(scope, functions, &name), Cause::Twice, at);
    work.add_constant(at)?;
    let depth = scope.depth();
    scope.declare(Entry {
        name,
        depth,
        entity: Entity::Constant(value),
    })
}

/// The written value of an enumeration constant, `None` if it is not constant or traps.
///
/// The only error is out of memory, also if the numbers for calls or heights run out.
fn written_value<'a>(
    alloc: Global,
    at: At,
    c: &'a Conditional,
    scope: &Scope<'a>,
    tally: &mut Tally,
) -> Result<Option<i64>, AllocError>
    ensures { IfOk result (λ z. GivesValue at (typed_conditional c.now scope.now tally.old.calls)
        tally.old tally.new z) }
{
    let j = whole(alloc, scope, at, c, tally)?;
    let value = constant_value(CType::I32, &j);
    tally.add_if(value.is_none(), Cause::WrongKind, j.first);
    Ok(value)
}

/// The value of a constant without a written one; `last` is that of the constant before it, if there is one.
fn following(last: Option<i64>) -> i64
    ensures { result ≡ following last }
{
    match last {
        None => 0,
        Some(value) => apply(BinOp::Add, CType::I32, value, 1).unwrap_or(0),
    }
}

/// The written value of an enumeration constant, if there is one.
fn optional_value<'a>(
    alloc: Global,
    enumerator: &'a Enumerator,
    scope: &Scope<'a>,
    tally: &mut Tally,
) -> Result<Option<i64>, AllocError>
    ensures { IfOk result (λ z. GivesWritten enumerator.now.name.at
        (value_at enumerator.now scope.now tally.old.calls) tally.old tally.new z) }
{
    match &enumerator.value {
        None => Ok(None),
        Some(written) => written_value(alloc, enumerator.name.at, &written.value, scope, tally),
    }
}

/// Declares an enumeration constant, and gives its value; `last` is that of the constant before it, if there
/// is one. It is known from its end on.
///
/// The only error is out of memory, also if the numbers run out.
fn add_enumerator<'a>(
    alloc: Global,
    functions: &Functions<'a>,
    last: Option<i64>,
    enumerator: &'a Enumerator,
    scope: &mut Scope<'a>,
    work: &mut Work,
) -> Result<i64, AllocError>
    ensures { IfOk result (λ z. AddsEnumerator functions.now last enumerator.now scope.old work.old
        scope.new work.new z) }
{
    let at = enumerator.name.at;
    let written = optional_value(alloc, enumerator, scope, &mut work.tally)?;
    let value = written.unwrap_or(following(last));
    let name = name_of(&enumerator.name);
    add_constant(functions, at, name, value, scope, work)?;
    Ok(value)
}

/// Declares the constants of an enumerated type, the first of which is 0 by default (C90 6.5.2.2).
///
/// The only error is out of memory, also if the numbers run out.
fn add_enumerators<'a>(
    alloc: Global,
    functions: &Functions<'a>,
    list: &'a EnumeratorList,
    scope: &mut Scope<'a>,
    work: &mut Work,
) -> Result<(), AllocError>
    ensures { OnOk result ((stmts : List StmtTree) → state_with scope.new work.new stmts
        ≡ behind_part (add_enumerator_list functions.now None (enumerators_in list.now))
        (state_with scope.old work.old stmts)) }
{
    let mut last = add_enumerator(alloc, functions, None, &list.first, scope, work)?;
    for next in &list.rest {
        last = add_enumerator(alloc, functions, Some(last), &next.enumerator, scope, work)?;
    }
    Ok(())
}

/// Types the specifiers of a declaration of a file or a block, after these functions were declared. A list
/// declares its tag and its constants; a tag without a list has to be known.
///
/// The only error is out of memory, also if the numbers run out.
pub fn add_specifiers<'a>(
    alloc: Global,
    functions: &Functions<'a>,
    specifiers: &'a Specifiers,
    scope: &mut Scope<'a>,
    work: &mut Work,
) -> Result<(), AllocError>
    ensures { OnOk result ((stmts : List StmtTree) → state_with scope.new work.new stmts
        ≡ behind_part (add_specifiers functions.now specifiers.now)
        (state_with scope.old work.old stmts)) }
{
    let tag = tag_of_declaration(specifiers);
    match &specifiers.enumerators {
        None => {
            add_tag_faults(tag, scope, &mut work.tally);
            Ok(())
        }
        Some(enumerators) => {
            add_tag(tag, scope, &mut work.tally)?;
            add_enumerators(alloc, functions, &enumerators.list, scope, work)
        }
    }
}

/// Appends the declaration of a local variable, which is executed; that of a global is not.
///
/// The only error is out of memory.
fn add_declare(var: VarId, scope: &Scope, stmts: &mut Vec<Stmt>) -> Result<(), AllocError>
    ensures { OnOk result ((work : Work) → state scope.now work stmts.new
        ≡ behind_part (add_declare var) (state scope.now work stmts.old)) }
{
    if scope.depth() == 0 {
        return Ok(());
    }
    put(stmts, Stmt::Declare { var })
}

/// Whether a value of an initialiser has to be constant, for a global, and is not.
fn is_unfit(scope: &Scope, j: &Inferred) -> bool
    ensures { result ≡ ((scope.now.depth == 0) && not j.now.is_constant) }
{
    scope.depth() == 0 && !j.is_constant
}

/// Adds a value of an initialiser.
fn add_value<'a>(
    alloc: Global,
    d: Declared,
    c: &'a Conditional,
    scope: &Scope<'a>,
    tally: &mut Tally,
    values: &mut Vec<Expr>,
) -> Result<(), AllocError>
    ensures { OnOk result (kept tally.new values.new
        ≡ keep_one (initialising d.at d.t (scope.now.depth == 0))
        (typed_conditional c.now scope.now tally.old.calls)
        (kept tally.old values.old)) }
{
    let j = whole(alloc, scope, d.at, c, tally)?;
    tally.add_if(is_unfit(scope, &j), Cause::WrongKind, d.at);
    let value = j.into_tree(alloc, d.t)?;
    values.push(value)?;
    Ok(())
}

/// The values of an initialiser, converted to the variable's type.
///
/// The only error is out of memory, also if the numbers for calls or heights run out.
fn initial_values<'a>(
    alloc: Global,
    d: Declared,
    init: &'a Initialiser,
    scope: &Scope<'a>,
    tally: &mut Tally,
) -> Result<Vec<Expr>, AllocError>
    ensures { IfOk result (λ values. kept tally.new values
        ≡ keep_each (initialising d.at d.t (scope.now.depth == 0)) scope.now (values_of init.now)
        (record { trees = []; tally = tally.old })) }
{
    let mut values = Vec::new(alloc);
    match init {
        Initialiser::Expression { value, .. } => {
            add_value(alloc, d, value, scope, tally, &mut values)?;
            Ok(values)
        }
        Initialiser::Braced { values: braced, .. } => {
            add_braced(alloc, d, braced, scope, tally, &mut values)?;
            Ok(values)
        }
    }
}

/// The values in braces.
fn add_braced<'a>(
    alloc: Global,
    d: Declared,
    braced: &'a Braced,
    scope: &Scope<'a>,
    tally: &mut Tally,
    values: &mut Vec<Expr>,
) -> Result<(), AllocError>
    ensures { OnOk result (kept tally.new values.new
        ≡ keep_each (initialising d.at d.t (scope.now.depth == 0)) scope.now
        (braced_values braced.now)
        (kept tally.old values.old)) }
{
    add_value(alloc, d, &braced.first, scope, tally, values)?;
    for next in &braced.rest {
        add_value(alloc, d, &next.expression, scope, tally, values)?;
    }
    Ok(())
}

/// Whether an initialiser has braces.
fn has_braces(init: &Initialiser) -> bool
    ensures { result ≡ has_braces init.now }
{
    matches!(init, Initialiser::Braced { .. })
}

/// Whether there are braces for a variable, or none for an array.
fn is_unlike(length: Option<Length>, init: &Initialiser) -> bool
    ensures { result ≡ cond (is_some length) (not (has_braces init.now)) (has_braces init.now) }
{
    if length.is_some() {
        !has_braces(init)
    } else {
        has_braces(init)
    }
}

/// How many values an initialiser has, if there is one.
fn count_of_values(init: &Option<Initialiser>) -> Option<usize>
    ensures { MatchOption result (is_some init.now ≡ false) (λ count. Some count
        ≡ count_of_values init.now) }
{
    match init {
        None => None,
        Some(Initialiser::Expression { .. }) => Some(1),
        Some(Initialiser::Braced { values, .. }) => Some(values.rest.len() + 1),
    }
}

/// How many values there are.
fn number_of(values: &Vec<Expr>) -> usize
    ensures { result ≡ length values.now.items }
{
    values.len()
}

/// Whether an array of a good written length has fewer elements than this many values.
fn has_too_many(length: Option<Length>, count: usize) -> bool
    ensures { (l : Option TypedLength) → length ≡ plain_length l → result
        ≡ exceeds (written_count l) count }
{
    match length {
        Some(
            Length {
                count: Some(most),
                is_written: true,
            },
        ) => (most as usize) < count,
        _ => false,
    }
}

/// The initialiser of a variable as a statement: all values of an array, or the one value of a variable.
fn init_stmt(stmt: StmtId, d: Declared, values: Vec<Expr>) -> Stmt
    ensures { (es : List Typed) → map tree_of_expr values.items ≡ map (tree_as d.t) es
        → tree_of_stmt result ≡ init_tree stmt d.var d.t (is_some d.length) es }
{
    if d.length.is_some() {
        Stmt::InitArray {
            stmt,
            array: d.var,
            values,
        }
    } else {
        Stmt::Init {
            stmt,
            var: d.var,
            value: first_value(values),
        }
    }
}

/// The first of these values.
fn first_value(mut values: Vec<Expr>) -> Expr
    ensures { tree_of_expr result ≡ first_of (map tree_of_expr values.items) }
{
    values.truncate(1);
    match values.pop() {
        None => placeholder(),
        Some(value) => value,
    }
}

/// Appends the initialiser of a variable (C90 6.5.7).
///
/// The only error is out of memory, also if the numbers run out.
fn add_initialiser<'a>(
    alloc: Global,
    d: Declared,
    init: &'a Initialiser,
    scope: &Scope<'a>,
    work: &mut Work,
    stmts: &mut Vec<Stmt>,
) -> Result<(), AllocError>
    ensures { OnOk result ((l : Option TypedLength) → d.length ≡ plain_length l
        → state scope.now work.new stmts.new
        ≡ behind_part (add_initialiser d.at d.var d.t l init.now)
        (state scope.now work.old stmts.old)) }
{
    let values = initial_values(alloc, d, init, scope, &mut work.tally)?;
    let is_past = has_too_many(d.length, number_of(&values));
    work.tally.add_if(is_past, Cause::WrongCount, d.at);
    work.tally
        .add_if(is_unlike(d.length, init), Cause::WrongKind, d.at);
    let stmt = work.number(d.at, StmtKind::Initialiser)?;
    put(stmts, init_stmt(stmt, d, values))
}

/// Appends the initialiser, if there is one.
fn add_optional_initialiser<'a>(
    alloc: Global,
    d: Declared,
    init: &'a Option<Initialiser>,
    scope: &Scope<'a>,
    work: &mut Work,
    stmts: &mut Vec<Stmt>,
) -> Result<(), AllocError>
    ensures { OnOk result ((l : Option TypedLength) → d.length ≡ plain_length l
        → state scope.now work.new stmts.new
        ≡ behind_part (add_optional_initialiser d.at d.var d.t l init.now)
        (state scope.now work.old stmts.old)) }
{
    match init {
        None => Ok(()),
        Some(init) => add_initialiser(alloc, d, init, scope, work, stmts),
    }
}

/// Types a declarator of a type, `None` for `void`, after these functions were declared (C90 6.5.4).
///
/// The only error is out of memory, also if the numbers run out.
fn add_declarator<'a>(
    alloc: Global,
    functions: &Functions<'a>,
    t: Option<CType>,
    declarator: &'a Declarator,
    scope: &mut Scope<'a>,
    work: &mut Work,
    stmts: &mut Vec<Stmt>,
) -> Result<(), AllocError>
    ensures { OnOk result (state scope.new work.new stmts.new
        ≡ behind_part (add_declarator functions.now t declarator.now)
        (state scope.old work.old stmts.old)) }
{
    let at = declarator.name.at;
    let var = work.next_variable()?;
    let count = count_of_values(&declarator.initialiser);
    let length = add_length(alloc, at, count, &declarator.length, scope, work)?;
    let d = Declared {
        at,
        var,
        t: t.unwrap_or(CType::I32),
        length,
    };
    let variable = Variable {
        t: d.t,
        shape: shape_of(length),
    };
    add_variable(
        functions,
        at,
        name_of(&declarator.name),
        variable,
        scope,
        work,
    )?;
    add_declare(var, scope, stmts)?;
    add_optional_initialiser(alloc, d, &declarator.initialiser, scope, work, stmts)?;
    work.tally.add_if(t.is_none(), Cause::WrongKind, at);
    Ok(())
}

/// Types the declarators of a list, of one type, after these functions were declared.
///
/// The only error is out of memory, also if the numbers run out.
pub fn add_declarators<'a>(
    alloc: Global,
    functions: &Functions<'a>,
    t: Option<CType>,
    declarators: &'a Declarators,
    scope: &mut Scope<'a>,
    work: &mut Work,
    stmts: &mut Vec<Stmt>,
) -> Result<(), AllocError>
    ensures { OnOk result (state scope.new work.new stmts.new
        ≡ behind_part (add_declarators functions.now t declarators.now)
        (state scope.old work.old stmts.old)) }
{
    for listed in &declarators.all {
        add_declarator(alloc, functions, t, &listed.declarator, scope, work, stmts)?;
    }
    Ok(())
}

/// Types the declarators of a list, if there is one.
///
/// The only error is out of memory, also if the numbers run out.
pub fn add_optional_declarators<'a>(
    alloc: Global,
    functions: &Functions<'a>,
    t: Option<CType>,
    declarators: &'a Option<Declarators>,
    scope: &mut Scope<'a>,
    work: &mut Work,
    stmts: &mut Vec<Stmt>,
) -> Result<(), AllocError>
    ensures { OnOk result (state scope.new work.new stmts.new
        ≡ behind_part (add_optional_declarators functions.now t declarators.now)
        (state scope.old work.old stmts.old)) }
{
    match declarators {
        None => Ok(()),
        Some(declarators) => {
            add_declarators(alloc, functions, t, declarators, scope, work, stmts)
        }
    }
}

/// Types a declaration of a block (C90 6.5).
///
/// The only error is out of memory, also if the numbers run out.
pub fn add_declaration<'a>(
    alloc: Global,
    declaration: &'a Declaration,
    scope: &mut Scope<'a>,
    work: &mut Work,
    stmts: &mut Vec<Stmt>,
) -> Result<(), AllocError>
    ensures { OnOk result (state scope.new work.new stmts.new
        ≡ behind_part (add_declaration [] declaration.now.specifiers declaration.now.declarators)
        (state scope.old work.old stmts.old)) }
{
    let functions = Functions::new(alloc);
    add_specifiers(alloc, &functions, &declaration.specifiers, scope, work)?;
    let t = type_specified(&declaration.specifiers);
    add_optional_declarators(
        alloc,
        &functions,
        t,
        &declaration.declarators,
        scope,
        work,
        stmts,
    )
}
