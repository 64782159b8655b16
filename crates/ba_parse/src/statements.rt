//! Reading statements (C90 6.6).
//!
//! `levels` is how many more constructs may be around a token.

ghost use Rattle.std.specs.Prelude.{◌≡◌, ◌∷◌, [], map, option_map, MatchResult};
ghost use Rattle.ba_tokens.specs.declared.token.Keyword.TheVariants as keyword;
ghost use Rattle.ba_parse.specs.Readings.{◌▹◌, read_many, read_key, read_semicolon, next_is, item_start, label_start, statement_start, levels_left, deeper_in, shallow, in_block, in_statement, in_groups, in_for, maybe_expression, read_if, read_switch, read_group, read_while, read_do, read_for, read_simple, read_block, read_item, read_statement, read_keyword_statement, read_condition, read_printf};
ghost use Rattle.ba_parse.specs.Telling.{Told};
ghost use Rattle.ba_trees.specs.Marks.{leaf, one_deeper};
ghost use Rattle.ba_parse.specs.declared.reader.Stop.TheVariants.{Memory};
ghost use Rattle.ba_parse.specs.Tails.{read_else, read_jump, read_statement_form};
ghost use Rattle.ba_trees.specs.Views.{joined};
ghost use Rattle.ba_trees.specs.SimpleMarks.{for_head_marks};
ghost use Rattle.ba_trees.specs.StatementMarks.{or_no_else, block_marks, controlled_marks, else_marks, form_marks, group_marks, item_marks, statement_marks};

use crate::declarations::{declaration, maybe_expression};
use crate::expressions::refusal;
use crate::reader::{Reader, Stop};
use crate::sets::TokenSet;
use crate::simple::{condition, inner_for_head, inner_printed, label, simple};
use ba_tokens::token::{Keyword, Punct, Token};
use ba_trees::tree::statements::{
    Block, BlockItem, Controlled, DoWhile, Else, For, ForHead, Group, Statement, StatementForm,
};
use std::alloc::Global;

/// An opening parenthesis.
const OPEN: TokenSet = TokenSet::Punct(Punct::OpenParenthesis);

/// A closing parenthesis.
const CLOSE: TokenSet = TokenSet::Punct(Punct::CloseParenthesis);

/// A semicolon.
const SEMICOLON: TokenSet = TokenSet::Punct(Punct::Semicolon);

/// A block.
///
/// # Errors
///
/// [`Stop::Syntax`] or [`Stop::TooDeep`] as reading by the grammar stops; [`Stop::Memory`]: out of memory.
#[cycle(statement)]
pub fn block(alloc: Global, reader: &mut Reader, levels: u32) -> Result<Block, Stop>
    ensures { Told block_marks result (read_block (levels_left levels) reader.old) reader.new }
{
    let open = reader.take(TokenSet::Punct(Punct::OpenBrace))?;
    let items = inner_items(alloc, reader, levels)?;
    let close = reader.take(TokenSet::Punct(Punct::CloseBrace))?;
    Ok(Block { open, items, close })
}

/// What is between the braces of a block.
#[cycle(statement)]
fn inner_items(alloc: Global, reader: &mut Reader, levels: u32) -> Result<Vec<BlockItem>, Stop>
    ensures { Told (λ v. joined (map item_marks v.items)) result
        (levels_left levels in_block reader.old) reader.new }
{
    if levels == 0 {
        return no_items(alloc, reader);
    }
    items(alloc, reader, levels - 1)
}

/// The items if no level is left: none, or refused.
fn no_items(alloc: Global, reader: &Reader) -> Result<Vec<BlockItem>, Stop>
    ensures { Told (λ v. joined (map item_marks v.items)) result (shallow in_block reader.now)
        reader.now }
{
    if reader.next_is(TokenSet::ItemStart) {
        return Err(Stop::TooDeep);
    }
    Ok(Vec::new(alloc))
}

/// The items of a block, as long as a token follows that begins one.
#[cycle(statement)]
fn items(alloc: Global, reader: &mut Reader, levels: u32) -> Result<Vec<BlockItem>, Stop>
    ensures { Told (λ v. joined (map item_marks v.items)) result
        (read_many (next_is item_start) (read_item (levels_left levels)) reader.old) reader.new }
{
    let mut all = Vec::new(alloc);
    let most = reader.rest().len();
    for _read in 0..most {
        if !reader.next_is(TokenSet::ItemStart) {
            return Ok(all);
        }
        let next = item(alloc, reader, levels)?;
        all.push(next)?;
    }
    Ok(all)
}

/// An item of a block: a declaration or a statement.
#[cycle(statement)]
fn item(alloc: Global, reader: &mut Reader, levels: u32) -> Result<BlockItem, Stop>
    ensures { Told item_marks result (read_item (levels_left levels) reader.old) reader.new }
{
    if reader.next_is(TokenSet::DeclarationWord { with_static: false }) {
        let declared = declaration(alloc, reader, levels)?;
        Ok(BlockItem::Declaration(declared))
    } else {
        let done = statement(alloc, reader, levels)?;
        Ok(BlockItem::Statement(done))
    }
}

/// A statement that another one controls.
#[cycle(statement)]
fn controlled(alloc: Global, reader: &mut Reader, levels: u32) -> Result<Controlled, Stop>
    ensures { Told controlled_marks result (deeper_in (levels_left levels) in_statement reader.old)
        reader.new }
{
    if levels == 0 {
        return Err(refusal(reader, TokenSet::StatementStart));
    }
    let body = statement(alloc, reader, levels - 1)?;
    controlled_by_another(alloc, body)
}

/// A statement that another one controls, on the heap.
fn controlled_by_another(alloc: Global, body: Statement) -> Result<Controlled, Stop>
    ensures { MatchResult result (λ c. controlled_marks c ≡ one_deeper (statement_marks body))
        (λ stop. stop ≡ Memory) }
{
    let statement = Box::new(alloc, body)?;
    Ok(Controlled { statement })
}

/// A statement.
#[cycle(statement)]
fn statement(alloc: Global, reader: &mut Reader, levels: u32) -> Result<Statement, Stop>
    ensures { Told statement_marks result (read_statement (levels_left levels) reader.old)
        reader.new }
{
    let form = statement_form(alloc, reader, levels)?;
    Ok(Statement { form })
}

/// A statement, by its first token.
#[cycle(statement)]
fn statement_form(alloc: Global, reader: &mut Reader, levels: u32) -> Result<StatementForm, Stop>
    ensures { Told form_marks result (read_statement_form (levels_left levels) reader.old)
        reader.new }
{
    if reader.next_is(TokenSet::Punct(Punct::OpenBrace)) {
        let block = block(alloc, reader, levels)?;
        Ok(StatementForm::Block(block))
    } else if reader.next_is(SEMICOLON) {
        let semicolon = reader.take(SEMICOLON)?;
        Ok(StatementForm::Empty { semicolon })
    } else if reader.next_is(TokenSet::SimpleStart) {
        simple_statement(alloc, reader, levels)
    } else {
        keyword_statement(alloc, reader, levels)
    }
}

/// An assignment, step or call with its semicolon.
fn simple_statement(alloc: Global, reader: &mut Reader, levels: u32) -> Result<StatementForm, Stop>
    ensures { Told form_marks result
        ((read_simple (levels_left levels) ▹ read_semicolon) reader.old) reader.new }
{
    let done = simple(alloc, reader, levels)?;
    let semicolon = reader.take(SEMICOLON)?;
    Ok(StatementForm::Simple {
        simple: done,
        semicolon,
    })
}

/// A statement that begins with a keyword.
#[cycle(statement)]
fn keyword_statement(alloc: Global, reader: &mut Reader, levels: u32) -> Result<StatementForm, Stop>
    ensures { Told form_marks result (read_keyword_statement (levels_left levels) reader.old)
        reader.new }
{
    if reader.next_is(TokenSet::Keyword(Keyword::If)) {
        if_statement(alloc, reader, levels)
    } else if reader.next_is(TokenSet::Keyword(Keyword::Switch)) {
        switch_statement(alloc, reader, levels)
    } else if reader.next_is(TokenSet::Keyword(Keyword::While)) {
        while_statement(alloc, reader, levels)
    } else if reader.next_is(TokenSet::Keyword(Keyword::Do)) {
        do_statement(alloc, reader, levels)
    } else if reader.next_is(TokenSet::Keyword(Keyword::For)) {
        for_statement(alloc, reader, levels)
    } else {
        jump_statement(alloc, reader, levels)
    }
}

/// An `if`, maybe with an `else`.
#[cycle(statement)]
fn if_statement(alloc: Global, reader: &mut Reader, levels: u32) -> Result<StatementForm, Stop>
    ensures { Told form_marks result (read_if (levels_left levels) reader.old) reader.new }
{
    let keyword = reader.take(TokenSet::Keyword(Keyword::If))?;
    let test = condition(alloc, reader, levels)?;
    let holds = controlled(alloc, reader, levels)?;
    let fails = maybe_else(alloc, reader, levels)?;
    Ok(StatementForm::If {
        keyword,
        condition: test,
        holds,
        fails,
    })
}

/// An `else` branch, if one follows.
#[cycle(statement)]
fn maybe_else(alloc: Global, reader: &mut Reader, levels: u32) -> Result<Option<Else>, Stop>
    ensures { Told (λ e. or_no_else (option_map else_marks e)) result
        (read_else (levels_left levels) reader.old) reader.new }
{
    if !reader.next_is(TokenSet::Keyword(Keyword::Else)) {
        return Ok(None);
    }
    let keyword = reader.take(TokenSet::Keyword(Keyword::Else))?;
    let body = controlled(alloc, reader, levels)?;
    Ok(Some(Else {
        keyword,
        statement: body,
    }))
}

/// A `switch` (C90 6.6.4.2).
#[cycle(statement)]
fn switch_statement(alloc: Global, reader: &mut Reader, levels: u32) -> Result<StatementForm, Stop>
    ensures { Told form_marks result (read_switch (levels_left levels) reader.old) reader.new }
{
    let keyword = reader.take(TokenSet::Keyword(Keyword::Switch))?;
    let on = condition(alloc, reader, levels)?;
    let open = reader.take(TokenSet::Punct(Punct::OpenBrace))?;
    let groups = inner_groups(alloc, reader, levels)?;
    let close = reader.take(TokenSet::Punct(Punct::CloseBrace))?;
    Ok(StatementForm::Switch {
        keyword,
        condition: on,
        open,
        groups,
        close,
    })
}

/// What is between the braces of a `switch`.
#[cycle(statement)]
fn inner_groups(alloc: Global, reader: &mut Reader, levels: u32) -> Result<Vec<Group>, Stop>
    ensures { Told (λ v. joined (map group_marks v.items)) result
        (levels_left levels in_groups reader.old) reader.new }
{
    if levels == 0 {
        return no_groups(alloc, reader);
    }
    groups(alloc, reader, levels - 1)
}

/// The labels and their statements if no level is left: none, or refused.
fn no_groups(alloc: Global, reader: &Reader) -> Result<Vec<Group>, Stop>
    ensures { Told (λ v. joined (map group_marks v.items)) result (shallow in_groups reader.now)
        reader.now }
{
    if reader.next_is(TokenSet::LabelStart) {
        return Err(Stop::TooDeep);
    }
    Ok(Vec::new(alloc))
}

/// The groups of a `switch`, as long as a label follows.
#[cycle(statement)]
fn groups(alloc: Global, reader: &mut Reader, levels: u32) -> Result<Vec<Group>, Stop>
    ensures { Told (λ v. joined (map group_marks v.items)) result
        (read_many (next_is label_start) (read_group (levels_left levels)) reader.old)
        reader.new }
{
    let mut all = Vec::new(alloc);
    let most = reader.rest().len();
    for _read in 0..most {
        if !reader.next_is(TokenSet::LabelStart) {
            return Ok(all);
        }
        let next = group(alloc, reader, levels)?;
        all.push(next)?;
    }
    Ok(all)
}

/// A label, and the statements up to the next one.
#[cycle(statement)]
fn group(alloc: Global, reader: &mut Reader, levels: u32) -> Result<Group, Stop>
    ensures { Told group_marks result (read_group (levels_left levels) reader.old) reader.new }
{
    let named = label(alloc, reader, levels)?;
    let held = statements(alloc, reader, levels)?;
    Ok(Group {
        label: named,
        statements: held,
    })
}

/// Statements, as long as a token follows that begins one.
#[cycle(statement)]
fn statements(alloc: Global, reader: &mut Reader, levels: u32) -> Result<Vec<Statement>, Stop>
    ensures { Told (λ v. joined (map statement_marks v.items)) result
        (read_many (next_is statement_start) (read_statement (levels_left levels)) reader.old)
        reader.new }
{
    let mut all = Vec::new(alloc);
    let most = reader.rest().len();
    for _read in 0..most {
        if !reader.next_is(TokenSet::StatementStart) {
            return Ok(all);
        }
        let next = statement(alloc, reader, levels)?;
        all.push(next)?;
    }
    Ok(all)
}

/// A `while`.
#[cycle(statement)]
fn while_statement(alloc: Global, reader: &mut Reader, levels: u32) -> Result<StatementForm, Stop>
    ensures { Told form_marks result (read_while (levels_left levels) reader.old) reader.new }
{
    let keyword = reader.take(TokenSet::Keyword(Keyword::While))?;
    let test = condition(alloc, reader, levels)?;
    let body = controlled(alloc, reader, levels)?;
    Ok(StatementForm::While {
        keyword,
        condition: test,
        body,
    })
}

/// A `do`.
#[cycle(statement)]
fn do_statement(alloc: Global, reader: &mut Reader, levels: u32) -> Result<StatementForm, Stop>
    ensures { Told form_marks result (read_do (levels_left levels) reader.old) reader.new }
{
    let keyword = reader.take(TokenSet::Keyword(Keyword::Do))?;
    let body = controlled(alloc, reader, levels)?;
    let while_keyword = reader.take(TokenSet::Keyword(Keyword::While))?;
    let test = condition(alloc, reader, levels)?;
    let semicolon = reader.take(SEMICOLON)?;
    Ok(StatementForm::DoWhile(DoWhile {
        keyword,
        body,
        while_keyword,
        condition: test,
        semicolon,
    }))
}

/// What is between the parentheses of a `for`, on the heap.
fn boxed_head(alloc: Global, reader: &mut Reader, levels: u32) -> Result<Box<ForHead>, Stop>
    ensures { Told (λ h. for_head_marks h.value) result (levels_left levels in_for reader.old)
        reader.new }
{
    let head = inner_for_head(alloc, reader, levels)?;
    Ok(Box::new(alloc, head)?)
}

/// A `for`.
#[cycle(statement)]
fn for_statement(alloc: Global, reader: &mut Reader, levels: u32) -> Result<StatementForm, Stop>
    ensures { Told form_marks result (read_for (levels_left levels) reader.old) reader.new }
{
    let keyword = reader.take(TokenSet::Keyword(Keyword::For))?;
    let open = reader.take(OPEN)?;
    let head = boxed_head(alloc, reader, levels)?;
    let close = reader.take(CLOSE)?;
    let body = controlled(alloc, reader, levels)?;
    Ok(StatementForm::For(For {
        keyword,
        open,
        head,
        close,
        body,
    }))
}

/// A statement of a keyword that has no statement in it (C90 6.6.6, 7.2).
fn jump_statement(alloc: Global, reader: &mut Reader, levels: u32) -> Result<StatementForm, Stop>
    ensures { Told form_marks result (read_jump (levels_left levels) reader.old) reader.new }
{
    if reader.next_is(TokenSet::Keyword(Keyword::Break)) {
        let (keyword, semicolon) = keyword_alone(reader, Keyword::Break)?;
        Ok(StatementForm::Break { keyword, semicolon })
    } else if reader.next_is(TokenSet::Keyword(Keyword::Continue)) {
        let (keyword, semicolon) = keyword_alone(reader, Keyword::Continue)?;
        Ok(StatementForm::Continue { keyword, semicolon })
    } else if reader.next_is(TokenSet::Keyword(Keyword::Return)) {
        return_statement(alloc, reader, levels)
    } else if reader.next_is(TokenSet::Keyword(Keyword::Assert)) {
        assert_statement(alloc, reader, levels)
    } else {
        printf_statement(alloc, reader, levels)
    }
}

/// A keyword and the semicolon after it.
fn keyword_alone(reader: &mut Reader, kind: Keyword) -> Result<(Token, Token), Stop>
    ensures { Told (λ p. leaf p.0 ∷ leaf p.1
        ∷ []) result ((read_key kind ▹ read_semicolon) reader.old) reader.new }
{
    let keyword = reader.take(TokenSet::Keyword(kind))?;
    let semicolon = reader.take(SEMICOLON)?;
    Ok((keyword, semicolon))
}

/// A `return`, maybe with a value.
fn return_statement(alloc: Global, reader: &mut Reader, levels: u32) -> Result<StatementForm, Stop>
    ensures { Told form_marks result
        ((read_key keyword.Return ▹ maybe_expression (levels_left levels) ▹ read_semicolon)
        reader.old) reader.new }
{
    let keyword = reader.take(TokenSet::Keyword(Keyword::Return))?;
    let value = maybe_expression(alloc, reader, levels)?;
    let semicolon = reader.take(SEMICOLON)?;
    Ok(StatementForm::Return {
        keyword,
        value,
        semicolon,
    })
}

/// An `assert`.
fn assert_statement(alloc: Global, reader: &mut Reader, levels: u32) -> Result<StatementForm, Stop>
    ensures { Told form_marks result
        ((read_key keyword.Assert ▹ read_condition (levels_left levels) ▹ read_semicolon)
        reader.old) reader.new }
{
    let keyword = reader.take(TokenSet::Keyword(Keyword::Assert))?;
    let test = condition(alloc, reader, levels)?;
    let semicolon = reader.take(SEMICOLON)?;
    Ok(StatementForm::Assert {
        keyword,
        condition: test,
        semicolon,
    })
}

/// A `printf`.
fn printf_statement(alloc: Global, reader: &mut Reader, levels: u32) -> Result<StatementForm, Stop>
    ensures { Told form_marks result (read_printf (levels_left levels) reader.old) reader.new }
{
    let keyword = reader.take(TokenSet::Keyword(Keyword::Printf))?;
    let open = reader.take(OPEN)?;
    let printed = inner_printed(alloc, reader, levels)?;
    let close = reader.take(CLOSE)?;
    let semicolon = reader.take(SEMICOLON)?;
    Ok(StatementForm::Printf {
        keyword,
        open,
        printed,
        close,
        semicolon,
    })
}
