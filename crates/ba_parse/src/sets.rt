//! Sets of tokens that the grammar names.

ghost use Rattle.std.specs.Prelude.{◌≡◌};
ghost use Rattle.ba_trees.specs.Classes.{type_word, declaration_word, word, mark};
ghost use Rattle.ba_parse.specs.Grammar.{prefix_sign, step_sign, assign_sign, operator};
ghost use Rattle.ba_parse.specs.Readings.{operand_start, simple_start, statement_start, label_start};
ghost use Rattle.ba_parse.specs.Sets.{classes};

use ba_tokens::token::{Keyword, Punct};
use ba_trees::class::TokenClass;

/// A set of tokens that the grammar names.
#[derive(Clone, Copy, Debug, Drop)]
pub enum TokenSet {
    Name,
    Constant,
    Quoted,
    Keyword(Keyword),
    Punct(Punct),
    /// The words of a declaration; `static` only if it is accepted.
    DeclarationWord { with_static: bool },
    /// The signs before an operand.
    PrefixSign,
    /// `++` and `--`.
    StepSign,
    /// `=` and the compound assignments.
    AssignSign,
    /// The binary operators of a level, from 1 for `*` to 10 for `||`.
    Operator(u32),
    /// What an expression begins with.
    OperandStart,
    /// What an assignment, a step or a call begins with.
    SimpleStart,
    /// What a statement begins with.
    StatementStart,
    /// What a label begins with.
    LabelStart,
    /// What an item of a block begins with.
    ItemStart,
    /// What the head of a `for` begins with.
    ForStart,
}

impl TokenSet {
    /// Whether a token of this class is in the set.
    pub fn contains(self, class: TokenClass) -> bool
        ensures { result ≡ classes self class }
    {
        match self {
            TokenSet::Name => class == TokenClass::Name,
            TokenSet::Constant => class == TokenClass::Constant,
            TokenSet::Quoted => class == TokenClass::Quoted,
            TokenSet::Keyword(keyword) => is_word(class, keyword),
            TokenSet::Punct(punct) => is_mark(class, punct),
            TokenSet::DeclarationWord { with_static } => is_declaration_word(class, with_static),
            TokenSet::PrefixSign => is_prefix_sign(class),
            TokenSet::StepSign => is_step_sign(class),
            TokenSet::AssignSign => is_assign_sign(class),
            TokenSet::Operator(level) => is_operator(class, level),
            TokenSet::OperandStart => starts_operand(class),
            TokenSet::SimpleStart => starts_simple(class),
            TokenSet::StatementStart => starts_statement(class),
            TokenSet::LabelStart => starts_label(class),
            TokenSet::ItemStart => is_declaration_word(class, false) || starts_statement(class),
            TokenSet::ForStart => {
                is_declaration_word(class, false)
                    || starts_simple(class)
                    || is_mark(class, Punct::Semicolon)
            }
        }
    }
}

/// Whether the class is that of this keyword.
fn is_word(class: TokenClass, keyword: Keyword) -> bool
    ensures { result ≡ word keyword class }
{
    class == TokenClass::Keyword(keyword)
}

/// Whether the class is that of this punctuator.
fn is_mark(class: TokenClass, punct: Punct) -> bool
    ensures { result ≡ mark punct class }
{
    class == TokenClass::Punct(punct)
}

/// Whether this is a word that names a type, alone or with others.
pub fn is_type_word(class: TokenClass) -> bool
    ensures { result ≡ type_word class }
{
    is_word(class, Keyword::Void)
        || is_word(class, Keyword::Char)
        || is_word(class, Keyword::Short)
        || is_word(class, Keyword::Int)
        || is_word(class, Keyword::Long)
        || is_word(class, Keyword::Signed)
        || is_word(class, Keyword::Unsigned)
        || is_word(class, Keyword::Enum)
}

/// Whether this is a word of a declaration; `static` only if it is accepted.
pub fn is_declaration_word(class: TokenClass, with_static: bool) -> bool
    ensures { result ≡ declaration_word with_static class }
{
    is_type_word(class)
        || is_word(class, Keyword::Const)
        || (with_static && is_word(class, Keyword::Static))
}

/// Whether the class is a sign of a unary operator.
fn is_prefix_sign(class: TokenClass) -> bool
    ensures { result ≡ prefix_sign class }
{
    is_mark(class, Punct::Plus)
        || is_mark(class, Punct::Minus)
        || is_mark(class, Punct::Tilde)
        || is_mark(class, Punct::Exclamation)
}

/// Whether the class is `++` or `--`.
fn is_step_sign(class: TokenClass) -> bool
    ensures { result ≡ step_sign class }
{
    is_mark(class, Punct::Increment) || is_mark(class, Punct::Decrement)
}

/// Whether the class is the sign of an assignment.
fn is_assign_sign(class: TokenClass) -> bool
    ensures { result ≡ assign_sign class }
{
    is_mark(class, Punct::Assign)
        || is_mark(class, Punct::PlusAssign)
        || is_mark(class, Punct::MinusAssign)
        || is_mark(class, Punct::StarAssign)
        || is_mark(class, Punct::SlashAssign)
        || is_mark(class, Punct::PercentAssign)
        || is_mark(class, Punct::AmpersandAssign)
        || is_mark(class, Punct::CaretAssign)
        || is_mark(class, Punct::BarAssign)
        || is_mark(class, Punct::ShiftLeftAssign)
        || is_mark(class, Punct::ShiftRightAssign)
}

/// Whether the class is a sign of a binary operator of this level, 1 to 10, the tightest first.
fn is_operator(class: TokenClass, level: u32) -> bool
    ensures { result ≡ operator level class }
{
    match level {
        0 => false,
        1 => is_mark(class, Punct::Star)
            || is_mark(class, Punct::Slash)
            || is_mark(class, Punct::Percent),
        2 => is_mark(class, Punct::Plus) || is_mark(class, Punct::Minus),
        3 => is_mark(class, Punct::ShiftLeft) || is_mark(class, Punct::ShiftRight),
        4 => is_comparison(class),
        5 => is_mark(class, Punct::Equal) || is_mark(class, Punct::NotEqual),
        6 => is_mark(class, Punct::Ampersand),
        7 => is_mark(class, Punct::Caret),
        8 => is_mark(class, Punct::Bar),
        9 => is_mark(class, Punct::AndAnd),
        _ => is_mark(class, Punct::OrOr),
    }
}

/// Whether the class is `<`, `<=`, `>` or `>=`.
fn is_comparison(class: TokenClass) -> bool
    ensures { result ≡ operator 4 class }
{
    is_mark(class, Punct::Less)
        || is_mark(class, Punct::Greater)
        || is_mark(class, Punct::LessEqual)
        || is_mark(class, Punct::GreaterEqual)
}

/// Whether an expression may begin with the class.
fn starts_operand(class: TokenClass) -> bool
    ensures { result ≡ operand_start class }
{
    class == TokenClass::Name
        || class == TokenClass::Constant
        || is_mark(class, Punct::OpenParenthesis)
        || is_prefix_sign(class)
}

/// Whether an assignment, step or call may begin with the class.
fn starts_simple(class: TokenClass) -> bool
    ensures { result ≡ simple_start class }
{
    class == TokenClass::Name || is_step_sign(class)
}

/// Whether a statement may begin with the class.
fn starts_statement(class: TokenClass) -> bool
    ensures { result ≡ statement_start class }
{
    is_mark(class, Punct::OpenBrace)
        || is_mark(class, Punct::Semicolon)
        || starts_simple(class)
        || is_word(class, Keyword::If)
        || is_word(class, Keyword::Switch)
        || is_word(class, Keyword::While)
        || is_word(class, Keyword::Do)
        || is_word(class, Keyword::For)
        || is_word(class, Keyword::Break)
        || is_word(class, Keyword::Continue)
        || is_word(class, Keyword::Return)
        || is_word(class, Keyword::Assert)
        || is_word(class, Keyword::Printf)
}

/// Whether a label of a `switch` may begin with the class.
fn starts_label(class: TokenClass) -> bool
    ensures { result ≡ label_start class }
{
    is_word(class, Keyword::Case) || is_word(class, Keyword::Default)
}
