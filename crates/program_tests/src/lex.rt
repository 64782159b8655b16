//! Texts with their tokens or their first error, from the rules of the language.

use ba_lex::error::LexError;
use ba_lex::{MAX_TEXT, tokens};
use ba_numbers::ids::At;
use ba_numbers::numbers::CType;
use ba_tokens::token::{Token, TokenKind};
use std::alloc::Global;
use std::panic::Expect;
use std::process::Abort;

/// Writes the bytes of a name.
fn write_name(rt: &impl Abort, text: &mut String, name: &[u8]) {
    for byte in name {
        text.push(char::from(*byte)).expect(rt, "memory");
    }
}

/// Writes a constant with a letter for its type.
fn write_constant(rt: &impl Abort, text: &mut String, t: CType, value: i64) {
    let letter = match t {
        CType::I32 => 'i',
        CType::U32 => 'u',
        _ => '?',
    };
    write!(text, "{value}{letter}").expect(rt, "memory");
}

/// Writes a name as it is, a keyword or punctuator by its variant, a constant with its type, and `""` for a
/// string.
fn write_kind(rt: &impl Abort, text: &mut String, kind: &TokenKind) {
    match kind {
        TokenKind::Name(name) => write_name(rt, text, name.as_bytes()),
        TokenKind::Keyword(keyword) => write!(text, "{keyword:?}").expect(rt, "memory"),
        TokenKind::Constant { t, value } => write_constant(rt, text, *t, *value),
        TokenKind::Quoted => text.push_str("\"\"").expect(rt, "memory"),
        TokenKind::Punct(punct) => write!(text, "{punct:?}").expect(rt, "memory"),
    }
}

/// Writes each token's kind, and its position after `@`.
fn write_tokens(rt: &impl Abort, text: &mut String, tokens: &[Token]) {
    for token in tokens {
        if !text.is_empty() {
            text.push(' ').expect(rt, "memory");
        }
        write_kind(rt, text, &token.kind);
        write!(text, "@{}:{}", token.at.line, token.at.column).expect(rt, "memory");
    }
}

/// The name of an error, and where it is.
fn error_name(error: LexError) -> (&'static str, At) {
    match error {
        LexError::BadByte(at) => ("BadByte", at),
        LexError::BadToken(at) => ("BadToken", at),
        LexError::NotInProfile(at) => ("NotInProfile", at),
        LexError::BadDirective(at) => ("BadDirective", at),
        LexError::MacroOrder(at) => ("MacroOrder", at),
        LexError::Redefined(at) => ("Redefined", at),
        LexError::TooMany(at) => ("TooMany", at),
        LexError::Memory => ("Memory", At { line: 0, column: 0 }),
    }
}

/// Writes an error and where it is.
fn write_error(rt: &impl Abort, text: &mut String, error: LexError) {
    let (name, at) = error_name(error);
    write!(text, "{name} {}:{}", at.line, at.column).expect(rt, "memory");
}

/// The tokens of a text, which is no longer than it may be.
fn tokens_of(rt: &impl Abort, alloc: Global, text: &str) -> Result<Vec<Token>, LexError> {
    assert!(rt; text.len() <= MAX_TEXT);
    tokens(alloc, text.as_bytes())
}

/// The answer to a text as text: its tokens, or its error.
fn answer_text(rt: &impl Abort, alloc: Global, text: &str) -> String {
    let mut answer = String::new(alloc);
    match tokens_of(rt, alloc, text) {
        Ok(tokens) => write_tokens(rt, &mut answer, tokens.as_slice()),
        Err(error) => write_error(rt, &mut answer, error),
    }
    answer
}

static WORKED: [(&str, &str); 8] = [
    ("a+++b", "a@1:1 Increment@1:2 Plus@1:4 b@1:5"),
    ("#define A B\n#define B 1", "MacroOrder 2:9"),
    ("4294967296", "BadToken 1:1"),
    ("2147483648", "2147483648u@1:1"),
    ("int main(void) { double d; }", "NotInProfile 1:18"),
    (
        "int main(void) { x + 1; }",
        "Int@1:1 main@1:5 OpenParenthesis@1:9 Void@1:10 CloseParenthesis@1:14 OpenBrace@1:16 x@1:18 Plus@1:20 1i@1:22 Semicolon@1:23 CloseBrace@1:25",
    ),
    ("", ""),
    ("\n\n", ""),
];

static WORDS: [(&str, &str); 2] = [
    (
        "char\nshort\nint\nlong\nsigned\nunsigned\nvoid\nenum\nconst\nstatic\nif\nelse\nswitch\ncase\ndefault\nwhile\ndo\nfor\nbreak\ncontinue\nreturn\nassert\nprintf",
        "Char@1:1 Short@2:1 Int@3:1 Long@4:1 Signed@5:1 Unsigned@6:1 Void@7:1 Enum@8:1 Const@9:1 Static@10:1 If@11:1 Else@12:1 Switch@13:1 Case@14:1 Default@15:1 While@16:1 Do@17:1 For@18:1 Break@19:1 Continue@20:1 Return@21:1 Assert@22:1 Printf@23:1",
    ),
    (
        "Char chars _char char1 If cases Enum enums",
        "Char@1:1 chars@1:6 _char@1:12 char1@1:18 If@1:24 cases@1:27 Enum@1:33 enums@1:38",
    ),
];

static REFUSED: [(&str, &str); 12] = [
    ("x auto; y", "NotInProfile 1:3"),
    ("x double; y", "NotInProfile 1:3"),
    ("x extern; y", "NotInProfile 1:3"),
    ("x float; y", "NotInProfile 1:3"),
    ("x goto; y", "NotInProfile 1:3"),
    ("x register; y", "NotInProfile 1:3"),
    ("x sizeof; y", "NotInProfile 1:3"),
    ("x struct; y", "NotInProfile 1:3"),
    ("x typedef; y", "NotInProfile 1:3"),
    ("x union; y", "NotInProfile 1:3"),
    ("x volatile; y", "NotInProfile 1:3"),
    ("autos Auto _float", "autos@1:1 Auto@1:7 _float@1:12"),
];

static PUNCTUATORS: [(&str, &str); 8] = [
    (
        "{ } ( ) [ ] ; , ? : ~ ! + - * / % & | ^ = < > .",
        "OpenBrace@1:1 CloseBrace@1:3 OpenParenthesis@1:5 CloseParenthesis@1:7 OpenBracket@1:9 CloseBracket@1:11 Semicolon@1:13 Comma@1:15 Question@1:17 Colon@1:19 Tilde@1:21 Exclamation@1:23 Plus@1:25 Minus@1:27 Star@1:29 Slash@1:31 Percent@1:33 Ampersand@1:35 Bar@1:37 Caret@1:39 Assign@1:41 Less@1:43 Greater@1:45 Dot@1:47",
    ),
    (
        "++ -- << >> <= >= == != && || += -= *= /= %= &= ^= |= ->",
        "Increment@1:1 Decrement@1:4 ShiftLeft@1:7 ShiftRight@1:10 LessEqual@1:13 GreaterEqual@1:16 Equal@1:19 NotEqual@1:22 AndAnd@1:25 OrOr@1:28 PlusAssign@1:31 MinusAssign@1:34 StarAssign@1:37 SlashAssign@1:40 PercentAssign@1:43 AmpersandAssign@1:46 CaretAssign@1:49 BarAssign@1:52 Arrow@1:55",
    ),
    (
        "<<= >>= ...",
        "ShiftLeftAssign@1:1 ShiftRightAssign@1:5 Ellipsis@1:9",
    ),
    (
        "....->-.",
        "Ellipsis@1:1 Dot@1:4 Arrow@1:5 Minus@1:7 Dot@1:8",
    ),
    (
        "<<<=>>>=",
        "ShiftLeft@1:1 LessEqual@1:3 ShiftRight@1:5 GreaterEqual@1:7",
    ),
    ("a---b", "a@1:1 Decrement@1:2 Minus@1:4 b@1:5"),
    ("..", "Dot@1:1 Dot@1:2"),
    ("===", "Equal@1:1 Assign@1:3"),
];

static BLANKS: [(&str, &str); 11] = [
    ("a\x0b\x0c\r\t b", "a@1:1 b@1:7"),
    ("a\n  b\n\n c", "a@1:1 b@2:3 c@4:2"),
    ("x /* y\nz */ w", "x@1:1 w@2:6"),
    ("x // y /* z\nw", "x@1:1 w@2:1"),
    ("x //", "x@1:1"),
    ("x /", "x@1:1 Slash@1:3"),
    ("a/**/b/***/c/* * / */d", "a@1:1 b@1:6 c@1:12 d@1:22"),
    ("/* é */ \"é\" // é", "\"\"@1:10"),
    ("/*/", "BadToken 1:1"),
    ("x /* y\n *", "BadToken 1:3"),
    ("a*/b", "a@1:1 Star@1:2 Slash@1:3 b@1:4"),
];

static BYTES: [(&str, &str); 7] = [
    ("a @", "BadByte 1:3"),
    ("a\n$", "BadByte 2:1"),
    ("a\\\nb", "BadByte 1:2"),
    ("naé", "BadByte 1:3"),
    ("`", "BadByte 1:1"),
    ("a \x00", "BadByte 1:3"),
    ("\x7f", "BadByte 1:1"),
];

static NUMBERS: [(&str, &str); 25] = [
    (
        "0 7 42 017 0x1F 0XaB",
        "0i@1:1 7i@1:3 42i@1:5 15i@1:8 31i@1:12 171i@1:17",
    ),
    (
        "1u 1U 1l 1L 1ul 1LU 1uL 1lu",
        "1u@1:1 1u@1:4 1i@1:7 1i@1:10 1u@1:13 1u@1:17 1u@1:21 1u@1:25",
    ),
    (
        "2147483647 0x7fffffff 017777777777",
        "2147483647i@1:1 2147483647i@1:12 2147483647i@1:23",
    ),
    (
        "2147483648L 0x80000000 020000000000",
        "2147483648u@1:1 2147483648u@1:13 2147483648u@1:24",
    ),
    (
        "4294967295 0xffffffff 037777777777",
        "4294967295u@1:1 4294967295u@1:12 4294967295u@1:23",
    ),
    ("000000000037777777777", "4294967295u@1:1"),
    ("0x0000000000000000000000001", "1i@1:1"),
    ("0x100000000", "BadToken 1:1"),
    ("00000040000000000000", "BadToken 1:1"),
    ("99999999999999999999999999", "BadToken 1:1"),
    ("1.5", "BadToken 1:1"),
    ("0x", "BadToken 1:1"),
    ("0xG", "BadToken 1:1"),
    ("0xu", "BadToken 1:1"),
    ("08", "BadToken 1:1"),
    ("019", "BadToken 1:1"),
    ("1a", "BadToken 1:1"),
    ("1_", "BadToken 1:1"),
    ("1ll", "BadToken 1:1"),
    ("1uu", "BadToken 1:1"),
    ("1ulu", "BadToken 1:1"),
    ("0xe+1", "14i@1:1 Plus@1:4 1i@1:5"),
    (".5", "Dot@1:1 5i@1:2"),
    ("1.", "BadToken 1:1"),
    ("-1", "Minus@1:1 1i@1:2"),
];

static CHARACTERS: [(&str, &str); 24] = [
    ("'a' ' ' '~' '\"'", "97i@1:1 32i@1:5 126i@1:9 34i@1:13"),
    (
        "'\\n' '\\t' '\\r' '\\a' '\\b' '\\f' '\\v'",
        "10i@1:1 9i@1:6 13i@1:11 7i@1:16 8i@1:21 12i@1:26 11i@1:31",
    ),
    (
        "'\\\\' '\\'' '\\\"' '\\?'",
        "92i@1:1 39i@1:6 34i@1:11 63i@1:16",
    ),
    (
        "'\\0' '\\12' '\\101' '\\177'",
        "0i@1:1 10i@1:6 65i@1:12 127i@1:19",
    ),
    (
        "'\\200' '\\377' '\\x80' '\\xfF'",
        "-128i@1:1 -1i@1:8 -128i@1:15 -1i@1:22",
    ),
    ("'\\x7f' '\\x00000041'", "127i@1:1 65i@1:8"),
    ("x '\\400'", "BadToken 1:3"),
    ("x '\\x100'", "BadToken 1:3"),
    ("x '\\x'", "BadToken 1:3"),
    ("x '\\8'", "BadToken 1:3"),
    ("x '\\1011'", "BadToken 1:3"),
    ("x ''", "BadToken 1:3"),
    ("x '''", "BadToken 1:3"),
    ("x 'ab'", "BadToken 1:3"),
    ("x '\t'", "BadToken 1:3"),
    ("x 'é'", "BadToken 1:3"),
    ("x '\\X41'", "BadToken 1:3"),
    ("x '\\nn'", "BadToken 1:3"),
    ("x 'a", "BadToken 1:3"),
    ("x 'a\n'", "BadToken 1:3"),
    ("x '\\", "BadToken 1:3"),
    ("x '\\c'", "BadToken 1:3"),
    ("x '\\xg'", "BadToken 1:3"),
    ("x '\\'", "BadToken 1:3"),
];

static STRINGS: [(&str, &str); 7] = [
    (
        "\"\" \"a\" \"a\\\"b\" \"\\\\\"",
        "\"\"@1:1 \"\"@1:4 \"\"@1:8 \"\"@1:15",
    ),
    ("\"\\q\\\" // ' /*\" x", "\"\"@1:1 x@1:16"),
    ("\"a\" \"b\"x", "\"\"@1:1 \"\"@1:5 x@1:8"),
    ("x \"a\ny\"", "BadToken 1:3"),
    ("x \"a", "BadToken 1:3"),
    ("x \"a\\\"", "BadToken 1:3"),
    ("x \"a\\\n\"", "BadToken 1:3"),
];

static DIRECTIVES_FORMS: [(&str, &str); 37] = [
    ("#", ""),
    ("  # // nothing\n#/* */", ""),
    ("x # y", "BadToken 1:3"),
    ("# #", "BadToken 1:3"),
    ("##", "BadToken 1:2"),
    ("int x; /*\n*/ # y", "BadToken 2:4"),
    ("/*\n*/ #define A 1\nA", "1i@3:1"),
    (
        "#include <assert.h>\n#include<stdio.h>\n # include < stdlib . h > /* x */",
        "",
    ),
    ("#include <math.h>", "BadDirective 1:1"),
    ("#include \"stdio.h\"", "BadDirective 1:1"),
    ("#include <stdio.h>>", "BadDirective 1:1"),
    ("#include <stdio.h", "BadDirective 1:1"),
    ("#include stdio.h", "BadDirective 1:1"),
    ("#include", "BadDirective 1:1"),
    ("#include <stdio>", "BadDirective 1:1"),
    ("#if 1", "BadDirective 1:1"),
    ("#else", "BadDirective 1:1"),
    ("#undef A", "BadDirective 1:1"),
    ("#pragma x", "BadDirective 1:1"),
    ("#1", "BadDirective 1:1"),
    ("#include <printf.h>", "BadDirective 1:1"),
    ("x\n  #error no", "BadDirective 2:3"),
    ("#include <float.h>", "NotInProfile 1:11"),
    ("#pragma sizeof", "NotInProfile 1:9"),
    ("#error don't", "BadToken 1:11"),
    ("#error @", "BadByte 1:8"),
    ("#define A 1\n#define B A\nA B", "1i@3:1 1i@3:3"),
    (
        "#define A (1 /* one\n*/ + x) // end\nA;A",
        "OpenParenthesis@3:1 1i@3:1 Plus@3:1 x@3:1 CloseParenthesis@3:1 Semicolon@3:2 OpenParenthesis@3:3 1i@3:3 Plus@3:3 x@3:3 CloseParenthesis@3:3",
    ),
    ("A\n#define A 1\nA", "A@1:1 1i@3:1"),
    ("#define A\nx A y", "x@2:1 y@2:5"),
    (
        "#define A/**/(1)\nA",
        "OpenParenthesis@2:1 1i@2:1 CloseParenthesis@2:1",
    ),
    ("#define A (1)", ""),
    ("#define A(x) x", "BadDirective 1:1"),
    ("#define A(", "BadDirective 1:1"),
    ("#define A(x) 'y", "BadToken 1:14"),
    ("#define", "BadDirective 1:1"),
    ("#define if 1", "BadDirective 1:1"),
];

static MACROS: [(&str, &str); 29] = [
    ("#define printf", "BadDirective 1:1"),
    ("#define 1 2", "BadDirective 1:1"),
    ("#define \"a\"", "BadDirective 1:1"),
    ("#define ; 1", "BadDirective 1:1"),
    ("#define float 1", "NotInProfile 1:9"),
    ("#define A float", "NotInProfile 1:11"),
    ("#define A 08", "BadToken 1:11"),
    ("#define E\nE # x", "BadToken 2:3"),
    ("#define A if\nA", "If@2:1"),
    ("#define define 2\n#define X define\nX", "2i@3:1"),
    ("#define A A", "MacroOrder 1:9"),
    ("#define A B\n#define C A\n#define B 1", "MacroOrder 3:9"),
    ("#define A 1\n#define A 1", ""),
    ("#define A 1\n#define A 01", ""),
    ("#define A 1\n#define A '\\1'\nA", "1i@3:1"),
    ("#define A 1\n#define A A\nA", "1i@3:1"),
    ("#define A 1\n#define B A\n#define B 01", ""),
    ("#define A \"x\"\n#define A \"yy\"", ""),
    ("#define A 1\n#define A 1u", "Redefined 2:9"),
    ("#define A 1\n#define A 2", "Redefined 2:9"),
    ("#define A 1\n#define A", "Redefined 2:9"),
    ("#define A x\n#define A y", "Redefined 2:9"),
    ("#define A +\n#define A -", "Redefined 2:9"),
    ("#define A if\n#define A do", "Redefined 2:9"),
    ("#define A B B\n #define A B", "Redefined 2:10"),
    ("#define A x\n#define x 1 08", "BadToken 2:13"),
    ("#define A 1 @\nfloat", "BadByte 1:13"),
    ("x 08 @", "BadToken 1:3"),
    (
        "#define averyverylongnameofmorethanthirtyonebytes1 1\n#define averyverylongnameofmorethanthirtyonebytes2 2\naveryverylongnameofmorethanthirtyonebytes1",
        "1i@3:1",
    ),
];

/// Whole programs with their tokens.
static PROGRAMS: [(&str, &str); 4] = [
    (
        "int Array[3];\nint main(int index) {\n    int i;\n    if (index != 1)\n        index = 2;\n    else\n        index = index + 2;\n    i = index;\n    assert(i >= 0 && i < 3);\n    return Array[i];\n}\n",
        "Int@1:1 Array@1:5 OpenBracket@1:10 3i@1:11 CloseBracket@1:12 Semicolon@1:13 Int@2:1 main@2:5 OpenParenthesis@2:9 Int@2:10 index@2:14 CloseParenthesis@2:19 OpenBrace@2:21 Int@3:5 i@3:9 Semicolon@3:10 If@4:5 OpenParenthesis@4:8 index@4:9 NotEqual@4:15 1i@4:18 CloseParenthesis@4:19 index@5:9 Assign@5:15 2i@5:17 Semicolon@5:18 Else@6:5 index@7:9 Assign@7:15 index@7:17 Plus@7:23 2i@7:25 Semicolon@7:26 i@8:5 Assign@8:7 index@8:9 Semicolon@8:14 Assert@9:5 OpenParenthesis@9:11 i@9:12 GreaterEqual@9:14 0i@9:17 AndAnd@9:19 i@9:22 Less@9:24 3i@9:26 CloseParenthesis@9:27 Semicolon@9:28 Return@10:5 Array@10:12 OpenBracket@10:17 i@10:18 CloseBracket@10:19 Semicolon@10:20 CloseBrace@11:1",
    ),
    (
        "#include <assert.h>\n#include <stdio.h>\n#define N 4\n\n/* greatest element */\nint largest(const int a[], int n);\n\nint main(int a[N]) {\n    int i, m;\n    m = largest(a, N);\n    for (i = 0; i < N; i++) {\n        assert(m >= a[i]);\n    }\n    printf(\"%d\\n\", m);\n    return 0;\n}\n",
        "Int@6:1 largest@6:5 OpenParenthesis@6:12 Const@6:13 Int@6:19 a@6:23 OpenBracket@6:24 CloseBracket@6:25 Comma@6:26 Int@6:28 n@6:32 CloseParenthesis@6:33 Semicolon@6:34 Int@8:1 main@8:5 OpenParenthesis@8:9 Int@8:10 a@8:14 OpenBracket@8:15 4i@8:16 CloseBracket@8:17 CloseParenthesis@8:18 OpenBrace@8:20 Int@9:5 i@9:9 Comma@9:10 m@9:12 Semicolon@9:13 m@10:5 Assign@10:7 largest@10:9 OpenParenthesis@10:16 a@10:17 Comma@10:18 4i@10:20 CloseParenthesis@10:21 Semicolon@10:22 For@11:5 OpenParenthesis@11:9 i@11:10 Assign@11:12 0i@11:14 Semicolon@11:15 i@11:17 Less@11:19 4i@11:21 Semicolon@11:22 i@11:24 Increment@11:25 CloseParenthesis@11:27 OpenBrace@11:29 Assert@12:9 OpenParenthesis@12:15 m@12:16 GreaterEqual@12:18 a@12:21 OpenBracket@12:22 i@12:23 CloseBracket@12:24 CloseParenthesis@12:25 Semicolon@12:26 CloseBrace@13:5 Printf@14:5 OpenParenthesis@14:11 \"\"@14:12 Comma@14:18 m@14:20 CloseParenthesis@14:21 Semicolon@14:22 Return@15:5 0i@15:12 Semicolon@15:13 CloseBrace@16:1",
    ),
    (
        "#define LOW  0x10u // the least\n#define HIGH (LOW << 4) /* the\n   greatest */\n#define IN(x\n",
        "BadDirective 4:1",
    ),
    (
        "#define LOW  0x10u // the least\n#define HIGH (LOW << 4) /* the\n   greatest */\nstatic unsigned char last = '\\0';\n/* whether c is a digit */\nint digit(int c) { return c >= '0' && c <= '9' ? 1 : 0; }\nvoid put(unsigned v) {\n    do { last ^= v & HIGH; v >>= 1; } while (v != LOW);\n}\n",
        "Static@4:1 Unsigned@4:8 Char@4:17 last@4:22 Assign@4:27 0i@4:29 Semicolon@4:33 Int@6:1 digit@6:5 OpenParenthesis@6:10 Int@6:11 c@6:15 CloseParenthesis@6:16 OpenBrace@6:18 Return@6:20 c@6:27 GreaterEqual@6:29 48i@6:32 AndAnd@6:36 c@6:39 LessEqual@6:41 57i@6:44 Question@6:48 1i@6:50 Colon@6:52 0i@6:54 Semicolon@6:55 CloseBrace@6:57 Void@7:1 put@7:6 OpenParenthesis@7:9 Unsigned@7:10 v@7:19 CloseParenthesis@7:20 OpenBrace@7:22 Do@8:5 OpenBrace@8:8 last@8:10 CaretAssign@8:15 v@8:18 Ampersand@8:20 OpenParenthesis@8:22 16u@8:22 ShiftLeft@8:22 4i@8:22 CloseParenthesis@8:22 Semicolon@8:26 v@8:28 ShiftRightAssign@8:30 1i@8:34 Semicolon@8:35 CloseBrace@8:37 While@8:39 OpenParenthesis@8:45 v@8:46 NotEqual@8:48 16u@8:51 CloseParenthesis@8:54 Semicolon@8:55 CloseBrace@9:1",
    ),
];

/// The number of tokens, or the error.
fn outcome(rt: &impl Abort, alloc: Global, text: &str) -> String {
    let mut answer = String::new(alloc);
    match tokens_of(rt, alloc, text) {
        Ok(tokens) => write!(answer, "{} tokens", tokens.len()).expect(rt, "memory"),
        Err(error) => write_error(rt, &mut answer, error),
    }
    answer
}

/// Compares the answer to a text with the one that is wanted.
fn compare_answer(rt: &impl Abort, alloc: Global, text: &str, wanted: &str) {
    let answer = answer_text(rt, alloc, text);
    assert_eq!(rt; answer.as_str(), wanted);
}

/// Compares the answer to each text with the one that is wanted.
fn compare(rt: &impl Abort, alloc: Global, rows: &[(&str, &str)]) {
    for (text, wanted) in rows {
        compare_answer(rt, alloc, text, wanted);
    }
}

#[test]
fn texts_have_their_tokens_or_their_first_error(rt: HostRuntime) {
    let alloc = rt.alloc();
    compare(&rt, alloc, WORKED.as_slice());
    // Words are told apart, and those that the profile leaves out are refused; punctuators are the longest.
    compare(&rt, alloc, WORDS.as_slice());
    compare(&rt, alloc, REFUSED.as_slice());
    compare(&rt, alloc, PUNCTUATORS.as_slice());
    // Lines and columns are counted.
    compare(&rt, alloc, BLANKS.as_slice());
    compare(&rt, alloc, BYTES.as_slice());
    compare(&rt, alloc, NUMBERS.as_slice());
    compare(&rt, alloc, CHARACTERS.as_slice());
    compare(&rt, alloc, STRINGS.as_slice());
    compare(&rt, alloc, DIRECTIVES_FORMS.as_slice());
    compare(&rt, alloc, MACROS.as_slice());
    compare(&rt, alloc, PROGRAMS.as_slice());
}

/// A part of a text.
enum Part {
    /// A piece so many times.
    Times(&'static str, usize),
    /// So many macros `M0`, `M1` and so on, each its number.
    Numbers(usize),
    /// So many macros `M0`, `M1` and so on, each `B`.
    Names(usize),
}

impl Part {
    /// Adds the part to a text.
    fn add(&self, rt: &impl Abort, text: &mut String) {
        match self {
            Part::Times(piece, count) => add_pieces(rt, text, piece, *count),
            Part::Numbers(count) => add_numbers(rt, text, *count),
            Part::Names(count) => add_names(rt, text, *count),
        }
    }
}

/// Adds a piece so many times.
fn add_pieces(rt: &impl Abort, text: &mut String, piece: &str, count: usize) {
    for _ in 0..count {
        text.push_str(piece).expect(rt, "memory");
    }
}

/// Adds macros, each its number.
fn add_numbers(rt: &impl Abort, text: &mut String, count: usize) {
    for i in 0..count {
        write!(text, "#define M{i} {i}\n").expect(rt, "memory");
    }
}

/// Adds macros, each `B`.
fn add_names(rt: &impl Abort, text: &mut String, count: usize) {
    for i in 0..count {
        write!(text, "#define M{i} B\n").expect(rt, "memory");
    }
}

/// The text of these parts.
fn text_of(rt: &impl Abort, alloc: Global, parts: &[Part]) -> String {
    let mut text = String::new(alloc);
    for part in parts {
        part.add(rt, &mut text);
    }
    text
}

/// Compares the outcome of the text of these parts with the one that is wanted.
fn compare_outcome(rt: &impl Abort, alloc: Global, parts: &[Part], wanted: &str) {
    let text = text_of(rt, alloc, parts);
    let found = outcome(rt, alloc, text.as_str());
    assert_eq!(rt; found.as_str(), wanted);
}

/// Compares the outcome of each text with the one that is wanted.
fn compare_built(rt: &impl Abort, alloc: Global, rows: &[(&[Part], &str)]) {
    for (parts, wanted) in rows {
        compare_outcome(rt, alloc, parts, wanted);
    }
}

static LONGEST: [(&[Part], &str); 13] = [
    (
        &[
            Part::Times("/*", 1),
            Part::Times("*", 65532),
            Part::Times("*/", 1),
        ],
        "0 tokens",
    ),
    (&[Part::Times("//", 1), Part::Times("/", 65534)], "0 tokens"),
    (&[Part::Times("a", 65536)], "1 tokens"),
    (&[Part::Times("0", 65536)], "1 tokens"),
    (&[Part::Times("9", 65536)], "BadToken 1:1"),
    (
        &[
            Part::Times("\"", 1),
            Part::Times("x", 65534),
            Part::Times("\"", 1),
        ],
        "1 tokens",
    ),
    (
        &[Part::Times("\"", 1), Part::Times("x", 65535)],
        "BadToken 1:1",
    ),
    (&[Part::Times(" ", 65536)], "0 tokens"),
    (
        &[Part::Times("\n", 65535), Part::Times("@", 1)],
        "BadByte 65536:1",
    ),
    (
        &[Part::Times(" ", 65535), Part::Times("@", 1)],
        "BadByte 1:65536",
    ),
    (&[Part::Times("+", 65536)], "32768 tokens"),
    (&[Part::Times("a ", 32768)], "32768 tokens"),
    (
        &[Part::Times("#define A 1\n", 5461), Part::Times("A", 1)],
        "1 tokens",
    ),
];

/// Macros of so many tokens, and their uses.
static LIMITS: [(&[Part], &str); 10] = [
    (
        &[Part::Times("#define A", 1), Part::Times(" x", 1000)],
        "0 tokens",
    ),
    (
        &[Part::Times("#define A", 1), Part::Times(" x", 1001)],
        "TooMany 1:9",
    ),
    (
        &[
            Part::Times("#define A", 1),
            Part::Times(" x", 1000),
            Part::Times("\n#define B A\nB", 1),
        ],
        "1000 tokens",
    ),
    (
        &[
            Part::Times("#define A", 1),
            Part::Times(" x", 999),
            Part::Times("\n#define B A x\nB", 1),
        ],
        "1000 tokens",
    ),
    (
        &[
            Part::Times("#define A", 1),
            Part::Times(" x", 1000),
            Part::Times("\n#define B A x", 1),
        ],
        "TooMany 2:9",
    ),
    (
        &[
            Part::Times("#define A", 1),
            Part::Times(" x", 1000),
            Part::Times("\n#define A A x", 1),
        ],
        "Redefined 2:9",
    ),
    (
        &[
            Part::Times("#define A", 1),
            Part::Times(" x", 1000),
            Part::Times("\n", 1),
            Part::Times("A\n", 100),
        ],
        "100000 tokens",
    ),
    (
        &[
            Part::Times("#define A", 1),
            Part::Times(" x", 999),
            Part::Times("\n", 1),
            Part::Times("A\n", 100),
        ],
        "99900 tokens",
    ),
    (
        &[
            Part::Times("#define A", 1),
            Part::Times(" x", 1000),
            Part::Times("\n", 1),
            Part::Times("A\n", 100),
            Part::Times(" y", 1),
        ],
        "TooMany 102:2",
    ),
    (
        &[
            Part::Times("#define A", 1),
            Part::Times(" x", 1000),
            Part::Times("\n", 1),
            Part::Times("A\n", 100),
            Part::Times("\n @", 1),
        ],
        "BadByte 103:2",
    ),
];

static BEHIND: [(&[Part], &str); 4] = [
    (
        &[Part::Numbers(1000), Part::Times("M0 M999", 1)],
        "2 tokens",
    ),
    (
        &[Part::Numbers(1000), Part::Times("#define M7 7", 1)],
        "0 tokens",
    ),
    (
        &[Part::Numbers(1000), Part::Times("#define M", 1)],
        "TooMany 1001:9",
    ),
    (
        &[Part::Numbers(1000), Part::Times("#define M M", 1)],
        "MacroOrder 1001:9",
    ),
];

/// Names of 30,000 bytes are in 1,000 tokens of each of 999 bodies: copies of them would take 30 GB.
static LONG_NAMES: [(&[Part], &str); 1] = [(
    &[
        Part::Times("#define A ", 1),
        Part::Times("n", 30000),
        Part::Times("\n#define B ", 1),
        Part::Times("A ", 1000),
        Part::Times("\n", 1),
        Part::Names(998),
        Part::Times("M7 ", 100),
    ],
    "100000 tokens",
)];

#[test]
fn long_texts_have_their_tokens_or_their_first_error(rt: HostRuntime) {
    let alloc = rt.alloc();
    compare_built(&rt, alloc, LONGEST.as_slice());
    compare_built(&rt, alloc, LIMITS.as_slice());
    compare_built(&rt, alloc, BEHIND.as_slice());
    // Names in bodies take no memory of their own.
    compare_built(&rt, alloc, LONG_NAMES.as_slice());
}
