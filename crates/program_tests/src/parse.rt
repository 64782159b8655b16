//! Texts with the place where they are refused, worked out from the grammar.

use ba_lex::{MAX_TEXT, tokens};
use ba_parse::{ParseError, parse};
use ba_tokens::token::Token;
use std::alloc::Global;
use std::panic::Expect;
use std::process::Abort;

/// What the parser says of tokens.
fn verdict(rt: &impl Abort, alloc: Global, tokens: &[Token]) -> String {
    let text = match parse(alloc, tokens).err() {
        None => String::from_str(alloc, "parses"),
        Some(ParseError::Syntax(place)) => format!(in alloc; "Syntax {place}"),
        Some(ParseError::TooDeep(place)) => format!(in alloc; "TooDeep {place}"),
        Some(ParseError::Memory) => String::from_str(alloc, "Memory"),
    };
    text.expect(rt, "memory")
}

/// What the parser says of the tokens of a text.
fn answer(rt: &impl Abort, alloc: Global, text: &str) -> String {
    assert!(rt; text.len() <= MAX_TEXT);
    let tokens = tokens(alloc, text.as_bytes()).expect(rt, "tokens");
    verdict(rt, alloc, tokens.as_slice())
}

pub(crate) fn expect_answer(rt: &impl Abort, alloc: Global, text: &str, expected: &str) {
    let found = answer(rt, alloc, text);
    assert_eq!(rt; found.as_str(), expected, "for {text}");
}

fn expect_answers(rt: &impl Abort, alloc: Global, rows: &[(&str, &str)]) {
    for (text, expected) in rows {
        expect_answer(rt, alloc, text, expected);
    }
}

static PARSED_FILES: [(&str, &str); 16] = [
    ("", "parses"),
    ("int x ;", "parses"),
    ("int x = 1 , y , z [ 3 ] = { 1 , 2 , } ;", "parses"),
    ("static const unsigned int x ;", "parses"),
    ("int unsigned static const x ;", "parses"),
    ("long int signed x ;", "parses"),
    (
        "signed char c ; unsigned char d ; short int e ; long f ;",
        "parses",
    ),
    ("char c [ ] = { 1 } ;", "parses"),
    ("int a [ ] ;", "parses"),
    ("int f ( void ) ;", "parses"),
    ("int f ( ) ;", "parses"),
    ("int f ( int , char b [ ] , unsigned c [ 4 ] ) ;", "parses"),
    (
        "int f ( const int a , int const b [ ] ) { return a ; }",
        "parses",
    ),
    ("static void f ( void ) { }", "parses"),
    ("void f ( ) { }", "parses"),
    ("int a ; int b ; int f ( int x ) { } int c ;", "parses"),
];

static PARSED_STATEMENTS: [(&str, &str); 24] = [
    ("int main ( void ) { return 0 ; }", "parses"),
    (
        "int main ( void ) { int i ; i = 1 ; { const int j = 2 , k ; j = 2 ; } ; }",
        "parses",
    ),
    ("int main ( void ) { if ( 1 ) ; else ; }", "parses"),
    (
        "int main ( void ) { if ( 1 ) if ( 2 ) ; else ; else ; }",
        "parses",
    ),
    ("int main ( void ) { while ( x < 3 ) x ++ ; }", "parses"),
    ("int main ( void ) { do x -- ; while ( x ) ; }", "parses"),
    ("int main ( void ) { for ( ; ; ) break ; }", "parses"),
    (
        "int main ( void ) { for ( i = 0 , j = 1 ; i < 3 ; i ++ , -- j ) continue ; }",
        "parses",
    ),
    (
        "int main ( void ) { for ( int i = 0 , j ; i ; ) { } }",
        "parses",
    ),
    (
        "int main ( void ) { for ( const char i = 0 ; ; f ( ) ) ; }",
        "parses",
    ),
    ("int main ( void ) { return ; }", "parses"),
    ("int main ( void ) { assert ( x == 1 ) ; }", "parses"),
    (
        "int main ( void ) { printf ( \"a\" \"b\" \"c\" , x , y + 1 ) ; printf ( \"a\" ) ; }",
        "parses",
    ),
    (
        "int main ( void ) { x = a * b + c << d < e == f & g ^ h | i && j || k ; }",
        "parses",
    ),
    (
        "int main ( void ) { x = a || b && c | d ^ e & f != g >= h >> i - j % k / l ; }",
        "parses",
    ),
    ("int main ( void ) { x = a - b - c - d ; }", "parses"),
    ("int main ( void ) { x = a ? b : c ? d : e ; }", "parses"),
    ("int main ( void ) { x = a ? b ? c : d : e ; }", "parses"),
    (
        "int main ( void ) { x = ( int ) y ; y = ( x ) + 1 ; }",
        "parses",
    ),
    (
        "int main ( void ) { x = - ~ ! + y ; x = ( unsigned char ) - ( x ) ; }",
        "parses",
    ),
    (
        "int main ( void ) { x = f ( 1 , g ( ) , a [ 2 ] ) ; }",
        "parses",
    ),
    (
        "int main ( void ) { a [ i ] += 1 ; x -= 1 ; x *= 1 ; x /= 1 ; x %= 1 ; x &= 1 ; x ^= 1 ; x |= 1 ; x <<= 1 ; x >>= 1 ; }",
        "parses",
    ),
    (
        "int main ( void ) { ++ a [ 0 ] ; -- b ; a [ 1 ] ++ ; f ( ) ; f ( x ) ; }",
        "parses",
    ),
    ("int main ( void ) { { { { } } } }", "parses"),
];

static REFUSED_FILES: [(&str, &str); 30] = [
    ("x ;", "Syntax 0"),
    ("int", "Syntax 1"),
    ("const x ;", "Syntax 1"),
    ("int const const x ;", "Syntax 2"),
    ("int int x ;", "Syntax 1"),
    ("short long x ;", "Syntax 1"),
    ("void int x ;", "Syntax 1"),
    ("unsigned signed x ;", "Syntax 1"),
    ("char short x ;", "Syntax 1"),
    ("static static int x ;", "Syntax 1"),
    ("int f ( static int x ) ;", "Syntax 3"),
    ("int f ( const void ) { }", "Syntax 6"),
    ("int f ( int ) { }", "Syntax 5"),
    ("int f ( void , int x ) { }", "Syntax 8"),
    ("int f ( int x , ) ;", "Syntax 6"),
    ("int f ( int x int y ) ;", "Syntax 5"),
    ("int a [ ;", "Syntax 3"),
    ("int a [ 2 , 3 ] ;", "Syntax 4"),
    ("int a = { } ;", "Syntax 4"),
    ("int a = { 1 , , } ;", "Syntax 6"),
    ("int a = { 1 2 } ;", "Syntax 5"),
    ("int a = ;", "Syntax 3"),
    ("int a , ;", "Syntax 3"),
    ("int a b ;", "Syntax 2"),
    ("int a [ 1 ] [ 2 ] ;", "Syntax 5"),
    ("int f ( void ) , g ;", "Syntax 5"),
    ("int x , f ( void ) ;", "Syntax 4"),
    ("int ( x ) ;", "Syntax 1"),
    ("int main ( void ) { } }", "Syntax 7"),
    ("int f ( void", "Syntax 4"),
];

static REFUSED_STATEMENTS: [(&str, &str); 26] = [
    ("int main ( void ) { x + 1 ; }", "Syntax 7"),
    ("int main ( void ) { if ( 1 ) ; else", "Syntax 12"),
    ("int main ( void ) {", "Syntax 6"),
    ("int main ( void ) { static int x ; }", "Syntax 6"),
    ("int main ( void ) { x = ( static int ) y ; }", "Syntax 9"),
    (
        "int main ( void ) { for ( static int i ; ; ) ; }",
        "Syntax 8",
    ),
    ("int main ( void ) { x = ; }", "Syntax 8"),
    ("int main ( void ) { x = 1 }", "Syntax 9"),
    ("int main ( void ) { x = a ? b ; }", "Syntax 11"),
    ("int main ( void ) { x = a + * b ; }", "Syntax 10"),
    ("int main ( void ) { x = a b ; }", "Syntax 9"),
    ("int main ( void ) { x = ( a ; }", "Syntax 10"),
    ("int main ( void ) { x = ( int ) ; }", "Syntax 11"),
    ("int main ( void ) { x = ( int x ) ; }", "Syntax 10"),
    ("int main ( void ) { f ( 1 , ) ; }", "Syntax 10"),
    ("int main ( void ) { f ( 1 ; }", "Syntax 9"),
    ("int main ( void ) { a [ ] = 1 ; }", "Syntax 8"),
    ("int main ( void ) { a [ 1 ] ( 2 ) ; }", "Syntax 10"),
    ("int main ( void ) { x ; }", "Syntax 7"),
    ("int main ( void ) { ++ 1 ; }", "Syntax 7"),
    ("int main ( void ) { x ++ ++ ; }", "Syntax 8"),
    ("int main ( void ) { if x ; }", "Syntax 7"),
    ("int main ( void ) { if ( ) ; }", "Syntax 8"),
    ("int main ( void ) { while ( 1 ) }", "Syntax 10"),
    ("int main ( void ) { do ; while ( 1 ) }", "Syntax 12"),
    ("int main ( void ) { do ; x ; }", "Syntax 8"),
];

static REFUSED_OTHERS: [(&str, &str); 26] = [
    ("int main ( void ) { for ( 1 ; ; ) ; }", "Syntax 8"),
    ("int main ( void ) { for ( ; ; 1 ) ; }", "Syntax 10"),
    ("int main ( void ) { for ( ; ) ; }", "Syntax 9"),
    (
        "int main ( void ) { for ( i = 0 , int j ; ; ) ; }",
        "Syntax 12",
    ),
    (
        "int main ( void ) { for ( int i ; ; i ++ , ) ; }",
        "Syntax 15",
    ),
    ("int main ( void ) { break 1 ; }", "Syntax 7"),
    ("int main ( void ) { return 1 2 ; }", "Syntax 8"),
    ("int main ( void ) { assert 1 ; }", "Syntax 7"),
    ("int main ( void ) { assert ( 1 ) }", "Syntax 10"),
    ("int main ( void ) { printf ( x ) ; }", "Syntax 8"),
    ("int main ( void ) { printf ( \"a\" x ) ; }", "Syntax 9"),
    (
        "int main ( void ) { printf ( \"a\" , \"b\" ) ; }",
        "Syntax 10",
    ),
    (
        "int main ( void ) { printf ( \"a\" , 1 \"b\" ) ; }",
        "Syntax 11",
    ),
    ("int main ( void ) { ; else ; }", "Syntax 7"),
    (
        "int main ( void ) { if ( 1 ) ; else ; else ; }",
        "Syntax 13",
    ),
    ("int main ( void ) { if ( 1 ) int x ; }", "Syntax 10"),
    ("int main ( void ) { 1 ; }", "Syntax 6"),
    ("int main ( void ) { ( x ) = 1 ; }", "Syntax 6"),
    ("int main ( void ) { x = 1 , y = 2 ; }", "Syntax 9"),
    ("int main ( void ) { int f ( void ) ; }", "Syntax 8"),
    ("int main ( void ) { int x = 1", "Syntax 10"),
    ("int main ( void ) { x = y = 1 ; }", "Syntax 9"),
    ("int main ( void ) { x = ++ y ; }", "Syntax 8"),
    ("int main ( void ) { x = * y ; }", "Syntax 8"),
    ("int main ( void ) { x = & y ; }", "Syntax 8"),
    ("int main ( void ) { x = \"a\" ; }", "Syntax 8"),
];

static PARSED_SWITCHES: [(&str, &str); 12] = [
    ("int main ( void ) { switch ( x ) { } }", "parses"),
    ("int main ( void ) { switch ( x ) { case 1 : } }", "parses"),
    ("int main ( void ) { switch ( x ) { default : } }", "parses"),
    (
        "int main ( void ) { switch ( x ) { case 1 : case 2 : default : case 3 : break ; } }",
        "parses",
    ),
    (
        "int main ( void ) { switch ( x + 1 ) { case 1 : y = 1 ; break ; case 2 : y = 2 ; z = 3 ; default : y = 4 ; } }",
        "parses",
    ),
    (
        "int main ( void ) { switch ( x ) { case 1 : case 1 : default : default : } }",
        "parses",
    ),
    (
        "int main ( void ) { switch ( x ) { case 1 ? 2 : 3 : ; case - 1 : ; case ( char ) 2 : ; case 'a' + 1 : ; } }",
        "parses",
    ),
    (
        "int main ( void ) { switch ( x ) { case 1 : { int y = 2 ; y ++ ; } default : { } } }",
        "parses",
    ),
    (
        "int main ( void ) { switch ( x ) { case 1 : switch ( y ) { case 1 : ; default : ; } break ; case 2 : ; } }",
        "parses",
    ),
    (
        "int main ( void ) { switch ( x ) { case 1 : if ( x ) ; else ; case 2 : if ( x ) ; default : ; } }",
        "parses",
    ),
    (
        "int main ( void ) { if ( x ) switch ( x ) { case 1 : ; } else ; }",
        "parses",
    ),
    (
        "int main ( void ) { while ( x ) switch ( x ) { case 1 : continue ; default : break ; } }",
        "parses",
    ),
];

static REFUSED_SWITCHES: [(&str, &str); 20] = [
    ("int main ( void ) { switch ( x ) ; }", "Syntax 10"),
    ("int main ( void ) { switch ( x ) case 1 : ; }", "Syntax 10"),
    ("int main ( void ) { switch ( x ) break ; }", "Syntax 10"),
    ("int main ( void ) { switch x { } }", "Syntax 7"),
    ("int main ( void ) { switch ( ) { } }", "Syntax 8"),
    (
        "int main ( void ) { switch ( x ) { ; case 1 : ; } }",
        "Syntax 11",
    ),
    ("int main ( void ) { switch ( x ) { { } } }", "Syntax 11"),
    (
        "int main ( void ) { switch ( x ) { int y ; case 1 : ; } }",
        "Syntax 11",
    ),
    ("int main ( void ) { switch ( x ) { 1 : ; } }", "Syntax 11"),
    (
        "int main ( void ) { switch ( x ) { case 1 : int y ; } }",
        "Syntax 14",
    ),
    (
        "int main ( void ) { switch ( x ) { default : const int y = 1 ; } }",
        "Syntax 13",
    ),
    (
        "int main ( void ) { switch ( x ) { case 1 : ; int y ; } }",
        "Syntax 15",
    ),
    (
        "int main ( void ) { switch ( x ) { case 1 ; } }",
        "Syntax 13",
    ),
    ("int main ( void ) { switch ( x ) { case 1 } }", "Syntax 13"),
    (
        "int main ( void ) { switch ( x ) { case : ; } }",
        "Syntax 12",
    ),
    (
        "int main ( void ) { switch ( x ) { case 1 , 2 : ; } }",
        "Syntax 13",
    ),
    (
        "int main ( void ) { switch ( x ) { case 1 ? 2 : ; } }",
        "Syntax 16",
    ),
    (
        "int main ( void ) { switch ( x ) { default ; } }",
        "Syntax 12",
    ),
    (
        "int main ( void ) { switch ( x ) { default 1 : ; } }",
        "Syntax 12",
    ),
    (
        "int main ( void ) { switch ( x ) { case default : ; } }",
        "Syntax 12",
    ),
];

static REFUSED_LABELS: [(&str, &str); 20] = [
    (
        "int main ( void ) { switch ( x ) { case 1 : if ( x ) case 2 : ; } }",
        "Syntax 18",
    ),
    (
        "int main ( void ) { switch ( x ) { case 1 : if ( x ) ; else default : ; } }",
        "Syntax 20",
    ),
    (
        "int main ( void ) { switch ( x ) { case 1 : while ( x ) default : ; } }",
        "Syntax 18",
    ),
    (
        "int main ( void ) { switch ( x ) { case 1 : for ( ; ; ) case 2 : ; } }",
        "Syntax 19",
    ),
    (
        "int main ( void ) { switch ( x ) { case 1 : do case 2 : ; while ( x ) ; } }",
        "Syntax 15",
    ),
    (
        "int main ( void ) { switch ( x ) { case 1 : { case 2 : ; } } }",
        "Syntax 15",
    ),
    (
        "int main ( void ) { switch ( x ) { default : { ; default : ; } } }",
        "Syntax 15",
    ),
    (
        "int main ( void ) { switch ( x ) { case 1 : else ; } }",
        "Syntax 14",
    ),
    (
        "int main ( void ) { switch ( x ) { case 1 : ; } else ; }",
        "Syntax 16",
    ),
    ("int main ( void ) { case 1 : ; }", "Syntax 6"),
    ("int main ( void ) { default : ; }", "Syntax 6"),
    ("int main ( void ) { { default : ; } }", "Syntax 7"),
    ("int main ( void ) { if ( x ) case 1 : ; }", "Syntax 10"),
    ("int main ( void ) { x = case ; }", "Syntax 8"),
    ("int main ( void ) { x = switch ( x ) { } ; }", "Syntax 8"),
    ("int main ( void ) { switch ( x ) { case 1 :", "Syntax 14"),
    (
        "int main ( void ) { switch ( x ) { case 1 : ; }",
        "Syntax 16",
    ),
    ("case 1 : ;", "Syntax 0"),
    ("switch ( x ) { }", "Syntax 0"),
    ("int case ;", "Syntax 1"),
];

static PARSED_ENUMS: [(&str, &str); 14] = [
    ("enum e { A } ;", "parses"),
    ("enum { A , B , } ;", "parses"),
    (
        "enum e { A = 1 , B , C = A + 2 ? 3 : 4 , } x , y = B ;",
        "parses",
    ),
    ("enum e x ; enum e y [ 3 ] = { A , B , } ;", "parses"),
    (
        "const enum e x ; enum e const y ; static enum e z ; enum e static w ;",
        "parses",
    ),
    (
        "const static enum e x ; static enum e const y ; const enum e static z ; enum e const static v ; enum e static const w ;",
        "parses",
    ),
    (
        "enum e { A } const x ; const enum { B } y ; static enum { C } ; enum { D } const static ;",
        "parses",
    ),
    (
        "static const enum e { A } x ; static enum e { B } const ;",
        "parses",
    ),
    (
        "enum e f ( enum e x , const enum e y [ ] , enum e const ) ; static enum e g ( enum e x ) { return x ; }",
        "parses",
    ),
    ("enum A { A } A ; enum A { A } ;", "parses"),
    (
        "int main ( void ) { enum e { A , B } x = A ; enum { C } ; const enum e y = B , z ; enum e const w ; ; }",
        "parses",
    ),
    (
        "int main ( void ) { x = ( enum e ) 1 ; x = ( const enum e ) 1 ; x = ( enum e const ) - y ; }",
        "parses",
    ),
    (
        "int main ( void ) { for ( enum e i = A ; ; ) ; for ( const enum e i ; ; ) ; }",
        "parses",
    ),
    (
        "int main ( void ) { switch ( x ) { case A : { enum { B } ; x = B ; } } }",
        "parses",
    ),
];

static REFUSED_ENUMS: [(&str, &str); 24] = [
    ("enum ;", "Syntax 1"),
    ("enum", "Syntax 1"),
    ("enum 1 ;", "Syntax 1"),
    ("const enum = 1 ;", "Syntax 2"),
    ("int enum ;", "Syntax 1"),
    ("unsigned enum e x ;", "Syntax 1"),
    ("void enum e x ;", "Syntax 1"),
    ("enum int e x ;", "Syntax 1"),
    ("enum enum e x ;", "Syntax 1"),
    ("enum const e x ;", "Syntax 1"),
    ("enum static e x ;", "Syntax 1"),
    ("enum e int x ;", "Syntax 2"),
    ("enum e enum f x ;", "Syntax 2"),
    ("const const enum e x ;", "Syntax 1"),
    ("const enum e const x ;", "Syntax 3"),
    ("static enum e static x ;", "Syntax 3"),
    ("enum e const const x ;", "Syntax 3"),
    ("enum e const static const x ;", "Syntax 4"),
    ("enum e static const static x ;", "Syntax 4"),
    ("enum e ;", "Syntax 2"),
    ("enum e const ;", "Syntax 3"),
    ("enum e", "Syntax 2"),
    ("enum e x y ;", "Syntax 3"),
    ("enum e f ( enum e ) { }", "Syntax 7"),
];

static REFUSED_LISTS: [(&str, &str); 24] = [
    ("enum e { } ;", "Syntax 3"),
    ("enum { } x ;", "Syntax 2"),
    ("enum e { , } ;", "Syntax 3"),
    ("enum e { A , , } ;", "Syntax 5"),
    ("enum e { A B } ;", "Syntax 4"),
    ("enum e { A = } ;", "Syntax 5"),
    ("enum e { A = 1 , 2 } ;", "Syntax 7"),
    ("enum e { A = B = 1 } ;", "Syntax 6"),
    ("enum e { A = { 1 } } ;", "Syntax 5"),
    ("enum e { A ;", "Syntax 4"),
    ("enum e { A , ;", "Syntax 5"),
    ("enum e { A", "Syntax 4"),
    ("enum e { A ,", "Syntax 5"),
    ("enum e { 1 } ;", "Syntax 3"),
    ("enum e { int } ;", "Syntax 3"),
    ("enum e { enum f { A } } ;", "Syntax 3"),
    ("enum e { A } { B } ;", "Syntax 5"),
    ("enum e { A } e", "Syntax 6"),
    ("enum e { A } int x ;", "Syntax 5"),
    ("const enum e { A } const x ;", "Syntax 6"),
    ("enum e { A } x y ;", "Syntax 6"),
    ("enum e { A } , x ;", "Syntax 5"),
    ("enum e { A } f ( void ) ;", "Syntax 6"),
    ("enum { A } f ( void ) { }", "Syntax 5"),
];

static REFUSED_INNER_ENUMS: [(&str, &str); 20] = [
    ("int f ( enum e { A } x ) ;", "Syntax 5"),
    ("int f ( enum { A } x ) ;", "Syntax 4"),
    ("int f ( enum e static x ) ;", "Syntax 5"),
    ("int f ( int x , enum ) ;", "Syntax 7"),
    (
        "int main ( void ) { for ( enum e { A } i ; ; ) ; }",
        "Syntax 10",
    ),
    ("int main ( void ) { for ( enum { A } ; ; ) ; }", "Syntax 9"),
    ("int main ( void ) { for ( enum e ; ; ) ; }", "Syntax 10"),
    (
        "int main ( void ) { x = ( enum e { A } ) 1 ; }",
        "Syntax 11",
    ),
    ("int main ( void ) { x = ( enum { A } ) 1 ; }", "Syntax 10"),
    ("int main ( void ) { x = ( enum ) 1 ; }", "Syntax 10"),
    ("int main ( void ) { x = ( enum e x ) 1 ; }", "Syntax 11"),
    ("int main ( void ) { static enum { A } ; }", "Syntax 6"),
    ("int main ( void ) { enum e { A } static x ; }", "Syntax 11"),
    ("int main ( void ) { enum e ; }", "Syntax 8"),
    ("int main ( void ) { enum e { A } x y ; }", "Syntax 12"),
    ("int main ( void ) { enum e { A } f ( ) ; }", "Syntax 12"),
    ("int main ( void ) { enum e { A } }", "Syntax 11"),
    ("int main ( void ) { if ( x ) enum { A } ; }", "Syntax 10"),
    (
        "int main ( void ) { switch ( x ) { case 1 : enum { A } ; } }",
        "Syntax 14",
    ),
    ("int main ( void ) { x = enum ; }", "Syntax 8"),
];

#[test]
fn texts_parse_or_are_refused_at_the_first_token_that_cannot_stand(rt: HostRuntime) {
    let alloc = rt.alloc();
    expect_answers(&rt, alloc, PARSED_FILES.as_slice());
    expect_answers(&rt, alloc, PARSED_STATEMENTS.as_slice());
    expect_answers(&rt, alloc, REFUSED_FILES.as_slice());
    expect_answers(&rt, alloc, REFUSED_STATEMENTS.as_slice());
    expect_answers(&rt, alloc, REFUSED_OTHERS.as_slice());
    expect_answers(&rt, alloc, PARSED_SWITCHES.as_slice());
    expect_answers(&rt, alloc, REFUSED_SWITCHES.as_slice());
    expect_answers(&rt, alloc, REFUSED_LABELS.as_slice());
    expect_answers(&rt, alloc, PARSED_ENUMS.as_slice());
    expect_answers(&rt, alloc, REFUSED_ENUMS.as_slice());
    expect_answers(&rt, alloc, REFUSED_LISTS.as_slice());
    expect_answers(&rt, alloc, REFUSED_INNER_ENUMS.as_slice());
}
