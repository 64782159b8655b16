//! Decimal numbers, and pieces between blanks.

use ba_bytes::decimal::decimal;
use ba_bytes::pieces::Pieces;

static NUMBERS: [(&str, Option<i64>); 11] = [
    ("0", Some(0)),
    ("-0", Some(0)),
    ("007", Some(7)),
    ("-2147483648", Some(-2_147_483_648)),
    ("9223372036854775808", Some(i64::MAX)),
    ("-99999999999999999999", Some(i64::MIN)),
    ("", None),
    ("-", None),
    ("+1", None),
    ("1a", None),
    ("--1", None),
];

#[test]
fn texts_are_read_as_numbers_and_pieces(rt: HostRuntime) {
    for (text, wanted) in &NUMBERS {
        assert!(rt; decimal(text.as_bytes()) == *wanted, "{text}");
    }
    let mut pieces = Pieces::new(b" 12\t-3\n\r\n4");
    assert!(rt; pieces.next_piece() == Some(b"12".as_slice()));
    assert!(rt; pieces.next_piece() == Some(b"-3".as_slice()));
    assert!(rt; pieces.next_piece() == Some(b"4".as_slice()));
    assert!(rt; pieces.next_piece().is_none());
}
