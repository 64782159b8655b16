//! Classes of bytes (C90 5.2.1, 6.1).

ghost use Rattle.std.specs.Prelude.{◌≡◌, ◌≤◌};
ghost use Rattle.std.specs.Char.{digit_value, is_digit};
ghost use Rattle.ba_bytes.specs.Classes.{is_blank, is_line_end, is_letter, is_word_byte, is_number_byte};

/// Whether the byte is a blank: a tab, a line feed, a form feed, a carriage return or a space.
pub fn is_blank(byte: u8) -> bool
    ensures { result ≡ is_blank byte }
{
    matches!(byte, 9..=13 | b' ')
}

/// Whether the byte ends a line.
pub fn is_line_end(byte: u8) -> bool
    ensures { result ≡ is_line_end byte }
{
    byte == b'\n'
}

/// Whether a word may begin with the byte: a letter or an underscore.
pub fn is_letter(byte: u8) -> bool
    ensures { result ≡ is_letter byte }
{
    byte.is_ascii_alphabetic() || byte == b'_'
}

/// Whether the byte may be in a word: a letter, an underscore or a decimal digit.
pub fn is_word_byte(byte: u8) -> bool
    ensures { result ≡ is_word_byte byte }
{
    is_letter(byte) || byte.is_ascii_digit()
}

/// Whether the byte may be in a number: one of a word, or a dot.
pub fn is_number_byte(byte: u8) -> bool
    ensures { result ≡ is_number_byte byte }
{
    is_word_byte(byte) || byte == b'.'
}

/// The value of a digit or a letter, from 0 to 35, and 36 for any other byte.
pub fn digit_value(byte: u8) -> u8
    ensures value { result ≡ digit_value byte }
    ensures small { result ≤ 36 }
{
    match byte {
        b'0'..=b'9' => byte - b'0',
        b'A'..=b'Z' => byte - b'A' + 10,
        b'a'..=b'z' => byte - b'a' + 10,
        _ => 36,
    }
}

/// Whether the byte is a digit of the base, in either case of letter.
pub fn is_digit(byte: u8, base: u8) -> bool
    ensures { result ≡ is_digit byte base }
{
    digit_value(byte) < base
}
