//! The escapes of characters between double quotes (YAML 1.1, section 5.6).
ghost use Rattle.std.specs.Prelude.{◌≡◌, ◌∷◌, ◌%◌, ◌<◌, Bool, None};
ghost use Rattle.yaml_base.specs.Characters as class;
ghost use Rattle.yaml_base.specs.scalars.DoubleQuoted as spec;
ghost use Rattle.yaml_scalar.specs.EscapeBytes.{escape_bytes};

use crate::classes::{BREAK, ESCAPED, UNPRINTABLE, is_free};
use yaml_base::{hex_digit, is_ascii, is_break, is_printable};

/// An escape by its number of characters, all of ASCII.
#[derive(Clone, Copy)]
pub(crate) enum Escape {
    /// A backslash and a letter.
    Letter([u8; 2]),
    /// A backslash, `x` and two digits.
    Two([u8; 4]),
    /// A backslash, `u` and four digits.
    Four([u8; 6]),
    /// A backslash, `U` and eight digits.
    Eight([u8; 10]),
}

/// Returns whether a character is unprintable, beyond ASCII with `unicode` off, a break, the quote or the backslash.
pub(crate) fn needs_escape(c: char, unicode: bool) -> bool
    ensures { result ≡ spec.needs_escape unicode c }
{
    if is_ascii(c) {
        is_escaped_byte(c as u8)
    } else {
        !unicode || !is_printable(c) || is_break(c)
    }
}

/// Returns whether a byte of ASCII is unprintable, a break, the quote or the backslash.
fn is_escaped_byte(byte: u8) -> bool
    requires { byte < 128 }
    ensures { (unicode : Bool) → result ≡ spec.needs_escape unicode byte }
{
    !is_free(byte, BREAK | UNPRINTABLE | ESCAPED)
}

/// Returns a backslash and the letter of the character if it has one, else its number.
#[inline(always)]
pub(crate) fn escape_of(c: char) -> Escape
    ensures { escape_bytes result ≡ spec.escape_text c }
{
    match escape_letter(c) {
        Some(letter) => Escape::Letter([b'\\', letter]),
        None => number_escape(c as u32),
    }
}

/// Returns the letter of a character that has an escape of one letter (YAML 1.1, section 5.6).
fn escape_letter(c: char) -> Option<u8>
    ensures { result ≡ spec.letter_among spec.short_escapes c }
{
    let letter = match c {
        '\0' => b'0',
        '\u{7}' => b'a',
        '\u{8}' => b'b',
        '\t' => b't',
        '\n' => b'n',
        '\u{B}' => b'v',
        '\u{C}' => b'f',
        '\r' => b'r',
        '\u{1B}' => b'e',
        '"' => b'"',
        '\\' => b'\\',
        '\u{85}' => b'N',
        '\u{A0}' => b'_',
        '\u{2028}' => b'L',
        '\u{2029}' => b'P',
        _ => return None,
    };
    Some(letter)
}

/// Returns an escape by number, with two, four or eight digits.
fn number_escape(n: u32) -> Escape
    ensures { escape_bytes result ≡ class.backslash ∷ spec.escape_after_backslash None n }
{
    if n <= 0xFF {
        Escape::Two([b'\\', b'x', digit_at(n / 16), digit_at(n)])
    } else if n <= 0xFFFF {
        Escape::Four([
            b'\\',
            b'u',
            digit_at(n / 16 / 16 / 16),
            digit_at(n / 16 / 16),
            digit_at(n / 16),
            digit_at(n),
        ])
    } else {
        Escape::Eight([
            b'\\',
            b'U',
            digit_at(n / 16 / 16 / 16 / 16 / 16 / 16 / 16),
            digit_at(n / 16 / 16 / 16 / 16 / 16 / 16),
            digit_at(n / 16 / 16 / 16 / 16 / 16),
            digit_at(n / 16 / 16 / 16 / 16),
            digit_at(n / 16 / 16 / 16),
            digit_at(n / 16 / 16),
            digit_at(n / 16),
            digit_at(n),
        ])
    }
}

/// Returns the last hexadecimal digit of a number.
fn digit_at(n: u32) -> u8
    ensures { result ≡ class.hex_digit (n % 16) }
{
    hex_digit((n % 16) as u8)
}
