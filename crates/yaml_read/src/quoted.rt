//! Texts between double quotes, in their one spelling.
ghost use Rattle.std.specs.Prelude.{◌≡◌, ◌∷◌, ◌≤◌, [], true, Some, None, IfSome, is_some};
ghost use Rattle.std.specs.Str.{all_scalars};
ghost use Rattle.yaml_base.specs.Characters.{hex_digit, hex_digits};
ghost use Rattle.yaml_base.specs.reading.ReadDouble.{digit_meaning, letter_meaning};
ghost use Rattle.yaml_base.specs.scalars.DoubleQuoted as double;
ghost use Rattle.yaml_read.specs.Digits.{DigitsRead};
ghost use Rattle.yaml_read.specs.Sound.{CharacterRead, EscapeRead, NumberRead};
ghost use Rattle.yaml_read.specs.Stepped.{QuotedRead};

use crate::cuts::{after, first, past};
use crate::errors::{Stop, refused_at};
use std::alloc::Allocator;
use yaml_base::{is_break, is_printable};

/// Returns whether a character may not be written as itself.
fn needs_escape(c: char) -> bool
    ensures { result ≡ double.needs_escape true c }
{
    !is_printable(c) || is_break(c) || c == '"' || c == '\\'
}

/// Returns the character that a letter after a backslash means.
fn unescape_letter(letter: char) -> Option<char>
    ensures { result ≡ letter_meaning letter }
{
    let character = match letter {
        '0' => '\0',
        'a' => '\u{7}',
        'b' => '\u{8}',
        't' => '\t',
        'n' => '\n',
        'v' => '\u{B}',
        'f' => '\u{C}',
        'r' => '\r',
        'e' => '\u{1B}',
        '"' => '"',
        '\\' => '\\',
        'N' => '\u{85}',
        '_' => '\u{A0}',
        'L' => '\u{2028}',
        'P' => '\u{2029}',
        ' ' => ' ',
        _ => return None,
    };
    Some(character)
}

/// Returns whether a character has an escape of one letter.
fn has_letter(c: char) -> bool
    ensures { result ≡ is_some (double.letter_among double.short_escapes c) }
{
    matches!(
        c,
        '\0' | '\u{7}'..='\r'
            | '\u{1B}'
            | '"'
            | '\\'
            | '\u{85}'
            | '\u{A0}'
            | '\u{2028}'
            | '\u{2029}'
    )
}

/// Returns the value of a hexadecimal digit in upper case.
fn digit_of(c: char) -> Option<u32>
    ensures { result ≡ digit_meaning c }
{
    match c {
        '0'..='9' => Some(c as u32 - '0' as u32),
        'A'..='F' => Some(c as u32 - 'A' as u32 + 10),
        _ => None,
    }
}

/// Returns a hexadecimal digit, and what follows.
fn read_digit(text: &str) -> Option<(u32, &str)>
    ensures { DigitsRead 16 (λ d. hex_digit d ∷ []) text.now result }
{
    match first(text) {
        Some((c, rest)) => match digit_of(c) {
            Some(digit) => Some((digit, rest)),
            None => None,
        },
        None => None,
    }
}

/// Returns a number of two hexadecimal digits, and what follows.
pub(crate) fn read_two_digits(text: &str) -> Option<(u32, &str)>
    ensures { DigitsRead 256 (hex_digits 2) text.now result }
{
    match read_digit(text) {
        Some((upper, behind)) => match read_digit(behind) {
            Some((lower, rest)) => Some((upper * 16 + lower, rest)),
            None => None,
        },
        None => None,
    }
}

/// Returns a number of four hexadecimal digits, and what follows.
fn read_four_digits(text: &str) -> Option<(u32, &str)>
    ensures { DigitsRead 65536 (hex_digits 4) text.now result }
{
    match read_two_digits(text) {
        Some((upper, behind)) => match read_two_digits(behind) {
            Some((lower, rest)) => Some((upper * 256 + lower, rest)),
            None => None,
        },
        None => None,
    }
}

/// Returns the character of a number. It has no shorter escape, and may not be written as itself.
fn character_of(number: u32, least: u32) -> Option<char>
    ensures reads { all_scalars (number ∷ []) ≡ true → least ≤ number → double.needs_escape true number ≡ true
        → double.letter_among double.short_escapes number ≡ None → result ≡ Some number }
    ensures sound { IfSome result (λ c. (c ≡ number) × (least ≤ number) × (double.needs_escape true number ≡ true)
        × (double.letter_among double.short_escapes number ≡ None) × (all_scalars (number ∷ []) ≡ true)) }
{
    let c = char::from_u32(number)?;
    let is_shortest = number >= least && !has_letter(c);
    if is_shortest && needs_escape(c) {
        Some(c)
    } else {
        None
    }
}

/// Returns the character of a number that was read, and what follows.
fn read_number<'a>(found: Option<(u32, &'a str)>, least: u32) -> Option<(char, &'a str)>
    ensures { NumberRead least found.entry result }
{
    match found {
        Some(read) => match character_of(read.0, least) {
            Some(c) => Some((c, read.1)),
            None => None,
        },
        None => None,
    }
}

/// Returns the character of what follows a backslash.
fn read_escape(text: &str) -> Option<(char, &str)>
    ensures { EscapeRead text.now result }
{
    match first(text) {
        Some((letter, rest)) => {
            if letter == 'x' {
                read_number(read_two_digits(rest), 0)
            } else if letter == 'u' {
                read_number(read_four_digits(rest), 0x100)
            } else {
                match unescape_letter(letter) {
                    Some(c) => {
                        if needs_escape(c) {
                            Some((c, rest))
                        } else {
                            None
                        }
                    }
                    None => None,
                }
            }
        }
        None => None,
    }
}

/// Returns a character between quotes, as itself or as its escape, and what follows.
fn read_character(text: &str) -> Option<(char, &str)>
    ensures { CharacterRead text.now result }
{
    match first(text) {
        Some((c, rest)) => {
            if c == '\\' {
                read_escape(rest)
            } else if needs_escape(c) {
                None
            } else {
                Some((c, rest))
            }
        }
        None => None,
    }
}

/// Returns a text from its opening quote on, and what follows its closing quote.
pub(crate) fn read_quoted<A: Allocator>(alloc: A, text: &str) -> Result<(String<A>, &str), Stop>
    ensures { QuotedRead text.now result }
{
    let mut rest = match after(text, "\"") {
        Ok(rest) => rest,
        Err(stop) => return Err(stop),
    };
    let mut value = String::new(alloc);
    'characters: loop {
        match past(rest, "\"") {
            Some(end) => return Ok((value, end)),
            None => {}
        }
        match read_character(rest) {
            Some((c, next)) => match value.push(c) {
                Ok(()) => rest = next,
                Err(_) => return Err(Stop::Memory),
            },
            None => return Err(refused_at(rest)),
        }
    }
}
