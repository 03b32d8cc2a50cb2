//! The reasons why no scalar begins a text.
ghost use Rattle.toml_ordered.specs.Places.{IsReworded};
ghost use Rattle.toml_ordered.specs.Reading.{fault_of};

use crate::fault::{Fault, not_toml};
use crate::syntax::SyntaxError;
use std::alloc::Global;
use toml_parser::bytes::{byte_at, is_word};
use toml_parser::{ErrorKind, ParseError, unquoted};

/// Returns why no scalar begins the text, which `toml_parser` refuses with this error. (A space before a digit may join a date and a time,
/// so that `toml_parser` refuses `1 2` as a whole: here `1` is a value, and `2` is wrong.)
#[cold]
pub(crate) fn refused_scalar(alloc: Global, s: &str, error: ParseError) -> Fault
    ensures { IsReworded (fault_of error) result }
{
    let kind = match error {
        ParseError::OutOfMemory => return Fault::Memory,
        ParseError::At(kind, _, _) => kind,
    };
    let bytes = s.as_bytes();
    let len = word_len(bytes);
    let is_whole = kind == ErrorKind::Datetime && is_date_and_time(bytes, len);
    if is_whole || !is_joined(bytes, len) {
        return not_toml(s, scalar_error(kind, bytes, len));
    }
    let front = s.get(..len).unwrap_or(s);
    match unquoted(alloc, front) {
        Ok(_) => Fault::NotToml {
            left: s.len().saturating_sub(len).saturating_sub(1),
            why: SyntaxError::LineEnd,
        },
        Err(ParseError::OutOfMemory) => Fault::Memory,
        Err(ParseError::At(kind, _, _)) => not_toml(s, scalar_error(kind, bytes, len)),
    }
}

/// Returns how many bytes of a scalar begin the text.
fn word_len(s: &[u8]) -> usize {
    s.iter().take_while(|byte| is_word(**byte)).count()
}

/// Returns whether a space and a digit follow so many bytes.
fn is_joined(s: &[u8], len: usize) -> bool {
    byte_at(s, len) == b' ' && byte_at(s, len.saturating_add(1)).is_ascii_digit()
}

/// Returns whether a colon follows the digits after so many bytes and a space, and none is before.
fn is_date_and_time(s: &[u8], len: usize) -> bool {
    let date = s.get(..len).unwrap_or(s);
    let time = s.get(len.saturating_add(1)..).unwrap_or(s);
    let digits = time.iter().take_while(|byte| byte.is_ascii_digit()).count();
    byte_at(time, digits) == b':' && !date.contains(&b':')
}

/// Returns why the first bytes, so many, are no scalar.
fn scalar_error(kind: ErrorKind, s: &[u8], len: usize) -> SyntaxError {
    let word = s.get(..len).unwrap_or(s);
    if kind == ErrorKind::Overflow || (kind == ErrorKind::Value && is_wide(word)) {
        SyntaxError::WideNumber
    } else if kind == ErrorKind::Datetime {
        SyntaxError::Date
    } else if is_number_like(word) {
        SyntaxError::Number
    } else {
        SyntaxError::Value
    }
}

/// Returns whether a sign, if any, a point, if any, and a digit begin a word.
fn is_number_like(word: &[u8]) -> bool {
    let signed = matches!(byte_at(word, 0), b'+' | b'-');
    let digits = if signed { 1 } else { 0 };
    let next = byte_at(word, digits);
    next.is_ascii_digit() || (next == b'.' && byte_at(word, digits + 1).is_ascii_digit())
}

/// Returns whether a word is a prefix of another base than ten, and then digits of that base and underscores alone.
fn is_wide(word: &[u8]) -> bool {
    let digits = word.get(2..).unwrap_or(word);
    if byte_at(word, 0) != b'0' || digits.is_empty() {
        return false;
    }
    match byte_at(word, 1) {
        b'x' => digits
            .iter()
            .all(|byte| *byte == b'_' || byte.is_ascii_hexdigit()),
        b'o' => digits
            .iter()
            .all(|byte| matches!(*byte, b'_' | b'0'..=b'7')),
        b'b' => digits
            .iter()
            .all(|byte| matches!(*byte, b'_' | b'0' | b'1')),
        _ => false,
    }
}
