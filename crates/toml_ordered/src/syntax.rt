//! The reasons why a text isn't TOML, each with what it says of the bytes at its place.
ghost use Rattle.std.specs.Prelude.{◌≡◌, true};
ghost use Rattle.toml_ordered.specs.Syntax as meaning;

use std::fmt;
use toml_parser::ErrorKind;
use toml_parser::bytes::{byte_at, is_bare};

/// The reason why a text isn't TOML at a place.
#[derive(Clone, Copy, Debug, Drop, PartialEq, Eq)]
pub enum SyntaxError {
    /// None of the reasons below.
    Other,
    /// No part of a key begins here.
    Key,
    /// No key begins here, and the table in braces doesn't end.
    KeyOrEnd,
    /// No `=` is here, after a key.
    Equals,
    /// No value begins here.
    Value,
    /// No value begins here, and the array doesn't end.
    ItemOrEnd,
    /// The line goes on after a value or a header.
    LineEnd,
    /// The header isn't closed.
    Bracket,
    /// The array goes on without a comma, or isn't closed.
    CommaOrBracket,
    /// The table in braces goes on without a comma, or isn't closed.
    CommaOrBrace,
    /// The line or the text ends within a string.
    Quote,
    /// More than five quotes end a string of several lines.
    Quotes,
    /// No escape begins with this backslash.
    Escape,
    /// A control character that no TOML has.
    Control,
    /// A carriage return that no line feed follows.
    Return,
    /// No number begins here, though a sign, a digit or a point does.
    Number,
    /// A number that doesn't fit 64 bits: as an integer with a sign, or as a float.
    WideNumber,
    /// No date and no time begins here, though digits before `-` or `:` do.
    Date,
}

impl SyntaxError {
    /// Returns the words of an error.
    pub fn words(self) -> &'static str
        ensures { result.now ≡ meaning.words self }
    {
        match self {
            SyntaxError::Other => "not TOML",
            SyntaxError::Key => "expected a key",
            SyntaxError::KeyOrEnd => "expected a key or '}'",
            SyntaxError::Equals => "expected '='",
            SyntaxError::Value => "expected a value",
            SyntaxError::ItemOrEnd => "expected a value or ']'",
            SyntaxError::LineEnd => "expected the end of the line",
            SyntaxError::Bracket => "expected ']'",
            SyntaxError::CommaOrBracket => "expected ',' or ']'",
            SyntaxError::CommaOrBrace => "expected ',' or '}'",
            SyntaxError::Quote => "expected a closing quote",
            SyntaxError::Quotes => "too many quotes",
            SyntaxError::Escape => "invalid escape",
            SyntaxError::Control => "invalid control character",
            SyntaxError::Return => "a carriage return without a line feed",
            SyntaxError::Number => "invalid number",
            SyntaxError::WideNumber => "a number outside 64 bits",
            SyntaxError::Date => "invalid date or time",
        }
    }

    /// Returns the reason for a value in an array or in a table in braces; the separator is what may follow such a value.
    pub(crate) fn inside(self, separator: SyntaxError) -> SyntaxError {
        match self {
            SyntaxError::LineEnd => separator,
            SyntaxError::Value if separator == SyntaxError::CommaOrBracket => {
                SyntaxError::ItemOrEnd
            }
            other => other,
        }
    }

    /// Returns the reason for a key of a table in braces, which may end instead.
    pub(crate) fn in_braces(self) -> SyntaxError {
        match self {
            SyntaxError::Key => SyntaxError::KeyOrEnd,
            other => other,
        }
    }
}

impl fmt::Display for SyntaxError {
    fn fmt<W: fmt::Write>(&self, formatter: &mut fmt::Formatter<W>) -> fmt::Result {
        formatter.write_str(self.words())
    }
}

/// Returns the reason of an error of `toml_parser` in a string.
pub(crate) fn string_error(kind: ErrorKind) -> SyntaxError
    ensures { result ≡ meaning.string_error kind }
{
    match kind {
        ErrorKind::String => SyntaxError::Quote,
        ErrorKind::Escape => SyntaxError::Escape,
        _ => SyntaxError::Other,
    }
}

/// Returns whether a line break begins the bytes.
fn is_newline(rest: &[u8]) -> bool
    ensures { result ≡ meaning.starts_newline rest.now }
{
    byte_at(rest, 0) == b'\n' || (byte_at(rest, 0) == b'\r' && byte_at(rest, 1) == b'\n')
}

/// Returns whether a carriage return begins the bytes, and no line feed follows it.
fn is_return(rest: &[u8]) -> bool
    ensures { result ≡ meaning.is_return rest.now }
{
    byte_at(rest, 0) == b'\r' && byte_at(rest, 1) != b'\n'
}

/// Returns whether the byte is a control character but a tab.
fn is_control(byte: u8) -> bool
    ensures { result ≡ meaning.is_control byte }
{
    (byte < 0x20 && byte != b'\t') || byte == 0x7F
}

/// Returns whether a control character begins the bytes, but a tab and a line break.
fn is_stray(rest: &[u8]) -> bool
    ensures { result ≡ meaning.is_stray rest.now }
{
    !rest.is_empty() && is_control(byte_at(rest, 0)) && !is_newline(rest)
}

/// Returns whether a quote begins the bytes.
fn is_quote(rest: &[u8]) -> bool
    ensures { result ≡ meaning.starts_string rest.now }
{
    byte_at(rest, 0) == b'"' || byte_at(rest, 0) == b'\''
}

/// Returns whether a string, an array or a table in braces begins the bytes.
fn is_opened(rest: &[u8]) -> bool
    ensures { result ≡ meaning.is_opened rest.now }
{
    is_quote(rest) || byte_at(rest, 0) == b'[' || byte_at(rest, 0) == b'{'
}

/// Returns whether the bytes are over, or go on with a comment or a line break.
fn ends_line(rest: &[u8]) -> bool
    ensures { result ≡ meaning.ends_line rest.now }
{
    rest.is_empty() || matches!(byte_at(rest, 0), b'#' | b'\n' | b'\r')
}

/// Returns whether a number may begin with this byte.
fn is_numeric(byte: u8) -> bool
    ensures { result ≡ meaning.is_numeric byte }
{
    byte.is_ascii_digit() || byte == b'+' || byte == b'-' || byte == b'.'
}

/// Returns whether a reason holds of the bytes at its place.
fn holds(why: SyntaxError, rest: &[u8]) -> bool
    ensures { result ≡ meaning.holds why rest.now }
{
    let byte = byte_at(rest, 0);
    match why {
        SyntaxError::Other => true,
        SyntaxError::Key => !is_bare(byte) && !is_quote(rest),
        SyntaxError::KeyOrEnd => !is_bare(byte) && !is_quote(rest) && byte != b'}',
        SyntaxError::Equals => byte != b'=',
        SyntaxError::Value => !is_opened(rest),
        SyntaxError::ItemOrEnd => !is_opened(rest) && byte != b']',
        SyntaxError::LineEnd => !ends_line(rest),
        SyntaxError::Bracket => byte != b']',
        SyntaxError::CommaOrBracket => byte != b',' && byte != b']',
        SyntaxError::CommaOrBrace => byte != b',' && byte != b'}',
        SyntaxError::Quote => rest.is_empty() || is_newline(rest),
        SyntaxError::Quotes => is_quote(rest),
        SyntaxError::Escape => byte == b'\\',
        SyntaxError::Control => is_stray(rest),
        SyntaxError::Return => is_return(rest),
        SyntaxError::Number | SyntaxError::WideNumber => is_numeric(byte),
        SyntaxError::Date => byte.is_ascii_digit(),
    }
}

/// Returns the reason at a place, by the bytes there: this one, unless another is plain.
fn by_bytes(why: SyntaxError, rest: &[u8]) -> SyntaxError {
    if is_return(rest) {
        SyntaxError::Return
    } else if is_stray(rest) {
        SyntaxError::Control
    } else if why == SyntaxError::Quote && is_quote(rest) {
        SyntaxError::Quotes
    } else {
        why
    }
}

/// Returns a reason that holds of the bytes at its place: this one if it does.
pub(crate) fn settled(why: SyntaxError, rest: &[u8]) -> SyntaxError
    ensures { meaning.holds result rest.now ≡ true }
{
    let found = by_bytes(why, rest);
    if holds(found, rest) {
        found
    } else {
        SyntaxError::Other
    }
}
