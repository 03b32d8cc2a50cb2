//! Tags, verbatim or after a handle, each in its one spelling.
ghost use Rattle.std.specs.Prelude.{◌≡◌, List, IsTrue, chars, is_some, nat_lt, ℕ};
ghost use Rattle.std.specs.List.{list_all};
ghost use Rattle.yaml_base.specs.Percent.{is_tag_character};
ghost use Rattle.yaml_base.specs.Seen.{seen_text};
ghost use Rattle.yaml_base.specs.Tags.{behind};
ghost use Rattle.yaml_read.specs.Beginnings.{IsEscapedRead, IsTagRead, NoEscaped, NoTag, ReadOr};
ghost use Rattle.yaml_read.specs.WrittenTags.{ByteRead, OpensTag, is_spelled_by};

use crate::cuts::{after, first, past};
use crate::errors::{Stop, refused_at};
use crate::quoted::read_two_digits;
use std::alloc::Allocator;

/// Returns whether a character is written as itself in a tag.
fn is_tag_character(c: char) -> bool
    ensures { result ≡ is_tag_character c }
{
    matches!(
        c,
        '0'..='9' | 'A'..='Z' | 'a'..='z' | '_' | '-' | ';' | '/' | '?' | ':' | '@'
            | '&' | '=' | '+' | '$' | ',' | '.' | '~' | '*' | '\'' | '(' | ')' | '[' | ']'
    )
}

/// Returns the first byte of a written tag, which is written as itself or as its percent form, and the rest.
fn read_byte(text: &str) -> Option<(u8, &str)>
    ensures { ByteRead text.now result }
{
    match first(text) {
        Some((c, rest)) => {
            if c == '%' {
                match read_two_digits(rest) {
                    Some((number, behind)) => {
                        let byte = number as u8;
                        if is_tag_character(byte as char) {
                            None
                        } else {
                            Some((byte, behind))
                        }
                    }
                    None => None,
                }
            } else if is_tag_character(c) {
                Some((c as u8, rest))
            } else {
                None
            }
        }
        None => None,
    }
}

/// Returns a text that begins with a prefix, which is ASCII, and goes on as percent forms spell, up to where none follows, and what does.
fn read_escaped<'a, A: Allocator>(
    alloc: A,
    prefix: &'static str,
    text: &'a str,
) -> Result<(String<A>, &'a str), Stop>
    requires { IsTrue (list_all (λ byte. nat_lt byte 128) prefix.now) }
    ensures { ReadOr (λ found. IsEscapedRead prefix.now text.now (seen_text found.0) found.1.now) (NoEscaped text.now) result }
{
    let mut bytes = match Vec::from_slice(alloc, prefix.as_bytes()) {
        Ok(bytes) => bytes,
        Err(_) => return Err(Stop::Memory),
    };
    let mut rest = text;
    'bytes: loop {
        match read_byte(rest) {
            Some((byte, next)) => match bytes.push(byte) {
                Ok(()) => rest = next,
                Err(_) => return Err(Stop::Memory),
            },
            None => match String::from_utf8(bytes) {
                Ok(value) => return Ok((value, rest)),
                Err(_) => return Err(refused_at(text)),
            },
        }
    }
}

/// Returns whether a text begins with a prefix, which is ASCII, and goes on.
fn goes_on(text: &str, prefix: &'static str) -> bool
    requires { IsTrue (list_all (λ byte. nat_lt byte 128) prefix.now) }
    ensures { result ≡ is_some (behind prefix.now (chars text.now)) }
{
    match past(text, prefix) {
        Some(rest) => !rest.is_empty(),
        None => false,
    }
}

/// Returns whether a tag is written after the handle for a prefix, which is ASCII: the tag begins with the prefix, and goes on. For an
/// empty prefix, returns whether it is written as a whole: it has a character, and goes on from the prefix of no handle.
fn is_spelled_by(tag: &str, prefix: &'static str) -> bool
    requires { IsTrue (list_all (λ byte. nat_lt byte 128) prefix.now) }
    ensures { result ≡ is_spelled_by prefix.now (chars tag.now) }
{
    if !prefix.is_empty() {
        return goes_on(tag, prefix);
    }
    if tag.is_empty() {
        return false;
    }
    if goes_on(tag, "!") {
        return false;
    }
    !goes_on(tag, "tag:yaml.org,2002:")
}

/// Returns a tag that is written after the handle for a prefix, which is ASCII, and what follows the tag's end.
fn read_spelled<'a, A: Allocator>(
    alloc: A,
    prefix: &'static str,
    end: &'static str,
    text: &'a str,
) -> Result<(String<A>, &'a str), Stop>
    requires { IsTrue (list_all (λ byte. nat_lt byte 128) prefix.now) }
    ensures { (whole : List ℕ) → OpensTag whole prefix.now end.now text.now
        → ReadOr (λ found. IsTagRead whole (seen_text found.0) found.1.now) (NoTag whole) result }
{
    match read_escaped(alloc, prefix, text) {
        Ok((tag, behind)) => match after(behind, end) {
            Ok(rest) => {
                if is_spelled_by(tag.as_str(), prefix) {
                    Ok((tag, rest))
                } else {
                    Err(refused_at(behind))
                }
            }
            Err(stop) => Err(stop),
        },
        Err(stop) => Err(stop),
    }
}

/// Returns a tag and what follows the space after it.
pub(crate) fn read_written_tag<A: Allocator + Copy>(
    alloc: A,
    text: &str,
) -> Result<(String<A>, &str), Stop>
    ensures { ReadOr (λ found. IsTagRead text.now (seen_text found.0) found.1.now) (NoTag text.now) result }
{
    match past(text, "!<") {
        Some(inside) => return read_spelled(alloc, "", "> ", inside),
        None => {}
    }
    match past(text, "!!") {
        Some(inside) => return read_spelled(alloc, "tag:yaml.org,2002:", " ", inside),
        None => {}
    }
    match after(text, "!") {
        Ok(inside) => read_spelled(alloc, "!", " ", inside),
        Err(stop) => Err(stop),
    }
}
