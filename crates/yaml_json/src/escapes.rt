//! The content of a string with escapes (RFC 8259, section 7).
ghost use Rattle.std.specs.Prelude.{◌≡◌, ℕ, ◌<◌, ◌≤◌, ◌+◌, ◌*◌, ◌&&◌, false, true, None, Some, MatchOption, IfOk, IfSome, drop, is_some, get_or, length};
ghost use Rattle.std.specs.Char.{digit_value, is_digit};
ghost use Rattle.std.specs.Str.{IsCharBoundary};
ghost use Rattle.std.specs.String.{string_bytes};
ghost use Rattle.json.specs.Text.{after_backslash, after_u, content, plain, short_escape};
ghost use Rattle.yaml_json.specs.Faults.{begins_low};
ghost use Rattle.yaml_json.specs.Lexemes.{IsSecondHalf, Unescapes, first_unit};

use crate::lexemes::plain_end;
use std::alloc::{AllocError, Allocator};

/// Returns the byte that two hexadecimal digits spell.
fn hex_byte(first: u8, second: u8) -> Option<u32>
    ensures value { MatchOption result ((is_digit first 16 && is_digit second 16) ≡ false)
        (λ byte. (is_digit first 16 ≡ true) × (is_digit second 16 ≡ true) × (byte ≡ digit_value first * 16 + digit_value second)) }
    ensures bounds { IfSome result (λ byte. (byte < 256) × (second < 128)) }
{
    let high = char::from(first).to_digit(16)?;
    let low = char::from(second).to_digit(16)?;
    Some(high * 16 + low)
}

/// Returns the UTF-16 code unit that four hexadecimal digits at the front of a text spell.
pub(crate) fn code_unit(text: &[u8]) -> Option<u32>
    ensures value { result ≡ first_unit text.now }
    ensures bounds { IfSome result (λ unit. (unit < 65536) × (4 ≤ length text.now) × (get_or text.now 3 0 < 128)) }
{
    if text.len() < 4 {
        return None;
    }
    let high = hex_byte(text[0], text[1])?;
    let low = hex_byte(text[2], text[3])?;
    Some(high * 256 + low)
}

/// Returns the second half of a surrogate pair, if a text begins with an escape of one.
pub(crate) fn second_half(text: &[u8]) -> Option<u32>
    ensures half { IsSecondHalf text.now result }
    ensures found { is_some result ≡ begins_low text.now }
{
    if text.len() < 6 {
        return None;
    }
    if (text[0] != b'\\') | (text[1] != b'u') {
        return None;
    }
    let unit = code_unit(&text[2..])?;
    if (unit < 0xdc00) | (unit > 0xdfff) {
        None
    } else {
        Some(unit)
    }
}

/// Returns the character that the hexadecimal digits after `\u` spell, and the number of bytes up to its end. A character past
/// U+FFFF is spelled by a surrogate pair: two escapes.
fn spelled_character(text: &[u8]) -> Option<(char, usize)>
    ensures { Unescapes after_u text.now result }
{
    let unit = code_unit(text)?;
    if (unit < 0xd800) | (unit > 0xdbff) {
        let character = char::from_u32(unit)?;
        return Some((character, 4));
    }
    let low = second_half(&text[4..])?;
    let character = char::from_u32(0x10000 + (unit - 0xd800) * 1024 + (low - 0xdc00))?;
    Some((character, 10))
}

/// Returns the character that a letter means after a backslash. `u` is none of them.
pub(crate) fn letter_meaning(letter: u8) -> Option<char>
    ensures value { result ≡ short_escape letter }
    ensures ascii { IfSome result (λ character. (character < 128) × (letter < 128)) }
{
    let character = match letter {
        b'n' => '\n',
        b't' => '\t',
        b'r' => '\r',
        b'b' => '\u{8}',
        b'f' => '\u{c}',
        b'/' | b'"' | b'\\' => char::from(letter),
        _ => return None,
    };
    Some(character)
}

/// Returns the character of an escape, by the text after its backslash, and the number of bytes of the escape after the backslash.
fn escape(text: &[u8]) -> Option<(char, usize)>
    ensures { Unescapes after_backslash text.now result }
{
    if text.is_empty() {
        return None;
    }
    if text[0] == b'u' {
        let (character, size) = spelled_character(&text[1..])?;
        return Some((character, size + 1));
    }
    let character = letter_meaning(text[0])?;
    Some((character, 1))
}

/// Returns the content that begins at a place, up to its quote; `None` if it is no content of a string.
pub(crate) fn unescape<A: Allocator + Copy>(
    alloc: A,
    text: &str,
    from: usize,
) -> Result<Option<String<A>>, AllocError>
    requires { IsCharBoundary text.now from }
    ensures { IfOk result (λ found. MatchOption found (content plain (drop from text.now) ≡ None)
        (λ string. content plain (drop from text.now) ≡ Some (string_bytes string))) }
{
    let bytes = text.as_bytes();
    let mut string = String::new(alloc);
    let mut at = from;
    'runs: loop {
        let stop = plain_end(bytes, at);
        string.push_str(&text[at..stop])?;
        if stop == bytes.len() {
            return Ok(None);
        }
        if bytes[stop] == b'"' {
            return Ok(Some(string));
        }
        if bytes[stop] != b'\\' {
            return Ok(None);
        }
        match escape(&bytes[stop + 1..]) {
            None => return Ok(None),
            Some((character, size)) => {
                string.push(character)?;
                at = stop + 1 + size;
            }
        }
    }
}
