//! Words of a JSON text (RFC 8259, sections 3 and 6): numbers, and the names of three values. Each part of a number has a
//! function, which takes a text and the part's place, and returns the place after the part.
ghost use Rattle.std.specs.Prelude.{◌≡◌, ◌≢◌, ℕ, ◌+◌, ◌<◌, ◌≤◌, ◌||◌, Bool, IfSome, drop, length, map};
ghost use Rattle.std.specs.Char.{is_ascii_digit};
ghost use Rattle.std.specs.List.{prefix_len};
ghost use Rattle.std.specs.Simd.Lanes.{mask_l};
ghost use Rattle.json.specs.Reads.{token_of};
ghost use Rattle.json.specs.Word.{after_digits, after_exponent, after_fraction, after_number, after_sign, after_whole, ends_word, head};
ghost use Rattle.json.specs.Word.{is_operator, is_space, literal, number_before, word};
ghost use Rattle.json.specs.Token.{bad};
ghost use Rattle.yaml_json.specs.Lexing.{EndsWord};
ghost use Rattle.yaml_json.specs.Lexemes.{IsInWord, LeavesAt, ReadsWord, is_no_digit};

use json::Token;
use std::simd::prelude::*;

/// Returns the byte at a place of a text; past the text's end, a blank.
pub(crate) fn byte_at(text: &[u8], at: usize) -> u8
    ensures { result ≡ head (drop at text.now) }
{
    if at < text.len() { text[at] } else { b' ' }
}

pub(crate) fn is_blank(byte: u8) -> bool
    ensures { result ≡ is_space byte }
{
    byte <= b' ' && ((byte == b' ') | (byte == b'\n') | (byte == b'\r') | (byte == b'\t'))
}

pub(crate) fn is_operator(byte: u8) -> bool
    ensures { result ≡ is_operator byte }
{
    (byte == b',')
        | (byte == b'}')
        | (byte == b']')
        | (byte == b'{')
        | (byte == b'[')
        | (byte == b':')
}

/// Returns whether a word ends before this byte.
pub(crate) fn is_delimiter(byte: u8) -> bool
    ensures { result ≡ (is_operator byte || is_space byte) }
{
    is_operator(byte) || is_blank(byte)
}

/// Returns the bytes of a vector that are no digits.
fn no_digits(bytes: u8x16) -> u64
    ensures { result ≡ mask_l (map is_no_digit bytes) }
{
    (bytes ^ u8x16::splat(b'0'))
        .simd_gt(u8x16::splat(9))
        .to_bitmask()
}

/// Returns the end of the digits that begin at a place. A vector holds most runs of them.
fn past_digits(text: &[u8], from: usize) -> usize
    requires { from ≤ length text.now }
    ensures run { result ≡ from + prefix_len is_ascii_digit (drop from text.now) }
    ensures within { result ≤ length text.now }
{
    if text.len() - from >= 16 {
        let found = no_digits(u8x16::from_slice(&text[from..]));
        if found != 0 {
            return from + found.trailing_zeros() as usize;
        }
    }
    let mut at = from;
    'digits: while at < text.len() && text[at].is_ascii_digit() {
        at += 1;
    }
    at
}

/// Returns the end of the digits, one or more, that begin at a place.
fn digits_end(text: &[u8], from: usize) -> Option<usize>
    requires { from ≤ length text.now }
    ensures { LeavesAt text.now result (after_digits (drop from text.now)) }
{
    let end = past_digits(text, from);
    if end > from { Some(end) } else { None }
}

/// Returns the end of the integer of a number: one zero, or digits.
pub(crate) fn integer_end(text: &[u8], from: usize) -> Option<usize>
    requires { from ≤ length text.now }
    ensures { LeavesAt text.now result (after_whole (drop from text.now)) }
{
    match byte_at(text, from) {
        b'0' => Some(from + 1),
        _ => digits_end(text, from),
    }
}

/// Returns the end of the fraction of a number, which may be missing.
pub(crate) fn fraction_end(text: &[u8], from: usize) -> Option<usize>
    requires { from ≤ length text.now }
    ensures { LeavesAt text.now result (after_fraction (drop from text.now)) }
{
    match byte_at(text, from) {
        b'.' => digits_end(text, from + 1),
        _ => Some(from),
    }
}

/// Returns the end of the sign and the digits of an exponent.
fn power_end(text: &[u8], from: usize) -> Option<usize>
    requires { from ≤ length text.now }
    ensures { LeavesAt text.now result (after_digits (after_sign (drop from text.now))) }
{
    match byte_at(text, from) {
        b'+' | b'-' => digits_end(text, from + 1),
        _ => digits_end(text, from),
    }
}

/// Returns the end of the exponent of a number, which may be missing.
pub(crate) fn exponent_end(text: &[u8], from: usize) -> Option<usize>
    requires { from ≤ length text.now }
    ensures { LeavesAt text.now result (after_exponent (drop from text.now)) }
{
    match byte_at(text, from) {
        b'E' | b'e' => power_end(text, from + 1),
        _ => Some(from),
    }
}

/// Returns the end of the number that a text begins with: a minus or none, an integer, a fraction and an exponent (RFC 8259, section 6).
fn number_end(text: &[u8]) -> Option<usize>
    ensures { LeavesAt text.now result (after_number text.now) }
{
    let sign = if byte_at(text, 0) == b'-' { 1 } else { 0 };
    let integer = integer_end(text, sign)?;
    let fraction = fraction_end(text, integer)?;
    exponent_end(text, fraction)
}

/// Returns the number that a text begins with, and the rest.
fn number<'a>(text: &'a str) -> Option<(Token<'a>, &'a str)>
    ensures reads { ReadsWord text.now (number_before text.now (after_number text.now)) result }
    ensures over { IfSome result (λ part. EndsWord text.now part.1.now) }
{
    let bytes = text.as_bytes();
    match number_end(bytes) {
        Some(end) => {
            if is_delimiter(byte_at(bytes, end)) {
                Some((Token::Number(&text[..end]), &text[end..]))
            } else {
                None
            }
        }
        None => None,
    }
}

/// Returns this token if a text begins with its name, and the rest.
fn literal<'a>(text: &'a str, name: &[u8], token: Token<'a>) -> Option<(Token<'a>, &'a str)>
    requires name { IsInWord name.now }
    requires good { token_of token ≢ bad }
    ensures reads { ReadsWord text.now (literal name.now (token_of token.entry) text.now) result }
    ensures over { IfSome result (λ part. EndsWord text.now part.1.now) }
{
    let bytes = text.as_bytes();
    if bytes.starts_with(name) && is_delimiter(byte_at(bytes, name.len())) {
        Some((token, &text[name.len()..]))
    } else {
        None
    }
}

/// Returns the token of the word that a text begins with, and the rest; `None` if the word is no token.
#[inline(always)]
pub(crate) fn word<'a>(text: &'a str) -> Option<(Token<'a>, &'a str)>
    ensures reads { ReadsWord text.now (word text.now) result }
    ensures over { IfSome result (λ part. EndsWord text.now part.1.now) }
{
    match byte_at(text.as_bytes(), 0) {
        b't' => literal(text, b"true", Token::Bool(true)),
        b'f' => literal(text, b"false", Token::Bool(false)),
        b'n' => literal(text, b"null", Token::Null),
        _ => number(text),
    }
}
