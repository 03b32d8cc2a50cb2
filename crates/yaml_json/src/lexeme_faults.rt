//! The first fault of a string or of a number that isn't possible at its place. It is looked for after an error, and needs no memory.
ghost use Rattle.std.specs.Prelude.{◌≡◌, ◌+◌, ◌<◌, ◌≤◌, IfOk, drop, get_or, length};
ghost use Rattle.json.specs.Text.{is_high_surrogate, is_low_surrogate};
ghost use Rattle.yaml_json.specs.Lexemes.{first_unit};
ghost use Rattle.yaml_json.specs.Faults as meaning;

use crate::escapes::{code_unit, letter_meaning, second_half};
use crate::expecting::{Expected, expected_at};
use crate::words::{byte_at, exponent_end, fraction_end, integer_end};

fn is_high(unit: u32) -> bool
    ensures { result ≡ is_high_surrogate unit }
{
    unit >= 0xd800 && unit < 0xdc00
}

fn is_low(unit: u32) -> bool
    ensures { result ≡ is_low_surrogate unit }
{
    unit >= 0xdc00 && unit < 0xe000
}

/// Returns the size of an escape without its backslash, by the text after `\u`; or its fault.
fn unit_size(text: &[u8]) -> Result<usize, Expected>
    ensures { result ≡ meaning.unit_size (first_unit text.now) (drop 4 text.now) }
{
    let Some(unit) = code_unit(text) else {
        return Err(Expected::Escape);
    };
    if is_high(unit) {
        match second_half(&text[4..]) {
            Some(_) => Ok(11),
            None => Err(Expected::Surrogate),
        }
    } else if is_low(unit) {
        Err(Expected::Surrogate)
    } else {
        Ok(5)
    }
}

/// Returns the size of an escape by the text after its backslash, or its fault.
fn escape_size(text: &[u8]) -> Result<usize, Expected>
    ensures { result ≡ meaning.escape_size text.now }
{
    if text.is_empty() {
        return Ok(0);
    }
    if text[0] == b'u' {
        return unit_size(&text[1..]);
    }
    match letter_meaning(text[0]) {
        Some(_) => Ok(1),
        None => Err(Expected::Escape),
    }
}

/// Returns the number of bytes that belong to the byte at a place of a string's content, or its fault.
fn size_after(text: &[u8], at: usize) -> Result<usize, Expected>
    requires { at < length text.now }
    ensures value { result ≡ meaning.size_after (get_or text.now at 0) (drop (at + 1) text.now) }
    ensures within { IfOk result (λ size. at + 1 + size ≤ length text.now) }
{
    let byte = text[at];
    if byte == b'\\' {
        escape_size(&text[at + 1..])
    } else if byte < b' ' {
        Err(Expected::Control)
    } else {
        Ok(0)
    }
}

/// Returns the first fault of a string, whose content begins at a place.
fn string_fault(text: &[u8], from: usize) -> Option<(Expected, usize)>
    requires { from ≤ length text.now }
    ensures { meaning.FaultsAt text.now result (meaning.content_fault 0 (drop from text.now)) }
{
    let mut at = from;
    'characters: while at < text.len() && text[at] != b'"' {
        match size_after(text, at) {
            Ok(size) => at += 1 + size,
            Err(fault) => return Some((fault, at)),
        }
    }
    if at < text.len() {
        None
    } else {
        Some((Expected::Quote, at))
    }
}

/// Returns the fault of the exponent of a number, which may be missing.
fn exponent_fault(text: &[u8], at: usize) -> Option<(Expected, usize)>
    requires { at ≤ length text.now }
    ensures { meaning.FaultsAt text.now result (meaning.exponent_fault (drop at text.now)) }
{
    match exponent_end(text, at) {
        Some(_) => None,
        None => {
            let sign = at + 1;
            let digits = match byte_at(text, sign) {
                b'+' | b'-' => sign + 1,
                _ => sign,
            };
            Some((Expected::Digit, digits))
        }
    }
}

/// Returns the first fault of the fraction of a number, which may be missing, and of its exponent.
fn fraction_fault(text: &[u8], at: usize) -> Option<(Expected, usize)>
    requires { at ≤ length text.now }
    ensures { meaning.FaultsAt text.now result (meaning.fraction_fault (drop at text.now)) }
{
    match fraction_end(text, at) {
        Some(end) => exponent_fault(text, end),
        None => Some((Expected::Digit, at + 1)),
    }
}

/// Returns the first fault of a number from its integer on.
fn integer_fault(text: &[u8], at: usize) -> Option<(Expected, usize)>
    requires { at ≤ length text.now }
    ensures { meaning.FaultsAt text.now result (meaning.integer_fault (drop at text.now)) }
{
    if byte_at(text, at) == b'0' && byte_at(text, at + 1).is_ascii_digit() {
        return Some((Expected::LeadingZero, at));
    }
    match integer_end(text, at) {
        Some(end) => fraction_fault(text, end),
        None => Some((Expected::Digit, at)),
    }
}

/// Returns the first fault of a number.
fn number_fault(text: &[u8], at: usize) -> Option<(Expected, usize)>
    requires { at ≤ length text.now }
    ensures { meaning.FaultsAt text.now result (meaning.number_fault (drop at text.now)) }
{
    if byte_at(text, at) == b'-' {
        integer_fault(text, at + 1)
    } else {
        integer_fault(text, at)
    }
}

fn name_fault(text: &[u8], at: usize) -> Option<(Expected, usize)>
    requires { at ≤ length text.now }
    ensures { meaning.FaultsAt text.now result (meaning.name_fault (drop at text.now)) }
{
    if byte_at(text, at) == b'"' {
        string_fault(text, at + 1)
    } else {
        None
    }
}

fn begins_number(byte: u8) -> bool
    ensures { result ≡ meaning.begins_number byte }
{
    (byte == b'-') | (byte == b'.') | byte.is_ascii_digit()
}

fn value_fault(text: &[u8], at: usize) -> Option<(Expected, usize)>
    requires { at ≤ length text.now }
    ensures { meaning.FaultsAt text.now result (meaning.value_fault (drop at text.now)) }
{
    let byte = byte_at(text, at);
    if byte == b'"' {
        string_fault(text, at + 1)
    } else if begins_number(byte) {
        number_fault(text, at)
    } else {
        None
    }
}

/// Returns the fault of the lexeme at a place, where this input is possible.
fn fault_of(possible: Expected, text: &[u8], at: usize) -> Option<(Expected, usize)>
    requires { at ≤ length text.now }
    ensures { meaning.FaultsAt text.now result (meaning.fault_of possible (drop at text.now)) }
{
    match possible {
        Expected::Value | Expected::ItemOrEnd => value_fault(text, at),
        Expected::Name | Expected::NameOrEnd => name_fault(text, at),
        _ => None,
    }
}

/// Returns what an error says of a lexeme that isn't possible, and its offset, by the input that is possible there.
fn said_by(possible: Expected, text: &[u8], lexeme: usize) -> (Expected, usize)
    ensures { result ≡ meaning.said_by possible text.now lexeme (meaning.fault_of possible (drop lexeme text.now)) }
{
    match fault_of(possible, text, lexeme.min(text.len())) {
        Some(found) => found,
        None => (possible, lexeme),
    }
}

/// Returns what an error says of the lexeme at an offset of a text, and the offset of the error.
pub(crate) fn said_at(text: &str, lexeme: usize) -> (Expected, usize)
    ensures { result ≡ meaning.said_at text.now lexeme }
{
    said_by(expected_at(text, lexeme), text.as_bytes(), lexeme)
}
