//! The ends of the parts of a JSON text: blanks and strings.
ghost use Rattle.std.specs.Prelude.{◌≡◌, ℕ, ◌+◌, ◌<◌, ◌≤◌, [], Bool, drop, false, get_or, length, map, true};
ghost use Rattle.std.specs.Str.{IsCharBoundary};
ghost use Rattle.std.specs.Simd.Lanes.{mask_l};
ghost use Rattle.json.specs.Lex.{between, in_string, lex};
ghost use Rattle.json.specs.Word.{head, is_space};
ghost use Rattle.yaml_json.specs.Lexing.{Leads, LeadsFrom};
ghost use Rattle.yaml_json.specs.Lexemes.{ArePlain, is_stop};

use crate::words::is_blank;
use std::simd::prelude::*;

/// Returns the text after the blanks that a text begins with.
#[inline(always)]
pub(crate) fn skip_blanks(text: &str) -> &str
    ensures same { lex between result.now ≡ lex between text.now }
    ensures past { is_space (head result.now) ≡ true → result.now ≡ [] }
    ensures over { Leads text.now result.now }
{
    let bytes = text.as_bytes();
    let mut at: usize = 0;
    'blanks: while at < bytes.len() && is_blank(bytes[at]) {
        at += 1;
    }
    &text[at..]
}

/// Returns the bytes of a vector at which the plain text of a string stops.
fn stops(bytes: u8x16) -> u64
    ensures { result ≡ mask_l (map is_stop bytes) }
{
    (bytes.simd_eq(u8x16::splat(b'"'))
        | bytes.simd_eq(u8x16::splat(b'\\'))
        | bytes.simd_lt(u8x16::splat(0x20))).to_bitmask()
}

fn is_stop(byte: u8) -> bool
    ensures { result ≡ is_stop byte }
{
    (byte == b'"') | (byte == b'\\') | (byte < 0x20)
}

/// Returns the first quote, backslash or control byte from a place on; if there is none, the text's end.
pub(crate) fn plain_end(text: &[u8], from: usize) -> usize
    requires { from ≤ length text.now }
    ensures { ArePlain text.now from result }
{
    let mut at = from;
    'vectors: while text.len() - at >= 16 {
        let found = stops(u8x16::from_slice(&text[at..]));
        if found != 0 {
            return at + found.trailing_zeros() as usize;
        }
        at += 16;
    }
    'bytes: while at < text.len() && !is_stop(text[at]) {
        at += 1;
    }
    at
}

/// Returns the text after the string whose content begins at a place; nothing if the string isn't closed.
pub(crate) fn after_string(text: &str, from: usize) -> &str
    requires { from ≤ length text.now }
    ensures same { lex between result.now ≡ lex in_string (drop from text.now) }
    ensures over { LeadsFrom in_string (drop from text.now) result.now }
{
    let bytes = text.as_bytes();
    let mut at = from;
    'bytes: while at < bytes.len() {
        let byte = bytes[at];
        if byte == b'"' {
            return &text[at + 1..];
        }
        at += if byte == b'\\' { 2 } else { 1 };
    }
    &text[bytes.len()..]
}
