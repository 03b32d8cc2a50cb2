//! Characters between double quotes whose texts are written at once.
ghost use Rattle.std.specs.Prelude.{◌≡◌, [], ◌≤◌, ◌<◌, ◌+◌, ◌++◌, ◌∷◌, true, length, IfSome};
ghost use Rattle.std.specs.Str.{IsUtf8, chars};
ghost use Rattle.yaml_base.specs.scalars.DoubleQuoted as spec;
ghost use Rattle.yaml_scalar.specs.Batch.{AreBatched, is_batched, longest_escape, most_bytes};

use crate::escapes::{Escape, escape_of, needs_escape};
use arrayvec::ArrayVec;
use yaml_base::{is_ascii, is_space};

/// The largest size of a batch in bytes.
const MOST_BYTES: usize = 256;
/// The size of the longest escape in bytes.
const LONGEST_ESCAPE: usize = 10;

/// The texts of characters, one after another.
pub(crate) type BatchBytes = ArrayVec<u8, MOST_BYTES>;

/// Returns whether a character is no space, and its text is ASCII.
#[inline(always)]
fn is_batched(c: char, unicode: bool) -> bool
    ensures { result ≡ is_batched unicode c }
{
    !is_space(c) && (is_ascii(c) || needs_escape(c, unicode))
}

/// Appends bytes that fit.
fn append(bytes: &mut BatchBytes, text: &[u8])
    requires { length bytes.old.items + length text.now ≤ most_bytes }
    ensures { bytes.new.items ≡ bytes.old.items ++ text.now }
{
    let _ = bytes.try_extend_from_slice(text);
}

/// Appends a character as an escape, or as itself.
#[inline(always)]
fn append_character(bytes: &mut BatchBytes, c: char, unicode: bool)
    requires fits { length bytes.old.items + longest_escape ≤ most_bytes }
    requires batched { is_batched unicode c ≡ true }
    ensures { bytes.new.items ≡ bytes.old.items ++ spec.character_text unicode c }
{
    if !needs_escape(c, unicode) {
        return append(bytes, &[c as u8]);
    }
    match escape_of(c) {
        Escape::Letter(text) => append(bytes, &text),
        Escape::Two(text) => append(bytes, &text),
        Escape::Four(text) => append(bytes, &text),
        Escape::Eight(text) => append(bytes, &text),
    }
}

/// Returns the next character, if it belongs to the batch and the batch has room for it, and the rest.
#[inline(always)]
fn next_batched(text: &str, room: usize, unicode: bool) -> Option<(char, &str)>
    ensures fits { IfSome result (λ next. longest_escape ≤ room) }
    ensures batched { IfSome result (λ next. is_batched unicode next.0 ≡ true) }
    ensures characters { IfSome result (λ next. chars text.now ≡ next.0 ∷ chars next.1.now) }
    ensures is_text { IfSome result (λ next. IsUtf8 next.1.now) }
    ensures shorter { IfSome result (λ next. length next.1.now < length text.now) }
{
    if room < LONGEST_ESCAPE {
        return None;
    }
    let mut characters = text.chars();
    match characters.next() {
        Some(c) if is_batched(c, unicode) => Some((c, characters.as_str())),
        _ => None,
    }
}

/// Fills a batch with the texts of the next characters, as many as fit. Returns the last one and the rest.
pub(crate) fn fill_batch<'a>(
    bytes: &mut BatchBytes,
    before: char,
    text: &'a str,
    unicode: bool,
) -> (char, &'a str)
    requires { bytes.old.items ≡ [] }
    ensures batched { AreBatched unicode before (chars text.now) bytes.new.items result.0 (chars result.1.now) }
    ensures is_text { IsUtf8 result.1.now }
    ensures shorter { length result.1.now ≤ length text.now }
{
    let mut last = before;
    let mut rest = text;
    while let Some((c, after)) = next_batched(rest, bytes.remaining_capacity(), unicode) {
        append_character(bytes, c, unicode);
        last = c;
        rest = after;
    }
    (last, rest)
}
