//! The blanks in literal text, if blanks are literal.
ghost use Rattle.std.specs.Prelude.{◌≡◌, ◌&&◌, not};
ghost use Rattle.std.specs.Str.{chars};
ghost use Rattle.yaml_base.specs.scalars.Analysis as spec;

use crate::analysis::{is_at_end, is_special};
use yaml_base::{Charset, is_blank, is_break};

/// Returns whether a value may be literal if blanks are literal: it isn't empty, its characters may be written unescaped or
/// are tabs, and no nonempty line is of blanks alone. With `unicode` all printable characters may be written unescaped, else
/// only those of ASCII; with `breaks12` U+2028 and U+2029 may not.
pub fn allows_literal(value: &str, unicode: bool, breaks12: bool) -> bool
    ensures { result ≡ spec.allows_literal (record { unicode = unicode; breaks12 = breaks12 }) (chars value.now) }
{
    let charset = Charset { unicode, breaks12 };
    !(is_at_end(value) || begins_with_blanks_alone(value) || is_barred(value, charset))
}

/// Returns whether a text has only blanks up to the end of the line.
fn is_blank_to_line_end(text: &str) -> bool
    ensures { result ≡ spec.is_blank_to_line_end (chars text.now) }
{
    let mut chars = text.chars();
    while let Some(c) = chars.next() {
        if is_break(c) {
            return true;
        }
        if !is_blank(c) {
            return false;
        }
    }
    true
}

/// Returns whether the line that begins here is of blanks alone, and isn't empty.
fn begins_with_blanks_alone(text: &str) -> bool
    ensures { result ≡ spec.begins_with_blanks_alone (chars text.now) }
{
    let mut chars = text.chars();
    match chars.next() {
        Some(c) => is_blank(c) && is_blank_to_line_end(chars.as_str()),
        None => false,
    }
}

/// Returns whether no literal text holds this character before the rest.
fn bars_literal(c: char, rest: &str, charset: Charset) -> bool
    ensures { result ≡ spec.bars_literal charset c (chars rest.now) }
{
    (c != '\t' && is_special(c, charset)) || (is_break(c) && begins_with_blanks_alone(rest))
}

/// Returns whether some character of a value bars it from literal text.
fn is_barred(value: &str, charset: Charset) -> bool
    ensures { result ≡ spec.somewhere (spec.bars_literal charset) (chars value.now) }
{
    let mut chars = value.chars();
    while let Some(c) = chars.next() {
        if bars_literal(c, chars.as_str(), charset) {
            return true;
        }
    }
    false
}
