//! The tags of plain texts, whichever schema reads them.
ghost use Rattle.std.specs.Prelude.{◌≡◌, bytes_eq, chars, option_map};
ghost use Rattle.std.specs.List.{list_any};
ghost use Rattle.yaml_base.specs.Words as tables;
ghost use Rattle.yaml_base.specs.graphs.Meetings.{string_tag};
ghost use Rattle.yaml_base.specs.values.CanonicalTags.{canonical_tag};
ghost use Rattle.yaml_writer.specs.PlainTags as plain;

use crate::plain_numbers::plain_number_tag;
use crate::tags::{YAML_BOOL_TAG, YAML_FLOAT_TAG, YAML_NULL_TAG, YAML_STR_TAG};
use crate::texts::is_surely_text;

const NULL_WORDS: &[&str] = &["~", "null", "Null", "NULL"];

const BOOL_WORDS: &[&str] = &["true", "True", "TRUE", "false", "False", "FALSE"];

/// Infinity and NaN.
#[rattlefmt::skip]
const FLOAT_WORDS: &[&str] = &[
    ".inf", ".Inf", ".INF", "+.inf", "+.Inf", "+.INF", "-.inf", "-.Inf", "-.INF", ".nan", ".NaN", ".NAN",
];

/// Returns whether a text is one of these words.
fn is_one_of(text: &str, words: &[&str]) -> bool
    ensures { result ≡ list_any (λ word. tables.is_word text.now word.now) words.now }
{
    words.iter().any(|word| text == *word)
}

/// Returns the tag of a word of both schemas.
fn tag_of_word(text: &str) -> Option<&'static str>
    ensures { option_map (λ tag. chars tag.now) result ≡ option_map canonical_tag (plain.word_meant (chars text.now)) }
{
    if is_one_of(text, NULL_WORDS) {
        return Some(YAML_NULL_TAG);
    }
    if is_one_of(text, BOOL_WORDS) {
        return Some(YAML_BOOL_TAG);
    }
    if is_one_of(text, FLOAT_WORDS) {
        return Some(YAML_FLOAT_TAG);
    }
    None
}

/// Returns the tag of what both schemas, the type repository of YAML 1.1 and the core schema of YAML 1.2, read of a plain text: that of
/// null, booleans, integers or floats. It is `None` for texts, for plain texts of which the two read different things (`1e5`, `0b1`,
/// `1_000`, `08`; `017`, which is 15 or 17), and for the empty text, a null by both, which can't be plain everywhere. Needs no memory.
pub fn plain_tag(text: &str) -> Option<&'static str>
    ensures { option_map (λ tag. chars tag.now) result ≡ plain.plain_tag (chars text.now) }
{
    match tag_of_word(text) {
        Some(tag) => Some(tag),
        None => plain_number_tag(text),
    }
}

/// Returns whether a tag is that of texts.
pub(crate) fn is_string_tag(tag: &str) -> bool
    ensures { result ≡ bytes_eq (chars tag.now) string_tag }
{
    tag == YAML_STR_TAG
}

/// Returns whether two texts have the same characters.
fn are_same(a: &str, b: &str) -> bool
    ensures { result ≡ bytes_eq (chars a.now) (chars b.now) }
{
    a == b
}

/// Returns whether a plain text has a tag by both schemas. It has that of texts if it is surely one.
pub(crate) fn implies_tag(text: &str, tag: &str) -> bool
    ensures { result ≡ plain.implies_tag (chars text.now) (chars tag.now) }
{
    if is_string_tag(tag) {
        is_surely_text(text)
    } else {
        match plain_tag(text) {
            None => false,
            Some(found) => are_same(found, tag),
        }
    }
}
