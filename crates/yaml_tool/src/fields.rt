//! The fields of a script's line, read one after another.
//!
//! The rest of a line is an `Option<&str>`: the text after the separator, or `None` at the line's end.
ghost use Rattle.std.specs.Prelude.{◌≡◌, ◌<◌, ◌≤◌, true, false, Some, [], IfOk, IfSome, MatchOption, length, option_map, option_and_then};
ghost use Rattle.std.specs.Str.{chars, IsUtf8};
ghost use Rattle.yaml_base.specs.scripts.Script as notation;
ghost use Rattle.yaml_base.specs.Seen.{seen_text};
ghost use Rattle.yaml_tool.specs.Fields.{seen_field_state, SkipsRunTo, later_fields, left_length, prepend_field, field_of, only_word};
ghost use Rattle.yaml_tool.specs.Fields.{FieldOrUnparsed, HasNoWord, HasNoText, HasNoChoice};

use crate::characters::{first_character, from_delimiter, prefix_before, skip_word};
use crate::texts::text_after_quote;
use crate::words::is_word;
use std::alloc::{AllocError, Allocator};

/// The state of the lexer at a character of a line.
#[derive(Clone, Copy)]
enum FieldState {
    /// Outside texts.
    Outside,
    /// In a text.
    Inside,
    /// In a text, after a backslash.
    Escaped,
}

impl FieldState {
    /// Skips characters that separate no fields and keep the state.
    fn skip_run(self, text: &str) -> &str
        ensures { SkipsRunTo (seen_field_state self) text.now result.now }
    {
        match self {
            FieldState::Outside => skip_word(text),
            FieldState::Inside => from_delimiter(b'"', b'\\', text),
            FieldState::Escaped => text,
        }
    }

    /// Returns the state after a character, unless the character separates two fields.
    fn after(self, character: char) -> Option<FieldState>
        ensures { MatchOption result (notation.separates (seen_field_state self) character ≡ true)
            (λ next. (notation.separates (seen_field_state self) character ≡ false)
            × (seen_field_state next ≡ notation.state_after (seen_field_state self) character)) }
    {
        match (self, character) {
            (FieldState::Outside, ' ') => None,
            (FieldState::Outside, '"') => Some(FieldState::Inside),
            (FieldState::Outside, _) => Some(FieldState::Outside),
            (FieldState::Inside, '"') => Some(FieldState::Outside),
            (FieldState::Inside, '\\') => Some(FieldState::Escaped),
            (FieldState::Inside | FieldState::Escaped, _) => Some(FieldState::Inside),
        }
    }
}

/// Returns whether no field is left.
pub fn is_end(rest: Option<&str>) -> bool
    ensures yes { result ≡ true → later_fields rest.entry ≡ Some [] }
    ensures no { result ≡ false → FieldOrUnparsed (later_fields rest.entry) }
{
    rest.is_none()
}

/// Splits a line at its first separator: returns the first field as it is written, and the rest.
#[inline(always)]
fn first_field(line: &str) -> (&str, Option<&str>)
    ensures cut { notation.fields_read (chars line.now) ≡ notation.field_and (notation.field_read (chars result.0.now)) (later_fields result.1) }
    ensures within { left_length result.1 ≤ length line.now }
    ensures utf8 { IfSome result.1 (λ rest. IsUtf8 rest.now) }
{
    let mut standing = FieldState::Outside;
    let mut rest = standing.skip_run(line);
    while let Some((character, after)) = first_character(rest) {
        let Some(next) = standing.after(character) else {
            return (prefix_before(line, rest), Some(after));
        };
        standing = next;
        rest = standing.skip_run(after);
    }
    (line, None)
}

/// Returns the next field and the rest, if that field is a word.
#[inline(always)]
pub fn word_after(rest: Option<&str>) -> Option<(&str, Option<&str>)>
    ensures { MatchOption result (HasNoWord (later_fields rest.entry))
        (λ parts. later_fields rest.entry ≡ prepend_field (notation.bare (chars parts.0.now)) (later_fields parts.1)) }
{
    let (field, rest) = first_field(rest?);
    match first_character(field) {
        Some(('"', _)) | None => None,
        Some(_) => Some((field, rest)),
    }
}

/// Returns the next field, if it is a word and the last field.
pub fn last_word(rest: Option<&str>) -> Option<&str>
    ensures { option_map (λ word. chars word.now) result ≡ option_and_then only_word (later_fields rest.entry) }
{
    let (word, rest) = word_after(rest)?;
    if is_end(rest) { Some(word) } else { None }
}

/// Returns the value of the next field and the rest, if that field is a text.
///
/// # Errors
///
/// `AllocError` if an allocation fails.
#[inline(always)]
pub fn text_after<A: Allocator>(
    alloc: A,
    rest: Option<&str>,
) -> Result<Option<(String<A>, Option<&str>)>, AllocError>
    ensures read { IfOk result (λ text.
        MatchOption text (HasNoText (later_fields rest.entry))
        (λ parts. later_fields rest.entry ≡ prepend_field (notation.quoted (seen_text parts.0)) (later_fields parts.1))) }
    ensures shorter { IfOk result (λ text. IfSome text (λ parts. left_length parts.1 < left_length rest.entry)) }
    ensures utf8 { IfOk result (λ text. IfSome text (λ parts. IfSome parts.1 (λ others. IsUtf8 others.now))) }
{
    let Some(line) = rest else {
        return Ok(None);
    };
    let (field, others) = first_field(line);
    match first_character(field) {
        Some(('"', behind)) => match text_after_quote(alloc, behind)? {
            Some(text) => Ok(Some((text, others))),
            None => Ok(None),
        },
        _ => Ok(None),
    }
}

/// Returns the value of the next field and the rest, if that field is a text, or `-` for none.
///
/// # Errors
///
/// `AllocError` if an allocation fails.
#[inline(always)]
pub fn choice_after<A: Allocator>(
    alloc: A,
    rest: Option<&str>,
) -> Result<Option<(Option<String<A>>, Option<&str>)>, AllocError>
    ensures { IfOk result (λ choice.
        MatchOption choice (HasNoChoice (later_fields rest.entry))
        (λ parts. later_fields rest.entry ≡ prepend_field (field_of (option_map seen_text parts.0)) (later_fields parts.1))) }
{
    if let Some((word, others)) = word_after(rest) {
        return if is_word(word, "-") {
            Ok(Some((None, others)))
        } else {
            Ok(None)
        };
    }
    match text_after(alloc, rest)? {
        Some((text, others)) => Ok(Some((Some(text), others))),
        None => Ok(None),
    }
}
