//! Texts of a script's lines, between `"` and `"`.
ghost use Rattle.std.specs.Prelude.{◌≡◌, IfOk, option_map};
ghost use Rattle.std.specs.Str.{chars};
ghost use Rattle.yaml_base.specs.scripts.Script as notation;
ghost use Rattle.yaml_base.specs.Seen.{seen_text};
ghost use Rattle.yaml_tool.specs.Texts.{step_of, StepsTo};

use crate::characters::{cut_once, first_character, from_delimiter, prefix_before};
use crate::numbers::parse_number;
use std::alloc::{AllocError, Allocator};

/// The meaning of the next character or escape of a text.
#[derive(Clone, Copy)]
pub enum TextStep<'a> {
    /// The text ends, and nothing follows.
    Ends,
    /// This character, before the rest.
    StandsFor(char, &'a str),
    /// The text is wrong there.
    Fails,
}

/// Returns the character of `\u{..}`: one to six hexadecimal digits of a Unicode scalar value.
fn numbered_character(digits: &str) -> Option<char>
    ensures { step_of result ≡ notation.numbered_step (chars digits.now) }
{
    let count = digits.chars().count();
    if count < 1 || 6 < count {
        return None;
    }
    parse_number(16, 0x10FFFF, digits).and_then(char::from_u32)
}

/// Parses the rest of an escape after `\u`.
fn numbered_step(behind: &str) -> TextStep<'_>
    ensures { StepsTo result (notation.text_from notation.at_brace (chars behind.now)) behind.now }
{
    let Some(('{', digits)) = first_character(behind) else {
        return TextStep::Fails;
    };
    match cut_once('}', digits) {
        Some((digits, rest)) => match numbered_character(digits) {
            Some(character) => TextStep::StandsFor(character, rest),
            None => TextStep::Fails,
        },
        None => TextStep::Fails,
    }
}

/// Parses the next character or escape.
fn next_step(behind: &str) -> TextStep<'_>
    ensures { StepsTo result (notation.text_from notation.at_character (chars behind.now)) behind.now }
{
    match first_character(behind) {
        Some(('\\', escaped)) => match first_character(escaped) {
            Some(('u', rest)) => numbered_step(rest),
            Some(('n', rest)) => TextStep::StandsFor('\n', rest),
            Some(('\\', rest)) => TextStep::StandsFor('\\', rest),
            Some(('"', rest)) => TextStep::StandsFor('"', rest),
            _ => TextStep::Fails,
        },
        Some(('"', rest)) => match first_character(rest) {
            None => TextStep::Ends,
            Some(_) => TextStep::Fails,
        },
        Some((character, rest)) => TextStep::StandsFor(character, rest),
        None => TextStep::Fails,
    }
}

/// Returns the value of a text, given the characters after its opening `"`; `None` if they are no text.
///
/// # Errors
///
/// `AllocError` if an allocation fails.
pub fn text_after_quote<A: Allocator>(
    alloc: A,
    behind: &str,
) -> Result<Option<String<A>>, AllocError>
    ensures { IfOk result (λ text. option_map seen_text text ≡ notation.text_from notation.at_character (chars behind.now)) }
{
    let mut text = String::with_capacity(alloc, behind.len())?;
    let mut rest = behind;
    loop {
        // Characters other than a quotation mark and a backslash mean themselves.
        let special = from_delimiter(b'"', b'\\', rest);
        text.push_str(prefix_before(rest, special))?;
        match next_step(special) {
            TextStep::StandsFor(character, others) => {
                text.push(character)?;
                rest = others;
            }
            TextStep::Ends => return Ok(Some(text)),
            TextStep::Fails => return Ok(None),
        }
    }
}
