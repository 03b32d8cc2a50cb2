//! The rest of a text after a word or a character at its beginning.
ghost use Rattle.std.specs.Prelude.{◌≡◌, ◌++◌, MatchOption, encode_utf8, length};
ghost use Rattle.yaml_read.specs.Places.{EndsText, IndentCut, PastWord, WordCut};
ghost use Rattle.yaml_read.specs.Stepped.{LeadCut};

use crate::errors::{Stop, refused_at};

/// Returns what follows a word, if the text begins with it.
pub(crate) fn past<'a>(text: &'a str, word: &str) -> Option<&'a str>
    ensures { PastWord word.now text.now result }
{
    match text.strip_prefix(word) {
        Some(rest) => Some(rest),
        None => None,
    }
}

/// Returns the first character, and what follows it.
pub(crate) fn first(text: &str) -> Option<(char, &str)>
    ensures cut { MatchOption result (length text.now ≡ 0) (λ found. text.now ≡ encode_utf8 found.0 ++ found.1.now) }
{
    let mut characters = text.chars();
    match characters.next() {
        Some(c) => Some((c, characters.as_str())),
        None => None,
    }
}

/// Returns what follows a word.
pub(crate) fn after<'a>(text: &'a str, word: &str) -> Result<&'a str, Stop>
    ensures { WordCut word.now text.now result }
{
    match past(text, word) {
        Some(rest) => Ok(rest),
        None => Err(refused_at(text)),
    }
}

/// Ends the text: a line's end is left, and nothing else.
pub(crate) fn end_text(text: &str) -> Result<(), Stop>
    ensures { EndsText text.now result }
{
    match after(text, "\n") {
        Ok(end) => {
            if end.is_empty() {
                Ok(())
            } else {
                Err(refused_at(end))
            }
        }
        Err(stop) => Err(stop),
    }
}

/// Returns what follows a line's end and the indentation of a depth.
pub(crate) fn after_indent(text: &str, depth: usize) -> Result<&str, Stop>
    ensures { IndentCut depth text.now result }
{
    let mut rest = match after(text, "\n") {
        Ok(line) => line,
        Err(stop) => return Err(stop),
    };
    for _level in 0..depth {
        match after(rest, "  ") {
            Ok(next) => rest = next,
            Err(stop) => return Err(stop),
        }
    }
    Ok(rest)
}

/// Returns what follows a line's end, the indentation of a depth, and a word.
pub(crate) fn after_lead<'a>(text: &'a str, depth: usize, lead: &str) -> Result<&'a str, Stop>
    ensures { LeadCut depth lead.now text.now result }
{
    match after_indent(text, depth) {
        Ok(line) => after(line, lead),
        Err(stop) => Err(stop),
    }
}
