//! The places at which texts stop the writing.
ghost use Rattle.std.specs.Prelude.{◌≡◌, ◌≢◌, ◌+◌, ◌++◌, ◌<◌, ◌≤◌, ℕ, List, drop, length};
ghost use Rattle.json.specs.Lex.{between, in_word, lex};
ghost use Rattle.json.specs.Word.{head};
ghost use Rattle.yaml_json.specs.Ahead.{IsTrimmed};
ghost use Rattle.yaml_json.specs.Lexing.{EndsWord};
ghost use Rattle.yaml_json.specs.Offsets.{IsOffset, PassesLexeme};
ghost use Rattle.yaml_base.specs.Positions.{IsPositionOf};
ghost use Rattle.yaml_json.specs.Places.{IsPositionAfter, many_bytes};

use crate::lexemes::{after_string, skip_blanks};
use crate::values::{Spot, Stop};
use crate::words::{is_delimiter, is_operator};
use yaml_base::{Position, position_of};

/// Returns the text after the word whose first byte is before a place.
fn after_word(text: &str, from: usize) -> &str
    requires { from ≤ length text.now }
    ensures same { lex between result.now ≡ lex in_word (drop from text.now) }
    ensures over { EndsWord (drop from text.now) result.now }
{
    let bytes = text.as_bytes();
    let mut at = from;
    'bytes: while at < bytes.len() {
        if is_delimiter(bytes[at]) {
            return &text[at..];
        }
        at += 1;
    }
    &text[bytes.len()..]
}

/// Returns the text after the bracket, string or word that begins at a place, and after the blanks that follow it.
fn after_lexeme(text: &str, from: usize) -> &str
    requires { from < length text.now }
    ensures { head (drop from text.now) ≢ 92 → IsTrimmed (drop from text.now) → PassesLexeme (drop from text.now) result.now }
{
    let byte = text.as_bytes()[from];
    if byte == b'"' {
        skip_blanks(after_string(text, from + 1))
    } else if is_operator(byte) {
        skip_blanks(&text[from + 1..])
    } else {
        skip_blanks(after_word(text, from + 1))
    }
}

/// Returns the offset at which the lexeme after that at an offset begins.
fn past_lexeme(text: &str, from: usize) -> usize
    ensures within { result ≤ length text.now }
    ensures past { from < length text.now → head (drop from text.now) ≢ 92 → IsTrimmed (drop from text.now)
        → PassesLexeme (drop from text.now) (drop result text.now) }
{
    if from < text.len() {
        text.len().saturating_sub(after_lexeme(text, from).len())
    } else {
        text.len()
    }
}

/// Returns the offset at which a text stops the writing, by the offset at which the last token that was read begins.
pub(crate) fn offset_of(text: &str, last: usize, stop: Stop) -> usize
    requires { last ≤ length text.now }
    ensures { IsOffset text.now last stop result }
{
    match stop {
        Stop::NotJson(Spot::PastString | Spot::PastValue) => past_lexeme(text, last),
        _ => last,
    }
}

/// Returns a position in a text that begins at `start` of a longer one, by its position in that text.
pub(crate) fn position_from(start: Position, position: Position) -> Position
    ensures { (front part : List ℕ) (at : ℕ) → IsPositionAfter front start → IsPositionOf part at position → at ≤ length part
        → length front + at < many_bytes → IsPositionOf (front ++ part) (length front + at) result }
{
    let Position { line, column } = position;
    if line <= 1 {
        Position {
            line: start.line,
            column: start.column.saturating_add(column).saturating_sub(1),
        }
    } else {
        Position {
            line: start.line.saturating_add(line).saturating_sub(1),
            column,
        }
    }
}

/// Returns the position that follows these bytes, which begin at `start`.
pub(crate) fn position_after(start: Position, bytes: &[u8]) -> Position
    ensures { (front : List ℕ) → IsPositionAfter front start → IsPositionAfter (front ++ bytes.now) result }
{
    position_from(start, position_of(bytes, bytes.len()))
}
