//! The line and the column of an offset in a text.
ghost use Rattle.std.specs.Prelude.{◌≡◌, ◌+◌, ◌≤◌, Some, count_by, length, not};
ghost use Rattle.std.specs.Fmt.{is_char_start};
ghost use Rattle.std.specs.List.{after_last, suffix_len};
ghost use Rattle.yaml_base.specs.Positions.{IsPositionOf, position_text};
ghost use Rattle.yaml_base.specs.values.LinesAndColumns.{is_line_feed};

use std::fmt;

/// A line and a column of a text, both from 1. A line ends with LF. A column counts characters by the bytes with which they begin, in a
/// text that isn't UTF-8, too.
#[derive(Clone, Copy, Debug, PartialEq, Eq)]
pub struct Position {
    pub line: usize,
    pub column: usize,
}

/// Writes `line 2, column 7`.
impl fmt::Display for Position {
    ghost output = { λ position. Some (position_text position) };

    fn fmt<W: fmt::Write>(&self, f: &mut fmt::Formatter<W>) -> fmt::Result {
        let Position { line, column } = *self;
        write!(f, "line {line}, column {column}")
    }
}

/// Returns whether a character begins with this byte.
fn begins_character(byte: u8) -> bool
    ensures { result ≡ is_char_start byte }
{
    byte < 128 || byte >= 192
}

/// The largest count of bytes that fits in one byte.
const BLOCK_SIZE: usize = 255;

/// Returns the number of line feeds in a block. (A sum needs no branch for each byte, and sums in single bytes are made
/// 16 at once.)
fn line_breaks_in_block(bytes: &[u8]) -> u8
    requires { length bytes.now ≤ 255 }
    ensures { result ≡ count_by is_line_feed bytes.now }
{
    let mut count: u8 = 0;
    for byte in bytes {
        count += (*byte == b'\n') as u8;
    }
    count
}

/// Returns the number of line feeds.
fn line_breaks(bytes: &[u8]) -> usize
    ensures { result ≡ count_by is_line_feed bytes.now }
{
    let mut count: usize = 0;
    for block in bytes.chunks(BLOCK_SIZE) {
        count += line_breaks_in_block(block) as usize;
    }
    count
}

/// Returns the number of bytes after the last line feed.
fn last_line_length(bytes: &[u8]) -> usize
    ensures value { result ≡ suffix_len (λ byte. not (is_line_feed byte)) bytes.now }
    ensures within { result ≤ length bytes.now }
{
    bytes
        .iter()
        .rev()
        .take_while(|byte| **byte != b'\n')
        .count()
}

/// Returns the number of characters after the last line feed.
fn last_line_characters(bytes: &[u8]) -> usize
    ensures { result ≡ count_by is_char_start (after_last is_line_feed bytes.now) }
{
    let last = bytes.split_at(bytes.len() - last_line_length(bytes)).1;
    last.iter().filter(|byte| begins_character(**byte)).count()
}

/// Returns the position of an offset, in bytes, in a text. An offset past the end has the position of the end.
pub fn position_of(text: &[u8], offset: usize) -> Position
    ensures { IsPositionOf text.now offset result }
{
    let before = &text[..offset.min(text.len())];
    Position {
        line: line_breaks(before) + 1,
        column: last_line_characters(before) + 1,
    }
}
