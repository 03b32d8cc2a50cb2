//! Characters that are repeated: counted once, and written by one call.
ghost use Rattle.std.specs.Prelude.{◌≡◌, ◌==◌};
ghost use Rattle.yaml_base.specs.Characters.{line_feed};
ghost use Rattle.yaml_base.specs.Cursor.{render_text};
ghost use Rattle.yaml_pen.specs.Page.{IsReady};
ghost use Rattle.yaml_pen.specs.Wrote.{Wrote};
ghost use Rattle.yaml_scalar.specs.WholeRuns.{IsRun};
ghost use Rattle.yaml_scalar.specs.Repeats.{AreRepeats, BeginsWithCopies, repeated_text, repeats_length};

use crate::runs::Run;
use std::alloc::Allocator;
use yaml_base::yaml_error_t;
use yaml_pen::Pen;

/// The characters after one that are the same, and are written as it is: each `'` twice, LF within a run of breaks.
#[derive(Clone, Copy)]
pub(crate) enum Repeats {
    Nothing,
    Quotes(usize),
    LineFeeds(usize),
}

impl Repeats {
    /// Returns the number of bytes of the value.
    pub(crate) fn length(self) -> usize
        ensures { result ≡ repeats_length self }
    {
        match self {
            Repeats::Nothing => 0,
            Repeats::Quotes(count) => count,
            Repeats::LineFeeds(count) => count,
        }
    }
}

/// Returns how many times a text begins with a byte.
pub(crate) fn leading_copies(text: &str, byte: u8) -> usize
    ensures { BeginsWithCopies byte result text.now }
{
    let bytes = text.as_bytes();
    let mut count = 0;
    while count < bytes.len() && bytes[count] == byte {
        count += 1;
    }
    count
}

/// Returns the run of LF at the start of a text.
pub(crate) fn line_feeds_after(before: char, text: &str) -> Run
    ensures { IsRun (λ c. c == line_feed) before text.now result.length result.last }
{
    let length = leading_copies(text, b'\n');
    let last = if length == 0 { before } else { '\n' };
    Run { length, last }
}

/// Returns the repeats of a character at the start of the rest of a line. The last LF of a run is none, since indentation may
/// follow it.
pub(crate) fn repeats_after(character: char, rest: &str, quoted: bool) -> Repeats
    ensures { AreRepeats quoted character result rest.now }
{
    if quoted & (character == '\'') {
        let count = leading_copies(rest, b'\'');
        return if count == 0 {
            Repeats::Nothing
        } else {
            Repeats::Quotes(count)
        };
    }
    if character != '\n' {
        return Repeats::Nothing;
    }
    let count = leading_copies(rest, b'\n');
    if count == 0 {
        Repeats::Nothing
    } else {
        Repeats::LineFeeds(count - 1)
    }
}

/// Writes repeats.
pub(crate) fn write_repeats<A: Allocator>(
    pen: &mut Pen<A>,
    repeats: Repeats,
) -> Result<(), yaml_error_t>
    requires { IsReady pen.old }
    ensures { Wrote (render_text (repeated_text repeats)) pen.old pen.new result }
{
    match repeats {
        Repeats::Nothing => pen.write_nothing(),
        Repeats::Quotes(count) => {
            pen.write_copies(b'\'', count)?;
            pen.write_copies(b'\'', count)
        }
        Repeats::LineFeeds(count) => pen.write_line_feeds(count),
    }
}
