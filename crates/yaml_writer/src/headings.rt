//! Headings: lines of comments before a stream.
ghost use Rattle.std.specs.Prelude.{◌≡◌, ◌++◌, IfOk, chars, encode_utf8_all, string_bytes};
ghost use Rattle.yaml_writer.specs.Headings as heading;

use std::alloc::{AllocError, Allocator};
use yaml_base::{is_break, is_printable};

/// The place in a line at which a character of a comment is written.
#[derive(Clone, Copy)]
enum LineSpot {
    Start,
    Within,
}

/// Returns a character of a comment: a space in place of a character that a line can't hold.
fn in_comment(character: char) -> char
    ensures { result ≡ heading.in_comment character }
{
    if character == '\n' || (is_printable(character) && !is_break(character)) {
        character
    } else {
        ' '
    }
}

/// Appends a character of a comment, and before it the start of a line if the character is the first there.
fn push_commented<A: Allocator>(
    lines: &mut String<A>,
    spot: LineSpot,
    character: char,
) -> Result<(), AllocError>
    ensures { IfOk result (λ _. string_bytes lines.new ≡ string_bytes lines.old ++ heading.commented_bytes spot character) }
{
    let start = match spot {
        LineSpot::Start if character == '\n' => "#",
        LineSpot::Start => "# ",
        LineSpot::Within => "",
    };
    lines.push_str(start)?;
    lines.push(in_comment(character))
}

/// Ends the last line.
fn push_end<A: Allocator>(lines: &mut String<A>, spot: LineSpot) -> Result<(), AllocError>
    ensures { IfOk result (λ _. string_bytes lines.new ≡ string_bytes lines.old ++ heading.comment_end spot) }
{
    match spot {
        LineSpot::Start => Ok(()),
        LineSpot::Within => lines.push('\n'),
    }
}

/// Returns a text as lines of comments: `# ` and then the line, or `#` alone for an empty line. LF ends a line. Any other line break and
/// any character that isn't printable becomes a space. In UTF-8 the lines may precede a stream: readers of YAML pass over them.
///
/// # Errors
/// `AllocError` if an allocation fails.
pub fn comment_lines<A: Allocator>(alloc: A, text: &str) -> Result<String<A>, AllocError>
    ensures { IfOk result (λ lines. string_bytes lines ≡ encode_utf8_all (heading.comment_lines (chars text.now))) }
{
    let mut lines = String::new(alloc);
    let mut characters = text.chars();
    let mut spot = LineSpot::Start;
    while let Some(character) = characters.next() {
        push_commented(&mut lines, spot, character)?;
        spot = if character == '\n' {
            LineSpot::Start
        } else {
            LineSpot::Within
        };
    }
    push_end(&mut lines, spot)?;
    Ok(lines)
}
