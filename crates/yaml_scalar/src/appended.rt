//! Texts between double quotes, appended to bytes in UTF-8.
ghost use Rattle.std.specs.List.{list_all};
ghost use Rattle.std.specs.Prelude.{◌≡◌, ◌≤◌, ◌++◌, Some, IfOk, OnOk, false, length, take, true};
ghost use Rattle.std.specs.Str.{IsCharBoundary, IsUtf8, chars};
ghost use Rattle.yaml_base.specs.Encoding.{encode};
ghost use Rattle.yaml_base.specs.Settings.{utf8};
ghost use Rattle.yaml_base.specs.scalars.DoubleQuoted as spec;
ghost use Rattle.yaml_base.specs.graphs.DumpedText.{in_quotes};
ghost use Rattle.yaml_scalar.specs.EscapeBytes.{inside_bytes};
ghost use Rattle.yaml_scalar.specs.WholeRuns.{stays_where};

use crate::classes::{BREAK, ESCAPED, UNPRINTABLE, free_length};
use crate::escapes::{Escape, escape_of, needs_escape};
use std::alloc::{AllocError, Allocator};

/// Appends a text between double quotes, in UTF-8 and in one line: each character as itself if it is printable and no break, quote or
/// backslash, else as its escape.
///
/// # Errors
/// `AllocError` if the bytes can't grow; some of the text may be appended then.
pub fn append_double_quoted<A: Allocator>(
    bytes: &mut Vec<u8, A>,
    text: &str,
) -> Result<(), AllocError>
    ensures { OnOk result (bytes.new.items ≡ bytes.old.items ++ encode (Some utf8) (in_quotes (chars text.now))) }
{
    bytes.push(b'"')?;
    append_inside(bytes, text)?;
    bytes.push(b'"')?;
    Ok(())
}

/// Appends the text between the quotes.
fn append_inside<A: Allocator>(bytes: &mut Vec<u8, A>, text: &str) -> Result<(), AllocError>
    ensures { OnOk result (bytes.new.items ≡ bytes.old.items ++ inside_bytes (chars text.now)) }
{
    let rest = append_run(bytes, text)?;
    let mut chars = rest.chars();
    while let Some(c) = chars.next() {
        append_character(bytes, c)?;
        let rest = append_run(bytes, chars.as_str())?;
        chars = rest.chars();
    }
    Ok(())
}

/// Appends the characters of a text up to the first that isn't written as itself, and returns the rest.
#[inline(always)]
fn append_run<'a, A: Allocator>(
    bytes: &mut Vec<u8, A>,
    text: &'a str,
) -> Result<&'a str, AllocError>
    ensures appended { IfOk result (λ rest. bytes.new.items ++ inside_bytes (chars rest.now) ≡ bytes.old.items ++ inside_bytes (chars text.now)) }
    ensures is_text { IfOk result (λ rest. IsUtf8 rest.now) }
    ensures shorter { IfOk result (λ rest. length rest.now ≤ length text.now) }
{
    let (run, rest) = text.split_at(verbatim_length(text));
    bytes.extend_from_slice(run.as_bytes())?;
    Ok(rest)
}

/// Returns the length in bytes of a prefix of a text whose characters are all written as themselves.
#[inline(always)]
fn verbatim_length(text: &str) -> usize
    ensures boundary { IsCharBoundary text.now result }
    ensures all { list_all (stays_where true false) (chars (take result text.now)) ≡ true }
{
    free_length(text, BREAK | UNPRINTABLE | ESCAPED)
}

/// Appends a character as an escape, or as itself.
fn append_character<A: Allocator>(bytes: &mut Vec<u8, A>, c: char) -> Result<(), AllocError>
    ensures { OnOk result (bytes.new.items ≡ bytes.old.items ++ encode (Some utf8) (spec.character_text true c)) }
{
    if !needs_escape(c, true) {
        let mut room = [0; 4];
        return bytes.extend_from_slice(c.encode_utf8(&mut room).as_bytes());
    }
    match escape_of(c) {
        Escape::Letter(text) => bytes.extend_from_slice(&text),
        Escape::Two(text) => bytes.extend_from_slice(&text),
        Escape::Four(text) => bytes.extend_from_slice(&text),
        Escape::Eight(text) => bytes.extend_from_slice(&text),
    }
}
