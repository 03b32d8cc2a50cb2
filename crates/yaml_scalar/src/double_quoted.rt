//! Scalars between double quotes.
ghost use Rattle.std.specs.Prelude.{◌≡◌, pos, ◌≤ℤ◌, ◌≤◌, ◌&&◌, false, Option, None, Some, Bool, IfOk, length};
ghost use Rattle.std.specs.Str.{IsUtf8, chars};
ghost use Rattle.yaml_base.specs.scalars.Analysis.{begins_with};
ghost use Rattle.yaml_base.specs.Characters.{is_space};
ghost use Rattle.yaml_base.specs.Cursor.{is_past_width, render_text};
ghost use Rattle.yaml_base.specs.scalars.DoubleQuoted as spec;
ghost use Rattle.yaml_base.specs.reading.ReadDouble.{read_double};
ghost use Rattle.yaml_pen.specs.Page.{IsReady, natural};
ghost use Rattle.yaml_pen.specs.Wrote.{Wrote};
ghost use Rattle.yaml_scalar.specs.ByteClasses.{ImpliesTest};
ghost use Rattle.yaml_scalar.specs.Batch.{WroteBatch};
ghost use Rattle.yaml_scalar.specs.ReadsBack.{ReadsBack};
ghost use Rattle.yaml_scalar.specs.WholeRuns.{IsRun, stays, stays_where};
ghost use Rattle.yaml_scalar.specs.Width.{limit_where};

use crate::batched::{BatchBytes, fill_batch};
use crate::classes::{BREAK, ESCAPED, SPACE, UNPRINTABLE, WIDE};
use crate::escapes::{Escape, escape_of, needs_escape};
use crate::runs::{Run, run_up_to};
use crate::shared::{has_limit_where, may_fold_here};
use crate::short_runs::{is_short_run, write_short_run};
use std::alloc::Allocator;
use yaml_base::{is_space, yaml_error_t};
use yaml_pen::{Indicator, Pen};

/// The settings of a double-quoted scalar.
#[derive(Clone, Copy)]
struct Quoting {
    allow_breaks: bool,
    unicode: bool,
    indent: i32,
    width: i32,
}

/// Writes a scalar between double quotes (YAML 1.1, section 9.1.1), after a space if none precedes it.
///
/// Unprintable characters, breaks, the quote and the backslash are escaped, and with `unicode` off all characters beyond ASCII.
/// If `allow_breaks` is on and the column is past `width` (in characters, `i32::MAX` for no limit), the first space of a run
/// becomes a line break and `indent` spaces, unless it is the value's first or last character.
///
/// The pen must have begun a page, and `indent` is at least 2.
///
/// # Errors
///
/// `WriteError` if the output passes its limit, `Memory` if it can't grow, or else the pen's first error.
pub fn write_double_quoted_scalar<A: Allocator>(
    pen: &mut Pen<A>,
    value: &str,
    allow_breaks: bool,
    unicode: bool,
    indent: i32,
    width: i32,
) -> Result<(), yaml_error_t>
    requires ready { IsReady pen.old }
    requires indented { pos 2 ≤ℤ indent }
    ensures written { Wrote (spec.render_double_quoted unicode (limit_where allow_breaks width) (natural indent) (chars value.now)) pen.old pen.new result }
    ensures reads { (breaks12 : Bool) → IfOk result (λ _. ReadsBack (read_double breaks12) (chars value.now) pen.old.text pen.new.text) }
{
    pen.put_indicator(&Indicator::spaced("\""))?;
    write_value(
        pen,
        value,
        Quoting {
            allow_breaks,
            unicode,
            indent,
            width,
        },
    )?;
    pen.put_indicator(&Indicator::tight("\""))
}

/// Writes the bytes of a character's escape.
fn write_bytes<A: Allocator>(pen: &mut Pen<A>, c: char, bytes: &[u8]) -> Result<(), yaml_error_t>
    requires ready { IsReady pen.old }
    requires bytes { bytes.now ≡ spec.escape_text c }
    ensures { Wrote (render_text (spec.escape_text c)) pen.old pen.new result }
{
    pen.write_ascii(bytes)
}

/// Writes a character as an escape, or as itself.
fn write_character<A: Allocator>(
    pen: &mut Pen<A>,
    c: char,
    unicode: bool,
) -> Result<(), yaml_error_t>
    requires { IsReady pen.old }
    ensures { Wrote (render_text (spec.character_text unicode c)) pen.old pen.new result }
{
    if !needs_escape(c, unicode) {
        return pen.write_char(c);
    }
    match escape_of(c) {
        Escape::Letter(bytes) => write_bytes(pen, c, &bytes),
        Escape::Two(bytes) => write_bytes(pen, c, &bytes),
        Escape::Four(bytes) => write_bytes(pen, c, &bytes),
        Escape::Eight(bytes) => write_bytes(pen, c, &bytes),
    }
}

/// Returns whether a space may be a fold: it is the first of a run and neither the value's first character nor its last.
fn may_fold(before: Option<char>, rest: &str) -> bool
    ensures { result ≡ spec.may_fold before (chars rest.now) }
{
    match before {
        Some(c) => !is_space(c) && rest.chars().next().is_some(),
        None => false,
    }
}

/// Returns whether a character becomes a fold.
fn folds<A: Allocator>(
    pen: &Pen<A>,
    before: Option<char>,
    c: char,
    rest: &str,
    quoting: Quoting,
) -> bool
    ensures { result ≡ (is_space c && spec.may_fold before (chars rest.now) && is_past_width (limit_where quoting.allow_breaks quoting.width) pen.now.cursor) }
{
    is_space(c) && may_fold(before, rest) && may_fold_here(pen, quoting.allow_breaks, quoting.width)
}

/// Writes a backslash if a space follows a fold: the space would be lost otherwise.
fn write_backslash_before_space<A: Allocator>(
    pen: &mut Pen<A>,
    rest: &str,
) -> Result<(), yaml_error_t>
    requires { IsReady pen.old }
    ensures { Wrote (render_text (spec.space_kept (chars rest.now))) pen.old pen.new result }
{
    match rest.chars().next() {
        Some(c) if is_space(c) => pen.put(b'\\'),
        _ => pen.write_nothing(),
    }
}

/// Writes a new line in place of a space.
fn write_fold<A: Allocator>(pen: &mut Pen<A>, rest: &str, indent: i32) -> Result<(), yaml_error_t>
    requires ready { IsReady pen.old }
    requires not_negative { pos 0 ≤ℤ indent }
    ensures { Wrote (spec.double_fold (natural indent) (chars rest.now)) pen.old pen.new result }
{
    pen.write_indent(indent)?;
    write_backslash_before_space(pen, rest)
}

/// Writes one character of the value, after `before`, or at the start if that is `None`.
fn write_next<A: Allocator>(
    pen: &mut Pen<A>,
    before: Option<char>,
    c: char,
    rest: &str,
    quoting: Quoting,
) -> Result<(), yaml_error_t>
    requires ready { IsReady pen.old }
    requires not_negative { pos 0 ≤ℤ quoting.indent }
    ensures { Wrote (spec.double_character quoting.unicode (limit_where quoting.allow_breaks quoting.width) (natural quoting.indent) before c (chars rest.now))
        pen.old pen.new result }
{
    if folds(pen, before, c, rest, quoting) {
        write_fold(pen, rest, quoting.indent)
    } else {
        write_character(pen, c, quoting.unicode)
    }
}

/// Returns the classes of bytes that end a run: those of escaped characters, and the space if it may become a fold.
fn ending_classes(unicode: bool, folds: bool) -> u8
    ensures { ImpliesTest result (stays_where unicode folds) }
{
    if !unicode {
        return ascii_ending_classes(folds);
    }
    if folds {
        BREAK | UNPRINTABLE | ESCAPED | SPACE
    } else {
        BREAK | UNPRINTABLE | ESCAPED
    }
}

/// Returns the classes of bytes that end a run if all characters beyond ASCII are escaped.
fn ascii_ending_classes(folds: bool) -> u8
    ensures { ImpliesTest result (stays_where false folds) }
{
    if folds {
        BREAK | UNPRINTABLE | ESCAPED | WIDE | SPACE
    } else {
        BREAK | UNPRINTABLE | ESCAPED | WIDE
    }
}

/// Returns the run of a text up to the first character that isn't written as itself. A space ends it if folds are allowed.
fn leading_verbatim_run(before: char, text: &str, quoting: Quoting) -> Run
    ensures { IsRun (stays quoting.unicode (limit_where quoting.allow_breaks quoting.width)) before text.now result.length result.last }
{
    let folds = has_limit_where(quoting.allow_breaks, quoting.width);
    run_up_to(before, text, ending_classes(quoting.unicode, folds))
}

/// Writes the text between the quotes.
fn write_value<A: Allocator>(
    pen: &mut Pen<A>,
    value: &str,
    quoting: Quoting,
) -> Result<(), yaml_error_t>
    requires ready { IsReady pen.old }
    requires not_negative { pos 0 ≤ℤ quoting.indent }
    ensures { Wrote (spec.double_inside quoting.unicode (limit_where quoting.allow_breaks quoting.width) (natural quoting.indent) None (chars value.now))
        pen.old pen.new result }
{
    // A short value is written as it is, wherever its line ends.
    let folds = has_limit_where(quoting.allow_breaks, quoting.width);
    if is_short_run(value, ascii_ending_classes(folds)) {
        write_short_run(pen, value)
    } else {
        write_inside(pen, value, quoting)
    }
}

/// Returns whether an escape comes next.
fn begins_with_escape(text: &str, unicode: bool) -> bool
    ensures { result ≡ begins_with (spec.needs_escape unicode) (chars text.now) }
{
    match text.chars().next() {
        Some(c) => needs_escape(c, unicode),
        None => false,
    }
}

/// Writes the next characters in one call if the first needs an escape, else none. Returns the last one and the rest.
fn write_next_escapes<'a, A: Allocator>(
    pen: &mut Pen<A>,
    before: char,
    text: &'a str,
    unicode: bool,
) -> Result<(char, &'a str), yaml_error_t>
    requires { IsReady pen.old }
    ensures written { WroteBatch unicode before (chars text.now) pen.old pen.new result }
    ensures is_text { IfOk result (λ next. IsUtf8 next.1.now) }
    ensures shorter { IfOk result (λ next. length next.1.now ≤ length text.now) }
{
    if !begins_with_escape(text, unicode) {
        pen.write_nothing()?;
        return Ok((before, text));
    }
    let mut bytes = BatchBytes::new();
    let next = fill_batch(&mut bytes, before, text, unicode);
    pen.write_ascii(bytes.as_slice())?;
    Ok(next)
}

/// Writes the text between the quotes: in turn a character, the run after it, and a batch that begins with an escape.
fn write_inside<A: Allocator>(
    pen: &mut Pen<A>,
    value: &str,
    quoting: Quoting,
) -> Result<(), yaml_error_t>
    requires ready { IsReady pen.old }
    requires not_negative { pos 0 ≤ℤ quoting.indent }
    ensures { Wrote (spec.double_inside quoting.unicode (limit_where quoting.allow_breaks quoting.width) (natural quoting.indent) None (chars value.now))
        pen.old pen.new result }
{
    let mut before = None;
    let mut chars = value.chars();
    while let Some(c) = chars.next() {
        let rest = chars.as_str();
        write_next(pen, before, c, rest, quoting)?;
        let run = leading_verbatim_run(c, rest, quoting);
        let (prefix, after) = rest.split_at(run.length);
        pen.write_run(prefix)?;
        let (last, left) = write_next_escapes(pen, run.last, after, quoting.unicode)?;
        before = Some(last);
        chars = left.chars();
    }
    pen.write_nothing()
}
