//! The lines that plain and single-quoted scalars share: runs of spaces, of breaks and of other characters.
ghost use Rattle.std.specs.Prelude.{◌≡◌, ◌<◌, ◌==◌, ◌&&◌, ◌||◌, not, ◌++◌, [], ◌∷◌, true, false, if◌then◌else◌};
ghost use Rattle.std.specs.Str.{chars};
ghost use Rattle.yaml_base.specs.scalars.Analysis as analysis;
ghost use Rattle.yaml_base.specs.Characters as class;
ghost use Rattle.yaml_base.specs.Cursor as cursor;
ghost use Rattle.yaml_base.specs.Cursor.{render_text};
ghost use Rattle.yaml_base.specs.scalars.Plain as layout;
ghost use Rattle.yaml_pen.specs.Page.{IsReady};
ghost use Rattle.yaml_pen.specs.Wrote.{Wrote};
ghost use Rattle.yaml_scalar.specs.LineSteps as steps;
ghost use Rattle.yaml_scalar.specs.SimpleAsciiTexts.{IsKnown};
ghost use Rattle.yaml_scalar.specs.WholeRuns.{HasRoom, IsLineRun};
ghost use Rattle.yaml_scalar.specs.Width.{limit_where};

use crate::analysis::is_at_end;
use crate::repeats::{repeats_after, write_repeats};
use crate::runs::{Run, RunEnds, ending_classes, line_run_after, run_up_to, short_classes};
use crate::shared::may_fold_here;
use crate::short_runs::{is_short_run, write_short_run};
use std::alloc::Allocator;
use yaml_base::{CharacterKind, is_break, is_space, yaml_error_t};
use yaml_pen::Pen;

/// The facts known of a value before it is written: none, or that it is simple ASCII.
#[derive(Clone, Copy)]
pub(crate) enum Known {
    Nothing,
    SimpleAscii,
}

/// The rules of lines: between quotes each `'` is written twice; a fold is possible if breaks are allowed and the column is
/// past the width; later lines are indented. A known fact about the value saves a look at it.
#[derive(Clone, Copy)]
pub(crate) struct Lines {
    pub(crate) quoted: bool,
    pub(crate) known: Known,
    pub(crate) allow_breaks: bool,
    pub(crate) indent: u32,
    pub(crate) width: i32,
}

fn kind_of(character: char) -> CharacterKind
    ensures { result ≡ layout.kind_of character }
{
    if is_space(character) {
        CharacterKind::Space
    } else if is_break(character) {
        CharacterKind::Break
    } else {
        CharacterKind::Other
    }
}

fn is_same_kind(one: CharacterKind, other: CharacterKind) -> bool
    ensures { result ≡ layout.is_same_kind one other }
{
    matches!(
        (one, other),
        (CharacterKind::Space, CharacterKind::Space)
            | (CharacterKind::Break, CharacterKind::Break)
            | (CharacterKind::Other, CharacterKind::Other)
    )
}

fn begins_kind(kind: CharacterKind, rest: &str) -> bool
    ensures { result ≡ steps.begins_kind kind (chars rest.now) }
{
    match rest.chars().next() {
        Some(c) => is_same_kind(kind, kind_of(c)),
        None => false,
    }
}

fn write_indentation<A: Allocator>(pen: &mut Pen<A>, indent: u32) -> Result<(), yaml_error_t>
    requires { IsReady pen.old }
    ensures { Wrote (render_text (layout.indentation indent)) pen.old pen.new result }
{
    pen.write_copies(b' ', indent as usize)
}

fn write_extra_break<A: Allocator>(pen: &mut Pen<A>, needed: bool) -> Result<(), yaml_error_t>
    requires { IsReady pen.old }
    ensures { Wrote (render_text (if needed then class.line_feed ∷ [] else [])) pen.old pen.new result }
{
    if needed {
        pen.put_break()
    } else {
        pen.write_nothing()
    }
}

// A break of a run, after an extra LF if it is to be written twice, and before the indentation if it is the run's last.
fn write_line_break<A: Allocator>(
    pen: &mut Pen<A>,
    character: char,
    doubled: bool,
    goes_on: bool,
    indent: u32,
) -> Result<(), yaml_error_t>
    requires ready { IsReady pen.old }
    requires a_break { class.is_break character ≡ true }
    ensures { Wrote (render_text ((if doubled then class.line_feed ∷ [] else []) ++ (character ∷ (if goes_on then [] else layout.indentation indent)))) pen.old
        pen.new result }
{
    write_extra_break(pen, doubled)?;
    pen.write_break(character)?;
    if goes_on {
        pen.write_nothing()
    } else {
        write_indentation(pen, indent)
    }
}

/// Writes a character that is no break; a `'` twice between single quotes.
fn write_other<A: Allocator>(
    pen: &mut Pen<A>,
    character: char,
    quoted: bool,
) -> Result<(), yaml_error_t>
    requires ready { IsReady pen.old }
    requires no_break { class.is_break character ≡ false }
    ensures { Wrote (render_text (steps.written_as quoted (character ∷ []))) pen.old pen.new result }
{
    let doubled = quoted & (character == '\'');
    if doubled {
        pen.put(b'\'')?;
        pen.write_char(character)
    } else {
        pen.write_char(character)
    }
}

// Whether a run is one space, neither first nor last, past the width.
fn is_fold<A: Allocator>(pen: &Pen<A>, lines: Lines, before: CharacterKind, rest: &str) -> bool
    ensures { result ≡ cursor.is_past_width (limit_where lines.allow_breaks lines.width) pen.now.cursor
        && not (layout.is_same_kind before CharacterKind.Space
        || (analysis.is_empty (chars rest.now) || steps.begins_kind CharacterKind.Space (chars rest.now))) }
{
    may_fold_here(pen, lines.allow_breaks, lines.width)
        && !is_same_kind(before, CharacterKind::Space)
        && !is_at_end(rest)
        && !begins_kind(CharacterKind::Space, rest)
}

fn write_step<A: Allocator>(
    pen: &mut Pen<A>,
    lines: Lines,
    before: CharacterKind,
    character: char,
    rest: &str,
) -> Result<(), yaml_error_t>
    requires { IsReady pen.old }
    ensures { Wrote (steps.render_line_step (steps.written_as lines.quoted) (limit_where lines.allow_breaks lines.width) lines.indent
        before character (chars rest.now)) pen.old pen.new result }
{
    match kind_of(character) {
        CharacterKind::Space => {
            if is_fold(pen, lines, before, rest) {
                pen.put_break()?;
                write_indentation(pen, lines.indent)
            } else {
                pen.put(b' ')
            }
        }
        CharacterKind::Break => {
            // LF that begins a run is written twice.
            let doubled = (character == '\n') & !is_same_kind(before, CharacterKind::Break);
            let goes_on = begins_kind(CharacterKind::Break, rest);
            write_line_break(pen, character, doubled, goes_on, lines.indent)
        }
        CharacterKind::Other => write_other(pen, character, lines.quoted),
    }
}

/// Returns the number of columns that are left before one past the width, if there is a width.
fn line_room<A: Allocator>(pen: &Pen<A>, lines: Lines) -> usize
    ensures { 0 < result → HasRoom (limit_where lines.allow_breaks lines.width) pen.now.cursor.column result }
{
    if !lines.allow_breaks | (lines.width == i32::MAX) {
        usize::MAX
    } else if lines.width < 0 {
        0
    } else {
        (lines.width as u32).saturating_sub(pen.column() as u32) as usize
    }
}

// Returns the run after a character: up to the next space if no column is left, else at most as many bytes as there are
// columns. A `'` ends it if it is doubled.
fn leading_verbatim_run<A: Allocator>(
    pen: &Pen<A>,
    character: char,
    rest: &str,
    lines: Lines,
) -> Run
    ensures { IsLineRun (limit_where lines.allow_breaks lines.width) lines.quoted pen.now.cursor character rest.now result.length result.last }
{
    let room = line_room(pen, lines);
    if room == 0 {
        let ends = RunEnds {
            space: true,
            quote: lines.quoted,
        };
        line_run_after(character, rest, ends)
    } else {
        let ends = RunEnds {
            space: false,
            quote: lines.quoted,
        };
        let (near, _) = rest.split_at(rest.floor_char_boundary(room));
        run_up_to(character, near, ending_classes(ends))
    }
}

/// Writes the lines of a value; the flags of the cursor stay. A short line is written as it is.
#[inline(always)]
pub(crate) fn write_lines<A: Allocator>(
    pen: &mut Pen<A>,
    value: &str,
    lines: Lines,
) -> Result<(), yaml_error_t>
    requires ready { IsReady pen.old }
    requires known { IsKnown lines.known lines.quoted value.now }
    ensures { Wrote (layout.render_runs (steps.written_as lines.quoted) (limit_where lines.allow_breaks lines.width) lines.indent true
        (layout.runs (chars value.now))) pen.old pen.new result }
{
    if value.len() > line_room(pen, lines) {
        return write_runs(pen, value, lines);
    }
    match lines.known {
        Known::SimpleAscii => write_short_run(pen, value),
        Known::Nothing => {
            // An empty value doesn't count as short: it fits even if no column is left.
            let short = !value.is_empty() & is_short_run(value, short_classes(lines.quoted));
            if short {
                write_short_run(pen, value)
            } else {
                write_runs(pen, value, lines)
            }
        }
    }
}

/// Writes the lines of a value run by run; the flags of the cursor stay.
fn write_runs<A: Allocator>(pen: &mut Pen<A>, value: &str, lines: Lines) -> Result<(), yaml_error_t>
    requires { IsReady pen.old }
    ensures { Wrote (layout.render_runs (steps.written_as lines.quoted) (limit_where lines.allow_breaks lines.width) lines.indent true
        (layout.runs (chars value.now))) pen.old pen.new result }
{
    let first = leading_verbatim_run(pen, ' ', value, lines);
    let (prefix, rest) = value.split_at(first.length);
    pen.write_run(prefix)?;
    let before = kind_of(first.last);
    write_from(pen, before, rest, lines)
}

/// Writes the rest after a character of a kind: a character, its repeats and the run after them, in turn.
fn write_from<A: Allocator>(
    pen: &mut Pen<A>,
    start: CharacterKind,
    value: &str,
    lines: Lines,
) -> Result<(), yaml_error_t>
    requires { IsReady pen.old }
    ensures { Wrote (steps.render_steps (steps.written_as lines.quoted) (limit_where lines.allow_breaks lines.width) lines.indent start
        (chars value.now)) pen.old pen.new result }
{
    let mut before = start;
    let mut characters = value.chars();
    while let Some(character) = characters.next() {
        let rest = characters.as_str();
        write_step(pen, lines, before, character, rest)?;
        let repeats = repeats_after(character, rest, lines.quoted);
        write_repeats(pen, repeats)?;
        let (_, others) = rest.split_at(repeats.length());
        let run = leading_verbatim_run(pen, character, others, lines);
        let (prefix, after) = others.split_at(run.length);
        pen.write_run(prefix)?;
        before = kind_of(run.last);
        characters = after.chars();
    }
    pen.write_nothing()
}
