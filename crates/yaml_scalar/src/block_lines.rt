//! The lines of literal and folded scalars (YAML 1.1, section 9.3), one character after another.
ghost use Rattle.std.specs.List.{list_all};
ghost use Rattle.std.specs.Prelude.{◌≡◌, ◌≤ℤ◌, pos, true, false};
ghost use Rattle.std.specs.Str.{chars};
ghost use Rattle.yaml_base.specs.Characters as class;
ghost use Rattle.yaml_base.specs.Cursor.{render_text};
ghost use Rattle.yaml_base.specs.scalars.Folded as layout;
ghost use Rattle.yaml_base.specs.scalars.Lines.{parts};
ghost use Rattle.yaml_pen.specs.Page.{IsReady, natural};
ghost use Rattle.yaml_pen.specs.Wrote.{Wrote};
ghost use Rattle.yaml_scalar.specs.BlockCode.{is_folded};
ghost use Rattle.yaml_scalar.specs.BlockSteps as step;
ghost use Rattle.yaml_scalar.specs.declared.block_lines.Place.TheVariants.{LineStart};
ghost use Rattle.yaml_scalar.specs.WholeRuns.{IsRun};
ghost use Rattle.yaml_scalar.specs.Width.{limit_of};

use crate::analysis::begins_with_space;
use crate::block_header::BlockStyle;
use crate::repeats::line_feeds_after;
use crate::runs::{Run, RunEnds, line_run_after};
use crate::shared::{has_limit_where, may_fold_here};
use std::alloc::Allocator;
use yaml_base::{is_break, is_space, yaml_error_t};
use yaml_pen::Pen;

/// The place of a character: at the start of a line, in a line that may be folded, or in one that may not.
#[derive(Clone, Copy)]
pub(crate) enum Place {
    LineStart,
    Folding,
    Fixed,
}

/// The layout of the lines of a block scalar: each is written after `indent` spaces; a folded line is cut past `width`, unless it
/// begins with a space.
#[derive(Clone, Copy)]
pub(crate) struct BlockLines {
    pub(crate) style: BlockStyle,
    pub(crate) indent: i32,
    pub(crate) width: i32,
}

/// Writes the lines of a value, from the start of a line on.
pub(crate) fn write_lines<A: Allocator>(
    pen: &mut Pen<A>,
    value: &str,
    lines: BlockLines,
) -> Result<(), yaml_error_t>
    requires ready { IsReady pen.old }
    requires not_negative { pos 0 ≤ℤ lines.indent }
    ensures { Wrote (step.lines_from (is_folded lines.style) (limit_of lines.width) (natural lines.indent) LineStart (chars value.now)) pen.old pen.new result }
{
    let mut place = Place::LineStart;
    let mut characters = value.chars();
    while let Some(character) = characters.next() {
        let rest = characters.as_str();
        write_step(pen, lines, place, character, rest)?;
        place = place_after(lines.style, place, character);
        let run = leading_verbatim_run(character, rest, place, lines);
        let (prefix, after) = rest.split_at(run.length);
        write_verbatim(pen, lines, place, prefix)?;
        characters = after.chars();
    }
    pen.write_nothing()
}

fn write_step<A: Allocator>(
    pen: &mut Pen<A>,
    lines: BlockLines,
    place: Place,
    character: char,
    rest: &str,
) -> Result<(), yaml_error_t>
    requires ready { IsReady pen.old }
    requires not_negative { pos 0 ≤ℤ lines.indent }
    ensures { Wrote (step.render_step (limit_of lines.width) (natural lines.indent) place character (chars rest.now)) pen.old pen.new result }
{
    if is_break(character) {
        write_end(pen, is_doubled(place, character, rest), character)
    } else {
        write_inner(pen, lines, place, character, rest)
    }
}

/// Writes a character of a line.
fn write_inner<A: Allocator>(
    pen: &mut Pen<A>,
    lines: BlockLines,
    place: Place,
    character: char,
    rest: &str,
) -> Result<(), yaml_error_t>
    requires ready { IsReady pen.old }
    requires not_negative { pos 0 ≤ℤ lines.indent }
    requires no_break { class.is_break character ≡ false }
    ensures { Wrote (step.render_inner (limit_of lines.width) (natural lines.indent) place character (chars rest.now)) pen.old pen.new result }
{
    match place {
        Place::LineStart => {
            pen.write_indent(lines.indent)?;
            write_content(pen, character)
        }
        Place::Folding => {
            if folds(pen, lines.width, character, rest) {
                write_fold(pen, lines.indent)
            } else {
                write_content(pen, character)
            }
        }
        Place::Fixed => write_content(pen, character),
    }
}

fn write_fold<A: Allocator>(pen: &mut Pen<A>, indent: i32) -> Result<(), yaml_error_t>
    requires ready { IsReady pen.old }
    requires not_negative { pos 0 ≤ℤ indent }
    ensures { Wrote (step.render_fold (natural indent)) pen.old pen.new result }
{
    pen.write_indent(indent)?;
    pen.set_indention(false);
    Ok(())
}

/// Returns the place of the next character.
fn place_after(style: BlockStyle, place: Place, character: char) -> Place
    ensures { result ≡ step.place_after (is_folded style) place character }
{
    if is_break(character) {
        return Place::LineStart;
    }
    match place {
        // A line that begins with a space is never folded.
        Place::LineStart => match style {
            BlockStyle::Folded if !is_space(character) => Place::Folding,
            _ => Place::Fixed,
        },
        Place::Folding => Place::Folding,
        Place::Fixed => Place::Fixed,
    }
}

/// Returns the run after a character, by its place: LF at the start of a line; a space ends it if it may become a fold.
fn leading_verbatim_run(character: char, rest: &str, place: Place, lines: BlockLines) -> Run
    ensures { IsRun (step.stays_at (limit_of lines.width) place) character rest.now result.length result.last }
{
    match place {
        Place::LineStart => line_feeds_after(character, rest),
        Place::Folding => {
            let ends = RunEnds {
                space: has_limit_where(true, lines.width),
                quote: false,
            };
            line_run_after(character, rest, ends)
        }
        Place::Fixed => {
            let ends = RunEnds {
                space: false,
                quote: false,
            };
            line_run_after(character, rest, ends)
        }
    }
}

/// Writes a run as it is: LF at the start of a line, or characters of a line.
fn write_verbatim<A: Allocator>(
    pen: &mut Pen<A>,
    lines: BlockLines,
    place: Place,
    run: &str,
) -> Result<(), yaml_error_t>
    requires ready { IsReady pen.old }
    requires stays { list_all (step.stays_at (limit_of lines.width) place) (chars run.now) ≡ true }
    ensures { Wrote (render_text (chars run.now)) pen.old pen.new result }
{
    if run.is_empty() {
        return pen.write_nothing();
    }
    match place {
        Place::LineStart => pen.write_line_feeds(run.len()),
        Place::Folding => pen.write_run(run),
        Place::Fixed => pen.write_run(run),
    }
}

/// Returns whether a character is the last space of a run, past the width.
fn folds<A: Allocator>(pen: &Pen<A>, width: i32, character: char, rest: &str) -> bool
    ensures { result ≡ layout.folds (limit_of width) pen.now.cursor.column character (chars rest.now) }
{
    is_space(character) && !begins_with_space(rest) && may_fold_here(pen, true, width)
}

/// Returns whether the next line, after the breaks that come first, begins without a space.
fn next_line_unindented(rest: &str) -> bool
    ensures { result ≡ layout.next_line_unindented (parts (chars rest.now)) }
{
    let mut characters = rest.chars();
    while let Some(character) = characters.next() {
        if !is_break(character) {
            return !is_space(character);
        }
    }
    false
}

/// Returns whether a LF would be folded, and so is written twice.
fn is_doubled(place: Place, character: char, rest: &str) -> bool
    ensures { result ≡ step.is_doubled place character (chars rest.now) }
{
    match place {
        Place::Folding => character == '\n' && next_line_unindented(rest),
        _ => false,
    }
}

/// Writes a character that stays on its line.
fn write_content<A: Allocator>(pen: &mut Pen<A>, character: char) -> Result<(), yaml_error_t>
    requires ready { IsReady pen.old }
    requires no_break { class.is_break character ≡ false }
    ensures { Wrote (step.render_content character) pen.old pen.new result }
{
    pen.write_char(character)?;
    pen.set_indention(false);
    Ok(())
}

fn write_broken<A: Allocator>(pen: &mut Pen<A>, character: char) -> Result<(), yaml_error_t>
    requires ready { IsReady pen.old }
    requires a_break { class.is_break character ≡ true }
    ensures { Wrote (step.render_broken character) pen.old pen.new result }
{
    pen.write_break(character)?;
    pen.set_indention(true);
    Ok(())
}

/// Writes a break, once or twice.
fn write_end<A: Allocator>(
    pen: &mut Pen<A>,
    twice: bool,
    character: char,
) -> Result<(), yaml_error_t>
    requires ready { IsReady pen.old }
    requires a_break { class.is_break character ≡ true }
    ensures { Wrote (step.render_block_break twice character) pen.old pen.new result }
{
    if !twice {
        return write_broken(pen, character);
    }
    pen.write_break(character)?;
    write_broken(pen, character)
}
