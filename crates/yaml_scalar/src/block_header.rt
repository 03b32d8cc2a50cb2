//! The header of literal and folded scalars (YAML 1.1, section 9.2).
ghost use Rattle.std.specs.Prelude.{◌≡◌, ◌≤ℤ◌, ◌<◌, ◌∷◌, ◌++◌, [], false, true, pos, IfOk, encode_utf8};
ghost use Rattle.std.specs.Str.{chars};
ghost use Rattle.yaml_base.specs.scalars.BlockHeader as layout;
ghost use Rattle.yaml_base.specs.Characters as class;
ghost use Rattle.yaml_pen.specs.Page.{IsReady, natural};
ghost use Rattle.yaml_pen.specs.Wrote.{Wrote};
ghost use Rattle.yaml_scalar.specs.BlockCode.{is_folded, without_open_ended};
ghost use Rattle.yaml_scalar.specs.BlockSteps as step;

use std::alloc::Allocator;
use yaml_base::{Ending, is_blank, is_break, yaml_error_t};
use yaml_pen::{Indicator, Pen};

/// The style of the lines of a block scalar.
#[derive(Clone, Copy)]
pub(crate) enum BlockStyle {
    /// As they are.
    Literal,
    /// Folded past the width.
    Folded,
}

/// Writes the hints of a block scalar's header: the digit of the indent, 2 to 9, if the value begins with a blank or a break;
/// `-` if the value doesn't end in a break, nothing if it ends in exactly one break after another character, and `+` otherwise.
/// Returns the open-ended state: 2 after `+`, else 0.
///
/// The pen must have begun a page, and `best_indent` is 2 to 9.
///
/// # Errors
///
/// `WriteError` if the output passes its limit, `Memory` if it can't grow, or else the pen's first error.
pub fn write_block_scalar_hints<A: Allocator>(
    pen: &mut Pen<A>,
    value: &str,
    best_indent: i32,
) -> Result<i32, yaml_error_t>
    requires ready { IsReady pen.old }
    requires least { pos 2 ≤ℤ best_indent }
    requires most { best_indent ≤ℤ pos 9 }
    ensures written { Wrote (layout.render_hints (natural best_indent) (chars value.now)) pen.old pen.new (without_open_ended result) }
    ensures open_ended { IfOk result (λ open_ended. open_ended ≡ pos (layout.header_open_ended (chars value.now))) }
{
    write_hints(pen, value, best_indent)?;
    Ok(open_ended(value))
}

/// Writes a header: a separating space if one is needed, the style's indicator, the hints and a break.
pub(crate) fn write_header<A: Allocator>(
    pen: &mut Pen<A>,
    value: &str,
    best_indent: i32,
    style: BlockStyle,
) -> Result<(), yaml_error_t>
    requires ready { IsReady pen.old }
    requires least { pos 2 ≤ℤ best_indent }
    requires most { best_indent ≤ℤ pos 9 }
    ensures { Wrote (step.separated_header (is_folded style) (natural best_indent) (chars value.now)) pen.old pen.new result }
{
    pen.put_indicator(&Indicator::spaced(block_indicator(style)))?;
    write_hints(pen, value, best_indent)?;
    pen.put_break()?;
    pen.set_whitespace(true);
    pen.set_indention(true);
    Ok(())
}

/// Returns the open-ended state that a value's header leaves.
pub(crate) fn open_ended(value: &str) -> i32
    ensures { result ≡ pos (layout.header_open_ended (chars value.now)) }
{
    match value_ending(value) {
        Ending::MoreBreaks => 2,
        _ => 0,
    }
}

fn block_indicator(style: BlockStyle) -> &'static str
    ensures { chars result.now ≡ step.block_indicator_of (is_folded style) ∷ [] }
{
    match style {
        BlockStyle::Literal => "|",
        BlockStyle::Folded => ">",
    }
}

fn write_hints<A: Allocator>(
    pen: &mut Pen<A>,
    value: &str,
    best_indent: i32,
) -> Result<(), yaml_error_t>
    requires ready { IsReady pen.old }
    requires least { pos 2 ≤ℤ best_indent }
    requires most { best_indent ≤ℤ pos 9 }
    ensures { Wrote (layout.render_hints (natural best_indent) (chars value.now)) pen.old pen.new result }
{
    write_indentation_hint(pen, value, best_indent)?;
    match value_ending(value) {
        Ending::WithoutBreak => write_hint(pen, b'-'),
        Ending::OneBreak => pen.write_nothing(),
        Ending::MoreBreaks => write_hint(pen, b'+'),
    }
}

fn write_indentation_hint<A: Allocator>(
    pen: &mut Pen<A>,
    value: &str,
    best_indent: i32,
) -> Result<(), yaml_error_t>
    requires ready { IsReady pen.old }
    requires least { pos 2 ≤ℤ best_indent }
    requires most { best_indent ≤ℤ pos 9 }
    ensures { Wrote (layout.render_hint (layout.indentation_hint (natural best_indent) (chars value.now))) pen.old pen.new result }
{
    if begins_blank(value) {
        write_hint(pen, b'0' + best_indent as u8)
    } else {
        pen.write_nothing()
    }
}

fn write_hint<A: Allocator>(pen: &mut Pen<A>, hint: u8) -> Result<(), yaml_error_t>
    requires ready { IsReady pen.old }
    requires ascii { hint < 128 }
    requires no_break { class.is_break hint ≡ false }
    ensures { Wrote (layout.render_hint (hint ∷ [])) pen.old pen.new result }
{
    pen.put(hint)?;
    pen.set_whitespace(false);
    pen.set_indention(false);
    Ok(())
}

/// Returns whether a value begins with a blank or a break. The first line of a block scalar then doesn't show the indentation,
/// and its header has a digit.
pub fn begins_blank(value: &str) -> bool
    ensures { result ≡ layout.begins_blank (chars value.now) }
{
    match value.chars().next() {
        Some(c) => is_blank(c) || is_break(c),
        None => false,
    }
}

/// Returns the ending of a value: no break, exactly one break after another character, or any other.
fn value_ending(value: &str) -> Ending
    ensures { result ≡ layout.ending (chars value.now) }
{
    let mut characters = value.chars();
    match characters.next_back() {
        Some(last) => last_ending(characters.as_str(), last),
        None => Ending::WithoutBreak,
    }
}

fn last_ending(prefix: &str, last: char) -> Ending
    ensures { result ≡ layout.ending (chars (prefix.now ++ encode_utf8 last)) }
{
    if !is_break(last) {
        return Ending::WithoutBreak;
    }
    let mut characters = prefix.chars();
    match characters.next_back() {
        Some(before) => break_ending(characters.as_str(), before, last),
        None => Ending::MoreBreaks,
    }
}

fn break_ending(prefix: &str, before: char, last: char) -> Ending
    requires { class.is_break last ≡ true }
    ensures { result ≡ layout.ending (chars (prefix.now ++ encode_utf8 before ++ encode_utf8 last)) }
{
    if is_break(before) {
        Ending::MoreBreaks
    } else {
        Ending::OneBreak
    }
}
