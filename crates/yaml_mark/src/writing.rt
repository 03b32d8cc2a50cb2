//! Anchors and tags as text (YAML 1.1, sections 8.1 and 8.2).
ghost use Rattle.std.specs.Prelude.{◌≡◌, [], ◌∷◌, ◌++◌, true, false, chars, flat_map, MatchOption};
ghost use Rattle.std.specs.List.{list_any, position_or_len, prefix_len};
ghost use Rattle.yaml_base.specs.Characters.{is_break};
ghost use Rattle.yaml_base.specs.Cursor.{indicator, render_name, space_if, render_text};
ghost use Rattle.yaml_base.specs.Layout.{render_handle};
ghost use Rattle.yaml_base.specs.Percent as percent;
ghost use Rattle.yaml_base.specs.Tags.{exclamation_mark};
ghost use Rattle.yaml_pen.specs.Page.{IsReady};
ghost use Rattle.yaml_pen.specs.Wrote.{Wrote};
ghost use Rattle.yaml_mark.specs.Escaping.{IsPrefixRun, are_escaped, stays_raw};

use std::alloc::Allocator;
use yaml_base::{hex_digit, yaml_error_t};
use yaml_pen::{Indicator, Pen};

/// The treatment of the flow indicators `,` `[` `]` in a tag.
#[derive(Clone, Copy)]
enum FlowIndicators {
    /// They stay as they are.
    Raw,
    /// They are escaped, since readers end a tag at them.
    Escaped,
}

/// Writes the name of an anchor or of an alias. `WriteError` and `Memory` as the pen returns them.
pub fn write_anchor<A: Allocator>(pen: &mut Pen<A>, anchor: &str) -> Result<(), yaml_error_t>
    requires ready { IsReady pen.old }
    requires no_break { list_any is_break (chars anchor.now) ≡ false }
    ensures { Wrote (render_name (chars anchor.now)) pen.old pen.new result }
{
    pen.put_indicator(&Indicator::tight(anchor))
}

/// Writes a tag's handle, or the bare tag, and a space before it unless white space precedes. `WriteError` and `Memory`
/// as the pen returns them.
pub fn write_tag_handle<A: Allocator>(pen: &mut Pen<A>, handle: &str) -> Result<(), yaml_error_t>
    requires ready { IsReady pen.old }
    requires no_break { list_any is_break (chars handle.now) ≡ false }
    ensures { Wrote (render_handle (chars handle.now)) pen.old pen.new result }
{
    pen.put_indicator(&Indicator::spaced(handle))
}

/// Writes a tag. Percent forms escape the characters that it may not hold. A space comes before it if one is asked for
/// and no white space precedes. `WriteError` and `Memory` as the pen returns them.
pub fn write_tag_content<A: Allocator>(
    pen: &mut Pen<A>,
    content: &str,
    need_whitespace: bool,
) -> Result<(), yaml_error_t>
    requires ready { IsReady pen.old }
    ensures { Wrote (λ cursor. render_name (space_if need_whitespace cursor ++ percent.percent_escaped (chars content.now)) cursor) pen.old pen.new result }
{
    begin_tag(pen, need_whitespace)?;
    write_escaped(pen, content, FlowIndicators::Raw)
}

/// Writes the text after a tag's handle, escaped as a tag is. `portable` also escapes the flow indicators `,` `[` `]`,
/// at which readers end a tag. `WriteError` and `Memory` as the pen returns them.
pub fn write_tag_suffix<A: Allocator>(
    pen: &mut Pen<A>,
    suffix: &str,
    portable: bool,
) -> Result<(), yaml_error_t>
    requires ready { IsReady pen.old }
    ensures { Wrote (render_name (percent.suffix_escaped portable (chars suffix.now))) pen.old pen.new result }
{
    begin_tag(pen, false)?;
    if portable {
        return write_escaped(pen, suffix, FlowIndicators::Escaped);
    }
    write_escaped(pen, suffix, FlowIndicators::Raw)
}

/// Writes the prefix of a directive, escaped as a tag is, and a space before it unless white space precedes. `portable`
/// leaves a `!` that begins it, by which readers know a local prefix. `WriteError` and `Memory` as the pen returns
/// them.
pub fn write_tag_prefix<A: Allocator>(
    pen: &mut Pen<A>,
    prefix: &str,
    portable: bool,
) -> Result<(), yaml_error_t>
    requires ready { IsReady pen.old }
    ensures { Wrote (render_handle (percent.prefix_escaped portable (chars prefix.now))) pen.old pen.new result }
{
    begin_tag(pen, true)?;
    let (run, rest) = prefix.split_at(prefix_run_length(prefix, portable));
    pen.write_run(run)?;
    write_escaped(pen, rest, FlowIndicators::Raw)
}

// Writes the space before a tag, if one is asked for and no white space precedes, and turns the cursor's flags off.
fn begin_tag<A: Allocator>(pen: &mut Pen<A>, need_whitespace: bool) -> Result<(), yaml_error_t>
    requires ready { IsReady pen.old }
    ensures { Wrote (indicator [] need_whitespace false false) pen.old pen.new result }
{
    pen.write_indicator("", need_whitespace, false, false)
}

// Returns how many bytes of a prefix stay as they are before the first that doesn't.
fn prefix_run_length(prefix: &str, portable: bool) -> usize
    ensures { IsPrefixRun portable prefix.now result }
{
    match after_raw_exclamation(prefix, portable) {
        Some(rest) => {
            let exclamation = prefix.len() - rest.len();
            exclamation + run_length(rest, FlowIndicators::Raw)
        }
        None => run_length(prefix, FlowIndicators::Raw),
    }
}

// Writes the text after the `!` of a prefix whose `!` stays raw.
fn after_raw_exclamation(prefix: &str, portable: bool) -> Option<&str>
    ensures { MatchOption result (percent.prefix_escaped portable (chars prefix.now) ≡ percent.percent_escaped (chars prefix.now))
        (λ rest. (prefix.now ≡ exclamation_mark ∷ rest.now)
        × (percent.prefix_escaped portable (chars prefix.now) ≡ exclamation_mark ∷ percent.percent_escaped (chars rest.now))) }
{
    if portable {
        prefix.strip_prefix('!')
    } else {
        None
    }
}

// Writes each longest run of characters that stay as they are, and the percent forms of the bytes up to the next.
fn write_escaped<A: Allocator>(
    pen: &mut Pen<A>,
    text: &str,
    indicators: FlowIndicators,
) -> Result<(), yaml_error_t>
    requires ready { IsReady pen.old }
    ensures { Wrote (render_text (percent.suffix_escaped (are_escaped indicators) (chars text.now))) pen.old pen.new result }
{
    pen.write_nothing()?;
    let mut rest = text;
    while !rest.is_empty() {
        let (run, others) = rest.split_at(run_length(rest, indicators));
        pen.write_run(run)?;
        let (escaped, behind) = others.split_at(escaped_length(others, indicators));
        write_forms(pen, escaped)?;
        rest = behind;
    }
    Ok(())
}

// Writes the percent forms of a text's bytes.
fn write_forms<A: Allocator>(pen: &mut Pen<A>, text: &str) -> Result<(), yaml_error_t>
    requires ready { IsReady pen.old }
    ensures { Wrote (render_text (flat_map percent.byte_escaped text.now)) pen.old pen.new result }
{
    pen.write_nothing()?;
    let bytes = text.as_bytes();
    for byte in bytes {
        write_form(pen, *byte)?;
    }
    Ok(())
}

// Writes the percent form of a byte.
fn write_form<A: Allocator>(pen: &mut Pen<A>, byte: u8) -> Result<(), yaml_error_t>
    requires ready { IsReady pen.old }
    ensures { Wrote (render_text (percent.byte_escaped byte)) pen.old pen.new result }
{
    pen.put(b'%')?;
    pen.put(hex_digit(byte / 16))?;
    pen.put(hex_digit(byte % 16))
}

// Returns how many of the first bytes stay as they are.
fn run_length(text: &str, indicators: FlowIndicators) -> usize
    ensures { result ≡ prefix_len (stays_raw indicators) text.now }
{
    text.as_bytes()
        .iter()
        .take_while(|byte| stays_raw(**byte, indicators))
        .count()
}

// Returns how many of the first bytes are escaped.
fn escaped_length(text: &str, indicators: FlowIndicators) -> usize
    ensures { result ≡ position_or_len (stays_raw indicators) text.now }
{
    text.as_bytes()
        .iter()
        .take_while(|byte| !stays_raw(**byte, indicators))
        .count()
}

fn stays_raw(byte: u8, indicators: FlowIndicators) -> bool
    ensures value { result ≡ stays_raw indicators byte }
{
    match indicators {
        FlowIndicators::Raw => is_tag_character(byte),
        FlowIndicators::Escaped => is_tag_character(byte) && !matches!(byte, b',' | b'[' | b']'),
    }
}

fn is_tag_character(byte: u8) -> bool
    ensures value { result ≡ percent.is_tag_character byte }
{
    matches!(
        byte,
        b'A'..=b'Z' | b'a'..=b'z' | b'0'..=b'9' | b'_' | b'-' | b';' | b'/' | b'?' | b':' | b'@'
            | b'&' | b'=' | b'+' | b'$' | b',' | b'.' | b'~' | b'*' | b'\'' | b'(' | b')' | b'[' | b']'
    )
}
