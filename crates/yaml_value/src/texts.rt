//! The texts of values, written in one walk.
ghost use Rattle.std.specs.Prelude.{◌≡◌, ◌<◌, ◌^◌, ◌++◌, true, Some, IfOk, OnOk, codes, option_map};
ghost use Rattle.std.specs.Int.Signed.{mag};
ghost use Rattle.std.specs.Str.{all_scalars, chars};
ghost use Rattle.yaml_base.specs.Encoding.{encode};
ghost use Rattle.yaml_base.specs.Settings.{utf8};
ghost use Rattle.yaml_base.specs.graphs.DumpedText.{dumped_text, node_text};
ghost use Rattle.yaml_base.specs.values.TypedValues as typed;
ghost use Rattle.yaml_base.specs.values.TypedValues.{value_node};
ghost use Rattle.yaml_base.specs.graphs.DumpedText.{in_quotes};
ghost use Rattle.yaml_value.specs.SeenValues.{seen_value};
ghost use Rattle.yaml_value.specs.Walk.{seen_rest};
ghost use Rattle.yaml_value.specs.WalkTexts.{HoldsOfProgram, IsOfProgram, StepIsOfProgram, closing_text, comma_text, end_text, entry_mark, lead_text, line_after, line_if, opening_text, opens, step_bytes, step_opens};

use crate::value::Value;
use crate::walk::{Rest, enter, step};
use std::alloc::{AllocError, Allocator};
use yaml_scalar::append_double_quoted;

/// What is left in a bracket that is open.
#[derive(Clone, Copy)]
struct Bracket<'a, A: Allocator> {
    rest: Rest<'a, A>,
    /// Whether it was just opened: nothing is in it yet.
    opened: bool,
}

/// Returns the bytes of the document that holds a value.
pub(crate) fn document_bytes<A: Allocator + Copy>(
    alloc: A,
    value: &Value<A>,
) -> Result<Vec<u8, A>, AllocError>
    ensures bytes { IfOk result (λ bytes. bytes.items ≡ encode (Some utf8) (dumped_text (value_node (seen_value value.now)))) }
    ensures holds { OnOk result (HoldsOfProgram (seen_value value.now)) }
{
    let mut bytes = Vec::new(alloc);
    append(&mut bytes, "---\n")?;
    write_value(alloc, &mut bytes, value)?;
    append(&mut bytes, "\n")?;
    Ok(bytes)
}

/// Appends the text of a value.
fn write_value<A: Allocator + Copy>(
    alloc: A,
    bytes: &mut Vec<u8, A>,
    value: &Value<A>,
) -> Result<(), AllocError>
    ensures written { OnOk result (bytes.new.items ≡ bytes.old.items ++ encode (Some utf8) (node_text 0 (value_node (seen_value value.now)))) }
    ensures holds { OnOk result (HoldsOfProgram (seen_value value.now)) }
{
    let mut levels = Vec::new(alloc);
    enter(&mut levels, value)?;
    let mut line = Vec::new(alloc);
    append(&mut line, "\n")?;
    write_opening(bytes, value)?;
    let mut opened = indent(&mut line, value)?;
    while let Some(rest) = levels.pop() {
        let entered = step(&mut levels, rest)?;
        opened = write_step(bytes, &mut line, entered, Bracket { rest, opened })?;
    }
    Ok(())
}

/// Appends what precedes a value that was entered and the value's beginning, or the end of a bracket. The line is that of the
/// bracket's entries, and becomes that of the next entry. Returns whether a bracket was opened.
fn write_step<A: Allocator + Copy>(
    bytes: &mut Vec<u8, A>,
    line: &mut Vec<u8, A>,
    entered: Option<&Value<A>>,
    bracket: Bracket<'_, A>,
) -> Result<bool, AllocError>
    ensures written { OnOk result (bytes.new.items ≡ bytes.old.items
        ++ step_bytes line.old.items (seen_rest bracket.entry.rest).next bracket.entry.opened (option_map (λ value. seen_value value.now) entered.entry)) }
    ensures line { OnOk result (line.new.items ≡ line_after line.old.items (option_map (λ value. seen_value value.now) entered.entry)) }
    ensures opened { IfOk result (λ opened. opened ≡ step_opens (option_map (λ value. seen_value value.now) entered.entry)) }
    ensures holds { OnOk result (StepIsOfProgram (option_map (λ value. seen_value value.now) entered.entry)) }
{
    match entered {
        Some(value) => {
            write_lead(bytes, line.as_slice(), bracket)?;
            write_opening(bytes, value)?;
            indent(line, value)
        }
        None => {
            line.truncate(line.len().saturating_sub(2));
            write_end(bytes, line.as_slice(), bracket)?;
            Ok(false)
        }
    }
}

/// Appends what precedes an entry.
fn write_lead<A: Allocator + Copy>(
    bytes: &mut Vec<u8, A>,
    line: &[u8],
    bracket: Bracket<'_, A>,
) -> Result<(), AllocError>
    ensures { OnOk result (bytes.new.items ≡ bytes.old.items ++ lead_text line.now (seen_rest bracket.entry.rest).next bracket.entry.opened) }
{
    append(bytes, comma_before(bracket))?;
    bytes.extend_from_slice(line)?;
    append(bytes, mark_of(bracket.rest))
}

/// Returns the comma that ends the entry before; it is empty if there is none, or if that is the key of a pair.
fn comma_before<A: Allocator>(bracket: Bracket<'_, A>) -> &'static str
    ensures { result.now ≡ comma_text (seen_rest bracket.entry.rest).next bracket.entry.opened }
{
    match bracket.rest {
        Rest::PairsFromValue(_) => "",
        Rest::Items(_) | Rest::Pairs(_) if bracket.opened => "",
        Rest::Items(_) | Rest::Pairs(_) => ",",
    }
}

/// Returns the mark of a key or of its value; it is empty for an item.
fn mark_of<A: Allocator>(rest: Rest<'_, A>) -> &'static str
    ensures { result.now ≡ entry_mark (seen_rest rest.entry).next }
{
    match rest {
        Rest::Items(_) => "",
        Rest::Pairs(_) => "? ",
        Rest::PairsFromValue(_) => ": ",
    }
}

/// Appends the end of a bracket.
fn write_end<A: Allocator + Copy>(
    bytes: &mut Vec<u8, A>,
    line: &[u8],
    bracket: Bracket<'_, A>,
) -> Result<(), AllocError>
    ensures { OnOk result (bytes.new.items ≡ bytes.old.items ++ end_text line.now (seen_rest bracket.entry.rest).next bracket.entry.opened) }
{
    let closing = closing_of(bracket.rest);
    if bracket.opened {
        return append(bytes, closing);
    }
    append(bytes, ",")?;
    bytes.extend_from_slice(line)?;
    append(bytes, closing)
}

/// Returns the closing bracket.
fn closing_of<A: Allocator>(rest: Rest<'_, A>) -> &'static str
    ensures { result.now ≡ closing_text (seen_rest rest.entry).next }
{
    match rest {
        Rest::Items(_) => "]",
        Rest::Pairs(_) | Rest::PairsFromValue(_) => "}",
    }
}

/// Appends the beginning of a value: all of a scalar.
fn write_opening<A: Allocator>(bytes: &mut Vec<u8, A>, value: &Value<A>) -> Result<(), AllocError>
    ensures written { OnOk result (bytes.new.items ≡ bytes.old.items ++ encode (Some utf8) (opening_text (seen_value value.now))) }
    ensures holds { OnOk result (IsOfProgram (seen_value value.now)) }
{
    match value {
        Value::Null => write_null(bytes),
        Value::Bool(value) => write_bool(bytes, *value),
        Value::Int(value) => write_integer(bytes, *value),
        Value::Text(text) => write_text(bytes, text.as_str()),
        Value::List(_) => write_list_start(bytes),
        Value::Map(_) => write_map_start(bytes),
    }
}

/// Indents the line of entries if a value opens a bracket, and returns whether it does.
fn indent<A: Allocator, B: Allocator>(
    line: &mut Vec<u8, B>,
    value: &Value<A>,
) -> Result<bool, AllocError>
    ensures line { OnOk result (line.new.items ≡ line_if (opens (seen_value value.now)) line.old.items) }
    ensures opened { IfOk result (λ opened. opened ≡ opens (seen_value value.now)) }
{
    match value {
        Value::List(items) => widen(line),
        Value::Map(pairs) => widen(line),
        _ => Ok(false),
    }
}

/// Indents the line of entries by one level.
fn widen<A: Allocator>(line: &mut Vec<u8, A>) -> Result<bool, AllocError>
    ensures line { OnOk result (line.new.items ≡ line_if true line.old.items) }
    ensures opened { IfOk result (λ opened. opened ≡ true) }
{
    append(line, "  ")?;
    Ok(true)
}

fn write_list_start<A: Allocator>(bytes: &mut Vec<u8, A>) -> Result<(), AllocError>
    ensures { OnOk result (bytes.new.items ≡ bytes.old.items ++ encode (Some utf8) (codes "!!seq [")) }
{
    append(bytes, "!!seq [")
}

fn write_map_start<A: Allocator>(bytes: &mut Vec<u8, A>) -> Result<(), AllocError>
    ensures { OnOk result (bytes.new.items ≡ bytes.old.items ++ encode (Some utf8) (codes "!!map {")) }
{
    append(bytes, "!!map {")
}

fn write_null<A: Allocator>(bytes: &mut Vec<u8, A>) -> Result<(), AllocError>
    ensures { OnOk result (bytes.new.items ≡ bytes.old.items ++ encode (Some utf8) (opening_text typed.null_value)) }
{
    write_scalar(bytes, "!!null ", "null")
}

fn write_bool<A: Allocator>(bytes: &mut Vec<u8, A>, value: bool) -> Result<(), AllocError>
    ensures { OnOk result (bytes.new.items ≡ bytes.old.items ++ encode (Some utf8) (opening_text (typed.bool_value value))) }
{
    if value {
        write_scalar(bytes, "!!bool ", "true")
    } else {
        write_scalar(bytes, "!!bool ", "false")
    }
}

fn write_integer<A: Allocator>(bytes: &mut Vec<u8, A>, value: i64) -> Result<(), AllocError>
    ensures written { OnOk result (bytes.new.items ≡ bytes.old.items ++ encode (Some utf8) (opening_text (typed.int_value value))) }
    ensures holds { mag value < 2 ^ 63 }
{
    write_scalar(bytes, "!!int ", itoa::Buffer::new().format(value))
}

fn write_text<A: Allocator>(bytes: &mut Vec<u8, A>, value: &str) -> Result<(), AllocError>
    ensures written { OnOk result (bytes.new.items ≡ bytes.old.items ++ encode (Some utf8) (opening_text (typed.text_value (chars value.now)))) }
    ensures holds { all_scalars (chars value.now) ≡ true }
{
    write_scalar(bytes, "!!str ", value)
}

/// Appends a scalar after its tag.
fn write_scalar<A: Allocator>(
    bytes: &mut Vec<u8, A>,
    tag: &str,
    value: &str,
) -> Result<(), AllocError>
    ensures { OnOk result (bytes.new.items ≡ bytes.old.items ++ (tag.now ++ encode (Some utf8) (in_quotes (chars value.now)))) }
{
    append(bytes, tag)?;
    append_double_quoted(bytes, value)
}

fn append<A: Allocator>(bytes: &mut Vec<u8, A>, text: &str) -> Result<(), AllocError>
    ensures { OnOk result (bytes.new.items ≡ bytes.old.items ++ text.now) }
{
    bytes.extend_from_slice(text.as_bytes())
}
