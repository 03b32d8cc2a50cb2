//! The tokens of a value, written in one walk.
ghost use Rattle.std.specs.Prelude.{◌≡◌, ◌∷◌, ◌<◌, [], length};
ghost use Rattle.std.specs.Str.{chars};
ghost use Rattle.yaml_base.specs.values.TypedValues.{TypedValue, int_value, most_nested, text_value};
ghost use Rattle.yaml_value.specs.SeenValues.{seen_value};
ghost use Rattle.yaml_json_value.specs.Rests.{seen_rest, seen_rests};
ghost use Rattle.yaml_json_value.specs.Untyped as spec;
ghost use Rattle.yaml_json_value.specs.Untyped.{Goes, Opens, Walked, items_left, members_left, value_left};
ghost use Rattle.std.specs.Prelude.{List, map};

use crate::error::WriteError;
use arrayvec::ArrayVec;
use json::Writer;
use std::alloc::{AllocError, Allocator};
use yaml_value::Value;

/// The maximum nesting depth of lists and maps.
const MOST_NESTED: usize = 1_000;

/// The rest of a list or a map that is open.
#[derive(Clone, Copy)]
pub(crate) enum Rest<'a, A: Allocator> {
    Items(&'a [Value<A>]),
    Members(&'a [(Value<A>, Value<A>)]),
}

impl<'a, A: Allocator> Default for Rest<'a, A> {
    fn default() -> Self {
        Rest::Items(&[])
    }
}

/// Returns an answer of the writer of tokens as one of this walk.
fn told(answer: Result<(), AllocError>) -> Result<(), WriteError>
    ensures { result ≡ spec.told answer }
{
    match answer {
        Ok(()) => Ok(()),
        Err(_) => Err(WriteError::Memory),
    }
}

/// Opens a list or a map.
fn open<'a, A: Allocator>(
    levels: &mut ArrayVec<Rest<'a, A>, MOST_NESTED>,
    rest: Rest<'a, A>,
) -> Result<(), WriteError>
    ensures { Opens (seen_rest rest.entry) (seen_rests levels.old.items) (seen_rests levels.new.items) result }
{
    match levels.try_push(rest) {
        Ok(()) => Ok(()),
        Err(_) => Err(WriteError::TooDeep),
    }
}

/// Writes an integer, as its decimal digits.
fn write_integer<A: Allocator>(writer: &mut Writer<A>, number: i64) -> Result<(), WriteError>
    ensures { (root : TypedValue) → (outer : List spec.Left) → Walked root writer.old.tokens (value_left (int_value number) ∷ outer)
        → Goes root writer.old writer.new outer result }
{
    told(writer.i64(number))
}

/// Writes a text.
fn write_text<A: Allocator>(writer: &mut Writer<A>, text: &str) -> Result<(), WriteError>
    ensures { (root : TypedValue) → (outer : List spec.Left) → Walked root writer.old.tokens (value_left (text_value (chars text.now)) ∷ outer)
        → Goes root writer.old writer.new outer result }
{
    told(writer.string(text))
}

/// Writes a scalar, or the beginning of a list or a map, which is open then.
fn begin<'a, A: Allocator>(
    writer: &mut Writer<A>,
    levels: &mut ArrayVec<Rest<'a, A>, MOST_NESTED>,
    value: &'a Value<A>,
) -> Result<(), WriteError>
    ensures { (root : TypedValue) → Walked root writer.old.tokens (value_left (seen_value value.now) ∷ seen_rests levels.old.items)
        → Goes root writer.old writer.new (seen_rests levels.new.items) result }
{
    match value {
        Value::Null => told(writer.null()),
        Value::Bool(flag) => told(writer.boolean(*flag)),
        Value::Int(number) => write_integer(writer, *number),
        Value::Text(text) => write_text(writer, text.as_str()),
        Value::List(items) => match open(levels, Rest::Items(items.as_slice())) {
            Ok(()) => told(writer.begin_array()),
            Err(error) => Err(error),
        },
        Value::Map(members) => match open(levels, Rest::Members(members.as_slice())) {
            Ok(()) => told(writer.begin_object()),
            Err(error) => Err(error),
        },
    }
}

/// Writes the next item of a list, or the list's end.
fn write_item<'a, A: Allocator>(
    writer: &mut Writer<A>,
    levels: &mut ArrayVec<Rest<'a, A>, MOST_NESTED>,
    items: &'a [Value<A>],
) -> Result<(), WriteError>
    requires { length levels.old.items < most_nested }
    ensures { (root : TypedValue) → Walked root writer.old.tokens (items_left (map seen_value items.now) ∷ seen_rests levels.old.items)
        → Goes root writer.old writer.new (seen_rests levels.new.items) result }
{
    match items.split_first() {
        Some((item, others)) => {
            levels.push(Rest::Items(others));
            begin(writer, levels, item)
        }
        None => told(writer.end_array()),
    }
}

/// Writes a name that is a text.
fn write_key<A: Allocator>(writer: &mut Writer<A>, name: &str) -> Result<(), WriteError>
    ensures { (root value : TypedValue) → (pairs : List (TypedValue × TypedValue)) → (outer : List spec.Left)
        → Walked root writer.old.tokens (members_left ((text_value (chars name.now), value) ∷ pairs) ∷ outer)
        → Goes root writer.old writer.new (value_left value ∷ members_left pairs ∷ outer) result }
{
    told(writer.key(name))
}

/// Writes the name of a member.
fn write_name<A: Allocator>(writer: &mut Writer<A>, key: &Value<A>) -> Result<(), WriteError>
    ensures { (root value : TypedValue) → (pairs : List (TypedValue × TypedValue)) → (outer : List spec.Left)
        → Walked root writer.old.tokens (members_left ((seen_value key.now, value) ∷ pairs) ∷ outer)
        → Goes root writer.old writer.new (value_left value ∷ members_left pairs ∷ outer) result }
{
    match key {
        Value::Text(name) => write_key(writer, name.as_str()),
        _ => Err(WriteError::NameNotText),
    }
}

/// Writes the next member of a map, or the map's end.
fn write_member<'a, A: Allocator>(
    writer: &mut Writer<A>,
    levels: &mut ArrayVec<Rest<'a, A>, MOST_NESTED>,
    members: &'a [(Value<A>, Value<A>)],
) -> Result<(), WriteError>
    requires { length levels.old.items < most_nested }
    ensures { (root : TypedValue) → Walked root writer.old.tokens
        (members_left (map (λ member. (seen_value member.0, seen_value member.1)) members.now) ∷ seen_rests levels.old.items)
        → Goes root writer.old writer.new (seen_rests levels.new.items) result }
{
    match members.split_first() {
        Some(((key, value), others)) => match write_name(writer, key) {
            Ok(()) => {
                levels.push(Rest::Members(others));
                begin(writer, levels, value)
            }
            Err(error) => Err(error),
        },
        None => told(writer.end_object()),
    }
}

/// Writes what is next in a list or a map that was taken off those that are open.
fn write_next<'a, A: Allocator>(
    writer: &mut Writer<A>,
    levels: &mut ArrayVec<Rest<'a, A>, MOST_NESTED>,
    rest: Rest<'a, A>,
) -> Result<(), WriteError>
    requires { length levels.old.items < most_nested }
    ensures { (root : TypedValue) → Walked root writer.old.tokens (seen_rest rest.entry ∷ seen_rests levels.old.items)
        → Goes root writer.old writer.new (seen_rests levels.new.items) result }
{
    match rest {
        Rest::Items(items) => write_item(writer, levels, items),
        Rest::Members(members) => write_member(writer, levels, members),
    }
}

/// Writes the tokens of a value.
pub(crate) fn write_tokens<A: Allocator>(
    writer: &mut Writer<A>,
    value: &Value<A>,
) -> Result<(), WriteError>
    requires { writer.old.tokens ≡ [] }
    ensures { Goes (seen_value value.now) writer.old writer.new [] result }
{
    let mut levels = ArrayVec::new();
    match begin(writer, &mut levels, value) {
        Ok(()) => {}
        Err(error) => return Err(error),
    }
    while let Some(rest) = levels.pop() {
        match write_next(writer, &mut levels, rest) {
            Ok(()) => {}
            Err(error) => return Err(error),
        }
    }
    Ok(())
}
