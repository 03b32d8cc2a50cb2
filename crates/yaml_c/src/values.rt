//! Values given to an emitter that a C program keeps.
ghost use Rattle.std.specs.Prelude.{◌≡◌, None, true};
ghost use Rattle.yaml_emitter.specs.Emits.{Emits};
ghost use Rattle.yaml_pen.specs.Page.{result_of_error};
ghost use Rattle.yaml_writer.specs.Writing.{opening};
ghost use Rattle.yaml_c.specs.Arena.{utf8_text};
ghost use Rattle.yaml_c.specs.Kept.{lasting_error as error_that_lasts};
ghost use Rattle.yaml_c.specs.Values.{GaveByWriter, GaveScalar, GaveText, Opens, Tells, TellsValue, WritesValue};

use crate::arena::text_of;
use crate::emitters::status_of;
use crate::events::number_of;
use crate::kept::Kept;
use crate::place::{Spot, after_node, is_start};
use crate::results::CallResult;
use crate::spare::Spare;
use crate::statuses::{BAD_EVENT, DONE, MISPLACED, NO_MEMORY};
use std::alloc::{Allocator, Global};
use std::mem::replace;
use yaml_base::yaml_error_t;
use yaml_emitter::{
    YAML_ANY_ENCODING, YAML_DOCUMENT_START_EVENT, YAML_STREAM_START_EVENT, yaml_emitter_emit,
    yaml_emitter_t,
};
use yaml_writer::Writer;

/// A value that is one scalar.
#[derive(Clone, Copy)]
pub(crate) enum Value<'a> {
    Null,
    Bool(bool),
    Int(i64),
    Unsigned(u64),
    Double(f64),
    Text(&'a str),
}

/// The outcome of a call that gives a value, begins or ends a collection, or ends a document.
#[derive(Clone, Copy)]
pub(crate) enum ValueGiving {
    /// The emitter took all of it, or failed.
    Answered(Result<(), yaml_error_t>),
    /// The call has no place there: nothing changed.
    Misplaced,
    /// The text isn't UTF-8, or the style has no such number: nothing changed.
    Unreadable,
    /// An allocation failed before the emitter took an event of it.
    NoMemory,
}

/// Gives bytes as a text, reports the outcome, and returns the status.
pub(crate) fn give_text(alloc: Global, kept: &mut Kept, text: &[u8], report: &mut CallResult) -> i32
    requires output { kept.old.emitter.has_output ≡ true }
    ensures gave { Tells (GaveText (utf8_text text.now)) result report.new kept.old kept.new }
    ensures output { kept.new.emitter.has_output ≡ true }
{
    let giving = give_bytes(alloc, kept, text);
    tell_value(giving, report)
}

/// Gives bytes as a text, if they are UTF-8.
fn give_bytes(alloc: Global, kept: &mut Kept, text: &[u8]) -> ValueGiving
    requires output { kept.old.emitter.has_output ≡ true }
    ensures gave { GaveText (utf8_text text.now) result kept.old kept.new }
    ensures output { kept.new.emitter.has_output ≡ true }
{
    match text_of(text) {
        Some(content) => give_value(alloc, kept, Value::Text(content)),
        None => ValueGiving::Unreadable,
    }
}

/// Gives a value, reports the outcome, and returns the status.
pub(crate) fn give_scalar(
    alloc: Global,
    kept: &mut Kept,
    value: Value<'_>,
    report: &mut CallResult,
) -> i32
    requires output { kept.old.emitter.has_output ≡ true }
    ensures gave { Tells (GaveScalar value.entry) result report.new kept.old kept.new }
    ensures output { kept.new.emitter.has_output ≡ true }
{
    let giving = give_value(alloc, kept, value);
    tell_value(giving, report)
}

/// Gives a value to a kept emitter. Opens the first document, if no event was given before.
fn give_value(alloc: Global, kept: &mut Kept, value: Value<'_>) -> ValueGiving
    requires output { kept.old.emitter.has_output ≡ true }
    ensures gave { GaveScalar value.entry result kept.old kept.new }
    ensures output { kept.new.emitter.has_output ≡ true }
{
    match lasting_error(&kept.emitter) {
        Some(error) => return ValueGiving::Answered(Err(error)),
        None => {}
    }
    let Some(next) = after_node(kept.place.spot()) else {
        return ValueGiving::Misplaced;
    };
    open(alloc, kept);
    match kept.emitter.error() {
        Some(error) => return ValueGiving::Answered(Err(error)),
        None => {}
    }
    match give_by_writer(alloc, &mut kept.emitter, &mut kept.spare, value) {
        Some(answer) => {
            kept.place.go_to(next);
            ValueGiving::Answered(answer)
        }
        None => ValueGiving::NoMemory,
    }
}

/// Gives a value to an emitter, and returns its answer, or `None` if memory ran out before it took the value. Meanwhile a writer owns the
/// emitter, and the spare one is in its place.
fn give_by_writer<A: Allocator + Copy>(
    alloc: A,
    emitter: &mut yaml_emitter_t<A>,
    spare: &mut Spare<A>,
    value: Value<'_>,
) -> Option<Result<(), yaml_error_t>>
    requires output { emitter.old.has_output ≡ true }
    requires sound { emitter.old.error ≡ None }
    ensures gave { GaveByWriter value.entry result emitter.old emitter.new }
    ensures output { emitter.new.has_output ≡ true }
{
    let Ok(other) = spare.take(alloc) else {
        return None;
    };
    let mut writer = Writer::over(alloc, replace(emitter, other));
    let answer = write_value(&mut writer, value);
    spare.put(replace(emitter, writer.into_emitter()));
    if emitter.has_taken(answer) {
        Some(answer)
    } else {
        None
    }
}

fn write_value<A: Allocator + Copy>(
    writer: &mut Writer<A>,
    value: Value<'_>,
) -> Result<(), yaml_error_t>
    ensures { WritesValue value.entry writer.old result writer.new }
{
    match value {
        Value::Null => writer.null(),
        Value::Bool(value) => writer.bool(value),
        Value::Int(value) => writer.int(value),
        Value::Unsigned(value) => writer.unsigned(value),
        Value::Double(value) => writer.float(value),
        Value::Text(text) => writer.text(text),
    }
}

/// Opens the stream and its first document, if no event was given before.
pub(crate) fn open(alloc: Global, kept: &mut Kept)
    requires output { kept.old.emitter.has_output ≡ true }
    ensures opened { Opens kept.old kept.new }
    ensures output { kept.new.emitter.has_output ≡ true }
{
    if is_start(kept.place.spot()) {
        open_stream(alloc, &mut kept.emitter);
        kept.place.go_to(Spot::Root);
    }
}

/// Opens a stream and its first document. An error stays with the emitter.
fn open_stream<A: Allocator + Copy>(alloc: A, emitter: &mut yaml_emitter_t<A>)
    requires output { emitter.old.has_output ≡ true }
    ensures opened { Emits emitter.old opening (result_of_error emitter.new.error) emitter.new }
    ensures output { emitter.new.has_output ≡ true }
{
    let encoding = YAML_ANY_ENCODING;
    let _ = yaml_emitter_emit(emitter, YAML_STREAM_START_EVENT { encoding });
    let start = YAML_DOCUMENT_START_EVENT {
        version_directive: None,
        tag_directives: Vec::new(alloc),
        implicit: true,
    };
    let _ = yaml_emitter_emit(emitter, start);
}

/// Returns the error that each later call tells, if any.
pub(crate) fn lasting_error<A: Allocator>(emitter: &yaml_emitter_t<A>) -> Option<yaml_error_t>
    ensures { result ≡ error_that_lasts emitter.now }
{
    if emitter.is_closed() {
        Some(yaml_error_t::Memory)
    } else {
        emitter.error()
    }
}

/// Reports the outcome of a call, and returns the status that goes with it.
pub(crate) fn tell_value(giving: ValueGiving, report: &mut CallResult) -> i32
    ensures { TellsValue giving result report.new }
{
    *report = CallResult::nothing();
    match giving {
        ValueGiving::Answered(Ok(())) => DONE,
        ValueGiving::Answered(Err(error)) => {
            report.error = number_of(error);
            status_of(error)
        }
        ValueGiving::Misplaced => MISPLACED,
        ValueGiving::Unreadable => BAD_EVENT,
        ValueGiving::NoMemory => NO_MEMORY,
    }
}
