//! JSON texts as events for an emitter that a C program keeps.
ghost use Rattle.std.specs.Prelude.{◌≡◌, false, true};
ghost use Rattle.yaml_c.specs.GivenSettings.{depth_given};
ghost use Rattle.yaml_c.specs.Arena.{is_off, is_on};
ghost use Rattle.yaml_c.specs.Kept.{Changes, IsOpenEmitter, OnEvents, UnlessClosed};
ghost use Rattle.yaml_c.specs.JsonEvents.{GaveJson, GivesJson, SettlesAs, TellsJson};
ghost use Rattle.yaml_c.specs.JsonEvents as meaning;

use crate::emitters::{status_of, tell_closed};
use crate::events::number_of;
use crate::handle::EmitterHandle;
use crate::json_texts::{JsonOptions, json_settings_from};
use crate::kept::Kept;
use crate::place::Spot;
use crate::results::CallResult;
use crate::statuses::{DONE, DUPLICATE_NAME, NO_MEMORY, NOT_JSON, TOO_DEEP};
use std::alloc::{Allocator, Global};
use std::mem::replace;
use yaml_base::position_of;
use yaml_emitter::{yaml_emitter_initialize, yaml_emitter_t};
use yaml_json::{Expected, JsonError, JsonSettings, Writer, write_json};

/// The outcome of giving a JSON text to an emitter.
#[derive(Clone, Copy)]
pub(crate) enum TextGiving {
    /// The text was given up to its end or to an error.
    Answered(Result<(), JsonError>),
    /// An allocation failed before an event was given: nothing changed.
    NoMemory,
}

/// Gives an emitter the events of a JSON text, which are those of a node. See the header.
#[unsafe(no_mangle)]
pub extern "C" fn yaml_c_emitter_emit_json(
    alloc: Global,
    emitter: &mut EmitterHandle,
    text: &[u8],
    options: &JsonOptions,
    report: &mut CallResult,
) -> i32
    requires is_open { IsOpenEmitter emitter.old.state }
    ensures { Changes (OnEvents (UnlessClosed result report.new (GivesJson (depth_given options.now.values.depth)
        (is_off options.now.allow_duplicates) (is_on options.now.values.flow) text.now result report.new))) emitter.old.state emitter.new.state }
{
    let mut boxed = emitter.take(alloc);
    let status = give_to(alloc, &mut *boxed, text, options, report);
    boxed.promised();
    emitter.put(boxed);
    status
}

/// Gives a kept emitter the events of a JSON text, reports the outcome, and returns the status. Values have no place from then on.
fn give_to(
    alloc: Global,
    kept: &mut Kept,
    text: &[u8],
    options: &JsonOptions,
    report: &mut CallResult,
) -> i32
    requires output { kept.old.emitter.has_output ≡ true }
    ensures gave { OnEvents (UnlessClosed result report.new (GivesJson (depth_given options.now.values.depth) (is_off options.now.allow_duplicates)
        (is_on options.now.values.flow) text.now result report.new)) kept.old kept.new }
    ensures output { kept.new.emitter.has_output ≡ true }
{
    kept.place.go_to(Spot::Nowhere);
    give_and_tell(alloc, &mut kept.emitter, text, options, report)
}

/// Gives an emitter that isn't closed the events of a JSON text, reports the outcome, and returns the status.
fn give_and_tell<A: Allocator + Copy>(
    alloc: A,
    emitter: &mut yaml_emitter_t<A>,
    text: &[u8],
    options: &JsonOptions,
    report: &mut CallResult,
) -> i32
    requires output { emitter.old.has_output ≡ true }
    ensures gave { UnlessClosed result report.new (GivesJson (depth_given options.now.values.depth) (is_off options.now.allow_duplicates)
        (is_on options.now.values.flow) text.now result report.new) emitter.old emitter.new }
    ensures output { emitter.new.has_output ≡ true }
{
    if emitter.is_closed() {
        return tell_closed(report);
    }
    let giving = give_bytes(alloc, emitter, text, json_settings_from(options));
    tell_json(&giving, report)
}

/// Gives an emitter the events of a JSON text, if the bytes are UTF-8 and the emitter has no error.
fn give_bytes<A: Allocator + Copy>(
    alloc: A,
    emitter: &mut yaml_emitter_t<A>,
    text: &[u8],
    settings: JsonSettings,
) -> TextGiving
    requires output { emitter.old.has_output ≡ true }
    requires unclosed { emitter.old.closed ≡ false }
    ensures gave { GaveJson settings.values.depth settings.unique_names settings.values.flow text.now result emitter.old emitter.new }
    ensures output { emitter.new.has_output ≡ true }
{
    match emitter.error() {
        Some(error) => return TextGiving::Answered(Err(JsonError::Emitter(error))),
        None => {}
    }
    match std::str::from_utf8(text) {
        Ok(content) => give_text(alloc, emitter, content, settings),
        Err(error) => {
            let position = position_of(text, error.valid_up_to());
            TextGiving::Answered(Err(JsonError::NotJson {
                position,
                expected: Expected::Utf8,
            }))
        }
    }
}

/// Gives an emitter the events of a JSON text. Meanwhile a writer owns the emitter, and another emitter is in its place.
fn give_text<A: Allocator + Copy>(
    alloc: A,
    emitter: &mut yaml_emitter_t<A>,
    text: &str,
    settings: JsonSettings,
) -> TextGiving
    requires output { emitter.old.has_output ≡ true }
    requires unclosed { emitter.old.closed ≡ false }
    requires sound { emitter.old.error ≡ None }
    ensures gave { GaveJson settings.values.depth settings.unique_names settings.values.flow text.now result emitter.old emitter.new }
    ensures output { emitter.new.has_output ≡ true }
{
    let Ok(spare) = yaml_emitter_initialize(alloc) else {
        return TextGiving::NoMemory;
    };
    let mut writer = Writer::over(alloc, replace(emitter, spare));
    let answer = write_json(alloc, &mut writer, text, settings);
    let levels = writer.depth();
    *emitter = writer.into_emitter();
    settle(emitter, answer, levels)
}

/// Returns the outcome of a text, of which so many arrays and objects are open. If memory ran out that wasn't the emitter's, the node
/// stays without its end, and the emitter is closed, unless nothing is open.
#[tactic(auto, using(crate::proofs::JsonEventLemmas::settles_text, crate::proofs::JsonEventLemmas::settles_failed, crate::proofs::JsonEventLemmas::settles_closed))]
fn settle<A: Allocator + Copy>(
    emitter: &mut yaml_emitter_t<A>,
    answer: Result<(), JsonError>,
    levels: usize,
) -> TextGiving
    ensures settles { SettlesAs answer levels result emitter.old emitter.new }
    ensures output { emitter.new.has_output ≡ emitter.old.has_output }
{
    if !is_writers_error(&answer) {
        return TextGiving::Answered(answer);
    }
    match emitter.error() {
        Some(_) => return TextGiving::Answered(answer),
        None => {}
    }
    if levels == 0 {
        return TextGiving::NoMemory;
    }
    emitter.mark_closed();
    TextGiving::Answered(answer)
}

/// Returns whether an answer is an error of the emitter or of memory.
fn is_writers_error(answer: &Result<(), JsonError>) -> bool
    ensures { result ≡ meaning.is_writers_error answer.now }
{
    matches!(answer, Err(JsonError::Emitter(_)))
}

/// Reports how a text was given, and returns the status that goes with it.
fn tell_json(giving: &TextGiving, report: &mut CallResult) -> i32
    ensures { TellsJson giving.now result report.new }
{
    *report = CallResult::nothing();
    match *giving {
        TextGiving::Answered(Ok(())) => DONE,
        TextGiving::Answered(
            Err(JsonError::NotJson { position, .. } | JsonError::Marked { position }),
        ) => {
            *report = CallResult::at_place(position);
            NOT_JSON
        }
        TextGiving::Answered(Err(JsonError::TooDeep { position })) => {
            *report = CallResult::at_place(position);
            TOO_DEEP
        }
        TextGiving::Answered(Err(JsonError::DuplicateName { position })) => {
            *report = CallResult::at_place(position);
            DUPLICATE_NAME
        }
        TextGiving::Answered(Err(JsonError::Emitter(error))) => {
            report.error = number_of(error);
            status_of(error)
        }
        TextGiving::NoMemory => NO_MEMORY,
    }
}
