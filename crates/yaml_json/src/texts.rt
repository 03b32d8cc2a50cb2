//! JSON texts as YAML.
ghost use Rattle.std.specs.Prelude.{◌≡◌, ◌+◌, ◌≤◌, OnOk, length};
ghost use Rattle.yaml_base.specs.Positions.{IsPositionOf};
ghost use Rattle.yaml_json.specs.Failing.{failure_of, writers_error};
ghost use Rattle.yaml_json.specs.Nests.{AwaitsText};
ghost use Rattle.yaml_json.specs.Places.{IsAtIn, SaysFault};
ghost use Rattle.yaml_json.specs.Walk.{MatchesStop};
ghost use Rattle.yaml_json.specs.WalkSteps.{TextStep};
ghost use Rattle.yaml_json.specs.WritingCalls.{ReturnsYaml, WritesText};
ghost use Rattle.yaml_writer.specs.WasGiven.{IsBare};

use crate::error::JsonError;
use crate::lexeme_faults::said_at;
use crate::places::offset_of;
use crate::settings::JsonSettings;
use crate::tokens::Tokens;
use crate::values::{Nesting, Stop, write_only_value};
use bumpalo::Bump;
use std::alloc::Allocator;
use yaml_base::{Position, position_of};
use yaml_writer::{Writer, yaml_error_t};

/// The byte order mark in UTF-8. No JSON text begins with it.
const MARK: &[u8] = b"\xef\xbb\xbf";

/// Returns the position of an offset in a part of a text, before which there are so many bytes.
fn position_in(text: &str, before: usize, at: usize) -> Position
    ensures { before + at ≤ length text.now → IsPositionOf text.now (before + at) result }
{
    position_of(text.as_bytes(), before.saturating_add(at))
}

/// Returns the error that tells a caller of a stop at this offset in a part of a text, before which there are so many bytes.
pub(crate) fn error_of(text: &str, before: usize, part: &str, stopped: (Stop, usize)) -> JsonError
    ensures says { MatchesStop part.now stopped.0 result }
    ensures by_writer { writers_error result ≡ failure_of stopped.0 }
    ensures place { IsAtIn text.now before part.now stopped.1 result }
    ensures fault { SaysFault part.now stopped.1 result }
{
    let (stop, lexeme) = stopped;
    match stop {
        Stop::NotJson(_) => {
            if part.as_bytes().starts_with(MARK) {
                let position = position_in(text, before, lexeme);
                JsonError::Marked { position }
            } else {
                let (expected, at) = said_at(part, lexeme);
                let position = position_in(text, before, at);
                JsonError::NotJson { position, expected }
            }
        }
        Stop::TooDeep => {
            let position = position_in(text, before, lexeme);
            JsonError::TooDeep { position }
        }
        Stop::NameAgain => {
            let position = position_in(text, before, lexeme);
            JsonError::DuplicateName { position }
        }
        Stop::Failed(error) => JsonError::Emitter(error),
    }
}

/// The memory that texts are written with, one after another.
#[derive(Drop)]
pub(crate) struct Room<'a, A: Allocator> {
    alloc: A,
    /// The arena for strings with escapes. They stay until all texts are written.
    arena: &'a Bump<A>,
    pub(crate) nest: Nesting<'a, A>,
}

impl<'a, A: Allocator + Copy> Room<'a, A> {
    /// Makes a room, which takes no memory until it is needed.
    pub(crate) fn new(alloc: A, arena: &'a Bump<A>, unique_names: bool) -> Self
        ensures { AwaitsText unique_names result }
    {
        Room {
            alloc,
            arena,
            nest: Nesting::new(alloc, unique_names),
        }
    }
}

/// Gives a writer the events of a JSON text, with this memory.
pub(crate) fn write_text_in<'a, A: Allocator + Copy>(
    room: &mut Room<'a, A>,
    writer: &mut Writer<A>,
    text: &'a str,
    settings: &JsonSettings,
) -> Result<(), (Stop, usize)>
    requires bare { IsBare writer.old }
    requires ready { AwaitsText settings.now.unique_names room.old }
    ensures ready { OnOk result (AwaitsText settings.now.unique_names room.new) }
    ensures gives { TextStep settings.now text.now writer.old result writer.new }
{
    let mut tokens = Tokens::new(room.alloc, room.arena, text);
    match write_only_value(&mut room.nest, writer, &mut tokens, settings) {
        Ok(()) => Ok(()),
        Err(stop) => {
            let at = offset_of(text, tokens.last_offset(), stop);
            Err((stop, at))
        }
    }
}

/// Gives a writer the events of a JSON text.
pub(crate) fn write_text_by<A: Allocator + Copy>(
    alloc: A,
    writer: &mut Writer<A>,
    text: &str,
    settings: &JsonSettings,
) -> Result<(), (Stop, usize)>
    requires { IsBare writer.old }
    ensures { TextStep settings.now text.now writer.old result writer.new }
{
    let arena = Bump::new(alloc);
    let mut room = Room::new(alloc, &arena, settings.unique_names);
    write_text_in(&mut room, writer, text, settings)
}

/// Gives a writer the events of a JSON text, by all of these settings but `settings.values.emitter`. Arrays and objects may nest
/// `settings.values.depth` deep. Each of them is in flow if it is empty or `settings.values.flow` is set, else in a block. Keys keep
/// their order. A key may come once in an object if `settings.unique_names` is set; else it is written as often as it comes.
///
/// The writer must have no anchor and no tag for the next node. After `Ok` it was given exactly the text's events, has no anchor and
/// no tag again, and its emitter has no error. Whatever is returned, earlier output stays.
///
/// # Errors
///
/// `NotJson` if the text isn't JSON up to the position that it names: a token that isn't possible there, the fault of a string or a number
/// that would be, or the text's end. It names the fault, or else the input that is possible. `Marked` in its place if the text begins with
/// a byte order mark.
/// `TooDeep` if the text is JSON up to an array or an object that opens too deep, `DuplicateName` if it is JSON up to a key
/// that its object has already and may have once. `Emitter` with the error of the writer's
/// emitter, which has it now, or with `Memory` if an allocation fails. After an error the writer was given exactly the events of the
/// tokens before, and its emitter has no error that it hadn't before, unless it is the one that is returned. The writer can be used
/// further: the collections are open that these events leave open, and the next node has no anchor and no tag.
pub fn write_json<A: Allocator + Copy>(
    alloc: A,
    writer: &mut Writer<A>,
    text: &str,
    settings: JsonSettings,
) -> Result<(), JsonError>
    requires { IsBare writer.old }
    ensures { WritesText settings text.now writer.old result writer.new }
{
    match write_text_by(alloc, writer, text, &settings) {
        Ok(()) => Ok(()),
        Err(stopped) => Err(error_of(text, 0, text, stopped)),
    }
}

/// Returns the YAML of a JSON text: a stream of one document, which both schemas of YAML read as the text's value: in portable mode
/// with the line breaks of YAML 1.1 and with those of 1.2, else with those of the settings.
///
/// # Errors
///
/// `NotJson`, `Marked`, `TooDeep` and `DuplicateName` as by `write_json`. `Emitter` with
/// `WriteError` if the bytes pass the limit, with `Memory` if an allocation fails, and with `TooDeep` if arrays and objects
/// nest more than 1,000,000 deep and `settings.values.depth` allows it. No other error of the writer comes.
pub fn yaml_from_json<A: Allocator + Copy>(
    alloc: A,
    text: &str,
    settings: JsonSettings,
) -> Result<Vec<u8, A>, JsonError>
    ensures { ReturnsYaml settings text.now result }
{
    let Ok(mut writer) = Writer::new(alloc, settings.values.emitter) else {
        return Err(JsonError::Emitter(yaml_error_t::Memory));
    };
    if let Err(error) = write_json(alloc, &mut writer, text, settings) {
        writer.promised();
        return Err(error);
    }
    writer.promised();
    match writer.finish() {
        Ok(bytes) => Ok(bytes),
        Err(error) => Err(JsonError::Emitter(error)),
    }
}
