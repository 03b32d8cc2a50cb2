//! JSON texts that follow one another, read part by part and sent on as they are complete.
ghost use Rattle.std.specs.Prelude.{◌≡◌, ◌≤◌, ◌-◌, ℕ, Bool, List, [], OnOk, drop, length};
ghost use Rattle.json.specs.Token.{Token};
ghost use Rattle.yaml_json.specs.Nests.{AwaitsText};
ghost use Rattle.yaml_json.specs.Cuts.{HasScanned};
ghost use Rattle.yaml_json.specs.Places.{HasPlaceWithin, IsPositionAfter, MovesPosition};
ghost use Rattle.yaml_json.specs.SendingCalls.{BytesStep, CompleteStep, DropStep, LastStep, NextStep, ReadStep, SendsTexts};
ghost use Rattle.yaml_json.specs.Sent.{IsIncoming, IsScanned, StopsPartAt, emitter_error};
ghost use Rattle.yaml_writer.specs.WasGiven.{IsBare};

use crate::cuts::{Cut, find_end, new_cut};
use crate::error::{JsonError, StreamError};
use crate::places::{position_after, position_from};
use crate::settings::JsonSettings;
use crate::texts::{Room, error_of, write_text_in};
use bumpalo::Bump;
use std::alloc::Allocator;
use std::io::{ErrorKind, Read, Write};
use std::{io, str};
use yaml_base::{Position, position_of};
use yaml_writer::{Writer, yaml_error_t};

/// The number of bytes that are read at once.
const PART_SIZE: usize = 65_536;

const NO_MEMORY: StreamError = StreamError::Refused(JsonError::Emitter(yaml_error_t::Memory));

/// The progress of reading the texts.
#[derive(Drop)]
pub(crate) struct Reading<A: Allocator> {
    alloc: A,
    pub(crate) cut: Cut,
    /// The position at which the input begins that came and isn't written yet.
    position: Position,
}

/// The input that came and isn't written yet.
#[derive(Drop)]
pub(crate) struct Incoming<A: Allocator> {
    pub(crate) held: Vec<u8, A>,
    pub(crate) reading: Reading<A>,
}

impl<A: Allocator + Copy> Incoming<A> {
    /// Makes the state before anything came.
    fn new(alloc: A) -> Self
        ensures scanned { IsScanned result }
        ensures nothing { result.held.items ≡ [] }
        ensures place { IsPositionAfter [] result.reading.position }
    {
        Incoming {
            held: Vec::new(alloc),
            reading: Reading {
                alloc,
                cut: new_cut(),
                position: Position { line: 1, column: 1 },
            },
        }
    }
}

/// Reads a part. Returns whether more may follow.
fn read_more<A: Allocator + Copy, R: Read>(
    alloc: A,
    incoming: &mut Incoming<A>,
    reader: &mut R,
) -> Result<bool, StreamError>
    requires { IsScanned incoming.old }
    ensures { ReadStep incoming.old (R.remaining reader.old) result incoming.new (R.remaining reader.new) }
{
    let mut part = Vec::new(alloc);
    if let Err(_) = part.resize(PART_SIZE, 0) {
        return Err(NO_MEMORY);
    }
    let bytes = part.as_mut_slice();
    match reader.read(bytes) {
        Ok(0) => Ok(false),
        Ok(count) => match incoming.held.extend_from_slice(&bytes[..count]) {
            Ok(()) => Ok(true),
            Err(_) => Err(NO_MEMORY),
        },
        Err(error) => match error.kind() {
            ErrorKind::Interrupted => Ok(true),
            ErrorKind::OutOfMemory => Err(NO_MEMORY),
            _ => Err(StreamError::ReadFailed(error)),
        },
    }
}

/// Gives a writer the events of a JSON text.
fn write_bytes<'a, A: Allocator + Copy>(
    room: &mut Room<'a, A>,
    writer: &mut Writer<A>,
    bytes: &'a [u8],
    settings: &JsonSettings,
) -> Result<(), StreamError>
    requires bare { IsBare writer.old }
    requires ready { AwaitsText settings.now.unique_names room.old }
    ensures ready { OnOk result (AwaitsText settings.now.unique_names room.new) }
    ensures gives { BytesStep settings.now bytes.now writer.old result writer.new }
{
    let text = match str::from_utf8(bytes) {
        Ok(text) => text,
        Err(error) => {
            let position = position_of(bytes, error.valid_up_to());
            return Err(StreamError::NotText { position });
        }
    };
    match write_text_in(room, writer, text, settings) {
        Ok(()) => Ok(()),
        Err(stopped) => Err(StreamError::Refused(error_of(text, 0, text, stopped))),
    }
}

/// Adds the text's start to the error's position.
fn shifted_by(error: StreamError, start: Position) -> StreamError
    ensures says { (depth : ℕ) (unique : Bool) (all : List ℕ) (taken left : List Token) → StopsPartAt depth unique all taken left error
        → StopsPartAt depth unique all taken left result }
    ensures by_emitter { emitter_error result ≡ emitter_error error }
    ensures place { (depth : ℕ) (front part : List ℕ) → IsPositionAfter front start → HasPlaceWithin depth [] part error
        → HasPlaceWithin depth front part result }
{
    match error {
        StreamError::Refused(JsonError::NotJson { position, expected }) => {
            let position = position_from(start, position);
            StreamError::Refused(JsonError::NotJson { position, expected })
        }
        StreamError::Refused(JsonError::Marked { position }) => {
            let position = position_from(start, position);
            StreamError::Refused(JsonError::Marked { position })
        }
        StreamError::Refused(JsonError::TooDeep { position }) => {
            let position = position_from(start, position);
            StreamError::Refused(JsonError::TooDeep { position })
        }
        StreamError::Refused(JsonError::DuplicateName { position }) => {
            let position = position_from(start, position);
            StreamError::Refused(JsonError::DuplicateName { position })
        }
        StreamError::NotText { position } => {
            let position = position_from(start, position);
            StreamError::NotText { position }
        }
        other => other,
    }
}

/// Begins the next document, and sends on the output.
fn begin_next<A: Allocator + Copy, W: Write>(
    writer: &mut Writer<A>,
    sink: &mut W,
) -> Result<(), StreamError>
    requires { IsBare writer.old }
    ensures { NextStep writer.old (W.contents sink.old) result writer.new (W.contents sink.new) }
{
    if let Err(error) = writer.next_document() {
        return Err(StreamError::Refused(JsonError::Emitter(error)));
    }
    match writer.send(sink) {
        Ok(()) => Ok(()),
        Err(error) => Err(StreamError::WriteFailed(error)),
    }
}

/// Keeps the last `count` bytes of the input that came.
fn keep_last<A: Allocator + Copy>(incoming: &mut Incoming<A>, count: usize)
    requires { count ≤ length incoming.old.held.items }
    ensures kept { incoming.new.held.items ≡ drop (length incoming.old.held.items - count) incoming.old.held.items }
    ensures cut { incoming.new.reading.cut ≡ incoming.old.reading.cut }
    ensures place { MovesPosition incoming.old.held.items incoming.new.held.items incoming.old.reading.position incoming.new.reading.position }
{
    let start = incoming.held.len() - count;
    if start == 0 {
        return;
    }
    incoming.reading.position = position_after(incoming.reading.position, &incoming.held[..start]);
    incoming.held.copy_within(start.., 0);
    incoming.held.truncate(count);
}

/// Gives a writer the texts that are complete in the input that came, and sends on the output of each. Returns how many bytes are left.
fn write_texts<A: Allocator + Copy, W: Write>(
    writer: &mut Writer<A>,
    sink: &mut W,
    held: &[u8],
    reading: &mut Reading<A>,
    settings: &JsonSettings,
) -> Result<usize, StreamError>
    requires bare { IsBare writer.old }
    requires scanned { HasScanned held.now reading.old.cut }
    ensures place { reading.new.position ≡ reading.old.position }
    ensures gives { CompleteStep settings.now held.now reading.old.position writer.old (W.contents sink.old) result reading.new.cut writer.new
        (W.contents sink.new) }
{
    let arena = Bump::new(reading.alloc);
    let mut room = Room::new(reading.alloc, &arena, settings.unique_names);
    let mut rest = held;
    'texts: while let Some(end) = find_end(rest, &mut reading.cut) {
        let (first, more) = rest.split_at(end);
        if let Err(error) = write_bytes(&mut room, writer, first, settings) {
            let done = &held[..held.len() - rest.len()];
            return Err(shifted_by(error, position_after(reading.position, done)));
        }
        if let Err(error) = begin_next(writer, sink) {
            return Err(error);
        }
        reading.cut = new_cut();
        rest = more;
    }
    Ok(rest.len())
}

/// Gives a writer the texts that are complete in the input that came, sends on the output of each, and drops their bytes.
fn write_complete<A: Allocator + Copy, W: Write>(
    writer: &mut Writer<A>,
    sink: &mut W,
    incoming: &mut Incoming<A>,
    settings: &JsonSettings,
) -> Result<(), StreamError>
    requires bare { IsBare writer.old }
    requires incoming { IsIncoming incoming.old }
    ensures { DropStep settings.now incoming.old writer.old (W.contents sink.old) result incoming.new writer.new (W.contents sink.new) }
{
    let held = incoming.held.as_slice();
    match write_texts(writer, sink, held, &mut incoming.reading, settings) {
        Ok(count) => {
            keep_last(incoming, count);
            Ok(())
        }
        Err(error) => Err(error),
    }
}

/// Gives a writer the last text.
fn write_last<A: Allocator + Copy>(
    writer: &mut Writer<A>,
    incoming: &mut Incoming<A>,
    settings: &JsonSettings,
) -> Result<(), StreamError>
    requires { IsBare writer.old }
    ensures { LastStep settings.now incoming.old.held.items incoming.old.reading.position writer.old result writer.new }
{
    let text = incoming.held.as_slice();
    let reading = &mut incoming.reading;
    let arena = Bump::new(reading.alloc);
    let mut room = Room::new(reading.alloc, &arena, settings.unique_names);
    if let Err(error) = write_bytes(&mut room, writer, text, settings) {
        return Err(shifted_by(error, reading.position));
    }
    Ok(())
}

/// Reads JSON texts that follow one another to the reader's end, and gives their events to a writer, as `write_json_texts` does:
/// a document each, the first as the document that the writer is in. A text is known to be complete once the next one begins:
/// then the next document is begun, and the sink is given the output until then. The last text's document is left to the
/// writer.
///
/// No more is held than a part of 65,536 bytes, a text that isn't complete, and the YAML of its document. The sink is flushed
/// after each part.
///
/// The writer must have no anchor and no tag for the next node. After `Ok` the reader is at its end, the writer has no anchor and no
/// tag again, and its emitter has no error. Whatever is returned, earlier output stays.
///
/// # Errors
///
/// `Refused` as by `write_json_texts`; `NotText` if a text isn't UTF-8; `ReadFailed` and `WriteFailed`. Until then the sink was
/// given whole documents, those of the texts before the one that is refused. A sink that failed has a beginning of their bytes, and
/// the writer still has the bytes that were offered to it last. The writer can be used further, as after an error of `write_json`.
pub fn send_json_texts<A: Allocator + Copy, W: Write, R: Read>(
    alloc: A,
    writer: &mut Writer<A>,
    sink: &mut W,
    reader: &mut R,
    settings: JsonSettings,
) -> Result<(), StreamError>
    requires { IsBare writer.old }
    ensures { SendsTexts settings (R.remaining reader.old) (R.remaining reader.new) writer.old (W.contents sink.old) result writer.new
        (W.contents sink.new) }
{
    let mut incoming = Incoming::new(alloc);
    // No reader promises to end, so the reads are counted.
    let mut turns = u64::MAX;
    'parts: while turns > 0 {
        turns -= 1;
        match read_more(alloc, &mut incoming, reader) {
            Ok(true) => {}
            Ok(false) => {
                let answer = write_last(writer, &mut incoming, &settings);
                writer.promised();
                return answer;
            }
            Err(error) => return Err(error),
        }
        if let Err(error) = write_complete(writer, sink, &mut incoming, &settings) {
            return Err(error);
        }
        if let Err(error) = sink.flush() {
            return Err(StreamError::WriteFailed(error));
        }
    }
    Err(StreamError::ReadFailed(io::Error::from(ErrorKind::TimedOut)))
}
