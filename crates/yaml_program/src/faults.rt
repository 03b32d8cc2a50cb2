//! The failures of a program, its messages for them, and its status.
ghost use Rattle.std.specs.Prelude.{◌≡◌, ◌≤◌, IfErr, IsOk, codes, option_map, false};
ghost use Rattle.yaml_program.specs.Faults as statuses;
ghost use Rattle.yaml_program.specs.Messages as messages;

use crate::messages::{Messages, line_of};
use crate::sources::STREAM;
use std::io::{ErrorKind, Write};
use std::{fmt, io};
use yaml_base::{Position, Quoted};
use yaml_writer::yaml_error_t;

/// The reason why a text is refused.
#[derive(Drop)]
pub enum Reason {
    /// The reason in words.
    Words(&'static str),
    /// The text defines this name a second time.
    Twice { name: String, first: Position },
}

impl fmt::Display for Reason {
    ghost output = { messages.reason_text };

    fn fmt<W: fmt::Write>(&self, f: &mut fmt::Formatter<W>) -> fmt::Result {
        match self {
            Reason::Words(words) => f.write_str(words),
            Reason::Twice { name, first } => {
                let name = Quoted(name.as_str());
                write!(f, "{name} is defined at {first}, and takes no more")
            }
        }
    }
}

/// The reason why files aren't converted to their end.
#[derive(Drop)]
pub enum Failure {
    /// A text is refused, at this position, or as a whole (`None`).
    Refused {
        place: Option<Position>,
        reason: Reason,
    },
    /// A document can't be written, or an allocation failed (`Memory`).
    Unwritten(yaml_error_t),
    /// Reading failed.
    ReadFailed(io::Error),
    /// Writing failed.
    WriteFailed(io::Error),
}

/// Writes the reason, without the place.
impl fmt::Display for Failure {
    ghost output = { messages.failure_text };

    fn fmt<W: fmt::Write>(&self, f: &mut fmt::Formatter<W>) -> fmt::Result {
        match self {
            Failure::Refused { reason, .. } => reason.fmt(f),
            Failure::Unwritten(error) => error.fmt(f),
            Failure::ReadFailed(error) | Failure::WriteFailed(error) => error.fmt(f),
        }
    }
}

/// The failure that is reported if no memory is left.
pub const NO_MEMORY: Failure = Failure::Unwritten(yaml_error_t::Memory);

/// Returns whether a failure is that no memory was left.
fn is_out_of_memory(error: &Failure) -> bool
    ensures { result ≡ messages.is_of_memory error.now }
{
    match error {
        Failure::Unwritten(yaml_error_t::Memory) => true,
        Failure::ReadFailed(error) | Failure::WriteFailed(error) => {
            matches!(error.kind(), ErrorKind::OutOfMemory)
        }
        _ => false,
    }
}

/// Returns whether a failure is that nobody reads the output.
fn is_unread(error: &Failure) -> bool
    ensures { result ≡ messages.is_unread error.now }
{
    match error {
        Failure::WriteFailed(error) => matches!(error.kind(), ErrorKind::BrokenPipe),
        _ => false,
    }
}

/// Returns the position at which a text is refused, if it isn't refused as a whole.
fn position_of(error: &Failure) -> Option<Position>
    ensures { result ≡ messages.position_of error.now }
{
    match error {
        Failure::Refused { place, .. } => *place,
        _ => None,
    }
}

/// Returns the words for the operation that failed, or no words if none did.
fn operation_of(error: &Failure) -> &'static str
    ensures { result.now ≡ messages.operation_text error.now }
{
    match error {
        Failure::ReadFailed(_) => "cannot read ",
        Failure::WriteFailed(_) => "cannot write ",
        _ => "",
    }
}

/// Returns the name of the stream that can't be read or written, or whose text is refused.
fn stream_of(error: &Failure) -> &'static str
    ensures { result.now ≡ messages.stream_text error.now }
{
    match error {
        Failure::WriteFailed(_) => "standard output",
        _ => "standard input",
    }
}

/// A file or a stream in a message. The name of a stream has no quotes, so no file's name looks like it.
#[derive(Clone, Copy)]
enum Place<'a> {
    File(Quoted<'a>),
    Stream(&'static str),
}

impl fmt::Display for Place<'_> {
    ghost output = { messages.place_text };

    fn fmt<W: fmt::Write>(&self, f: &mut fmt::Formatter<W>) -> fmt::Result {
        match self {
            Place::File(name) => name.fmt(f),
            Place::Stream(name) => f.write_str(name),
        }
    }
}

/// Returns the file or the stream that can't be read or written, or whose text is refused.
fn place_of<'a>(error: &Failure, name: Option<&'a str>) -> Place<'a>
    ensures { messages.IsPlaceOf error.now (option_map (λ name. name.now) name.entry) (messages.place_text result) }
{
    match name {
        Some(name) if name != STREAM => Place::File(Quoted(name)),
        _ => Place::Stream(stream_of(error)),
    }
}

/// Writes a failure as a line, with the name of the file.
fn write_failure<W: Write>(error: &Failure, name: Option<&str>, faults: &mut Messages<W>)
    ensures { messages.Tells W.contents faults.old faults.new
        (messages.IsFailureLine faults.old.words.now.name.now error.now (option_map (λ name. name.now) name.entry)) }
{
    let name = faults.loss.part(place_of(error, name));
    let reason = faults.loss.part(error);
    if let Some(Position { line, column }) = position_of(error) {
        let numbers = faults.loss.part(format_args!(":{line}:{column}: "));
        faults.tell(&[name.as_str(), numbers.as_str(), reason.as_str(), "\n"]);
    } else {
        let program = faults.words.name;
        let operation = operation_of(error);
        faults.tell(&line_of(program, operation, name.as_str(), ": ", reason.as_str()));
    }
}

/// Reports why the arguments are refused, and returns the status for that.
pub fn refuse<W: Write>(why: &str, faults: &mut Messages<W>) -> u8
    ensures status { result ≡ 2 }
    ensures told { messages.Told W.contents faults.old faults.new (messages.message_line faults.old.words.now.name.now why.now) }
{
    faults.tell(&line_of(faults.words.name, why, "", "", ""));
    2
}

/// Reports that no memory is left, and returns the status.
pub fn run_out<W: Write>(faults: &mut Messages<W>) -> u8
    ensures status { result ≡ 3 }
    ensures told { messages.Told W.contents faults.old faults.new (messages.message_line faults.old.words.now.name.now (codes "out of memory")) }
{
    refuse("out of memory", faults);
    3
}

/// Reports a failure, unless it is that nobody reads the output, and returns the status: 1 if a text isn't written as YAML, 3 if reading,
/// writing or memory failed.
pub fn give_up<W: Write>(error: Failure, name: Option<&str>, faults: &mut Messages<W>) -> u8
    ensures status { result ≡ statuses.failure_status error }
    ensures some { 1 ≤ result }
    ensures known { result ≤ 3 }
    ensures told { messages.ToldFailure W.contents faults.old faults.new error (option_map (λ name. name.now) name.entry) }
{
    if is_out_of_memory(&error) {
        run_out(faults);
    } else if !is_unread(&error) {
        write_failure(&error, name, faults);
    }
    match error {
        Failure::Unwritten(yaml_error_t::Memory) => 3,
        Failure::Refused { .. } | Failure::Unwritten(_) => 1,
        Failure::ReadFailed(_) | Failure::WriteFailed(_) => 3,
    }
}

/// Reports the failure, if there is one, and returns the status. A failure to write is at `output`.
pub fn report<W: Write>(
    sent: Result<(), (Option<&str>, Failure)>,
    output: Option<&str>,
    faults: &mut Messages<W>,
) -> u8
    ensures status { result ≡ statuses.status_of_run sent.entry }
    ensures done { result ≡ 0 → IsOk sent.entry }
    ensures quiet { IsOk sent.entry → faults.new ≡ faults.old }
    ensures told { IfErr sent.entry (λ stop. messages.ToldFailure W.contents faults.old faults.new stop.1
        (messages.name_of_failure stop.1 (option_map (λ name. name.now) stop.0) (option_map (λ name. name.now) output.entry))) }
    ensures known { result ≤ 3 }
{
    match sent {
        Ok(()) => 0,
        Err((_, Failure::WriteFailed(error))) => {
            give_up(Failure::WriteFailed(error), output, faults)
        }
        Err((name, error)) => give_up(error, name, faults),
    }
}
