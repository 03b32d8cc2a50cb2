//! The end of a run: its result, its exit status, and its line on standard error.
ghost use Rattle.std.specs.Prelude.{◌≡◌, IsOk, OnOk, Some};
ghost use Rattle.std.specs.Io.KnownBytes.{Appends};
ghost use Rattle.yaml_tool.specs.Answers.{fault_text, answer_line, status_of};

use std::io::Write;
use std::{fmt, io};
use thiserror::Error;
use yaml_base::yaml_error_t;

/// The outcome of a run.
#[derive(Clone, Copy, PartialEq, Eq, Debug)]
pub enum run_answer_t {
    /// Each event was taken without an error, and what was ready was written: the whole stream, if the events are one.
    Done,
    /// The call with the event of this line returned this error. If the last flush failed, the line is that of the last event.
    Refused(u64, yaml_error_t),
    /// This line cannot be parsed.
    BadLine(u64),
    /// The script could not be read.
    ReadFailed,
    /// The output could not be written.
    WriteFailed,
    /// An allocation outside the emitter failed.
    NoMemory,
}

/// Returns the exit status: 0 for `Done`, 1 for `Refused`, 2 for `BadLine`, else 3.
pub fn status(answer: &run_answer_t) -> u8
    ensures { result ≡ status_of answer.now }
{
    match answer {
        run_answer_t::Done => 0,
        run_answer_t::Refused(_, _) => 1,
        run_answer_t::BadLine(_) => 2,
        run_answer_t::ReadFailed | run_answer_t::WriteFailed | run_answer_t::NoMemory => 3,
    }
}

/// An error in a run.
#[derive(Drop, Error)]
enum Fault {
    Refused(u64, yaml_error_t),
    BadLine(u64),
    ReadFailed,
    WriteFailed,
    NoMemory,
}

/// The message of each error. A message in `#[error(..)]` would state no `output`.
impl fmt::Display for Fault {
    ghost output = { λ fault. Some (fault_text fault) };

    fn fmt<W: fmt::Write>(&self, f: &mut fmt::Formatter<W>) -> fmt::Result {
        match self {
            Fault::Refused(line, error) => write!(f, "yamlemit: line {line}: {error}"),
            Fault::BadLine(line) => write!(f, "yamlemit: line {line}: cannot be read"),
            Fault::ReadFailed => f.write_str("yamlemit: cannot read"),
            Fault::WriteFailed => f.write_str("yamlemit: cannot write"),
            Fault::NoMemory => f.write_str("yamlemit: out of memory"),
        }
    }
}

/// Writes the same message, since an `Error` has a `Debug`.
impl fmt::Debug for Fault {
    fn fmt<W: fmt::Write>(&self, f: &mut fmt::Formatter<W>) -> fmt::Result {
        fmt::Display::fmt(self, f)
    }
}

/// Writes the line that reports a result, with a line break; nothing for `Done`.
///
/// # Errors
///
/// The writer's error.
pub fn write_line<W: Write>(answer: &run_answer_t, writer: &mut W) -> io::Result<()>
    ensures done { answer.now ≡ run_answer_t.Done → IsOk result × (W.contents writer.new ≡ W.contents writer.old) }
    ensures line { OnOk result (Appends (W.contents writer.old) (W.contents writer.new) (answer_line answer.now)) }
{
    let fault = match answer {
        run_answer_t::Done => return Ok(()),
        run_answer_t::Refused(line, error) => Fault::Refused(*line, *error),
        run_answer_t::BadLine(line) => Fault::BadLine(*line),
        run_answer_t::ReadFailed => Fault::ReadFailed,
        run_answer_t::WriteFailed => Fault::WriteFailed,
        run_answer_t::NoMemory => Fault::NoMemory,
    };
    writeln!(writer, "{fault}")
}
