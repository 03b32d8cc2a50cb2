//! The output of a conversion: a heading, and the YAML of the files.
ghost use Rattle.std.specs.Prelude.{◌≡◌, IfErr, IfOk, OnOk, option_map};
ghost use Rattle.std.specs.Io.Buffered.{writer_contents, writer_inner};
ghost use Rattle.std.specs.Io.KnownBytes.{Appends};
ghost use Rattle.yaml_program.specs.Conversions.{RefusesConversion, WroteConversion, heading_bytes};
ghost use Rattle.yaml_program.specs.Faults as statuses;

use crate::arguments::Conversion;
use crate::faults::{Failure, NO_MEMORY};
use crate::formats::Format;
use crate::sources::Sources;
use std::io::{BufWriter, Write};
use yaml_writer::comment_lines;

/// The number of bytes that are written in one call.
pub(crate) const BUFFER_SIZE: usize = 65_536;

/// Writes the lines of a heading, if there is one.
fn send_heading<S: Sources + AllocGlobal, W: Write>(
    sources: &S,
    heading: Option<&str>,
    sink: &mut W,
) -> Result<(), Failure>
    ensures wrote { OnOk result (Appends (W.contents sink.old) (W.contents sink.new) (heading_bytes (option_map (λ text. text.now) heading.entry))) }
    ensures failed { IfErr result (λ failure. statuses.failure_status failure ≡ 3) }
{
    let Some(text) = heading else {
        return Ok(());
    };
    let Ok(lines) = comment_lines(sources.alloc(), text) else {
        return Err(NO_MEMORY);
    };
    match sink.write_all(lines.as_bytes()) {
        Ok(()) => Ok(()),
        Err(error) => Err(Failure::WriteFailed(error)),
    }
}

/// Writes the heading and the YAML of a conversion.
///
/// # Errors
///
/// The failure, with the name of the file at which it occurred, if it was at one that is named.
pub fn send_all<'a, F: Format, S: Sources + AllocGlobal, W: Write>(
    sources: &S,
    conversion: &Conversion<'a, F>,
    sink: &mut W,
) -> Result<(), (Option<&'a str>, Failure)>
    ensures wrote { OnOk result (WroteConversion F.is_yaml (S.bytes_of sources.now) conversion.now (W.contents sink.old) (W.contents sink.new)) }
    ensures refused { IfErr result (λ stop. RefusesConversion F.is_yaml (S.bytes_of sources.now) conversion.now stop.1) }
{
    if let Err(error) = send_heading(sources, conversion.heading, sink) {
        return Err((None, error));
    }
    let names = conversion.files.as_slice();
    match conversion.format.send_files(sources, names, sink) {
        Ok(()) => Ok(()),
        Err(stop) => Err(stop),
    }
}

/// Writes the heading and the YAML of a conversion to a buffer, which is flushed at the end, even after a failure.
///
/// # Errors
///
/// As for `send_all`.
pub fn send_buffered<'a, F: Format, S: Sources + AllocGlobal, W: Write + Drop>(
    sources: &S,
    conversion: &Conversion<'a, F>,
    buffer: &mut BufWriter<W>,
) -> Result<(), (Option<&'a str>, Failure)>
    ensures wrote { OnOk result (WroteConversion F.is_yaml (S.bytes_of sources.now) conversion.now (writer_contents W.contents buffer.old)
        (W.contents (writer_inner buffer.new))) }
    ensures refused { IfErr result (λ stop. RefusesConversion F.is_yaml (S.bytes_of sources.now) conversion.now stop.1) }
{
    let sent = send_all(sources, conversion, buffer);
    let flushed = buffer.flush();
    if let Err(stop) = sent {
        return Err(stop);
    }
    match flushed {
        Ok(()) => Ok(()),
        Err(error) => Err((None, Failure::WriteFailed(error))),
    }
}

/// Writes the heading and the YAML of a conversion to a sink through a buffer, and returns the sink.
///
/// # Errors
///
/// As for `send_all`.
pub fn send_to_sink<'a, F: Format, S: Sources + AllocGlobal, W: Write + Drop>(
    sources: &S,
    conversion: &Conversion<'a, F>,
    sink: W,
) -> Result<W, (Option<&'a str>, Failure)>
    ensures wrote { IfOk result (λ written. WroteConversion F.is_yaml (S.bytes_of sources.now) conversion.now (W.contents sink) (W.contents written)) }
    ensures refused { IfErr result (λ stop. RefusesConversion F.is_yaml (S.bytes_of sources.now) conversion.now stop.1) }
{
    let mut buffer = match BufWriter::with_capacity(sources.alloc(), BUFFER_SIZE, sink) {
        Ok(buffer) => buffer,
        Err(error) => return Err((None, Failure::WriteFailed(error))),
    };
    if let Err(stop) = send_buffered(sources, conversion, &mut buffer) {
        return Err(stop);
    }
    let (written, _empty) = buffer.into_parts();
    Ok(written)
}
