//! The YAML of several files, written one after another as one stream.
ghost use Rattle.std.specs.Prelude.{◌≡◌, ℕ, List, Some, IfErr, OnOk, false, map};
ghost use Rattle.yaml_writer.specs.Writing.{awaits_node};
ghost use Rattle.yaml_program.specs.Conversions.{AreBytesOf, OfNames};
ghost use Rattle.yaml_program.specs.Faults as statuses;
ghost use Rattle.yaml_program.specs.Streams.{BeganDocument, RefusesBehind, RefusesDocument, RefusesSome, RefusesStream};
ghost use Rattle.yaml_program.specs.Streams.{Sending, SentBehind, SentFiles, SentStream};

use crate::faults::Failure;
use crate::sources::{STREAM, Sources};
use std::alloc::Global;
use std::io::Write;
use yaml_writer::{Settings, Writer};

/// A format that gives the YAML of a file to a writer.
pub trait SendsFile {
    // Relates a file and the states before and after it is sent.
    ghost sent: { Self → Sending };

    // Relates a file that is refused and the states before and after it is sent as far as it goes.
    ghost refused: { Self → Sending };

    /// Gives a writer the YAML of a file, or of standard input for its name, and writes to the sink all but the last document, which the
    /// writer keeps.
    ///
    /// # Errors
    ///
    /// The failure.
    fn send_file<S: Sources + AllocGlobal, W: Write>(
        &self,
        sources: &S,
        name: &str,
        writer: &mut Writer<Global>,
        sink: &mut W,
    ) -> Result<(), Failure>
        requires { awaits_node writer.old ≡ false }
        ensures free { OnOk result (awaits_node writer.new ≡ false) }
        ensures sent { OnOk result ((file : List ℕ) → S.bytes_of sources.now name.now ≡ Some file
            → sent self.now file writer.old (W.contents sink.old) writer.new (W.contents sink.new)) }
        ensures refused { IfErr result (λ failure. statuses.failure_status failure ≡ 1
            → (file : List ℕ) → S.bytes_of sources.now name.now ≡ Some file
            → refused self.now file writer.old (W.contents sink.old) writer.new (W.contents sink.new)) };
}

/// Begins the next document of a writer, and writes those before it to the sink.
fn begin_next<W: Write>(writer: &mut Writer<Global>, sink: &mut W) -> Result<(), Failure>
    requires { awaits_node writer.old ≡ false }
    ensures free { OnOk result (awaits_node writer.new ≡ false) }
    ensures begun { OnOk result (BeganDocument writer.old (W.contents sink.old) writer.new (W.contents sink.new)) }
    ensures refused { IfErr result (λ failure. statuses.failure_status failure ≡ 1 → RefusesDocument writer.old writer.new) }
{
    if let Err(error) = writer.next_document() {
        return Err(Failure::Unwritten(error));
    }
    match writer.send(sink) {
        Ok(()) => Ok(()),
        Err(error) => Err(Failure::WriteFailed(error)),
    }
}

/// Writes the YAML of these files after that of others: all but the last document, which the writer keeps.
///
/// # Errors
///
/// The failure, with the name of the file at which it occurred.
fn send_others<'a, F: SendsFile, S: Sources + AllocGlobal, W: Write>(
    format: &F,
    sources: &S,
    names: &[&'a str],
    writer: &mut Writer<Global>,
    sink: &mut W,
) -> Result<(), (Option<&'a str>, Failure)>
    requires { awaits_node writer.old ≡ false }
    ensures free { OnOk result (awaits_node writer.new ≡ false) }
    ensures sent { OnOk result ((files : List (List ℕ)) → AreBytesOf (S.bytes_of sources.now) (map (λ name. name.now) names.now) files
        → SentBehind (F.sent format.now) files writer.old (W.contents sink.old) writer.new (W.contents sink.new)) }
    ensures refused { IfErr result (λ stop. statuses.failure_status stop.1 ≡ 1
        → (files : List (List ℕ)) → AreBytesOf (S.bytes_of sources.now) (map (λ name. name.now) names.now) files
        → RefusesBehind (F.sent format.now) (F.refused format.now) files writer.old (W.contents sink.old) writer.new (W.contents sink.new)) }
{
    for name in names {
        if let Err(error) = begin_next(writer, sink) {
            return Err((Some(*name), error));
        }
        if let Err(error) = format.send_file(sources, name, writer, sink) {
            return Err((Some(*name), error));
        }
    }
    Ok(())
}

/// Writes the YAML of these files, or of standard input if none is named: all but the last document, which the writer keeps.
///
/// # Errors
///
/// The failure, with the name of the file at which it occurred, if it was at one that is named.
fn send_documents<'a, F: SendsFile, S: Sources + AllocGlobal, W: Write>(
    format: &F,
    sources: &S,
    names: &[&'a str],
    writer: &mut Writer<Global>,
    sink: &mut W,
) -> Result<(), (Option<&'a str>, Failure)>
    requires { awaits_node writer.old ≡ false }
    ensures free { OnOk result (awaits_node writer.new ≡ false) }
    ensures sent { OnOk result (OfNames (S.bytes_of sources.now) (map (λ name. name.now) names.now) (λ files.
        SentFiles (F.sent format.now) files writer.old (W.contents sink.old) writer.new (W.contents sink.new))) }
    ensures refused { IfErr result (λ stop. statuses.failure_status stop.1 ≡ 1
        → OfNames (S.bytes_of sources.now) (map (λ name. name.now) names.now) (λ files.
        RefusesSome (F.sent format.now) (F.refused format.now) files writer.old (W.contents sink.old) writer.new (W.contents sink.new))) }
{
    let Some((first, others)) = names.split_first() else {
        return match format.send_file(sources, STREAM, writer, sink) {
            Ok(()) => Ok(()),
            Err(error) => Err((None, error)),
        };
    };
    if let Err(error) = format.send_file(sources, first, writer, sink) {
        return Err((Some(*first), error));
    }
    send_others(format, sources, others, writer, sink)
}

/// Writes the YAML of these files, or of standard input if none is named, as one stream by these settings.
///
/// # Errors
///
/// The failure, with the name of the file at which it occurred, if it was at one that is named.
pub fn send_stream<'a, F: SendsFile, S: Sources + AllocGlobal, W: Write>(
    format: &F,
    settings: Settings,
    sources: &S,
    names: &[&'a str],
    sink: &mut W,
) -> Result<(), (Option<&'a str>, Failure)>
    ensures sent { OnOk result (OfNames (S.bytes_of sources.now) (map (λ name. name.now) names.now) (λ files.
        SentStream (F.sent format.now) settings files (W.contents sink.old) (W.contents sink.new))) }
    ensures refused { IfErr result (λ stop. statuses.failure_status stop.1 ≡ 1
        → OfNames (S.bytes_of sources.now) (map (λ name. name.now) names.now) (λ files.
        RefusesStream (F.sent format.now) (F.refused format.now) settings files (W.contents sink.old) (W.contents sink.new))) }
{
    let mut writer = match Writer::new(sources.alloc(), settings) {
        Ok(writer) => writer,
        Err(error) => return Err((None, Failure::Unwritten(error))),
    };
    let sent = send_documents(format, sources, names, &mut writer, sink);
    // A law: the consequences of the events that were given.
    writer.promised();
    if let Err(stop) = sent {
        return Err(stop);
    }
    match writer.finish() {
        Ok(bytes) => match sink.write_all(bytes.as_slice()) {
            Ok(()) => Ok(()),
            Err(error) => Err((None, Failure::WriteFailed(error))),
        },
        Err(error) => Err((None, Failure::Unwritten(error))),
    }
}
