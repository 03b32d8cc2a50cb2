//! The program: the conversion that its arguments ask for, with files and the standard streams.
ghost use Rattle.std.specs.List.{Any};
ghost use Rattle.std.specs.IoError.{error_kind};
ghost use Rattle.std.specs.Prelude.{◌≡◌, ◌≢◌, ◌≤◌, IfErr, IfOk, OnOk, Some, codes, false, option_map, true};
ghost use Rattle.std.specs.Io.Buffered.{writer_contents, writer_inner};
ghost use Rattle.clap.specs.Values.{kind_of};
ghost use Rattle.yaml_program.specs.Conversions.{AllDone, ComparesNothing, EndsOtherwise, HaveNoYaml, HaveYaml, IsDone, IsRefusedByOptions, IsUndone, OfFiles};
ghost use Rattle.yaml_program.specs.Conversions.{RefusesConversion, SomeUndone, WroteConversion, WroteToStream, names_of};
ghost use Rattle.yaml_program.specs.Faults as statuses;
ghost use Rattle.yaml_program.specs.Messages.{Told, is_memory_kind, message_line};

use crate::arguments::{Conversion, conversion_of, read_arguments};
use crate::checking::check;
use crate::each::convert_each;
use crate::faults::{Failure, give_up, refuse, report, run_out};
use crate::formats::Format;
use crate::messages::Messages;
use crate::output::{Beside, is_written_in_place};
use crate::sending::{BUFFER_SIZE, send_buffered, send_to_sink};
use crate::sources::{STREAM, Sources};
use clap::Error as UsageError;
use clap::error::ErrorKind as UsageKind;
use std::alloc::{AllocError, Global};
use std::io::{BufWriter, ErrorKind, IsTerminal, Write};
use std::os::fd::AsFd;
use std::rt::Runtime;
use std::{fs, io};

/// The message if collections can't nest as deep as the options ask for. (Its number is `MOST_INDENTED`.)
const DEPTH_REFUSED: &str =
    "--depth past 10000 needs --flow, and neither --width nor --canonical: else the output grows with the square of the depth";

/// The message if no file to compare with is named.
const CHECK_REFUSED: &str = "--check needs --each, or --output with a file";

/// Writes the YAML of a conversion to a file, which changes as a whole or not at all.
fn send_to_file<'a, F: Format, S: Sources + AllocGlobal>(
    rt: &HostRuntime,
    sources: &S,
    conversion: &Conversion<'a, F>,
    name: &str,
) -> Result<(), (Option<&'a str>, Failure)>
    ensures stream { OnOk result (OfFiles (S.bytes_of sources.now) conversion.now (HaveYaml (F.is_yaml conversion.now.format))) }
    ensures refused { IfErr result (λ stop. RefusesConversion F.is_yaml (S.bytes_of sources.now) conversion.now stop.1) }
{
    let beside = match Beside::create(rt, F::words().name, name) {
        Ok(made) => made,
        Err(error) => return Err((None, Failure::WriteFailed(error))),
    };
    match send_to_sink(sources, conversion, beside.file()) {
        Ok(_file) => match beside.replace(rt) {
            Ok(()) => Ok(()),
            Err(error) => Err((None, Failure::WriteFailed(error))),
        },
        Err(stop) => {
            beside.remove(rt);
            Err(stop)
        }
    }
}

/// Writes the YAML of a conversion to a device or a pipe.
fn send_to_device<'a, F: Format, S: Sources + AllocGlobal>(
    rt: &HostRuntime,
    sources: &S,
    conversion: &Conversion<'a, F>,
    name: &str,
) -> Result<(), (Option<&'a str>, Failure)>
    ensures stream { OnOk result (OfFiles (S.bytes_of sources.now) conversion.now (HaveYaml (F.is_yaml conversion.now.format))) }
    ensures refused { IfErr result (λ stop. RefusesConversion F.is_yaml (S.bytes_of sources.now) conversion.now stop.1) }
{
    let file = match fs::create(rt, name) {
        Ok(file) => file,
        Err(error) => return Err((None, Failure::WriteFailed(error))),
    };
    match send_to_sink(sources, conversion, file) {
        Ok(_file) => Ok(()),
        Err(stop) => Err(stop),
    }
}

/// Checks standard input if it is to be read: on a terminal, reports that the program waits for input; if it is closed, returns the system's
/// error. (A file that is opened before has the number of standard input then, and would be read in its place.)
fn check_stream<F, I: IsTerminal + AsFd, W: Write>(
    conversion: &Conversion<'_, F>,
    stdin: &I,
    faults: &mut Messages<W>,
) -> io::Result<()> {
    if conversion.files.is_empty() || conversion.files.contains(&STREAM) {
        if stdin.is_terminal() {
            let name = faults.words.name;
            let format = faults.words.format;
            let until = " from the terminal, up to Ctrl-D; ";
            faults.tell(&[
                name,
                ": reading ",
                format,
                until,
                name,
                " --help tells more\n",
            ]);
        }
        let _open = stdin.as_fd().try_clone_to_owned()?;
    }
    Ok(())
}

/// Writes the YAML of a conversion to a file, or compares it with the file; reports a failure, and returns the status.
pub fn perform<F: Format, S: Sources + AllocGlobal, W: Write>(
    rt: &HostRuntime,
    sources: &S,
    conversion: &Conversion<'_, F>,
    name: &str,
    faults: &mut Messages<W>,
) -> u8
    ensures known { result ≤ 3 }
    ensures done { result ≡ 0 → IsDone F.is_yaml (S.bytes_of sources.now) conversion.now (Some name.now) }
    ensures undone { result ≡ 1 → IsUndone F.is_yaml (S.bytes_of sources.now) conversion.now (Some name.now) }
    ensures understood { result ≢ 2 }
{
    if conversion.checks {
        return check(sources, conversion, name, faults);
    }
    let sent = if is_written_in_place(rt, name) {
        send_to_device(rt, sources, conversion, name)
    } else {
        send_to_file(rt, sources, conversion, name)
    };
    report(sent, Some(name), faults)
}

/// Writes the YAML of a conversion to standard output; reports a failure, and returns the status.
fn send_to_stream<F: Format, S: Sources + AllocGlobal, O: Write + Drop, W: Write>(
    sources: &S,
    conversion: &Conversion<'_, F>,
    stdout: &mut BufWriter<O>,
    faults: &mut Messages<W>,
) -> u8
    ensures known { result ≤ 3 }
    ensures wrote { result ≡ 0 → WroteConversion F.is_yaml (S.bytes_of sources.now) conversion.now (writer_contents O.contents stdout.old)
        (O.contents (writer_inner stdout.new)) }
    ensures refused { result ≡ 1 → OfFiles (S.bytes_of sources.now) conversion.now (HaveNoYaml (F.is_yaml conversion.now.format)) }
    ensures understood { result ≢ 2 }
{
    let sent = send_buffered(sources, conversion, stdout);
    report(sent, conversion.output, faults)
}

/// Writes the YAML of a conversion to a file, to which it may be compared, or to standard output; reports a failure, and returns the status.
fn convert_together<F: Format, S: Sources + AllocGlobal, O: Write + Drop, W: Write>(
    rt: &HostRuntime,
    sources: &S,
    conversion: &Conversion<'_, F>,
    stdout: &mut BufWriter<O>,
    faults: &mut Messages<W>,
) -> u8
    ensures known { result ≤ 3 }
    ensures done { result ≡ 0 → IsDone F.is_yaml (S.bytes_of sources.now) conversion.now (option_map (λ name. name.now) conversion.now.output) }
    ensures undone { result ≡ 1 → IsUndone F.is_yaml (S.bytes_of sources.now) conversion.now (option_map (λ name. name.now) conversion.now.output) }
    ensures understood { result ≢ 2 }
    ensures wrote { result ≡ 0 → WroteToStream F.is_yaml (S.bytes_of sources.now) conversion.now (writer_contents O.contents stdout.old)
        (O.contents (writer_inner stdout.new)) }
{
    match conversion.output {
        Some(name) if conversion.checks || name != STREAM => {
            perform(rt, sources, conversion, name, faults)
        }
        _ => send_to_stream(sources, conversion, stdout, faults),
    }
}

/// Standard input, and a buffer before standard output.
#[derive(Drop)]
pub struct Streams<I, O: Write + Drop> {
    pub input: I,
    pub output: BufWriter<O>,
}

/// Converts each file by itself, or all of them together, reports failures, and returns the status.
fn convert<
    F: Format + Copy + Drop,
    S: Sources + AllocGlobal,
    I: IsTerminal + AsFd,
    O: Write + Drop,
    W: Write,
>(
    rt: &HostRuntime,
    sources: &S,
    conversion: &Conversion<'_, F>,
    streams: &mut Streams<I, O>,
    faults: &mut Messages<W>,
) -> u8
    ensures known { result ≤ 3 }
    ensures done { result ≡ 0 → AllDone F.is_yaml F.ending (S.bytes_of sources.now) conversion.now conversion.now.each }
    ensures undone { result ≡ 1 → SomeUndone F.is_yaml F.ending (S.bytes_of sources.now) conversion.now conversion.now.each }
    ensures otherwise { result ≡ 2 → (conversion.now.each ≡ true) × Any (EndsOtherwise F.ending) (names_of conversion.now) }
    ensures wrote { result ≡ 0 → conversion.now.each ≡ false → WroteToStream F.is_yaml (S.bytes_of sources.now) conversion.now
        (writer_contents O.contents streams.old.output) (O.contents (writer_inner streams.new.output)) }
{
    if let Err(error) = check_stream(conversion, &streams.input, faults) {
        return give_up(Failure::ReadFailed(error), None, faults);
    }
    if conversion.each {
        convert_each(rt, sources, conversion, faults)
    } else {
        convert_together(rt, sources, conversion, &mut streams.output, faults)
    }
}

/// Reports why the arguments can't be read, and returns the program's status.
fn refuse_arguments<W: Write>(error: &io::Error, faults: &mut Messages<W>) -> u8
    ensures known { result ≤ 3 }
    ensures memory { is_memory_kind (error_kind error.now) ≡ true
        → (result ≡ 3) × Told W.contents faults.old faults.new (message_line faults.old.words.now.name.now (codes "out of memory")) }
    ensures words { is_memory_kind (error_kind error.now) ≡ false
        → (result ≡ 2) × Told W.contents faults.old faults.new (message_line faults.old.words.now.name.now (codes "an argument isn't UTF-8")) }
{
    if matches!(error.kind(), ErrorKind::OutOfMemory) {
        return run_out(faults);
    }
    refuse("an argument isn't UTF-8", faults)
}

/// Returns the words of an error about arguments. Characters of an argument that don't print are escaped, but for line feeds.
fn printable(alloc: Global, error: &UsageError) -> Result<String, AllocError> {
    let mut shown = String::new(alloc);
    for character in error.to_string(alloc)?.as_str().chars() {
        if matches!(character, '\n' | '\'' | '"' | '\\') {
            shown.push(character)?;
        } else {
            for part in character.escape_debug() {
                shown.push(part)?;
            }
        }
    }
    Ok(shown)
}

/// Prints the help or the version if the arguments ask for it, or reports why they aren't understood, and returns the program's status.
fn answer<R: Runtime + AllocGlobal, W: Write>(
    rt: &R,
    error: &UsageError,
    faults: &mut Messages<W>,
) -> u8
    ensures known { result ≤ 3 }
    ensures status { statuses.IsStatusOfUsage (kind_of error.now) result }
{
    match error.kind() {
        UsageKind::OutOfMemory => run_out(faults),
        UsageKind::DisplayHelp | UsageKind::DisplayVersion => match print!(rt; "{error}") {
            Ok(()) => 0,
            Err(error) => give_up(Failure::WriteFailed(error), None, faults),
        },
        _ => {
            match printable(rt.alloc(), error) {
                Ok(words) => faults.tell(&[words.as_str()]),
                Err(_) => {
                    run_out(faults);
                }
            }
            2
        }
    }
}

/// Does what the arguments ask for, reports failures on `faults`, and returns the program's status.
pub fn serve<
    F: Format + Copy + Drop,
    S: Sources + AllocGlobal,
    I: IsTerminal + AsFd,
    O: Write + Drop,
    W: Write,
>(
    rt: &HostRuntime,
    sources: &S,
    asked: &Result<Conversion<'_, F>, UsageError>,
    streams: &mut Streams<I, O>,
    faults: &mut Messages<W>,
) -> u8
    ensures known { result ≤ 3 }
    ensures wrote { result ≡ 0 → IfOk asked.now (λ conversion. conversion.each ≡ false → WroteToStream F.is_yaml (S.bytes_of sources.now) conversion
        (writer_contents O.contents streams.old.output) (O.contents (writer_inner streams.new.output))) }
    ensures done { result ≡ 0 → IfOk asked.now (λ conversion. AllDone F.is_yaml F.ending (S.bytes_of sources.now) conversion conversion.each) }
    ensures undone { result ≡ 1 → IfOk asked.now (λ conversion. SomeUndone F.is_yaml F.ending (S.bytes_of sources.now) conversion conversion.each) }
    ensures options { result ≡ 2 → IfOk asked.now (λ conversion. IsRefusedByOptions F.allows_depth F.ending conversion) }
    ensures bounded { IfOk asked.now (λ conversion. F.allows_depth conversion.format ≡ false → result ≡ 2) }
    ensures compared { IfOk asked.now (λ conversion. ComparesNothing conversion → result ≡ 2) }
    ensures refused { IfErr asked.now (λ error. statuses.IsStatusOfUsage (kind_of error) result) }
{
    match asked {
        Ok(conversion) if !conversion.format.allows_depth() => refuse(DEPTH_REFUSED, faults),
        // No file is named with which the YAML could be compared.
        Ok(conversion)
            if conversion.checks
                && !conversion.each
                && !matches!(conversion.output, Some(name) if name != STREAM) => {
            refuse(CHECK_REFUSED, faults)
        }
        Ok(conversion) => convert(rt, sources, conversion, streams, faults),
        Err(error) => answer(rt, error, faults),
    }
}

/// Runs a program that converts texts of a format: does what its arguments ask for with files and the standard streams, reports failures on
/// standard error, and returns the status, which is 0 if all was done. If a report fails, the status is the same.
pub fn run<F: Format + Copy + Drop>(rt: &HostRuntime) -> u8
    ensures { result ≤ 3 }
{
    let stderr = rt.stderr();
    let mut faults = Messages::new(F::words(), io::writer(&stderr));
    let Ok(output) = BufWriter::with_capacity(rt.alloc(), BUFFER_SIZE, io::writer(rt)) else {
        return run_out(&mut faults);
    };
    let mut streams = Streams {
        input: rt.stdin(),
        output,
    };
    match read_arguments(rt) {
        Ok(words) => {
            let asked: Result<Conversion<'_, F>, UsageError> = conversion_of(
                rt.alloc(),
                words.as_slice(),
            );
            serve(rt, rt, &asked, &mut streams, &mut faults)
        }
        Err(error) => refuse_arguments(&error, &mut faults),
    }
}
