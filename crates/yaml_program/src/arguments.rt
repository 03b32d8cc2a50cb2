//! The conversion that a program's arguments ask for.
ghost use Rattle.std.specs.Prelude.{◌≡◌, ◌&&◌, IfOk, not, option_map};
ghost use Rattle.yaml_base.specs.Seen.{seen_break, seen_encoding};
ghost use Rattle.yaml_emitter.specs.Given.{is_double};
ghost use Rattle.yaml_program.specs.Options.{AreValueSettings, AreWriterSettings, IsBreakOf, IsEncodingOf};
ghost use Rattle.yaml_program.specs.Conversions.{IsAskedBy};

use crate::formats::Format;
use crate::options::command_of;
use clap::{ArgMatches, Error};
use std::alloc::{AllocError, Global};
use std::rt::Runtime;
use std::{env, io};
use yaml_base::{
    YAML_ANY_BREAK, YAML_ANY_ENCODING, YAML_CR_BREAK, YAML_CRLN_BREAK, YAML_LN_BREAK,
    YAML_UTF8_ENCODING, YAML_UTF16BE_ENCODING, YAML_UTF16LE_ENCODING, yaml_break_t,
    yaml_encoding_t,
};
use yaml_writer::{Quotes, Settings, ValueSettings, value_settings};

/// The maximum nesting depth of collections if no option sets it.
const DEFAULT_DEPTH: usize = 1_000;

/// A conversion: the files that are read, and the place and the form of the YAML.
#[derive(Drop)]
pub struct Conversion<'a, F> {
    /// The format that the files hold, with the settings by which it is written.
    pub format: F,
    /// The text that comments before the stream hold.
    pub heading: Option<&'a str>,
    /// Nothing is written; the files that are there are compared.
    pub checks: bool,
    /// Each file is converted to one beside it.
    pub each: bool,
    /// The file that is written; standard output if it is `None`.
    pub output: Option<&'a str>,
    /// The files that are read; standard input if the list is empty.
    pub files: Vec<&'a str>,
}

/// Returns whether portable mode is on: neither of the two options that end it was given.
fn is_portable(is_off: bool, is_left: bool) -> bool
    ensures { result ≡ (not is_off && not is_left) }
{
    !is_off && !is_left
}

fn quotes_of(are_double: bool) -> Quotes
    ensures { is_double result ≡ are_double }
{
    if are_double {
        Quotes::Double
    } else {
        Quotes::Single
    }
}

/// Returns the encoding of this name; that of libyaml's streams without a name.
fn encoding_of(name: Option<&str>) -> yaml_encoding_t
    ensures { IsEncodingOf (option_map (λ name. name.now) name.entry) (seen_encoding result) }
{
    match name {
        Some("utf-8") => YAML_UTF8_ENCODING,
        Some("utf-16le") => YAML_UTF16LE_ENCODING,
        Some("utf-16be") => YAML_UTF16BE_ENCODING,
        _ => YAML_ANY_ENCODING,
    }
}

/// Returns the line break of this name; that of libyaml's streams without a name.
fn line_break_of(name: Option<&str>) -> yaml_break_t
    ensures { IsBreakOf (option_map (λ name. name.now) name.entry) (seen_break result) }
{
    match name {
        Some("lf") => YAML_LN_BREAK,
        Some("cr") => YAML_CR_BREAK,
        Some("crlf") => YAML_CRLN_BREAK,
        _ => YAML_ANY_BREAK,
    }
}

/// Returns the settings of the emitter that the options ask for.
fn emitter_settings_of(matches: &ArgMatches<'_>) -> Settings
    ensures { AreWriterSettings matches.now result }
{
    let mut settings = value_settings();
    settings.encoding = encoding_of(matches.get_str("encoding"));
    settings.canonical = matches.get_flag("canonical");
    settings.unicode = !matches.get_flag("no-unicode");
    settings.quotes = quotes_of(matches.get_flag("double-quotes"));
    settings.indent = matches.get_one::<i32>("indent");
    settings.width = matches.get_one::<i32>("width").or(settings.width);
    settings.line_break = line_break_of(matches.get_str("line-break"));
    settings.line_breaks_1_2 = matches.get_flag("no-document-start");
    settings.portable = is_portable(matches.get_flag("no-portable"), settings.line_breaks_1_2);
    settings.indented_sequences = !matches.get_flag("no-indented-sequences");
    settings.literal_blanks = !matches.get_flag("no-literal-blanks");
    settings.limit = matches.get_one::<usize>("limit").unwrap_or(settings.limit);
    settings
}

/// Returns the settings for writing values that the options ask for.
pub fn value_settings_of(matches: &ArgMatches<'_>) -> ValueSettings
    ensures { AreValueSettings matches.now result }
{
    ValueSettings {
        emitter: emitter_settings_of(matches),
        flow: matches.get_flag("flow"),
        depth: matches.get_one::<usize>("depth").unwrap_or(DEFAULT_DEPTH),
    }
}

/// Returns the conversion that the options ask for.
///
/// # Errors
///
/// An allocation failed.
pub fn conversion_by<'a, F: Format>(
    alloc: Global,
    matches: &ArgMatches<'a>,
) -> Result<Conversion<'a, F>, AllocError>
    ensures asked { IfOk result (λ conversion. IsAskedBy matches.now conversion) }
    ensures settings { IfOk result (λ conversion. F.is_asked_by matches.now conversion.format) }
{
    let files = match matches.get_strs("files") {
        Some(names) => Vec::from_slice(alloc, names)?,
        None => Vec::new(alloc),
    };
    Ok(Conversion {
        format: F::from_options(matches),
        heading: matches.get_str("heading"),
        checks: matches.get_flag("check"),
        each: matches.get_flag("each"),
        output: matches.get_str("output"),
        files,
    })
}

/// Returns the conversion that the arguments after a program's name ask for.
///
/// # Errors
///
/// The arguments ask for no conversion: they aren't understood, or ask for help or for the version; or an allocation failed.
pub(crate) fn conversion_of<'a, F: Format>(
    alloc: Global,
    arguments: &'a [String],
) -> Result<Conversion<'a, F>, Error> {
    let command = command_of(alloc, F::words())?;
    Ok(conversion_by(alloc, &command.try_get_matches_from(arguments)?)?)
}

/// Returns the arguments after the program's name.
///
/// # Errors
///
/// One isn't UTF-8 (`InvalidData`), or an allocation failed (`OutOfMemory`).
pub(crate) fn read_arguments<R: Runtime + AllocGlobal>(rt: &R) -> io::Result<Vec<String>> {
    let mut words = env::args(rt)?;
    let _program = words.next();
    let mut arguments = Vec::new(rt.alloc());
    for word in words {
        arguments.push(word)?;
    }
    Ok(arguments)
}
