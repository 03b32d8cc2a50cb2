//! The options of a program, and the words of its help.
use crate::version::VERSION;
use crate::words::Wording;
use clap::builder::ValueParser;
use clap::{Arg, ArgAction, Command};
use std::alloc::{AllocError, Global};

const AFTER_HELP: &str =
    "Status: 0 done, 1 a text is refused or --check finds a difference, 2 the arguments aren't understood, 3 reading, writing or memory failed.";

const OUTPUT_HELP: &str = "The file to write in place of standard output";

const INDENT_HELP: &str = "Columns for each level, 2 to 9 [default: 2]";

const WIDTH_HELP: &str = "Folds texts of several words past this column [default: never]";

const ENCODING_HELP: &str = "The encoding of the output, not with --heading [default: utf-8]";

const BREAK_HELP: &str = "The break that ends each line [default: lf]";

const LIMIT_HELP: &str = "The most bytes that a stream may have [default: no limit]";

const HEADING_HELP: &str = "Writes a text as comments before all else";

/// The options without a value, each with a line of help, a longer text, and the options that it refuses. The arguments are the program's
/// name, the ending of its files, the format's word for collections, and the calls that give or take canonical bytes.
#[macro_export]
macro_rules! flags {
    ($program:literal, $ending:literal, $collections:literal, $canonical_calls:literal) => { &[
    (
        "check",
        "Writes nothing; status 1 if --output or --each would change a file",
        concat!(
        "Writes nothing, and compares what would be written by --output or by --each with what is there. If a file differs, a \
        message shows the first line that does; if it is missing, a message names it. The status is then 1.\
        {n}Example: ", $program, " --check --output=out.yaml in", $ending),
        &[],
    ),
    (
        "flow",
        concat!("Writes ", $collections, " between brackets, as in JSON"),
        concat!(
        "Writes ", $collections, " between brackets, as in JSON, and not a line for each item.{n}Example: ", $program, " --flow in", $ending),
        &[],
    ),
    (
        "canonical",
        "Canonical mode: brackets, double quotes, a tag for each scalar but texts",
        concat!(
        "Writes in canonical mode: brackets, double quotes, and a tag for each scalar but texts. Texts and ", $collections, " have no tag, so \
        these aren't the canonical bytes of a typed value, in which each node has its own: those are what ", $canonical_calls,
        ".{n}Example: ", $program, " --canonical in", $ending),
        &[],
    ),
    (
        "no-portable",
        "Portable mode off: no --- unless one is needed",
        concat!(
        "Turns portable mode off: no --- before the first document unless one is needed, and U+2028 and U+2029 as themselves. A root text that \
        begins with a blank or a line break may then be a block whose header has a digit, which readers count in two ways.\
        {n}Example: ", $program, " --no-portable in", $ending),
        &[],
    ),
    (
        "no-document-start",
        "No --- before the first document, unless --canonical is given",
        concat!(
        "Writes no --- before the first document unless --canonical is given, and turns portable mode off, but for one rule: U+2028 and U+2029 are \
        escaped. A root text that begins with a blank or a line break may be a block whose header has a digit, which readers count in two ways; portable mode \
        writes it in quotes.\
        {n}Example: ", $program, " --no-document-start in", $ending),
        &[],
    ),
    (
        "no-indented-sequences",
        "Leaves a list's items in the column of the name that it belongs to",
        concat!(
        "Leaves the items of a list in the column of the name that the list belongs to, as libyaml does, and doesn't indent them.\
        {n}Example: ", $program, " --no-indented-sequences in", $ending),
        &[],
    ),
    (
        "no-literal-blanks",
        "Quotes a text of several lines if a line has a tab or ends in a space",
        concat!(
        "Quotes a text of several lines if it has a tab, or a space at the end of a line, as libyaml does, and writes it no block.\
        {n}Example: ", $program, " --no-literal-blanks in", $ending),
        &[],
    ),
    (
        "no-unicode",
        "Escapes the characters beyond ASCII",
        concat!(
        "Writes ASCII alone: a text with characters beyond ASCII is in double quotes, with an escape for each of them.\
        {n}Example: ", $program, " --no-unicode in", $ending),
        &[],
    ),
    (
        "double-quotes",
        "Double quotes in place of single ones",
        concat!(
        "Writes texts that must be quoted in double quotes, not in single ones.{n}Example: ", $program, " --double-quotes in", $ending),
        &[],
    ),
]
    };
}

/// Returns an option without a value.
fn flag<'a>(alloc: Global, name: &'a str, help: &'a str, long_help: &'a str) -> Arg<'a> {
    Arg::new(alloc, name)
        .long(name)
        .help(help)
        .long_help(long_help)
        .action(ArgAction::SetTrue)
}

/// Returns an option with a value.
fn option_with_value<'a>(
    alloc: Global,
    name: &'a str,
    value: &'a str,
    help: &'a str,
    long_help: &'a str,
) -> Arg<'a> {
    Arg::new(alloc, name)
        .long(name)
        .value_name(value)
        .help(help)
        .long_help(long_help)
}

/// Returns the argument for the files that are read.
fn files_argument<'a>(alloc: Global, words: &Wording) -> Arg<'a> {
    Arg::new(alloc, "files")
        .value_name("FILE")
        .help(words.files)
        .long_help(words.files_long)
        .num_args(0..)
}

/// Returns the option by which each file is converted to one beside it.
fn each_option<'a>(alloc: Global, words: &Wording) -> Result<Arg<'a>, AllocError> {
    let option = flag(alloc, "each", words.each, words.each_long);
    match option.conflicts_with("output") {
        Ok(option) => option.requires_arg("files"),
        Err(refused) => Err(refused),
    }
}

/// Returns the option for the columns of a level.
fn indent_option<'a>(alloc: Global, words: &Wording) -> Arg<'a> {
    let option = option_with_value(alloc, "indent", "COLUMNS", INDENT_HELP, words.indent);
    option.value_parser(ValueParser::signed(2, 9))
}

/// Returns the option for the column past which texts are folded.
fn width_option<'a>(alloc: Global, words: &Wording) -> Arg<'a> {
    option_with_value(alloc, "width", "COLUMN", WIDTH_HELP, words.width)
        .allow_negative_numbers(true)
        .value_parser(clap::value_parser!(i32))
}

/// Returns the option for the maximum depth.
fn depth_option<'a>(alloc: Global, words: &Wording) -> Arg<'a> {
    let option = option_with_value(alloc, "depth", "LEVELS", words.depth, words.depth_long);
    option.value_parser(ValueParser::unsigned(0, 1_000_000))
}

/// Returns the option for the encoding. A heading is always in UTF-8.
fn encoding_option<'a>(alloc: Global, words: &Wording) -> Result<Arg<'a>, AllocError> {
    option_with_value(alloc, "encoding", "NAME", ENCODING_HELP, words.encoding)
        .value_parser(ValueParser::Names(&["utf-8", "utf-16le", "utf-16be"]))
        .conflicts_with("heading")
}

/// Returns the option for the break that ends each line.
fn line_break_option<'a>(alloc: Global, words: &Wording) -> Arg<'a> {
    option_with_value(alloc, "line-break", "NAME", BREAK_HELP, words.line_break).value_parser(
        ValueParser::Names(&["lf", "crlf", "cr"]),
    )
}

/// Returns the option for the maximum number of bytes of the output.
fn limit_option<'a>(alloc: Global, words: &Wording) -> Arg<'a> {
    let option = option_with_value(alloc, "limit", "BYTES", LIMIT_HELP, words.limit);
    option.value_parser(ValueParser::unsigned(0, u64::MAX))
}

/// An argument that has a value, or depends on other arguments.
enum Setting {
    Output,
    Each,
    Heading,
    Indent,
    Width,
    Depth,
    Encoding,
    LineBreak,
    Limit,
    Files,
}

/// Returns the argument of this setting.
fn argument_of<'a>(
    alloc: Global,
    words: &Wording,
    setting: &Setting,
) -> Result<Arg<'a>, AllocError> {
    match setting {
        Setting::Output => {
            Ok(option_with_value(alloc, "output", "FILE", OUTPUT_HELP, words.output).short('o'))
        }
        Setting::Each => each_option(alloc, words),
        Setting::Heading => {
            Ok(option_with_value(alloc, "heading", "TEXT", HEADING_HELP, words.heading))
        }
        Setting::Indent => Ok(indent_option(alloc, words)),
        Setting::Width => Ok(width_option(alloc, words)),
        Setting::Depth => Ok(depth_option(alloc, words)),
        Setting::Encoding => encoding_option(alloc, words),
        Setting::LineBreak => Ok(line_break_option(alloc, words)),
        Setting::Limit => Ok(limit_option(alloc, words)),
        Setting::Files => Ok(files_argument(alloc, words)),
    }
}

/// Adds options without a value, each with the options that it refuses.
fn push_flags<'a>(
    alloc: Global,
    flags: &[(
        &'static str,
        &'static str,
        &'static str,
        &'static [&'static str],
    )],
    arguments: &mut Vec<Arg<'a>>,
) -> Result<(), AllocError> {
    for (name, help, long_help, refused) in flags {
        let option = flag(alloc, name, help, long_help);
        arguments.push(option.conflicts_with_all(refused)?)?;
    }
    Ok(())
}

/// Adds the files and all options.
fn push_arguments<'a>(
    alloc: Global,
    words: &Wording,
    arguments: &mut Vec<Arg<'a>>,
) -> Result<(), AllocError> {
    for setting in &[
        Setting::Output,
        Setting::Each,
        Setting::Heading,
        Setting::Indent,
        Setting::Width,
        Setting::Depth,
        Setting::Encoding,
        Setting::LineBreak,
        Setting::Limit,
        Setting::Files,
    ] {
        arguments.push(argument_of(alloc, words, setting)?)?;
    }
    push_flags(alloc, words.flags, arguments)?;
    push_flags(alloc, words.own_flags, arguments)
}

/// Returns the command line of a program. Its words come without the program's name.
pub fn command_of<'a>(alloc: Global, words: &Wording) -> Result<Command<'a>, AllocError> {
    let mut arguments = Vec::new(alloc);
    push_arguments(alloc, words, &mut arguments)?;
    Command::new(alloc, words.name)
        .version(VERSION)
        .about(words.about)
        .after_help(AFTER_HELP)
        .no_binary_name(true)
        .args(arguments)
}
