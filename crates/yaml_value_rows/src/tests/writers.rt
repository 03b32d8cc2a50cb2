//! Values written, against bytes written by hand. (`tests/json/rows.json` has texts, numbers of JSON and headings.)
mod blanks;
mod kinds;
mod lists;
mod parts;
mod refused;
mod sending;
mod styles;
mod timestamps;

use crate::tests;
use crate::tests::{Answer, answers, equal, finished, same, writer};
use std::alloc::Global;
use std::mem::replace;
use std::process::Abort;
use yaml_writer::{
    Date, DocumentEnd, Quotes, Settings, Time, Timestamp, Writer, YAML_BLOCK_MAPPING_STYLE,
    YAML_BLOCK_SEQUENCE_STYLE, YAML_FLOW_SEQUENCE_STYLE, number_of, value_settings,
    write_timestamp, yaml_error_t, yaml_scalar_style_t,
};

/// A call of a writer.
#[derive(Drop)]
enum Call {
    /// Starts a block sequence.
    Sequence,
    /// Starts a sequence on one line.
    Flow,
    /// Starts a block mapping.
    Mapping,
    End,
    Next,
    /// Ends a document with `...`, and begins another.
    NextAfterEnd,
    Anchored(&'static str),
    Tagged(&'static str),
    Alias(&'static str),
    Null,
    Bool(bool),
    Int(i64),
    Unsigned(u64),
    Text(&'static str),
    Styled(yaml_scalar_style_t, &'static str),
    /// The number of JSON that a text is.
    Number(&'static str),
    Float(f64),
    Single(f32),
    Bytes(&'static [u8]),
    /// A year, a month and a day.
    Date(u16, u8, u8),
    /// 14 December 2001 at this hour, minute and second of UTC.
    Time(u8, u8, u8),
    /// This call is refused.
    Refused(&'static Call, yaml_error_t),
    /// This was flushed, and is taken.
    Taken(&'static str),
    /// The stream ends so, and another begins.
    Finish(Answer<'static>),
    /// The same, with `...`.
    FinishAfterEnd(&'static str),
}

/// Gives the number of JSON that a text is; nothing if it is none.
fn give_number(writer: &mut Writer<Global>, text: &str) -> Result<(), yaml_error_t> {
    match number_of(text) {
        Some(number) => writer.number(&number),
        None => Ok(()),
    }
}

/// Gives a date, alone or with a time; nothing if there is no such date.
fn give_timestamp(
    writer: &mut Writer<Global>,
    date: Option<Date>,
    time: Option<Time>,
) -> Result<(), yaml_error_t> {
    match date {
        Some(date) => write_timestamp(writer, &Timestamp { date, time }),
        None => Ok(()),
    }
}

/// Gives a call of a writer; an error for a word that is none.
fn give(writer: &mut Writer<Global>, call: &Call) -> Result<(), yaml_error_t> {
    match call {
        Call::Text(text) => writer.text(text),
        Call::Styled(style, text) => writer.text_styled(*style, text),
        Call::Number(text) => give_number(writer, text),
        Call::Date(year, month, day) => {
            give_timestamp(writer, Date::new(*year, *month, *day), None)
        }
        Call::Time(hour, minute, second) => give_timestamp(
            writer,
            Date::new(2001, 12, 14),
            Time::new(*hour, *minute, *second, 0, None),
        ),
        Call::Null => writer.null(),
        Call::Bool(value) => writer.bool(*value),
        Call::Int(value) => writer.int(*value),
        Call::Unsigned(value) => writer.unsigned(*value),
        Call::Float(value) => writer.float(*value),
        Call::Single(value) => writer.single(*value),
        Call::Bytes(value) => writer.bytes(value),
        _ => give_part(writer, call),
    }
}

/// Gives a call that is no scalar; an error for a word that is none.
fn give_part(writer: &mut Writer<Global>, call: &Call) -> Result<(), yaml_error_t> {
    match call {
        Call::Sequence => writer.begin_sequence(YAML_BLOCK_SEQUENCE_STYLE),
        Call::Flow => writer.begin_sequence(YAML_FLOW_SEQUENCE_STYLE),
        Call::Mapping => writer.begin_mapping(YAML_BLOCK_MAPPING_STYLE),
        Call::End => writer.end(),
        Call::Next => writer.next_document(),
        Call::NextAfterEnd => writer.next_document_after(DocumentEnd::Explicit),
        Call::Anchored(name) => writer.anchored(name),
        Call::Tagged(tag) => writer.tagged(tag),
        Call::Alias(name) => writer.alias(name),
        _ => Err(yaml_error_t::ExpectedNothing),
    }
}

/// A call, with its place: the name of its table, and its number in it.
type Placed<'a> = (&'static str, usize, &'a Call);

/// Begins another stream, and returns the writer of the one before.
fn ended(
    rt: &impl Abort,
    alloc: Global,
    settings: Settings,
    writer: &mut Writer<Global>,
) -> Writer<Global> {
    replace(writer, tests::writer(rt, alloc, settings))
}

/// Checks that the call of this place gives this.
fn check_given(
    rt: &impl Abort,
    writer: &mut Writer<Global>,
    place: (&'static str, usize),
    call: &Call,
    wanted: Result<(), yaml_error_t>,
) {
    let answer = give(writer, call);
    equal(rt, &(place.0, place.1, answer), &(place.0, place.1, wanted));
}

/// Checks that the call gives the text that it should.
fn check_call(
    rt: &impl Abort,
    alloc: Global,
    settings: Settings,
    writer: &mut Writer<Global>,
    row: Placed,
) {
    match row.2 {
        Call::Finish(wanted) => {
            let ended = ended(rt, alloc, settings, writer);
            answers(rt, finished(ended), wanted);
        }
        Call::FinishAfterEnd(text) => {
            let ended = ended(rt, alloc, settings, writer);
            answers(rt, ended.finish_with(DocumentEnd::Explicit), &Ok(text));
        }
        Call::Taken(text) => same(rt, writer.take_output().as_slice(), text),
        Call::Refused(call, error) => {
            check_given(rt, writer, (row.0, row.1), call, Err(*error));
        }
        call => check_given(rt, writer, (row.0, row.1), call, Ok(())),
    }
}

/// A name, and calls of a stream or of several.
type Table = (&'static str, &'static [Call]);

/// Gives these calls.
fn give_all(
    rt: &impl Abort,
    alloc: Global,
    settings: Settings,
    writer: &mut Writer<Global>,
    table: &Table,
) {
    for (index, call) in table.1.iter().enumerate() {
        check_call(rt, alloc, settings, writer, (table.0, index, call));
    }
}

/// Gives the calls of a whole stream, or of several.
fn check_table(rt: &impl Abort, alloc: Global, settings: Settings, table: &Table) {
    let mut writer = writer(rt, alloc, settings);
    give_all(rt, alloc, settings, &mut writer, table);
    drop(writer);
}

const WRITTEN: &[Table] = &[
    ("kinds", kinds::CALLS),
    ("styles", styles::CALLS),
    ("blanks", blanks::CALLS),
    ("timestamps", timestamps::CALLS),
    ("parts", parts::CALLS),
    ("refused", refused::CALLS),
];

const CANONICAL: &[Table] = &[
    ("kinds", kinds::CANONICAL),
    ("styles", styles::CANONICAL),
    ("timestamps", timestamps::CANONICAL),
];

#[test]
fn values_are_written(rt: HostRuntime) {
    for table in WRITTEN {
        check_table(&rt, rt.alloc(), value_settings(), table);
    }
}

#[test]
fn values_are_written_in_double_quotes(rt: HostRuntime) {
    let settings = Settings {
        quotes: Quotes::Double,
        ..value_settings()
    };
    check_table(&rt, rt.alloc(), settings, &("styles", styles::DOUBLE));
}

#[test]
fn values_are_written_without_literal_blanks(rt: HostRuntime) {
    let settings = Settings {
        literal_blanks: false,
        ..value_settings()
    };
    check_table(&rt, rt.alloc(), settings, &("blanks", blanks::QUOTED));
}

#[test]
fn values_are_written_in_canonical_form(rt: HostRuntime) {
    let canonical = Settings {
        canonical: true,
        ..value_settings()
    };
    for table in CANONICAL {
        check_table(&rt, rt.alloc(), canonical, table);
    }
}
