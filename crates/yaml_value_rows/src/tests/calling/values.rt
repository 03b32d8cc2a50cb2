//! Values, a call each.
use crate::tests::{answers, equal, finished, same, writer};
use std::alloc::Global;
use std::process::Abort;
use yaml_writer::{
    Date, DocumentEnd, SpecialFloat, Time, Timestamp, Writer, YAML_BLOCK_MAPPING_STYLE,
    YAML_DOUBLE_QUOTED_SCALAR_STYLE, YAML_FLOW_SEQUENCE_STYLE, value_settings, write_timestamp,
    yaml_error_t,
};

/// Gives a mapping of a text and of a sequence of values.
fn give_values(writer: &mut Writer<Global>) -> Result<(), yaml_error_t> {
    writer.begin_mapping(YAML_BLOCK_MAPPING_STYLE)?;
    writer.text("country")?;
    writer.text("no")?;
    writer.text("values")?;
    writer.begin_sequence(YAML_FLOW_SEQUENCE_STYLE)?;
    writer.int(-5)?;
    writer.bool(true)?;
    writer.null()?;
    writer.unsigned(5)?;
    writer.special_float(SpecialFloat::Infinity)?;
    writer.end()?;
    writer.text("motto")?;
    writer.text_styled(YAML_DOUBLE_QUOTED_SCALAR_STYLE, "go on")?;
    writer.end()
}

/// Returns a document of this mapping.
fn values(alloc: Global) -> Result<Vec<u8>, yaml_error_t> {
    let mut writer = Writer::new(alloc, value_settings())?;
    give_values(&mut writer)?;
    writer.finish()
}

/// Ends all that is open, with null for a node that is awaited, and the stream with `...`.
fn ended(mut writer: Writer<Global>) -> Result<Vec<u8>, yaml_error_t> {
    if writer.awaits_node() {
        writer.null()?;
    }
    for _ in 0..writer.depth() {
        writer.end()?;
    }
    writer.finish_with(DocumentEnd::Explicit)
}

/// Gives a mapping of a text with an anchor and a tag, and of an alias for it.
fn give_shared(writer: &mut Writer<Global>) -> Result<(), yaml_error_t> {
    writer.begin_mapping(YAML_BLOCK_MAPPING_STYLE)?;
    writer.text("from")?;
    writer.anchored("place")?;
    writer.tagged("!city")?;
    writer.text("Oslo")?;
    writer.text("to")?;
    writer.alias("place")?;
    writer.end()
}

/// Returns a day, and a minute of it; `None` if the clock shows no such time.
fn minute(date: Date, hour: u8, minute: u8) -> Option<Timestamp> {
    let time = Time::new(hour, minute, 0, 0, None)?;
    Some(Timestamp {
        date,
        time: Some(time),
    })
}

/// Gives a mapping of a day and of a minute.
fn give_times(
    writer: &mut Writer<Global>,
    date: Date,
    minute: &Timestamp,
) -> Result<(), yaml_error_t> {
    writer.begin_mapping(YAML_BLOCK_MAPPING_STYLE)?;
    writer.text("day")?;
    write_timestamp(writer, &Timestamp { date, time: None })?;
    writer.text("at")?;
    write_timestamp(writer, minute)?;
    writer.end()
}

/// Ends a document with `...`, begins the next, and sends the bytes that were flushed since the last call.
fn send_document(writer: &mut Writer<Global>, sent: &mut Vec<u8>) -> Result<(), yaml_error_t> {
    writer.next_document_after(DocumentEnd::Explicit)?;
    let part = writer.take_output();
    sent.extend_from_slice(part.as_slice())
        .map_err(|_| yaml_error_t::Memory)
}

/// Gives a list in a list, whose second item has only its tag.
fn give_begun(writer: &mut Writer<Global>) -> Result<(), yaml_error_t> {
    writer.begin_sequence(YAML_FLOW_SEQUENCE_STYLE)?;
    writer.begin_sequence(YAML_FLOW_SEQUENCE_STYLE)?;
    writer.text("a")?;
    writer.tagged("!b")
}

/// Checks that two lists are open, and a node is awaited.
fn check_begun(rt: &impl Abort, writer: &mut Writer<Global>) {
    equal(rt, &give_begun(writer), &Ok(()));
    let open = (writer.depth(), writer.awaits_node());
    equal(rt, &open, &(2, true));
}

#[test]
fn values_are_written_and_what_is_open_is_ended(rt: HostRuntime) {
    let expected = "---\ncountry: 'no'\nvalues: [-5, true, null, 5, .inf]\nmotto: \"go on\"\n";
    answers(&rt, values(rt.alloc()), &Ok(expected));
    let mut writer = writer(&rt, rt.alloc(), value_settings());
    check_begun(&rt, &mut writer);
    answers(&rt, ended(writer), &Ok("--- [[a, !b null]]\n...\n"));
}

/// Sends an alias, times and texts in documents, one by one, but for the last.
fn send_documents(
    writer: &mut Writer<Global>,
    sent: &mut Vec<u8>,
    date: Date,
    minute: &Timestamp,
) -> Result<(), yaml_error_t> {
    give_shared(writer)?;
    send_document(writer, sent)?;
    give_times(writer, date, minute)?;
    send_document(writer, sent)?;
    writer.text("a")?;
    send_document(writer, sent)?;
    writer.text("b")
}

fn check_sent(rt: &impl Abort, alloc: Global, writer: &mut Writer<Global>) {
    let date = Date::new(2001, 12, 14).expect(rt, "there is such a date");
    let at = minute(date, 21, 59).expect(rt, "there is such a time");
    let mut sent = Vec::new(alloc);
    let answer = send_documents(writer, &mut sent, date, &at);
    equal(rt, &answer, &Ok(()));
    let documents = "---\nfrom: &place !city Oslo\nto: *place\n...\n\
        ---\nday: 2001-12-14\nat: !!timestamp 2001-12-14T21:59:00Z\n...\n\
        --- a\n...\n";
    same(rt, sent.as_slice(), documents);
}

#[test]
fn documents_are_sent_one_by_one(rt: HostRuntime) {
    let mut writer = writer(&rt, rt.alloc(), value_settings());
    check_sent(&rt, rt.alloc(), &mut writer);
    answers(&rt, finished(writer), &Ok("--- b\n"));
    equal(&rt, &Date::new(2001, 2, 29), &None);
}
