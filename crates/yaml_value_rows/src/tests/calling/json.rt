//! JSON, written as YAML.
use crate::tests::{equal, same};
use std::alloc::Global;
use std::io::{Read, Write};
use yaml_json::{
    JsonError, JsonSettings, Position, StreamError, Writer, send_json_texts, value_settings,
    write_json, yaml_error_t, yaml_from_json,
};

/// Returns the YAML of a JSON text, with an indent of 4.
fn yaml_of_json(alloc: Global, text: &str) -> Result<Vec<u8>, JsonError> {
    let mut settings = JsonSettings::default();
    settings.values.emitter.indent = Some(4);
    yaml_from_json(alloc, text, settings)
}

/// Sends the JSON texts of a reader as the documents of a stream, each handed on to a sink as the next begins.
fn send_texts<R: Read, W: Write>(
    alloc: Global,
    reader: &mut R,
    sink: &mut W,
) -> Result<(), StreamError> {
    let refused = |error| StreamError::Refused(JsonError::Emitter(error));
    let mut writer = Writer::new(alloc, value_settings()).map_err(refused)?;
    send_json_texts(alloc, &mut writer, sink, reader, JsonSettings::default())?;
    let rest = writer.finish().map_err(refused)?;
    sink.write_all(rest.as_slice())
        .map_err(StreamError::WriteFailed)
}

/// Returns a stream of two documents: a JSON text, and a text. The errors of the writer are those of JSON.
fn json_and_text(alloc: Global, json: &str, text: &str) -> Result<Vec<u8>, JsonError> {
    let mut writer = Writer::new(alloc, value_settings())?;
    write_json(alloc, &mut writer, json, JsonSettings::default())?;
    writer.next_document()?;
    writer.text(text)?;
    Ok(writer.finish()?)
}

/// Names a node that isn't given.
fn name_without_node(alloc: Global) -> Result<Vec<u8>, JsonError> {
    let mut writer = Writer::new(alloc, value_settings())?;
    writer.anchored("a")?;
    Ok(writer.finish()?)
}

// `?` converts the error of a writer.
#[test]
fn errors_of_writers_are_converted(rt: HostRuntime) {
    let yaml = json_and_text(rt.alloc(), "{\"a\": 1}", "no").expect(&rt, "JSON");
    same(&rt, yaml.as_slice(), "---\na: 1\n--- 'no'\n");
    let error = name_without_node(rt.alloc()).err();
    let expected = JsonError::Emitter(yaml_error_t::ExpectedNode);
    equal(&rt, &error, &Some(expected));
}

#[test]
fn texts_are_sent_one_by_one(rt: HostRuntime) {
    let mut sink: Vec<u8> = Vec::new(rt.alloc());
    let mut reader = b"{\"a\": 1} \"no\"".as_slice();
    let answer = send_texts(rt.alloc(), &mut reader, &mut sink);
    equal(&rt, &answer.is_ok(), &true);
    drop(answer);
    same(&rt, sink.as_slice(), "---\na: 1\n--- 'no'\n");
}

// A byte order mark is named.
#[test]
fn json_is_written(rt: HostRuntime) {
    let text = "{\"country\": \"no\", \"sizes\": {\"1\": 1e5}}";
    let expected = "---\ncountry: 'no'\nsizes:\n    '1': 1.0e+5\n";
    let yaml = yaml_of_json(rt.alloc(), text).expect(&rt, "JSON");
    same(&rt, yaml.as_slice(), expected);
    let error = yaml_of_json(rt.alloc(), "\u{feff}{}").err();
    let marked = JsonError::Marked {
        position: Position { line: 1, column: 1 },
    };
    equal(&rt, &error, &Some(marked));
}
