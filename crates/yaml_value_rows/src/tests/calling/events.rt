//! Streams, event by event.
ghost use Rattle.std.specs.Prelude.{◌≡◌, true, false};

use crate::tests::{answers, equal};
use std::alloc::{AllocError, Global};
use std::process::Abort;
use yaml_dump::{
    ScalarContent, YAML_ALIAS_EVENT, YAML_ANY_ENCODING, YAML_ANY_SCALAR_STYLE,
    YAML_BLOCK_MAPPING_STYLE, YAML_DOCUMENT_END_EVENT, YAML_DOCUMENT_START_EVENT,
    YAML_EMITTER_ERROR, YAML_FLOW_SEQUENCE_STYLE, YAML_MAPPING_END_EVENT, YAML_MAPPING_START_EVENT,
    YAML_SCALAR_EVENT, YAML_SEQUENCE_END_EVENT, YAML_SEQUENCE_START_EVENT, YAML_STREAM_END_EVENT,
    YAML_STREAM_START_EVENT, YAML_UTF8_ENCODING, yaml_emitter_emit, yaml_emitter_emit_scalar,
    yaml_emitter_flush, yaml_emitter_initialize, yaml_emitter_set_output_string, yaml_emitter_t,
    yaml_emitter_take_output, yaml_error_t, yaml_event_t,
};

/// Returns the start of a document without directives.
fn document_start(alloc: Global) -> yaml_event_t<Global> {
    YAML_DOCUMENT_START_EVENT {
        version_directive: None,
        tag_directives: Vec::new(alloc),
        implicit: true,
    }
}

/// Returns a scalar without anchor and tag.
fn scalar(alloc: Global, value: &str) -> Result<yaml_event_t<Global>, AllocError> {
    Ok(YAML_SCALAR_EVENT {
        anchor: None,
        tag: None,
        value: String::from_str(alloc, value)?,
        plain_implicit: true,
        quoted_implicit: true,
        style: YAML_ANY_SCALAR_STYLE,
    })
}

/// Emits the events of a stream, up to the first that is refused.
fn emit_all(
    emitter: &mut yaml_emitter_t<Global>,
    events: Vec<yaml_event_t<Global>>,
) -> Result<(), yaml_error_t>
    requires { emitter.old.has_output ≡ true }
    ensures { emitter.new.has_output ≡ true }
{
    for event in events {
        yaml_emitter_emit(emitter, event)?;
    }
    Ok(())
}

/// Emits texts, which are only borrowed.
fn emit_texts(emitter: &mut yaml_emitter_t<Global>, texts: &[&str]) -> Result<(), yaml_error_t>
    requires { emitter.old.has_output ≡ true }
    ensures { emitter.new.has_output ≡ true }
{
    for text in texts {
        emit_text(emitter, text)?;
    }
    Ok(())
}

/// Returns the start of a sequence in flow.
fn list_start() -> yaml_event_t<Global> {
    YAML_SEQUENCE_START_EVENT {
        anchor: None,
        tag: None,
        implicit: true,
        style: YAML_FLOW_SEQUENCE_STYLE,
    }
}

/// Returns a stream whose only document is a list of texts.
fn list_yaml(alloc: Global, texts: &[&str]) -> Result<Vec<u8>, yaml_error_t> {
    let encoding = YAML_UTF8_ENCODING;
    let mut emitter = yaml_emitter_initialize(alloc)?;
    yaml_emitter_set_output_string(&mut emitter, 10_000);
    yaml_emitter_emit(&mut emitter, YAML_STREAM_START_EVENT { encoding })?;
    yaml_emitter_emit(&mut emitter, document_start(alloc))?;
    yaml_emitter_emit(&mut emitter, list_start())?;
    emit_texts(&mut emitter, texts)?;
    yaml_emitter_emit(&mut emitter, YAML_SEQUENCE_END_EVENT)?;
    yaml_emitter_emit(&mut emitter, YAML_DOCUMENT_END_EVENT { implicit: true })?;
    yaml_emitter_emit(&mut emitter, YAML_STREAM_END_EVENT)?;
    Ok(yaml_emitter_take_output(&mut emitter))
}

/// Emits a scalar without anchor and tag, whose text is only borrowed.
fn emit_text(emitter: &mut yaml_emitter_t<Global>, value: &str) -> Result<(), yaml_error_t>
    requires { emitter.old.has_output ≡ true }
    ensures { emitter.new.has_output ≡ true }
{
    let content = ScalarContent {
        anchor: None,
        tag: None,
        value,
        plain_implicit: true,
        quoted_implicit: true,
        style: YAML_ANY_SCALAR_STYLE,
    };
    yaml_emitter_emit_scalar(emitter, &content)
}

/// Emits a mapping in which a sequence occurs once, and then as an alias.
fn emit_twice(alloc: Global, emitter: &mut yaml_emitter_t<Global>) -> Result<(), yaml_error_t>
    requires { emitter.old.has_output ≡ true }
    ensures { emitter.new.has_output ≡ true }
{
    let memory = |_| yaml_error_t::Memory;
    let name = String::from_str(alloc, "list").map_err(memory)?;
    let again = String::from_str(alloc, "list").map_err(memory)?;
    let mapping = YAML_MAPPING_START_EVENT {
        anchor: None,
        tag: None,
        implicit: true,
        style: YAML_BLOCK_MAPPING_STYLE,
    };
    let sequence = YAML_SEQUENCE_START_EVENT {
        anchor: Some(name),
        tag: None,
        implicit: true,
        style: YAML_FLOW_SEQUENCE_STYLE,
    };
    let alias = YAML_ALIAS_EVENT { anchor: again };
    yaml_emitter_emit(emitter, mapping)?;
    emit_text(emitter, "first")?;
    yaml_emitter_emit(emitter, sequence)?;
    emit_text(emitter, "a")?;
    yaml_emitter_emit(emitter, YAML_SEQUENCE_END_EVENT)?;
    emit_text(emitter, "again")?;
    yaml_emitter_emit(emitter, alias)?;
    yaml_emitter_emit(emitter, YAML_MAPPING_END_EVENT)
}

/// Flushes all text so far, and sends the bytes that were flushed since the last call. Returns how many events still wait.
fn send(emitter: &mut yaml_emitter_t<Global>, sent: &mut Vec<u8>) -> Result<usize, yaml_error_t>
    requires { emitter.old.has_output ≡ true }
    ensures { emitter.new.has_output ≡ true }
{
    yaml_emitter_flush(emitter)?;
    let part = yaml_emitter_take_output(emitter);
    match sent.extend_from_slice(part.as_slice()) {
        Ok(()) => Ok(emitter.held()),
        Err(_) => Err(yaml_error_t::Memory),
    }
}

/// Returns the event of a word: `stream` and `document` are the starts of those, `end` and `close` their ends, `[` and `]`
/// the start and the end of a flow sequence. Any other word is a scalar.
fn event(rt: &impl Abort, alloc: Global, word: &str) -> yaml_event_t<Global> {
    match word {
        "stream" => YAML_STREAM_START_EVENT {
            encoding: YAML_ANY_ENCODING,
        },
        "document" => document_start(alloc),
        "[" => list_start(),
        "]" => YAML_SEQUENCE_END_EVENT,
        "end" => YAML_DOCUMENT_END_EVENT { implicit: true },
        "close" => YAML_STREAM_END_EVENT,
        _ => scalar(alloc, word).expect(rt, "no memory"),
    }
}

/// Returns the events of these words.
fn events(rt: &impl Abort, alloc: Global, words: &str) -> Vec<yaml_event_t<Global>> {
    let mut events = Vec::new(alloc);
    for word in words.split_whitespace() {
        events.push(event(rt, alloc, word)).expect(rt, "no memory");
    }
    events
}

/// Emits the events of these words, up to the first that is refused.
pub(super) fn emit_words(
    rt: &impl Abort,
    alloc: Global,
    emitter: &mut yaml_emitter_t<Global>,
    words: &str,
) -> Result<(), yaml_error_t>
    requires { emitter.old.has_output ≡ true }
    ensures { emitter.new.has_output ≡ true }
{
    emit_all(emitter, events(rt, alloc, words))
}

/// Makes an emitter whose output has at most a thousand bytes.
pub(super) fn emitter_with_output(rt: &impl Abort, alloc: Global) -> yaml_emitter_t<Global>
    ensures output { result.has_output ≡ true }
    ensures not_opened { result.opened ≡ false }
{
    let mut emitter = yaml_emitter_initialize(alloc).expect(rt, "no memory");
    yaml_emitter_set_output_string(&mut emitter, 1_000);
    emitter
}

/// An action on an emitter.
#[derive(Drop)]
enum Act {
    /// Emits the events of these words.
    Emit(&'static str),
    /// Emits a scalar whose text is borrowed.
    Text(&'static str),
    /// Emits a mapping with a sequence and its alias.
    Twice,
    /// Sends the flushed bytes.
    Send,
}

/// Does it; returns how many events then wait.
fn held_after(
    rt: &impl Abort,
    alloc: Global,
    emitter: &mut yaml_emitter_t<Global>,
    sent: &mut Vec<u8>,
    act: &Act,
) -> Result<usize, yaml_error_t>
    requires { emitter.old.has_output ≡ true }
    ensures { emitter.new.has_output ≡ true }
{
    match act {
        Act::Emit(words) => emit_words(rt, alloc, emitter, words)?,
        Act::Text(text) => emit_text(emitter, text)?,
        Act::Twice => emit_twice(alloc, emitter)?,
        Act::Send => return send(emitter, sent),
    }
    Ok(emitter.held())
}

/// An action, how many events then wait, the output that wasn't taken, and the bytes that were sent.
type Step = (Act, usize, &'static str, &'static str);

fn check_step(
    rt: &impl Abort,
    alloc: Global,
    emitter: &mut yaml_emitter_t<Global>,
    sent: &mut Vec<u8>,
    step: &Step,
)
    requires { emitter.old.has_output ≡ true }
    ensures { emitter.new.has_output ≡ true }
{
    let held = held_after(rt, alloc, emitter, sent, &step.0);
    equal(rt, &(held, emitter.encoding_known()), &(Ok(step.1), true));
    let bytes = (emitter.output(), sent.as_slice());
    equal(rt, &bytes, &(step.2.as_bytes(), step.3.as_bytes()));
}

fn check_stream(rt: &impl Abort, alloc: Global, steps: &[Step]) {
    let mut emitter = emitter_with_output(rt, alloc);
    let mut sent = Vec::new(alloc);
    for step in steps {
        check_step(rt, alloc, &mut emitter, &mut sent, step);
    }
    drop(emitter);
}

/// Bytes appear at a document's end. Until then the sequence's start is queued: it awaits one more event.
const WHOLE: &[Step] = &[
    (Act::Emit("stream document [ a"), 2, "", ""),
    (Act::Emit("b ] end"), 0, "[a, b]\n", ""),
    (Act::Emit("close"), 0, "[a, b]\n", ""),
];

/// Borrowed texts come between events.
const TEXTS: &[Step] = &[
    (Act::Emit("stream document [ a"), 2, "", ""),
    (Act::Text("second"), 0, "", ""),
    (Act::Text("no: 3"), 0, "", ""),
    (Act::Emit("b ] end"), 0, "[a, second, 'no: 3', b]\n", ""),
];

/// A sequence, and an alias of it.
const ALIAS: &[Step] = &[
    (Act::Emit("stream document"), 1, "", ""),
    (Act::Twice, 0, "", ""),
    (Act::Emit("end"), 0, "first: &list [a]\nagain: *list\n", ""),
];

/// A flush writes all that is ready.
const FLUSHED: &[Step] = &[
    (Act::Emit("stream document [ a"), 2, "", ""),
    (Act::Send, 2, "", ""),
    (Act::Emit("b"), 0, "", ""),
    (Act::Send, 0, "", "[a, b"),
];

/// A stream is sent in parts.
const PARTS: &[Step] = &[
    (Act::Emit("stream document a end"), 0, "a\n", ""),
    (Act::Send, 0, "", "a\n"),
    (Act::Emit("document b end close"), 0, "--- b\n", "a\n"),
    (Act::Send, 0, "", "a\n--- b\n"),
];

#[test]
fn a_list_is_a_stream(rt: HostRuntime) {
    let yaml = list_yaml(rt.alloc(), &["a", "b: c"]);
    answers(&rt, yaml, &Ok("[a, 'b: c']\n"));
}

#[test]
fn bytes_appear_where_they_are_ready(rt: HostRuntime) {
    for steps in [WHOLE, TEXTS, ALIAS, FLUSHED, PARTS] {
        check_stream(&rt, rt.alloc(), steps);
    }
}

/// Checks that the event of this word is refused, since no stream was begun.
fn check_refused(rt: &impl Abort, alloc: Global, emitter: &mut yaml_emitter_t<Global>, word: &str)
    requires { emitter.old.has_output ≡ true }
    ensures { emitter.new.has_output ≡ true }
{
    let answer = emit_words(rt, alloc, emitter, word);
    equal(rt, &answer, &Err(yaml_error_t::ExpectedStreamStart));
    let error = emitter.error().expect(rt, "an error");
    let words = "expected STREAM-START";
    equal(
        rt,
        &(error.kind(), error.problem()),
        &(YAML_EMITTER_ERROR, words),
    );
}

#[test]
fn the_first_error_is_sticky(rt: HostRuntime) {
    let mut emitter = emitter_with_output(&rt, rt.alloc());
    check_refused(&rt, rt.alloc(), &mut emitter, "close");
    check_refused(&rt, rt.alloc(), &mut emitter, "stream");
    drop(emitter);
}
