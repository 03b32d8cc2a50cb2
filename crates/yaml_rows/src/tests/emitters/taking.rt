//! The output, taken or consumed in parts while the stream is written.
use super::UNSET;
use super::early::{EARLY, EARLY_MARKED, LITTLE, SMALL};
use super::steps::Step::{Consume, Emit, Failed, Flush, Held, Output, Take};
use super::steps::{Step, check_steps};
use yaml_base::{YAML_UTF16LE_ENCODING, yaml_error_t};
use yaml_emitter::Settings;

// In the middle of a document, and while events wait.
const PARTS: &[Step] = &[
    Take(b""),
    Emit("+STR any"),
    Emit("+DOC 1 -"),
    Emit("+SEQ flow 1 - -"),
    Flush(Ok(())),
    Take(b""),
    Emit(r#"=VAL any 1 1 - - "a""#),
    Emit(r#"=VAL any 1 1 - - "b""#),
    Flush(Ok(())),
    Take(b"[a, b"),
    Emit("+SEQ flow 1 - -"),
    Emit(r#"=VAL any 1 1 - - "c""#),
    Flush(Ok(())),
    Take(b""),
    Held(2),
    Emit("-SEQ"),
    Flush(Ok(())),
    Take(b", [c]"),
    Emit("-SEQ"),
    Emit("-DOC 1"),
    Take(b"]\n"),
    Emit("+DOC 1 -"),
    Emit(r#"=VAL any 1 1 - - "d""#),
    Emit("-DOC 1"),
    Emit("-STR"),
    Take(b"--- d\n"),
];

const UTF16: &Settings = &Settings {
    encoding: YAML_UTF16LE_ENCODING,
    ..UNSET
};

// The byte order mark comes with the first part alone.
const IN_UTF16: &[Step] = &[
    Emit("+STR any"),
    Emit("+DOC 1 -"),
    Flush(Ok(())),
    Take(b"\xFF\xFE"),
    Emit(r#"=VAL any 1 1 - - "a""#),
    Flush(Ok(())),
    Take(b"a\0"),
    Emit("-DOC 1"),
    Emit("-STR"),
    Take(b"\n\0"),
];

const SIX: &Settings = &Settings { limit: 6, ..UNSET };

// Five bytes are taken, and the limit leaves one of the next three.
const TO_THE_LIMIT: &[Step] = &[
    Emit("+STR any"),
    Emit("+DOC 1 -"),
    Emit("+SEQ flow 1 - -"),
    Emit(r#"=VAL any 1 1 - - "a""#),
    Emit(r#"=VAL any 1 1 - - "b""#),
    Flush(Ok(())),
    Take(b"[a, b"),
    Emit(r#"=VAL any 1 1 - - "c""#),
    Flush(Err(yaml_error_t::WriteError)),
    Take(b","),
    Failed(yaml_error_t::WriteError),
    Take(b""),
];

// After each part is consumed, the output has only new bytes, and so have the parts that are taken.
const CONSUMED: &[Step] = &[
    Consume(b""),
    Emit("+STR any"),
    Emit("+DOC 1 -"),
    Emit(r#"=VAL any 1 1 - - "a""#),
    Emit("-DOC 1"),
    Consume(b"a\n"),
    Emit("+DOC 1 -"),
    Emit(r#"=VAL any 1 1 - - "b""#),
    Emit("-DOC 1"),
    Output(b"--- b\n"),
    Take(b"--- b\n"),
    Consume(b""),
    Emit("+DOC 1 -"),
    Emit("+SEQ flow 1 - -"),
    Emit(r#"=VAL any 1 1 - - "c""#),
    Emit(r#"=VAL any 1 1 - - "d""#),
    Consume(b""),
    Flush(Ok(())),
    Consume(b"--- [c, d"),
    Emit("-SEQ"),
    Emit("-DOC 1"),
    Take(b"]\n"),
    Emit("-STR"),
    Output(b""),
];

// The byte order mark is consumed with the first part.
const CONSUMED_IN_UTF16: &[Step] = &[
    Emit("+STR any"),
    Emit("+DOC 1 -"),
    Flush(Ok(())),
    Consume(b"\xFF\xFE"),
    Emit(r#"=VAL any 1 1 - - "a""#),
    Flush(Ok(())),
    Consume(b"a\0"),
    Emit("-DOC 1"),
    Emit("-STR"),
    Output(b"\n\0"),
];

// Five bytes are consumed, and the limit leaves one of the next three, which is consumed after the error.
const CONSUMED_TO_THE_LIMIT: &[Step] = &[
    Emit("+STR any"),
    Emit("+DOC 1 -"),
    Emit("+SEQ flow 1 - -"),
    Emit(r#"=VAL any 1 1 - - "a""#),
    Emit(r#"=VAL any 1 1 - - "b""#),
    Flush(Ok(())),
    Consume(b"[a, b"),
    Emit(r#"=VAL any 1 1 - - "c""#),
    Flush(Err(yaml_error_t::WriteError)),
    Consume(b","),
    Failed(yaml_error_t::WriteError),
    Consume(b""),
    Take(b""),
];

/// Calls on an emitter of these settings.
const CALLS: &[(&Settings, &[Step])] = &[
    (SMALL, EARLY),
    (LITTLE, EARLY_MARKED),
    (&UNSET, PARTS),
    (UTF16, IN_UTF16),
    (SIX, TO_THE_LIMIT),
    (&UNSET, CONSUMED),
    (UTF16, CONSUMED_IN_UTF16),
    (SIX, CONSUMED_TO_THE_LIMIT),
];

#[test]
fn a_stream_is_taken_in_parts_up_to_the_limit(rt: HostRuntime) {
    for (settings, steps) in CALLS {
        check_steps(&rt, rt.alloc(), settings, steps);
    }
}
