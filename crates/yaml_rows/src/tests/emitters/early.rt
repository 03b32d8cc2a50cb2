//! Flushes before a stream begins: an encoding that was set is known then, and there is nothing to flush.
use super::UNSET;
use super::steps::Step;
use super::steps::Step::{Emit, Flush, Known, Output, Started};
use yaml_base::{YAML_UTF8_ENCODING, YAML_UTF16LE_ENCODING};
use yaml_emitter::Settings;

pub(super) const SMALL: &Settings = &Settings {
    encoding: YAML_UTF8_ENCODING,
    ..UNSET
};

// A flush before a stream without documents. A stream that waits for its start has flushed nothing.
pub(super) const EARLY: &[Step] = &[
    Known(true),
    Started(false),
    Flush(Ok(())),
    Output(b""),
    Started(false),
    Emit("+STR any"),
    Emit("-STR"),
    Started(true),
    Output(b""),
];

pub(super) const LITTLE: &Settings = &Settings {
    encoding: YAML_UTF16LE_ENCODING,
    ..UNSET
};

pub(super) const EARLY_MARKED: &[Step] = &[
    Known(true),
    Started(false),
    Flush(Ok(())),
    Output(b""),
    Started(false),
    Emit("+STR any"),
    Emit("-STR"),
    Started(true),
    Output(b"\xFF\xFE"),
];
