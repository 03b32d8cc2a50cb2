//! Streams opened and closed as a whole, without documents.
use super::steps::Step;
use super::steps::Step::{Close, Closed, Error, Open, Output};
use crate::tests::emitters::UNSET;
use yaml_base::{YAML_UTF16BE_ENCODING, yaml_error_t};
use yaml_emitter::Settings;

/// An empty stream is opened and closed.
pub(super) const EMPTY: &[Step] = &[
    Open(Ok(())),
    Closed(false),
    Close(Ok(())),
    Closed(true),
    Output(b""),
    Close(Ok(())),
    Closed(true),
    Output(b""),
    Error(None),
];

pub(super) const BIG: Settings = Settings {
    encoding: YAML_UTF16BE_ENCODING,
    ..UNSET
};

/// A mark is written as the stream closes.
pub(super) const MARKED: &[Step] = &[
    Open(Ok(())),
    Closed(false),
    Close(Ok(())),
    Closed(true),
    Output(b"\xFE\xFF"),
    Close(Ok(())),
    Closed(true),
    Output(b"\xFE\xFF"),
    Error(None),
];

/// The byte order mark, which the stream's end writes, takes two bytes.
pub(super) const ONE_BYTE: Settings = Settings { limit: 1, ..BIG };

/// The limit leaves no room for the mark, and a stream that is refused its end is not closed.
pub(super) const CUT: &[Step] = &[
    Open(Ok(())),
    Closed(false),
    Close(Err(yaml_error_t::WriteError)),
    Closed(false),
    Output(b"\xFE"),
    Close(Err(yaml_error_t::WriteError)),
    Closed(false),
    Output(b"\xFE"),
    Error(Some(yaml_error_t::WriteError)),
];
