//! The reasons why a text isn't read as a value, and why a value isn't written as a text.
use thiserror::Error;
use yaml_json::{JsonError, Position};
use yaml_read::ReadError;

/// The reason why a text isn't read as a value.
#[derive(Clone, Copy, Debug, Drop, Error, PartialEq, Eq)]
pub enum ValueError {
    /// `yaml_from_json` refuses the text, or an allocation failed: `Emitter` with `Memory`.
    #[error(transparent)]
    Json(JsonError),
    /// A number, which begins here, isn't an integer of 64 bits in decimal digits: it has a point or an exponent, is `-0`, or is
    /// too large.
    #[error("{position}: not an integer of 64 bits")]
    NotInteger { position: Position },
}

/// The reason why a value isn't written as JSON.
#[derive(Clone, Copy, Debug, Drop, Error, PartialEq, Eq)]
pub enum WriteError {
    /// A key of a map isn't a text. JSON has no such name.
    #[error("a key that isn't a text")]
    NameNotText,
    /// Lists and maps nest more than 1,000 deep.
    #[error("lists and maps nest too deep")]
    TooDeep,
    /// An allocation failed.
    #[error("out of memory")]
    Memory,
}

/// The reason why canonical bytes aren't given as JSON.
#[derive(Clone, Copy, Debug, Drop, Error, PartialEq, Eq)]
pub enum CanonicalError {
    /// `read_canonical_with` refuses the bytes.
    #[error(transparent)]
    Read(ReadError),
    /// `json_from_value` refuses their value.
    #[error(transparent)]
    Write(WriteError),
}

/// The reason why the walk stops.
#[derive(Clone, Copy, Debug, Drop)]
pub(crate) enum Stop {
    /// The token is impossible here, or one is missing.
    Misplaced,
    /// The last token that was read is a number, and no integer of 64 bits.
    NotInteger,
    /// An allocation failed.
    Memory,
}
