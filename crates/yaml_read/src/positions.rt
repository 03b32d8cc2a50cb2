//! The text of bytes, and errors with their positions.
ghost use Rattle.std.specs.Prelude.{◌-◌, length};
ghost use Rattle.yaml_base.specs.Positions.{IsPositionOf};
ghost use Rattle.yaml_read.specs.Errors.{IsTextOf, Tells, TellsKey};

use crate::errors::{KeyStop, ReadError, Stop};
use yaml_base::{Position, position_of};

/// Returns the text that these bytes are.
pub(crate) fn text_of(bytes: &[u8]) -> Result<&str, ReadError>
    ensures { IsTextOf bytes.now result }
{
    match std::str::from_utf8(bytes) {
        Ok(text) => Ok(text),
        Err(error) => Err(ReadError::NotCanonical {
            position: position_of(bytes, error.valid_up_to()),
        }),
    }
}

/// Returns the position of what begins so many bytes before the end.
fn position_before_end(bytes: &[u8], left: usize) -> Position
    ensures { IsPositionOf bytes.now (length bytes.now - left) result }
{
    position_of(bytes, bytes.len().saturating_sub(left))
}

/// Returns the error of why the reader stops, with its position.
pub(crate) fn error_of(bytes: &[u8], stop: Stop) -> ReadError
    ensures { Tells bytes.now stop result }
{
    match stop {
        Stop::Refused(left) => ReadError::NotCanonical {
            position: position_before_end(bytes, left),
        },
        Stop::TooDeep(left) => ReadError::TooDeep {
            position: position_before_end(bytes, left),
        },
        Stop::Memory => ReadError::Memory,
    }
}

/// Returns the error of why the reader of values stops, with its position.
pub(crate) fn key_error_of(bytes: &[u8], stop: KeyStop) -> ReadError
    ensures { TellsKey bytes.now stop result }
{
    match stop {
        KeyStop::Other(stop) => error_of(bytes, stop),
        KeyStop::Repeats(left) => ReadError::DuplicateKey {
            position: position_before_end(bytes, left),
        },
    }
}
