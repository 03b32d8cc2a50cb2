//! Errors of `yaml_json` and of `yaml_json_value` as the program reports them.
ghost use Rattle.std.specs.Prelude.{◌≡◌};
ghost use Rattle.json2yaml.specs.Statuses as statuses;
ghost use Rattle.yaml_program.specs.Faults as faults;

use yaml_base::Position;
use yaml_json::{JsonError, StreamError};
use yaml_json_value::ValueError;
use yaml_program::{Failure, NO_MEMORY, Reason};

/// Returns the failure of a text that is refused at this position for this reason.
pub fn refused(position: Position, words: &'static str) -> Failure
    ensures { faults.failure_status result ≡ 1 }
{
    Failure::Refused {
        place: Some(position),
        reason: Reason::Words(words),
    }
}

/// Converts the error of a text to the program's failure.
fn failure_of_text(error: JsonError) -> Failure
    ensures { faults.failure_status result ≡ statuses.json_status (StreamError.Refused error) }
{
    match error {
        JsonError::NotJson { position, expected } => refused(position, expected.words()),
        JsonError::Marked { position } => refused(position, "a byte order mark"),
        JsonError::TooDeep { position } => { refused(position, "arrays and objects nest too deep") }
        JsonError::DuplicateName { position } => {
            refused(position, "a name that comes twice in its object")
        }
        JsonError::Emitter(error) => Failure::Unwritten(error),
    }
}

/// Converts a stream error to the program's failure.
pub fn failure_of(error: StreamError) -> Failure
    ensures { faults.failure_status result ≡ statuses.json_status error }
{
    match error {
        StreamError::Refused(error) => failure_of_text(error),
        StreamError::NotText { position } => refused(position, "not UTF-8"),
        StreamError::ReadFailed(error) => Failure::ReadFailed(error),
        StreamError::WriteFailed(error) => Failure::WriteFailed(error),
    }
}

/// Converts the error of a text that has no canonical bytes to the program's failure. The text is checked without a limit, and at a depth that
/// the emitter allows, so an error of the emitter is that no memory is left.
pub fn failure_of_value(error: ValueError) -> Failure
    ensures { faults.failure_status result ≡ statuses.value_status error }
{
    match error {
        ValueError::Json(JsonError::Emitter(_)) => NO_MEMORY,
        ValueError::Json(error) => failure_of_text(error),
        ValueError::NotInteger { position } => refused(position, "not an integer of 64 bits"),
    }
}
