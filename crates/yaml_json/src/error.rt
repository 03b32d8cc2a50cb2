//! The reasons why a text isn't written as YAML.
ghost use Rattle.std.specs.Prelude.{◌≡◌};

use crate::expecting::Expected;
use std::io;
use thiserror::Error;
use yaml_base::Position;
use yaml_writer::yaml_error_t;

/// The reason why a text isn't written as YAML.
#[derive(Clone, Copy, Debug, Drop, Error, PartialEq, Eq)]
pub enum JsonError {
    /// The text is no JSON. The first bracket, string, word, comma or colon that isn't possible at its place begins here; if the text
    /// ends too early, this is its end. `expected` names the input that is possible here, by the bytes before. If a string or a number is
    /// there that would be possible without its fault, `expected` names the fault, and the fault is here. Lines end with LF, and both
    /// numbers count from 1, columns in characters.
    #[error("{position}: {expected}")]
    NotJson {
        position: Position,
        expected: Expected,
    },
    /// The text is no JSON, since a byte order mark begins it, here.
    #[error("{position}: a byte order mark")]
    Marked {
        position: Position,
    },
    /// Arrays and objects nest deeper than was allowed. The first that lies too deep begins here.
    #[error("{position}: arrays and objects nest too deep")]
    TooDeep {
        position: Position,
    },
    /// An object has a name twice, and each was to come once. The second begins here.
    #[error("{position}: a name that comes twice in its object")]
    DuplicateName {
        position: Position,
    },
    /// The bytes pass the limit (`WriteError`), or an allocation failed (`Memory`). If more than 1,000,000 levels were allowed,
    /// the emitter refuses any deeper level (`TooDeep`).
    #[error(transparent)]
    Emitter(yaml_error_t),
}

/// The error of a writer, so that `?` converts it: calls of a writer and of this crate can be in one function.
impl From<yaml_error_t> for JsonError {
    ghost use Rattle.yaml_json.specs.declared.error.JsonError.TheVariants.{Emitter};

    ghost from_gives = { λ error converted. converted ≡ Emitter error };

    fn from(error: yaml_error_t) -> Self
        ensures { result ≡ JsonError.Emitter error }
    {
        JsonError::Emitter(error)
    }
}

/// The reason why JSON texts that come part by part aren't written as YAML to their end. Places count from the first byte that came.
#[derive(Clone, Copy, Debug, Drop, Error)]
pub enum StreamError {
    /// One of the texts isn't written.
    #[error(transparent)]
    Refused(JsonError),
    /// The first bytes that are no UTF-8 begin here.
    #[error("{position}: not UTF-8")]
    NotText { position: Position },
    /// Reading failed.
    #[error("cannot read: {0}")]
    ReadFailed(#[source] io::Error),
    /// The sink failed.
    #[error("cannot write: {0}")]
    WriteFailed(#[source] io::Error),
}
