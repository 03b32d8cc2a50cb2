//! Errors of `yaml_toml` as the program reports them.
ghost use Rattle.std.specs.Prelude.{◌≡◌};
ghost use Rattle.toml2yaml.specs.Statuses as statuses;
ghost use Rattle.yaml_program.specs.Faults as faults;

use yaml_base::Position;
use yaml_program::{Failure, Reason};
use yaml_toml::TomlError;

const TOO_DEEP: &str = "arrays and tables nest too deep";

/// Returns the failure of a text that is refused at this position for this reason.
pub fn refused(position: Position, words: &'static str) -> Failure
    ensures { faults.failure_status result ≡ 1 }
{
    Failure::Refused {
        place: Some(position),
        reason: Reason::Words(words),
    }
}

/// Converts an error of a text to the program's failure.
pub fn failure_of(error: TomlError) -> Failure
    ensures { faults.failure_status result ≡ statuses.toml_status error }
{
    match error {
        TomlError::NotToml { position, why } => refused(position, why.words()),
        TomlError::TooDeepToRead { position } => refused(position, TOO_DEEP),
        TomlError::DefinedAgain {
            name,
            first,
            position,
            ..
        } => Failure::Refused {
            place: Some(position),
            reason: Reason::Twice { name, first },
        },
        TomlError::TooDeep => Failure::Refused {
            place: None,
            reason: Reason::Words(TOO_DEEP),
        },
        TomlError::Emitter(error) => Failure::Unwritten(error),
    }
}
