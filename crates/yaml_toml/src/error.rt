//! The reasons why a text isn't written as YAML.
use thiserror::Error;
use toml_ordered::SyntaxError;
use yaml_base::{Position, Quoted};
use yaml_writer::yaml_error_t;

/// The reason why a text isn't written as YAML.
#[derive(Debug, Drop, Error)]
pub enum TomlError {
    /// The text is no TOML: it can't go on here, and it is neither `DefinedAgain` nor `TooDeepToRead`. `why` tells what is wrong here.
    #[error("{position}: {why}")]
    NotToml {
        position: Position,
        why: SyntaxError,
    },
    /// The expression that begins here defines a key, or something in it, that takes no more. The expression that defined it first begins
    /// at the position `first`. `name` is the whole dotted key, up to the key that takes no more. The message has it in quotes, escaped, and
    /// of more than 80 characters only both ends.
    #[error("{position}: {quoted} is defined at {first}, and takes no more", quoted = Quoted(.name.as_str()))]
    DefinedAgain {
        key: String,
        name: String,
        first: Position,
        position: Position,
    },
    /// An array or a table in braces begins here within 80 others, or a key of more than 80 parts: none is read that deep, whatever is
    /// allowed.
    #[error("{position}: arrays and tables nest too deep")]
    TooDeepToRead {
        position: Position,
    },
    /// Arrays and tables nest deeper than was allowed.
    #[error("arrays and tables nest too deep")]
    TooDeep,
    /// The bytes pass the limit (`WriteError`), or an allocation failed (`Memory`). If more than 1,000,000 levels are allowed, the emitter
    /// refuses an array or a table below that many (`TooDeep`).
    #[error(transparent)]
    Emitter(yaml_error_t),
}

/// Makes the errors of a writer errors of a caller that writes TOML, too.
impl From<yaml_error_t> for TomlError {
    ghost use Rattle.std.specs.Prelude.{◌≡◌};
    ghost use Rattle.yaml_toml.specs.declared.error.TomlError.TheVariants.{Emitter};

    ghost from_gives = { λ error made. made ≡ Emitter error };

    fn from(error: yaml_error_t) -> TomlError {
        TomlError::Emitter(error)
    }
}
