//! The reasons why a value isn't written, with the place in it.
ghost use Rattle.std.specs.Prelude.{◌≡◌};
ghost use Rattle.yaml_serde.specs.Outlets.{without_path};

use std::alloc::{AllocError, AllocFailed};
use std::{fmt, io};
use yaml_writer::yaml_error_t;

/// The reason why a value isn't written, and the place in it. `Display` prints the path, a colon and the cause; without a path, the
/// cause alone.
#[derive(Debug, Drop, thiserror::Error)]
#[error(fmt = print_located)]
pub struct Error {
    pub cause: Cause,
    /// The keys and indices that lead to the place at which the value's own `serialize` failed, as `jobs.build.steps[2].with`. A key
    /// that is neither a text nor an integer is `?`; a tag and a flattened value add nothing.
    ///
    /// `None` if it failed outside of any key and item, if only the end of the value showed the error, and if the path
    /// itself could not be allocated.
    pub path: Option<String>,
}

/// The reason why a value isn't written.
#[derive(Debug, Drop, thiserror::Error)]
pub enum Cause {
    /// The emitter's error: `WriteError`, that of a `Serialize` by hand that writes no value, several, or a variant's name without its
    /// data, or an error that the writer had before. `TooDeep` is the emitter's own limit of 1,000,000 levels.
    #[error(transparent)]
    Emitter(yaml_error_t),
    /// The message of the value's own `serialize`.
    #[error("{0}")]
    Custom(String),
    /// A sequence or a map lies deeper than was allowed. Its start isn't written.
    #[error("sequences and maps nest too deep")]
    TooDeep,
    /// A node would have two tags: the data of a variant with a tag is a variant with data, or bytes.
    #[error("the data of a variant has a tag of its own")]
    TwoTags,
    /// A flattened value is neither a struct nor a map.
    #[error("a flattened value is neither a struct nor a map")]
    Flattened,
    /// The sink failed.
    #[error("cannot write: {0}")]
    Sink(io::Error),
    /// An allocation failed.
    #[error("out of memory")]
    Memory,
}

/// Prints a path, if there is one, and a cause.
fn print_located<W: fmt::Write>(
    cause: &Cause,
    path: &Option<String>,
    f: &mut fmt::Formatter<W>,
) -> fmt::Result {
    match path {
        Some(path) => write!(f, "{path}: {cause}"),
        None => write!(f, "{cause}"),
    }
}

impl From<Cause> for Error {
    ghost from_gives = { λ cause error. error ≡ without_path cause };

    fn from(cause: Cause) -> Error {
        Error { cause, path: None }
    }
}

impl From<yaml_error_t> for Error {
    fn from(error: yaml_error_t) -> Error {
        match error {
            yaml_error_t::Memory => Error::from(Cause::Memory),
            error => Error::from(Cause::Emitter(error)),
        }
    }
}

impl From<io::Error> for Error {
    fn from(error: io::Error) -> Error {
        Error::from(Cause::Sink(error))
    }
}

impl From<AllocError> for Error {
    fn from(_error: AllocError) -> Error {
        Error::from(Cause::Memory)
    }
}

impl<T: Drop> From<AllocFailed<T>> for Error {
    fn from(_error: AllocFailed<T>) -> Error {
        Error::from(Cause::Memory)
    }
}
