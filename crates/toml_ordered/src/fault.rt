//! The reasons why a text isn't read.
ghost use Rattle.std.specs.Prelude.{◌≡◌, ◌≤◌, length};
ghost use Rattle.toml_ordered.specs.Places.{HoldsHere, IsNotToml, IsReworded, IsSettled, moved_to};
ghost use Rattle.toml_ordered.specs.Reading.{fault_of};
ghost use Rattle.toml_ordered.specs.declared.fault.Fault.TheVariants as fault;

use crate::syntax::{self, SyntaxError, string_error};
use std::alloc::{AllocError, AllocFailed};
use thiserror::Error;
use toml_parser::ParseError;

/// The reason why a text isn't read. Places are given by how many bytes of the text were left there.
#[derive(Debug, Drop, Error)]
pub enum Fault {
    /// An allocation failed.
    #[error("out of memory")]
    Memory,
    /// The text can't go on here, and neither of the other reasons below holds of it.
    #[error("{why}, {left} bytes before the end")]
    NotToml {
        left: usize,
        why: SyntaxError,
    },
    /// An array or a table in braces begins here, within 80 others; or a key of more than 80 parts.
    #[error("arrays and tables nest too deep, {left} bytes before the end")]
    TooDeep {
        left: usize,
    },
    /// An expression defines a key, or something in it, that is defined already and takes no more. The name is the key after the keys that
    /// lead to it, with dots between them, and then in quotes if it isn't bare.
    #[error("{name:?} is defined {first} bytes before the end, and takes no more {second} bytes before the end")]
    DefinedAgain {
        key: String,
        name: String,
        first: usize,
        second: usize,
    },
}

impl Fault {
    /// Returns the fault with its place here or after, and a reason that holds of the bytes there. (No contract of `toml_parser` gives the
    /// places of its errors. That of an escape is after the backslash.)
    pub(crate) fn settled(self, start: &str) -> Fault
        ensures { IsSettled start.now self result }
    {
        let most = start.len();
        match self {
            Fault::Memory => Fault::Memory,
            Fault::NotToml { left, why } => settled_at(start, left.min(most), why),
            Fault::TooDeep { left } => Fault::TooDeep {
                left: left.min(most),
            },
            Fault::DefinedAgain {
                key,
                name,
                first,
                second,
            } => Fault::DefinedAgain {
                key,
                name,
                first,
                second: second.min(most),
            },
        }
    }

    /// Returns the fault with its place here.
    pub(crate) fn here(self, start: &str) -> Fault
        ensures { result ≡ moved_to (length start.now) self }
    {
        let left = start.len();
        match self {
            Fault::Memory => Fault::Memory,
            Fault::NotToml { why, .. } => Fault::NotToml { left, why },
            Fault::TooDeep { .. } => Fault::TooDeep { left },
            Fault::DefinedAgain {
                key,
                name,
                first,
                ..
            } => Fault::DefinedAgain {
                key,
                name,
                first,
                second: left,
            },
        }
    }

    /// Returns the fault of the first value in an array or in a table in braces, or of one after a comma; the separator is what may follow
    /// such a value.
    pub(crate) fn inside(self, separator: SyntaxError) -> Fault
        ensures { IsReworded self result }
    {
        match self {
            Fault::Memory => Fault::Memory,
            Fault::NotToml { left, why } => Fault::NotToml {
                left,
                why: why.inside(separator),
            },
            Fault::TooDeep { left } => Fault::TooDeep { left },
            Fault::DefinedAgain {
                key,
                name,
                first,
                second,
            } => Fault::DefinedAgain {
                key,
                name,
                first,
                second,
            },
        }
    }

    /// Returns the fault of a pair of a table in braces that begins with this much text left: the table may end there instead.
    pub(crate) fn in_braces(self, start: usize) -> Fault
        ensures { IsReworded self result }
    {
        match self {
            Fault::Memory => Fault::Memory,
            Fault::NotToml { left, why } => Fault::NotToml {
                left,
                why: if left == start { why.in_braces() } else { why },
            },
            Fault::TooDeep { left } => Fault::TooDeep { left },
            Fault::DefinedAgain {
                key,
                name,
                first,
                second,
            } => Fault::DefinedAgain {
                key,
                name,
                first,
                second,
            },
        }
    }
}

/// Returns the fault of an expression that isn't TOML, with a reason that holds at its place.
fn settled_at(start: &str, left: usize, why: SyntaxError) -> Fault
    requires { left ≤ length start.now }
    ensures is { IsNotToml result }
    ensures holds { HoldsHere start.now result }
{
    let most = start.len();
    let left = if why == SyntaxError::Escape && left < most {
        left + 1
    } else {
        left
    };
    let why = syntax::settled(why, &start.as_bytes()[most - left..]);
    Fault::NotToml { left, why }
}

impl From<ParseError> for Fault {
    ghost use Rattle.std.specs.Prelude.{◌≡◌};
    ghost use Rattle.toml_ordered.specs.Reading.{fault_of};

    ghost from_gives = { λ error fault. fault ≡ fault_of error };

    fn from(error: ParseError) -> Fault {
        match error {
            ParseError::OutOfMemory => Fault::Memory,
            ParseError::At(kind, left, _) => Fault::NotToml {
                left,
                why: string_error(kind),
            },
        }
    }
}

impl From<AllocError> for Fault {
    ghost use Rattle.std.specs.Prelude.{◌≡◌};
    ghost use Rattle.toml_ordered.specs.declared.fault.Fault.TheVariants.{Memory};

    ghost from_gives = { λ _ fault. fault ≡ Memory };

    fn from(_refused: AllocError) -> Fault {
        Fault::Memory
    }
}

impl<T: Drop> From<AllocFailed<T>> for Fault {
    ghost use Rattle.std.specs.Prelude.{◌≡◌};
    ghost use Rattle.toml_ordered.specs.declared.fault.Fault.TheVariants.{Memory};

    ghost from_gives = { λ _ fault. fault ≡ Memory };

    fn from(_refused: AllocFailed<T>) -> Fault {
        Fault::Memory
    }
}

/// Returns the fault of a text that can't go on with this rest left, for this reason.
pub(crate) fn not_toml(rest: &str, why: SyntaxError) -> Fault
    ensures { result ≡ fault.NotToml (length rest.now) why }
{
    Fault::NotToml {
        left: rest.len(),
        why,
    }
}

/// Returns the fault of a value that nests too deep, or a key of too many parts, with this rest left.
pub(crate) fn too_deep(rest: &str) -> Fault
    ensures { result ≡ fault.TooDeep (length rest.now) }
{
    Fault::TooDeep { left: rest.len() }
}
