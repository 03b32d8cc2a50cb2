//! The reasons why bytes aren't read.
ghost use Rattle.std.specs.Prelude.{◌≡◌};
ghost use Rattle.yaml_read.specs.Places.{IsHere, IsWholeWord};
ghost use Rattle.yaml_read.specs.declared.errors.Stop.TheVariants as stop;

use std::alloc::AllocError;
use thiserror::Error;
use yaml_base::Position;

/// The reason why bytes aren't read.
#[derive(Clone, Copy, Debug, Drop, Error, PartialEq, Eq)]
pub enum ReadError {
    /// They are no value's canonical bytes. The first word that is impossible at its place begins here: a tag, a bracket,
    /// a comma, a line's end, a level's two spaces, `? ` or `: ` with the two spaces before it, a character of a text or its
    /// escape, another scalar with its quotes. If they end too early, a word is missing or cut off here. If they aren't
    /// UTF-8, this is the end of their longest prefix that is. By `read_document` they are no document's, and no event goes on here:
    /// here a line's end and what leads to a node are wrong, or a node after these, or what follows a node or a bracket.
    #[error("{position}: not canonical")]
    NotCanonical { position: Position },
    /// Lists and maps nest more than 1,000 deep. The first that lies too deep begins here.
    #[error("{position}: lists and maps nest too deep")]
    TooDeep { position: Position },
    /// A map has a key twice, and keys must differ. The second of the two begins here, if `: ` follows it; no map has a key twice up to
    /// here. Only `read_canonical_with` tells it.
    #[error("{position}: a key that its map has already")]
    DuplicateKey { position: Position },
    /// They are laid out as those of a document, but no dump gives its nodes these anchors and aliases. It has no place.
    #[error("anchors and aliases are not those that a dump numbers")]
    NotNumbered,
    /// An allocation failed.
    #[error("out of memory")]
    Memory,
}

/// The reason why the reader stops.
#[derive(Clone, Copy, Drop)]
pub(crate) enum Stop {
    /// The word so many bytes before the end is impossible there.
    Refused(usize),
    /// The list or the map that begins so many bytes before the end lies too deep.
    TooDeep(usize),
    Memory,
}

/// The reason why the reader of values stops.
#[derive(Clone, Copy, Drop)]
pub(crate) enum KeyStop {
    /// It would stop even if keys may repeat.
    Other(Stop),
    /// Keys must differ, and the key that begins so many bytes before the end is one that its map has already.
    Repeats(usize),
}

impl From<AllocError> for Stop {
    ghost from_gives = { λ _ error. error ≡ stop.Memory };

    fn from(_: AllocError) -> Stop {
        Stop::Memory
    }
}

/// Returns that the first word of the rest is impossible there.
pub(crate) fn refused_at(rest: &str) -> Stop
    ensures { IsHere rest.now result }
{
    Stop::Refused(rest.len())
}

/// Returns that the rest begins with a word that is refused as a whole.
pub(crate) fn refused_whole(reason: Stop, rest: &str) -> Stop
    ensures { IsWholeWord rest.now reason result }
{
    match reason {
        Stop::Memory => Stop::Memory,
        _ => refused_at(rest),
    }
}
