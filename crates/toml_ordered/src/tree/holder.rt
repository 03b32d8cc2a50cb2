//! The table in a value that may still grow, taken out of the value and put back.
ghost use Rattle.std.specs.Prelude.{◌≡◌, MatchOption};
ghost use Rattle.toml_ordered.specs.Passing.{IsOpened, IsShut, held};

use crate::route::Way;
use crate::tree::{Node, Origin, Table};

/// A value without the table in it that may still grow.
#[derive(Drop)]
pub(crate) enum Holder {
    Table(Origin),
    /// The tables of an array that headers in double brackets make, but the last.
    Tables(Vec<Node>),
}

impl Node {
    /// Takes the table out of the value for a key to pass it; returns `None` if the value lets no key pass in this way.
    pub(crate) fn open(self, way: Way) -> Option<(Holder, Table)>
        ensures { MatchOption result (IsShut way self) (λ opened. IsOpened way self opened.0 opened.1) }
    {
        match self {
            Node::Table(origin, table) => match way.origin_after(origin) {
                Some(after) => Some((Holder::Table(after), table)),
                None => None,
            },
            Node::Tables(done, last) => match way {
                Way::Header => Some((Holder::Tables(done), last)),
                Way::Dots => None,
            },
            _ => None,
        }
    }
}

impl Holder {
    /// Returns the value with a table in it.
    pub(crate) fn filled_with(self, inner: Table) -> Node
        ensures { result ≡ held self inner }
    {
        match self {
            Holder::Table(origin) => Node::Table(origin, inner),
            Holder::Tables(done) => Node::Tables(done, inner),
        }
    }
}
