//! The kinds of collections.

/// The kind of a collection.
#[derive(Clone, Copy, PartialEq, Eq, Debug)]
pub enum CollectionKind {
    /// A sequence of items.
    Sequence,
    /// A mapping: pairs of a key and a value.
    Mapping,
}
