//! The steps of a walk over a document's nodes.

/// A step of the walk; nodes are numbered from 1.
#[derive(Clone, Copy)]
pub(crate) enum Step {
    /// The walk meets a node for the first time.
    Enters(usize),
    /// The walk has met all nodes below this one.
    Leaves(usize),
    /// The walk meets a node that it met before.
    MeetsAgain(usize),
}
