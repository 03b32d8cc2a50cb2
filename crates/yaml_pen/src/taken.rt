//! The taken bytes of the output. They exist only in proofs.
ghost use Rattle.std.specs.Prelude.{◌≡◌, ℕ, List, [], ◌++◌};
ghost use Rattle.std.specs.Borrow.{ftrue};

use std::marker::Model;

/// The list of the bytes that the caller has taken. It takes no memory, and its calls do nothing at run time.
#[derive(Drop)]
pub(crate) struct TakenBytes {
    pub(crate) ghost bytes: { List ℕ },
}

impl Model for TakenBytes {
    ghost also_owns = { λ _. ftrue };
}

impl TakenBytes {
    /// Returns the list of no bytes: nothing is taken yet.
    pub(crate) fn new() -> TakenBytes
        ensures { result.bytes ≡ [] }
    {
        TakenBytes {}
    }

    /// Returns the list with more bytes that are taken.
    pub(crate) fn with(&self, _more: &[u8]) -> TakenBytes
        ensures { result.bytes ≡ self.now.bytes ++ _more.now }
    {
        TakenBytes {}
    }
}
