//! The events that an emitter was given. They exist only in proofs.

ghost use Rattle.std.specs.Prelude.{◌≡◌, List, [], ◌∷◌, ◌++◌};
ghost use Rattle.std.specs.Borrow.{ftrue};
ghost use Rattle.yaml_base.specs.Event.{Event};

use std::marker::Model;

/// The list of the events that were given. It takes no memory, and its calls do nothing at run time.
#[derive(Drop)]
pub(crate) struct History {
    pub(crate) ghost events: { List Event },
}

impl Model for History {
    ghost also_owns = { λ _. ftrue };
}

impl History {
    /// Returns the list of no events: nothing is given yet.
    pub(crate) fn new() -> History
        ensures { result.events ≡ [] }
    {
        History {}
    }

    /// Returns the list with one event more, which the caller's proof names.
    pub(crate) fn with<T>(&self, _given: &T) -> History
        ghost event: { Event }
        ensures { result.events ≡ self.now.events ++ event ∷ [] }
    {
        History {}
    }
}
