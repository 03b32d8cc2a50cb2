//! The tables that a key passes, each taken out of the one around it.
ghost use Rattle.std.specs.Prelude.{◌<◌, vec_len};

use crate::tree::{Holder, Table};
use std::mem;

/// A table that a key passes, without the table in the value of that key.
#[derive(Drop)]
pub(crate) struct Passed {
    pub(crate) table: Table,
    pub(crate) at: usize,
    pub(crate) holder: Holder,
    ghost within: { at < vec_len table.keys },
}

impl Passed {
    ghost use Rattle.toml_ordered.specs.Passing.{IsFilled};

    /// Returns the table with the inner one put back.
    pub(crate) fn filled_with(self, inner: Table) -> Table
        ensures { IsFilled self inner result }
    {
        let Passed {
            mut table,
            at,
            holder,
        } = self;
        drop(mem::replace(&mut table.keys[at].1, holder.filled_with(inner)));
        table
    }
}
