//! A box as its pointer.
ghost use Rattle.std.specs.Prelude.{◌≡◌};
ghost use Rattle.std.specs.Box.Ownership.{box_owns};
ghost use Rattle.yaml_c.specs.Handle.{block_token};

use std::alloc::Global;
use std::marker::Model;

/// A pointer to a value on the heap, which owns the value's block.
pub(crate) struct RawBox<T> {
    pub(crate) address: *mut T,
    pub(crate) ghost value: { T },
}

impl<T> Model for RawBox<T> {
    ghost also_owns = { λ b. box_owns block_token T.row b.address b.value };
}

impl<T: Drop> RawBox<T> {
    pub(crate) fn of(boxed: Box<T>) -> RawBox<T>
        ensures { result.value ≡ boxed.value }
    {
        RawBox {
            address: Box::into_raw(boxed),
        }
    }

    pub(crate) fn into_box(self, alloc: Global) -> Box<T>
        ensures { result.value ≡ self.value }
    {
        let RawBox { address } = self;
        unsafe { Box::from_raw(alloc, address) }
    }
}
