//! The pointer by which a C program holds an emitter.
ghost use Rattle.std.specs.Prelude.{◌≡◌, Option, None, Some, is_some, true};
ghost use Rattle.yaml_c.specs.Handle.{handle_owns};
ghost use Rattle.yaml_c.specs.declared.kept.Kept.{Kept as KeptState};

use crate::kept::Kept;
use crate::raw_box::RawBox;
use std::alloc::Global;
use std::marker::Model;
use std::mem::replace;
use std::ptr::null_mut;

/// An emitter that is kept between calls, or none. See the header.
#[repr(C)]
#[derive(Drop)]
pub struct EmitterHandle {
    address: *mut u8,
    pub(crate) ghost state: { Option KeptState },
}

impl Model for EmitterHandle {
    ghost also_owns = { λ h. handle_owns h.address h.state };
}

impl EmitterHandle {
    pub(crate) fn none() -> EmitterHandle
        ensures { result.state ≡ None }
    {
        EmitterHandle {
            address: null_mut(),
        }
    }

    pub(crate) fn of(emitter: RawBox<Kept>) -> EmitterHandle
        ensures { result.state ≡ Some emitter.value }
    {
        let RawBox { address } = emitter;
        EmitterHandle {
            address: address as *mut u8,
        }
    }

    pub(crate) fn into_raw_box(self) -> RawBox<Kept>
        requires { is_some self.state ≡ true }
        ensures { Some result.value ≡ self.state }
    {
        let EmitterHandle { address } = self;
        RawBox {
            address: address as *mut Kept,
        }
    }

    /// Takes the emitter out of the handle.
    pub(crate) fn take(&mut self, alloc: Global) -> Box<Kept>
        requires { is_some self.old.state ≡ true }
        ensures emitter { Some result.value ≡ self.old.state }
        ensures none { self.new.state ≡ None }
    {
        replace(self, EmitterHandle::none())
            .into_raw_box()
            .into_box(alloc)
    }

    /// Puts an emitter into the handle. An emitter that is there is forgotten.
    pub(crate) fn put(&mut self, emitter: Box<Kept>)
        ensures { self.new.state ≡ Some emitter.value }
    {
        *self = EmitterHandle::of(RawBox::of(emitter));
    }
}
