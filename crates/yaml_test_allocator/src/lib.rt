//! An allocator for tests that refuses one growth.
#![tactic(auto)]

ghost use Rattle.std.specs.Prelude.{◌≡◌};

use std::alloc::{AllocError, Allocator};
use std::cell::Cell;

/// Passes each call on to another allocator, except one growth, which it refuses.
pub struct Refusing<A: Allocator> {
    inner: A,
    /// The number of growths up to the one to be refused; 0 if none is to be.
    left: Cell<usize>,
}

impl<A: Allocator> Refusing<A> {
    /// Returns an allocator that refuses nothing yet.
    pub fn new(inner: A) -> Refusing<A>
        ensures passes_on { result.inner ≡ inner }
    {
        Refusing {
            inner,
            left: Cell::new(0),
        }
    }

    /// Refuses the growth of this number, counted from 1 and from now on, and no other; with 0 none. (The number is in a
    /// cell, and no clause can speak of a cell's contents.)
    pub fn refuse(&self, number: usize) {
        self.left.set(number);
    }

    /// Returns the number of the growth to be refused, counted from now on; 0 if it was refused or none is to be.
    pub fn left(&self) -> usize {
        self.left.get()
    }
}

impl<A: Allocator> Drop for Refusing<A> {
    fn drop(self) {
        let Self { inner: _, left: _ } = self;
    }
}

// Counts a growth and returns whether it is the one to be refused.
fn is_refused(left: &Cell<usize>) -> bool {
    let number = left.get();
    left.set(number.saturating_sub(1));
    number == 1
}

// A growth of a block is one call of `allocate`.
unsafe impl<A: Allocator> Allocator for Refusing<A> {
    ghost dealloc_token = { λ heap ty ptr. A.dealloc_token heap.inner ty ptr };

    fn allocate(&self, size: usize, align: usize) -> Result<*mut u8, AllocError> {
        if is_refused(&self.left) {
            return Err(AllocError);
        }
        self.inner.allocate(size, align)
    }

    unsafe fn deallocate(&self, block: *mut u8, size: usize, align: usize) {
        self.inner.deallocate(block, size, align);
    }
}
