//! A spare emitter.
use std::alloc::Allocator;
use std::marker::Model;
use yaml_base::yaml_error_t;
use yaml_emitter::{yaml_emitter_initialize, yaml_emitter_t};

/// An emitter that is in the place of another while a writer owns that one. It is made once it is needed, and kept for later calls.
/// Contracts see nothing of it.
#[derive(Drop)]
pub(crate) struct Spare<A: Allocator> {
    emitter: Option<yaml_emitter_t<A>>,
}

impl<A: Allocator> Model for Spare<A> {
    ghost Value = { Unit {0} };

    ghost view = { λ _. tt };
}

impl<A: Allocator + Copy> Spare<A> {
    pub(crate) fn none() -> Spare<A> {
        Spare { emitter: None }
    }

    pub(crate) fn take(&mut self, alloc: A) -> Result<yaml_emitter_t<A>, yaml_error_t> {
        match self.emitter.take() {
            Some(emitter) => Ok(emitter),
            None => yaml_emitter_initialize(alloc),
        }
    }

    pub(crate) fn put(&mut self, emitter: yaml_emitter_t<A>) {
        self.emitter = Some(emitter);
    }
}
