//! What is kept between the calls over an emitter.
ghost use Rattle.yaml_emitter.specs.Emits.{IsPromised};

use crate::place::Place;
use crate::spare::Spare;
use std::alloc::Global;
use yaml_emitter::yaml_emitter_t;

/// An emitter, the place of its next value, and a spare emitter for calls that need one.
#[derive(Drop)]
pub struct Kept {
    pub(crate) emitter: yaml_emitter_t<Global>,
    pub(crate) place: Place<Global>,
    pub(crate) spare: Spare<Global>,
}

impl Kept {
    /// States what a caller may rely on of the emitter, whatever was called before.
    pub(crate) fn promised(&self)
        ensures { IsPromised self.now.emitter }
    {
        self.emitter.promised();
    }
}
