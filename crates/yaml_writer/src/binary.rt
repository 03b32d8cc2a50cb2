//! Bytes, as base64.
ghost use Rattle.yaml_writer.specs.Binary.{bytes_event};
ghost use Rattle.yaml_writer.specs.Writing.{Gives};

use crate::scalars::style_of;
use crate::tags::YAML_BINARY_TAG;
use crate::writer::Writer;
use base64::engine::general_purpose::STANDARD;
use std::alloc::Allocator;
use yaml_base::yaml_error_t;

impl<A: Allocator + Copy> Writer<A> {
    /// Writes bytes as `!!binary`: their base64 by the standard alphabet, with padding. A tag that was given takes the
    /// place of that one.
    ///
    /// # Errors
    /// Those of the emitter, and `Memory`.
    pub fn bytes(&mut self, value: &[u8]) -> Result<(), yaml_error_t>
        ensures { Gives self.old (bytes_event self.old value.now) result self.new }
    {
        match STANDARD.encode(self.alloc, value) {
            Ok(text) => {
                let text = text.as_str();
                self.scalar(Some(YAML_BINARY_TAG), text, style_of(text))
            }
            Err(_) => Err(yaml_error_t::Memory),
        }
    }
}
