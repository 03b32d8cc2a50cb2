//! Floats.
ghost use Rattle.std.specs.Float.{binary32, binary64};
ghost use Rattle.std.specs.Prelude.{◌≡◌, if◌then◌else◌};
ghost use Rattle.yaml_writer.specs.Floats.{GivesFloat, special_event};
ghost use Rattle.yaml_writer.specs.NumberParts.{HasNumber, IsNumber};
ghost use Rattle.yaml_writer.specs.Writing.{Gives};

use crate::numbers::Number;
use crate::tags::YAML_FLOAT_TAG;
use crate::writer::Writer;
use std::alloc::Allocator;
use yaml_base::yaml_error_t;

/// A float that is no number of JSON.
#[derive(Clone, Copy, PartialEq, Eq, Debug)]
pub enum SpecialFloat {
    Infinity,
    NegativeInfinity,
    NotANumber,
}

fn special_of(is_nan: bool, is_negative: bool) -> SpecialFloat
    ensures { result ≡ (if is_nan then SpecialFloat.NotANumber else (if is_negative then SpecialFloat.NegativeInfinity else SpecialFloat.Infinity)) }
{
    if is_nan {
        SpecialFloat::NotANumber
    } else if is_negative {
        SpecialFloat::NegativeInfinity
    } else {
        SpecialFloat::Infinity
    }
}

/// Returns the number of JSON that a text is.
fn number_in(text: &str) -> Number<'_>
    requires { HasNumber text.now }
    ensures { IsNumber text.now result }
{
    Number::of_text(text)
}

impl<A: Allocator + Copy> Writer<A> {
    /// Writes a float: the shortest digits that read as it, or `.inf`, `-.inf`, `.nan`. Both schemas read the digits as exactly the
    /// number that they are.
    ///
    /// # Errors
    /// Those of the emitter, and `Memory`.
    pub fn float(&mut self, value: f64) -> Result<(), yaml_error_t>
        ensures { GivesFloat binary64 self.old value result self.new }
    {
        if value.is_finite() {
            return self.number(&number_in(ryu::Buffer::new().format_finite(value)));
        }
        self.special_float(special_of(value.is_nan(), value < 0.0))
    }

    /// Writes a float of 32 bits, as `float` writes one of 64: the shortest digits that read as it.
    ///
    /// # Errors
    /// Those of the emitter, and `Memory`.
    pub fn single(&mut self, value: f32) -> Result<(), yaml_error_t>
        ensures { GivesFloat binary32 self.old value result self.new }
    {
        if value.is_finite() {
            return self.number(&number_in(ryu::Buffer::new().format_finite(value)));
        }
        self.special_float(special_of(value.is_nan(), value < 0.0))
    }

    /// Writes `.inf`, `-.inf` or `.nan`, which both schemas read as that float.
    ///
    /// # Errors
    /// Those of the emitter, and `Memory`.
    pub fn special_float(&mut self, value: SpecialFloat) -> Result<(), yaml_error_t>
        ensures { Gives self.old (special_event self.old value) result self.new }
    {
        let word = match value {
            SpecialFloat::Infinity => ".inf",
            SpecialFloat::NegativeInfinity => "-.inf",
            SpecialFloat::NotANumber => ".nan",
        };
        self.word(YAML_FLOAT_TAG, word)
    }
}
