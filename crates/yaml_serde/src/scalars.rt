//! Nodes that are neither texts nor collections.
ghost use Rattle.yaml_serde.specs.Documents.{GivesCall};
ghost use Rattle.yaml_writer.specs.NumberParts.{HasNumber};

use std::alloc::Global;
use yaml_writer::{Writer, number_of, yaml_error_t};

/// A node that is neither a text nor a collection.
#[derive(Clone, Copy)]
pub(crate) enum Scalar<'a> {
    Null,
    Bool(bool),
    Int(i64),
    Unsigned(u64),
    WideInt(i128),
    WideUnsigned(u128),
    Single(f32),
    Float(f64),
    Bytes(&'a [u8]),
}

/// Gives a node to a writer.
pub(crate) fn give_scalar(
    writer: &mut Writer<Global>,
    scalar: Scalar<'_>,
) -> Result<(), yaml_error_t>
    ensures { GivesCall writer.old result writer.new }
{
    match scalar {
        Scalar::Null => writer.null(),
        Scalar::Bool(value) => writer.bool(value),
        Scalar::Int(value) => writer.int(value),
        Scalar::Unsigned(value) => writer.unsigned(value),
        Scalar::WideInt(value) => give_signed(writer, value),
        Scalar::WideUnsigned(value) => give_unsigned(writer, value),
        Scalar::Single(value) => writer.single(value),
        Scalar::Float(value) => writer.float(value),
        Scalar::Bytes(value) => writer.bytes(value),
    }
}

fn give_signed(writer: &mut Writer<Global>, value: i128) -> Result<(), yaml_error_t>
    ensures { GivesCall writer.old result writer.new }
{
    give_number(writer, itoa::Buffer::new().format(value))
}

fn give_unsigned(writer: &mut Writer<Global>, value: u128) -> Result<(), yaml_error_t>
    ensures { GivesCall writer.old result writer.new }
{
    give_number(writer, itoa::Buffer::new().format(value))
}

/// Gives the number of JSON that a text is.
fn give_number(writer: &mut Writer<Global>, text: &str) -> Result<(), yaml_error_t>
    requires { HasNumber text.now }
    ensures { GivesCall writer.old result writer.new }
{
    match number_of(text) {
        Some(number) => writer.number(&number),
        None => unreachable!(),
    }
}
