//! Scalars of TOML, given to a writer.
ghost use Rattle.std.specs.Prelude.{◌≡◌, OnOk, chars};
ghost use Rattle.toml_ordered.specs.Data.{node_view};
ghost use Rattle.yaml_writer.specs.Contents.{text_content};
ghost use Rattle.yaml_writer.specs.WasGiven.{IsBare};
ghost use Rattle.yaml_toml.specs.Events.{decimal_content, infinite, json_word};
ghost use Rattle.yaml_toml.specs.Walk.{GivesScalar, IsJsonWord};
ghost use Rattle.yaml_toml.specs.WalkSteps.{IsNoCollection, WroteScalar};

use std::alloc::Allocator;
use toml_ordered::Node;
use toml_parser::text::{first, skip};
use yaml_writer::{SpecialFloat, Writer, number_of, write_datetime, yaml_error_t};

/// Writes a value that is neither an array nor a table.
pub(crate) fn write_scalar<A: Allocator + Copy>(
    writer: &mut Writer<A>,
    node: &Node,
) -> Result<(), yaml_error_t>
    requires bare { IsBare writer.old }
    requires scalar { IsNoCollection (node_view node.now) }
    ensures { WroteScalar (node_view node.now) writer.old result writer.new }
{
    match node {
        Node::Text(text) => write_text(writer, text.as_str()),
        Node::Integer(integer) => writer.int(*integer),
        Node::Decimal(word) => write_decimal(writer, word.as_str()),
        Node::Infinity { negative } => writer.special_float(infinity(*negative)),
        Node::NotANumber => writer.special_float(SpecialFloat::NotANumber),
        Node::Boolean(flag) => writer.bool(*flag),
        Node::Datetime(datetime) => write_datetime(writer, datetime),
        Node::Array(_) | Node::Table(..) | Node::Tables(..) => unreachable!(),
    }
}

pub(crate) fn write_text<A: Allocator + Copy>(
    writer: &mut Writer<A>,
    text: &str,
) -> Result<(), yaml_error_t>
    requires { IsBare writer.old }
    ensures { GivesScalar writer.old (text_content (chars text.now)) result writer.new }
{
    writer.text(text)
}

fn infinity(negative: bool) -> SpecialFloat
    ensures { result ≡ infinite negative }
{
    if negative {
        SpecialFloat::NegativeInfinity
    } else {
        SpecialFloat::Infinity
    }
}

/// Returns a decimal as JSON spells numbers.
fn past_plus(word: &str) -> &str
    ensures { result.now ≡ json_word word.now }
{
    if first(word) == b'+' {
        skip(word, 1)
    } else {
        word
    }
}

/// Writes a float that is a number, by its characters.
fn write_decimal<A: Allocator + Copy>(
    writer: &mut Writer<A>,
    word: &str,
) -> Result<(), yaml_error_t>
    requires { IsBare writer.old }
    ensures number { OnOk result (IsJsonWord word.now) }
    ensures gives { GivesScalar writer.old (decimal_content writer.old.canonical word.now) result writer.new }
{
    match number_of(past_plus(word)) {
        Some(number) => writer.number(&number),
        // The characters of a float are a number of JSON, so this isn't reached.
        None => Err(yaml_error_t::Memory),
    }
}
