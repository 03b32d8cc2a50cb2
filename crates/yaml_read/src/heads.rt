//! Tags and scalars.
ghost use Rattle.yaml_read.specs.Heads.{IsScalarKind};
ghost use Rattle.yaml_read.specs.Sound.{IntegerOf};
ghost use Rattle.yaml_read.specs.Stepped.{ScalarRead, TagRead};
ghost use Rattle.yaml_read.specs.declared.heads.Kind.TheVariants as kind;

use crate::cuts::{after, past};
use crate::errors::{Stop, refused_at, refused_whole};
use crate::quoted::read_quoted;
use std::alloc::Allocator;
use yaml_value::Value;

/// Returns the integer of 64 bits that digits spell in its one way.
fn integer_of(digits: &str) -> Option<i64>
    ensures { IntegerOf digits.now result }
{
    match digits.parse::<i64>() {
        Ok(value) => {
            if digits == itoa::Buffer::new().format(value) {
                Some(value)
            } else {
                None
            }
        }
        Err(_) => None,
    }
}

/// Reads an integer in its one spelling, between quotes. What can't be read is refused as a whole.
fn read_integer<A: Allocator + Copy>(alloc: A, text: &str) -> Result<(Value<A>, &str), Stop>
    ensures { ScalarRead kind.Int text.now result }
{
    match read_quoted(alloc, text) {
        Ok((digits, rest)) => match integer_of(digits.as_str()) {
            Some(value) => Ok((Value::Int(value), rest)),
            None => Err(refused_at(text)),
        },
        Err(reason) => Err(refused_whole(reason, text)),
    }
}

/// The kinds of nodes, by their tags.
#[derive(Clone, Copy)]
pub(crate) enum Kind {
    Null,
    Bool,
    Int,
    Text,
    List,
    Map,
}

/// Reads a tag and the space after it.
pub(crate) fn read_tag(text: &str) -> Result<(Kind, &str), Stop>
    ensures { TagRead text.now result }
{
    if let Some(rest) = past(text, "!!str ") {
        return Ok((Kind::Text, rest));
    }
    if let Some(rest) = past(text, "!!int ") {
        return Ok((Kind::Int, rest));
    }
    if let Some(rest) = past(text, "!!seq ") {
        return Ok((Kind::List, rest));
    }
    if let Some(rest) = past(text, "!!map ") {
        return Ok((Kind::Map, rest));
    }
    if let Some(rest) = past(text, "!!bool ") {
        return Ok((Kind::Bool, rest));
    }
    match after(text, "!!null ") {
        Ok(rest) => Ok((Kind::Null, rest)),
        Err(stop) => Err(stop),
    }
}

/// Reads a scalar after its tag.
pub(crate) fn read_scalar<A: Allocator + Copy>(
    alloc: A,
    kind: Kind,
    text: &str,
) -> Result<(Value<A>, &str), Stop>
    requires { IsScalarKind kind }
    ensures { ScalarRead kind text.now result }
{
    match kind {
        Kind::Null => match after(text, "\"null\"") {
            Ok(rest) => Ok((Value::Null, rest)),
            Err(stop) => Err(stop),
        },
        Kind::Bool => match past(text, "\"true\"") {
            Some(rest) => Ok((Value::Bool(true), rest)),
            None => match after(text, "\"false\"") {
                Ok(rest) => Ok((Value::Bool(false), rest)),
                Err(stop) => Err(stop),
            },
        },
        Kind::Int => read_integer(alloc, text),
        _ => match read_quoted(alloc, text) {
            Ok((value, rest)) => Ok((Value::Text(value), rest)),
            Err(stop) => Err(stop),
        },
    }
}
