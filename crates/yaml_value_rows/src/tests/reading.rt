//! Canonical bytes read as typed values, and as documents; what only a caller sees of TOML, and the words of its errors.
mod callers;
mod documents;
mod json;
mod json_texts;
mod keys;
mod places;
mod random;
mod refused;
mod toml;

use crate::tests::equal;
use std::alloc::{Allocator, Global};
use std::fmt::Display;
use std::process::Abort;
use yaml_read::{ReadError, Value, read_canonical};
use yaml_value::write_canonical;

/// Pushes an item.
fn push<T: Drop>(rt: &impl Abort, items: &mut Vec<T>, item: T) {
    items.push(item).expect(rt, "no memory");
}

/// Checks the text that is printed.
fn check_printed(rt: &impl Abort, alloc: Global, printed: &impl Display, wanted: &str) {
    let text = format!(in alloc; "{printed}").expect(rt, "no memory");
    equal(rt, &text.as_str(), &wanted);
}

/// Checks that a value is this integer.
fn check_integer(rt: &impl Abort, value: &Value<Global>, wanted: i64) {
    let found = match value {
        Value::Int(number) => Some(*number),
        _ => None,
    };
    equal(rt, &found, &Some(wanted));
}

/// Returns the canonical bytes of a value. (Tests need none of the clauses of the call.)
fn written(rt: &impl Abort, alloc: Global, value: &Value<Global>) -> Vec<u8> {
    write_canonical(alloc, value).expect(rt, "not written")
}

/// Returns the value that has these canonical bytes. (The same.)
fn read<A: Allocator + Copy>(alloc: A, bytes: &[u8]) -> Result<Value<A>, ReadError> {
    read_canonical(alloc, bytes)
}
