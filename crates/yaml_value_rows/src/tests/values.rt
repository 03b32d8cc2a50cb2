//! Values as tests write them.
mod bytes;
mod memory;
mod sizes;

use std::alloc::Global;
use std::process::Abort;
use yaml_test_allocator::Refusing;
use yaml_value::{Value, write_canonical, yaml_error_t};

/// A heap that refuses the growth that it is set to refuse.
type Heap<'a> = &'a Refusing<Global>;

/// A value on a heap.
type Made<'a> = Value<Heap<'a>>;

/// Returns the canonical form of a value. (The clauses of the call are long, and tests need none of them.)
fn canonical<'a>(heap: Heap<'a>, value: &Made<'a>) -> Result<Vec<u8, Heap<'a>>, yaml_error_t> {
    write_canonical(heap, value)
}

/// A value of a row.
#[derive(Drop)]
enum Example {
    Null,
    Bool(bool),
    Int(i64),
    Text(&'static str),
    EmptyList,
    EmptyMap,
    /// A list of the integer 5 and the text `a`.
    List,
    /// A map of the text `k` to false.
    Map,
    /// A list of both, and of that map.
    Mixed,
    /// So many lists, at least one, each the only item of the one around it.
    Nested(u32),
    /// A map of such lists to null.
    NestedKey(u32),
}

fn made<'a>(rt: &impl Abort, heap: Heap<'a>, example: &Example) -> Made<'a> {
    match example {
        Example::Null => Value::Null,
        Example::Bool(value) => Value::Bool(*value),
        Example::Int(value) => Value::Int(*value),
        Example::Text(characters) => text(rt, heap, characters),
        Example::EmptyList => Value::List(Vec::new(heap)),
        Example::EmptyMap => Value::Map(Vec::new(heap)),
        Example::List => Value::List(items(rt, heap)),
        Example::Map => falsehood(rt, heap),
        Example::Mixed => mixed(rt, heap),
        Example::Nested(count) => nested_lists(rt, heap, *count),
        Example::NestedKey(count) => map(rt, heap, nested_lists(rt, heap, *count), Value::Null),
    }
}

fn text<'a>(rt: &impl Abort, heap: Heap<'a>, characters: &str) -> Made<'a> {
    Value::Text(String::from_str(heap, characters).expect(rt, "no memory"))
}

/// Returns the contents of a list or a map, of which this is the first.
fn one<'a, T: Drop>(rt: &impl Abort, heap: Heap<'a>, item: T) -> Vec<T, Heap<'a>> {
    let mut items = Vec::new(heap);
    items.push(item).expect(rt, "no memory");
    items
}

/// Returns the integer 5 and the text `a`.
fn items<'a>(rt: &impl Abort, heap: Heap<'a>) -> Vec<Made<'a>, Heap<'a>> {
    let mut items = one(rt, heap, Value::Int(5));
    items.push(text(rt, heap, "a")).expect(rt, "no memory");
    items
}

/// Returns a list of both, and of a map.
fn mixed<'a>(rt: &impl Abort, heap: Heap<'a>) -> Made<'a> {
    let mut items = items(rt, heap);
    items.push(falsehood(rt, heap)).expect(rt, "no memory");
    Value::List(items)
}

/// Returns a map of one pair.
fn map<'a>(rt: &impl Abort, heap: Heap<'a>, key: Made<'a>, value: Made<'a>) -> Made<'a> {
    Value::Map(one(rt, heap, (key, value)))
}

/// Returns a map of the text `k` to false.
fn falsehood<'a>(rt: &impl Abort, heap: Heap<'a>) -> Made<'a> {
    map(rt, heap, text(rt, heap, "k"), Value::Bool(false))
}

fn nested_lists<'a>(rt: &impl Abort, heap: Heap<'a>, count: u32) -> Made<'a> {
    let mut value = Value::List(Vec::new(heap));
    for _ in 1..count {
        value = Value::List(one(rt, heap, value));
    }
    value
}
