//! Typed values, in canonical form.
use crate::tests::{answers, equal};
use std::alloc::{AllocError, Global};
use std::process::Abort;
use yaml_value::{Value, write_canonical, yaml_error_t};

/// Returns a list of a number and a text.
fn list_of(alloc: Global, number: i64, text: &str) -> Result<Value<Global>, AllocError> {
    let mut items = Vec::new(alloc);
    items.push(Value::Int(number))?;
    items.push(Value::Text(String::from_str(alloc, text)?))?;
    Ok(Value::List(items))
}

/// Returns a map of a text to a value.
fn map_of(alloc: Global, key: &str, value: Value<Global>) -> Result<Value<Global>, AllocError> {
    let mut members = Vec::new(alloc);
    let key = Value::Text(String::from_str(alloc, key)?);
    members.push((key, value))?;
    Ok(Value::Map(members))
}

/// Returns whether two values are the same: their canonical bytes are.
fn are_same(
    alloc: Global,
    first: &Value<Global>,
    second: &Value<Global>,
) -> Result<bool, yaml_error_t> {
    let first = write_canonical(alloc, first)?;
    let second = write_canonical(alloc, second)?;
    Ok(first.as_slice() == second.as_slice())
}

/// Checks that a value has one form, and equal values have equal bytes.
fn check_forms(rt: &impl Abort, alloc: Global, list: &Value<Global>, other: &Value<Global>) {
    let expected = "---\n!!seq [\n  !!int \"5\",\n  !!str \"a\",\n]\n";
    answers(rt, write_canonical(alloc, list), &Ok(expected));
    equal(rt, &are_same(alloc, list, list), &Ok(true));
    equal(rt, &are_same(alloc, list, other), &Ok(false));
}

#[test]
fn a_map_has_a_list(rt: HostRuntime) {
    let alloc = rt.alloc();
    let list = list_of(alloc, 5, "a").expect(&rt, "no memory");
    let map = map_of(alloc, "b", list).expect(&rt, "no memory");
    let expected =
        "---\n!!map {\n  ? !!str \"b\"\n  : !!seq [\n    !!int \"5\",\n    !!str \"a\",\n  ],\n}\n";
    answers(&rt, write_canonical(alloc, &map), &Ok(expected));
    drop(map);
}

#[test]
fn a_value_has_one_form(rt: HostRuntime) {
    let list = list_of(rt.alloc(), 5, "a").expect(&rt, "no memory");
    let other = list_of(rt.alloc(), 5, "5").expect(&rt, "no memory");
    check_forms(&rt, rt.alloc(), &list, &other);
    drop(list);
    drop(other);
}
