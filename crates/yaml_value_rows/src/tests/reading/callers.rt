//! The proved callers that read what they wrote.
use super::{check_integer, check_printed};
use yaml_caller::{SealError, sealed_and_opened, written_and_read};
use yaml_read::{Keys, Value};

#[test]
fn an_integer_is_read_back(rt: HostRuntime) {
    let read = written_and_read(rt.alloc(), &Value::Int(-5)).expect(&rt, "not written");
    check_integer(&rt, &read.expect(&rt, "not read"), -5);
}

#[test]
fn a_sealed_integer_is_opened(rt: HostRuntime) {
    let opened = sealed_and_opened(rt.alloc(), &Value::Int(-5), Keys::Unique);
    let opened = opened.expect(&rt, "not sealed");
    check_integer(&rt, &opened.expect(&rt, "not opened"), -5);
}

/// Reasons why a value isn't sealed, in words.
const REASONS: &[(SealError, &str)] = &[
    (SealError::TooDeep, "lists and maps nest too deep"),
    (SealError::DuplicateKey, "a map has a key twice"),
    (SealError::Memory, "out of memory"),
];

#[test]
fn a_reason_not_to_seal_is_printed(rt: HostRuntime) {
    for (reason, words) in REASONS {
        check_printed(&rt, rt.alloc(), reason, words);
    }
}
