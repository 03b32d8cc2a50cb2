//! Canonical bytes of values whose keys must differ.
use super::read;
use super::refused::is_reported;
use crate::tests::equal;
use std::alloc::{Allocator, Global};
use std::process::Abort;
use yaml_read::{Keys, Position, ReadError, Value, has_unique_keys, read_canonical_with};
use yaml_test_allocator::Refusing;

/// A map with a map in it, both with the key `a`, and with keys that are maps and lists.
const DIFFERENT: &str =
    "---\n!!map {\n  ? !!str \"a\"\n  : !!map {\n    ? !!str \"a\"\n    : !!int \"1\",\n    ? !!map {\n      ? !!str \"a\"\n      : !!int \"1\",\n    }\n    : !!int \"1\",\n    ? !!seq [\n      !!str \"a\",\n      !!str \"a\",\n    ]\n    : !!int \"1\",\n  },\n  ? !!int \"1\"\n  : !!str \"a\",\n}\n";

/// Two equal keys.
const EQUAL: &str =
    "---\n!!map {\n  ? !!str \"a\"\n  : !!int \"1\",\n  ? !!str \"a\"\n  : !!int \"2\",\n}\n";

/// Two equal keys, which are lists, after a map that has ended; all in a key.
const INSIDE: &str =
    "---\n!!map {\n  ? !!map {\n    ? !!seq [\n      !!null \"null\",\n    ]\n    : !!map {\n      ? !!null \"null\"\n      : !!bool \"true\",\n    },\n    ? !!seq [\n      !!null \"null\",\n    ]\n    : !!bool \"true\",\n  }\n  : !!bool \"true\",\n}\n";

/// Two equal keys, and then a word that is impossible.
const SPOILED: &str =
    "---\n!!map {\n  ? !!str \"a\"\n  : !!int \"1\",\n  ? !!str \"a\"\n  : !!nul\n";

/// Texts, and the error if keys must differ.
const READ: &[(&str, Option<ReadError>)] = &[
    (DIFFERENT, None),
    (
        EQUAL,
        Some(ReadError::DuplicateKey {
            position: Position { line: 5, column: 5 },
        }),
    ),
    (
        INSIDE,
        Some(ReadError::DuplicateKey {
            position: Position {
                line: 11,
                column: 7,
            },
        }),
    ),
    (
        SPOILED,
        Some(ReadError::DuplicateKey {
            position: Position { line: 5, column: 5 },
        }),
    ),
];

/// Returns the value of canonical bytes. (Tests need none of the clauses of the call.)
fn read_by<A: Allocator + Copy>(alloc: A, text: &str, keys: Keys) -> Result<Value<A>, ReadError> {
    read_canonical_with(alloc, text.as_bytes(), keys)
}

/// Checks whether the keys of a text's value differ.
fn check_unique(rt: &impl Abort, alloc: Global, text: &str, wanted: bool) {
    let value = read(alloc, text.as_bytes()).expect(rt, "not read");
    let found = has_unique_keys(alloc, &value).expect(rt, "no memory");
    equal(rt, &found, &wanted);
}

#[test]
fn keys_differ_if_they_must(rt: HostRuntime) {
    for (text, wanted) in READ {
        equal(
            &rt,
            &read_by(rt.alloc(), text, Keys::default()).err(),
            wanted,
        );
    }
    let wanted = Some(ReadError::NotCanonical {
        position: Position { line: 6, column: 5 },
    });
    let found = read_by(rt.alloc(), SPOILED, Keys::MayRepeat).err();
    equal(&rt, &found, &wanted);
}

#[test]
fn a_value_tells_whether_its_keys_differ(rt: HostRuntime) {
    check_unique(&rt, rt.alloc(), DIFFERENT, true);
    check_unique(&rt, rt.alloc(), INSIDE, false);
}

#[test]
fn a_growth_for_keys_that_is_refused_is_reported(rt: HostRuntime) {
    let heap = Refusing::new(rt.alloc());
    for number in 1..usize::MAX {
        heap.refuse(number);
        let answer = read_by(&heap, DIFFERENT, Keys::Unique).err();
        if !is_reported(&rt, &heap, answer) {
            break;
        }
    }
}
