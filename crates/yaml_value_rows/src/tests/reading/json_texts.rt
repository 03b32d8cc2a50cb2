//! Canonical bytes and values as JSON texts, and values that JSON doesn't have.
use super::push;
use crate::tests::{equal, same};
use yaml_json_value::{
    CanonicalError, Keys, Position, ReadError, Value, WriteError, json_from_canonical,
    json_from_value, value_from_json,
};

/// The canonical bytes of a map with a key twice.
const TWICE: &[u8] =
    b"---\n!!map {\n  ? !!str \"a\"\n  : !!int \"1\",\n  ? !!str \"a\"\n  : !!int \"2\",\n}\n";

/// Bytes, whether keys may repeat, and the JSON text.
type Row = (&'static [u8], Keys, Result<&'static str, CanonicalError>);

const ROWS: &[Row] = &[
    (
        b"---\n!!map {\n  ? !!str \"a\"\n  : !!seq [\n    !!int \"1\",\n    !!null \"null\",\n    !!bool \"true\",\n  ],\n}\n",
        Keys::Unique,
        Ok("{\"a\":[1,null,true]}"),
    ),
    (
        b"---\n!!map {\n  ? !!int \"1\"\n  : !!int \"2\",\n}\n",
        Keys::Unique,
        Err(CanonicalError::Write(WriteError::NameNotText)),
    ),
    (
        b"---\n!!int \"07\"\n",
        Keys::Unique,
        Err(CanonicalError::Read(ReadError::NotCanonical {
            position: Position { line: 2, column: 7 },
        })),
    ),
    (
        TWICE,
        Keys::Unique,
        Err(CanonicalError::Read(ReadError::DuplicateKey {
            position: Position { line: 5, column: 5 },
        })),
    ),
    (TWICE, Keys::MayRepeat, Ok("{\"a\":1,\"a\":2}")),
];

#[test]
fn canonical_bytes_become_json(rt: HostRuntime) {
    for (bytes, keys, wanted) in ROWS {
        let text = json_from_canonical(rt.alloc(), bytes, *keys);
        match wanted {
            Ok(wanted) => same(&rt, text.expect(&rt, "refused").as_slice(), wanted),
            Err(wanted) => equal(&rt, &text.err(), &Some(*wanted)),
        }
    }
}

/// Texts without spaces, whose strings have the shortest escapes.
const TEXTS: &[&str] = &[
    "null",
    "[]",
    "{}",
    "[[],{},[[true]],false]",
    "[0,-5,9223372036854775807,-9223372036854775808]",
    "{\"b\":{\"\":[1]},\"a\":\"x\"}",
    "\"\u{e9} \\\"quoted\\\", \\\\ and \\n\"",
];

#[test]
fn json_comes_back(rt: HostRuntime) {
    for text in TEXTS {
        let value = value_from_json(rt.alloc(), text, Keys::Unique).expect(&rt, "not JSON");
        let written = json_from_value(rt.alloc(), &value).expect(&rt, "not written");
        same(&rt, written.as_slice(), text);
    }
}

#[test]
fn a_list_within_a_thousand_is_refused(rt: HostRuntime) {
    let mut value = Value::Null;
    for depth in 0..=1_000 {
        let refused = json_from_value(rt.alloc(), &value).err();
        equal(&rt, &(depth, refused), &(depth, None));
        let mut items = Vec::new(rt.alloc());
        push(&rt, &mut items, value);
        value = Value::List(items);
    }
    let refused = json_from_value(rt.alloc(), &value).err();
    equal(&rt, &refused, &Some(WriteError::TooDeep));
}
