//! Bytes that are no document's, or no dump's.
use super::{check_answer, read_and_dumped};
use crate::tests::equal;
use std::alloc::Global;
use std::process::Abort;
use yaml_read::{Position, ReadError};

/// Checks that bytes aren't laid out as those of a document.
fn check_not_canonical(rt: &impl Abort, alloc: Global, bytes: &[u8]) {
    let answer = read_and_dumped(rt, alloc, bytes);
    let is_refused = matches!(answer, Some(ReadError::NotCanonical { .. }));
    equal(rt, &(bytes, is_refused), &(bytes, true));
}

/// Bytes that aren't laid out so.
const NOT_CANONICAL: &[&[u8]] = &[
    b"",
    b"---\n",
    b"!!str \"a\"\n",
    b"--- !!str \"a\"\n",
    b"%YAML 1.1\n---\n!!str \"a\"\n",
    b"---\n!!str \"a\"",
    b"---\n!!str \"a\"\n...\n",
    b"---\n!!str \"a\"\n---\n!!str \"a\"\n",
    b"---\n!!str \"a\" \n",
    // Properties: each has one spelling.
    b"---\n\"a\"\n",
    b"---\n! \"a\"\n",
    b"---\n!! \"a\"\n",
    b"---\n!!str  \"a\"\n",
    b"---\n!!str\"a\"\n",
    b"---\n!!str a\n",
    b"---\n!<!local> \"a\"\n",
    b"---\n!<tag:yaml.org,2002:str> \"a\"\n",
    b"---\n!<> \"a\"\n",
    b"---\n!<x \"a\"\n",
    b"---\n!<!> \"a\"\n",
    b"---\n!l%6Fcal \"a\"\n",
    b"---\n!%c3%a9 \"a\"\n",
    b"---\n!%C3 \"a\"\n",
    b"---\n!%C \"a\"\n",
    b"---\n!% \"a\"\n",
    b"---\n!\xC3\xA9 \"a\"\n",
    b"---\n!e!x \"a\"\n",
    b"---\n& !!str \"a\"\n",
    b"---\n&id001  !!str \"a\"\n",
    b"---\n!!str &id001 \"a\"\n",
    b"---\n*\n",
    // Collections.
    b"---\n!!seq [ ]\n",
    b"---\n!!seq [\n]\n",
    b"---\n!!seq [\n  !!str \"a\"\n]\n",
    b"---\n!!seq [\n  !!str \"a\",\n  ]\n",
    b"---\n!!seq [\n !!str \"a\",\n]\n",
    b"---\n!!seq [\n  !!str \"a\",\n}\n",
    b"---\n!!seq [\n  ? !!str \"a\"\n  : !!str \"a\",\n]\n",
    b"---\n!!map {\n  !!str \"a\",\n}\n",
    b"---\n!!map {\n  ? !!str \"a\",\n}\n",
    b"---\n!!map {\n  ? !!str \"a\"\n  : !!str \"a\"\n}\n",
    b"---\n!!map {\n  ? !!str \"a\",\n  : !!str \"a\",\n}\n",
];

#[test]
fn what_is_laid_out_otherwise_is_refused(rt: HostRuntime) {
    for bytes in NOT_CANONICAL {
        check_not_canonical(&rt, rt.alloc(), bytes);
    }
}

/// Anchors and aliases that no dump gives: an anchor without an alias, an alias of no node, one before its anchor, one of a key in
/// itself's place, a number that is left out, another name, numbers in another order than that of the first aliases, an anchor twice.
const NOT_NUMBERED: &[&str] = &[
    "---\n&id001 !!str \"a\"\n",
    "---\n*id001\n",
    "---\n!!seq [\n  *id001,\n  &id001 !!str \"a\",\n]\n",
    "---\n!!map {\n  ? *id001\n  : &id001 !!str \"a\",\n}\n",
    "---\n!!seq [\n  &id002 !!str \"a\",\n  *id002,\n]\n",
    "---\n!!seq [\n  &a !!str \"a\",\n  *a,\n]\n",
    "---\n!!seq [\n  &id1 !!str \"a\",\n  *id1,\n]\n",
    "---\n&id001 !!seq [\n  &id002 !!str \"a\",\n  *id002,\n  *id001,\n]\n",
    "---\n!!seq [\n  &id001 !!str \"a\",\n  &id001 !!str \"a\",\n  *id001,\n]\n",
];

#[test]
fn other_names_are_refused(rt: HostRuntime) {
    for text in NOT_NUMBERED {
        let error = ReadError::NotNumbered;
        check_answer(&rt, rt.alloc(), text.as_bytes(), Some(error));
    }
}

/// Bytes that aren't UTF-8, lack the first line, or break off, and their places: in what leads to a node, at a node, and after a node, a
/// bracket and the root.
const PLACED: &[(&[u8], usize, usize)] = &[
    (b"", 1, 1),
    (b"\xEF\xBB\xBF---\n!!str \"a\"\n", 1, 1),
    (b"--- !!str \"a\"\n", 1, 1),
    (b"---\n!!str \"\xC3\xA9\xC3\"\n", 2, 9),
    (b"\xFF", 1, 1),
    (b"---\n!!seq [\n !!str \"a\",\n]\n", 2, 8),
    (b"---\n!!map {\n  ? !!str \"a\"\n}\n", 3, 14),
    (b"---\n!!seq [\n  x,\n]\n", 3, 3),
    (b"---\n!!str \"a\\q\"\n", 2, 1),
    (b"---\n!!seq [\n  !!str \"a\"\n]\n", 3, 12),
    (b"---\n!!seq [\n  !!seq []\n]\n", 3, 11),
    (b"---\n!!str \"a\"", 2, 10),
    (b"---\n!!str \"a\"\n...\n", 3, 1),
];

#[test]
fn errors_have_a_place(rt: HostRuntime) {
    for (bytes, line, column) in PLACED {
        let error = ReadError::NotCanonical {
            position: Position {
                line: *line,
                column: *column,
            },
        };
        check_answer(&rt, rt.alloc(), bytes, Some(error));
    }
}
