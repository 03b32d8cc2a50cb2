//! Documents, dumped and read back. Each text was written by hand.
use super::graphs::Holds::{Items, Pairs, Value};
use super::graphs::{Given, given_document};
use super::{check_answer, document_of, dumped};
use crate::tests::equal;
use std::alloc::Global;
use std::process::Abort;

const STR: &str = "tag:yaml.org,2002:str";

const SEQ: &str = "tag:yaml.org,2002:seq";

const MAP: &str = "tag:yaml.org,2002:map";

/// Documents whose nodes are numbered in the order in which they begin, and the bytes of their dumps.
const TAKEN: &[(&[Given<'static>], &str)] = &[
    (&[(STR, Value("a"))], "---\n!!str \"a\"\n"),
    (
        &[("tag:yaml.org,2002:int", Value("é\n"))],
        "---\n!!int \"é\\n\"\n",
    ),
    // Empty collections.
    (&[(SEQ, Items(&[]))], "---\n!!seq []\n"),
    (&[(MAP, Pairs(&[]))], "---\n!!map {}\n"),
    // Shared nodes, and nodes that hold themselves.
    (
        &[(SEQ, Items(&[2, 2])), (STR, Value("a"))],
        "---\n!!seq [\n  &id001 !!str \"a\",\n  *id001,\n]\n",
    ),
    (&[(SEQ, Items(&[1]))], "---\n&id001 !!seq [\n  *id001,\n]\n"),
    (
        &[(MAP, Pairs(&[(1, 1)]))],
        "---\n&id001 !!map {\n  ? *id001\n  : *id001,\n}\n",
    ),
    (
        &[
            (SEQ, Items(&[2, 3])),
            (STR, Value("a")),
            (MAP, Pairs(&[(2, 1)])),
        ],
        "---\n&id002 !!seq [\n  &id001 !!str \"a\",\n  !!map {\n    ? *id001\n    : *id002,\n  },\n]\n",
    ),
    // Tags: local, verbatim, ones that look like a handle's, with characters that are percent forms.
    (&[("!local", Value("a"))], "---\n!local \"a\"\n"),
    (&[("x", Items(&[]))], "---\n!<x> []\n"),
    (&[("!", Pairs(&[]))], "---\n!<%21> {}\n"),
    (
        &[("tag:yaml.org,2002:", Value(""))],
        "---\n!<tag:yaml.org,2002:> \"\"\n",
    ),
    (&[("!é", Value("a"))], "---\n!%C3%A9 \"a\"\n"),
    (&[("é!", Value("a"))], "---\n!<%C3%A9%21> \"a\"\n"),
    (
        &[("tag:yaml.org,2002:\u{1D11E}", Value("a"))],
        "---\n!!%F0%9D%84%9E \"a\"\n",
    ),
    (&[("!a%[b],", Value("a"))], "---\n!a%25[b], \"a\"\n"),
    // Keys that are collections.
    (
        &[
            (MAP, Pairs(&[(2, 4), (5, 6)])),
            (SEQ, Items(&[3])),
            (STR, Value("k")),
            (MAP, Pairs(&[])),
            (SEQ, Items(&[])),
            (MAP, Pairs(&[(5, 5)])),
        ],
        "---\n!!map {\n  ? !!seq [\n    !!str \"k\",\n  ]\n  : !!map {},\n  ? &id001 !!seq []\n  : !!map {\n    ? *id001\n    : *id001,\n  },\n}\n",
    ),
];

/// Returns the rows. (A table is spelled out in each function that names it.)
pub(super) fn taken() -> &'static [(&'static [Given<'static>], &'static str)] {
    TAKEN
}

/// Checks that these bytes are read as the document of a row.
fn check_read(rt: &impl Abort, alloc: Global, bytes: &[u8], given: &[Given]) {
    let read = document_of(alloc, bytes).expect(rt, "not read");
    equal(rt, &read, &given_document(rt, alloc, given));
}

/// Checks that a document is dumped as a text, which is read as this document, and is dumped as this text again.
fn check_taken(rt: &impl Abort, alloc: Global, given: &[Given], bytes: &[u8]) {
    check_read(rt, alloc, bytes, given);
    check_answer(rt, alloc, bytes, None);
    let dump = dumped(rt, alloc, given_document(rt, alloc, given));
    equal(rt, &dump.as_slice(), &bytes);
}

#[test]
fn what_was_dumped_is_read(rt: HostRuntime) {
    for (given, text) in taken() {
        check_taken(&rt, rt.alloc(), given, text.as_bytes());
    }
}

/// A document with a node that isn't reached and another order of its nodes.
const OTHERWISE: &[Given<'static>] = &[
    (SEQ, Items(&[4, 2])),
    (STR, Value("b")),
    (STR, Value("unreached")),
    (STR, Value("a")),
];

/// The same in the order in which they begin.
const IN_ORDER: &[Given<'static>] = &[(SEQ, Items(&[2, 3])), (STR, Value("a")), (STR, Value("b"))];

#[test]
fn nodes_are_numbered_as_they_begin(rt: HostRuntime) {
    let document = given_document(&rt, rt.alloc(), OTHERWISE);
    let bytes = dumped(&rt, rt.alloc(), document);
    check_read(&rt, rt.alloc(), bytes.as_slice(), IN_ORDER);
}
