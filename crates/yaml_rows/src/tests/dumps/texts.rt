//! Documents dumped: texts worked out by hand, and dumps in wrong moments.
use super::Given;
use super::Given::{Mapping, Sequence, Tagged, Text};
use super::steps::Step::{Close, Closed, Dump, End, Error, Open, Opened, Output, Start};
use super::steps::{Row, Step, check_rows};
use super::streams::{BIG, CUT, EMPTY, MARKED, ONE_BYTE};
use crate::tests::emitters::steps::check_steps;
use crate::tests::emitters::{Answer, UNSET};
use yaml_base::{yaml_error_t, yaml_node_pair_t};
use yaml_emitter::Settings;

/// A sequence that holds one string twice.
const SHARED: &[Given] = &[Sequence(&[2, 2]), Text("a")];

/// A mapping whose key is the second node, and whose value is the mapping itself.
const ITSELF: &[Given] = &[Mapping(&[yaml_node_pair_t { key: 2, value: 1 }]), Text("k")];

const ONCE: &[Row] = &[
    (&[Text("a")], "a\n"),
    (SHARED, "- &id001 a\n- *id001\n"),
    // Anchors are numbered by second meetings.
    (
        &[Sequence(&[2, 2]), Sequence(&[3, 3]), Text("a")],
        "- &id002\n  - &id001 a\n  - *id001\n- *id002\n",
    ),
    (
        &[Sequence(&[2]), Sequence(&[3, 3]), Text("a")],
        "- - &id001 a\n  - *id001\n",
    ),
    // Collections may hold themselves.
    (&[Sequence(&[1])], "&id001\n- *id001\n"),
    (ITSELF, "&id001\nk: *id001\n"),
    // Another tag than that of strings is written.
    (&[Tagged("tag:yaml.org,2002:int", "5")], "!!int 5\n"),
];

/// An empty tag is refused.
const EMPTY_TAG: &[Step] = &[Dump(&[Tagged("", "5")], Err(yaml_error_t::TagEmpty))];

/// A node beside the root is left out.
const BESIDE: &[Step] = &[
    Open(Ok(())),
    Dump(&[Text("a"), Text("b")], Ok(())),
    Close(Ok(())),
    Output(b"a\n"),
];

/// A document may be dumped twice.
const TWICE: &[Step] = &[
    Dump(SHARED, Ok(())),
    Dump(SHARED, Ok(())),
    Close(Ok(())),
    Output(b"- &id001 a\n- *id001\n---\n- &id001 a\n- *id001\n"),
];

const NESTED: &str =
    "---\n!!seq [\n  &id002 !!seq [\n    &id001 !!str \"a\",\n    *id001,\n  ],\n  *id002,\n]\n";

const CANONICAL: &[Row] = &[
    (
        ITSELF,
        "---\n&id001 !!map {\n  ? !!str \"k\"\n  : *id001,\n}\n",
    ),
    // The inner sequence is node 2 in the one document and node 3 in the other: the numbers of nodes don't show.
    (&[Sequence(&[2, 2]), Sequence(&[3, 3]), Text("a")], NESTED),
    (&[Sequence(&[3, 3]), Text("a"), Sequence(&[2, 2])], NESTED),
];

const IN_FULL: Settings = Settings {
    canonical: true,
    ..UNSET
};

#[test]
fn nodes_are_written_once_and_canonical_ones_with_every_tag(rt: HostRuntime) {
    check_rows(&rt, rt.alloc(), &UNSET, ONCE);
    check_rows(&rt, rt.alloc(), &IN_FULL, CANONICAL);
}

/// A document without nodes closes the stream.
const NOTHING: &[Step] = &[
    Dump(&[], Ok(())),
    Closed(true),
    Output(b""),
    Error(None),
    Dump(&[], Ok(())),
    Closed(true),
    Output(b""),
    Error(None),
];

const REFUSED: Answer = Err(yaml_error_t::WriteError);

/// A dump that fails to close leaves the stream open.
const UNCLOSED: &[Step] = &[
    Dump(&[], REFUSED),
    Opened(true),
    Closed(false),
    Dump(&[], REFUSED),
    Opened(true),
    Closed(false),
    Close(REFUSED),
    Output(b"\xFE"),
];

/// A stream that is closed takes no document.
const AFTER_THE_END: &[Step] = &[
    Dump(SHARED, Ok(())),
    Close(Ok(())),
    Output(b"- &id001 a\n- *id001\n"),
    Error(None),
    Dump(SHARED, Err(yaml_error_t::ExpectedNothing)),
    Output(b"- &id001 a\n- *id001\n"),
    Error(Some(yaml_error_t::ExpectedNothing)),
];

/// One without nodes changes nothing more, and another one is still refused.
const NOTHING_AFTER_THE_END: &[Step] = &[
    Dump(SHARED, Ok(())),
    Close(Ok(())),
    Dump(&[], Ok(())),
    Closed(true),
    Output(b"- &id001 a\n- *id001\n"),
    Error(None),
    Dump(SHARED, Err(yaml_error_t::ExpectedNothing)),
    Output(b"- &id001 a\n- *id001\n"),
    Error(Some(yaml_error_t::ExpectedNothing)),
];

/// The stream was begun by an event, so the dump's own start is refused.
const BEGUN: &[Step] = &[
    Start(Ok(())),
    Dump(SHARED, Err(yaml_error_t::ExpectedDocumentStart)),
    Opened(false),
];

/// The first error is answered.
const UNBEGUN: &[Step] = &[
    End(Err(yaml_error_t::ExpectedStreamStart)),
    Dump(SHARED, Err(yaml_error_t::ExpectedStreamStart)),
];

/// Calls on an emitter of these settings.
const CALLS: &[(&Settings, &[Step])] = &[
    (&UNSET, EMPTY_TAG),
    (&UNSET, BESIDE),
    (&UNSET, TWICE),
    (&UNSET, NOTHING),
    (&ONE_BYTE, UNCLOSED),
    (&UNSET, AFTER_THE_END),
    (&UNSET, NOTHING_AFTER_THE_END),
    (&UNSET, BEGUN),
    (&UNSET, UNBEGUN),
    (&UNSET, EMPTY),
    (&BIG, MARKED),
    (&ONE_BYTE, CUT),
];

#[test]
fn each_call_is_answered(rt: HostRuntime) {
    for (settings, steps) in CALLS {
        check_steps(&rt, rt.alloc(), settings, steps);
    }
}
