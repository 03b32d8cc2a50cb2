//! Documents composed of events, and lists of events that no document has.
use super::Given::{Mapping, Sequence, Text};
use super::{Given, document};
use crate::tests::{check_words, equal, event_of, same_values};
use std::alloc::Global;
use std::process::Abort;
use yaml_base::{yaml_event_t, yaml_node_pair_t};
use yaml_dump::{ComposeError, document_of_events};

// The events of the lines of a script.
fn events_of_lines(rt: &impl Abort, alloc: Global, lines: &[&str]) -> Vec<yaml_event_t<Global>> {
    let mut events = Vec::new(alloc);
    for line in lines {
        events
            .push(event_of(rt, alloc, line))
            .expect(rt, "no memory");
    }
    events
}

/// A scalar, a node that is shared two levels down, and a sequence that holds itself.
const COMPOSED: &[(&[&str], &[Given])] = &[
    (
        &[
            "+DOC 1 -",
            r#"=VAL any 1 1 - "tag:yaml.org,2002:str" "a""#,
            "-DOC 1",
        ],
        &[Text("a")],
    ),
    (
        &[
            "+DOC 1 -",
            r#"+SEQ block 1 - "tag:yaml.org,2002:seq""#,
            r#"+SEQ block 1 "id002" "tag:yaml.org,2002:seq""#,
            r#"=VAL any 1 1 "id001" "tag:yaml.org,2002:str" "a""#,
            r#"=ALI "id001""#,
            "-SEQ",
            r#"=ALI "id002""#,
            "-SEQ",
            "-DOC 1",
        ],
        &[Sequence(&[2, 2]), Sequence(&[3, 3]), Text("a")],
    ),
    (
        &[
            "+DOC 1 -",
            r#"+SEQ block 1 "id001" "tag:yaml.org,2002:seq""#,
            r#"=ALI "id001""#,
            "-SEQ",
            "-DOC 1",
        ],
        &[Sequence(&[1])],
    ),
];

const PAIRS: &[yaml_node_pair_t] = &[
    yaml_node_pair_t { key: 2, value: 1 },
    yaml_node_pair_t { key: 3, value: 4 },
];

/// A mapping whose first key holds it.
const HOLDS_ITSELF: (&[&str], &[Given]) = (
    &[
        "+DOC 1 -",
        r#"+MAP block 1 "id001" "tag:yaml.org,2002:map""#,
        r#"+SEQ block 1 - "tag:yaml.org,2002:seq""#,
        r#"=ALI "id001""#,
        "-SEQ",
        r#"=ALI "id001""#,
        r#"=VAL any 1 1 - "tag:yaml.org,2002:str" "a""#,
        r#"=VAL any 1 1 - "tag:yaml.org,2002:str" "b""#,
        "-MAP",
        "-DOC 1",
    ],
    &[Mapping(PAIRS), Sequence(&[1]), Text("a"), Text("b")],
);

fn check_composed(rt: &impl Abort, alloc: Global, lines: &[&str], given: &[Given]) {
    let events = events_of_lines(rt, alloc, lines);
    let composed = document_of_events(alloc, events.as_slice()).expect(rt, "a document");
    same_values(rt, composed, document(rt, alloc, given));
}

#[test]
fn nodes_are_numbered_as_they_begin(rt: HostRuntime) {
    for (lines, given) in COMPOSED {
        check_composed(&rt, rt.alloc(), lines, given);
    }
    check_composed(&rt, rt.alloc(), HOLDS_ITSELF.0, HOLDS_ITSELF.1);
}

/// No document has these: there is no end; two roots; an anchor that no alias names; an alias of no node; anchors that aren't numbered by
/// the first aliases; another name than a dump's; no tag; flags that don't fit the tag; another end; a key without a value; no events.
const NOT_DUMPED: &[&[&str]] = &[
    &["+DOC 1 -", r#"=VAL any 1 1 - "tag:yaml.org,2002:str" "a""#],
    &[
        "+DOC 1 -",
        r#"=VAL any 1 1 - "tag:yaml.org,2002:str" "a""#,
        r#"=VAL any 1 1 - "tag:yaml.org,2002:str" "b""#,
        "-DOC 1",
    ],
    &[
        "+DOC 1 -",
        r#"=VAL any 1 1 "id001" "tag:yaml.org,2002:str" "a""#,
        "-DOC 1",
    ],
    &[
        "+DOC 1 -",
        r#"+SEQ block 1 - "tag:yaml.org,2002:seq""#,
        r#"=ALI "id001""#,
        "-SEQ",
        "-DOC 1",
    ],
    &[
        "+DOC 1 -",
        r#"+SEQ block 1 "id001" "tag:yaml.org,2002:seq""#,
        r#"=VAL any 1 1 "id002" "tag:yaml.org,2002:str" "a""#,
        r#"=ALI "id002""#,
        r#"=ALI "id001""#,
        "-SEQ",
        "-DOC 1",
    ],
    &[
        "+DOC 1 -",
        r#"+SEQ block 1 "id1" "tag:yaml.org,2002:seq""#,
        r#"=ALI "id1""#,
        "-SEQ",
        "-DOC 1",
    ],
    &["+DOC 1 -", r#"=VAL any 1 1 - - "a""#, "-DOC 1"],
    &[
        "+DOC 1 -",
        r#"=VAL any 0 0 - "tag:yaml.org,2002:str" "a""#,
        "-DOC 1",
    ],
    &[
        "+DOC 1 -",
        r#"+SEQ block 1 - "tag:yaml.org,2002:seq""#,
        "-MAP",
        "-DOC 1",
    ],
    &[
        "+DOC 1 -",
        r#"+MAP block 1 - "tag:yaml.org,2002:map""#,
        r#"=VAL any 1 1 - "tag:yaml.org,2002:str" "a""#,
        "-MAP",
        "-DOC 1",
    ],
    &[],
];

#[test]
fn other_events_are_no_documents(rt: HostRuntime) {
    for lines in NOT_DUMPED {
        let events = events_of_lines(&rt, rt.alloc(), lines);
        let refused = document_of_events(rt.alloc(), events.as_slice()).err();
        equal(&rt, &refused, &Some(ComposeError::NotDumped));
    }
    check_words(
        &rt,
        rt.alloc(),
        &ComposeError::NotDumped,
        "no document has these events",
    );
}
