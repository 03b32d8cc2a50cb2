//! Documents as events: tables of graphs, with the events worked out by hand.
use super::Given::{Flow, Mapping, Quoted, Sequence, Text};
use super::large::{numbers, sequences};
use super::{Given, document, marked_document};
use crate::tests::{equal, event_of};
use std::alloc::Global;
use std::process::Abort;
use yaml_base::{yaml_document_t, yaml_event_t, yaml_node_pair_t};
use yaml_dump::document_events;
use yaml_tool::read_script;

type Events = Vec<yaml_event_t<Global>>;

// The events of a document.
pub(super) fn events_of(rt: &impl Abort, alloc: Global, graph: yaml_document_t<Global>) -> Events {
    let events = document_events(alloc, &graph).expect(rt, "no memory");
    drop(graph);
    events
}

// The document has the events of these lines of a script.
fn check_events(rt: &impl Abort, alloc: Global, graph: yaml_document_t<Global>, lines: &str) {
    let events = events_of(rt, alloc, graph);
    let script = read_script(alloc, lines.as_bytes()).expect(rt, "lines");
    equal(rt, &events.len(), &script.events.len());
    for place in 0..events.len() {
        let wanted = script.events.get(place).expect(rt, "an event");
        equal(rt, &events.get(place), &Some(&wanted.event));
    }
}

/// Nodes that are shared are named in the order of their second meetings.
const NESTED: &[Given] = &[Sequence(&[2, 2]), Sequence(&[3, 3]), Text("a")];

const NESTED_EVENTS: &str = r#"+DOC 1 -
+SEQ block 1 - "tag:yaml.org,2002:seq"
+SEQ block 1 "id002" "tag:yaml.org,2002:seq"
=VAL any 1 1 "id001" "tag:yaml.org,2002:str" "a"
=ALI "id001"
-SEQ
=ALI "id002"
-SEQ
-DOC 1"#;

const PAIRS: &[yaml_node_pair_t] = &[
    yaml_node_pair_t { key: 2, value: 1 },
    yaml_node_pair_t { key: 3, value: 4 },
];

/// A key comes before its value, and may hold the mapping.
const HOLDS_ITSELF: &[Given] = &[Mapping(PAIRS), Sequence(&[1]), Text("a"), Text("b")];

const HOLDS_ITSELF_EVENTS: &str = r#"+DOC 1 -
+MAP block 1 "id001" "tag:yaml.org,2002:map"
+SEQ block 1 - "tag:yaml.org,2002:seq"
=ALI "id001"
-SEQ
=ALI "id001"
=VAL any 1 1 - "tag:yaml.org,2002:str" "a"
=VAL any 1 1 - "tag:yaml.org,2002:str" "b"
-MAP
-DOC 1"#;

/// A node beside the root isn't met.
const BESIDE: &[Given] = &[Text("a"), Sequence(&[1])];

const BESIDE_EVENTS: &str = r#"+DOC 1 -
=VAL any 1 1 - "tag:yaml.org,2002:str" "a"
-DOC 1"#;

const GRAPHS: &[(&[Given], &str)] = &[
    (NESTED, NESTED_EVENTS),
    (HOLDS_ITSELF, HOLDS_ITSELF_EVENTS),
    (BESIDE, BESIDE_EVENTS),
];

#[test]
fn nodes_are_met_from_the_root_in_their_order(rt: HostRuntime) {
    for (given, lines) in GRAPHS {
        let graph = document(&rt, rt.alloc(), given);
        check_events(&rt, rt.alloc(), graph, lines);
    }
}

/// A flow mapping whose key is its value, and a quoted scalar, each with a tag of its own.
const TAGGED: &[Given] = &[
    Flow("!m", &[yaml_node_pair_t { key: 2, value: 2 }]),
    Quoted("!s", "x"),
];

/// The document's version and directive are those of its start, which has a mark.
const TAGGED_EVENTS: &str = r#"+DOC 0 1.1 "!e!" "tag:e,2026:"
+MAP flow 0 - "!m"
=VAL double 0 0 "id001" "!s" "x"
=ALI "id001"
-MAP
-DOC 1"#;

#[test]
fn tags_styles_and_directives_are_copied(rt: HostRuntime) {
    let tagged = marked_document(&rt, rt.alloc(), TAGGED);
    check_events(&rt, rt.alloc(), tagged, TAGGED_EVENTS);
}

/// Places, from 0 on, each with its event's line: the text after 99,999 starts, the last of as many ends, and the document's end.
const DEEP: &[(usize, &str)] = &[
    (100_000, r#"=VAL any 1 1 - "tag:yaml.org,2002:str" "a""#),
    (199_999, "-SEQ"),
    (200_000, "-DOC 1"),
];

// A text in sequences, each the one item of the one before.
fn check_deep(rt: &impl Abort, alloc: Global, given: &[Given]) {
    let events = events_of(rt, alloc, document(rt, alloc, given));
    equal(rt, &events.len(), &200_001);
    for (place, line) in DEEP {
        let wanted = event_of(rt, alloc, line);
        equal(rt, &events.get(*place), &Some(&wanted));
        drop(wanted);
    }
}

#[test]
fn nodes_may_lie_a_hundred_thousand_deep(rt: HostRuntime) {
    let alloc = rt.alloc();
    let numbers = numbers(&rt, alloc, 100_000, 1);
    let given = sequences(&rt, alloc, numbers.as_slice(), 1, (Text("a"), 1));
    check_deep(&rt, alloc, given.as_slice());
}
