//! The proved callers, called.
use crate::tests::{answers, equal};
use std::alloc::Global;
use std::process::Abort;
use yaml_caller::{Service, cycle_written, same_bytes, same_graph, service_yaml, write_pair};
use yaml_dump::{
    YAML_ANY_SCALAR_STYLE, YAML_BLOCK_SEQUENCE_STYLE, YAML_SEQ_TAG, YAML_STR_TAG, yaml_document_t,
    yaml_node_data_t, yaml_node_t,
};
use yaml_value::Value;

fn text(rt: &impl Abort, alloc: Global, characters: &str) -> String {
    String::from_str(alloc, characters).expect(rt, "no memory")
}

#[test]
fn a_pair_and_a_mapping_that_holds_itself_are_written(rt: HostRuntime) {
    let alloc = rt.alloc();
    let cycle = "---\n&id001 !!map {\n  ? !!str \"k\"\n  : *id001,\n}\n";
    answers(&rt, cycle_written(alloc), &Ok(cycle));
    let pair = write_pair(alloc, text(&rt, alloc, "a"), text(&rt, alloc, "b # c"));
    answers(&rt, pair, &Ok("---\na: 'b # c'\n"));
}

/// Returns texts as a list.
fn list(rt: &impl Abort, alloc: Global, texts: &[&str]) -> Vec<String> {
    let mut items = Vec::new(alloc);
    for characters in texts {
        items
            .push(text(rt, alloc, characters))
            .expect(rt, "no memory");
    }
    items
}

/// Returns texts as the labels of a service.
fn labels(rt: &impl Abort, alloc: Global, texts: &[(&str, &str)]) -> Vec<(String, String)> {
    let mut labels = Vec::new(alloc);
    for (key, value) in texts {
        let label = (text(rt, alloc, key), text(rt, alloc, value));
        labels.push(label).expect(rt, "no memory");
    }
    labels
}

#[test]
fn a_service_is_written(rt: HostRuntime) {
    let alloc = rt.alloc();
    let service = Service {
        name: text(&rt, alloc, "api # main"),
        port: 8080,
        replicas: 3,
        hosts: list(&rt, alloc, &["a.example", "on"]),
        labels: labels(&rt, alloc, &[("stage", "test"), ("no", "1.0")]),
    };
    let yaml =
        "---\nname: 'api # main'\nport: 8080\nreplicas: 3\nhosts:\n  - a.example\n  - 'on'\nlabels:\n  stage: test\n  'no': '1.0'\n";
    answers(&rt, service_yaml(alloc, &service), &Ok(yaml));
    drop(service);
}

#[test]
fn a_service_without_hosts_and_labels_is_written(rt: HostRuntime) {
    let alloc = rt.alloc();
    let service = Service {
        name: text(&rt, alloc, ""),
        port: 65_535,
        replicas: 0,
        hosts: list(&rt, alloc, &[]),
        labels: labels(&rt, alloc, &[]),
    };
    let yaml = "---\nname: ''\nport: 65535\nreplicas: 0\nhosts: []\nlabels: {}\n";
    answers(&rt, service_yaml(alloc, &service), &Ok(yaml));
    drop(service);
}

/// Checks whether a value has the bytes of the integer 5.
fn check_five(rt: &impl Abort, alloc: Global, other: Value<Global>, are_same: bool) {
    let five = Value::Int(5);
    equal(rt, &same_bytes(alloc, &five, &other), &Ok(are_same));
    drop(five);
    drop(other);
}

#[test]
fn equal_values_have_the_same_bytes(rt: HostRuntime) {
    check_five(&rt, rt.alloc(), Value::Int(5), true);
    let text = text(&rt, rt.alloc(), "5");
    check_five(&rt, rt.alloc(), Value::Text(text), false);
}

/// Returns a text of one letter.
fn letter_node(rt: &impl Abort, alloc: Global, letter: &str) -> yaml_node_t<Global> {
    yaml_node_t {
        tag: text(rt, alloc, YAML_STR_TAG),
        contents: yaml_node_data_t::Scalar {
            value: text(rt, alloc, letter),
            style: YAML_ANY_SCALAR_STYLE,
        },
    }
}

/// Returns a list of the nodes of these numbers.
fn list_node(rt: &impl Abort, alloc: Global, first: i32, second: i32) -> yaml_node_t<Global> {
    yaml_node_t {
        tag: text(rt, alloc, YAML_SEQ_TAG),
        contents: yaml_node_data_t::Sequence {
            items: vec![in alloc; first, second].expect(rt, "no memory"),
            style: YAML_BLOCK_SEQUENCE_STYLE,
        },
    }
}

/// Returns a list of two items by their numbers; nodes 2 and 3 are these letters.
fn list_of(
    rt: &impl Abort,
    alloc: Global,
    items: (i32, i32),
    letters: (&str, &str),
) -> yaml_document_t<Global> {
    let nodes = vec![in alloc;
        list_node(rt, alloc, items.0, items.1),
        letter_node(rt, alloc, letters.0),
        letter_node(rt, alloc, letters.1),
    ];
    let nodes = nodes.expect(rt, "no memory");
    assert!(rt; nodes.len() <= 3);
    let made = yaml_document_t::from_nodes(None, Vec::new(alloc), nodes, true, true);
    made.expect(rt, "each number names a node")
}

/// The items of a list and its letters, those of another, and whether they are the same graph.
type Graphs = (
    ((i32, i32), (&'static str, &'static str)),
    ((i32, i32), (&'static str, &'static str)),
    bool,
);

/// Graphs are compared but for the numbers of their nodes; a shared node is not two equal ones.
const GRAPHS: &[Graphs] = &[
    (((2, 3), ("a", "b")), ((3, 2), ("b", "a")), true),
    (((2, 2), ("a", "a")), ((2, 3), ("a", "a")), false),
];

#[test]
fn graphs_are_compared_by_what_is_shared(rt: HostRuntime) {
    let alloc = rt.alloc();
    for (first, second, are_same) in GRAPHS {
        let first = list_of(&rt, alloc, first.0, first.1);
        let second = list_of(&rt, alloc, second.0, second.1);
        equal(&rt, &same_graph(alloc, first, second), &Ok(*are_same));
    }
}
