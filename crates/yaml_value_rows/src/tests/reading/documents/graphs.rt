//! Documents as tables write them.
use crate::tests::reading::push;
use std::alloc::Global;
use std::process::Abort;
use yaml_base::{
    YAML_ANY_MAPPING_STYLE, YAML_ANY_SCALAR_STYLE, YAML_ANY_SEQUENCE_STYLE, yaml_document_t,
    yaml_node_data_t, yaml_node_pair_t, yaml_node_t,
};

/// The contents of a node: a value, or the numbers of others.
#[derive(Clone, Copy)]
pub(super) enum Holds<'a> {
    Value(&'a str),
    Items(&'a [i32]),
    Pairs(&'a [(i32, i32)]),
}

/// A node: its tag, and its contents.
pub(super) type Given<'a> = (&'a str, Holds<'a>);

/// Returns the pairs of a mapping.
fn pairs_of(rt: &impl Abort, alloc: Global, pairs: &[(i32, i32)]) -> Vec<yaml_node_pair_t> {
    let mut all = Vec::new(alloc);
    for (key, value) in pairs {
        let pair = yaml_node_pair_t {
            key: *key,
            value: *value,
        };
        push(rt, &mut all, pair);
    }
    all
}

fn contents(rt: &impl Abort, alloc: Global, holds: &Holds) -> yaml_node_data_t<Global> {
    match holds {
        Holds::Value(value) => yaml_node_data_t::Scalar {
            value: String::from_str(alloc, value).expect(rt, "no memory"),
            style: YAML_ANY_SCALAR_STYLE,
        },
        Holds::Items(items) => yaml_node_data_t::Sequence {
            items: Vec::from_slice(alloc, items).expect(rt, "no memory"),
            style: YAML_ANY_SEQUENCE_STYLE,
        },
        Holds::Pairs(pairs) => yaml_node_data_t::Mapping {
            pairs: pairs_of(rt, alloc, pairs),
            style: YAML_ANY_MAPPING_STYLE,
        },
    }
}

/// Returns a node without a style.
fn node(rt: &impl Abort, alloc: Global, tag: &str, holds: &Holds) -> yaml_node_t<Global> {
    yaml_node_t {
        tag: String::from_str(alloc, tag).expect(rt, "no memory"),
        contents: contents(rt, alloc, holds),
    }
}

/// Returns a document of these nodes, without marks and directives.
pub(super) fn document(
    rt: &impl Abort,
    alloc: Global,
    nodes: Vec<yaml_node_t<Global>>,
) -> yaml_document_t<Global> {
    assert!(rt; nodes.len() <= 2_000_000);
    let made = yaml_document_t::from_nodes(None, Vec::new(alloc), nodes, true, true);
    made.expect(rt, "each number names a node")
}

/// Returns a document of the nodes of a row.
pub(super) fn given_document(
    rt: &impl Abort,
    alloc: Global,
    given: &[Given],
) -> yaml_document_t<Global> {
    let mut nodes = Vec::new(alloc);
    for (tag, holds) in given {
        let node = node(rt, alloc, tag, holds);
        push(rt, &mut nodes, node);
    }
    document(rt, alloc, nodes)
}
