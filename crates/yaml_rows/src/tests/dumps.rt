//! Documents dumped, as tests write them.
mod composing;
mod events;
mod large;
mod steps;
mod streams;
mod texts;
mod typed;

use crate::tests::{directives, owned};
use std::alloc::{Allocator, Global};
use std::process::Abort;
use yaml_base::{
    YAML_ANY_SCALAR_STYLE, YAML_BLOCK_MAPPING_STYLE, YAML_BLOCK_SEQUENCE_STYLE,
    YAML_DOUBLE_QUOTED_SCALAR_STYLE, YAML_FLOW_MAPPING_STYLE, yaml_document_t, yaml_error_t,
    yaml_node_data_t, yaml_node_pair_t, yaml_node_t, yaml_version_directive_t,
};
use yaml_dump::{yaml_emitter_close, yaml_emitter_dump, yaml_emitter_dump_typed};
use yaml_emitter::yaml_emitter_t;

/// A node as tables write it.
#[derive(Clone, Copy)]
pub(super) enum Given<'a> {
    /// A string.
    Text(&'a str),
    /// A scalar's tag and value.
    Tagged(&'a str, &'a str),
    /// A scalar's tag and value between double quotes.
    Quoted(&'a str, &'a str),
    /// A block sequence of these nodes.
    Sequence(&'a [i32]),
    /// A block mapping of keys and values.
    Mapping(&'a [yaml_node_pair_t]),
    /// A flow mapping's tag, and its keys and values.
    Flow(&'a str, &'a [yaml_node_pair_t]),
}

fn copied<T: Copy, A: Allocator>(rt: &impl Abort, alloc: A, items: &[T]) -> Vec<T, A> {
    Vec::from_slice(alloc, items).expect(rt, "no memory")
}

/// Returns the tag that is given, or that of the kind.
fn node_tag<'a>(given: &Given<'a>) -> &'a str {
    match given {
        Given::Text(_) => "tag:yaml.org,2002:str",
        Given::Tagged(tag, _) | Given::Quoted(tag, _) | Given::Flow(tag, _) => tag,
        Given::Sequence(_) => "tag:yaml.org,2002:seq",
        Given::Mapping(_) => "tag:yaml.org,2002:map",
    }
}

/// Returns a scalar, or a collection.
fn contents<A: Allocator + Copy>(rt: &impl Abort, alloc: A, given: &Given) -> yaml_node_data_t<A> {
    match given {
        Given::Text(value) | Given::Tagged(_, value) => yaml_node_data_t::Scalar {
            value: owned(rt, alloc, value),
            style: YAML_ANY_SCALAR_STYLE,
        },
        Given::Quoted(_, value) => yaml_node_data_t::Scalar {
            value: owned(rt, alloc, value),
            style: YAML_DOUBLE_QUOTED_SCALAR_STYLE,
        },
        Given::Sequence(items) => yaml_node_data_t::Sequence {
            items: copied(rt, alloc, items),
            style: YAML_BLOCK_SEQUENCE_STYLE,
        },
        Given::Mapping(pairs) => yaml_node_data_t::Mapping {
            pairs: copied(rt, alloc, pairs),
            style: YAML_BLOCK_MAPPING_STYLE,
        },
        Given::Flow(_, pairs) => yaml_node_data_t::Mapping {
            pairs: copied(rt, alloc, pairs),
            style: YAML_FLOW_MAPPING_STYLE,
        },
    }
}

pub(super) fn nodes<A: Allocator + Copy>(
    rt: &impl Abort,
    alloc: A,
    given: &[Given],
) -> Vec<yaml_node_t<A>, A> {
    let mut nodes = Vec::with_capacity(alloc, given.len()).expect(rt, "no memory");
    for each in given {
        let node = yaml_node_t {
            tag: owned(rt, alloc, node_tag(each)),
            contents: contents(rt, alloc, each),
        };
        nodes.push(node).expect(rt, "no memory");
    }
    nodes
}

/// Returns a document of these nodes, without marks and directives.
fn document<A: Allocator + Copy>(rt: &impl Abort, alloc: A, given: &[Given]) -> yaml_document_t<A> {
    let nodes = nodes(rt, alloc, given);
    assert!(rt; nodes.len() <= 2_000_000);
    yaml_document_t::from_nodes(None, Vec::new(alloc), nodes, true, true).expect(
        rt,
        "each number names a node",
    )
}

/// The version of a document that has one.
pub(super) const VERSION: Option<yaml_version_directive_t> = Some(yaml_version_directive_t {
    major: 1,
    minor: 1,
});

/// Returns a document of these nodes, with a version, a directive, and a mark at its start.
pub(super) fn marked_document(
    rt: &impl Abort,
    alloc: Global,
    given: &[Given],
) -> yaml_document_t<Global> {
    let tags = directives(rt, alloc, r#"+DOC 0 - "!e!" "tag:e,2026:""#);
    let nodes = nodes(rt, alloc, given);
    assert!(rt; nodes.len() <= 2_000_000);
    let made = yaml_document_t::from_nodes(VERSION, tags, nodes, false, true);
    made.expect(rt, "each number names a node")
}

/// Dumps a document: an output is set.
fn dump<A: Allocator + Copy>(
    rt: &impl Abort,
    alloc: A,
    emitter: &mut yaml_emitter_t<A>,
    document: yaml_document_t<A>,
) -> Result<(), yaml_error_t> {
    assert!(rt; emitter.has_output());
    yaml_emitter_dump(alloc, emitter, document)
}

/// Dumps a document with its types: an output is set.
fn dump_typed<A: Allocator + Copy>(
    rt: &impl Abort,
    alloc: A,
    emitter: &mut yaml_emitter_t<A>,
    document: yaml_document_t<A>,
) -> Result<(), yaml_error_t> {
    assert!(rt; emitter.has_output());
    yaml_emitter_dump_typed(alloc, emitter, document)
}

/// Closes a stream that is opened.
fn close<A: Allocator + Copy>(
    rt: &impl Abort,
    emitter: &mut yaml_emitter_t<A>,
) -> Result<(), yaml_error_t> {
    assert!(rt; emitter.is_opened());
    yaml_emitter_close(emitter)
}
