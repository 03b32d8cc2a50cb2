//! Nodes as a C program gives them: numbers, spans of one arena of texts, and spans of one array of nodes' numbers.
ghost use Rattle.std.specs.Prelude.{◌≡◌, ◌==◌, IfOk, chars, false, length, map, option_map};
ghost use Rattle.yaml_base.specs.Seen.{seen_event, seen_text};
ghost use Rattle.yaml_base.specs.graphs.Documents.{graph_of};
ghost use Rattle.yaml_base.specs.graphs.SeenNodes.{seen_held, seen_node, seen_pair};
ghost use Rattle.yaml_c.specs.NodeRecords as meaning;

use crate::arena::{Span, owned_text, part_of};
use crate::styles::{mapping_style, scalar_style, sequence_style};
use std::alloc::{AllocError, Allocator};
use yaml_base::{
    yaml_document_t, yaml_error_t, yaml_event_t, yaml_node_data_t, yaml_node_pair_t, yaml_node_t,
};
use yaml_dump::{YAML_MAP_TAG, YAML_SEQ_TAG, YAML_STR_TAG, document_events};

/// A node. Its kind says what its content is a span of: see the header.
#[repr(C)]
#[derive(Clone, Copy)]
pub struct NodeRecord {
    pub kind: u32,
    pub style: u32,
    pub has_tag: u32,
    pub tag: Span,
    pub content: Span,
}

/// Returns the tag of a kind of nodes.
fn kind_tag(kind: u32) -> &'static str
    ensures { chars result.now ≡ meaning.kind_tag kind }
{
    if kind == 2 {
        YAML_SEQ_TAG
    } else if kind == 3 {
        YAML_MAP_TAG
    } else {
        YAML_STR_TAG
    }
}

/// Returns a node's tag, or `None` if it has one of its own that has no reading.
fn tag_of<A: Allocator>(
    alloc: A,
    arena: &[u8],
    node: &NodeRecord,
) -> Result<Option<String<A>>, AllocError>
    ensures { IfOk result (λ made. option_map seen_text made ≡ meaning.tag_recorded arena.now node.now) }
{
    if node.has_tag != 0 {
        return owned_text(alloc, arena, &node.tag);
    }
    match String::from_str(alloc, kind_tag(node.kind)) {
        Ok(tag) => Ok(Some(tag)),
        Err(error) => Err(error),
    }
}

/// Returns the pairs of keys and values that come in turn, or `None` if the last key has no value.
fn pairs_of<A: Allocator>(
    alloc: A,
    numbers: &[i32],
) -> Result<Option<Vec<yaml_node_pair_t, A>>, AllocError>
    ensures { IfOk result (λ made. option_map (λ pairs. map seen_pair pairs.items) made ≡ meaning.pairs_recorded numbers.now) }
{
    let mut pairs = Vec::new(alloc);
    let mut at = 0;
    'pairs: while at < numbers.len() {
        if at + 1 == numbers.len() {
            return Ok(None);
        }
        pairs.push(yaml_node_pair_t {
            key: numbers[at],
            value: numbers[at + 1],
        })?;
        at += 2;
    }
    Ok(Some(pairs))
}

fn scalar_of<A: Allocator>(
    alloc: A,
    arena: &[u8],
    node: &NodeRecord,
) -> Result<Option<yaml_node_data_t<A>>, AllocError>
    ensures { IfOk result (λ made. option_map seen_held made ≡ meaning.scalar_recorded arena.now node.now) }
{
    let Some(style) = scalar_style(node.style) else {
        return Ok(None);
    };
    match owned_text(alloc, arena, &node.content) {
        Ok(Some(value)) => Ok(Some(yaml_node_data_t::Scalar { value, style })),
        Ok(None) => Ok(None),
        Err(error) => Err(error),
    }
}

fn sequence_of<A: Allocator>(
    alloc: A,
    numbers: &[i32],
    node: &NodeRecord,
) -> Result<Option<yaml_node_data_t<A>>, AllocError>
    ensures { IfOk result (λ made. option_map seen_held made ≡ meaning.sequence_recorded numbers.now node.now) }
{
    let Some(style) = sequence_style(node.style) else {
        return Ok(None);
    };
    let Some(part) = part_of(numbers, &node.content) else {
        return Ok(None);
    };
    match Vec::from_slice(alloc, part) {
        Ok(items) => Ok(Some(yaml_node_data_t::Sequence { items, style })),
        Err(error) => Err(error),
    }
}

fn mapping_of<A: Allocator>(
    alloc: A,
    numbers: &[i32],
    node: &NodeRecord,
) -> Result<Option<yaml_node_data_t<A>>, AllocError>
    ensures { IfOk result (λ made. option_map seen_held made ≡ meaning.mapping_recorded numbers.now node.now) }
{
    let Some(style) = mapping_style(node.style) else {
        return Ok(None);
    };
    let Some(part) = part_of(numbers, &node.content) else {
        return Ok(None);
    };
    match pairs_of(alloc, part) {
        Ok(Some(pairs)) => Ok(Some(yaml_node_data_t::Mapping { pairs, style })),
        Ok(None) => Ok(None),
        Err(error) => Err(error),
    }
}

/// Returns what a node contains, or `None` if that or its style has no reading.
fn contents_of<A: Allocator>(
    alloc: A,
    arena: &[u8],
    numbers: &[i32],
    node: &NodeRecord,
) -> Result<Option<yaml_node_data_t<A>>, AllocError>
    ensures { IfOk result (λ made. option_map seen_held made ≡ meaning.held_recorded arena.now numbers.now node.now) }
{
    match node.kind {
        1 => scalar_of(alloc, arena, node),
        2 => sequence_of(alloc, numbers, node),
        3 => mapping_of(alloc, numbers, node),
        _ => Ok(None),
    }
}

fn node_of<A: Allocator + Copy>(
    alloc: A,
    arena: &[u8],
    numbers: &[i32],
    node: &NodeRecord,
) -> Result<Option<yaml_node_t<A>>, AllocError>
    ensures { IfOk result (λ made. option_map seen_node made ≡ meaning.node_recorded arena.now numbers.now node.now) }
{
    let Some(tag) = tag_of(alloc, arena, node)? else {
        return Ok(None);
    };
    let Some(contents) = contents_of(alloc, arena, numbers, node)? else {
        return Ok(None);
    };
    Ok(Some(yaml_node_t { tag, contents }))
}

fn nodes_of<A: Allocator + Copy>(
    alloc: A,
    arena: &[u8],
    numbers: &[i32],
    nodes: &[NodeRecord],
) -> Result<Option<Vec<yaml_node_t<A>, A>>, AllocError>
    ensures { IfOk result (λ made. option_map (λ all. map seen_node all.items) made ≡ meaning.nodes_recorded arena.now numbers.now nodes.now) }
{
    let mut all = Vec::new(alloc);
    for node in nodes {
        match node_of(alloc, arena, numbers, node) {
            Ok(Some(node)) => all.push(node)?,
            Ok(None) => return Ok(None),
            Err(error) => return Err(error),
        }
    }
    Ok(Some(all))
}

/// Returns the document of nodes, or `None` if there are none or too many, or a number in them names none of them.
fn document_with<A: Allocator>(
    alloc: A,
    nodes: Vec<yaml_node_t<A>, A>,
) -> Option<yaml_document_t<A>>
    ensures { option_map graph_of result ≡ meaning.document_with (map seen_node nodes.items) }
{
    if nodes.is_empty() || nodes.len() > i32::MAX as usize {
        return None;
    }
    match yaml_document_t::from_nodes(None, Vec::new(alloc), nodes, true, true) {
        Ok(document) => Some(document),
        Err(_) => None,
    }
}

/// Returns the events of a document's root.
fn root_events<A: Allocator + Copy>(
    alloc: A,
    document: &yaml_document_t<A>,
) -> Result<Vec<yaml_event_t<A>, A>, yaml_error_t>
    requires some { (length (graph_of document.now).nodes == 0) ≡ false }
    ensures { IfOk result (λ events. map seen_event events.items ≡ meaning.root_events (graph_of document.now)) }
{
    let mut events = document_events(alloc, document)?;
    let _end = events.pop();
    let _start = events.remove(0);
    Ok(events)
}

/// Returns the events of the root of the document of an array of nodes, or `None` if there is no such document.
pub(crate) fn events_of<A: Allocator + Copy>(
    alloc: A,
    arena: &[u8],
    numbers: &[i32],
    nodes: &[NodeRecord],
) -> Result<Option<Vec<yaml_event_t<A>, A>>, yaml_error_t>
    ensures { IfOk result (λ made. option_map (λ events. map seen_event events.items) made
        ≡ option_map meaning.root_events (meaning.graph_recorded arena.now numbers.now nodes.now)) }
{
    let Ok(found) = nodes_of(alloc, arena, numbers, nodes) else {
        return Err(yaml_error_t::Memory);
    };
    let Some(nodes) = found else {
        return Ok(None);
    };
    let Some(document) = document_with(alloc, nodes) else {
        return Ok(None);
    };
    match root_events(alloc, &document) {
        Ok(events) => Ok(Some(events)),
        Err(error) => Err(error),
    }
}
