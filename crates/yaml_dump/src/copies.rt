//! Copies of a document's nodes, for events that leave the document as it is.
ghost use Rattle.std.specs.Prelude.{◌≡◌, ◌≤◌, ◌<◌, ◌+◌, IfOk, map, option_map, length};
ghost use Rattle.yaml_base.specs.graphs.Documents.{graph_of};
ghost use Rattle.yaml_base.specs.graphs.Meetings as meetings;
ghost use Rattle.yaml_base.specs.graphs.SeenNodes.{seen_node};
ghost use Rattle.yaml_base.specs.Settings.{largest_i32};
ghost use Rattle.yaml_dump.specs.Events.{without_children};

use std::alloc::{AllocError, Allocator};
use yaml_base::{yaml_document_t, yaml_node_data_t, yaml_node_t};

/// Returns a node's texts, kind and style. The copy of a collection has no children, since its events don't name them.
fn copied_node<A: Allocator + Copy>(
    alloc: A,
    node: &yaml_node_t<A>,
) -> Result<yaml_node_t<A>, AllocError>
    ensures { IfOk result (λ copy. seen_node copy ≡ without_children (seen_node node.now)) }
{
    let Ok(tag) = String::from_str(alloc, node.tag.as_str()) else {
        return Err(AllocError);
    };
    match &node.contents {
        yaml_node_data_t::Scalar { value, style } => {
            let Ok(value) = String::from_str(alloc, value.as_str()) else {
                return Err(AllocError);
            };
            let contents = yaml_node_data_t::Scalar {
                value,
                style: *style,
            };
            Ok(yaml_node_t { tag, contents })
        }
        yaml_node_data_t::Sequence { style, .. } => {
            let items = Vec::new(alloc);
            let contents = yaml_node_data_t::Sequence {
                items,
                style: *style,
            };
            Ok(yaml_node_t { tag, contents })
        }
        yaml_node_data_t::Mapping { style, .. } => {
            let pairs = Vec::new(alloc);
            let contents = yaml_node_data_t::Mapping {
                pairs,
                style: *style,
            };
            Ok(yaml_node_t { tag, contents })
        }
    }
}

/// Returns the node of a number.
fn node_of<A: Allocator>(document: &yaml_document_t<A>, number: usize) -> Option<&yaml_node_t<A>>
    requires { number ≤ largest_i32 }
    ensures { option_map (λ node. seen_node node.now) result ≡ meetings.node_numbered (graph_of document.now) number }
{
    document.get_node(number as i32)
}

/// Returns the number of nodes.
fn count_of<A: Allocator>(document: &yaml_document_t<A>) -> usize
    ensures all { result ≡ length (graph_of document.now).nodes }
    ensures few { result ≤ largest_i32 }
{
    document.node_count() as usize
}

/// Returns copies of all nodes, that of number 1 first.
pub(crate) fn copied_nodes<A: Allocator + Copy>(
    alloc: A,
    document: &yaml_document_t<A>,
) -> Result<Vec<yaml_node_t<A>, A>, AllocError>
    ensures { IfOk result (λ copies. map seen_node copies.items ≡ map without_children (graph_of document.now).nodes) }
{
    let count = count_of(document);
    let Ok(mut copies) = Vec::with_capacity(alloc, count) else {
        return Err(AllocError);
    };
    for before in 0..count {
        if let Some(node) = node_of(document, before + 1) {
            let Ok(copy) = copied_node(alloc, node) else {
                return Err(AllocError);
            };
            copies.push(copy)?;
        }
    }
    Ok(copies)
}
