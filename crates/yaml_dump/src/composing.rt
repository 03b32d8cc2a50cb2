//! Composes a document from its events, as libyaml's loader does from a parser's.
ghost use Rattle.std.specs.Prelude.{◌≡◌, Bool, Some, true, IfOk, MatchResult, map, option_map};
ghost use Rattle.yaml_base.specs.Event.{DocumentStart, document_start, document_end};
ghost use Rattle.yaml_base.specs.Seen.{seen_event};
ghost use Rattle.yaml_base.specs.graphs.Documents.{graph_of};
ghost use Rattle.yaml_base.specs.graphs.Meetings.{Graph, document_event_list, is_whole};
ghost use Rattle.yaml_base.specs.graphs.SeenNodes.{seen_node};
ghost use Rattle.yaml_base.specs.graphs.Unfolding.{IsWholeGraph};
ghost use Rattle.yaml_dump.specs.Composing.{seen_heading};
ghost use Rattle.yaml_dump.specs.InOrder.{in_order};

use crate::composer::composed_nodes;
use crate::dumps::document_events;
use crate::outlines::copied_directives;
use crate::same_events::are_same;
use std::alloc::{AllocError, Allocator};
use std::error::Error;
use std::fmt;
use yaml_base::{
    yaml_document_t, yaml_event_t, yaml_node_t, yaml_tag_directive_t, yaml_version_directive_t,
};

/// The reason why a list of events isn't that of a document.
#[derive(Clone, Copy, PartialEq, Eq, Debug)]
pub enum ComposeError {
    /// No document with nodes has these events.
    NotDumped,
    /// A growth was refused, or there are more nodes than a document can number.
    Memory,
}

impl fmt::Display for ComposeError {
    fn fmt<W: fmt::Write>(&self, f: &mut fmt::Formatter<W>) -> fmt::Result {
        f.write_str(match self {
            ComposeError::NotDumped => "no document has these events",
            ComposeError::Memory => "out of memory",
        })
    }
}

/// So `?` converts it to a caller's own error.
impl Error for ComposeError {}

/// The start of a document.
#[derive(Drop)]
struct Heading<A: Allocator> {
    version: Option<yaml_version_directive_t>,
    tags: Vec<yaml_tag_directive_t<A>, A>,
    implicit: bool,
}

/// Returns a copy of the contents of a document's first event; none if the event begins no document.
fn heading_of<A: Allocator + Copy>(
    alloc: A,
    event: &yaml_event_t<A>,
) -> Result<Option<Heading<A>>, AllocError>
    ensures { IfOk result (λ found. (start : DocumentStart) → seen_event event.now ≡ document_start start
        → option_map seen_heading found ≡ Some start) }
{
    let yaml_event_t::YAML_DOCUMENT_START_EVENT {
        version_directive,
        tag_directives,
        implicit,
    } = event
    else {
        return Ok(None);
    };
    let Ok(tags) = copied_directives(alloc, tag_directives.as_slice()) else {
        return Err(AllocError);
    };
    Ok(Some(Heading {
        version: *version_directive,
        tags,
        implicit: *implicit,
    }))
}

/// Returns whether `...` may be left out after a document's last event; none if the event ends no document.
fn end_of<A: Allocator>(event: &yaml_event_t<A>) -> Option<bool>
    ensures { (implicit : Bool) → seen_event event.now ≡ document_end implicit → result ≡ Some implicit }
{
    match event {
        yaml_event_t::YAML_DOCUMENT_END_EVENT { implicit } => Some(*implicit),
        _ => None,
    }
}

/// Returns the document of these parts; none if a node holds a number that names none.
fn document_of<A: Allocator>(
    heading: Heading<A>,
    nodes: Vec<yaml_node_t<A>, A>,
    end_implicit: bool,
) -> Result<Option<yaml_document_t<A>>, AllocError>
    ensures { IfOk result (λ found. (graph : Graph) → is_whole graph ≡ true → seen_heading heading ≡ graph.start
        → map seen_node nodes.items ≡ graph.nodes → end_implicit ≡ graph.end_implicit → option_map graph_of found ≡ Some graph) }
{
    if nodes.len() > i32::MAX as usize {
        return Err(AllocError);
    }
    let Heading {
        version,
        tags,
        implicit,
    } = heading;
    match yaml_document_t::from_nodes(version, tags, nodes, implicit, end_implicit) {
        Ok(document) => Ok(Some(document)),
        Err(_) => Ok(None),
    }
}

/// Returns the document that has these events, if one has them; else none, or any document.
fn composed_document<A: Allocator + Copy>(
    alloc: A,
    events: &[yaml_event_t<A>],
) -> Result<Option<yaml_document_t<A>>, AllocError>
    ensures { IfOk result (λ found. (graph : Graph) → IsWholeGraph graph → document_event_list graph ≡ map seen_event events.now
        → option_map graph_of found ≡ Some (in_order graph)) }
{
    if events.is_empty() {
        return Ok(None);
    }
    let Ok(found) = heading_of(alloc, &events[0]) else {
        return Err(AllocError);
    };
    let Some(heading) = found else {
        return Ok(None);
    };
    let Some(end_implicit) = end_of(&events[events.len() - 1]) else {
        return Ok(None);
    };
    let Ok(nodes) = composed_nodes(alloc, events) else {
        return Err(AllocError);
    };
    document_of(heading, nodes, end_implicit)
}

/// Returns the document that has these events, from its start to its end, as `document_events` gives them. Its nodes are numbered
/// in the order in which they begin. A document without nodes has no events, and is never returned.
///
/// The events must be such as a dump gives: their anchors are numbered in the order of the first aliases, no other node has an
/// anchor, each node has its tag, and its flags say whether that is the tag of its kind.
///
/// # Errors
///
/// `NotDumped` if no document with nodes has these events. `Memory` if an allocation fails, or if there are more nodes than a
/// document can number.
pub fn document_of_events<A: Allocator + Copy>(
    alloc: A,
    events: &[yaml_event_t<A>],
) -> Result<yaml_document_t<A>, ComposeError>
    ensures has_events { IfOk result (λ document. document_event_list (graph_of document) ≡ map seen_event events.now) }
    ensures composes { (graph : Graph) → IsWholeGraph graph → document_event_list graph ≡ map seen_event events.now
        → MatchResult result (λ document. graph_of document ≡ in_order graph) (λ error. error ≡ ComposeError.Memory) }
{
    let Ok(found) = composed_document(alloc, events) else {
        return Err(ComposeError::Memory);
    };
    let Some(document) = found else {
        return Err(ComposeError::NotDumped);
    };
    let Ok(dumped) = document_events(alloc, &document) else {
        return Err(ComposeError::Memory);
    };
    if !are_same(dumped.as_slice(), events) {
        return Err(ComposeError::NotDumped);
    }
    Ok(document)
}
