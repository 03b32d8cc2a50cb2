//! The parts of a document's events, except those of its nodes.
ghost use Rattle.std.specs.Prelude.{◌≡◌, ◌∷◌, [], ◌==◌, false, IfOk, map, length};
ghost use Rattle.yaml_base.specs.Event as seen;
ghost use Rattle.yaml_base.specs.Seen.{seen_events, seen_directive};
ghost use Rattle.yaml_base.specs.graphs.Documents.{graph_of};
ghost use Rattle.yaml_dump.specs.Outlines.{IsOutline};

use crate::steps::Step;
use crate::walk::walk;
use std::alloc::{AllocError, Allocator};
use yaml_base::{yaml_document_t, yaml_event_t, yaml_tag_directive_t};

/// A document's first event in a list with room for all, the walk over its nodes, and whether `...` may be left out.
#[derive(Drop)]
pub(crate) struct Outline<A: Allocator> {
    pub(crate) events: Vec<yaml_event_t<A>, A>,
    pub(crate) walk: Vec<Step, A>,
    pub(crate) end_implicit: bool,
}

fn copied_directive<A: Allocator + Copy>(
    alloc: A,
    directive: &yaml_tag_directive_t<A>,
) -> Result<yaml_tag_directive_t<A>, AllocError>
    ensures { IfOk result (λ copy. seen_directive copy ≡ seen_directive directive.now) }
{
    let Ok(handle) = String::from_str(alloc, directive.handle.as_str()) else {
        return Err(AllocError);
    };
    let Ok(prefix) = String::from_str(alloc, directive.prefix.as_str()) else {
        return Err(AllocError);
    };
    Ok(yaml_tag_directive_t { handle, prefix })
}

pub(crate) fn copied_directives<A: Allocator + Copy>(
    alloc: A,
    directives: &[yaml_tag_directive_t<A>],
) -> Result<Vec<yaml_tag_directive_t<A>, A>, AllocError>
    ensures { IfOk result (λ copies. map seen_directive copies.items ≡ map seen_directive directives.now) }
{
    let mut copies = Vec::new(alloc);
    for directive in directives {
        let Ok(copy) = copied_directive(alloc, directive) else {
            return Err(AllocError);
        };
        copies.push(copy)?;
    }
    Ok(copies)
}

/// Returns the event with which a document begins, in a list with room for the events of `steps` steps.
fn begun_events<A: Allocator + Copy>(
    alloc: A,
    document: &yaml_document_t<A>,
    steps: usize,
) -> Result<Vec<yaml_event_t<A>, A>, AllocError>
    ensures { IfOk result (λ events. seen_events events.items ≡ seen.document_start (graph_of document.now).start ∷ []) }
{
    let Ok(tag_directives) = copied_directives(alloc, document.tag_directives()) else {
        return Err(AllocError);
    };
    // A step has at most one event.
    let Ok(mut events) = Vec::with_capacity(alloc, steps.saturating_add(2)) else {
        return Err(AllocError);
    };
    events.push(yaml_event_t::YAML_DOCUMENT_START_EVENT {
        version_directive: document.version_directive(),
        tag_directives,
        implicit: document.start_implicit(),
    })?;
    Ok(events)
}

/// Returns the outline of a document that has nodes.
pub(crate) fn outline_of<A: Allocator + Copy>(
    alloc: A,
    document: &yaml_document_t<A>,
) -> Result<Outline<A>, AllocError>
    requires nonempty { (length (graph_of document.now).nodes == 0) ≡ false }
    ensures { IfOk result (λ outline. IsOutline (graph_of document.now) outline) }
{
    let Ok(walk) = walk(alloc, document) else {
        return Err(AllocError);
    };
    let Ok(events) = begun_events(alloc, document, walk.len()) else {
        return Err(AllocError);
    };
    Ok(Outline {
        events,
        walk,
        end_implicit: document.end_implicit(),
    })
}
