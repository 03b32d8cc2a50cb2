//! The events of a walk over a document's nodes, into which the nodes' texts are moved.
ghost use Rattle.std.specs.Prelude.{◌≡◌, ◌<◌, ◌≤◌, ◌-◌, ◌++◌, ◌∷◌, [], ℕ, true, Some, List, Option};
ghost use Rattle.std.specs.Prelude.{unwrap_or, IfOk, IsTrue, false, nat_lt, map, option_map, length};
ghost use Rattle.std.specs.Prelude.{slice_index, bytes_eq};
ghost use Rattle.std.specs.List.{list_all, list_any, flat_map};
ghost use Rattle.std.specs.Str.{chars};
ghost use Rattle.yaml_base.specs.Event as seen;
ghost use Rattle.yaml_base.specs.graphs.Meetings as meetings;
ghost use Rattle.yaml_base.specs.graphs.Meetings.{Graph};
ghost use Rattle.yaml_base.specs.Seen.{seen_text, seen_event, seen_events, seen_scalar_style, seen_sequence_style, seen_mapping_style};
ghost use Rattle.yaml_base.specs.graphs.SeenNodes.{seen_node, seen_held};
ghost use Rattle.yaml_dump.specs.Anchors.{is_numbered, HasPlaces, anchor_of_place};
ghost use Rattle.yaml_dump.specs.Events.{seen_events_of, HoldsTexts, IsFirstEntry, StepIsPlaced, walk_events};
ghost use Rattle.yaml_dump.specs.Named.{IsNamed};
ghost use Rattle.yaml_dump.specs.Outlines.{IsOutline};
ghost use Rattle.yaml_dump.specs.WalkSteps.{seen_step};

use crate::anchors::{numbered_name, shared_ranks};
use crate::outlines::Outline;
use crate::steps::Step;
use crate::tags::{YAML_MAP_TAG, YAML_SEQ_TAG, YAML_STR_TAG};
use std::alloc::{AllocError, Allocator};
use std::mem::replace;
use yaml_base::{
    yaml_event_t, yaml_mapping_style_t, yaml_node_data_t, yaml_node_t, yaml_scalar_style_t,
    yaml_sequence_style_t,
};

/// Returns whether a tag is `wanted`, which is ASCII.
fn is_tag(tag: &str, wanted: &'static str) -> bool
    requires { IsTrue (list_all (λ byte. nat_lt byte 128) wanted.now) }
    ensures { result ≡ bytes_eq (chars tag.now) wanted.now }
{
    tag == wanted
}

fn scalar_event<A: Allocator>(
    anchor: Option<String<A>>,
    tag: String<A>,
    value: String<A>,
    style: yaml_scalar_style_t,
) -> yaml_event_t<A>
    ensures { seen_event result
        ≡ meetings.opening_event_of (option_map seen_text anchor) (seen_text tag) (meetings.scalar_held (seen_text value) (seen_scalar_style style)) }
{
    let implicit = is_tag(tag.as_str(), YAML_STR_TAG);
    yaml_event_t::YAML_SCALAR_EVENT {
        anchor,
        tag: Some(tag),
        value,
        plain_implicit: implicit,
        quoted_implicit: implicit,
        style,
    }
}

fn sequence_start<A: Allocator>(
    anchor: Option<String<A>>,
    tag: String<A>,
    style: yaml_sequence_style_t,
) -> yaml_event_t<A>
    ensures { seen_event result
        ≡ seen.sequence_start (record {
          anchor = option_map seen_text anchor;
          tag = Some (seen_text tag);
          implicit = bytes_eq (seen_text tag) meetings.sequence_tag;
          style = seen_sequence_style style;
        }) }
{
    let implicit = is_tag(tag.as_str(), YAML_SEQ_TAG);
    yaml_event_t::YAML_SEQUENCE_START_EVENT {
        anchor,
        tag: Some(tag),
        implicit,
        style,
    }
}

fn mapping_start<A: Allocator>(
    anchor: Option<String<A>>,
    tag: String<A>,
    style: yaml_mapping_style_t,
) -> yaml_event_t<A>
    ensures { seen_event result
        ≡ seen.mapping_start (record {
          anchor = option_map seen_text anchor;
          tag = Some (seen_text tag);
          implicit = bytes_eq (seen_text tag) meetings.mapping_tag;
          style = seen_mapping_style style;
        }) }
{
    let implicit = is_tag(tag.as_str(), YAML_MAP_TAG);
    yaml_event_t::YAML_MAPPING_START_EVENT {
        anchor,
        tag: Some(tag),
        implicit,
        style,
    }
}

/// Returns the event with which a node begins. The node's texts are moved into it; the node's kind stays.
fn opening_event<A: Allocator + Copy>(
    alloc: A,
    anchor: Option<String<A>>,
    node: &mut yaml_node_t<A>,
) -> yaml_event_t<A>
    ensures event { seen_event result
        ≡ meetings.opening_event_of (option_map seen_text anchor) (seen_text node.old.tag) (seen_held node.old.contents) }
    ensures ends { meetings.closing_event_of (seen_held node.new.contents) ≡ meetings.closing_event_of (seen_held node.old.contents) }
{
    let tag = replace(&mut node.tag, String::new(alloc));
    match &mut node.contents {
        yaml_node_data_t::Scalar { value, style } => {
            let text = replace(value, String::new(alloc));
            scalar_event(anchor, tag, text, *style)
        }
        yaml_node_data_t::Sequence { style, .. } => sequence_start(anchor, tag, *style),
        yaml_node_data_t::Mapping { style, .. } => mapping_start(anchor, tag, *style),
    }
}

/// Returns the event with which a node ends; a scalar has none.
fn closing_event<A: Allocator>(contents: &yaml_node_data_t<A>) -> Option<yaml_event_t<A>>
    ensures { seen_events_of result ≡ meetings.closing_event_of (seen_held contents.now) }
{
    match contents {
        yaml_node_data_t::Scalar { .. } => None,
        yaml_node_data_t::Sequence { .. } => Some(yaml_event_t::YAML_SEQUENCE_END_EVENT),
        yaml_node_data_t::Mapping { .. } => Some(yaml_event_t::YAML_MAPPING_END_EVENT),
    }
}

/// Returns the anchor of the shared node of a rank; the rank 0 has none.
fn anchor_of<A: Allocator>(alloc: A, place: usize) -> Result<Option<String<A>>, AllocError>
    ensures { IfOk result (λ anchor. option_map seen_text anchor ≡ anchor_of_place place) }
{
    if place == 0 {
        return Ok(None);
    }
    let Ok(name) = numbered_name(alloc, place) else {
        return Err(AllocError);
    };
    Ok(Some(name))
}

/// Returns the event with which the node of a number begins, if no earlier step entered that node.
fn opening_event_at<A: Allocator + Copy>(
    alloc: A,
    nodes: &mut [yaml_node_t<A>],
    number: usize,
    place: usize,
) -> Result<Option<yaml_event_t<A>>, AllocError>
    requires { IsNamed (length nodes.old) number }
    ensures event { IfOk result (λ event. (graph : Graph) (before : List meetings.Step) → HoldsTexts graph before (map seen_node nodes.old)
        → list_any (meetings.is_entry_of number) before ≡ false
        → seen_events_of event ≡ meetings.opening_events (anchor_of_place place) (meetings.node_numbered graph number)) }
    ensures held { (graph : Graph) (before : List meetings.Step) → HoldsTexts graph before (map seen_node nodes.old)
        → HoldsTexts graph (before ++ meetings.enters number ∷ []) (map seen_node nodes.new) }
{
    let Ok(anchor) = anchor_of(alloc, place) else {
        return Err(AllocError);
    };
    let node = &mut nodes[number - 1];
    Ok(Some(opening_event(alloc, anchor, node)))
}

/// Returns the event with which the node of a number ends, if it is a collection.
fn closing_event_at<A: Allocator>(
    nodes: &[yaml_node_t<A>],
    number: usize,
) -> Option<yaml_event_t<A>>
    requires { IsNamed (length nodes.now) number }
    ensures { (graph : Graph) (before : List meetings.Step) → HoldsTexts graph before (map seen_node nodes.now)
        → seen_events_of result ≡ meetings.closing_events (meetings.node_numbered graph number) }
{
    closing_event(&nodes[number - 1].contents)
}

/// Returns the event of a step, by the ranks of the shared nodes; none for leaving a scalar. A node is entered once, so its texts
/// are moved into the event of its entry.
fn step_event<A: Allocator + Copy>(
    alloc: A,
    nodes: &mut [yaml_node_t<A>],
    places: &[usize],
    step: Step,
) -> Result<Option<yaml_event_t<A>>, AllocError>
    requires counted { length places.now ≡ length nodes.old }
    requires placed { StepIsPlaced places.now (seen_step step) }
    ensures event { IfOk result (λ event. (graph : Graph) (walk before : List meetings.Step) → HasPlaces walk places.now
        → HoldsTexts graph before (map seen_node nodes.old) → IsFirstEntry before (seen_step step)
        → seen_events_of event ≡ meetings.step_events graph walk (seen_step step)) }
    ensures held { (graph : Graph) (before : List meetings.Step) → HoldsTexts graph before (map seen_node nodes.old)
        → HoldsTexts graph (before ++ seen_step step ∷ []) (map seen_node nodes.new) }
{
    match step {
        Step::Enters(number) => {
            let place = places[number - 1];
            opening_event_at(alloc, nodes, number, place)
        }
        Step::Leaves(number) => Ok(closing_event_at(nodes, number)),
        Step::MeetsAgain(number) => {
            let Ok(anchor) = numbered_name(alloc, places[number - 1]) else {
                return Err(AllocError);
            };
            Ok(Some(yaml_event_t::YAML_ALIAS_EVENT { anchor }))
        }
    }
}

/// Appends the step's event.
fn push_event<A: Allocator + Copy>(
    alloc: A,
    nodes: &mut [yaml_node_t<A>],
    places: &[usize],
    step: Step,
    events: &mut Vec<yaml_event_t<A>, A>,
) -> Result<(), AllocError>
    requires counted { length places.now ≡ length nodes.old }
    requires placed { StepIsPlaced places.now (seen_step step) }
    ensures event { IfOk result (λ _. (graph : Graph) (walk before : List meetings.Step) → HasPlaces walk places.now
        → HoldsTexts graph before (map seen_node nodes.old) → IsFirstEntry before (seen_step step)
        → seen_events events.new.items ≡ seen_events events.old.items ++ meetings.step_events graph walk (seen_step step)) }
    ensures held { (graph : Graph) (before : List meetings.Step) → HoldsTexts graph before (map seen_node nodes.old)
        → HoldsTexts graph (before ++ seen_step step ∷ []) (map seen_node nodes.new) }
{
    let Ok(found) = step_event(alloc, nodes, places, step) else {
        return Err(AllocError);
    };
    if let Some(event) = found {
        events.push(event)?;
    }
    Ok(())
}

/// Appends the events of a walk's steps.
fn push_events<A: Allocator + Copy>(
    alloc: A,
    nodes: &mut [yaml_node_t<A>],
    places: &[usize],
    walk: &[Step],
    events: &mut Vec<yaml_event_t<A>, A>,
) -> Result<(), AllocError>
    requires counted { length places.now ≡ length nodes.old }
    requires numbered { is_numbered (length nodes.old) (map seen_step walk.now) ≡ true }
    requires placed { HasPlaces (map seen_step walk.now) places.now }
    ensures { IfOk result (λ _. (graph : Graph) → map seen_step walk.now ≡ meetings.graph_steps graph → HoldsTexts graph [] (map seen_node nodes.old)
        → seen_events events.new.items
        ≡ seen_events events.old.items ++ flat_map (meetings.step_events graph (map seen_step walk.now)) (map seen_step walk.now)) }
{
    for step in walk {
        let Ok(()) = push_event(alloc, nodes, places, *step, events) else {
            return Err(AllocError);
        };
    }
    Ok(())
}

/// Appends the events of a walk over these nodes, whose texts are moved into them.
fn push_walk<A: Allocator + Copy>(
    alloc: A,
    nodes: &mut [yaml_node_t<A>],
    walk: &[Step],
    events: &mut Vec<yaml_event_t<A>, A>,
) -> Result<(), AllocError>
    requires { is_numbered (length nodes.old) (map seen_step walk.now) ≡ true }
    ensures { IfOk result (λ _. (graph : Graph) → map seen_step walk.now ≡ meetings.graph_steps graph → HoldsTexts graph [] (map seen_node nodes.old)
        → seen_events events.new.items
        ≡ seen_events events.old.items ++ flat_map (meetings.step_events graph (map seen_step walk.now)) (map seen_step walk.now)) }
{
    let Ok(places) = shared_ranks(alloc, walk, nodes.len()) else {
        return Err(AllocError);
    };
    push_events(alloc, nodes, places.as_slice(), walk, events)
}

/// Returns the events of a document with this outline and these nodes. The nodes are dropped, and their texts are moved into the
/// events.
pub(crate) fn events_of_walk<A: Allocator + Copy>(
    alloc: A,
    outline: Outline<A>,
    mut nodes: Vec<yaml_node_t<A>, A>,
) -> Result<Vec<yaml_event_t<A>, A>, AllocError>
    requires { is_numbered (length nodes.items) (map seen_step outline.walk.items) ≡ true }
    ensures { IfOk result (λ events. (graph : Graph) → IsOutline graph outline → HoldsTexts graph [] (map seen_node nodes.items)
        → seen_events events.items ≡ walk_events graph (meetings.graph_steps graph)) }
{
    let Outline {
        mut events,
        walk,
        end_implicit,
    } = outline;
    let Ok(()) = push_walk(alloc, nodes.as_mut_slice(), walk.as_slice(), &mut events) else {
        return Err(AllocError);
    };
    events.push(yaml_event_t::YAML_DOCUMENT_END_EVENT {
        implicit: end_implicit,
    })?;
    Ok(events)
}
