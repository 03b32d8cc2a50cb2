//! Decides which events can be written. The head of the queue waits for the events that decide its form.

ghost use Rattle.std.specs.Prelude.{◌≡◌, ◌<◌, ◌≤◌, ◌==◌, ◌&&◌, ◌+◌, ◌^◌, ◌∷◌, ◌++◌, [], true, drop, length, vec_len, vec_capacity};
ghost use Rattle.std.specs.List.{list_any};
ghost use Rattle.yaml_base.specs.Event.{Event};
ghost use Rattle.yaml_base.specs.Ready.{is_start, awaited, is_balanced, nonempty_prefixes};
ghost use Rattle.yaml_base.specs.Seen.{seen_event, seen_events};
ghost use Rattle.yaml_emitter.specs.Processing as processing;
ghost use Rattle.yaml_emitter.specs.EventKinds.{kind_of};
ghost use Rattle.yaml_emitter.specs.Queue.{are_ready_by_one_more, is_head_ready, open_behind};

use crate::engine::WaitingEvents;
use crate::kinds::EventKind;
use std::alloc::Allocator;
use yaml_base::yaml_event_t;
use yaml_base::yaml_event_t::{
    YAML_DOCUMENT_START_EVENT, YAML_MAPPING_START_EVENT, YAML_SEQUENCE_START_EVENT,
    YAML_STREAM_START_EVENT,
};

/// Returns the number of events that must follow this one, unless one of them closes it sooner.
pub(crate) fn followers<A: Allocator>(event: &yaml_event_t<A>) -> usize
    ensures { result ≡ awaited (seen_event event.now) }
{
    match event {
        YAML_DOCUMENT_START_EVENT { .. } => 1,
        YAML_SEQUENCE_START_EVENT { .. } => 2,
        YAML_MAPPING_START_EVENT { .. } => 3,
        _ => 0,
    }
}

/// Returns the number of collections, documents and streams that are open within another one after an event, if `before` are
/// open before the event. `None` if the event ends the other one.
fn open_behind<A: Allocator>(before: usize, event: &yaml_event_t<A>) -> Option<usize>
    requires { before + 1 < 2 ^ 64 }
    ensures { result ≡ open_behind before (seen_event event.now) }
{
    match event {
        YAML_STREAM_START_EVENT { .. }
        | YAML_DOCUMENT_START_EVENT { .. }
        | YAML_SEQUENCE_START_EVENT { .. }
        | YAML_MAPPING_START_EVENT { .. } => Some(before + 1),
        _ if EventKind::of(event).is_end() => before.checked_sub(1),
        _ => Some(before),
    }
}

/// Returns whether `rest` and then an event of this kind end the collection or document that the event before them starts.
fn closes<A: Allocator>(rest: &[yaml_event_t<A>], next: EventKind) -> bool
    ensures { (first last : Event) → is_start first ≡ true → kind_of last ≡ next
        → result ≡ list_any is_balanced (nonempty_prefixes (first ∷ (seen_events rest.now ++ last ∷ []))) }
{
    let mut depth = 0usize;
    for event in rest {
        match open_behind(depth, event) {
            Some(more) => depth = more,
            None => return true,
        }
    }
    next.is_end() && depth == 0
}

/// Returns whether a waiting event can be written if `rest` and then an event of this kind follow it.
pub(crate) fn is_ready<A: Allocator>(
    event: &yaml_event_t<A>,
    rest: &[yaml_event_t<A>],
    next: EventKind,
) -> bool
    ensures { (last : Event) → kind_of last ≡ next
        → result ≡ is_head_ready (seen_event event.now ∷ (seen_events rest.now ++ last ∷ [])) }
{
    followers(event).saturating_sub(1) <= rest.len() || closes(rest, next)
}

/// Returns whether one more event makes every queued one ready.
pub(crate) fn are_ready_by_one_more<A: Allocator>(waiting: &[yaml_event_t<A>]) -> bool
    ensures { result ≡ are_ready_by_one_more (seen_events waiting.now) }
{
    let mut left = waiting.len();
    for event in waiting {
        if followers(event) > left {
            return false;
        }
        left -= 1;
    }
    true
}

/// Returns whether an event starts a collection that the event after it ends: the first of `rest`, or else one of this kind.
pub(crate) fn closes_at_once<A: Allocator>(
    event: &yaml_event_t<A>,
    rest: &[yaml_event_t<A>],
    next: EventKind,
) -> bool
    ensures { (last : Event) → kind_of last ≡ next
        → result ≡ processing.closes_at_once (seen_event event.now) (seen_events rest.now ++ last ∷ []) }
{
    let second = match rest.first() {
        Some(second) => EventKind::of(second),
        None => next,
    };
    is_end_of(second, event)
}

/// Returns whether an event of this kind is the end of a collection that starts with the other one.
fn is_end_of<A: Allocator>(end: EventKind, start: &yaml_event_t<A>) -> bool
    ensures { (last : Event) → kind_of last ≡ end → result ≡ processing.closes_at_once (seen_event start.now) (last ∷ []) }
{
    match start {
        YAML_SEQUENCE_START_EVENT { .. } => matches!(end, EventKind::SequenceEnd),
        YAML_MAPPING_START_EVENT { .. } => matches!(end, EventKind::MappingEnd),
        _ => false,
    }
}

/// Returns the first of the waiting events, and those after it.
pub(crate) fn first_and_rest<A: Allocator>(
    waiting: &[yaml_event_t<A>],
) -> (&yaml_event_t<A>, &[yaml_event_t<A>])
    requires { 0 < length waiting.now }
    ensures { seen_events waiting.now ≡ seen_event result.0.now ∷ seen_events result.1.now }
{
    (&waiting[0], &waiting[1..])
}

/// Drops the first `count` events of a queue. Its capacity stays.
pub(crate) fn drop_first<A: Allocator>(queue: &mut WaitingEvents<A>, count: usize)
    requires { count ≤ vec_len queue.old }
    ensures rest { seen_events queue.new.items ≡ drop count (seen_events queue.old.items) }
    ensures room { vec_capacity queue.new ≡ vec_capacity queue.old }
{
    let mut left = count;
    'events: while left > 0 {
        drop(queue.remove(0));
        left -= 1;
    }
}
