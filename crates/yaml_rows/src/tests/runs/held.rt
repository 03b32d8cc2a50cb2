//! The number of events that wait after a call, by the rule for the head of the queue alone.
use std::alloc::Allocator;
use yaml_base::{
    YAML_ALIAS_EVENT, YAML_DOCUMENT_END_EVENT, YAML_DOCUMENT_START_EVENT, YAML_MAPPING_END_EVENT,
    YAML_MAPPING_START_EVENT, YAML_SCALAR_EVENT, YAML_SEQUENCE_END_EVENT,
    YAML_SEQUENCE_START_EVENT, YAML_STREAM_END_EVENT, YAML_STREAM_START_EVENT, yaml_event_t,
};

/// The kind of an event, as far as the rule asks for it.
#[derive(Clone, Copy)]
pub(super) enum Kind {
    StreamStart,
    DocumentStart,
    SequenceStart,
    MappingStart,
    /// The end of a collection.
    CollectionEnd,
    /// The end of a document or of the stream, which flushes.
    FlushingEnd,
    /// An alias or a scalar.
    Leaf,
}

pub(super) fn kind_of<A: Allocator>(event: &yaml_event_t<A>) -> Kind {
    match event {
        YAML_STREAM_START_EVENT { .. } => Kind::StreamStart,
        YAML_DOCUMENT_START_EVENT { .. } => Kind::DocumentStart,
        YAML_SEQUENCE_START_EVENT { .. } => Kind::SequenceStart,
        YAML_MAPPING_START_EVENT { .. } => Kind::MappingStart,
        YAML_SEQUENCE_END_EVENT | YAML_MAPPING_END_EVENT => Kind::CollectionEnd,
        YAML_STREAM_END_EVENT | YAML_DOCUMENT_END_EVENT { .. } => Kind::FlushingEnd,
        YAML_ALIAS_EVENT { .. } | YAML_SCALAR_EVENT { .. } => Kind::Leaf,
    }
}

/// Returns how many of the events given so far wait: those from the first one on that waits for later ones. The head of
/// more events than three is ready, so only the last three are looked at.
pub(super) fn held(given: &[Kind]) -> usize {
    for ready in given.len().saturating_sub(3)..given.len() {
        let queue = given.get(ready..).unwrap_or(&[]);
        // With more events in the queue than so many its head is ready.
        let most = match queue.first() {
            Some(Kind::DocumentStart) => 1,
            Some(Kind::SequenceStart) => 2,
            Some(Kind::MappingStart) => 3,
            _ => 0,
        };
        // So it is once some events at the queue's beginning have as many ends as starts.
        let mut waits = queue.len() <= most;
        let mut open: i32 = 0;
        for kind in queue {
            open = match kind {
                Kind::Leaf => open,
                Kind::CollectionEnd | Kind::FlushingEnd => open.saturating_sub(1),
                _ => open.saturating_add(1),
            };
            waits = waits && open != 0;
        }
        if waits {
            return queue.len();
        }
    }
    0
}
