//! The kinds of events.

ghost use Rattle.std.specs.Prelude.{◌≡◌};
ghost use Rattle.yaml_base.specs.Event.{Event};
ghost use Rattle.yaml_base.specs.Ready.{is_end};
ghost use Rattle.yaml_base.specs.Seen.{seen_event};
ghost use Rattle.yaml_emitter.specs.EventKinds.{kind_of};

use std::alloc::Allocator;
use yaml_base::yaml_event_t;
use yaml_base::yaml_event_t::{
    YAML_ALIAS_EVENT, YAML_DOCUMENT_END_EVENT, YAML_DOCUMENT_START_EVENT, YAML_MAPPING_END_EVENT,
    YAML_MAPPING_START_EVENT, YAML_SCALAR_EVENT, YAML_SEQUENCE_END_EVENT,
    YAML_SEQUENCE_START_EVENT, YAML_STREAM_END_EVENT, YAML_STREAM_START_EVENT,
};

/// The kind of an event: all that those which wait need to know of the next one.
#[derive(Clone, Copy)]
pub(crate) enum EventKind {
    StreamStart,
    StreamEnd,
    DocumentStart,
    DocumentEnd,
    Alias,
    Scalar,
    SequenceStart,
    SequenceEnd,
    MappingStart,
    MappingEnd,
}

impl EventKind {
    /// Returns the kind of an event.
    pub(crate) fn of<A: Allocator>(event: &yaml_event_t<A>) -> EventKind
        ensures { result ≡ kind_of (seen_event event.now) }
    {
        match event {
            YAML_STREAM_START_EVENT { .. } => EventKind::StreamStart,
            YAML_STREAM_END_EVENT => EventKind::StreamEnd,
            YAML_DOCUMENT_START_EVENT { .. } => EventKind::DocumentStart,
            YAML_DOCUMENT_END_EVENT { .. } => EventKind::DocumentEnd,
            YAML_ALIAS_EVENT { .. } => EventKind::Alias,
            YAML_SCALAR_EVENT { .. } => EventKind::Scalar,
            YAML_SEQUENCE_START_EVENT { .. } => EventKind::SequenceStart,
            YAML_SEQUENCE_END_EVENT => EventKind::SequenceEnd,
            YAML_MAPPING_START_EVENT { .. } => EventKind::MappingStart,
            YAML_MAPPING_END_EVENT => EventKind::MappingEnd,
        }
    }

    /// Returns whether an event of this kind ends a stream, a document or a collection.
    pub(crate) fn is_end(self) -> bool
        ensures { (event : Event) → kind_of event ≡ self → result ≡ is_end event }
    {
        matches!(
            self,
            EventKind::StreamEnd
                | EventKind::DocumentEnd
                | EventKind::SequenceEnd
                | EventKind::MappingEnd
        )
    }
}
