//! Collections of a writer.
ghost use Rattle.std.specs.Prelude.{◌≡◌, IfErr, OnOk, true, false, length};
ghost use Rattle.yaml_base.specs.Seen.{seen_mapping_style, seen_sequence_style};
ghost use Rattle.yaml_writer.specs.Writing.{Begins, EndsInnermost, GaveEvent, NodeExpected, awaits_node, mapping_event, sequence_event};
ghost use Rattle.yaml_writer.specs.Writing.{collection_start_event, with_collection};
ghost use Rattle.yaml_base.specs.declared.kinds.CollectionKind.TheVariants.{Mapping, Sequence};

use crate::giving::give;
use crate::writer::Writer;
use std::alloc::Allocator;
use yaml_base::{
    YAML_MAPPING_END_EVENT, YAML_MAPPING_START_EVENT, YAML_SEQUENCE_END_EVENT,
    YAML_SEQUENCE_START_EVENT, yaml_error_t, yaml_mapping_style_t, yaml_sequence_style_t,
};
use yaml_emitter::CollectionKind;

/// The kind and the style of a collection that starts.
#[derive(Clone, Copy)]
pub(crate) enum CollectionStart {
    Mapping(yaml_mapping_style_t),
    Sequence(yaml_sequence_style_t),
}

impl<A: Allocator + Copy> Writer<A> {
    /// Begins a mapping: keys and values follow in turn, and then `end`.
    ///
    /// # Errors
    /// Those of the emitter, and `Memory`.
    pub fn begin_mapping(&mut self, style: yaml_mapping_style_t) -> Result<(), yaml_error_t>
        ensures { Begins Mapping self.old (mapping_event self.old (seen_mapping_style style)) result self.new }
    {
        match self.enter(CollectionKind::Mapping) {
            Ok(()) => self.start(CollectionStart::Mapping(style)),
            Err(error) => Err(error),
        }
    }

    /// Begins a sequence: items follow, and then `end`.
    ///
    /// # Errors
    /// Those of the emitter, and `Memory`.
    pub fn begin_sequence(&mut self, style: yaml_sequence_style_t) -> Result<(), yaml_error_t>
        ensures { Begins Sequence self.old (sequence_event self.old (seen_sequence_style style)) result self.new }
    {
        match self.enter(CollectionKind::Sequence) {
            Ok(()) => self.start(CollectionStart::Sequence(style)),
            Err(error) => Err(error),
        }
    }

    /// Returns how many collections are open.
    pub fn depth(&self) -> usize
        ensures { result ≡ length self.now.levels }
    {
        self.levels.len()
    }

    /// Ends the innermost collection that is open.
    ///
    /// # Errors
    /// `ExpectedNode` if an anchor or a tag awaits its node, and else `ExpectedDocumentEnd` if no collection is open; nothing
    /// changes then. `ExpectedNode` if a key of a mapping has no value, and the other errors of the emitter.
    pub fn end(&mut self) -> Result<(), yaml_error_t>
        ensures awaited { awaits_node self.old ≡ true → NodeExpected self.old result self.new }
        ensures ended { awaits_node self.old ≡ false → EndsInnermost self.old result self.new }
    {
        if self.awaits_node() {
            return Err(yaml_error_t::ExpectedNode);
        }
        match self.levels.pop() {
            None => Err(yaml_error_t::ExpectedDocumentEnd),
            Some(CollectionKind::Mapping) => give(&mut self.emitter, YAML_MAPPING_END_EVENT),
            Some(CollectionKind::Sequence) => give(&mut self.emitter, YAML_SEQUENCE_END_EVENT),
        }
    }

    /// Enters one more collection.
    fn enter(&mut self, kind: CollectionKind) -> Result<(), yaml_error_t>
        ensures with_collection { OnOk result (self.new ≡ with_collection self.old kind) }
        ensures full { IfErr result (λ error. (error ≡ yaml_error_t.Memory) × (self.new ≡ self.old)) }
    {
        match self.levels.push(kind) {
            Ok(()) => Ok(()),
            Err(_) => Err(yaml_error_t::Memory),
        }
    }

    /// Gives the start of a collection to the emitter, with the properties of the next node. If it has no tag, none need be
    /// written.
    fn start(&mut self, start: CollectionStart) -> Result<(), yaml_error_t>
        ensures { GaveEvent self.old (collection_start_event self.old start) result self.new }
    {
        let anchor = self.anchor.take();
        let tag = self.tag.take();
        let implicit = tag.is_none();
        let event = match start {
            CollectionStart::Mapping(style) => YAML_MAPPING_START_EVENT {
                anchor,
                tag,
                implicit,
                style,
            },
            CollectionStart::Sequence(style) => YAML_SEQUENCE_START_EVENT {
                anchor,
                tag,
                implicit,
                style,
            },
        };
        give(&mut self.emitter, event)
    }
}
