//! Properties of nodes, aliases, and further documents of a writer.
ghost use Rattle.std.specs.Prelude.{◌≡◌, ◌⊎◌, IfErr, OnOk, Err, Some, [], ◌∷◌, true, false, chars};
ghost use Rattle.yaml_base.specs.Event as event;
ghost use Rattle.yaml_writer.specs.Writing as writing;
ghost use Rattle.yaml_writer.specs.Writing.{NodeExpected, PassedEvents, awaits_node};

use crate::ends::{DocumentEnd, is_implicit};
use crate::giving::{give, plain_start};
use crate::writer::Writer;
use std::alloc::Allocator;
use yaml_base::{YAML_ALIAS_EVENT, YAML_DOCUMENT_END_EVENT, yaml_error_t};
use yaml_emitter::copied_text;

impl<A: Allocator + Copy> Writer<A> {
    /// Names the next node, so that aliases can repeat it.
    ///
    /// # Errors
    /// `Memory`; nothing changes then. A name that can't be written is refused with its node.
    pub fn anchored(&mut self, name: &str) -> Result<(), yaml_error_t>
        ensures named { OnOk result (self.new ≡ record self.old { anchor = Some (chars name.now) }) }
        ensures memory { IfErr result (λ error. (error ≡ yaml_error_t.Memory) × (self.new ≡ self.old)) }
    {
        match copied_text(self.alloc, name) {
            Ok(anchor) => {
                self.anchor = Some(anchor);
                Ok(())
            }
            Err(error) => Err(error),
        }
    }

    /// Gives the next node a tag, which is written.
    ///
    /// # Errors
    /// `Memory`; nothing changes then. A tag that can't be written is refused with its node.
    pub fn tagged(&mut self, tag: &str) -> Result<(), yaml_error_t>
        ensures tagged { OnOk result (self.new ≡ record self.old { tag = Some (chars tag.now) }) }
        ensures memory { IfErr result (λ error. (error ≡ yaml_error_t.Memory) × (self.new ≡ self.old)) }
    {
        match copied_text(self.alloc, tag) {
            Ok(tag) => {
                self.tag = Some(tag);
                Ok(())
            }
            Err(error) => Err(error),
        }
    }

    /// Writes an alias, which repeats the node of this name.
    ///
    /// # Errors
    /// `ExpectedNode` if an anchor or a tag awaits its node, since an alias has neither; nothing changes then. Those of the
    /// emitter, and `Memory`.
    pub fn alias(&mut self, name: &str) -> Result<(), yaml_error_t>
        ensures awaited { awaits_node self.old ≡ true → NodeExpected self.old result self.new }
        ensures passed { awaits_node self.old ≡ false
            → ((result ≡ Err yaml_error_t.Memory) × (self.new ≡ self.old)) ⊎ PassedEvents self.old (event.alias (chars name.now) ∷ []) result self.new }
    {
        if self.awaits_node() {
            return Err(yaml_error_t::ExpectedNode);
        }
        match copied_text(self.alloc, name) {
            Ok(anchor) => give(&mut self.emitter, YAML_ALIAS_EVENT { anchor }),
            Err(error) => Err(error),
        }
    }

    /// Ends the document, and begins another.
    ///
    /// # Errors
    /// `ExpectedNode` if an anchor or a tag awaits its node; nothing changes then. `ExpectedNode` if the document has no root or a
    /// collection is open, and the other errors of the emitter.
    pub fn next_document(&mut self) -> Result<(), yaml_error_t>
        ensures awaited { awaits_node self.old ≡ true → NodeExpected self.old result self.new }
        ensures passed { awaits_node self.old ≡ false → PassedEvents self.old (event.document_end true ∷ writing.plain_start ∷ []) result self.new }
    {
        self.next_document_after(DocumentEnd::Implicit)
    }

    /// Ends the document, by `...` if asked, and begins another.
    ///
    /// # Errors
    /// Those of `next_document`.
    pub fn next_document_after(&mut self, end: DocumentEnd) -> Result<(), yaml_error_t>
        ensures awaited { awaits_node self.old ≡ true → NodeExpected self.old result self.new }
        ensures passed { awaits_node self.old ≡ false
            → PassedEvents self.old (event.document_end (writing.is_implicit end) ∷ writing.plain_start ∷ []) result self.new }
    {
        if self.awaits_node() {
            return Err(yaml_error_t::ExpectedNode);
        }
        let implicit = is_implicit(end);
        // Its error is that of the next event.
        let _ = give(&mut self.emitter, YAML_DOCUMENT_END_EVENT { implicit });
        give(&mut self.emitter, plain_start(self.alloc))
    }
}
