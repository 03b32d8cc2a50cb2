//! One event: why it is refused, what it writes, and what may come next. One function for each place.

ghost use Rattle.std.specs.Prelude.{Bool, map, option_map, ◌≡◌, ℕ, false, IsSome, OnOk, unwrap_or};
ghost use Rattle.yaml_base.specs.Event.{stream_start, stream_end, document_start, document_end};
ghost use Rattle.yaml_base.specs.Layout.{document_end_piece, stream_end_piece};
ghost use Rattle.yaml_base.specs.Seen.{seen_break, seen_directive, seen_encoding, seen_event, seen_version};
ghost use Rattle.yaml_base.specs.Settings.{line_feed_break};
ghost use Rattle.yaml_pen.specs.Page.{IsReady, IsUntouched, encoded};
ghost use Rattle.yaml_pen.specs.Wrote.{Wrote};
ghost use Rattle.yaml_emitter.specs.NodeEvents.{is_scalar};
ghost use Rattle.yaml_emitter.specs.Processing.{Processed};
ghost use Rattle.yaml_emitter.specs.WrittenPieces.{piece_at, seen_open_ended};

use crate::directives::next_directives;
use crate::effective::EffectiveSettings;
use crate::machine::Machine;
use crate::nodes::{collection_content, is_flow_mapping, is_flow_sequence};
use crate::stage::Stage;
use crate::writing::{
    OpenEnded, ScalarContent, StartContent, borrowed_text, document_end_atoms,
    write_closing_marker, write_document_atoms, write_document_start,
};
use std::alloc::Allocator;
use std::mem;
use yaml_base::CollectionKind::{Mapping, Sequence};
use yaml_base::{
    YAML_ALIAS_EVENT, YAML_DOCUMENT_END_EVENT, YAML_DOCUMENT_START_EVENT, YAML_MAPPING_END_EVENT,
    YAML_MAPPING_START_EVENT, YAML_SCALAR_EVENT, YAML_SEQUENCE_END_EVENT,
    YAML_SEQUENCE_START_EVENT, YAML_STREAM_END_EVENT, YAML_STREAM_START_EVENT, yaml_break_t,
    yaml_encoding_t, yaml_error_t, yaml_event_t, yaml_tag_directive_t, yaml_version_directive_t,
};
use yaml_mark::Directives;
use yaml_pen::Pen;

impl<A: Allocator + Copy> Machine<A> {
    /// Processes one event. Checks its names before its place.
    #[inline(always)]
    pub(crate) fn process(
        &mut self,
        event: &yaml_event_t<A>,
        empty: bool,
    ) -> Result<(), yaml_error_t>
        ensures { Processed (seen_event event.now) empty self.old self.new result }
    {
        match event {
            YAML_SCALAR_EVENT {
                anchor,
                tag,
                value,
                plain_implicit,
                quoted_implicit,
                style,
            } => {
                let anchor = borrowed_text(anchor);
                let tag = borrowed_text(tag);
                let content = ScalarContent {
                    anchor,
                    tag,
                    value: value.as_str(),
                    plain_implicit: *plain_implicit,
                    quoted_implicit: *quoted_implicit,
                    style: *style,
                };
                self.scalar(&content)
            }
            _ => self.process_other(event, empty),
        }
    }

    /// Processes an event that is no scalar, in a function of its own, so that scalars save no registers for it.
    fn process_other(&mut self, event: &yaml_event_t<A>, empty: bool) -> Result<(), yaml_error_t>
        ensures { is_scalar (seen_event event.now) ≡ false → Processed (seen_event event.now) empty self.old self.new result }
    {
        match event {
            YAML_ALIAS_EVENT { anchor } => self.alias(anchor.as_str()),
            YAML_SEQUENCE_START_EVENT {
                anchor,
                tag,
                implicit,
                style,
            } => {
                let content = collection_content(anchor, tag, *implicit);
                self.start_collection(&content, Sequence, is_flow_sequence(*style), empty)
            }
            YAML_MAPPING_START_EVENT {
                anchor,
                tag,
                implicit,
                style,
            } => {
                let content = collection_content(anchor, tag, *implicit);
                self.start_collection(&content, Mapping, is_flow_mapping(*style), empty)
            }
            YAML_SEQUENCE_END_EVENT => self.end_collection(Sequence),
            YAML_MAPPING_END_EVENT => self.end_collection(Mapping),
            YAML_STREAM_START_EVENT { encoding } => self.start_stream(*encoding),
            YAML_DOCUMENT_START_EVENT {
                version_directive,
                tag_directives,
                implicit,
            } => self.start_document(*version_directive, tag_directives.as_slice(), *implicit),
            YAML_DOCUMENT_END_EVENT { implicit } => self.end_document(*implicit),
            YAML_STREAM_END_EVENT => self.end_stream(),
            _ => Err(self.stage.refusal()),
        }
    }

    /// Processes the stream's start, and settles the settings in effect.
    fn start_stream(&mut self, encoding: yaml_encoding_t) -> Result<(), yaml_error_t>
        ensures { (empty : Bool) → Processed (stream_start (seen_encoding encoding)) empty self.old self.new result }
    {
        match self.stage {
            Stage::Stream => {}
            stage => return Err(stage.refusal()),
        }
        self.settings = self.given.effective(encoding);
        begin_page(
            &mut self.pen,
            self.settings.encoding,
            self.settings.line_break,
        );
        self.stage = Stage::Document { first: true };
        Ok(())
    }

    /// Processes a document's start. Allocates its directives before anything is written.
    fn start_document(
        &mut self,
        version: Option<yaml_version_directive_t>,
        own: &[yaml_tag_directive_t<A>],
        implicit: bool,
    ) -> Result<(), yaml_error_t>
        ensures { (empty : Bool) → Processed
            (document_start (record { version = option_map seen_version version; directives = map seen_directive own.now; implicit = implicit }))
            empty self.old self.new result }
    {
        let first = match self.stage {
            Stage::Document { first } => first,
            stage => return Err(stage.refusal()),
        };
        let before = mem::replace(&mut self.directives, Directives::new(self.alloc));
        let directives = next_directives(self.alloc, before, version, own)?;
        let start = StartContent {
            version,
            directives: own,
            implicit,
        };
        write_document_start(
            &mut self.pen,
            &self.settings,
            first,
            &start,
            self.open_ended,
        )?;
        self.directives = directives;
        self.frames.clear();
        self.open_ended = OpenEnded::Closed;
        self.stage = Stage::Node;
        Ok(())
    }

    /// Processes a document's end, with `...` if it isn't implicit.
    fn end_document(&mut self, implicit: bool) -> Result<(), yaml_error_t>
        ensures { (empty : Bool) → Processed (document_end implicit) empty self.old self.new result }
    {
        match self.stage {
            Stage::DocumentEnd => {}
            stage => return Err(stage.refusal()),
        }
        flush_document_end(&mut self.pen, &self.settings, implicit)?;
        self.open_ended = self.open_ended.after_document(implicit);
        self.stage = Stage::Document { first: false };
        Ok(())
    }

    /// Processes the stream's end.
    fn end_stream(&mut self) -> Result<(), yaml_error_t>
        ensures { (empty : Bool) → Processed stream_end empty self.old self.new result }
    {
        match self.stage {
            Stage::Document { .. } => {}
            stage => return Err(stage.refusal()),
        }
        flush_stream_end(&mut self.pen, &self.settings, self.open_ended)?;
        self.stage = Stage::Nothing;
        Ok(())
    }
}

fn flush_document_end<A: Allocator>(
    pen: &mut Pen<A>,
    settings: &EffectiveSettings,
    implicit: bool,
) -> Result<(), yaml_error_t>
    requires { IsReady pen.old }
    ensures written { (open_ended : ℕ) → Wrote (piece_at (document_end_piece implicit) open_ended) pen.old pen.new result }
    ensures flushed_whole { OnOk result (pen.new.output ≡ encoded pen.new) }
{
    write_document_atoms(pen, settings, document_end_atoms(implicit))?;
    pen.flush()
}

fn flush_stream_end<A: Allocator>(
    pen: &mut Pen<A>,
    settings: &EffectiveSettings,
    open_ended: OpenEnded,
) -> Result<(), yaml_error_t>
    requires { IsReady pen.old }
    ensures written { Wrote (piece_at stream_end_piece (seen_open_ended open_ended)) pen.old pen.new result }
    ensures flushed_whole { OnOk result (pen.new.output ≡ encoded pen.new) }
{
    // The last document may still be open.
    write_closing_marker(pen, settings, open_ended.keeps_breaks())?;
    pen.flush()
}

/// Begins a page, with the byte order mark if its encoding has one.
fn begin_page<A: Allocator>(pen: &mut Pen<A>, encoding: yaml_encoding_t, line_break: yaml_break_t)
    requires untouched { IsUntouched pen.old }
    requires encoding { IsSome (seen_encoding encoding) }
    requires line_break { IsSome (seen_break line_break) }
    ensures { pen.new
        ≡ record pen.old {
          encoding = seen_encoding encoding;
          line_break = unwrap_or (seen_break line_break) line_feed_break;
          bom_due = false;
        } }
{
    pen.begin(encoding, line_break);
    if pen.is_bom_due() {
        let _ = pen.write_bom();
    }
}
