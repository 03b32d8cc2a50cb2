//! Events given to an emitter.
ghost use Rattle.std.specs.Prelude.{◌≡◌, IfErr, OnOk, [], ◌∷◌, true, None, chars, is_none, option_map};
ghost use Rattle.std.specs.Option.{option_or};
ghost use Rattle.yaml_base.specs.Seen.{seen_event, seen_scalar_style, seen_text};
ghost use Rattle.yaml_emitter.specs.BorrowedTexts.{seen_name, seen_scalar};
ghost use Rattle.yaml_emitter.specs.Emits.{Emits};
ghost use Rattle.yaml_pen.specs.Page.{output_left};
ghost use Rattle.yaml_writer.specs.Unfinished.{IsUnfinishedBy};
ghost use Rattle.yaml_writer.specs.Writing.{FinishesBy, plain_start as document_begins};
ghost use Rattle.yaml_writer.specs.Writing as writing;

use crate::ends::{DocumentEnd, is_implicit};
use std::alloc::Allocator;
use yaml_base::{
    YAML_DOCUMENT_END_EVENT, YAML_DOCUMENT_START_EVENT, YAML_STREAM_END_EVENT, yaml_error_t,
    yaml_event_t, yaml_scalar_style_t,
};
use yaml_emitter::{ScalarContent, borrowed_text, yaml_emitter_emit, yaml_emitter_t};

/// Returns the start of a document without directives.
pub(crate) fn plain_start<A: Allocator>(alloc: A) -> yaml_event_t<A>
    ensures { seen_event result ≡ document_begins }
{
    YAML_DOCUMENT_START_EVENT {
        version_directive: None,
        tag_directives: Vec::new(alloc),
        implicit: true,
    }
}

/// Gives an event.
pub(crate) fn give<A: Allocator + Copy>(
    emitter: &mut yaml_emitter_t<A>,
    event: yaml_event_t<A>,
) -> Result<(), yaml_error_t>
    requires output { emitter.old.has_output ≡ true }
    ensures emits { Emits emitter.old (seen_event event ∷ []) result emitter.new }
    ensures output { emitter.new.has_output ≡ true }
{
    yaml_emitter_emit(emitter, event)
}

/// Returns a scalar, its texts borrowed: its anchor, a tag that was given or else its own, its value. If it has no tag, none
/// need be written.
pub(crate) fn scalar_content<'a, A: Allocator>(
    anchor: &'a Option<String<A>>,
    tag: &'a Option<String<A>>,
    own: Option<&'a str>,
    value: &'a str,
    style: yaml_scalar_style_t,
) -> ScalarContent<'a>
    ensures { seen_scalar result
        ≡ record {
          anchor = option_map seen_text anchor.now;
          tag = option_or (option_map seen_text tag.now) (seen_name own.entry);
          value = chars value.now;
          plain_implicit = is_none (option_or (option_map seen_text tag.now) (seen_name own.entry));
          quoted_implicit = is_none (option_or (option_map seen_text tag.now) (seen_name own.entry));
          style = seen_scalar_style style;
        } }
{
    let tag = match tag {
        Some(tag) => Some(tag.as_str()),
        None => own,
    };
    let implicit = tag.is_none();
    ScalarContent {
        anchor: borrowed_text(anchor),
        tag,
        value,
        plain_implicit: implicit,
        quoted_implicit: implicit,
        style,
    }
}

/// Uses up the anchor and the tag of a node that was given.
pub(crate) fn use_up<A: Allocator>(anchor: &mut Option<String<A>>, tag: &mut Option<String<A>>)
    ensures anchor { anchor.new ≡ None }
    ensures tag { tag.new ≡ None }
{
    let _anchor = anchor.take();
    let _tag = tag.take();
}

/// Ends the document and the stream. An error that was there before stays.
pub(crate) fn end_stream<A: Allocator + Copy>(
    emitter: &mut yaml_emitter_t<A>,
    end: DocumentEnd,
) -> Result<(), yaml_error_t>
    requires output { emitter.old.has_output ≡ true }
    ensures finishes { OnOk result (FinishesBy (writing.is_implicit end) emitter.old (output_left emitter.new.page)) }
    ensures unfinished { IfErr result (λ error. IsUnfinishedBy (writing.is_implicit end) emitter.old error) }
{
    let implicit = is_implicit(end);
    let _ = yaml_emitter_emit(emitter, YAML_DOCUMENT_END_EVENT { implicit });
    let ended = yaml_emitter_emit(emitter, YAML_STREAM_END_EVENT);
    emitter.promised();
    ended?;
    if emitter.held() > 0 {
        // The start of a mapping waits. One event more decides which is refused: that event, or the document's end after it.
        let answer = yaml_emitter_emit(emitter, YAML_STREAM_END_EVENT);
        emitter.promised();
        return answer;
    }
    Ok(())
}
