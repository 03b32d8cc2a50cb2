//! The ends of documents that a C program writes value by value.
ghost use Rattle.std.specs.Prelude.{◌≡◌, ◌∷◌, [], true};
ghost use Rattle.yaml_base.specs.Event.{document_end};
ghost use Rattle.yaml_base.specs.Seen.{seen_event};
ghost use Rattle.yaml_writer.specs.Writing.{closing};
ghost use Rattle.yaml_c.specs.Kept.{Changes, IsOpenEmitter};
ghost use Rattle.yaml_c.specs.Values.{GaveDocumentEnd, Tells, next_document as events_of_next};
ghost use Rattle.yaml_c.specs.declared.place.Spot.TheVariants as spots;

use crate::handle::EmitterHandle;
use crate::kept::Kept;
use crate::place::{Spot, is_done};
use crate::results::CallResult;
use crate::values::{ValueGiving, lasting_error, tell_value};
use std::alloc::Global;
use yaml_emitter::{
    YAML_DOCUMENT_END_EVENT, YAML_DOCUMENT_START_EVENT, YAML_STREAM_END_EVENT, yaml_emitter_emit,
    yaml_event_t,
};

/// Ends a document, and begins another. See the header.
#[unsafe(no_mangle)]
pub extern "C" fn yaml_c_emitter_next_document(
    alloc: Global,
    emitter: &mut EmitterHandle,
    report: &mut CallResult,
) -> i32
    requires is_open { IsOpenEmitter emitter.old.state }
    ensures { Changes (Tells (GaveDocumentEnd events_of_next spots.Root) result report.new) emitter.old.state emitter.new.state }
{
    let mut boxed = emitter.take(alloc);
    let status = next_document(alloc, &mut *boxed, report);
    boxed.promised();
    emitter.put(boxed);
    status
}

/// Ends a document and the stream. See the header.
#[unsafe(no_mangle)]
pub extern "C" fn yaml_c_emitter_finish(
    alloc: Global,
    emitter: &mut EmitterHandle,
    report: &mut CallResult,
) -> i32
    requires is_open { IsOpenEmitter emitter.old.state }
    ensures { Changes (Tells (GaveDocumentEnd closing spots.Nowhere) result report.new) emitter.old.state emitter.new.state }
{
    let mut boxed = emitter.take(alloc);
    let status = finish(&mut *boxed, report);
    boxed.promised();
    emitter.put(boxed);
    status
}

fn next_document(alloc: Global, kept: &mut Kept, report: &mut CallResult) -> i32
    requires output { kept.old.emitter.has_output ≡ true }
    ensures gave { Tells (GaveDocumentEnd events_of_next spots.Root) result report.new kept.old kept.new }
    ensures output { kept.new.emitter.has_output ≡ true }
{
    let start = YAML_DOCUMENT_START_EVENT {
        version_directive: None,
        tag_directives: Vec::new(alloc),
        implicit: true,
    };
    let giving = end_document(kept, start, Spot::Root);
    tell_value(giving, report)
}

fn finish(kept: &mut Kept, report: &mut CallResult) -> i32
    requires output { kept.old.emitter.has_output ≡ true }
    ensures gave { Tells (GaveDocumentEnd closing spots.Nowhere) result report.new kept.old kept.new }
    ensures output { kept.new.emitter.has_output ≡ true }
{
    let giving = end_document(kept, YAML_STREAM_END_EVENT, Spot::Nowhere);
    tell_value(giving, report)
}

/// Gives a kept emitter the end of a document whose root is there, and the event after it. The next value is at a spot of the caller's.
fn end_document(kept: &mut Kept, after: yaml_event_t<Global>, next: Spot) -> ValueGiving
    requires output { kept.old.emitter.has_output ≡ true }
    ensures gave { GaveDocumentEnd (document_end true ∷ seen_event after ∷ []) next result kept.old kept.new }
    ensures output { kept.new.emitter.has_output ≡ true }
{
    match lasting_error(&kept.emitter) {
        Some(error) => return ValueGiving::Answered(Err(error)),
        None => {}
    }
    if !is_done(kept.place.spot()) {
        return ValueGiving::Misplaced;
    }
    kept.place.go_to(next);
    let end = YAML_DOCUMENT_END_EVENT { implicit: true };
    // Its error is that of the next event.
    let _ = yaml_emitter_emit(&mut kept.emitter, end);
    ValueGiving::Answered(yaml_emitter_emit(&mut kept.emitter, after))
}
