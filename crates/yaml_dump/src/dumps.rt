//! Dumps documents: emits their events.

ghost use Rattle.std.specs.Prelude.{◌≡◌, ◌==◌, true, false, None, length, map, IfOk, IfErr, OnOk, IsSome};
ghost use Rattle.yaml_base.specs.graphs.Documents.{graph_of};
ghost use Rattle.yaml_base.specs.graphs.Meetings.{document_event_list};
ghost use Rattle.yaml_base.specs.Seen.{seen_event};
ghost use Rattle.yaml_base.specs.graphs.Unfolding.{EventsUnfold};
ghost use Rattle.yaml_pen.specs.Page.{result_of_error};
ghost use Rattle.yaml_dump.specs.Dumps.{Dumps, OpensFrom};
ghost use Rattle.yaml_dump.specs.EventForms.{DumpsInForm};
ghost use Rattle.yaml_dump.specs.TypedDumps.{DumpsTyped};

use crate::copies::copied_nodes;
use crate::emitting::{EventForm, emit_in_form};
use crate::events::events_of_walk;
use crate::outlines::outline_of;
use crate::streams::{yaml_emitter_close, yaml_emitter_open};
use std::alloc::{AllocError, Allocator};
use yaml_base::{yaml_document_t, yaml_error_t, yaml_event_t};
use yaml_emitter::yaml_emitter_t;

/// Returns the events of a document, from its start to its end; none if it has no nodes.
///
/// Each node that is reached from node 1 is written where the walk first meets it, and is an alias elsewhere. Nodes that the walk
/// meets more than once have anchors, numbered in the order of their second meetings (`id001`). The events of a document with
/// nodes are those of a tree that unfolds its graph.
///
/// # Errors
///
/// `Memory` if an allocation fails.
pub fn document_events<A: Allocator + Copy>(
    alloc: A,
    document: &yaml_document_t<A>,
) -> Result<Vec<yaml_event_t<A>, A>, yaml_error_t>
    ensures events { IfOk result (λ events. map seen_event events.items ≡ document_event_list (graph_of document.now)) }
    ensures unfolds { (length (graph_of document.now).nodes == 0) ≡ false
        → IfOk result (λ events. EventsUnfold (graph_of document.now) (map seen_event events.items)) }
    ensures memory { IfErr result (λ error. error ≡ yaml_error_t.Memory) }
{
    if document.is_empty() {
        return Ok(Vec::new(alloc));
    }
    match events_of_copies(alloc, document) {
        Ok(events) => Ok(events),
        Err(_) => Err(yaml_error_t::Memory),
    }
}

/// Returns the events of a document that has nodes, with copies of its texts.
fn events_of_copies<A: Allocator + Copy>(
    alloc: A,
    document: &yaml_document_t<A>,
) -> Result<Vec<yaml_event_t<A>, A>, AllocError>
    requires nonempty { (length (graph_of document.now).nodes == 0) ≡ false }
    ensures events { IfOk result (λ events. map seen_event events.items ≡ document_event_list (graph_of document.now)) }
    ensures unfolds { IfOk result (λ events. EventsUnfold (graph_of document.now) (map seen_event events.items)) }
{
    // A law: the numbers that nodes hold are numbers of nodes.
    document.numbers_name_nodes();
    let Ok(outline) = outline_of(alloc, document) else {
        return Err(AllocError);
    };
    let Ok(copies) = copied_nodes(alloc, document) else {
        return Err(AllocError);
    };
    events_of_walk(alloc, outline, copies)
}

/// Returns the events of a document, into which its texts are moved; none if it has no nodes.
fn moved_events<A: Allocator + Copy>(
    alloc: A,
    document: yaml_document_t<A>,
) -> Result<Vec<yaml_event_t<A>, A>, AllocError>
    ensures { IfOk result (λ events. map seen_event events.items ≡ document_event_list (graph_of document)) }
{
    if document.is_empty() {
        return Ok(Vec::new(alloc));
    }
    let Ok(outline) = outline_of(alloc, &document) else {
        return Err(AllocError);
    };
    let nodes = document.into_nodes();
    events_of_walk(alloc, outline, nodes)
}

/// Opens the stream if it isn't opened.
fn open_if_needed<A: Allocator + Copy>(emitter: &mut yaml_emitter_t<A>) -> Result<(), yaml_error_t>
    requires { emitter.old.has_output ≡ true }
    ensures { OpensFrom emitter.old.opened emitter.old result emitter.new }
{
    if emitter.is_opened() {
        return Ok(());
    }
    yaml_emitter_open(emitter)
}

/// Emits a document's events, after opening the stream if it isn't opened. A document without nodes closes the stream; the
/// dumped documents then read back as `yaml_emitter_close` says. The document is taken in each case. An output must be set.
///
/// # Errors
///
/// The first error, of this call or an earlier one. If the list of events can't be allocated, `Memory` is returned and the emitter
/// doesn't change. After an error the stream is opened if it was before, or if its start was emitted, and closed only if it was
/// before. In each case the emitter doesn't change, or its stream is started.
pub fn yaml_emitter_dump<A: Allocator + Copy>(
    alloc: A,
    emitter: &mut yaml_emitter_t<A>,
    document: yaml_document_t<A>,
) -> Result<(), yaml_error_t>
    requires { emitter.old.has_output ≡ true }
    ensures failed { IsSome emitter.old.error → (emitter.new ≡ emitter.old) × (result ≡ result_of_error emitter.old.error) }
    ensures dumps { emitter.old.error ≡ None → Dumps (graph_of document) emitter.old result emitter.new }
    ensures opened { OnOk result (emitter.new.opened ≡ true) }
    ensures output { emitter.new.has_output ≡ true }
{
    dump_in_form(alloc, emitter, document, &EventForm::Same)
}

/// Emits a document's events as `yaml_emitter_dump` does, with the flags that keep each scalar's tag (`typed_event`). The document
/// then reads back with the tag of each node, whether the type repository of YAML 1.1 or the core schema of YAML 1.2 gives tags to
/// scalars that are written without one (`typed_dumps_read_back`; except for two kinds of streams if portable mode is off). So a
/// string `no` is quoted, and an integer `3` is plain. An output must be set.
///
/// # Errors
///
/// Those of `yaml_emitter_dump`, in the same cases.
pub fn yaml_emitter_dump_typed<A: Allocator + Copy>(
    alloc: A,
    emitter: &mut yaml_emitter_t<A>,
    document: yaml_document_t<A>,
) -> Result<(), yaml_error_t>
    requires { emitter.old.has_output ≡ true }
    ensures failed { IsSome emitter.old.error → (emitter.new ≡ emitter.old) × (result ≡ result_of_error emitter.old.error) }
    ensures dumps { emitter.old.error ≡ None → DumpsTyped (graph_of document) emitter.old result emitter.new }
    ensures opened { OnOk result (emitter.new.opened ≡ true) }
    ensures output { emitter.new.has_output ≡ true }
{
    dump_in_form(alloc, emitter, document, &EventForm::Typed)
}

/// Emits a document's events, each in this form, after opening the stream if it isn't opened. A document without nodes closes
/// the stream.
fn dump_in_form<A: Allocator + Copy>(
    alloc: A,
    emitter: &mut yaml_emitter_t<A>,
    document: yaml_document_t<A>,
    form: &EventForm,
) -> Result<(), yaml_error_t>
    requires { emitter.old.has_output ≡ true }
    ensures { DumpsInForm form.now (graph_of document) emitter.old result emitter.new }
{
    if let Some(error) = emitter.error() {
        return Err(error);
    }
    let is_empty = document.is_empty();
    let Ok(events) = moved_events(alloc, document) else {
        return Err(yaml_error_t::Memory);
    };
    // A law: the consequences of the events that were given before.
    emitter.promised();
    if let Err(error) = open_if_needed(emitter) {
        return Err(error);
    }
    if is_empty {
        // The same law, with the stream's start.
        emitter.promised();
        return yaml_emitter_close(emitter);
    }
    emit_in_form(emitter, events, form)
}
