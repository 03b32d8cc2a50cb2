//! Emits events one after another, as they are or as `typed_event` makes them.

ghost use Rattle.std.specs.Prelude.{◌≡◌, true, None, map};
ghost use Rattle.yaml_base.specs.Seen.{seen_event};
ghost use Rattle.yaml_dump.specs.Dumps.{EmitsEach};
ghost use Rattle.yaml_dump.specs.EventForms.{event_in_form};
ghost use Rattle.yaml_writer.specs.TypedEvents as typed;

use std::alloc::Allocator;
use yaml_base::{yaml_error_t, yaml_event_t};
use yaml_emitter::{yaml_emitter_emit, yaml_emitter_t};
use yaml_writer::typed_event;

/// The form in which events are given to an emitter.
pub(crate) enum EventForm {
    /// As they are.
    Same,
    /// As `typed_event` makes them.
    Typed,
}

impl EventForm {
    /// Returns the event in this form.
    fn event<A: Allocator>(&self, event: yaml_event_t<A>) -> yaml_event_t<A>
        ensures { seen_event result ≡ event_in_form self.now (seen_event event) }
    {
        match self {
            EventForm::Same => event,
            EventForm::Typed => typed_event(event),
        }
    }
}

/// Emits events in order, up to the first call that returns an error. An output must be set, and the emitter has no error.
///
/// # Errors
///
/// The error of that call; no event after it is given to the emitter.
pub fn emit_each<A: Allocator + Copy>(
    emitter: &mut yaml_emitter_t<A>,
    events: Vec<yaml_event_t<A>, A>,
) -> Result<(), yaml_error_t>
    requires output { emitter.old.has_output ≡ true }
    requires no_error { emitter.old.error ≡ None }
    ensures emits { EmitsEach emitter.old (map seen_event events.items) result emitter.new }
    ensures output { emitter.new.has_output ≡ true }
{
    emit_in_form(emitter, events, &EventForm::Same)
}

/// Emits events in order as `emit_each` does, each as `typed_event` makes it.
///
/// # Errors
///
/// The error of the first call that returns one; no event after it is given to the emitter.
pub fn emit_each_typed<A: Allocator + Copy>(
    emitter: &mut yaml_emitter_t<A>,
    events: Vec<yaml_event_t<A>, A>,
) -> Result<(), yaml_error_t>
    requires output { emitter.old.has_output ≡ true }
    requires no_error { emitter.old.error ≡ None }
    ensures emits { EmitsEach emitter.old (map typed.typed_event (map seen_event events.items)) result emitter.new }
    ensures output { emitter.new.has_output ≡ true }
{
    emit_in_form(emitter, events, &EventForm::Typed)
}

/// Emits events in order, each in this form, up to the first call that returns an error; that error is returned.
pub(crate) fn emit_in_form<A: Allocator + Copy>(
    emitter: &mut yaml_emitter_t<A>,
    events: Vec<yaml_event_t<A>, A>,
    form: &EventForm,
) -> Result<(), yaml_error_t>
    requires output { emitter.old.has_output ≡ true }
    requires no_error { emitter.old.error ≡ None }
    ensures emits { EmitsEach emitter.old (map (event_in_form form.now) (map seen_event events.items)) result emitter.new }
    ensures output { emitter.new.has_output ≡ true }
{
    for event in events {
        // A law: the consequences of the events before this one.
        emitter.promised();
        if let Err(error) = yaml_emitter_emit(emitter, form.event(event)) {
            return Err(error);
        }
    }
    Ok(())
}
