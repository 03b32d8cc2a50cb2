//! Records given to an emitter one by one.
ghost use Rattle.std.specs.Prelude.{◌≡◌, true, Some};
ghost use Rattle.yaml_c.specs.EventRecords as meaning;
ghost use Rattle.yaml_c.specs.Giving.{GaveRecord, given_event};

use crate::records::{DirectiveRecord, EventRecord, GivenEvent, event_of};
use std::alloc::Allocator;
use yaml_base::yaml_error_t;
use yaml_emitter::{yaml_emitter_emit, yaml_emitter_emit_scalar, yaml_emitter_t};

/// The outcome of giving a record to an emitter.
#[derive(Clone, Copy)]
pub(crate) enum Giving {
    /// The emitter took the event and returned this.
    Emitted(Result<(), yaml_error_t>),
    /// The record has no reading: nothing changed.
    Unreadable,
    /// An allocation failed before the emitter took the event: nothing changed.
    NoMemory,
}

/// Gives an emitter the event of a record.
pub(crate) fn give_record<A: Allocator + Copy>(
    alloc: A,
    emitter: &mut yaml_emitter_t<A>,
    arena: &[u8],
    directives: &[DirectiveRecord],
    event: &EventRecord,
) -> Giving
    requires output { emitter.old.has_output ≡ true }
    ensures gave { GaveRecord (meaning.event_recorded arena.now directives.now event.now) result emitter.old emitter.new }
    ensures output { emitter.new.has_output ≡ true }
{
    match event_of(alloc, arena, directives, event) {
        Ok(Some(event)) => give_event(emitter, event),
        Ok(None) => Giving::Unreadable,
        Err(_) => Giving::NoMemory,
    }
}

fn give_event<A: Allocator + Copy>(
    emitter: &mut yaml_emitter_t<A>,
    event: GivenEvent<'_, A>,
) -> Giving
    requires output { emitter.old.has_output ≡ true }
    ensures gave { GaveRecord (Some (given_event event.entry)) result emitter.old emitter.new }
    ensures output { emitter.new.has_output ≡ true }
{
    match event {
        GivenEvent::Owned(event) => Giving::Emitted(yaml_emitter_emit(emitter, event)),
        GivenEvent::Scalar(content) => {
            let answer = yaml_emitter_emit_scalar(emitter, &content);
            if emitter.has_taken(answer) {
                Giving::Emitted(answer)
            } else {
                Giving::NoMemory
            }
        }
    }
}
