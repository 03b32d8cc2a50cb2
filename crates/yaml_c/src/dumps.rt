//! Documents' roots given to an emitter that a C program keeps, as arrays of nodes.
ghost use Rattle.std.specs.Prelude.{◌≡◌, None, Some, map, true};
ghost use Rattle.yaml_base.specs.Seen.{seen_event};
ghost use Rattle.yaml_writer.specs.TypedEvents.{typed_event};
ghost use Rattle.yaml_c.specs.Dumps.{GaveDump};
ghost use Rattle.yaml_c.specs.Kept.{Changes, IsOpenEmitter, lasting_error as error_that_lasts};
ghost use Rattle.yaml_c.specs.NodeRecords.{root_recorded};
ghost use Rattle.yaml_c.specs.Places as places;
ghost use Rattle.yaml_c.specs.Values.{Tells};

use crate::handle::EmitterHandle;
use crate::kept::Kept;
use crate::nodes::{NodeRecord, events_of};
use crate::place::{Spot, is_root};
use crate::results::CallResult;
use crate::values::{ValueGiving, lasting_error, open, tell_value};
use std::alloc::Global;
use yaml_dump::emit_each_typed;
use yaml_emitter::yaml_event_t;

/// Writes a document's root of nodes, which keep their tags. See the header.
#[unsafe(no_mangle)]
pub extern "C" fn yaml_c_emitter_dump(
    alloc: Global,
    emitter: &mut EmitterHandle,
    nodes: &[NodeRecord],
    numbers: &[i32],
    texts: &[u8],
    report: &mut CallResult,
) -> i32
    requires is_open { IsOpenEmitter emitter.old.state }
    ensures { Changes (Tells (GaveDump (root_recorded texts.now numbers.now nodes.now)) result report.new) emitter.old.state emitter.new.state }
{
    let mut boxed = emitter.take(alloc);
    let giving = give_dump(alloc, &mut *boxed, texts, numbers, nodes);
    boxed.promised();
    emitter.put(boxed);
    tell_value(giving, report)
}

/// Gives a kept emitter the root of a document of nodes, if they have a reading.
fn give_dump(
    alloc: Global,
    kept: &mut Kept,
    arena: &[u8],
    numbers: &[i32],
    nodes: &[NodeRecord],
) -> ValueGiving
    requires output { kept.old.emitter.has_output ≡ true }
    ensures gave { GaveDump (root_recorded arena.now numbers.now nodes.now) result kept.old kept.new }
    ensures output { kept.new.emitter.has_output ≡ true }
{
    match lasting_error(&kept.emitter) {
        Some(error) => return ValueGiving::Answered(Err(error)),
        None => {}
    }
    if !is_root(kept.place.spot()) {
        return ValueGiving::Misplaced;
    }
    match events_of(alloc, arena, numbers, nodes) {
        Ok(Some(events)) => give_root(alloc, kept, events),
        Ok(None) => ValueGiving::Unreadable,
        Err(_) => ValueGiving::NoMemory,
    }
}

/// Gives a kept emitter the events of a document's root, each as `typed_event` makes it. Opens the first document, if no event was given
/// before.
fn give_root(
    alloc: Global,
    kept: &mut Kept,
    events: Vec<yaml_event_t<Global>, Global>,
) -> ValueGiving
    requires output { kept.old.emitter.has_output ≡ true }
    requires sound { error_that_lasts kept.old.emitter ≡ None }
    requires may { places.is_root kept.old.place.spot ≡ true }
    ensures gave { GaveDump (Some (map typed_event (map seen_event events.items))) result kept.old kept.new }
    ensures output { kept.new.emitter.has_output ≡ true }
{
    open(alloc, kept);
    match kept.emitter.error() {
        Some(error) => return ValueGiving::Answered(Err(error)),
        None => {}
    }
    kept.place.go_to(Spot::Done);
    ValueGiving::Answered(emit_each_typed(&mut kept.emitter, events))
}
