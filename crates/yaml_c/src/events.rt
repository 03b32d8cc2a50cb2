//! Events of a C program as YAML, from memory to memory.
ghost use Rattle.std.specs.Prelude.{◌≡◌, [], None, true};
ghost use Rattle.yaml_c.specs.Answers.{CopiesToCaller};
ghost use Rattle.yaml_c.specs.Emission.{EmitsRecords, FlushesAfter, IsEmission, emit_results, error_number};
ghost use Rattle.yaml_c.specs.EventRecords.{events_from};

use crate::giving::{Giving, give_record};
use crate::records::{DirectiveRecord, EventRecord};
use crate::results::{CallResult, move_to_caller};
use crate::settings::{EmitterSettings, settings_from};
use crate::statuses::{BAD_EVENT, BAD_SETTINGS, NO_MEMORY, REFUSED};
use std::alloc::{Allocator, Global};
use yaml_base::yaml_error_t;
use yaml_emitter::{yaml_emitter_flush, yaml_emitter_t, yaml_emitter_take_output};

/// The outcome of emitting the events of an array.
#[derive(Clone, Copy)]
enum Emission {
    /// All events were emitted, and the output is flushed.
    Done,
    /// The call with the event of this number returned an error, or the flush after the last event did.
    Refused(u64, yaml_error_t),
    /// The event of this number has no reading.
    BadEvent(u64),
    /// No memory was left to copy the texts of the event of this number.
    NoRoom(u64),
    /// No memory was left for an emitter.
    NoMemory,
}

/// Emits the events of an array in turn, up to the first that has no reading or is refused; after the last one flushes.
fn emit_records<A: Allocator + Copy>(
    alloc: A,
    emitter: &mut yaml_emitter_t<A>,
    arena: &[u8],
    directives: &[DirectiveRecord],
    events: &[EventRecord],
) -> Emission
    requires output { emitter.old.has_output ≡ true }
    requires no_error { emitter.old.error ≡ None }
    requires nothing { emitter.old.page.output ≡ [] }
    ensures emits { emitter.old.events ≡ []
        → EmitsRecords emitter.old.given (events_from 0 arena.now directives.now events.now) events.now result emitter.new }
    ensures taken { emitter.new.page.taken ≡ emitter.old.page.taken }
{
    emitter.promised();
    let mut last = None;
    let mut number = 0u64;
    for record in events {
        let giving = give_record(alloc, emitter, arena, directives, record);
        emitter.promised();
        match giving {
            Giving::Emitted(Ok(())) => {}
            Giving::Emitted(Err(error)) => return Emission::Refused(number, error),
            Giving::Unreadable => return Emission::BadEvent(number),
            Giving::NoMemory => return Emission::NoRoom(number),
        }
        last = Some(number);
        number += 1;
    }
    let emission = flush_last(emitter, last);
    emitter.promised();
    emission
}

/// Flushes after the last event, with whose number an error is reported. If there was no event, nothing is to flush.
fn flush_last<A: Allocator + Copy>(emitter: &mut yaml_emitter_t<A>, last: Option<u64>) -> Emission
    requires output { emitter.old.has_output ≡ true }
    ensures flushed { FlushesAfter last emitter.old result emitter.new }
    ensures taken { emitter.new.page.taken ≡ emitter.old.page.taken }
{
    let Some(number) = last else {
        return Emission::Done;
    };
    match yaml_emitter_flush(emitter) {
        Ok(()) => Emission::Done,
        Err(error) => Emission::Refused(number, error),
    }
}

pub(crate) fn number_of(error: yaml_error_t) -> u32
    ensures { result ≡ error_number error }
{
    error as u32 + 1
}

/// Reports how an emission ended, moves the output that the caller doesn't have to its buffer, and returns the status.
fn move_emission<A: Allocator>(
    emission: Emission,
    yaml: Vec<u8, A>,
    skip: usize,
    out: &mut [u8],
    report: &mut CallResult,
) -> i32
    ensures { CopiesToCaller (emit_results emission yaml.items skip out.old) result out.new report.new }
{
    *report = CallResult::nothing();
    match emission {
        Emission::Done => move_to_caller(yaml, skip, out, report),
        Emission::Refused(number, yaml_error_t::Memory) | Emission::NoRoom(number) => {
            report.event = number;
            report.error = number_of(yaml_error_t::Memory);
            NO_MEMORY
        }
        Emission::Refused(number, error) => {
            report.event = number;
            report.error = number_of(error);
            REFUSED
        }
        Emission::BadEvent(number) => {
            report.event = number;
            BAD_EVENT
        }
        Emission::NoMemory => NO_MEMORY,
    }
}

/// Emits the events of an array, and writes their YAML to `out`. See the header.
#[unsafe(no_mangle)]
pub extern "C" fn yaml_emit(
    alloc: Global,
    events: &[EventRecord],
    directives: &[DirectiveRecord],
    texts: &[u8],
    settings: &EmitterSettings,
    out: &mut [u8],
    report: &mut CallResult,
) -> i32
    ensures { IsEmission events.now directives.now texts.now settings.now out.old result out.new report.new }
{
    *report = CallResult::nothing();
    let Some(given) = settings_from(settings) else {
        return BAD_SETTINGS;
    };
    let Ok(mut emitter) = yaml_emitter_t::with_settings(alloc, given) else {
        return NO_MEMORY;
    };
    let emission = emit_records(alloc, &mut emitter, texts, directives, events);
    let yaml = yaml_emitter_take_output(&mut emitter);
    move_emission(emission, yaml, settings.skip, out, report)
}
