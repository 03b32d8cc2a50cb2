//! Emitters that a C program keeps from call to call.
ghost use Rattle.std.specs.Prelude.{◌≡◌, IfNone, IfSome, Option, None, Some, true, false, length, nat_le, if◌then◌else◌};
ghost use Rattle.yaml_base.specs.Event.{Event};
ghost use Rattle.yaml_base.specs.declared.errors.yaml_error_t.{yaml_error_t};
ghost use Rattle.yaml_emitter.specs.State.{State, with_all_taken};
ghost use Rattle.yaml_pen.specs.Page.{output_left, result_of_error};
ghost use Rattle.yaml_c.specs.Answers.{CopiesToCaller, results_done};
ghost use Rattle.yaml_c.specs.EventRecords as meaning;
ghost use Rattle.yaml_c.specs.GivenSettings.{settings_given};
ghost use Rattle.yaml_c.specs.Giving.{GaveRecord};
ghost use Rattle.yaml_base.specs.declared.errors.yaml_error_t.TheVariants.{Memory};
ghost use Rattle.yaml_c.specs.Kept.{Changes, Flushes, GivesRecord, IsOpenEmitter, MakesEmitter, OnEmitter, OnEvents, TakesOutput};
ghost use Rattle.yaml_c.specs.Kept.{TellsError, UnlessClosed, error_status};
ghost use Rattle.yaml_c.specs.declared.place.Spot.TheVariants.{Nowhere};

use crate::events::number_of;
use crate::giving::{Giving, give_record};
use crate::handle::EmitterHandle;
use crate::kept::Kept;
use crate::place::{Place, Spot};
use crate::records::{DirectiveRecord, EventRecord};
use crate::results::{CallResult, move_to_caller};
use crate::settings::{EmitterSettings, settings_from};
use crate::spare::Spare;
use crate::statuses::{BAD_EVENT, BAD_SETTINGS, DONE, NO_MEMORY, REFUSED, TOO_SMALL};
use std::alloc::{Allocator, Global};
use yaml_base::yaml_error_t;
use yaml_emitter::{yaml_emitter_flush, yaml_emitter_t, yaml_emitter_take_output};

/// Makes an emitter with these settings, but for their `skip`. See the header.
#[unsafe(no_mangle)]
pub extern "C" fn yaml_c_emitter_new(
    alloc: Global,
    settings: &EmitterSettings,
    emitter: &mut EmitterHandle,
) -> i32
    ensures { MakesEmitter (settings_given settings.now) result emitter.new.state }
{
    *emitter = EmitterHandle::none();
    let Some(given) = settings_from(settings) else {
        return BAD_SETTINGS;
    };
    let Ok(made) = yaml_emitter_t::with_settings(alloc, given) else {
        return NO_MEMORY;
    };
    let kept = Kept {
        emitter: made,
        place: Place::start(alloc),
        spare: Spare::none(),
    };
    let Ok(boxed) = Box::new(alloc, kept) else {
        return NO_MEMORY;
    };
    boxed.promised();
    emitter.put(boxed);
    DONE
}

/// Gives an event to an emitter. See the header.
#[unsafe(no_mangle)]
pub extern "C" fn yaml_c_emitter_emit(
    alloc: Global,
    emitter: &mut EmitterHandle,
    event: &EventRecord,
    directives: &[DirectiveRecord],
    texts: &[u8],
    report: &mut CallResult,
) -> i32
    requires is_open { IsOpenEmitter emitter.old.state }
    ensures { Changes (OnEvents (UnlessClosed result report.new
        (GivesRecord (meaning.event_recorded texts.now directives.now event.now) result report.new))) emitter.old.state emitter.new.state }
{
    let mut boxed = emitter.take(alloc);
    let giving = give_to(alloc, &mut *boxed, texts, directives, event);
    boxed.promised();
    emitter.put(boxed);
    match giving {
        Some(giving) => tell_giving(giving, report),
        None => tell_closed(report),
    }
}

/// Flushes all that an emitter has written. See the header.
#[unsafe(no_mangle)]
pub extern "C" fn yaml_c_emitter_flush(
    alloc: Global,
    emitter: &mut EmitterHandle,
    report: &mut CallResult,
) -> i32
    requires is_open { IsOpenEmitter emitter.old.state }
    ensures { Changes (OnEmitter (UnlessClosed result report.new (Flushes result report.new))) emitter.old.state emitter.new.state }
{
    let mut boxed = emitter.take(alloc);
    let status = flush_kept(&mut *boxed, report);
    boxed.promised();
    emitter.put(boxed);
    status
}

/// Takes the flushed bytes that were not taken before. See the header.
#[unsafe(no_mangle)]
pub extern "C" fn yaml_c_emitter_take_output(
    alloc: Global,
    emitter: &mut EmitterHandle,
    out: &mut [u8],
    report: &mut CallResult,
) -> i32
    requires is_open { IsOpenEmitter emitter.old.state }
    ensures { Changes (OnEmitter (TakesOutput out.old result out.new report.new)) emitter.old.state emitter.new.state }
{
    let mut boxed = emitter.take(alloc);
    let status = take_from(&mut *boxed, out, report);
    boxed.promised();
    emitter.put(boxed);
    status
}

/// Frees an emitter. See the header.
#[unsafe(no_mangle)]
pub extern "C" fn yaml_c_emitter_delete(alloc: Global, emitter: &mut EmitterHandle)
    requires is_open { IsOpenEmitter emitter.old.state }
    ensures { emitter.new.state ≡ None }
{
    emitter.take(alloc).drop();
}

/// Gives a kept emitter the event of a record, or returns `None` if the emitter is closed. Values have no place from then on.
fn give_to(
    alloc: Global,
    kept: &mut Kept,
    arena: &[u8],
    directives: &[DirectiveRecord],
    event: &EventRecord,
) -> Option<Giving>
    requires output { kept.old.emitter.has_output ≡ true }
    ensures closed { IfNone result ((kept.old.emitter.closed ≡ true) × (kept.new.emitter ≡ kept.old.emitter)) }
    ensures gave { IfSome result (λ giving. (kept.old.emitter.closed ≡ false)
        × GaveRecord (meaning.event_recorded arena.now directives.now event.now) giving kept.old.emitter kept.new.emitter) }
    ensures place { kept.new.place ≡ record kept.old.place { spot = Nowhere } }
    ensures output { kept.new.emitter.has_output ≡ true }
{
    kept.place.go_to(Spot::Nowhere);
    give_unless_closed(alloc, &mut kept.emitter, arena, directives, event)
}

/// Gives an emitter the event of a record, or returns `None` if the emitter is closed.
fn give_unless_closed<A: Allocator + Copy>(
    alloc: A,
    emitter: &mut yaml_emitter_t<A>,
    arena: &[u8],
    directives: &[DirectiveRecord],
    event: &EventRecord,
) -> Option<Giving>
    requires output { emitter.old.has_output ≡ true }
    ensures closed { IfNone result ((emitter.old.closed ≡ true) × (emitter.new ≡ emitter.old)) }
    ensures gave { IfSome result (λ giving. (emitter.old.closed ≡ false)
        × GaveRecord (meaning.event_recorded arena.now directives.now event.now) giving emitter.old emitter.new) }
    ensures output { emitter.new.has_output ≡ true }
{
    if emitter.is_closed() {
        return None;
    }
    Some(give_record(alloc, emitter, arena, directives, event))
}

/// Flushes a kept emitter.
fn flush_kept(kept: &mut Kept, report: &mut CallResult) -> i32
    requires output { kept.old.emitter.has_output ≡ true }
    ensures flushed { OnEmitter (UnlessClosed result report.new (Flushes result report.new)) kept.old kept.new }
    ensures output { kept.new.emitter.has_output ≡ true }
{
    flush(&mut kept.emitter, report)
}

/// Flushes an emitter that isn't closed, and reports its error, if any.
fn flush<A: Allocator + Copy>(emitter: &mut yaml_emitter_t<A>, report: &mut CallResult) -> i32
    requires output { emitter.old.has_output ≡ true }
    ensures flushed { UnlessClosed result report.new (Flushes result report.new) emitter.old emitter.new }
    ensures output { emitter.new.has_output ≡ true }
{
    if emitter.is_closed() {
        return tell_closed(report);
    }
    tell(yaml_emitter_flush(emitter), report)
}

/// Reports that memory ran out within a JSON text, and returns the status.
pub(crate) fn tell_closed(report: &mut CallResult) -> i32
    ensures { TellsError (Some Memory) result report.new }
{
    tell(Err(yaml_error_t::Memory), report)
}

/// Moves the flushed bytes of a kept emitter that weren't taken to the caller's buffer, if they fit.
fn take_from(kept: &mut Kept, out: &mut [u8], report: &mut CallResult) -> i32
    requires output { kept.old.emitter.has_output ≡ true }
    ensures taken { OnEmitter (TakesOutput out.old result out.new report.new) kept.old kept.new }
    ensures output { kept.new.emitter.has_output ≡ true }
{
    take_output(&mut kept.emitter, out, report)
}

/// Moves the flushed bytes not yet taken to the caller's buffer, if they fit.
fn take_output<A: Allocator + Copy>(
    emitter: &mut yaml_emitter_t<A>,
    out: &mut [u8],
    report: &mut CallResult,
) -> i32
    ensures copied { CopiesToCaller (results_done (output_left emitter.old.page) 0 out.old) result out.new report.new }
    ensures left { emitter.new ≡ (if nat_le (length (output_left emitter.old.page)) (length out.old) then with_all_taken emitter.old else emitter.old) }
    ensures output { emitter.new.has_output ≡ emitter.old.has_output }
{
    let length = emitter.output().len();
    if length > out.len() {
        *report = CallResult::nothing();
        report.length = length;
        return TOO_SMALL;
    }
    move_to_caller(yaml_emitter_take_output(emitter), 0, out, report)
}

/// Reports the error that a call returned, if any, and returns the status that goes with it.
fn tell(answer: Result<(), yaml_error_t>, report: &mut CallResult) -> i32
    ensures { (error : Option yaml_error_t) → answer ≡ result_of_error error → TellsError error result report.new }
{
    *report = CallResult::nothing();
    match answer {
        Ok(()) => DONE,
        Err(error) => {
            report.error = number_of(error);
            status_of(error)
        }
    }
}

/// Reports how a record was given, and returns the status that goes with it.
fn tell_giving(giving: Giving, report: &mut CallResult) -> i32
    ensures { (read : Option Event) (before after : State) → GaveRecord read giving before after → GivesRecord read result report.new before after }
{
    *report = CallResult::nothing();
    match giving {
        Giving::Emitted(answer) => tell(answer, report),
        Giving::Unreadable => BAD_EVENT,
        Giving::NoMemory => NO_MEMORY,
    }
}

pub(crate) fn status_of(error: yaml_error_t) -> i32
    ensures { result ≡ error_status (Some error) }
{
    match error {
        yaml_error_t::Memory => NO_MEMORY,
        _ => REFUSED,
    }
}
