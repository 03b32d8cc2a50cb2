//! The calls that give events to an emitter, and those that hand on its output.

ghost use Rattle.std.specs.Prelude.{◌≡◌, None, [], ◌∷◌, ◌++◌, OnOk, IsOk, IsSome, Err, true};
ghost use Rattle.yaml_base.specs.Seen.{seen_event};
ghost use Rattle.yaml_base.specs.Ready.{written};
ghost use Rattle.yaml_pen.specs.Page.{output_left};
ghost use Rattle.yaml_emitter.specs.Emits.{Emits, IsFlushed};
ghost use Rattle.yaml_emitter.specs.State.{with_all_taken};

use crate::emitter::yaml_emitter_t;
use std::alloc::Allocator;
use yaml_base::{yaml_error_t, yaml_event_t};

/// Takes an event, and writes all that can be written now. An output must be set. The start of a document or of a
/// collection is queued until the next one to three events decide its form.
///
/// The event is taken in each case. After an error nothing waits, and nothing more is written.
///
/// # Errors
///
/// The first error, of this call or an earlier one. If a well-formed stream begins with the events and fits the limit, the
/// only error is `Memory`.
#[inline(always)]
pub fn yaml_emitter_emit<A: Allocator + Copy>(
    emitter: &mut yaml_emitter_t<A>,
    event: yaml_event_t<A>,
) -> Result<(), yaml_error_t>
    requires { emitter.old.has_output ≡ true }
    ensures emits { Emits emitter.old (seen_event event ∷ []) result emitter.new }
    ensures unready { emitter.old.error ≡ None → written emitter.new.events ≡ written emitter.old.events → IsOk result }
    ensures kept { IsSome emitter.old.error
        → emitter.new ≡ record emitter.old { events = emitter.old.events ++ seen_event event ∷ []; started = true } }
{
    emitter.engine.emit(event)
}

/// Flushes all that is written. An output must be set. Events that wait go on waiting. If all is flushed already, nothing
/// changes and no memory is needed.
///
/// # Errors
///
/// The first error, of this call or an earlier one: `WriteError` if the text's bytes pass the output's limit, `Memory` if the
/// output can't grow; the output then stays as it was. After an error nothing waits. If a well-formed stream begins with the
/// events and fits the limit, the only error is `Memory`.
#[inline(always)]
pub fn yaml_emitter_flush<A: Allocator + Copy>(
    emitter: &mut yaml_emitter_t<A>,
) -> Result<(), yaml_error_t>
    requires output { emitter.old.has_output ≡ true }
    ensures emits { Emits emitter.old [] result emitter.new }
    ensures whole { OnOk result (IsFlushed emitter.new) }
    ensures idle { emitter.old.error ≡ None → IsFlushed emitter.old → emitter.new ≡ emitter.old }
    ensures unflushed { result ≡ Err yaml_error_t.Memory → emitter.new.page.output ≡ emitter.old.page.output }
    ensures kept { IsSome emitter.old.error → emitter.new ≡ emitter.old }
{
    emitter.engine.flush()
}

/// Returns the flushed bytes not yet taken, so that a stream of any length can be sent on while it is written. The results
/// of these calls, in order, and then that of `output` are together the whole output. The output's limit counts the taken
/// bytes, too.
///
/// It may be called at any time, also after an error, and allocates nothing.
pub fn yaml_emitter_take_output<A: Allocator + Copy>(emitter: &mut yaml_emitter_t<A>) -> Vec<u8, A>
    ensures rest { result.items ≡ output_left emitter.old.page }
    ensures untaken { emitter.old.page.taken ≡ 0 → result.items ≡ emitter.old.page.output }
    ensures taken { emitter.new ≡ with_all_taken emitter.old }
{
    emitter.engine.machine.take_output()
}

/// Counts the flushed bytes as taken, for a caller that has handed on the result of `output`, which is empty afterwards.
/// The output's limit counts the taken bytes, too. Their memory is used for the bytes that follow, so a caller that hands on
/// the output after each document, and calls this, doesn't allocate each time.
///
/// It may be called at any time, also after an error, and allocates nothing.
pub fn yaml_emitter_consume_output<A: Allocator + Copy>(emitter: &mut yaml_emitter_t<A>)
    ensures taken { emitter.new ≡ with_all_taken emitter.old }
{
    emitter.engine.machine.consume_output();
}
