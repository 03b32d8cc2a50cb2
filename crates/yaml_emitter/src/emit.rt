//! Queues events, and writes each once its form is decided.

ghost use Rattle.std.specs.Prelude.{◌≡◌, None, Ok, List, [], ◌∷◌, ◌++◌, OnOk, IfOk, IfErr, IsSome, Err, false, true};
ghost use Rattle.yaml_base.specs.Event.{Event};
ghost use Rattle.yaml_base.specs.Seen.{seen_event, seen_events};
ghost use Rattle.yaml_base.specs.Ready.{written};
ghost use Rattle.yaml_base.specs.Settings.{Settings};
ghost use Rattle.yaml_pen.specs.Wrote.{Grows};
ghost use Rattle.yaml_emitter.specs.Moves.{Moves};
ghost use Rattle.yaml_emitter.specs.Promises.{HasAllBytes};
ghost use Rattle.yaml_emitter.specs.EventKinds.{kind_of};
ghost use Rattle.yaml_emitter.specs.Queue.{is_head_ready};
ghost use Rattle.yaml_emitter.specs.State.{KeepsGiven};
ghost use Rattle.yaml_emitter.specs.EmitsEvent.{EmitsEvent, Settles, WroteWaiting, kept_error};
ghost use Rattle.yaml_emitter.specs.StandsAfter.{FailedReady, StandsAfter};

use crate::engine::Engine;
use crate::kinds::EventKind;
use crate::machine::Machine;
use crate::queue::{closes_at_once, first_and_rest, followers, is_ready};
use std::alloc::Allocator;
use yaml_base::{yaml_error_t, yaml_event_t};

impl<A: Allocator + Copy> Engine<A> {
    /// Takes an event, as `yaml_emitter_emit` does.
    #[inline(never)]
    pub(crate) fn emit(&mut self, event: yaml_event_t<A>) -> Result<(), yaml_error_t>
        requires { self.old.has_output ≡ true }
        ensures { EmitsEvent self.old (seen_event event) result self.new }
    {
        self.started = true;
        self.history = self.history.with(&event);
        // (A refused event is dropped by name: that is one call, while the end of a scope makes one for each of its texts.)
        if let Some(error) = self.machine.error() {
            drop(event);
            return Err(error);
        }
        if let Err(error) = self.write_waiting(EventKind::of(&event)) {
            drop(event);
            return Err(error);
        }
        // No event waits, and this one can be written whatever follows it.
        if self.queue.as_slice().is_empty() && followers(&event) == 0 {
            let empty = false;
            let answer = self.machine.process(&event, empty);
            return self.machine.keep_error(answer);
        }
        self.queue.push_reserved(event);
        Ok(())
    }

    /// Flushes all that is written, as `yaml_emitter_flush` does.
    pub(crate) fn flush(&mut self) -> Result<(), yaml_error_t>
        requires output { self.old.has_output ≡ true }
        ensures moves { Moves self.old [] result self.new }
        ensures flushed { OnOk result ((given : Settings) (all : List Event) → StandsAfter given all self.old → HasAllBytes given all self.new) }
        ensures unflushed { result ≡ Err yaml_error_t.Memory → self.new.page.output ≡ self.old.page.output }
        ensures empty { (given : Settings) (all : List Event) → StandsAfter given all self.old → self.old.error ≡ None → HasAllBytes given all self.old
            → self.new ≡ self.old }
        ensures kept { IsSome self.old.error → self.new ≡ self.old }
    {
        if let Some(error) = self.machine.error() {
            return Err(error);
        }
        match self.machine.flush() {
            Ok(()) => Ok(()),
            Err(error) => {
                self.queue.clear();
                Err(error)
            }
        }
    }

    /// Writes the queued events that are ready if an event of this kind follows them.
    pub(crate) fn write_waiting(&mut self, next: EventKind) -> Result<(), yaml_error_t>
        requires no_error { self.old.error ≡ None }
        requires output { self.old.has_output ≡ true }
        ensures { (last : Event) → kind_of last ≡ next → Settles self.old last result self.new }
    {
        if self.queue.as_slice().is_empty() {
            return Ok(());
        }
        self.write_queue(next)
    }

    /// Does the work of `write_waiting` if events wait. Out of line, so that `write_waiting` is inlined.
    #[inline(never)]
    fn write_queue(&mut self, next: EventKind) -> Result<(), yaml_error_t>
        requires no_error { self.old.error ≡ None }
        requires output { self.old.has_output ≡ true }
        ensures { (last : Event) → kind_of last ≡ next → Settles self.old last result self.new }
    {
        match self.machine.write_ready(self.queue.as_slice(), next) {
            Ok(written) => {
                self.spares.release(&mut self.queue, written);
                Ok(())
            }
            Err(error) => {
                self.queue.clear();
                self.machine.fail(error);
                Err(error)
            }
        }
    }
}

impl<A: Allocator + Copy> Machine<A> {
    /// Keeps the error of a call, if it has one, for good. Returns the call's result.
    pub(crate) fn keep_error(
        &mut self,
        answer: Result<(), yaml_error_t>,
    ) -> Result<(), yaml_error_t>
        ensures kept { self.new ≡ kept_error answer self.old }
        ensures answered { result ≡ answer }
    {
        if let Err(error) = answer {
            self.fail(error);
        }
        answer
    }

    /// Writes the events that are ready if one of this kind follows them, in order up to the first error, and returns their number.
    fn write_ready(
        &mut self,
        waiting: &[yaml_event_t<A>],
        next: EventKind,
    ) -> Result<usize, yaml_error_t>
        requires { self.old.error ≡ None }
        ensures written { IfOk result (λ count. (last : Event) → kind_of last ≡ next
            → WroteWaiting (seen_events waiting.now) last count self.old self.new) }
        ensures failed { IfErr result (λ error. (last : Event) → kind_of last ≡ next
            → FailedReady (seen_events waiting.now ++ last ∷ []) error self.old self.new) }
        ensures waits { (last : Event) → kind_of last ≡ next → is_head_ready (seen_events waiting.now ++ last ∷ []) ≡ false
            → result ≡ Ok 0 }
        ensures error { self.new.error ≡ None }
        ensures grows { Grows self.old.page self.new.page }
        ensures set { KeepsGiven self.old self.new }
    {
        let mut count = 0usize;
        'events: while count < waiting.len() {
            let (event, rest) = first_and_rest(&waiting[count..]);
            if !is_ready(event, rest, next) {
                return Ok(count);
            }
            let empty = closes_at_once(event, rest, next);
            if let Err(error) = self.process(event, empty) {
                return Err(error);
            }
            count += 1;
        }
        Ok(count)
    }
}
