//! Scalars with borrowed texts. A scalar that needn't wait is written without a copy.

ghost use Rattle.std.specs.Prelude.{◌≡◌, None, IfOk, false, true, chars, option_map};
ghost use Rattle.std.specs.Str.{all_scalars};
ghost use Rattle.yaml_base.specs.Event.{scalar};
ghost use Rattle.yaml_base.specs.Meaning.{has_scalar_texts};
ghost use Rattle.yaml_base.specs.Seen.{seen_event, seen_text};
ghost use Rattle.yaml_emitter.specs.BorrowedTexts.{CopiesText, seen_name, seen_scalar};
ghost use Rattle.yaml_emitter.specs.Emits.{TakesScalar, is_taken};
ghost use Rattle.yaml_emitter.specs.EmitsEvent.{EmitsScalar};
ghost use Rattle.yaml_emitter.specs.Queue.{are_ready_by_one_more};

use crate::emitter::yaml_emitter_t;
use crate::engine::Engine;
use crate::kinds::EventKind;
use crate::machine::Machine;
use crate::queue::are_ready_by_one_more;
use crate::spares::SpareTexts;
use crate::writing::ScalarContent;
use std::alloc::Allocator;
use yaml_base::{YAML_SCALAR_EVENT, yaml_error_t, yaml_event_t};

/// Takes a scalar with borrowed texts, as `yaml_emitter_emit` takes its event. An output must be set.
///
/// If no event waits, or all that wait are ready with this scalar, it is written at once, without a copy. Else it is
/// copied, and waits after them.
///
/// # Errors
///
/// Those of `yaml_emitter_emit`. `Memory`, too, if the copy can't be allocated: then nothing changed, the emitter has no error,
/// and the call may be made again. `has_taken` tells it.
#[inline(always)]
pub fn yaml_emitter_emit_scalar<A: Allocator + Copy>(
    emitter: &mut yaml_emitter_t<A>,
    content: &ScalarContent<'_>,
) -> Result<(), yaml_error_t>
    requires { emitter.old.has_output ≡ true }
    ensures takes { TakesScalar emitter.old (scalar (seen_scalar content.now)) result emitter.new }
    ensures output { emitter.new.has_output ≡ true }
{
    emitter.engine.emit_scalar(content)
}

impl<A: Allocator> yaml_emitter_t<A> {
    /// Returns whether the last call of `yaml_emitter_emit_scalar`, whose answer this is, took its scalar.
    pub fn has_taken(&self, answer: Result<(), yaml_error_t>) -> bool
        ensures { result ≡ is_taken answer self.now.error }
    {
        answer.is_ok() || self.error().is_some()
    }
}

impl<A: Allocator + Copy> Engine<A> {
    /// Takes a scalar, as `yaml_emitter_emit_scalar` does.
    pub(crate) fn emit_scalar(&mut self, content: &ScalarContent<'_>) -> Result<(), yaml_error_t>
        requires { self.old.has_output ≡ true }
        ensures emits { EmitsScalar self.old (scalar (seen_scalar content.now)) result self.new }
        ensures output { self.new.has_output ≡ true }
    {
        texts_are_scalars(content);
        if let Some(error) = self.machine.error() {
            self.started = true;
            self.history = self.history.with(content);
            return Err(error);
        }
        if are_ready_by_one_more(self.queue.as_slice()) {
            self.started = true;
            self.history = self.history.with(content);
            if let Err(error) = self.write_waiting(EventKind::Scalar) {
                return Err(error);
            }
            let answer = self.machine.scalar(content);
            return self.machine.keep_error(answer);
        }
        self.wait_behind(content)
    }

    /// Queues a copy of a scalar that doesn't make every queued event ready.
    fn wait_behind(&mut self, content: &ScalarContent<'_>) -> Result<(), yaml_error_t>
        requires waits { are_ready_by_one_more self.old.held ≡ false }
        requires no_error { self.old.error ≡ None }
        requires output { self.old.has_output ≡ true }
        ensures emits { EmitsScalar self.old (scalar (seen_scalar content.now)) result self.new }
        ensures output { self.new.has_output ≡ true }
    {
        let alloc = self.machine.allocator();
        match copied_scalar(&mut self.spares, alloc, content) {
            Ok(event) => self.emit(event),
            Err(_) => Err(yaml_error_t::Memory),
        }
    }
}

impl<A: Allocator + Copy> Machine<A> {
    fn allocator(&self) -> A {
        self.alloc
    }
}

/// States that the characters of borrowed texts are Unicode scalar values.
fn texts_are_scalars(content: &ScalarContent)
    ensures { has_scalar_texts (scalar (seen_scalar content.now)) ≡ true }
{
    text_is_scalars(content.value);
    if let Some(tag) = content.tag {
        text_is_scalars(tag);
    }
}

fn text_is_scalars(text: &str)
    ensures { all_scalars (chars text.now) ≡ true }
{}

/// Returns the event of a scalar, with a copy of each text.
fn copied_scalar<A: Allocator + Copy>(
    spares: &mut SpareTexts<A>,
    alloc: A,
    content: &ScalarContent,
) -> Result<yaml_event_t<A>, yaml_error_t>
    ensures { IfOk result (λ event. seen_event event ≡ scalar (seen_scalar content.now)) }
{
    Ok(YAML_SCALAR_EVENT {
        anchor: copied_choice(alloc, content.anchor)?,
        tag: copied_choice(alloc, content.tag)?,
        value: spares.copied(alloc, content.value)?,
        plain_implicit: content.plain_implicit,
        quoted_implicit: content.quoted_implicit,
        style: content.style,
    })
}

fn copied_choice<A: Allocator>(
    alloc: A,
    text: Option<&str>,
) -> Result<Option<String<A>>, yaml_error_t>
    ensures { IfOk result (λ copy. option_map seen_text copy ≡ seen_name text.entry) }
{
    match text {
        Some(text) => Ok(Some(copied_text(alloc, text)?)),
        None => Ok(None),
    }
}

/// Returns a copy of a text.
///
/// # Errors
///
/// `Memory` if it can't be allocated.
pub fn copied_text<A: Allocator>(alloc: A, text: &str) -> Result<String<A>, yaml_error_t>
    ensures { CopiesText (chars text.now) result }
{
    match String::from_str(alloc, text) {
        Ok(copy) => Ok(copy),
        Err(_) => Err(yaml_error_t::Memory),
    }
}
