//! Calls on one emitter, and its state afterwards, as tables write them; also with each growth refused in turn.
use super::{
    Answer, check_answer, check_failed, check_out_of_memory, flush_if_known, give, new_emitter,
};
use crate::tests::{equal, event_of, same};
use std::alloc::{Allocator, Global};
use std::ops::Range;
use std::process::Abort;
use yaml_base::{yaml_error_t, yaml_event_t};
use yaml_emitter::{
    Settings, yaml_emitter_consume_output, yaml_emitter_t, yaml_emitter_take_output,
};
use yaml_test_allocator::Refusing;

/// A call with its result, or a fact about the emitter after it. Dumps have steps of their own.
pub(crate) trait Taken {
    /// Makes the call, or checks the fact; a growth may be refused.
    fn take<A: Allocator + Copy>(
        &self,
        rt: &impl Abort,
        heap: &Refusing<Global>,
        alloc: A,
        emitter: &mut yaml_emitter_t<A>,
    );

    /// Returns the output, if the step looks at it.
    fn output(&self) -> Option<&[u8]>;
}

/// Calls with their results, or facts about the emitter after them.
#[derive(Clone, Copy)]
pub(super) enum Step<'a> {
    /// The event of this script's line is emitted, and not refused.
    Emit(&'a str),
    /// This event is emitted so often, and so many events wait after each call.
    Repeat(&'a str, usize, usize),
    /// This event is refused so.
    Refused(&'a str, yaml_error_t),
    /// A flush, if the encoding is known.
    Flush(Answer),
    /// The output, which is then taken.
    Take(&'a [u8]),
    /// The output, which is then consumed.
    Consume(&'a [u8]),
    /// The output.
    Output(&'a [u8]),
    /// The number of events that wait.
    Held(usize),
    /// Whether the encoding is known.
    Known(bool),
    /// Whether the stream is started.
    Started(bool),
    /// Each call answers this error.
    Failed(yaml_error_t),
}

/// Returns the event of a script's line, of which no growth is refused.
pub(super) fn granted<A: Allocator + Copy>(
    rt: &impl Abort,
    heap: &Refusing<Global>,
    alloc: A,
    line: &str,
) -> yaml_event_t<A> {
    let number = heap.left();
    heap.refuse(0);
    let next = event_of(rt, alloc, line);
    heap.refuse(number);
    next
}

// The output is taken. A second call gives nothing, and nothing is left.
fn check_taken<A: Allocator + Copy>(
    rt: &impl Abort,
    emitter: &mut yaml_emitter_t<A>,
    bytes: &[u8],
) {
    for left in [bytes, b""] {
        same(rt, emitter.output(), left);
        same(rt, yaml_emitter_take_output(emitter).as_slice(), left);
    }
}

// The output is consumed. A second call finds nothing, and nothing is left.
fn check_consumed<A: Allocator + Copy>(
    rt: &impl Abort,
    emitter: &mut yaml_emitter_t<A>,
    bytes: &[u8],
) {
    for left in [bytes, b""] {
        same(rt, emitter.output(), left);
        yaml_emitter_consume_output(emitter);
    }
    same(rt, emitter.output(), b"");
}

// An event is emitted, and answered so.
fn emit_one<A: Allocator + Copy>(
    rt: &impl Abort,
    heap: &Refusing<Global>,
    alloc: A,
    emitter: &mut yaml_emitter_t<A>,
    (line, wanted): (&str, Answer),
) {
    let answer = give(rt, emitter, granted(rt, heap, alloc, line));
    check_answer(rt, heap, answer, wanted);
}

// An event is emitted so often, up to the call in which a growth is refused; so many events wait after each other call.
fn emit_until_refused<A: Allocator + Copy>(
    rt: &impl Abort,
    heap: &Refusing<Global>,
    alloc: A,
    emitter: &mut yaml_emitter_t<A>,
    (line, times, held): (&str, usize, usize),
) {
    for _ in 0..times {
        emit_one(rt, heap, alloc, emitter, (line, Ok(())));
        if heap.left() == 0 {
            return;
        }
        equal(rt, &emitter.held(), &held);
    }
}

// The fact holds.
fn check_standing<A: Allocator>(rt: &impl Abort, emitter: &yaml_emitter_t<A>, step: &Step) {
    match step {
        Step::Output(bytes) => same(rt, emitter.output(), bytes),
        Step::Held(held) => equal(rt, &emitter.held(), held),
        Step::Known(is_known) => equal(rt, &emitter.encoding_known(), is_known),
        Step::Started(is_started) => equal(rt, &emitter.is_started(), is_started),
        _ => {}
    }
}

impl Taken for Step<'_> {
    fn take<A: Allocator + Copy>(
        &self,
        rt: &impl Abort,
        heap: &Refusing<Global>,
        alloc: A,
        emitter: &mut yaml_emitter_t<A>,
    ) {
        match self {
            Step::Emit(line) => emit_one(rt, heap, alloc, emitter, (line, Ok(()))),
            Step::Repeat(line, times, held) => {
                emit_until_refused(rt, heap, alloc, emitter, (line, *times, *held))
            }
            Step::Refused(line, error) => {
                emit_one(rt, heap, alloc, emitter, (line, Err(*error)))
            }
            Step::Flush(answer) => check_answer(rt, heap, flush_if_known(rt, emitter), *answer),
            Step::Take(bytes) => check_taken(rt, emitter, bytes),
            Step::Consume(bytes) => check_consumed(rt, emitter, bytes),
            Step::Failed(error) => check_failed(rt, emitter, *error),
            _ => check_standing(rt, emitter, self),
        }
    }

    fn output(&self) -> Option<&[u8]> {
        match self {
            Step::Output(bytes) | Step::Take(bytes) | Step::Consume(bytes) => Some(bytes),
            _ => None,
        }
    }
}

/// Returns the next output that is looked at.
fn next_output<S: Taken>(steps: &[S]) -> &[u8] {
    for step in steps {
        if let Some(bytes) = step.output() {
            return bytes;
        }
    }
    b""
}

// Steps up to the one in which a growth is refused.
fn take_steps<A: Allocator + Copy, S: Taken>(
    rt: &impl Abort,
    heap: &Refusing<Global>,
    alloc: A,
    emitter: &mut yaml_emitter_t<A>,
    steps: &[S],
) {
    for (number, step) in steps.iter().enumerate() {
        step.take(rt, heap, alloc, emitter);
        if heap.left() == 0 {
            let rest = steps.get(number..).unwrap_or(&[]);
            check_out_of_memory(rt, emitter, next_output(rest));
            return;
        }
    }
}

// On an emitter of their own the steps are taken.
fn make_and_take<A: Allocator + Copy, S: Taken>(
    rt: &impl Abort,
    heap: &Refusing<Global>,
    alloc: A,
    settings: &Settings,
    steps: &[S],
) {
    match new_emitter(alloc, settings) {
        Ok(mut emitter) => {
            take_steps(rt, heap, alloc, &mut emitter, steps);
            drop(emitter);
        }
        Err(error) => check_answer(rt, heap, Err(error), Ok(())),
    }
}

// The steps are taken with this growth refused. Answers whether there is that growth.
fn is_refused<S: Taken>(
    rt: &impl Abort,
    alloc: Global,
    settings: &Settings,
    steps: &[S],
    number: usize,
) -> bool {
    let heap = Refusing::new(alloc);
    heap.refuse(number);
    make_and_take(rt, &heap, &heap, settings, steps);
    // It was refused; or no growth was refused before another dump, from which on so many are left.
    heap.left() == 0 || heap.left() > number
}

/// Takes the steps with each of these growths refused in turn, up to one that there isn't.
pub(crate) fn check_growths<S: Taken>(
    rt: &impl Abort,
    alloc: Global,
    settings: &Settings,
    steps: &[S],
    growths: Range<usize>,
) {
    for number in growths {
        if !is_refused(rt, alloc, settings, steps, number) {
            return;
        }
    }
}

/// Takes the steps with the first growth refused, the second, and so on, until none is.
pub(crate) fn check_steps<S: Taken>(
    rt: &impl Abort,
    alloc: Global,
    settings: &Settings,
    steps: &[S],
) {
    check_growths(rt, alloc, settings, steps, 1..usize::MAX);
}
