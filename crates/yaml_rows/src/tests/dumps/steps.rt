//! Calls on one emitter, and its state afterwards, as tables write them; also with each growth refused in turn.
use super::{Given, close, document, dump};
use crate::tests::emitters::steps::{Taken, check_steps};
use crate::tests::emitters::{Answer, check_answer, give};
use crate::tests::{equal, same};
use std::alloc::{Allocator, Global};
use std::process::Abort;
use yaml_base::{
    YAML_ANY_ENCODING, YAML_STREAM_END_EVENT, YAML_STREAM_START_EVENT, yaml_document_t,
    yaml_error_t,
};
use yaml_dump::yaml_emitter_open;
use yaml_emitter::{Settings, yaml_emitter_t};
use yaml_test_allocator::Refusing;

/// A call with its result, or a fact about the emitter after it.
#[derive(Clone, Copy)]
pub(super) enum Step<'a> {
    /// The stream is opened.
    Open(Answer),
    /// A stream's start is emitted.
    Start(Answer),
    /// A stream's end is emitted.
    End(Answer),
    /// A document of these nodes is dumped.
    Dump(&'a [Given<'a>], Answer),
    /// The stream is closed.
    Close(Answer),
    /// Whether the stream is opened.
    Opened(bool),
    /// Whether it is closed.
    Closed(bool),
    Output(&'a [u8]),
    Error(Option<yaml_error_t>),
}

fn open<A: Allocator + Copy>(rt: &impl Abort, emitter: &mut yaml_emitter_t<A>) -> Answer {
    assert!(rt; emitter.has_output() && !emitter.is_opened());
    yaml_emitter_open(emitter)
}

/// Returns a document of these nodes, of which no growth is refused.
fn granted<A: Allocator + Copy>(
    rt: &impl Abort,
    heap: &Refusing<Global>,
    alloc: A,
    given: &[Given],
) -> yaml_document_t<A> {
    let number = heap.left();
    heap.refuse(0);
    let document = document(rt, alloc, given);
    heap.refuse(number);
    document
}

/// Dumps a document. If a growth was refused and no error is kept, the emitter is as before, and takes an equal document.
fn dump_again<A: Allocator + Copy>(
    rt: &impl Abort,
    heap: &Refusing<Global>,
    alloc: A,
    emitter: &mut yaml_emitter_t<A>,
    given: &[Given],
) -> Answer {
    let answer = dump(rt, alloc, emitter, granted(rt, heap, alloc, given));
    if heap.left() != 0 || emitter.error().is_some() {
        return answer;
    }
    equal(rt, &answer, &Err(yaml_error_t::Memory));
    heap.refuse(usize::MAX);
    dump(rt, alloc, emitter, granted(rt, heap, alloc, given))
}

// Makes the call of a step. Returns its result and the expected one; nothing if the step is no call.
fn answers<A: Allocator + Copy>(
    rt: &impl Abort,
    heap: &Refusing<Global>,
    alloc: A,
    emitter: &mut yaml_emitter_t<A>,
    step: &Step,
) -> Option<(Answer, Answer)> {
    match step {
        Step::Open(answer) => Some((open(rt, emitter), *answer)),
        Step::Start(answer) => {
            let start = YAML_STREAM_START_EVENT {
                encoding: YAML_ANY_ENCODING,
            };
            Some((give(rt, emitter, start), *answer))
        }
        Step::End(answer) => Some((give(rt, emitter, YAML_STREAM_END_EVENT), *answer)),
        Step::Dump(given, answer) => {
            Some((dump_again(rt, heap, alloc, emitter, given), *answer))
        }
        Step::Close(answer) => Some((close(rt, emitter), *answer)),
        _ => None,
    }
}

// The fact holds, and no event waits.
fn check_standing<A: Allocator>(rt: &impl Abort, emitter: &yaml_emitter_t<A>, step: &Step) {
    match step {
        Step::Opened(is_opened) => equal(rt, &emitter.is_opened(), is_opened),
        Step::Closed(is_closed) => equal(rt, &emitter.is_closed(), is_closed),
        Step::Output(bytes) => same(rt, emitter.output(), bytes),
        Step::Error(error) => equal(rt, &emitter.error(), error),
        _ => {}
    }
    equal(rt, &emitter.held(), &0);
}

impl Taken for Step<'_> {
    // No event waits after any step.
    fn take<A: Allocator + Copy>(
        &self,
        rt: &impl Abort,
        heap: &Refusing<Global>,
        alloc: A,
        emitter: &mut yaml_emitter_t<A>,
    ) {
        if let Some((answer, wanted)) = answers(rt, heap, alloc, emitter, self) {
            check_answer(rt, heap, answer, wanted);
        }
        check_standing(rt, emitter, self);
    }

    fn output(&self) -> Option<&[u8]> {
        match self {
            Step::Output(bytes) => Some(bytes),
            _ => None,
        }
    }
}

/// A dump of these nodes and a close give this text.
pub(super) type Row<'a> = (&'a [Given<'a>], &'a str);

pub(super) fn check_rows(rt: &impl Abort, alloc: Global, settings: &Settings, rows: &[Row]) {
    for row in rows {
        let output = row.1.as_bytes();
        let steps = [
            Step::Dump(row.0, Ok(())),
            Step::Close(Ok(())),
            Step::Output(output),
        ];
        check_steps(rt, alloc, settings, &steps);
    }
}
