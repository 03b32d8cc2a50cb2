//! The events of a script, given to an emitter one by one: each answer, how many events wait after each call, and what was
//! flushed; and all again with each growth refused in turn.
use super::Row;
use super::held::{Kind, held, kind_of};
use crate::tests::emitters::{Answer, check_failed, flush_if_known, give, new_emitter};
use crate::tests::{equal, equal_at};
use std::alloc::{Allocator, Global};
use std::process::Abort;
use yaml_base::yaml_error_t;
use yaml_emitter::yaml_emitter_t;
use yaml_test_allocator::Refusing;
use yaml_tool::{NumberedEvent, Script, read_script, run_answer_t};

/// An output below this size is flushed at ends and by the caller alone.
const BUFFER_SIZE: usize = 16_384;

/// The bytes of a long script that comparisons show.
const NAME_LENGTH: usize = 200;

/// Returns how an event's call is answered. The limit of a short output is reported by a flush, which only the ends of
/// documents and of the stream make.
fn emit_answer(row: &Row, line: u64, kind: Kind) -> Answer {
    let flushes = matches!(kind, Kind::FlushingEnd) || row.output.len() >= BUFFER_SIZE;
    match row.answer {
        run_answer_t::Refused(at, yaml_error_t::WriteError) if at == line && !flushes => Ok(()),
        _ => flush_answer(row, line),
    }
}

/// Returns how a flush after this line's event is answered.
fn flush_answer(row: &Row, line: u64) -> Answer {
    match row.answer {
        run_answer_t::Refused(at, error) if at <= line => Err(error),
        _ => Ok(()),
    }
}

/// Returns the bytes that so many flushes flushed.
fn flushed<'a>(row: &Row<'a>, flushes: usize) -> &'a [u8] {
    let Some(last) = flushes.checked_sub(1) else {
        return b"";
    };
    match row.lengths.get(last) {
        Some(length) => row.output.get(..*length).unwrap_or(row.output),
        None => row.output,
    }
}

/// A row on its way through an emitter.
#[derive(Drop)]
struct Walk<'a> {
    row: Row<'a>,
    /// The script, or the beginning of a long one; comparisons show it.
    name: &'a str,
    /// Refuses one growth, or none.
    heap: &'a Refusing<Global>,
    /// The events given so far.
    given: Vec<Kind>,
    /// The number of flushes.
    flushes: usize,
}

// How a call is answered, and how many events wait after it; after an error none does. From the call on in which the growth was
// refused each answers so.
fn check_answer(rt: &impl Abort, walk: &Walk, got: Answer, row: Answer, waiting: usize) {
    let wanted = if walk.heap.left() == 0 {
        Err(yaml_error_t::Memory)
    } else {
        row
    };
    let events = if wanted.is_ok() {
        held(walk.given.as_slice())
    } else {
        0
    };
    equal_at(rt, walk.name, &(got, waiting), &(wanted, events));
}

// After a refused growth the flushed bytes are a prefix of the row's output.
fn check_output(rt: &impl Abort, walk: &Walk, output: &[u8]) {
    if walk.heap.left() == 0 {
        equal(rt, &walk.row.output.starts_with(output), &true);
        return;
    }
    equal_at(rt, walk.name, &output, &flushed(&walk.row, walk.flushes));
}

// A flush that is refused a growth leaves the output.
fn check_flush<A: Allocator + Copy>(
    rt: &impl Abort,
    walk: &Walk,
    emitter: &mut yaml_emitter_t<A>,
    wanted: Answer,
) {
    let length = emitter.output().len();
    let answer = flush_if_known(rt, emitter);
    check_answer(rt, walk, answer, wanted, emitter.held());
    if walk.heap.left() == 0 {
        equal(rt, &emitter.output().len(), &length);
    }
    check_output(rt, walk, emitter.output());
}

/// Adds an event. Answers whether it is only kept until more are given.
fn add(rt: &impl Abort, walk: &mut Walk, kind: Kind) -> bool {
    let waiting = held(walk.given.as_slice());
    walk.given.push(kind).expect(rt, "no memory");
    held(walk.given.as_slice()) > waiting
}

// An event that is only queued needs no growth. Returns the event's kind.
fn check_emit<A: Allocator + Copy>(
    rt: &impl Abort,
    walk: &mut Walk,
    emitter: &mut yaml_emitter_t<A>,
    numbered: NumberedEvent<A>,
) -> Kind {
    let kind = kind_of(&numbered.event);
    let is_kept = add(rt, walk, kind);
    let wanted = emit_answer(&walk.row, numbered.line, kind);
    let left = walk.heap.left();
    let answer = give(rt, emitter, numbered.event);
    if is_kept && wanted.is_ok() {
        equal_at(rt, walk.name, &walk.heap.left(), &left);
    }
    check_answer(rt, walk, answer, wanted, emitter.held());
    kind
}

// The bytes flushed by an event of this line, and by a flush after it if the row has one.
fn check_flushes<A: Allocator + Copy>(
    rt: &impl Abort,
    walk: &mut Walk,
    emitter: &mut yaml_emitter_t<A>,
    line: u64,
    kind: Kind,
) {
    let ends = matches!(kind, Kind::FlushingEnd);
    if ends {
        walk.flushes = walk.flushes.saturating_add(1);
    }
    if ends || walk.row.output.len() < BUFFER_SIZE {
        check_output(rt, walk, emitter.output());
    }
    if !walk.row.flushes.is_after(line) {
        return;
    }
    if !ends {
        walk.flushes = walk.flushes.saturating_add(1);
    }
    if emitter.encoding_known() {
        check_flush(rt, walk, emitter, flush_answer(&walk.row, line));
    }
}

// All events, and a last flush. An error is then kept.
fn check_events<A: Allocator + Copy>(
    rt: &impl Abort,
    walk: &mut Walk,
    emitter: &mut yaml_emitter_t<A>,
    events: Vec<NumberedEvent<A>, A>,
) {
    for numbered in events {
        let line = numbered.line;
        let kind = check_emit(rt, walk, emitter, numbered);
        check_flushes(rt, walk, emitter, line, kind);
    }
    walk.flushes = usize::MAX;
    if emitter.encoding_known() {
        check_flush(rt, walk, emitter, flush_answer(&walk.row, u64::MAX));
    }
    if let Some(error) = emitter.error() {
        check_failed(rt, emitter, error);
    }
}

// An emitter of its own takes a script.
fn check_script<A: Allocator + Copy>(
    rt: &impl Abort,
    walk: &mut Walk,
    alloc: A,
    script: Script<A>,
) {
    match new_emitter(alloc, &script.settings) {
        Ok(mut emitter) => {
            check_events(rt, walk, &mut emitter, script.events);
            drop(emitter);
        }
        Err(error) => equal(rt, &(walk.heap.left(), error), &(0, yaml_error_t::Memory)),
    }
}

/// Makes the calls of a row, with this growth refused.
fn call_refused<A: Allocator + Copy>(
    rt: &impl Abort,
    heap: &Refusing<Global>,
    alloc: A,
    walk: &mut Walk,
    number: usize,
) {
    let script = read_script(alloc, walk.row.script.as_bytes()).expect(rt, "a script");
    heap.refuse(number);
    check_script(rt, walk, alloc, script);
}

/// Answers whether there is that growth.
pub(super) fn is_refused(rt: &impl Abort, alloc: Global, row: &Row, number: usize) -> bool {
    let heap = Refusing::new(alloc);
    let mut walk = Walk {
        row: *row,
        name: row.script.get(..NAME_LENGTH).unwrap_or(row.script),
        heap: &heap,
        given: Vec::new(alloc),
        flushes: 0,
    };
    call_refused(rt, &heap, &heap, &mut walk, number);
    heap.left() == 0
}

/// Makes the calls of a row, with the first growth refused, the second, and so on, until none is.
pub(super) fn check_calls(rt: &impl Abort, alloc: Global, row: &Row) {
    for number in 1..usize::MAX {
        if !is_refused(rt, alloc, row, number) {
            return;
        }
    }
}
