//! Scripts with their results: by the calls of an emitter, one by one, and by a run of the whole. The expected values
//! were worked out by hand. All is made again with each growth refused in turn.
//!
//! Here are examples of each kind, and what only a caller sees. `tests/scripts/rows` has all the others, which the built program runs,
//! and `tests/program` scripts of a million collections.
mod calls;
mod devices;
mod examples;
mod growths;
mod held;
mod limits;
mod prefixes;
mod written;

use crate::tests::{equal, equal_at};
use calls::check_calls;
use growths::answered;
use std::alloc::Global;
use std::process::Abort;
use yaml_tool::{run_answer_t, write_line};

/// When the caller flushes.
#[derive(Clone, Copy)]
enum Flushes {
    /// After the last event alone.
    Last,
    /// After this line's event, and after the last.
    After(u64),
    /// After each event.
    Each,
}

impl Flushes {
    fn is_after(self, line: u64) -> bool {
        match self {
            Flushes::Last => false,
            Flushes::After(at) => at == line,
            Flushes::Each => true,
        }
    }
}

/// A script, and its results.
#[derive(Clone, Copy)]
struct Row<'a> {
    script: &'a str,
    /// The call that is refused, if one is.
    answer: run_answer_t,
    /// All that is flushed.
    output: &'a [u8],
    /// The output's length after each event with a flush, the ends of documents and of the stream and those of the caller's
    /// flushes, up to the one after which it is whole.
    lengths: &'a [usize],
    flushes: Flushes,
}

impl<'a> Row<'a> {
    /// Returns a row in which no call is refused, and the first flush has it all.
    fn done(script: &'a str, output: &'a [u8]) -> Row<'a> {
        Row {
            script,
            answer: run_answer_t::Done,
            output,
            lengths: &[],
            flushes: Flushes::Last,
        }
    }
}

/// Returns the line that reports the end of a run.
pub(super) fn line_of(rt: &impl Abort, alloc: Global, answer: &run_answer_t) -> Vec<u8> {
    let mut line: Vec<u8> = Vec::new(alloc);
    equal(rt, &write_line(answer, &mut line).is_ok(), &true);
    line
}

// A run of the whole script.
fn check_run(rt: &impl Abort, alloc: Global, row: &Row) {
    let mut output = Vec::new(alloc);
    let answer = answered(rt, alloc, row.script.as_bytes(), &mut output);
    let got = (answer, output.as_slice());
    equal_at(rt, row.script, &got, &(row.answer, row.output));
}

/// Checks a row by calls, and by a run.
fn check_row(rt: &impl Abort, alloc: Global, row: &Row) {
    check_calls(rt, alloc, row);
    check_run(rt, alloc, row);
}

/// The first script: one scalar in canonical mode.
const FIRST: &str =
    "canonical on\nwidth -1\n+STR any\n+DOC 1 -\n=VAL any 1 1 - - \"a\"\n-DOC 1\n-STR\n";
