//! Scripts with the text that they write, as texts of rows.
//!
//! A row is a script without its settings. After ` |` a line has the text that becomes ready up to it, or up to the flush
//! after it. `↵` is LF, `␍` CR, `¶` U+2028, `␉` a tab, and `␠` a space at the end of a line.
use super::{Flushes, Row, check_row, examples, prefixes};
use crate::tests::{joined, meant};
use std::alloc::Global;
use std::process::Abort;

/// A script up to a line, and the text that is ready then.
#[derive(Drop)]
struct Beginning {
    script: String,
    output: String,
    /// The output's length after each flush.
    lengths: Vec<usize>,
    flushes: Flushes,
}

fn new_beginning(rt: &impl Abort, alloc: Global, settings: &str, flushes: Flushes) -> Beginning {
    Beginning {
        script: joined(rt, alloc, &[settings]),
        output: String::new(alloc),
        lengths: Vec::new(alloc),
        flushes,
    }
}

fn push(rt: &impl Abort, text: &mut String, part: &str) {
    text.push_str(part).expect(rt, "no memory");
}

/// Returns whether there is a flush after a line. The ends of documents and of streams flush.
fn is_flushed(flushes: Flushes, line: &str) -> bool {
    matches!(flushes, Flushes::Each) || line.starts_with("-DOC") || line.starts_with("-STR")
}

// A line of a script, and the text that is then ready.
fn add_line(rt: &impl Abort, beginning: &mut Beginning, line: &str, ready: &str) {
    if !beginning.script.is_empty() {
        push(rt, &mut beginning.script, "\n");
    }
    push(rt, &mut beginning.script, line);
    push(rt, &mut beginning.output, ready);
    if is_flushed(beginning.flushes, line) {
        let length = beginning.output.len();
        beginning.lengths.push(length).expect(rt, "no memory");
    }
}

// A line of a row.
fn add(rt: &impl Abort, alloc: Global, beginning: &mut Beginning, line: &str) {
    let line = meant(rt, alloc, line);
    let line = line.as_str();
    let (line, ready) = line.split_once(" |").unwrap_or((line, ""));
    add_line(rt, beginning, line, ready);
}

fn check(rt: &impl Abort, alloc: Global, beginning: &Beginning) {
    let output = beginning.output.as_str().as_bytes();
    let row = Row {
        lengths: beginning.lengths.as_slice(),
        flushes: beginning.flushes,
        ..Row::done(beginning.script.as_str(), output)
    };
    check_row(rt, alloc, &row);
}

/// Checks a row, after these settings.
pub(super) fn check_script(rt: &impl Abort, alloc: Global, settings: &str, row: &str) {
    let mut whole = new_beginning(rt, alloc, settings, Flushes::Last);
    for line in row.lines() {
        add(rt, alloc, &mut whole, line);
    }
    check(rt, alloc, &whole);
}

#[test]
fn each_example_is_written(rt: HostRuntime) {
    for (settings, row) in examples::EXAMPLES {
        check_script(&rt, rt.alloc(), settings, row.trim());
    }
}

// Each beginning of a row is flushed as a whole.
fn check_beginnings(rt: &impl Abort, alloc: Global, settings: &str, row: &str, flushes: Flushes) {
    let mut beginning = new_beginning(rt, alloc, settings, flushes);
    for line in row.lines() {
        add(rt, alloc, &mut beginning, line);
        check(rt, alloc, &beginning);
    }
}

#[test]
fn what_is_ready_is_written(rt: HostRuntime) {
    for (settings, row) in prefixes::SCRIPTS {
        for flushes in [Flushes::Last, Flushes::Each] {
            check_beginnings(&rt, rt.alloc(), settings, row.trim(), flushes);
        }
    }
}
