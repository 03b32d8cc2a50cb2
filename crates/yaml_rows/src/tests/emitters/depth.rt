//! Collections within one another, as deep as they may be, with each growth refused.
use super::UNSET;
use super::steps::Step::{Emit, Failed, Held, Output, Refused, Repeat};
use super::steps::check_steps;
use crate::tests::{joined, repeated};
use std::alloc::Global;
use std::process::Abort;
use yaml_base::yaml_error_t;
use yaml_emitter::Settings;

const ENDLESS: &Settings = &Settings {
    width: Some(-1),
    ..UNSET
};

/// The maximum nesting depth.
const MOST: usize = 1_000_000;

/// Returns the flushed part of the text of a million block sequences: 122 buffers. The text has 1,999,997 bytes, a `-` for each
/// sequence but the root, and a space between two.
pub(crate) fn dashes(rt: &impl Abort, alloc: Global) -> String {
    repeated(rt, alloc, "- ", 122 * 8_192)
}

// Two more may wait; the next makes the collection ready that is one too many.
#[test]
fn a_million_collections_may_be_open(rt: HostRuntime) {
    let alloc = rt.alloc();
    let flushed = dashes(&rt, alloc);
    let steps = [
        Emit("+STR any"),
        Emit("+DOC 1 -"),
        Emit("+SEQ block 1 - -"),
        Held(1),
        Repeat("+SEQ block 1 - -", MOST + 1, 2),
        Refused("+SEQ block 1 - -", yaml_error_t::TooDeep),
        Output(flushed.as_str().as_bytes()),
        Failed(yaml_error_t::TooDeep),
    ];
    check_steps(&rt, alloc, ENDLESS, &steps);
}

/// Returns a million brackets that open, as many that close, and the line's end.
fn brackets(rt: &impl Abort, alloc: Global) -> String {
    let opened = repeated(rt, alloc, "[", MOST);
    let closed = repeated(rt, alloc, "]", MOST);
    joined(rt, alloc, &[opened.as_str(), closed.as_str(), "\n"])
}

#[test]
fn a_million_brackets_are_closed(rt: HostRuntime) {
    let alloc = rt.alloc();
    let text = brackets(&rt, alloc);
    let steps = [
        Emit("+STR any"),
        Emit("+DOC 1 -"),
        Emit("+SEQ flow 1 - -"),
        Held(1),
        Repeat("+SEQ flow 1 - -", MOST - 1, 2),
        Repeat("-SEQ", MOST, 0),
        Emit("-DOC 1"),
        Output(text.as_str().as_bytes()),
        Emit("-STR"),
        Held(0),
    ];
    check_steps(&rt, alloc, ENDLESS, &steps);
}
