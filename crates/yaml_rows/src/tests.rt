//! Rows of types, marks, pens and scalars; emitters call by call, documents dumped, and errors in a caller; scripts that are
//! read, and whole runs.
//!
//! Values with parts to free, as events, documents, pens and emitters have, are handed to `drop`: to free them at the end of a
//! block is dearer to prove.
ghost use Rattle.yaml_pen.specs.Page.{IsReady};

mod dumps;
mod emitters;
mod errors;
mod marks;
mod pens;
mod runs;
mod scalars;
mod scripts;
mod types;

use std::alloc::{Allocator, Global};
use std::fmt::{Debug, Display};
use std::process::Abort;
use yaml_base::{YAML_DOCUMENT_START_EVENT, yaml_error_t, yaml_event_t, yaml_tag_directive_t};
use yaml_pen::{Indicator, Pen};
use yaml_scalar::holds_break;
use yaml_tool::read_script;

/// Checks that the two are equal. (A comparison in a function of its own is proved once.)
fn equal<T: PartialEq + Debug>(rt: &impl Abort, got: &T, wanted: &T) {
    assert_eq!(rt; *got, *wanted);
}

/// Checks that the two are equal, in the row of this name.
fn equal_at<T: PartialEq + Debug>(rt: &impl Abort, name: &str, got: &T, wanted: &T) {
    equal(rt, &(name, got), &(name, wanted));
}

/// Checks that the two are equal, and lets them go.
fn same_values<T: PartialEq + Debug + Drop>(rt: &impl Abort, got: T, wanted: T) {
    equal(rt, &got, &wanted);
}

/// Returns a text that a test hands over, for which there is memory.
fn owned<A: Allocator>(rt: &impl Abort, alloc: A, s: &str) -> String<A> {
    String::from_str(alloc, s).expect(rt, "no memory")
}

/// Checks that this is written of a value.
fn check_words<T: Display>(rt: &impl Abort, alloc: Global, value: &T, words: &str) {
    let text = format!(in alloc; "{value}").expect(rt, "no memory");
    equal(rt, &text.as_str(), &words);
}

/// Returns the directives of a document's start, by its line in a script.
fn directives<A: Allocator + Copy>(
    rt: &impl Abort,
    alloc: A,
    line: &str,
) -> Vec<yaml_tag_directive_t<A>, A> {
    match event_of(rt, alloc, line) {
        YAML_DOCUMENT_START_EVENT { tag_directives, .. } => tag_directives,
        other => {
            drop(other);
            Vec::new(alloc)
        }
    }
}

/// Returns these texts in one, for which there is memory.
fn joined(rt: &impl Abort, alloc: Global, parts: &[&str]) -> String {
    parts.concat(alloc).expect(rt, "no memory")
}

/// Returns this text, so many times, for which there is memory.
fn repeated(rt: &impl Abort, alloc: Global, text: &str, count: usize) -> String {
    text.repeat(alloc, count).expect(rt, "no memory")
}

/// Settings, and the rest of a script with the text that it writes, as `runs/written.rt` says.
type Rows<'a> = &'a [(&'a str, &'a str)];

/// The meanings of the signs in a row.
const SIGNS: &[(char, &str)] = &[
    ('↵', "\n"),
    ('␍', "\r"),
    ('¶', "\u{2028}"),
    ('␠', " "),
    ('␉', "\t"),
    ('⍽', "\u{A0}"),
    ('⊤', "\u{10FFFF}"),
];

/// Returns a row, or a line of one, in the characters that it means.
fn meant(rt: &impl Abort, alloc: Global, row: &str) -> String {
    let mut meant = joined(rt, alloc, &[row]);
    for sign in SIGNS {
        let next = meant.as_str().replace(alloc, sign.0, sign.1);
        meant = next.expect(rt, "no memory");
    }
    meant
}

/// Returns the event of a script's line, for which there is memory.
fn event_of<A: Allocator + Copy>(rt: &impl Abort, alloc: A, line: &str) -> yaml_event_t<A> {
    let mut script = read_script(alloc, line.as_bytes()).expect(rt, "a line");
    script.events.pop().expect(rt, "an event").event
}

/// Checks that this was written.
fn same(rt: &impl Abort, got: &[u8], wanted: &[u8]) {
    equal(rt, &got, &wanted);
}

/// Writes an indicator; an error if it holds a break, so that no caller has to show that it holds none.
fn write_indicator(pen: &mut Pen<Global>, indicator: &Indicator) -> Result<(), yaml_error_t>
    requires { IsReady pen.old }
    ensures { IsReady pen.new }
{
    if holds_break(indicator.text) {
        return Err(yaml_error_t::WriteError);
    }
    pen.write_indicator(
        indicator.text,
        indicator.needs_space,
        indicator.leaves_space,
        indicator.keeps_indention,
    )
}

/// Writes an indicator with a space before it, if one is needed.
fn write_spaced(pen: &mut Pen<Global>, text: &str) -> Result<(), yaml_error_t>
    requires { IsReady pen.old }
    ensures { IsReady pen.new }
{
    write_indicator(pen, &Indicator::spaced(text))
}
