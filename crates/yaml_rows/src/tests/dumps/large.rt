//! Documents of many nodes dumped, each growth refused in turn.
use super::Given::{Sequence, Text};
use super::events::events_of;
use super::steps::Step::{Close, Dump, Output};
use super::{Given, document};
use crate::tests::emitters::UNSET;
use crate::tests::emitters::depth::dashes;
use crate::tests::emitters::steps::{check_growths, check_steps};
use crate::tests::{equal, joined, repeated};
use std::alloc::Global;
use std::ops::Range;
use std::process::Abort;
use yaml_base::yaml_error_t;
use yaml_emitter::Settings;

/// Returns so many times sequences of so many of these numbers each, with a node after them.
pub(super) fn sequences<'a>(
    rt: &impl Abort,
    alloc: Global,
    numbers: &'a [i32],
    size: usize,
    (last, count): (Given<'a>, usize),
) -> Vec<Given<'a>> {
    assert!(rt; size != 0);
    let mut given = Vec::new(alloc);
    for items in numbers.chunks(size) {
        given.push(Sequence(items)).expect(rt, "no memory");
    }
    for _ in 0..count {
        given.push(last).expect(rt, "no memory");
    }
    given
}

/// Adds a line of an item, which is an anchor or an alias and the text after it.
fn add_item(
    rt: &impl Abort,
    text: &mut String,
    (depth, indicator): (usize, char),
    number: usize,
    rest: &str,
) {
    for _ in 0..depth {
        text.push_str("  ").expect(rt, "no memory");
    }
    let alloc = *text.allocator();
    let item = format!(in alloc; "- {indicator}id{number:03}{rest}\n").expect(rt, "no memory");
    text.push_str(item.as_str()).expect(rt, "no memory");
}

/// The number of sequences, each of which holds the next twice.
const NESTED: usize = 40;

/// Returns the text of sequences within one another. Anchors are numbered by second meetings, so from within.
fn nested_text(rt: &impl Abort, alloc: Global) -> String {
    let mut text = String::new(alloc);
    for number in (2..=NESTED).rev() {
        add_item(rt, &mut text, (NESTED - number, '&'), number, "");
    }
    add_item(rt, &mut text, (NESTED - 1, '&'), 1, " a");
    for number in 1..=NESTED {
        add_item(rt, &mut text, (NESTED - number, '*'), number, "");
    }
    text
}

// A dump of these nodes gives this text, with each growth refused.
fn check_text<'a>(rt: &impl Abort, alloc: Global, given: &'a [Given<'a>], text: &'a str) {
    let steps = [Dump(given, Ok(())), Close(Ok(())), Output(text.as_bytes())];
    check_steps(rt, alloc, &UNSET, &steps);
}

// A document of these nodes has so many events.
fn check_count(rt: &impl Abort, alloc: Global, given: &[Given], count: usize) {
    let events = events_of(rt, alloc, document(rt, alloc, given));
    equal(rt, &events.len(), &count);
}

// Of forty sequences: 80 starts and ends, the text once, an alias for each second meeting, and the document's own two.
#[test]
fn shared_nodes_in_each_other_are_written_once(rt: HostRuntime) {
    let alloc = rt.alloc();
    let pairs = numbers(&rt, alloc, 41, 2);
    let given = sequences(&rt, alloc, pairs.as_slice(), 2, (Text("a"), 1));
    check_count(&rt, alloc, given.as_slice(), 123);
    let text = nested_text(&rt, alloc);
    check_text(&rt, alloc, given.as_slice(), text.as_str());
}

/// Returns the numbers from 2 to the last, each so many times.
pub(super) fn numbers(rt: &impl Abort, alloc: Global, last: i32, times: usize) -> Vec<i32> {
    let mut numbers = Vec::new(alloc);
    for number in 2..=last {
        for _ in 0..times {
            numbers.push(number).expect(rt, "no memory");
        }
    }
    numbers
}

/// Returns the numbers from 2 to the last, and then all again.
fn doubled(rt: &impl Abort, alloc: Global, last: i32) -> Vec<i32> {
    let mut doubled = numbers(rt, alloc, last, 1);
    let again = numbers(rt, alloc, last, 1);
    doubled
        .extend_from_slice(again.as_slice())
        .expect(rt, "no memory");
    doubled
}

/// Returns so many texts with their anchors, and as many aliases.
fn shared_text(rt: &impl Abort, alloc: Global, count: usize) -> String {
    let mut text = String::new(alloc);
    for number in 1..=count {
        add_item(rt, &mut text, (0, '&'), number, " x");
    }
    for number in 1..=count {
        add_item(rt, &mut text, (0, '*'), number, "");
    }
    text
}

// One sequence holds so many texts, each twice.
fn check_shared(rt: &impl Abort, alloc: Global, doubled: &[i32], count: usize) {
    let given = sequences(rt, alloc, doubled, doubled.len(), (Text("x"), count));
    let text = shared_text(rt, alloc, count);
    check_text(rt, alloc, given.as_slice(), text.as_str());
}

// Anchors past 999 have four digits.
#[test]
fn shared_texts_are_written_once(rt: HostRuntime) {
    let alloc = rt.alloc();
    check_shared(&rt, alloc, doubled(&rt, alloc, 21).as_slice(), 20);
    check_shared(&rt, alloc, doubled(&rt, alloc, 1_001).as_slice(), 1_000);
}

#[test]
fn forty_nodes_in_each_other_are_written(rt: HostRuntime) {
    let alloc = rt.alloc();
    let numbers = numbers(&rt, alloc, 40, 1);
    let given = sequences(&rt, alloc, numbers.as_slice(), 1, (Text("a"), 1));
    let indicators = repeated(&rt, alloc, "- ", 39);
    let text = joined(&rt, alloc, &[indicators.as_str(), "a\n"]);
    check_text(&rt, alloc, given.as_slice(), text.as_str());
}

const ENDLESS: Settings = Settings {
    width: Some(-1),
    ..UNSET
};

// A million and one sequences, each the one item of the one before, dumped with each of these growths refused. A node takes no
// growth of its own.
fn check_too_many(rt: &impl Abort, alloc: Global, growths: Range<usize>) {
    let numbers = numbers(rt, alloc, 1_000_001, 1);
    let given = sequences(rt, alloc, numbers.as_slice(), 1, (Sequence(&[]), 1));
    let flushed = dashes(rt, alloc);
    let steps = [
        Dump(given.as_slice(), Err(yaml_error_t::TooDeep)),
        Output(flushed.as_str().as_bytes()),
    ];
    check_growths(rt, alloc, &ENDLESS, &steps, growths);
}

// There are some sixty growths. The tests share them, since each has a minute, also on a busy machine.
#[test]
fn too_many_nodes_in_each_other_are_refused(rt: HostRuntime) {
    check_too_many(&rt, rt.alloc(), 1..12);
}

#[test]
fn too_many_nodes_are_refused_at_the_next_growths(rt: HostRuntime) {
    check_too_many(&rt, rt.alloc(), 12..28);
}

#[test]
fn too_many_nodes_are_refused_at_later_growths(rt: HostRuntime) {
    check_too_many(&rt, rt.alloc(), 28..44);
}

#[test]
fn too_many_nodes_are_refused_at_the_last_growths(rt: HostRuntime) {
    check_too_many(&rt, rt.alloc(), 44..usize::MAX);
}
