//! Values that are handed on to a sink as they are written, and values that are given to a writer.
use crate::tests::serialized::{ByHand, LIMITS, Point, alpha, sink_of};
use crate::tests::{Narrow, answers, equal, finished, writer};
use serde::Serialize;
use std::alloc::Global;
use std::io;
use std::process::Abort;
use yaml_serde::{Cause, Error, Writer, to_writer, value_settings, write, yaml_error_t};
use yaml_writer::YAML_BLOCK_SEQUENCE_STYLE;

/// Returns the kind of a sink's error; nothing if it fails otherwise, or the value is written.
fn sink_failure<T: Serialize>(alloc: Global, room: usize, value: &T) -> Option<io::ErrorKind> {
    let answer = sink_of(alloc, room, value);
    let kind = match &answer {
        Err(
            Error {
                cause: Cause::Sink(error),
                ..
            },
        ) => Some(error.kind()),
        _ => None,
    };
    drop(answer);
    kind
}

#[test]
fn a_sink_that_fails_ends_the_document(rt: HostRuntime) {
    let alloc = rt.alloc();
    let full = Some(io::ErrorKind::StorageFull);
    let narrow = sink_failure(alloc, 3, &5u8);
    let wide = sink_failure(alloc, 6, &5u8);
    let long = sink_failure(alloc, 20_000, &ByHand::Lines(10_000));
    equal(&rt, &(narrow, wide, long), &(full, None, full));
}

/// Of 80,000 bytes at most 16,384 wait when the value fails.
#[test]
fn bytes_are_handed_on_while_a_value_is_written(rt: HostRuntime) {
    let alloc = rt.alloc();
    let mut sink = Narrow {
        taken: Vec::new(alloc),
        room: usize::MAX,
    };
    let answer = to_writer(alloc, &mut sink, &ByHand::Lines(10_000));
    let is_custom = matches!(
        &answer,
        Err(Error {
            cause: Cause::Custom(_),
            ..
        })
    );
    drop(answer);
    equal(&rt, &(is_custom, sink.taken.len() >= 60_000), &(true, true));
}

/// Gives a value to a writer, which is done or not. (Tests need none of the clauses of the call.)
fn check_given<T: Serialize>(
    rt: &impl Abort,
    alloc: Global,
    writer: &mut Writer<Global>,
    value: &T,
    is_done: &bool,
) {
    let answer = write(alloc, writer, value);
    equal(rt, &answer.is_ok(), is_done);
    drop(answer);
}

/// Begins a sequence whose first item has a tag.
fn begin_tagged(writer: &mut Writer<Global>) -> Result<(), yaml_error_t> {
    writer.begin_sequence(YAML_BLOCK_SEQUENCE_STYLE)?;
    writer.tagged("!server")
}

/// Checks that values are nodes of a writer.
fn give_nodes(rt: &impl Abort, alloc: Global, writer: &mut Writer<Global>) {
    equal(rt, &begin_tagged(writer), &Ok(()));
    let server = alpha(alloc).expect(rt, "no memory");
    check_given(rt, alloc, writer, &server, &true);
    check_given(rt, alloc, writer, &LIMITS, &true);
    check_given(rt, alloc, writer, &"no", &true);
    let ends = (writer.end(), writer.next_document());
    equal(rt, &ends, &(Ok(()), Ok(())));
    check_given(rt, alloc, writer, &Point(1, -2), &true);
}

#[test]
fn a_value_is_a_node_of_a_writer(rt: HostRuntime) {
    let mut writer = writer(&rt, rt.alloc(), value_settings());
    give_nodes(&rt, rt.alloc(), &mut writer);
    let expected = "---\n- !server\n  name: alpha\n  ports:\n    - 80\n    - 443\n\
        - limit: null\n  backup: false\n  weights:\n    - -1\n    - 'yes'\n\
        - 'no'\n---\n- 1\n- -2\n";
    answers(&rt, finished(writer), &Ok(expected));
}

/// Checks that a value ends only the collections that it began.
fn give_ends(rt: &impl Abort, alloc: Global, writer: &mut Writer<Global>) {
    equal(rt, &begin_tagged(writer), &Ok(()));
    check_given(rt, alloc, writer, &ByHand::End, &false);
    check_given(rt, alloc, writer, &ByHand::Values(0, None), &false);
    check_given(rt, alloc, writer, &1u8, &true);
    equal(rt, &writer.end(), &Ok(()));
}

#[test]
fn a_value_ends_only_what_it_began(rt: HostRuntime) {
    let mut ended = writer(&rt, rt.alloc(), value_settings());
    give_ends(&rt, rt.alloc(), &mut ended);
    answers(&rt, finished(ended), &Ok("---\n- !server 1\n"));
    let mut refused = writer(&rt, rt.alloc(), value_settings());
    check_given(&rt, rt.alloc(), &mut refused, &ByHand::Deaf, &false);
    let error = Some(yaml_error_t::ExpectedDocumentEnd);
    equal(&rt, &refused.error(), &error);
    drop(refused);
}
