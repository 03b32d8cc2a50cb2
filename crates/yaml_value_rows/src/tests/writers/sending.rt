//! Streams that are handed on to a sink.
use super::{Call, give, give_all};
use crate::tests::{Narrow, answers, equal, finished, writer};
use std::alloc::Global;
use std::io;
use std::process::Abort;
use yaml_writer::{Writer, value_settings};

/// Checks that the writer hands its bytes on; the sink fails so or not, and then has these bytes.
fn check_sent(
    rt: &impl Abort,
    writer: &mut Writer<Global>,
    sink: &mut Narrow,
    wanted: (Option<io::ErrorKind>, &str),
) {
    let failed = match writer.send(sink) {
        Ok(()) => None,
        Err(error) => Some(error.kind()),
    };
    let wanted = (wanted.0, wanted.1.as_bytes());
    equal(rt, &(failed, sink.taken.as_slice()), &wanted);
}

const LETTER: &[Call] = &[Call::Sequence, Call::Text("a"), Call::End, Call::Next];

/// The number of bytes that a sink takes, the error of the next, which bytes of the letter it has, and what the writer has at the end.
type Sink = (usize, Option<io::ErrorKind>, &'static str, &'static str);

fn send_letter(
    rt: &impl Abort,
    alloc: Global,
    writer: &mut Writer<Global>,
    sink: &mut Narrow,
    row: &Sink,
) {
    check_sent(rt, writer, sink, (None, ""));
    give_all(rt, alloc, value_settings(), writer, &("letter", LETTER));
    check_sent(rt, writer, sink, (row.1, row.2));
    check_sent(rt, writer, sink, (row.1, row.2));
    equal(rt, &give(writer, &Call::Text("b")), &Ok(()));
}

fn check_sink(rt: &impl Abort, alloc: Global, row: &Sink) {
    let taken = Vec::new(alloc);
    let room = row.0;
    let mut sink = Narrow { taken, room };
    let mut writer = writer(rt, alloc, value_settings());
    send_letter(rt, alloc, &mut writer, &mut sink, row);
    answers(rt, finished(writer), &Ok(row.3));
}

/// The bytes that a sink refuses are left.
const SINKS: &[Sink] = &[
    (100, None, "---\n- a\n", "--- b\n"),
    (
        5,
        Some(io::ErrorKind::StorageFull),
        "---\n-",
        "---\n- a\n--- b\n",
    ),
];

#[test]
fn what_is_sent_is_taken(rt: HostRuntime) {
    for row in SINKS {
        check_sink(&rt, rt.alloc(), row);
    }
}
