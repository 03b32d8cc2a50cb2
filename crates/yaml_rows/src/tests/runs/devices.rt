//! Readers and writers that fail at a call: each failure is reported, and nothing else is.
use super::FIRST;
use crate::tests::{equal, same};
use std::alloc::Global;
use std::io;
use std::io::{ErrorKind, Read, Write};
use std::process::Abort;
use yaml_base::write_to_sink;
use yaml_tool::{run, run_answer_t};

/// Gives a byte a call, and fails once so many calls were made.
#[derive(Drop)]
struct FailingReader<'a> {
    left: &'a [u8],
    calls: usize,
}

impl Read for FailingReader<'_> {
    fn read(&mut self, buf: &mut [u8]) -> io::Result<usize> {
        if self.calls == 0 {
            return Err(io::Error::from(ErrorKind::Other));
        }
        self.calls -= 1;
        let count = self.left.len().min(buf.len()).min(1);
        buf[..count].copy_from_slice(&self.left[..count]);
        self.left = &self.left[count..];
        Ok(count)
    }
}

/// Takes a byte a call, and fails once so many calls were made.
#[derive(Drop)]
struct FailingWriter {
    calls: usize,
    taken: Vec<u8>,
}

impl Write for FailingWriter {
    fn write(&mut self, buf: &[u8]) -> io::Result<usize> {
        if self.calls == 0 {
            return Err(io::Error::from(ErrorKind::Other));
        }
        self.calls -= 1;
        match buf.first() {
            Some(byte) => {
                self.taken.push(*byte)?;
                Ok(1)
            }
            None => Ok(0),
        }
    }

    fn flush(&mut self) -> io::Result<()> {
        Ok(())
    }
}

// A reader that fails at this call ends the run so, and this is written.
fn check_read(rt: &impl Abort, alloc: Global, calls: usize, answer: run_answer_t, written: &[u8]) {
    let mut reader = FailingReader {
        left: FIRST.as_bytes(),
        calls,
    };
    let mut output: Vec<u8> = Vec::new(alloc);
    let reported = run(alloc, &mut reader, &mut output);
    equal(rt, &(calls, reported), &(calls, answer));
    same(rt, output.as_slice(), written);
}

// The call after the last byte finds the end.
#[test]
fn each_failed_read_is_reported(rt: HostRuntime) {
    for calls in 0..=FIRST.len() {
        check_read(&rt, rt.alloc(), calls, run_answer_t::ReadFailed, b"");
    }
    let whole = b"---\n\"a\"\n";
    check_read(&rt, rt.alloc(), 1_000, run_answer_t::Done, whole);
}

// A writer that fails at this call ends the run of this script so, and took this.
fn check_write(
    rt: &impl Abort,
    alloc: Global,
    calls: usize,
    (script, answer): (&str, run_answer_t),
    taken: &[u8],
) {
    let mut writer = FailingWriter {
        calls,
        taken: Vec::new(alloc),
    };
    let reported = run(alloc, &mut script.as_bytes(), &mut writer);
    equal(rt, &(calls, reported), &(calls, answer));
    same(rt, writer.taken.as_slice(), taken);
}

const FAILED: (&str, run_answer_t) = (FIRST, run_answer_t::WriteFailed);

const DONE: (&str, run_answer_t) = (FIRST, run_answer_t::Done);

const BAD: (&str, run_answer_t) = ("+STR utf16be\n+FOO", run_answer_t::BadLine(2));

// Each call but the last takes one byte. A bad line calls no writer.
#[test]
fn each_failed_write_is_reported(rt: HostRuntime) {
    let alloc = rt.alloc();
    let whole = b"---\n\"a\"\n";
    for calls in 0..whole.len() {
        let taken = whole.get(..calls).unwrap_or(b"");
        check_write(&rt, alloc, calls, FAILED, taken);
    }
    check_write(&rt, alloc, whole.len(), DONE, whole);
    check_write(&rt, alloc, 0, BAD, b"");
}

/// Takes a byte each second call, and is interrupted at the others; takes none past its room.
#[derive(Drop)]
struct InterruptedWriter {
    is_interrupted: bool,
    room: usize,
    taken: Vec<u8>,
}

impl Write for InterruptedWriter {
    fn write(&mut self, buf: &[u8]) -> io::Result<usize> {
        self.is_interrupted = !self.is_interrupted;
        if self.is_interrupted {
            return Err(io::Error::from(ErrorKind::Interrupted));
        }
        match buf.first() {
            Some(byte) if self.taken.len() < self.room => {
                self.taken.push(*byte)?;
                Ok(1)
            }
            _ => Ok(0),
        }
    }

    fn flush(&mut self) -> io::Result<()> {
        Ok(())
    }
}

// A writer with so much room gives this result, and took these of three bytes.
fn check_interrupted(
    rt: &impl Abort,
    alloc: Global,
    room: usize,
    failed: Option<ErrorKind>,
    taken: &[u8],
) {
    let mut writer = InterruptedWriter {
        is_interrupted: false,
        room,
        taken: Vec::new(alloc),
    };
    let answer = write_to_sink(&mut writer, b"---");
    let error = match &answer {
        Ok(()) => None,
        Err(error) => Some(error.kind()),
    };
    drop(answer);
    let got = (room, error, writer.taken.as_slice());
    equal(rt, &got, &(room, failed, taken));
}

#[test]
fn an_interrupted_write_is_tried_again(rt: HostRuntime) {
    for room in [3, 4] {
        check_interrupted(&rt, rt.alloc(), room, None, b"---");
    }
}

#[test]
fn a_writer_that_takes_nothing_is_reported(rt: HostRuntime) {
    for (room, taken) in [(0, b"".as_slice()), (2, b"--".as_slice())] {
        check_interrupted(&rt, rt.alloc(), room, Some(ErrorKind::WriteZero), taken);
    }
}
