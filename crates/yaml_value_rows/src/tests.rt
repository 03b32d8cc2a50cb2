//! Typed values, a writer of values, numbers of JSON, values of any type that is serialized, how they are handed on, proved
//! callers, canonical bytes that are read, and the examples of the documents.
//!
//! A value that has parts to be let go, as errors, documents, writers and emitters have, is handed to `drop`: to let it go at the
//! end of a block is dearer to prove.
mod callers;
mod calling;
mod forms;
mod handed;
mod numbers;
mod paths;
mod reading;
mod serialized;
mod values;
mod variants;
mod writers;

use std::alloc::{Allocator, Global};
use std::fmt::Debug;
use std::io;
use std::io::Write;
use std::process::Abort;
use yaml_base::yaml_error_t;
use yaml_writer::{Settings, Writer};

/// Checks that the two are equal. (A comparison in a function of its own is proved once.)
fn equal<T: PartialEq + Debug>(rt: &impl Abort, got: &T, wanted: &T) {
    assert_eq!(rt; *got, *wanted);
}

/// Checks that this was written.
fn same(rt: &impl Abort, got: &[u8], wanted: &str) {
    equal(rt, &got, &wanted.as_bytes());
}

/// The answer of a call that writes: a text, or why there is none.
type Answer<'a> = Result<&'a str, yaml_error_t>;

fn writer(rt: &impl Abort, alloc: Global, settings: Settings) -> Writer<Global> {
    Writer::new(alloc, settings).expect(rt, "no memory")
}

/// Returns the bytes of a writer. (Tests need none of the clauses of the call.)
fn finished(writer: Writer<Global>) -> Result<Vec<u8>, yaml_error_t> {
    writer.finish()
}

/// Checks that the call gave this.
fn answers<A: Allocator>(
    rt: &impl Abort,
    answer: Result<Vec<u8, A>, yaml_error_t>,
    wanted: &Answer,
) {
    match answer {
        Ok(bytes) => match wanted {
            Ok(text) => same(rt, bytes.as_slice(), text),
            Err(error) => equal(rt, &None, &Some(*error)),
        },
        Err(error) => equal(rt, &Some(error), &wanted.err()),
    }
}

/// A sink that takes one byte at once, and so many in all.
#[derive(Drop)]
struct Narrow {
    taken: Vec<u8>,
    room: usize,
}

impl Write for Narrow {
    fn write(&mut self, bytes: &[u8]) -> io::Result<usize> {
        if self.room == 0 {
            return Err(io::Error::from(io::ErrorKind::StorageFull));
        }
        self.room -= 1;
        match bytes.first() {
            Some(byte) => {
                self.taken.push(*byte)?;
                Ok(1)
            }
            None => Ok(0),
        }
    }

    fn flush(&mut self) -> io::Result<()> {
        Ok(())
    }
}
