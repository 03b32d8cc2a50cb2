//! Documents read from the bytes of their dumps.
ghost use Rattle.std.specs.Prelude.{◌≡◌, true, false};

mod graphs;
mod growths;
mod random;
mod refused;
mod spoiled;
mod taken;

use crate::tests::equal;
use std::alloc::{Allocator, Global};
use std::process::Abort;
use yaml_base::{yaml_document_t, yaml_error_t};
use yaml_dump::{yaml_emitter_close, yaml_emitter_dump};
use yaml_emitter::{yaml_emitter_t, yaml_emitter_take_output};
use yaml_read::{ReadError, read_document};
use yaml_value::canonical_settings;

/// Returns the document that has these bytes. (Tests need none of the clauses of the call.)
fn document_of<A: Allocator + Copy>(
    alloc: A,
    bytes: &[u8],
) -> Result<yaml_document_t<A>, ReadError> {
    read_document(alloc, bytes)
}

/// Dumps a document as the only one of a stream.
fn dump_alone(
    alloc: Global,
    emitter: &mut yaml_emitter_t<Global>,
    document: yaml_document_t<Global>,
) -> Result<(), yaml_error_t>
    requires { emitter.old.has_output ≡ true }
{
    yaml_emitter_dump(alloc, emitter, document)?;
    yaml_emitter_close(emitter)
}

/// Returns the canonical bytes of a document's dump.
fn dumped(rt: &impl Abort, alloc: Global, document: yaml_document_t<Global>) -> Vec<u8> {
    let settings = canonical_settings();
    let mut emitter = yaml_emitter_t::with_settings(alloc, settings).expect(rt, "no memory");
    dump_alone(alloc, &mut emitter, document).expect(rt, "not dumped");
    let bytes = yaml_emitter_take_output(&mut emitter);
    drop(emitter);
    bytes
}

/// Reads a document and dumps it again, which gives the same bytes; or returns why it isn't read.
fn read_and_dumped(rt: &impl Abort, alloc: Global, bytes: &[u8]) -> Option<ReadError> {
    match document_of(alloc, bytes) {
        Ok(document) => {
            let again = dumped(rt, alloc, document);
            equal(rt, &again.as_slice(), &bytes);
            None
        }
        Err(error) => Some(error),
    }
}

/// Checks that a document is read and dumped again, if there is no error, or that it isn't read for this one.
fn check_answer(rt: &impl Abort, alloc: Global, bytes: &[u8], error: Option<ReadError>) {
    let answer = read_and_dumped(rt, alloc, bytes);
    equal(rt, &(bytes, answer), &(bytes, error));
}
