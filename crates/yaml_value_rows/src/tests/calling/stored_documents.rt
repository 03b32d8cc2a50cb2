//! Documents read back, as the documents show it.
use crate::tests::equal;
use std::alloc::Global;
use yaml_read::{ReadError, read_document};

/// Returns how many nodes the document of these canonical bytes has; a node with aliases counts once.
fn stored_nodes(alloc: Global, bytes: &[u8]) -> Result<i32, ReadError> {
    let document = read_document(alloc, bytes)?;
    Ok(document.node_count())
}

/// Bytes, and how many nodes their document has.
const STORED: &[(&[u8], Result<i32, ReadError>)] = &[
    (
        b"---\n!!seq [\n  &id001 !!str \"a\",\n  *id001,\n]\n",
        Ok(2),
    ),
    (
        b"---\n!!seq [\n  &id001 !!str \"a\",\n]\n",
        Err(ReadError::NotNumbered),
    ),
];

#[test]
fn an_alias_is_no_node(rt: HostRuntime) {
    for (bytes, wanted) in STORED {
        equal(&rt, &stored_nodes(rt.alloc(), bytes), wanted);
    }
}
