//! Typed values read back, as the documents show it.
use crate::tests::equal;
use std::alloc::Global;
use yaml_read::{Position, ReadError, Value, read_canonical};

/// Returns the integer that these canonical bytes hold; `None` if they hold another value.
fn stored_integer(alloc: Global, bytes: &[u8]) -> Result<Option<i64>, ReadError> {
    match &read_canonical(alloc, bytes)? {
        Value::Int(number) => Ok(Some(*number)),
        _ => Ok(None),
    }
}

/// Bytes, and the integer that they hold.
const STORED: &[(&[u8], Result<Option<i64>, ReadError>)] = &[
    (b"---\n!!int \"7\"\n", Ok(Some(7))),
    (b"---\n!!str \"7\"\n", Ok(None)),
    (
        b"---\n!!int \"07\"\n",
        Err(ReadError::NotCanonical {
            position: Position { line: 2, column: 7 },
        }),
    ),
];

#[test]
fn an_integer_has_one_spelling(rt: HostRuntime) {
    for (bytes, wanted) in STORED {
        equal(&rt, &stored_integer(rt.alloc(), bytes), wanted);
    }
}
