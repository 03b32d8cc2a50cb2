//! The words of the errors of reading. (`tests/c/canonical.c` has the reasons why bytes aren't read, and their places.)
use super::check_printed;
use yaml_read::{Position, ReadError};

/// Errors, and the texts that they print.
const PRINTED: &[(ReadError, &str)] = &[
    (
        ReadError::NotCanonical {
            position: Position { line: 2, column: 7 },
        },
        "line 2, column 7: not canonical",
    ),
    (
        ReadError::TooDeep {
            position: Position {
                line: 1_002,
                column: 2_001,
            },
        },
        "line 1002, column 2001: lists and maps nest too deep",
    ),
    (
        ReadError::DuplicateKey {
            position: Position { line: 5, column: 5 },
        },
        "line 5, column 5: a key that its map has already",
    ),
    (
        ReadError::NotNumbered,
        "anchors and aliases are not those that a dump numbers",
    ),
    (ReadError::Memory, "out of memory"),
];

#[test]
fn errors_print_their_place(rt: HostRuntime) {
    for (error, wanted) in PRINTED {
        check_printed(&rt, rt.alloc(), error, wanted);
    }
}
