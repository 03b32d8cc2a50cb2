//! Refusals, classes of characters, and documents.
mod documents;

use super::{check_words, equal, same_values};
use std::alloc::Global;
use yaml_base::*;

#[test]
fn the_default_event_is_the_end_of_a_stream(rt: HostRuntime) {
    let end: yaml_event_t<Global> = YAML_STREAM_END_EVENT;
    same_values(&rt, Default::default(), end);
}

/// An error, its kind, its problem, and its message.
type Refusal<'a> = (yaml_error_t, yaml_error_type_t, &'a str, &'a str);

const NO_NODE: &str = "expected SCALAR, SEQUENCE-START, MAPPING-START, or ALIAS";

const HANDLE: &str = "tag handle must start with '!'";

const DUPLICATE: &str = "duplicate %TAG directive";

const REFUSALS: &[Refusal] = &[
    (
        yaml_error_t::ExpectedNode,
        YAML_EMITTER_ERROR,
        NO_NODE,
        NO_NODE,
    ),
    (
        yaml_error_t::TagHandleStart,
        YAML_EMITTER_ERROR,
        HANDLE,
        HANDLE,
    ),
    (
        yaml_error_t::DuplicateDirective,
        YAML_EMITTER_ERROR,
        DUPLICATE,
        DUPLICATE,
    ),
    (
        yaml_error_t::WriteError,
        YAML_WRITER_ERROR,
        "write error",
        "write error",
    ),
    (yaml_error_t::Memory, YAML_MEMORY_ERROR, "", "out of memory"),
];

#[test]
fn refusals_have_their_words(rt: HostRuntime) {
    for row in REFUSALS {
        let got = (row.0, row.0.kind(), row.0.problem(), row.3);
        equal(&rt, &got, row);
        check_words(&rt, rt.alloc(), &row.0, row.3);
    }
}

/// A character, and whether it is of the alphabet of names, printable, a break, of ASCII, a space, a blank, and a byte order mark.
type Classes = (char, [bool; 7]);

const MEMBERS: &[Classes] = &[
    ('a', [true, true, false, true, false, false, false]),
    ('-', [true, true, false, true, false, false, false]),
    (' ', [false, true, false, true, true, true, false]),
    ('\t', [false, false, false, true, false, true, false]),
    ('\n', [false, true, true, true, false, false, false]),
    ('\r', [false, false, true, true, false, false, false]),
    ('\u{7F}', [false, false, false, true, false, false, false]),
    ('\u{80}', [false, false, false, false, false, false, false]),
    ('\u{85}', [false, false, true, false, false, false, false]),
    ('\u{A0}', [false, true, false, false, false, false, false]),
    ('\u{2028}', [false, true, true, false, false, false, false]),
    ('\u{FEFF}', [false, false, false, false, false, false, true]),
    (
        '\u{FFFE}',
        [false, false, false, false, false, false, false],
    ),
    (
        '\u{1F600}',
        [false, true, false, false, false, false, false],
    ),
];

#[test]
fn classes_have_their_members(rt: HostRuntime) {
    for row in MEMBERS {
        let c = row.0;
        let classes = [
            is_alpha(c),
            is_printable(c),
            is_break(c),
            is_ascii(c),
            is_space(c),
            is_blank(c),
            is_bom(c),
        ];
        equal(&rt, &(c, classes), row);
    }
}
