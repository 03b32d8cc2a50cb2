//! Streams that are taken in parts, and their limit.
use super::{Call, Table, check_table};
use yaml_writer::{Settings, value_settings, yaml_error_t};

/// The parts of a stream that are taken make the stream.
pub(super) const CALLS: &[Call] = &[
    // Three documents.
    Call::Sequence,
    Call::Text("a"),
    Call::End,
    Call::Next,
    Call::Sequence,
    Call::Text("no"),
    Call::End,
    Call::Next,
    Call::Sequence,
    Call::Text("c"),
    Call::End,
    Call::Finish(Ok("---\n- a\n---\n- 'no'\n---\n- c\n")),
    // The same, of which the first two are taken.
    Call::Sequence,
    Call::Text("a"),
    Call::End,
    Call::Next,
    Call::Taken("---\n- a\n"),
    Call::Sequence,
    Call::Text("no"),
    Call::End,
    Call::Next,
    Call::Taken("---\n- 'no'\n"),
    Call::Sequence,
    Call::Text("c"),
    Call::End,
    Call::Finish(Ok("---\n- c\n")),
];

/// A sequence of one letter, of 8 bytes with the start of its document.
const ONE: &[Call] = &[
    Call::Sequence,
    Call::Text("a"),
    Call::End,
    Call::Finish(Ok("---\n- a\n")),
];

const ONE_CUT: &[Call] = &[
    Call::Sequence,
    Call::Text("a"),
    Call::End,
    Call::Finish(Err(yaml_error_t::WriteError)),
];

/// Two of them, of which the first is taken.
const SECOND_CUT: &[Call] = &[
    Call::Sequence,
    Call::Text("a"),
    Call::End,
    Call::Next,
    Call::Taken("---\n- a\n"),
    Call::Sequence,
    Call::Text("a"),
    Call::End,
    Call::Finish(Err(yaml_error_t::WriteError)),
];

/// The limit counts the bytes that were taken.
const LIMITS: &[(usize, Table)] = &[
    (8, ("one", ONE)),
    (7, ("one, cut", ONE_CUT)),
    (15, ("second, cut", SECOND_CUT)),
];

#[test]
fn the_limit_gives_out_where_the_bytes_pass_it(rt: HostRuntime) {
    for (limit, table) in LIMITS {
        let settings = Settings {
            limit: *limit,
            ..value_settings()
        };
        check_table(&rt, rt.alloc(), settings, table);
    }
}
