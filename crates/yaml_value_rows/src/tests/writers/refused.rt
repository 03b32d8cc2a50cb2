//! Calls that a writer refuses, and streams that have no end.
use super::Call;
use yaml_writer::yaml_error_t;

/// A call is refused if a node is expected, and good ones follow; the end of a stream is refused for good.
pub(super) const CALLS: &[Call] = &[
    // A collection ends after the node of its anchor.
    Call::Sequence,
    Call::Anchored("a"),
    Call::Refused(&Call::End, yaml_error_t::ExpectedNode),
    Call::Null,
    Call::End,
    Call::Finish(Ok("---\n- &a null\n")),
    // An alias takes no anchor.
    Call::Sequence,
    Call::Anchored("a"),
    Call::Refused(&Call::Alias("a"), yaml_error_t::ExpectedNode),
    Call::Null,
    Call::End,
    Call::Finish(Ok("---\n- &a null\n")),
    // A document ends after the node of its tag.
    Call::Tagged("!a"),
    Call::Refused(&Call::Next, yaml_error_t::ExpectedNode),
    Call::Null,
    Call::Finish(Ok("--- !a null\n")),
    // A key has a value.
    Call::Mapping,
    Call::Text("a"),
    Call::Refused(&Call::End, yaml_error_t::ExpectedNode),
    Call::Finish(Err(yaml_error_t::ExpectedNode)),
    // No collection is open.
    Call::Refused(&Call::End, yaml_error_t::ExpectedDocumentEnd),
    Call::Finish(Err(yaml_error_t::ExpectedNode)),
    // A stream ends after the node of its tag, and after the end of its mapping.
    Call::Null,
    Call::Tagged("!a"),
    Call::Finish(Err(yaml_error_t::ExpectedNode)),
    Call::Mapping,
    Call::Finish(Err(yaml_error_t::ExpectedNode)),
];
