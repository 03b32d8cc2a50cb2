//! Texts in a style that is asked for, and ends of documents that are.
use super::Call;
use yaml_writer::{
    YAML_ANY_SCALAR_STYLE, YAML_DOUBLE_QUOTED_SCALAR_STYLE, YAML_FOLDED_SCALAR_STYLE,
    YAML_LITERAL_SCALAR_STYLE, YAML_PLAIN_SCALAR_STYLE, YAML_SINGLE_QUOTED_SCALAR_STYLE,
};

/// A text is plain only if it may be, and in a block only if it can.
pub(super) const CALLS: &[Call] = &[
    Call::Sequence,
    Call::Styled(YAML_PLAIN_SCALAR_STYLE, "a b"),
    Call::Styled(YAML_PLAIN_SCALAR_STYLE, "no"),
    Call::Styled(YAML_PLAIN_SCALAR_STYLE, "1.0"),
    Call::Styled(YAML_PLAIN_SCALAR_STYLE, "a: b"),
    Call::Styled(YAML_PLAIN_SCALAR_STYLE, "a\nb"),
    Call::Styled(YAML_ANY_SCALAR_STYLE, "a\nb"),
    Call::End,
    Call::Finish(Ok("---\n- a b\n- 'no'\n- '1.0'\n- 'a: b'\n- 'a\n\n  b'\n- |-\n  a\n  b\n")),
    Call::Sequence,
    Call::Styled(YAML_SINGLE_QUOTED_SCALAR_STYLE, "a"),
    Call::Styled(YAML_SINGLE_QUOTED_SCALAR_STYLE, "a\u{7}"),
    Call::Styled(YAML_DOUBLE_QUOTED_SCALAR_STYLE, "a"),
    Call::End,
    Call::Finish(Ok("---\n- 'a'\n- \"a\\a\"\n- \"a\"\n")),
    Call::Sequence,
    Call::Styled(YAML_LITERAL_SCALAR_STYLE, "a"),
    Call::Styled(YAML_LITERAL_SCALAR_STYLE, ""),
    Call::Styled(YAML_FOLDED_SCALAR_STYLE, "a b\nc\n"),
    Call::Tagged("!t"),
    Call::Styled(YAML_LITERAL_SCALAR_STYLE, "no"),
    Call::Mapping,
    Call::Styled(YAML_LITERAL_SCALAR_STYLE, "k"),
    Call::Styled(YAML_FOLDED_SCALAR_STYLE, "v"),
    Call::End,
    Call::Flow,
    Call::Styled(YAML_LITERAL_SCALAR_STYLE, "f"),
    Call::End,
    Call::End,
    Call::Finish(Ok(
        "---\n- |-\n  a\n- \"\"\n- >\n  a b\n\n  c\n- !t |-\n  no\n- \"k\": >-\n    v\n- [\"f\"]\n",
    )),
    // A document, and the stream, end with `...` if asked.
    Call::Sequence,
    Call::Text("a"),
    Call::End,
    Call::NextAfterEnd,
    Call::Text("b"),
    Call::Finish(Ok("---\n- a\n...\n--- b\n")),
    Call::Sequence,
    Call::Text("a"),
    Call::End,
    Call::NextAfterEnd,
    Call::Text("b"),
    Call::FinishAfterEnd("---\n- a\n...\n--- b\n...\n"),
];

/// No quotes are single if double ones are asked for.
pub(super) const DOUBLE: &[Call] = &[
    Call::Mapping,
    Call::Text("country"),
    Call::Text("no"),
    Call::Text("it's"),
    Call::Text("a: b"),
    Call::Text(""),
    Call::Text("a\nb"),
    Call::Text("list"),
    Call::Flow,
    Call::Text("a, b"),
    Call::Styled(YAML_SINGLE_QUOTED_SCALAR_STYLE, "c"),
    Call::Styled(YAML_PLAIN_SCALAR_STYLE, "\"d\""),
    Call::Int(5),
    Call::End,
    Call::End,
    Call::Finish(Ok(
        "---\ncountry: \"no\"\nit's: \"a: b\"\n\"\": |-\n  a\n  b\nlist: [\"a, b\", \"c\", \"\\\"d\\\"\", 5]\n",
    )),
];

/// Canonical form asks for double quotes.
pub(super) const CANONICAL: &[Call] = &[
    Call::Styled(YAML_LITERAL_SCALAR_STYLE, "a"),
    Call::Finish(Ok("---\n\"a\"\n")),
];
