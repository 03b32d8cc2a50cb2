//! Texts with tabs, and with spaces at the ends of their lines. (`tests/json/rows.json` has others.)
use super::Call;

/// A text of several lines is literal, unless a nonempty line is of blanks alone.
pub(super) const CALLS: &[Call] = &[
    // In a mapping, in flow, and alone in a document, in which a text that begins with a blank isn't literal.
    Call::Mapping,
    Call::Text("k"),
    Call::Text("a\tb \nc"),
    Call::Text("f"),
    Call::Flow,
    Call::Text("a\tb\nc"),
    Call::End,
    Call::End,
    Call::Next,
    Call::Text("a \n\tb\n"),
    Call::Next,
    Call::Text("\ta\nb"),
    Call::Finish(Ok(
        "---\nk: |-\n  a\tb \n  c\nf: [\"a\\tb\\nc\"]\n--- |\n  a \n  \tb\n--- \"\\ta\\nb\"\n",
    )),
];

/// A text with tabs, or with spaces at the ends of its lines, is in double quotes if blanks aren't literal.
pub(super) const QUOTED: &[Call] = &[
    Call::Sequence,
    Call::Text("a\tb\nc"),
    Call::Text("a \nb"),
    Call::Text("a\nb  "),
    Call::Text("a\nb"),
    Call::End,
    Call::Finish(Ok("---\n- \"a\\tb\\nc\"\n- \"a \\nb\"\n- \"a\\nb  \"\n- |-\n  a\n  b\n")),
];
