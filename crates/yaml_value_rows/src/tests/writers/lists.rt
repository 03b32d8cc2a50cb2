//! Lists in mappings, indented and undented.
use super::{Call, give_all};
use crate::tests::{answers, finished, writer};
use std::alloc::Global;
use std::process::Abort;
use yaml_writer::{Settings, value_settings};

/// A list of a list and a word, as a value, a list with an anchor, and a list as the key of a list with a tag.
const LISTS: &[Call] = &[
    Call::Mapping,
    Call::Text("a"),
    Call::Sequence,
    Call::Sequence,
    Call::Text("b"),
    Call::End,
    Call::Text("c"),
    Call::End,
    Call::Text("d"),
    Call::Anchored("x"),
    Call::Sequence,
    Call::Text("e"),
    Call::End,
    Call::Sequence,
    Call::Text("f"),
    Call::Sequence,
    Call::Text("g"),
    Call::End,
    Call::End,
    Call::Tagged("!t"),
    Call::Sequence,
    Call::Text("h"),
    Call::End,
    Call::End,
];

/// Whether lists in mappings are indented, by how many columns nodes are, and the text.
type Layout = (bool, Option<i32>, &'static str);

fn check_layout(rt: &impl Abort, alloc: Global, row: &Layout) {
    let settings = Settings {
        indented_sequences: row.0,
        indent: row.1,
        ..value_settings()
    };
    let mut writer = writer(rt, alloc, settings);
    give_all(rt, alloc, settings, &mut writer, &("lists", LISTS));
    answers(rt, finished(writer), &Ok(row.2));
}

/// Lists begin in the column of the keys if they aren't indented.
const LAYOUTS: &[Layout] = &[
    (
        true,
        None,
        "---\na:\n  - - b\n  - c\nd: &x\n  - e\n? - f\n  - - g\n: !t\n  - h\n",
    ),
    (
        true,
        Some(4),
        "---\na:\n    -   - b\n    - c\nd: &x\n    - e\n?   - f\n    -   - g\n: !t\n    - h\n",
    ),
    (
        false,
        Some(2),
        "---\na:\n- - b\n- c\nd: &x\n- e\n? - f\n  - - g\n: !t\n- h\n",
    ),
    (
        false,
        Some(4),
        "---\na:\n-   - b\n- c\nd: &x\n- e\n?   - f\n    -   - g\n: !t\n- h\n",
    ),
];

#[test]
fn lists_in_mappings_are_indented_where_asked(rt: HostRuntime) {
    for row in LAYOUTS {
        check_layout(&rt, rt.alloc(), row);
    }
}
