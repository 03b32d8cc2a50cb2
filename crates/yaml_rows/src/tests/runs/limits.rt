//! Outputs longer than the buffer, one of them with a limit. (`tests/scripts/rows` has short outputs with each limit.)
use super::calls::check_calls;
use super::growths::answered;
use super::written::check_script;
use super::{Flushes, Row, check_row};
use crate::tests::{equal, joined, repeated};
use std::alloc::Global;
use std::process::Abort;
use yaml_base::yaml_error_t;
use yaml_tool::run_answer_t;

/// Returns a document of one value, after these settings and in this encoding.
fn of_value(rt: &impl Abort, alloc: Global, start: &str, value: &str) -> String {
    let parts = [
        start,
        "\n+DOC 1 -\n=VAL any 1 1 - - \"",
        value,
        "\"\n-DOC 1\n-STR",
    ];
    joined(rt, alloc, &parts)
}

// A text longer than the buffer, with a flush in the end alone, and with one after each event: so many bytes come after a
// stream's start, a document's start, and the value.
fn check_long(rt: &impl Abort, alloc: Global, script: &str, text: &[u8], lengths: &[usize]) {
    let row = Row::done(script, text);
    check_row(rt, alloc, &row);
    let row = Row {
        lengths,
        flushes: Flushes::Each,
        ..row
    };
    check_calls(rt, alloc, &row);
}

#[test]
fn a_text_longer_than_the_buffer_is_whole(rt: HostRuntime) {
    let alloc = rt.alloc();
    let value = repeated(&rt, alloc, "x", 40_000);
    let script = of_value(&rt, alloc, "+STR any", value.as_str());
    let text = joined(&rt, alloc, &[value.as_str(), "\n"]);
    let bytes = text.as_bytes();
    equal(&rt, &bytes.len(), &40_001);
    check_long(&rt, alloc, script.as_str(), bytes, &[0, 0, 40_000]);
}

/// Events that take memory in each way that there is, up to a long value.
const BEFORE: &str = r#"+STR any
+DOC 1 - "!e!" "tag:e.com,2000:"
+MAP block 1 - -
=VAL any 1 1 - - "a key"
+SEQ block 1 - -
+SEQ block 1 - -
+SEQ block 1 - -
=VAL any 0 0 - "tag:e.com,2000:t" "x"
=VAL any 1 1 - - ""#;

/// Those up to the document's end, and the text before the value.
const BETWEEN: &str = r#""
-SEQ
-SEQ
-SEQ
-MAP
-DOC 1 |%TAG !e! tag:e.com,2000:↵---↵a key:↵- - - !e!t x↵    - "#;

/// The document's last line break, and another document.
const AFTER: &str = r#"↵
+DOC 1 -
=VAL any 1 1 - - "b"
-DOC 1 |--- b↵
-STR"#;

#[test]
fn a_stream_that_takes_memory_in_each_way_is_whole(rt: HostRuntime) {
    let alloc = rt.alloc();
    let value = repeated(&rt, alloc, "y", 17_000);
    let value = value.as_str();
    let row = joined(&rt, alloc, &[BEFORE, value, BETWEEN, value, AFTER]);
    check_script(&rt, alloc, "", row.as_str());
}

/// Returns so many letters in UTF-16.
fn units(rt: &impl Abort, alloc: Global, count: usize) -> Vec<u8> {
    let mut text = Vec::from_slice(alloc, b"\xFF\xFE").expect(rt, "no memory");
    for _ in 0..count {
        text.extend_from_slice(b"\xE9\0").expect(rt, "no memory");
    }
    text.extend_from_slice(b"\n\0").expect(rt, "no memory");
    text
}

// Which of two calls answers is left to the buffer: the scalar's, or the document's end.
fn check_cut(rt: &impl Abort, alloc: Global, script: &str, text: &[u8]) {
    let answer = answered(rt, alloc, script.as_bytes(), &mut Vec::new(alloc));
    let is_cut = matches!(
        answer,
        run_answer_t::Refused(5 | 6, yaml_error_t::WriteError)
    );
    equal(rt, &is_cut, &true);
    let row = Row {
        answer,
        ..Row::done(script, text.get(..32_771).unwrap_or(text))
    };
    check_row(rt, alloc, &row);
}

// Whole, and cut by a limit.
fn check_units(rt: &impl Abort, alloc: Global, script: &str) {
    let text = units(rt, alloc, 20_000);
    equal(rt, &text.len(), &40_004);
    check_long(rt, alloc, script, text.as_slice(), &[2, 2, 40_002]);
    let limited = joined(rt, alloc, &["limit 32771\n", script]);
    check_cut(rt, alloc, limited.as_str(), text.as_slice());
}

#[test]
fn a_long_text_in_units_of_two_bytes_is_cut(rt: HostRuntime) {
    let alloc = rt.alloc();
    let value = repeated(&rt, alloc, "\u{E9}", 20_000);
    let start = "unicode on\n+STR utf16le";
    let script = of_value(&rt, alloc, start, value.as_str());
    check_units(&rt, alloc, script.as_str());
}
