//! Scripts that end before their stream does: events that are ready are written, and those that wait are not.
use super::calls::check_calls;
use super::{Flushes, Row};
use crate::tests::Rows;
use yaml_base::yaml_error_t;
use yaml_tool::run_answer_t;

/// Each beginning of these is checked.
pub(super) const SCRIPTS: Rows = &[
    // A block waits for the events after its start.
    (
        "",
        r#"
+STR any
+DOC 1 - "!e!" "tag:e.com,2000:"
+MAP block 1 - - |%TAG !e! tag:e.com,2000:↵---
=VAL any 1 1 "n" - "a key"
+SEQ block 1 - -
=VAL any 0 0 - "tag:e.com,2000:t" "x" |↵&n a key
+MAP flow 1 - - |:↵- !e!t x
=VAL any 1 1 - - "k"
+SEQ flow 1 "s" -
-SEQ |↵- {k: &s []
-MAP |}
=VAL literal 1 1 - - "a\n\n" |↵- |+↵  a↵↵
-SEQ
=ALI "n" |*n␠
+MAP block 1 - -
-MAP |: {}
-MAP
-DOC 1 |↵
+DOC 1 -
=VAL literal 1 1 - - "b\n\n" |--- |+↵  b↵↵
-DOC 1
-STR |...↵
"#,
    ),
    // A flow sequence waits for two events.
    (
        "",
        r#"
+STR any
+DOC 1 -
+SEQ flow 1 "a" -
+SEQ flow 1 - -
=VAL any 1 1 - - "x" |&a
-SEQ | [[x]
-SEQ |]
-DOC 1 |↵
"#,
    ),
    // A canonical item is written without its comma.
    (
        "canonical on\nwidth -1",
        r#"
+STR any
+DOC 1 -
+SEQ block 1 - - |---↵
=VAL any 1 1 - - "a"
=VAL any 1 1 - - "b" |[↵  "a",↵  "b"
-SEQ |,↵]
-DOC 1 |↵
"#,
    ),
];

/// A script, the line after which it is flushed (0: after the last alone), the call that is refused, and the output with its length after each flush.
type Flushed<'a> = (&'a str, u64, run_answer_t, &'a [u8], &'a [usize]);

const FLUSHED: &[Flushed] = &[
    // The outer sequence has an anchor, which is written before the inner one is known.
    (
        r#"+STR any
+DOC 1 -
+SEQ flow 1 "a" -
+SEQ flow 1 - -
=VAL any 1 1 - - "x"
-SEQ
-SEQ
-DOC 1
-STR"#,
        5,
        run_answer_t::Done,
        b"&a [[x]]\n",
        &[2, 9],
    ),
    // A document that ends within a sequence: the text before the wrong event is flushed, and nothing else.
    (
        r#"+STR any
+DOC 1 -
+SEQ flow 1 - -
=VAL any 1 1 - - "a"
=VAL any 1 1 - - "b"
-DOC 1"#,
        5,
        run_answer_t::Refused(6, yaml_error_t::ExpectedNode),
        b"[a, b",
        &[],
    ),
    // Three bytes with a limit of two.
    (
        r#"limit 2
+STR any
+DOC 1 -
=VAL any 1 1 - - "foo"
-DOC 1"#,
        4,
        run_answer_t::Refused(4, yaml_error_t::WriteError),
        b"fo",
        &[],
    ),
    (
        "+DOC 1 -\n=VAL any 1 1 - - \"a\"",
        0,
        run_answer_t::Refused(2, yaml_error_t::ExpectedStreamStart),
        b"",
        &[],
    ),
    // Nothing waits, and the last flush writes as much as the limit allows.
    (
        "limit 2\n+STR any\n# a comment\n+DOC 1 -\n\n=VAL any 1 1 - - \"abc\"\n\n",
        0,
        run_answer_t::Refused(6, yaml_error_t::WriteError),
        b"ab",
        &[],
    ),
    // An event that is given after a refusal changes nothing.
    (
        "+STR any\n+DOC 1 -\n=VAL any 1 1 - - \"a\"\n-DOC 1\n-DOC 1\n+DOC 1 -\n=VAL any 1 1 - - \"b\"\n-DOC 1\n-STR",
        0,
        run_answer_t::Refused(5, yaml_error_t::ExpectedDocumentStart),
        b"a\n",
        &[],
    ),
    (
        "limit 4\ncanonical on\nwidth -1\n+STR any\n+DOC 1 -\n=VAL any 1 1 - - \"a\"\n-DOC 1\n-STR",
        0,
        run_answer_t::Refused(7, yaml_error_t::WriteError),
        b"---\n",
        &[],
    ),
    (
        "limit 3\ncanonical on\nwidth -1\n+STR utf16be\n+DOC 1 -\n=VAL any 1 1 - - \"a\"\n-DOC 1\n-STR",
        0,
        run_answer_t::Refused(7, yaml_error_t::WriteError),
        b"\xFE\xFF\0",
        &[],
    ),
];

#[test]
fn what_is_ready_is_flushed(rt: HostRuntime) {
    for (script, line, answer, output, lengths) in FLUSHED {
        let row = Row {
            script,
            answer: *answer,
            output,
            lengths,
            flushes: Flushes::After(*line),
        };
        check_calls(&rt, rt.alloc(), &row);
    }
}
