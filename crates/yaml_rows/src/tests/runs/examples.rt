//! Streams with their texts, some of each topic. `tests/scripts/rows` has the others.
use crate::tests::Rows;

/// Settings, and a stream, whose lines have after ` |` the text that becomes ready up to them.
pub(super) const EXAMPLES: Rows = &[
    // A script of nothing, and a stream without documents.
    ("", ""),
    ("", "+STR any\n-STR"),
    // Scalars: quotes, a block that keeps its last breaks, folds, a tag, a separator of lines, and other line breaks.
    (
        "",
        r#"
+STR any
+DOC 1 -
=VAL single 1 1 - - "a\nb"
-DOC 1 |'a↵↵  b'↵
-STR
"#,
    ),
    (
        "",
        r#"
+STR any
+DOC 1 -
=VAL literal 1 1 - - "a\n\n"
-DOC 1 ||+↵  a↵↵
-STR |...↵
"#,
    ),
    (
        "width 5",
        r#"
+STR any
+DOC 1 -
=VAL folded 1 1 - - "aaaaaa  b"
-DOC 1 |>-↵  aaaaaa ↵  b↵
-STR
"#,
    ),
    (
        "",
        r#"
+STR any
+DOC 1 -
=VAL any 0 0 - "tag:yaml.org,2002:int" "5"
-DOC 1 |!!int 5↵
-STR
"#,
    ),
    (
        "unicode on",
        r#"
+STR any
+DOC 1 -
=VAL single 1 1 - - "a\u{2028}b"
-DOC 1 |'a¶  b'↵
-STR
"#,
    ),
    (
        "break crln",
        r#"
+STR any
+DOC 1 -
=VAL literal 1 1 - - "a\n"
-DOC 1 ||␍↵  a␍↵
-STR
"#,
    ),
    // Collections in blocks, with anchors, in flow, and by an indent of four.
    (
        "",
        r#"
+STR any
+DOC 1 -
+MAP block 1 - -
=VAL any 1 1 - - "a"
+SEQ block 1 - -
=VAL any 1 1 - - "b"
=VAL any 1 1 - - "c"
-SEQ
-MAP
-DOC 1 |a:↵- b↵- c↵
-STR
"#,
    ),
    (
        "",
        r#"
+STR any
+DOC 1 -
+SEQ block 1 - -
+SEQ block 1 "id002" -
=VAL any 1 1 "id001" - "a"
=ALI "id001"
-SEQ
=ALI "id002"
-SEQ
-DOC 1 |- &id002↵  - &id001 a↵  - *id001↵- *id002↵
-STR
"#,
    ),
    (
        "width 5",
        r#"
+STR any
+DOC 1 -
+SEQ flow 1 - -
=VAL any 1 1 - - "aaaa"
=VAL any 1 1 - - "bb"
-SEQ
-DOC 1 |[aaaa,↵  bb]↵
-STR
"#,
    ),
    (
        "indent 4",
        r#"
+STR any
+DOC 1 -
+SEQ block 1 - -
+SEQ block 1 - -
=VAL any 1 1 - - "a"
-SEQ
-SEQ
-DOC 1 |-   - a↵
-STR
"#,
    ),
    // Documents with a version, and with a directive after another document.
    (
        "",
        r#"
+STR any
+DOC 1 1.1
=VAL any 1 1 - - "foo"
-DOC 1 |%YAML 1.1↵--- foo↵
-STR
"#,
    ),
    (
        "",
        r#"
+STR any
+DOC 1 -
=VAL any 1 1 - - "a"
-DOC 1 |a↵
+DOC 1 - "!e!" "tag:e.com,2000:"
=VAL any 0 0 - "tag:e.com,2000:t" "x"
-DOC 1 |...↵%TAG !e! tag:e.com,2000:↵--- !e!t x↵
-STR
"#,
    ),
    // Canonical text, portable text, indented sequences, and literal blanks.
    (
        "canonical on",
        r#"
+STR any
+DOC 1 -
+MAP any 0 - "tag:yaml.org,2002:map"
=VAL any 1 1 "a" "tag:yaml.org,2002:str" "k"
=ALI "a"
-MAP
-DOC 1 |---↵!!map {↵  ? &a !!str "k"↵  : *a,↵}↵
-STR
"#,
    ),
    (
        "portable on",
        r#"
+STR any
+DOC 1 -
=VAL any 0 0 - "!a,b[c]" "x"
-DOC 1 |--- !a%2Cb%5Bc%5D x↵
-STR
"#,
    ),
    (
        "width 5\nsequences indented",
        r#"
+STR any
+DOC 1 -
+MAP block 1 - -
=VAL any 1 1 - - "a"
+SEQ block 1 - -
=VAL literal 1 1 - - "b\n"
=VAL any 1 1 - - "c d"
-SEQ
-MAP
-DOC 1 |a:↵  - |↵    b↵  - c d↵
-STR
"#,
    ),
    (
        "blanks literal",
        r#"
+STR any
+DOC 1 -
=VAL literal 1 1 - - "a␉b\n"
-DOC 1 ||↵  a␉b↵
-STR
"#,
    ),
];
