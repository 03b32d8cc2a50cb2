//! Scalars with borrowed texts are written as their events are; one that needn't wait takes no memory.
use super::{Answer, UNSET, check_failed, give, made};
use crate::tests::{equal, equal_at, event_of, same};
use std::alloc::{Allocator, Global};
use std::process::Abort;
use yaml_base::{YAML_SCALAR_EVENT, yaml_error_t, yaml_event_t};
use yaml_emitter::{
    ScalarContent, Settings, borrowed_text, yaml_emitter_emit_scalar, yaml_emitter_t,
};
use yaml_test_allocator::Refusing;

/// A line of a script, and how many events wait after it.
type Line<'a> = (&'a str, usize);

/// Settings, lines, the last line with its result, and the text that is written.
type Row<'a> = (&'a Settings, &'a [Line<'a>], (&'a str, Answer), &'a str);

/// Keys and values of each kind: the first key and value of the mapping wait, and the first item of the sequence.
const ENTRIES: &[Line] = &[
    ("+STR any", 0),
    ("+DOC 1 -", 1),
    ("+MAP block 1 - -", 1),
    (r#"=VAL any 1 1 - - "simple_ascii""#, 2),
    (r#"=VAL any 1 1 - - "a value""#, 3),
    (r#"=VAL single 1 1 - - "quoted""#, 0),
    (r#"=VAL double 1 1 - - "a\nb""#, 0),
    (r#"=VAL any 0 0 - "!city" "Oslo""#, 0),
    (r#"=VAL any 1 1 "place" - "named""#, 0),
    (r#"=VAL any 1 1 - - "two\nlines""#, 0),
    (r#"=VAL literal 1 1 - - "one\ntwo\n""#, 0),
    ("-MAP", 0),
    ("-DOC 1", 0),
    ("+DOC 1 -", 1),
    ("+SEQ flow 1 - -", 1),
    (r#"=VAL any 0 0 "first" "!item" ": no""#, 2),
    (r#"=VAL folded 1 1 - - "x y""#, 0),
    (r#"=VAL plain 1 1 - - "last""#, 0),
    ("-SEQ", 0),
    ("-DOC 1", 0),
    ("+DOC 1 -", 1),
    (r#"=VAL any 0 1 - - "root""#, 0),
    ("-DOC 1", 0),
];

const ENTRIES_TEXT: &str = "simple_ascii: a value
'quoted': \"a\\nb\"
!city Oslo: &place named
? 'two

  lines'
: |
  one
  two
--- [&first !item ': no', \"x y\", last]
--- 'root'
";

const ENTRIES_IN_CANONICAL_FORM: &str = "---
{
  ? \"simple_ascii\"
  : \"a value\",
  ? \"quoted\"
  : \"a\\nb\",
  ? !city \"Oslo\"
  : &place \"named\",
  ? \"two\\nlines\"
  : \"one\\ntwo\\n\",
}
---
[
  &first !item \": no\",
  \"x y\",
  \"last\",
]
---
\"root\"
";

const CANONICAL: &Settings = &Settings {
    canonical: true,
    ..UNSET
};

const LETTER: &str = r#"=VAL any 1 1 - - "a""#;

const WRITTEN: &[Row] = &[
    (&UNSET, ENTRIES, ("-STR", Ok(())), ENTRIES_TEXT),
    (
        CANONICAL,
        ENTRIES,
        ("-STR", Ok(())),
        ENTRIES_IN_CANONICAL_FORM,
    ),
];

/// The last scalar is refused.
const REFUSED: &[Row] = &[
    (
        &UNSET,
        &[],
        (LETTER, Err(yaml_error_t::ExpectedStreamStart)),
        "",
    ),
    (
        &UNSET,
        &[("+STR any", 0)],
        (LETTER, Err(yaml_error_t::ExpectedDocumentStart)),
        "",
    ),
    (
        &UNSET,
        &[("+STR any", 0), ("+DOC 1 -", 1), (LETTER, 0)],
        (LETTER, Err(yaml_error_t::ExpectedDocumentEnd)),
        "",
    ),
    (
        &UNSET,
        &[("+STR any", 0), ("-STR", 0)],
        (LETTER, Err(yaml_error_t::ExpectedNothing)),
        "",
    ),
    (
        &UNSET,
        &[("+STR any", 0), ("+DOC 1 -", 1)],
        (r#"=VAL any 1 1 "" - "a""#, Err(yaml_error_t::AnchorEmpty)),
        "",
    ),
    (
        &UNSET,
        &[("+STR any", 0)],
        (r#"=VAL any 0 0 - "" "a""#, Err(yaml_error_t::TagEmpty)),
        "",
    ),
    (
        &UNSET,
        &[
            ("+STR any", 0),
            ("+DOC 1 -", 1),
            ("+MAP block 1 - -", 1),
            (LETTER, 2),
            (LETTER, 3),
        ],
        (
            r#"=VAL any 0 0 - - "c""#,
            Err(yaml_error_t::NoTagNorImplicit),
        ),
        "",
    ),
];

/// The way in which scalars are given: by their events, or borrowed with the growth of this number refused, none with 0.
type Way = Option<usize>;

/// The start of a document takes memory, so no growth is refused if a scalar makes the first one ready.
const TABLES: &[(&[Row], &[Way])] = &[
    (WRITTEN, &[None, Some(0), Some(1)]),
    (REFUSED, &[None, Some(0)]),
];

/// Emits a scalar with borrowed texts: an output is set.
fn give_borrowed<A: Allocator + Copy>(
    rt: &impl Abort,
    emitter: &mut yaml_emitter_t<A>,
    content: &ScalarContent,
) -> Answer {
    assert!(rt; emitter.has_output());
    yaml_emitter_emit_scalar(emitter, content)
}

// A scalar that is queued takes memory: if it gets none, nothing changes, and it is taken when it comes again. One
// that is written at once takes none.
fn give_refused<A: Allocator + Copy>(
    rt: &impl Abort,
    heap: &Refusing<Global>,
    emitter: &mut yaml_emitter_t<A>,
    content: &ScalarContent,
    growth: usize,
) -> Answer {
    let held = emitter.held();
    heap.refuse(growth);
    let answer = give_borrowed(rt, emitter, content);
    if heap.left() == growth {
        heap.refuse(0);
        return answer;
    }
    let got = (answer, emitter.error(), emitter.held());
    equal(rt, &got, &(Err(yaml_error_t::Memory), None, held));
    equal(rt, &emitter.has_taken(answer), &false);
    let again = give_borrowed(rt, emitter, content);
    equal(rt, &emitter.has_taken(again), &true);
    equal(rt, &emitter.held(), &held.saturating_add(1));
    again
}

// The scalar of an event.
fn content_of<A: Allocator>(event: &yaml_event_t<A>) -> Option<ScalarContent<'_>> {
    match event {
        YAML_SCALAR_EVENT {
            anchor,
            tag,
            value,
            plain_implicit,
            quoted_implicit,
            style,
        } => Some(ScalarContent {
            anchor: borrowed_text(anchor),
            tag: borrowed_text(tag),
            value: value.as_str(),
            plain_implicit: *plain_implicit,
            quoted_implicit: *quoted_implicit,
            style: *style,
        }),
        _ => None,
    }
}

// The event of a line, or its scalar.
fn give_line<A: Allocator + Copy>(
    rt: &impl Abort,
    heap: &Refusing<Global>,
    alloc: A,
    emitter: &mut yaml_emitter_t<A>,
    (line, way): (&str, Way),
) -> Answer {
    let event = event_of(rt, alloc, line);
    if let (Some(growth), Some(content)) = (way, content_of(&event)) {
        let answer = give_refused(rt, heap, emitter, &content, growth);
        drop(event);
        return answer;
    }
    give(rt, emitter, event)
}

fn check_lines<A: Allocator + Copy>(
    rt: &impl Abort,
    heap: &Refusing<Global>,
    alloc: A,
    emitter: &mut yaml_emitter_t<A>,
    (row, way): (&Row, Way),
) {
    for line in row.1 {
        let answer = give_line(rt, heap, alloc, emitter, (line.0, way));
        equal_at(rt, line.0, &(answer, emitter.held()), &(Ok(()), line.1));
    }
    let (line, wanted) = row.2;
    let answer = give_line(rt, heap, alloc, emitter, (line, way));
    equal_at(rt, line, &answer, &wanted);
    if let Err(error) = answer {
        check_failed(rt, emitter, error);
    }
    same(rt, emitter.output(), row.3.as_bytes());
}

fn check_row<A: Allocator + Copy>(
    rt: &impl Abort,
    heap: &Refusing<Global>,
    alloc: A,
    row: &Row,
    way: Way,
) {
    let mut emitter = made(rt, alloc, row.0);
    check_lines(rt, heap, alloc, &mut emitter, (row, way));
    drop(emitter);
}

#[test]
fn borrowed_scalars_stand_as_their_events_do(rt: HostRuntime) {
    let heap = Refusing::new(rt.alloc());
    for (rows, ways) in TABLES {
        for row in *rows {
            for way in *ways {
                check_row(&rt, &heap, &heap, row, *way);
            }
        }
    }
}
