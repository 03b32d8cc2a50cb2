//! Scripts read by `yaml_tool`, and the report of each end of a run. (`tests/scripts/rows` has scripts with a bad line.)
use crate::tests::runs::line_of;
use crate::tests::{equal, same};
use std::alloc::Global;
use std::process::Abort;
use yaml_base::{YAML_ANY_BREAK, YAML_ANY_ENCODING, yaml_error_t, yaml_event_t};
use yaml_tool::{Quotes, Script, Settings, read_script, run_answer_t, status};

const SETTINGS: Settings = Settings {
    limit: 1_000_000_000,
    encoding: YAML_ANY_ENCODING,
    canonical: true,
    unicode: false,
    quotes: Quotes::Single,
    indent: None,
    width: Some(-1),
    line_break: YAML_ANY_BREAK,
    line_breaks_1_2: false,
    portable: false,
    indented_sequences: false,
    literal_blanks: false,
};

const UNSET: Settings = Settings {
    canonical: false,
    width: None,
    ..SETTINGS
};

/// The number of a line, and its event as it is printed.
type Printed<'a> = (u64, &'a str);

const UNDERSTOOD: &str =
    "canonical on\nwidth -1\n# all in one\n\n+STR any\n+DOC 1 -\n=VAL any 1 1 - - \"a\"\n-DOC 1\n-STR\n";

const UNDERSTOOD_EVENTS: &[Printed] = &[
    (5, "YAML_STREAM_START_EVENT { encoding: YAML_ANY_ENCODING }"),
    (
        6,
        "YAML_DOCUMENT_START_EVENT { version_directive: None, tag_directives: [], implicit: true }",
    ),
    (
        7,
        "YAML_SCALAR_EVENT { anchor: None, tag: None, value: \"a\", plain_implicit: true, quoted_implicit: true, style: YAML_ANY_SCALAR_STYLE }",
    ),
    (8, "YAML_DOCUMENT_END_EVENT { implicit: true }"),
    (9, "YAML_STREAM_END_EVENT"),
];

const EVERY_PART: &str =
    "+STR utf16be\n+DOC 0 1.02 \"!\" \"!a b\" \"!e!\" \"\"\n+SEQ flow 0 \"x\" \"-\"\n=VAL folded 0 1 \"a\" - \"\\u{1f600}\\n\\\\\\\"\"";

const EVERY_PART_EVENTS: &[Printed] = &[
    (
        1,
        "YAML_STREAM_START_EVENT { encoding: YAML_UTF16BE_ENCODING }",
    ),
    (
        2,
        "YAML_DOCUMENT_START_EVENT { version_directive: Some(yaml_version_directive_t { major: 1, minor: 2 }), \
        tag_directives: [yaml_tag_directive_t { handle: \"!\", prefix: \"!a b\" }, yaml_tag_directive_t { handle: \"!e!\", prefix: \"\" }], \
        implicit: false }",
    ),
    (
        3,
        "YAML_SEQUENCE_START_EVENT { anchor: Some(\"x\"), tag: Some(\"-\"), implicit: false, style: YAML_FLOW_SEQUENCE_STYLE }",
    ),
    (
        4,
        "YAML_SCALAR_EVENT { anchor: Some(\"a\"), tag: None, value: \"\u{1F600}\\n\\\\\\\"\", plain_implicit: false, quoted_implicit: true, \
        style: YAML_FOLDED_SCALAR_STYLE }",
    ),
];

/// Scripts, each with its settings and its events.
const SCRIPTS: &[(&str, Settings, &[Printed])] = &[
    (UNDERSTOOD, SETTINGS, UNDERSTOOD_EVENTS),
    (EVERY_PART, UNSET, EVERY_PART_EVENTS),
];

// The event is printed so.
fn check_event(rt: &impl Abort, alloc: Global, event: &yaml_event_t<Global>, printed: &str) {
    let text = format!(in alloc; "{event:?}").expect(rt, "no memory");
    equal(rt, &text.as_str(), &printed);
}

fn check_events(rt: &impl Abort, alloc: Global, script: &Script<Global>, wanted: &[Printed]) {
    equal(rt, &script.events.len(), &wanted.len());
    for (numbered, (line, printed)) in script.events.iter().zip(wanted) {
        equal(rt, &numbered.line, line);
        check_event(rt, alloc, &numbered.event, printed);
    }
}

#[test]
fn scripts_are_understood(rt: HostRuntime) {
    for (bytes, settings, events) in SCRIPTS {
        let script = read_script(rt.alloc(), bytes.as_bytes()).expect(&rt, "a script");
        equal(&rt, &script.settings, settings);
        check_events(&rt, rt.alloc(), &script, events);
    }
}

/// The end of a run, with its status and its line.
type End<'a> = (run_answer_t, u8, &'a str);

const ENDS: &[End] = &[
    (run_answer_t::Done, 0, ""),
    (
        run_answer_t::Refused(2, yaml_error_t::ExpectedStreamStart),
        1,
        "yamlemit: line 2: expected STREAM-START\n",
    ),
    (
        run_answer_t::Refused(7, yaml_error_t::Memory),
        1,
        "yamlemit: line 7: out of memory\n",
    ),
    (
        run_answer_t::BadLine(1),
        2,
        "yamlemit: line 1: cannot be read\n",
    ),
    (run_answer_t::ReadFailed, 3, "yamlemit: cannot read\n"),
    (run_answer_t::WriteFailed, 3, "yamlemit: cannot write\n"),
    (run_answer_t::NoMemory, 3, "yamlemit: out of memory\n"),
];

#[test]
fn each_answer_has_its_status_and_its_line(rt: HostRuntime) {
    for (answer, number, line) in ENDS {
        equal(&rt, &status(answer), number);
        let written = line_of(&rt, rt.alloc(), answer);
        same(&rt, written.as_slice(), line.as_bytes());
    }
}
