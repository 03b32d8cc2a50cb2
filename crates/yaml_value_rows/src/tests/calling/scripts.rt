//! Scripts, run and read.
use crate::tests::{equal, same};
use std::alloc::Global;
use std::io;
use std::process::Abort;
use yaml_dump::yaml_error_t;
use yaml_tool::{ScriptError, read_script, run, run_answer_t, status, write_line};

/// Appends the YAML of a script; returns how the run ended.
fn ran(alloc: Global, script: &str, yaml: &mut Vec<u8>) -> run_answer_t {
    let mut reader = script.as_bytes();
    run(alloc, &mut reader, yaml)
}

/// Writes the program's line of a run, and returns the program's status.
fn reported(answer: &run_answer_t, line: &mut Vec<u8>) -> io::Result<u8> {
    write_line(answer, line)?;
    Ok(status(answer))
}

/// A script; how its run ends, the program's status, what is written, and the program's line.
type Run = (&'static str, run_answer_t, u8, &'static str, &'static str);

fn check_run(rt: &impl Abort, alloc: Global, row: &Run) {
    let mut yaml: Vec<u8> = Vec::new(alloc);
    let answer = ran(alloc, row.0, &mut yaml);
    equal(rt, &answer, &row.1);
    same(rt, yaml.as_slice(), row.3);
    let mut line: Vec<u8> = Vec::new(alloc);
    let status = reported(&answer, &mut line).ok();
    equal(rt, &status, &Some(row.2));
    same(rt, line.as_slice(), row.4);
}

const RUNS: &[Run] = &[
    (
        "+STR any\n+DOC 1 -\n=VAL any 1 1 - - \"a\"\n-DOC 1\n-STR",
        run_answer_t::Done,
        0,
        "a\n",
        "",
    ),
    (
        "+STR any\n-DOC 1",
        run_answer_t::Refused(2, yaml_error_t::ExpectedDocumentStart),
        1,
        "",
        "yamlemit: line 2: expected DOCUMENT-START or STREAM-END\n",
    ),
];

#[test]
fn a_script_is_run_and_a_refusal_has_its_line(rt: HostRuntime) {
    for row in RUNS {
        check_run(&rt, rt.alloc(), row);
    }
}

/// The width that a script sets, and how many events it has; or the number of its first bad line.
type Read = Result<(Option<i32>, usize), ScriptError>;

fn read(alloc: Global, script: &str) -> Read {
    let script = read_script(alloc, script.as_bytes())?;
    Ok((script.settings.width, script.events.len()))
}

const READ: &[(&str, Read)] = &[
    ("width 40\n", Ok((Some(40), 0))),
    ("+STR any\n-STR\n", Ok((None, 2))),
    ("width 40\nwidth 40\n", Err(ScriptError::BadLine(2))),
];

#[test]
fn a_script_is_read(rt: HostRuntime) {
    for (script, wanted) in READ {
        equal(&rt, &read(rt.alloc(), script), wanted);
    }
}
