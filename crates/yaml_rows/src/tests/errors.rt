//! Errors of the library in a caller that returns `anyhow::Result`.
use crate::tests::emitters::{UNSET, give, made};
use crate::tests::{check_words, same};
use std::alloc::Global;
use std::process::Abort;
use yaml_base::{NodeNumber, YAML_STREAM_END_EVENT};
use yaml_emitter::{Settings, yaml_emitter_t};

const HUNDRED: Settings = Settings {
    limit: 100,
    ..UNSET
};

/// Emits an event that no stream begins with.
fn emit_the_end(rt: &impl Abort, emitter: &mut yaml_emitter_t<Global>) -> anyhow::Result<()> {
    give(rt, emitter, YAML_STREAM_END_EVENT)?;
    Ok(())
}

/// Fails by that number, as `yaml_document_t::from_nodes` does.
fn outside(number: NodeNumber) -> anyhow::Result<()> {
    let found: Result<(), NodeNumber> = Err(number);
    found?;
    Ok(())
}

// The answer is an error with these words.
fn check_reported(rt: &impl Abort, alloc: Global, answer: anyhow::Result<()>, words: &str) {
    match answer {
        Ok(()) => same(rt, b"", words.as_bytes()),
        Err(error) => {
            check_words(rt, alloc, &error, words);
            drop(error);
        }
    }
}

#[test]
fn a_caller_passes_errors_on(rt: HostRuntime) {
    let mut emitter = made(&rt, rt.alloc(), &HUNDRED);
    let refused = emit_the_end(&rt, &mut emitter);
    drop(emitter);
    check_reported(&rt, rt.alloc(), refused, "expected STREAM-START");
    let numbered = outside(NodeNumber(-7));
    check_reported(&rt, rt.alloc(), numbered, "no node has the number -7");
}
