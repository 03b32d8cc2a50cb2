//! Runs of characters that a limit cuts.
use super::{IN_UTF8, check_bytes, check_stopped, made, write_long_run};
use crate::tests::equal;
use std::alloc::Global;
use std::process::Abort;
use yaml_base::{YAML_UTF8_ENCODING, yaml_error_t};

// A run, which is refused if it passes the limit, and a flush, which then is.
fn check_run(rt: &impl Abort, alloc: Global, limit: usize) {
    let mut pen = made(rt, alloc, limit, YAML_UTF8_ENCODING);
    let answer = write_long_run(&mut pen, alloc, 5_000);
    let is_good_or_cut = matches!(answer, Ok(()) | Err(yaml_error_t::WriteError));
    let got = (limit, is_good_or_cut, pen.flush().is_ok());
    equal(rt, &got, &(limit, true, limit == 50_000));
    check_bytes(rt, pen.output(), 0, limit, IN_UTF8);
    if limit < 50_000 {
        check_stopped(rt, alloc, &mut pen, yaml_error_t::WriteError);
    }
    drop(pen);
}

const LIMITS: &[usize] = &[0, 1, 16_383, 16_384, 16_385, 33_333, 49_999, 50_000];

#[test]
fn a_limit_cuts_a_run_at_any_byte(rt: HostRuntime) {
    for limit in LIMITS {
        check_run(&rt, rt.alloc(), *limit);
    }
}
