//! Runs in which each growth is refused in turn: out of memory is reported, and the output is a prefix.
use crate::tests::{equal, same};
use std::alloc::Global;
use std::process::Abort;
use yaml_base::yaml_error_t;
use yaml_test_allocator::Refusing;
use yaml_tool::{run, run_answer_t};

// A run in which a growth was refused; a whole run has this report and this output.
fn check_refused(
    rt: &impl Abort,
    reported: run_answer_t,
    output: &[u8],
    answer: run_answer_t,
    whole: &[u8],
) {
    match reported {
        run_answer_t::Refused(line, yaml_error_t::Memory) => {
            let last = match answer {
                run_answer_t::Refused(last, _) => last,
                _ => u64::MAX,
            };
            let got = (line, line <= last, whole.starts_with(output));
            equal(rt, &got, &(line, true, true));
        }
        _ => equal(rt, &(reported, output.len()), &(run_answer_t::NoMemory, 0)),
    }
}

// A run of a script with this growth refused. Answers whether there is that growth.
fn is_refused(
    rt: &impl Abort,
    (alloc, number): (Global, usize),
    script: &[u8],
    answer: run_answer_t,
    whole: &[u8],
) -> bool {
    let heap = Refusing::new(alloc);
    heap.refuse(number);
    let mut left = script;
    let mut output: Vec<u8> = Vec::new(alloc);
    let reported = run(&heap, &mut left, &mut output);
    if heap.left() != 0 {
        equal(rt, &reported, &answer);
        same(rt, output.as_slice(), whole);
        return false;
    }
    check_refused(rt, reported, output.as_slice(), answer, whole);
    true
}

/// Runs a script, and returns how that ends; and runs it with the first growth refused, the second, and so on, until a run meets
/// no refusal.
pub(super) fn answered(
    rt: &impl Abort,
    alloc: Global,
    script: &[u8],
    output: &mut Vec<u8>,
) -> run_answer_t {
    let mut left = script;
    let answer = run(alloc, &mut left, output);
    for number in 1..usize::MAX {
        if !is_refused(rt, (alloc, number), script, answer, output.as_slice()) {
            equal(rt, &(number > 1), &true);
            return answer;
        }
    }
    answer
}
