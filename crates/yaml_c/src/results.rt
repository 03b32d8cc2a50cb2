//! The results of calls, beside their status.
ghost use Rattle.std.specs.Prelude.{◌≡◌};
ghost use Rattle.yaml_c.specs.Answers.{CopiesToCaller, at_place, nothing_reported, results_done};

use crate::buffers::move_out;
use crate::statuses::{DONE, TOO_SMALL};
use std::alloc::Allocator;
use yaml_base::Position;

/// The result of a call, beside its status. See the header.
#[repr(C)]
#[derive(Clone, Copy)]
pub struct CallResult {
    pub length: usize,
    pub event: u64,
    pub line: u64,
    pub column: u64,
    pub error: u32,
}

impl CallResult {
    pub(crate) fn nothing() -> CallResult
        ensures { result ≡ nothing_reported }
    {
        CallResult {
            length: 0,
            event: 0,
            line: 0,
            column: 0,
            error: 0,
        }
    }

    pub(crate) fn at_place(position: Position) -> CallResult
        ensures { result ≡ at_place position }
    {
        let mut place = CallResult::nothing();
        place.line = position.line as u64;
        place.column = position.column as u64;
        place
    }
}

/// Moves the YAML to the caller's buffer, but for its first `skip` bytes, which the caller has.
pub(crate) fn move_to_caller<A: Allocator>(
    yaml: Vec<u8, A>,
    skip: usize,
    out: &mut [u8],
    report: &mut CallResult,
) -> i32
    ensures { CopiesToCaller (results_done yaml.items skip out.old) result out.new report.new }
{
    *report = CallResult::nothing();
    report.length = yaml.len();
    if move_out(yaml, skip, out) {
        DONE
    } else {
        TOO_SMALL
    }
}
