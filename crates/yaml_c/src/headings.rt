//! Headings of a C program's streams.
ghost use Rattle.yaml_c.specs.Arena.{utf8_text};
ghost use Rattle.yaml_c.specs.HeadingAnswers.{IsHeadingRun};

use crate::arena::text_of;
use crate::results::{CallResult, move_to_caller};
use crate::statuses::{BAD_EVENT, NO_MEMORY};
use std::alloc::Global;
use yaml_writer::comment_lines;

/// Writes a text as lines of comments to `out`. See the header.
#[unsafe(no_mangle)]
pub extern "C" fn yaml_c_comment_lines(
    alloc: Global,
    text: &[u8],
    out: &mut [u8],
    report: &mut CallResult,
) -> i32
    ensures { IsHeadingRun (utf8_text text.now) out.old result out.new report.new }
{
    *report = CallResult::nothing();
    let Some(content) = text_of(text) else {
        return BAD_EVENT;
    };
    let Ok(lines) = comment_lines(alloc, content) else {
        return NO_MEMORY;
    };
    move_to_caller(lines.into_bytes(), 0, out, report)
}
