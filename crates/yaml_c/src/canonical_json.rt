//! JSON texts as canonical bytes, from memory to memory.
ghost use Rattle.yaml_c.specs.Answers.{CopiesToCaller};
ghost use Rattle.yaml_c.specs.CanonicalJson.{IsCanonicalRun, canonical_results, found_of};

use crate::canonical::{CanonicalOptions, keys_from};
use crate::json_texts::move_json;
use crate::results::{CallResult, move_to_caller};
use crate::statuses::{NOT_INTEGER, NOT_JSON};
use std::alloc::Global;
use yaml_base::position_of;
use yaml_json_value::{ValueError, canonical_from_json};

/// Writes the canonical bytes of the value of a JSON text to `out`. See the header.
#[unsafe(no_mangle)]
pub extern "C" fn yaml_canonical_from_json(
    alloc: Global,
    text: &[u8],
    options: &CanonicalOptions,
    out: &mut [u8],
    report: &mut CallResult,
) -> i32
    ensures { IsCanonicalRun options.now text.now out.old result out.new report.new }
{
    let keys = keys_from(options);
    let content = match std::str::from_utf8(text) {
        Ok(content) => content,
        Err(error) => {
            let position = position_of(text, error.valid_up_to());
            *report = CallResult::at_place(position);
            return NOT_JSON;
        }
    };
    move_canonical(canonical_from_json(alloc, content, keys), out, report)
}

/// Moves the bytes to the caller's buffer, or reports the error, and returns the status.
fn move_canonical(
    answer: Result<Vec<u8>, ValueError>,
    out: &mut [u8],
    report: &mut CallResult,
) -> i32
    ensures { CopiesToCaller (canonical_results (found_of answer) out.old) result out.new report.new }
{
    match answer {
        Ok(bytes) => move_to_caller(bytes, 0, out, report),
        Err(ValueError::Json(error)) => move_json(Err(error), out, report),
        Err(ValueError::NotInteger { position }) => {
            *report = CallResult::at_place(position);
            NOT_INTEGER
        }
    }
}
