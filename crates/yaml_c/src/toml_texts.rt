//! TOML documents as YAML, from memory to memory.
ghost use Rattle.yaml_c.specs.Answers.{CopiesToCaller};
ghost use Rattle.yaml_c.specs.TomlAnswers.{IsTomlRun, toml_answer_of, toml_results};

use crate::results::{CallResult, move_to_caller};
use crate::settings::{ValueOptions, value_settings_from};
use crate::statuses::{DUPLICATE_NAME, NO_MEMORY, NOT_TOML, TOO_DEEP};
use std::alloc::Global;
use yaml_base::{position_of, yaml_error_t};
use yaml_toml::TomlError;

/// Writes the YAML of a TOML document to `out`. See the header.
#[unsafe(no_mangle)]
pub extern "C" fn yaml_from_toml(
    alloc: Global,
    text: &[u8],
    options: &ValueOptions,
    out: &mut [u8],
    report: &mut CallResult,
) -> i32
    ensures { IsTomlRun options.now text.now out.old result out.new report.new }
{
    let settings = value_settings_from(options);
    let content = match std::str::from_utf8(text) {
        Ok(content) => content,
        Err(error) => {
            let position = position_of(text, error.valid_up_to());
            *report = CallResult::at_place(position);
            return NOT_TOML;
        }
    };
    move_toml(
        yaml_toml::yaml_from_toml(alloc, content, settings),
        out,
        report,
    )
}

/// Moves the YAML to the caller's buffer, or reports the error, and returns the status.
fn move_toml(answer: Result<Vec<u8>, TomlError>, out: &mut [u8], report: &mut CallResult) -> i32
    ensures { CopiesToCaller (toml_results (toml_answer_of answer) out.old) result out.new report.new }
{
    *report = CallResult::nothing();
    match answer {
        Ok(yaml) => move_to_caller(yaml, 0, out, report),
        Err(TomlError::NotToml { position, .. }) => {
            *report = CallResult::at_place(position);
            NOT_TOML
        }
        Err(TomlError::TooDeepToRead { position }) => {
            *report = CallResult::at_place(position);
            TOO_DEEP
        }
        Err(TomlError::DefinedAgain { position, .. }) => {
            *report = CallResult::at_place(position);
            DUPLICATE_NAME
        }
        Err(TomlError::TooDeep | TomlError::Emitter(yaml_error_t::TooDeep)) => TOO_DEEP,
        Err(TomlError::Emitter(_)) => NO_MEMORY,
    }
}
