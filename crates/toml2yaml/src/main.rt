//! The program: TOML documents, from files or from standard input, as YAML.
#![tactic(auto)]

mod failures;
mod formats;
mod sending;
mod words;

use crate::formats::TomlFormat;
use std::process::ExitCode;

/// Exits with the run's status, even if reporting the failure fails.
fn main(rt: HostRuntime) -> ExitCode {
    ExitCode::from(yaml_program::run::<TomlFormat>(&rt))
}
