//! The program: JSON texts, from files or from standard input, as YAML.
#![tactic(auto)]

mod deterministic;
mod failures;
mod formats;
mod sending;
mod words;

use crate::formats::JsonFormat;
use std::process::ExitCode;

/// Exits with the run's status, even if reporting the failure fails.
fn main(rt: HostRuntime) -> ExitCode {
    ExitCode::from(yaml_program::run::<JsonFormat>(&rt))
}
