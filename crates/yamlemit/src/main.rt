//! The program: reads a script of YAML events from standard input, and writes its YAML to standard output.
#![tactic(auto)]

use std::io;
use std::process::ExitCode;
use yaml_tool::{run, status, write_line};

/// Exits with the run's status, even if reporting the failure fails. Ignores arguments.
fn main(rt: HostRuntime) -> ExitCode {
    let answer = run(rt.alloc(), &mut rt.reader(), &mut io::writer(&rt));
    let stderr = rt.stderr();
    let _written = write_line(&answer, &mut io::writer(&stderr));
    ExitCode::from(status(&answer))
}
