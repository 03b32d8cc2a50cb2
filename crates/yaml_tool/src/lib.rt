//! Scripts of YAML events: reads and runs them.
#![tactic(auto)]

mod answers;
mod characters;
mod directives;
mod events;
mod fields;
mod lines;
mod numbers;
mod parts;
mod runs;
mod scripts;
mod settings;
mod texts;
mod words;

pub use answers::{run_answer_t, status, write_line};
pub use runs::run;
pub use scripts::{NumberedEvent, Script, ScriptError, read_script};
pub use yaml_emitter::{Quotes, Settings};
