//! Programs that convert files of texts to YAML: their options, the files that they read and write, their messages and statuses. A program
//! adds its format (`Format`), the conversion of one file (`SendsFile`), and its name and the words of its help (`Wording`).
#![tactic(auto)]

mod arguments;
mod bounds;
mod checking;
mod differences;
mod each;
mod faults;
mod formats;
mod messages;
mod names;
mod options;
mod output;
mod program;
mod sending;
mod sources;
mod streams;
mod version;
mod words;

pub use arguments::{Conversion, conversion_by, value_settings_of};
pub use bounds::is_allowed;
pub use faults::{Failure, NO_MEMORY, Reason};
pub use formats::Format;
pub use messages::Messages;
pub use program::{Streams, run, serve};
pub use sources::{STREAM, Sources, read_file};
pub use streams::{SendsFile, send_stream};
pub use version::VERSION;
pub use words::Wording;
