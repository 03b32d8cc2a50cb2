//! JSON texts (RFC 8259) whose numbers are integers of 64 bits, as typed values, and back.
#![tactic(auto)]

mod back;
mod error;
mod levels;
mod numbers;
mod texts;
mod walk;
mod writing;

pub use error::{CanonicalError, ValueError, WriteError};
pub use texts::{canonical_from_json, value_from_json};
pub use writing::{json_from_canonical, json_from_value};
pub use yaml_json::{Expected, JsonError, Position, yaml_error_t};
pub use yaml_read::ReadError;
pub use yaml_value::{Keys, Value};
