//! Canonical YAML read as typed values: what `write_canonical` writes, and nothing else. So are documents, from what their dumps write.
#![tactic(auto)]

mod cuts;
mod documents;
mod errors;
mod heads;
mod keys;
pub mod laws;
mod leads;
mod levels;
mod names;
mod nodes;
mod positions;
mod quoted;
mod reading;
mod runs;
mod steps;
mod tags;
mod unique;

pub use documents::read_document;
pub use errors::ReadError;
pub use reading::{read_canonical, read_canonical_with};
pub use unique::has_unique_keys;
pub use yaml_base::Position;
pub use yaml_value::{Keys, Value};
