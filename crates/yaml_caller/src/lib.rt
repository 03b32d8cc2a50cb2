//! Callers of the emitter, of a writer and of values: they know the public contracts and the definitions, and prove the bytes that they get.
#![tactic(auto)]

mod alone;
mod cycles;
mod graphs;
mod pairs;
mod service;
mod store;
mod values;

pub use cycles::cycle_written;
pub use graphs::same_graph;
pub use pairs::write_pair;
pub use service::{Service, service_yaml};
pub use store::{Entry, OpenError, SealError, entries_are_values, open, seal, sealed_and_opened};
pub use values::{same_bytes, written_and_read};
