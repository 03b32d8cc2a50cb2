//! TOML documents (TOML 1.1), read with the keys of each table in the order in which they are first defined. The tokens are read
//! by `toml_parser`.
#![tactic(auto)]

mod document;
mod fault;
mod keys;
pub mod laws;
mod long_keys;
mod names;
mod passed;
mod route;
mod scalars;
mod syntax;
mod tables;
mod tree;
mod values;

pub use document::read_document;
pub use fault::Fault;
pub use keys::LiveKeys;
pub use syntax::SyntaxError;
pub use tree::{Node, Origin, Table};
