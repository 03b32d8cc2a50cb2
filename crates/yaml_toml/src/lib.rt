//! TOML documents (TOML 1.1), written as YAML that YAML 1.1 and the core schema of YAML 1.2 read as the same values. The keys of each
//! table are in the order in which the document first defines them. Comments are dropped.
#![tactic(auto)]

mod error;
pub mod laws;
mod scalars;
mod texts;
mod walk;

pub use error::TomlError;
pub use texts::{write_toml, yaml_from_toml};
pub use toml_ordered::SyntaxError;
pub use yaml_base::Position;
pub use yaml_writer::{
    Quotes, Settings, ValueSettings, Writer, YAML_ANY_BREAK, YAML_ANY_ENCODING, YAML_CR_BREAK,
    YAML_CRLN_BREAK, YAML_LN_BREAK, YAML_UTF8_ENCODING, YAML_UTF16BE_ENCODING,
    YAML_UTF16LE_ENCODING, value_settings, yaml_break_t, yaml_encoding_t, yaml_error_t,
};
