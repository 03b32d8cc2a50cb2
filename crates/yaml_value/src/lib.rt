//! Typed values, written as canonical YAML.
#![tactic(auto)]

mod keys;
pub mod laws;
mod levels;
mod size;
mod texts;
mod value;
mod walk;
mod writing;

pub use keys::Keys;
pub use levels::Level;
pub use value::Value;
pub use writing::{canonical_settings, write_canonical};
pub use yaml_base::{
    YAML_ANY_BREAK, YAML_ANY_ENCODING, YAML_CR_BREAK, YAML_CRLN_BREAK, YAML_LN_BREAK,
    YAML_UTF8_ENCODING, YAML_UTF16BE_ENCODING, YAML_UTF16LE_ENCODING, yaml_break_t,
    yaml_encoding_t, yaml_error_t,
};
pub use yaml_emitter::{Quotes, Settings};
