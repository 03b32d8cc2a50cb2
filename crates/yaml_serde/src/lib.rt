//! Any value that implements `serde::Serialize`, written as YAML.
#![tactic(auto)]

mod document;
mod error;
mod outlet;
mod path;
mod scalars;
mod serializer;
mod serializing;
mod settings;

pub use error::{Cause, Error};
pub use serializing::{
    to_string, to_vec, to_vec_with, to_writer, to_writer_with, write, write_with,
};
pub use settings::{SerdeSettings, Variants};
pub use yaml_writer::{
    DocumentEnd, Quotes, Settings, ValueSettings, Writer, YAML_ANY_BREAK, YAML_ANY_ENCODING,
    YAML_CR_BREAK, YAML_CRLN_BREAK, YAML_LN_BREAK, YAML_UTF8_ENCODING, YAML_UTF16BE_ENCODING,
    YAML_UTF16LE_ENCODING, value_settings, yaml_break_t, yaml_encoding_t, yaml_error_t,
};
