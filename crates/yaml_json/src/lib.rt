//! JSON texts (RFC 8259), written as YAML that both schemas of YAML read as the same values: in portable mode with the line
//! breaks of YAML 1.1 and with those of 1.2, else with those that the settings have.
#![tactic(auto)]

mod cuts;
mod error;
mod escapes;
mod expecting;
pub mod laws;
mod lexeme_faults;
mod lexemes;
mod names;
mod places;
mod settings;
mod several;
mod stream;
mod texts;
mod tokens;
mod values;
mod words;

pub use error::{JsonError, StreamError};
pub use expecting::Expected;
pub use settings::JsonSettings;
pub use several::write_json_texts;
pub use stream::send_json_texts;
pub use texts::{write_json, yaml_from_json};
pub use tokens::Tokens;
pub use yaml_base::{Position, position_of};
pub use yaml_writer::{
    Quotes, Settings, ValueSettings, Writer, YAML_ANY_BREAK, YAML_ANY_ENCODING, YAML_CR_BREAK,
    YAML_CRLN_BREAK, YAML_LN_BREAK, YAML_UTF8_ENCODING, YAML_UTF16BE_ENCODING,
    YAML_UTF16LE_ENCODING, value_settings, yaml_break_t, yaml_encoding_t, yaml_error_t,
};
