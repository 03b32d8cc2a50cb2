//! Values, written as YAML, each by one call; which texts may be plain, and how numbers are spelled.
#![tactic(auto)]

mod binary;
mod civil_dates;
mod collections;
mod dates;
mod digits;
mod ends;
mod floats;
mod giving;
mod headings;
pub mod laws;
mod numbers;
mod plain_numbers;
mod plain_tags;
mod properties;
mod scalars;
mod settings;
mod spelling;
mod tags;
mod texts;
mod times;
mod timestamps;
mod toml_dates;
mod typed;
mod words;
mod writer;

pub use dates::{Date, NoTimestamp};
pub use ends::DocumentEnd;
pub use floats::SpecialFloat;
pub use headings::comment_lines;
pub use numbers::{Number, Sign, number_of};
pub use plain_tags::plain_tag;
pub use settings::{ValueSettings, value_settings};
pub use spelling::{Spelling, number_spelling};
pub use texts::is_surely_text;
pub use times::{Offset, Time};
pub use timestamps::{Timestamp, write_timestamp};
pub use toml_dates::write_datetime;
pub use typed::{typed_content, typed_event};
pub use writer::Writer;
pub use yaml_base::{
    YAML_ANY_BREAK, YAML_ANY_ENCODING, YAML_ANY_MAPPING_STYLE, YAML_ANY_SCALAR_STYLE,
    YAML_ANY_SEQUENCE_STYLE, YAML_BLOCK_MAPPING_STYLE, YAML_BLOCK_SEQUENCE_STYLE, YAML_CR_BREAK,
    YAML_CRLN_BREAK, YAML_DOUBLE_QUOTED_SCALAR_STYLE, YAML_FLOW_MAPPING_STYLE,
    YAML_FLOW_SEQUENCE_STYLE, YAML_FOLDED_SCALAR_STYLE, YAML_LITERAL_SCALAR_STYLE, YAML_LN_BREAK,
    YAML_PLAIN_SCALAR_STYLE, YAML_SINGLE_QUOTED_SCALAR_STYLE, YAML_UTF8_ENCODING,
    YAML_UTF16BE_ENCODING, YAML_UTF16LE_ENCODING, yaml_break_t, yaml_encoding_t, yaml_error_t,
    yaml_mapping_style_t, yaml_scalar_style_t, yaml_sequence_style_t,
};
pub use yaml_emitter::{CollectionKind, Quotes, Settings};
