//! Types, errors and character classes of a YAML 1.1 emitter, and all definitions that its contracts cite.
#![tactic(auto)]

mod characters;
mod directives;
mod documents;
mod encodings;
mod errors;
mod events;
mod kinds;
pub mod laws;
mod nodes;
mod places;
mod quoting;
mod scalars;
mod sinks;
mod styles;

pub use characters::{
    hex_digit, is_alpha, is_ascii, is_blank, is_bom, is_break, is_printable, is_space,
};
pub use directives::{yaml_tag_directive_t, yaml_version_directive_t};
pub use documents::{NodeNumber, yaml_document_t};
pub use encodings::yaml_break_t::{YAML_ANY_BREAK, YAML_CR_BREAK, YAML_CRLN_BREAK, YAML_LN_BREAK};
pub use encodings::yaml_encoding_t::{
    YAML_ANY_ENCODING, YAML_UTF8_ENCODING, YAML_UTF16BE_ENCODING, YAML_UTF16LE_ENCODING,
};
pub use encodings::{yaml_break_t, yaml_encoding_t};
pub use errors::yaml_error_type_t::{YAML_EMITTER_ERROR, YAML_MEMORY_ERROR, YAML_WRITER_ERROR};
pub use errors::{yaml_error_t, yaml_error_type_t};
pub use events::yaml_event_t;
pub use events::yaml_event_t::{
    YAML_ALIAS_EVENT, YAML_DOCUMENT_END_EVENT, YAML_DOCUMENT_START_EVENT, YAML_MAPPING_END_EVENT,
    YAML_MAPPING_START_EVENT, YAML_SCALAR_EVENT, YAML_SEQUENCE_END_EVENT,
    YAML_SEQUENCE_START_EVENT, YAML_STREAM_END_EVENT, YAML_STREAM_START_EVENT,
};
pub use kinds::CollectionKind;
pub use nodes::{yaml_node_data_t, yaml_node_pair_t, yaml_node_t};
pub use places::{Position, position_of};
pub use quoting::Quoted;
pub use scalars::{CharacterKind, Charset, Ending, scalar_data_t};
pub use sinks::write_to_sink;
pub use styles::yaml_mapping_style_t::{
    YAML_ANY_MAPPING_STYLE, YAML_BLOCK_MAPPING_STYLE, YAML_FLOW_MAPPING_STYLE,
};
pub use styles::yaml_scalar_style_t::{
    YAML_ANY_SCALAR_STYLE, YAML_DOUBLE_QUOTED_SCALAR_STYLE, YAML_FOLDED_SCALAR_STYLE,
    YAML_LITERAL_SCALAR_STYLE, YAML_PLAIN_SCALAR_STYLE, YAML_SINGLE_QUOTED_SCALAR_STYLE,
};
pub use styles::yaml_sequence_style_t::{
    YAML_ANY_SEQUENCE_STYLE, YAML_BLOCK_SEQUENCE_STYLE, YAML_FLOW_SEQUENCE_STYLE,
};
pub use styles::{yaml_mapping_style_t, yaml_scalar_style_t, yaml_sequence_style_t};
