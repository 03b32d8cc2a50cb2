//! Dumps documents: a graph of nodes becomes the events of a document. And composes documents from such events.
#![tactic(auto)]

mod anchor_numbers;
mod anchors;
mod composer;
mod composing;
mod copies;
mod dumps;
mod emitting;
mod events;
pub mod laws;
mod outlines;
mod same_events;
mod steps;
mod streams;
mod tags;
mod walk;

// Documents.
pub use composing::{ComposeError, document_of_events};
pub use dumps::{document_events, yaml_emitter_dump, yaml_emitter_dump_typed};
pub use emitting::{emit_each, emit_each_typed};
pub use streams::{yaml_emitter_close, yaml_emitter_open};
pub use tags::{YAML_MAP_TAG, YAML_SEQ_TAG, YAML_STR_TAG};

// The emitter's calls.
pub use yaml_emitter::{
    ScalarContent, borrowed_text, copied_text, yaml_emitter_consume_output, yaml_emitter_delete,
    yaml_emitter_emit, yaml_emitter_emit_scalar, yaml_emitter_flush, yaml_emitter_initialize,
    yaml_emitter_t, yaml_emitter_take_output,
};

// Settings, each by a setter, or all by one struct.
pub use yaml_emitter::{
    Quotes, Settings, yaml_emitter_set_break, yaml_emitter_set_canonical,
    yaml_emitter_set_encoding, yaml_emitter_set_indent, yaml_emitter_set_indented_sequences,
    yaml_emitter_set_line_breaks_1_2, yaml_emitter_set_literal_blanks,
    yaml_emitter_set_output_string, yaml_emitter_set_portable, yaml_emitter_set_quotes,
    yaml_emitter_set_unicode, yaml_emitter_set_width,
};

// Events, documents and errors.
pub use yaml_emitter::{
    CollectionKind, NodeNumber, Quoted, YAML_ALIAS_EVENT, YAML_DOCUMENT_END_EVENT,
    YAML_DOCUMENT_START_EVENT, YAML_EMITTER_ERROR, YAML_MAPPING_END_EVENT,
    YAML_MAPPING_START_EVENT, YAML_MEMORY_ERROR, YAML_SCALAR_EVENT, YAML_SEQUENCE_END_EVENT,
    YAML_SEQUENCE_START_EVENT, YAML_STREAM_END_EVENT, YAML_STREAM_START_EVENT, YAML_WRITER_ERROR,
    yaml_document_t, yaml_error_t, yaml_error_type_t, yaml_event_t, yaml_node_data_t,
    yaml_node_pair_t, yaml_node_t, yaml_tag_directive_t, yaml_version_directive_t,
};

// Styles, encodings and line breaks.
pub use yaml_emitter::{
    YAML_ANY_BREAK, YAML_ANY_ENCODING, YAML_ANY_MAPPING_STYLE, YAML_ANY_SCALAR_STYLE,
    YAML_ANY_SEQUENCE_STYLE, YAML_BLOCK_MAPPING_STYLE, YAML_BLOCK_SEQUENCE_STYLE, YAML_CR_BREAK,
    YAML_CRLN_BREAK, YAML_DOUBLE_QUOTED_SCALAR_STYLE, YAML_FLOW_MAPPING_STYLE,
    YAML_FLOW_SEQUENCE_STYLE, YAML_FOLDED_SCALAR_STYLE, YAML_LITERAL_SCALAR_STYLE, YAML_LN_BREAK,
    YAML_PLAIN_SCALAR_STYLE, YAML_SINGLE_QUOTED_SCALAR_STYLE, YAML_UTF8_ENCODING,
    YAML_UTF16BE_ENCODING, YAML_UTF16LE_ENCODING, yaml_break_t, yaml_encoding_t,
    yaml_mapping_style_t, yaml_scalar_style_t, yaml_sequence_style_t,
};

// Character classes.
pub use yaml_emitter::{
    hex_digit, is_alpha, is_ascii, is_blank, is_bom, is_break, is_printable, is_space,
};

// The parts that write a piece of text, for a caller that puts pieces together.
pub use yaml_emitter::{
    CharacterKind, Charset, Directives, Ending, Indicator, Name, Pen, Position, allows_literal,
    analyze_anchor, analyze_for_style, analyze_name, analyze_scalar, analyze_tag,
    analyze_tag_directive, analyze_version, append_double_quoted, begins_blank, holds_break,
    is_simple_ascii, position_of, scalar_data_t, select_scalar_style, tag_t, write_anchor,
    write_block_scalar_hints, write_double_quoted_scalar, write_folded_scalar,
    write_literal_scalar, write_plain_scalar, write_simple_ascii_scalar,
    write_single_quoted_scalar, write_tag_content, write_tag_handle, write_tag_prefix,
    write_tag_suffix, write_to_sink,
};
pub use yaml_writer::{plain_tag, typed_event};
