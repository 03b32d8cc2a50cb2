//! The pieces that events write, put through the pen one by one.
mod atoms;
mod contents;
mod directives;
mod documents;
mod indicators;
mod nodes;
mod open_ended;
mod places;
mod properties;
mod scalars;
mod simple_ascii;
mod simple_keys;
mod site;
mod spelling;
mod styles;

pub use contents::{ScalarContent, borrowed_text};
pub(crate) use contents::{
    CollectionContent, writes_collection_tag, writes_scalar_tag, written_collection_tag,
    written_scalar_tag,
};
pub(crate) use directives::{StartContent, write_document_start};
pub(crate) use documents::{document_end_atoms, write_closing_marker, write_document_atoms};
pub(crate) use nodes::{
    entries_column, is_written_in_flow, write_alias, write_collection_end, write_collection_start,
    write_lead,
};
pub(crate) use open_ended::OpenEnded;
pub(crate) use scalars::write_scalar;
pub(crate) use simple_ascii::stands_plain;
pub(crate) use simple_keys::{
    is_simple_alias_key, is_simple_ascii_key, is_simple_collection_key, is_simple_scalar_key,
};
pub(crate) use site::Site;
pub(crate) use spelling::{SpelledTag, spell};
pub(crate) use styles::line_indent;
