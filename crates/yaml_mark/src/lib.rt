//! Versions, tag directives, anchors and tags.
#![tactic(auto)]

mod directives;
mod index;
pub mod laws;
mod names;
mod tags;
mod writing;

pub use directives::Directives;
pub use names::{Name, analyze_anchor, analyze_name, analyze_tag_directive, analyze_version};
pub use tags::{analyze_tag, tag_t};
pub use writing::{
    write_anchor, write_tag_content, write_tag_handle, write_tag_prefix, write_tag_suffix,
};
