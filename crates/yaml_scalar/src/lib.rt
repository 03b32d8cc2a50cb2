//! Scalars: analysis, choice of style, and the five writers.
#![tactic(auto)]

mod analysis;
mod appended;
mod batched;
mod blanks;
mod block_header;
mod block_lines;
mod characters;
mod classes;
mod clean_ascii;
mod double_quoted;
mod escapes;
mod folded;
mod lines;
mod literal;
mod plain;
mod repeats;
mod runs;
mod shared;
mod short_runs;
mod simple_ascii;
mod single_quoted;
mod style;

pub use analysis::{analyze_for_style, analyze_scalar, holds_break};
pub use appended::append_double_quoted;
pub use blanks::allows_literal;
pub use block_header::{begins_blank, write_block_scalar_hints};
pub use double_quoted::write_double_quoted_scalar;
pub use folded::write_folded_scalar;
pub use literal::write_literal_scalar;
pub use plain::write_plain_scalar;
pub use simple_ascii::{is_simple_ascii, write_simple_ascii_scalar};
pub use single_quoted::write_single_quoted_scalar;
pub use style::select_scalar_style;
pub use yaml_base::scalar_data_t;
