//! The settings in effect from the stream's start on.

ghost use Rattle.std.specs.Prelude.{pos, ◌≤◌, ◌≤ℤ◌};

use yaml_base::{yaml_break_t, yaml_encoding_t};

/// The settings that the layout uses. Neither the encoding nor the break is ANY.
#[derive(Clone, Copy)]
pub(crate) struct EffectiveSettings {
    pub encoding: yaml_encoding_t,
    pub canonical: bool,
    pub unicode: bool,
    /// No scalar is written in single quotes.
    pub double_quotes: bool,
    /// In columns, 2 to 9.
    pub indent: u32,
    /// In characters; `i32::MAX` for no limit.
    pub width: i32,
    pub line_break: yaml_break_t,
    pub breaks12: bool,
    pub portable: bool,
    pub indented_sequences: bool,
    pub literal_blanks: bool,
    pub limit: usize,
    ghost indents: { 2 ≤ indent },
    ghost indents_within: { indent ≤ 9 },
    ghost counts: { pos 0 ≤ℤ width },
}
