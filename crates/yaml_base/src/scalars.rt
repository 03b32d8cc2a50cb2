//! What is found in a scalar's value: the styles that it allows, the kinds of its characters, its ending.

/// The characters that may be written as themselves.
#[derive(Clone, Copy, PartialEq, Eq, Debug)]
pub struct Charset {
    /// All printable characters may, and not only those of ASCII.
    pub unicode: bool,
    /// U+2028 and U+2029 may not, since they aren't line breaks in YAML 1.2.
    pub breaks12: bool,
}

/// The styles that a scalar's value allows.
#[derive(Clone, Copy, PartialEq, Eq, Debug)]
pub struct scalar_data_t {
    /// The value holds a break.
    pub multiline: bool,
    /// It may be plain in a flow collection.
    pub flow_plain_allowed: bool,
    /// It may be plain in a block collection or as a root.
    pub block_plain_allowed: bool,
    /// It may be single-quoted.
    pub single_quoted_allowed: bool,
    /// It may be literal or folded.
    pub block_allowed: bool,
}

/// The kind of a character in a line.
#[derive(Clone, Copy, PartialEq, Eq, Debug)]
pub enum CharacterKind {
    /// A space.
    Space,
    /// A line break.
    Break,
    /// Any other character.
    Other,
}

/// The ending of a value.
#[derive(Clone, Copy, PartialEq, Eq, Debug)]
pub enum Ending {
    /// No break.
    WithoutBreak,
    /// Exactly one break after another character.
    OneBreak,
    /// Any other: more than one break, or one that is all.
    MoreBreaks,
}
