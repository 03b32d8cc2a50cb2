//! The styles of nodes. A style is a wish: if it can't be kept, another is chosen.

/// The style in which a scalar is written (YAML 1.1, chapter 9).
#[derive(Clone, Copy, PartialEq, Eq, Debug)]
pub enum yaml_scalar_style_t {
    /// Plain if possible, else quoted.
    YAML_ANY_SCALAR_STYLE,
    /// Without quotes (YAML 1.1, section 9.1.3).
    YAML_PLAIN_SCALAR_STYLE,
    /// Between `'` and `'` (YAML 1.1, section 9.1.2).
    YAML_SINGLE_QUOTED_SCALAR_STYLE,
    /// Between `"` and `"`, with escapes (YAML 1.1, section 9.1.1).
    YAML_DOUBLE_QUOTED_SCALAR_STYLE,
    /// A block after `|`, line for line (YAML 1.1, section 9.3.1).
    YAML_LITERAL_SCALAR_STYLE,
    /// A block after `>`, whose lines are folded (YAML 1.1, section 9.3.2).
    YAML_FOLDED_SCALAR_STYLE,
}

/// The style in which a sequence is written (YAML 1.1, section 10.1).
#[derive(Clone, Copy, PartialEq, Eq, Debug)]
pub enum yaml_sequence_style_t {
    /// A block if possible.
    YAML_ANY_SEQUENCE_STYLE,
    /// An item a line, each after `- `.
    YAML_BLOCK_SEQUENCE_STYLE,
    /// Between `[` and `]`.
    YAML_FLOW_SEQUENCE_STYLE,
}

/// The style in which a mapping is written (YAML 1.1, section 10.2).
#[derive(Clone, Copy, PartialEq, Eq, Debug)]
pub enum yaml_mapping_style_t {
    /// A block if possible.
    YAML_ANY_MAPPING_STYLE,
    /// A pair a line.
    YAML_BLOCK_MAPPING_STYLE,
    /// Between `{` and `}`.
    YAML_FLOW_MAPPING_STYLE,
}
