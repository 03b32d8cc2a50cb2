//! The words of a script's lines, and their meaning.
ghost use Rattle.std.specs.Prelude.{◌≡◌, None, List, MatchOption, option_map, nat_lt, IsTrue};
ghost use Rattle.std.specs.List.{list_all};
ghost use Rattle.std.specs.Str.{chars};
ghost use Rattle.yaml_base.specs.scripts.Script as notation;
ghost use Rattle.yaml_base.specs.Seen.{seen_encoding, seen_break, seen_scalar_style};
ghost use Rattle.yaml_tool.specs.Events.{event_word, seen_collection_style};

use yaml_base::{yaml_break_t, yaml_encoding_t, yaml_scalar_style_t};

/// Returns whether a word is this name, which is ASCII. Compares byte by byte, since the name is short and known when this is
/// compiled.
pub fn is_word(word: &str, name: &'static str) -> bool
    requires { IsTrue (list_all (λ byte. nat_lt byte 128) name.now) }
    ensures { result ≡ notation.is_word (chars word.now) name.now }
{
    let mut left = word.as_bytes();
    let mut named = name.as_bytes();
    loop {
        match (left, named) {
            ([byte, rest @ ..], [wanted, others @ ..]) => {
                if *byte != *wanted {
                    return false;
                }
                left = rest;
                named = others;
            }
            ([], []) => return true,
            ([_, ..], []) | ([], [_, ..]) => return false,
        }
    }
}

/// The names of events.
#[derive(Clone, Copy)]
pub enum EventName {
    /// `+STR`.
    StreamStart,
    /// `-STR`.
    StreamEnd,
    /// `+DOC`.
    DocumentStart,
    /// `-DOC`.
    DocumentEnd,
    /// `=ALI`.
    Alias,
    /// `=VAL`.
    Scalar,
    /// `+SEQ`.
    SequenceStart,
    /// `-SEQ`.
    SequenceEnd,
    /// `+MAP`.
    MappingStart,
    /// `-MAP`.
    MappingEnd,
}

/// Parses the name of an event. The names of most lines are tried first.
pub fn event_named(word: &str) -> Option<EventName>
    ensures { MatchOption result ((fields : List notation.Field) → notation.event_of (chars word.now) fields ≡ None)
        (λ name. chars word.now ≡ event_word name) }
{
    if is_word(word, "=VAL") {
        Some(EventName::Scalar)
    } else if is_word(word, "-MAP") {
        Some(EventName::MappingEnd)
    } else if is_word(word, "+MAP") {
        Some(EventName::MappingStart)
    } else if is_word(word, "-SEQ") {
        Some(EventName::SequenceEnd)
    } else if is_word(word, "+SEQ") {
        Some(EventName::SequenceStart)
    } else if is_word(word, "+DOC") {
        Some(EventName::DocumentStart)
    } else if is_word(word, "-DOC") {
        Some(EventName::DocumentEnd)
    } else if is_word(word, "=ALI") {
        Some(EventName::Alias)
    } else if is_word(word, "+STR") {
        Some(EventName::StreamStart)
    } else if is_word(word, "-STR") {
        Some(EventName::StreamEnd)
    } else {
        None
    }
}

/// Parses `0` or `1`.
pub fn flag_named(word: &str) -> Option<bool>
    ensures { result ≡ notation.named notation.flags (chars word.now) }
{
    if is_word(word, "0") {
        Some(false)
    } else if is_word(word, "1") {
        Some(true)
    } else {
        None
    }
}

/// Parses `off` or `on`.
pub fn switch_named(word: &str) -> Option<bool>
    ensures { result ≡ notation.named notation.switches (chars word.now) }
{
    if is_word(word, "off") {
        Some(false)
    } else if is_word(word, "on") {
        Some(true)
    } else {
        None
    }
}

/// Parses `undented` or `indented`.
pub fn indentation_named(word: &str) -> Option<bool>
    ensures { result ≡ notation.named notation.indentations (chars word.now) }
{
    if is_word(word, "undented") {
        Some(false)
    } else if is_word(word, "indented") {
        Some(true)
    } else {
        None
    }
}

/// Parses `quoted` or `literal`.
pub fn blanks_named(word: &str) -> Option<bool>
    ensures { result ≡ notation.named notation.blanks (chars word.now) }
{
    if is_word(word, "quoted") {
        Some(false)
    } else if is_word(word, "literal") {
        Some(true)
    } else {
        None
    }
}

/// Parses `any`, `utf8`, `utf16le` or `utf16be`.
pub fn encoding_named(word: &str) -> Option<yaml_encoding_t>
    ensures { option_map seen_encoding result ≡ notation.named notation.encodings (chars word.now) }
{
    if is_word(word, "any") {
        Some(yaml_encoding_t::YAML_ANY_ENCODING)
    } else if is_word(word, "utf8") {
        Some(yaml_encoding_t::YAML_UTF8_ENCODING)
    } else if is_word(word, "utf16le") {
        Some(yaml_encoding_t::YAML_UTF16LE_ENCODING)
    } else if is_word(word, "utf16be") {
        Some(yaml_encoding_t::YAML_UTF16BE_ENCODING)
    } else {
        None
    }
}

/// Parses `any`, `cr`, `ln` or `crln`.
pub fn break_named(word: &str) -> Option<yaml_break_t>
    ensures { option_map seen_break result ≡ notation.named notation.line_breaks (chars word.now) }
{
    if is_word(word, "any") {
        Some(yaml_break_t::YAML_ANY_BREAK)
    } else if is_word(word, "cr") {
        Some(yaml_break_t::YAML_CR_BREAK)
    } else if is_word(word, "ln") {
        Some(yaml_break_t::YAML_LN_BREAK)
    } else if is_word(word, "crln") {
        Some(yaml_break_t::YAML_CRLN_BREAK)
    } else {
        None
    }
}

/// Parses `any`, `plain`, `single`, `double`, `literal` or `folded`.
pub fn scalar_style_named(word: &str) -> Option<yaml_scalar_style_t>
    ensures { option_map seen_scalar_style result ≡ notation.named notation.scalar_styles (chars word.now) }
{
    if is_word(word, "any") {
        Some(yaml_scalar_style_t::YAML_ANY_SCALAR_STYLE)
    } else if is_word(word, "plain") {
        Some(yaml_scalar_style_t::YAML_PLAIN_SCALAR_STYLE)
    } else if is_word(word, "single") {
        Some(yaml_scalar_style_t::YAML_SINGLE_QUOTED_SCALAR_STYLE)
    } else if is_word(word, "double") {
        Some(yaml_scalar_style_t::YAML_DOUBLE_QUOTED_SCALAR_STYLE)
    } else if is_word(word, "literal") {
        Some(yaml_scalar_style_t::YAML_LITERAL_SCALAR_STYLE)
    } else if is_word(word, "folded") {
        Some(yaml_scalar_style_t::YAML_FOLDED_SCALAR_STYLE)
    } else {
        None
    }
}

/// The styles of a collection.
#[derive(Clone, Copy)]
pub enum CollectionStyle {
    /// `any`.
    Any,
    /// `block`.
    Block,
    /// `flow`.
    Flow,
}

/// Parses `any`, `block` or `flow`.
pub fn collection_style_named(word: &str) -> Option<CollectionStyle>
    ensures { option_map seen_collection_style result ≡ notation.named notation.collection_styles (chars word.now) }
{
    if is_word(word, "any") {
        Some(CollectionStyle::Any)
    } else if is_word(word, "block") {
        Some(CollectionStyle::Block)
    } else if is_word(word, "flow") {
        Some(CollectionStyle::Flow)
    } else {
        None
    }
}
