//! Styles, encodings and line breaks by their numbers in C, which are libyaml's.
ghost use Rattle.std.specs.Prelude.{◌≡◌, option_map};
ghost use Rattle.yaml_base.specs.Seen.{seen_break, seen_encoding, seen_mapping_style, seen_scalar_style, seen_sequence_style};
ghost use Rattle.yaml_c.specs.EventRecords.{break_numbered, collection_style_numbered, encoding_numbered, scalar_style_numbered};

use yaml_base::{
    yaml_break_t, yaml_encoding_t, yaml_mapping_style_t, yaml_scalar_style_t, yaml_sequence_style_t,
};

pub(crate) fn scalar_style(number: u32) -> Option<yaml_scalar_style_t>
    ensures { option_map seen_scalar_style result ≡ scalar_style_numbered number }
{
    match number {
        0 => Some(yaml_scalar_style_t::YAML_ANY_SCALAR_STYLE),
        1 => Some(yaml_scalar_style_t::YAML_PLAIN_SCALAR_STYLE),
        2 => Some(yaml_scalar_style_t::YAML_SINGLE_QUOTED_SCALAR_STYLE),
        3 => Some(yaml_scalar_style_t::YAML_DOUBLE_QUOTED_SCALAR_STYLE),
        4 => Some(yaml_scalar_style_t::YAML_LITERAL_SCALAR_STYLE),
        5 => Some(yaml_scalar_style_t::YAML_FOLDED_SCALAR_STYLE),
        _ => None,
    }
}

pub(crate) fn sequence_style(number: u32) -> Option<yaml_sequence_style_t>
    ensures { option_map seen_sequence_style result ≡ collection_style_numbered number }
{
    match number {
        0 => Some(yaml_sequence_style_t::YAML_ANY_SEQUENCE_STYLE),
        1 => Some(yaml_sequence_style_t::YAML_BLOCK_SEQUENCE_STYLE),
        2 => Some(yaml_sequence_style_t::YAML_FLOW_SEQUENCE_STYLE),
        _ => None,
    }
}

pub(crate) fn mapping_style(number: u32) -> Option<yaml_mapping_style_t>
    ensures { option_map seen_mapping_style result ≡ collection_style_numbered number }
{
    match number {
        0 => Some(yaml_mapping_style_t::YAML_ANY_MAPPING_STYLE),
        1 => Some(yaml_mapping_style_t::YAML_BLOCK_MAPPING_STYLE),
        2 => Some(yaml_mapping_style_t::YAML_FLOW_MAPPING_STYLE),
        _ => None,
    }
}

pub(crate) fn encoding(number: u32) -> Option<yaml_encoding_t>
    ensures { option_map seen_encoding result ≡ encoding_numbered number }
{
    match number {
        0 => Some(yaml_encoding_t::YAML_ANY_ENCODING),
        1 => Some(yaml_encoding_t::YAML_UTF8_ENCODING),
        2 => Some(yaml_encoding_t::YAML_UTF16LE_ENCODING),
        3 => Some(yaml_encoding_t::YAML_UTF16BE_ENCODING),
        _ => None,
    }
}

pub(crate) fn line_break(number: u32) -> Option<yaml_break_t>
    ensures { option_map seen_break result ≡ break_numbered number }
{
    match number {
        0 => Some(yaml_break_t::YAML_ANY_BREAK),
        1 => Some(yaml_break_t::YAML_CR_BREAK),
        2 => Some(yaml_break_t::YAML_LN_BREAK),
        3 => Some(yaml_break_t::YAML_CRLN_BREAK),
        _ => None,
    }
}
