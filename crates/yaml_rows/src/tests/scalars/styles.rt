//! Styles that are known from outside, from the value to the choice.
use crate::tests::{equal, equal_at};
use yaml_base::{
    YAML_ANY_SCALAR_STYLE, YAML_DOUBLE_QUOTED_SCALAR_STYLE, YAML_FOLDED_SCALAR_STYLE,
    YAML_LITERAL_SCALAR_STYLE, YAML_PLAIN_SCALAR_STYLE, YAML_SINGLE_QUOTED_SCALAR_STYLE,
    yaml_error_t, yaml_scalar_style_t,
};
use yaml_scalar::{analyze_scalar, select_scalar_style};

/// A value, whether unicode and the line breaks of YAML 1.2 are on; whether it has several lines; the styles that it allows:
/// plain in flow, plain in block, single quotes, a block.
type Analysis<'a> = (&'a str, bool, bool, bool, bool, bool, bool, bool);

const ANALYSES: &[Analysis] = &[
    ("foo", false, false, false, true, true, true, true),
    ("", false, false, false, false, true, true, false),
    ("a:", false, false, false, false, false, true, true),
    ("a,b", false, false, false, false, true, true, true),
    ("a #b", false, false, false, false, false, true, true),
    ("a ", false, false, false, false, false, true, false),
    ("a\nb", false, false, true, false, false, true, true),
    ("a \nb", false, false, true, false, false, false, false),
    ("---x", false, false, false, false, false, true, true),
    ("\u{E9}", false, false, false, false, false, false, false),
    ("\u{E9}", true, false, false, true, true, true, true),
    ("a\u{2028}b", true, false, true, false, false, true, true),
    ("a\u{2028}b", true, true, true, false, false, false, false),
    ("\t", true, false, false, false, false, false, false),
];

#[test]
fn values_are_analysed(rt: HostRuntime) {
    for row in ANALYSES {
        let (value, unicode, breaks12, multiline, flow, block, single, lines) = *row;
        let data = analyze_scalar(value, unicode, breaks12);
        let got = [
            data.multiline,
            data.flow_plain_allowed,
            data.block_plain_allowed,
            data.single_quoted_allowed,
            data.block_allowed,
        ];
        let wanted = [multiline, flow, block, single, lines];
        equal_at(&rt, value, &got, &wanted);
    }
}

const ANY: yaml_scalar_style_t = YAML_ANY_SCALAR_STYLE;

const PLAIN: yaml_scalar_style_t = YAML_PLAIN_SCALAR_STYLE;

const SINGLE: yaml_scalar_style_t = YAML_SINGLE_QUOTED_SCALAR_STYLE;

const DOUBLE: yaml_scalar_style_t = YAML_DOUBLE_QUOTED_SCALAR_STYLE;

const LITERAL: yaml_scalar_style_t = YAML_LITERAL_SCALAR_STYLE;

const FOLDED: yaml_scalar_style_t = YAML_FOLDED_SCALAR_STYLE;

/// A style, and whether the bare tag `!` goes before it; or an error.
type Choice = Result<(yaml_scalar_style_t, bool), yaml_error_t>;

/// A value, the style asked for, its two flags; whether it is in flow, is a simple key, and is canonical.
type Asked<'a> = (&'a str, yaml_scalar_style_t, (bool, bool), bool, bool, bool);

// `tagged` if the value has a tag.
fn choice(asked: &Asked, tagged: bool) -> Choice {
    let (value, style, (plain, quoted), flow, key, canonical) = *asked;
    let data = analyze_scalar(value, false, false);
    let empty = value.is_empty();
    select_scalar_style(
        style, &data, empty, tagged, plain, quoted, flow, key, canonical,
    )
}

/// A row: the style asked for, whether the value has a tag, and the choice.
type Choosing<'a> = (Asked<'a>, bool, Choice);

const CHOICES: &[Choosing] = &[
    (
        ("foo", ANY, (true, true), false, false, false),
        false,
        Ok((PLAIN, false)),
    ),
    (
        ("a:", ANY, (true, false), false, false, false),
        false,
        Ok((SINGLE, true)),
    ),
    (
        ("foo", PLAIN, (false, true), false, false, false),
        false,
        Ok((SINGLE, false)),
    ),
    (
        ("", ANY, (true, true), true, false, false),
        false,
        Ok((SINGLE, false)),
    ),
    (
        ("", ANY, (true, true), false, false, false),
        false,
        Ok((PLAIN, false)),
    ),
    (
        ("a", ANY, (true, false), false, false, true),
        false,
        Ok((DOUBLE, true)),
    ),
    (
        ("a\nb", LITERAL, (true, true), false, true, false),
        false,
        Ok((DOUBLE, false)),
    ),
    (
        ("a\nb", LITERAL, (true, true), false, false, false),
        false,
        Ok((LITERAL, false)),
    ),
    (
        ("a", FOLDED, (true, true), true, false, false),
        false,
        Ok((DOUBLE, false)),
    ),
    (NEITHER, true, Ok((PLAIN, false))),
    (NEITHER, false, Err(yaml_error_t::NoTagNorImplicit)),
];

/// Both flags are off.
const NEITHER: Asked = ("x", ANY, (false, false), false, false, false);

#[test]
fn styles_are_chosen(rt: HostRuntime) {
    for (asked, tagged, wanted) in CHOICES {
        equal(&rt, &choice(asked, *tagged), wanted);
    }
}
