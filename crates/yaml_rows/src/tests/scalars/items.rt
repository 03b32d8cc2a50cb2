//! Scalars after an indicator and after one another, with each line break.
ghost use Rattle.yaml_pen.specs.Page.{IsReady};

use super::{Layout, new_pen, new_pen_within, write_in};
use crate::tests::pens::{check_flushed, cursor};
use crate::tests::{equal, equal_at, write_indicator};
use std::alloc::Global;
use std::process::Abort;
use yaml_base::{
    YAML_CR_BREAK, YAML_CRLN_BREAK, YAML_DOUBLE_QUOTED_SCALAR_STYLE, YAML_FOLDED_SCALAR_STYLE,
    YAML_LITERAL_SCALAR_STYLE, YAML_LN_BREAK, YAML_PLAIN_SCALAR_STYLE,
    YAML_SINGLE_QUOTED_SCALAR_STYLE, yaml_break_t, yaml_error_t, yaml_scalar_style_t,
};
use yaml_pen::{Indicator, Pen};
use yaml_scalar::write_block_scalar_hints;

/// The text before the scalars of an item.
enum Before {
    Nothing,
    /// An indicator `-`, which a space must follow.
    Dash,
    /// A byte `-`, which is no space.
    Hyphen,
}

fn write_before(pen: &mut Pen<Global>, before: &Before) -> Result<(), yaml_error_t>
    requires { IsReady pen.old }
    ensures { IsReady pen.new }
{
    match before {
        Before::Nothing => Ok(()),
        Before::Dash => write_indicator(pen, &Indicator::indented("-")),
        Before::Hyphen => {
            pen.set_whitespace(false);
            pen.put(b'-')
        }
    }
}

/// A scalar's style and value, and the column after it, if it is looked at; both flags of the cursor are then off.
type Scalar<'a> = (yaml_scalar_style_t, &'a str, Option<i32>);

/// Line breaks, and a layout; the text before some scalars, these, and the text that is written.
type Item<'a> = (yaml_break_t, &'a Layout, Before, &'a [Scalar<'a>], &'a str);

fn write_scalars(rt: &impl Abort, pen: &mut Pen<Global>, layout: &Layout, scalars: &[Scalar])
    requires { IsReady pen.old }
    ensures { IsReady pen.new }
{
    'scalars: for scalar in scalars {
        let answer = write_in(pen, layout, scalar.0, scalar.1);
        equal_at(rt, scalar.1, &answer, &Ok(0));
        if let Some(column) = scalar.2 {
            equal(rt, &cursor(pen), &(column, false, false));
        }
    }
}

fn check_item(rt: &impl Abort, alloc: Global, row: &Item) {
    let mut pen = new_pen_within(rt, alloc, usize::MAX, row.0);
    let answer = write_before(&mut pen, &row.2);
    equal(rt, &answer, &Ok(()));
    write_scalars(rt, &mut pen, row.1, row.3);
    check_flushed(rt, &mut pen, row.4.as_bytes());
    drop(pen);
}

const LAYOUT: Layout = Layout {
    unicode: false,
    allow_breaks: true,
    flow: false,
    indent: 2,
    best_indent: 2,
    width: 80,
};

const INDENTED: Layout = Layout {
    indent: 4,
    ..LAYOUT
};

/// Widths that no setting of an emitter has.
const NO_COLUMN: Layout = Layout { width: 0, ..LAYOUT };

const NEGATIVE: Layout = Layout {
    width: -1,
    ..LAYOUT
};

const ITEMS: &[Item] = &[
    // Block scalars begin at their indentation, and follow an indicator.
    (
        YAML_LN_BREAK,
        &Layout {
            indent: 6,
            best_indent: 3,
            ..LAYOUT
        },
        Before::Dash,
        &[
            (YAML_LITERAL_SCALAR_STYLE, " a\n b", None),
            (YAML_FOLDED_SCALAR_STYLE, " a\n b", None),
        ],
        "- |3-\n       a\n       b>3-\n       a\n       b",
    ),
    (
        YAML_LN_BREAK,
        &LAYOUT,
        Before::Hyphen,
        &[(YAML_LITERAL_SCALAR_STYLE, " a", None)],
        "- |2-\n   a",
    ),
    // A space comes first if one is needed: before a text, and in flow also before an empty one.
    (
        YAML_LN_BREAK,
        &INDENTED,
        Before::Dash,
        &[
            (YAML_PLAIN_SCALAR_STYLE, "b", Some(3)),
            (YAML_PLAIN_SCALAR_STYLE, "", None),
            (YAML_PLAIN_SCALAR_STYLE, "", None),
        ],
        "- b",
    ),
    (
        YAML_LN_BREAK,
        &Layout {
            flow: true,
            ..INDENTED
        },
        Before::Dash,
        &[
            (YAML_PLAIN_SCALAR_STYLE, "b", Some(3)),
            (YAML_PLAIN_SCALAR_STYLE, "", None),
        ],
        "- b ",
    ),
    (
        YAML_LN_BREAK,
        &INDENTED,
        Before::Dash,
        &[(YAML_SINGLE_QUOTED_SCALAR_STYLE, "b\nc", Some(6))],
        "- 'b\n\n    c'",
    ),
    (
        YAML_CRLN_BREAK,
        &Layout {
            width: 3,
            ..INDENTED
        },
        Before::Hyphen,
        &[(YAML_DOUBLE_QUOTED_SCALAR_STYLE, "aaaa b", Some(6))],
        "- \"aaaa\r\n    b\"",
    ),
    // The last quote is no space.
    (
        YAML_LN_BREAK,
        &LAYOUT,
        Before::Nothing,
        &[(YAML_DOUBLE_QUOTED_SCALAR_STYLE, " \n", Some(5))],
        "\" \\n\"",
    ),
    // Line breaks are those of the setting.
    (
        YAML_CRLN_BREAK,
        &LAYOUT,
        Before::Nothing,
        &[(YAML_SINGLE_QUOTED_SCALAR_STYLE, "a\nb  c", None)],
        "'a\r\n\r\n  b  c'",
    ),
    (
        YAML_CR_BREAK,
        &LAYOUT,
        Before::Nothing,
        &[(YAML_SINGLE_QUOTED_SCALAR_STYLE, "a\nb  c", None)],
        "'a\r\r  b  c'",
    ),
    (
        YAML_CRLN_BREAK,
        &LAYOUT,
        Before::Nothing,
        &[(YAML_LITERAL_SCALAR_STYLE, "a\n", None)],
        "|\r\n  a\r\n",
    ),
    (
        YAML_CR_BREAK,
        &LAYOUT,
        Before::Nothing,
        &[(YAML_LITERAL_SCALAR_STYLE, "a\n", None)],
        "|\r  a\r",
    ),
    // A line that passes its width at once is folded at each space.
    (
        YAML_LN_BREAK,
        &NO_COLUMN,
        Before::Nothing,
        &[(YAML_PLAIN_SCALAR_STYLE, "a b c", None)],
        "a\n  b\n  c",
    ),
    (
        YAML_LN_BREAK,
        &NO_COLUMN,
        Before::Nothing,
        &[(YAML_SINGLE_QUOTED_SCALAR_STYLE, " ", None)],
        "' '",
    ),
    (
        YAML_LN_BREAK,
        &NO_COLUMN,
        Before::Nothing,
        &[(YAML_SINGLE_QUOTED_SCALAR_STYLE, " a b ", None)],
        "' a\n  b '",
    ),
    (
        YAML_LN_BREAK,
        &NEGATIVE,
        Before::Nothing,
        &[(YAML_PLAIN_SCALAR_STYLE, "a b", None)],
        "a\n  b",
    ),
    (
        YAML_LN_BREAK,
        &NEGATIVE,
        Before::Nothing,
        &[(YAML_FOLDED_SCALAR_STYLE, "a b\nc d", None)],
        ">-\n  a\n  b\n\n  c\n  d",
    ),
    (
        YAML_LN_BREAK,
        &NEGATIVE,
        Before::Nothing,
        &[(YAML_DOUBLE_QUOTED_SCALAR_STYLE, " a", None)],
        "\" a\"",
    ),
    (
        YAML_LN_BREAK,
        &NEGATIVE,
        Before::Nothing,
        &[(YAML_DOUBLE_QUOTED_SCALAR_STYLE, "a b", None)],
        "\"a\n  b\"",
    ),
    (
        YAML_LN_BREAK,
        &Layout { width: 3, ..LAYOUT },
        Before::Nothing,
        &[(YAML_DOUBLE_QUOTED_SCALAR_STYLE, "a\nb c", None)],
        "\"a\\nb\n  c\"",
    ),
];

#[test]
fn items_stand_after_their_indicator_at_their_indentation(rt: HostRuntime) {
    for row in ITEMS {
        check_item(&rt, rt.alloc(), row);
    }
}

/// A value, at an indent, its header, and the open-ended state.
type Header<'a> = (&'a str, i32, &'a str, i32);

// The open-ended state; -1 if no setting indents so.
fn write_header(pen: &mut Pen<Global>, row: &Header) -> Result<i32, yaml_error_t>
    requires { IsReady pen.old }
    ensures { IsReady pen.new }
{
    if row.1 < 2 || row.1 > 9 {
        return Ok(-1);
    }
    write_block_scalar_hints(pen, row.0, row.1)
}

const HEADERS: &[Header] = &[
    ("a", 2, "-", 0),
    ("a\n", 2, "", 0),
    ("a\n\n", 2, "+", 2),
    (" a", 9, "9-", 0),
    ("\na\n", 4, "4", 0),
    ("\u{2028}", 3, "3+", 2),
];

#[test]
fn hints_stand_alone(rt: HostRuntime) {
    for row in HEADERS {
        let mut pen = new_pen(&rt, rt.alloc());
        equal_at(&rt, row.0, &write_header(&mut pen, row), &Ok(row.3));
        check_flushed(&rt, &mut pen, row.2.as_bytes());
        drop(pen);
    }
}
