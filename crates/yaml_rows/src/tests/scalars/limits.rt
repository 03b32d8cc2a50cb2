//! Limits that cut a text, after which each writer is refused.
ghost use Rattle.yaml_pen.specs.Page.{IsReady};

use super::{Layout, new_pen_within, write_in};
use crate::tests::pens::check_flushed;
use crate::tests::{equal, equal_at, same};
use std::alloc::Global;
use std::process::Abort;
use yaml_base::{
    YAML_DOUBLE_QUOTED_SCALAR_STYLE, YAML_FOLDED_SCALAR_STYLE, YAML_LITERAL_SCALAR_STYLE,
    YAML_LN_BREAK, YAML_PLAIN_SCALAR_STYLE, YAML_SINGLE_QUOTED_SCALAR_STYLE, yaml_error_t,
    yaml_scalar_style_t,
};
use yaml_pen::Pen;
use yaml_scalar::write_block_scalar_hints;

const NARROW: &Layout = &Layout {
    unicode: false,
    allow_breaks: true,
    flow: false,
    indent: 2,
    best_indent: 2,
    width: 2,
};

const REFUSED: Result<i32, yaml_error_t> = Err(yaml_error_t::WriteError);

/// A value for each style, and nothing.
const VALUES: &[(yaml_scalar_style_t, &str)] = &[
    (YAML_PLAIN_SCALAR_STYLE, "bar"),
    (YAML_PLAIN_SCALAR_STYLE, ""),
    (YAML_SINGLE_QUOTED_SCALAR_STYLE, "c"),
    (YAML_DOUBLE_QUOTED_SCALAR_STYLE, "c"),
    (YAML_LITERAL_SCALAR_STYLE, "\na b"),
    (YAML_FOLDED_SCALAR_STYLE, "\na b"),
];

// Each writer is refused.
fn check_writers(rt: &impl Abort, pen: &mut Pen<Global>)
    requires { IsReady pen.old }
    ensures { IsReady pen.new }
{
    'values: for value in VALUES {
        let answer = write_in(pen, NARROW, value.0, value.1);
        equal_at(rt, value.1, &answer, &REFUSED);
    }
}

// The flush is refused and writes this, and then each writer is refused.
fn check_stopped(rt: &impl Abort, pen: &mut Pen<Global>, cut: &[u8])
    requires { IsReady pen.old }
{
    equal(rt, &pen.flush(), &Err(yaml_error_t::WriteError));
    same(rt, pen.output(), cut);
    check_writers(rt, pen);
    equal(rt, &write_block_scalar_hints(pen, "a\n", 2), &REFUSED);
    same(rt, pen.output(), cut);
}

/// A style, a value, and the text that is written.
type Text<'a> = (yaml_scalar_style_t, &'a str, &'a str);

// With room for all the text is whole.
fn check_limit(rt: &impl Abort, alloc: Global, limit: usize, row: &Text) {
    let mut pen = new_pen_within(rt, alloc, limit, YAML_LN_BREAK);
    equal(rt, &write_in(&mut pen, NARROW, row.0, row.1), &Ok(0));
    match row.2.as_bytes().get(..limit) {
        Some(cut) if limit < row.2.len() => check_stopped(rt, &mut pen, cut),
        _ => check_flushed(rt, &mut pen, row.2.as_bytes()),
    }
    drop(pen);
}

const TEXTS: &[Text] = &[
    (YAML_PLAIN_SCALAR_STYLE, "foo", "foo"),
    (YAML_SINGLE_QUOTED_SCALAR_STYLE, "ab", "'ab'"),
    (YAML_FOLDED_SCALAR_STYLE, "\na b", ">2-\n\n  a\n  b"),
];

#[test]
fn a_limit_cuts_and_stops(rt: HostRuntime) {
    for row in TEXTS {
        for limit in 0..row.2.len().saturating_add(1) {
            check_limit(&rt, rt.alloc(), limit, row);
        }
    }
}
