//! Scalars written from outside: worked texts, limits and failed pens.
ghost use Rattle.std.specs.Prelude.{◌≡◌, pos, ◌≤ℤ◌, true, false};
ghost use Rattle.std.specs.Str.{chars};
ghost use Rattle.yaml_base.specs.scalars.Analysis.{is_empty};
ghost use Rattle.yaml_pen.specs.Page.{IsReady};

mod items;
mod limits;
mod styles;

use std::alloc::Global;
use std::process::Abort;
use yaml_base::{
    YAML_CR_BREAK, YAML_CRLN_BREAK, YAML_FOLDED_SCALAR_STYLE, YAML_LITERAL_SCALAR_STYLE,
    YAML_LN_BREAK, YAML_PLAIN_SCALAR_STYLE, YAML_SINGLE_QUOTED_SCALAR_STYLE, YAML_UTF8_ENCODING,
    yaml_break_t, yaml_error_t, yaml_scalar_style_t,
};
use yaml_pen::Pen;
use yaml_scalar::{
    analyze_scalar, write_double_quoted_scalar, write_folded_scalar, write_literal_scalar,
    write_plain_scalar, write_single_quoted_scalar,
};

/// Makes a pen at the start of a text in UTF-8 whose lines end so, in LF if nothing is set, with a limit on the output's bytes.
fn new_pen_within(
    rt: &impl Abort,
    alloc: Global,
    limit: usize,
    line_break: yaml_break_t,
) -> Pen<Global>
    ensures { IsReady result }
{
    let mut pen = Pen::new(alloc).expect(rt, "no memory");
    pen.set_limit(limit);
    match line_break {
        YAML_CR_BREAK => pen.begin(YAML_UTF8_ENCODING, YAML_CR_BREAK),
        YAML_CRLN_BREAK => pen.begin(YAML_UTF8_ENCODING, YAML_CRLN_BREAK),
        _ => pen.begin(YAML_UTF8_ENCODING, YAML_LN_BREAK),
    }
    pen
}

/// Makes a pen at the start of a text in UTF-8 whose lines end in LF.
pub(super) fn new_pen(rt: &impl Abort, alloc: Global) -> Pen<Global>
    ensures { IsReady result }
{
    new_pen_within(rt, alloc, usize::MAX, YAML_LN_BREAK)
}

/// The settings by which scalars are written.
#[derive(Drop)]
struct Layout {
    unicode: bool,
    allow_breaks: bool,
    flow: bool,
    indent: i32,
    best_indent: i32,
    width: i32,
}

/// Returns whether the block styles are allowed, so the value isn't empty.
fn is_allowed(value: &str) -> bool
    ensures { result ≡ true → is_empty (chars value.now) ≡ false }
{
    analyze_scalar(value, true, false).block_allowed
}

// Writes in a style for one line: between double quotes if neither of the others is asked for.
fn write_in_line(
    pen: &mut Pen<Global>,
    layout: &Layout,
    style: yaml_scalar_style_t,
    value: &str,
    indent: i32,
) -> Result<(), yaml_error_t>
    requires ready { IsReady pen.old }
    requires least { pos 2 ≤ℤ indent }
    ensures { IsReady pen.new }
{
    let (folds, width) = (layout.allow_breaks, layout.width);
    match style {
        YAML_PLAIN_SCALAR_STYLE => {
            write_plain_scalar(pen, value, folds, layout.flow, indent, width)
        }
        YAML_SINGLE_QUOTED_SCALAR_STYLE => {
            write_single_quoted_scalar(pen, value, folds, indent, width)
        }
        _ => write_double_quoted_scalar(pen, value, folds, layout.unicode, indent, width),
    }
}

/// Writes in a style. Returns the open-ended state; -1 if no setting indents so.
fn write_in(
    pen: &mut Pen<Global>,
    layout: &Layout,
    style: yaml_scalar_style_t,
    value: &str,
) -> Result<i32, yaml_error_t>
    requires { IsReady pen.old }
    ensures { IsReady pen.new }
{
    let (indent, best_indent) = (layout.indent, layout.best_indent);
    if best_indent < 2 || best_indent > 9 || indent < best_indent {
        return Ok(-1);
    }
    match style {
        YAML_LITERAL_SCALAR_STYLE if is_allowed(value) => {
            write_literal_scalar(pen, value, indent, best_indent)
        }
        YAML_FOLDED_SCALAR_STYLE if is_allowed(value) => {
            write_folded_scalar(pen, value, indent, best_indent, layout.width)
        }
        _ => {
            write_in_line(pen, layout, style, value, indent)?;
            Ok(0)
        }
    }
}
