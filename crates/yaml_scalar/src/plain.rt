//! Plain scalars.
ghost use Rattle.std.specs.Prelude.{◌≡◌, pos, ◌≤ℤ◌, true, false, IfOk};
ghost use Rattle.std.specs.Str.{chars};
ghost use Rattle.yaml_base.specs.scalars.Analysis.{Charset, allows_plain};
ghost use Rattle.yaml_base.specs.scalars.Plain.{plain_body, render_plain};
ghost use Rattle.yaml_base.specs.reading.ReadPlain.{read_plain};
ghost use Rattle.yaml_pen.specs.Page.{IsReady, natural};
ghost use Rattle.yaml_pen.specs.Wrote.{Wrote};
ghost use Rattle.yaml_scalar.specs.ReadsBack.{ReadsBack};
ghost use Rattle.yaml_scalar.specs.SimpleAsciiTexts.{IsKnown};
ghost use Rattle.yaml_scalar.specs.Width.{limit_where};

use crate::analysis::is_at_end;
use crate::lines::{Known, Lines, write_lines};
use std::alloc::Allocator;
use yaml_base::yaml_error_t;
use yaml_pen::Pen;

/// Writes a plain scalar (YAML 1.1, section 9.1.3), after a space if one is needed: an empty value needs one only in a flow
/// collection. If breaks are allowed, a lone space past the width, a column in characters, becomes a break and the indentation;
/// `i32::MAX` means no width.
///
/// The pen must have begun a page, and `indent` is at least 2.
///
/// # Errors
///
/// `WriteError` if the output passes its limit, `Memory` if it can't grow, or else the pen's first error.
pub fn write_plain_scalar<A: Allocator>(
    pen: &mut Pen<A>,
    value: &str,
    allow_breaks: bool,
    flow: bool,
    indent: i32,
    width: i32,
) -> Result<(), yaml_error_t>
    requires ready { IsReady pen.old }
    requires indented { pos 2 ≤ℤ indent }
    ensures written { Wrote (render_plain flow (limit_where allow_breaks width) (natural indent) (chars value.now)) pen.old pen.new result }
    ensures reads { (charset : Charset) → allows_plain charset flow (chars value.now) ≡ true
        → IfOk result (λ _. ReadsBack (read_plain charset.breaks12 flow) (chars value.now) pen.old.text pen.new.text) }
{
    // The empty value needs no space in a block collection or as a root.
    pen.separate_if(flow | !is_at_end(value))?;
    write_body(
        pen,
        value,
        Lines {
            quoted: false,
            known: Known::Nothing,
            allow_breaks,
            indent: indent as u32,
            width,
        },
    )
}

/// Writes a plain scalar after the space before it, if there is one.
#[inline(always)]
pub(crate) fn write_body<A: Allocator>(
    pen: &mut Pen<A>,
    value: &str,
    lines: Lines,
) -> Result<(), yaml_error_t>
    requires ready { IsReady pen.old }
    requires plain { lines.quoted ≡ false }
    requires known { IsKnown lines.known lines.quoted value.now }
    ensures { Wrote (plain_body (limit_where lines.allow_breaks lines.width) lines.indent (chars value.now)) pen.old pen.new result }
{
    write_lines(pen, value, lines)?;
    pen.set_whitespace(false);
    pen.set_indention(false);
    Ok(())
}
