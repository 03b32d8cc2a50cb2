//! Single-quoted scalars.
ghost use Rattle.std.specs.Prelude.{◌≡◌, pos, ◌≤ℤ◌, true, IfOk};
ghost use Rattle.std.specs.Str.{chars};
ghost use Rattle.yaml_base.specs.scalars.Analysis.{Charset, allows_single_quoted};
ghost use Rattle.yaml_base.specs.scalars.SingleQuoted.{render_single_quoted};
ghost use Rattle.yaml_base.specs.reading.ReadSingle.{read_single};
ghost use Rattle.yaml_pen.specs.Page.{IsReady, natural};
ghost use Rattle.yaml_pen.specs.Wrote.{Wrote};
ghost use Rattle.yaml_scalar.specs.ReadsBack.{ReadsBack};
ghost use Rattle.yaml_scalar.specs.Width.{limit_where};

use crate::lines::{Known, Lines, write_lines};
use std::alloc::Allocator;
use yaml_base::yaml_error_t;
use yaml_pen::{Indicator, Pen};

/// Writes a scalar between single quotes (YAML 1.1, section 9.1.2), after a space if one is needed. Each `'` is doubled, and so
/// is LF that begins a run of breaks; after a run of breaks comes the indentation. If breaks are allowed, a lone space past the
/// width, a column in characters, becomes a break and the indentation, unless it is the value's first or last character;
/// `i32::MAX` means no width.
///
/// The pen must have begun a page, and `indent` is at least 2.
///
/// # Errors
///
/// `WriteError` if the output passes its limit, `Memory` if it can't grow, or else the pen's first error.
pub fn write_single_quoted_scalar<A: Allocator>(
    pen: &mut Pen<A>,
    value: &str,
    allow_breaks: bool,
    indent: i32,
    width: i32,
) -> Result<(), yaml_error_t>
    requires ready { IsReady pen.old }
    requires indented { pos 2 ≤ℤ indent }
    ensures written { Wrote (render_single_quoted (limit_where allow_breaks width) (natural indent) (chars value.now)) pen.old pen.new result }
    ensures reads { (charset : Charset) → allows_single_quoted charset (chars value.now) ≡ true
        → IfOk result (λ _. ReadsBack (read_single charset.breaks12) (chars value.now) pen.old.text pen.new.text) }
{
    pen.put_indicator(&Indicator::spaced("'"))?;
    write_lines(
        pen,
        value,
        Lines {
            quoted: true,
            known: Known::Nothing,
            allow_breaks,
            indent: indent as u32,
            width,
        },
    )?;
    pen.put_indicator(&Indicator::tight("'"))
}
