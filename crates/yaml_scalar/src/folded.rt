//! Folded scalars (YAML 1.1, section 9.3.2).
ghost use Rattle.std.specs.Prelude.{◌≡◌, ◌≤ℤ◌, ℕ, pos, false, true, Option, IfOk};
ghost use Rattle.std.specs.Str.{chars};
ghost use Rattle.yaml_base.specs.scalars.Analysis.{Charset, allows_block, is_empty};
ghost use Rattle.yaml_base.specs.scalars.BlockHeader.{Encloses, header_open_ended};
ghost use Rattle.yaml_base.specs.scalars.Folded.{render_folded};
ghost use Rattle.yaml_base.specs.reading.ReadBlock.{read_block};
ghost use Rattle.yaml_pen.specs.Page.{IsReady, natural};
ghost use Rattle.yaml_pen.specs.Wrote.{Wrote};
ghost use Rattle.yaml_scalar.specs.BlockCode.{without_open_ended};
ghost use Rattle.yaml_scalar.specs.ReadsBack.{ReadsBack};
ghost use Rattle.yaml_scalar.specs.Width.{limit_of};

use crate::block_header::{BlockStyle, open_ended, write_header};
use crate::block_lines::{BlockLines, write_lines};
use std::alloc::Allocator;
use yaml_base::yaml_error_t;
use yaml_pen::Pen;

/// Writes a folded scalar (YAML 1.1, section 9.3.2), after a space if one is needed: the header, then each nonempty line after
/// `indent` spaces. A line that doesn't begin with a space is cut past `width`, a column in characters, in place of the last
/// space of a run; `i32::MAX` means no width. `best_indent` is the header's digit. Returns the open-ended state: 2 if the header
/// keeps all final breaks, else 0.
///
/// The pen must have begun a page, the value isn't empty, `best_indent` is 2 to 9, and `indent` is at least `best_indent`.
///
/// # Errors
///
/// `WriteError` if the output passes its limit, `Memory` if it can't grow, or else the pen's first error.
pub fn write_folded_scalar<A: Allocator>(
    pen: &mut Pen<A>,
    value: &str,
    indent: i32,
    best_indent: i32,
    width: i32,
) -> Result<i32, yaml_error_t>
    requires ready { IsReady pen.old }
    requires some { is_empty (chars value.now) ≡ false }
    requires least { pos 2 ≤ℤ best_indent }
    requires most { best_indent ≤ℤ pos 9 }
    requires within { best_indent ≤ℤ indent }
    ensures written { Wrote (render_folded (limit_of width) (natural indent) (natural best_indent) (chars value.now)) pen.old pen.new
        (without_open_ended result) }
    ensures open_ended { IfOk result (λ open_ended. open_ended ≡ pos (header_open_ended (chars value.now))) }
    ensures reads { (charset : Charset) → allows_block charset (chars value.now) ≡ true
        → (column : Option ℕ) → Encloses (natural indent) (natural best_indent) column
        → IfOk result (λ _. ReadsBack (read_block charset.breaks12 column) (chars value.now) pen.old.text pen.new.text) }
{
    write_header(pen, value, best_indent, BlockStyle::Folded)?;
    write_lines(
        pen,
        value,
        BlockLines {
            style: BlockStyle::Folded,
            indent,
            width,
        },
    )?;
    Ok(open_ended(value))
}
