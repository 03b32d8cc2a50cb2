//! Simple ASCII scalars: short texts of one line that every style may hold, and none of whose characters depends on the one
//! after it.
ghost use Rattle.std.specs.Prelude.{◌≡◌, pos, ◌≤ℤ◌, Bool, true, false};
ghost use Rattle.std.specs.Str.{chars};
ghost use Rattle.yaml_base.specs.scalars.Plain.{render_plain};
ghost use Rattle.yaml_pen.specs.Page.{IsReady, natural};
ghost use Rattle.yaml_pen.specs.Wrote.{Wrote};
ghost use Rattle.yaml_scalar.specs.SimpleAsciiTexts.{IsSimpleAscii, is_simple_ascii};
ghost use Rattle.yaml_scalar.specs.Width.{limit_where};

use crate::characters::is_ordinary;
use crate::classes::{BREAK, INDICATOR, UNPRINTABLE, WIDE};
use crate::lines::{Known, Lines};
use crate::plain::write_body;
use crate::short_runs::is_short_run;
use std::alloc::Allocator;
use yaml_base::yaml_error_t;
use yaml_pen::Pen;

/// The classes of bytes that no simple ASCII text holds.
const NOT_SIMPLE_ASCII: u8 = BREAK | UNPRINTABLE | INDICATOR | WIDE;

/// Returns whether a text is simple ASCII: at most 512 bytes of ASCII, first a letter or a digit, last no space, without a
/// break, a control character, `#`, `:`, `?` and the flow indicators. Every style may hold such a text.
#[inline(always)]
pub fn is_simple_ascii(text: &str) -> bool
    ensures value { result ≡ is_simple_ascii text.now }
    ensures simple_ascii { result ≡ true → IsSimpleAscii text.now }
{
    let bytes = text.as_bytes();
    match bytes.len() {
        0 => false,
        count => {
            let ends = is_ordinary(bytes[0] as char) & (bytes[count - 1] != b' ');
            ends && is_short_run(text, NOT_SIMPLE_ASCII)
        }
    }
}

/// Writes a simple ASCII text as a plain scalar, as `write_plain_scalar` does in flow or not, but without looking at its
/// characters again if it fits the line.
///
/// The pen must have begun a page, the text is simple ASCII, and `indent` is at least 2.
///
/// # Errors
///
/// `WriteError` if the output passes its limit, `Memory` if it can't grow, or else the pen's first error.
pub fn write_simple_ascii_scalar<A: Allocator>(
    pen: &mut Pen<A>,
    value: &str,
    allow_breaks: bool,
    indent: i32,
    width: i32,
) -> Result<(), yaml_error_t>
    requires ready { IsReady pen.old }
    requires simple_ascii { IsSimpleAscii value.now }
    requires indented { pos 2 ≤ℤ indent }
    ensures { (flow : Bool) → Wrote (render_plain flow (limit_where allow_breaks width) (natural indent) (chars value.now)) pen.old pen.new result }
{
    pen.separate_if(true)?;
    write_body(
        pen,
        value,
        Lines {
            quoted: false,
            known: Known::SimpleAscii,
            allow_breaks,
            indent: indent as u32,
            width,
        },
    )
}
