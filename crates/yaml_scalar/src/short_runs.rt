//! Short texts of ASCII that are handed to the pen at once, as they are.
ghost use Rattle.std.specs.List.{list_all};
ghost use Rattle.std.specs.Prelude.{◌≡◌, ◌≤◌, ◌&&◌, ℕ, Bool, true, length, nat_le};
ghost use Rattle.yaml_base.specs.Cursor.{render_text};
ghost use Rattle.yaml_pen.specs.Page.{IsReady};
ghost use Rattle.yaml_pen.specs.Wrote.{Wrote};
ghost use Rattle.yaml_scalar.specs.ByteClasses.{ImpliesTest, is_free};
ghost use Rattle.yaml_scalar.specs.EscapeBytes.{is_unbroken_ascii};
ghost use Rattle.yaml_scalar.specs.ShortRuns.{IsShortRun, most_short};

use crate::classes::free_length;
use std::alloc::Allocator;
use yaml_base::yaml_error_t;
use yaml_pen::Pen;

/// The largest size of a short text in bytes.
const MOST_BYTES: usize = 512;

/// Returns whether a text is short and holds no byte of these classes, which include those of all bytes beyond ASCII.
#[inline(always)]
pub(crate) fn is_short_run(text: &str, classes: u8) -> bool
    ensures value { result ≡ (nat_le (length text.now) most_short && list_all (is_free classes) text.now) }
    ensures run { result ≡ true → (test : ℕ → Bool) → ImpliesTest classes is_unbroken_ascii → ImpliesTest classes test → IsShortRun test text.now }
{
    text.len() <= MOST_BYTES && free_length(text, classes) == text.len()
}

/// Writes a short run.
#[inline(always)]
pub(crate) fn write_short_run<A: Allocator>(
    pen: &mut Pen<A>,
    text: &str,
) -> Result<(), yaml_error_t>
    requires ready { IsReady pen.old }
    requires few { length text.now ≤ most_short }
    requires plain { list_all is_unbroken_ascii text.now ≡ true }
    ensures { Wrote (render_text text.now) pen.old pen.new result }
{
    pen.write_ascii(text.as_bytes())
}
