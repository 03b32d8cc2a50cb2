//! Functions that the writers of scalars share.
ghost use Rattle.std.specs.Prelude.{◌≡◌};
ghost use Rattle.yaml_base.specs.Cursor.{is_past_width};
ghost use Rattle.yaml_scalar.specs.WholeRuns.{has_limit};
ghost use Rattle.yaml_scalar.specs.Width.{limit_where};

use std::alloc::Allocator;
use yaml_pen::Pen;

/// Returns whether the column is past the width and folds are allowed; `i32::MAX` is never passed.
pub(crate) fn may_fold_here<A: Allocator>(pen: &Pen<A>, allow_breaks: bool, width: i32) -> bool
    ensures { result ≡ is_past_width (limit_where allow_breaks width) pen.now.cursor }
{
    allow_breaks & (width != i32::MAX) & (pen.column() > width.max(0))
}

/// Returns whether some column is past the width and folds are allowed.
pub(crate) fn has_limit_where(allow_breaks: bool, width: i32) -> bool
    ensures { result ≡ has_limit (limit_where allow_breaks width) }
{
    allow_breaks && width != i32::MAX
}
