//! Whether events have the same view.
ghost use Rattle.std.specs.Prelude.{◌≡◌, map};
ghost use Rattle.std.specs.Bool.{Decides};
ghost use Rattle.yaml_base.specs.Seen.{seen_event};

use std::alloc::Allocator;
use yaml_base::yaml_event_t;

/// Returns whether these are the same events, in order and as many.
pub(crate) fn are_same<A: Allocator>(first: &[yaml_event_t<A>], second: &[yaml_event_t<A>]) -> bool
    ensures { Decides result (map seen_event first.now ≡ map seen_event second.now) }
{
    first == second
}
