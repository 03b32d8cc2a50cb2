//! The anchors of a document's shared nodes.
ghost use Rattle.std.specs.Prelude.{◌≡◌, ◌<◌, ◌≤◌, ◌+◌, ◌-◌, ◌++◌, ◌∷◌, [], ℕ, true, List, IfOk, map, length, slice_index};
ghost use Rattle.yaml_base.specs.graphs.Meetings as meetings;
ghost use Rattle.yaml_base.specs.Seen.{seen_text};
ghost use Rattle.yaml_dump.specs.Anchors.{IsNumbered, is_numbered, Places, HasPlaces, anchor_of_place};
ghost use Rattle.yaml_dump.specs.WalkSteps.{seen_step};
ghost use Rattle.yaml_base.specs.Settings.{largest_usize};

use crate::steps::Step;
use std::alloc::{AllocError, Allocator};

/// Returns `id` and a number of at least three digits.
pub(crate) fn numbered_name<A: Allocator>(alloc: A, place: usize) -> Result<String<A>, AllocError>
    ensures { IfOk result (λ name. seen_text name ≡ meetings.numbered_name place) }
{
    format!(in alloc; "id{place:03}")
}

/// Gives the node of a step the next rank if the walk meets it again and it has none yet. Returns the number of nodes that have one.
fn place_met(places: &mut [usize], shared: usize, step: Step) -> usize
    requires numbered { IsNumbered (length places.old) (seen_step step) }
    requires fits { shared < largest_usize }
    ensures placed { (walk : List meetings.Step) → Places walk shared places.old → Places (walk ++ seen_step step ∷ []) result places.new }
    ensures counted { result ≤ shared + 1 }
{
    let Step::MeetsAgain(number) = step else {
        return shared;
    };
    if places[number - 1] != 0 {
        return shared;
    }
    places[number - 1] = shared + 1;
    shared + 1
}

/// Returns for each node, that of number 1 first, its rank among shared nodes, by second visit and from 1 on; 0 if not shared.
pub(crate) fn shared_ranks<A: Allocator + Copy>(
    alloc: A,
    walk: &[Step],
    count: usize,
) -> Result<Vec<usize, A>, AllocError>
    requires { is_numbered count (map seen_step walk.now) ≡ true }
    ensures each { IfOk result (λ places. length places.items ≡ count) }
    ensures placed { IfOk result (λ places. HasPlaces (map seen_step walk.now) places.items) }
    ensures anchors { IfOk result (λ places. (number : ℕ) → 1 ≤ number → number ≤ count
        → anchor_of_place (slice_index places.items (number - 1)) ≡ meetings.anchor_of (map seen_step walk.now) number) }
{
    let Ok(mut places) = vec![in alloc; 0; count] else {
        return Err(AllocError);
    };
    let mut shared = 0;
    for step in walk {
        shared = place_met(places.as_mut_slice(), shared, *step);
    }
    Ok(places)
}
