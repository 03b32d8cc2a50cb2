//! The walk over a document's nodes: depth first, from node 1.
ghost use Rattle.std.specs.Prelude.{◌≡◌, ◌+◌, ◌<◌, ◌≤◌, ◌^◌, ◌==◌, false, map, option_map, length, slice_get, vec_len, IfOk, IfSome};
ghost use Rattle.yaml_base.specs.graphs.Meetings as meetings;
ghost use Rattle.yaml_base.specs.graphs.Meetings.{numbers_held};
ghost use Rattle.yaml_base.specs.graphs.SeenNodes.{seen_number, seen_pair, seen_held};
ghost use Rattle.yaml_base.specs.graphs.Documents.{graph_of};
ghost use Rattle.yaml_dump.specs.WalkSteps.{seen_step};
ghost use Rattle.yaml_dump.specs.WalkState.{pair_numbers, seen_walker, at_start, with_meeting, child_of, with_turn};
ghost use Rattle.yaml_dump.specs.Named.{IsNamed, AreNamed};

use crate::steps::Step;
use std::alloc::{AllocError, Allocator};
use yaml_base::{yaml_document_t, yaml_node_data_t, yaml_node_pair_t};

/// A node that was entered and not left yet.
#[derive(Clone, Copy)]
struct Visit {
    number: usize,
    /// The number of its children that were met.
    met: usize,
}

/// The state of the walk so far.
#[derive(Drop)]
struct Walker<A: Allocator> {
    steps: Vec<Step, A>,
    /// Whether each node was entered, that of number 1 first.
    entered: Vec<bool, A>,
    /// The outermost first.
    visits: Vec<Visit, A>,
}

/// Returns a node's number; 0 for a negative one.
fn number_of(number: i32) -> usize
    ensures { result ≡ seen_number number }
{
    if number < 0 { 0 } else { number as usize }
}

/// Returns the number at a place among pairs, keys before their values.
fn number_in_pairs(pairs: &[yaml_node_pair_t], place: usize) -> Option<usize>
    ensures { result ≡ slice_get (pair_numbers (map seen_pair pairs.now)) place }
{
    let pair = pairs.get(place / 2)?;
    Some(if place % 2 == 0 {
        number_of(pair.key)
    } else {
        number_of(pair.value)
    })
}

/// Returns the number at a place among those that a node holds.
fn number_at<A: Allocator>(contents: &yaml_node_data_t<A>, place: usize) -> Option<usize>
    ensures number { result ≡ slice_get (numbers_held (seen_held contents.now)) place }
    ensures countable { IfSome result (λ _. place + 1 < 2 ^ 64) }
{
    match contents {
        yaml_node_data_t::Scalar { .. } => None,
        yaml_node_data_t::Sequence { items, .. } => {
            items.as_slice().get(place).map(|number| number_of(*number))
        }
        yaml_node_data_t::Mapping { pairs, .. } => number_in_pairs(pairs.as_slice(), place),
    }
}

/// Returns the child that a visit meets next.
fn next_child<A: Allocator>(document: &yaml_document_t<A>, visit: Visit) -> Option<usize>
    requires { IsNamed (length (graph_of document.now).nodes) visit.number }
    ensures child { result ≡ child_of (graph_of document.now) visit }
    ensures named { IfSome result (λ child. IsNamed (length (graph_of document.now).nodes) child) }
    ensures countable { IfSome result (λ _. visit.met + 1 < 2 ^ 64) }
{
    // A law: the numbers that the node holds are numbers of nodes.
    document.numbers_name_nodes();
    let node = document.get_node(visit.number as i32)?;
    number_at(&node.contents, visit.met)
}

impl<A: Allocator> Walker<A> {
    /// Makes a walker that has met no node yet.
    fn at_start(alloc: A, count: usize) -> Result<Walker<A>, AllocError>
    where
        A: Copy,
        ensures { IfOk result (λ walker. seen_walker walker ≡ at_start count) }
    {
        Ok(Walker {
            // A node is entered and left.
            steps: Vec::with_capacity(alloc, count.saturating_mul(2))?,
            entered: vec![in alloc; false; count]?,
            visits: Vec::new(alloc),
        })
    }

    /// Meets a node.
    fn meet(&mut self, number: usize) -> Result<(), AllocError>
        requires { IsNamed (vec_len self.old.entered) number }
        ensures { IfOk result (λ _. seen_walker self.new ≡ with_meeting number (seen_walker self.old)) }
    {
        if self.entered[number - 1] {
            self.steps.push(Step::MeetsAgain(number))?;
        } else {
            self.entered[number - 1] = true;
            self.steps.push(Step::Enters(number))?;
            self.visits.push(Visit { number, met: 0 })?;
        }
        Ok(())
    }

    /// Resumes a visit that was taken out: meets its next child, or leaves its node.
    fn resume(&mut self, document: &yaml_document_t<A>, visit: Visit) -> Result<(), AllocError>
        requires counted { vec_len self.old.entered ≡ length (graph_of document.now).nodes }
        requires named { IsNamed (length (graph_of document.now).nodes) visit.number }
        ensures { IfOk result (λ _. seen_walker self.new ≡ with_turn (graph_of document.now) visit (seen_walker self.old)) }
    {
        match next_child(document, visit) {
            Some(child) => {
                let met = visit.met + 1;
                self.visits.push(Visit { met, ..visit })?;
                self.meet(child)
            }
            None => {
                self.steps.push(Step::Leaves(visit.number))?;
                Ok(())
            }
        }
    }
}

/// Returns the steps of the walk from node 1. The visits are kept in a list of their own, so nodes may be nested to any
/// depth.
pub(crate) fn walk<A: Allocator + Copy>(
    alloc: A,
    document: &yaml_document_t<A>,
) -> Result<Vec<Step, A>, AllocError>
    requires nonempty { (length (graph_of document.now).nodes == 0) ≡ false }
    ensures walked { IfOk result (λ walk. map seen_step walk.items ≡ meetings.graph_steps (graph_of document.now)) }
    ensures named { IfOk result (λ walk. AreNamed (length (graph_of document.now).nodes) walk.items) }
{
    // A law: the numbers that nodes hold are numbers of nodes.
    document.numbers_name_nodes();
    let mut walker = Walker::at_start(alloc, document.node_count() as usize)?;
    let Ok(()) = walker.meet(1) else {
        return Err(AllocError);
    };
    while let Some(visit) = walker.visits.pop() {
        let Ok(()) = walker.resume(document, visit) else {
            return Err(AllocError);
        };
    }
    Ok(walker.steps)
}
