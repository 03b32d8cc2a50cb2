//! The place of the next value in a document that is written value by value.
ghost use Rattle.std.specs.Prelude.{◌≡◌, MatchOption, OnErr, OnOk};
ghost use Rattle.yaml_c.specs.Places as places;
ghost use Rattle.yaml_c.specs.Places.{EndsInner, MayNotEnd, at_start, first_in, within};

use std::alloc::Allocator;
use std::marker::Model;
use yaml_base::yaml_error_t;
use yaml_emitter::CollectionKind;

/// A place for a value, or for the end of a collection.
#[derive(Clone, Copy)]
pub enum Spot {
    /// The stream's start, and the root of its first document.
    Start,
    /// A document's root.
    Root,
    /// An item of a sequence, or its end.
    Item,
    /// A key of a mapping, or its end.
    Key,
    /// A value of a mapping.
    Value,
    /// A document's end, after its root.
    Done,
    /// No place: the stream is ended, or its events are given one by one.
    Nowhere,
}

/// The place of the next value.
#[derive(Drop)]
pub(crate) struct Place<A: Allocator> {
    spot: Spot,
    /// The spots after the collections that are open, the innermost last.
    outer: Vec<Spot, A>,
}

impl<A: Allocator> Model for Place<A> {
    ghost use Rattle.yaml_c.specs.Places.{Place as Placed, place_at};

    ghost Value = { Placed };

    ghost view = { λ p. place_at p.spot p.outer.items };
}

/// Returns the spot after a node at this one, or `None` if no node may be there.
pub(crate) fn after_node(spot: Spot) -> Option<Spot>
    ensures { result ≡ places.after_node spot }
{
    match spot {
        Spot::Start | Spot::Root => Some(Spot::Done),
        Spot::Item => Some(Spot::Item),
        Spot::Key => Some(Spot::Value),
        Spot::Value => Some(Spot::Key),
        Spot::Done | Spot::Nowhere => None,
    }
}

/// Returns whether no event was given before.
pub(crate) fn is_start(spot: Spot) -> bool
    ensures { result ≡ places.is_start spot }
{
    matches!(spot, Spot::Start)
}

/// Returns whether a document's root may be there.
pub(crate) fn is_root(spot: Spot) -> bool
    ensures { result ≡ places.is_root spot }
{
    matches!(spot, Spot::Start | Spot::Root)
}

/// Returns whether a document's root is there.
pub(crate) fn is_done(spot: Spot) -> bool
    ensures { result ≡ places.is_done spot }
{
    matches!(spot, Spot::Done)
}

fn first_spot(kind: CollectionKind) -> Spot
    ensures { result ≡ first_in kind }
{
    match kind {
        CollectionKind::Sequence => Spot::Item,
        CollectionKind::Mapping => Spot::Key,
    }
}

/// Returns the kind of the collection that may end at a spot, if any.
fn ends_here(spot: Spot) -> Option<CollectionKind>
    ensures { result ≡ places.ends_here spot }
{
    match spot {
        Spot::Item => Some(CollectionKind::Sequence),
        Spot::Key => Some(CollectionKind::Mapping),
        _ => None,
    }
}

impl<A: Allocator> Place<A> {
    pub(crate) fn start(alloc: A) -> Place<A>
        ensures { result ≡ at_start }
    {
        Place {
            spot: Spot::Start,
            outer: Vec::new(alloc),
        }
    }

    pub(crate) fn spot(&self) -> Spot
        ensures { result ≡ self.now.spot }
    {
        self.spot
    }

    pub(crate) fn go_to(&mut self, spot: Spot)
        ensures { self.new ≡ record self.old { spot = spot } }
    {
        self.spot = spot;
    }

    /// Enters a collection, after which the next value is at the spot `after`.
    pub(crate) fn enter(&mut self, kind: CollectionKind, after: Spot) -> Result<(), yaml_error_t>
        ensures entered { OnOk result (self.new ≡ within kind after self.old) }
        ensures full { OnErr result (self.new ≡ self.old) }
    {
        match self.outer.push(after) {
            Ok(()) => {
                self.spot = first_spot(kind);
                Ok(())
            }
            Err(_) => Err(yaml_error_t::Memory),
        }
    }

    /// Leaves the innermost collection, and returns its kind; `None` if no collection may end.
    pub(crate) fn leave(&mut self) -> Option<CollectionKind>
        ensures { MatchOption result (MayNotEnd self.old × (self.new ≡ self.old)) (λ kind. EndsInner self.old kind self.new) }
    {
        let Some(kind) = ends_here(self.spot) else {
            return None;
        };
        match self.outer.pop() {
            None => None,
            Some(after) => {
                self.spot = after;
                Some(kind)
            }
        }
    }
}
