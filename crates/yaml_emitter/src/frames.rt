//! The open collections of a document, the innermost first.

ghost use Rattle.std.specs.Prelude.{◌≡◌, ◌∷◌, [], ◌<◌, ◌≤◌, ◌+◌, ◌*◌, List, length, not, nat_lt, IfErr, OnOk, OnErr, MatchOption};
ghost use Rattle.yaml_base.specs.Event.{TagDirective};
ghost use Rattle.yaml_base.specs.Layout.{line_column};
ghost use Rattle.yaml_base.specs.Steps as steps;
ghost use Rattle.yaml_emitter.specs.Places.{is_mapping, seen_frame, seen_place};
ghost use Rattle.yaml_base.specs.Refusal.{most_open};
ghost use Rattle.yaml_emitter.specs.Nesting.{advanced};
ghost use Rattle.yaml_emitter.specs.NodeEvents.{end_of_kind};
ghost use Rattle.yaml_emitter.specs.Stages.{seen_stage};

use crate::place::{Frame, Place, Role};
use crate::stage::Stage;
use std::alloc::Allocator;
use std::marker::Model;
use yaml_base::{CollectionKind, yaml_error_t};

/// The maximum nesting depth.
const MOST_OPEN: usize = 1_000_000;

#[derive(Drop)]
pub(crate) struct Frames<A: Allocator> {
    innermost: Option<Frame>,
    /// Those around it, the outermost first.
    outer: Vec<Frame, A>,
}

impl<A: Allocator> Model for Frames<A> {
    ghost use Rattle.std.specs.Prelude.{List};
    ghost use Rattle.yaml_base.specs.Steps.{Frame};
    ghost use Rattle.yaml_emitter.specs.Nesting.{open_frames, AreFrames};

    ghost Value = { List Frame };

    ghost view = { λ f. open_frames f.innermost f.outer.items };

    ghost invariant = { λ f. AreFrames f.innermost f.outer.items };
}

impl<A: Allocator> Frames<A> {
    pub(crate) fn new(alloc: A) -> Frames<A>
        ensures { result ≡ [] }
    {
        Frames {
            innermost: None,
            outer: Vec::new(alloc),
        }
    }

    /// Returns whether a collection is open.
    pub(crate) fn is_open(&self) -> bool
        ensures { result ≡ nat_lt 0 (length self.now) }
    {
        self.innermost.is_some()
    }

    /// Returns whether the maximum nesting depth is reached.
    pub(crate) fn is_full(&self) -> bool
        ensures { result ≡ not (nat_lt (length self.now) most_open) }
    {
        self.is_open() && self.outer.len() >= MOST_OPEN - 1
    }

    /// Returns the place of the next node.
    pub(crate) fn next_place(&self) -> Place
        ensures place { seen_place result ≡ steps.next_place self.now }
        ensures nested { line_column (seen_place result).column ≤ 9 * length self.now }
    {
        match self.innermost {
            Some(frame) => frame.place,
            None => Place::root(),
        }
    }

    /// Returns whether the end of a mapping, or of a sequence, may come next.
    pub(crate) fn may_end(&self, kind: CollectionKind) -> bool
        ensures { result ≡ steps.node_allowed self.now (end_of_kind (is_mapping kind)) }
    {
        match self.innermost {
            Some(frame) => frame.place.role.may_end(kind),
            None => false,
        }
    }

    /// Goes past a node of the innermost collection; `simple` says whether it was a simple key. Returns the next stage.
    pub(crate) fn advance(&mut self, simple: bool) -> Stage
        ensures frames { self.new ≡ advanced simple self.old }
        ensures stage { (directives : List TagDirective) → seen_stage result directives self.new ≡ steps.stage_after directives self.old simple }
    {
        match &mut self.innermost {
            Some(frame) => {
                // The role of the next node.
                frame.place.role = match frame.place.role {
                    Role::Root => Role::Root,
                    Role::Item { .. } => Role::Item { first: false },
                    Role::Key { .. } => Role::Value { simple },
                    Role::Value { .. } => Role::Key { first: false },
                };
                Stage::Node
            }
            None => Stage::DocumentEnd,
        }
    }

    /// Reserves memory for one more collection, if one more may be opened.
    pub(crate) fn make_room(&mut self) -> Result<(), yaml_error_t>
        ensures frames { self.new ≡ self.old }
        ensures memory { IfErr result (λ e. e ≡ yaml_error_t.Memory) }
    {
        if self.innermost.is_none() || self.is_full() {
            return Ok(());
        }
        match self.outer.reserve(1) {
            Ok(()) => Ok(()),
            Err(_) => Err(yaml_error_t::Memory),
        }
    }

    /// Opens a collection within the innermost one.
    pub(crate) fn push(&mut self, frame: Frame) -> Result<(), yaml_error_t>
        requires column { line_column (seen_frame frame).place.column ≤ 9 * (length self.old + 1) }
        requires room { length self.old < most_open }
        ensures ok { OnOk result (self.new ≡ seen_frame frame ∷ self.old) }
        ensures err { OnErr result (self.new ≡ self.old) }
        ensures memory { IfErr result (λ e. e ≡ yaml_error_t.Memory) }
    {
        if let Some(around) = self.innermost {
            if self.outer.push(around).is_err() {
                return Err(yaml_error_t::Memory);
            }
        }
        self.innermost = Some(frame);
        Ok(())
    }

    /// Closes all collections.
    pub(crate) fn clear(&mut self)
        ensures { self.new ≡ [] }
    {
        self.innermost = None;
        self.outer.clear();
    }

    /// Closes the innermost collection.
    pub(crate) fn pop(&mut self) -> Option<Frame>
        ensures { MatchOption result ((self.old ≡ []) × (self.new ≡ [])) (λ frame. self.old ≡ seen_frame frame ∷ self.new) }
    {
        let closed = self.innermost;
        self.innermost = self.outer.pop();
        closed
    }
}
