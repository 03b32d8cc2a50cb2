//! The parts of a stream that may come next.

ghost use Rattle.std.specs.Prelude.{◌≡◌, List};
ghost use Rattle.yaml_base.specs.Event.{TagDirective};
ghost use Rattle.yaml_base.specs.Steps.{Frame, stage_expected};
ghost use Rattle.yaml_emitter.specs.Stages.{seen_stage};

use yaml_base::yaml_error_t;

/// The part of a stream that comes next.
#[derive(Clone, Copy)]
pub(crate) enum Stage {
    /// The stream's start.
    Stream,
    /// A document, the stream's first or another, or the stream's end.
    Document { first: bool },
    /// A node, or the end of the innermost open collection.
    Node,
    /// A document's end.
    DocumentEnd,
    Nothing,
}

impl Stage {
    /// Returns the error for an event that may not come next.
    pub(crate) fn refusal(self) -> yaml_error_t
        ensures { (directives : List TagDirective) (frames : List Frame) → result ≡ stage_expected (seen_stage self directives frames) }
    {
        match self {
            Stage::Stream => yaml_error_t::ExpectedStreamStart,
            Stage::Document { .. } => yaml_error_t::ExpectedDocumentStart,
            Stage::Node => yaml_error_t::ExpectedNode,
            Stage::DocumentEnd => yaml_error_t::ExpectedDocumentEnd,
            Stage::Nothing => yaml_error_t::ExpectedNothing,
        }
    }
}
