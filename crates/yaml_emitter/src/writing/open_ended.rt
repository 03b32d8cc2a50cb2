//! Whether the last document that was written is still open.

ghost use Rattle.std.specs.Prelude.{◌≡◌, ◌==◌, pos, not, if◌then◌else◌};
ghost use Rattle.yaml_base.specs.declared.scalars.Ending.{Ending};
ghost use Rattle.yaml_base.specs.scalars.BlockHeader.{ending_open_ended};
ghost use Rattle.yaml_emitter.specs.WrittenPieces.{seen_open_ended};

/// The construct that an explicit `...` would have to close.
#[derive(Clone, Copy)]
pub(crate) enum OpenEnded {
    /// Nothing.
    Closed,
    /// A document that ended without `...`.
    ImplicitEnd,
    /// A block scalar that keeps its final breaks.
    KeptBreaks,
}

impl OpenEnded {
    pub(crate) fn is_open(self) -> bool
        ensures { result ≡ not (seen_open_ended self == 0) }
    {
        !matches!(self, OpenEnded::Closed)
    }

    /// Returns whether the last text is a block scalar that keeps its final breaks.
    pub(crate) fn keeps_breaks(self) -> bool
        ensures { result ≡ (seen_open_ended self == 2) }
    {
        matches!(self, OpenEnded::KeptBreaks)
    }

    /// Returns the state after a block scalar, whose writer returned its header's state: 0 or 2.
    pub(crate) fn after_header(open_ended: i32) -> OpenEnded
        ensures { (ending : Ending) → open_ended ≡ pos (ending_open_ended ending) → seen_open_ended result ≡ ending_open_ended ending }
    {
        if open_ended == 2 {
            OpenEnded::KeptBreaks
        } else {
            OpenEnded::Closed
        }
    }

    /// Returns the state after the end of a document.
    pub(crate) fn after_document(self, implicit: bool) -> OpenEnded
        ensures { seen_open_ended result ≡ (if implicit then (if seen_open_ended self == 0 then 1 else seen_open_ended self) else 0) }
    {
        match self {
            _ if !implicit => OpenEnded::Closed,
            OpenEnded::Closed => OpenEnded::ImplicitEnd,
            open => open,
        }
    }
}
