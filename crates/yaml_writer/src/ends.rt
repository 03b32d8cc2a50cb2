//! Ends of documents.
ghost use Rattle.std.specs.Prelude.{◌≡◌};
ghost use Rattle.yaml_writer.specs.Writing as writing;

/// The way in which the end of a document is written.
#[derive(Clone, Copy, PartialEq, Eq, Debug)]
pub enum DocumentEnd {
    /// Not at all: the next document or the end of the stream tells it.
    Implicit,
    /// As `...`, so that a reader knows it before anything follows.
    Explicit,
}

/// Returns whether an end isn't written.
pub(crate) fn is_implicit(end: DocumentEnd) -> bool
    ensures { result ≡ writing.is_implicit end }
{
    match end {
        DocumentEnd::Implicit => true,
        DocumentEnd::Explicit => false,
    }
}
