//! A document read from the bytes of its dump.
ghost use Rattle.std.specs.Prelude.{◌≡◌, ◌⊎◌, IfErr, IfOk, List, map};
ghost use Rattle.yaml_base.specs.Event.{Event};
ghost use Rattle.yaml_base.specs.Seen.{seen_event};
ghost use Rattle.yaml_base.specs.graphs.Documents.{graph_of};
ghost use Rattle.yaml_base.specs.graphs.Isomorphic.{Isomorphic};
ghost use Rattle.yaml_base.specs.graphs.Meetings.{Graph};
ghost use Rattle.yaml_dump.specs.InOrder.{in_order};
ghost use Rattle.yaml_read.specs.DocumentPlaces.{ComposesNode, IsDocumentPlaced};
ghost use Rattle.yaml_read.specs.DocumentTexts.{AreDumpedBytes, unstyled_graph};
ghost use Rattle.yaml_read.specs.RunPlaces.{in_document};

use crate::errors::ReadError;
use crate::positions::{error_of, text_of};
use crate::runs::read_events;
use std::alloc::Allocator;
use yaml_base::{yaml_document_t, yaml_event_t};
use yaml_dump::{ComposeError, document_of_events};

/// Returns the document that has these events.
fn composed<A: Allocator + Copy>(
    alloc: A,
    events: &[yaml_event_t<A>],
) -> Result<yaml_document_t<A>, ReadError>
    ensures { (node : List Event) → map seen_event events.now ≡ in_document node → ComposesNode node result }
{
    match document_of_events(alloc, events) {
        Ok(document) => {
            // A law: the numbers in the nodes are numbers of nodes.
            document.numbers_name_nodes();
            Ok(document)
        }
        Err(ComposeError::NotDumped) => Err(ReadError::NotNumbered),
        Err(ComposeError::Memory) => Err(ReadError::Memory),
    }
}

/// Returns the document that these are the canonical bytes of. They are exactly what `yaml_emitter_dump` writes, by the settings
/// `canonical_settings()` of `yaml_value`, of one document that has neither a version nor directives, and an end that isn't written.
/// Nothing else is accepted. (Documents that nest deeper than an emitter goes are read, too.)
///
/// Its nodes are numbered in the order in which they begin, and their styles are `ANY`. Dumped so again, it gives these bytes.
///
/// # Errors
/// `NotCanonical` if the bytes aren't laid out as those of a document. Its position is that of the first event that is impossible there:
/// the beginning of the text that leads to it, or of its node if that text is right, or of what follows if its node is right.
/// `NotNumbered` if they are laid out so, but no dump gives its nodes these anchors and aliases: an anchor without an alias, an alias
/// before its anchor, names other than `id001`, `id002` and so on in the order of each node's first alias. `Memory` if an allocation
/// fails, or if there are more nodes than a document can number.
pub fn read_document<A: Allocator + Copy>(
    alloc: A,
    bytes: &[u8],
) -> Result<yaml_document_t<A>, ReadError>
    ensures read { IfOk result (λ document. AreDumpedBytes (graph_of document) bytes.now) }
    ensures exact { IfOk result (λ document. (graph : Graph) → AreDumpedBytes graph bytes.now → graph_of document ≡ in_order (unstyled_graph graph)) }
    ensures one { IfOk result (λ document. (graph : Graph) → AreDumpedBytes graph bytes.now → Isomorphic graph (graph_of document)) }
    ensures complete { IfErr result (λ error. (error ≡ ReadError.Memory) ⊎ ((graph : Graph) → AreDumpedBytes graph bytes.now → ⊥)) }
    ensures placed { IfErr result (IsDocumentPlaced bytes.now) }
{
    match text_of(bytes) {
        Ok(text) => match read_events(alloc, text) {
            Ok(events) => composed(alloc, events.as_slice()),
            Err(stop) => Err(error_of(bytes, stop)),
        },
        Err(error) => Err(error),
    }
}
