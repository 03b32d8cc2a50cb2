//! A document that is dumped alone, as a whole stream.
ghost use Rattle.std.specs.Prelude.{◌≡◌, ◌==◌, [], false, length};
ghost use Rattle.yaml_base.specs.graphs.Documents.{graph_of};
ghost use Rattle.yaml_caller.specs.Alone.{DumpsAlone, IsUnopened};

use std::alloc::Allocator;
use yaml_base::{yaml_document_t, yaml_error_t};
use yaml_dump::{yaml_emitter_close, yaml_emitter_dump};
use yaml_emitter::yaml_emitter_t;

/// Dumps a document that has nodes as a whole stream.
pub(crate) fn dump_alone<A: Allocator + Copy>(
    alloc: A,
    emitter: &mut yaml_emitter_t<A>,
    document: yaml_document_t<A>,
) -> Result<(), yaml_error_t>
    requires unopened { IsUnopened emitter.old }
    requires nonempty { (length (graph_of document).nodes == 0) ≡ false }
    ensures taken { emitter.new.page.taken ≡ emitter.old.page.taken }
    ensures dumps { emitter.old.events ≡ [] → DumpsAlone emitter.old.given (graph_of document) result emitter.new }
{
    // A law: the numbers in the nodes are numbers of nodes.
    document.numbers_name_nodes();
    if let Err(error) = yaml_emitter_dump(alloc, emitter, document) {
        // A law: the consequences of the events that were given.
        emitter.promised();
        return Err(error);
    }
    let answer = yaml_emitter_close(emitter);
    emitter.promised();
    answer
}
