//! A caller of dumps: it compares the graphs of documents by their canonical bytes, as a store that hashes them does.
ghost use Rattle.std.specs.Prelude.{◌≡◌, ◌⊎◌, ◌==◌, Decides, IfOk, IfErr, false, length};
ghost use Rattle.yaml_base.specs.graphs.Documents.{graph_of};
ghost use Rattle.yaml_base.specs.graphs.Isomorphic.{Isomorphic};
ghost use Rattle.yaml_caller.specs.GraphBytes.{IsRefused, WritesGraph};

use crate::alone::dump_alone;
use std::alloc::Allocator;
use yaml_base::{yaml_document_t, yaml_error_t};
use yaml_emitter::{yaml_emitter_t, yaml_emitter_take_output};
use yaml_value::canonical_settings;

/// Returns whether two documents have the same canonical bytes, their directives and document markers aside. They have exactly if
/// the parts of their graphs that the roots reach are isomorphic. The numbers and the styles of nodes don't count; sharing
/// does.
///
/// # Errors
/// If a graph can't be written, the refusal of its first event that is refused: `TagEmpty`, or `TooDeep`. `Memory` if an
/// allocation fails.
pub fn same_graph<A: Allocator + Copy>(
    alloc: A,
    first: yaml_document_t<A>,
    second: yaml_document_t<A>,
) -> Result<bool, yaml_error_t>
    ensures same { IfOk result (λ same. Decides same (Isomorphic (graph_of first) (graph_of second))) }
    ensures failed { IfErr result (λ error. (error ≡ yaml_error_t.Memory) ⊎ (IsRefused (graph_of first) error ⊎ IsRefused (graph_of second) error)) }
    ensures named { IfErr result (λ error. (error ≡ yaml_error_t.Memory) ⊎ ((error ≡ yaml_error_t.TagEmpty) ⊎ (error ≡ yaml_error_t.TooDeep))) }
{
    let first_is_empty = first.is_empty();
    let second_is_empty = second.is_empty();
    if first_is_empty {
        return Ok(second_is_empty);
    }
    if second_is_empty {
        return Ok(false);
    }
    same_nodes(alloc, first, second)
}

/// Returns whether two documents that have nodes have isomorphic graphs.
fn same_nodes<A: Allocator + Copy>(
    alloc: A,
    first: yaml_document_t<A>,
    second: yaml_document_t<A>,
) -> Result<bool, yaml_error_t>
    requires first_nodes { (length (graph_of first).nodes == 0) ≡ false }
    requires second_nodes { (length (graph_of second).nodes == 0) ≡ false }
    ensures same { IfOk result (λ same. Decides same (Isomorphic (graph_of first) (graph_of second))) }
    ensures failed { IfErr result (λ error. (error ≡ yaml_error_t.Memory) ⊎ (IsRefused (graph_of first) error ⊎ IsRefused (graph_of second) error)) }
    ensures named { IfErr result (λ error. (error ≡ yaml_error_t.Memory) ⊎ ((error ≡ yaml_error_t.TagEmpty) ⊎ (error ≡ yaml_error_t.TooDeep))) }
{
    // A law: the numbers in the nodes are numbers of nodes.
    first.numbers_name_nodes();
    second.numbers_name_nodes();
    let one = graph_bytes(alloc, first)?;
    let other = graph_bytes(alloc, second)?;
    Ok(one.as_slice() == other.as_slice())
}

/// Returns the canonical bytes of a document's nodes.
fn graph_bytes<A: Allocator + Copy>(
    alloc: A,
    document: yaml_document_t<A>,
) -> Result<Vec<u8, A>, yaml_error_t>
    requires nonempty { (length (graph_of document).nodes == 0) ≡ false }
    ensures written { IfOk result (λ bytes. WritesGraph (graph_of document) bytes.items) }
    ensures failed { IfErr result (λ error. (error ≡ yaml_error_t.Memory) ⊎ IsRefused (graph_of document) error) }
{
    let Ok(mut emitter) = yaml_emitter_t::with_settings(alloc, canonical_settings()) else {
        return Err(yaml_error_t::Memory);
    };
    let answer = dump_alone(alloc, &mut emitter, document.bare());
    // Taken after an error, too: a vector is shorter than the limit, so the error isn't that the output was full.
    let output = yaml_emitter_take_output(&mut emitter);
    match answer {
        Ok(()) => Ok(output),
        Err(error) => Err(error),
    }
}
