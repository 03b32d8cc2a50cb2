//! A caller of dumps: it writes a document that holds itself, and proves the bytes and that they tell the graph.
ghost use Rattle.std.specs.Prelude.{◌≡◌, IfOk, IfErr, pos, false, [], ◌∷◌, codes, length, map};
ghost use Rattle.yaml_base.specs.graphs.Documents.{graph_of};
ghost use Rattle.yaml_base.specs.graphs.Dumped.{GraphsRead};
ghost use Rattle.yaml_dump.specs.GraphTrees.{GraphsReadBack};
ghost use Rattle.yaml_base.specs.graphs.SeenNodes.{all_numbers, numbers_of, seen_node};
ghost use Rattle.yaml_caller.specs.Alone.{IsUnopened};
ghost use Rattle.yaml_caller.specs.Cycle.{cycle_graph, cycle_settings, key_node, map_node};

use crate::alone::dump_alone;
use std::alloc::{AllocError, Allocator};
use yaml_base::{
    YAML_ANY_SCALAR_STYLE, YAML_BLOCK_MAPPING_STYLE, yaml_document_t, yaml_error_t,
    yaml_node_data_t, yaml_node_pair_t, yaml_node_t,
};
use yaml_dump::{YAML_MAP_TAG, YAML_STR_TAG};
use yaml_emitter::{
    yaml_emitter_initialize, yaml_emitter_set_canonical, yaml_emitter_set_output_string,
    yaml_emitter_set_width, yaml_emitter_t, yaml_emitter_take_output,
};

/// Returns the canonical bytes of a mapping whose one key is the string `k`, and whose value is the mapping itself.
///
/// # Errors
/// `Memory` if an allocation fails; no other error occurs.
pub fn cycle_written<A: Allocator + Copy>(alloc: A) -> Result<Vec<u8, A>, yaml_error_t>
    ensures bytes { IfOk result (λ bytes. bytes.items ≡ codes "---\n&id001 !!map {\n  ? !!str \"k\"\n  : *id001,\n}\n") }
    ensures graph { IfOk result (λ bytes. GraphsRead false (cycle_graph ∷ []) bytes.items) }
    ensures trees { IfOk result (λ bytes. GraphsReadBack false (cycle_graph ∷ []) bytes.items) }
    ensures memory { IfErr result (λ error. error ≡ yaml_error_t.Memory) }
{
    let Ok(mut emitter) = canonical_emitter(alloc) else {
        return Err(yaml_error_t::Memory);
    };
    let Ok(document) = cycle(alloc) else {
        return Err(yaml_error_t::Memory);
    };
    dump_alone(alloc, &mut emitter, document)?;
    Ok(yaml_emitter_take_output(&mut emitter))
}

/// Makes an emitter that writes canonical form into at most 100 bytes.
fn canonical_emitter<A: Allocator + Copy>(alloc: A) -> Result<yaml_emitter_t<A>, yaml_error_t>
    ensures made { IfOk result (λ emitter. (emitter.events ≡ []) × (emitter.given ≡ cycle_settings)) }
    ensures unopened { IfOk result (λ emitter. IsUnopened emitter) }
    ensures untaken { IfOk result (λ emitter. emitter.page.taken ≡ 0) }
    ensures memory { IfErr result (λ error. error ≡ yaml_error_t.Memory) }
{
    let Ok(mut emitter) = yaml_emitter_initialize(alloc) else {
        return Err(yaml_error_t::Memory);
    };
    yaml_emitter_set_output_string(&mut emitter, 100);
    yaml_emitter_set_canonical(&mut emitter, true);
    yaml_emitter_set_width(&mut emitter, -1);
    Ok(emitter)
}

/// Makes the document: its mapping is node 1, and the key is node 2.
fn cycle<A: Allocator + Copy>(alloc: A) -> Result<yaml_document_t<A>, yaml_error_t>
    ensures graph { IfOk result (λ document. graph_of document ≡ cycle_graph) }
    ensures memory { IfErr result (λ error. error ≡ yaml_error_t.Memory) }
{
    let Ok(nodes) = cycle_nodes(alloc) else {
        return Err(yaml_error_t::Memory);
    };
    match yaml_document_t::from_nodes(None, Vec::new(alloc), nodes, true, true) {
        Ok(document) => Ok(document),
        Err(_) => unreachable!(),
    }
}

fn cycle_nodes<A: Allocator + Copy>(alloc: A) -> Result<Vec<yaml_node_t<A>, A>, AllocError>
    ensures seen { IfOk result (λ nodes. map seen_node nodes.items ≡ map_node ∷ key_node ∷ []) }
    ensures count { IfOk result (λ nodes. length nodes.items ≡ 2) }
    ensures numbers { IfOk result (λ nodes. all_numbers nodes.items ≡ pos 2 ∷ pos 1 ∷ []) }
{
    let mut nodes = Vec::new(alloc);
    let Ok(map) = cycle_map(alloc) else {
        return Err(AllocError);
    };
    nodes.push(map)?;
    let Ok(key) = cycle_key(alloc) else {
        return Err(AllocError);
    };
    nodes.push(key)?;
    Ok(nodes)
}

fn cycle_map<A: Allocator + Copy>(alloc: A) -> Result<yaml_node_t<A>, AllocError>
    ensures seen { IfOk result (λ node. seen_node node ≡ map_node) }
    ensures numbers { IfOk result (λ node. numbers_of node.contents ≡ pos 2 ∷ pos 1 ∷ []) }
{
    Ok(yaml_node_t {
        tag: String::from_str(alloc, YAML_MAP_TAG)?,
        contents: yaml_node_data_t::Mapping {
            pairs: vec![in alloc; yaml_node_pair_t { key: 2, value: 1 }]?,
            style: YAML_BLOCK_MAPPING_STYLE,
        },
    })
}

fn cycle_key<A: Allocator + Copy>(alloc: A) -> Result<yaml_node_t<A>, AllocError>
    ensures seen { IfOk result (λ node. seen_node node ≡ key_node) }
    ensures numbers { IfOk result (λ node. numbers_of node.contents ≡ []) }
{
    Ok(yaml_node_t {
        tag: String::from_str(alloc, YAML_STR_TAG)?,
        contents: yaml_node_data_t::Scalar {
            value: String::from_str(alloc, "k")?,
            style: YAML_ANY_SCALAR_STYLE,
        },
    })
}
