//! Documents, from their nodes to bytes.
ghost use Rattle.std.specs.Prelude.{◌≡◌, true, false};

use super::events::{emit_words, emitter_with_output};
use crate::tests::{answers, equal, same};
use std::alloc::{AllocError, Global};
use std::process::Abort;
use yaml_dump::{
    NodeNumber, YAML_ANY_SCALAR_STYLE, YAML_BLOCK_MAPPING_STYLE, YAML_FLOW_SEQUENCE_STYLE,
    YAML_MAP_TAG, YAML_SEQ_TAG, YAML_STR_TAG, document_events, emit_each, yaml_document_t,
    yaml_emitter_close, yaml_emitter_dump, yaml_emitter_dump_typed, yaml_emitter_initialize,
    yaml_emitter_open, yaml_emitter_set_output_string, yaml_emitter_set_width, yaml_emitter_t,
    yaml_error_t, yaml_node_data_t, yaml_node_pair_t, yaml_node_t,
};

/// Returns a document as YAML of at most `limit` bytes, in which each node keeps its type.
fn yaml_of(
    alloc: Global,
    document: yaml_document_t<Global>,
    limit: usize,
) -> Result<Vec<u8>, yaml_error_t> {
    let mut emitter = yaml_emitter_initialize(alloc)?;
    yaml_emitter_set_output_string(&mut emitter, limit);
    yaml_emitter_set_width(&mut emitter, -1);
    yaml_emitter_dump_typed(alloc, &mut emitter, document)?;
    yaml_emitter_close(&mut emitter)?;
    Vec::from_slice(alloc, emitter.output()).map_err(|_| yaml_error_t::Memory)
}

/// Returns a string as a node.
fn text_node(alloc: Global, value: &str) -> Result<yaml_node_t<Global>, AllocError> {
    Ok(yaml_node_t {
        tag: String::from_str(alloc, YAML_STR_TAG)?,
        contents: yaml_node_data_t::Scalar {
            value: String::from_str(alloc, value)?,
            style: YAML_ANY_SCALAR_STYLE,
        },
    })
}

/// Returns a sequence of the nodes of these numbers.
fn sequence_node(alloc: Global, items: &[i32]) -> Result<yaml_node_t<Global>, AllocError> {
    Ok(yaml_node_t {
        tag: String::from_str(alloc, YAML_SEQ_TAG)?,
        contents: yaml_node_data_t::Sequence {
            items: Vec::from_slice(alloc, items)?,
            style: YAML_FLOW_SEQUENCE_STYLE,
        },
    })
}

/// Returns a mapping of the node of one number to that of another.
fn mapping_node(alloc: Global, key: i32, value: i32) -> Result<yaml_node_t<Global>, AllocError> {
    let pair = yaml_node_pair_t { key, value };
    Ok(yaml_node_t {
        tag: String::from_str(alloc, YAML_MAP_TAG)?,
        contents: yaml_node_data_t::Mapping {
            pairs: Vec::from_slice(alloc, &[pair])?,
            style: YAML_BLOCK_MAPPING_STYLE,
        },
    })
}

/// Returns a document of these nodes, numbered from 1; the first is the root.
fn document_of(
    alloc: Global,
    nodes: Vec<yaml_node_t<Global>>,
) -> Result<yaml_document_t<Global>, NodeNumber> {
    if nodes.len() > 1_000 {
        return Err(NodeNumber(0));
    }
    yaml_document_t::from_nodes(None, Vec::new(alloc), nodes, true, true)
}

/// Dumps two documents into one stream; the second has no nodes, which closes the stream.
fn dump_both(
    alloc: Global,
    emitter: &mut yaml_emitter_t<Global>,
    first: yaml_document_t<Global>,
    empty: yaml_document_t<Global>,
) -> Result<(), yaml_error_t>
    requires output { emitter.old.has_output ≡ true }
    requires not_opened { emitter.old.opened ≡ false }
{
    yaml_emitter_open(emitter)?;
    yaml_emitter_dump(alloc, emitter, first)?;
    yaml_emitter_dump(alloc, emitter, empty)
}

/// Gives the nodes of a document without its directives, in a stream whose start was emitted as an event.
fn emit_bare(
    alloc: Global,
    emitter: &mut yaml_emitter_t<Global>,
    document: yaml_document_t<Global>,
) -> Result<(), yaml_error_t>
    requires { emitter.old.has_output ≡ true }
    ensures { emitter.new.has_output ≡ true }
{
    if let Some(error) = emitter.error() {
        return Err(error);
    }
    emitter.mark_opened();
    let events = document_events(alloc, &document.bare())?;
    emit_each(emitter, events)
}

/// Closes the stream if it was opened and no call has failed.
fn close_if_open(emitter: &mut yaml_emitter_t<Global>) -> Result<(), yaml_error_t> {
    if let Some(error) = emitter.error() {
        return Err(error);
    }
    if !emitter.is_opened() {
        return Ok(());
    }
    yaml_emitter_close(emitter)
}

/// Returns a document of a mapping of node 2 to the node of this number, and of these texts, from node 2 on.
fn mapping(
    rt: &impl Abort,
    alloc: Global,
    value: i32,
    texts: &[&str],
) -> Result<yaml_document_t<Global>, NodeNumber> {
    let mut nodes = Vec::new(alloc);
    let pair = mapping_node(alloc, 2, value).expect(rt, "no memory");
    nodes.push(pair).expect(rt, "no memory");
    for text in texts {
        let node = text_node(alloc, text).expect(rt, "no memory");
        nodes.push(node).expect(rt, "no memory");
    }
    document_of(alloc, nodes)
}

/// Returns a document of a mapping of `name` to a text.
fn named(rt: &impl Abort, alloc: Global) -> yaml_document_t<Global> {
    let document = mapping(rt, alloc, 3, &["name", "beta"]);
    document.expect(rt, "each number names a node")
}

/// Checks that the document of a mapping of one text to another is written so.
fn check_written(rt: &impl Abort, alloc: Global, texts: &[&str], expected: &str) {
    let document = mapping(rt, alloc, 3, texts).expect(rt, "each number names a node");
    equal(rt, &document.node_count(), &3);
    answers(rt, yaml_of(alloc, document, 100), &Ok(expected));
}

#[test]
fn a_document_is_written_where_each_number_names_a_node(rt: HostRuntime) {
    check_written(&rt, rt.alloc(), &["name", "beta"], "name: beta\n");
    check_written(&rt, rt.alloc(), &["country", "no"], "country: 'no'\n");
    let refused = mapping(&rt, rt.alloc(), 4, &["name", "beta"]).err();
    equal(&rt, &refused, &Some(NodeNumber(4)));
}

/// Returns a document of a mapping of `both` to a sequence that has one node twice.
fn twice(rt: &impl Abort, alloc: Global) -> yaml_document_t<Global> {
    let mut nodes = Vec::new(alloc);
    for node in [
        mapping_node(alloc, 2, 3),
        text_node(alloc, "both"),
        sequence_node(alloc, &[4, 4]),
        text_node(alloc, "beta"),
    ] {
        let node = node.expect(rt, "no memory");
        nodes.push(node).expect(rt, "no memory");
    }
    document_of(alloc, nodes).expect(rt, "each number names a node")
}

#[test]
fn a_sequence_has_a_node_twice(rt: HostRuntime) {
    let bytes = yaml_of(rt.alloc(), twice(&rt, rt.alloc()), 100);
    answers(&rt, bytes, &Ok("both: [&id001 beta, *id001]\n"));
}

/// Returns a document of a mapping that is its own value.
fn circle(rt: &impl Abort, alloc: Global) -> yaml_document_t<Global> {
    mapping(rt, alloc, 1, &["me"]).expect(rt, "each number names a node")
}

/// Dumps two documents: the first is a mapping that is its own value, and the second is empty.
fn check_circle(
    rt: &impl Abort,
    alloc: Global,
    emitter: &mut yaml_emitter_t<Global>,
    empty: yaml_document_t<Global>,
)
    requires output { emitter.old.has_output ≡ true }
    requires not_opened { emitter.old.opened ≡ false }
{
    equal(rt, &empty.is_empty(), &true);
    let answer = dump_both(alloc, emitter, circle(rt, alloc), empty);
    equal(rt, &answer, &Ok(()));
    same(rt, emitter.output(), "&id001\nme: *id001\n");
}

#[test]
fn a_node_met_twice_has_an_anchor(rt: HostRuntime) {
    let circle = circle(&rt, rt.alloc());
    let events = document_events(rt.alloc(), &circle);
    equal(&rt, &events.expect(&rt, "no memory").len(), &6);
    drop(circle);
    let empty = document_of(rt.alloc(), Vec::new(rt.alloc()));
    let mut emitter = emitter_with_output(&rt, rt.alloc());
    let empty = empty.expect(&rt, "there are no numbers");
    check_circle(&rt, rt.alloc(), &mut emitter, empty);
    drop(emitter);
}

/// Checks that a document's nodes follow the start of a stream.
fn check_bare(rt: &impl Abort, alloc: Global, emitter: &mut yaml_emitter_t<Global>)
    requires { emitter.old.has_output ≡ true }
{
    let started = emit_words(rt, alloc, emitter, "stream");
    let answer = emit_bare(alloc, emitter, named(rt, alloc));
    equal(rt, &(started, answer), &(Ok(()), Ok(())));
    equal(rt, &emitter.is_opened(), &true);
    same(rt, emitter.output(), "name: beta\n");
}

#[test]
fn nodes_follow_a_stream_start(rt: HostRuntime) {
    let mut emitter = emitter_with_output(&rt, rt.alloc());
    check_bare(&rt, rt.alloc(), &mut emitter);
    drop(emitter);
}

/// Returns how the call ends, and whether the stream is then closed.
fn closed(emitter: &mut yaml_emitter_t<Global>) -> (Result<(), yaml_error_t>, bool) {
    let answer = close_if_open(emitter);
    (answer, emitter.is_closed())
}

/// Checks that an open stream is closed.
fn check_opened(rt: &impl Abort, emitter: &mut yaml_emitter_t<Global>)
    requires output { emitter.old.has_output ≡ true }
    requires not_opened { emitter.old.opened ≡ false }
{
    equal(rt, &yaml_emitter_open(emitter), &Ok(()));
    equal(rt, &closed(emitter), &(Ok(()), true));
}

#[test]
fn an_open_stream_is_closed(rt: HostRuntime) {
    let mut emitter = yaml_emitter_initialize(rt.alloc()).expect(&rt, "no memory");
    equal(&rt, &closed(&mut emitter), &(Ok(()), false));
    drop(emitter);
    let mut emitter = emitter_with_output(&rt, rt.alloc());
    check_opened(&rt, &mut emitter);
    drop(emitter);
}
