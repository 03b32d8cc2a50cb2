//! Random graphs, dumped and read back, and with one byte changed.
use super::graphs::document;
use super::spoiled::replaced;
use super::{check_answer, dumped, read_and_dumped};
use crate::tests::reading::push;
use crate::tests::reading::random::{Random, random_text};
use std::alloc::Global;
use std::process::Abort;
use yaml_base::{
    YAML_ANY_MAPPING_STYLE, YAML_ANY_SCALAR_STYLE, YAML_ANY_SEQUENCE_STYLE, yaml_document_t,
    yaml_node_data_t, yaml_node_pair_t, yaml_node_t,
};

/// Tags that are written in ways of their own, and parts of tags.
const TAGS: &[&str] = &[
    "tag:yaml.org,2002:str",
    "tag:yaml.org,2002:seq",
    "tag:yaml.org,2002:map",
    "tag:yaml.org,2002:",
    "tag:yaml.org,2002:int",
    "!",
    "!!",
    "!local",
    "x",
    "tag:example.org,2026:é%<>",
];

/// Returns one of the tags, with a random text after it or not.
fn random_tag(rt: &impl Abort, alloc: Global, random: &mut Random) -> String {
    let mut tag = String::from_str(alloc, random.pick(TAGS, "x")).expect(rt, "no memory");
    if random.below(3) == 0 {
        let more = random_text(rt, alloc, random);
        tag.push_str(more.as_str()).expect(rt, "no memory");
    }
    tag
}

/// Returns a number of one of so many nodes.
fn random_number(random: &mut Random, count: u64) -> i32 {
    i32::try_from(random.below(count).saturating_add(1)).unwrap_or(1)
}

/// Returns at most three numbers of nodes.
fn random_items(rt: &impl Abort, alloc: Global, random: &mut Random, count: u64) -> Vec<i32> {
    let mut items = Vec::new(alloc);
    for _ in 0..random.below(4) {
        let item = random_number(random, count);
        push(rt, &mut items, item);
    }
    items
}

/// Returns at most two pairs of numbers of nodes.
fn random_pairs(
    rt: &impl Abort,
    alloc: Global,
    random: &mut Random,
    count: u64,
) -> Vec<yaml_node_pair_t> {
    let mut pairs = Vec::new(alloc);
    for _ in 0..random.below(3) {
        let key = random_number(random, count);
        let value = random_number(random, count);
        push(rt, &mut pairs, yaml_node_pair_t { key, value });
    }
    pairs
}

/// Returns the contents of a node, without a style.
fn random_contents(
    rt: &impl Abort,
    alloc: Global,
    random: &mut Random,
    count: u64,
) -> yaml_node_data_t<Global> {
    match random.below(4) {
        0 => yaml_node_data_t::Scalar {
            value: random_text(rt, alloc, random),
            style: YAML_ANY_SCALAR_STYLE,
        },
        1 => yaml_node_data_t::Mapping {
            pairs: random_pairs(rt, alloc, random, count),
            style: YAML_ANY_MAPPING_STYLE,
        },
        _ => yaml_node_data_t::Sequence {
            items: random_items(rt, alloc, random, count),
            style: YAML_ANY_SEQUENCE_STYLE,
        },
    }
}

/// Returns a document of at most nine nodes; some may not be reached.
fn random_document(rt: &impl Abort, alloc: Global, random: &mut Random) -> yaml_document_t<Global> {
    let count = random.below(9).saturating_add(1);
    let mut nodes = Vec::new(alloc);
    for _ in 0..count {
        let tag = random_tag(rt, alloc, random);
        let contents = random_contents(rt, alloc, random, count);
        push(rt, &mut nodes, yaml_node_t { tag, contents });
    }
    document(rt, alloc, nodes)
}

/// Changes so many bytes, one at a time. A document that is read is dumped as the changed bytes.
fn check_spoiled(rt: &impl Abort, alloc: Global, random: &mut Random, bytes: &[u8]) {
    for _ in 0..20 {
        let offset = random.small(bytes.len().max(1));
        let byte = u8::try_from(random.below(128)).unwrap_or(0);
        let spoiled = replaced(rt, alloc, bytes, offset, byte);
        let _answer = read_and_dumped(rt, alloc, spoiled.as_slice());
    }
}

fn check_random(rt: &impl Abort, alloc: Global, random: &mut Random) {
    let document = random_document(rt, alloc, random);
    let bytes = dumped(rt, alloc, document);
    check_answer(rt, alloc, bytes.as_slice(), None);
    check_spoiled(rt, alloc, random, bytes.as_slice());
}

#[test]
fn random_documents_are_read_back(rt: HostRuntime) {
    let mut random = Random { state: 12 };
    for _ in 0..300 {
        check_random(&rt, rt.alloc(), &mut random);
    }
}
