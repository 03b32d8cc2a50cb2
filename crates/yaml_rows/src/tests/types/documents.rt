//! Documents made of nodes: their getters, and the numbers that are refused.
use crate::tests::dumps::Given::{Mapping, Sequence};
use crate::tests::dumps::{Given, VERSION, marked_document, nodes};
use crate::tests::equal;
use std::alloc::Global;
use std::process::Abort;
use yaml_base::{NodeNumber, yaml_document_t, yaml_node_pair_t};

const SEQUENCES: &[Given] = &[Sequence(&[2]), Sequence(&[1])];

fn check_settings(rt: &impl Abort, document: &yaml_document_t<Global>) {
    let counts = (
        document.is_empty(),
        document.node_count(),
        document.tag_directives().len(),
    );
    equal(rt, &counts, &(false, 2, 1));
    equal(rt, &document.version_directive(), &VERSION);
    let implicit = (document.start_implicit(), document.end_implicit());
    equal(rt, &implicit, &(false, true));
}

fn check_nodes(rt: &impl Abort, alloc: Global, document: &yaml_document_t<Global>) {
    let wanted = nodes(rt, alloc, SEQUENCES);
    equal(rt, &document.root(), &wanted.get(0));
    equal(rt, &document.get_node(2), &wanted.get(1));
    for outside in [0, 3, -1] {
        let found = document.get_node(outside).is_some();
        equal(rt, &(outside, found), &(outside, false));
    }
}

#[test]
fn a_document_gives_back_what_it_was_handed(rt: HostRuntime) {
    let document = marked_document(&rt, rt.alloc(), SEQUENCES);
    check_settings(&rt, &document);
    check_nodes(&rt, rt.alloc(), &document);
    drop(document);
}

/// Nodes, and the first of their numbers that names none: of two nodes, and of one.
const REFUSED: &[(&[Given], i32)] = &[
    (&[Sequence(&[1]), Mapping(&[SECOND_TO_THIRD])], 3),
    (&[Sequence(&[0]), Mapping(&[SECOND_TO_THIRD])], 0),
    (
        &[
            Sequence(&[2]),
            Mapping(&[yaml_node_pair_t { key: 2, value: -7 }]),
        ],
        -7,
    ),
    (&[Sequence(&[2, 0])], 2),
    (&[Sequence(&[1, 0])], 0),
    (&[Mapping(&[yaml_node_pair_t { key: 1, value: 3 }])], 3),
];

const SECOND_TO_THIRD: yaml_node_pair_t = yaml_node_pair_t { key: 2, value: 3 };

fn check_refused(rt: &impl Abort, alloc: Global, given: &[Given], number: i32) {
    let nodes = nodes(rt, alloc, given);
    assert!(rt; nodes.len() <= 2_000_000);
    let made = yaml_document_t::from_nodes(None, Vec::new(alloc), nodes, false, false);
    equal(rt, &made.err(), &Some(NodeNumber(number)));
}

#[test]
fn the_first_number_outside_is_refused(rt: HostRuntime) {
    for (given, number) in REFUSED {
        check_refused(&rt, rt.alloc(), given, *number);
    }
}
