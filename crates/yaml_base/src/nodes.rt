//! Nodes of a document. They name one another by number, and may be shared.
use crate::styles::{yaml_mapping_style_t, yaml_scalar_style_t, yaml_sequence_style_t};
use std::alloc::Allocator;

/// A key and its value: the numbers of two nodes.
#[derive(Clone, Copy, PartialEq, Eq, Debug)]
pub struct yaml_node_pair_t {
    /// The number of the key's node.
    pub key: i32,
    /// The number of the value's node.
    pub value: i32,
}

/// The contents of a node.
#[derive(Drop)]
#[derive_where(PartialEq, Eq, Debug)]
pub enum yaml_node_data_t<A: Allocator> {
    /// A scalar.
    Scalar {
        /// Its text.
        value: String<A>,
        /// The style in which it is to be written.
        style: yaml_scalar_style_t,
    },
    /// A sequence.
    Sequence {
        /// The numbers of its items' nodes.
        items: Vec<i32, A>,
        /// The style in which it is to be written.
        style: yaml_sequence_style_t,
    },
    /// A mapping.
    Mapping {
        /// The numbers of its keys' and values' nodes.
        pairs: Vec<yaml_node_pair_t, A>,
        /// The style in which it is to be written.
        style: yaml_mapping_style_t,
    },
}

/// A node of a document.
#[derive(Drop)]
#[derive_where(PartialEq, Eq, Debug)]
pub struct yaml_node_t<A: Allocator> {
    /// Its tag.
    pub tag: String<A>,
    /// The contents of the node.
    pub contents: yaml_node_data_t<A>,
}
