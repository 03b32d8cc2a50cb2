//! Documents as graphs of numbered nodes.
ghost use Rattle.std.specs.Prelude.{true, ◌≡◌, ◌≤◌, None, Some, pos, map, option_map, length, vec_len, slice_get, is_none, IsTrue, MatchResult, IfOk, ◌==◌};
ghost use Rattle.yaml_base.specs.graphs.Meetings.{node_numbered};
ghost use Rattle.yaml_base.specs.Seen.{seen_version, seen_directive};
ghost use Rattle.yaml_base.specs.graphs.Meetings.{is_whole};
ghost use Rattle.yaml_base.specs.graphs.SeenNodes.{seen_number, seen_node, seen_document, names_node as is_named, numbers_of, numbers_of_pairs, all_numbers};
ghost use Rattle.yaml_base.specs.graphs.SeenNodes.{first_outside};
ghost use Rattle.yaml_base.specs.graphs.Isomorphic as isomorphic;
ghost use Rattle.yaml_base.specs.Settings.{largest_i32};

use crate::directives::{yaml_tag_directive_t, yaml_version_directive_t};
use crate::nodes::{yaml_node_data_t, yaml_node_pair_t, yaml_node_t};
use std::alloc::Allocator;
use std::error::Error;
use std::fmt;

/// A number that a node holds and that names no node of its document.
#[derive(Clone, Copy, PartialEq, Eq, Debug)]
pub struct NodeNumber(pub i32);

impl fmt::Display for NodeNumber {
    fn fmt<W: fmt::Write>(&self, formatter: &mut fmt::Formatter<W>) -> fmt::Result {
        write!(formatter, "no node has the number {}", self.0)
    }
}

/// Lets `?` turn it into a caller's own error.
impl Error for NodeNumber {}

/// A document: its directives and its nodes, which are numbered from 1. Node 1 is the root.
#[derive(Drop)]
#[derive_where(PartialEq, Eq, Debug)]
pub struct yaml_document_t<A: Allocator> {
    version_directive: Option<yaml_version_directive_t>,
    tag_directives: Vec<yaml_tag_directive_t<A>, A>,
    nodes: Vec<yaml_node_t<A>, A>,
    start_implicit: bool,
    end_implicit: bool,
    ghost countable: { vec_len nodes ≤ largest_i32 },
    ghost whole: { IsTrue (is_none (first_outside (length nodes.items) (all_numbers nodes.items))) },
}

/// Returns whether `number` names one of `count` nodes.
fn names_node(count: usize, number: i32) -> bool
    ensures { result ≡ is_named count number }
{
    1 <= number && number as usize <= count
}

fn outside_items(count: usize, items: &[i32]) -> Option<i32>
    ensures { result ≡ first_outside count items.now }
{
    for item in items {
        if !names_node(count, *item) {
            return Some(*item);
        }
    }
    None
}

fn outside_pairs(count: usize, pairs: &[yaml_node_pair_t]) -> Option<i32>
    ensures { result ≡ first_outside count (numbers_of_pairs pairs.now) }
{
    for pair in pairs {
        if !names_node(count, pair.key) {
            return Some(pair.key);
        }
        if !names_node(count, pair.value) {
            return Some(pair.value);
        }
    }
    None
}

/// Returns the first number in `contents` that names none of `count` nodes.
fn outside_node<A: Allocator>(count: usize, contents: &yaml_node_data_t<A>) -> Option<i32>
    ensures { result ≡ first_outside count (numbers_of contents.now) }
{
    match contents {
        yaml_node_data_t::Scalar { .. } => None,
        yaml_node_data_t::Sequence { items, .. } => outside_items(count, items.as_slice()),
        yaml_node_data_t::Mapping { pairs, .. } => outside_pairs(count, pairs.as_slice()),
    }
}

fn outside_nodes<A: Allocator>(count: usize, nodes: &[yaml_node_t<A>]) -> Option<i32>
    ensures { result ≡ first_outside count (all_numbers nodes.now) }
{
    for node in nodes {
        let outside = outside_node(count, &node.contents);
        if outside.is_some() {
            return outside;
        }
    }
    None
}

impl<A: Allocator> yaml_document_t<A> {
    ghost use Rattle.yaml_base.specs.graphs.Documents.{graph_of};

    /// Returns a document of these nodes and directives. There may be at most 2,147,483,647 nodes.
    ///
    /// # Errors
    /// The first number that names none of the nodes, in the order of nodes, items, and keys before values. The arguments are then
    /// dropped.
    pub fn from_nodes(
        version: Option<yaml_version_directive_t>,
        tags: Vec<yaml_tag_directive_t<A>, A>,
        nodes: Vec<yaml_node_t<A>, A>,
        start_implicit: bool,
        end_implicit: bool,
    ) -> Result<yaml_document_t<A>, NodeNumber>
        requires { vec_len nodes ≤ largest_i32 }
        ensures whole { MatchResult result
            (λ document. first_outside (length nodes.items) (all_numbers nodes.items) ≡ None)
            (λ number. first_outside (length nodes.items) (all_numbers nodes.items) ≡ Some number.0) }
        ensures made { IfOk result
            (λ document. graph_of document ≡ seen_document version tags.items nodes.items start_implicit end_implicit) }
    {
        match outside_nodes(nodes.len(), nodes.as_slice()) {
            Some(number) => Err(NodeNumber(number)),
            None => Ok(yaml_document_t {
                version_directive: version,
                tag_directives: tags,
                nodes,
                start_implicit,
                end_implicit,
            }),
        }
    }

    /// Drops the version and the directives, and makes the start and the end implicit. The nodes stay.
    pub fn bare(self) -> yaml_document_t<A>
        ensures { graph_of result ≡ isomorphic.bare (graph_of self) }
    {
        let yaml_document_t {
            nodes,
            mut tag_directives,
            ..
        } = self;
        tag_directives.clear();
        yaml_document_t {
            version_directive: None,
            tag_directives,
            nodes,
            start_implicit: true,
            end_implicit: true,
        }
    }

    /// Returns the nodes, that of number 1 first. The directives are dropped.
    pub fn into_nodes(self) -> Vec<yaml_node_t<A>, A>
        ensures { map seen_node result.items ≡ (graph_of self).nodes }
    {
        self.nodes
    }

    /// Does nothing; its contract is the law that each number in a node names a node.
    pub fn numbers_name_nodes(&self)
        ensures { is_whole (graph_of self.now) ≡ true }
    {
        let _document = self;
    }

    /// Returns the node of a number; none if the number names none.
    pub fn get_node(&self, index: i32) -> Option<&yaml_node_t<A>>
        ensures { option_map (λ node. seen_node node.now) result ≡ node_numbered (graph_of self.now) (seen_number index) }
    {
        if index < 1 {
            return None;
        }
        self.node_at(index as usize - 1)
    }

    fn node_at(&self, place: usize) -> Option<&yaml_node_t<A>>
        ensures { option_map (λ node. seen_node node.now) result ≡ slice_get (graph_of self.now).nodes place }
    {
        self.nodes.as_slice().get(place)
    }

    /// Returns node 1; none if there are no nodes.
    pub fn root(&self) -> Option<&yaml_node_t<A>>
        ensures { option_map (λ node. seen_node node.now) result ≡ node_numbered (graph_of self.now) 1 }
    {
        self.nodes.as_slice().first()
    }

    /// Returns whether there are no nodes.
    pub fn is_empty(&self) -> bool
        ensures { result ≡ (length (graph_of self.now).nodes == 0) }
    {
        self.nodes.is_empty()
    }

    /// Returns how many nodes there are.
    pub fn node_count(&self) -> i32
        ensures { result ≡ pos (length (graph_of self.now).nodes) }
    {
        self.nodes.len() as i32
    }

    /// Returns the version, if one was given.
    pub fn version_directive(&self) -> Option<yaml_version_directive_t>
        ensures { option_map seen_version result ≡ (graph_of self.now).start.version }
    {
        self.version_directive
    }

    /// Returns the directives that were given.
    pub fn tag_directives(&self) -> &[yaml_tag_directive_t<A>]
        ensures { map seen_directive result.now ≡ (graph_of self.now).start.directives }
    {
        self.tag_directives.as_slice()
    }

    /// Returns whether `---` may be left out.
    pub fn start_implicit(&self) -> bool
        ensures { result ≡ (graph_of self.now).start.implicit }
    {
        self.start_implicit
    }

    /// Returns whether `...` may be left out.
    pub fn end_implicit(&self) -> bool
        ensures { result ≡ (graph_of self.now).end_implicit }
    {
        self.end_implicit
    }
}
