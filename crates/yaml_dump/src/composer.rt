//! Composes the nodes of a document from its events.
ghost use Rattle.std.specs.Prelude.{◌≡◌, [], ◌∷◌, IfOk, map, option_map, length, unwrap_or, fold, slice_index_or};
ghost use Rattle.yaml_base.specs.Seen.{seen_text, seen_event};
ghost use Rattle.yaml_base.specs.graphs.Meetings.{GraphNode};
ghost use Rattle.yaml_base.specs.graphs.SeenNodes.{seen_number, seen_node, seen_pair};
ghost use Rattle.yaml_dump.specs.Composition as composition;
ghost use Rattle.yaml_dump.specs.Composition.{with_children, begun_node, opened_node, carried, nothing_composed, composed, ended, filled, node_with, pairs_of_list};
ghost use Rattle.yaml_dump.specs.SeenComposer.{seen_composer};

use crate::anchor_numbers::{number_in_name, number_of_anchor};
use std::alloc::{AllocError, Allocator};
use yaml_base::{yaml_event_t, yaml_node_data_t, yaml_node_pair_t, yaml_node_t};

/// A collection that hasn't ended: its node's place, and the numbers of its children so far.
#[derive(Drop)]
struct Unended<A: Allocator> {
    place: usize,
    children: Vec<i32, A>,
}

/// The state of the composing so far.
#[derive(Drop)]
struct Composer<A: Allocator> {
    /// The nodes that have begun. A collection gets its children when it ends.
    nodes: Vec<yaml_node_t<A>, A>,
    /// The outermost first.
    unended: Vec<Unended<A>, A>,
    /// For each number of a name the number of the node that carries it, else 0.
    carriers: Vec<i32, A>,
}

/// Sets pairs to those of a list of numbers, two by two.
fn fill_pairs<A: Allocator>(
    alloc: A,
    pairs: &mut Vec<yaml_node_pair_t, A>,
    numbers: &[i32],
) -> Result<(), AllocError>
    ensures { IfOk result (λ _. map seen_pair pairs.new.items ≡ pairs_of_list (map seen_number numbers.now)) }
{
    let count = numbers.len() / 2;
    let mut made = Vec::with_capacity(alloc, count)?;
    for place in 0..count {
        let key = numbers[2 * place];
        let value = numbers[2 * place + 1];
        made.push(yaml_node_pair_t { key, value })?;
    }
    *pairs = made;
    Ok(())
}

/// Gives a collection its children.
fn fill<A: Allocator + Copy>(
    alloc: A,
    node: &mut yaml_node_t<A>,
    children: Vec<i32, A>,
) -> Result<(), AllocError>
    ensures { IfOk result (λ _. seen_node node.new ≡ node_with (map seen_number children.items) (seen_node node.old)) }
{
    match &mut node.contents {
        yaml_node_data_t::Scalar { .. } => Ok(()),
        yaml_node_data_t::Sequence { items, .. } => {
            *items = children;
            Ok(())
        }
        yaml_node_data_t::Mapping { pairs, .. } => fill_pairs(alloc, pairs, children.as_slice()),
    }
}

/// Gives the collection at a place its children.
fn fill_at<A: Allocator + Copy>(
    alloc: A,
    nodes: &mut Vec<yaml_node_t<A>, A>,
    place: usize,
    children: Vec<i32, A>,
) -> Result<(), AllocError>
    ensures { IfOk result (λ _. map seen_node nodes.new.items ≡ filled (map seen_number children.items) place (map seen_node nodes.old.items)) }
{
    if place >= nodes.len() {
        return Ok(());
    }
    fill(alloc, &mut nodes[place], children)
}

/// Returns a copy of a tag; an empty text if there is none.
fn copied_tag<A: Allocator + Copy>(
    alloc: A,
    tag: &Option<String<A>>,
) -> Result<String<A>, AllocError>
    ensures { IfOk result (λ copy. seen_text copy ≡ unwrap_or (option_map seen_text tag.now) []) }
{
    match tag {
        Some(text) => String::from_str(alloc, text.as_str()),
        None => Ok(String::new(alloc)),
    }
}

impl<A: Allocator> Composer<A> {
    /// Returns a composer before the first event, for `count` numbers of names.
    fn at_start(alloc: A, count: usize) -> Result<Composer<A>, AllocError>
    where
        A: Copy,
        ensures { IfOk result (λ composer. seen_composer composer ≡ nothing_composed count) }
    {
        Ok(Composer {
            nodes: Vec::new(alloc),
            unended: Vec::new(alloc),
            carriers: vec![in alloc; 0; count]?,
        })
    }

    /// Adds a child to the innermost collection.
    fn add(&mut self, child: i32) -> Result<(), AllocError>
        ensures { IfOk result (λ _. seen_composer self.new ≡ with_children (seen_number child ∷ []) (seen_composer self.old)) }
    {
        let Some(mut collection) = self.unended.pop() else {
            return Ok(());
        };
        collection.children.push(child)?;
        self.unended.push(collection)?;
        Ok(())
    }

    /// Returns the number of the node that carries a name of this number.
    fn carrier(&self, number: usize) -> i32
        ensures { seen_number result ≡ slice_index_or (seen_composer self.now).carriers number 0 }
    {
        match self.carriers.as_slice().get(number) {
            Some(carrier) => *carrier,
            None => 0,
        }
    }

    /// Notes the node that carries a name of this number.
    fn carry(&mut self, number: usize, carrier: i32)
        ensures { seen_composer self.new ≡ carried number (seen_number carrier) (seen_composer self.old) }
    {
        if number < self.carriers.len() {
            self.carriers[number] = carrier;
        }
    }

    /// Begins a node with this anchor.
    fn begin(&mut self, anchor: &Option<String<A>>, node: yaml_node_t<A>) -> Result<(), AllocError>
        ensures { IfOk result (λ _. seen_composer self.new
            ≡ begun_node (composition.number_of_anchor (option_map seen_text anchor.now)) (seen_node node) (seen_composer self.old)) }
    {
        let before = self.nodes.len();
        if before >= i32::MAX as usize {
            return Err(AllocError);
        }
        let number = before as i32 + 1;
        self.carry(number_of_anchor(anchor), number);
        self.nodes.push(node)?;
        self.add(number)
    }

    /// Begins a collection.
    fn open(
        &mut self,
        alloc: A,
        anchor: &Option<String<A>>,
        node: yaml_node_t<A>,
    ) -> Result<(), AllocError>
        ensures { IfOk result (λ _. seen_composer self.new
            ≡ opened_node (composition.number_of_anchor (option_map seen_text anchor.now)) (seen_node node) (seen_composer self.old)) }
    {
        let place = self.nodes.len();
        let Ok(()) = self.begin(anchor, node) else {
            return Err(AllocError);
        };
        let children = Vec::new(alloc);
        self.unended.push(Unended { place, children })?;
        Ok(())
    }

    /// Ends the innermost collection.
    fn end(&mut self, alloc: A) -> Result<(), AllocError>
    where
        A: Copy,
        ensures { IfOk result (λ _. seen_composer self.new ≡ ended (seen_composer self.old).unended (seen_composer self.old)) }
    {
        let Some(collection) = self.unended.pop() else {
            return Ok(());
        };
        let Unended { place, children } = collection;
        fill_at(alloc, &mut self.nodes, place, children)
    }

    /// Takes an event.
    fn take(&mut self, alloc: A, event: &yaml_event_t<A>) -> Result<(), AllocError>
    where
        A: Copy,
        ensures { IfOk result (λ _. seen_composer self.new ≡ composed (seen_composer self.old) (seen_event event.now)) }
    {
        match event {
            yaml_event_t::YAML_ALIAS_EVENT { anchor } => {
                let child = self.carrier(number_in_name(anchor.as_str()));
                self.add(child)
            }
            yaml_event_t::YAML_SCALAR_EVENT {
                anchor,
                tag,
                value,
                style,
                ..
            } => {
                let tag = copied_tag(alloc, tag)?;
                let contents = yaml_node_data_t::Scalar {
                    value: String::from_str(alloc, value.as_str())?,
                    style: *style,
                };
                self.begin(anchor, yaml_node_t { tag, contents })
            }
            yaml_event_t::YAML_SEQUENCE_START_EVENT {
                anchor,
                tag,
                style,
                ..
            } => {
                let tag = copied_tag(alloc, tag)?;
                let contents = yaml_node_data_t::Sequence {
                    items: Vec::new(alloc),
                    style: *style,
                };
                self.open(alloc, anchor, yaml_node_t { tag, contents })
            }
            yaml_event_t::YAML_MAPPING_START_EVENT {
                anchor,
                tag,
                style,
                ..
            } => {
                let tag = copied_tag(alloc, tag)?;
                let contents = yaml_node_data_t::Mapping {
                    pairs: Vec::new(alloc),
                    style: *style,
                };
                self.open(alloc, anchor, yaml_node_t { tag, contents })
            }
            yaml_event_t::YAML_SEQUENCE_END_EVENT | yaml_event_t::YAML_MAPPING_END_EVENT => {
                self.end(alloc)
            }
            _ => Ok(()),
        }
    }
}

/// Returns the nodes of these events, in the order in which they begin.
pub(crate) fn composed_nodes<A: Allocator + Copy>(
    alloc: A,
    events: &[yaml_event_t<A>],
) -> Result<Vec<yaml_node_t<A>, A>, AllocError>
    ensures { IfOk result (λ nodes. map seen_node nodes.items
        ≡ (fold composed (nothing_composed (length events.now)) (map seen_event events.now)).nodes) }
{
    let mut composer = Composer::at_start(alloc, events.len())?;
    for event in events {
        let Ok(()) = composer.take(alloc, event) else {
            return Err(AllocError);
        };
    }
    Ok(composer.nodes)
}
