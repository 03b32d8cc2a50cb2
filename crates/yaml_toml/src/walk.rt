//! A walk over a document, depth first, from its tree to a writer. A list has the rest of each array and table that is open.
ghost use Rattle.std.specs.Prelude.{◌≡◌, List, [], ◌∷◌, ◌++◌, IfErr, MatchOption, OnOk};
ghost use Rattle.toml_ordered.specs.Data.{node_view};
ghost use Rattle.toml_ordered.specs.Keys.{table_view};
ghost use Rattle.yaml_base.specs.declared.kinds.CollectionKind.TheVariants.{Mapping, Sequence};
ghost use Rattle.yaml_base.specs.declared.kinds.CollectionKind.{CollectionKind};
ghost use Rattle.yaml_writer.specs.WasGiven.{IsBare, start_event};
ghost use Rattle.yaml_writer.specs.Answering.{Answers};
ghost use Rattle.yaml_toml.specs.Walk.{HasInnermost, IsOwnMemory, IsStopOf, Moved, kinds_of, rest_kind};
ghost use Rattle.yaml_toml.specs.WalkSteps.{IsRestOf, RootStep, TomlStep, collection_due, rest_due, value_due, walk_at};
ghost use Rattle.yaml_toml.specs.declared.walk.Rest.TheVariants as rests;
ghost use Rattle.yaml_writer.specs.Writing.{end_event};

use crate::scalars::{write_scalar, write_text};
use std::alloc::{Allocator, Global};
use toml_ordered::{LiveKeys, Node, Table};
use yaml_writer::{
    CollectionKind, ValueSettings, Writer, YAML_BLOCK_MAPPING_STYLE, YAML_BLOCK_SEQUENCE_STYLE,
    YAML_FLOW_MAPPING_STYLE, YAML_FLOW_SEQUENCE_STYLE, yaml_error_t,
};

/// The reason why a document isn't written.
#[derive(Clone, Copy)]
pub(crate) enum Stop {
    /// Arrays and tables nest too deep.
    TooDeep,
    /// The writer failed, or an allocation.
    Failed(yaml_error_t),
}

/// The rest of an array or a table that is open.
#[derive(Clone, Copy)]
pub(crate) enum Rest<'a> {
    Items(&'a [Node]),
    /// Of an array of tables, with its last.
    Tables(&'a [Node], LiveKeys<'a>),
    Members(LiveKeys<'a>),
}

impl Rest<'_> {
    fn kind(&self) -> CollectionKind
        ensures { result ≡ rest_kind self.now }
    {
        match self {
            Rest::Items(_) | Rest::Tables(..) => CollectionKind::Sequence,
            Rest::Members(_) => CollectionKind::Mapping,
        }
    }
}

/// Converts a writer's answer to the walk's.
fn stop_of(answer: Result<(), yaml_error_t>) -> Result<(), Stop>
    ensures { IsStopOf answer result }
{
    match answer {
        Ok(()) => Ok(()),
        Err(error) => Err(Stop::Failed(error)),
    }
}

/// Adds the rest of a collection to those that are open.
fn keep<'a>(opened: &mut Vec<Rest<'a>>, rest: Rest<'a>) -> Result<(), Stop>
    ensures kept { OnOk result (opened.new.items ≡ opened.old.items ++ rest.entry ∷ []) }
    ensures failed { IfErr result IsOwnMemory }
{
    match opened.push(rest) {
        Ok(()) => Ok(()),
        Err(_) => Err(Stop::Failed(yaml_error_t::Memory)),
    }
}

/// Takes away the rest of the innermost collection.
fn take_innermost<'a>(opened: &mut Vec<Rest<'a>>) -> Option<Rest<'a>>
    ensures { MatchOption result ((opened.old.items ≡ []) × (opened.new.items ≡ [])) (λ rest. opened.old.items ≡ opened.new.items ++ rest ∷ []) }
{
    opened.pop()
}

/// Begins a collection.
fn begin<A: Allocator + Copy>(
    writer: &mut Writer<A>,
    kind: CollectionKind,
    in_flow: bool,
) -> Result<(), yaml_error_t>
    requires { IsBare writer.old }
    ensures begins { OnOk result (Moved writer.old (start_event in_flow kind ∷ []) [] (kind ∷ []) writer.new) }
    ensures kept { Answers writer.old (start_event in_flow kind) result writer.new }
{
    match kind {
        CollectionKind::Sequence => {
            let style = if in_flow {
                YAML_FLOW_SEQUENCE_STYLE
            } else {
                YAML_BLOCK_SEQUENCE_STYLE
            };
            writer.begin_sequence(style)
        }
        CollectionKind::Mapping => {
            let style = if in_flow {
                YAML_FLOW_MAPPING_STYLE
            } else {
                YAML_BLOCK_MAPPING_STYLE
            };
            writer.begin_mapping(style)
        }
    }
}

/// Ends the innermost collection.
fn end_innermost<A: Allocator + Copy>(writer: &mut Writer<A>) -> Result<(), yaml_error_t>
    requires { IsBare writer.old }
    ensures ended { (kind : CollectionKind) → OnOk result (Moved writer.old (end_event kind ∷ []) (kind ∷ []) [] writer.new) }
    ensures kept { (outer : List CollectionKind) (kind : CollectionKind) → writer.old.levels ≡ outer ++ kind ∷ []
        → Answers writer.old (end_event kind) result writer.new }
{
    writer.end()
}

/// Begins a collection with this rest.
fn enter<'a, A: Allocator + Copy>(
    writer: &mut Writer<A>,
    opened: &mut Vec<Rest<'a>>,
    rest: Rest<'a>,
    settings: &ValueSettings,
) -> Result<(), Stop>
    requires { IsBare writer.old }
    ensures { TomlStep settings.now (collection_due rest.entry) (walk_at writer.old opened.old.items) result (walk_at writer.new opened.new.items) }
{
    if opened.len() >= settings.depth {
        return Err(Stop::TooDeep);
    }
    if let Err(stop) = keep(opened, rest) {
        return Err(stop);
    }
    stop_of(begin(writer, rest.kind(), settings.flow))
}

/// Writes a value; of an array or a table the beginning alone.
fn write_node<'a, A: Allocator + Copy>(
    writer: &mut Writer<A>,
    opened: &mut Vec<Rest<'a>>,
    node: &'a Node,
    settings: &ValueSettings,
) -> Result<(), Stop>
    requires { IsBare writer.old }
    ensures { TomlStep settings.now (value_due (node_view node.now)) (walk_at writer.old opened.old.items) result (walk_at writer.new opened.new.items) }
{
    match rest_of(node) {
        Some(rest) => enter(writer, opened, rest, settings),
        None => stop_of(write_scalar(writer, node)),
    }
}

/// Returns all of an array or a table but its start, and `None` for any other value.
fn rest_of(node: &Node) -> Option<Rest<'_>>
    ensures { IsRestOf (node_view node.now) result }
{
    match node {
        Node::Array(items) => Some(Rest::Items(items.as_slice())),
        Node::Table(_, table) => Some(Rest::Members(table.live_keys())),
        Node::Tables(done, last) => Some(Rest::Tables(done.as_slice(), last.live_keys())),
        Node::Text(_)
        | Node::Integer(_)
        | Node::Decimal(_)
        | Node::Infinity { .. }
        | Node::NotANumber
        | Node::Boolean(_)
        | Node::Datetime(_) => None,
    }
}

/// Writes the next part of the rest of the innermost collection, or ends it.
fn write_rest<'a, A: Allocator + Copy>(
    writer: &mut Writer<A>,
    opened: &mut Vec<Rest<'a>>,
    rest: Rest<'a>,
    settings: &ValueSettings,
) -> Result<(), Stop>
    requires bare { IsBare writer.old }
    requires innermost { HasInnermost writer.old (kinds_of opened.old.items) (rest_kind rest) }
    ensures { TomlStep settings.now (rest_due rest.entry) (walk_at writer.old opened.old.items) result (walk_at writer.new opened.new.items) }
{
    match rest {
        Rest::Items(items) => write_item(writer, opened, items, settings),
        Rest::Tables(done, last) => match done.split_first() {
            None => {
                if let Err(stop) = keep(opened, Rest::Items(&[])) {
                    return Err(stop);
                }
                enter(writer, opened, Rest::Members(last), settings)
            }
            Some((table, others)) => {
                if let Err(stop) = keep(opened, Rest::Tables(others, last)) {
                    return Err(stop);
                }
                write_node(writer, opened, table, settings)
            }
        },
        Rest::Members(keys) => write_member(writer, opened, keys, settings),
    }
}

/// Writes the next item of an array, or ends it.
fn write_item<'a, A: Allocator + Copy>(
    writer: &mut Writer<A>,
    opened: &mut Vec<Rest<'a>>,
    items: &'a [Node],
    settings: &ValueSettings,
) -> Result<(), Stop>
    requires bare { IsBare writer.old }
    requires innermost { HasInnermost writer.old (kinds_of opened.old.items) Sequence }
    ensures { TomlStep settings.now (rest_due (rests.Items items.entry)) (walk_at writer.old opened.old.items) result (walk_at writer.new opened.new.items) }
{
    match items.split_first() {
        None => stop_of(end_innermost(writer)),
        Some((item, others)) => {
            if let Err(stop) = keep(opened, Rest::Items(others)) {
                return Err(stop);
            }
            write_node(writer, opened, item, settings)
        }
    }
}

/// Writes the next key of a table and its value, or ends it.
fn write_member<'a, A: Allocator + Copy>(
    writer: &mut Writer<A>,
    opened: &mut Vec<Rest<'a>>,
    keys: LiveKeys<'a>,
    settings: &ValueSettings,
) -> Result<(), Stop>
    requires bare { IsBare writer.old }
    requires innermost { HasInnermost writer.old (kinds_of opened.old.items) Mapping }
    ensures { TomlStep settings.now (rest_due (rests.Members keys.entry)) (walk_at writer.old opened.old.items) result (walk_at writer.new opened.new.items) }
{
    match keys.split_first() {
        None => stop_of(end_innermost(writer)),
        Some((key, node, others)) => {
            if let Err(stop) = keep(opened, Rest::Members(others)) {
                return Err(stop);
            }
            if let Err(stop) = stop_of(write_text(writer, key.as_str())) {
                return Err(stop);
            }
            write_node(writer, opened, node, settings)
        }
    }
}

/// Gives a writer the events of a document's root table.
pub(crate) fn write_root<A: Allocator + Copy>(
    alloc: Global,
    writer: &mut Writer<A>,
    root: &Table,
    settings: &ValueSettings,
) -> Result<(), Stop>
    requires { IsBare writer.old }
    ensures { RootStep settings.now (table_view root.now) writer.old result writer.new }
{
    let mut opened: Vec<Rest<'_>> = Vec::new(alloc);
    let members = Rest::Members(root.live_keys());
    if let Err(stop) = enter(writer, &mut opened, members, settings) {
        return Err(stop);
    }
    'rests: while let Some(rest) = take_innermost(&mut opened) {
        if let Err(stop) = write_rest(writer, &mut opened, rest, settings) {
            return Err(stop);
        }
    }
    Ok(())
}
