//! The rules by which keys and headers define tables.
ghost use Rattle.std.specs.Prelude.{◌≡◌, ◌⊎◌, ℕ, List, [], ◌∷◌, IfErr, IfOk, MatchResult, reverse, string_bytes};
ghost use Rattle.toml_ordered.specs.Data.{items_view, node_view, push_item, table};
ghost use Rattle.toml_ordered.specs.Keys.{table_view};
ghost use Rattle.toml_ordered.specs.Firsts.{IsShutAt, node_firsts, no_firsts};
ghost use Rattle.toml_ordered.specs.Passing.{AreFilled, IsFilled, IsOpened, IsShut, PassesSteps, RefusesSteps};
ghost use Rattle.toml_ordered.specs.Reading.{Defines, IsShutTo, ParsesTo, IsPassed, IsSameKey, along_route, definition_view, steps_of, whole_of};
ghost use Rattle.toml_ordered.specs.Tables as spec;
ghost use Rattle.toml_ordered.specs.declared.route.Way.{Way};
ghost use Rattle.toml_ordered.specs.declared.tree.Origin.TheVariants.{Closed};

use crate::fault::Fault;
use crate::passed::Passed;
use crate::route::{Route, Way};
use crate::tree::{Holder, Node, Origin, Table};
use std::alloc::{AllocError, Global};
use std::mem;

/// A definition, without its key.
#[derive(Drop)]
pub(crate) enum Definition {
    Value(Node),
    Table,
    Tables,
}

/// A definition with the last part of its key, and the number of bytes of the text that are left at the beginning of its expression.
#[derive(Drop)]
pub(crate) struct Entry {
    pub(crate) key: String,
    pub(crate) what: Definition,
    pub(crate) left: usize,
}

/// Returns the fault of a key that takes no more.
#[cold]
fn defined_again(key: &String, first: usize, second: usize) -> Fault
    ensures { IsPassed (string_bytes key.now) first second result }
{
    let Ok(name) = key.clone() else {
        return Fault::Memory;
    };
    match key.clone() {
        Ok(key) => Fault::DefinedAgain {
            key,
            name,
            first,
            second,
        },
        Err(_) => Fault::Memory,
    }
}

/// Defines an entry in the table at the end of a route. If that fails, the keys are lost.
pub(crate) fn define_at(
    alloc: Global,
    table: &mut Table,
    route: Route<'_>,
    entry: Entry,
) -> Result<(), Fault>
    ensures { Defines (along_route route.entry entry (table_view table.old)) (table_view table.new) (whole_of route.entry entry) entry.left
        (IsShutTo route.entry entry (table_view table.old)) table.old table.new result }
{
    let outermost = mem::replace(table, Table::new(alloc));
    let (passed, mut last) = match descend(alloc, outermost, route, entry.left) {
        Ok(found) => found,
        Err(fault) => return Err(fault),
    };
    if let Err(fault) = at_key(alloc, &mut last, entry) {
        return Err(fault.named(alloc, route, passed.len()));
    }
    *table = ascend(passed, last);
    Ok(())
}

/// Takes out the table at the end of a route, and each table that the route passes.
fn descend(
    alloc: Global,
    outermost: Table,
    route: Route<'_>,
    left: usize,
) -> Result<(Vec<Passed>, Table), Fault>
    ensures { MatchResult result
        (λ found. PassesSteps (steps_of route.entry) [] left outermost found.1 (AreFilled (reverse found.0.items)))
        (RefusesSteps (steps_of route.entry) left outermost) }
{
    let mut passed = Vec::new(alloc);
    let mut here = outermost;
    let mut to_pass = route;
    'steps: while let Some((way, key, rest)) = to_pass.split() {
        let (outer, inner) = match enter(alloc, way, key, left, here) {
            Ok(entered) => entered,
            Err(fault) => return Err(fault.named(alloc, route, passed.len())),
        };
        if let Err(_) = passed.push(outer) {
            return Err(Fault::Memory);
        }
        here = inner;
        to_pass = rest;
    }
    Ok((passed, here))
}

/// Puts a table back into those that were passed, the last of them first.
fn ascend(passed: Vec<Passed>, last: Table) -> Table
    ensures { AreFilled (reverse passed.items) last result }
{
    let mut outer = passed;
    let mut here = last;
    'tables: while let Some(table) = outer.pop() {
        here = table.filled_with(here);
    }
    here
}

/// Takes the table of a key out of the one around it. A key that is missing is made first.
fn enter(
    alloc: Global,
    way: Way,
    key: &String,
    left: usize,
    outer: Table,
) -> Result<(Passed, Table), Fault>
    ensures { MatchResult result
        (λ entered. (rest : List (Way × List ℕ)) → PassesSteps ((way, string_bytes key.now) ∷ rest) rest left outer entered.1 (IsFilled entered.0))
        (λ fault. (rest : List (Way × List ℕ)) → RefusesSteps ((way, string_bytes key.now) ∷ rest) left outer fault) }
{
    let mut table = outer;
    match table.find(key.as_str()) {
        Some(at) => match take_out(way, &mut table.keys[at], left) {
            Ok((holder, inner)) => Ok((Passed { table, at, holder }, inner)),
            Err(fault) => Err(fault),
        },
        None => {
            let at = table.keys.len();
            let Ok(name) = key.clone() else {
                return Err(Fault::Memory);
            };
            if let Err(fault) = table.append(name, Node::NotANumber, left) {
                return Err(fault);
            }
            let holder = Holder::Table(way.origin());
            Ok((Passed { table, at, holder }, Table::new(alloc)))
        }
    }
}

/// Takes the table out of the value of a key that is passed.
fn take_out(
    way: Way,
    member: &mut (String, Node, usize),
    left: usize,
) -> Result<(Holder, Table), Fault>
    ensures same_key { IsSameKey member.old member.new }
    ensures taken { MatchResult result
        (λ taken. IsOpened way member.old.1 taken.0 taken.1)
        (λ fault. IsPassed (string_bytes member.old.0) member.old.2 left fault × IsShut way member.old.1) }
{
    let (key, value, first) = member;
    match mem::replace(value, Node::NotANumber).open(way) {
        Some(taken) => Ok(taken),
        None => Err(defined_again(key, *first, left)),
    }
}

/// Defines an entry in a table.
fn at_key(alloc: Global, table: &mut Table, entry: Entry) -> Result<(), Fault>
    ensures { Defines (spec.at_key (string_bytes entry.key) (definition_view entry.what) (table_view table.old)) (table_view table.new)
        (string_bytes entry.key ∷ []) entry.left (IsShutAt [] (string_bytes entry.key) (definition_view entry.what) (table_view table.old))
        table.old table.new result }
{
    let Entry { key, what, left } = entry;
    match table.find(key.as_str()) {
        Some(at) => redefine(alloc, &what, &mut table.keys[at], left),
        None => match new_node(alloc, what) {
            Ok(node) => table.append(key, node, left),
            Err(_) => Err(Fault::Memory),
        },
    }
}

/// Defines a key once more, as only a header can.
fn redefine(
    alloc: Global,
    what: &Definition,
    member: &mut (String, Node, usize),
    left: usize,
) -> Result<(), Fault>
    ensures same_key { IsSameKey member.old member.new }
    ensures value { ParsesTo (λ _. node_view member.new.1) result (spec.redefine (definition_view what.now) (node_view member.old.1)) }
    ensures firsts { IfOk result (λ _. (node_firsts member.new.1 ≡ node_firsts member.old.1) ⊎ (node_firsts member.new.1 ≡ no_firsts)) }
    ensures again { IfErr result (IsPassed (string_bytes member.old.0) member.old.2 left) }
{
    let (key, node, first) = member;
    match node {
        Node::Table(origin, _table)
            if *origin == Origin::Implicit && matches!(what, Definition::Table) => {
            *origin = Origin::Header;
            Ok(())
        }
        Node::Tables(done, last) if matches!(what, Definition::Tables) => {
            Ok(begin_table(alloc, done, last)?)
        }
        _ => Err(defined_again(key, *first, left)),
    }
}

/// Closes the last table of an array, and begins another after it.
fn begin_table(alloc: Global, done: &mut Vec<Node>, last: &mut Table) -> Result<(), AllocError>
    ensures done { IfOk result (λ _. items_view done.new.items ≡ push_item (items_view done.old.items) (table Closed (table_view last.old))) }
    ensures last { IfOk result (λ _. last.new.keys.items ≡ []) }
{
    let closed = mem::replace(last, Table::new(alloc));
    done.push(Node::Table(Origin::Closed, closed))?;
    Ok(())
}

/// Returns the value of a key that was missing.
fn new_node(alloc: Global, what: Definition) -> Result<Node, AllocError>
    ensures value { IfOk result (λ node. node_view node ≡ spec.new_node (definition_view what)) }
    ensures firsts { IfOk result (λ node. node_firsts node ≡ no_firsts) }
{
    match what {
        Definition::Value(node) => node.sealed(),
        Definition::Table => Ok(Node::Table(Origin::Header, Table::new(alloc))),
        Definition::Tables => Ok(Node::Tables(Vec::new(alloc), Table::new(alloc))),
    }
}
