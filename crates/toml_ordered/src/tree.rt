//! The contents of a document.
ghost use Rattle.std.specs.Prelude.{◌≡◌, IfOk, vec_len};
ghost use Rattle.toml_ordered.specs.Counts.{IsEntered, IsExchanged, IsLeft, IsPopped, member_count, node_count, tables_count};
ghost use Rattle.toml_ordered.specs.Data.{node_view};
ghost use Rattle.toml_ordered.specs.Firsts.{no_firsts, node_firsts};
ghost use Rattle.toml_ordered.specs.Keys as spec;

mod holder;

pub(crate) use holder::Holder;
use std::alloc::AllocError;
use std::collections::BTreeMap;
use std::mem;
use toml_datetime::Datetime;

/// The construct that made a table, by which its text tells whether more may come to it.
#[derive(Clone, Copy, PartialEq, Eq, Debug)]
pub enum Origin {
    /// A header that passed through it.
    Implicit,
    /// A dotted key.
    Dotted,
    /// Its own header.
    Header,
    /// It is complete: it is in braces, or the next table of its array follows it.
    Closed,
}

/// A value.
#[cycle(tree)]
pub enum Node {
    Text(String),
    Integer(i64),
    /// A float that is a number: its characters without underscores.
    Decimal(String),
    Infinity { negative: bool },
    NotANumber,
    Boolean(bool),
    Datetime(Datetime),
    Array(Vec<Node>),
    Table(Origin, Table),
    /// The tables of an array that headers in double brackets make. The last is apart, since only that one can grow.
    Tables(Vec<Node>, Table),
}

/// A table. Its first keys are searched for one by one, and the others by an index.
#[derive(Drop)]
#[cycle(tree)]
pub struct Table {
    /// The keys, in the order in which they are first defined. Each has its value, and the number of bytes of the text that were left
    /// at the beginning of the expression that first defines it.
    pub(crate) keys: Vec<(String, Node, usize)>,
    /// The place of each key but the first ones. A key that is at any other place counts for nothing.
    pub(crate) index: BTreeMap<String, usize>,
}

/// Drops the value by a loop, so that no depth takes stack. That needs no memory: a value that waits lies in the place of the one that
/// was taken out of it.
impl Drop for Node {
    fn drop(self) {
        let mut around = Node::NotANumber;
        let mut hand = self;
        'nodes: loop {
            match hand.exchange(around) {
                Ok(inner) => {
                    around = hand;
                    hand = inner;
                }
                Err(mut outer) => {
                    hand.end();
                    match outer.pop() {
                        Some(waiting) => {
                            around = waiting;
                            hand = outer;
                        }
                        None => return outer.end(),
                    }
                }
            }
        }
    }
}

impl Node {
    /// Takes out the last value inside, and puts another into its place. Without any, returns the other.
    fn exchange(&mut self, other: Node) -> Result<Node, Node>
        ensures { IsEntered node_count (node_count self.old) (node_count self.new) other result }
    {
        match self {
            Node::Array(items) => exchange(items, other),
            Node::Table(_origin, table) => table.exchange(other),
            Node::Tables(done, last) => exchange_table(done, last, other),
            _ => Err(other),
        }
    }

    /// Takes out the last value inside.
    fn pop(&mut self) -> Option<Node>
        ensures { IsLeft node_count (node_count self.old) (node_count self.new) result }
    {
        match self {
            Node::Array(items) => items.pop(),
            Node::Table(_origin, table) => table.pop(),
            Node::Tables(done, last) => pop_table(done, last),
            _ => None,
        }
    }

    /// Ends a value that holds no other.
    fn end(self)
        requires { node_count self ≡ 1 }
    {
        match self {
            Node::Array(items) => items.destroy_empty(),
            Node::Table(_origin, table) => table.end(),
            Node::Tables(done, last) => {
                done.destroy_empty();
                last.end();
            }
            Node::Text(_)
            | Node::Integer(_)
            | Node::Decimal(_)
            | Node::Infinity { negative: _ }
            | Node::NotANumber
            | Node::Boolean(_)
            | Node::Datetime(_) => {}
        }
    }

    /// Returns the value as one that takes no more.
    pub(crate) fn sealed(self) -> Result<Node, AllocError>
        ensures value { IfOk result (λ sealed. node_view sealed ≡ spec.sealed (node_view self)) }
        ensures firsts { IfOk result (λ sealed. node_firsts sealed ≡ no_firsts) }
    {
        match self {
            Node::Table(_, table) => Ok(Node::Table(Origin::Closed, table)),
            Node::Tables(mut done, last) => {
                done.push(Node::Table(Origin::Closed, last))?;
                Ok(Node::Array(done))
            }
            other => Ok(other),
        }
    }
}

/// Takes out the last of some values, and puts another into its place.
fn exchange(items: &mut Vec<Node>, other: Node) -> Result<Node, Node>
    ensures { IsExchanged node_count node_count items.old.items items.new.items other result }
{
    match items.last_mut() {
        Some(last) => Ok(mem::replace(last, other)),
        None => Err(other),
    }
}

/// Takes out the last of some tables, or, without any, the last value in the open table, and puts another into its place.
fn exchange_table(done: &mut Vec<Node>, last: &mut Table, other: Node) -> Result<Node, Node>
    ensures { IsEntered node_count (tables_count done.old.items last.old) (tables_count done.new.items last.new) other result }
{
    match exchange(done, other) {
        Ok(inner) => Ok(inner),
        Err(other) => last.exchange(other),
    }
}

/// Takes out the last of some tables, or, without any, the last value in the open table.
fn pop_table(done: &mut Vec<Node>, last: &mut Table) -> Option<Node>
    ensures { IsLeft node_count (tables_count done.old.items last.old) (tables_count done.new.items last.new) result }
{
    match done.pop() {
        Some(inner) => Some(inner),
        None => last.pop(),
    }
}

impl Table {
    /// Takes out the value of the last key, and puts another into its place.
    fn exchange(&mut self, other: Node) -> Result<Node, Node>
        ensures { IsExchanged member_count node_count self.old.keys.items self.new.keys.items other result }
    {
        match self.keys.last_mut() {
            Some(member) => Ok(mem::replace(&mut member.1, other)),
            None => Err(other),
        }
    }

    /// Takes out the value of the last key.
    fn pop(&mut self) -> Option<Node>
        ensures { IsPopped member_count node_count self.old.keys.items self.new.keys.items result }
    {
        match self.keys.pop() {
            Some((_, value, _)) => Some(value),
            None => None,
        }
    }

    /// Ends a table without keys.
    fn end(self)
        requires { vec_len self.keys ≡ 0 }
    {
        let Table {
            keys,
            index: _index,
        } = self;
        keys.destroy_empty();
    }
}
