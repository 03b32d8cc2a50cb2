//! The keys of a table, by their places and one after another.
ghost use Rattle.std.specs.Prelude.{◌≡◌, ◌<◌, ℕ, [], ◌∷◌, ◌++◌, IfErr, IfOk, IfSome, MatchOption, None, Some, length, string_bytes};
ghost use Rattle.toml_ordered.specs.Data as spec;
ghost use Rattle.toml_ordered.specs.Data.{no_nodes, node, node_view};
ghost use Rattle.toml_ordered.specs.Keys.{HasKey, IsFoundAt, IsNoted, keys_view, live_view, table_view};
ghost use Rattle.toml_ordered.specs.Reading.{ParsesTo, IsMemory};
ghost use Rattle.toml_ordered.specs.Tables.{append, get_node};
ghost use Rattle.toml_ordered.specs.declared.tree.Node.{Node as CodeNode};

use crate::fault::Fault;
use crate::tree::{Node, Table};
use std::alloc::Global;
use std::collections::BTreeMap;

/// The number of keys of a table that are searched for one by one, the first ones. The index has the others.
const LISTED: usize = 16;

/// Notes the place of a key, unless keys at that place are searched for one by one.
fn note(index: &mut BTreeMap<String, usize>, key: &String, at: usize) -> Result<(), Fault>
    ensures noted { IfOk result (λ _. IsNoted (string_bytes key.now) at index.old index.new) }
    ensures failed { IfErr result IsMemory }
{
    if at < LISTED {
        return Ok(());
    }
    let Ok(name) = key.clone() else {
        return Err(Fault::Memory);
    };
    if let Err(_) = index.insert(name, at) {
        return Err(Fault::Memory);
    }
    Ok(())
}

impl Table {
    /// Makes a table without keys.
    pub(crate) fn new(alloc: Global) -> Table
        ensures view { table_view result ≡ no_nodes }
        ensures keys { result.keys.items ≡ [] }
    {
        Table {
            keys: Vec::new(alloc),
            index: BTreeMap::new(alloc),
        }
    }

    /// Returns the place of a key.
    pub(crate) fn find(&self, key: &str) -> Option<usize>
        ensures found { MatchOption result (get_node key.now (table_view self.now) ≡ None) (λ at. IsFoundAt key.now at self.now.keys.items self.now.index) }
        ensures within { IfSome result (λ at. at < length self.now.keys.items) }
    {
        if let Some(at) = self.find_listed(key) {
            return Some(at);
        }
        let at = match self.index.get(key) {
            Some(at) => *at,
            None => return None,
        };
        if at >= self.keys.len() {
            return None;
        }
        if key == self.keys[at].0.as_str() {
            Some(at)
        } else {
            None
        }
    }

    /// Returns the place of a key that is one of the first of the table.
    fn find_listed(&self, key: &str) -> Option<usize>
        ensures found { MatchOption result ((at : ℕ) → at < 16 → HasKey key.now at self.now.keys.items → ⊥)
            (λ at. IsFoundAt key.now at self.now.keys.items self.now.index) }
        ensures within { IfSome result (λ at. at < length self.now.keys.items) }
    {
        let mut at = 0;
        'keys: while at < LISTED && at < self.keys.len() {
            if key == self.keys[at].0.as_str() {
                return Some(at);
            }
            at += 1;
        }
        None
    }

    /// Adds a key after those that are there.
    pub(crate) fn append(&mut self, key: String, value: Node, left: usize) -> Result<(), Fault>
        requires { get_node (string_bytes key) (table_view self.old) ≡ None }
        ensures last { IfOk result (λ _. self.new.keys.items ≡ self.old.keys.items ++ (key, value, left) ∷ []) }
        ensures failed { IfErr result IsMemory }
        ensures value { ParsesTo (λ _. table_view self.new) result (Some (append (table_view self.old) (string_bytes key) (node_view value))) }
        ensures other { IfOk result (λ _. (other : CodeNode) → keys_view (self.old.keys.items ++ (key, other, left) ∷ []) self.new.index
            ≡ append (table_view self.old) (string_bytes key) (node_view other)) }
    {
        if let Err(fault) = note(&mut self.index, &key, self.keys.len()) {
            return Err(fault);
        }
        if let Err(_) = self.keys.push((key, value, left)) {
            return Err(Fault::Memory);
        }
        Ok(())
    }

    /// Returns whether a key that is at this place counts.
    fn counts(&self, key: &str, at: usize) -> bool
        ensures { result ≡ spec.counts self.now.index at key.now }
    {
        if at < LISTED {
            return true;
        }
        match self.index.get(key) {
            Some(place) => *place == at,
            None => false,
        }
    }

    /// Returns the keys of the table, to go through them in the order in which they are first defined.
    pub fn live_keys(&self) -> LiveKeys<'_>
        ensures { live_view result ≡ table_view self.now }
    {
        LiveKeys { table: self, at: 0 }
    }
}

/// The keys of a table that are left to go through, in the order in which they are first defined.
#[derive(Clone, Copy)]
pub struct LiveKeys<'a> {
    table: &'a Table,
    /// The place of the first key that is left. A key that doesn't count is passed over.
    at: usize,
}

impl<'a> LiveKeys<'a> {
    /// Returns the first key, its value and the keys that follow; `None` if no key is left.
    pub fn split_first(self) -> Option<(&'a String, &'a Node, LiveKeys<'a>)>
        ensures { MatchOption result (live_view self.entry ≡ no_nodes)
            (λ cut. live_view self.entry ≡ node (string_bytes cut.0.now) (node_view cut.1.now) (live_view cut.2)) }
    {
        let LiveKeys { table, at } = self;
        let mut next = at;
        'keys: while next < table.keys.len() {
            let here = next;
            next += 1;
            let (key, value, _) = &table.keys[here];
            if table.counts(key.as_str(), here) {
                return Some((key, value, LiveKeys { table, at: next }));
            }
        }
        None
    }
}
