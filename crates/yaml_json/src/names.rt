//! The names in the objects that are open.
ghost use Rattle.std.specs.Prelude.{◌≡◌, [], IfOk, OnOk, bytes_eq};
ghost use Rattle.std.specs.List.{list_any};
ghost use Rattle.yaml_json.specs.HeldNames.{HoldsNames, NameAdded, NamesEntered};
ghost use Rattle.yaml_json.specs.Walk.{LeavesNames};

use std::alloc::{AllocError, Allocator};
use std::collections::BTreeSet;

/// The maximum number of names of an object in the list, which is searched linearly; later ones go to a set.
const MOST_LISTED: usize = 16;

/// The names of an array or object that is open. An array has none.
#[derive(Drop)]
pub(crate) struct Level<'a, A: Allocator> {
    /// The place in the list at which its first names begin.
    pub(crate) first: usize,
    /// Its later names.
    pub(crate) many: BTreeSet<&'a str, A>,
}

/// The names in each array and object that is open, by which a repeated name is found.
#[derive(Drop)]
pub(crate) struct Names<'a, A: Allocator> {
    alloc: A,
    /// Whether names are kept. Otherwise a name may be repeated.
    pub(crate) are_kept: bool,
    /// The first names of each, those of the innermost last.
    pub(crate) few: Vec<&'a str, A>,
    /// The innermost last.
    pub(crate) levels: Vec<Level<'a, A>, A>,
}

impl<'a, A: Allocator + Copy> Names<'a, A> {
    /// Makes the names of no open object.
    pub(crate) fn new(alloc: A, are_kept: bool) -> Self
        ensures kept { result.are_kept ≡ are_kept }
        ensures holds { HoldsNames [] result }
    {
        Names {
            alloc,
            are_kept,
            few: Vec::new(alloc),
            levels: Vec::new(alloc),
        }
    }

    /// Enters one more array or object.
    pub(crate) fn enter(&mut self) -> Result<(), AllocError>
        ensures { OnOk result (NamesEntered self.old self.new) }
    {
        if !self.are_kept {
            return Ok(());
        }
        let level = Level {
            first: self.few.len(),
            many: BTreeSet::new(self.alloc),
        };
        match self.levels.push(level) {
            Ok(()) => Ok(()),
            Err(_) => Err(AllocError),
        }
    }

    /// Leaves the innermost array or object.
    pub(crate) fn leave(&mut self)
        ensures { LeavesNames self.old self.new }
    {
        if !self.are_kept {
            return;
        }
        if let Some(level) = self.levels.pop() {
            self.few.truncate(level.first);
        }
    }

    /// Adds a name to the innermost object. Returns whether it is new.
    pub(crate) fn add(&mut self, name: &'a str) -> Result<bool, AllocError>
        ensures { IfOk result (λ new. NameAdded self.old name.now new self.new) }
    {
        if !self.are_kept {
            return Ok(true);
        }
        let Some(level) = self.levels.last_mut() else {
            return Ok(true);
        };
        let Some(few) = self.few.get(level.first..) else {
            return Ok(true);
        };
        if is_among(name, few) {
            return Ok(false);
        }
        if few.len() < MOST_LISTED && level.many.is_empty() {
            match self.few.push(name) {
                Ok(()) => Ok(true),
                Err(_) => Err(AllocError),
            }
        } else {
            match level.many.insert(name) {
                Ok(new) => Ok(new),
                Err(_) => Err(AllocError),
            }
        }
    }
}

/// Returns whether the name is one of these. It is inlined, which `contains` is not.
fn is_among(name: &str, names: &[&str]) -> bool
    ensures { result ≡ list_any (λ other. bytes_eq other.now name.now) names.now }
{
    names.iter().any(|other| *other == name)
}
