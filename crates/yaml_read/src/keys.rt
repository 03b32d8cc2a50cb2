//! The keys of the maps that are open.
ghost use Rattle.std.specs.BTreeSet.{contains_text};
ghost use Rattle.std.specs.Prelude.{[], ◌≡◌, ◌++◌, ◌||◌, IfOk, List, MatchOption, bytes_eq, not, ℕ};
ghost use Rattle.yaml_read.specs.HeldKeys.{EndsBefore, FollowedBy, FollowsKeys, HeldAtNode, IsLastLevel, KeyAdded, KeyEndsBefore, KeysFollowed, TakenOff};
ghost use Rattle.yaml_value.specs.OpenLevels.{seen_level, seen_levels};

use crate::errors::{KeyStop, Stop};
use crate::steps::push;
use std::alloc::{AllocError, Allocator};
use std::collections::BTreeSet;
use yaml_value::{Keys, Level};

/// The keys of a list or a map that is open; a list has none.
#[derive(Drop)]
pub(crate) struct OpenKeys<'a, A: Allocator> {
    /// The texts of its keys, each up to its value.
    pub(crate) texts: BTreeSet<String<A>, A>,
    /// The text from the key on that is being read.
    pub(crate) start: &'a str,
}

/// Adds a text to some. Returns whether it is new.
fn add_text<A: Allocator + Copy>(
    alloc: A,
    texts: &mut BTreeSet<String<A>, A>,
    text: &str,
) -> Result<bool, AllocError>
    ensures is_new { IfOk result (λ new. new ≡ not (contains_text texts.old text.now)) }
    ensures added { IfOk result (λ new. (bytes : List ℕ) → contains_text texts.new bytes ≡ (contains_text texts.old bytes || bytes_eq text.now bytes)) }
{
    let key = String::from_str(alloc, text)?;
    let is_new = texts.insert(key)?;
    Ok(is_new)
}

/// Returns the keys with the one that ends before the rest, unless it repeats.
fn with_key<'a, A: Allocator + Copy>(
    alloc: A,
    held: OpenKeys<'a, A>,
    rest: &str,
) -> Result<OpenKeys<'a, A>, KeyStop>
    requires { EndsBefore held.start.now rest.now }
    ensures { (key : List ℕ) → held.entry.start.now ≡ key ++ rest.now → KeyAdded key held.entry result }
{
    let mut held = held;
    let start = held.start;
    let length = start.len() - rest.len();
    match add_text(alloc, &mut held.texts, &start[..length]) {
        Ok(true) => Ok(held),
        Ok(false) => Err(KeyStop::Repeats(start.len())),
        Err(_) => Err(KeyStop::Other(Stop::Memory)),
    }
}

/// Returns the keys of a list or a map at the next node in it: a key begins there, or one has ended, or neither.
fn at_node<'a, A: Allocator + Copy>(
    alloc: A,
    held: OpenKeys<'a, A>,
    level: &Level<A>,
    rest: &'a str,
) -> Result<OpenKeys<'a, A>, KeyStop>
    requires { KeyEndsBefore (seen_level level.now) held.start.now rest.now }
    ensures { HeldAtNode (seen_level level.now) held.entry rest.now result }
{
    match level {
        Level::Items(_) => Ok(held),
        Level::Pairs(_) => {
            let mut held = held;
            held.start = rest;
            Ok(held)
        }
        Level::PairsAndKey(_, _) => with_key(alloc, held, rest),
    }
}

/// Takes off the keys of the list or the map that lies so deep, after those of deeper ones. Returns none if it has just begun.
fn take_off<'a, A: Allocator + Copy>(
    alloc: A,
    keys: &mut Vec<OpenKeys<'a, A>, A>,
    depth: usize,
    rest: &'a str,
) -> OpenKeys<'a, A>
    ensures { TakenOff depth keys.old.items keys.new.items rest.now result }
{
    if keys.len() >= depth {
        keys.truncate(depth);
        if let Some(held) = keys.pop() {
            return held;
        }
    }
    OpenKeys {
        texts: BTreeSet::new(alloc),
        start: rest,
    }
}

/// Returns the innermost list or map that is open.
fn innermost<A: Allocator>(levels: &[Level<A>]) -> Option<&Level<A>>
    ensures { MatchOption result (levels.now ≡ []) (λ level. IsLastLevel level.now levels.now) }
{
    levels.last()
}

/// Brings the keys from the lists and maps that were open before a node to those that are open after it, at the next node.
fn follow<'a, A: Allocator + Copy>(
    alloc: A,
    keys: &mut Vec<OpenKeys<'a, A>, A>,
    levels: &[Level<A>],
    rest: &'a str,
) -> Result<(), KeyStop>
    requires { FollowsKeys Keys.Unique keys.old.items (seen_levels levels.now) rest.now }
    ensures { (can : FollowsKeys Keys.Unique keys.old.items (seen_levels levels.now) rest.now)
        → KeysFollowed can.whole (seen_levels levels.now) keys.new.items result }
{
    let Some(level) = innermost(levels) else {
        return Ok(());
    };
    let held = take_off(alloc, keys, levels.len(), rest);
    match at_node(alloc, held, level, rest) {
        Ok(more) => match push(keys, more) {
            Ok(()) => Ok(()),
            Err(stop) => Err(KeyStop::Other(stop)),
        },
        Err(stop) => Err(stop),
    }
}

/// Follows the keys if they must differ.
pub(crate) fn follow_by<'a, A: Allocator + Copy>(
    alloc: A,
    mode: Keys,
    keys: &mut Vec<OpenKeys<'a, A>, A>,
    levels: &[Level<A>],
    rest: &'a str,
) -> Result<(), KeyStop>
    requires { FollowsKeys mode keys.old.items (seen_levels levels.now) rest.now }
    ensures { (can : FollowsKeys mode keys.old.items (seen_levels levels.now) rest.now)
        → FollowedBy mode can.whole (seen_levels levels.now) keys.new.items result }
{
    match mode {
        Keys::Unique => follow(alloc, keys, levels, rest),
        Keys::MayRepeat => Ok(()),
    }
}
