//! The lists and maps that are open.
ghost use Rattle.std.specs.Prelude.{◌≡◌, ◌++◌};
ghost use Rattle.yaml_read.specs.Heads.{tag_word};
ghost use Rattle.yaml_read.specs.Stepped.{BehindRead, Entered, EntryRead, IsEmptyLevel, NodeStepped, ValueSettled, ValueTaken, closed_value};
ghost use Rattle.yaml_read.specs.declared.heads.Kind.{Kind};
ghost use Rattle.yaml_value.specs.OpenLevels.{seen_level, seen_levels};
ghost use Rattle.yaml_value.specs.SeenValues.{seen_value};

use crate::cuts::{after, after_lead, end_text, past};
use crate::errors::Stop;
use crate::leads::another_entry;
use crate::steps::push;
use std::alloc::Allocator;
use yaml_value::{Level, Value};

/// The maximum nesting depth of lists and maps.
const MOST_NESTED: usize = 1_000;

/// The state after a value in a list or a map: another node in it follows, or it ends. The text is the rest.
#[derive(Drop)]
pub(crate) enum Turn<'a, A: Allocator> {
    Continues(Level<A>, &'a str),
    Ends(Value<A>, &'a str),
}

/// After a value: all is read, or another node follows.
#[derive(Drop)]
pub(crate) enum Next<'a, A: Allocator> {
    Done(Value<A>),
    Node(&'a str),
}

/// The state after an entry: another one follows, or the closing bracket has come. The text is the rest.
pub(crate) enum Entry<'a> {
    Another(&'a str),
    End(&'a str),
}

/// Returns what follows an entry of a list or a map that lies so deep: what leads to another one, or the end.
fn next_entry<'a>(text: &'a str, depth: usize, lead: &str, end: &str) -> Result<Entry<'a>, Stop>
    ensures { EntryRead depth lead.now end.now text.now result }
{
    match after(text, ",") {
        Ok(behind) => another_entry(behind, depth, lead, end),
        Err(stop) => Err(stop),
    }
}

/// Returns what follows the value that a list or a map took last: what leads to another node in it, or the end.
fn behind_value<'a, A: Allocator>(
    level: &Level<A>,
    text: &'a str,
    depth: usize,
) -> Result<Entry<'a>, Stop>
    ensures { BehindRead depth (seen_level level.now) text.now result }
{
    match level {
        Level::Items(_) => next_entry(text, depth, "  ", "]"),
        Level::Pairs(_) => next_entry(text, depth, "  ? ", "}"),
        Level::PairsAndKey(_, _) => match after_lead(text, depth, "  : ") {
            Ok(rest) => Ok(Entry::Another(rest)),
            Err(stop) => Err(stop),
        },
    }
}

/// Returns a list or a map that ends as a value. A key that awaits its value isn't in it.
fn closed_value<A: Allocator>(level: Level<A>) -> Value<A>
    ensures { seen_value result ≡ closed_value (seen_level level) }
{
    match level {
        Level::Items(items) => Value::List(items),
        Level::Pairs(pairs) => Value::Map(pairs),
        Level::PairsAndKey(pairs, key) => {
            drop(key);
            Value::Map(pairs)
        }
    }
}

/// Takes a value in a list or a map that lies so deep.
fn take_value<'a, A: Allocator>(
    level: Level<A>,
    value: Value<A>,
    text: &'a str,
    depth: usize,
) -> Result<Turn<'a, A>, Stop>
    ensures { ValueTaken depth (seen_level level) (seen_value value) text.now result }
{
    match level.with(value) {
        Ok(more) => match behind_value(&more, text, depth) {
            Ok(Entry::Another(rest)) => Ok(Turn::Continues(more, rest)),
            Ok(Entry::End(rest)) => Ok(Turn::Ends(closed_value(more), rest)),
            Err(stop) => {
                drop(more);
                Err(stop)
            }
        },
        Err(_) => Err(Stop::Memory),
    }
}

/// Gives a value to the innermost list or map, and gives each list or map that it ends to the one around it. After the outermost
/// value a line's end follows, and nothing else.
pub(crate) fn settle<'a, A: Allocator>(
    levels: &mut Vec<Level<A>, A>,
    mut value: Value<A>,
    mut text: &'a str,
) -> Result<Next<'a, A>, Stop>
    ensures { ValueSettled (seen_levels levels.old.items) (seen_levels levels.new.items) (seen_value value) text.now result }
{
    while let Some(level) = levels.pop() {
        match take_value(level, value, text, levels.len()) {
            Ok(turn) => match turn {
                Turn::Continues(level, next) => {
                    return match push(levels, level) {
                        Ok(()) => Ok(Next::Node(next)),
                        Err(stop) => Err(stop),
                    };
                }
                Turn::Ends(whole, next) => {
                    value = whole;
                    text = next;
                }
            },
            Err(stop) => return Err(stop),
        }
    }
    match end_text(text) {
        Ok(()) => Ok(Next::Done(value)),
        Err(stop) => {
            drop(value);
            Err(stop)
        }
    }
}

/// Opens a list or a map, up to its first node.
fn enter<'a, A: Allocator>(
    levels: &mut Vec<Level<A>, A>,
    level: Level<A>,
    text: &'a str,
    lead: &str,
) -> Result<Next<'a, A>, Stop>
    ensures { Entered (seen_level level) lead.now (seen_levels levels.old.items) (seen_levels levels.new.items) text.now result }
{
    match push(levels, level) {
        Ok(()) => match after_lead(text, levels.len(), lead) {
            Ok(rest) => Ok(Next::Node(rest)),
            Err(stop) => Err(stop),
        },
        Err(stop) => Err(stop),
    }
}

/// The words of a list or a map: its brackets, and what leads to its first node.
pub(crate) struct Words {
    pub(crate) bracket: &'static str,
    pub(crate) end: &'static str,
    pub(crate) lead: &'static str,
}

/// Reads a list or a map after its tag, from its bracket on: up to its first item or key, or, if it is empty, past its end. It lies
/// too deep if as many are open as may be.
pub(crate) fn begin<'a, A: Allocator>(
    levels: &mut Vec<Level<A>, A>,
    level: Level<A>,
    text: &'a str,
    behind: &'a str,
    words: &Words,
) -> Result<Next<'a, A>, Stop>
    ensures { (kind : Kind) → IsEmptyLevel (seen_level level) kind words.now.bracket.now words.now.end.now words.now.lead.now
        → text.now ≡ tag_word kind ++ behind.now → NodeStepped (seen_levels levels.old.items) (seen_levels levels.new.items) text.now result }
{
    match after(behind, words.bracket) {
        Ok(inside) => {
            if levels.len() >= MOST_NESTED {
                drop(level);
                return Err(Stop::TooDeep(text.len()));
            }
            match past(inside, words.end) {
                Some(rest) => settle(levels, closed_value(level), rest),
                None => enter(levels, level, inside, words.lead),
            }
        }
        Err(stop) => {
            drop(level);
            Err(stop)
        }
    }
}
