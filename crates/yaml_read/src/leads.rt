//! The text before an event of a document.
ghost use Rattle.std.specs.Prelude.{◌≡◌, ◌++◌, ◌*◌, [], List, MatchOption, length};
ghost use Rattle.yaml_base.specs.graphs.DumpedText.{line_at};
ghost use Rattle.yaml_read.specs.Awaits.{EntryStands, IsInnermostAwait, IsLastAwait, LeadStands};
ghost use Rattle.yaml_read.specs.EventTexts.{Pending};
ghost use Rattle.yaml_read.specs.Stepped.{LineEntryRead};

use crate::cuts::{after, after_indent, after_lead, past};
use crate::errors::Stop;
use crate::levels::Entry;
use std::alloc::Allocator;

/// The part that an open sequence or mapping awaits.
#[derive(Clone, Copy)]
pub(crate) enum Await {
    /// Its first item, or its end.
    FirstItem,
    /// Another item, or its end.
    Item,
    /// Its first key, or its end.
    FirstKey,
    /// Another key, or its end.
    Key,
    /// The value of a key.
    Value,
}

/// Returns what the innermost collection awaits.
pub(crate) fn innermost<A: Allocator>(awaits: &Vec<Await, A>) -> Option<Await>
    ensures { MatchOption result (awaits.now.items ≡ []) (λ awaited. IsLastAwait awaited awaits.now.items) }
{
    awaits.last().copied()
}

/// Returns what follows the lead of a first entry, or the end of a collection without entries, which lies so deep.
fn first_entry<'a>(text: &'a str, depth: usize, lead: &str, end: &str) -> Result<Entry<'a>, Stop>
    ensures { EntryStands (line_at (depth * 2) ++ lead.now) end.now text.now result }
{
    match past(text, end) {
        Some(rest) => Ok(Entry::End(rest)),
        None => match after_lead(text, depth, lead) {
            Ok(rest) => Ok(Entry::Another(rest)),
            Err(stop) => Err(stop),
        },
    }
}

/// Returns what follows the lead of another entry, or the end of a collection, which lies so deep.
pub(crate) fn another_entry<'a>(
    text: &'a str,
    depth: usize,
    lead: &str,
    end: &str,
) -> Result<Entry<'a>, Stop>
    ensures { LineEntryRead depth lead.now end.now text.now result }
{
    match after_indent(text, depth) {
        Ok(line) => match past(line, lead) {
            Some(rest) => Ok(Entry::Another(rest)),
            None => match after(line, end) {
                Ok(rest) => Ok(Entry::End(rest)),
                Err(stop) => Err(stop),
            },
        },
        Err(stop) => Err(stop),
    }
}

/// Returns what follows the lead of a node, or the end of the innermost collection; so many collections are open.
pub(crate) fn read_lead<'a>(
    innermost: Option<Await>,
    count: usize,
    text: &'a str,
) -> Result<Entry<'a>, Stop>
    ensures { (levels : List Pending) → IsInnermostAwait levels innermost → count ≡ length levels → LeadStands levels text.now result }
{
    let depth = count.saturating_sub(1);
    match innermost {
        None => Ok(Entry::Another(text)),
        Some(awaited) => match awaited {
            Await::FirstItem => first_entry(text, depth, "  ", "]"),
            Await::Item => another_entry(text, depth, "  ", "]"),
            Await::FirstKey => first_entry(text, depth, "  ? ", "}"),
            Await::Key => another_entry(text, depth, "  ? ", "}"),
            Await::Value => match after_lead(text, depth, "  : ") {
                Ok(rest) => Ok(Entry::Another(rest)),
                Err(stop) => Err(stop),
            },
        },
    }
}
