//! The events of a document, one at a time.
ghost use Rattle.std.specs.Prelude.{◌≡◌, ◌++◌, ◌∷◌, [], IfErr, List, None, length, map};
ghost use Rattle.yaml_base.specs.Seen.{seen_event};
ghost use Rattle.yaml_read.specs.Awaits.{IsInnermostAwait, closing_event, seen_await, seen_awaits};
ghost use Rattle.yaml_read.specs.Beginnings.{ReadOr};
ghost use Rattle.yaml_read.specs.EventReads.{IsEventRead, IsNodeRead, NoNode};
ghost use Rattle.yaml_read.specs.EventSteps.{GoesTo, await_opened, bytes_behind, open_behind_opening, open_now, trail_behind_opening};
ghost use Rattle.yaml_read.specs.EventTexts.{Pending, next_awaited, left_open, trail_text};
ghost use Rattle.yaml_read.specs.RunPlaces.{IsEventPlace, IsNodePlace, NoEventBegins, StopsBy};
ghost use Rattle.yaml_read.specs.Words.{OrMemory, past_word};

use crate::cuts::after;
use crate::errors::{Stop, refused_whole};
use crate::leads::{Await, innermost, read_lead};
use crate::levels::Entry;
use crate::nodes::read_opening;
use std::alloc::Allocator;
use yaml_base::yaml_event_t;

/// The state after an event: another one follows, or the root has ended. The text is the rest.
#[derive(Drop)]
pub(crate) enum Progress<'a> {
    Continues(&'a str),
    RootEnds(&'a str),
}

/// Returns the text after a node in a collection.
fn trail(awaited: Await) -> &'static str
    ensures { (outer : List Pending) → result.now ≡ trail_text (seen_await awaited ∷ outer) }
{
    match awaited {
        Await::FirstItem => ",",
        Await::Item => ",",
        Await::FirstKey => "",
        Await::Key => "",
        Await::Value => ",",
    }
}

/// Returns what a collection awaits after a node in it.
fn next_await(awaited: Await) -> Await
    ensures { seen_await result ≡ next_awaited (seen_await awaited) }
{
    match awaited {
        Await::FirstItem => Await::Item,
        Await::Item => Await::Item,
        Await::FirstKey => Await::Value,
        Await::Key => Await::Value,
        Await::Value => Await::Key,
    }
}

/// Reads the text after a node, and notes what is open then.
fn leave_node<'a, A: Allocator>(
    awaits: &mut Vec<Await, A>,
    text: &'a str,
) -> Result<Progress<'a>, Stop>
    ensures goes { ReadOr (GoesTo (left_open (seen_awaits awaits.old.items)) (trail_text (seen_awaits awaits.old.items)) text.now
        (seen_awaits awaits.new.items)) (past_word (trail_text (seen_awaits awaits.old.items)) text.now ≡ None) result }
    ensures placed { IfErr result (StopsBy (λ left. left ≡ length text.now)) }
{
    match awaits.pop() {
        None => Ok(Progress::RootEnds(text)),
        Some(awaited) => match after(text, trail(awaited)) {
            Ok(rest) => match awaits.push(next_await(awaited)) {
                Ok(()) => Ok(Progress::Continues(rest)),
                Err(_) => Err(Stop::Memory),
            },
            Err(stop) => Err(stop),
        },
    }
}

/// Opens the collection that a node's beginning opens, or else reads what follows the node.
fn go_behind<'a, A: Allocator>(
    awaits: &mut Vec<Await, A>,
    opened: Option<Await>,
    text: &'a str,
) -> Result<Progress<'a>, Stop>
    ensures goes { ReadOr (GoesTo (open_behind_opening (seen_awaits awaits.old.items) opened)
        (trail_behind_opening (seen_awaits awaits.old.items) opened) text.now (seen_awaits awaits.new.items))
        (past_word (trail_behind_opening (seen_awaits awaits.old.items) opened) text.now ≡ None) result }
    ensures placed { IfErr result (StopsBy (λ left. left ≡ length text.now)) }
{
    match opened {
        None => leave_node(awaits, text),
        Some(awaited) => match awaits.push(awaited) {
            Ok(()) => Ok(Progress::Continues(text)),
            Err(_) => Err(Stop::Memory),
        },
    }
}

/// Returns what a collection that an event opens awaits.
fn opened_by<A: Allocator>(event: &yaml_event_t<A>) -> Option<Await>
    ensures { result ≡ await_opened (seen_event event.now) }
{
    match event {
        yaml_event_t::YAML_SEQUENCE_START_EVENT { .. } => Some(Await::FirstItem),
        yaml_event_t::YAML_MAPPING_START_EVENT { .. } => Some(Await::FirstKey),
        _ => None,
    }
}

/// Returns the event with which the innermost collection ends.
fn end_event<A: Allocator>(innermost: Option<Await>) -> yaml_event_t<A>
    ensures { (levels : List Pending) → IsInnermostAwait levels innermost → seen_event result ≡ closing_event levels }
{
    match innermost {
        Some(Await::FirstKey) => yaml_event_t::YAML_MAPPING_END_EVENT,
        Some(Await::Key) => yaml_event_t::YAML_MAPPING_END_EVENT,
        Some(Await::Value) => yaml_event_t::YAML_MAPPING_END_EVENT,
        _ => yaml_event_t::YAML_SEQUENCE_END_EVENT,
    }
}

/// Adds a value to a list.
pub(crate) fn push<T: Drop, A: Allocator>(list: &mut Vec<T, A>, value: T) -> Result<(), Stop>
    ensures { OrMemory (λ _. list.new.items ≡ list.old.items ++ value ∷ []) result }
{
    match list.push(value) {
        Ok(()) => {}
        Err(_) => return Err(Stop::Memory),
    }
    Ok(())
}

/// Reads the event with which a node begins, after what leads to it, and the text after it.
fn read_node<'a, A: Allocator + Copy>(
    alloc: A,
    events: &mut Vec<yaml_event_t<A>, A>,
    awaits: &mut Vec<Await, A>,
    text: &'a str,
) -> Result<Progress<'a>, Stop>
    ensures reads { ReadOr (λ found. IsNodeRead (map seen_event events.old.items) (seen_awaits awaits.old.items) text.now
        (map seen_event events.new.items) (open_now (seen_awaits awaits.new.items) found) (bytes_behind found))
        (NoNode (seen_awaits awaits.old.items) text.now) result }
    ensures placed { IfErr result (StopsBy (IsNodePlace (seen_awaits awaits.old.items) text.now)) }
{
    match read_opening(alloc, text) {
        Ok((event, rest)) => {
            let opened = opened_by(&event);
            match push(events, event) {
                Ok(()) => go_behind(awaits, opened, rest),
                Err(stop) => Err(stop),
            }
        }
        Err(stop) => Err(refused_whole(stop, text)),
    }
}

/// Reads the next event, and says what follows it.
pub(crate) fn read_event<'a, A: Allocator + Copy>(
    alloc: A,
    events: &mut Vec<yaml_event_t<A>, A>,
    awaits: &mut Vec<Await, A>,
    text: &'a str,
) -> Result<Progress<'a>, Stop>
    ensures reads { ReadOr (λ found. IsEventRead (map seen_event events.old.items) (seen_awaits awaits.old.items) text.now
        (map seen_event events.new.items) (open_now (seen_awaits awaits.new.items) found) (bytes_behind found))
        (NoEventBegins (seen_awaits awaits.old.items) text.now) result }
    ensures placed { IfErr result (StopsBy (IsEventPlace (seen_awaits awaits.old.items) text.now)) }
{
    let last = innermost(awaits);
    match read_lead(last, awaits.len(), text) {
        Ok(lead) => match lead {
            Entry::Another(rest) => read_node(alloc, events, awaits, rest),
            Entry::End(rest) => {
                let _last = awaits.pop();
                match push(events, end_event(last)) {
                    Ok(()) => leave_node(awaits, rest),
                    Err(stop) => Err(stop),
                }
            }
        },
        Err(stop) => Err(refused_whole(stop, text)),
    }
}
