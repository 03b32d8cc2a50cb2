//! The events of a document, read from its canonical text.
ghost use Rattle.std.specs.Prelude.{◌≡◌, ◌∷◌, [], map};
ghost use Rattle.yaml_base.specs.Event.{document_start};
ghost use Rattle.yaml_base.specs.Seen.{seen_event};
ghost use Rattle.yaml_read.specs.Awaits.{seen_awaits};
ghost use Rattle.yaml_read.specs.DocumentPlaces.{DocumentEventsRead};
ghost use Rattle.yaml_read.specs.EventReads.{RootRead, RunAnswer};
ghost use Rattle.yaml_read.specs.RunPlaces.{bare_start};

use crate::cuts::{after, end_text};
use crate::errors::Stop;
use crate::leads::Await;
use crate::steps::{Progress, push, read_event};
use std::alloc::Allocator;
use yaml_base::yaml_event_t;

/// Returns the start of a document without a version and directives.
fn start_event<A: Allocator>(alloc: A) -> yaml_event_t<A>
    ensures { seen_event result ≡ document_start bare_start }
{
    yaml_event_t::YAML_DOCUMENT_START_EVENT {
        version_directive: None,
        tag_directives: Vec::new(alloc),
        implicit: true,
    }
}

/// Reads the events of a document's root, and returns what follows it.
fn read_root<'a, A: Allocator + Copy>(
    alloc: A,
    events: &mut Vec<yaml_event_t<A>, A>,
    awaits: &mut Vec<Await, A>,
    text: &'a str,
) -> Result<&'a str, Stop>
    requires begun { map seen_event events.old.items ≡ document_start bare_start ∷ [] }
    requires none_open { seen_awaits awaits.old.items ≡ [] }
    ensures { RootRead text.now (map seen_event events.new.items) result }
{
    let mut rest = text;
    'steps: loop {
        match read_event(alloc, events, awaits, rest) {
            Ok(progress) => match progress {
                Progress::Continues(next) => rest = next,
                Progress::RootEnds(end) => return Ok(end),
            },
            Err(stop) => return Err(stop),
        }
    }
}

/// Reads all events of a document; this is its text after its first line.
fn read_run<A: Allocator + Copy>(
    alloc: A,
    events: &mut Vec<yaml_event_t<A>, A>,
    awaits: &mut Vec<Await, A>,
    text: &str,
) -> Result<(), Stop>
    requires none { events.old.items ≡ [] }
    requires none_open { awaits.old.items ≡ [] }
    ensures { RunAnswer text.now (map seen_event events.new.items) result }
{
    match push(events, start_event(alloc)) {
        Ok(()) => match read_root(alloc, events, awaits, text) {
            Ok(end) => match end_text(end) {
                Ok(()) => push(
                    events,
                    yaml_event_t::YAML_DOCUMENT_END_EVENT { implicit: true },
                ),
                Err(stop) => Err(stop),
            },
            Err(stop) => Err(stop),
        },
        Err(stop) => Err(stop),
    }
}

/// Returns the events of a document of this text.
pub(crate) fn read_events<A: Allocator + Copy>(
    alloc: A,
    text: &str,
) -> Result<Vec<yaml_event_t<A>, A>, Stop>
    ensures { DocumentEventsRead text.now result }
{
    match after(text, "---\n") {
        Ok(node) => {
            let mut events = Vec::new(alloc);
            let mut awaits = Vec::new(alloc);
            match read_run(alloc, &mut events, &mut awaits, node) {
                Ok(()) => Ok(events),
                Err(stop) => Err(stop),
            }
        }
        Err(stop) => Err(stop),
    }
}
