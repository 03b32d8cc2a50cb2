//! The queue of waiting events, the machine that writes them, and the events that were given.

ghost use Rattle.std.specs.Prelude.{◌≡◌, ◌≤◌, IfOk, IfErr, [], false, true, vec_len, vec_capacity};
ghost use Rattle.yaml_base.specs.Settings.{nothing_given};
ghost use Rattle.yaml_emitter.specs.Given.{seen_settings};
ghost use Rattle.yaml_emitter.specs.StandsAfter.{StandsAfter};
ghost use Rattle.yaml_emitter.specs.State.{knows_encoding, new_state};

use crate::history::History;
use crate::machine::Machine;
use crate::settings::Settings;
use crate::spares::SpareTexts;
use crate::stage::Stage;
use std::alloc::Allocator;
use std::marker::Model;
use yaml_base::{YAML_ANY_ENCODING, yaml_error_t, yaml_event_t};

/// At most three events wait when the next one comes. The queue has room for four from the start, so that taking an event
/// never grows it.
pub(crate) type WaitingEvents<A> = Vec<yaml_event_t<A>, A>;

/// An emitter within a call: its state need not be the one after the events that were given.
pub(crate) struct Engine<A: Allocator> {
    pub(crate) started: bool,
    pub(crate) has_output: bool,
    pub(crate) opened: bool,
    pub(crate) closed: bool,
    pub(crate) queue: WaitingEvents<A>,
    pub(crate) spares: SpareTexts<A>,
    pub(crate) machine: Machine<A>,
    pub(crate) history: History,
}

// Not derived, so that a function that drops an emitter makes one call, and not one for each part.
impl<A: Allocator> Drop for Engine<A> {
    fn drop(self) {
        let Engine {
            started: _,
            has_output: _,
            opened: _,
            closed: _,
            queue: _,
            spares: _,
            machine: _,
            history: _,
        } = self;
    }
}

impl<A: Allocator> Model for Engine<A> {
    ghost use Rattle.yaml_emitter.specs.State.{State};
    ghost use Rattle.yaml_emitter.specs.Inside.{state_of, IsEngine};

    ghost Value = { State };

    ghost view = { state_of };

    ghost invariant = { IsEngine };
}

impl<A: Allocator + Copy> Engine<A> {
    /// Makes an engine with no settings, no output and no event.
    pub(crate) fn new(alloc: A) -> Result<Engine<A>, yaml_error_t>
        ensures made { IfOk result (λ engine. engine ≡ new_state) }
        ensures stands { IfOk result (λ engine. StandsAfter nothing_given [] engine) }
        ensures memory { IfErr result (λ error. error ≡ yaml_error_t.Memory) }
    {
        let queue = room_for_four(alloc)?;
        let machine = Machine::new(alloc)?;
        Ok(Engine {
            started: false,
            has_output: false,
            opened: false,
            closed: false,
            queue,
            spares: SpareTexts::new(),
            machine,
            history: History::new(),
        })
    }
}

impl<A: Allocator> Engine<A> {
    /// Sets all settings, and an output.
    pub(crate) fn set_all(&mut self, settings: Settings)
        requires { self.old.has_output ≡ false }
        ensures set { self.new
            ≡ record self.old {
              has_output = true;
              given = seen_settings settings;
              settings = record self.old.settings { canonical = settings.canonical };
              page = record self.old.page { limit = settings.limit };
            } }
        ensures stands { StandsAfter self.old.given [] self.old → StandsAfter self.new.given [] self.new }
    {
        self.machine.set_all(settings);
        self.has_output = true;
    }

    /// Returns whether the encoding was set, or the stream has begun.
    pub(crate) fn knows_encoding(&self) -> bool
        ensures { result ≡ knows_encoding self.now }
    {
        match self.machine.stage {
            Stage::Stream => self.machine.given.encoding != YAML_ANY_ENCODING,
            _ => true,
        }
    }
}

fn room_for_four<A: Allocator + Copy>(alloc: A) -> Result<WaitingEvents<A>, yaml_error_t>
    ensures empty { IfOk result (λ queue. queue.items ≡ []) }
    ensures room { IfOk result (λ queue. (vec_len queue ≡ 0) × (4 ≤ vec_capacity queue)) }
    ensures memory { IfErr result (λ error. error ≡ yaml_error_t.Memory) }
{
    let mut queue = Vec::new(alloc);
    match queue.reserve(4) {
        Ok(()) => Ok(queue),
        Err(_) => Err(yaml_error_t::Memory),
    }
}
