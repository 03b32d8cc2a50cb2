//! The machine: writes one event after another, and knows what may come next.

ghost use Rattle.std.specs.Prelude.{◌≡◌, IfOk, IfErr, None, []};
ghost use Rattle.yaml_pen.specs.Page.{IsUntouched, all_taken, encoded, output_left};
ghost use Rattle.yaml_pen.specs.Wrote.{Flushed};
ghost use Rattle.yaml_emitter.specs.Given.{seen_settings};
ghost use Rattle.yaml_emitter.specs.StandsAfter.{failed_by};
ghost use Rattle.yaml_emitter.specs.State.{new_machine};

use crate::effective::EffectiveSettings;
use crate::frames::Frames;
use crate::settings::Settings;
use crate::stage::Stage;
use crate::writing::OpenEnded;
use std::alloc::Allocator;
use std::marker::Model;
use yaml_base::{YAML_ANY_ENCODING, yaml_error_t};
use yaml_mark::Directives;
use yaml_pen::Pen;

/// Writes events, one after another.
#[derive(Drop)]
pub(crate) struct Machine<A: Allocator> {
    pub(crate) alloc: A,
    pub(crate) given: Settings,
    pub(crate) settings: EffectiveSettings,
    pub(crate) stage: Stage,
    pub(crate) directives: Directives<A>,
    pub(crate) frames: Frames<A>,
    pub(crate) open_ended: OpenEnded,
    pub(crate) pen: Pen<A>,
    pub(crate) error: Option<yaml_error_t>,
}

impl<A: Allocator> Model for Machine<A> {
    ghost use Rattle.yaml_emitter.specs.State.{MachineState};
    ghost use Rattle.yaml_emitter.specs.MachineInside.{machine_state, IsMachine};

    ghost Value = { MachineState };

    ghost view = { machine_state };

    ghost invariant = { IsMachine };
}

impl<A: Allocator + Copy> Machine<A> {
    /// Makes a machine that has been given nothing.
    ///
    /// # Errors
    ///
    /// `Memory` if the pen's buffer can't be allocated.
    pub(crate) fn new(alloc: A) -> Result<Machine<A>, yaml_error_t>
        ensures made { IfOk result (λ machine. machine ≡ new_machine) }
        ensures memory { IfErr result (λ error. error ≡ yaml_error_t.Memory) }
    {
        let given = Settings::default();
        let pen = Pen::new(alloc)?;
        Ok(Machine {
            alloc,
            given,
            settings: given.effective(YAML_ANY_ENCODING),
            stage: Stage::Stream,
            directives: Directives::new(alloc),
            frames: Frames::new(alloc),
            open_ended: OpenEnded::Closed,
            pen,
            error: None,
        })
    }
}

impl<A: Allocator> Machine<A> {
    /// Returns the first error.
    pub(crate) fn error(&self) -> Option<yaml_error_t>
        ensures { result ≡ self.now.error }
    {
        self.error
    }

    /// Returns the flushed bytes not yet taken; none if nothing is written.
    pub(crate) fn output(&self) -> &[u8]
        ensures value { result.now ≡ output_left self.now.page }
        ensures untaken { self.now.page.taken ≡ 0 → result.now ≡ self.now.page.output }
        ensures unwritten { IsUntouched self.now.page → result.now ≡ [] }
    {
        self.pen.output()
    }

    /// Returns the flushed bytes not yet taken.
    pub(crate) fn take_output(&mut self) -> Vec<u8, A>
    where
        A: Copy,
        ensures rest { result.items ≡ output_left self.old.page }
        ensures untaken { self.old.page.taken ≡ 0 → result.items ≡ self.old.page.output }
        ensures taken { self.new ≡ record self.old { page = all_taken self.old.page } }
    {
        self.pen.take_output()
    }

    /// Counts the flushed bytes not yet taken as taken.
    pub(crate) fn consume_output(&mut self)
        ensures { self.new ≡ record self.old { page = all_taken self.old.page } }
    {
        self.pen.consume_output();
    }

    /// Flushes all that is written.
    pub(crate) fn flush(&mut self) -> Result<(), yaml_error_t>
        requires no_error { self.old.error ≡ None }
        ensures flushed { Flushed self.old.page self.new.page result }
        ensures kept { self.new ≡ record self.old { page = self.new.page; error = self.new.page.error } }
        ensures empty { self.old.page.error ≡ None → self.old.page.output ≡ encoded self.old.page → self.new ≡ self.old }
    {
        match self.pen.flush() {
            Ok(()) => Ok(()),
            Err(error) => {
                self.error = Some(error);
                Err(error)
            }
        }
    }

    /// Sets the maximum output size in bytes.
    pub(crate) fn set_limit(&mut self, limit: usize)
        requires { IsUntouched self.old.page }
        ensures { self.new
            ≡ record self.old {
              given = record self.old.given { limit = limit };
              page = record self.old.page { limit = limit };
            } }
    {
        self.pen.set_limit(limit);
        self.given.limit = limit;
    }

    /// Keeps the first error for good.
    pub(crate) fn fail(&mut self, error: yaml_error_t)
        ensures { self.new ≡ failed_by error self.old }
    {
        self.error = Some(error);
    }
}

impl<A: Allocator> Machine<A> {
    /// Sets all settings.
    pub(crate) fn set_all(&mut self, settings: Settings)
        requires { IsUntouched self.old.page }
        ensures { self.new
            ≡ record self.old {
              given = seen_settings settings;
              settings = record self.old.settings { canonical = settings.canonical };
              page = record self.old.page { limit = settings.limit };
            } }
    {
        self.pen.set_limit(settings.limit);
        self.settings.canonical = settings.canonical;
        self.given = settings;
    }
}
