//! The emitter: it writes the events that it is given.

ghost use Rattle.std.specs.Prelude.{◌≡◌, ◌≤◌, IfOk, IfErr, length};
ghost use Rattle.yaml_emitter.specs.Emits.{IsPromised};
ghost use Rattle.yaml_emitter.specs.Given.{seen_settings};
ghost use Rattle.yaml_emitter.specs.StandsAfter.{StandsAfter};
ghost use Rattle.yaml_emitter.specs.State.{new_state, new_state_with};

use crate::engine::Engine;
use crate::laws::standing_is_promised;
use crate::settings::Settings;
use std::alloc::Allocator;
use std::marker::Model;
use yaml_base::yaml_error_t;

/// Writes events as YAML 1.1 into a vector of bytes.
pub struct yaml_emitter_t<A: Allocator> {
    pub(crate) engine: Engine<A>,
}

// Not derived, so that a function that drops an emitter makes one call, and not one for each part.
impl<A: Allocator> Drop for yaml_emitter_t<A> {
    fn drop(self) {
        let yaml_emitter_t { engine: _ } = self;
    }
}

impl<A: Allocator> Model for yaml_emitter_t<A> {
    ghost use Rattle.yaml_emitter.specs.State.{State};
    ghost use Rattle.yaml_emitter.specs.EmitterInside.{engine_of, IsEmitter};

    ghost Value = { State };

    ghost view = { engine_of };

    ghost invariant = { IsEmitter };
}

/// Makes a new emitter: with no settings, no output and no event.
///
/// # Errors
///
/// `Memory` if its buffer or its queue can't be allocated.
pub fn yaml_emitter_initialize<A: Allocator + Copy>(
    alloc: A,
) -> Result<yaml_emitter_t<A>, yaml_error_t>
    ensures made { IfOk result (λ emitter. emitter ≡ new_state) }
    ensures memory { IfErr result (λ error. error ≡ yaml_error_t.Memory) }
{
    let engine = Engine::new(alloc)?;
    Ok(yaml_emitter_t { engine })
}

impl<A: Allocator + Copy> yaml_emitter_t<A> {
    /// Makes a new emitter with these settings and an output of at most `settings.limit` bytes, as the setters called one by
    /// one make it.
    ///
    /// # Errors
    ///
    /// `Memory` if its buffer or its queue can't be allocated.
    pub fn with_settings(alloc: A, settings: Settings) -> Result<yaml_emitter_t<A>, yaml_error_t>
        ensures made { IfOk result (λ emitter. emitter ≡ new_state_with (seen_settings settings)) }
        ensures memory { IfErr result (λ error. error ≡ yaml_error_t.Memory) }
    {
        let mut engine = Engine::new(alloc)?;
        engine.set_all(settings);
        Ok(yaml_emitter_t { engine })
    }
}

impl<A: Allocator> yaml_emitter_t<A> {
    /// States what a caller may rely on, whatever was called before.
    pub fn promised(&self)
        ensures stands { StandsAfter self.now.given self.now.events self.now }
        ensures taken { self.now.page.taken ≤ length self.now.page.output }
        ensures promised { IsPromised self.now }
    {
        standing_is_promised();
        let _ = &self.engine;
    }
}
