//! The place and the style in which a node is written.

use crate::effective::EffectiveSettings;
use crate::place::Place;

/// A node's place, whether it is a simple key, and the settings that it is written by.
#[derive(Clone, Copy)]
pub(crate) struct Site<'a> {
    pub settings: &'a EffectiveSettings,
    pub place: Place,
    pub simple: bool,
}

impl<'a> Site<'a> {
    ghost use Rattle.std.specs.Prelude.{◌≡◌, false};
    ghost use Rattle.yaml_base.specs.Layout.{root_place};
    ghost use Rattle.yaml_emitter.specs.Places.{seen_place};

    /// Returns the site outside all nodes: lines begin at column 0.
    pub(crate) fn outside(settings: &'a EffectiveSettings) -> Site<'a>
        ensures place { seen_place result.place ≡ root_place }
        ensures settings { result.settings.now ≡ settings.now }
    {
        Site {
            settings,
            place: Place::root(),
            simple: false,
        }
    }
}
