//! The nesting depth of collections that the settings allow.
ghost use Rattle.std.specs.Prelude.{◌≡◌};
ghost use Rattle.yaml_program.specs.Bounds as bounds;

use yaml_writer::ValueSettings;

/// The maximum nesting depth of collections if lines are indented by their depth.
const MOST_INDENTED: usize = 10_000;

/// Returns whether collections may nest as deep as the settings say. If lines are indented, the output grows with the square of the depth,
/// and a document is in memory until it ends.
pub fn is_allowed(settings: &ValueSettings) -> bool
    ensures { result ≡ bounds.is_allowed settings.now }
{
    // In flow, if nothing is folded, a document is one line, and no line is indented.
    let folds = match settings.emitter.width {
        Some(column) => column >= 0,
        None => true,
    };
    settings.depth <= MOST_INDENTED || settings.flow && !settings.emitter.canonical && !folds
}
