//! The settings by which values are written.
ghost use Rattle.std.specs.Prelude.{◌≡◌, false};
ghost use Rattle.yaml_emitter.specs.Given.{seen_settings};
ghost use Rattle.yaml_writer.specs.Given.{given_for_values};

use yaml_emitter::Settings;

/// Returns the settings for values: portable, in UTF-8 and with LF: an indent of 2, sequences in mappings indented, too, no line
/// folded, no limit; characters past ASCII as themselves; blanks literal. Not those of `Settings::default()`, which are libyaml's.
pub fn value_settings() -> Settings
    ensures { seen_settings result ≡ given_for_values }
{
    Settings {
        portable: true,
        unicode: true,
        indented_sequences: true,
        literal_blanks: true,
        width: Some(-1),
        ..Settings::default()
    }
}

/// The settings for writing values: those of the emitter, and the form and the depth of collections.
#[derive(Clone, Copy, PartialEq, Eq, Debug)]
pub struct ValueSettings {
    /// The settings of the emitter.
    pub emitter: Settings,
    /// Whether collections are written in flow. Otherwise those that aren't empty are written in blocks.
    pub flow: bool,
    /// Maximum nesting depth of collections. The outermost counts.
    pub depth: usize,
}

/// The settings for values, blocks, and a depth of 1,000.
impl Default for ValueSettings {
    fn default() -> Self
        ensures emitter { seen_settings result.emitter ≡ given_for_values }
        ensures blocks { result.flow ≡ false }
        ensures depth { result.depth ≡ 1000 }
    {
        ValueSettings {
            emitter: value_settings(),
            flow: false,
            depth: 1_000,
        }
    }
}
