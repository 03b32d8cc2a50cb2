//! The settings for writing JSON as YAML.
ghost use Rattle.std.specs.Prelude.{◌≡◌, false, true};
ghost use Rattle.yaml_emitter.specs.Given.{seen_settings};
ghost use Rattle.yaml_writer.specs.Given.{given_for_values};

use yaml_writer::ValueSettings;

/// The settings for writing JSON as YAML.
#[derive(Clone, Copy, PartialEq, Eq, Debug)]
pub struct JsonSettings {
    /// The settings for values. Flow has arrays and objects as JSON has them, and the depth counts both.
    pub values: ValueSettings,
    /// Whether a name may come only once in an object. Otherwise it is written as often as it comes, which many readers of YAML refuse.
    pub unique_names: bool,
}

/// The settings for values by default: blocks and a depth of 1,000; and each name once in its object.
impl Default for JsonSettings {
    fn default() -> Self
        ensures emitter { seen_settings result.values.emitter ≡ given_for_values }
        ensures blocks { result.values.flow ≡ false }
        ensures depth { result.values.depth ≡ 1000 }
        ensures names { result.unique_names ≡ true }
    {
        JsonSettings {
            values: ValueSettings::default(),
            unique_names: true,
        }
    }
}
