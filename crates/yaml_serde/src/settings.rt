//! The settings for serializing values.
ghost use Rattle.std.specs.Prelude.{◌≡◌};
ghost use Rattle.yaml_emitter.specs.Given.{seen_settings};
ghost use Rattle.yaml_writer.specs.Given.{given_for_values};
ghost use Rattle.yaml_serde.specs.Forms.{form_for_values, form_of};

use yaml_writer::ValueSettings;

/// The form in which a variant with data is written. One without data is its name, a text.
#[derive(Clone, Copy, PartialEq, Eq, Debug)]
pub enum Variants {
    /// Its data, with its name as a local tag: `!Circle 2`.
    Tags,
    /// A mapping of one key, its name, to its data: `Circle: 2`.
    OneKeyMap,
}

/// The settings for serializing values.
#[derive(Clone, Copy, PartialEq, Eq, Debug)]
pub struct SerdeSettings {
    /// The settings of the writer, and the form and the depth of the sequences and maps of a value.
    pub values: ValueSettings,
    /// The form of a variant with data.
    pub variants: Variants,
}

/// The settings for values, blocks, a depth of 1,000, and tags for variants.
impl Default for SerdeSettings {
    fn default() -> Self
        ensures emitter { seen_settings result.values.emitter ≡ given_for_values }
        ensures form { form_of result.values ≡ form_for_values }
        ensures variants { result.variants ≡ Variants.Tags }
    {
        SerdeSettings {
            values: ValueSettings::default(),
            variants: Variants::Tags,
        }
    }
}
