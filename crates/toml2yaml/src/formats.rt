//! TOML, as the format of the program.
ghost use Rattle.std.specs.Prelude.{codes};
ghost use Rattle.toml2yaml.specs.Conversions.{IsYamlOfTomlFiles};
ghost use Rattle.yaml_program.specs.Bounds.{is_allowed};
ghost use Rattle.yaml_program.specs.Options.{AreValueSettings};

use crate::words;
use clap::ArgMatches;
use std::io::Write;
use yaml_program::{Failure, Format, Sources, Wording, send_stream, value_settings_of};
use yaml_writer::ValueSettings;

/// TOML documents, which are written by these settings.
#[derive(Clone, Copy)]
pub struct TomlFormat {
    pub settings: ValueSettings,
}

impl Format for TomlFormat {
    ghost is_yaml = { λ format. IsYamlOfTomlFiles format.settings };

    ghost is_asked_by = { λ matches format. AreValueSettings matches format.settings };

    ghost allows_depth = { λ format. is_allowed format.settings };

    ghost ending = { codes ".toml" };

    fn words() -> &'static Wording {
        words::words()
    }

    fn from_options(matches: &ArgMatches<'_>) -> Self {
        TomlFormat {
            settings: value_settings_of(matches),
        }
    }

    fn ending(&self) -> &'static str {
        ".toml"
    }

    fn allows_depth(&self) -> bool {
        yaml_program::is_allowed(&self.settings)
    }

    fn send_files<'a, S: Sources + AllocGlobal, W: Write>(
        &self,
        sources: &S,
        names: &[&'a str],
        sink: &mut W,
    ) -> Result<(), (Option<&'a str>, Failure)> {
        send_stream(self, self.settings.emitter, sources, names, sink)
    }
}
