//! JSON, as the format of the program.
ghost use Rattle.std.specs.Prelude.{codes};
ghost use Rattle.json2yaml.specs.Conversions.{IsJsonFormat, IsOutputOfJsonFiles};
ghost use Rattle.yaml_program.specs.Bounds.{is_allowed};

use crate::deterministic::{keys_by, send_canonical};
use crate::words;
use clap::ArgMatches;
use std::io::Write;
use yaml_json::JsonSettings;
use yaml_program::{Failure, Format, Sources, Wording, send_stream, value_settings_of};

/// JSON texts, which are written by these settings.
#[derive(Clone, Copy)]
pub struct JsonFormat {
    pub settings: JsonSettings,
    /// The canonical bytes of one text are written, and no setting counts but that for names.
    pub deterministic: bool,
}

impl Format for JsonFormat {
    ghost is_yaml = { λ format. IsOutputOfJsonFiles format.deterministic format.settings };

    ghost is_asked_by = { IsJsonFormat };

    ghost allows_depth = { λ format. is_allowed format.settings.values };

    ghost ending = { codes ".json" };

    fn words() -> &'static Wording {
        words::words()
    }

    fn from_options(matches: &ArgMatches<'_>) -> Self {
        let settings = JsonSettings {
            values: value_settings_of(matches),
            unique_names: !matches.get_flag("allow-duplicates"),
        };
        JsonFormat {
            settings,
            deterministic: matches.get_flag("deterministic"),
        }
    }

    fn ending(&self) -> &'static str {
        ".json"
    }

    fn allows_depth(&self) -> bool {
        yaml_program::is_allowed(&self.settings.values)
    }

    fn send_files<'a, S: Sources + AllocGlobal, W: Write>(
        &self,
        sources: &S,
        names: &[&'a str],
        sink: &mut W,
    ) -> Result<(), (Option<&'a str>, Failure)> {
        if self.deterministic {
            return send_canonical(keys_by(&self.settings), sources, names, sink);
        }
        send_stream(self, self.settings.values.emitter, sources, names, sink)
    }
}
