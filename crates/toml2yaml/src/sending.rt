//! The YAML of a file of TOML, written by the settings that are asked for.
ghost use Rattle.std.specs.Prelude.{◌≡◌, IfErr, OnOk};
ghost use Rattle.yaml_writer.specs.WasGiven.{IsBare};
ghost use Rattle.toml2yaml.specs.Conversions.{RefusedTomlFile, RefusesFile, SentTomlFile, WroteFile};
ghost use Rattle.yaml_program.specs.Faults as statuses;

use crate::failures::{failure_of, refused};
use crate::formats::TomlFormat;
use std::alloc::Global;
use std::io::Write;
use std::str;
use yaml_base::position_of;
use yaml_program::{Failure, SendsFile, Sources, read_file};
use yaml_toml::{Writer, write_toml};
use yaml_writer::ValueSettings;

/// Gives a writer the events of a document, if the bytes are one.
fn write_bytes(
    alloc: Global,
    writer: &mut Writer<Global>,
    bytes: &[u8],
    settings: &ValueSettings,
) -> Result<(), Failure>
    requires { IsBare writer.old }
    ensures bare { OnOk result (IsBare writer.new) }
    ensures wrote { OnOk result (WroteFile settings.now.depth settings.now.flow bytes.now writer.old writer.new) }
    ensures refused { IfErr result (λ failure. statuses.failure_status failure ≡ 1 → RefusesFile settings.now bytes.now writer.old writer.new) }
{
    let text = match str::from_utf8(bytes) {
        Ok(text) => text,
        Err(error) => {
            let position = position_of(bytes, error.valid_up_to());
            return Err(refused(position, "not UTF-8"));
        }
    };
    match write_toml(alloc, writer, text, *settings) {
        Ok(()) => Ok(()),
        Err(error) => Err(failure_of(error)),
    }
}

impl SendsFile for TomlFormat {
    ghost sent = { λ format. SentTomlFile format.settings };

    ghost refused = { λ format. RefusedTomlFile format.settings };

    fn send_file<S: Sources + AllocGlobal, W: Write>(
        &self,
        sources: &S,
        name: &str,
        writer: &mut Writer<Global>,
        _sink: &mut W,
    ) -> Result<(), Failure> {
        match read_file(sources, name) {
            Ok(bytes) => write_bytes(sources.alloc(), writer, bytes.as_slice(), &self.settings),
            Err(error) => Err(Failure::ReadFailed(error)),
        }
    }
}
