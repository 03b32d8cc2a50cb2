//! The YAML of a file of JSON texts, written by the settings that are asked for.
ghost use Rattle.json2yaml.specs.Conversions.{RefusedJsonFile, SentJsonFile};

use crate::failures::failure_of;
use crate::formats::JsonFormat;
use std::alloc::Global;
use std::io::Write;
use yaml_json::{Writer, send_json_texts};
use yaml_program::{Failure, SendsFile, Sources};

impl SendsFile for JsonFormat {
    ghost sent = { λ format. SentJsonFile format.settings };

    ghost refused = { λ format. RefusedJsonFile format.settings };

    fn send_file<S: Sources + AllocGlobal, W: Write>(
        &self,
        sources: &S,
        name: &str,
        writer: &mut Writer<Global>,
        sink: &mut W,
    ) -> Result<(), Failure> {
        let mut reader = match sources.open(name) {
            Ok(reader) => reader,
            Err(error) => return Err(Failure::ReadFailed(error)),
        };
        match send_json_texts(sources.alloc(), writer, sink, &mut reader, self.settings) {
            Ok(()) => Ok(()),
            Err(error) => Err(failure_of(error)),
        }
    }
}
