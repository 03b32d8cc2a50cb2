//! JSON texts that follow one another in a text.
ghost use Rattle.yaml_json.specs.WritingCalls.{WritesTexts};
ghost use Rattle.yaml_writer.specs.WasGiven.{IsBare};

use crate::cuts::first_cut;
use crate::error::JsonError;
use crate::settings::JsonSettings;
use crate::texts::{error_of, write_text_by};
use std::alloc::Allocator;
use yaml_writer::Writer;

/// Gives a writer the events of the JSON texts that follow one another in a text, as `write_json` gives those of one: a
/// document each, the first as the document that the writer is in. A text goes on until each bracket, brace and quote that it
/// opens is closed; a number or a word, until a blank, or until a byte that begins or ends something else. Blanks may separate two
/// texts.
///
/// If the writer was new and is then finished, both schemas of YAML read the documents of its stream as the values of the texts,
/// in order: in portable mode with the line breaks of YAML 1.1 and with those of 1.2, else with those of the settings.
///
/// The writer must have no anchor and no tag for the next node. After `Ok` it was given exactly the documents of the texts, has no
/// anchor and no tag again, and its emitter has no error. Whatever is returned, earlier output stays.
///
/// # Errors
///
/// `NotJson`, `Marked`, `TooDeep` and `DuplicateName` as by `write_json`, if one of the texts is refused; those before it are JSON.
/// `Emitter` with the error of the writer's emitter, which has it now, or with `Memory` if an allocation fails. After an
/// error the writer was given the documents of the texts before, and exactly the events of the tokens before of the text that is
/// refused; its emitter has no error that it hadn't before, unless it is the one that is returned. The writer can be used further, as
/// after an error of `write_json`.
pub fn write_json_texts<A: Allocator + Copy>(
    alloc: A,
    writer: &mut Writer<A>,
    text: &str,
    settings: JsonSettings,
) -> Result<(), JsonError>
    requires { IsBare writer.old }
    ensures { WritesTexts settings text.now writer.old result writer.new }
{
    let mut rest = text;
    'texts: loop {
        let (first, more) = first_cut(rest);
        if let Err(stopped) = write_text_by(alloc, writer, first, &settings) {
            let before = text.len().saturating_sub(rest.len());
            return Err(error_of(text, before, first, stopped));
        }
        if more.is_empty() {
            writer.promised();
            return Ok(());
        }
        if let Err(error) = writer.next_document() {
            return Err(JsonError::Emitter(error));
        }
        rest = more;
    }
}
