//! TOML documents as YAML.
ghost use Rattle.std.specs.Prelude.{◌≡◌, ◌-◌, IfSome, length};
ghost use Rattle.toml_ordered.specs.Nesting.{HasReason};
ghost use Rattle.toml_ordered.specs.Places.{HoldsHere, place_left};
ghost use Rattle.yaml_base.specs.Positions.{IsPositionOf};
ghost use Rattle.yaml_writer.specs.WasGiven.{IsBare};
ghost use Rattle.yaml_toml.specs.Places.{HasTomlReason, IsBeforeLeft};
ghost use Rattle.yaml_toml.specs.Walk.{fault_error, toml_writers_error};
ghost use Rattle.yaml_toml.specs.WritingCalls.{ReturnsTomlYaml, WritesToml};

use crate::error::TomlError;
use crate::walk::{Stop, write_root};
use std::alloc::{Allocator, Global};
use toml_ordered::{Fault, read_document};
use yaml_base::{Position, position_of};
use yaml_writer::{ValueSettings, Writer, yaml_error_t};

/// Returns the position at which this much of a text is left.
fn position_before(text: &str, left: usize) -> Position
    ensures { IsPositionOf text.now (length text.now - left) result }
{
    position_of(text.as_bytes(), text.len().saturating_sub(left))
}

/// Converts a fault of a text to the caller's error.
fn error_of(text: &str, fault: Fault) -> TomlError
    ensures error { toml_writers_error result ≡ fault_error fault }
    ensures place { IfSome (place_left fault) (λ left. IsBeforeLeft text.now left result) }
    ensures reason { HasReason text.now fault → HoldsHere text.now fault → HasTomlReason text.now result }
{
    match fault {
        Fault::Memory => TomlError::Emitter(yaml_error_t::Memory),
        Fault::NotToml { left, why } => TomlError::NotToml {
            position: position_before(text, left),
            why,
        },
        Fault::TooDeep { left } => TomlError::TooDeepToRead {
            position: position_before(text, left),
        },
        Fault::DefinedAgain {
            key,
            name,
            first,
            second,
        } => TomlError::DefinedAgain {
            key,
            name,
            first: position_before(text, first),
            position: position_before(text, second),
        },
    }
}

/// Gives a writer the events of a TOML document, by all of these settings but `settings.emitter`. Arrays and tables may nest
/// `settings.depth` deep, the root table among them. They are written in flow if `settings.flow` is set; otherwise those that aren't
/// empty are written in blocks. The keys of each table come in the order in which the document first defines them. Comments are
/// dropped.
///
/// The writer must have no anchor and no tag for the next node.
///
/// # Errors
///
/// `NotToml` and `DefinedAgain` if the text is no document of TOML 1.1, and `TooDeepToRead` if arrays and tables in braces nest more than
/// 80 deep, or a key has more than 80 parts, even if `settings.depth` allows it: nothing is written then. `TooDeep` if arrays and tables
/// nest deeper than `settings.depth`. `Emitter` with the error of the writer's emitter, which has it from then on, or with `Memory` if an
/// allocation fails. After an error the writer was given the first of the document's events, and no earlier output is lost. Its form is
/// unchanged, those arrays and tables are open that the given events leave open, and the next node has no anchor and no tag.
pub fn write_toml<A: Allocator + Copy>(
    alloc: Global,
    writer: &mut Writer<A>,
    text: &str,
    settings: ValueSettings,
) -> Result<(), TomlError>
    requires { IsBare writer.old }
    ensures { WritesToml settings text.now writer.old result writer.new }
{
    let root = match read_document(alloc, text) {
        Ok(root) => root,
        Err(fault) => return Err(error_of(text, fault)),
    };
    match write_root(alloc, writer, &root, &settings) {
        Ok(()) => Ok(()),
        Err(Stop::TooDeep) => Err(TomlError::TooDeep),
        Err(Stop::Failed(error)) => Err(TomlError::Emitter(error)),
    }
}

/// Returns the YAML of a TOML document: a stream of one document.
///
/// # Errors
///
/// `NotToml`, `DefinedAgain`, `TooDeepToRead` and `TooDeep` as by `write_toml`. `Emitter` with `WriteError` if the bytes pass the limit,
/// with `Memory` if an allocation fails, and with `TooDeep` if arrays and tables nest more than 1,000,000 deep and `settings.depth`
/// allows it.
pub fn yaml_from_toml(
    alloc: Global,
    text: &str,
    settings: ValueSettings,
) -> Result<Vec<u8>, TomlError>
    ensures { ReturnsTomlYaml settings text.now result }
{
    let Ok(mut writer) = Writer::new(alloc, settings.emitter) else {
        return Err(TomlError::Emitter(yaml_error_t::Memory));
    };
    if let Err(error) = write_toml(alloc, &mut writer, text, settings) {
        writer.promised();
        return Err(error);
    }
    writer.promised();
    match writer.finish() {
        Ok(bytes) => Ok(bytes),
        Err(error) => Err(TomlError::Emitter(error)),
    }
}
