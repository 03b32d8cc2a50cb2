//! A value as YAML.
ghost use Rattle.std.specs.Io.KnownBytes.{Appends};
ghost use Rattle.std.specs.Prelude.{◌≡◌, IfOk, IsUtf8, OnErr, OnOk, string_bytes};
ghost use Rattle.yaml_emitter.specs.Given.{seen_settings};
ghost use Rattle.yaml_base.specs.Sinks.{AppendsFirst};
ghost use Rattle.yaml_writer.specs.Given.{given_for_values};
ghost use Rattle.yaml_serde.specs.Documents.{AppendsBeginning, AppendsDocument, IsDocument};
ghost use Rattle.yaml_serde.specs.Forms.{form_for_values, form_of};
ghost use Rattle.yaml_serde.specs.Outlets.{BeginsKept, BeginsSent};
ghost use Rattle.yaml_serde.specs.ValueCalls.{GivesValue, SendsValue};

use crate::document::{Document, Given};
use crate::error::Error;
use crate::serializer::with_value;
use crate::settings::SerdeSettings;
use serde::Serialize;
use std::alloc::Global;
use std::io;
use std::io::Write;
use std::marker::Brand;
use yaml_base::write_to_sink;
use yaml_writer::Writer;

/// The sink of a document whose bytes stay with the writer.
type NoSink = io::Sink;

/// Returns a value as a stream of one document.
///
/// Structs and maps are mappings in the order in which they give their entries, whose keys may be any values; sequences
/// and tuples are sequences. With `flow` all are in flow style, else in blocks. A text is plain only if both schemas of YAML read
/// it as a text, and a float is spelled so that both read exactly that number (or `.inf`, `-.inf`, `.nan`). `None` and `()` are
/// `null`; bytes are `!!binary` in base64. A variant without data is its name, a text. One with data is by `Variants::Tags` its data with the local tag
/// `!Variant`, as serde_yaml 0.9 writes it, and by `Variants::OneKeyMap` a mapping of its name to its data, as serde_json does.
///
/// At most `depth` sequences and mappings are open at once, whatever the value's own `serialize` does. It isn't promised that a value
/// that nests deeper gives `TooDeep`: `serialize` may ignore the error of a call, and return another answer.
///
/// # Errors
/// `Custom` if the value's own `serialize` says so; `TooDeep` if a sequence or a mapping lies deeper than `depth`, of which the
/// outermost counts as 1; `TwoTags` if the data of a variant with a tag is a variant with data, or bytes; `Flattened` if a
/// flattened value is neither a struct nor a map; `Emitter` if the bytes pass the limit, if more than 1,000,000 levels were allowed
/// and are open, and if a `Serialize` by hand writes no value, several, a key alone, or a variant's name alone although data must
/// follow; `Memory` if an allocation fails.
pub fn to_vec_with<T: Serialize>(
    alloc: Global,
    value: &T,
    settings: SerdeSettings,
) -> Result<Vec<u8>, Error>
    ensures { IfOk result (λ bytes. IsDocument (seen_settings settings.values.emitter) (form_of settings.values) bytes.items) }
{
    let mut writer = Writer::new(alloc, settings.values.emitter)?;
    write_with(alloc, &mut writer, value, settings)?;
    Ok(writer.finish()?)
}

/// Returns a value as a stream of one document, by the settings for values: in portable mode, so it begins with `---`;
/// in UTF-8, with LF, an indent of 2, indented sequences, no line folded, and characters past ASCII as themselves; in blocks, to a depth
/// of 1,000.
///
/// # Errors
/// Those of `to_vec_with`.
pub fn to_vec<T: Serialize>(alloc: Global, value: &T) -> Result<Vec<u8>, Error>
    ensures document { IfOk result (λ bytes. IsDocument given_for_values form_for_values bytes.items) }
    ensures utf8 { IfOk result (λ bytes. IsUtf8 bytes.items) }
{
    to_vec_with(alloc, value, SerdeSettings::default())
}

/// Returns a value as a stream of one document, by the settings for values, as a text.
///
/// # Errors
/// Those of `to_vec_with`.
pub fn to_string<T: Serialize>(alloc: Global, value: &T) -> Result<String, Error>
    ensures { IfOk result (λ text. IsDocument given_for_values form_for_values (string_bytes text)) }
{
    let bytes = to_vec(alloc, value)?;
    Ok(text_of(bytes))
}

/// Writes a value to a sink as a stream of one document, in the memory of 16,384 bytes, of the longest text and of what is open:
/// its bytes are handed on as they are written, at most 16,384 later, or a scalar later if that is longer. The sink isn't flushed.
///
/// # Errors
/// Those of `to_vec_with`, and `Sink` if the sink fails. The sink then has a beginning of what was written of the document, which
/// may be empty.
pub fn to_writer_with<T: Serialize, W: Write>(
    alloc: Global,
    sink: &mut W,
    value: &T,
    settings: SerdeSettings,
) -> Result<(), Error>
    ensures written { OnOk result
        (AppendsDocument (seen_settings settings.values.emitter) (form_of settings.values) (W.contents sink.old) (W.contents sink.new)) }
    ensures first { OnErr result
        (AppendsBeginning (seen_settings settings.values.emitter) (form_of settings.values) (W.contents sink.old) (W.contents sink.new)) }
{
    let mut writer = Writer::new(alloc, settings.values.emitter)?;
    write_and_send(alloc, &mut writer, sink, value, settings)?;
    let rest = writer.finish()?;
    finish_sink(sink, rest.as_slice())
}

/// Writes a value to a sink as `to_writer_with` does, by the settings for values.
///
/// # Errors
/// Those of `to_writer_with`.
pub fn to_writer<T: Serialize, W: Write>(
    alloc: Global,
    sink: &mut W,
    value: &T,
) -> Result<(), Error>
    ensures written { OnOk result (AppendsDocument given_for_values form_for_values (W.contents sink.old) (W.contents sink.new)) }
    ensures first { OnErr result (AppendsBeginning given_for_values form_for_values (W.contents sink.old) (W.contents sink.new)) }
{
    to_writer_with(alloc, sink, value, SerdeSettings::default())
}

/// Gives a value to a writer as its next node, with the anchor and the tag that await it. It doesn't notice that a `Serialize` by
/// hand wrote no node although neither awaits one, nor that it wrote several within a collection.
///
/// # Errors
/// Those of `to_vec_with`, and else the emitter's error, also one that the writer had before or that the value's own `serialize`
/// ignored. What was given before an error stays given, and what the value opened may stay open; what was open before stays so.
pub fn write<T: Serialize>(
    alloc: Global,
    writer: &mut Writer<Global>,
    value: &T,
) -> Result<(), Error>
    ensures { GivesValue form_for_values writer.old result writer.new }
{
    write_with(alloc, writer, value, SerdeSettings::default())
}

/// Gives a value to a writer as `write` does, by all of the settings but those of an emitter, which the writer has. The depth counts
/// the sequences and mappings of the value alone.
///
/// # Errors
/// Those of `write`.
pub fn write_with<T: Serialize>(
    alloc: Global,
    writer: &mut Writer<Global>,
    value: &T,
    settings: SerdeSettings,
) -> Result<(), Error>
    ensures { GivesValue (form_of settings.values) writer.old result writer.new }
{
    let mut nowhere = io::sink();
    let (lent, _nowhere, answer) = given::<T, Brand>(alloc, writer, &mut nowhere, value, settings);
    // For the proof, which reads the writer's state here.
    let _ = &*lent;
    answer
}

/// Gives a value to a writer, and hands on to a sink the bytes that are flushed.
fn write_and_send<T: Serialize, W: Write>(
    alloc: Global,
    writer: &mut Writer<Global>,
    sink: &mut W,
    value: &T,
    settings: SerdeSettings,
) -> Result<(), Error>
    ensures { SendsValue (form_of settings.values) (W.contents sink.old) writer.old.emitter result (W.contents sink.new) writer.new.emitter }
{
    let (lent, sent, answer) = handed::<T, W, Brand>(alloc, writer, sink, value, settings);
    // For the proof, which reads the state of the writer and of the sink here.
    let _ = &*lent;
    let _ = &*sent;
    answer
}

/// Returns a writer with a value more, of which some was handed on to a sink.
fn handed<'w, 'a, T: Serialize, W: Write, G: Given>(
    alloc: Global,
    writer: &'w mut Writer<Global>,
    sink: &'a mut W,
    value: &T,
    settings: SerdeSettings,
) -> (&'w mut Writer<Global>, &'a mut W, Result<(), Error>)
    requires { BeginsSent G.outside (form_of settings.values) writer.now writer.ghost_name (W.contents sink.now) sink.ghost_name }
    ensures lent { result.0.ghost_name ≡ G.outside.lent }
    ensures same { result.1.ghost_name ≡ G.outside.name }
    ensures sends { SendsValue G.outside.form G.outside.held G.outside.start.emitter result.2 (W.contents result.1.now) result.0.now.emitter }
{
    let document: Document<'w, 'a, G, W> = Document::sent(writer, sink, settings.values);
    let (document, answer) = with_value(alloc, document, value, settings.variants);
    let (writer, sink, whole) = document.into_parts();
    (writer, sink, answer.and(whole))
}

/// Returns a writer with a value more.
fn given<'w, 'a, T: Serialize, G: Given>(
    alloc: Global,
    writer: &'w mut Writer<Global>,
    nowhere: &'a mut NoSink,
    value: &T,
    settings: SerdeSettings,
) -> (&'w mut Writer<Global>, &'a mut NoSink, Result<(), Error>)
    requires { BeginsKept G.outside (form_of settings.values) writer.now writer.ghost_name }
    ensures lent { result.0.ghost_name ≡ G.outside.lent }
    ensures gives { GivesValue G.outside.form G.outside.start result.2 result.0.now }
{
    let document: Document<'w, 'a, G, NoSink> = Document::kept(writer, nowhere, settings.values);
    let (document, answer) = with_value(alloc, document, value, settings.variants);
    let (writer, nowhere, whole) = document.into_writer();
    (writer, nowhere, answer.and(whole))
}

/// Writes the last bytes to a sink.
fn finish_sink<W: Write>(sink: &mut W, rest: &[u8]) -> Result<(), Error>
    ensures written { OnOk result (Appends (W.contents sink.old) (W.contents sink.new) rest.now) }
    ensures first { OnErr result (AppendsFirst (W.contents sink.old) (W.contents sink.new) rest.now) }
{
    match write_to_sink(sink, rest) {
        Ok(()) => Ok(()),
        Err(error) => Err(Error::from(error)),
    }
}

/// Returns bytes in UTF-8 as a text.
fn text_of(bytes: Vec<u8>) -> String
    requires { IsUtf8 bytes.items }
    ensures { string_bytes result ≡ bytes.items }
{
    match String::from_utf8(bytes) {
        Ok(text) => text,
        Err(_) => unreachable!(),
    }
}
