//! A caller in portable mode: it writes a mapping of one text to another, and proves that both are read of the bytes.
ghost use Rattle.std.specs.Prelude.{◌≡◌, IfOk, IfErr, None, OnOk, map, true, false, []};
ghost use Rattle.yaml_base.specs.Seen.{seen_event, seen_text};
ghost use Rattle.yaml_base.specs.streams.StreamContent.{agrees};
ghost use Rattle.yaml_base.specs.streams.StreamReader.{stream_trees};
ghost use Rattle.yaml_caller.specs.Pair.{FailsPair, pair_events, portable_settings, text_scalar};

use std::alloc::{AllocError, Allocator};
use yaml_base::{
    YAML_ANY_ENCODING, YAML_ANY_SCALAR_STYLE, YAML_BLOCK_MAPPING_STYLE, YAML_DOCUMENT_END_EVENT,
    YAML_DOCUMENT_START_EVENT, YAML_MAPPING_END_EVENT, YAML_MAPPING_START_EVENT, YAML_SCALAR_EVENT,
    YAML_STREAM_END_EVENT, YAML_STREAM_START_EVENT, yaml_error_t, yaml_event_t,
};
use yaml_dump::emit_each;
use yaml_emitter::{
    yaml_emitter_initialize, yaml_emitter_set_output_string, yaml_emitter_set_portable,
    yaml_emitter_t, yaml_emitter_take_output,
};

/// Returns the bytes of a stream of one document, a block mapping of the key to the value, whatever these texts are:
/// the reader of whole streams finds documents in them that agree with the events.
///
/// # Errors
/// `Memory` if an allocation fails, and `WriteError` if there would be more than 1,000,000 bytes; no other error occurs.
pub fn write_pair<A: Allocator + Copy>(
    alloc: A,
    key: String<A>,
    value: String<A>,
) -> Result<Vec<u8, A>, yaml_error_t>
    ensures reads { IfOk result (λ bytes. agrees false (pair_events (seen_text key) (seen_text value)) (stream_trees false bytes.items) ≡ true) }
    ensures failed { IfErr result (λ error. FailsPair (seen_text key) (seen_text value) error) }
{
    let Ok(mut emitter) = portable_emitter(alloc) else {
        return Err(yaml_error_t::Memory);
    };
    emit_pair(alloc, &mut emitter, key, value)?;
    Ok(yaml_emitter_take_output(&mut emitter))
}

/// Makes an emitter in portable mode.
fn portable_emitter<A: Allocator + Copy>(alloc: A) -> Result<yaml_emitter_t<A>, yaml_error_t>
    ensures made { IfOk result (λ emitter. (emitter.events ≡ []) × (emitter.given ≡ portable_settings)) }
    ensures output { IfOk result (λ emitter. emitter.has_output ≡ true) }
    ensures untaken { IfOk result (λ emitter. emitter.page.taken ≡ 0) }
    ensures no_error { IfOk result (λ emitter. emitter.error ≡ None) }
{
    let Ok(mut emitter) = yaml_emitter_initialize(alloc) else {
        return Err(yaml_error_t::Memory);
    };
    yaml_emitter_set_output_string(&mut emitter, 1_000_000);
    yaml_emitter_set_portable(&mut emitter, true);
    Ok(emitter)
}

/// Emits the stream's eight events.
fn emit_pair<A: Allocator + Copy>(
    alloc: A,
    emitter: &mut yaml_emitter_t<A>,
    key: String<A>,
    value: String<A>,
) -> Result<(), yaml_error_t>
    requires made { (emitter.old.events ≡ []) × (emitter.old.given ≡ portable_settings) }
    requires output { emitter.old.has_output ≡ true }
    requires no_error { emitter.old.error ≡ None }
    ensures taken { emitter.new.page.taken ≡ emitter.old.page.taken }
    ensures reads { OnOk result (agrees false (pair_events (seen_text key) (seen_text value)) (stream_trees false emitter.new.page.output) ≡ true) }
    ensures failed { IfErr result (λ error. FailsPair (seen_text key) (seen_text value) error) }
{
    match events_of_pair(alloc, key, value) {
        Ok(events) => {
            let answer = emit_each(emitter, events);
            // A law: the consequences of the events.
            emitter.promised();
            answer
        }
        Err(_) => Err(yaml_error_t::Memory),
    }
}

fn events_of_pair<A: Allocator + Copy>(
    alloc: A,
    key: String<A>,
    value: String<A>,
) -> Result<Vec<yaml_event_t<A>, A>, AllocError>
    ensures { IfOk result (λ events. map seen_event events.items ≡ pair_events (seen_text key) (seen_text value)) }
{
    let mut events = Vec::new(alloc);
    events.push(YAML_STREAM_START_EVENT {
        encoding: YAML_ANY_ENCODING,
    })?;
    events.push(YAML_DOCUMENT_START_EVENT {
        version_directive: None,
        tag_directives: Vec::new(alloc),
        implicit: true,
    })?;
    events.push(YAML_MAPPING_START_EVENT {
        anchor: None,
        tag: None,
        implicit: true,
        style: YAML_BLOCK_MAPPING_STYLE,
    })?;
    events.push(text_event(key))?;
    events.push(text_event(value))?;
    events.push(YAML_MAPPING_END_EVENT)?;
    events.push(YAML_DOCUMENT_END_EVENT { implicit: true })?;
    events.push(YAML_STREAM_END_EVENT)?;
    Ok(events)
}

/// Returns a text without a tag, in the style that fits.
fn text_event<A: Allocator>(value: String<A>) -> yaml_event_t<A>
    ensures { seen_event result ≡ text_scalar (seen_text value) }
{
    YAML_SCALAR_EVENT {
        anchor: None,
        tag: None,
        value,
        plain_implicit: true,
        quoted_implicit: true,
        style: YAML_ANY_SCALAR_STYLE,
    }
}
