//! The events of a script's lines.
ghost use Rattle.std.specs.Prelude.{◌≡◌, Some, option_map, option_and_then, IfOk};
ghost use Rattle.yaml_base.specs.scripts.Script as notation;
ghost use Rattle.yaml_base.specs.Seen.{seen_event, seen_text, seen_scalar_style};
ghost use Rattle.yaml_tool.specs.Events.{event_by, scalar_from, start_of, seen_collection_style};
ghost use Rattle.yaml_tool.specs.Fields.{later_fields};

use crate::directives::{directives_of, version_or_none};
use crate::fields::{choice_after, is_end, last_word, text_after, word_after};
use crate::words::{
    CollectionStyle, EventName, collection_style_named, encoding_named, flag_named,
    scalar_style_named,
};
use std::alloc::{AllocError, Allocator};
use yaml_base::{yaml_event_t, yaml_mapping_style_t, yaml_scalar_style_t, yaml_sequence_style_t};
use yaml_emitter::CollectionKind;

/// Parses the fields of `+STR`: an encoding.
fn stream_start_of<A: Allocator>(rest: Option<&str>) -> Option<yaml_event_t<A>>
    ensures { option_map seen_event result ≡ option_and_then notation.stream_start_of (later_fields rest.entry) }
{
    let encoding = encoding_named(last_word(rest)?)?;
    Some(yaml_event_t::YAML_STREAM_START_EVENT { encoding })
}

/// Parses the fields of `+DOC`: whether it is implicit, a version, directives.
fn document_start_of<A: Allocator + Copy>(
    alloc: A,
    rest: Option<&str>,
) -> Result<Option<yaml_event_t<A>>, AllocError>
    ensures { IfOk result (λ event. option_map seen_event event ≡ option_and_then notation.document_start_of (later_fields rest.entry)) }
{
    let Some((implicit, rest)) = word_after(rest) else {
        return Ok(None);
    };
    let Some((version, rest)) = word_after(rest) else {
        return Ok(None);
    };
    let (Some(implicit), Some(version_directive), Some(tag_directives)) = (
        flag_named(implicit),
        version_or_none(version),
        directives_of(alloc, rest)?,
    ) else {
        return Ok(None);
    };
    Ok(Some(yaml_event_t::YAML_DOCUMENT_START_EVENT {
        implicit,
        version_directive,
        tag_directives,
    }))
}

/// Parses the field of `-DOC`: whether it is implicit.
fn document_end_of<A: Allocator>(rest: Option<&str>) -> Option<yaml_event_t<A>>
    ensures { option_map seen_event result ≡ option_and_then notation.document_end_of (later_fields rest.entry) }
{
    let implicit = flag_named(last_word(rest)?)?;
    Some(yaml_event_t::YAML_DOCUMENT_END_EVENT { implicit })
}

/// Parses the field of `=ALI`: a name.
fn alias_of<A: Allocator>(
    alloc: A,
    rest: Option<&str>,
) -> Result<Option<yaml_event_t<A>>, AllocError>
    ensures { IfOk result (λ event. option_map seen_event event ≡ option_and_then notation.alias_of (later_fields rest.entry)) }
{
    let Some((anchor, rest)) = text_after(alloc, rest)? else {
        return Ok(None);
    };
    if !is_end(rest) {
        return Ok(None);
    }
    Ok(Some(yaml_event_t::YAML_ALIAS_EVENT { anchor }))
}

/// The style and the flags of a scalar, each `None` if it has no meaning.
#[derive(Clone, Copy)]
struct ScalarWords {
    style: Option<yaml_scalar_style_t>,
    plain_implicit: Option<bool>,
    quoted_implicit: Option<bool>,
}

/// The fields of a scalar.
#[derive(Drop)]
struct ScalarFields<A: Allocator> {
    words: ScalarWords,
    anchor: Option<String<A>>,
    tag: Option<String<A>>,
    value: String<A>,
}

/// Returns a scalar; `None` if its style or a flag has no meaning.
// A call hands its event over in memory, and most lines give scalars.
#[inline(always)]
fn scalar_with<A: Allocator>(fields: ScalarFields<A>) -> Option<yaml_event_t<A>>
    ensures { option_map seen_event result
        ≡ notation.scalar_with (option_map seen_scalar_style fields.words.style) fields.words.plain_implicit fields.words.quoted_implicit
        (Some (option_map seen_text fields.anchor)) (Some (option_map seen_text fields.tag)) (seen_text fields.value) }
{
    let ScalarWords {
        style: Some(style),
        plain_implicit: Some(plain_implicit),
        quoted_implicit: Some(quoted_implicit),
    } = fields.words
    else {
        return None;
    };
    Some(yaml_event_t::YAML_SCALAR_EVENT {
        style,
        plain_implicit,
        quoted_implicit,
        anchor: fields.anchor,
        tag: fields.tag,
        value: fields.value,
    })
}

/// Parses the fields after a scalar's words: an anchor, a tag, a value.
fn scalar_from<A: Allocator + Copy>(
    alloc: A,
    words: ScalarWords,
    rest: Option<&str>,
) -> Result<Option<yaml_event_t<A>>, AllocError>
    ensures { IfOk result (λ event. option_map seen_event event
        ≡ option_and_then (scalar_from (option_map seen_scalar_style words.style) words.plain_implicit words.quoted_implicit) (later_fields rest.entry)) }
{
    let Some((anchor, rest)) = choice_after(alloc, rest)? else {
        return Ok(None);
    };
    let Some((tag, rest)) = choice_after(alloc, rest)? else {
        return Ok(None);
    };
    let Some((value, rest)) = text_after(alloc, rest)? else {
        return Ok(None);
    };
    if !is_end(rest) {
        return Ok(None);
    }
    Ok(scalar_with(ScalarFields {
        words,
        anchor,
        tag,
        value,
    }))
}

/// Parses the fields of `=VAL`: a style, the plain and the quoted flag, an anchor, a tag, a value.
#[inline(never)]
fn scalar_of<A: Allocator + Copy>(
    alloc: A,
    rest: Option<&str>,
) -> Result<Option<yaml_event_t<A>>, AllocError>
    ensures { IfOk result (λ event. option_map seen_event event ≡ option_and_then notation.scalar_of (later_fields rest.entry)) }
{
    let Some((style, rest)) = word_after(rest) else {
        return Ok(None);
    };
    let Some((plain_implicit, rest)) = word_after(rest) else {
        return Ok(None);
    };
    let Some((quoted_implicit, rest)) = word_after(rest) else {
        return Ok(None);
    };
    let words = ScalarWords {
        style: scalar_style_named(style),
        plain_implicit: flag_named(plain_implicit),
        quoted_implicit: flag_named(quoted_implicit),
    };
    scalar_from(alloc, words, rest)
}

/// The fields of a collection's start; its style and its flag are `None` if they have no meaning.
#[derive(Drop)]
struct CollectionFields<A: Allocator> {
    style: Option<CollectionStyle>,
    implicit: Option<bool>,
    anchor: Option<String<A>>,
    tag: Option<String<A>>,
}

/// Returns a collection's start; `None` if its style or its flag has no meaning.
fn collection_with<A: Allocator>(
    kind: CollectionKind,
    fields: CollectionFields<A>,
) -> Option<yaml_event_t<A>>
    ensures { option_map seen_event result
        ≡ option_map (start_of kind) (notation.collection_with (option_map seen_collection_style fields.style) fields.implicit
        (Some (option_map seen_text fields.anchor)) (Some (option_map seen_text fields.tag))) }
{
    let (Some(style), Some(implicit)) = (fields.style, fields.implicit) else {
        return None;
    };
    let anchor = fields.anchor;
    let tag = fields.tag;
    Some(match kind {
        CollectionKind::Sequence => yaml_event_t::YAML_SEQUENCE_START_EVENT {
            style: match style {
                CollectionStyle::Any => yaml_sequence_style_t::YAML_ANY_SEQUENCE_STYLE,
                CollectionStyle::Block => yaml_sequence_style_t::YAML_BLOCK_SEQUENCE_STYLE,
                CollectionStyle::Flow => yaml_sequence_style_t::YAML_FLOW_SEQUENCE_STYLE,
            },
            implicit,
            anchor,
            tag,
        },
        CollectionKind::Mapping => yaml_event_t::YAML_MAPPING_START_EVENT {
            style: match style {
                CollectionStyle::Any => yaml_mapping_style_t::YAML_ANY_MAPPING_STYLE,
                CollectionStyle::Block => yaml_mapping_style_t::YAML_BLOCK_MAPPING_STYLE,
                CollectionStyle::Flow => yaml_mapping_style_t::YAML_FLOW_MAPPING_STYLE,
            },
            implicit,
            anchor,
            tag,
        },
    })
}

/// Parses the fields of `+SEQ` and `+MAP`: a style, whether it is implicit, an anchor, a tag.
fn collection_start_of<A: Allocator + Copy>(
    alloc: A,
    kind: CollectionKind,
    rest: Option<&str>,
) -> Result<Option<yaml_event_t<A>>, AllocError>
    ensures { IfOk result (λ event. option_map seen_event event
        ≡ option_map (start_of kind) (option_and_then notation.collection_of (later_fields rest.entry))) }
{
    let Some((style, rest)) = word_after(rest) else {
        return Ok(None);
    };
    let Some((implicit, rest)) = word_after(rest) else {
        return Ok(None);
    };
    let Some((anchor, rest)) = choice_after(alloc, rest)? else {
        return Ok(None);
    };
    let Some((tag, rest)) = choice_after(alloc, rest)? else {
        return Ok(None);
    };
    if !is_end(rest) {
        return Ok(None);
    }
    Ok(collection_with(
        kind,
        CollectionFields {
            style: collection_style_named(style),
            implicit: flag_named(implicit),
            anchor,
            tag,
        },
    ))
}

/// Parses the fields of an event; `None` if they are not its fields.
///
/// # Errors
///
/// `AllocError` if an allocation fails.
pub fn event_of<A: Allocator + Copy>(
    alloc: A,
    name: EventName,
    rest: Option<&str>,
) -> Result<Option<yaml_event_t<A>>, AllocError>
    ensures { IfOk result (λ event. option_map seen_event event ≡ event_by name (later_fields rest.entry)) }
{
    match name {
        EventName::StreamStart => Ok(stream_start_of(rest)),
        EventName::StreamEnd if is_end(rest) => Ok(Some(yaml_event_t::YAML_STREAM_END_EVENT)),
        EventName::DocumentStart => document_start_of(alloc, rest),
        EventName::DocumentEnd => Ok(document_end_of(rest)),
        EventName::Alias => alias_of(alloc, rest),
        EventName::Scalar => scalar_of(alloc, rest),
        EventName::SequenceStart => collection_start_of(alloc, CollectionKind::Sequence, rest),
        EventName::SequenceEnd if is_end(rest) => Ok(Some(yaml_event_t::YAML_SEQUENCE_END_EVENT)),
        EventName::MappingStart => collection_start_of(alloc, CollectionKind::Mapping, rest),
        EventName::MappingEnd if is_end(rest) => Ok(Some(yaml_event_t::YAML_MAPPING_END_EVENT)),
        EventName::StreamEnd | EventName::SequenceEnd | EventName::MappingEnd => Ok(None),
    }
}
