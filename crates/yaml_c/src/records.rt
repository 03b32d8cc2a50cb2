//! Events as a C program gives them: numbers, and spans of one arena of texts.
ghost use Rattle.std.specs.Prelude.{◌≡◌, Bool, IfErr, IfOk, Some, false, map, option_map};
ghost use Rattle.yaml_base.specs.Event.{CollectionStyle, mapping_start, sequence_start};
ghost use Rattle.yaml_base.specs.Seen.{seen_directive, seen_text, seen_version};
ghost use Rattle.yaml_emitter.specs.BorrowedTexts.{seen_scalar};
ghost use Rattle.yaml_c.specs.Arena as texts;
ghost use Rattle.yaml_c.specs.EventRecords as meaning;
ghost use Rattle.yaml_c.specs.Giving.{given_event, is_read_scalar};

use crate::arena::{
    Span, borrowed_text, optional_borrowed_text, optional_text, owned_text, part_of,
};
use crate::styles::{encoding, mapping_style, scalar_style, sequence_style};
use std::alloc::{AllocError, Allocator};
use yaml_base::{yaml_event_t, yaml_tag_directive_t, yaml_version_directive_t};
use yaml_emitter::ScalarContent;
use yaml_writer::typed_content;

/// A `%TAG` directive: a handle, and the prefix that it abbreviates.
#[repr(C)]
#[derive(Clone, Copy)]
pub struct DirectiveRecord {
    pub handle: Span,
    pub prefix: Span,
}

/// An event. Its kind says which fields are read: see the header.
#[repr(C)]
#[derive(Clone, Copy)]
pub struct EventRecord {
    pub kind: u32,
    pub style: u32,
    pub implicit: u32,
    pub quoted_implicit: u32,
    pub has_anchor: u32,
    pub has_tag: u32,
    pub has_version: u32,
    pub major: i32,
    pub minor: i32,
    pub typed: u32,
    pub anchor: Span,
    pub tag: Span,
    pub value: Span,
    pub directives: Span,
}

/// An event as an emitter is given it.
#[derive(Drop)]
pub(crate) enum GivenEvent<'a, A: Allocator> {
    /// Its texts are copies.
    Owned(yaml_event_t<A>),
    /// A scalar, whose texts are borrowed from the arena.
    Scalar(ScalarContent<'a>),
}

/// The event of a record, or `None` if it has no reading; an error if memory ran out.
type EventOrNone<'a, A> = Result<Option<GivenEvent<'a, A>>, AllocError>;

fn directive_of<A: Allocator + Copy>(
    alloc: A,
    arena: &[u8],
    directive: &DirectiveRecord,
) -> Result<Option<yaml_tag_directive_t<A>>, AllocError>
    ensures { IfOk result (λ made. option_map seen_directive made ≡ meaning.directive_recorded arena.now directive.now) }
{
    let Some(handle) = owned_text(alloc, arena, &directive.handle)? else {
        return Ok(None);
    };
    let Some(prefix) = owned_text(alloc, arena, &directive.prefix)? else {
        return Ok(None);
    };
    Ok(Some(yaml_tag_directive_t { handle, prefix }))
}

fn directives_of<A: Allocator + Copy>(
    alloc: A,
    arena: &[u8],
    directives: &[DirectiveRecord],
) -> Result<Option<Vec<yaml_tag_directive_t<A>, A>>, AllocError>
    ensures { IfOk result (λ made. option_map (λ all. map seen_directive all.items) made ≡ meaning.directives_recorded arena.now directives.now) }
{
    let mut all = Vec::new(alloc);
    for directive in directives {
        match directive_of(alloc, arena, directive) {
            Ok(Some(directive)) => all.push(directive)?,
            Ok(None) => return Ok(None),
            Err(error) => return Err(error),
        }
    }
    Ok(Some(all))
}

fn directives_at<A: Allocator + Copy>(
    alloc: A,
    arena: &[u8],
    directives: &[DirectiveRecord],
    span: &Span,
) -> Result<Option<Vec<yaml_tag_directive_t<A>, A>>, AllocError>
    ensures { IfOk result (λ made. option_map (λ all. map seen_directive all.items) made ≡ meaning.directives_at arena.now directives.now span.now) }
{
    match part_of(directives, span) {
        Some(part) => directives_of(alloc, arena, part),
        None => Ok(None),
    }
}

fn version_of(event: &EventRecord) -> Option<yaml_version_directive_t>
    ensures { option_map seen_version result ≡ meaning.version_recorded event.now }
{
    if event.has_version == 0 {
        return None;
    }
    Some(yaml_version_directive_t {
        major: event.major,
        minor: event.minor,
    })
}

fn stream_start_of<'a, A: Allocator>(event: &EventRecord) -> Option<GivenEvent<'a, A>>
    ensures { option_map given_event result ≡ meaning.stream_start_recorded event.now }
{
    let encoding = encoding(event.style)?;
    Some(GivenEvent::Owned(yaml_event_t::YAML_STREAM_START_EVENT { encoding }))
}

fn document_start_of<'a, A: Allocator + Copy>(
    alloc: A,
    arena: &[u8],
    directives: &[DirectiveRecord],
    event: &EventRecord,
) -> EventOrNone<'a, A>
    ensures { IfOk result (λ made. option_map given_event made ≡ meaning.document_start_recorded arena.now directives.now event.now) }
{
    match directives_at(alloc, arena, directives, &event.directives) {
        Ok(Some(tag_directives)) => Ok(Some(GivenEvent::Owned(
            yaml_event_t::YAML_DOCUMENT_START_EVENT {
                version_directive: version_of(event),
                tag_directives,
                implicit: event.implicit != 0,
            },
        ))),
        Ok(None) => Ok(None),
        Err(error) => Err(error),
    }
}

fn alias_of<'a, A: Allocator>(alloc: A, arena: &[u8], event: &EventRecord) -> EventOrNone<'a, A>
    ensures { IfOk result (λ made. option_map given_event made ≡ meaning.alias_recorded arena.now event.now) }
{
    match owned_text(alloc, arena, &event.anchor) {
        Ok(Some(anchor)) => Ok(Some(GivenEvent::Owned(yaml_event_t::YAML_ALIAS_EVENT { anchor }))),
        Ok(None) => Ok(None),
        Err(error) => Err(error),
    }
}

/// Returns a scalar with the flags that keep its tag if `typed` is on, and unchanged if it isn't.
fn typed_where(typed: u32, content: ScalarContent<'_>) -> ScalarContent<'_>
    ensures { seen_scalar result ≡ meaning.typed_where (texts.is_on typed) (seen_scalar content.entry) }
{
    if typed != 0 {
        typed_content(content)
    } else {
        content
    }
}

/// Returns a scalar whose texts are borrowed from the arena.
fn scalar_of<'a, A: Allocator>(arena: &'a [u8], event: &EventRecord) -> Option<GivenEvent<'a, A>>
    ensures { option_map given_event result ≡ meaning.scalar_recorded arena.now event.now }
{
    let Some(style) = scalar_style(event.style) else {
        return None;
    };
    let Some(anchor) = optional_borrowed_text(arena, event.has_anchor, &event.anchor) else {
        return None;
    };
    let Some(tag) = optional_borrowed_text(arena, event.has_tag, &event.tag) else {
        return None;
    };
    let Some(value) = borrowed_text(arena, &event.value) else {
        return None;
    };
    let content = ScalarContent {
        anchor,
        tag,
        value,
        plain_implicit: event.implicit != 0,
        quoted_implicit: event.quoted_implicit != 0,
        style,
    };
    Some(GivenEvent::Scalar(typed_where(event.typed, content)))
}

/// Returns the anchor and the tag of a collection, or `None` if one of them has no reading.
fn names_of<A: Allocator + Copy>(
    alloc: A,
    arena: &[u8],
    event: &EventRecord,
) -> Result<Option<(Option<String<A>>, Option<String<A>>)>, AllocError>
    ensures { IfOk result (λ found. (style : CollectionStyle) → (implicit : Bool) →
        option_map (λ names. record { anchor = option_map seen_text names.0; tag = option_map seen_text names.1; implicit = implicit; style = style }) found
        ≡ meaning.collection_from (Some style) implicit (texts.optional_text_at arena.now event.now.has_anchor event.now.anchor)
        (texts.optional_text_at arena.now event.now.has_tag event.now.tag)) }
{
    let Some(anchor) = optional_text(alloc, arena, event.has_anchor, &event.anchor)? else {
        return Ok(None);
    };
    let Some(tag) = optional_text(alloc, arena, event.has_tag, &event.tag)? else {
        return Ok(None);
    };
    Ok(Some((anchor, tag)))
}

fn sequence_of<'a, A: Allocator + Copy>(
    alloc: A,
    arena: &[u8],
    event: &EventRecord,
) -> EventOrNone<'a, A>
    ensures { IfOk result (λ made. option_map given_event made ≡ option_map sequence_start (meaning.collection_recorded arena.now event.now)) }
{
    let Some(style) = sequence_style(event.style) else {
        return Ok(None);
    };
    match names_of(alloc, arena, event) {
        Ok(Some((anchor, tag))) => Ok(Some(GivenEvent::Owned(
            yaml_event_t::YAML_SEQUENCE_START_EVENT {
                anchor,
                tag,
                implicit: event.implicit != 0,
                style,
            },
        ))),
        Ok(None) => Ok(None),
        Err(error) => Err(error),
    }
}

fn mapping_of<'a, A: Allocator + Copy>(
    alloc: A,
    arena: &[u8],
    event: &EventRecord,
) -> EventOrNone<'a, A>
    ensures { IfOk result (λ made. option_map given_event made ≡ option_map mapping_start (meaning.collection_recorded arena.now event.now)) }
{
    let Some(style) = mapping_style(event.style) else {
        return Ok(None);
    };
    match names_of(alloc, arena, event) {
        Ok(Some((anchor, tag))) => Ok(Some(GivenEvent::Owned(
            yaml_event_t::YAML_MAPPING_START_EVENT {
                anchor,
                tag,
                implicit: event.implicit != 0,
                style,
            },
        ))),
        Ok(None) => Ok(None),
        Err(error) => Err(error),
    }
}

/// Returns the event of a record, or `None` if its kind, its style or one of its texts has no reading.
pub(crate) fn event_of<'a, A: Allocator + Copy>(
    alloc: A,
    arena: &'a [u8],
    directives: &[DirectiveRecord],
    event: &EventRecord,
) -> Result<Option<GivenEvent<'a, A>>, AllocError>
    ensures read { IfOk result (λ made. option_map given_event made ≡ meaning.event_recorded arena.now directives.now event.now) }
    ensures no_room { IfErr result (λ error. is_read_scalar (meaning.event_recorded arena.now directives.now event.now) ≡ false) }
{
    match event.kind {
        1 => Ok(stream_start_of(event)),
        2 => Ok(Some(GivenEvent::Owned(yaml_event_t::YAML_STREAM_END_EVENT))),
        3 => document_start_of(alloc, arena, directives, event),
        4 => Ok(Some(GivenEvent::Owned(yaml_event_t::YAML_DOCUMENT_END_EVENT {
            implicit: event.implicit != 0,
        }))),
        5 => alias_of(alloc, arena, event),
        6 => Ok(scalar_of(arena, event)),
        7 => sequence_of(alloc, arena, event),
        8 => Ok(Some(GivenEvent::Owned(yaml_event_t::YAML_SEQUENCE_END_EVENT))),
        9 => mapping_of(alloc, arena, event),
        10 => Ok(Some(GivenEvent::Owned(yaml_event_t::YAML_MAPPING_END_EVENT))),
        _ => Ok(None),
    }
}
