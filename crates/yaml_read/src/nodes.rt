//! The beginnings of a document's nodes.
ghost use Rattle.std.specs.Prelude.{◌≡◌, [], IsTrue, bytes_eq, chars, nat_lt, option_map};
ghost use Rattle.std.specs.List.{list_all};
ghost use Rattle.yaml_base.specs.Event.{any_style, any_layout};
ghost use Rattle.yaml_base.specs.Seen.{seen_event, seen_text};
ghost use Rattle.yaml_base.specs.graphs.Meetings.{mapping_held, opening_event_of, scalar_held, sequence_held};
ghost use Rattle.yaml_read.specs.Beginnings.{IsOpeningRead, IsTaggedRead, NoOpening, NoTagged, ReadOr};

use crate::cuts::{after, past};
use crate::errors::{Stop, refused_whole};
use crate::names::read_name;
use crate::quoted::read_quoted;
use crate::tags::read_written_tag;
use std::alloc::Allocator;
use yaml_base::{yaml_event_t, yaml_mapping_style_t, yaml_scalar_style_t, yaml_sequence_style_t};
use yaml_dump::{YAML_MAP_TAG, YAML_SEQ_TAG, YAML_STR_TAG};

/// Returns whether a tag is this one, which is ASCII.
fn is_tag(tag: &str, wanted: &'static str) -> bool
    requires { IsTrue (list_all (λ byte. nat_lt byte 128) wanted.now) }
    ensures { result ≡ bytes_eq (chars tag.now) wanted.now }
{
    tag == wanted
}

/// Returns a scalar without a style.
fn scalar<A: Allocator>(
    anchor: Option<String<A>>,
    tag: String<A>,
    value: String<A>,
) -> yaml_event_t<A>
    ensures { seen_event result ≡ opening_event_of (option_map seen_text anchor) (seen_text tag) (scalar_held (seen_text value) any_style) }
{
    let implicit = is_tag(tag.as_str(), YAML_STR_TAG);
    yaml_event_t::YAML_SCALAR_EVENT {
        anchor,
        tag: Some(tag),
        value,
        plain_implicit: implicit,
        quoted_implicit: implicit,
        style: yaml_scalar_style_t::YAML_ANY_SCALAR_STYLE,
    }
}

/// Returns the start of a sequence without a style.
fn sequence_start<A: Allocator>(anchor: Option<String<A>>, tag: String<A>) -> yaml_event_t<A>
    ensures { seen_event result ≡ opening_event_of (option_map seen_text anchor) (seen_text tag) (sequence_held [] any_layout) }
{
    let implicit = is_tag(tag.as_str(), YAML_SEQ_TAG);
    yaml_event_t::YAML_SEQUENCE_START_EVENT {
        anchor,
        tag: Some(tag),
        implicit,
        style: yaml_sequence_style_t::YAML_ANY_SEQUENCE_STYLE,
    }
}

/// Returns the start of a mapping without a style.
fn mapping_start<A: Allocator>(anchor: Option<String<A>>, tag: String<A>) -> yaml_event_t<A>
    ensures { seen_event result ≡ opening_event_of (option_map seen_text anchor) (seen_text tag) (mapping_held [] any_layout) }
{
    let implicit = is_tag(tag.as_str(), YAML_MAP_TAG);
    yaml_event_t::YAML_MAPPING_START_EVENT {
        anchor,
        tag: Some(tag),
        implicit,
        style: yaml_mapping_style_t::YAML_ANY_MAPPING_STYLE,
    }
}

/// Returns the event with which a node begins whose anchor was read, from its tag on, and what follows. A tag that can't be read is
/// refused as a whole.
fn read_tagged<'a, A: Allocator + Copy>(
    alloc: A,
    anchor: Option<String<A>>,
    text: &'a str,
) -> Result<(yaml_event_t<A>, &'a str), Stop>
    ensures { ReadOr (λ found. IsTaggedRead (option_map seen_text anchor) text.now (seen_event found.0) found.1.now) (NoTagged text.now) result }
{
    match read_written_tag(alloc, text) {
        Ok((tag, behind)) => {
            match past(behind, "[") {
                Some(rest) => return Ok((sequence_start(anchor, tag), rest)),
                None => {}
            }
            match past(behind, "{") {
                Some(rest) => return Ok((mapping_start(anchor, tag), rest)),
                None => {}
            }
            match read_quoted(alloc, behind) {
                Ok((value, rest)) => Ok((scalar(anchor, tag, value), rest)),
                Err(stop) => {
                    drop(tag);
                    drop(anchor);
                    Err(stop)
                }
            }
        }
        Err(reason) => {
            drop(anchor);
            Err(refused_whole(reason, text))
        }
    }
}

/// Returns the event with which a node begins, and what follows: an alias and a scalar are read as a whole, a sequence and a
/// mapping up to their opening bracket.
pub(crate) fn read_opening<A: Allocator + Copy>(
    alloc: A,
    text: &str,
) -> Result<(yaml_event_t<A>, &str), Stop>
    ensures { ReadOr (λ found. IsOpeningRead text.now (seen_event found.0) found.1.now) (NoOpening text.now) result }
{
    match past(text, "*") {
        Some(inside) => {
            return match read_name(alloc, inside) {
                Ok((name, rest)) => Ok((yaml_event_t::YAML_ALIAS_EVENT { anchor: name }, rest)),
                Err(stop) => Err(stop),
            };
        }
        None => {}
    }
    match past(text, "&") {
        Some(inside) => match read_name(alloc, inside) {
            Ok((name, behind)) => match after(behind, " ") {
                Ok(rest) => read_tagged(alloc, Some(name), rest),
                Err(stop) => Err(stop),
            },
            Err(stop) => Err(stop),
        },
        None => read_tagged(alloc, None, text),
    }
}
