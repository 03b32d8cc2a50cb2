//! Events that keep their nodes' tags, whichever schema reads the output.
ghost use Rattle.std.specs.Prelude.{◌≡◌, Some, option_map, true};
ghost use Rattle.yaml_base.specs.Event.{scalar};
ghost use Rattle.yaml_base.specs.Seen.{seen_event, seen_scalar_style, seen_text};
ghost use Rattle.yaml_emitter.specs.BorrowedTexts.{seen_scalar};
ghost use Rattle.yaml_writer.specs.TypedEvents as typed;

use crate::plain_tags::{implies_tag, is_string_tag};
use std::alloc::Allocator;
use yaml_base::{YAML_PLAIN_SCALAR_STYLE, yaml_event_t, yaml_scalar_style_t};
use yaml_emitter::ScalarContent;

/// Returns a scalar with a tag, and the flags and the style that keep the tag.
fn typed_scalar<A: Allocator>(
    anchor: Option<String<A>>,
    tag: String<A>,
    value: String<A>,
    style: yaml_scalar_style_t,
) -> yaml_event_t<A>
    ensures { seen_event result
        ≡ scalar (typed.typed_as (seen_text tag) (record {
          anchor = option_map seen_text anchor;
          tag = Some (seen_text tag);
          value = seen_text value;
          plain_implicit = true;
          quoted_implicit = true;
          style = seen_scalar_style style;
        })) }
{
    let is_text = is_string_tag(tag.as_str());
    let is_implied = implies_tag(value.as_str(), tag.as_str());
    yaml_event_t::YAML_SCALAR_EVENT {
        anchor,
        tag: Some(tag),
        value,
        plain_implicit: is_implied,
        quoted_implicit: is_text,
        style: if is_implied && !is_text {
            YAML_PLAIN_SCALAR_STYLE
        } else {
            style
        },
    }
}

/// Returns an event with the flags that keep its scalar's tag: the scalar has that tag by the type repository of YAML 1.1 and by the
/// core schema of YAML 1.2. A text (`!!str`) is written without its tag: it may be plain if it is surely a text (`is_surely_text`), else
/// it is in quotes. A scalar of another type is plain without its tag if `plain_tag` has that tag, else its tag is written. Flags that
/// were set before are dropped. A scalar without a tag, and any other event, is returned as it is.
pub fn typed_event<A: Allocator>(event: yaml_event_t<A>) -> yaml_event_t<A>
    ensures { seen_event result ≡ typed.typed_event (seen_event event) }
{
    match event {
        yaml_event_t::YAML_SCALAR_EVENT {
            anchor,
            tag,
            value,
            plain_implicit,
            quoted_implicit,
            style,
        } => match tag {
            Some(tag) => typed_scalar(anchor, tag, value, style),
            None => yaml_event_t::YAML_SCALAR_EVENT {
                anchor,
                tag: None,
                value,
                plain_implicit,
                quoted_implicit,
                style,
            },
        },
        other => other,
    }
}

/// Returns a scalar whose texts are borrowed as `typed_event` does its event.
pub fn typed_content(content: ScalarContent<'_>) -> ScalarContent<'_>
    ensures { seen_scalar result ≡ typed.typed_scalar (seen_scalar content.entry) }
{
    let Some(tag) = content.tag else {
        return content;
    };
    let is_text = is_string_tag(tag);
    let is_implied = implies_tag(content.value, tag);
    ScalarContent {
        anchor: content.anchor,
        tag: content.tag,
        value: content.value,
        plain_implicit: is_implied,
        quoted_implicit: is_text,
        style: if is_implied && !is_text {
            YAML_PLAIN_SCALAR_STYLE
        } else {
            content.style
        },
    }
}
