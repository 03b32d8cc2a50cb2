//! Simple keys: nodes without a break whose names, tag and value are short.

ghost use Rattle.std.specs.Prelude.{◌≡◌, ℕ, Bool, List, ◌+◌, ◌&&◌, not, min, chars, option_map};
ghost use Rattle.std.specs.List.{list_any};
ghost use Rattle.yaml_base.specs.Characters as class;
ghost use Rattle.yaml_base.specs.Event.{CollectionStyle, TagDirective};
ghost use Rattle.yaml_base.specs.Layout as layout;
ghost use Rattle.yaml_base.specs.Layout.{is_key};
ghost use Rattle.yaml_base.specs.Event.{collection_tag, scalar_tag};
ghost use Rattle.yaml_base.specs.Tags.{spelling};
ghost use Rattle.yaml_emitter.specs.Places.{seen_place};
ghost use Rattle.yaml_emitter.specs.BorrowedTexts.{seen_name, seen_collection, seen_scalar};
ghost use Rattle.yaml_emitter.specs.SimpleAsciiScalars.{StandsPlain};
ghost use Rattle.yaml_emitter.specs.WrittenAtoms.{seen_tag, spelled_count};

use crate::effective::EffectiveSettings;
use crate::place::{Place, Role};
use crate::writing::contents::{CollectionContent, ScalarContent};
use crate::writing::spelling::SpelledTag;
use yaml_scalar::holds_break;

/// The maximum size of a simple key in bytes.
const MOST_BYTES: usize = 128;

/// Returns whether an alias at a place is a simple key.
pub(crate) fn is_simple_alias_key(settings: &EffectiveSettings, place: &Place, name: &str) -> bool
    ensures { result
        ≡ (is_key (seen_place place.now).role && (not settings.now.canonical && layout.is_simple_alias (chars name.now))) }
{
    place.role.is_key() && (!settings.canonical && byte_count(name) <= MOST_BYTES)
}

/// Returns whether a scalar at a place is a simple key, with its tag as spelled.
pub(crate) fn is_simple_scalar_key(
    settings: &EffectiveSettings,
    place: &Place,
    content: &ScalarContent,
    tag: Option<SpelledTag>,
) -> bool
    ensures { (directives : List TagDirective)
        → seen_tag tag.entry ≡ option_map (spelling directives) (scalar_tag settings.now.canonical (seen_scalar content.now))
        → result
        ≡ (is_key (seen_place place.now).role
        && (not settings.now.canonical
        && layout.is_simple_scalar settings.now.canonical directives (seen_scalar content.now))) }
{
    place.role.is_key() && (!settings.canonical && is_simple_scalar(content, tag))
}

/// Returns whether a simple ASCII scalar that is plain as it is is a simple key at a place.
pub(crate) fn is_simple_ascii_key(place: &Place, value: &str) -> bool
    ensures { (canonical : Bool) (directives : List TagDirective) (content : ScalarContent)
        → StandsPlain canonical content
        → content.value.now ≡ value.now
        → result
        ≡ (is_key (seen_place place.now).role
        && (not canonical && layout.is_simple_scalar canonical directives (seen_scalar content))) }
{
    match place.role {
        Role::Key { .. } => is_short_count(byte_count(value), 0, 0),
        _ => false,
    }
}

/// Returns whether a collection at a place, which may be empty, is a simple key, with its tag as spelled.
pub(crate) fn is_simple_collection_key(
    settings: &EffectiveSettings,
    place: &Place,
    content: &CollectionContent,
    tag: Option<SpelledTag>,
    empty: bool,
) -> bool
    ensures { (directives : List TagDirective) (style : CollectionStyle)
        → seen_tag tag.entry ≡ option_map (spelling directives) (collection_tag settings.now.canonical (seen_collection content.now style))
        → result
        ≡ (is_key (seen_place place.now).role
        && (not settings.now.canonical
        && layout.is_simple_collection settings.now.canonical directives
        (seen_collection content.now style) empty)) }
{
    place.role.is_key() && (!settings.canonical && (empty && is_short(0, content.anchor, tag)))
}

fn is_simple_scalar(content: &ScalarContent, tag: Option<SpelledTag>) -> bool
    ensures { result
        ≡ (not (list_any class.is_break (chars content.now.value.now))
        && layout.is_short (layout.byte_count (chars content.now.value.now) + layout.name_count (seen_name content.now.anchor) + spelled_count
        (seen_tag tag.entry))) }
{
    !holds_break(content.value) && is_short(byte_count(content.value), content.anchor, tag)
}

fn byte_count(text: &str) -> usize
    ensures { result ≡ layout.byte_count (chars text.now) }
{
    text.len()
}

/// Returns whether a value of `value` bytes, an anchor and a tag are short together.
fn is_short(value: usize, anchor: Option<&str>, tag: Option<SpelledTag>) -> bool
    ensures { result ≡ layout.is_short (value + layout.name_count (seen_name anchor.entry) + spelled_count (seen_tag tag.entry)) }
{
    let name = match anchor {
        Some(name) => byte_count(name),
        None => 0,
    };
    let tag = match tag {
        Some(SpelledTag::Shorthand { handle, suffix }) => {
            byte_count(handle).saturating_add(byte_count(suffix))
        }
        Some(SpelledTag::Verbatim { tag }) => byte_count(tag),
        None => 0,
    };
    is_short_count(value, name, tag)
}

/// Returns whether a value, a name and a tag of these sizes are short together; `tag` may be cut off at `usize::MAX`.
fn is_short_count(value: usize, name: usize, tag: usize) -> bool
    ensures { (whole : ℕ) → tag ≡ min whole usize.MAX → result ≡ layout.is_short (value + name + whole) }
{
    value.saturating_add(name).saturating_add(tag) <= MOST_BYTES
}
