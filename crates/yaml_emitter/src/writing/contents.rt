//! The contents of events, borrowed.

ghost use Rattle.std.specs.Prelude.{◌≡◌, ◌||◌, ◌&&◌, not, option_map};
ghost use Rattle.yaml_base.specs.Event.{CollectionStyle};
ghost use Rattle.yaml_base.specs.Event.{scalar_tag, collection_tag};
ghost use Rattle.yaml_base.specs.Seen.{seen_text};
ghost use Rattle.yaml_emitter.specs.BorrowedTexts.{seen_name, seen_collection, seen_scalar};

use std::alloc::Allocator;
use yaml_base::yaml_scalar_style_t;

/// The contents of a scalar's event, its texts borrowed.
#[derive(Clone, Copy)]
pub struct ScalarContent<'a> {
    /// Its name.
    pub anchor: Option<&'a str>,
    /// Its tag.
    pub tag: Option<&'a str>,
    /// Its text.
    pub value: &'a str,
    /// The tag may be left out if the scalar is plain.
    pub plain_implicit: bool,
    /// The tag may be left out in any other style.
    pub quoted_implicit: bool,
    /// The style asked for.
    pub style: yaml_scalar_style_t,
}

/// The contents of a collection's start, but for its style.
#[derive(Clone, Copy)]
pub(crate) struct CollectionContent<'a> {
    pub anchor: Option<&'a str>,
    pub tag: Option<&'a str>,
    pub implicit: bool,
}

/// Returns whether a scalar's tag is written: in canonical mode, or if no flag lets it be left out.
pub(crate) fn writes_scalar_tag(
    canonical: bool,
    plain_implicit: bool,
    quoted_implicit: bool,
) -> bool
    ensures { result ≡ (canonical || (not plain_implicit && not quoted_implicit)) }
{
    canonical || (!plain_implicit && !quoted_implicit)
}

/// Returns whether a collection's tag is written: in canonical mode, or if its flag doesn't let it be left out.
pub(crate) fn writes_collection_tag(canonical: bool, implicit: bool) -> bool
    ensures { result ≡ (canonical || not implicit) }
{
    canonical || !implicit
}

/// Returns the tag that a scalar is written with, if there is one.
pub(crate) fn written_scalar_tag<'a>(
    content: &ScalarContent<'a>,
    canonical: bool,
) -> Option<&'a str>
    ensures { seen_name result ≡ scalar_tag canonical (seen_scalar content.now) }
{
    if writes_scalar_tag(canonical, content.plain_implicit, content.quoted_implicit) {
        content.tag
    } else {
        None
    }
}

/// Returns the tag that a collection is written with, if there is one.
pub(crate) fn written_collection_tag<'a>(
    content: &CollectionContent<'a>,
    canonical: bool,
) -> Option<&'a str>
    ensures { (style : CollectionStyle) → seen_name result ≡ collection_tag canonical (seen_collection content.now style) }
{
    if writes_collection_tag(canonical, content.implicit) {
        content.tag
    } else {
        None
    }
}

/// Borrows a text, if there is one.
pub fn borrowed_text<A: Allocator>(text: &Option<String<A>>) -> Option<&str>
    ensures { seen_name result ≡ option_map seen_text text.now }
{
    match text {
        Some(text) => Some(text.as_str()),
        None => None,
    }
}
