//! Checks of an event's own content: names, tags, flags, directives.

ghost use Rattle.std.specs.Prelude.{◌≡◌, Bool, None, chars, if◌then◌else◌};
ghost use Rattle.yaml_base.specs.Errors.{refused};
ghost use Rattle.yaml_base.specs.Event.{CollectionStyle, scalar};
ghost use Rattle.yaml_base.specs.Refusal.{name_or_tag_fault, properties_fault};
ghost use Rattle.yaml_base.specs.Tags.{tag_fault};
ghost use Rattle.yaml_emitter.specs.BorrowedTexts.{seen_collection, seen_name, seen_scalar};
ghost use Rattle.yaml_emitter.specs.NodeEvents.{start_of_kind};

use crate::writing::{CollectionContent, ScalarContent, writes_collection_tag, writes_scalar_tag};
use yaml_base::yaml_error_t;
use yaml_mark::analyze_anchor;

/// Refuses a faulty anchor of a scalar, and an empty tag if the tag is written.
pub(crate) fn check_scalar_names(
    canonical: bool,
    content: &ScalarContent,
) -> Result<(), yaml_error_t>
    ensures { refused result ≡ name_or_tag_fault canonical (scalar (seen_scalar content.now)) }
{
    let written = writes_scalar_tag(canonical, content.plain_implicit, content.quoted_implicit);
    check_properties(content.anchor, content.tag, written)
}

/// Refuses a faulty anchor of a collection, and an empty tag if the tag is written.
pub(crate) fn check_collection_names(
    canonical: bool,
    content: &CollectionContent,
) -> Result<(), yaml_error_t>
    ensures { (mapping : Bool) (style : CollectionStyle)
        → refused result ≡ name_or_tag_fault canonical (start_of_kind mapping (seen_collection content.now style)) }
{
    let written = writes_collection_tag(canonical, content.implicit);
    check_properties(content.anchor, content.tag, written)
}

fn check_properties(
    anchor: Option<&str>,
    tag: Option<&str>,
    tag_written: bool,
) -> Result<(), yaml_error_t>
    ensures { refused result ≡ properties_fault (seen_name anchor.entry) (if tag_written then seen_name tag.entry else None) }
{
    if let Some(name) = anchor {
        let alias = false;
        analyze_anchor(name, alias)?;
    }
    match tag {
        Some(tag) if tag_written => check_tag_text(tag),
        _ => Ok(()),
    }
}

fn check_tag_text(tag: &str) -> Result<(), yaml_error_t>
    ensures { refused result ≡ tag_fault (chars tag.now) }
{
    if tag.is_empty() {
        Err(yaml_error_t::TagEmpty)
    } else {
        Ok(())
    }
}
