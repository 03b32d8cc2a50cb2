//! Anchors, aliases, versions and tag directives: their refusals (YAML 1.1, sections 7.1, 8.1 and 8.4).
ghost use Rattle.std.specs.Prelude.{◌≡◌, ◌==◌, length, chars, if◌then◌else◌};
ghost use Rattle.std.specs.List.{list_all};
ghost use Rattle.yaml_base.specs.Characters as class;
ghost use Rattle.yaml_base.specs.Errors.{refused};
ghost use Rattle.yaml_base.specs.Seen.{seen_version, seen_directive};
ghost use Rattle.yaml_base.specs.Tags.{anchor_fault, alias_fault, version_fault, handle_fault, directive_fault};
ghost use Rattle.yaml_mark.specs.Names.{alphabet_error, empty_error, refusal_of_name};

use std::alloc::Allocator;
use yaml_base::{is_alpha, yaml_error_t, yaml_tag_directive_t, yaml_version_directive_t};

/// Refuses a version other than 1.1 and 1.2 (`IncompatibleVersion`).
pub fn analyze_version(version: yaml_version_directive_t) -> Result<(), yaml_error_t>
    ensures { refused result ≡ version_fault (seen_version version) }
{
    match (version.major, version.minor) {
        (1, 1 | 2) => Ok(()),
        _ => Err(yaml_error_t::IncompatibleVersion),
    }
}

/// The kind of a name.
#[derive(Clone, Copy, PartialEq, Eq, Debug)]
pub enum Name {
    /// The name of a node.
    Anchor,
    /// The name in an alias.
    Alias,
}

impl Name {
    fn empty_error(self) -> yaml_error_t
        ensures { result ≡ empty_error self }
    {
        match self {
            Name::Anchor => yaml_error_t::AnchorEmpty,
            Name::Alias => yaml_error_t::AliasEmpty,
        }
    }

    fn alphabet_error(self) -> yaml_error_t
        ensures { result ≡ alphabet_error self }
    {
        match self {
            Name::Anchor => yaml_error_t::AnchorAlphabet,
            Name::Alias => yaml_error_t::AliasAlphabet,
        }
    }
}

/// Refuses the name of an anchor, or of an alias, that is empty (`AnchorEmpty`, `AliasEmpty`) or has another character
/// than `0-9`, `A-Z`, `a-z`, `_` and `-` (`AnchorAlphabet`, `AliasAlphabet`).
pub fn analyze_name(text: &str, name: Name) -> Result<(), yaml_error_t>
    ensures { refused result ≡ refusal_of_name name (chars text.now) }
{
    if text.is_empty() {
        return Err(name.empty_error());
    }
    if !is_all_alpha(text) {
        return Err(name.alphabet_error());
    }
    Ok(())
}

/// Refuses an anchor, or an alias, that is empty (`AnchorEmpty`, `AliasEmpty`) or has another character than `0-9`,
/// `A-Z`, `a-z`, `_` and `-` (`AnchorAlphabet`, `AliasAlphabet`).
pub fn analyze_anchor(anchor: &str, alias: bool) -> Result<(), yaml_error_t>
    ensures { refused result ≡ (if alias then alias_fault (chars anchor.now) else anchor_fault (chars anchor.now)) }
{
    if alias {
        analyze_name(anchor, Name::Alias)
    } else {
        analyze_name(anchor, Name::Anchor)
    }
}

/// Refuses, in this order, a tag handle that is empty (`TagHandleEmpty`), doesn't start or doesn't end with `!`
/// (`TagHandleStart`, `TagHandleEnd`) or has another character than those of anchors between the two
/// (`TagHandleAlphabet`), and an empty prefix (`TagPrefixEmpty`).
pub fn analyze_tag_directive<A: Allocator>(
    directive: &yaml_tag_directive_t<A>,
) -> Result<(), yaml_error_t>
    ensures { refused result ≡ directive_fault (seen_directive directive.now) }
{
    analyze_handle(directive.handle.as_str())?;
    if directive.prefix.as_str().is_empty() {
        return Err(yaml_error_t::TagPrefixEmpty);
    }
    Ok(())
}

fn analyze_handle(handle: &str) -> Result<(), yaml_error_t>
    ensures { refused result ≡ handle_fault (chars handle.now) }
{
    if handle.is_empty() {
        return Err(yaml_error_t::TagHandleEmpty);
    }
    let Some(rest) = handle.strip_prefix('!') else {
        return Err(yaml_error_t::TagHandleStart);
    };
    if rest.is_empty() {
        return Ok(());
    }
    let Some(middle) = rest.strip_suffix('!') else {
        return Err(yaml_error_t::TagHandleEnd);
    };
    if !is_all_alpha(middle) {
        return Err(yaml_error_t::TagHandleAlphabet);
    }
    Ok(())
}

fn is_all_alpha(text: &str) -> bool
    ensures { result ≡ list_all class.is_alpha (chars text.now) }
{
    text.chars().all(|c| is_alpha(c))
}
