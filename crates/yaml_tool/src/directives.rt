//! The versions and directives of a script's document starts.
ghost use Rattle.std.specs.Prelude.{◌≡◌, ◌∷◌, [], None, Some, map, option_map, option_and_then, IfOk, MatchOption};
ghost use Rattle.std.specs.Str.{chars};
ghost use Rattle.yaml_base.specs.scripts.Script as notation;
ghost use Rattle.yaml_base.specs.Seen.{seen_version, seen_directive};
ghost use Rattle.yaml_tool.specs.Cuts.{cut_at};
ghost use Rattle.yaml_tool.specs.Fields.{later_fields};

use crate::characters::cut_once;
use crate::fields::{is_end, text_after};
use crate::numbers::natural_number;
use crate::words::is_word;
use std::alloc::{AllocError, Allocator};
use yaml_base::{yaml_tag_directive_t, yaml_version_directive_t};

/// Returns the texts before and after the only point; `None` if the word has none or more than one.
fn split_version(word: &str) -> Option<(&str, &str)>
    ensures { MatchOption result (notation.version_of (cut_at 0x2E (chars word.now)) ≡ None)
        (λ parts. cut_at 0x2E (chars word.now) ≡ chars parts.0.now ∷ chars parts.1.now ∷ []) }
{
    match cut_once('.', word) {
        Some((prefix, back)) => match cut_once('.', back) {
            None => Some((prefix, back)),
            Some(_) => None,
        },
        None => None,
    }
}

/// Parses a version, `major.minor`, or `-` for none; `None` if the word is neither.
pub fn version_or_none(word: &str) -> Option<Option<yaml_version_directive_t>>
    ensures { option_map (λ version. option_map seen_version version) result ≡ notation.version_or_none (chars word.now) }
{
    if is_word(word, "-") {
        return Some(None);
    }
    let (major, minor) = split_version(word)?;
    Some(Some(yaml_version_directive_t {
        major: natural_number(major)?,
        minor: natural_number(minor)?,
    }))
}

/// Returns pairs of texts, each a handle and its prefix; `None` if a field is no text, or the last handle has no prefix.
///
/// # Errors
///
/// `AllocError` if an allocation fails.
pub fn directives_of<A: Allocator + Copy>(
    alloc: A,
    rest: Option<&str>,
) -> Result<Option<Vec<yaml_tag_directive_t<A>, A>>, AllocError>
    ensures { IfOk result (λ directives. option_map (λ all. map seen_directive all.items) directives
        ≡ option_and_then notation.directives_of (later_fields rest.entry)) }
{
    let mut directives = Vec::new(alloc);
    let mut left = rest;
    while !is_end(left) {
        let Some((handle, others)) = text_after(alloc, left)? else {
            return Ok(None);
        };
        let Some((prefix, others)) = text_after(alloc, others)? else {
            return Ok(None);
        };
        directives.push(yaml_tag_directive_t { handle, prefix })?;
        left = others;
    }
    Ok(Some(directives))
}
