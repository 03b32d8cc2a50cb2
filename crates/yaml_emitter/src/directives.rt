//! The directives in force in a document.

ghost use Rattle.std.specs.Option.{option_or};
ghost use Rattle.std.specs.Prelude.{Some, IfOk, option_map, option_and_then, ◌≡◌, ◌≢◌, [], ◌∷◌, ◌++◌, chars, map, Err, IfErr, OnOk, true};
ghost use Rattle.yaml_base.specs.Errors.{refused};
ghost use Rattle.yaml_base.specs.Seen.{seen_directive, seen_version};
ghost use Rattle.yaml_emitter.specs.InForce.{with_default};
ghost use Rattle.yaml_base.specs.Tags.{default_directives, directives_fault, directives_in_force, next_directive_fault, version_fault};

use crate::borrowed::copied_text;
use std::alloc::Allocator;
use yaml_base::{yaml_error_t, yaml_tag_directive_t, yaml_version_directive_t};
use yaml_mark::{Directives, analyze_tag_directive, analyze_version};

/// The default for local tags: handle and prefix.
const LOCAL: &str = "!";
/// The default handle of YAML's own types.
const TYPES: &str = "!!";
/// The default prefix of `!!`.
const TYPES_PREFIX: &str = "tag:yaml.org,2002:";

/// Copies a document's own directives, and checks each in turn. Any of them may fail with `Memory`.
pub(crate) fn read_directives<A: Allocator + Copy>(
    own: &[yaml_tag_directive_t<A>],
    directives: &mut Directives<A>,
) -> Result<(), yaml_error_t>
    requires { directives.old ≡ [] }
    ensures refusal { result ≢ Err yaml_error_t.Memory → refused result ≡ directives_fault (map seen_directive own.now) }
    ensures read { OnOk result (directives.new ≡ map seen_directive own.now) }
{
    for directive in own {
        read_directive(directive, directives)?;
    }
    Ok(())
}

fn read_directive<A: Allocator + Copy>(
    directive: &yaml_tag_directive_t<A>,
    directives: &mut Directives<A>,
) -> Result<(), yaml_error_t>
    ensures refusal { result ≢ Err yaml_error_t.Memory
        → refused result ≡ next_directive_fault directives.old (seen_directive directive.now) }
    ensures read { OnOk result (directives.new ≡ directives.old ++ seen_directive directive.now ∷ []) }
{
    analyze_tag_directive(directive)?;
    let allow_duplicates = false;
    directives.append(directive, allow_duplicates)
}

/// Adds each default whose handle the document doesn't give.
pub(crate) fn add_defaults<A: Allocator + Copy>(
    alloc: A,
    directives: &mut Directives<A>,
) -> Result<(), yaml_error_t>
    ensures added { OnOk result (directives.new ≡ directives_in_force directives.old) }
    ensures memory { IfErr result (λ e. e ≡ yaml_error_t.Memory) }
{
    add_default(alloc, directives, LOCAL, LOCAL)?;
    add_default(alloc, directives, TYPES, TYPES_PREFIX)
}

/// Makes a directive of these texts.
fn directive_of<A: Allocator + Copy>(
    alloc: A,
    handle: &str,
    prefix: &str,
) -> Result<yaml_tag_directive_t<A>, yaml_error_t>
    ensures texts { IfOk result (λ directive. seen_directive directive ≡ record { handle = chars handle.now; prefix = chars prefix.now }) }
    ensures memory { IfErr result (λ error. error ≡ yaml_error_t.Memory) }
{
    let handle = copied_text(alloc, handle)?;
    let prefix = copied_text(alloc, prefix)?;
    Ok(yaml_tag_directive_t { handle, prefix })
}

fn add_default<A: Allocator + Copy>(
    alloc: A,
    directives: &mut Directives<A>,
    handle: &str,
    prefix: &str,
) -> Result<(), yaml_error_t>
    ensures added { OnOk result (directives.new ≡ with_default directives.old (record { handle = chars handle.now; prefix = chars prefix.now })) }
    ensures memory { IfErr result (λ e. e ≡ yaml_error_t.Memory) }
{
    let directive = directive_of(alloc, handle, prefix)?;
    let allow_duplicates = true;
    directives.append(&directive, allow_duplicates)
}

/// Returns the directives in force in a document with this version and these directives of its own. Checks each of these
/// in turn; any of them may fail with `Memory`.
pub(crate) fn directives_for<A: Allocator + Copy>(
    alloc: A,
    version: Option<yaml_version_directive_t>,
    own: &[yaml_tag_directive_t<A>],
) -> Result<Directives<A>, yaml_error_t>
    ensures refusal { refused result ≢ Some yaml_error_t.Memory
        → refused result
        ≡ option_or (option_and_then version_fault (option_map seen_version version)) (directives_fault (map seen_directive own.now)) }
    ensures in_force { IfOk result (λ directives. directives ≡ directives_in_force (map seen_directive own.now)) }
{
    check_version(version)?;
    let mut directives = Directives::new(alloc);
    read_directives(own, &mut directives)?;
    add_defaults(alloc, &mut directives)?;
    Ok(directives)
}

/// Returns the directives in force in the next document. If it and the document before it have the defaults alone, those of
/// the document before are kept. Any of its own directives may fail with `Memory`.
pub(crate) fn next_directives<A: Allocator + Copy>(
    alloc: A,
    before: Directives<A>,
    version: Option<yaml_version_directive_t>,
    own: &[yaml_tag_directive_t<A>],
) -> Result<Directives<A>, yaml_error_t>
    ensures refusal { refused result ≢ Some yaml_error_t.Memory
        → refused result
        ≡ option_or (option_and_then version_fault (option_map seen_version version)) (directives_fault (map seen_directive own.now)) }
    ensures in_force { IfOk result (λ directives. directives ≡ directives_in_force (map seen_directive own.now)) }
{
    if !own.is_empty() || !are_defaults(&before) {
        return directives_for(alloc, version, own);
    }
    check_version(version)?;
    Ok(before)
}

/// Returns whether these are the two defaults and no others.
fn are_defaults<A: Allocator>(directives: &Directives<A>) -> bool
    ensures { result ≡ true → directives.now ≡ default_directives }
{
    if directives.len() != 2 {
        return false;
    }
    gives(directives.get(0), LOCAL, LOCAL) && gives(directives.get(1), TYPES, TYPES_PREFIX)
}

/// Returns whether a directive gives this prefix to this handle.
fn gives<A: Allocator>(
    directive: Option<&yaml_tag_directive_t<A>>,
    handle: &str,
    prefix: &str,
) -> bool
    ensures { result ≡ true → option_map (λ d. seen_directive d.now) directive.entry ≡ Some (record { handle = chars handle.now; prefix = chars prefix.now }) }
{
    match directive {
        Some(directive) => {
            directive.handle.as_str() == handle && directive.prefix.as_str() == prefix
        }
        None => false,
    }
}

fn check_version(version: Option<yaml_version_directive_t>) -> Result<(), yaml_error_t>
    ensures { refused result ≡ option_and_then version_fault (option_map seen_version version) }
{
    match version {
        Some(version) => analyze_version(version),
        None => Ok(()),
    }
}
