//! The spelling of a tag by the directives in force (YAML 1.1, sections 7.1.2 and 8.2).
ghost use Rattle.std.specs.Prelude.{◌≡◌, Option, IfOk, is_some, position, string_bytes, chars};
ghost use Rattle.yaml_base.specs.Errors.{refused};
ghost use Rattle.yaml_base.specs.Tags.{spelling, tag_fault, behind};
ghost use Rattle.yaml_mark.specs.Spelled.{StandsFor, fits};

use super::directives::Directives;
use std::alloc::Allocator;
use yaml_base::yaml_error_t;

/// The division of a tag, if any, into a directive's prefix, for which its handle is written, and the rest.
#[derive(Clone, Copy, PartialEq, Eq, Debug)]
pub struct tag_t {
    /// The number of the directive, from 0 on; none for a tag that is written whole (verbatim).
    pub directive: Option<usize>,
    /// The length of the directive's prefix in bytes; 0 for a verbatim tag.
    pub prefix_length: usize,
}

/// Finds the first directive whose prefix is shorter than the tag and begins it. An empty tag is refused (`TagEmpty`).
pub fn analyze_tag<A: Allocator>(
    tag: &str,
    directives: &Directives<A>,
) -> Result<tag_t, yaml_error_t>
    ensures refusal { refused result ≡ tag_fault (chars tag.now) }
    ensures first { IfOk result (λ t. t.directive ≡ position (fits tag.now) directives.now) }
    ensures spelled { IfOk result (λ t. StandsFor directives.now tag.now t (spelling directives.now (chars tag.now))) }
{
    if tag.is_empty() {
        return Err(yaml_error_t::TagEmpty);
    }
    Ok(match directives.first_fitting(tag) {
        Some(number) => tag_t {
            directive: Some(number),
            prefix_length: directives.prefix_length(number),
        },
        None => tag_t {
            directive: None,
            prefix_length: 0,
        },
    })
}
