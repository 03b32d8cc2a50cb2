//! The spelling of a tag by the directives in force (YAML 1.1, section 8.2).

ghost use Rattle.std.specs.Prelude.{◌≡◌, chars, option_map};
ghost use Rattle.yaml_base.specs.Tags.{spelling};
ghost use Rattle.yaml_mark.specs.Spelled.{StandsFor};
ghost use Rattle.yaml_emitter.specs.BorrowedTexts.{seen_name, seen_spelling};
ghost use Rattle.yaml_emitter.specs.WrittenAtoms.{seen_tag};

use std::alloc::Allocator;
use yaml_mark::{Directives, analyze_tag, tag_t};

/// A tag as a handle and the text after the handle's prefix, or verbatim.
#[derive(Clone, Copy)]
pub(crate) enum SpelledTag<'a> {
    Shorthand { handle: &'a str, suffix: &'a str },
    Verbatim { tag: &'a str },
}

/// Spells a tag by the first directive whose prefix it begins with, if the tag is longer; else verbatim. `None` stays.
#[inline(always)]
pub(crate) fn spell<'a, A: Allocator>(
    tag: Option<&'a str>,
    directives: &'a Directives<A>,
) -> Option<SpelledTag<'a>>
    ensures { seen_tag result ≡ option_map (spelling directives.now) (seen_name tag.entry) }
{
    match tag {
        Some(tag) => Some(spell_text(tag, directives)),
        None => None,
    }
}

fn spell_text<'a, A: Allocator>(tag: &'a str, directives: &'a Directives<A>) -> SpelledTag<'a>
    ensures { seen_spelling result ≡ spelling directives.now (chars tag.now) }
{
    match analyze_tag(tag, directives) {
        Ok(cut) => spell_cut(tag, directives, cut),
        Err(_) => SpelledTag::Verbatim { tag },
    }
}

fn spell_cut<'a, A: Allocator>(
    tag: &'a str,
    directives: &'a Directives<A>,
    cut: tag_t,
) -> SpelledTag<'a>
    requires { StandsFor directives.now tag.now cut (spelling directives.now (chars tag.now)) }
    ensures { seen_spelling result ≡ spelling directives.now (chars tag.now) }
{
    match cut.directive {
        Some(number) => match directives.get(number) {
            Some(directive) => SpelledTag::Shorthand {
                handle: directive.handle.as_str(),
                suffix: &tag[cut.prefix_length..],
            },
            None => SpelledTag::Verbatim { tag },
        },
        None => SpelledTag::Verbatim { tag },
    }
}
