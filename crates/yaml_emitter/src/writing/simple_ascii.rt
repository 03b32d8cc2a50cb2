//! Scalars that are plain as they are, known by their values without an analysis (YAML 1.1, section 9.1.3).

ghost use Rattle.std.specs.Prelude.{◌≡◌, true};
ghost use Rattle.yaml_emitter.specs.SimpleAsciiScalars.{StandsPlain};

use crate::effective::EffectiveSettings;
use crate::writing::contents::ScalarContent;
use yaml_base::{YAML_ANY_SCALAR_STYLE, YAML_PLAIN_SCALAR_STYLE};
use yaml_scalar::is_simple_ascii;

/// Returns whether a scalar can be plain without analysis: it has no anchor, its tag is left out, and its value is simple ASCII.
#[inline(always)]
pub(crate) fn stands_plain(settings: &EffectiveSettings, content: &ScalarContent) -> bool
    ensures { result ≡ true → StandsPlain settings.now.canonical content.now }
{
    !settings.canonical
        && content.plain_implicit
        && matches!(
            content.style,
            YAML_ANY_SCALAR_STYLE | YAML_PLAIN_SCALAR_STYLE
        )
        && content.anchor.is_none()
        && is_simple_ascii(content.value)
}
