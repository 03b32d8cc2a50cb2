//! Scalars: their style, the text before them, and their own text (YAML 1.1, chapter 9).

ghost use Rattle.std.specs.Prelude.{◌≡◌, ◌&&◌, false, IfOk, IsOk, chars, is_some, if◌then◌else◌};
ghost use Rattle.yaml_base.specs.scalars.Analysis as analysis;
ghost use Rattle.yaml_base.specs.scalars.Analysis.{is_empty};
ghost use Rattle.yaml_base.specs.Layout.{allowed_under, charset_of, choice_of, style_asked_at};
ghost use Rattle.yaml_base.specs.Event.{scalar_tag};
ghost use Rattle.yaml_base.specs.Seen.{seen_scalar_style};
ghost use Rattle.yaml_base.specs.Settings as in_force;
ghost use Rattle.yaml_base.specs.scalars.Style.{is_literal, lacks_tag_and_flags};
ghost use Rattle.yaml_pen.specs.Page.{IsReady};
ghost use Rattle.yaml_scalar.specs.ScalarData.{ChooseAlike};
ghost use Rattle.yaml_emitter.specs.BorrowedTexts.{seen_scalar};
ghost use Rattle.yaml_emitter.specs.Given.{seen_effective};
ghost use Rattle.yaml_emitter.specs.Places.{seen_place};
ghost use Rattle.yaml_emitter.specs.WrittenPieces.{seen_open_ended};
ghost use Rattle.yaml_emitter.specs.WrittenScalars.{IsChecked, WritesScalar};

use crate::effective::EffectiveSettings;
use crate::writing::contents::ScalarContent;
use crate::writing::nodes::write_lead;
use crate::writing::open_ended::OpenEnded;
use crate::writing::site::Site;
use crate::writing::spelling::SpelledTag;
use crate::writing::styles::write_text;
use std::alloc::Allocator;
use yaml_base::{
    YAML_DOUBLE_QUOTED_SCALAR_STYLE, YAML_FOLDED_SCALAR_STYLE, YAML_LITERAL_SCALAR_STYLE,
    yaml_error_t, yaml_scalar_style_t,
};
use yaml_pen::Pen;
use yaml_scalar::{
    allows_literal, analyze_for_style, analyze_scalar, begins_blank, scalar_data_t,
    select_scalar_style,
};

/// Writes a scalar at its place, with its tag as spelled, and notes the open-ended state that it leaves.
#[inline(always)]
pub(crate) fn write_scalar<A: Allocator>(
    pen: &mut Pen<A>,
    open_ended: &mut OpenEnded,
    site: &Site,
    content: &ScalarContent,
    tag: Option<SpelledTag>,
) -> Result<(), yaml_error_t>
    requires ready { IsReady pen.old }
    requires checked { IsChecked site.now.settings.now.canonical (seen_scalar content.now) tag }
    ensures { WritesScalar (seen_effective site.now.settings.now) (seen_place site.now.place) site.now.simple (seen_scalar content.now) tag.entry
        pen.old pen.new (seen_open_ended open_ended.old) (seen_open_ended open_ended.new) result }
{
    let (style, bare) = choose(site, content, tag.is_some())?;
    write_lead(pen, site, content.anchor, tag, bare)?;
    write_text(pen, open_ended, site, style, content.value)
}

/// Returns the style that a scalar is written in, and whether the bare tag precedes it.
#[inline(always)]
fn choose(
    site: &Site,
    content: &ScalarContent,
    tag_written: bool,
) -> Result<(yaml_scalar_style_t, bool), yaml_error_t>
    requires tag { tag_written ≡ is_some (scalar_tag site.now.settings.now.canonical (seen_scalar content.now)) }
    requires flags { lacks_tag_and_flags tag_written content.now.plain_implicit content.now.quoted_implicit ≡ false }
    ensures ok { IsOk result }
    ensures choice { IfOk result (λ given.
        record { style = seen_scalar_style given.0; bare = given.1 }
        ≡ choice_of (seen_effective site.now.settings.now) (seen_place site.now.place) site.now.simple (seen_scalar content.now)) }
{
    let settings = site.settings;
    let asked = style_asked(site, content);
    // Double quotes are written, whatever the value holds.
    if settings.canonical || matches!(asked, YAML_DOUBLE_QUOTED_SCALAR_STYLE) {
        let bare = !tag_written && !content.quoted_implicit;
        return Ok((YAML_DOUBLE_QUOTED_SCALAR_STYLE, bare));
    }
    let data = allowed_styles(settings, content);
    select_scalar_style(
        asked,
        &data,
        is_empty_value(content.value),
        tag_written,
        content.plain_implicit,
        content.quoted_implicit,
        site.place.in_flow,
        site.simple,
        settings.canonical,
    )
}

/// Returns the styles that a value allows, as far as the choice depends on them.
#[inline(always)]
fn allowed_styles(settings: &EffectiveSettings, content: &ScalarContent) -> scalar_data_t
    ensures { ChooseAlike result (allowed_under (seen_effective settings.now) (seen_scalar content.now)) }
{
    // The settings change the result of an analysis: double quotes replace single ones, or blanks are literal.
    if settings.double_quotes || are_blanks_literal(settings, content.style) {
        return exactly_allowed(settings, content);
    }
    analyze_for_style(
        content.value,
        settings.unicode,
        escapes_separators(settings),
    )
}

/// Returns exactly the styles that a value allows: no single quotes if double ones replace them; and if blanks are literal,
/// block styles if literal takes the value.
fn exactly_allowed(settings: &EffectiveSettings, content: &ScalarContent) -> scalar_data_t
    ensures { result ≡ allowed_under (seen_effective settings.now) (seen_scalar content.now) }
{
    let data = analyze_scalar(
        content.value,
        settings.unicode,
        escapes_separators(settings),
    );
    let single_quoted_allowed = !settings.double_quotes && data.single_quoted_allowed;
    let block_allowed = takes_block(settings, content, &data);
    scalar_data_t {
        single_quoted_allowed,
        block_allowed,
        ..data
    }
}

/// Returns whether a block style takes a value: by its analysis or, if blanks are literal, by the rule of literal.
fn takes_block(settings: &EffectiveSettings, content: &ScalarContent, found: &scalar_data_t) -> bool
    ensures { result ≡ (
        if is_literal (seen_scalar_style content.now.style) && settings.now.literal_blanks
        then analysis.allows_literal (charset_of (seen_effective settings.now)) (chars content.now.value.now)
        else found.now.block_allowed) }
{
    if are_blanks_literal(settings, content.style) {
        return allows_literal(
            content.value,
            settings.unicode,
            escapes_separators(settings),
        );
    }
    found.block_allowed
}

/// Returns whether literal is asked for and blanks are literal.
fn are_blanks_literal(settings: &EffectiveSettings, style: yaml_scalar_style_t) -> bool
    ensures { result ≡ (is_literal (seen_scalar_style style) && settings.now.literal_blanks) }
{
    matches!(style, YAML_LITERAL_SCALAR_STYLE) && settings.literal_blanks
}

/// Returns the style that is asked for. In portable mode a root asks for double quotes in place of a block style whose header
/// would have a digit, since readers of YAML 1.2 count that digit in two ways.
fn style_asked(site: &Site, content: &ScalarContent) -> yaml_scalar_style_t
    ensures { seen_scalar_style result
        ≡ style_asked_at (seen_effective site.now.settings.now) (seen_place site.now.place) (seen_scalar content.now) }
{
    match content.style {
        YAML_LITERAL_SCALAR_STYLE | YAML_FOLDED_SCALAR_STYLE
            if site.place.column.is_none()
                && site.settings.portable
                && begins_blank(content.value) => YAML_DOUBLE_QUOTED_SCALAR_STYLE,
        style => style,
    }
}

/// Returns whether U+2028 and U+2029 are escaped: with the line breaks of YAML 1.2, and in portable mode.
fn escapes_separators(settings: &EffectiveSettings) -> bool
    ensures { result ≡ in_force.escapes_separators (seen_effective settings.now) }
{
    settings.breaks12 || settings.portable
}

fn is_empty_value(value: &str) -> bool
    ensures { result ≡ is_empty (chars value.now) }
{
    value.is_empty()
}
