//! A scalar's text in its style (YAML 1.1, sections 9.1 and 9.3).

ghost use Rattle.std.specs.Prelude.{◌≡◌, ◌≢◌, ◌+◌, ◌≤ℤ◌, pos, false, true, OnOk, chars};
ghost use Rattle.yaml_base.specs.Event.{folded, literal};
ghost use Rattle.yaml_base.specs.Layout.{deeper, open_ended_after};
ghost use Rattle.yaml_base.specs.Seen.{seen_scalar_style};
ghost use Rattle.yaml_base.specs.declared.styles.yaml_scalar_style_t.TheVariants.{YAML_FOLDED_SCALAR_STYLE, YAML_LITERAL_SCALAR_STYLE};
ghost use Rattle.yaml_base.specs.scalars.Analysis.{is_empty};
ghost use Rattle.yaml_base.specs.scalars.BlockHeader.{header_open_ended};
ghost use Rattle.yaml_pen.specs.Page.{IsReady};
ghost use Rattle.yaml_pen.specs.Wrote.{Wrote};
ghost use Rattle.yaml_emitter.specs.Given.{seen_effective};
ghost use Rattle.yaml_emitter.specs.Places.{seen_place};
ghost use Rattle.yaml_emitter.specs.Reach.{most_column};
ghost use Rattle.yaml_emitter.specs.ScalarTexts.{text_at, style_fits};
ghost use Rattle.yaml_emitter.specs.WrittenPieces.{seen_open_ended};

use crate::effective::EffectiveSettings;
use crate::place::Place;
use crate::writing::open_ended::OpenEnded;
use crate::writing::site::Site;
use std::alloc::Allocator;
use yaml_base::{
    YAML_FOLDED_SCALAR_STYLE, YAML_LITERAL_SCALAR_STYLE, YAML_PLAIN_SCALAR_STYLE,
    YAML_SINGLE_QUOTED_SCALAR_STYLE, yaml_error_t, yaml_scalar_style_t,
};
use yaml_pen::Pen;
use yaml_scalar::{
    write_double_quoted_scalar, write_folded_scalar, write_literal_scalar, write_plain_scalar,
    write_single_quoted_scalar,
};

/// Writes a scalar's text in a style, and notes the open-ended state that it leaves.
pub(crate) fn write_text<A: Allocator>(
    pen: &mut Pen<A>,
    open_ended: &mut OpenEnded,
    site: &Site,
    style: yaml_scalar_style_t,
    value: &str,
) -> Result<(), yaml_error_t>
    requires ready { IsReady pen.old }
    requires fits { style_fits (seen_scalar_style style) (chars value.now) site.now.simple ≡ true }
    ensures written { Wrote
        (text_at (seen_scalar_style style) (seen_effective site.now.settings.now) (seen_place site.now.place) site.now.simple (chars value.now))
        pen.old pen.new result }
    ensures open_ended { OnOk result
        (seen_open_ended open_ended.new ≡ open_ended_after (seen_scalar_style style) (chars value.now) (seen_open_ended open_ended.old)) }
{
    match style {
        YAML_LITERAL_SCALAR_STYLE => write_literal_text(pen, open_ended, site, value),
        YAML_FOLDED_SCALAR_STYLE => write_folded_text(pen, open_ended, site, value),
        _ => write_flow_text(pen, site, style, value),
    }
}

/// Writes a text in a style that flow allows, too.
fn write_flow_text<A: Allocator>(
    pen: &mut Pen<A>,
    site: &Site,
    style: yaml_scalar_style_t,
    value: &str,
) -> Result<(), yaml_error_t>
    requires ready { IsReady pen.old }
    requires not_literal { style ≢ YAML_LITERAL_SCALAR_STYLE }
    requires not_folded { style ≢ YAML_FOLDED_SCALAR_STYLE }
    ensures { Wrote
        (text_at (seen_scalar_style style) (seen_effective site.now.settings.now) (seen_place site.now.place) site.now.simple (chars value.now))
        pen.old pen.new result }
{
    let settings = site.settings;
    let indent = line_indent(settings, &site.place);
    let (width, breaks) = (settings.width, !site.simple);
    match style {
        YAML_PLAIN_SCALAR_STYLE => {
            write_plain_scalar(pen, value, breaks, site.place.in_flow, indent, width)
        }
        YAML_SINGLE_QUOTED_SCALAR_STYLE => {
            write_single_quoted_scalar(pen, value, breaks, indent, width)
        }
        _ => write_double_quoted_scalar(pen, value, breaks, settings.unicode, indent, width),
    }
}

/// Writes a literal scalar: its header and its text.
fn write_literal_text<A: Allocator>(
    pen: &mut Pen<A>,
    open_ended: &mut OpenEnded,
    site: &Site,
    value: &str,
) -> Result<(), yaml_error_t>
    requires ready { IsReady pen.old }
    requires some { is_empty (chars value.now) ≡ false }
    ensures written { Wrote
        (text_at literal (seen_effective site.now.settings.now) (seen_place site.now.place) site.now.simple (chars value.now))
        pen.old pen.new result }
    ensures open_ended { OnOk result (seen_open_ended open_ended.new ≡ header_open_ended (chars value.now)) }
{
    let settings = site.settings;
    let indent = line_indent(settings, &site.place);
    match write_literal_scalar(pen, value, indent, settings.indent as i32) {
        Ok(header) => {
            *open_ended = OpenEnded::after_header(header);
            Ok(())
        }
        Err(error) => Err(error),
    }
}

/// Writes a folded scalar: its header and its text.
fn write_folded_text<A: Allocator>(
    pen: &mut Pen<A>,
    open_ended: &mut OpenEnded,
    site: &Site,
    value: &str,
) -> Result<(), yaml_error_t>
    requires ready { IsReady pen.old }
    requires fits { style_fits folded (chars value.now) site.now.simple ≡ true }
    ensures written { Wrote
        (text_at folded (seen_effective site.now.settings.now) (seen_place site.now.place) site.now.simple (chars value.now))
        pen.old pen.new result }
    ensures open_ended { OnOk result (seen_open_ended open_ended.new ≡ header_open_ended (chars value.now)) }
{
    let settings = site.settings;
    let indent = line_indent(settings, &site.place);
    match write_folded_scalar(pen, value, indent, settings.indent as i32, settings.width) {
        Ok(header) => {
            *open_ended = OpenEnded::after_header(header);
            Ok(())
        }
        Err(error) => Err(error),
    }
}

/// Returns the column at which a scalar's further lines begin.
pub(crate) fn line_indent(settings: &EffectiveSettings, place: &Place) -> i32
    ensures value { result ≡ pos (deeper settings.now.indent place.now.column) }
    ensures low { pos 2 ≤ℤ result }
    ensures high { result ≤ℤ pos (most_column + 9) }
    ensures within { pos settings.now.indent ≤ℤ result }
{
    (place.line_column() + settings.indent) as i32
}
