//! The text of a place before its node, and that of a collection's end.

ghost use Rattle.std.specs.Prelude.{◌≡◌, ◌≤◌, true, false};
ghost use Rattle.yaml_base.specs.Cursor.{Cursor, new_line, render_then};
ghost use Rattle.yaml_base.specs.Indicators.{flow_key, flow_value, render_indicator};
ghost use Rattle.yaml_base.specs.Layout as layout;
ghost use Rattle.yaml_base.specs.Layout.{render_end, flow_break, render_flow_place, render_place};
ghost use Rattle.yaml_base.specs.Settings.{Effective};
ghost use Rattle.yaml_pen.specs.Page.{IsReady};
ghost use Rattle.yaml_pen.specs.Wrote.{Wrote};
ghost use Rattle.yaml_emitter.specs.Given.{seen_effective};
ghost use Rattle.yaml_emitter.specs.NodeEvents.{brackets_of};
ghost use Rattle.yaml_emitter.specs.Places.{is_mapping, seen_role, seen_place};
ghost use Rattle.yaml_emitter.specs.Reach.{most_column};
ghost use Rattle.yaml_emitter.specs.WrittenAtoms.{seen_indicator, render_atoms, some_atom_breaks};

use crate::effective::EffectiveSettings;
use crate::place::{Place, Role};
use crate::writing::atoms::{Atom, Atoms, write_flow_line, write_new_line};
use crate::writing::indicators::{IndicatorKind, write_indicator};
use crate::writing::site::Site;
use std::alloc::Allocator;
use yaml_base::{CollectionKind, yaml_error_t};
use yaml_pen::Pen;

/// Writes the text of a place before its node. Functions that aren't inlined get a copy, so that the place itself needn't be
/// in memory.
#[inline(always)]
pub(crate) fn write_place<A: Allocator>(pen: &mut Pen<A>, site: &Site) -> Result<(), yaml_error_t>
    requires { IsReady pen.old }
    ensures { Wrote (render_place (seen_effective site.now.settings.now) (seen_place site.now.place) site.now.simple) pen.old pen.new result }
{
    use IndicatorKind::*;
    if site.place.in_flow {
        let place = site.place.at_line();
        return write_flow_place(pen, site.settings, &place, site.simple);
    }
    // In a block (YAML 1.1, sections 10.1.2 and 10.2.2).
    let column = site.place.line_column();
    match (site.place.role, site.simple) {
        (Role::Root, _) => pen.write_nothing(),
        (Role::Item { .. }, _) => write_line_and_indicator(pen, column, BlockEntry),
        (Role::Key { .. }, true) => write_new_line(pen, column),
        (Role::Key { .. }, false) => write_line_and_indicator(pen, column, BlockKey),
        (Role::Value { simple: true }, _) => write_indicator(pen, SimpleValue),
        (Role::Value { simple: false }, _) => write_line_and_indicator(pen, column, BlockValue),
    }
}

/// Writes the text of a place in flow before its node (YAML 1.1, sections 10.1.1 and 10.2.1).
fn write_flow_place<A: Allocator>(
    pen: &mut Pen<A>,
    settings: &EffectiveSettings,
    place: &Place,
    simple: bool,
) -> Result<(), yaml_error_t>
    requires { IsReady pen.old }
    ensures { Wrote (render_flow_place (seen_effective settings.now) (seen_role place.now.role) simple place.now.column) pen.old pen.new result }
{
    use IndicatorKind::*;
    match (place.role, simple) {
        (Role::Root, _) => pen.write_nothing(),
        (Role::Item { first: true }, _) => write_entry(pen, settings, place, FlowSequenceStart),
        (Role::Item { first: false }, _) => write_entry(pen, settings, place, FlowEntry),
        (Role::Key { first: true }, true) => write_entry(pen, settings, place, FlowMappingStart),
        (Role::Key { first: false }, true) => write_entry(pen, settings, place, FlowEntry),
        (Role::Key { first: true }, false) => write_long_key(
            pen,
            settings,
            place,
            FlowMappingStart,
        ),
        (Role::Key { first: false }, false) => write_long_key(pen, settings, place, FlowEntry),
        (Role::Value { simple: true }, _) => write_indicator(pen, SimpleValue),
        (Role::Value { simple: false }, _) => write_long_value(pen, settings, place),
    }
}

/// Writes the atom before an entry in flow, and a new line if one is due.
#[inline(always)]
fn write_entry<A: Allocator>(
    pen: &mut Pen<A>,
    settings: &EffectiveSettings,
    place: &Place,
    atom: IndicatorKind,
) -> Result<(), yaml_error_t>
    requires { IsReady pen.old }
    ensures { Wrote (λ cursor. render_then (render_indicator (seen_indicator atom) cursor) (flow_break (seen_effective settings.now) place.now.column)) pen.old
        pen.new result }
{
    write_indicator(pen, atom)?;
    write_flow_line(pen, settings, place)
}

/// Writes the text before any other key in flow: a bracket or a comma, a new line if one is due, and `?`.
fn write_long_key<A: Allocator>(
    pen: &mut Pen<A>,
    settings: &EffectiveSettings,
    place: &Place,
    atom: IndicatorKind,
) -> Result<(), yaml_error_t>
    requires { IsReady pen.old }
    ensures { Wrote (λ cursor. render_then
        (render_then (render_indicator (seen_indicator atom) cursor) (flow_break (seen_effective settings.now) place.now.column)) (render_indicator flow_key))
        pen.old pen.new result }
{
    write_entry(pen, settings, place, atom)?;
    write_indicator(pen, IndicatorKind::FlowKey)
}

/// Writes the atom of the value of another key in flow, on a new line if one is due.
fn write_long_value<A: Allocator>(
    pen: &mut Pen<A>,
    settings: &EffectiveSettings,
    place: &Place,
) -> Result<(), yaml_error_t>
    requires { IsReady pen.old }
    ensures { Wrote (λ cursor. render_then (flow_break (seen_effective settings.now) place.now.column cursor) (render_indicator flow_value)) pen.old pen.new
        result }
{
    write_flow_line(pen, settings, place)?;
    write_indicator(pen, IndicatorKind::FlowValue)
}

/// Writes a new line at a column, and an atom on it.
fn write_line_and_indicator<A: Allocator>(
    pen: &mut Pen<A>,
    column: u32,
    atom: IndicatorKind,
) -> Result<(), yaml_error_t>
    requires ready { IsReady pen.old }
    requires reach { column ≤ most_column }
    ensures { Wrote (λ cursor. render_then (new_line column cursor) (render_indicator (seen_indicator atom))) pen.old pen.new result }
{
    write_new_line(pen, column)?;
    write_indicator(pen, atom)
}

/// Returns the atoms of the end of a collection in flow. If it is empty, the opening bracket comes first; otherwise, in
/// canonical mode, a comma and a new line do.
pub(crate) fn flow_end_atoms(kind: CollectionKind, empty: bool, canonical: bool) -> Atoms<'static>
    ensures whole { some_atom_breaks result ≡ false }
    ensures rendered { (s : Effective) (place : layout.Place) (cursor : Cursor) → s.canonical ≡ canonical
        → render_atoms s place result cursor ≡ render_end s (brackets_of (is_mapping kind)) true empty place.column cursor }
{
    use CollectionKind::*;
    use IndicatorKind::*;
    use Atom::*;
    match (kind, empty, canonical) {
        (Sequence, true, _) => (Nothing, Fixed(FlowSequenceStart), Fixed(FlowSequenceEnd)),
        (Mapping, true, _) => (Nothing, Fixed(FlowMappingStart), Fixed(FlowMappingEnd)),
        (Sequence, false, true) => (Fixed(FlowEntry), Line, Fixed(FlowSequenceEnd)),
        (Mapping, false, true) => (Fixed(FlowEntry), Line, Fixed(FlowMappingEnd)),
        (Sequence, false, false) => (Nothing, Nothing, Fixed(FlowSequenceEnd)),
        (Mapping, false, false) => (Nothing, Nothing, Fixed(FlowMappingEnd)),
    }
}
