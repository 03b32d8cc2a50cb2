//! Atoms: the small pieces before and around the texts of nodes, and in the lines of documents.

ghost use Rattle.std.specs.Prelude.{◌≡◌, ◌≤◌, false};
ghost use Rattle.yaml_base.specs.Cursor.{new_line};
ghost use Rattle.yaml_base.specs.Layout.{flow_break, line_column};
ghost use Rattle.yaml_pen.specs.Page.{IsReady};
ghost use Rattle.yaml_pen.specs.Wrote.{Wrote};
ghost use Rattle.yaml_emitter.specs.Given.{seen_effective};
ghost use Rattle.yaml_emitter.specs.Places.{seen_place};
ghost use Rattle.yaml_emitter.specs.Reach.{most_column};
ghost use Rattle.yaml_emitter.specs.WrittenAtoms.{render_atom, render_atoms, atom_breaks, some_atom_breaks};

use crate::effective::EffectiveSettings;
use crate::place::Place;
use crate::writing::indicators::{IndicatorKind, write_indicator};
use crate::writing::site::Site;
use std::alloc::Allocator;
use yaml_base::yaml_error_t;
use yaml_mark::{
    write_anchor, write_tag_content, write_tag_handle, write_tag_prefix, write_tag_suffix,
};
use yaml_pen::Pen;

/// A piece that is written at a place.
#[derive(Clone, Copy)]
pub(crate) enum Atom<'a> {
    Nothing,
    Fixed(IndicatorKind),
    /// A new line at the place's column.
    Line,
    /// A new line at the place's column if the line is past the width, or in canonical mode.
    FlowLine,
    Space,
    /// The name of an anchor or an alias.
    Name(&'a str),
    /// The handle of a tag, after a space if one is needed.
    Handle(&'a str),
    /// The text of a verbatim tag.
    TagText(&'a str),
    /// The text after a tag's handle.
    Suffix(&'a str),
    /// The prefix of a `%TAG` directive, after a space if one is needed.
    Prefix(&'a str),
}

/// Three atoms that are written together; the first is often `Nothing`.
pub(crate) type Atoms<'a> = (Atom<'a>, Atom<'a>, Atom<'a>);

/// Writes three atoms in order.
pub(crate) fn write_atoms<A: Allocator>(
    pen: &mut Pen<A>,
    site: &Site,
    atoms: Atoms,
) -> Result<(), yaml_error_t>
    requires ready { IsReady pen.old }
    requires no_break { some_atom_breaks atoms ≡ false }
    ensures { Wrote (render_atoms (seen_effective site.now.settings.now) (seen_place site.now.place) atoms.entry) pen.old pen.new result }
{
    match write_atom(pen, site, atoms.0) {
        Ok(()) => match write_atom(pen, site, atoms.1) {
            Ok(()) => write_atom(pen, site, atoms.2),
            Err(error) => Err(error),
        },
        Err(error) => Err(error),
    }
}

fn write_atom<A: Allocator>(pen: &mut Pen<A>, site: &Site, atom: Atom) -> Result<(), yaml_error_t>
    requires ready { IsReady pen.old }
    requires no_break { atom_breaks atom ≡ false }
    ensures { Wrote (render_atom (seen_effective site.now.settings.now) (seen_place site.now.place) atom.entry) pen.old pen.new result }
{
    match atom {
        Atom::Nothing => pen.write_nothing(),
        Atom::Fixed(indicator) => write_indicator(pen, indicator),
        Atom::Line => write_new_line(pen, site.place.line_column()),
        Atom::FlowLine => write_flow_line(pen, site.settings, &site.place),
        Atom::Space => pen.put(b' '),
        Atom::Name(name) => write_anchor(pen, name),
        Atom::Handle(handle) => write_tag_handle(pen, handle),
        Atom::TagText(content) => {
            let need_whitespace = false;
            write_tag_content(pen, content, need_whitespace)
        }
        Atom::Suffix(suffix) => write_tag_suffix(pen, suffix, site.settings.portable),
        Atom::Prefix(prefix) => write_tag_prefix(pen, prefix, site.settings.portable),
    }
}

/// Begins a new line at a column.
pub(crate) fn write_new_line<A: Allocator>(
    pen: &mut Pen<A>,
    column: u32,
) -> Result<(), yaml_error_t>
    requires ready { IsReady pen.old }
    requires reach { column ≤ most_column }
    ensures { Wrote (new_line column) pen.old pen.new result }
{
    pen.write_indent(column as i32)
}

pub(crate) fn write_flow_line<A: Allocator>(
    pen: &mut Pen<A>,
    settings: &EffectiveSettings,
    place: &Place,
) -> Result<(), yaml_error_t>
    requires { IsReady pen.old }
    ensures { Wrote (flow_break (seen_effective settings.now) place.now.column) pen.old pen.new result }
{
    let past_width = settings.width != i32::MAX && pen.column() > settings.width;
    let due = settings.canonical || past_width;
    if due {
        write_new_line(pen, place.line_column())
    } else {
        pen.write_nothing()
    }
}
