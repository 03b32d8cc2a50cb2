//! Lines outside nodes: the markers of documents and the words of directives (YAML 1.1, sections 7.1 to 7.4).

ghost use Rattle.std.specs.Prelude.{◌≡◌, Option, Some, option_map, false};
ghost use Rattle.yaml_base.specs.Cursor.{Cursor};
ghost use Rattle.yaml_base.specs.Layout.{render_closing_marker, render_if, render_document_marker, root_place};
ghost use Rattle.yaml_base.specs.Layout.{render_version};
ghost use Rattle.yaml_base.specs.Seen.{seen_version};
ghost use Rattle.yaml_base.specs.Settings.{Effective};
ghost use Rattle.yaml_pen.specs.Page.{IsReady};
ghost use Rattle.yaml_pen.specs.Wrote.{Wrote};
ghost use Rattle.yaml_emitter.specs.Given.{seen_effective};
ghost use Rattle.yaml_emitter.specs.WrittenPieces.{render_document_end};
ghost use Rattle.yaml_emitter.specs.WrittenAtoms.{render_atoms, some_atom_breaks};

use crate::effective::EffectiveSettings;
use crate::writing::atoms::{Atom, Atoms, write_atoms};
use crate::writing::indicators::IndicatorKind;
use crate::writing::site::Site;
use std::alloc::Allocator;
use yaml_base::{yaml_error_t, yaml_version_directive_t};
use yaml_pen::Pen;

const NOTHING: Atoms<'static> = (Atom::Nothing, Atom::Nothing, Atom::Nothing);

/// The end of a line.
pub(crate) const LINE: Atoms<'static> = (Atom::Nothing, Atom::Nothing, Atom::Line);

/// Writes atoms outside all nodes.
pub(crate) fn write_document_atoms<A: Allocator>(
    pen: &mut Pen<A>,
    settings: &EffectiveSettings,
    atoms: Atoms,
) -> Result<(), yaml_error_t>
    requires ready { IsReady pen.old }
    requires no_break { some_atom_breaks atoms ≡ false }
    ensures { Wrote (render_atoms (seen_effective settings.now) root_place atoms.entry) pen.old pen.new result }
{
    let outside = Site::outside(settings);
    write_atoms(pen, &outside, atoms)
}

/// Returns the atoms of the end of a document.
pub(crate) fn document_end_atoms(implicit: bool) -> Atoms<'static>
    ensures whole { some_atom_breaks result ≡ false }
    ensures rendered { (s : Effective) (cursor : Cursor) → render_atoms s root_place result cursor ≡ render_document_end implicit cursor }
{
    if implicit {
        LINE
    } else {
        (
            Atom::Line,
            Atom::Fixed(IndicatorKind::DocumentEnd),
            Atom::Line,
        )
    }
}

/// Writes `...` on a line of its own, if it is asked for.
pub(crate) fn write_closing_marker<A: Allocator>(
    pen: &mut Pen<A>,
    settings: &EffectiveSettings,
    asked: bool,
) -> Result<(), yaml_error_t>
    requires { IsReady pen.old }
    ensures { Wrote (render_if asked render_closing_marker) pen.old pen.new result }
{
    use Atom::*;
    if asked {
        let line = (Nothing, Fixed(IndicatorKind::DocumentEnd), Line);
        write_document_atoms(pen, settings, line)
    } else {
        pen.write_nothing()
    }
}

/// Writes `---` on a line of its own at a document's start, if it is asked for.
pub(crate) fn write_document_marker<A: Allocator>(
    pen: &mut Pen<A>,
    settings: &EffectiveSettings,
    asked: bool,
) -> Result<(), yaml_error_t>
    requires { IsReady pen.old }
    ensures { Wrote (render_if asked (render_document_marker settings.now.canonical)) pen.old pen.new result }
{
    write_document_atoms(pen, settings, start_atoms(asked, settings.canonical))
}

fn start_atoms(asked: bool, canonical: bool) -> Atoms<'static>
    ensures whole { some_atom_breaks result ≡ false }
    ensures rendered { (s : Effective) (cursor : Cursor) → render_atoms s root_place result cursor ≡ render_if asked (render_document_marker canonical) cursor }
{
    match (asked, canonical) {
        (true, true) => (
            Atom::Line,
            Atom::Fixed(IndicatorKind::DocumentStart),
            Atom::Line,
        ),
        (true, false) => (
            Atom::Line,
            Atom::Fixed(IndicatorKind::DocumentStart),
            Atom::Nothing,
        ),
        (false, _) => NOTHING,
    }
}

/// Writes `%YAML` and a version on a line of their own.
pub(crate) fn write_version<A: Allocator>(
    pen: &mut Pen<A>,
    settings: &EffectiveSettings,
    version: Option<yaml_version_directive_t>,
) -> Result<(), yaml_error_t>
    requires { IsReady pen.old }
    ensures { Wrote (render_version (option_map seen_version version)) pen.old pen.new result }
{
    use IndicatorKind::*;
    use Atom::*;
    match version {
        Some(version) if version.minor == 2 => {
            let line = (Fixed(YamlDirective), Fixed(Version12), Line);
            write_document_atoms(pen, settings, line)
        }
        Some(_) => {
            let line = (Fixed(YamlDirective), Fixed(Version11), Line);
            write_document_atoms(pen, settings, line)
        }
        None => pen.write_nothing(),
    }
}
