//! Anchors, aliases and tags (YAML 1.1, sections 8.1, 8.2 and 8.4).

ghost use Rattle.std.specs.Prelude.{◌≡◌, None, chars, false, ◌&&◌};
ghost use Rattle.yaml_base.specs.Cursor.{Cursor, render_then};
ghost use Rattle.yaml_base.specs.Layout.{Place, render_anchor, render_alias};
ghost use Rattle.yaml_base.specs.Settings.{Effective};
ghost use Rattle.yaml_pen.specs.Page.{IsReady};
ghost use Rattle.yaml_pen.specs.Wrote.{Wrote};
ghost use Rattle.std.specs.List.{list_any};
ghost use Rattle.yaml_base.specs.Characters.{is_break};
ghost use Rattle.yaml_emitter.specs.BorrowedTexts.{seen_name};
ghost use Rattle.yaml_emitter.specs.Atoms.{name_breaks};
ghost use Rattle.yaml_emitter.specs.WrittenAtoms.{seen_tag, render_atoms, some_atom_breaks, render_spelled_tag, spelling_breaks};

use crate::writing::atoms::{Atom, Atoms, write_atoms};
use crate::writing::indicators::IndicatorKind;
use crate::writing::site::Site;
use crate::writing::spelling::SpelledTag;
use std::alloc::Allocator;
use yaml_base::yaml_error_t;
use yaml_pen::Pen;

/// Writes a node's anchor and its tag, or the bare tag.
pub(crate) fn write_properties<A: Allocator>(
    pen: &mut Pen<A>,
    site: &Site,
    anchor: Option<&str>,
    tag: Option<SpelledTag>,
    bare: bool,
) -> Result<(), yaml_error_t>
    requires ready { IsReady pen.old }
    requires anchor { name_breaks (seen_name anchor) ≡ false }
    requires handle { spelling_breaks (seen_tag tag) ≡ false }
    ensures { Wrote
        (λ cursor. render_then (render_anchor (seen_name anchor.entry) cursor) (render_spelled_tag site.now.settings.now.portable (seen_tag tag.entry) bare))
        pen.old pen.new result }
{
    write_atoms(pen, site, anchor_atoms(anchor))?;
    write_atoms(pen, site, tag_atoms(tag, bare))
}

fn anchor_atoms(anchor: Option<&str>) -> Atoms
    requires { name_breaks (seen_name anchor) ≡ false }
    ensures whole { some_atom_breaks result ≡ false }
    ensures rendered { (s : Effective) (place : Place) (cursor : Cursor) → render_atoms s place result cursor ≡ render_anchor (seen_name anchor.entry) cursor }
{
    use Atom::*;
    match anchor {
        Some(name) => (Nothing, Fixed(IndicatorKind::Anchor), Name(name)),
        None => (Nothing, Nothing, Nothing),
    }
}

fn tag_atoms(tag: Option<SpelledTag>, bare: bool) -> Atoms
    requires { spelling_breaks (seen_tag tag) ≡ false }
    ensures whole { some_atom_breaks result ≡ false }
    ensures rendered { (s : Effective) (place : Place) (cursor : Cursor)
        → render_atoms s place result cursor ≡ render_spelled_tag s.portable (seen_tag tag.entry) bare cursor }
{
    use IndicatorKind::*;
    use Atom::*;
    match tag {
        Some(SpelledTag::Shorthand { handle, suffix }) => (Nothing, Handle(handle), Suffix(suffix)),
        Some(SpelledTag::Verbatim { tag }) => (
            Fixed(VerbatimStart),
            TagText(tag),
            Fixed(VerbatimEnd),
        ),
        None => bare_tag_atoms(bare),
    }
}

fn bare_tag_atoms(bare: bool) -> Atoms<'static>
    ensures whole { some_atom_breaks result ≡ false }
    ensures rendered { (s : Effective) (place : Place) (cursor : Cursor) → render_atoms s place result cursor ≡ render_spelled_tag s.portable None bare cursor }
{
    use Atom::*;
    if bare {
        (Nothing, Nothing, Handle("!"))
    } else {
        (Nothing, Nothing, Nothing)
    }
}

/// Returns the atoms of an alias; as a simple key it is followed by a space.
pub(crate) fn alias_atoms(name: &str, simple: bool) -> Atoms
    requires { list_any is_break (chars name.now) ≡ false }
    ensures whole { some_atom_breaks result ≡ false }
    ensures rendered { (s : Effective) (place : Place) (cursor : Cursor) → render_atoms s place result cursor ≡ render_alias (chars name.now) simple cursor }
{
    use Atom::*;
    if simple {
        (Fixed(IndicatorKind::Alias), Name(name), Space)
    } else {
        (Fixed(IndicatorKind::Alias), Name(name), Nothing)
    }
}
