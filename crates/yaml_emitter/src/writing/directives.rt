//! The lines before a document's root: `%YAML`, `%TAG` and `---` (YAML 1.1, sections 7.1 and 7.2).

ghost use Rattle.std.specs.Prelude.{◌≡◌, ◌||◌, ◌&&◌, option_map, is_some, map, chars, not, false};
ghost use Rattle.std.specs.List.{list_any};
ghost use Rattle.yaml_base.specs.Characters.{is_break};
ghost use Rattle.yaml_base.specs.Layout.{document_start_piece, root_place, render_tag_directive, render_tag_directives};
ghost use Rattle.yaml_base.specs.Cursor.{Cursor};
ghost use Rattle.yaml_base.specs.Settings.{Effective};
ghost use Rattle.yaml_base.specs.Seen.{seen_directive, seen_version, seen_text};
ghost use Rattle.yaml_pen.specs.Page.{IsReady};
ghost use Rattle.yaml_pen.specs.Wrote.{Wrote};
ghost use Rattle.yaml_emitter.specs.Given.{seen_effective};
ghost use Rattle.yaml_emitter.specs.Atoms.{some_handle_breaks};
ghost use Rattle.yaml_emitter.specs.WrittenPieces.{render_document_head, piece_at, seen_open_ended, render_tag_words};
ghost use Rattle.yaml_emitter.specs.WrittenAtoms.{render_atoms, some_atom_breaks};

use crate::effective::EffectiveSettings;
use crate::writing::atoms::{Atom, Atoms};
use crate::writing::documents::{
    LINE, write_closing_marker, write_document_atoms, write_document_marker, write_version,
};
use crate::writing::indicators::IndicatorKind;
use crate::writing::open_ended::OpenEnded;
use std::alloc::Allocator;
use yaml_base::{yaml_error_t, yaml_tag_directive_t, yaml_version_directive_t};
use yaml_pen::Pen;

/// The contents of a document's start.
#[derive(Drop)]
pub(crate) struct StartContent<'a, A: Allocator> {
    pub version: Option<yaml_version_directive_t>,
    pub directives: &'a [yaml_tag_directive_t<A>],
    pub implicit: bool,
}

/// Writes the start of a document, the stream's first or another.
pub(crate) fn write_document_start<A: Allocator>(
    pen: &mut Pen<A>,
    settings: &EffectiveSettings,
    first: bool,
    start: &StartContent<A>,
    open_ended: OpenEnded,
) -> Result<(), yaml_error_t>
    requires ready { IsReady pen.old }
    requires handles { some_handle_breaks (map seen_directive start.now.directives.now) ≡ false }
    ensures { Wrote
        (piece_at
        (document_start_piece (seen_effective settings.now) first
        record {
          version = option_map seen_version start.now.version;
          directives = map seen_directive start.now.directives.now;
          implicit = start.now.implicit;
        })
        (seen_open_ended open_ended))
        pen.old pen.new result }
{
    let directed = start.version.is_some() || !start.directives.is_empty();
    let explicit = is_explicit(settings, first, start.implicit, directed);
    // Most documents have no lines before `---`.
    if !directed {
        return write_document_marker(pen, settings, explicit);
    }
    write_document_head(pen, settings, open_ended.is_open(), start, explicit)
}

/// Returns whether `---` is written: if the event asks for it, after another document, in canonical or portable mode, or
/// after directives.
fn is_explicit(settings: &EffectiveSettings, first: bool, implicit: bool, directed: bool) -> bool
    ensures { result ≡ (not implicit || not first || (settings.now.canonical || settings.now.portable) || directed) }
{
    !implicit || !first || settings.canonical || settings.portable || directed
}

/// Writes the head of a document. If `closes`, `...` comes first: it ends a document that is still open, so that directives
/// may follow.
fn write_document_head<A: Allocator>(
    pen: &mut Pen<A>,
    settings: &EffectiveSettings,
    closes: bool,
    start: &StartContent<A>,
    explicit: bool,
) -> Result<(), yaml_error_t>
    requires ready { IsReady pen.old }
    requires handles { some_handle_breaks (map seen_directive start.now.directives.now) ≡ false }
    ensures { Wrote
        (render_document_head (seen_effective settings.now) closes (option_map seen_version start.now.version)
        (map seen_directive start.now.directives.now) explicit)
        pen.old pen.new result }
{
    write_closing_marker(pen, settings, closes)?;
    write_version(pen, settings, start.version)?;
    write_tag_directives(pen, settings, start.directives)?;
    write_document_marker(pen, settings, explicit)
}

/// Writes `%TAG` lines, one for each directive.
fn write_tag_directives<A: Allocator>(
    pen: &mut Pen<A>,
    settings: &EffectiveSettings,
    directives: &[yaml_tag_directive_t<A>],
) -> Result<(), yaml_error_t>
    requires ready { IsReady pen.old }
    requires handles { some_handle_breaks (map seen_directive directives.now) ≡ false }
    ensures { Wrote (render_tag_directives settings.now.portable (map seen_directive directives.now)) pen.old pen.new result }
{
    pen.write_nothing()?;
    for directive in directives {
        write_tag_directive(pen, settings, directive)?;
    }
    Ok(())
}

fn write_tag_directive<A: Allocator>(
    pen: &mut Pen<A>,
    settings: &EffectiveSettings,
    directive: &yaml_tag_directive_t<A>,
) -> Result<(), yaml_error_t>
    requires ready { IsReady pen.old }
    requires no_break { list_any is_break (seen_text directive.now.handle) ≡ false }
    ensures { Wrote (render_tag_directive settings.now.portable (seen_directive directive.now)) pen.old pen.new result }
{
    write_tag_line(
        pen,
        settings,
        directive.handle.as_str(),
        directive.prefix.as_str(),
    )
}

fn write_tag_line<'a, A: Allocator>(
    pen: &mut Pen<A>,
    settings: &EffectiveSettings,
    handle: &'a str,
    prefix: &'a str,
) -> Result<(), yaml_error_t>
    requires ready { IsReady pen.old }
    requires no_break { list_any is_break (chars handle.now) ≡ false }
    ensures { Wrote
        (render_tag_directive settings.now.portable (record { handle = chars handle.now; prefix = chars prefix.now }))
        pen.old pen.new result }
{
    write_document_atoms(pen, settings, tag_directive_atoms(handle, prefix))?;
    write_document_atoms(pen, settings, LINE)
}

fn tag_directive_atoms<'a>(handle: &'a str, prefix: &'a str) -> Atoms<'a>
    requires { list_any is_break (chars handle.now) ≡ false }
    ensures whole { some_atom_breaks result ≡ false }
    ensures rendered { (s : Effective) (cursor : Cursor)
        → render_atoms s root_place result cursor ≡ render_tag_words s.portable (record { handle = chars handle.now; prefix = chars prefix.now }) cursor }
{
    use Atom::*;
    (
        Fixed(IndicatorKind::TagDirective),
        Handle(handle),
        Prefix(prefix),
    )
}
