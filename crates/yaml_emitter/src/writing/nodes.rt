//! Aliases, and the starts and ends of collections (YAML 1.1, chapter 10).

ghost use Rattle.std.specs.Prelude.{◌≡◌, ◌≤◌, ◌+◌, ℕ, List, false, chars, option_map};
ghost use Rattle.std.specs.List.{list_any};
ghost use Rattle.yaml_base.specs.Characters.{is_break};
ghost use Rattle.yaml_base.specs.Cursor.{render_then};
ghost use Rattle.yaml_base.specs.Event.{Collection, CollectionStyle, TagDirective};
ghost use Rattle.yaml_base.specs.Layout as layout;
ghost use Rattle.yaml_base.specs.Layout.{alias_piece, render_anchor, end_piece, line_column, render_place, start_piece, asks_flow};
ghost use Rattle.yaml_base.specs.Event.{collection_tag};
ghost use Rattle.yaml_base.specs.Steps.{is_first};
ghost use Rattle.yaml_base.specs.Tags.{spelling};
ghost use Rattle.yaml_pen.specs.Page.{IsReady};
ghost use Rattle.yaml_pen.specs.Wrote.{Wrote};
ghost use Rattle.yaml_emitter.specs.BorrowedTexts.{seen_name, seen_collection};
ghost use Rattle.yaml_emitter.specs.Given.{seen_effective};
ghost use Rattle.yaml_emitter.specs.NodeEvents.{brackets_of};
ghost use Rattle.yaml_emitter.specs.Places.{is_mapping, seen_place, seen_role};
ghost use Rattle.yaml_emitter.specs.Atoms.{name_breaks};
ghost use Rattle.yaml_emitter.specs.WrittenPieces.{piece_at};
ghost use Rattle.yaml_emitter.specs.WrittenAtoms.{seen_tag, render_spelled_tag, spelling_breaks};

use crate::effective::EffectiveSettings;
use crate::place::{Frame, Place};
use crate::writing::atoms::write_atoms;
use crate::writing::contents::CollectionContent;
use crate::writing::places::{flow_end_atoms, write_place};
use crate::writing::properties::{alias_atoms, write_properties};
use crate::writing::site::Site;
use crate::writing::spelling::SpelledTag;
use std::alloc::Allocator;
use yaml_base::{CollectionKind, yaml_error_t};
use yaml_pen::Pen;

/// Writes an alias at its place.
pub(crate) fn write_alias<A: Allocator>(
    pen: &mut Pen<A>,
    site: &Site,
    name: &str,
) -> Result<(), yaml_error_t>
    requires ready { IsReady pen.old }
    requires name { list_any is_break (chars name.now) ≡ false }
    ensures { (open_ended : ℕ)
        → Wrote
        (piece_at (alias_piece (seen_effective site.now.settings.now) (seen_place site.now.place) site.now.simple (chars name.now)) open_ended)
        pen.old pen.new result }
{
    write_place(pen, site)?;
    write_atoms(pen, site, alias_atoms(name, site.simple))
}

/// Writes a node's lead: the text of its place, its anchor and its tag. Functions that are rarely called get a copy of the
/// site, so that the site itself needn't be in memory.
#[inline(always)]
pub(crate) fn write_lead<A: Allocator>(
    pen: &mut Pen<A>,
    site: &Site,
    anchor: Option<&str>,
    tag: Option<SpelledTag>,
    bare: bool,
) -> Result<(), yaml_error_t>
    requires ready { IsReady pen.old }
    requires anchor { name_breaks (seen_name anchor) ≡ false }
    requires handle { spelling_breaks (seen_tag tag) ≡ false }
    ensures { Wrote
        (λ cursor. render_then
        (render_place (seen_effective site.now.settings.now) (seen_place site.now.place) site.now.simple cursor)
        (λ between. render_then (render_anchor (seen_name anchor.entry) between) (render_spelled_tag site.now.settings.now.portable (seen_tag tag.entry) bare)))
        pen.old pen.new result }
{
    write_place(pen, site)?;
    if anchor.is_none() && tag.is_none() && !bare {
        return Ok(());
    }
    let apart = *site;
    write_properties(pen, &apart, anchor, tag, bare)
}

/// Writes a collection's start at its place, with its tag as spelled; its brackets come with the next event.
pub(crate) fn write_collection_start<A: Allocator>(
    pen: &mut Pen<A>,
    site: &Site,
    content: &CollectionContent,
    tag: Option<SpelledTag>,
) -> Result<(), yaml_error_t>
    requires ready { IsReady pen.old }
    requires anchor { name_breaks (seen_name content.now.anchor) ≡ false }
    requires handle { spelling_breaks (seen_tag tag) ≡ false }
    ensures written { (directives : List TagDirective) (style : CollectionStyle) (open_ended : ℕ)
        → seen_tag tag.entry ≡ option_map (spelling directives) (collection_tag site.now.settings.now.canonical (seen_collection content.now style))
        → Wrote
        (piece_at (start_piece (seen_effective site.now.settings.now) directives (seen_place site.now.place) site.now.simple
        (seen_collection content.now style)) open_ended)
        pen.old pen.new result }
    ensures ready { IsReady pen.new }
{
    let bare = false;
    write_lead(pen, site, content.anchor, tag, bare)
}

/// Returns whether a collection is written in flow: within flow, in canonical mode, by its style, or if it is empty.
pub(crate) fn is_written_in_flow(site: &Site, flow_asked: bool, empty: bool) -> bool
    ensures { (start : Collection)
        → asks_flow start.style ≡ flow_asked
        → result ≡ layout.is_written_in_flow (seen_effective site.now.settings.now) (seen_place site.now.place) start empty }
{
    site.place.in_flow || site.settings.canonical || flow_asked || empty
}

/// Returns the column of the entries of a collection whose start has been written.
pub(crate) fn entries_column<A: Allocator>(
    pen: &Pen<A>,
    settings: &EffectiveSettings,
    place: &Place,
    in_flow: bool,
    undented: bool,
) -> u32
    ensures value { result ≡ layout.entries_column in_flow undented settings.now.indent place.now.column pen.now.cursor }
    ensures within { result ≤ line_column place.now.column + 9 }
{
    match place.column {
        None if !in_flow => 0,
        Some(column) if !in_flow && undented && !pen.indention() => column,
        _ => place.line_column() + settings.indent,
    }
}

/// Writes a collection's end, at the place of the collection around it; the end of a block collection has no text.
pub(crate) fn write_collection_end<A: Allocator>(
    pen: &mut Pen<A>,
    outer: &Site,
    frame: &Frame,
    kind: CollectionKind,
) -> Result<(), yaml_error_t>
    requires { IsReady pen.old }
    ensures { (open_ended : ℕ) → Wrote (piece_at
        (end_piece (seen_effective outer.now.settings.now) (brackets_of (is_mapping kind)) frame.now.place.in_flow
        (is_first (seen_role frame.now.place.role)) outer.now.place.column) open_ended) pen.old pen.new result }
{
    let empty = frame.place.role.is_first();
    if frame.place.in_flow {
        let apart = *outer;
        write_atoms(
            pen,
            &apart,
            flow_end_atoms(kind, empty, outer.settings.canonical),
        )
    } else {
        pen.write_nothing()
    }
}
