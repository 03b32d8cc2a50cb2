//! Events within a document: leaves, and the starts and ends of collections. One function for each kind.

ghost use Rattle.std.specs.Prelude.{◌≡◌, ◌≤◌, ◌+◌, ℕ, Bool, None, true, false, not, chars, length, is_some, option_map};
ghost use Rattle.yaml_base.specs.Event.{CollectionStyle, alias, scalar, any_layout};
ghost use Rattle.yaml_base.specs.Layout as layout;
ghost use Rattle.yaml_base.specs.Layout.{asks_flow, entry_place, line_column};
ghost use Rattle.yaml_base.specs.Refusal.{name_or_tag_fault};
ghost use Rattle.yaml_base.specs.Event.{scalar_tag};
ghost use Rattle.yaml_base.specs.Seen.{seen_mapping_style, seen_scalar_style, seen_sequence_style, seen_text};
ghost use Rattle.yaml_base.specs.Steps.{stage_allows};
ghost use Rattle.yaml_base.specs.scalars.Style as style;
ghost use Rattle.yaml_pen.specs.Page.{IsReady};
ghost use Rattle.yaml_pen.specs.Wrote.{Wrote};
ghost use Rattle.yaml_scalar.specs.SimpleAsciiTexts.{IsSimpleAscii};
ghost use Rattle.yaml_emitter.specs.BorrowedTexts.{seen_collection, seen_scalar};
ghost use Rattle.yaml_emitter.specs.Given.{seen_effective};
ghost use Rattle.yaml_emitter.specs.NodeEvents.{bare_scalar, end_of_kind, first_entry, is_at_node, start_of_kind, starts_undented};
ghost use Rattle.yaml_emitter.specs.Places.{is_mapping, seen_frame, seen_place, seen_role};
ghost use Rattle.yaml_emitter.specs.Processing.{Processed};
ghost use Rattle.yaml_emitter.specs.Reach.{most_column};
ghost use Rattle.yaml_emitter.specs.SimpleAsciiScalars.{StandsPlain};
ghost use Rattle.yaml_emitter.specs.WrittenPieces.{piece_at};

use crate::check::{check_collection_names, check_scalar_names};
use crate::machine::Machine;
use crate::place::{Frame, Place, Role};
use crate::stage::Stage;
use crate::writing::{
    CollectionContent, ScalarContent, Site, borrowed_text, entries_column, is_simple_alias_key,
    is_simple_ascii_key, is_simple_collection_key, is_simple_scalar_key, is_written_in_flow,
    line_indent, spell, stands_plain, write_alias, write_collection_end, write_collection_start,
    write_lead, write_scalar, written_collection_tag, written_scalar_tag,
};
use std::alloc::Allocator;
use yaml_base::CollectionKind::{Mapping, Sequence};
use yaml_base::{
    CollectionKind, YAML_FLOW_MAPPING_STYLE, YAML_FLOW_SEQUENCE_STYLE, yaml_error_t,
    yaml_mapping_style_t, yaml_scalar_style_t, yaml_sequence_style_t,
};
use yaml_mark::analyze_anchor;
use yaml_pen::Pen;
use yaml_scalar::write_simple_ascii_scalar;

impl<A: Allocator + Copy> Machine<A> {
    /// Processes a scalar. One that is plain as it is has no anchor and no written tag, so nothing of it can be refused.
    #[inline(always)]
    pub(crate) fn scalar(&mut self, content: &ScalarContent) -> Result<(), yaml_error_t>
        ensures { (empty : Bool) → Processed (scalar (seen_scalar content.now)) empty self.old self.new result }
    {
        match self.stage {
            Stage::Node if stands_plain(&self.settings, content) => self.put_simple_ascii(
                content.value,
            ),
            Stage::Node if is_bare(content) => self.put_bare(content.value, content.style),
            _ => {
                let apart = *content;
                self.chosen_scalar(&apart)
            }
        }
    }

    /// Writes a scalar without anchor and tag that needs no tag in any style: the tests of names and flags fold away.
    fn put_bare(&mut self, value: &str, style: yaml_scalar_style_t) -> Result<(), yaml_error_t>
        requires { is_at_node self.old.stage ≡ true }
        ensures { (empty : Bool) → Processed (scalar (bare_scalar (chars value.now) (seen_scalar_style style))) empty self.old self.new result }
    {
        self.put_chosen(&ScalarContent {
            anchor: None,
            tag: None,
            value,
            plain_implicit: true,
            quoted_implicit: true,
            style,
        })
    }

    /// Processes any other scalar: checks its anchor and tag, then its place.
    fn chosen_scalar(&mut self, content: &ScalarContent) -> Result<(), yaml_error_t>
        ensures { (empty : Bool) → Processed (scalar (seen_scalar content.now)) empty self.old self.new result }
    {
        match check_scalar_names(self.settings.canonical, content) {
            Ok(()) => match self.stage {
                Stage::Node => self.put_chosen(content),
                stage => Err(stage.refusal()),
            },
            Err(error) => Err(error),
        }
    }

    /// Writes a simple ASCII scalar that is plain as it is; the open-ended state stays. Takes only the value, so that its calls are inlined.
    fn put_simple_ascii(&mut self, value: &str) -> Result<(), yaml_error_t>
        requires stage { is_at_node self.old.stage ≡ true }
        requires simple_ascii { IsSimpleAscii value.now }
        ensures { (content : ScalarContent) → StandsPlain self.old.settings.canonical content → content.value.now ≡ value.now
            → name_or_tag_fault self.old.given.canonical (scalar (seen_scalar content)) ≡ None
            → (empty : Bool) → Processed (scalar (seen_scalar content)) empty self.old self.new result }
    {
        let place = self.frames.next_place();
        let simple = is_simple_ascii_key(&place, value);
        let site = Site {
            settings: &self.settings,
            place,
            simple,
        };
        let bare = false;
        write_lead(&mut self.pen, &site, None, None, bare)?;
        let indent = line_indent(&self.settings, &site.place);
        let width = self.settings.width;
        write_simple_ascii_scalar(&mut self.pen, value, !simple, indent, width)?;
        self.stage = self.frames.advance(simple);
        Ok(())
    }

    /// Writes any other scalar.
    #[inline(always)]
    pub(crate) fn put_chosen(&mut self, content: &ScalarContent) -> Result<(), yaml_error_t>
        requires stage { is_at_node self.old.stage ≡ true }
        requires names { name_or_tag_fault self.old.given.canonical (scalar (seen_scalar content.now)) ≡ None }
        ensures { (empty : Bool) → Processed (scalar (seen_scalar content.now)) empty self.old self.new result }
    {
        if lacks_flag(content, self.settings.canonical) {
            return Err(yaml_error_t::NoTagNorImplicit);
        }
        let place = self.frames.next_place();
        let written = written_scalar_tag(content, self.settings.canonical);
        let tag = spell(written, &self.directives);
        let simple = is_simple_scalar_key(&self.settings, &place, content, tag);
        self.stage = self.frames.advance(simple);
        let site = Site {
            settings: &self.settings,
            place,
            simple,
        };
        write_scalar(&mut self.pen, &mut self.open_ended, &site, content, tag)
    }

    /// Processes an alias.
    pub(crate) fn alias(&mut self, name: &str) -> Result<(), yaml_error_t>
        ensures { (empty : Bool) → Processed (alias (chars name.now)) empty self.old self.new result }
    {
        let alias = true;
        analyze_anchor(name, alias)?;
        if !self.is_at_node() {
            return Err(self.stage.refusal());
        }
        let place = self.frames.next_place();
        let simple = is_simple_alias_key(&self.settings, &place, name);
        self.stage = self.frames.advance(simple);
        let site = Site {
            settings: &self.settings,
            place,
            simple,
        };
        write_alias(&mut self.pen, &site, name)
    }

    /// Processes the start of a collection. Reserves memory for the open collection first: if that fails, nothing of the start
    /// is written.
    pub(crate) fn start_collection(
        &mut self,
        content: &CollectionContent,
        kind: CollectionKind,
        flow_asked: bool,
        empty: bool,
    ) -> Result<(), yaml_error_t>
        ensures { (style : CollectionStyle) → asks_flow style ≡ flow_asked
            → Processed (start_of_kind (is_mapping kind) (seen_collection content.now style)) empty self.old self.new result }
    {
        check_collection_names(self.settings.canonical, content)?;
        if !self.is_at_node() {
            return Err(self.stage.refusal());
        }
        self.frames.make_room()?;
        self.open_collection(content, kind, flow_asked, empty)
    }

    fn open_collection(
        &mut self,
        content: &CollectionContent,
        kind: CollectionKind,
        flow_asked: bool,
        empty: bool,
    ) -> Result<(), yaml_error_t>
        requires stage { is_at_node self.old.stage ≡ true }
        requires names { name_or_tag_fault self.old.given.canonical (start_of_kind (is_mapping kind) (seen_collection content.now any_layout)) ≡ None }
        ensures { (style : CollectionStyle) → asks_flow style ≡ flow_asked
            → Processed (start_of_kind (is_mapping kind) (seen_collection content.now style)) empty self.old self.new result }
    {
        if self.frames.is_full() {
            return Err(yaml_error_t::TooDeep);
        }
        let place = self.frames.next_place();
        let written = written_collection_tag(content, self.settings.canonical);
        let tag = spell(written, &self.directives);
        let simple = is_simple_collection_key(&self.settings, &place, content, tag, empty);
        let site = Site {
            settings: &self.settings,
            place,
            simple,
        };
        write_collection_start(&mut self.pen, &site, content, tag)?;
        let in_flow = is_written_in_flow(&site, flow_asked, empty);
        let frame = opened_frame(&self.pen, &site, kind, in_flow);
        self.frames.push(frame)
    }

    fn is_at_node(&self) -> bool
        ensures { result ≡ is_at_node self.now.stage }
    {
        matches!(self.stage, Stage::Node)
    }

    /// Returns whether the end of a collection of this kind may come next.
    fn may_end(&self, kind: CollectionKind) -> bool
        ensures { result ≡ stage_allows self.now.stage (end_of_kind (is_mapping kind)) }
    {
        match self.stage {
            Stage::Node => self.frames.may_end(kind),
            _ => false,
        }
    }

    /// Processes the end of a collection.
    pub(crate) fn end_collection(&mut self, kind: CollectionKind) -> Result<(), yaml_error_t>
        ensures { (empty : Bool) → Processed (end_of_kind (is_mapping kind)) empty self.old self.new result }
    {
        if !self.may_end(kind) {
            return Err(self.stage.refusal());
        }
        match self.frames.pop() {
            None => Err(yaml_error_t::ExpectedNode),
            Some(frame) => {
                let around = self.frames.next_place();
                self.stage = self.frames.advance(frame.simple);
                let outer = Site {
                    settings: &self.settings,
                    place: around,
                    simple: frame.simple,
                };
                write_collection_end(&mut self.pen, &outer, &frame, kind)
            }
        }
    }
}

/// Returns whether a scalar has no anchor and no tag, and needs no tag in any style.
fn is_bare(content: &ScalarContent) -> bool
    ensures { result ≡ true → seen_scalar content.now ≡ bare_scalar (chars content.now.value.now) (seen_scalar_style content.now.style) }
{
    content.anchor.is_none()
        && content.tag.is_none()
        && content.plain_implicit
        && content.quoted_implicit
}

/// Returns whether a scalar has neither a written tag nor a flag that lets the tag be left out.
fn lacks_flag(content: &ScalarContent, canonical: bool) -> bool
    ensures { result ≡ style.lacks_tag_and_flags
        (is_some (scalar_tag canonical (seen_scalar content.now))) content.now.plain_implicit content.now.quoted_implicit }
{
    let tag = written_scalar_tag(content, canonical);
    tag.is_none() && !content.plain_implicit && !content.quoted_implicit
}

pub(crate) fn is_flow_sequence(style: yaml_sequence_style_t) -> bool
    ensures { result ≡ asks_flow (seen_sequence_style style) }
{
    matches!(style, YAML_FLOW_SEQUENCE_STYLE)
}

pub(crate) fn is_flow_mapping(style: yaml_mapping_style_t) -> bool
    ensures { result ≡ asks_flow (seen_mapping_style style) }
{
    matches!(style, YAML_FLOW_MAPPING_STYLE)
}

pub(crate) fn collection_content<'a, A: Allocator>(
    anchor: &'a Option<String<A>>,
    tag: &'a Option<String<A>>,
    implicit: bool,
) -> CollectionContent<'a>
    ensures { (style : CollectionStyle)
        → seen_collection result style ≡ record {
          anchor = option_map seen_text anchor.now;
          tag = option_map seen_text tag.now;
          implicit = implicit;
          style = style;
        } }
{
    CollectionContent {
        anchor: borrowed_text(anchor),
        tag: borrowed_text(tag),
        implicit,
    }
}

/// Returns the frame of a collection whose start is written.
fn opened_frame<A: Allocator>(
    pen: &Pen<A>,
    site: &Site,
    kind: CollectionKind,
    in_flow: bool,
) -> Frame
    requires { line_column site.now.place.column + 9 ≤ most_column }
    ensures frame { seen_frame result
        ≡ record {
          place = entry_place in_flow (first_entry (is_mapping kind))
              (layout.entries_column in_flow (starts_undented (seen_effective site.now.settings.now) (is_mapping kind) (seen_role site.now.place.role))
              site.now.settings.now.indent site.now.place.column pen.now.cursor);
          simple = site.now.simple;
        } }
    ensures nested { line_column (seen_frame result).place.column ≤ line_column site.now.place.column + 9 }
{
    let in_mapping = matches!(site.place.role, Role::Key { .. } | Role::Value { .. });
    let undents = in_mapping && !site.settings.indented_sequences;
    let undented = matches!(kind, CollectionKind::Sequence) && undents;
    let column = entries_column(pen, site.settings, &site.place, in_flow, undented);
    Frame {
        place: Place {
            in_flow,
            role: first_entry(kind),
            column: Some(column),
        },
        simple: site.simple,
    }
}

fn first_entry(kind: CollectionKind) -> Role
    ensures { seen_role result ≡ first_entry (is_mapping kind) }
{
    match kind {
        Sequence => Role::Item { first: true },
        Mapping => Role::Key { first: true },
    }
}
