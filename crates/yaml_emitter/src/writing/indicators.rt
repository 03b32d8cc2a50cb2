//! Indicators: punctuation, and words on lines of their own (YAML 1.1, section 5.3).

ghost use Rattle.std.specs.Prelude.{◌≡◌, false};
ghost use Rattle.std.specs.List.{list_any};
ghost use Rattle.yaml_base.specs.Characters.{is_break};
ghost use Rattle.yaml_base.specs.Indicators.{render_indicator};
ghost use Rattle.yaml_pen.specs.Indicators as pens;
ghost use Rattle.yaml_pen.specs.Page.{IsReady};
ghost use Rattle.yaml_pen.specs.Wrote.{Wrote};
ghost use Rattle.yaml_emitter.specs.WrittenAtoms.{seen_indicator};

use std::alloc::Allocator;
use yaml_base::yaml_error_t;
use yaml_pen::{Indicator, Pen};

/// An indicator by its use.
#[derive(Clone, Copy)]
pub(crate) enum IndicatorKind {
    DocumentStart,
    DocumentEnd,
    YamlDirective,
    Version11,
    Version12,
    TagDirective,
    FlowSequenceStart,
    FlowSequenceEnd,
    FlowMappingStart,
    FlowMappingEnd,
    FlowEntry,
    FlowKey,
    FlowValue,
    BlockEntry,
    BlockKey,
    BlockValue,
    /// After a simple key, in flow and in blocks.
    SimpleValue,
    Anchor,
    Alias,
    VerbatimStart,
    VerbatimEnd,
}

impl IndicatorKind {
    fn text(self) -> &'static str
        ensures { result.now ≡ (seen_indicator self).text }
    {
        use IndicatorKind::*;
        match self {
            DocumentStart => "---",
            DocumentEnd => "...",
            YamlDirective => "%YAML",
            Version11 => "1.1",
            Version12 => "1.2",
            TagDirective => "%TAG",
            FlowSequenceStart => "[",
            FlowSequenceEnd => "]",
            FlowMappingStart => "{",
            FlowMappingEnd => "}",
            FlowEntry => ",",
            FlowKey => "?",
            FlowValue => ":",
            BlockEntry => "-",
            BlockKey => "?",
            BlockValue => ":",
            SimpleValue => ":",
            Anchor => "&",
            Alias => "*",
            VerbatimStart => "!<",
            VerbatimEnd => ">",
        }
    }

    fn indicator(self) -> Indicator<'static>
        ensures made { pens.seen_indicator_row result ≡ seen_indicator self }
        ensures no_break { list_any is_break (pens.seen_indicator_row result).text ≡ false }
    {
        use IndicatorKind::*;
        let text = self.text();
        match self {
            FlowSequenceStart | FlowMappingStart => Indicator::opening(text),
            FlowSequenceEnd | FlowMappingEnd | FlowEntry | SimpleValue | VerbatimEnd =>
                Indicator::tight(text),
            BlockEntry | BlockKey | BlockValue => Indicator::indented(text),
            DocumentStart
            | DocumentEnd
            | YamlDirective
            | Version11
            | Version12
            | TagDirective
            | FlowKey
            | FlowValue
            | Anchor
            | Alias
            | VerbatimStart => Indicator::spaced(text),
        }
    }
}

/// Writes an indicator.
#[inline(always)]
pub(crate) fn write_indicator<A: Allocator>(
    pen: &mut Pen<A>,
    kind: IndicatorKind,
) -> Result<(), yaml_error_t>
    requires { IsReady pen.old }
    ensures { Wrote (render_indicator (seen_indicator kind)) pen.old pen.new result }
{
    pen.put_indicator(&kind.indicator())
}
