//! Indicators, and the spaces before them.
ghost use Rattle.std.specs.Prelude.{◌≡◌, false, true};
ghost use Rattle.std.specs.Str.{chars};
ghost use Rattle.std.specs.List.{list_any};
ghost use Rattle.yaml_base.specs.Characters.{is_break};
ghost use Rattle.yaml_base.specs.Cursor.{render_text, space_if, indicator};
ghost use Rattle.yaml_base.specs.Indicators.{render_indicator, indented_indicator, opening_bracket, spaced, tight};
ghost use Rattle.yaml_pen.specs.Indicators.{seen_indicator_row};
ghost use Rattle.yaml_pen.specs.Page.{IsReady};
ghost use Rattle.yaml_pen.specs.Wrote.{Wrote};

use crate::pen::Pen;
use std::alloc::Allocator;
use yaml_base::yaml_error_t;

/// A piece of punctuation, or the first word of a line, with its use of the cursor's flags.
#[derive(Clone, Copy)]
pub struct Indicator<'a> {
    /// The text that is written. It holds no break.
    pub text: &'a str,
    /// A space comes before it, unless white space precedes the cursor.
    pub needs_space: bool,
    /// It counts as white space itself.
    pub leaves_space: bool,
    /// It may be part of indentation, which goes on after it.
    pub keeps_indention: bool,
}

impl<'a> Indicator<'a> {
    /// Makes an indicator with a space before it and none after it.
    pub fn spaced(text: &'a str) -> Indicator<'a>
        ensures { seen_indicator_row result ≡ spaced (chars text.now) }
    {
        Indicator {
            text,
            needs_space: true,
            leaves_space: false,
            keeps_indention: false,
        }
    }

    /// Makes an opening bracket: a space before it, and it counts as white space.
    pub fn opening(text: &'a str) -> Indicator<'a>
        ensures { seen_indicator_row result ≡ opening_bracket (chars text.now) }
    {
        Indicator {
            text,
            needs_space: true,
            leaves_space: true,
            keeps_indention: false,
        }
    }

    /// Makes an indicator with no space before it and none after it.
    pub fn tight(text: &'a str) -> Indicator<'a>
        ensures { seen_indicator_row result ≡ tight (chars text.now) }
    {
        Indicator {
            text,
            needs_space: false,
            leaves_space: false,
            keeps_indention: false,
        }
    }

    /// Makes the indicator of an entry in a block: a space before it, and it may be part of indentation.
    pub fn indented(text: &'a str) -> Indicator<'a>
        ensures { seen_indicator_row result ≡ indented_indicator (chars text.now) }
    {
        Indicator {
            text,
            needs_space: true,
            leaves_space: false,
            keeps_indention: true,
        }
    }
}

impl<A: Allocator> Pen<A> {
    /// Writes an indicator, and a space before it if one is needed and no white space precedes. `whitespace` says
    /// whether white space then precedes the cursor; indentation goes on only if `indention` says so.
    pub fn write_indicator(
        &mut self,
        text: &str,
        need_whitespace: bool,
        whitespace: bool,
        indention: bool,
    ) -> Result<(), yaml_error_t>
        requires ready { IsReady self.old }
        requires no_break { list_any is_break (chars text.now) ≡ false }
        ensures written { Wrote (indicator (chars text.now) need_whitespace whitespace indention) self.old self.new result }
    {
        self.put_indicator(&Indicator {
            text,
            needs_space: need_whitespace,
            leaves_space: whitespace,
            keeps_indention: indention,
        })
    }

    /// Writes an indicator: a space if it needs one and no white space precedes, and its text. The indicator says
    /// whether white space then precedes the cursor, and whether indentation goes on.
    #[inline(always)]
    pub fn put_indicator(&mut self, indicator: &Indicator) -> Result<(), yaml_error_t>
        requires ready { IsReady self.old }
        requires no_break { list_any is_break (chars indicator.now.text.now) ≡ false }
        ensures written { Wrote (render_indicator (seen_indicator_row indicator.now)) self.old self.new result }
    {
        self.separate_if(indicator.needs_space)?;
        // Most indicators are one byte, which is a store.
        match indicator.text.as_bytes() {
            [byte] => self.put(*byte)?,
            _ => self.write_run(indicator.text)?,
        }
        self.set_whitespace(indicator.leaves_space);
        self.set_indention(self.indention() & indicator.keeps_indention);
        Ok(())
    }

    /// Writes a space, unless white space precedes the cursor.
    pub fn separate(&mut self) -> Result<(), yaml_error_t>
        requires ready { IsReady self.old }
        ensures written { Wrote (λ cursor. render_text (space_if true cursor) cursor) self.old self.new result }
    {
        self.separate_if(true)
    }

    /// Writes a space, if one is needed and no white space precedes the cursor.
    pub fn separate_if(&mut self, needed: bool) -> Result<(), yaml_error_t>
        requires ready { IsReady self.old }
        ensures written { Wrote (λ cursor. render_text (space_if needed cursor) cursor) self.old self.new result }
    {
        if needed && !self.whitespace {
            self.put(b' ')
        } else {
            self.write_nothing()
        }
    }
}
