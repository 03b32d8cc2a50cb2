//! A character many times, and line breaks many times.
ghost use Rattle.std.specs.Prelude.{◌≡◌, ◌<◌, ◌≤◌, false, true, replicate};
ghost use Rattle.yaml_base.specs.Characters.{is_break, line_feed};
ghost use Rattle.yaml_base.specs.Cursor.{render_text};
ghost use Rattle.yaml_base.specs.Settings.{line_feed_break};
ghost use Rattle.yaml_pen.specs.Page.{IsReady, has_bom};
ghost use Rattle.yaml_pen.specs.Wrote.{Wrote};

use crate::pen::{Pen, has_bom};
use std::alloc::Allocator;
use yaml_base::{yaml_break_t, yaml_error_t};

/// The maximum number of copies that are written in one call.
const MOST_COPIES: usize = 64;

impl<A: Allocator> Pen<A> {
    /// Writes an ASCII character that is no break a number of times.
    pub fn write_copies(&mut self, character: u8, count: usize) -> Result<(), yaml_error_t>
        requires ready { IsReady self.old }
        requires ascii { character < 128 }
        requires no_break { is_break character ≡ false }
        ensures written { Wrote (render_text (replicate count character)) self.old self.new result }
    {
        self.write_nothing()?;
        let copies = [character; MOST_COPIES];
        let mut left = count;
        while left > MOST_COPIES {
            self.write_ascii(&copies)?;
            left -= MOST_COPIES;
        }
        self.write_ascii(&copies[..left])
    }

    /// Writes a number of line breaks, each as the setting says.
    pub fn write_line_feeds(&mut self, count: usize) -> Result<(), yaml_error_t>
        requires ready { IsReady self.old }
        ensures written { Wrote (render_text (replicate count line_feed)) self.old self.new result }
    {
        self.write_nothing()?;
        let mut left = count;
        while left > MOST_COPIES {
            self.write_few_line_feeds(MOST_COPIES)?;
            left -= MOST_COPIES;
        }
        self.write_few_line_feeds(left)
    }

    fn write_few_line_feeds(&mut self, count: usize) -> Result<(), yaml_error_t>
        requires ready { IsReady self.old }
        requires few { count ≤ 64 }
        ensures written { Wrote (render_text (replicate count line_feed)) self.old self.new result }
    {
        if count > 0 && self.has_plain_breaks() {
            self.append_line_feeds(count)
        } else {
            self.write_each_line_feed(count)
        }
    }

    // Whether a break is LF, one byte. A setting of ANY counts as LF.
    pub(super) fn has_plain_breaks(&self) -> bool
        ensures no_bom { result ≡ true → has_bom self.now.encoding ≡ false }
        ensures line_feed { result ≡ true → self.now.line_break ≡ line_feed_break }
    {
        !has_bom(self.encoding)
            && match self.line_break {
                yaml_break_t::YAML_CR_BREAK | yaml_break_t::YAML_CRLN_BREAK => false,
                _ => true,
            }
    }

    fn append_line_feeds(&mut self, count: usize) -> Result<(), yaml_error_t>
        requires ready { IsReady self.old }
        requires some { 0 < count }
        requires few { count ≤ 64 }
        requires no_bom { has_bom self.old.encoding ≡ false }
        requires line_feed { self.old.line_break ≡ line_feed_break }
        ensures written { Wrote (render_text (replicate count line_feed)) self.old self.new result }
    {
        let line_feeds = [b'\n'; MOST_COPIES];
        self.outlet.append(&line_feeds[..count])?;
        self.column = 0;
        Ok(())
    }

    // One break after another.
    fn write_each_line_feed(&mut self, count: usize) -> Result<(), yaml_error_t>
        requires ready { IsReady self.old }
        ensures written { Wrote (render_text (replicate count line_feed)) self.old self.new result }
    {
        self.write_nothing()?;
        for written in 0..count {
            self.put_break()?;
        }
        Ok(())
    }
}
