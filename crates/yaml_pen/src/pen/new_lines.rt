//! New lines, and the spaces that they begin with.
ghost use Rattle.std.specs.Prelude.{◌≡◌, pos, ◌≤ℤ◌, ◌<◌, ◌≤◌, false, true};
ghost use Rattle.yaml_base.specs.Cursor.{breaks_line, new_line};
ghost use Rattle.yaml_base.specs.Settings.{line_feed_break};
ghost use Rattle.yaml_pen.specs.Page.{IsReady, has_bom, natural};
ghost use Rattle.yaml_pen.specs.Wrote.{Wrote};
ghost use Rattle.yaml_pen.specs.Lines.{line_begun, spaces_to};

use crate::pen::Pen;
use std::alloc::Allocator;
use yaml_base::yaml_error_t;

/// The maximum number of spaces that are written in one call with the break before them.
const MOST_SPACES_AFTER_BREAK: u32 = 31;
/// LF, and that many spaces.
static LINE_START: [u8; 32] = *b"\n                               ";

impl<A: Allocator> Pen<A> {
    /// Begins a new line at a column, counted in characters. Breaks the line if more than indentation precedes the
    /// cursor in it, if the cursor is past that column, or if it is at that column and no white space precedes it; then
    /// writes spaces up to the column.
    #[inline(always)]
    pub fn write_indent(&mut self, indent: i32) -> Result<(), yaml_error_t>
        requires ready { IsReady self.old }
        requires not_negative { pos 0 ≤ℤ indent }
        ensures written { Wrote (new_line (natural indent)) self.old self.new result }
    {
        let at = indent as u32;
        if self.starts_at_once(at) {
            self.write_line_start(at)?;
        } else {
            self.break_and_indent(at)?;
        }
        self.set_whitespace(true);
        self.set_indention(true);
        Ok(())
    }

    // Whether a break is needed here, and is one byte as the spaces are.
    fn starts_at_once(&self, at: u32) -> bool
        requires { at < 2147483648 }
        ensures breaks { result ≡ true → breaks_line at self.now.cursor ≡ true }
        ensures few { result ≡ true → at ≤ 31 }
        ensures no_bom { result ≡ true → has_bom self.now.encoding ≡ false }
        ensures line_feed { result ≡ true → self.now.line_break ≡ line_feed_break }
    {
        at <= MOST_SPACES_AFTER_BREAK && self.breaks_line(at) && self.has_plain_breaks()
    }

    // Most lines begin at few columns. A start of known length is copied without a call.
    fn write_line_start(&mut self, at: u32) -> Result<(), yaml_error_t>
        requires ready { IsReady self.old }
        requires breaks { breaks_line at self.old.cursor ≡ true }
        requires few { at ≤ 31 }
        requires no_bom { has_bom self.old.encoding ≡ false }
        requires line_feed { self.old.line_break ≡ line_feed_break }
        ensures written { Wrote (line_begun at) self.old self.new result }
    {
        match at {
            2 => self.append_line_start(2),
            4 => self.append_line_start(4),
            6 => self.append_line_start(6),
            _ => self.append_line_start(at),
        }
    }

    fn append_line_start(&mut self, at: u32) -> Result<(), yaml_error_t>
        requires ready { IsReady self.old }
        requires breaks { breaks_line at self.old.cursor ≡ true }
        requires few { at ≤ 31 }
        requires no_bom { has_bom self.old.encoding ≡ false }
        requires line_feed { self.old.line_break ≡ line_feed_break }
        ensures written { Wrote (line_begun at) self.old self.new result }
    {
        self.outlet.append(&LINE_START[..at as usize + 1])?;
        self.column = at;
        Ok(())
    }

    fn break_and_indent(&mut self, at: u32) -> Result<(), yaml_error_t>
        requires ready { IsReady self.old }
        requires below { at < 2147483648 }
        ensures written { Wrote (line_begun at) self.old self.new result }
    {
        if self.breaks_line(at) {
            self.put_break()?;
        } else {
            self.write_nothing()?;
        }
        self.write_spaces_to(at)
    }

    fn breaks_line(&self, at: u32) -> bool
        requires { at < 2147483648 }
        ensures { result ≡ breaks_line at self.now.cursor }
    {
        !self.indention || self.column > at || (self.column == at && !self.whitespace)
    }

    fn write_spaces_to(&mut self, at: u32) -> Result<(), yaml_error_t>
        requires ready { IsReady self.old }
        requires below { at < 2147483648 }
        ensures written { Wrote (spaces_to at) self.old self.new result }
    {
        let missing = at.saturating_sub(self.column);
        self.write_copies(b' ', missing as usize)
    }
}
