//! A pen writes text: it keeps the cursor, encodes, and flushes its bytes within a limit.
ghost use Rattle.std.specs.Prelude.{◌≡◌, pos, false, true, min, IsOk, IsSome, IfOk, IfErr, None, unwrap_or};
ghost use Rattle.yaml_base.specs.Settings.{line_feed_break, largest_i32};
ghost use Rattle.yaml_base.specs.Seen.{seen_encoding, seen_break};
ghost use Rattle.yaml_pen.specs.Page.{IsUntouched, IsFlushedOutput, encoded, has_bom, new_page, output_left, all_taken};
ghost use Rattle.yaml_pen.specs.Wrote.{Flushed};

use crate::encoded::encoded_character;
use crate::outlet::Outlet;
use std::alloc::Allocator;
use std::marker::Model;
use yaml_base::{yaml_break_t, yaml_encoding_t, yaml_error_t};

mod characters;
mod copies;
mod indicators;
mod new_lines;

pub use indicators::Indicator;

/// Writes characters in an encoding through a buffer of 16,384 bytes to an output that it owns, and
/// keeps the cursor. A call that writes, or a flush, returns `WriteError` if the encoded text passes
/// the limit, `Memory` if a growth is refused, and the first of these from then on.
#[derive(Drop)]
pub struct Pen<A: Allocator> {
    outlet: Outlet<A>,
    encoding: yaml_encoding_t,
    bom_due: bool,
    line_break: yaml_break_t,
    column: u32,
    whitespace: bool,
    indention: bool,
}

impl<A: Allocator> Model for Pen<A> {
    ghost use Rattle.yaml_pen.specs.Page.{Page};
    ghost use Rattle.yaml_pen.specs.Pen.{page_of, IsPen};

    ghost Value = { Page };

    ghost view = { λ p. page_of p.encoding p.bom_due p.line_break p.outlet p.whitespace p.indention };

    ghost invariant = { λ p. IsPen (page_of p.encoding p.bom_due p.line_break p.outlet p.whitespace p.indention) p.outlet.all p.column };
}

impl<A: Allocator> Pen<A> {
    /// Makes a pen at the start of a text, with no limit below `usize::MAX`. Returns `Memory` if its buffer can't be allocated.
    #[tactic(auto, unfolding(yaml_base::specs::Decode::decode))]
    pub fn new(alloc: A) -> Result<Pen<A>, yaml_error_t>
    where
        A: Copy,
        ensures made { IfOk result (λ pen. pen ≡ new_page usize.MAX) }
        ensures refused { IfErr result (λ error. error ≡ yaml_error_t.Memory) }
    {
        let Ok(outlet) = Outlet::new(alloc) else {
            return Err(yaml_error_t::Memory);
        };
        Ok(Pen {
            outlet,
            encoding: yaml_encoding_t::YAML_ANY_ENCODING,
            bom_due: false,
            line_break: yaml_break_t::YAML_ANY_BREAK,
            column: 0,
            whitespace: true,
            indention: true,
        })
    }

    /// Sets the maximum output size in bytes, before anything is written.
    pub fn set_limit(&mut self, size: usize)
        requires { IsUntouched self.old }
        ensures { self.new ≡ record self.old { limit = size } }
    {
        self.outlet.set_limit(size);
    }

    /// Sets the encoding and the line break of the text. Neither may be ANY, and nothing may be written yet.
    pub fn begin(&mut self, encoding: yaml_encoding_t, line_break: yaml_break_t)
        requires untouched { IsUntouched self.old }
        requires encoding { IsSome (seen_encoding encoding) }
        requires line_break { IsSome (seen_break line_break) }
        ensures { self.new ≡ record self.old {
          encoding = seen_encoding encoding;
          bom_due = has_bom (seen_encoding encoding);
          line_break = unwrap_or (seen_break line_break) line_feed_break;
        } }
    {
        self.encoding = encoding;
        self.bom_due = has_bom(encoding);
        self.line_break = line_break;
    }

    /// Returns whether the byte order mark still has to be written.
    pub fn is_bom_due(&self) -> bool
        ensures { result ≡ self.now.bom_due }
    {
        self.bom_due
    }

    /// Writes the byte order mark, with which UTF-16 begins (RFC 2781, section 3.2). It is called right after `begin`,
    /// and for UTF-16 alone. Always returns `Ok`.
    pub fn write_bom(&mut self) -> Result<(), yaml_error_t>
        requires { self.old.bom_due ≡ true }
        ensures ok { IsOk result }
        ensures page { self.new ≡ record self.old { bom_due = false } }
    {
        let bom = encoded_character(self.encoding, '\u{FEFF}');
        self.outlet.begin(bom.as_slice());
        self.bom_due = false;
        Ok(())
    }

    /// Flushes all text written so far. If it passes the limit, the output is filled up to the limit. If memory is
    /// refused, the output stays as it was. Needs no memory if all is flushed.
    pub fn flush(&mut self) -> Result<(), yaml_error_t>
        requires { self.old.bom_due ≡ false }
        ensures flushed { Flushed self.old self.new result }
        ensures empty { self.old.error ≡ None → self.old.output ≡ encoded self.old → self.new ≡ self.old }
    {
        self.outlet.flush()
    }

    /// Returns the flushed bytes that aren't taken yet.
    pub fn output(&self) -> &[u8]
        ensures value { result.now ≡ output_left self.now }
        ensures untaken { self.now.taken ≡ 0 → result.now ≡ self.now.output }
        ensures sound_output { IsFlushedOutput (encoded self.now) self.now.output self.now.limit self.now.error }
    {
        self.outlet.output()
    }

    /// Takes and returns the flushed bytes that aren't taken yet. These and all bytes taken before are together the
    /// output. Needs no memory, and may be called at any time, also after an error.
    pub fn take_output(&mut self) -> Vec<u8, A>
    where
        A: Copy,
        ensures rest { result.items ≡ output_left self.old }
        ensures untaken { self.old.taken ≡ 0 → result.items ≡ self.old.output }
        ensures taken { self.new ≡ all_taken self.old }
    {
        self.outlet.take_output()
    }

    /// Counts the flushed bytes that aren't taken yet as taken, as `take_output` does, after the caller handed them on
    /// from `output`. Later bytes use their memory, so a caller that hands on each part of a long text asks for no
    /// memory each time.
    ///
    /// Needs no memory, and may be called at any time, also after an error.
    pub fn consume_output(&mut self)
        ensures { self.new ≡ all_taken self.old }
    {
        self.outlet.consume_output();
    }

    /// Returns the first error.
    pub fn error(&self) -> Option<yaml_error_t>
        ensures value { result ≡ self.now.error }
        ensures sound_output { IsFlushedOutput (encoded self.now) self.now.output self.now.limit self.now.error }
    {
        self.outlet.error()
    }

    /// Sets whether white space precedes the cursor.
    pub fn set_whitespace(&mut self, whitespace: bool)
        ensures { self.new ≡ record self.old { cursor = record self.old.cursor { whitespace = whitespace } } }
    {
        self.whitespace = whitespace;
    }

    /// Sets whether only indentation, and indicators that may be part of it, precedes the cursor in its line.
    pub fn set_indention(&mut self, indention: bool)
        ensures { self.new ≡ record self.old { cursor = record self.old.cursor { indention = indention } } }
    {
        self.indention = indention;
    }

    /// Returns whether white space precedes the cursor.
    pub fn whitespace(&self) -> bool
        ensures { result ≡ self.now.cursor.whitespace }
    {
        self.whitespace
    }

    /// Returns whether only indentation, and indicators that may be part of it, precedes the cursor in its line.
    pub fn indention(&self) -> bool
        ensures { result ≡ self.now.cursor.indention }
    {
        self.indention
    }

    /// Returns the column of the next character, counted in characters; `i32::MAX` means this column or a later one.
    pub fn column(&self) -> i32
        ensures { result ≡ pos (min self.now.cursor.column largest_i32) }
    {
        self.column.min(i32::MAX as u32) as i32
    }
}

fn has_bom(encoding: yaml_encoding_t) -> bool
    ensures { result ≡ has_bom (seen_encoding encoding) }
{
    matches!(
        encoding,
        yaml_encoding_t::YAML_UTF16LE_ENCODING | yaml_encoding_t::YAML_UTF16BE_ENCODING
    )
}
