//! Characters, runs and breaks.
ghost use Rattle.std.specs.Prelude.{◌≡◌, ◌==◌, ◌<◌, ◌≤◌, length, [], ◌∷◌, false, true};
ghost use Rattle.std.specs.Str.{IsAscii, chars};
ghost use Rattle.std.specs.List.{list_any};
ghost use Rattle.yaml_base.specs.Characters.{is_break, line_feed};
ghost use Rattle.yaml_base.specs.Cursor.{render_text, render_nothing};
ghost use Rattle.yaml_pen.specs.Page.{buffer_size, IsReady, has_bom};
ghost use Rattle.yaml_pen.specs.Wrote.{Wrote};

use crate::counting::{character_count, next_column};
use crate::encoded::{encoded_break, encoded_character};
use crate::outlet::BUFFER_SIZE;
use crate::pen::{Pen, has_bom};
use std::alloc::Allocator;
use yaml_base::yaml_error_t;

impl<A: Allocator> Pen<A> {
    /// Writes a character that is no break.
    pub fn write_char(&mut self, character: char) -> Result<(), yaml_error_t>
        requires ready { IsReady self.old }
        requires no_break { is_break character ≡ false }
        ensures written { Wrote (render_text (character ∷ [])) self.old self.new result }
    {
        self.write_character(character)
    }

    /// Writes an ASCII character that is no break.
    pub fn put(&mut self, character: u8) -> Result<(), yaml_error_t>
        requires ready { IsReady self.old }
        requires ascii { character < 128 }
        requires no_break { is_break character ≡ false }
        ensures written { Wrote (render_text (character ∷ [])) self.old self.new result }
    {
        self.write_ascii(&[character])
    }

    /// Writes characters, none of which may be a break.
    pub fn write_run(&mut self, text: &str) -> Result<(), yaml_error_t>
        requires ready { IsReady self.old }
        requires no_break { list_any is_break (chars text.now) ≡ false }
        ensures written { Wrote (render_text (chars text.now)) self.old self.new result }
    {
        if text.is_empty() {
            self.write_nothing()
        } else if has_bom(self.encoding) {
            self.write_characters(text)
        } else {
            self.write_pieces(text)
        }
    }

    /// Writes ASCII characters, none of which may be a break, and at most as many as the buffer holds.
    #[inline(always)]
    pub fn write_ascii(&mut self, text: &[u8]) -> Result<(), yaml_error_t>
        requires ready { IsReady self.old }
        requires ascii { IsAscii text.now }
        requires no_break { list_any is_break text.now ≡ false }
        requires fits { length text.now ≤ buffer_size }
        ensures written { Wrote (render_text text.now) self.old self.new result }
    {
        if !has_bom(self.encoding) {
            self.write_ascii_bytes(text)
        } else {
            self.write_ascii_characters(text)
        }
    }

    /// Writes a line break, as the setting says.
    pub fn put_break(&mut self) -> Result<(), yaml_error_t>
        requires ready { IsReady self.old }
        ensures written { Wrote (render_text (line_feed ∷ [])) self.old self.new result }
    {
        let bytes = encoded_break(self.encoding, self.line_break);
        self.outlet.append(bytes.as_slice())?;
        self.column = 0;
        Ok(())
    }

    /// Writes a character that is a break: LF as the setting says, any other as itself.
    pub fn write_break(&mut self, line_break: char) -> Result<(), yaml_error_t>
        requires ready { IsReady self.old }
        requires a_break { is_break line_break ≡ true }
        ensures written { Wrote (render_text (line_break ∷ [])) self.old self.new result }
    {
        if line_break == '\n' {
            self.put_break()
        } else {
            self.write_character(line_break)
        }
    }

    /// Writes nothing, and returns the pen's error, if it failed.
    pub fn write_nothing(&self) -> Result<(), yaml_error_t>
        requires { IsReady self.now }
        ensures { Wrote render_nothing self.now self.now result }
    {
        match self.error() {
            Some(error) => Err(error),
            None => Ok(()),
        }
    }

    // In UTF-8, each character is its byte.
    #[inline]
    fn write_ascii_bytes(&mut self, text: &[u8]) -> Result<(), yaml_error_t>
        requires ready { IsReady self.old }
        requires no_bom { has_bom self.old.encoding ≡ false }
        requires ascii { IsAscii text.now }
        requires no_break { list_any is_break text.now ≡ false }
        requires fits { length text.now ≤ buffer_size }
        ensures written { Wrote (render_text text.now) self.old self.new result }
    {
        self.outlet.append(text)?;
        self.column = self.column.saturating_add(text.len() as u32);
        Ok(())
    }

    // In UTF-16.
    fn write_ascii_characters(&mut self, text: &[u8]) -> Result<(), yaml_error_t>
        requires ready { IsReady self.old }
        requires ascii { IsAscii text.now }
        requires no_break { list_any is_break text.now ≡ false }
        ensures written { Wrote (render_text text.now) self.old self.new result }
    {
        match str::from_utf8(text) {
            Ok(characters) => self.write_characters(characters),
            Err(_) => self.write_nothing(),
        }
    }

    // In UTF-8, pieces of whole characters that fit the buffer.
    fn write_pieces(&mut self, text: &str) -> Result<(), yaml_error_t>
        requires ready { IsReady self.old }
        requires no_bom { has_bom self.old.encoding ≡ false }
        requires no_break { list_any is_break (chars text.now) ≡ false }
        ensures written { Wrote (render_text (chars text.now)) self.old self.new result }
    {
        self.write_nothing()?;
        let mut rest = text;
        while rest.len() > BUFFER_SIZE {
            let (piece, after) = rest.split_at(rest.floor_char_boundary(BUFFER_SIZE));
            self.write_piece(piece)?;
            rest = after;
        }
        self.write_piece(rest)
    }

    fn write_piece(&mut self, text: &str) -> Result<(), yaml_error_t>
        requires ready { IsReady self.old }
        requires no_bom { has_bom self.old.encoding ≡ false }
        requires no_break { list_any is_break (chars text.now) ≡ false }
        requires fits { length text.now ≤ buffer_size }
        ensures written { Wrote (render_text (chars text.now)) self.old self.new result }
    {
        self.outlet.append(text.as_bytes())?;
        self.column = self.column.saturating_add(character_count(text));
        Ok(())
    }

    // One character after another.
    fn write_characters(&mut self, text: &str) -> Result<(), yaml_error_t>
        requires ready { IsReady self.old }
        requires no_break { list_any is_break (chars text.now) ≡ false }
        ensures written { Wrote (render_text (chars text.now)) self.old self.new result }
    {
        self.write_nothing()?;
        let mut characters = text.chars();
        while let Some(character) = characters.next() {
            self.write_character(character)?;
        }
        Ok(())
    }

    pub(super) fn write_character(&mut self, character: char) -> Result<(), yaml_error_t>
        requires ready { IsReady self.old }
        requires not_line_feed { (character == line_feed) ≡ false }
        ensures written { Wrote (render_text (character ∷ [])) self.old self.new result }
    {
        let bytes = encoded_character(self.encoding, character);
        self.outlet.append(bytes.as_slice())?;
        self.column = next_column(character, self.column);
        Ok(())
    }
}
