//! The output of a program's messages, a line each.
ghost use Rattle.std.specs.Fmt.InlineText.{inline_text};
ghost use Rattle.std.specs.Prelude.{◌≡◌, ◌++◌, IfSome, codes, false, flat_map, true};
ghost use Rattle.yaml_base.specs.Sinks.{AppendsFirst};
ghost use Rattle.std.specs.Io.KnownBytes.{Appends};
ghost use Rattle.yaml_program.specs.Messages as messages;

use crate::words::Wording;
use std::fmt;
use std::fmt::{Display, InlineText};
use std::io::Write;
use yaml_base::write_to_sink;

/// The maximum number of bytes of a part of a message. No part is as long: of a name at most 80 characters are shown, each by at most 10
/// bytes, and an error of the system has at most 256 bytes and a number.
const PART_SIZE: usize = 1_024;

/// The text of a part of a message.
pub(crate) type Part = InlineText<PART_SIZE>;

/// Writes texts to a sink, one after another up to the first that can't be written whole. Returns whether all were written.
fn write_texts<W: Write>(sink: &mut W, texts: &[&str]) -> bool
    ensures whole { result ≡ true → Appends (W.contents sink.old) (W.contents sink.new) (flat_map (λ text. text.now) texts.now) }
    ensures first { AppendsFirst (W.contents sink.old) (W.contents sink.new) (flat_map (λ text. text.now) texts.now) }
{
    for text in texts {
        if let Err(_) = write_to_sink(sink, text.as_bytes()) {
            return false;
        }
    }
    true
}

/// Returns the texts of a message of this program, whose words are four texts.
pub(crate) fn line_of<'a>(
    program: &'a str,
    first: &'a str,
    second: &'a str,
    third: &'a str,
    last: &'a str,
) -> [&'a str; 7]
    ensures { flat_map (λ text. text.now) result ≡ messages.message_line program.now (first.now ++ second.now ++ third.now ++ last.now) }
{
    [program, ": ", first, second, third, last, "\n"]
}

/// Returns the texts of a line of this program that counts files.
fn count_of<'a>(program: &'a str, counts: &'a str, end: &'a str) -> [&'a str; 5]
    ensures { flat_map (λ text. text.now) result ≡ codes "\r" ++ program.now ++ codes ": " ++ counts.now ++ end.now }
{
    ["\r", program, ": ", counts, end]
}

/// Whether a part of a message isn't on the sink, since it couldn't be written, or was longer than `PART_SIZE`.
#[derive(Clone, Copy)]
pub(crate) struct Loss {
    is_some: bool,
}

impl Loss {
    /// Returns the text of a value. What doesn't fit in a part is lost.
    pub(crate) fn part<D: Display + Drop>(&mut self, value: D) -> Part
        ensures shown { self.new.is_some ≡ false → IfSome (D.output value) (λ shown. inline_text result ≡ shown) }
        ensures kept { self.new.is_some ≡ false → self.old.is_some ≡ false }
    {
        let mut part = InlineText::new();
        if let Err(_) = fmt::Write::write(&mut part, value) {
            self.is_some = true;
        }
        part
    }
}

/// The output to which a program reports failures.
#[derive(Drop)]
pub struct Messages<W> {
    pub words: &'static Wording,
    pub sink: W,
    /// The last line on the sink counts the files that are done, and isn't ended.
    has_open_line: bool,
    pub(crate) loss: Loss,
}

impl<W: Write> Messages<W> {
    /// Returns messages to this sink, whose last line is ended. None of them is lost.
    pub fn new(words: &'static Wording, sink: W) -> Self
        ensures words { result.words.now ≡ words.now }
        ensures sink { result.sink ≡ sink }
        ensures ended { result.has_open_line ≡ false }
        ensures kept { result.loss.is_some ≡ false }
    {
        Messages {
            words,
            sink,
            has_open_line: false,
            loss: Loss { is_some: false },
        }
    }

    /// Writes texts, up to the first that can't be written whole. The rest is lost.
    fn put(&mut self, texts: &[&str])
        ensures rest { self.new ≡ record self.old { sink = self.new.sink; loss = self.new.loss } }
        ensures kept { self.new.loss.is_some ≡ false → self.old.loss.is_some ≡ false }
        ensures whole { self.new.loss.is_some ≡ false
            → Appends (W.contents self.old.sink) (W.contents self.new.sink) (flat_map (λ text. text.now) texts.now) }
        ensures first { AppendsFirst (W.contents self.old.sink) (W.contents self.new.sink) (flat_map (λ text. text.now) texts.now) }
    {
        if !write_texts(&mut self.sink, texts) {
            self.loss.is_some = true;
        }
    }

    /// Ends the line that counts the files that are done, if there is one.
    fn end_line(&mut self)
        ensures ended { self.new.has_open_line ≡ false }
        ensures words { self.new.words ≡ self.old.words }
        ensures kept { self.new.loss.is_some ≡ false → self.old.loss.is_some ≡ false }
        ensures whole { self.new.loss.is_some ≡ false
            → Appends (W.contents self.old.sink) (W.contents self.new.sink) (messages.line_end self.old.has_open_line) }
        ensures first { AppendsFirst (W.contents self.old.sink) (W.contents self.new.sink) (messages.line_end self.old.has_open_line) }
    {
        if self.has_open_line {
            self.put(&["\n"]);
            self.has_open_line = false;
        }
    }

    /// Writes a line of texts, after the end of an open line.
    pub(crate) fn tell(&mut self, texts: &[&str])
        ensures { messages.Told W.contents self.old self.new (flat_map (λ text. text.now) texts.now) }
    {
        self.end_line();
        self.put(texts);
    }

    /// Writes to the last line of a terminal how many files are done, and ends that line after the last file.
    pub(crate) fn count(&mut self, done: usize, all: usize)
        ensures { messages.Counted W.contents done all self.old self.new }
    {
        let counts = self.loss.part(format_args!("{done} of {all}"));
        let is_last = done >= all;
        let end = if is_last { "\n" } else { "" };
        let line = count_of(self.words.name, counts.as_str(), end);
        self.put(&line);
        self.has_open_line = !is_last;
    }
}
