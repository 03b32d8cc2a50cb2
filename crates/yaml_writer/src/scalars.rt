//! Scalars of a writer.
ghost use Rattle.std.specs.Prelude.{◌≡◌, chars, None, pos};
ghost use Rattle.yaml_base.specs.Seen.{seen_scalar_style};
ghost use Rattle.yaml_emitter.specs.BorrowedTexts.{seen_name};
ghost use Rattle.yaml_writer.specs.Writing.{Gives, bool_event, int_event, null_event, number_event, number_tag, tag_or_default};
ghost use Rattle.yaml_writer.specs.Writing.{styled_event, text_event, text_style};
ghost use Rattle.yaml_writer.specs.Writing.{word_event};

use crate::numbers::Number;
use crate::tags::{YAML_BOOL_TAG, YAML_FLOAT_TAG, YAML_INT_TAG, YAML_NULL_TAG};
use crate::texts::is_surely_text;
use crate::writer::Writer;
use std::alloc::Allocator;
use yaml_base::{
    YAML_ANY_SCALAR_STYLE, YAML_LITERAL_SCALAR_STYLE, YAML_PLAIN_SCALAR_STYLE,
    YAML_SINGLE_QUOTED_SCALAR_STYLE, yaml_error_t, yaml_scalar_style_t,
};
use yaml_emitter::holds_break;

/// Returns the tag of a scalar's type, if one is written.
pub(crate) fn own_tag(is_written: bool, tag: &str) -> Option<&str>
    ensures { seen_name result ≡ tag_or_default None is_written (chars tag.now) }
{
    if is_written { Some(tag) } else { None }
}

/// Returns the tag of a number's type.
pub(crate) fn tag_of_number(number: &Number<'_>) -> &'static str
    ensures { chars result.now ≡ number_tag number.now }
{
    if number.is_integer() {
        YAML_INT_TAG
    } else {
        YAML_FLOAT_TAG
    }
}

/// Returns the style of a text.
pub(crate) fn style_of(text: &str) -> yaml_scalar_style_t
    ensures { seen_scalar_style result ≡ text_style (chars text.now) }
{
    if holds_break(text) {
        YAML_LITERAL_SCALAR_STYLE
    } else if is_surely_text(text) {
        YAML_ANY_SCALAR_STYLE
    } else {
        YAML_SINGLE_QUOTED_SCALAR_STYLE
    }
}

impl<A: Allocator + Copy> Writer<A> {
    /// Writes `null`.
    ///
    /// # Errors
    /// Those of the emitter, and `Memory`.
    pub fn null(&mut self) -> Result<(), yaml_error_t>
        ensures { Gives self.old (null_event self.old) result self.new }
    {
        self.word(YAML_NULL_TAG, "null")
    }

    /// Writes `true` or `false`.
    ///
    /// # Errors
    /// Those of the emitter, and `Memory`.
    pub fn bool(&mut self, value: bool) -> Result<(), yaml_error_t>
        ensures { Gives self.old (bool_event self.old value) result self.new }
    {
        let word = if value { "true" } else { "false" };
        self.word(YAML_BOOL_TAG, word)
    }

    /// Writes an integer in decimal digits.
    ///
    /// # Errors
    /// Those of the emitter, and `Memory`.
    pub fn int(&mut self, value: i64) -> Result<(), yaml_error_t>
        ensures { Gives self.old (int_event self.old value) result self.new }
    {
        self.word(YAML_INT_TAG, itoa::Buffer::new().format(value))
    }

    /// Writes a number that isn't negative in decimal digits.
    ///
    /// # Errors
    /// Those of the emitter, and `Memory`.
    pub fn unsigned(&mut self, value: u64) -> Result<(), yaml_error_t>
        ensures { Gives self.old (int_event self.old (pos value)) result self.new }
    {
        self.word(YAML_INT_TAG, itoa::Buffer::new().format(value))
    }

    /// Writes a number of JSON, in the spelling that both schemas read as exactly that number: an integer unchanged, any
    /// other with a point and with a sign in its exponent.
    ///
    /// # Errors
    /// Those of the emitter, and `Memory`.
    pub fn number(&mut self, number: &Number<'_>) -> Result<(), yaml_error_t>
        ensures { Gives self.old (number_event self.old number.now) result self.new }
    {
        if number.is_spelled() {
            let own = if self.canonical {
                Some(tag_of_number(number))
            } else {
                None
            };
            return self.scalar(own, number.as_str(), YAML_PLAIN_SCALAR_STYLE);
        }
        self.respelled_number(number)
    }

    /// Does the same as `number` if the spelling may be another text.
    fn respelled_number(&mut self, number: &Number<'_>) -> Result<(), yaml_error_t>
        ensures { Gives self.old (number_event self.old number.now) result self.new }
    {
        match number.spelling(self.alloc) {
            Ok(spelling) => self.word(tag_of_number(number), spelling.as_str()),
            Err(_) => Err(yaml_error_t::Memory),
        }
    }

    /// Writes a text, which both schemas read as a text. A text with a line break is literal, any other plain or in
    /// quotes. In portable mode a root that begins with a blank or a line break is in quotes, too.
    ///
    /// # Errors
    /// Those of the emitter, and `Memory`.
    pub fn text(&mut self, value: &str) -> Result<(), yaml_error_t>
        ensures { Gives self.old (text_event self.old (chars value.now)) result self.new }
    {
        self.text_styled(YAML_ANY_SCALAR_STYLE, value)
    }

    /// Writes a text in a style, which both schemas read as a text. If plain was asked for, and a reader could take the
    /// text for another value, or the text can't be plain, it is written in quotes. A literal or folded text is written in
    /// double quotes as a key, in flow, and in portable mode as a root that begins with a blank or a line break. A text that
    /// single quotes can't hold is written in double quotes. ANY is the style of `text`.
    ///
    /// # Errors
    /// Those of the emitter, and `Memory`.
    pub fn text_styled(
        &mut self,
        style: yaml_scalar_style_t,
        value: &str,
    ) -> Result<(), yaml_error_t>
        ensures { Gives self.old (styled_event self.old (seen_scalar_style style) (chars value.now)) result self.new }
    {
        let style = match style {
            yaml_scalar_style_t::YAML_ANY_SCALAR_STYLE => style_of(value),
            yaml_scalar_style_t::YAML_PLAIN_SCALAR_STYLE if !is_surely_text(value) => {
                YAML_SINGLE_QUOTED_SCALAR_STYLE
            }
            style => style,
        };
        self.scalar(None, value, style)
    }

    /// Writes a word of a type of YAML, plain.
    pub(crate) fn word(&mut self, tag: &str, word: &str) -> Result<(), yaml_error_t>
        ensures { Gives self.old (word_event self.old (chars tag.now) (chars word.now)) result self.new }
    {
        let own = own_tag(self.canonical, tag);
        self.scalar(own, word, YAML_PLAIN_SCALAR_STYLE)
    }
}
