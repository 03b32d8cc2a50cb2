//! Numbers of JSON (RFC 8259, section 6), taken apart.
ghost use Rattle.std.specs.Prelude.{◌≡◌, ◌<◌, ◌≤◌, ◌==◌, Some, None, MatchOption, chars, length, nat_lt, not, option_map};
ghost use Rattle.std.specs.List.{list_all, prefix_len};
ghost use Rattle.yaml_base.specs.values.JsonNumbers as json;
ghost use Rattle.yaml_base.specs.values.Resolved as schema;
ghost use Rattle.yaml_writer.specs.NumberParts as parts;
ghost use Rattle.yaml_writer.specs.SeenNumbers.{is_capital, is_minus, seen_exponent, seen_parts};

use std::marker::Model;

/// The sign of an exponent, or of a clock's offset from UTC.
#[derive(Clone, Copy, PartialEq, Eq, Debug)]
pub enum Sign {
    Plus,
    Minus,
}

/// The letter that begins an exponent.
#[derive(Clone, Copy)]
pub enum ExponentLetter {
    /// `e`.
    Small,
    /// `E`.
    Capital,
}

/// An exponent, by its parts.
#[derive(Clone, Copy)]
pub struct Exponent<'a> {
    pub letter: ExponentLetter,
    pub sign: Option<Sign>,
    pub digits: &'a str,
}

/// The parts of a text, which is a number if each part has its digits.
#[derive(Clone, Copy)]
pub struct Parts<'a> {
    /// Whether it begins with `-`.
    pub negative: bool,
    pub whole: &'a str,
    /// The digits after its point.
    pub fraction: Option<&'a str>,
    pub exponent: Option<Exponent<'a>>,
}

/// Returns the number of bytes before the first that is a sign. A number is short, so they are looked at one by one.
fn length_before(sign: u8, text: &str) -> usize
    ensures value { result ≡ prefix_len (λ c. not (c == sign)) text.now }
    ensures few { result ≤ length text.now }
{
    text.as_bytes()
        .iter()
        .take_while(|byte| **byte != sign)
        .count()
}

/// Returns the texts before and after the first of a sign.
pub(crate) fn cut_at(sign: u8, text: &str) -> Option<(&str, &str)>
    requires { sign < 128 }
    ensures { MatchOption result (parts.cut_at_first sign text.now ≡ None) (λ cut. parts.cut_at_first sign text.now ≡ Some (cut.0.now, cut.1.now)) }
{
    let length = length_before(sign, text);
    if length == text.len() {
        return None;
    }
    Some((&text[..length], &text[length + 1..]))
}

/// Returns whether a text holds no letter, as a number without an exponent.
pub(crate) fn lacks_letters(text: &str) -> bool
    ensures { result ≡ list_all (λ c. nat_lt c 0x41) text.now }
{
    text.as_bytes().iter().all(|byte| *byte < b'A')
}

pub(crate) fn sign_cut(text: &str) -> (Option<Sign>, &str)
    ensures sign { option_map is_minus result.0 ≡ parts.sign_of text.now }
    ensures digits { result.1.now ≡ schema.past_sign text.now }
{
    match text.strip_prefix('-') {
        Some(digits) => (Some(Sign::Minus), digits),
        None => match text.strip_prefix('+') {
            Some(digits) => (Some(Sign::Plus), digits),
            None => (None, text),
        },
    }
}

/// Returns an exponent, by its letter and the text after it.
fn exponent_in(letter: ExponentLetter, text: &str) -> Exponent<'_>
    ensures { seen_exponent result ≡ parts.exponent_in (is_capital letter) text.now }
{
    let (sign, digits) = sign_cut(text);
    Exponent {
        letter,
        sign,
        digits,
    }
}

/// Returns the mantissa and the exponent of a number without its sign.
pub(crate) fn exponent_cut(text: &str) -> (&str, Option<Exponent<'_>>)
    ensures { (result.0.now, option_map seen_exponent result.1) ≡ parts.exponent_cut text.now }
{
    if lacks_letters(text) {
        return (text, None);
    }
    match cut_at(b'e', text) {
        Some((mantissa, exponent)) => (
            mantissa,
            Some(exponent_in(ExponentLetter::Small, exponent)),
        ),
        None => match cut_at(b'E', text) {
            Some((mantissa, exponent)) => (
                mantissa,
                Some(exponent_in(ExponentLetter::Capital, exponent)),
            ),
            None => (text, None),
        },
    }
}

fn minus_cut(text: &str) -> (bool, &str)
    ensures negative { result.0 ≡ schema.is_negative text.now }
    ensures rest { result.1.now ≡ parts.past_minus text.now }
{
    match text.strip_prefix('-') {
        Some(rest) => (true, rest),
        None => (false, text),
    }
}

/// Returns the parts of a text, which need not be a number.
fn parts_of(text: &str) -> Parts<'_>
    ensures { seen_parts result ≡ parts.number_in text.now }
{
    let (negative, unsigned) = minus_cut(text);
    let (mantissa, exponent) = exponent_cut(unsigned);
    let (whole, fraction) = match cut_at(b'.', mantissa) {
        Some((whole, fraction)) => (whole, Some(fraction)),
        None => (mantissa, None),
    };
    Parts {
        negative,
        whole,
        fraction,
        exponent,
    }
}

pub(crate) fn is_all_decimal(text: &str) -> bool
    ensures { result ≡ list_all schema.is_decimal text.now }
{
    text.as_bytes().iter().all(|byte| byte.is_ascii_digit())
}

/// Returns whether a text is decimal digits, one or more.
pub(crate) fn is_digits(text: &str) -> bool
    ensures { result ≡ schema.are_digits 10 text.now }
{
    !text.is_empty() && is_all_decimal(text)
}

/// Returns whether a text is `0`, or decimal digits of which the first isn't 0.
pub(crate) fn is_whole_part(text: &str) -> bool
    ensures { result ≡ json.is_whole_part text.now }
{
    is_digits(text) && (text.as_bytes().first() != Some(&b'0') || text == "0")
}

impl Parts<'_> {
    /// Returns whether every required digit run is non-empty, and the first digit isn't a needless 0.
    fn is_valid(&self) -> bool
        ensures { result ≡ json.is_json_number (seen_parts self.now) }
    {
        is_whole_part(self.whole)
            && self.fraction.is_none_or(is_digits)
            && self
                .exponent
                .is_none_or(|exponent| is_digits(exponent.digits))
    }
}

/// A number of JSON (RFC 8259, section 6).
#[derive(Drop)]
pub struct Number<'a> {
    pub(crate) text: &'a str,
}

impl<'a> Model for Number<'a> {
    ghost use Rattle.yaml_base.specs.values.JsonNumbers.{JsonNumber};
    ghost use Rattle.yaml_writer.specs.NumberParts.{IsNumber, number_in};

    ghost Value = { JsonNumber };

    ghost view = { λ number. number_in number.text.now };

    ghost invariant = { λ number. IsNumber number.text.now (number_in number.text.now) };
}

impl<'a> Number<'a> {
    /// Returns the number that a text is. It must be a number of JSON (RFC 8259, section 6), as a reader of JSON knows of its tokens:
    /// no byte of it is looked at here. `number_of` finds out whether a text is a number.
    pub fn of_text(text: &'a str) -> Self
        requires { parts.IsNumber text.now (parts.number_in text.now) }
        ensures { parts.IsNumber text.now result }
    {
        Number { text }
    }

    /// Returns the text that it was made from.
    pub fn as_str(&self) -> &'a str
        ensures { parts.IsNumber result.now self.now }
    {
        self.text
    }

    pub(crate) fn parts(&self) -> Parts<'a>
        ensures { seen_parts result ≡ self.now }
    {
        parts_of(self.text)
    }
}

/// Returns the number that a text is; `None` if the text is no number of JSON. Needs no memory.
pub fn number_of(text: &str) -> Option<Number<'_>>
    ensures characters { MatchOption result (parts.IsNoNumber (chars text.now)) (λ number. parts.IsNumber (chars text.now) number) }
    ensures bytes { MatchOption result (parts.IsNoNumber text.now) (λ number. parts.IsNumber text.now number) }
{
    if parts_of(text).is_valid() {
        Some(Number { text })
    } else {
        None
    }
}
