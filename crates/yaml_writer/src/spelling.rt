//! Numbers of JSON, spelled so that both schemas of YAML read the same number.
ghost use Rattle.std.specs.Prelude.{◌≡◌, ◌++◌, codes, IfOk, IsOk, MatchOption, chars, string_bytes, option_map, true};
ghost use Rattle.yaml_base.specs.values.JsonNumbers as json;
ghost use Rattle.yaml_writer.specs.NumberParts.{IsNoNumber};
ghost use Rattle.yaml_writer.specs.SeenNumbers.{seen_exponent, seen_parts};
ghost use Rattle.yaml_writer.specs.Spellings as spellings;

use crate::numbers::{Exponent, ExponentLetter, Number, Parts, Sign, lacks_letters, number_of};
use std::alloc::{AllocError, Allocator};

/// The spelling of a number.
#[derive(Drop)]
pub enum Spelling<'a, A: Allocator> {
    /// The number's own text.
    Unchanged(&'a str),
    Changed(String<A>),
}

impl<A: Allocator> Spelling<'_, A> {
    pub fn as_str(&self) -> &str
        ensures { result.now ≡ spellings.spelling_bytes self.now }
    {
        match self {
            Spelling::Unchanged(text) => text,
            Spelling::Changed(text) => text.as_str(),
        }
    }
}

fn push_exponent<A: Allocator>(
    text: &mut String<A>,
    exponent: Option<Exponent<'_>>,
) -> Result<(), AllocError>
    ensures { IfOk result (λ _. string_bytes text.new ≡ string_bytes text.old ++ json.exponent_spelled (option_map seen_exponent exponent.entry)) }
{
    match exponent {
        None => Ok(()),
        Some(exponent) => {
            let lead = match exponent.sign {
                Some(Sign::Minus) => "e-",
                Some(Sign::Plus) | None => "e+",
            };
            text.push_str(lead)?;
            text.push_str(exponent.digits)
        }
    }
}

impl Parts<'_> {
    /// Returns whether it is an integer other than `-0`.
    fn is_integer(&self) -> bool
        ensures { result ≡ json.is_json_integer (seen_parts self.now) }
    {
        if self.fraction.is_some() {
            return false;
        }
        if self.exponent.is_some() {
            return false;
        }
        !(self.negative && self.whole == "0")
    }

    /// Appends its fraction and its exponent.
    fn push_fraction<A: Allocator>(&self, text: &mut String<A>) -> Result<(), AllocError>
        ensures { IfOk result (λ _. string_bytes text.new ≡ string_bytes text.old
            ++ (codes "." ++ json.fraction_or_default (codes "0") (seen_parts self.now) ++ json.exponent_spelled (seen_parts self.now).exponent)) }
    {
        let digits = match self.fraction {
            None => "0",
            Some(digits) => digits,
        };
        text.push_str(".")?;
        text.push_str(digits)?;
        push_exponent(text, self.exponent)
    }

    fn spelled<A: Allocator>(&self, alloc: A) -> Result<String<A>, AllocError>
        ensures { IfOk result (λ text. string_bytes text ≡ json.yaml_number (seen_parts self.now)) }
    {
        let mut text = String::new(alloc);
        text.push_str(if self.negative { "-" } else { "" })?;
        text.push_str(self.whole)?;
        if !self.is_integer() {
            self.push_fraction(&mut text)?;
        }
        Ok(text)
    }

    /// Returns whether its text is its spelling.
    fn is_spelled(&self) -> bool
        ensures { result ≡ spellings.is_spelled (seen_parts self.now) }
    {
        if self.is_integer() {
            return true;
        }
        self.fraction.is_some()
            && self.exponent.is_none_or(|exponent| matches!(exponent.letter, ExponentLetter::Small)
                && exponent.sign.is_some())
    }
}

impl<'a> Number<'a> {
    /// Returns whether it is an integer other than `-0`: it has neither a point nor an exponent.
    pub fn is_integer(&self) -> bool
        ensures { result ≡ json.is_json_integer self.now }
    {
        self.parts().is_integer()
    }

    /// Returns whether its text is its spelling. Most texts tell it without their parts, as they have no exponent and aren't `-0`.
    pub(crate) fn is_spelled(&self) -> bool
        ensures { result ≡ spellings.is_spelled self.now }
    {
        (lacks_letters(self.text) && self.text != "-0") || self.parts().is_spelled()
    }

    /// Returns its spelling, which the type repository of YAML 1.1 and the core schema of YAML 1.2 read as exactly this
    /// number: a float has a point and a sign in its exponent. Memory is needed only if the spelling is another text.
    ///
    /// # Errors
    /// `AllocError` if an allocation fails.
    pub fn spelling<A: Allocator>(&self, alloc: A) -> Result<Spelling<'a, A>, AllocError>
        ensures spelled { IfOk result (λ spelling. chars (spellings.spelling_bytes spelling) ≡ json.yaml_number self.now) }
        ensures spare { json.json_text self.now ≡ json.yaml_number self.now → IsOk result }
    {
        if self.is_spelled() {
            return Ok(Spelling::Unchanged(self.text));
        }
        let spelled = self.parts().spelled(alloc)?;
        Ok(Spelling::Changed(spelled))
    }
}

/// Returns the spelling of the number of JSON that a text is; `None` if the text is no number of JSON.
///
/// # Errors
/// `AllocError` if an allocation fails. A text that is its own spelling needs no memory.
pub fn number_spelling<'a, A: Allocator>(
    alloc: A,
    text: &'a str,
) -> Result<Option<Spelling<'a, A>>, AllocError>
    ensures spelled { IfOk result (λ found. MatchOption found (IsNoNumber (chars text.now))
        (λ spelling. spellings.Spells (chars text.now) (chars (spellings.spelling_bytes spelling)))) }
    ensures spare { spellings.NeedsNoMemory (chars text.now) → IsOk result }
{
    match number_of(text) {
        None => Ok(None),
        Some(number) => {
            let spelling = number.spelling(alloc)?;
            Ok(Some(spelling))
        }
    }
}
