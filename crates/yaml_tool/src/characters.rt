//! Divides texts at characters.
ghost use Rattle.std.specs.Prelude.{◌≡◌, ◌++◌, ◌∷◌, ◌<◌, [], length, IfSome, MatchOption};
ghost use Rattle.std.specs.Char.{encode_utf8};
ghost use Rattle.std.specs.Str.{chars, IsUtf8};
ghost use Rattle.yaml_tool.specs.Cuts.{IsFree, IsCut, EndsIn, SkipsTo, prefix_of};

use memchr::memchr2;

/// Returns the first character, and the text after it; `None` if the text is empty.
pub fn first_character(text: &str) -> Option<(char, &str)>
    ensures characters { MatchOption result (chars text.now ≡ []) (λ parts. chars text.now ≡ parts.0 ∷ chars parts.1.now) }
    ensures bytes { IfSome result (λ parts. text.now ≡ encode_utf8 parts.0 ++ parts.1.now) }
    ensures shorter { IfSome result (λ parts. length parts.1.now < length text.now) }
    ensures utf8 { IfSome result (λ parts. IsUtf8 parts.1.now) }
{
    let mut characters = text.chars();
    match characters.next() {
        Some(character) => Some((character, characters.as_str())),
        None => None,
    }
}

/// Returns the part of `text` before `end`. The text ends with `end`.
pub fn prefix_before<'a>(text: &'a str, end: &str) -> &'a str
    requires { EndsIn text.now end.now }
    ensures { result.now ≡ prefix_of text.now end.now }
{
    &text[..text.len() - end.len()]
}

/// Returns the text from the first of two ASCII characters on; empty if it contains neither.
pub fn from_delimiter(first: u8, second: u8, text: &str) -> &str
    requires first { first < 128 }
    requires second { second < 128 }
    ensures { SkipsTo first second text.now result.now }
{
    match memchr2(first, second, text.as_bytes()) {
        Some(place) => &text[place..],
        None => "",
    }
}

/// Returns the text from the first space or quotation mark on; empty if it contains neither. Looks byte by byte: words are too
/// short for a wide search.
pub fn skip_word(text: &str) -> &str
    ensures { SkipsTo 0x20 0x22 text.now result.now }
{
    for (place, byte) in text.as_bytes().iter().enumerate() {
        if *byte == b' ' || *byte == b'"' {
            return &text[place..];
        }
    }
    ""
}

/// Returns the texts before and after the first occurrence of a character; `None` if there is none.
pub fn cut_once(delimiter: char, text: &str) -> Option<(&str, &str)>
    ensures cut { MatchOption result (IsFree delimiter (chars text.now)) (λ parts. IsCut delimiter (chars text.now) (chars parts.0.now) (chars parts.1.now)) }
    ensures shorter { IfSome result (λ parts. length parts.1.now < length text.now) }
    ensures utf8 { IfSome result (λ parts. IsUtf8 parts.1.now) }
{
    let mut rest = text;
    while let Some((character, behind)) = first_character(rest) {
        if character == delimiter {
            return Some((prefix_before(text, rest), behind));
        }
        rest = behind;
    }
    None
}
