//! Texts that are read as texts, whichever schema reads them. A text is looked at by its bytes: a character past ASCII has none
//! that one of ASCII has.
ghost use Rattle.std.specs.Prelude.{◌≡◌, ◌≤◌, ◌&&◌, ◌||◌, false, true, not, chars, length, take};
ghost use Rattle.std.specs.List.{list_all, list_any, prefix_len};
ghost use Rattle.yaml_base.specs.Characters.{is_ascii};
ghost use Rattle.yaml_base.specs.Words.{is_word};
ghost use Rattle.yaml_base.specs.values.Resolved.{first_meets, is_decimal};
ghost use Rattle.yaml_base.specs.values.SurelyText as surely;
ghost use Rattle.yaml_writer.specs.Words as words;

use crate::words::is_reserved_word;

/// One byte more than the longest reserved word has.
const HEAD: usize = 10;

/// Returns the first bytes, some more than a reserved word has.
fn head(text: &[u8]) -> &[u8]
    ensures { result.now ≡ take 10 text.now }
{
    if text.len() > HEAD {
        &text[..HEAD]
    } else {
        text
    }
}

/// Returns the number of bytes before the first that isn't ASCII.
fn ascii_length(text: &[u8]) -> usize
    ensures value { result ≡ prefix_len is_ascii text.now }
    ensures few { result ≤ length text.now }
{
    text.iter().take_while(|byte| byte.is_ascii()).count()
}

/// Returns whether the first bytes of a text, up to one that isn't ASCII, are a reserved word in any case.
fn begins_with_reserved_word(text: &[u8]) -> bool
    ensures { result ≡ list_any (is_word (surely.ascii_prefix text.now)) surely.reserved_words }
{
    let first = head(text);
    is_reserved_word(first.split_at(ascii_length(first)).0)
}

/// Returns whether a byte is a space or a letter, or another byte of ASCII above them, that is neither the second nor the
/// third of a reserved word. One range has all these letters, which then cost one test of a bit.
#[rattlefmt::skip]
fn leaves_reserved(byte: u8) -> bool
    ensures { result ≡ words.leaves_reserved byte }
{
    byte == b' '
        || (byte >= b'A'
            && byte < 0x80
            && !matches!(
                byte,
                b'A' | b'E' | b'F' | b'I' | b'L' | b'N' | b'O' | b'R' | b'S' | b'U'
                    | b'a' | b'e' | b'f' | b'i' | b'l' | b'n' | b'o' | b'r' | b's' | b'u'
            ))
}

/// Returns whether the second or the third byte of a text is that of no reserved word.
fn leaves_reserved_words(text: &[u8]) -> bool
    ensures { result ≡ true → list_any (is_word (surely.ascii_prefix text.now)) surely.reserved_words ≡ false }
{
    if text.len() < 2 {
        return false;
    }
    let second = text[1];
    if leaves_reserved(second) {
        return true;
    }
    if text.len() == 2 {
        return false;
    }
    if second >= 0x80 {
        return false;
    }
    leaves_reserved(text[2])
}

/// Returns whether a text is nothing, or a reserved word in any case, alone or before a byte that isn't ASCII. Two bytes
/// tell most texts from one.
fn is_reserved(text: &[u8]) -> bool
    ensures { result ≡ surely.is_reserved text.now }
{
    match text.first() {
        None => true,
        Some(_) => !leaves_reserved_words(text) && begins_with_reserved_word(text),
    }
}

/// Returns the number of signs and underscores at the front of a text.
fn sign_count(text: &[u8]) -> usize
    ensures value { result ≡ prefix_len surely.precedes_number text.now }
    ensures few { result ≤ length text.now }
{
    text.iter()
        .take_while(|byte| matches!(**byte, b'+' | b'-' | b'_'))
        .count()
}

/// Returns whether a text is a number in a base: past signs and underscores `0`, and then `_` or the letter of a base.
fn is_based(text: &[u8]) -> bool
    ensures { result ≡ surely.is_based text.now }
{
    let digits = text.split_at(sign_count(text)).1;
    digits.len() > 1
        && digits[0] == b'0'
        && matches!(digits[1], b'_' | b'x' | b'X' | b'o' | b'O' | b'b' | b'B')
}

fn is_number_letter(byte: u8) -> bool
    ensures { result ≡ surely.is_number_letter byte }
{
    matches!(
        byte,
        b'e' | b'E' | b't' | b'T' | b'z' | b'Z' | b'x' | b'X' | b'o' | b'O' | b'b' | b'B'
    )
}

fn in_number(byte: u8) -> bool
    ensures { result ≡ surely.in_number byte }
{
    byte.is_ascii_digit()
        || is_number_letter(byte)
        || matches!(byte, b' ' | b'\t' | b'+' | b'-' | b'.' | b'_' | b':' | b',')
}

/// Returns whether a text begins as a number.
fn begins_as_number(text: &[u8]) -> bool
    ensures { result ≡ first_meets surely.begins_number text.now }
{
    match text.first() {
        None => false,
        Some(first) => {
            first.is_ascii_digit() || matches!(*first, b'.' | b'+' | b'-' | b'_' | b'e' | b'E')
        }
    }
}

/// Returns whether a text has the characters of numbers and timestamps alone, and a digit if it has a letter. One scan tells it.
fn are_of_number(text: &[u8]) -> bool
    ensures { result ≡ (list_all surely.in_number text.now && (list_any is_decimal text.now || not (list_any surely.is_number_letter text.now))) }
{
    let mut has_digit = false;
    let mut has_letter = false;
    for byte in text {
        if !in_number(*byte) {
            return false;
        }
        has_digit |= byte.is_ascii_digit();
        has_letter |= is_number_letter(*byte);
    }
    has_digit || !has_letter
}

/// Returns whether a text is a number in a base, or begins as a number and has no other characters than numbers and timestamps.
fn is_based_or_numeric(text: &[u8]) -> bool
    ensures { result ≡ (surely.is_based text.now || surely.is_numeric text.now) }
{
    begins_as_number(text) && (is_based(text) || are_of_number(text))
}

/// Returns whether a reserved word, a symbol or a number may begin with it.
#[rattlefmt::skip]
fn begins_doubtful(byte: u8) -> bool
    ensures { result ≡ words.begins_doubtful byte }
{
    matches!(
        byte,
        b'~' | b'n' | b'N' | b't' | b'T' | b'f' | b'F' | b'y' | b'Y' | b'o' | b'O' | b'i' | b'I'
            | b'<' | b'=' | b'.' | b'+' | b'-' | b'_' | b':' | b'e' | b'E' | b'0'..=b'9'
    )
}

/// Returns whether a text may be taken for another value, by its bytes. The first of them tells it of most texts.
fn is_doubtful(text: &[u8]) -> bool
    ensures { result ≡ surely.is_doubtful text.now }
{
    let Some(first) = text.first() else {
        return true;
    };
    if !begins_doubtful(*first) {
        return false;
    }
    // It is a reserved word, a number, or a symbol of Ruby, which begins with `:`.
    is_reserved(text) || *first == b':' || is_based_or_numeric(text)
}

/// Returns whether a text, written plain, is read as a text by the type repository of YAML 1.1, by the core schema of YAML
/// 1.2, and by readers that keep to neither: it is no word of theirs, and looks like no symbol, number or timestamp.
pub fn is_surely_text(text: &str) -> bool
    ensures { result ≡ surely.is_surely_text (chars text.now) }
{
    !is_doubtful(text.as_bytes())
}
