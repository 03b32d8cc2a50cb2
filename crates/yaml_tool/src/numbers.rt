//! Decimal numbers of a script's lines. Leading zeros are accepted.
ghost use Rattle.std.specs.Prelude.{◌≡◌, ◌≤◌, pos, option_map};
ghost use Rattle.std.specs.Str.{chars};
ghost use Rattle.yaml_base.specs.scripts.Script as notation;
ghost use Rattle.yaml_base.specs.Settings.{largest_i32};
ghost use Rattle.yaml_tool.specs.Numbers.{number_after};

use crate::characters::first_character;

/// Parses `digits` in this radix, which is 2 to 36: `None` above `most` or at another character, 0 if empty.
pub fn parse_number(radix: u32, most: u32, digits: &str) -> Option<u32>
    requires least { 2 ≤ radix }
    requires greatest { radix ≤ 36 }
    ensures { result ≡ number_after radix most 0 (chars digits.now) }
{
    let base = u64::from(radix);
    let limit = u64::from(most);
    let mut number: u64 = 0;
    let mut rest = digits;
    while let Some((digit, behind)) = first_character(rest) {
        let value = u64::from(digit.to_digit(radix)?);
        number = number * base + value;
        if number > limit {
            return None;
        }
        rest = behind;
    }
    u32::try_from(number).ok()
}

/// Parses a decimal number of one or more digits: `None` above `most`.
pub fn number_up_to(most: u32, word: &str) -> Option<u32>
    ensures { result ≡ notation.number_up_to most (chars word.now) }
{
    match first_character(word) {
        None => None,
        Some(_) => parse_number(10, most, word),
    }
}

/// The largest `i32`.
const LARGEST_I32: u32 = 2_147_483_647;

/// Parses a decimal number from 0 to the largest `i32`.
pub fn natural_number(word: &str) -> Option<i32>
    ensures { result ≡ option_map pos (notation.number_up_to largest_i32 (chars word.now)) }
{
    number_up_to(LARGEST_I32, word).map(|number| number as i32)
}

/// Parses a decimal `i32`: a negative one begins with `-`.
pub fn signed_number(word: &str) -> Option<i32>
    ensures { result ≡ notation.signed_number (chars word.now) }
{
    match first_character(word) {
        None => None,
        Some(('-', rest)) => {
            number_up_to(LARGEST_I32 + 1, rest).map(|number| (-i64::from(number)) as i32)
        }
        Some(_) => natural_number(word),
    }
}
