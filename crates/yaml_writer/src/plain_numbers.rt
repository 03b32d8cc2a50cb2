//! Numbers that both schemas read from a plain text.
ghost use Rattle.std.specs.Prelude.{◌≡◌, ◌≤◌, ◌++◌, chars, length, nat_le, option_map};
ghost use Rattle.std.specs.Char.{is_digit};
ghost use Rattle.std.specs.List.{list_all, prefix_len, slice_split};
ghost use Rattle.yaml_base.specs.values.JsonNumbers as json;
ghost use Rattle.yaml_base.specs.values.Resolved as schema;
ghost use Rattle.yaml_base.specs.values.SchemaOf11.{past};
ghost use Rattle.yaml_writer.specs.PlainTags as plain;
ghost use Rattle.yaml_writer.specs.SeenNumbers.{seen_exponent};

use crate::numbers::{
    Exponent, cut_at, exponent_cut, is_all_decimal, is_digits, is_whole_part, sign_cut,
};
use crate::tags::{YAML_FLOAT_TAG, YAML_INT_TAG};

/// Returns whether all characters of a text are octal digits.
fn is_all_octal(text: &str) -> bool
    ensures { result ≡ list_all (λ c. is_digit c 8) text.now }
{
    text.as_bytes()
        .iter()
        .all(|byte| char::from(*byte).is_digit(8))
}

/// Returns whether all characters of a text are hexadecimal digits.
fn is_all_hexadecimal(text: &str) -> bool
    ensures { result ≡ list_all (λ c. is_digit c 16) text.now }
{
    text.as_bytes()
        .iter()
        .all(|byte| char::from(*byte).is_digit(16))
}

/// Returns the number of zeros at the front of a text.
fn zero_count(text: &str) -> usize
    ensures value { result ≡ prefix_len plain.is_zero text.now }
    ensures few { result ≤ length text.now }
{
    text.as_bytes()
        .iter()
        .take_while(|byte| **byte == b'0')
        .count()
}

/// Returns whether at most one character follows the zeros at the front of a text of ASCII.
fn has_one_after_zeros(text: &str) -> bool
    ensures { result ≡ nat_le (length (past plain.is_zero text.now)) 1 }
{
    text.len() - zero_count(text) <= 1
}

/// Returns whether a text is an octal digit, after zeros or none.
fn is_padded_digit(digits: &str) -> bool
    ensures { result ≡ plain.is_padded_digit digits.now }
{
    !digits.is_empty() && is_all_octal(digits) && has_one_after_zeros(digits)
}

/// Returns whether a text is the digits of an integer.
fn are_integer_digits(digits: &str) -> bool
    ensures { result ≡ plain.are_integer_digits digits.now }
{
    is_whole_part(digits) || is_padded_digit(digits)
}

/// Returns whether a text is hexadecimal digits, one or more.
fn are_hexadecimal(digits: &str) -> bool
    ensures { result ≡ schema.are_digits 16 digits.now }
{
    !digits.is_empty() && is_all_hexadecimal(digits)
}

/// Returns whether a text is `0x` and hexadecimal digits.
fn is_hexadecimal(text: &str) -> bool
    ensures { result ≡ plain.is_hexadecimal text.now }
{
    match text.strip_prefix('0') {
        None => false,
        Some(rest) => match rest.strip_prefix('x') {
            None => false,
            Some(digits) => are_hexadecimal(digits),
        },
    }
}

/// Returns whether a text is a sign or none and the digits of an integer, or else is hexadecimal.
fn is_integer(text: &str) -> bool
    ensures { result ≡ plain.is_plain_integer text.now }
{
    let (_, digits) = sign_cut(text);
    are_integer_digits(digits) || is_hexadecimal(text)
}

/// Returns whether the texts before and after a point are digits, one or more in all.
fn are_digits_together(whole: &str, fraction: &str) -> bool
    ensures { result ≡ schema.are_digits 10 (whole.now ++ fraction.now) }
{
    if is_digits(whole) {
        return is_all_decimal(fraction);
    }
    is_all_decimal(whole) && is_digits(fraction)
}

/// Returns whether a text is digits before and after one point, one or more in all.
fn is_pointed(text: &str) -> bool
    ensures { result ≡ plain.is_pointed (slice_split schema.is_point text.now) }
{
    match cut_at(b'.', text) {
        None => false,
        Some((whole, fraction)) => are_digits_together(whole, fraction),
    }
}

/// Returns whether an exponent has a sign and digits, if there is an exponent.
fn is_signed(exponent: Option<Exponent<'_>>) -> bool
    ensures { result ≡ plain.is_signed_exponent (option_map seen_exponent exponent.entry) }
{
    match exponent {
        None => true,
        Some(exponent) => exponent.sign.is_some() && is_digits(exponent.digits),
    }
}

/// Returns whether a text is a sign or none, digits with a point, and an exponent with a sign or none.
fn is_float(text: &str) -> bool
    ensures { result ≡ plain.is_plain_float text.now }
{
    let (_, unsigned) = sign_cut(text);
    let (mantissa, exponent) = exponent_cut(unsigned);
    is_pointed(mantissa) && is_signed(exponent)
}

/// Returns the tag of a number that both schemas read.
pub(crate) fn plain_number_tag(text: &str) -> Option<&'static str>
    ensures { option_map (λ tag. chars tag.now) result ≡ plain.plain_number_tag (chars text.now) }
{
    if is_integer(text) {
        return Some(YAML_INT_TAG);
    }
    if is_float(text) {
        return Some(YAML_FLOAT_TAG);
    }
    None
}
