//! Decimal digits, pushed one by one.
ghost use Rattle.std.specs.Prelude.{◌≡◌, ◌++◌, ◌∷◌, ◌<◌, [], IfOk, string_bytes};
ghost use Rattle.yaml_writer.specs.Dates as dates;
ghost use Rattle.yaml_writer.specs.Times as times;

use std::alloc::{AllocError, Allocator};

/// Appends the last digit of a number.
fn push_digit<A: Allocator>(text: &mut String<A>, number: u16) -> Result<(), AllocError>
    ensures { IfOk result (λ _. string_bytes text.new ≡ string_bytes text.old ++ dates.last_digit number ∷ []) }
{
    text.push(char::from(b'0' + (number % 10) as u8))
}

/// Appends the last two digits of a number.
pub(crate) fn push_two_digits<A: Allocator>(
    text: &mut String<A>,
    number: u16,
) -> Result<(), AllocError>
    ensures { IfOk result (λ _. string_bytes text.new ≡ string_bytes text.old ++ dates.two_digits number) }
{
    push_digit(text, number / 10)?;
    push_digit(text, number)
}

/// Appends a character of ASCII, and the last two digits of a number.
pub(crate) fn push_marked<A: Allocator>(
    text: &mut String<A>,
    mark: char,
    number: u8,
) -> Result<(), AllocError>
    requires { mark < 128 }
    ensures { IfOk result (λ _. string_bytes text.new ≡ string_bytes text.old ++ mark ∷ dates.two_digits number) }
{
    text.push(mark)?;
    push_two_digits(text, u16::from(number))
}

/// Appends the last three digits of a number.
pub(crate) fn push_three_digits<A: Allocator>(
    text: &mut String<A>,
    number: u16,
) -> Result<(), AllocError>
    ensures { IfOk result (λ _. string_bytes text.new ≡ string_bytes text.old ++ times.three_digits number) }
{
    push_digit(text, number / 100)?;
    push_two_digits(text, number)
}
