//! The numbers of the names that a dump gives.
ghost use Rattle.std.specs.Prelude.{◌≡◌, option_map};
ghost use Rattle.std.specs.Str.{chars};
ghost use Rattle.yaml_base.specs.Seen.{seen_text};
ghost use Rattle.yaml_dump.specs.Composition as composition;

use std::alloc::Allocator;

/// Returns a number with one more digit, if the result fits. Other characters change nothing.
fn with_digit(number: usize, character: char) -> usize
    ensures { result ≡ composition.with_digit number character }
{
    if character < '0' || character > '9' {
        return number;
    }
    let digit = character as usize - 0x30;
    if number <= (usize::MAX - digit) / 10 {
        number * 10 + digit
    } else {
        number
    }
}

/// Returns the number that the digits in a name give.
pub(crate) fn number_in_name(name: &str) -> usize
    ensures { result ≡ composition.number_in_name (chars name.now) }
{
    let mut number = 0;
    for character in name.chars() {
        number = with_digit(number, character);
    }
    number
}

/// Returns the number in the name of an anchor; 0 without one.
pub(crate) fn number_of_anchor<A: Allocator>(anchor: &Option<String<A>>) -> usize
    ensures { result ≡ composition.number_of_anchor (option_map seen_text anchor.now) }
{
    match anchor {
        Some(name) => number_in_name(name.as_str()),
        None => 0,
    }
}
