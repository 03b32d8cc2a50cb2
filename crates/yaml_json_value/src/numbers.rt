//! Numbers of JSON that are integers.
ghost use Rattle.std.specs.Prelude.{◌≡◌, Decides};
ghost use Rattle.std.specs.Fmt.{signed_decimal};
ghost use Rattle.yaml_json_value.specs.Walked.{IsIntegerIn};

use crate::error::Stop;

/// Returns whether these are the decimal digits of the integer.
fn is_spelled(number: i64, digits: &str) -> bool
    ensures { Decides result (digits.now ≡ signed_decimal number) }
{
    digits == itoa::Buffer::new().format(number)
}

/// Returns the integer of 64 bits whose decimal digits these are.
pub(crate) fn integer_in(digits: &str) -> Result<i64, Stop>
    ensures { IsIntegerIn digits.now result }
{
    match digits.parse::<i64>() {
        Ok(number) => {
            if is_spelled(number, digits) {
                Ok(number)
            } else {
                Err(Stop::NotInteger)
            }
        }
        Err(_) => Err(Stop::NotInteger),
    }
}
