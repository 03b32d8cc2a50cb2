//! Dates of `jiff`, as dates.
use crate::dates::{Date, NoTimestamp};
use jiff::civil;

impl TryFrom<civil::Date> for Date {
    type Error = NoTimestamp;

    ghost use Rattle.std.specs.Prelude.{◌≡◌, option_map};
    ghost use Rattle.std.specs.Result.{result_ok};
    ghost use Rattle.yaml_writer.specs.SeenDates.{seen_date};
    ghost use Rattle.yaml_writer.specs.CivilDates.{civil_date_of};

    ghost try_from_gives = { λ date made. option_map seen_date (result_ok made) ≡ civil_date_of date };

    /// Returns the same date.
    ///
    /// # Errors
    /// `NoTimestamp` for the year 0 and years before it.
    fn try_from(date: civil::Date) -> Result<Date, NoTimestamp> {
        let plain = date.to_plain();
        if plain.year < 0 {
            return Err(NoTimestamp);
        }
        Date::new(plain.year as u16, plain.month, plain.day).ok_or(NoTimestamp)
    }
}
