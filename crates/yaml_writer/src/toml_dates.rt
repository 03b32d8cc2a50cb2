//! Dates and times of TOML, as timestamps and as texts.
ghost use Rattle.std.specs.Prelude.{◌≡◌, option_map};
ghost use Rattle.yaml_writer.specs.TomlDates as spec;
ghost use Rattle.yaml_writer.specs.SeenDates.{seen_date};
ghost use Rattle.yaml_writer.specs.SeenTimes.{seen_offset, seen_time};
ghost use Rattle.yaml_writer.specs.Writing.{Gives};

use crate::dates::{Date, NoTimestamp};
use crate::numbers::Sign;
use crate::times::{Offset, Time};
use crate::timestamps::{Timestamp, write_timestamp};
use crate::writer::Writer;
use std::alloc::Allocator;
use toml_datetime::Datetime;
use yaml_base::yaml_error_t;

fn date_of(date: toml_datetime::Date) -> Option<Date>
    ensures { option_map seen_date result ≡ spec.date_of date }
{
    Date::new(date.year, date.month, date.day)
}

fn time_by(time: toml_datetime::Time, offset: Option<Offset>) -> Option<Time>
    ensures { option_map seen_time result ≡ spec.time_by time (option_map seen_offset offset) }
{
    Time::new(
        time.hour,
        time.minute,
        time.second.unwrap_or(0),
        time.nanosecond.unwrap_or(0),
        offset,
    )
}

fn time_of(time: toml_datetime::Time, offset: toml_datetime::Offset) -> Option<Time>
    ensures { option_map seen_time result ≡ spec.time_of time offset }
{
    match offset {
        toml_datetime::Offset::Z => time_by(time, None),
        toml_datetime::Offset::Custom { minutes } => {
            let far = minutes.unsigned_abs();
            if far >= 1440 {
                return None;
            }
            let sign = if minutes < 0 { Sign::Minus } else { Sign::Plus };
            match Offset::new(sign, (far / 60) as u8, (far % 60) as u8) {
                Some(offset) => time_by(time, Some(offset)),
                None => None,
            }
        }
    }
}

impl TryFrom<toml_datetime::Date> for Date {
    type Error = NoTimestamp;

    ghost use Rattle.std.specs.Prelude.{◌≡◌, option_map};
    ghost use Rattle.std.specs.Result.{result_ok};
    ghost use Rattle.yaml_writer.specs.SeenDates.{seen_date};
    ghost use Rattle.yaml_writer.specs.TomlDates.{date_of};

    ghost try_from_gives = { λ date made. option_map seen_date (result_ok made) ≡ date_of date };

    /// Returns the same date.
    ///
    /// # Errors
    /// `NoTimestamp` if the calendar has no such day, or the year isn't one of 1 to 9999.
    fn try_from(date: toml_datetime::Date) -> Result<Date, NoTimestamp> {
        date_of(date).ok_or(NoTimestamp)
    }
}

impl TryFrom<Datetime> for Timestamp {
    type Error = NoTimestamp;

    ghost use Rattle.std.specs.Prelude.{◌≡◌, option_map};
    ghost use Rattle.std.specs.Result.{result_ok};
    ghost use Rattle.yaml_writer.specs.SeenTimes.{seen_timestamp};
    ghost use Rattle.yaml_writer.specs.TomlDates.{moment_of};

    ghost try_from_gives = { λ datetime made. option_map seen_timestamp (result_ok made) ≡ moment_of datetime };

    /// Returns the same date, or the same date and time with its offset.
    ///
    /// # Errors
    /// `NoTimestamp` for a time that has no offset or no date, for the year 0, and for a second 60: YAML 1.1 has no such timestamps.
    fn try_from(datetime: Datetime) -> Result<Timestamp, NoTimestamp> {
        let Some(date) = datetime.date else {
            return Err(NoTimestamp);
        };
        let Some(date) = date_of(date) else {
            return Err(NoTimestamp);
        };
        match (datetime.time, datetime.offset) {
            (None, None) => Ok(Timestamp { date, time: None }),
            (Some(time), Some(offset)) => match time_of(time, offset) {
                Some(time) => Ok(Timestamp {
                    date,
                    time: Some(time),
                }),
                None => Err(NoTimestamp),
            },
            _ => Err(NoTimestamp),
        }
    }
}

/// Gives a writer a date or a time of TOML: as `write_timestamp` does, if YAML 1.1 has such a timestamp, else as a text, spelled as in
/// TOML. A time without a date and one without an offset are texts.
///
/// # Errors
/// Those of the emitter, and `Memory`.
pub fn write_datetime<A: Allocator + Copy>(
    writer: &mut Writer<A>,
    datetime: &Datetime,
) -> Result<(), yaml_error_t>
    ensures { Gives writer.old (spec.datetime_event writer.old datetime.now) result writer.new }
{
    match Timestamp::try_from(*datetime).ok() {
        Some(timestamp) => write_timestamp(writer, &timestamp),
        None => match format!(in writer.alloc; "{datetime}") {
            Ok(text) => writer.text(text.as_str()),
            Err(_) => Err(yaml_error_t::Memory),
        },
    }
}
