//! Dates of the Gregorian calendar, and their texts.
ghost use Rattle.std.specs.Prelude.{◌≡◌, ◌++◌, false, true};
ghost use Rattle.yaml_writer.specs.Dates as dates;
ghost use Rattle.yaml_writer.specs.Dates.{calendar_date, is_calendar_date};

use crate::digits::{push_marked, push_two_digits};
use std::alloc::{AllocError, Allocator};
use std::error::Error;
use std::fmt;

/// A date of the Gregorian calendar, of the years 1 to 9999.
#[derive(Clone, Copy, PartialEq, Eq, Debug)]
pub struct Date {
    pub year: u16,
    /// From 1.
    pub month: u8,
    /// From 1.
    pub day: u8,
    pub ghost is_date: { is_calendar_date (calendar_date year month day) ≡ true },
}

/// A date or a time that YAML 1.1 has no timestamp of.
#[derive(Clone, Copy, PartialEq, Eq, Debug)]
pub struct NoTimestamp;

impl fmt::Display for NoTimestamp {
    fn fmt<W: fmt::Write>(&self, f: &mut fmt::Formatter<W>) -> fmt::Result {
        f.write_str("YAML 1.1 has no such timestamp")
    }
}

impl Error for NoTimestamp {}

/// Returns how many days a month has.
fn days_in(year: u16, month: u8) -> u8
    ensures { result ≡ dates.days_in year month }
{
    if month == 2 {
        if year % 4 == 0 && (year % 100 != 0 || year % 400 == 0) {
            29
        } else {
            28
        }
    } else if month == 4 || month == 6 || month == 9 || month == 11 {
        30
    } else {
        31
    }
}

impl Date {
    ghost use Rattle.std.specs.Prelude.{IfOk, MatchOption, string_bytes};
    ghost use Rattle.yaml_writer.specs.SeenDates.{seen_date};

    /// Returns the date of these parts; `None` if the calendar has no such day, or the year isn't one of 1 to 9999.
    pub fn new(year: u16, month: u8, day: u8) -> Option<Date>
        ensures { MatchOption result (is_calendar_date (calendar_date year month day) ≡ false)
            (λ date. seen_date date ≡ calendar_date year month day) }
    {
        if (1 <= year && year <= 9999)
            && ((1 <= month && month <= 12) && (1 <= day && day <= days_in(year, month)))
        {
            Some(Date { year, month, day })
        } else {
            None
        }
    }

    /// Appends four digits of its year, two of its month and two of its day.
    pub(crate) fn push<A: Allocator>(&self, text: &mut String<A>) -> Result<(), AllocError>
        ensures { IfOk result (λ _. string_bytes text.new ≡ string_bytes text.old ++ dates.date_text (seen_date self.now)) }
    {
        push_two_digits(text, self.year / 100)?;
        push_two_digits(text, self.year)?;
        push_marked(text, '-', self.month)?;
        push_marked(text, '-', self.day)
    }
}
