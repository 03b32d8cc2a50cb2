//! Dates and times of day. (`tests/toml/rows.json` has their texts.)
use super::Call;
use crate::tests::{equal, same};
use std::alloc::Global;
use std::process::Abort;
use yaml_writer::{Date, Offset, Sign, Time, Timestamp};

fn check_text(rt: &impl Abort, alloc: Global, timestamp: &Timestamp, wanted: &str) {
    let text = timestamp.text(alloc).expect(rt, "no memory");
    same(rt, text.as_bytes(), wanted);
}

/// Years, months and days that the calendar doesn't have.
const NO_DATES: &[(u16, u8, u8)] = &[
    (0, 1, 1),
    (0, 12, 31),
    (10000, 1, 1),
    (65535, 12, 31),
    (2001, 0, 1),
    (2001, 13, 1),
    (2001, 255, 1),
    (2001, 1, 0),
    (2001, 1, 32),
    (2001, 2, 29),
    (1900, 2, 29),
    (2100, 2, 29),
    (2000, 2, 30),
    (2004, 2, 30),
    (2001, 3, 32),
    (2001, 4, 31),
    (2001, 6, 31),
    (2001, 9, 31),
    (2001, 11, 31),
    (2001, 12, 32),
    (2001, 12, 255),
];

/// Hours, minutes, seconds and nanoseconds that the clock doesn't show.
const NO_TIMES: &[(u8, u8, u8, u32)] = &[
    (24, 0, 0, 0),
    (0, 60, 0, 0),
    (23, 59, 60, 0),
    (0, 0, 0, 1_000_000_000),
    (255, 255, 255, u32::MAX),
];

#[test]
fn what_no_calendar_and_no_clock_shows_is_none(rt: HostRuntime) {
    for (year, month, day) in NO_DATES {
        equal(&rt, &Date::new(*year, *month, *day), &None);
    }
    for (hour, minute, second, nanosecond) in NO_TIMES {
        let time = Time::new(*hour, *minute, *second, *nanosecond, None);
        equal(&rt, &time, &None);
    }
    let day = Offset::new(Sign::Plus, 24, 0);
    let hour = Offset::new(Sign::Minus, 0, 60);
    equal(&rt, &(day, hour), &(None, None));
}

/// Dates are plain, and times have their tag.
pub(super) const CALLS: &[Call] = &[
    // Dates and times as keys and values, in block and in flow.
    Call::Mapping,
    Call::Date(2001, 1, 1),
    Call::Date(9999, 12, 31),
    Call::Time(0, 0, 0),
    Call::Time(21, 59, 43),
    Call::Text("flow"),
    Call::Flow,
    Call::Date(2000, 2, 29),
    Call::Time(21, 59, 43),
    Call::Text("2000-02-29"),
    Call::End,
    Call::End,
    Call::Finish(Ok(
        "---\n2001-01-01: 9999-12-31\n\
         !!timestamp 2001-12-14T00:00:00Z: !!timestamp 2001-12-14T21:59:43Z\n\
         flow: [2000-02-29, !!timestamp '2001-12-14T21:59:43Z', '2000-02-29']\n",
    )),
    // Timestamps take the properties of the next node.
    Call::Sequence,
    Call::Anchored("a"),
    Call::Date(2002, 12, 14),
    Call::Tagged("!day"),
    Call::Date(2002, 12, 14),
    Call::Anchored("b"),
    Call::Tagged("!time"),
    Call::Time(12, 0, 0),
    Call::End,
    Call::Finish(Ok("---\n- &a 2002-12-14\n- !day 2002-12-14\n- &b !time 2001-12-14T12:00:00Z\n")),
];

/// Timestamps have tags.
pub(super) const CANONICAL: &[Call] = &[
    Call::Sequence,
    Call::Date(2002, 12, 14),
    Call::Time(12, 0, 0),
    Call::End,
    Call::Finish(Ok(
        "---\n[\n  !!timestamp \"2002-12-14\",\n  !!timestamp \"2001-12-14T12:00:00Z\",\n]\n",
    )),
];

/// A year, a month and a day, and whether it is a date of the years 1 to 9999.
type PartsRow = (i16, i8, i8, bool);

/// Checks that a date of `jiff` is the same date.
fn check_civil_date(rt: &impl Abort, row: &PartsRow) {
    let civil = jiff::civil::Date::new(row.0, row.1, row.2).expect(rt, "there is such a date");
    let wanted = if row.3 {
        Date::new(
            row.0.unsigned_abs(),
            row.1.unsigned_abs(),
            row.2.unsigned_abs(),
        )
    } else {
        None
    };
    equal(rt, &Date::try_from(civil).ok(), &wanted);
}

const CIVIL_DATES: &[PartsRow] = &[
    (2001, 12, 14, true),
    (1, 1, 1, true),
    (9999, 12, 31, true),
    (2000, 2, 29, true),
    (0, 12, 31, false),
    (-1, 1, 1, false),
];

/// Checks that a date of TOML is the same date, if there is one.
fn check_toml_date(rt: &impl Abort, year: u16, month: u8, day: u8) {
    let date = toml_datetime::Date { year, month, day };
    equal(rt, &Date::try_from(date).ok(), &Date::new(year, month, day));
}

/// A text of a date or a time of TOML, and that of its timestamp; it is empty if there is none.
type TomlRow = (&'static str, &'static str);

fn check_toml_datetime(rt: &impl Abort, alloc: Global, row: &TomlRow) {
    let datetime = row.0.parse::<toml_datetime::Datetime>();
    let datetime = datetime.expect(rt, "there is such a date");
    match Timestamp::try_from(datetime) {
        Ok(timestamp) => check_text(rt, alloc, &timestamp, row.1),
        Err(_) => equal(rt, &"", &row.1),
    }
}

const TOML_DATETIMES: &[TomlRow] = &[
    ("2001-12-14", "2001-12-14"),
    ("2001-12-14T21:59:43.1Z", "2001-12-14T21:59:43.100Z"),
    ("2001-12-14 21:59:43-05:30", "2001-12-14T21:59:43-05:30"),
    ("2001-12-14T21:59:43", ""),
    ("21:59:43", ""),
    ("0000-12-14", ""),
    ("2001-12-31T23:59:60Z", ""),
];

#[test]
fn dates_of_other_crates_are_dates(rt: HostRuntime) {
    for row in CIVIL_DATES {
        check_civil_date(&rt, row);
    }
    check_toml_date(&rt, 2001, 12, 14);
    check_toml_date(&rt, 2001, 2, 29);
    check_toml_date(&rt, 0, 1, 1);
    for row in TOML_DATETIMES {
        check_toml_datetime(&rt, rt.alloc(), row);
    }
}
