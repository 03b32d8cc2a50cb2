//! Times of day.
ghost use Rattle.std.specs.Prelude.{◌≡◌, true};
ghost use Rattle.yaml_writer.specs.Times as times;

use crate::numbers::Sign;

/// The offset of a clock from that of UTC: less than a day. A plus is east of UTC: a clock there shows a later time.
#[derive(Clone, Copy, PartialEq, Eq, Debug)]
pub struct Offset {
    pub sign: Sign,
    pub hours: u8,
    pub minutes: u8,
    pub ghost is_offset: { times.is_clock_offset hours minutes ≡ true },
}

impl Offset {
    ghost use Rattle.std.specs.Prelude.{MatchOption, false};
    ghost use Rattle.yaml_writer.specs.SeenTimes.{clock_offset, seen_offset};

    /// Returns the offset of these parts; `None` if the hours pass 23 or the minutes 59.
    pub fn new(sign: Sign, hours: u8, minutes: u8) -> Option<Offset>
        ensures { MatchOption result (times.is_clock_offset hours minutes ≡ false) (λ offset. seen_offset offset ≡ clock_offset sign hours minutes) }
    {
        if hours <= 23 && minutes <= 59 {
            Some(Offset {
                sign,
                hours,
                minutes,
            })
        } else {
            None
        }
    }
}

/// A time of day.
#[derive(Clone, Copy, PartialEq, Eq, Debug)]
pub struct Time {
    pub hour: u8,
    pub minute: u8,
    pub second: u8,
    pub nanosecond: u32,
    /// That of the clock which shows this time; `None` is UTC.
    pub offset: Option<Offset>,
    pub ghost is_time: { times.is_clock_reading hour minute second nanosecond ≡ true },
}

impl Time {
    ghost use Rattle.std.specs.Prelude.{MatchOption, false, option_map};
    ghost use Rattle.yaml_writer.specs.SeenTimes.{seen_offset, seen_time};

    /// Returns the time of these parts; `None` if the hour passes 23, the minute or the second 59, or the nanosecond
    /// 999,999,999.
    pub fn new(
        hour: u8,
        minute: u8,
        second: u8,
        nanosecond: u32,
        offset: Option<Offset>,
    ) -> Option<Time>
        ensures { MatchOption result (times.is_clock_reading hour minute second nanosecond ≡ false)
            (λ time. seen_time time ≡ times.clock_time hour minute second nanosecond (option_map seen_offset offset)) }
    {
        if (hour <= 23 && minute <= 59) && (second <= 59 && nanosecond <= 999_999_999) {
            Some(Time {
                hour,
                minute,
                second,
                nanosecond,
                offset,
            })
        } else {
            None
        }
    }
}
