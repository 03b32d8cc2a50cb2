//! Timestamps of YAML 1.1, and their texts.
ghost use Rattle.std.specs.Prelude.{◌≡◌, ◌++◌, IfOk, codes, Some, option_map, string_bytes};
ghost use Rattle.yaml_base.specs.Seen.{seen_text};
ghost use Rattle.yaml_writer.specs.SeenTimes.{seen_offset, seen_time, seen_timestamp};
ghost use Rattle.yaml_writer.specs.Times as times;
ghost use Rattle.yaml_writer.specs.Writing.{Gives, timestamp_event};

use crate::dates::Date;
use crate::digits::{push_marked, push_three_digits};
use crate::numbers::Sign;
use crate::scalars::own_tag;
use crate::tags::YAML_TIMESTAMP_TAG;
use crate::times::{Offset, Time};
use crate::writer::Writer;
use std::alloc::{AllocError, Allocator};
use yaml_base::{YAML_PLAIN_SCALAR_STYLE, yaml_error_t};

/// A timestamp of YAML 1.1: a date, alone or with a time of that day.
#[derive(Clone, Copy, PartialEq, Eq, Debug)]
pub struct Timestamp {
    pub date: Date,
    pub time: Option<Time>,
}

/// Appends a point and nanoseconds as decimals of a second, if there are any.
fn push_fraction<A: Allocator>(text: &mut String<A>, nanosecond: u32) -> Result<(), AllocError>
    ensures { IfOk result (λ _. string_bytes text.new ≡ string_bytes text.old ++ times.fraction_text nanosecond) }
{
    if nanosecond == 0 {
        return Ok(());
    }
    text.push('.')?;
    push_three_digits(text, (nanosecond / 1_000_000) as u16)?;
    if nanosecond % 1_000_000 == 0 {
        return Ok(());
    }
    push_three_digits(text, (nanosecond / 1000 % 1000) as u16)?;
    if nanosecond % 1000 == 0 {
        return Ok(());
    }
    push_three_digits(text, (nanosecond % 1000) as u16)
}

/// Appends an offset, or `Z` for UTC.
fn push_zone<A: Allocator>(text: &mut String<A>, offset: &Option<Offset>) -> Result<(), AllocError>
    ensures { IfOk result (λ _. string_bytes text.new ≡ string_bytes text.old ++ times.zone_text (option_map seen_offset offset.now)) }
{
    match offset {
        None => text.push('Z'),
        Some(offset) => {
            let sign = match offset.sign {
                Sign::Plus => '+',
                Sign::Minus => '-',
            };
            push_marked(text, sign, offset.hours)?;
            push_marked(text, ':', offset.minutes)
        }
    }
}

/// Appends `T`, hours, minutes and seconds.
fn push_clock<A: Allocator>(text: &mut String<A>, time: &Time) -> Result<(), AllocError>
    ensures { IfOk result (λ _. string_bytes text.new ≡ string_bytes text.old ++ (codes "T" ++ times.clock_text (seen_time time.now))) }
{
    push_marked(text, 'T', time.hour)?;
    push_marked(text, ':', time.minute)?;
    push_marked(text, ':', time.second)?;
    push_fraction(text, time.nanosecond)
}

impl Timestamp {
    /// Returns its bytes, which are ASCII.
    fn spelled<A: Allocator>(&self, alloc: A) -> Result<String<A>, AllocError>
        ensures { IfOk result (λ text. string_bytes text ≡ times.timestamp_text (seen_timestamp self.now)) }
    {
        let mut text = String::new(alloc);
        self.date.push(&mut text)?;
        if let Some(time) = &self.time {
            push_clock(&mut text, time)?;
            push_zone(&mut text, &time.offset)?;
        }
        Ok(text)
    }

    /// Returns its text, as `2002-12-14` or `2001-12-14T21:59:43.100Z`, which the type repository of YAML 1.1 reads as a
    /// timestamp, and as this one. A second has no decimals, or three, six or nine, as it takes.
    ///
    /// # Errors
    /// `AllocError` if an allocation fails.
    pub fn text<A: Allocator>(&self, alloc: A) -> Result<String<A>, AllocError>
        ensures text { IfOk result (λ text. seen_text text ≡ times.timestamp_text (seen_timestamp self.now)) }
        ensures reads { IfOk result (λ text. times.moment_in (seen_text text) ≡ Some (seen_timestamp self.now)) }
    {
        let text = self.spelled(alloc)?;
        Ok(text)
    }
}

// (No method of `Writer`: each crate that names a writer would take in `jiff`, from which a date can be made.)
/// Gives a writer a timestamp of YAML 1.1, in its `text`: a date plain, and one with a time of day with the tag
/// `tag:yaml.org,2002:timestamp`, as in flow its `:` keeps it from being plain.
///
/// # Errors
/// Those of the emitter, and `Memory`.
pub fn write_timestamp<A: Allocator + Copy>(
    writer: &mut Writer<A>,
    timestamp: &Timestamp,
) -> Result<(), yaml_error_t>
    ensures { Gives writer.old (timestamp_event writer.old (seen_timestamp timestamp.now)) result writer.new }
{
    match timestamp.text(writer.alloc) {
        Ok(text) => {
            let needed = writer.canonical | timestamp.time.is_some();
            let tag = own_tag(needed, YAML_TIMESTAMP_TAG);
            writer.scalar(tag, text.as_str(), YAML_PLAIN_SCALAR_STYLE)
        }
        Err(_) => Err(yaml_error_t::Memory),
    }
}
