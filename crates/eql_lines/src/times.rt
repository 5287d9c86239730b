//! Timestamps.
ghost use Rattle.std.specs.Prelude.{◌≡◌, ◌*ℤ◌, pos};
ghost use Rattle.jiff_core.specs.DateTime.{civil_nanos};
ghost use Rattle.jiff_fmt.specs.Temporal.{parse_datetime, parse_date};
ghost use Rattle.eql_lines.specs.Times.{of_clock, of_day, lack_of, text_time, or_bad, scalar_time};
ghost use Rattle.eql_lines.specs.Found.{single_scalar, found_of};
ghost use Rattle.eql_lines.specs.Gathered.{time_found};

use crate::number::Num;
use crate::slots::{Single, Slot};
use eql_values::Reason;
use jiff::civil::{Date, DateTime};
use jiff::error::Part;
use jiff::tz::Offset;
use jiff::{Error, Timestamp};

/// Nanoseconds in a millisecond.
const NANOS_IN_MILLI: i128 = 1_000_000;

/// What a text lacks that isn't an instant.
#[derive(Clone, Copy, Drop)]
pub(crate) enum Lack {
    /// The offset, and nothing else.
    Offset,
    /// The time of day.
    Time,
    /// Something else.
    Other,
}

/// What a text lacks, by the refusal of its reading as an instant.
fn lack_of(error: Error) -> Lack
    ensures { result ≡ lack_of error }
{
    match error {
        Error::Missing(Part::Offset) => Lack::Offset,
        Error::Missing(Part::Time) => Lack::Time,
        _ => Lack::Other,
    }
}

/// The nanoseconds since the epoch at which a clock in UTC shows this date and time of day. It may
/// be beyond what a `Timestamp` can hold.
fn clock_nanos(civil: DateTime) -> i128
    ensures { result ≡ civil_nanos civil }
{
    let epoch = Offset::UTC.to_datetime(Timestamp::UNIX_EPOCH);
    civil.duration_since(epoch).as_nanos()
}

/// The time of a text that has a date and a time of day and no offset.
fn clock_time(text: &str) -> Option<i128>
    ensures { result ≡ of_clock (parse_datetime text.now) }
{
    match text.parse::<DateTime>() {
        Ok(civil) => Some(clock_nanos(civil)),
        Err(_) => None,
    }
}

/// The time of a text that has a date alone.
fn day_time(text: &str) -> Option<i128>
    ensures { result ≡ of_day (parse_date text.now) }
{
    match text.parse::<Date>() {
        Ok(date) => Some(clock_nanos(DateTime::from(date))),
        Err(_) => None,
    }
}

/// The time that a text names, in nanoseconds since the epoch.
fn text_time(text: &str) -> Option<i128>
    ensures { result ≡ text_time text.now }
{
    match text.parse::<Timestamp>() {
        Ok(instant) => Some(instant.as_nanosecond()),
        Err(error) => match lack_of(error) {
            Lack::Offset => clock_time(text),
            Lack::Time => day_time(text),
            Lack::Other => None,
        },
    }
}

/// The time that a text names, or that it names none.
fn text_time_or_bad(text: &str) -> Result<i128, Reason>
    ensures { result ≡ or_bad (text_time text.now) }
{
    match text_time(text) {
        Some(nanos) => Ok(nanos),
        None => Err(Reason::BadTime),
    }
}

/// The time of a whole number of milliseconds.
fn milli_time(millis: i64) -> i128
    ensures { result ≡ millis *ℤ pos 1000000 }
{
    i128::from(millis) * NANOS_IN_MILLI
}

/// The time that a scalar names.
fn scalar_time(single: Single<'_>) -> Result<i128, Reason>
    ensures { result ≡ scalar_time (single_scalar single.entry) }
{
    match single {
        Single::Text(text) => text_time_or_bad(text),
        Single::Number(Num::Unsigned(millis)) => match i64::try_from(millis) {
            Ok(millis) => Ok(milli_time(millis)),
            Err(_) => Err(Reason::BadTime),
        },
        Single::Number(Num::Negative(millis)) => Ok(milli_time(millis)),
        Single::Number(Num::Fractional) | Single::Truth(_) => Err(Reason::BadTime),
    }
}

/// The timestamp of an event, from what was found under its name.
pub(crate) fn time_in(slot: &Slot) -> Result<i128, Reason>
    ensures { result ≡ time_found (found_of slot.now) }
{
    match slot.single() {
        Some(single) => scalar_time(single),
        None => if slot.is_empty() {
            Err(Reason::NoTime)
        } else {
            Err(Reason::BadTime)
        },
    }
}
