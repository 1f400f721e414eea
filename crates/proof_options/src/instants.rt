//! Time stamps read: what their numbers mean, and whether the calendar has them.

ghost use Rattle.std.specs.Prelude.{◌≡◌, ◌<◌, ◌+◌, ◌*◌, pos, IfSome, MatchOption};
ghost use Rattle.jiff_core.specs.Calendar.{IsEpochDay, IsWithin};
ghost use Rattle.proof_options.specs.Calendar.{IsDate, epoch_day};
ghost use Rattle.proof_options.specs.Stamps.{IsOffset, offset_seconds, ReadsStamp};
ghost use Rattle.proof_options.specs.declared.reading.Shift.TheVariants as shift;
ghost use Rattle.proof_options.specs.Internal.Written.{date_of, offset_of, IsTime, Means};

use crate::reading::{Clock, Day, Shift, Written, read_written};
use crate::stamps::Stamp;
use base_types::{Memory, Text};
use jiff_core::civil::Date;
use std::alloc::Global;

/// How many days after 1970-01-01 the day is, where the calendar has it.
fn day_number(day: Day) -> Option<i64>
    ensures number { MatchOption result (IsDate (date_of day) → ⊥)
        (λ n. IsDate (date_of day) × (n ≡ epoch_day (date_of day))) }
    ensures bound { IfSome result IsEpochDay }
{
    if day.year == 0 || day.year > 9999 || day.month > 12 || day.day > 31 {
        return None;
    }
    match Date::new(day.year as i16, day.month as i8, day.day as i8) {
        Ok(date) => Some(i64::from(date.to_unix_epoch_day())),
        Err(_) => None,
    }
}

/// The seconds of a time of day, where there is such a time.
fn second_of_day(clock: Clock, second: u8) -> Option<i64>
    ensures seconds { MatchOption result (IsTime clock second → ⊥)
        (λ n. IsTime clock second × (n ≡ pos (3600 * clock.hour + 60 * clock.minute + second))) }
    ensures bound { IfSome result (IsWithin 86_400) }
{
    if clock.hour > 23 || clock.minute > 59 || second > 59 {
        return None;
    }
    Some(3600 * i64::from(clock.hour) + 60 * i64::from(clock.minute) + i64::from(second))
}

/// The seconds of an offset to either side, where it is one of at most 14:00.
fn offset_size(clock: Clock) -> Option<i64>
    ensures seconds { MatchOption result (IsOffset (offset_of (shift.Ahead clock)) → ⊥)
        (λ n. IsOffset (offset_of (shift.Ahead clock))
        × (n ≡ pos (3600 * clock.hour + 60 * clock.minute))) }
    ensures bound { IfSome result (IsWithin 50_400) }
{
    if clock.minute > 59 {
        return None;
    }
    let minutes = 60 * i64::from(clock.hour) + i64::from(clock.minute);
    if minutes > 840 {
        return None;
    }
    Some(60 * minutes)
}

/// The seconds by which the clock is ahead of UTC, where it is so by at most 14:00.
fn seconds_ahead(shift: Shift) -> Option<i64>
    ensures seconds { MatchOption result (IsOffset (offset_of shift) → ⊥)
        (λ n. IsOffset (offset_of shift) × (n ≡ offset_seconds (offset_of shift))) }
    ensures bound { IfSome result (IsWithin 50_400) }
{
    match shift {
        Shift::Utc => Some(0),
        Shift::Ahead(clock) => offset_size(clock),
        Shift::Behind(clock) => Some(-offset_size(clock)?),
    }
}

/// The instant of the numbers, where there is such a date and time.
fn instant(written: Written) -> Option<i128>
    ensures means { Means written result }
    ensures bound { IfSome result (IsWithin 1_000_000_000_000_000_000_000) }
{
    let day = day_number(written.day)?;
    let second = second_of_day(written.clock, written.second)?;
    let ahead = seconds_ahead(written.shift)?;
    let at = day * 86_400 + second - ahead;
    Some(i128::from(at) * 1_000_000_000 + i128::from(written.nanosecond))
}

/// The stamp that a text is, with its instant, or `None` where it is none: `YYYY-MM-DDThh:mm:ss`,
/// perhaps a dot and one to nine digits, and `Z` or an offset of at most 14:00. The year is 0001 to
/// 9999, the date exists, and no second is the 60th. RFC 3339, 5.6 and 5.7; XML Schema 1.1, part 2,
/// 3.4.28.
///
/// # Errors
///
/// `Memory`: there is no memory for the copy of the text.
pub fn read_stamp(alloc: Global, text: &str) -> Result<Option<Stamp>, Memory>
    ensures { ReadsStamp text.now result }
{
    let Some(written) = read_written(text.as_bytes()) else {
        return Ok(None);
    };
    match instant(written) {
        Some(nanosecond) => {
            let text = Text::from_str(alloc, text)?;
            Ok(Some(Stamp { text, nanosecond }))
        }
        None => Ok(None),
    }
}
