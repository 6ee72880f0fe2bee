//! What a clock of a zone shows.
ghost use Rattle.std.specs.Prelude.{◌≡◌};
ghost use Rattle.jiff.specs.Words.{plain_zone};
ghost use Rattle.bf_days.specs.Days.{day_shown_of, is_on_day};

use crate::days::{DAY, Days};
use jiff::Timestamp;
use jiff::tz::TimeZone;

/// A second, in nanoseconds.
const SECOND: i128 = 1_000_000_000;

/// Gives the day that the zone's clocks show at a moment, counted from 1970-01-01, which is 0; negative before.
fn day_shown(zone: &TimeZone<'_>, at: Timestamp) -> i128
    ensures { result ≡ day_shown_of (plain_zone zone.now) at.nanosecond }
{
    let offset = i128::from(zone.to_offset(at).seconds()) * SECOND;
    (at.as_nanosecond() + offset).div_euclid(DAY)
}

/// Answers whether the zone's clocks show one of the days at the moment `at`.
pub(crate) fn is_clock_on_days(zone: &TimeZone<'_>, days: Days, at: Timestamp) -> bool
    ensures { result ≡ is_on_day (plain_zone zone.now) days at.nanosecond }
{
    let day = day_shown(zone, at);
    i128::from(days.first) <= day && day <= i128::from(days.last)
}
