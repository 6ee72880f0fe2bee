//! The civil minutes that schedules are looked for in.
ghost use Rattle.std.specs.Prelude.{◌≡◌, ◌↔◌, ◌<◌, ◌+◌, ◌*◌, ℕ, IsTrue, true, IfSome, IfNone};
ghost use Rattle.jiff.specs.Words.{time_nanos};
ghost use Rattle.bf_cron.specs.inner.Cron.{spec_has_time};
ghost use Rattle.bf_cron.specs.Minutes.{IsMinute, IsDay, NeverFires};

use crate::matching::Matches;
use crate::spec::CronSpec;
use jiff::civil::{Date, DateTime};
use jiff_core::civil;

/// How many dates schedules are searched in: those from 1969-12-30 to 2208-12-31.
pub const DATES: u64 = 87_295;

/// How many minutes a date has.
const MINUTES_OF_DATE: u16 = 1_440;

/// Gives the date `day` days after 1969-12-30.
pub fn date_of(day: u64) -> Date
    requires { day < 87_295 }
    ensures { IsDay day result }
{
    let Ok(date) = civil::Date::from_unix_epoch_day(day as i64 - 2) else {
        unreachable!();
    };
    Date::from_plain(date)
}

/// Gives the civil time `minute` minutes after a date's midnight.
pub fn minute_of(date: Date, minute: u16) -> DateTime
    requires { minute < 1_440 }
    ensures date { result.date ≡ date }
    ensures time { time_nanos result.time ≡ minute * 60_000_000_000 }
    ensures minute { (day : ℕ) → IsDay day date → IsMinute (day * 1_440 + minute) result }
{
    date.at((minute / 60) as i8, (minute % 60) as i8, 0, 0)
}

impl CronSpec {
    /// Answers whether the schedule has the hour and the minute of the time `minute` minutes after midnight, on any
    /// date.
    fn has_time(&self, minute: u16) -> bool
        requires { minute < 1_440 }
        ensures { result ≡ spec_has_time self.now minute }
    {
        self.has_minute((minute % 60) as u8) && self.has_hour((minute / 60) as u8)
    }

    /// Finds the first time of day whose hour and minute the schedule has, in minutes after midnight; None where it has
    /// none.
    fn first_time(&self) -> Option<u16>
        ensures some { IfSome result (λ m. (m < 1_440) × (spec_has_time self.now m ≡ true)) }
        ensures none { IfNone result ((m : ℕ) → m < 1_440 → spec_has_time self.now m ≡ true → ⊥) }
    {
        for minute in 0..MINUTES_OF_DATE {
            if self.has_time(minute) {
                return Some(minute);
            }
        }
        None
    }

    /// Answers whether the schedule has no civil minute in the dates 1969-12-30 to 2208-12-31; true for `0 0 30 2 *`.
    /// It takes no memory.
    pub fn never_fires(&self) -> bool
        ensures { IsTrue result ↔ NeverFires self.now }
    {
        let Some(minute) = self.first_time() else {
            return true;
        };
        for day in 0..DATES {
            if self.matches(minute_of(date_of(day), minute)) {
                return false;
            }
        }
        true
    }
}
