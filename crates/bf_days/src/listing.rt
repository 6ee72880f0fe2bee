//! The data intervals that start on days.
ghost use Rattle.std.specs.Prelude.{◌≡◌, ◌<◌, ◌≤◌, ◌++◌, ◌↔◌, ℕ, pos, length, filter, IsTrue, IfErr, IfOk, OnOk};
ghost use Rattle.std.specs.Result.{result_map_both};
ghost use Rattle.jiff.specs.Words.{plain_zone};
ghost use Rattle.bf_interval.specs.Runs.{AreOfRuns, IsSaid};
ghost use Rattle.bf_days.specs.Days.{IsDayInYears};
ghost use Rattle.bf_days.specs.Listing.{AreIntervalsBetween, IsAnswerOn};
ghost use Rattle.bf_days.specs.inner.Listing.{are_on, IsKeptFault, IsAddFault};

use crate::days::Days;
use crate::shown::is_clock_on_days;
use bf_cron::CronSpec;
use bf_interval::{Interval, IntervalFault, MOST_RUNS, intervals};
use jiff::Timestamp;
use jiff::tz::TimeZone;
use std::alloc::Global;

/// The last day of the year 2199, counted from 1970-01-01, which is 0.
const LAST_DAY: i64 = 84_005;

/// A day, in nanoseconds.
const DAY: u64 = 86_400_000_000_000;

/// The furthest that a clock is from UTC, in nanoseconds: 25:59:59, the greatest offset that `jiff` has.
const GREATEST_OFFSET: u64 = 93_599_000_000_000;

/// The first nanosecond since 1970 behind the years that runs lie in.
const END_OF_YEARS: u64 = 7_258_118_399_000_000_001;

/// The search for the data intervals of a schedule, in a zone, that start on some days.
#[derive(Clone, Copy)]
struct Search<'a, 'z> {
    spec: &'a CronSpec,
    zone: &'a TimeZone<'z>,
    days: Days,
}

/// Gives the moment at this nanosecond since 1970-01-01T00:00:00Z.
fn moment_of_nanosecond(nanosecond: u64) -> Timestamp
    requires { nanosecond < 7_258_118_399_000_000_001 }
    ensures { result.nanosecond ≡ pos nanosecond }
{
    let Ok(moment) = Timestamp::from_nanosecond(i128::from(nanosecond)) else {
        unreachable!();
    };
    moment
}

impl Search<'_, '_> {
    /// Adds to `found` those of the `listed` data intervals that start on the days sought. `TooManyRuns` where `found`
    /// would have more than `MOST_RUNS`, `OutOfMemory` at want of memory.
    fn push_those_on_days(
        self,
        found: &mut Vec<Interval>,
        listed: &[Interval],
    ) -> Result<(), IntervalFault>
        requires { length found.old.items ≤ 4_096 }
        ensures ok { OnOk result (found.new.items
            ≡ found.old.items
            ++ filter (are_on (plain_zone self.entry.zone.now) self.entry.days) listed.now) }
        ensures few { OnOk result (length found.new.items ≤ 4_096) }
        ensures err { IfErr result
            (IsKeptFault (are_on
            (plain_zone self.entry.zone.now) self.entry.days) found.old.items listed.now) }
    {
        for interval in listed {
            if is_clock_on_days(self.zone, self.days, interval.start) {
                if found.len() == MOST_RUNS {
                    return Err(IntervalFault::TooManyRuns);
                }
                found.push(*interval)?;
            }
        }
        Ok(())
    }

    /// Adds to `found` the data intervals that start on the days sought, from the nanosecond `from` since 1970 on and
    /// before `to`. Where more start in this time than can be listed at once, it halves it. `TooManyRuns` where `found`
    /// would have more than `MOST_RUNS`, `OutOfMemory` at want of memory.
    fn push_intervals_between(
        self,
        alloc: Global,
        found: &mut Vec<Interval>,
        from: u64,
        to: u64,
    ) -> Result<(), IntervalFault>
        requires few { length found.old.items ≤ 4_096 }
        requires some { from < to }
        requires in_years { to ≤ 7_258_118_399_000_000_001 }
        ensures few { OnOk result (length found.new.items ≤ 4_096) }
        ensures ok { OnOk result ((low : ℕ) → low ≤ from
            → AreIntervalsBetween self.entry.spec.now
            (plain_zone self.entry.zone.now) self.entry.days low from found.old.items
            → AreIntervalsBetween self.entry.spec.now
            (plain_zone self.entry.zone.now) self.entry.days low to found.new.items) }
        ensures err { IfErr result (λ fault. (low : ℕ) → low ≤ from
            → AreIntervalsBetween self.entry.spec.now
            (plain_zone self.entry.zone.now) self.entry.days low from found.old.items
            → IsAddFault self.entry.spec.now
            (plain_zone self.entry.zone.now) self.entry.days fault) }
    {
        let fault = match intervals(
            alloc,
            self.spec,
            self.zone,
            moment_of_nanosecond(from),
            moment_of_nanosecond(to - 1),
        ) {
            Ok(listed) => return self.push_those_on_days(found, listed.as_slice()),
            Err(fault) => fault,
        };
        if fault != IntervalFault::TooManyRuns {
            return Err(fault);
        }
        let middle = from + (to - from) / 2;
        self.push_intervals_between(alloc, found, from, middle)?;
        self.push_intervals_between(alloc, found, middle, to)
    }
}

/// Answers whether a day, counted from 1970-01-01, which is 0, lies in the years 1970 to 2199.
fn is_in_years(day: i64) -> bool
    ensures { IsTrue result ↔ IsDayInYears day }
{
    (0..=LAST_DAY).contains(&day)
}

/// Lists the data intervals at whose start the zone's clocks show one of the days, in order, without those that start
/// outside the years 1970 to 2199; none where the schedule never fires. Err, in this order: `OutsideYears` for a day
/// outside those years, `RangeReversed` for a first day after the last, `TooManyRuns` for more than `MOST_RUNS`.
/// `OutOfMemory` comes at want of memory. `Runs::from_intervals` takes those of a schedule that was read from a text.
pub fn intervals_on(
    alloc: Global,
    spec: &CronSpec,
    zone: &TimeZone<'_>,
    days: Days,
) -> Result<Vec<Interval>, IntervalFault>
    ensures answer { IsAnswerOn spec.now (plain_zone zone.now) days
        (result_map_both (λ v. v.items) (λ e. e) result) }
    ensures of_runs { IsSaid spec.now → IfOk result (λ v. AreOfRuns v.items) }
{
    if !is_in_years(days.first) || !is_in_years(days.last) {
        return Err(IntervalFault::OutsideYears);
    }
    if days.last < days.first {
        return Err(IntervalFault::RangeReversed);
    }
    let from = (days.first as u64 * DAY).saturating_sub(GREATEST_OFFSET);
    let to = ((days.last as u64 + 1) * DAY + GREATEST_OFFSET).min(END_OF_YEARS);
    let mut found = Vec::new(alloc);
    let search = Search { spec, zone, days };
    search.push_intervals_between(alloc, &mut found, from, to)?;
    Ok(found)
}
