//! The data intervals of a range.
ghost use Rattle.std.specs.Prelude.{◌≡◌, ℕ, ◌≤◌, ◌↔◌, ◌≤ℤ◌, All};
ghost use Rattle.std.specs.Result.{result_map_both};
ghost use Rattle.jiff.specs.Words.{plain_zone};
ghost use Rattle.bf_interval.specs.inner.Search.{seconds, IsPaired};
ghost use Rattle.bf_interval.specs.Intervals.{IsAnswer};
ghost use Rattle.bf_interval.specs.Years.{IsInYears};

use crate::fault::IntervalFault;
use crate::fires::first_fires;
use crate::interval::Interval;
use crate::years::is_in_years;
use bf_cron::CronSpec;
use jiff::Timestamp;
use jiff::tz::TimeZone;
use std::alloc::Global;

/// The most runs that a backfill may have (this program's own choice).
pub const MOST_RUNS: usize = 4_096;

/// A second, in nanoseconds.
const SECOND: u64 = 1_000_000_000;

/// Gives the first whole second since 1970 that isn't before the moment.
fn second_rounded_up(moment: Timestamp) -> u64
    requires { IsInYears moment.nanosecond }
    ensures rounded { (k : ℕ) → (result ≤ k) ↔ (moment.nanosecond ≤ℤ seconds k) }
    ensures small { result ≤ 7_258_118_399 }
{
    (moment.as_nanosecond() as u64).div_ceil(SECOND)
}

/// Gives the last whole second since 1970 that isn't after the moment.
fn second_rounded_down(moment: Timestamp) -> u64
    requires { IsInYears moment.nanosecond }
    ensures { (k : ℕ) → (k ≤ result) ↔ (seconds k ≤ℤ moment.nanosecond) }
{
    moment.as_nanosecond() as u64 / SECOND
}

/// Gives the moment at this second since 1970-01-01T00:00:00Z.
fn moment_of_second(second: u64) -> Timestamp
    requires { second ≤ 253_402_207_200 }
    ensures { result.nanosecond ≡ seconds second }
{
    let Ok(moment) = Timestamp::from_second(second as i64) else {
        unreachable!();
    };
    moment
}

/// Makes a data interval from each fire, in seconds since 1970, to the next, where it starts by the second `to`; none
/// of fewer than two fires. `TooManyRuns` where there would be more than `MOST_RUNS`, `OutOfMemory` at want of memory.
fn intervals_between_fires(
    alloc: Global,
    fires: &[u64],
    to: u64,
) -> Result<Vec<Interval>, IntervalFault>
    requires { All (λ k. k ≤ 253_402_207_200) fires.now }
    ensures { IsPaired fires.now to (result_map_both (λ v. v.items) (λ e. e) result) }
{
    let mut found = Vec::new(alloc);
    let [first, later @ ..] = fires else {
        return Ok(found);
    };
    let mut start = *first;
    for end in later {
        if start > to {
            break;
        }
        if found.len() == MOST_RUNS {
            return Err(IntervalFault::TooManyRuns);
        }
        found.push(Interval {
            start: moment_of_second(start),
            end: moment_of_second(*end),
        })?;
        start = *end;
    }
    Ok(found)
}

/// Lists the data intervals (Airflow's "Data Interval", crontab(5)) that start from `from` to `to`, both included, in
/// order; none where the schedule never fires. Err, in this order: `OutsideYears` for a moment outside the years 1970
/// to 2199, `RangeReversed` for `from` after `to`, `TooManyRuns` for more than `MOST_RUNS`. `OutOfMemory` comes at want
/// of memory.
pub fn intervals(
    alloc: Global,
    spec: &CronSpec,
    zone: &TimeZone<'_>,
    from: Timestamp,
    to: Timestamp,
) -> Result<Vec<Interval>, IntervalFault>
    ensures { IsAnswer spec.now (plain_zone zone.now) from.nanosecond to.nanosecond
        (result_map_both (λ v. v.items) (λ e. e) result) }
{
    if !is_in_years(from) || !is_in_years(to) {
        return Err(IntervalFault::OutsideYears);
    }
    if to < from {
        return Err(IntervalFault::RangeReversed);
    }
    let (first, last) = (second_rounded_up(from), second_rounded_down(to));
    let fires = first_fires(alloc, spec, zone, first, last)?;
    intervals_between_fires(alloc, &fires, last)
}
