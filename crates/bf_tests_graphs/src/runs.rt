//! Runs from 1970-01-01 on.
ghost use Rattle.std.specs.Prelude.{IfOk};
ghost use Rattle.bf_interval.specs.Runs.{IsSaid};

use bf_cron::{CronFault, CronSpec};
use bf_interval::{IntervalFault, Runs};
use jiff::Timestamp;
use jiff::tz::TimeZone;
use std::alloc::Global;

/// Makes the one run at 1970-01-01T00:00:00Z, whose data interval ends where it starts.
pub fn epoch_run(alloc: Global) -> Result<Runs, IntervalFault> {
    Runs::single_at(alloc, Timestamp::UNIX_EPOCH)
}

/// Reads the schedule `@daily`.
fn daily(alloc: Global) -> Result<CronSpec, CronFault>
    ensures { IfOk result IsSaid }
{
    CronSpec::read(alloc, "@daily")
}

/// Makes the daily runs of so many days from 1970-01-01 on; None for no days, for more than a backfill may have, and at
/// want of memory.
pub fn daily_runs(alloc: Global, days: u32) -> Option<Runs> {
    let Ok(daily) = daily(alloc) else {
        return None;
    };
    let last = Timestamp::from_second((i64::from(days) - 1) * 86_400).ok()?;
    Runs::in_range(alloc, &daily, &TimeZone::UTC, Timestamp::UNIX_EPOCH, last).ok()
}
