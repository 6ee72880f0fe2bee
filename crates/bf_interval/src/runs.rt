//! The runs of a backfill.
ghost use Rattle.std.specs.Prelude.{◌≡◌, ◌≤◌, All, IfErr, IfOk, length};
ghost use Rattle.jiff.specs.Words.{plain_zone};
ghost use Rattle.bf_moment.specs.Moment.{IsWhole};
ghost use Rattle.bf_interval.specs.Intervals.{IsAnswer, IsShownInterval};
ghost use Rattle.bf_interval.specs.Runs.{AreOfRuns, IsNoRunAt, IsSaid, intervals_at};
ghost use Rattle.bf_interval.specs.Years.{IsInYears};

use crate::fault::IntervalFault;
use crate::interval::Interval;
use crate::listing::intervals;
use crate::years::is_in_years;
use bf_cron::CronSpec;
use bf_runs::RunCount;
use jiff::Timestamp;
use jiff::tz::TimeZone;
use std::alloc::Global;
use std::marker::Model;

/// The data intervals of a backfill's runs, by date: at most `MOST_RUNS`, in whole seconds, up to 2208-12-31T23:59:59Z.
#[derive(Drop)]
pub struct Runs {
    intervals: Vec<Interval>,
}

impl Model for Runs {
    ghost use Rattle.std.specs.Prelude.{List};
    ghost use Rattle.std.specs.Coded.{codes};
    ghost use Rattle.bf_interval.specs.contracts.interval.Interval;
    ghost use Rattle.bf_interval.specs.declared.interval.Interval.{Interval};
    ghost use Rattle.bf_interval.specs.Runs.{AreOfRuns};

    ghost Value = { List Interval };

    ghost coded = { Prim.hlevel (codes, Interval.the_row.coded) };

    ghost view = { λ r. r.intervals.items };

    ghost invariant = { λ r. AreOfRuns r.intervals.items };
}

impl Runs {
    /// Makes a run for each data interval that starts from `from` to `to`, both included, by date. Err comes as
    /// `intervals` gives it.
    pub fn in_range(
        alloc: Global,
        spec: &CronSpec,
        zone: &TimeZone<'_>,
        from: Timestamp,
        to: Timestamp,
    ) -> Result<Runs, IntervalFault>
        requires { IsSaid spec.now }
        ensures { IsAnswer spec.now (plain_zone zone.now) from.nanosecond to.nanosecond result }
    {
        let intervals = intervals(alloc, spec, zone, from, to)?;
        Ok(Runs { intervals })
    }

    /// Makes the runs of these data intervals, which must be by date, at most `MOST_RUNS` and in the years of runs.
    pub fn from_intervals(intervals: Vec<Interval>) -> Runs
        requires { AreOfRuns intervals.items }
        ensures { result ≡ intervals.items }
    {
        Runs { intervals }
    }

    /// Makes one run, whose data interval starts and ends at `moment`. `OutsideYears` where that isn't in the years
    /// 1970 to 2199, `OutOfMemory` at want of memory.
    pub fn single_at(alloc: Global, moment: Timestamp) -> Result<Runs, IntervalFault>
        requires { IsInYears moment.nanosecond → IsWhole moment.nanosecond }
        ensures ok { IfOk result (λ runs.
            IsInYears moment.nanosecond × (runs ≡ intervals_at moment)) }
        ensures err { IfErr result (IsNoRunAt moment) }
    {
        if !is_in_years(moment) {
            return Err(IntervalFault::OutsideYears);
        }
        let mut intervals = Vec::with_capacity(alloc, 1)?;
        intervals.push(Interval {
            start: moment,
            end: moment,
        })?;
        Ok(Runs { intervals })
    }

    /// Gives the data interval of each run, by date.
    #[tactic(auto, using(crate::proofs::OfRuns::shown_of_runs))]
    pub fn intervals(&self) -> &[Interval]
        ensures intervals { result.now ≡ self.now }
        ensures of_runs { AreOfRuns self.now }
        ensures shown { All IsShownInterval self.now }
    {
        self.intervals.as_slice()
    }

    /// Counts the runs.
    pub fn count(&self) -> usize
        ensures count { result ≡ length self.now }
        ensures few { result ≤ 4_096 }
    {
        self.intervals.len()
    }
}

impl RunCount for Runs {
    ghost runs = { λ runs. length runs };

    /// Counts the runs.
    fn count(&self) -> usize {
        Runs::count(self)
    }
}
