//! The plans of graph files, and the tables that answer their tries.
ghost use Rattle.std.specs.Prelude.{◌≡◌, ℕ, List, Option, map, option_map, IfOk, IfErr, Ok};
ghost use Rattle.jiff.specs.Types.{TimeZone};
ghost use Rattle.bf_zone.specs.Zones.{IsZoneOf};
ghost use Rattle.bf_interval.specs.Runs.{IsSaid};
ghost use Rattle.bf_table.specs.Tables.{table_in};
ghost use Rattle.bf_planning.specs.Graphs.{IsFileOf, IsFaultIn, IsPlanOf, IsTimed};
ghost use Rattle.bf_planning.specs.Lists.{HasListing, IsDatedFault, IsRangeFault};
ghost use Rattle.bf_planning.specs.Tables.{IsTableFault};
ghost use Rattle.bf_planning.specs.Clocks.{AreClocksOf, clocks_in};
ghost use Rattle.bf_planning.specs.Ranges.{IsStartsAnswer};

use crate::range::{MomentRange, RunRange, Starts};
use bf_check::{Zone, check};
use bf_command_fault::{CommandFault, RangeFault};
use bf_days::intervals_on;
use bf_interval::{IntervalFault, Runs};
use bf_moment::Moment;
use bf_plan::Plan;
use bf_process::clocks_of;
use bf_read::{Draft, read_graph};
use bf_table::Table;
use bf_value::OutOfMemory;
use std::alloc::Global;

/// The plan of a graph file, and the time zone of its schedule.
#[derive(Drop)]
pub struct TimedPlan {
    pub plan: Plan,
    pub zone: Zone,
}

impl TimedPlan {
    /// Makes a run for each data interval of the schedule that starts where `starts` says, its ends included; maybe
    /// none. `Err` where they can't be listed, or at want of memory.
    fn runs_from_starts(&self, alloc: Global, starts: Starts) -> Result<Runs, IntervalFault>
        requires { IsSaid self.now.plan.schedule }
        ensures { (zone : TimeZone) × IsZoneOf self.now.zone zone
            × IsStartsAnswer self.now.plan.schedule zone starts result }
    {
        let zone = self.zone.as_time_zone();
        match starts {
            Starts::Between(MomentRange { from, to }) => {
                Runs::in_range(alloc, self.plan.schedule(), &zone, from, to)
            }
            Starts::On(days) => {
                let intervals = intervals_on(alloc, self.plan.schedule(), &zone, days)?;
                Ok(Runs::from_intervals(intervals))
            }
        }
    }

    /// Makes a run for each data interval of the schedule that starts in the range, its ends included. `Err` where they
    /// can't be listed, there is none though `range.some` asks for one, or memory runs out.
    pub fn runs(&self, alloc: Global, range: RunRange) -> Result<Runs, CommandFault>
        requires { IsSaid self.now.plan.schedule }
        ensures ok { IfOk result (λ runs. (graph : List ℕ) (file : Option (List ℕ))
            → IsTimed graph file self.now.plan.schedule self.now.zone
            → HasListing graph file range (Ok runs)) }
        ensures fault { IfErr result (λ f. (graph : List ℕ) (file : Option (List ℕ))
            → IsTimed graph file self.now.plan.schedule self.now.zone
            → IsRangeFault graph file range f) }
    {
        let runs = self.runs_from_starts(alloc, range.starts)?;
        if range.some && runs.count() == 0 {
            return Err(CommandFault::Range(RangeFault::NoRuns));
        }
        Ok(runs)
    }

    /// Answers the local time in the plan's zone at the start of each run, in order.
    pub fn clocks(&self, alloc: Global, runs: &Runs) -> Result<Vec<Moment>, OutOfMemory>
        ensures { IfOk result (λ clocks. (graph : List ℕ) (file : Option (List ℕ))
            → IsTimed graph file self.now.plan.schedule self.now.zone
            → AreClocksOf graph file runs.now (map (λ clock. clock.at.nanosecond) clocks.items)) }
    {
        let zone = self.zone.as_time_zone();
        clocks_of(alloc, &zone, runs)
    }

    /// Adds to the plan a run for each data interval that starts in the range, its ends included, and the local time at
    /// the start of each. `Err` where the runs can't be listed, there is none though `range.some` asks for one, or
    /// memory runs out.
    pub fn into_dated(self, alloc: Global, range: RunRange) -> Result<DatedPlan, CommandFault>
        requires { IsSaid self.plan.schedule }
        ensures plan { IfOk result (λ dated. dated.plan ≡ self.plan) }
        ensures listing { IfOk result (λ dated. (graph : List ℕ) (file : Option (List ℕ))
            → IsTimed graph file self.plan.schedule self.zone
            → HasListing graph file range (Ok dated.runs)) }
        ensures clocks { IfOk result (λ dated. (graph : List ℕ) (file : Option (List ℕ))
            → IsTimed graph file self.plan.schedule self.zone
            → AreClocksOf graph file dated.runs (clocks_in dated)) }
        ensures fault { IfErr result (λ f. (graph : List ℕ) (file : Option (List ℕ))
            → IsTimed graph file self.plan.schedule self.zone
            → IsRangeFault graph file range f) }
    {
        let runs = self.runs(alloc, range)?;
        let clocks = self.clocks(alloc, &runs)?;
        Ok(DatedPlan {
            plan: self.plan,
            runs,
            clocks,
        })
    }
}

/// Reads the table in the bytes of its file. `Err` where they aren't one, or at want of memory.
pub fn table_in(alloc: Global, bytes: &[u8]) -> Result<Table, CommandFault>
    ensures ok { IfOk result (λ table. table_in bytes.now ≡ Ok table) }
    ensures fault { IfErr result (IsTableFault bytes.now) }
{
    let table = Table::read(alloc, bytes)?;
    Ok(table)
}

/// Reads the bytes of a graph file into a draft, before its tasks, schedule and zone are checked. `Err` where they
/// aren't a graph, or at want of memory.
pub(crate) fn draft_in(alloc: Global, graph: &[u8]) -> Result<Draft, CommandFault>
    ensures ok { IfOk result (IsFileOf graph.now) }
    ensures fault { IfErr result (λ f. (file : Option (List ℕ)) → IsFaultIn graph.now file f) }
{
    let draft = read_graph(alloc, graph)?;
    Ok(draft)
}

/// Makes the plan of a graph file, with its zone. `zone_file` has the bytes that the zone `file` needs. `Err` where the
/// graph is refused, or at want of memory.
pub fn timed_plan_in(
    alloc: Global,
    graph: &[u8],
    zone_file: Option<&[u8]>,
) -> Result<TimedPlan, CommandFault>
    ensures plan { IfOk result (λ timed. IsPlanOf graph.now
        (option_map (λ s. s.now) zone_file.entry) timed.plan) }
    ensures zone { IfOk result (λ timed. IsTimed graph.now (option_map (λ s. s.now) zone_file.entry)
        timed.plan.schedule timed.zone) }
    ensures fault { IfErr result (IsFaultIn graph.now (option_map (λ s. s.now) zone_file.entry)) }
{
    let draft = draft_in(alloc, graph)?;
    let (plan, zone) = check(alloc, draft, zone_file)?;
    let _sound = plan.dag();
    Ok(TimedPlan { plan, zone })
}

/// The plan of a graph file, its runs by date, and for each run the local time at its start in the graph's zone.
#[derive(Drop)]
pub struct DatedPlan {
    pub plan: Plan,
    pub runs: Runs,
    pub clocks: Vec<Moment>,
}

/// Makes the plan of a graph file, with a run for each data interval of its schedule that starts in the range, its ends
/// included. `Err` where the graph is refused, the runs can't be listed, there is none though `range.some` asks for
/// one, or memory runs out.
pub fn dated_plan_in(
    alloc: Global,
    graph: &[u8],
    zone_file: Option<&[u8]>,
    range: RunRange,
) -> Result<DatedPlan, CommandFault>
    ensures plan { IfOk result (λ dated. IsPlanOf graph.now
        (option_map (λ s. s.now) zone_file.entry) dated.plan) }
    ensures listing { IfOk result (λ dated. HasListing graph.now
        (option_map (λ s. s.now) zone_file.entry)
        range (Ok dated.runs)) }
    ensures clocks { IfOk result (λ dated. AreClocksOf graph.now
        (option_map (λ s. s.now) zone_file.entry)
        dated.runs (clocks_in dated)) }
    ensures fault { IfErr result (IsDatedFault graph.now (option_map (λ s. s.now) zone_file.entry)
        range) }
{
    let timed = timed_plan_in(alloc, graph, zone_file)?;
    timed.into_dated(alloc, range)
}
