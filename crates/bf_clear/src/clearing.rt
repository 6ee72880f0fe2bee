//! What is kept of a report, and what is cleared in it.
ghost use Rattle.std.specs.Prelude.{◌≡◌, IfOk, IfErr, length};
ghost use Rattle.bf_kept.specs.Kept.{AreFit};
ghost use Rattle.bf_dependents.specs.Dependents.{AreDependents};
ghost use Rattle.bf_clear.specs.Aligning.{AreKeptByIds};
ghost use Rattle.bf_clear.specs.inner.Entries.{IsWithin};
ghost use Rattle.bf_clear.specs.Keeping.{kept_in, AreKept};
ghost use Rattle.bf_clear.specs.Matching.{IsRefusedFor, MatchesPlan};

use crate::aligning::align;
use crate::cleared::Cleared;
use crate::matching::{is_of_dag, is_report_of};
use bf_dependents::{ClearFault, Place, dependents};
use bf_interval::Runs;
use bf_plan::Plan;
use bf_report::Report;
use bf_value::OutOfMemory;
use std::alloc::Global;

/// What is kept of a report, which has the plan's tasks and these runs, where these places and all that follows from
/// them are cleared.
fn clear_places_within<'a>(
    alloc: Global,
    plan: &'a Plan,
    runs: &Runs,
    report: Report,
    places: &[Place],
) -> Result<Cleared<'a>, OutOfMemory>
    requires { IsWithin plan.now.dag (length runs.now) report }
    ensures kept { IfOk result (λ kept. AreKept plan.entry.now.dag places.now report
        (kept_in kept)) }
    ensures follows { IfOk result (λ kept. AreDependents plan.entry.now.dag places.now
        (length runs.now) kept.cleared) }
    ensures fit { IfOk result (λ kept. AreFit plan.entry.now.dag (kept_in kept)) }
{
    let intervals = runs.intervals();
    let cleared = dependents(alloc, plan, places, intervals.len() as u32)?;
    Ok(Cleared::new(plan, report, cleared))
}

/// What is kept of a report of this graph, whatever tasks and runs it has, where these places and all that follows from
/// them are cleared: each other try whose outcome the plan allows, found by its data interval, task id, map index and
/// number. `ReportMismatch` where the report has another dag id, `OutOfMemory` where memory ran out.
pub fn clear_places_by_ids<'a>(
    alloc: Global,
    plan: &'a Plan,
    runs: &Runs,
    report: Report,
    places: &[Place],
) -> Result<Cleared<'a>, ClearFault>
    ensures ok { IfOk result (λ kept. report.dag_id ≡ plan.entry.now.dag.id) }
    ensures kept { IfOk result (λ kept. AreKeptByIds plan.entry.now.dag runs.now places.now report
        (kept_in kept)) }
    ensures follows { IfOk result (λ kept. AreDependents plan.entry.now.dag places.now
        (length runs.now) kept.cleared) }
    ensures fit { IfOk result (λ kept. AreFit plan.entry.now.dag (kept_in kept)) }
    ensures err { IfErr result (IsRefusedFor (report.dag_id ≡ plan.entry.now.dag.id)) }
{
    if !is_of_dag(plan.dag(), &report) {
        return Err(ClearFault::ReportMismatch);
    }
    let told = align(alloc, plan, runs, report)?;
    let kept = clear_places_within(alloc, plan, runs, told, places)?;
    Ok(kept)
}

/// What is kept of a report where these places and all that follows from them are cleared, downstream and, for tasks
/// that depend on their past, in later runs: each other try whose outcome the plan allows. `ReportMismatch` where the
/// report isn't one of this plan and these runs, `OutOfMemory` where memory ran out.
pub fn clear_places<'a>(
    alloc: Global,
    plan: &'a Plan,
    runs: &Runs,
    report: Report,
    places: &[Place],
) -> Result<Cleared<'a>, ClearFault>
    ensures ok { IfOk result (λ kept. MatchesPlan plan.entry.now.dag runs.now report) }
    ensures kept { IfOk result (λ kept. AreKept plan.entry.now.dag places.now report
        (kept_in kept)) }
    ensures follows { IfOk result (λ kept. AreDependents plan.entry.now.dag places.now
        (length runs.now) kept.cleared) }
    ensures fit { IfOk result (λ kept. AreFit plan.entry.now.dag (kept_in kept)) }
    ensures err { IfErr result (IsRefusedFor (MatchesPlan plan.entry.now.dag runs.now report)) }
{
    if !is_report_of(plan.dag(), runs.intervals(), &report) {
        return Err(ClearFault::ReportMismatch);
    }
    let kept = clear_places_within(alloc, plan, runs, report, places)?;
    Ok(kept)
}
