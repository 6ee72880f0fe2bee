//! Whether a report is one of a graph.
ghost use Rattle.std.specs.Prelude.{◌≡◌, true, false, IfOk, IfErr, OnOk};
ghost use Rattle.bf_dependents.specs.declared.fault.ClearFault.{ClearFault};
ghost use Rattle.bf_views.specs.Matching.{intervals_in, is_of_graph};
ghost use Rattle.bf_views.specs.inner.Refused.{IsRefusedBy};

use bf_clear::is_report_of;
use bf_command_fault::CommandFault;
use bf_dependents::ClearFault;
use bf_interval::Interval;
use bf_plan::Dag;
use bf_report::{Report, RunReport};
use bf_value::OutOfMemory;
use std::alloc::Global;

/// Lists the data intervals of these runs, in their order.
pub(crate) fn intervals_of(alloc: Global, runs: &[RunReport]) -> Result<Vec<Interval>, OutOfMemory>
    ensures { IfOk result (λ intervals. intervals.items ≡ intervals_in runs.now) }
{
    let mut intervals = Vec::with_capacity(alloc, runs.len())?;
    for run in runs {
        intervals.push(run.interval)?;
    }
    Ok(intervals)
}

/// Checks that the report's dag id, tasks and pulls are this graph's; its data intervals may be any. `Err` with
/// `ReportMismatch` where they aren't, or at want of memory.
pub(crate) fn refuse_other_graph(
    alloc: Global,
    dag: &Dag,
    report: &Report,
) -> Result<(), CommandFault>
    ensures ok { OnOk result (is_of_graph dag.now report.now ≡ true) }
    ensures err { IfErr result (IsRefusedBy (is_of_graph dag.now report.now)) }
{
    let intervals = intervals_of(alloc, report.runs.as_slice())?;
    if is_report_of(dag, intervals.as_slice(), report) {
        return Ok(());
    }
    Err(CommandFault::Clear(ClearFault::ReportMismatch))
}
