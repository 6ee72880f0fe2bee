//! The command `explain`: why a run of a report, a task in it or an instance has its state.
ghost use Rattle.std.specs.Prelude.{◌≡◌, ◌<◌, ℤ, List, IfOk, IfErr, OnOk, Some, length, map, option_map, slice_get, string_bytes, true};
ghost use Rattle.bf_command_fault.specs.Refusal.{Leaves, Sends};
ghost use Rattle.bf_command_fault.specs.declared.status.Status.{Status};
ghost use Rattle.bf_device.specs.Device.{HasHalted, sent};
ghost use Rattle.bf_report_reader.specs.Rules.{IsShownReport};
ghost use Rattle.bf_views.specs.Asked.{run_number, task_number};
ghost use Rattle.bf_views.specs.ExplainFaults.{IsExplainFault};
ghost use Rattle.bf_views.specs.inner.ExplainFaults.{IsFaultOfAsked};
ghost use Rattle.bf_views.specs.Explanations.{IsExplainAnswer, IsExplanation, paths_asked};
ghost use Rattle.bf_views.specs.Matching.{is_of_graph};

use crate::matching::refuse_other_graph;
use crate::planned::read_plan;
use crate::times::clocks_of;
use bf_command_fault::{CommandFault, Status};
use bf_command_line::{ExplainAsked, TaskAsked};
use bf_dependents::ClearFault;
use bf_device::{Write, send};
use bf_disk::Source;
use bf_explain::{Paths, explain_run, explain_task, has_index};
use bf_input::{moment_of, read_report_file};
use bf_marks::tasks_in_order;
use bf_moment::Moment;
use bf_plan::Plan;
use bf_report::{Report, RunReport};
use bf_value::{OutOfMemory, Text};
use jiff::Timestamp;
use std::alloc::Global;

/// Copies a path; None where none is named.
fn text_if_named(alloc: Global, path: &Option<String>) -> Result<Option<Text>, OutOfMemory>
    ensures { IfOk result (λ text. text ≡ option_map string_bytes path.now) }
{
    match path {
        Some(path) => Ok(Some(Text::copy_of(alloc, path.as_str())?)),
        None => Ok(None),
    }
}

/// Copies the paths of the graph, the report and the zone file as the line spells them; that of the zone file is None
/// where it isn't named.
fn paths_of(alloc: Global, asked: &ExplainAsked) -> Result<Paths, OutOfMemory>
    ensures { IfOk result (λ paths. paths ≡ paths_asked asked.now) }
{
    Ok(Paths {
        graph: Text::copy_of(alloc, asked.graph.graph.as_str())?,
        report: Text::copy_of(alloc, asked.report.as_str())?,
        zone_file: text_if_named(alloc, &asked.graph.zone_file)?,
    })
}

/// Answers the number of the task with the id that is asked for, from 0 in file order; None where the plan has no such
/// task.
fn task_number_of(plan: &Plan, task: &TaskAsked) -> Option<u32>
    ensures { result ≡ task_number plan.now.dag task.now }
{
    plan.graph().number_of(task.id.as_str())
}

/// Answers the number of the report's run that starts at a moment, 0 for its first; None where none does.
fn run_number_at(report: &Report, start: Timestamp) -> Option<usize>
    ensures { result ≡ run_number report.now start.nanosecond }
{
    report
        .runs
        .as_slice()
        .iter()
        .position(|run| run.interval.start == start)
}

/// Explains the run that starts at the moment `start`. `Err` where no run does, the report isn't of this graph, or
/// memory runs out.
fn explain_run_at(
    alloc: Global,
    plan: &Plan,
    report: &Report,
    start: Timestamp,
) -> Result<String, CommandFault>
    requires { IsShownReport report.now }
    ensures text { (paths : Paths) (clocks : List ℤ) → IfOk result (λ text.
        IsExplanation paths plan.now.dag report.now clocks start.nanosecond None
        (string_bytes text)) }
    ensures fault { IfErr result (IsFaultOfAsked plan.now.dag report.now start.nanosecond None) }
{
    let Some(run) = run_number_at(report, start) else {
        return Err(CommandFault::Clear(ClearFault::UnknownRun));
    };
    refuse_other_graph(alloc, plan.dag(), report)?;
    let order = tasks_in_order(alloc, plan.dag())?;
    let told_run = &report.runs.as_slice()[run];
    Ok(explain_run(alloc, plan, told_run, order.as_slice())?)
}

/// Explains a task, or one instance of it, in the run that starts at the moment `start`; `clocks` are what the clocks of
/// the graph's zone show at the start of each run. `Err` where there is no such
/// task, run or map index, the report isn't of this graph, or memory runs out.
fn explain_task_at(
    alloc: Global,
    paths: &Paths,
    plan: &Plan,
    report: &Report,
    clocks: &[Moment],
    start: Timestamp,
    asked: &TaskAsked,
) -> Result<String, CommandFault>
    requires { IsShownReport report.now }
    ensures text { IfOk result (λ text. IsExplanation paths.now plan.now.dag report.now
        (map (λ clock. clock.at.nanosecond) clocks.now) start.nanosecond (Some asked.now)
        (string_bytes text)) }
    ensures fault { IfErr result (IsFaultOfAsked plan.now.dag report.now start.nanosecond
        (Some asked.now)) }
{
    let Some(task) = task_number_of(plan, asked) else {
        return Err(CommandFault::Clear(ClearFault::UnknownTask));
    };
    let Some(run) = run_number_at(report, start) else {
        return Err(CommandFault::Clear(ClearFault::UnknownRun));
    };
    refuse_other_graph(alloc, plan.dag(), report)?;
    let told_run = &report.runs.as_slice()[run];
    if !has_index(&told_run.tasks.as_slice()[task as usize], asked.index) {
        return Err(CommandFault::UnknownIndex);
    }
    let index = asked.index;
    Ok(explain_task(
        alloc, paths, plan, report, clocks, run as u32, told_run, task, index,
    )?)
}

/// Explains `task` in the run that starts at the moment `start`, or that run where it is None. `Err` where there is no
/// such task, run or map index, the report isn't of this graph, or memory runs out.
fn explain_run_or_task(
    alloc: Global,
    paths: &Paths,
    plan: &Plan,
    report: &Report,
    clocks: &[Moment],
    start: Timestamp,
    task: &Option<TaskAsked>,
) -> Result<String, CommandFault>
    requires { IsShownReport report.now }
    ensures text { IfOk result (λ text. IsExplanation paths.now plan.now.dag report.now
        (map (λ clock. clock.at.nanosecond) clocks.now) start.nanosecond task.now
        (string_bytes text)) }
    ensures fault { IfErr result (IsFaultOfAsked plan.now.dag report.now start.nanosecond
        task.now) }
{
    match task {
        Some(task) => explain_task_at(alloc, paths, plan, report, clocks, start, task),
        None => explain_run_at(alloc, plan, report, start),
    }
}

/// Does `explain`: writes why a task or a run has its state; the report may be of `single`, or of any range. `Err`
/// where the moment, the graph, the report's file, the task, the run, a report of another graph, or the map index is
/// refused, checked in this order; also where `out` fails or memory runs out. At `Err`, `out` got nothing but the bytes
/// that `CannotWrite` counts.
pub fn answer_explain<S: Source, W: Write>(
    alloc: Global,
    asked: ExplainAsked,
    files: &mut S,
    out: &mut W,
) -> Result<Status, CommandFault>
    ensures answer { IfOk result (λ status. Sends
        (λ text. IsExplainAnswer (S.file files.old) asked text status)
        (W.written out.old) (W.written out.new)) }
    ensures fault { IfErr result (IsExplainFault (S.file files.old) asked) }
    ensures left { IfErr result (Leaves (HasHalted (W.failures out.old) (W.failures out.new)
        (W.interruptions out.old) (W.interruptions out.new))
        (λ text. (status : Status) × IsExplainAnswer (S.file files.old) asked text status)
        (W.written out.old) (W.written out.new)) }
{
    let start = moment_of(asked.run.as_str())?;
    let paths = paths_of(alloc, &asked)?;
    let planned = read_plan(alloc, asked.graph, files)?;
    let report = read_report_file(alloc, asked.report, files)?;
    let clocks = clocks_of(alloc, &planned.timed, &report)?;
    let plan = &planned.timed.plan;
    let text = explain_run_or_task(alloc, &paths, plan, &report, &clocks, start, &asked.task);
    drop(report);
    drop(planned);
    send(out, text?.as_bytes())?;
    Ok(Status::Success)
}
