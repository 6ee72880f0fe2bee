//! The report of a backfill that has ended.
ghost use Rattle.std.specs.Prelude.{◌≡◌, ◌≤◌, ◌<◌, true, false, length, map, All, IfOk};
ghost use Rattle.std.specs.List.{filter_map};
ghost use Rattle.bf_plan.specs.Sound.{IsSound};
ghost use Rattle.bf_core.specs.Events.{entry_in, cell_at};
ghost use Rattle.bf_core.specs.Agreement.{IsOutcome, AreRunStates};
ghost use Rattle.bf_interval.specs.Intervals.{IsShownInterval};
ghost use Rattle.bf_report.specs.Dated.{reported, reported_instance, reported_instances, reports_from, AreDated, IsDated, ids_shown};
ghost use Rattle.bf_report.specs.Values.{IsSoundTask, AreSoundTasks, AreSoundRuns, HasSoundValues};

use crate::instances::{instance_report, instance_reports};
use crate::report::{Report, RunReport, TaskReport, Version};
use bf_core::{Cell, Ended, Instance, State};
use bf_interval::{Interval, Runs};
use bf_plan::{Dag, Task};
use bf_value::{OutOfMemory, Sequence, Text};
use bf_xcom::RunState;
use std::alloc::Global;

/// Makes the report of a task that isn't expanded from its instances: that of the first one that has finished, and
/// `NoStatus` where none has.
fn report_of_first(
    alloc: Global,
    dag: &Dag,
    task: u32,
    instances: &[Instance],
) -> Result<TaskReport, OutOfMemory>
    requires dag { IsSound dag.now }
    requires task { task < length dag.now.tasks }
    ensures report { IfOk result (λ r. r ≡ reported_instances false
        (filter_map (reported_instance dag.now task) instances.now)) }
    ensures sound { IfOk result IsSoundTask }
{
    for instance in instances {
        if let Some(report) = instance_report(alloc, dag, task, instance)? {
            return Ok(TaskReport::Ran(report));
        }
    }
    Ok(TaskReport::NoStatus)
}

/// Makes the report of an expanded task from its instances: those of all that have finished.
fn report_of_each(
    alloc: Global,
    dag: &Dag,
    task: u32,
    instances: &[Instance],
) -> Result<TaskReport, OutOfMemory>
    requires dag { IsSound dag.now }
    requires task { task < length dag.now.tasks }
    ensures report { IfOk result (λ r. r ≡ reported_instances true
        (filter_map (reported_instance dag.now task) instances.now)) }
    ensures sound { IfOk result IsSoundTask }
{
    let reports = instance_reports(alloc, dag, task, instances)?;
    Ok(TaskReport::Mapped(Sequence::from_vec(reports)))
}

/// Makes the report of a task from its cell in one run, without instances that haven't finished. `NoStatus` where the
/// cell is undecided or blocked, or the task isn't expanded and its instance hasn't finished.
fn report_of_cell(
    alloc: Global,
    dag: &Dag,
    task: u32,
    cell: &Cell,
) -> Result<TaskReport, OutOfMemory>
    requires dag { IsSound dag.now }
    requires task { task < length dag.now.tasks }
    ensures report { IfOk result (λ r. r ≡ reported dag.now task cell.now) }
    ensures sound { IfOk result IsSoundTask }
{
    match cell {
        Cell::Undecided | Cell::Blocked => Ok(TaskReport::NoStatus),
        Cell::Skipped => Ok(TaskReport::Skipped),
        Cell::UpstreamFailed => Ok(TaskReport::UpstreamFailed),
        Cell::Ran(instances) if dag.task(task).expand.is_some() => {
            report_of_each(alloc, dag, task, instances.as_slice())
        }
        Cell::Ran(instances) => report_of_first(alloc, dag, task, instances.as_slice()),
    }
}

/// Makes the report of a task in one run of a state; `NoStatus` where the state has no such cell.
fn report_at(
    alloc: Global,
    dag: &Dag,
    state: &State,
    run: u32,
    task: u32,
) -> Result<TaskReport, OutOfMemory>
    requires dag { IsSound dag.now }
    requires task { task < length dag.now.tasks }
    ensures report { IfOk result (λ r. r ≡ reported dag.now task (cell_at state.now run task)) }
    ensures sound { IfOk result IsSoundTask }
{
    match state.cell(run, task) {
        Some(cell) => report_of_cell(alloc, dag, task, cell),
        None => Ok(TaskReport::NoStatus),
    }
}

/// Makes the reports of all tasks in one run of a state, in file order.
fn task_reports(
    alloc: Global,
    dag: &Dag,
    state: &State,
    run: u32,
) -> Result<Sequence<TaskReport>, OutOfMemory>
    requires { IsSound dag.now }
    ensures reports { IfOk result (λ rs. rs
        ≡ reports_from dag.now (cell_at state.now run) 0 dag.now.tasks) }
    ensures sound { IfOk result AreSoundTasks }
{
    let count = dag.tasks.len();
    let mut reports = Vec::with_capacity(alloc, count)?;
    for task in 0..count {
        reports.push(report_at(alloc, dag, state, run, task as u32)?)?;
    }
    Ok(Sequence::from_vec(reports))
}

/// Copies the ids of these tasks, in order.
pub fn ids_of(alloc: Global, tasks: &[Task]) -> Result<Sequence<Text>, OutOfMemory>
    ensures { IfOk result (λ ids. ids ≡ map (λ task. task.id) tasks.now) }
{
    let mut ids = Vec::with_capacity(alloc, tasks.len())?;
    for task in tasks {
        ids.push(task.id.copy(alloc)?)?;
    }
    Ok(Sequence::from_vec(ids))
}

/// Gives the ids of all tasks, in file order, for a report; none where there are no runs (`intervals` is empty).
fn shown_ids(
    alloc: Global,
    dag: &Dag,
    intervals: &[Interval],
) -> Result<Sequence<Text>, OutOfMemory>
    ensures { IfOk result (λ ids. ids ≡ ids_shown dag.now intervals.now) }
{
    if intervals.is_empty() {
        return Ok(Sequence::new(alloc));
    }
    ids_of(alloc, dag.tasks.as_slice())
}

/// Makes the reports of all runs, by date. Run `n` has `intervals[n]` and `states[n]`, and its cells in `state`.
fn run_reports(
    alloc: Global,
    dag: &Dag,
    intervals: &[Interval],
    state: &State,
    states: &[RunState],
) -> Result<Sequence<RunReport>, OutOfMemory>
    requires dag { IsSound dag.now }
    requires few_runs { length intervals.now ≤ 4_096 }
    requires shown { All IsShownInterval intervals.now }
    requires outcome { IsOutcome dag.now (length intervals.now) state.now }
    requires run_states { AreRunStates dag.now (entry_in state.now.ledger) (length intervals.now)
        states.now }
    ensures dated { IfOk result (λ runs. AreDated dag.now (entry_in state.now.ledger) 0
        intervals.now runs) }
    ensures sound { IfOk result AreSoundRuns }
{
    let mut runs = Vec::with_capacity(alloc, intervals.len())?;
    for run in 0..intervals.len() {
        runs.push(RunReport {
            interval: intervals[run],
            state: states[run],
            tasks: task_reports(alloc, dag, state, run as u32)?,
        })?;
    }
    Ok(Sequence::from_vec(runs))
}

/// Makes the report, of version 2, of an ended backfill over these runs. Each instance has the result of its last try,
/// its item, and what it pulled, under the id of the task that it was pulled from.
pub fn report_of(alloc: Global, runs: &Runs, ended: Ended<'_>) -> Result<Report, OutOfMemory>
    requires { length runs.now ≡ ended.runs }
    ensures dated { IfOk result (IsDated ended.entry.dag runs.now
        (entry_in ended.entry.state.ledger)) }
    ensures sound { IfOk result HasSoundValues }
{
    let dag = ended.plan().dag();
    let intervals = runs.intervals();
    let (state, run_states) = ended.into_state();
    Ok(Report {
        version: Version::Two,
        dag_id: dag.id.copy(alloc)?,
        tasks: shown_ids(alloc, dag, intervals)?,
        runs: run_reports(alloc, dag, intervals, &state, run_states.as_slice())?,
    })
}
