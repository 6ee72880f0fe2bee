//! Which runs and tasks a grid shows.
ghost use Rattle.std.specs.Prelude.{◌≡◌, ◌≤◌, ◌<◌, ◌+◌, ◌^◌, map, IfOk};
ghost use Rattle.bf_grid.specs.Selection.{is_shown_run_in, is_shown_task_in, longest_id_length_of, names_of, name_width_of, shown_runs_of, shown_tasks_of};
ghost use Rattle.bf_grid.specs.Grid.{total_of};

use bf_marks::{Tally, View, run_tally, tally_in};
use bf_plan::Dag;
use bf_report::RunReport;
use bf_value::OutOfMemory;
use std::alloc::Global;

/// Whether the view shows a run: it starts in the view's range and, where only failures are shown, something in it
/// failed, is upstream_failed or has no status.
fn is_shown_run(view: &View, run: &RunReport) -> Result<bool, OutOfMemory>
    ensures { IfOk result (λ shown. shown ≡ is_shown_run_in view.now run.now) }
{
    if !view.has_start(run.interval.start) {
        return Ok(false);
    }
    if !view.failed {
        return Ok(true);
    }
    Ok(run_tally(run)?.is_bad())
}

/// The runs, among these and in their order, that the view shows.
pub(crate) fn shown_runs<'a>(
    alloc: Global,
    view: &View,
    runs: &'a [RunReport],
) -> Result<Vec<&'a RunReport>, OutOfMemory>
    ensures { IfOk result (λ found. map (λ run. run.now) found.items
        ≡ shown_runs_of view.now runs.now) }
{
    let mut found = Vec::with_capacity(alloc, runs.len())?;
    for run in runs {
        if is_shown_run(view, run)? {
            found.push(run)?;
        }
    }
    Ok(found)
}

/// Whether the view shows a task beside these runs: any task or, where only failures are shown, one that failed, is
/// upstream_failed or has no status in one of them.
fn is_shown_task(view: &View, runs: &[&RunReport], task: u32) -> Result<bool, OutOfMemory>
    ensures { IfOk result (λ shown. shown
        ≡ is_shown_task_in view.now (map (λ run. run.now) runs.now) task) }
{
    if !view.failed {
        return Ok(true);
    }
    Ok(tally_in(runs, task)?.is_bad())
}

/// The tasks, among these and in their order, that the view shows beside these runs.
pub(crate) fn shown_tasks(
    alloc: Global,
    view: &View,
    runs: &[&RunReport],
    tasks: &[u32],
) -> Result<Vec<u32>, OutOfMemory>
    ensures { IfOk result (λ found. found.items
        ≡ shown_tasks_of view.now (map (λ run. run.now) runs.now) tasks.now) }
{
    let mut found = Vec::with_capacity(alloc, tasks.len())?;
    for task in tasks {
        if is_shown_task(view, runs, *task)? {
            found.push(*task)?;
        }
    }
    Ok(found)
}

/// The tally of all these tasks over all these runs.
pub(crate) fn total_in(runs: &[&RunReport], tasks: &[u32]) -> Result<Tally, OutOfMemory>
    ensures { IfOk result (λ total. total ≡ total_of (map (λ run. run.now) runs.now) tasks.now) }
{
    let mut total = Tally::nothing();
    for task in tasks {
        total = total.plus(tally_in(runs, *task)?);
    }
    Ok(total)
}

/// The length in bytes of the longest id of these tasks, but at least 3, that of the label `run`.
fn longest_id_length(dag: &Dag, tasks: &[u32]) -> usize
    ensures longest { result ≡ longest_id_length_of (names_of dag.now tasks.now) }
    ensures some { 3 ≤ result }
{
    let mut longest = 3;
    for task in tasks {
        longest = longest.max(dag.id_of(*task).len());
    }
    longest
}

/// How many bytes wide the column of names is: as wide as the longest id, but at most a third of `width`, the grid's
/// own, or 12 where that is more.
pub(crate) fn name_width(dag: &Dag, tasks: &[u32], width: usize) -> usize
    ensures width { result ≡ name_width_of width (names_of dag.now tasks.now) }
    ensures some { 2 ≤ result }
    ensures few { result + 2 < 2 ^ 64 }
{
    longest_id_length(dag, tasks).min((width / 3).max(12))
}
