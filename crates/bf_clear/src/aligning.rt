//! What a report tells of the tasks of a plan and of its runs, where it is one of another shape or of other runs.
ghost use Rattle.std.specs.Prelude.{◌≡◌, ◌≢◌, ℕ, Option, None, All, AllPairs, IfOk, map};
ghost use Rattle.std.specs.List.{position};
ghost use Rattle.std.specs.Str.{bytes_eq};
ghost use Rattle.bf_interval.specs.Intervals.{IsShownInterval};
ghost use Rattle.bf_interval.specs.Runs.{AreOfRuns};
ghost use Rattle.bf_interval.specs.declared.interval.Interval.{Interval};
ghost use Rattle.bf_clear.specs.Aligning.{IsAligned, is_over, tasks_at, told_at};
ghost use Rattle.bf_clear.specs.inner.Aligning.{AreAlignedBy, AreApart};

use crate::matching::is_same_interval;
use bf_interval::{Interval, Runs};
use bf_plan::{Plan, Task};
use bf_report::{Report, RunReport, TaskReport, ids_of};
use bf_value::{OutOfMemory, Sequence, Text};
use bf_xcom::RunState;
use std::alloc::Global;
use std::mem;

/// The place of a task's id in `ids`, from 0; None where it isn't one of them.
fn place_of(ids: &[Text], task: &Task) -> Option<usize>
    ensures { result ≡ position (bytes_eq task.now.id) ids.now }
{
    let id = task.id.as_str();
    ids.iter().position(|known| id == known.as_str())
}

/// For each of these tasks, in order, the place of its id in `ids`, from 0; None where it isn't one of them.
fn places_of(alloc: Global, ids: &[Text], tasks: &[Task]) -> Result<Vec<Option<usize>>, OutOfMemory>
    ensures { IfOk result (λ places. places.items
        ≡ map (λ task. position (bytes_eq task.id) ids.now) tasks.now) }
{
    let mut places = Vec::with_capacity(alloc, tasks.len())?;
    for task in tasks {
        places.push(place_of(ids, task))?;
    }
    Ok(places)
}

/// Takes out what a report has of the task at `place`, from 0, and leaves no_status there. Gives no_status where
/// `place` is None or past the end.
fn take_task_at(tasks: &mut Sequence<TaskReport>, place: Option<usize>) -> TaskReport
    ensures told { result ≡ told_at tasks.old place }
    ensures others { (other : Option ℕ) → (place ≡ other → place ≡ None)
        → told_at tasks.new other ≡ told_at tasks.old other }
{
    match place {
        Some(place) if place < tasks.len() => tasks.replace(place, TaskReport::NoStatus),
        _ => TaskReport::NoStatus,
    }
}

/// What `told`, the tasks of a report's run, has at each of these places, in order; no_status where a place is None or
/// past the end. No place occurs twice, but None may.
fn tasks_at_places(
    alloc: Global,
    places: &[Option<usize>],
    mut told: Sequence<TaskReport>,
) -> Result<Sequence<TaskReport>, OutOfMemory>
    requires { AreApart places.now }
    ensures { IfOk result (λ tasks. tasks ≡ map (told_at told) places.now) }
{
    let mut tasks = Vec::with_capacity(alloc, places.len())?;
    for i in 0..places.len() {
        tasks.push(take_task_at(&mut told, places[i]))?;
    }
    Ok(Sequence::from_vec(tasks))
}

/// The place of the first run over a data interval, from 0; None where no run is over it.
fn place_over(runs: &[RunReport], interval: &Interval) -> Option<usize>
    ensures { result ≡ position (is_over interval.now) runs.now }
{
    runs.iter()
        .position(|run| is_same_interval(&run.interval, interval))
}

/// Takes the tasks out of the run over a data interval, which is left without any. Empty where no run is over it.
fn take_tasks(alloc: Global, runs: &mut Vec<RunReport>, interval: &Interval) -> Sequence<TaskReport>
    ensures told { result ≡ tasks_at runs.old.items interval.now }
    ensures others { (other : Interval) → other.start.nanosecond ≢ interval.now.start.nanosecond
        → tasks_at runs.new.items other ≡ tasks_at runs.old.items other }
{
    match place_over(runs.as_slice(), interval) {
        Some(place) => mem::replace(&mut runs[place].tasks, Sequence::new(alloc)),
        None => Sequence::new(alloc),
    }
}

/// A run over each of these data intervals, in order, with the tasks that `told` has in its run over the same interval.
/// `places` says where each of the plan's tasks stands in the runs of `told`; a task that `told` lacks is no_status.
fn runs_over(
    alloc: Global,
    places: &[Option<usize>],
    mut told: Vec<RunReport>,
    intervals: &[Interval],
) -> Result<Sequence<RunReport>, OutOfMemory>
    requires apart { AreApart places.now }
    requires shown { All IsShownInterval intervals.now }
    requires of_runs { AreOfRuns intervals.now }
    ensures { IfOk result (AreAlignedBy places.now told.items intervals.now) }
{
    let mut runs = Vec::with_capacity(alloc, intervals.len())?;
    for i in 0..intervals.len() {
        let interval = intervals[i];
        let tasks = take_tasks(alloc, &mut told, &interval);
        runs.push(RunReport {
            interval,
            state: RunState::Failed,
            tasks: tasks_at_places(alloc, places, tasks)?,
        })?;
    }
    Ok(Sequence::from_vec(runs))
}

/// Brings a report into the shape of a plan and these runs: it finds tasks by their ids and runs by their data
/// intervals, leaves out all others, and puts no_status for what the report lacks. The states of the new runs mean
/// nothing. No value is copied.
pub(crate) fn align(
    alloc: Global,
    plan: &Plan,
    runs: &Runs,
    report: Report,
) -> Result<Report, OutOfMemory>
    ensures { IfOk result (IsAligned plan.now.dag runs.now report) }
{
    let dag = plan.dag();
    let tasks = dag.tasks.as_slice();
    let places = places_of(alloc, report.tasks.as_slice(), tasks)?;
    let runs = runs_over(
        alloc,
        places.as_slice(),
        report.runs.into_vec(),
        runs.intervals(),
    )?;
    Ok(Report {
        version: report.version,
        dag_id: report.dag_id,
        tasks: ids_of(alloc, tasks)?,
        runs,
    })
}
