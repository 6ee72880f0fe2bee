//! Which instances failed.
ghost use Rattle.std.specs.Prelude.{◌≡◌, ◌≤◌, ◌++◌, IfOk, OnOk};
ghost use Rattle.bf_try.specs.Tries.{is_failed};
ghost use Rattle.bf_dependents.specs.Listing.{up_to};
ghost use Rattle.bf_clear.specs.Failing.{AreFailed};
ghost use Rattle.bf_clear.specs.inner.Failing.{count_at, failed_at, failed_of_run, failed_of_task_in};

use crate::lookups::{instance_at, task_at};
use bf_dependents::Place;
use bf_interval::Runs;
use bf_plan::Plan;
use bf_report::{InstanceReport, Report, TaskReport};
use bf_value::{JobName, OutOfMemory};
use bf_xcom::Outcome;
use std::alloc::Global;

/// How many instances of a task a map index can name: 2^31.
const MOST_INSTANCES: usize = 2_147_483_648;

/// Whether an instance failed: its last try did.
fn has_failed(instance: &InstanceReport) -> Result<bool, OutOfMemory>
    ensures { IfOk result (λ failed. failed ≡ is_failed instance.now.result.outcome) }
{
    let ended = instance.result()?;
    Ok(matches!(&ended.outcome, Outcome::Failed))
}

/// The name of the first try of an instance.
fn name_of_first_try(run: u32, task: u32, index: i32) -> JobName
    ensures { result ≡ record { run = run; task = task; index = index; attempt = 1 } }
{
    JobName {
        run,
        task,
        index,
        attempt: 1,
    }
}

/// Adds the place of the instance that `name` is a try of where the report says that it failed; adds nothing where it
/// didn't, or the report lacks it.
fn add_if_failed(
    alloc: Global,
    report: &Report,
    name: JobName,
    found: &mut Vec<Place>,
) -> Result<(), OutOfMemory>
    ensures { OnOk result (found.new.items ≡ found.old.items
        ++ failed_at report.now name.run name.task name.index) }
{
    let Some(instance) = instance_at(report, name) else {
        return Ok(());
    };
    if has_failed(instance)? {
        let index = Some(name.index);
        found.push(Place {
            run: name.run,
            task: name.task,
            index,
        })?;
    }
    Ok(())
}

/// How many instances task number `task` has in run number `run` where it ran expanded, at most 2^31; 0 where it
/// didn't, or the report lacks it.
fn instance_count_at(report: &Report, run: u32, task: u32) -> usize
    ensures count { result ≡ count_at report.now run task }
    ensures few { result ≤ 2_147_483_648 }
{
    match task_at(report, run, task) {
        Some(TaskReport::Mapped(instances)) => instances.len().min(MOST_INSTANCES),
        _ => 0,
    }
}

/// Adds the places of the failed instances of task number `task` in run number `run`, by map index; adds nothing where
/// the report has no such task or run.
fn add_failed_of_task(
    alloc: Global,
    report: &Report,
    run: u32,
    task: u32,
    found: &mut Vec<Place>,
) -> Result<(), OutOfMemory>
    ensures { OnOk result (found.new.items ≡ found.old.items
        ++ failed_of_task_in report.now run task) }
{
    add_if_failed(alloc, report, name_of_first_try(run, task, -1), found)?;
    for place in 0..instance_count_at(report, run, task) {
        add_if_failed(
            alloc,
            report,
            name_of_first_try(run, task, place as i32),
            found,
        )?;
    }
    Ok(())
}

/// Adds the places of the failed instances of the first `tasks` tasks in run number `run`, in file order.
fn add_failed_of_run(
    alloc: Global,
    report: &Report,
    run: u32,
    tasks: u32,
    found: &mut Vec<Place>,
) -> Result<(), OutOfMemory>
    ensures { OnOk result (found.new.items ≡ found.old.items
        ++ failed_of_run report.now tasks run) }
{
    for task in 0..tasks {
        add_failed_of_task(alloc, report, run, task, found)?;
    }
    Ok(())
}

/// The places of the failed instances of the first `tasks` tasks in the first `runs` runs, by run, task and map index.
fn failed_in(
    alloc: Global,
    report: &Report,
    runs: u32,
    tasks: u32,
) -> Result<Vec<Place>, OutOfMemory>
    ensures { IfOk result (λ places. places.items ≡ up_to (failed_of_run report.now tasks) runs) }
{
    let mut found = Vec::new(alloc);
    for run in 0..runs {
        add_failed_of_run(alloc, report, run, tasks, &mut found)?;
    }
    Ok(found)
}

/// The places of the instances that failed, of the plan's tasks in these runs, by run, task and map index. Takes time
/// over the whole report.
pub fn failed_places(
    alloc: Global,
    plan: &Plan,
    runs: &Runs,
    report: &Report,
) -> Result<Vec<Place>, OutOfMemory>
    ensures { IfOk result (λ places. AreFailed plan.now.dag runs.now report.now places.items) }
{
    let tasks = plan.dag().tasks.len() as u32;
    let runs = runs.intervals().len() as u32;
    failed_in(alloc, report, runs, tasks)
}
