//! Look-ups by run and task.
ghost use Rattle.std.specs.Prelude.{◌≡◌, option_copied};
ghost use Rattle.bf_clear.specs.Entries.{found_at, instance_in, report_at};

use bf_report::{InstanceReport, Report, TaskReport};
use bf_value::JobName;

/// The instance of map index `index`, -1 for a task that isn't expanded; None where the task has no such instance.
fn instance_of(task: &TaskReport, index: i32) -> Option<&InstanceReport>
    ensures { option_copied result ≡ instance_in task.now index }
{
    match task {
        TaskReport::Ran(instance) if index == -1 => Some(instance),
        TaskReport::Mapped(instances) if index >= 0 => instances.get(index as usize),
        _ => None,
    }
}

/// Task number `task` in run number `run`, both from 0, as a report has it; None where it has no such run or task.
pub(crate) fn task_at(report: &Report, run: u32, task: u32) -> Option<&TaskReport>
    ensures { option_copied result ≡ report_at report.now run task }
{
    match report.runs.get(run as usize) {
        Some(run) => run.tasks.get(task as usize),
        None => None,
    }
}

/// The instance that try `name` is of, as a report has it; None where it has no such run, task or instance.
pub(crate) fn instance_at(report: &Report, name: JobName) -> Option<&InstanceReport>
    ensures { option_copied result ≡ found_at report.now name.run name.task name.index }
{
    match task_at(report, name.run, name.task) {
        Some(task) => instance_of(task, name.index),
        None => None,
    }
}
