//! What an instance was given, worked out where a report of version 1 doesn't tell it.
ghost use Rattle.std.specs.Prelude.{◌≡◌, ◌<◌, ◌↔◌, length, map, Some, IsTrue, IfOk};
ghost use Rattle.bf_clear.specs.Entries.{item_in, pull_from, value_in, value_reported_at, given_by_values_in};

use crate::lookups::task_at;
use bf_plan::Dag;
use bf_report::{InstanceReport, Report, TaskReport};
use bf_value::{JobName, OutOfMemory, Sequence, Xval, copy_option};
use bf_xcom::{Given, SharedValue, TaskResult, TaskValue, pull};
use std::alloc::Global;

/// The results of these instances, in order.
fn results_of(
    alloc: Global,
    instances: &[InstanceReport],
) -> Result<Sequence<TaskResult>, OutOfMemory>
    ensures { IfOk result (λ results. results ≡ map (λ x. x.result) instances.now) }
{
    let mut results = Vec::with_capacity(alloc, instances.len())?;
    for instance in instances {
        results.push(instance.result()?)?;
    }
    Ok(Sequence::from_vec(results))
}

/// The value of a task in a run, by what a report has of it; blocked where that is no_status.
pub fn value_of(alloc: Global, task: &TaskReport) -> Result<TaskValue, OutOfMemory>
    ensures { IfOk result (λ value. value ≡ value_in task.now) }
{
    match task {
        TaskReport::NoStatus => Ok(TaskValue::Blocked),
        TaskReport::Skipped => Ok(TaskValue::Skipped),
        TaskReport::UpstreamFailed => Ok(TaskValue::UpstreamFailed),
        TaskReport::Ran(instance) => {
            let mut results = Sequence::new(alloc);
            results.push(instance.result()?)?;
            Ok(TaskValue::Ran(results))
        }
        TaskReport::Mapped(instances) => {
            Ok(TaskValue::Ran(results_of(alloc, instances.as_slice())?))
        }
    }
}

/// The value of task number `task` in run number `run`, by what a report has of it; blocked where it has no such run or
/// task.
fn value_at(alloc: Global, report: &Report, run: u32, task: u32) -> Result<TaskValue, OutOfMemory>
    ensures { IfOk result (λ value. value ≡ value_reported_at report.now run task) }
{
    match task_at(report, run, task) {
        Some(task) => value_of(alloc, task),
        None => Ok(TaskValue::Blocked),
    }
}

/// The value that a pull from task number `source` gives in run number `run`, by the values of a report. None where
/// that task pushed nothing, or the graph has no such task.
fn pulled_from(
    alloc: Global,
    dag: &Dag,
    report: &Report,
    run: u32,
    source: u32,
) -> Result<Option<Xval>, OutOfMemory>
    ensures { IfOk result (λ value. value ≡ pull_from dag.now report.now run source) }
{
    match dag.tasks.get(source as usize) {
        Some(task) => {
            let value = value_at(alloc, report, run, source)?;
            pull(alloc, task, &value)
        }
        None => Ok(None),
    }
}

/// The values that pulls from the tasks `sources` give in run number `run`, in order, by the values of a report.
fn all_pulled(
    alloc: Global,
    dag: &Dag,
    report: &Report,
    run: u32,
    sources: &[u32],
) -> Result<Sequence<SharedValue>, OutOfMemory>
    ensures { IfOk result (λ values. values ≡ map (pull_from dag.now report.now run) sources.now) }
{
    let mut values = Vec::with_capacity(alloc, sources.len())?;
    for source in sources {
        let value = pulled_from(alloc, dag, report, run, *source)?;
        values.push(SharedValue::new(alloc, value)?)?;
    }
    Ok(Sequence::from_vec(values))
}

/// The item that `items`, a list, has at map index `index`; None where it isn't a list or has no such item.
fn item_of(alloc: Global, items: &Option<Xval>, index: i32) -> Result<Option<Xval>, OutOfMemory>
    ensures { IfOk result (λ item. item ≡ item_in items.now index) }
{
    match items {
        Some(Xval::List(items)) if index >= 0 => {
            copy_option(alloc, items.as_slice().get(index as usize))
        }
        _ => Ok(None),
    }
}

/// What the instance that `name` is a try of gets by the values of a report: its item and its pulled values. None where
/// there is no such instance: the task isn't expanded and the map index isn't -1, or its source gives no such item.
#[tactic(auto, unfolding(crate::specs::Entries::given_by_values_in))]
fn given_by_values(
    alloc: Global,
    dag: &Dag,
    report: &Report,
    name: JobName,
) -> Result<Option<Given>, OutOfMemory>
    requires { name.task < length dag.now.tasks }
    ensures { IfOk result (λ given. given
        ≡ given_by_values_in dag.now report.now name.run name.task name.index) }
{
    let task = dag.task(name.task);
    let pulled = all_pulled(alloc, dag, report, name.run, task.pulls.as_slice())?;
    let Some(source) = task.expand else {
        return Ok(if name.index == -1 {
            Some(Given { item: None, pulled })
        } else {
            None
        });
    };
    let items = pulled_from(alloc, dag, report, name.run, source)?;
    match item_of(alloc, &items, name.index)? {
        Some(item) => Ok(Some(Given {
            item: Some(item),
            pulled,
        })),
        None => Ok(None),
    }
}

/// Whether the instance that `name` is a try of gets exactly `given` by the values of a report; false where by these
/// there is no such instance.
pub(crate) fn is_given_by_values(
    alloc: Global,
    dag: &Dag,
    report: &Report,
    name: JobName,
    given: &Given,
) -> Result<bool, OutOfMemory>
    requires { name.task < length dag.now.tasks }
    ensures { IfOk result (λ was. IsTrue was ↔
        (given_by_values_in dag.now report.now name.run name.task name.index ≡ Some given.now)) }
{
    match given_by_values(alloc, dag, report, name)? {
        Some(worked) => Ok(worked.is_same(given)),
        None => Ok(false),
    }
}
