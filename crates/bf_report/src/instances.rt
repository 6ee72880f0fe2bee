//! The reports of instances.
ghost use Rattle.std.specs.Prelude.{◌≡◌, ◌<◌, All, length, IfOk, IfSome, option_copied};
ghost use Rattle.std.specs.List.{filter_map};
ghost use Rattle.bf_plan.specs.Plans.{task_of};
ghost use Rattle.bf_plan.specs.Sound.{IsSound};
ghost use Rattle.bf_report.specs.Dated.{pulls_in, reported_instance};
ghost use Rattle.bf_report.specs.Values.{IsSoundValue, IsSoundOutcome, AreSoundPulls, IsSoundInstance, AreSoundInstances};

use crate::report::{InstanceReport, Pull};
use bf_core::{Instance, Phase};
use bf_plan::Dag;
use bf_value::{OutOfMemory, Sequence, Xval, copy_option};
use bf_xcom::{Outcome, SharedValue, TaskResult};
use std::alloc::Global;

/// A law: the value in an outcome is sound, which its type guarantees. It does nothing at run time.
fn outcome_is_sound(outcome: &Outcome)
    ensures { IsSoundOutcome outcome.now }
{
    if let Some(value) = outcome.pushed() {
        value.value_is_sound();
    }
}

/// Gives the result of an instance whose last try, numbered `tries`, ended with this outcome, whose value is shared.
fn result_of(outcome: &Outcome, tries: u32) -> Result<TaskResult, OutOfMemory>
    ensures result { IfOk result (λ r. r ≡ record { outcome = outcome.now; tries = tries }) }
    ensures sound { IfOk result (λ r. IsSoundOutcome r.outcome) }
{
    outcome_is_sound(outcome);
    Ok(TaskResult {
        outcome: outcome.share()?,
        tries,
    })
}

/// Copies a value, if there is one.
fn copy_of(alloc: Global, value: Option<&Xval>) -> Result<Option<Xval>, OutOfMemory>
    ensures value { IfOk result (λ v. v ≡ option_copied value.entry) }
    ensures sound { IfOk result IsSoundValue }
{
    if let Some(value) = value {
        value.value_is_sound();
    }
    copy_option(alloc, value)
}

/// Gives the same value or nothing, sharing its memory rather than copying it. Contracts don't see the sharing.
fn share_of(shared: &SharedValue) -> Result<SharedValue, OutOfMemory>
    ensures value { IfOk result (λ v. v ≡ shared.now) }
    ensures sound { IfOk result IsSoundValue }
{
    if let Some(value) = shared.get() {
        value.value_is_sound();
    }
    shared.share()
}

/// Makes the pull from the task of this number: the task's id and the pulled value.
fn pull_of(alloc: Global, dag: &Dag, task: u32, pulled: &SharedValue) -> Result<Pull, OutOfMemory>
    requires { task < length dag.now.tasks }
    ensures pull { IfOk result (λ pull. pull
        ≡ record { task = (task_of dag.now task).id; value = pulled.now }) }
    ensures sound { IfOk result (λ pull. IsSoundValue pull.value) }
{
    Ok(Pull {
        task: dag.task(task).id.copy(alloc)?,
        value: share_of(pulled)?,
    })
}

/// Makes the pulls from these tasks: the first task goes with the first of `values`, and so on.
fn pulls_of(
    alloc: Global,
    dag: &Dag,
    tasks: &[u32],
    values: &[SharedValue],
) -> Result<Sequence<Pull>, OutOfMemory>
    requires { All (λ task. task < length dag.now.tasks) tasks.now }
    ensures pulls { IfOk result (λ pulls. pulls ≡ pulls_in dag.now tasks.now values.now) }
    ensures sound { IfOk result AreSoundPulls }
{
    let mut pulls = Vec::with_capacity(alloc, tasks.len())?;
    for (task, value) in tasks.iter().zip(values) {
        pulls.push(pull_of(alloc, dag, *task, value)?)?;
    }
    Ok(Sequence::from_vec(pulls))
}

/// Makes the report of one instance of a task; None where the instance hasn't finished.
pub(crate) fn instance_report(
    alloc: Global,
    dag: &Dag,
    task: u32,
    instance: &Instance,
) -> Result<Option<InstanceReport>, OutOfMemory>
    requires dag { IsSound dag.now }
    requires task { task < length dag.now.tasks }
    ensures report { IfOk result (λ o. o ≡ reported_instance dag.now task instance.now) }
    ensures sound { IfOk result (λ o. IfSome o IsSoundInstance) }
{
    let Phase::Finished(outcome) = &instance.phase else {
        return Ok(None);
    };
    let (tasks, given) = (dag.task(task).pulls.as_slice(), &instance.given);
    Ok(Some(InstanceReport::new(
        alloc,
        result_of(outcome, instance.attempt)?,
        copy_of(alloc, given.item())?,
        pulls_of(alloc, dag, tasks, given.pulled())?,
    )?))
}

/// Makes the reports of a task's finished instances, in order; leaves out those that haven't finished.
pub(crate) fn instance_reports(
    alloc: Global,
    dag: &Dag,
    task: u32,
    instances: &[Instance],
) -> Result<Vec<InstanceReport>, OutOfMemory>
    requires dag { IsSound dag.now }
    requires task { task < length dag.now.tasks }
    ensures reports { IfOk result (λ found. found.items
        ≡ filter_map (reported_instance dag.now task) instances.now) }
    ensures sound { IfOk result (λ found. AreSoundInstances found.items) }
{
    let mut found = Vec::with_capacity(alloc, instances.len())?;
    for instance in instances {
        if let Some(report) = instance_report(alloc, dag, task, instance)? {
            found.push(report)?;
        }
    }
    Ok(found)
}
