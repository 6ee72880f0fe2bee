//! Tries as a report tells them.
ghost use Rattle.std.specs.Prelude.{◌≡◌, ◌<◌, ◌↔◌, length, map, Some, IsTrue, IfOk};
ghost use Rattle.bf_clear.specs.Entries.{given_by, given_in, outcome_of_try_in, given_by_values_in};
ghost use Rattle.bf_clear.specs.inner.Keeping.{fit_outcome, IsAnswerOf, IsRawFor};

use crate::given::is_given_by_values;
use bf_plan::Plan;
use bf_report::{InstanceReport, Pull, Report, Version};
use bf_try::{Outcome, Raw, answer_for, fits};
use bf_value::{JobName, OutOfMemory, is_same_option};
use bf_xcom::{Given, SharedValue, TaskResult};
use std::alloc::Global;

/// Whether these pulls found exactly these values, in the same order.
fn are_pulled(pulls: &[Pull], values: &[SharedValue]) -> bool
    ensures { IsTrue result ↔ (map (λ p. p.value) pulls.now ≡ values.now) }
{
    if pulls.len() != values.len() {
        return false;
    }
    for i in 0..pulls.len() {
        if !pulls[i].value.is_same(&values[i]) {
            return false;
        }
    }
    true
}

/// Whether an instance in a report of version 2 was given exactly the item and the pulled values of `given`.
fn tells_given(instance: &InstanceReport, given: &Given) -> bool
    ensures { IsTrue result ↔ (given_in instance.now ≡ given.now) }
{
    is_same_option(instance.item(), given.item.as_ref())
        && are_pulled(instance.pulls(), given.pulled.as_slice())
}

/// Whether the instance that `name` is a try of was given exactly `given`: in version 2 as the report says, in version
/// 1 by the report's values of other tasks.
fn was_given(
    alloc: Global,
    plan: &Plan,
    report: &Report,
    name: JobName,
    instance: &InstanceReport,
    given: &Given,
) -> Result<bool, OutOfMemory>
    requires { name.task < length plan.now.dag.tasks }
    ensures { IfOk result (λ was. IsTrue was ↔
        (given_by report.now.version (given_by_values_in plan.now.dag report.now name.run name.task
        name.index) instance.now ≡ Some given.now)) }
{
    match report.version {
        Version::Two => Ok(tells_given(instance, given)),
        Version::One => is_given_by_values(alloc, plan.dag(), report, name, given),
    }
}

/// An answer by which try `attempt`, from 1, of an instance ends as it did; each try but the last failed. None where
/// the instance had no such try, or ended in a way that the plan doesn't allow.
#[tactic(auto, unfolding(bf_try::specs::Grades::fits_in))]
fn answer_of_try(
    alloc: Global,
    plan: &Plan,
    task: u32,
    instance: &TaskResult,
    attempt: u32,
) -> Result<Option<Raw>, OutOfMemory>
    requires { task < length plan.now.dag.tasks }
    ensures { IfOk result (IsRawFor
        (fit_outcome plan.now.dag task (outcome_of_try_in instance.now attempt))) }
{
    if attempt == instance.tries {
        if !fits(plan, task, &instance.outcome) {
            return Ok(None);
        }
        return Ok(Some(answer_for(alloc, &instance.outcome)?));
    }
    if attempt > 0 && attempt < instance.tries {
        return Ok(Some(answer_for(alloc, &Outcome::Failed)?));
    }
    Ok(None)
}

/// An answer by which try `name` of an instance ends as it did. None where the instance was given anything but `given`,
/// had no such try, or ended in a way that the plan doesn't allow.
pub(crate) fn answer_of_instance(
    alloc: Global,
    plan: &Plan,
    report: &Report,
    name: JobName,
    instance: &InstanceReport,
    given: &Given,
) -> Result<Option<Raw>, OutOfMemory>
    requires { name.task < length plan.now.dag.tasks }
    ensures { IfOk result (IsAnswerOf plan.now.dag
        (given_by report.now.version (given_by_values_in plan.now.dag report.now name.run name.task
        name.index) instance.now) instance.now name given.now) }
{
    let was_given = was_given(alloc, plan, report, name, instance, given)?;
    if !was_given {
        return Ok(None);
    }
    let ended = instance.result()?;
    answer_of_try(alloc, plan, name.task, &ended, name.attempt)
}
