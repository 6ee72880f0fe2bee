//! Pulls (Airflow's "XComs").
ghost use Rattle.std.specs.Prelude.{◌≡◌, IfOk, option_copied};
ghost use Rattle.bf_xcom.specs.Pulls.{pushed_values_in, pull_of, pushed_value_of, only_pushed_value_in};

use crate::values::{TaskResult, TaskValue};
use bf_plan::Task;
use bf_value::{OutOfMemory, Values, Xval, copy_option};
use std::alloc::Global;

/// What an instance pushed; None where it didn't succeed, or pushed nothing.
fn pushed_value(instance: &TaskResult) -> Option<&Xval>
    ensures { option_copied result ≡ pushed_value_of instance.now }
{
    instance.outcome.pushed()
}

/// A copy of what the only instance of an unmapped task pushed; None where it pushed nothing, or isn't there.
fn only_pushed_value(alloc: Global, instances: &[TaskResult]) -> Result<Option<Xval>, OutOfMemory>
    ensures { IfOk result (λ value. value ≡ only_pushed_value_in instances.now) }
{
    match instances {
        [] => Ok(None),
        [instance, ..] => copy_option(alloc, pushed_value(instance)),
    }
}

/// Copies of what the instances pushed, in order, without those that pushed nothing.
fn pushed_values(alloc: Global, instances: &[TaskResult]) -> Result<Vec<Xval>, OutOfMemory>
    ensures { IfOk result (λ values. values.items ≡ pushed_values_in instances.now) }
{
    let mut values = Vec::new(alloc);
    for instance in instances {
        if let Some(value) = pushed_value(instance) {
            values.push(value.copy(alloc)?)?;
        }
    }
    Ok(values)
}

/// What a pull from the task `source` gives, by the value that it has in the run: what an unmapped task that ran
/// pushed, or the list, perhaps empty, of what the instances of an expanded one pushed, by map index. None where the
/// task didn't run, or is unmapped and pushed nothing.
pub fn pull(alloc: Global, source: &Task, value: &TaskValue) -> Result<Option<Xval>, OutOfMemory>
    ensures { IfOk result (λ pulled. pulled ≡ pull_of source.now value.now) }
{
    let TaskValue::Ran(instances) = value else {
        return Ok(None);
    };
    if source.expand.is_none() {
        return only_pushed_value(alloc, instances.as_slice());
    }
    let values = pushed_values(alloc, instances.as_slice())?;
    Ok(Some(Xval::List(Values::new(values))))
}
