//! What tasks pull from the cells of their run.
ghost use Rattle.std.specs.Prelude.{◌≡◌, map, IfOk, option_copied, option_and_then};
ghost use Rattle.std.specs.List.{filter_map};
ghost use Rattle.bf_core.specs.Terms.{pull_of};
ghost use Rattle.bf_core.specs.Deciding.{pull_seen};
ghost use Rattle.bf_core.specs.Events.{cell_at, seen_in, value_in};
ghost use Rattle.bf_core.specs.inner.Checks.{HasRows};
ghost use Rattle.bf_core.specs.inner.Words.{pushed_by_one, pushed_by_first, pulled_from};

use crate::state::{Cell, Instance, Phase, State, are_finished};
use bf_plan::{Dag, Task};
use bf_value::{OutOfMemory, Values, Xval, copy_option};
use bf_xcom::SharedValue;
use std::alloc::Global;

impl Instance {
    /// What the instance pushed; None where it isn't finished or pushed nothing.
    fn pushed(&self) -> Option<&Xval>
        ensures { option_copied result ≡ pushed_by_one self.now }
    {
        match &self.phase {
            Phase::Finished(outcome) => outcome.pushed(),
            Phase::Waiting | Phase::Running => None,
        }
    }

    /// What it pushed, shared; nothing where it isn't finished or pushed nothing.
    fn share_pushed(&self) -> Result<SharedValue, OutOfMemory>
        ensures { IfOk result (λ value. value ≡ pushed_by_one self.now) }
    {
        match &self.phase {
            Phase::Finished(outcome) => outcome.share_pushed(),
            Phase::Waiting | Phase::Running => Ok(SharedValue::nothing()),
        }
    }

    /// A copy of what the instance pushed; None where it isn't finished or pushed nothing.
    pub(crate) fn copy_of_pushed(&self, alloc: Global) -> Result<Option<Xval>, OutOfMemory>
        ensures { IfOk result (λ value. value ≡ pushed_by_one self.now) }
    {
        copy_option(alloc, self.pushed())
    }
}

/// A copy of what the first instance pushed, the only one of an unmapped task; None where there is none, or where it
/// isn't finished or pushed nothing.
pub(crate) fn pushed_by_first_of(
    alloc: Global,
    instances: &[Instance],
) -> Result<Option<Xval>, OutOfMemory>
    ensures { IfOk result (λ value. value ≡ pushed_by_first instances.now) }
{
    match instances {
        [] => Ok(None),
        [instance, ..] => instance.copy_of_pushed(alloc),
    }
}

/// What the first instance pushed, shared, which of an unmapped task is the only one; nothing where it isn't there, isn't
/// finished or pushed nothing.
fn share_pushed_by_first_of(instances: &[Instance]) -> Result<SharedValue, OutOfMemory>
    ensures { IfOk result (λ value. value ≡ pushed_by_first instances.now) }
{
    match instances {
        [] => Ok(SharedValue::nothing()),
        [instance, ..] => instance.share_pushed(),
    }
}

/// Copies of what the instances pushed, by map index, without those that aren't finished or pushed nothing.
fn pushed_by_all(alloc: Global, instances: &[Instance]) -> Result<Vec<Xval>, OutOfMemory>
    ensures { IfOk result (λ values. values.items ≡ filter_map pushed_by_one instances.now) }
{
    let mut values = Vec::new(alloc);
    for instance in instances {
        if let Some(value) = instance.pushed() {
            values.push(value.copy(alloc)?)?;
        }
    }
    Ok(values)
}

/// What is pulled from the task `source` with these instances: what its only one pushed, or where `source` is expanded,
/// the list of what they pushed. Nothing while one hasn't finished, or where the only one isn't there or pushed nothing.
fn pull_from(
    alloc: Global,
    source: &Task,
    instances: &[Instance],
) -> Result<SharedValue, OutOfMemory>
    ensures { IfOk result (λ value. value ≡ pulled_from source.now instances.now) }
{
    if !are_finished(instances) {
        return Ok(SharedValue::nothing());
    }
    if source.expand.is_none() {
        return share_pushed_by_first_of(instances);
    }
    let values = pushed_by_all(alloc, instances)?;
    SharedValue::new(alloc, Some(Xval::List(Values::new(values))))
}

impl Cell {
    /// What is pulled from the task `source` with this cell; nothing where the cell isn't settled or the task didn't run,
    /// or where it isn't expanded and pushed nothing.
    #[tactic(auto, using(crate::proofs::Pulled::ran_pull))]
    fn pull(&self, alloc: Global, source: &Task) -> Result<SharedValue, OutOfMemory>
        ensures { IfOk result (λ value. value
            ≡ option_and_then (pull_of source.now) (value_in self.now)) }
    {
        match self {
            Cell::Ran(instances) => pull_from(alloc, source, instances.as_slice()),
            Cell::Undecided | Cell::Blocked | Cell::Skipped | Cell::UpstreamFailed => {
                Ok(SharedValue::nothing())
            }
        }
    }
}

/// What is pulled from the task `source` in a run; nothing where it isn't there, isn't settled or didn't run, or where it
/// isn't expanded and pushed nothing.
fn pull_in_run(
    alloc: Global,
    dag: &Dag,
    state: &State,
    run: u32,
    source: u32,
) -> Result<SharedValue, OutOfMemory>
    requires { HasRows dag.now state.now }
    ensures { IfOk result (λ value. value
        ≡ pull_seen dag.now (λ u. seen_in (cell_at state.now run u)) source) }
{
    match state.cell(run, source) {
        Some(cell) => cell.pull(alloc, dag.task(source)),
        None => Ok(SharedValue::nothing()),
    }
}

/// What is pulled from each of the tasks `sources` in a run, in their order: a value, or nothing.
pub(crate) fn pull_all(
    alloc: Global,
    dag: &Dag,
    state: &State,
    run: u32,
    sources: &[u32],
) -> Result<Vec<SharedValue>, OutOfMemory>
    requires { HasRows dag.now state.now }
    ensures { IfOk result (λ values. values.items
        ≡ map (pull_seen dag.now (λ u. seen_in (cell_at state.now run u))) sources.now) }
{
    let mut values = Vec::with_capacity(alloc, sources.len())?;
    for source in sources {
        values.push(pull_in_run(alloc, dag, state, run, *source)?)?;
    }
    Ok(values)
}
