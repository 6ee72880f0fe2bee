//! The instances of a task that goes on: one, or one for each item that its source gives.
ghost use Rattle.std.specs.Prelude.{◌≡◌, [], ◌∷◌, map, IfOk, None, Some, option_map};
ghost use Rattle.bf_core.specs.Terms.{items as given_by, source_values as values_for, task_of};
ghost use Rattle.bf_core.specs.Deciding.{instances_of, mapped, pull_seen};
ghost use Rattle.bf_core.specs.Events.{cell_at, seen_in, value_in};
ghost use Rattle.bf_core.specs.inner.Checks.{HasRows};
ghost use Rattle.bf_core.specs.inner.Words.{pushed_by_one, sourced_from};

use crate::decision::Decision;
use crate::pulls::{pull_all, pushed_by_first_of};
use crate::state::{Cell, Instance, State, are_finished};
use bf_mapped::{Items, SourceValues, items};
use bf_plan::{Dag, Task};
use bf_value::{OutOfMemory, Sequence, Xval};
use bf_xcom::{Given, SharedValue};
use std::alloc::Global;

/// What each instance pushed, by map index; None for one that isn't finished or pushed nothing.
fn pushed_by_each(alloc: Global, instances: &[Instance]) -> Result<Vec<Option<Xval>>, OutOfMemory>
    ensures { IfOk result (λ values. values.items ≡ map pushed_by_one instances.now) }
{
    let mut values = Vec::with_capacity(alloc, instances.len())?;
    for instance in instances {
        values.push(instance.copy_of_pushed(alloc)?)?;
    }
    Ok(values)
}

/// What `source` with these instances gives to an expansion: what its only one pushed, or where `source` is itself
/// expanded, what each pushed. None while one hasn't finished.
fn values_of_instances(
    alloc: Global,
    source: &Task,
    instances: &[Instance],
) -> Result<Option<SourceValues>, OutOfMemory>
    ensures { IfOk result (λ found. found ≡ sourced_from source.now instances.now) }
{
    if !are_finished(instances) {
        return Ok(None);
    }
    if source.expand.is_none() {
        let pushed = pushed_by_first_of(alloc, instances)?;
        return Ok(Some(SourceValues::Pushed(pushed)));
    }
    let pushed = pushed_by_each(alloc, instances)?;
    Ok(Some(SourceValues::Each(Sequence::from_vec(pushed))))
}

impl Cell {
    /// What the task `source` with this cell gives to an expansion: what its instances pushed, or `Absent` where it
    /// didn't run. None where the cell isn't settled.
    #[tactic(auto, using(crate::proofs::Expanded::ran_source))]
    fn source_values(
        &self,
        alloc: Global,
        source: &Task,
    ) -> Result<Option<SourceValues>, OutOfMemory>
        ensures { IfOk result (λ found. found
            ≡ option_map (values_for source.now) (value_in self.now)) }
    {
        match self {
            Cell::Undecided => Ok(None),
            Cell::Blocked | Cell::Skipped | Cell::UpstreamFailed => Ok(Some(SourceValues::Absent)),
            Cell::Ran(instances) => values_of_instances(alloc, source, instances.as_slice()),
        }
    }

    /// The items that the task `source` with this cell gives to an expansion; `Missing` where it has no list. None
    /// where the cell isn't settled.
    fn items(&self, alloc: Global, source: &Task) -> Result<Option<Items>, OutOfMemory>
        ensures { IfOk result (λ found. found
            ≡ option_map (given_by source.now) (value_in self.now)) }
    {
        match self.source_values(alloc, source)? {
            Some(values) => Ok(Some(items(alloc, values)?)),
            None => Ok(None),
        }
    }
}

/// The items that the task `source` gives to an expansion in a run; `Missing` where it has no list. None where it isn't
/// settled, or isn't there.
fn items_from(
    alloc: Global,
    dag: &Dag,
    state: &State,
    run: u32,
    source: u32,
) -> Result<Option<Items>, OutOfMemory>
    requires { HasRows dag.now state.now }
    ensures { IfOk result (λ found. found
        ≡ option_map (given_by (task_of dag.now source))
        (value_in (cell_at state.now run source))) }
{
    match state.cell(run, source) {
        Some(cell) => cell.items(alloc, dag.task(source)),
        None => Ok(None),
    }
}

/// Decides that a task gets one instance, as an unmapped task does, which is given what was pulled and no item.
fn single_instance(alloc: Global, pulled: Vec<SharedValue>) -> Result<Decision, OutOfMemory>
    ensures { IfOk result (λ d. d ≡ Decision.Instances
        (record { item = None; pulled = pulled.items } ∷ [])) }
{
    let mut givens = Vec::with_capacity(alloc, 1)?;
    givens.push(Given {
        item: None,
        pulled: Sequence::from_vec(pulled),
    })?;
    Ok(Decision::Instances(Sequence::from_vec(givens)))
}

/// What the instance of an expanded task is given: its `item`, and a copy of the pulls of `alike`.
fn given_with(alloc: Global, item: Xval, alike: &Given) -> Result<Given, OutOfMemory>
    ensures { IfOk result (λ given. given
        ≡ record { item = Some item; pulled = alike.now.pulled }) }
{
    let mut given = alike.copy(alloc)?;
    given.item = Some(item);
    Ok(given)
}

/// What each instance of an expanded task is given, by map index: its item, and `pulled`, the same for all.
fn givens_of(
    alloc: Global,
    items: Sequence<Xval>,
    pulled: Vec<SharedValue>,
) -> Result<Sequence<Given>, OutOfMemory>
    ensures { IfOk result (λ givens. givens
        ≡ map (λ item. record { item = Some item; pulled = pulled.items }) items) }
{
    let alike = Given {
        item: None,
        pulled: Sequence::from_vec(pulled),
    };
    let mut givens = Vec::with_capacity(alloc, items.len())?;
    for item in items.into_vec() {
        givens.push(given_with(alloc, item, &alike)?)?;
    }
    Ok(Sequence::from_vec(givens))
}

/// What is decided of an expanded task that is to run, by the items of its source: upstream_failed where they are
/// missing, skipped where the list is empty, else an instance for each, which is given `pulled` too.
fn instances_of_items(
    alloc: Global,
    items: Items,
    pulled: Vec<SharedValue>,
) -> Result<Decision, OutOfMemory>
    ensures { IfOk result (λ d. d ≡ mapped pulled.items items) }
{
    match items {
        Items::Missing => Ok(Decision::UpstreamFailed),
        Items::List(items) => {
            if items.is_empty() {
                return Ok(Decision::Skipped);
            }
            Ok(Decision::Instances(givens_of(alloc, items, pulled)?))
        }
    }
}

/// What is decided of a task that is to run: one instance, or for an expanded task one for each item of its source. An
/// expanded task waits while its source isn't settled, is upstream_failed where that gives no list, and skipped where
/// the list is empty.
pub(crate) fn decide_instances(
    alloc: Global,
    dag: &Dag,
    state: &State,
    run: u32,
    task: &Task,
) -> Result<Decision, OutOfMemory>
    requires { HasRows dag.now state.now }
    ensures { IfOk result (λ d. d ≡ instances_of dag.now (λ u. seen_in (cell_at state.now run u))
        (map (pull_seen dag.now (λ u. seen_in (cell_at state.now run u))) task.now.pulls)
        task.now.expand) }
{
    let Some(source) = task.expand else {
        let pulled = pull_all(alloc, dag, state, run, task.pulls.as_slice())?;
        return single_instance(alloc, pulled);
    };
    match items_from(alloc, dag, state, run, source)? {
        Some(items) => {
            let pulled = pull_all(alloc, dag, state, run, task.pulls.as_slice())?;
            instances_of_items(alloc, items, pulled)
        }
        None => Ok(Decision::Wait),
    }
}
