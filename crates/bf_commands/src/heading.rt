//! What the head of a journal tells of what is cleared.
ghost use Rattle.std.specs.Prelude.{IfOk, OnOk, slice_get};
ghost use Rattle.bf_interval.specs.Intervals.{IsShownInterval};
ghost use Rattle.bf_commands.specs.Journaled.{IsToldOf, TellsOf};
ghost use Rattle.bf_commands.specs.inner.Journaled.{AddsTold};

use bf_dependents::Place;
use bf_interval::{Interval, Runs};
use bf_journal::ClearedTask;
use bf_moment::Moment;
use bf_plan::{Dag, Plan};
use bf_value::{OutOfMemory, Text};
use std::alloc::Global;

/// Names a cleared place as the head of a journal does: by its task's id, the start of its run, which is that of
/// `interval`, and its map index, None for the whole task.
fn cleared_task_of(
    alloc: Global,
    dag: &Dag,
    interval: &Interval,
    place: Place,
) -> Result<ClearedTask, OutOfMemory>
    requires { IsShownInterval interval.now }
    ensures { IfOk result (IsToldOf dag.now interval.now place) }
{
    let task = Text::copy_of(alloc, dag.id_of(place.task))?;
    Ok(ClearedTask {
        task,
        run: Moment::new(interval.start),
        index: place.index,
    })
}

/// Appends to `cleared` how the head of a journal names a cleared place; leaves it as it is where the place has no run.
fn add_cleared_task(
    alloc: Global,
    dag: &Dag,
    runs: &Runs,
    place: Place,
    cleared: &mut Vec<ClearedTask>,
) -> Result<(), OutOfMemory>
    ensures { OnOk result (AddsTold dag.now (slice_get runs.now place.run) place cleared.old.items
        cleared.new.items) }
{
    let Some(interval) = runs.intervals().get(place.run as usize) else {
        return Ok(());
    };
    let told = cleared_task_of(alloc, dag, interval, place)?;
    cleared.push(told)?;
    Ok(())
}

/// Names these cleared places as the head of a journal does, in their order; leaves out a place whose run isn't there.
pub(crate) fn cleared_tasks_of(
    alloc: Global,
    plan: &Plan,
    runs: &Runs,
    places: &[Place],
) -> Result<Vec<ClearedTask>, OutOfMemory>
    ensures { IfOk result (λ cleared. TellsOf plan.now.dag runs.now places.now cleared.items) }
{
    let dag = plan.dag();
    let mut cleared = Vec::new(alloc);
    for place in places {
        add_cleared_task(alloc, dag, runs, *place, &mut cleared)?;
    }
    Ok(cleared)
}
