//! The moment to wait for.
ghost use Rattle.std.specs.Prelude.{◌≡◌, ◌<◌, ◌≤◌, ◌+◌, length, Some};
ghost use Rattle.bf_core.specs.Cores.{IsThere};
ghost use Rattle.bf_core.specs.Events.{cell_at, instance_of};
ghost use Rattle.bf_waiting.specs.Choices.{IsNextMoment};
ghost use Rattle.bf_rescan.specs.inner.Looks.{IsSoonest, IsTryAt, IsTryBefore, IsTryOf};

use bf_core::{Core, Instance, Phase, name_of};
use bf_waiting::{earlier_moment, instances_of};

/// The moment, in seconds since 1970, for which the instance at `place`, from 0, of a task in a run waits; None where
/// it waits for none, or for one that has come.
fn moment_at(core: &Core<'_>, run: u32, task: u32, place: usize, instance: &Instance) -> Option<i64>
    requires few { place ≤ 1_024 }
    requires held { instance_of (cell_at core.now.state run task) place ≡ Some instance.now }
    ensures { IsSoonest core.now (IsTryAt core.now.dag run task place) result }
{
    let _replayed = core.journal();
    if !matches!(instance.phase, Phase::Waiting) {
        return None;
    }
    core.later_moment_of(name_of(core.plan().dag(), run, task, place, instance.attempt))
}

/// The earliest moment still to come, in seconds since 1970, for which an instance of a task in a run waits; None where
/// none waits for one.
fn earliest_moment_of_task(core: &Core<'_>, run: u32, task: u32) -> Option<i64>
    requires { IsThere core.now.dag core.now.state run task }
    ensures { IsSoonest core.now (IsTryOf run task) result }
{
    let instances = instances_of(core, run, task);
    let mut soonest = None;
    for place in 0..instances.len() {
        soonest = earlier_moment(
            soonest,
            moment_at(core, run, task, place, &instances[place]),
        );
    }
    soonest
}

/// The earliest moment still to come, in seconds since 1970, for which a try of this run or of a run before it waits;
/// None where none waits for one. `earlier` is the same for the runs before it.
fn earliest_moment_up_to_run(core: &Core<'_>, run: u32, earlier: Option<i64>) -> Option<i64>
    requires run { run < length core.now.state.runs }
    requires earlier { IsSoonest core.now (IsTryBefore run 0) earlier }
    ensures { IsSoonest core.now (IsTryBefore (run + 1) 0) result }
{
    let _replayed = core.journal();
    let mut soonest = earlier;
    for task in 0..core.plan().dag().tasks.len() {
        soonest = earlier_moment(soonest, earliest_moment_of_task(core, run, task as u32));
    }
    soonest
}

/// The earliest moment still to come for which a try waits, in seconds since 1970; None where no try waits for one.
pub fn next_moment(core: &Core<'_>) -> Option<i64>
    ensures { IsNextMoment core.now result }
{
    let _replayed = core.journal();
    let mut soonest = None;
    for run in 0..core.run_count() {
        soonest = earliest_moment_up_to_run(core, run, soonest);
    }
    soonest
}
