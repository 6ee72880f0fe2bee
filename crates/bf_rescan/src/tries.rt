//! The try that begins next.
ghost use Rattle.std.specs.Prelude.{◌≡◌, ◌<◌, ◌≤◌, ◌+◌, length, Some};
ghost use Rattle.bf_core.specs.Cores.{IsThere};
ghost use Rattle.bf_core.specs.Events.{cell_at, instance_of};
ghost use Rattle.bf_pool.specs.Weights.{AreWeights};
ghost use Rattle.bf_waiting.specs.Choices.{IsNextTry};
ghost use Rattle.bf_rescan.specs.inner.Looks.{IsBest, IsTryAt, IsTryBefore, IsTryOf, weightier_try_of};

use bf_core::{Core, Instance, name_of};
use bf_value::JobName;
use bf_waiting::{instances_of, weight_of};

/// The try `found` where its task weighs more than that of `best`, else `best`; where one is missing, the other.
/// `weights` has the total weight of each task.
fn weightier_try(weights: &[u32], best: Option<JobName>, found: Option<JobName>) -> Option<JobName>
    ensures { result ≡ weightier_try_of weights.now best found }
{
    match (best, found) {
        (None, found) => found,
        (Some(best), None) => Some(best),
        (Some(best), Some(found)) => {
            if weight_of(weights, best.task) < weight_of(weights, found.task) {
                Some(found)
            } else {
                Some(best)
            }
        }
    }
}

/// The present try of the instance at `place`, from 0, of a task in a run; None where it may not begin now.
fn try_at(
    core: &Core<'_>,
    run: u32,
    task: u32,
    place: usize,
    instance: &Instance,
) -> Option<JobName>
    requires few { place ≤ 1_024 }
    requires held { instance_of (cell_at core.now.state run task) place ≡ Some instance.now }
    ensures { IsBest core.now (IsTryAt core.now.dag run task place) result }
{
    let _replayed = core.journal();
    let name = name_of(core.plan().dag(), run, task, place, instance.attempt);
    if core.may_begin(name) {
        Some(name)
    } else {
        None
    }
}

/// The first try of a task in a run that may begin now, by map index; None where none may.
fn first_try_of_task(core: &Core<'_>, run: u32, task: u32) -> Option<JobName>
    requires { IsThere core.now.dag core.now.state run task }
    ensures { IsBest core.now (IsTryOf run task) result }
{
    if !core.has_room(task) {
        return None;
    }
    let instances = instances_of(core, run, task);
    for place in 0..instances.len() {
        if let Some(name) = try_at(core, run, task, place, &instances[place]) {
            return Some(name);
        }
    }
    None
}

/// Of the tries that may begin now in this run and the runs before it, the first one of the greatest total weight; None
/// where none may. `earlier` is the same for the runs before it. `weights` has the total weight of each task.
fn best_try_up_to_run(
    core: &Core<'_>,
    weights: &[u32],
    run: u32,
    earlier: Option<JobName>,
) -> Option<JobName>
    requires weights { AreWeights core.now.dag core.now.limits weights.now }
    requires run { run < length core.now.state.runs }
    requires earlier { IsBest core.now (IsTryBefore run 0) earlier }
    ensures { IsBest core.now (IsTryBefore (run + 1) 0) result }
{
    let _replayed = core.journal();
    let mut best = earlier;
    for task in 0..core.plan().dag().tasks.len() {
        best = weightier_try(weights, best, first_try_of_task(core, run, task as u32));
    }
    best
}

/// The try to begin next: of those that may begin now, the one of the greatest total weight, and among equals the first
/// by run, in file order and by map index. None where none may. `weights` has the total weight of each task.
pub fn next_try(core: &Core<'_>, weights: &[u32]) -> Option<JobName>
    requires weights { AreWeights core.now.dag core.now.limits weights.now }
    ensures { IsNextTry core.now result }
{
    let _replayed = core.journal();
    let mut best = None;
    for run in 0..core.run_count() {
        best = best_try_up_to_run(core, weights, run, best);
    }
    best
}
