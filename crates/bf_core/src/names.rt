//! The instances and the tries that names speak of.
ghost use Rattle.std.specs.Prelude.{◌≡◌, ◌≤◌, ◌<◌, ◌+◌, ◌^◌, ◌↔◌, IsTrue, is_some, OnOk, OnSome, IfOk, IfErr, IfSome, IfNone, Some, option_copied};
ghost use Rattle.bf_core.specs.Terms.{map_index, name_of as name_in, task_of};
ghost use Rattle.bf_core.specs.Events.{place_in, cell_at, instance_of, IsPresent};
ghost use Rattle.bf_core.specs.Clocks.{next_try_of};
ghost use Rattle.bf_core.specs.Cores.{IsKnown};
ghost use Rattle.bf_core.specs.inner.Checks.{HasRows, RefusedFor, IsOfName, IsKnownAs, asked_phase};
ghost use Rattle.bf_core.specs.declared.state.Instance.{Instance};

use crate::event::Illegal;
use crate::state::{Cell, Instance, Phase, State};
use bf_plan::Dag;
use bf_value::JobName;

/// Whether a task is expanded over another; false where there is no such task.
#[tactic(auto, unfolding(bf_plan::specs::Plans::task_of))]
pub fn is_expanded(dag: &Dag, task: u32) -> bool
    ensures { result ≡ is_some (task_of dag.now task).expand }
{
    match dag.tasks.get(task as usize) {
        Some(task) => task.expand.is_some(),
        None => false,
    }
}

/// The name of try `attempt`, from 1, of the instance at `place`, from 0, of a task in a run. Its map index is
/// `place`, or -1 where the task isn't expanded or isn't there.
#[tactic(auto, unfolding(bf_try::specs::Tries::name_of))]
pub fn name_of(dag: &Dag, run: u32, task: u32, place: usize, attempt: u32) -> JobName
    requires { place ≤ 1_024 }
    ensures { result ≡ name_in dag.now run task place attempt }
{
    let index = if is_expanded(dag, task) {
        place as i32
    } else {
        -1
    };
    JobName {
        run,
        task,
        index,
        attempt,
    }
}

/// The place, from 0, of a name's instance among those of its task: the map index without its sign; 0 where the task
/// isn't expanded or isn't there.
pub fn place_of(dag: &Dag, name: JobName) -> u32
    ensures { result ≡ place_in dag.now name }
{
    if is_expanded(dag, name.task) {
        name.index.unsigned_abs()
    } else {
        0
    }
}

/// Whether a name's map index suits its task: -1 for a task that isn't expanded or isn't there, from 0 up for an
/// expanded one.
fn has_index_of_task(dag: &Dag, name: JobName) -> bool
    ensures { IsTrue result ↔ (map_index (task_of dag.now name.task) (place_in dag.now name)
        ≡ name.index) }
{
    if is_expanded(dag, name.task) {
        name.index >= 0
    } else {
        name.index == -1
    }
}

/// The name of the try after this one, of the same instance.
pub(crate) fn next_try(name: JobName) -> JobName
    requires { name.attempt + 1 < 2 ^ 32 }
    ensures { result ≡ next_try_of name }
{
    JobName {
        attempt: name.attempt + 1,
        ..name
    }
}

/// The instance at `place`, from 0, of a task in a run; None where the task has no such instance, or has none yet.
pub(crate) fn instance_at(state: &State, run: u32, task: u32, place: usize) -> Option<&Instance>
    ensures { option_copied result ≡ instance_of (cell_at state.now run task) place }
{
    match state.cell(run, task) {
        Some(Cell::Ran(instances)) => instances.get(place),
        _ => None,
    }
}

/// The instance that a name speaks of, whichever of its tries is named; None where the task has none of that map index
/// now.
fn instance_named<'a>(dag: &Dag, state: &'a State, name: JobName) -> Option<&'a Instance>
    ensures some { IfSome result (λ x. IsOfName dag.now state.entry.now name x.now) }
    ensures none { IfNone result ((x : Instance) → IsOfName dag.now state.entry.now name x
        → ⊥) }
{
    let instance = instance_at(state, name.run, name.task, place_of(dag, name) as usize)?;
    if has_index_of_task(dag, name) {
        Some(instance)
    } else {
        None
    }
}

/// The instance of which `name` is the present try or an earlier one; None where there is none.
fn instance_known_as<'a>(dag: &Dag, state: &'a State, name: JobName) -> Option<&'a Instance>
    ensures some { IfSome result (λ x. IsKnownAs dag.now state.entry.now name x.now) }
    ensures none { IfNone result ((x : Instance) → IsKnownAs dag.now state.entry.now name x
        → ⊥) }
{
    let instance = instance_named(dag, state, name)?;
    if 1 <= name.attempt && name.attempt <= instance.attempt {
        Some(instance)
    } else {
        None
    }
}

/// What is asked of a try: that it waits, or that it runs.
#[derive(Clone, Copy)]
pub(crate) enum Unfinished {
    Waiting,
    Running,
}

/// Whether the present try of an instance has the number `attempt`, and waits or runs, whichever is `asked`.
fn is_as_asked(instance: &Instance, attempt: u32, asked: Unfinished) -> bool
    ensures { IsTrue result ↔ ((instance.now.attempt ≡ attempt)
        × (instance.now.phase ≡ asked_phase asked)) }
{
    let is_in_phase = match asked {
        Unfinished::Waiting => matches!(instance.phase, Phase::Waiting),
        Unfinished::Running => matches!(instance.phase, Phase::Running),
    };
    instance.attempt == attempt && is_in_phase
}

/// The instance whose present try is `name` and waits or runs, whichever is `asked`; None where there is none.
pub(crate) fn unfinished_instance<'a>(
    dag: &Dag,
    state: &'a State,
    name: JobName,
    asked: Unfinished,
) -> Option<&'a Instance>
    ensures present { OnSome result (IsPresent dag.now state.entry.now name (asked_phase asked)) }
    ensures held { IfSome result (λ x. instance_of (cell_at state.entry.now name.run name.task)
        (place_in dag.now name) ≡ Some x.now) }
    ensures none { IfNone result (¬ (IsPresent dag.now state.entry.now name (asked_phase asked))) }
{
    let instance = instance_named(dag, state, name)?;
    if is_as_asked(instance, name.attempt, asked) {
        Some(instance)
    } else {
        None
    }
}

/// The instance whose present try is `name` and waits or runs, whichever is `asked`. `Stranger` where `name` is neither
/// the present try of an instance nor an earlier one, else `NotEnabled` where it doesn't wait or run as asked.
pub(crate) fn require_unfinished_instance<'a>(
    dag: &Dag,
    state: &'a State,
    name: JobName,
    asked: Unfinished,
) -> Result<&'a Instance, Illegal>
    requires { HasRows dag.now state.now }
    ensures ok { OnOk result (IsPresent dag.now state.entry.now name (asked_phase asked)) }
    ensures held { IfOk result (λ x. instance_of (cell_at state.entry.now name.run name.task)
        (place_in dag.now name) ≡ Some x.now) }
    ensures err { IfErr result (RefusedFor (IsKnown dag.now state.entry.now name)
        (IsPresent dag.now state.entry.now name (asked_phase asked))) }
{
    match instance_known_as(dag, state, name) {
        None => Err(Illegal::Stranger),
        Some(instance) => {
            if is_as_asked(instance, name.attempt, asked) {
                Ok(instance)
            } else {
                Err(Illegal::NotEnabled)
            }
        }
    }
}
