//! The instances of a task in a run, and how they stand.
ghost use Rattle.std.specs.Prelude.{◌≡◌, ◌<◌, ◌≤◌, ◌↔◌, IsTrue, length, Some};
ghost use Rattle.bf_core.specs.Events.{cell_at, instance_of};
ghost use Rattle.bf_core.specs.Few.{IsFew};
ghost use Rattle.bf_waiting.specs.Standings.{instances_of, IsReadyAt};
ghost use Rattle.bf_waiting.specs.inner.Standings.{Stands};

use bf_core::{Cell, Core, Instance, Phase, name_of};

/// Whether an instance waits, and for what.
#[derive(Clone, Copy)]
pub(crate) enum Standing {
    /// It doesn't wait, or isn't there.
    Away,
    /// It waits for nothing but room in its pool.
    Ready,
    /// It waits for a later moment, in seconds since 1970.
    Delayed(i64),
}

/// The instances of a cell by map index; empty where its task got none.
fn instances_in(cell: &Cell) -> &[Instance]
    ensures instances { result.now ≡ instances_of cell.now }
    ensures few { IsFew cell.now → length result.now ≤ 1_024 }
{
    match cell {
        Cell::Ran(instances) => instances.as_slice(),
        _ => &[],
    }
}

/// The instances that a task has in a run, by map index; empty where it has none, and where the run or the task isn't
/// there.
#[tactic(auto, using(crate::proofs::Places::beyond_none))]
pub fn instances_of<'c>(core: &'c Core<'_>, run: u32, task: u32) -> &'c [Instance]
    ensures instances { result.now ≡ instances_of (cell_at core.now.state run task) }
    ensures few { length result.now ≤ 1_024 }
{
    let _replayed = core.journal();
    match core.cell(run, task) {
        Some(cell) => instances_in(cell),
        None => &[],
    }
}

/// How `instance`, which is at `place`, from 0, of a task in a run, stands: it waits for nothing but room in its pool,
/// or for a later moment, or doesn't wait.
fn standing_of(core: &Core<'_>, run: u32, task: u32, place: u32, instance: &Instance) -> Standing
    requires few { place ≤ 1_024 }
    requires held { instance_of (cell_at core.now.state run task) place ≡ Some instance.now }
    ensures { Stands core.now run task place result }
{
    if !matches!(instance.phase, Phase::Waiting) {
        return Standing::Away;
    }
    let name = name_of(
        core.plan().dag(),
        run,
        task,
        place as usize,
        instance.attempt,
    );
    match core.later_moment_of(name) {
        None => Standing::Ready,
        Some(moment) => Standing::Delayed(moment),
    }
}

/// How the instance at `place`, from 0, of a task in a run stands: it waits for nothing but room in its pool, or for a
/// later moment; `Away` where it doesn't wait, or isn't there.
pub(crate) fn standing_at(core: &Core<'_>, run: u32, task: u32, place: u32) -> Standing
    ensures { Stands core.now run task place result }
{
    match instances_of(core, run, task).get(place as usize) {
        None => Standing::Away,
        Some(instance) => standing_of(core, run, task, place, instance),
    }
}

/// Whether the instance at `place`, from 0, of a task in a run waits for nothing but room in its pool; false where
/// there is no such instance.
pub(crate) fn is_ready(core: &Core<'_>, run: u32, task: u32, place: u32) -> bool
    ensures { IsTrue result ↔ IsReadyAt core.now run task place }
{
    matches!(standing_at(core, run, task, place), Standing::Ready)
}
