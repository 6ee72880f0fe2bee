//! Which step decides a task in a run now.
ghost use Rattle.std.specs.Prelude.{◌≡◌, ◌<◌, ◌↔◌, ℕ, Bool, length, IsTrue, IfSome, IfNone, Some};
ghost use Rattle.bf_core.specs.Events.{IsDecidable, cell_at};
ghost use Rattle.bf_core.specs.Cores.{IsThere, MayCome, deciding};
ghost use Rattle.bf_core.specs.declared.state.Cell.{Cell};
ghost use Rattle.bf_due.specs.declared.agenda.Step.{Step};
ghost use Rattle.bf_due.specs.Dues.{IsDueStep, IsRanked};
ghost use Rattle.bf_due.specs.inner.Dues.{IsOfTask, WaitsForUpstreamsAlone};

use crate::agenda::{Step, Turn};
use bf_core::{Cell, Core, Event};

/// Whether an event decides a task by its expansion.
fn is_expansion(event: &Event) -> bool
    ensures { (expands : Bool) (run task : ℕ) → event.now ≡ deciding expands run task → result
        ≡ expands }
{
    matches!(event, Event::Expand { .. })
}

/// Whether a task that may be decided in a run now is decided by its expansion; None where it can't be decided now.
fn decides_by_expansion(core: &Core<'_>, run: u32, task: u32) -> Option<bool>
    ensures some { IfSome result (λ expands. MayCome core.now (deciding expands run task)) }
    ensures none { IfNone result (¬ (IsDecidable core.now.dag core.now.state run task)) }
{
    let event = core.decision_event(run, task)?;
    Some(is_expansion(&event))
}

/// Whether a task may be decided in a run now: by its expansion where `expands`, and else without one.
pub fn may_decide(core: &Core<'_>, run: u32, task: u32, expands: bool) -> bool
    ensures { IsTrue result ↔ MayCome core.now (deciding expands run task) }
{
    match decides_by_expansion(core, run, task) {
        Some(goes_on) => goes_on == expands,
        None => false,
    }
}

/// Whether nothing but its upstreams keeps a task from being decided, and that without an expansion: its rule waits for
/// all of them, it isn't expanded, and it doesn't depend on its past.
pub(crate) fn waits_for_upstreams_alone(core: &Core<'_>, task: u32) -> bool
    requires { task < length core.now.dag.tasks }
    ensures { IsTrue result → WaitsForUpstreamsAlone core.now.dag task }
{
    let task = core.plan().dag().task(task);
    task.rule.waits_until_settled() && task.expand.is_none() && !task.depends_on_past
}

/// Whether nothing is decided by this cell.
fn is_undecided(cell: &Cell) -> bool
    ensures { IsTrue result ↔ (cell.now ≡ Cell.Undecided) }
{
    matches!(cell, Cell::Undecided)
}

/// Whether nothing is decided of a task in a run; false where the run or the task isn't there.
pub(crate) fn awaits_decision(core: &Core<'_>, run: u32, task: u32) -> bool
    ensures { IsTrue result ↔ (IsThere core.now.dag core.now.state run task
        × (cell_at core.now.state run task ≡ Cell.Undecided)) }
{
    match core.cell(run, task) {
        Some(cell) => is_undecided(cell),
        None => false,
    }
}

/// The step that decides a task, none of whose upstreams is awaited, in a run. A task that waits for its upstreams alone
/// has one until it is decided, and the core isn't asked; any other has one only where the core can decide it now.
pub(crate) fn decision_step(core: &Core<'_>, run: u32, task: u32) -> Option<Step>
    requires { task < length core.now.dag.tasks }
    ensures ranked { IfSome result (IsRanked core.now.dag) }
    ensures each { (x : Step) → IsOfTask run task x → IsDueStep core.now x → result ≡ Some x }
{
    let rank = core.plan().graph().rank(task);
    let turn = Turn { run, rank, task };
    if waits_for_upstreams_alone(core, task) {
        return awaits_decision(core, run, task).then_some(Step::Settle(turn));
    }
    match decides_by_expansion(core, run, task) {
        Some(true) => Some(Step::Expand(turn)),
        Some(false) => Some(Step::Settle(turn)),
        None => None,
    }
}
