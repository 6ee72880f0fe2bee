//! Dropping the steps of an agenda that may not come any more.
ghost use Rattle.std.specs.Prelude.{◌≡◌, ◌<◌, ◌↔◌, length, false, IsTrue};
ghost use Rattle.bf_core.specs.Terms.{task_of};
ghost use Rattle.bf_core.specs.Cores.{MayCome, deciding};
ghost use Rattle.bf_due.specs.Agendas.{event_of};
ghost use Rattle.bf_due.specs.Cursors.{AreNoted, ArePassed, has_early_rule_in};
ghost use Rattle.bf_due.specs.inner.Dues.{IsPruned};

use crate::agenda::{Agenda, Step};
use crate::cursors::Cursors;
use crate::decisions::{awaits_decision, may_decide, waits_for_upstreams_alone};
use bf_core::Core;

/// Whether it is noted that no upstream keeps a task from being decided in a run; false where that isn't noted. `rows` has
/// the cursors of each run.
fn is_noted_to_be_free(rows: &[Cursors], core: &Core<'_>, run: u32, task: u32) -> bool
    requires { task < length core.now.dag.tasks }
    ensures { AreNoted core.now rows.now → IsTrue result → ArePassed
        (has_early_rule_in core.now.dag task) core.now.dag core.now.state run task
        (length (task_of core.now.dag task).upstreams) }
{
    match rows.get(run as usize) {
        Some(row) => row.have_passed_all(core, task),
        None => false,
    }
}

/// Whether the cursors tell that a task may be settled in a run now, without a look at its upstreams; false where they
/// don't tell. `rows` has the cursors of each run.
fn is_noted_to_settle(rows: &[Cursors], core: &Core<'_>, run: u32, task: u32) -> bool
    ensures { AreNoted core.now rows.now → IsTrue result → MayCome core.now
        (deciding false run task) }
{
    let _replayed = core.journal();
    run < core.opened_runs()
        && awaits_decision(core, run, task)
        && waits_for_upstreams_alone(core, task)
        && is_noted_to_be_free(rows, core, run, task)
}

/// Whether a step's event may come to the core now. `rows` has the cursors of each run.
fn may_come(rows: &[Cursors], core: &Core<'_>, step: Step) -> bool
    ensures { AreNoted core.now rows.now → (IsTrue result ↔ MayCome core.now (event_of step)) }
{
    match step {
        Step::Close { run } => core.may_close(run),
        Step::Open => core.may_open(),
        Step::Settle(turn) => {
            is_noted_to_settle(rows, core, turn.run, turn.task)
                || may_decide(core, turn.run, turn.task, false)
        }
        Step::Expand(turn) => may_decide(core, turn.run, turn.task, true),
    }
}

/// Drops the first step until one is first that may come now, or none is left. `rows` has the cursors of each run.
pub(crate) fn drop_outdated_steps(agenda: &mut Agenda, rows: &[Cursors], core: &Core<'_>)
    ensures { AreNoted core.now rows.now → IsPruned core.now agenda.old.items agenda.new.items }
{
    while let Some(step) = agenda.first() {
        if may_come(rows, core, step) {
            return;
        }
        let _ = agenda.take_first();
    }
}
