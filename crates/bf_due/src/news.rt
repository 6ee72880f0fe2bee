//! What has come of a task by an event, and which rules look for it.
ghost use Rattle.std.specs.Prelude.{◌≡◌};
ghost use Rattle.bf_core.specs.Cores.{IsThere};
ghost use Rattle.bf_due.specs.inner.Stirring.{decided_at, ended_at, finished_in, heard_of_cell, rule_looks_for_in};

use bf_core::{Cell, Core, Phase};
use bf_rule::{Counts, Rule, is_rule_met};
use bf_try::Outcome;
use bf_value::JobName;

/// What of a task in a run has finished by an event, counted by state.
#[derive(Clone, Copy)]
pub(crate) struct News {
    pub run: u32,
    pub task: u32,
    pub counts: Counts,
}

/// What finishes once a task is decided to this cell: the task, counted once under its state, or nothing where it got
/// instances or stays undecided.
fn finished_counts_of_cell(cell: &Cell) -> Counts
    ensures { result ≡ heard_of_cell cell.now }
{
    let mut counts = Counts::NONE;
    match cell {
        Cell::Blocked => counts.blocked = 1,
        Cell::Skipped => counts.skipped = 1,
        Cell::UpstreamFailed => counts.upstream_failed = 1,
        Cell::Undecided | Cell::Ran(_) => {}
    }
    counts
}

/// What finishes once a try leaves its instance in this phase: the instance, counted once under its state, or nothing
/// where it isn't finished.
fn finished_counts_of_phase(phase: &Phase) -> Counts
    ensures { result ≡ finished_in phase.now }
{
    let mut counts = Counts::NONE;
    match phase {
        Phase::Finished(Outcome::Success(_)) => counts.success = 1,
        Phase::Finished(Outcome::Failed) => counts.failed = 1,
        Phase::Finished(Outcome::Skipped) => counts.skipped = 1,
        Phase::Waiting | Phase::Running => {}
    }
    counts
}

impl News {
    /// What has finished by the decision of a task in a run, which has come: the task, or nothing where it got
    /// instances.
    pub(crate) fn of_decision(core: &Core<'_>, run: u32, task: u32) -> News
        requires { IsThere core.now.dag core.now.state run task }
        ensures { result ≡ decided_at core.now.state run task }
    {
        let counts = match core.cell(run, task) {
            Some(cell) => finished_counts_of_cell(cell),
            None => Counts::NONE,
        };
        News { run, task, counts }
    }

    /// What has finished by the end of a try, which has come: its instance, or nothing where the try is made again.
    pub(crate) fn of_end(core: &Core<'_>, name: JobName) -> News
        ensures { result ≡ ended_at core.now.dag core.now.state name }
    {
        let counts = match core.instance(name) {
            Some(instance) => finished_counts_of_phase(&instance.phase),
            None => Counts::NONE,
        };
        News {
            run: name.run,
            task: name.task,
            counts,
        }
    }
}

/// Whether these counts alone meet a rule: it is met by them, but not by no instances at all.
pub(crate) fn rule_looks_for(rule: Rule, counts: Counts) -> bool
    ensures { result ≡ rule_looks_for_in rule counts }
{
    is_rule_met(rule, &counts) && !is_rule_met(rule, &Counts::NONE)
}
