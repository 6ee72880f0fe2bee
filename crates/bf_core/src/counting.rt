//! How many instances are in each state.
ghost use Rattle.std.specs.Prelude.{◌≡◌, ◌+◌, ◌<◌, ◌≤◌, ◌^◌, length};
ghost use Rattle.bf_rule.specs.Verdicts.{add, total_of};
ghost use Rattle.bf_core.specs.Deciding.{counts_over, one_of};
ghost use Rattle.bf_core.specs.Events.{cell_at, counts_of_cell, counts_of_instance, counts_of_instances, seen_in};
ghost use Rattle.bf_core.specs.Few.{AreFew, IsFew};

use crate::state::{Cell, Instance, Phase, State};
use bf_rule::Counts;
use bf_try::Outcome;

/// Counts one more instance, which finished with this outcome.
fn add_outcome(counts: &mut Counts, outcome: &Outcome)
    requires { total_of counts.old + 1 < 2 ^ 32 }
    ensures { counts.new ≡ add counts.old (one_of outcome.now) }
{
    match outcome {
        Outcome::Success(_) => counts.success += 1,
        Outcome::Failed => counts.failed += 1,
        Outcome::Skipped => counts.skipped += 1,
    }
}

/// The counts of a single instance that finished with this outcome: 1 for its state, 0 for all others.
pub fn counts_of_outcome(outcome: &Outcome) -> Counts
    ensures { result ≡ one_of outcome.now }
{
    let mut counts = Counts::NONE;
    add_outcome(&mut counts, outcome);
    counts
}

/// Counts one more instance, which is in this phase.
fn add_phase(counts: &mut Counts, phase: &Phase)
    requires { total_of counts.old + 1 < 2 ^ 32 }
    ensures { counts.new ≡ add counts.old (counts_of_instance phase.now) }
{
    match phase {
        Phase::Finished(outcome) => add_outcome(counts, outcome),
        Phase::Waiting | Phase::Running => counts.unfinished += 1,
    }
}

/// Adds these instances to the counts.
fn add_instances(counts: &mut Counts, instances: &[Instance])
    requires { total_of counts.old + length instances.now < 2 ^ 32 }
    ensures { counts.new ≡ add counts.old (counts_of_instances instances.now) }
{
    for instance in instances {
        add_phase(counts, &instance.phase);
    }
}

/// Adds the instances of a task to the counts; a task without instances counts as one.
fn add_cell(counts: &mut Counts, cell: &Cell)
    requires few { IsFew cell.now }
    requires room { total_of counts.old + 1_024 < 2 ^ 32 }
    ensures { counts.new ≡ add counts.old (counts_of_cell cell.now) }
{
    match cell {
        Cell::Undecided => counts.unfinished += 1,
        Cell::Blocked => counts.blocked += 1,
        Cell::Skipped => counts.skipped += 1,
        Cell::UpstreamFailed => counts.upstream_failed += 1,
        Cell::Ran(instances) => add_instances(counts, instances.as_slice()),
    }
}

/// Adds the instances of a task in a run to the counts; a task that isn't there counts as undecided.
fn add_task(counts: &mut Counts, state: &State, run: u32, task: u32)
    requires few { AreFew state.now }
    requires room { total_of counts.old + 1_024 < 2 ^ 32 }
    ensures counts { counts.new ≡ add counts.old (counts_of_cell (cell_at state.now run task)) }
    ensures few { total_of counts.new ≤ total_of counts.old + 1_024 }
{
    match state.cell(run, task) {
        Some(cell) => add_cell(counts, cell),
        None => counts.unfinished += 1,
    }
}

/// How many instances all these upstreams together have in each state, in a run.
pub(crate) fn counts_of_upstreams(state: &State, run: u32, upstreams: &[u32]) -> Counts
    requires few { AreFew state.now }
    requires few_upstreams { length upstreams.now ≤ 20_000 }
    ensures { result ≡ counts_over (λ u. seen_in (cell_at state.now run u)) upstreams.now }
{
    let mut counts = Counts::NONE;
    for upstream in upstreams {
        add_task(&mut counts, state, run, *upstream);
    }
    counts
}
