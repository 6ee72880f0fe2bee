//! What the upstreams say of a task.
ghost use Rattle.std.specs.Prelude.{◌≡◌, ◌<◌, length, is_some};
ghost use Rattle.std.specs.List.{list_all, list_any};
ghost use Rattle.bf_core.specs.Deciding.{branch_is, branch_skips, is_blocked_in, counts_over, lets_decide_in, upstream_verdict_of};
ghost use Rattle.bf_core.specs.Events.{cell_at, seen_in, value_in};
ghost use Rattle.bf_core.specs.Few.{AreFew};
ghost use Rattle.bf_core.specs.inner.Words.{known_to_be, phase_skips_in, instances_skip_in};

use crate::counting::counts_of_upstreams;
use crate::state::{Cell, Instance, Phase, State, are_finished};
use bf_plan::{Dag, Plan, Task};
use bf_rule::{Counts, Verdict, followed, verdict};
use bf_try::Outcome;

/// Whether a task is decided in a run and all its instances are finished; false where the run or the task isn't there.
pub(crate) fn is_settled(state: &State, run: u32, task: u32) -> bool
    ensures { result ≡ is_some (value_in (cell_at state.now run task)) }
{
    match state.cell(run, task) {
        Some(cell) => cell.is_settled(),
        None => false,
    }
}

/// Whether an upstream lets a task be decided in a run: it is settled, or it is no branch and the task's rule needn't
/// wait until it is settled.
fn lets_decide(dag: &Dag, state: &State, run: u32, task: &Task, upstream: u32) -> bool
    ensures { result ≡ lets_decide_in dag.now task.now (λ u. seen_in (cell_at state.now run u))
        upstream }
{
    is_settled(state, run, upstream)
        || (!task.rule.waits_until_settled() && !dag.is_branch(upstream))
}

/// Whether each of these upstreams lets a task be decided in a run, as in `lets_decide`. `counts` are those of all their
/// instances: where the rule waits until all are settled, none is unfinished.
fn all_let_decide(
    dag: &Dag,
    state: &State,
    run: u32,
    task: &Task,
    upstreams: &[u32],
    counts: &Counts,
) -> bool
    requires { counts.now ≡ counts_over (λ u. seen_in (cell_at state.now run u)) upstreams.now }
    ensures { result ≡ list_all (lets_decide_in dag.now task.now
        (λ u. seen_in (cell_at state.now run u))) upstreams.now }
{
    if task.rule.waits_until_settled() {
        return counts.unfinished == 0;
    }
    upstreams
        .iter()
        .all(|upstream| lets_decide(dag, state, run, task, *upstream))
}

/// Whether a branch whose instance is in this phase skips a task: it succeeded, and doesn't follow the task.
fn phase_skips(plan: &Plan, branch: u32, task: u32, phase: &Phase) -> bool
    requires { task < length plan.now.dag.tasks }
    ensures { result ≡ phase_skips_in plan.now.dag task branch phase.now }
{
    match phase {
        Phase::Finished(Outcome::Success(pushed)) => {
            !followed(plan.graph(), branch, pushed.get(), task)
        }
        _ => false,
    }
}

/// Whether a branch with these instances skips a task: all have finished, and the first succeeded and doesn't follow
/// it.
fn instances_skip(plan: &Plan, branch: u32, task: u32, instances: &[Instance]) -> bool
    requires { task < length plan.now.dag.tasks }
    ensures { result ≡ instances_skip_in plan.now.dag task branch instances.now }
{
    match instances {
        [] => false,
        [instance, ..] => {
            are_finished(instances) && phase_skips(plan, branch, task, &instance.phase)
        }
    }
}

impl Cell {
    /// Whether a branch with this cell skips a task: its instances have finished, and the first succeeded and doesn't
    /// follow the task.
    #[tactic(auto, using(crate::proofs::Branching::ran_skips))]
    fn skips_task(&self, plan: &Plan, branch: u32, task: u32) -> bool
        requires { task < length plan.now.dag.tasks }
        ensures { result ≡ known_to_be (branch_skips plan.now.dag task branch) (value_in self.now) }
    {
        match self {
            Cell::Ran(instances) => instances_skip(plan, branch, task, instances.as_slice()),
            Cell::Undecided | Cell::Blocked | Cell::Skipped | Cell::UpstreamFailed => false,
        }
    }

    /// Whether the task was decided to be blocked.
    #[tactic(auto, using(crate::proofs::Branching::ran_not_blocked))]
    fn is_blocked(&self) -> bool
        ensures { result ≡ known_to_be is_blocked_in (value_in self.now) }
    {
        match self {
            Cell::Blocked => true,
            Cell::Undecided | Cell::Skipped | Cell::UpstreamFailed | Cell::Ran(_) => false,
        }
    }
}

/// Whether an upstream is a branch that skips a task in a run.
#[tactic(auto, using(crate::proofs::Branching::known_branch))]
fn branch_skips_task(plan: &Plan, state: &State, run: u32, upstream: u32, task: u32) -> bool
    requires { task < length plan.now.dag.tasks }
    ensures { result ≡ branch_is plan.now.dag (branch_skips plan.now.dag task upstream) upstream
        (value_in (cell_at state.now run upstream)) }
{
    if !plan.dag().is_branch(upstream) {
        return false;
    }
    match state.cell(run, upstream) {
        Some(cell) => cell.skips_task(plan, upstream, task),
        None => false,
    }
}

/// Whether an upstream is a branch that is blocked in a run.
#[tactic(auto, using(crate::proofs::Branching::known_branch))]
fn branch_is_blocked(dag: &Dag, state: &State, run: u32, upstream: u32) -> bool
    ensures { result ≡ branch_is dag.now is_blocked_in upstream
        (value_in (cell_at state.now run upstream)) }
{
    if !dag.is_branch(upstream) {
        return false;
    }
    match state.cell(run, upstream) {
        Some(cell) => cell.is_blocked(),
        None => false,
    }
}

/// Whether one of these upstreams is a branch that skips a task in a run.
fn any_branch_skips(plan: &Plan, state: &State, run: u32, task: u32, upstreams: &[u32]) -> bool
    requires { task < length plan.now.dag.tasks }
    ensures { result ≡ list_any (λ u. branch_is plan.now.dag (branch_skips plan.now.dag task u) u
        (value_in (cell_at state.now run u))) upstreams.now }
{
    upstreams.iter().any(|upstream| branch_skips_task(plan, state, run, *upstream, task))
}

/// Whether one of these upstreams is a branch that is blocked in a run.
fn any_branch_is_blocked(dag: &Dag, state: &State, run: u32, upstreams: &[u32]) -> bool
    ensures { result ≡ list_any (λ u. branch_is dag.now is_blocked_in u
        (value_in (cell_at state.now run u))) upstreams.now }
{
    upstreams
        .iter()
        .any(|upstream| branch_is_blocked(dag, state, run, *upstream))
}

/// What the upstreams of a task say of it: a branch that does not follow it skips it, and a branch that is blocked
/// blocks it; else its rule decides. A task waits for its branches whatever its rule.
pub(crate) fn upstream_verdict(plan: &Plan, state: &State, run: u32, task: u32) -> Verdict
    requires task { task < length plan.now.dag.tasks }
    requires few { AreFew state.now }
    ensures { result ≡ upstream_verdict_of plan.now.dag
        (λ u. seen_in (cell_at state.now run u)) task }
{
    let dag = plan.dag();
    let decided = dag.task(task);
    let upstreams = decided.upstreams.as_slice();
    let counts = counts_of_upstreams(state, run, upstreams);
    if !all_let_decide(dag, state, run, decided, upstreams, &counts) {
        Verdict::Wait
    } else if any_branch_skips(plan, state, run, task, upstreams) {
        Verdict::Skip
    } else if any_branch_is_blocked(dag, state, run, upstreams) {
        Verdict::Blocked
    } else {
        verdict(decided.rule, &counts)
    }
}
