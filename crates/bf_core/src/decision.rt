//! What is decided of a task in a run, and when.
ghost use Rattle.std.specs.Prelude.{◌≡◌, ◌<◌, ◌↔◌, ◌&&◌, length, map, is_some, IsTrue, IfOk, OnOk, IfErr};
ghost use Rattle.bf_core.specs.Terms.{task_of};
ghost use Rattle.bf_core.specs.Events.{cell_at, seen_in, before_in, is_run, fresh, cell_of};
ghost use Rattle.bf_core.specs.Deciding.{after_verdict, task_verdict_of};
ghost use Rattle.bf_core.specs.Few.{AreFew};
ghost use Rattle.bf_core.specs.inner.Checks.{HasRows, RefusedFor, IsUndecidedNow};
ghost use Rattle.bf_core.specs.Cores.{IsThere};

use crate::event::Illegal;
use crate::expansion::decide_instances;
use crate::past::verdict_with_past;
use crate::state::{Cell, Instance, Phase, State};
use crate::upstreams::{is_settled, upstream_verdict};
use bf_plan::{Dag, Plan};
use bf_rule::Verdict;
use bf_value::{OutOfMemory, Sequence};
use bf_xcom::{Given, SharedGiven};
use std::alloc::Global;

/// What is decided of a task in a run.
#[derive(Drop)]
pub enum Decision {
    /// Too little is known of the tasks that it looks at.
    Wait,
    Blocked,
    Skipped,
    UpstreamFailed,
    /// It gets an instance for each of these, by map index.
    Instances(Sequence<Given>),
}

/// A new instance for each of `givens`, in their order. Each waits for its first try.
fn fresh_instances(
    alloc: Global,
    givens: Sequence<Given>,
) -> Result<Sequence<Instance>, OutOfMemory>
    ensures { IfOk result (λ xs. xs ≡ map fresh givens) }
{
    let mut instances = Vec::with_capacity(alloc, givens.len())?;
    for given in givens.into_vec() {
        instances.push(Instance {
            given: SharedGiven::new(alloc, given)?,
            attempt: 1,
            phase: Phase::Waiting,
        })?;
    }
    Ok(Sequence::from_vec(instances))
}

impl Decision {
    /// Whether this is `Wait`: nothing can be decided of the task yet.
    pub(crate) fn waits(&self) -> bool
        ensures { IsTrue result ↔ (self.now ≡ Decision.Wait) }
    {
        matches!(self, Decision::Wait)
    }

    /// The cell that a task gets by this decision: `Undecided` for `Wait`. Its instances, if any, wait for their first
    /// try.
    pub(crate) fn into_cell(self, alloc: Global) -> Result<Cell, OutOfMemory>
        ensures { IfOk result (λ c. c ≡ cell_of self) }
    {
        match self {
            Decision::Wait => Ok(Cell::Undecided),
            Decision::Blocked => Ok(Cell::Blocked),
            Decision::Skipped => Ok(Cell::Skipped),
            Decision::UpstreamFailed => Ok(Cell::UpstreamFailed),
            Decision::Instances(givens) => Ok(Cell::Ran(fresh_instances(alloc, givens)?)),
        }
    }
}

/// Refuses a task that may not be decided: `Stranger` where the run or the task isn't there, `NotEnabled` where the
/// run isn't open or the task is decided.
pub(crate) fn refuse_unless_undecided(
    dag: &Dag,
    state: &State,
    run: u32,
    task: u32,
) -> Result<(), Illegal>
    requires { HasRows dag.now state.now }
    ensures ok { OnOk result (IsThere dag.now state.now run task
        × IsUndecidedNow state.now run task) }
    ensures err { IfErr result (RefusedFor (IsThere dag.now state.now run task)
        (IsUndecidedNow state.now run task)) }
{
    let Some(cell) = state.cell(run, task) else {
        return Err(Illegal::Stranger);
    };
    if !state.is_open(run) || !matches!(cell, Cell::Undecided) {
        return Err(Illegal::NotEnabled);
    }
    Ok(())
}

/// Whether a task is undecided in an open run; false where the run or the task isn't there.
pub(crate) fn is_undecided(dag: &Dag, state: &State, run: u32, task: u32) -> bool
    requires { HasRows dag.now state.now }
    ensures { IsTrue result ↔ (IsThere dag.now state.now run task
        × IsUndecidedNow state.now run task) }
{
    match state.cell(run, task) {
        Some(cell) => state.is_open(run) && matches!(cell, Cell::Undecided),
        None => false,
    }
}

/// The verdict on a task in a run now: what its upstreams say, or where they say to run, what its past says (Airflow's
/// `depends_on_past`).
#[tactic(auto, unfolding(crate::specs::Deciding::task_verdict_of))]
pub(crate) fn task_verdict(plan: &Plan, state: &State, run: u32, task: u32) -> Verdict
    requires task { task < length plan.now.dag.tasks }
    requires few { AreFew state.now }
    ensures { result ≡ task_verdict_of plan.now.dag run (λ u. seen_in (cell_at state.now run u))
        (before_in state.now run task) task }
{
    let depends_on_past = plan.dag().task(task).depends_on_past;
    let verdict = upstream_verdict(plan, state, run, task);
    verdict_with_past(state, run, task, depends_on_past, verdict)
}

/// Whether a task is decided by its expansion: it is expanded over a source, and the verdict is to run.
pub(crate) fn goes_on_to_expansion(dag: &Dag, task: u32, verdict: Verdict) -> bool
    requires { task < length dag.now.tasks }
    ensures { result ≡ (is_some (task_of dag.now task).expand && is_run verdict) }
{
    dag.task(task).expand.is_some() && verdict == Verdict::Run
}

/// Whether `verdict` leaves a task undecided: it is to wait, or to run while the source of the task's expansion isn't
/// settled.
pub(crate) fn decides_to_wait(
    dag: &Dag,
    state: &State,
    run: u32,
    task: u32,
    verdict: Verdict,
) -> bool
    requires { task < length dag.now.tasks }
    ensures { IsTrue result ↔ (after_verdict dag.now (λ u. seen_in (cell_at state.now run u)) task
        verdict ≡ Decision.Wait) }
{
    match verdict {
        Verdict::Wait => true,
        Verdict::Run => match dag.task(task).expand {
            None => false,
            Some(source) => !is_settled(state, run, source),
        },
        Verdict::Blocked | Verdict::Skip | Verdict::UpstreamFailed => false,
    }
}

/// What `verdict`, given by a task's upstreams and its past, decides of the task. Where it is to run, the task gets its
/// instances; an expanded one waits while its source isn't settled, and is upstream_failed where that gives no list, or
/// skipped where the list is empty.
pub(crate) fn decision_after_verdict(
    alloc: Global,
    dag: &Dag,
    state: &State,
    run: u32,
    task: u32,
    verdict: Verdict,
) -> Result<Decision, OutOfMemory>
    requires task { task < length dag.now.tasks }
    requires rows { HasRows dag.now state.now }
    ensures { IfOk result (λ d. d ≡ after_verdict dag.now (λ u. seen_in (cell_at state.now run u))
        task verdict) }
{
    match verdict {
        Verdict::Wait => Ok(Decision::Wait),
        Verdict::Blocked => Ok(Decision::Blocked),
        Verdict::Skip => Ok(Decision::Skipped),
        Verdict::UpstreamFailed => Ok(Decision::UpstreamFailed),
        Verdict::Run => decide_instances(alloc, dag, state, run, dag.task(task)),
    }
}
