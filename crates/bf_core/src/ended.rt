//! Backfills that have ended, and the states of their runs.
ghost use Rattle.std.specs.Prelude.{◌≡◌, ◌<◌, ◌↔◌, length, slice_index_or, ℕ, vec_len, IsTrue, IfOk, IfErr, OnOk};
ghost use Rattle.std.specs.List.{list_any, list_all};
ghost use Rattle.bf_core.specs.Recursion.{is_leaf_in, fails_run, run_fails_in, run_state_of};
ghost use Rattle.bf_core.specs.Events.{value_in, row_of, HasEnded};
ghost use Rattle.bf_core.specs.inner.Events.{is_closed, value_or_blocked};
ghost use Rattle.bf_core.specs.inner.Words.{is_failed_instance, instances_fail};
ghost use Rattle.bf_core.specs.Endings.{IsEnd, ending_of};
ghost use Rattle.bf_core.specs.inner.Checks.{AreStatesOf};
ghost use Rattle.bf_core.specs.declared.state.Cell.{Cell};

use crate::event::Event;
use crate::machine::Core;
use crate::state::{Cell, Instance, Phase, Run, State, are_finished};
use bf_plan::Plan;
use bf_try::Outcome;
use bf_value::Sequence;
use bf_xcom::RunState;
use std::marker::Model;

/// A backfill of a plan whose runs are all closed: its cells and the ledger of its tries, the state of each run in
/// order of date, and the events that led to it. Its cells and the states of its runs are the recursion's over its
/// ledger, which holds exactly the tries that the recursion asks for. Its journal is legal, and no pool ever had more
/// slots occupied than its size.
#[derive(Drop)]
pub struct Ended<'p> {
    pub(crate) plan: &'p Plan,
    pub(crate) runs: u32,
    pub(crate) state: State,
    pub(crate) run_states: Sequence<RunState>,
    pub(crate) journal: Sequence<Event>,
}

impl<'p> Model for Ended<'p> {
    ghost use Rattle.bf_core.specs.Endings.{Ending, IsEnd};
    ghost use Rattle.bf_plan.specs.contracts.plan.Dag;
    ghost use Rattle.bf_plan.specs.contracts.plan.Limits;
    ghost use Rattle.bf_xcom.specs.contracts.values.RunState;
    ghost use Rattle.bf_core.specs.contracts.state.State;
    ghost use Rattle.bf_core.specs.contracts.event.Event;
    ghost use Rattle.std.specs.Coded.{codes};

    ghost Value = { Ending };

    ghost coded = { Prim.hlevel (
      codes,
      Dag.the_row.coded,
      Limits.the_row.coded,
      RunState.the_row.coded,
      State.the_row.coded,
      Event.the_row.coded,
    ) };

    ghost view = { λ e. record {
      dag = e.plan.now.dag;
      limits = e.plan.now.limits;
      runs = e.runs;
      state = e.state;
      run_states = e.run_states;
      journal = e.journal;
    } };

    ghost invariant = { λ e. IsEnd (record {
      dag = e.plan.now.dag;
      limits = e.plan.now.limits;
      runs = e.runs;
      state = e.state;
      run_states = e.run_states;
      journal = e.journal;
    }) };
}

impl<'p> Ended<'p> {
    /// The plan that was run.
    pub fn plan(&self) -> &'p Plan
        ensures dag { result.now.dag ≡ self.now.dag }
        ensures limits { result.now.limits ≡ self.now.limits }
    {
        self.plan
    }

    /// The cells of all runs, and the ledger.
    pub fn state(&self) -> &State
        ensures state { result.now ≡ self.now.state }
        ensures end { IsEnd self.now }
    {
        &self.state
    }

    /// The state of each run, in order of date.
    pub fn run_states(&self) -> &[RunState]
        ensures run_states { result.now ≡ self.now.run_states }
        ensures end { IsEnd self.now }
    {
        self.run_states.as_slice()
    }

    /// The cells of all runs with the ledger, and the state of each run, in order of date. The journal, most of what
    /// the end holds, is let go.
    pub fn into_state(self) -> (State, Sequence<RunState>)
        ensures state { result.0 ≡ self.entry.state }
        ensures run_states { result.1 ≡ self.entry.run_states }
        ensures end { IsEnd self.entry }
    {
        let Ended {
            plan: _,
            runs: _,
            state,
            run_states,
            journal: _,
        } = self;
        (state, run_states)
    }

    /// The events that led to the end.
    pub fn journal(&self) -> &[Event]
        ensures journal { result.now ≡ self.now.journal }
        ensures end { IsEnd self.now }
    {
        self.journal.as_slice()
    }
}

/// Whether a task is a leaf: no task has it as an upstream.
#[tactic(auto, using(crate::proofs::Leaves::no_downstreams, crate::proofs::Leaves::has_edges))]
fn is_leaf(plan: &Plan, task: u32) -> bool
    requires { task < length plan.now.dag.tasks }
    ensures { result ≡ is_leaf_in plan.now.dag task }
{
    plan.graph().downstreams(task).is_empty()
}

/// Whether an instance is finished and has failed.
fn has_failed(instance: &Instance) -> bool
    ensures { result ≡ is_failed_instance instance.now }
{
    match &instance.phase {
        Phase::Finished(outcome) => matches!(outcome, Outcome::Failed),
        Phase::Waiting | Phase::Running => false,
    }
}

/// Whether one of a task's instances has failed.
fn any_failed(instances: &[Instance]) -> bool
    ensures { result ≡ list_any (λ x. is_failed_instance x) instances.now }
{
    instances.iter().any(|instance| has_failed(instance))
}

/// Whether a task with this cell makes its run fail once that is closed: it is blocked or not settled, or it is a leaf
/// that failed or is upstream_failed.
#[tactic(auto, using(crate::proofs::Closing::ran_fails))]
fn fails_its_run(plan: &Plan, task: u32, cell: &Cell) -> bool
    requires { task < length plan.now.dag.tasks }
    ensures { result ≡ fails_run (is_leaf_in plan.now.dag task)
        (value_or_blocked (value_in cell.now)) }
{
    match cell {
        Cell::Undecided | Cell::Blocked => true,
        Cell::Skipped => false,
        Cell::UpstreamFailed => is_leaf(plan, task),
        Cell::Ran(instances) => instances_fail_run(plan, task, instances.as_slice()),
    }
}

/// Whether the instances of a task make its run fail once that is closed: one isn't finished, or one failed and the
/// task is a leaf.
fn instances_fail_run(plan: &Plan, task: u32, instances: &[Instance]) -> bool
    requires { task < length plan.now.dag.tasks }
    ensures { result ≡ instances_fail (is_leaf_in plan.now.dag task) instances.now }
{
    !are_finished(instances) || (any_failed(instances) && is_leaf(plan, task))
}

/// Whether a run with these cells, one for each task in file order, fails once it is closed: a task is blocked or not
/// settled, or is a leaf that failed or is upstream_failed.
fn run_fails(plan: &Plan, cells: &[Cell]) -> bool
    requires { length cells.now ≡ length plan.now.dag.tasks }
    ensures { result ≡ run_fails_in plan.now.dag
        (λ t. value_or_blocked (value_in (slice_index_or cells.now t Cell.Undecided))) }
{
    let _sound = plan.dag();
    for task in 0..cells.len() {
        if fails_its_run(plan, task as u32, &cells[task]) {
            return true;
        }
    }
    false
}

/// The state of a run once it is closed, by the cell of each task in file order: failed where `run_fails`, else
/// success.
fn run_state(plan: &Plan, cells: &[Cell]) -> RunState
    requires { length cells.now ≡ length plan.now.dag.tasks }
    ensures { result ≡ run_state_of plan.now.dag
        (λ t. value_or_blocked (value_in (slice_index_or cells.now t Cell.Undecided))) }
{
    if run_fails(plan, cells) {
        RunState::Failed
    } else {
        RunState::Success
    }
}

/// Whether all runs are closed.
fn are_closed(runs: &[Run]) -> bool
    ensures { result ≡ list_all (λ r. is_closed r.phase) runs.now }
{
    runs.iter().all(|run| run.phase.is_closed())
}

/// Writes the state that each run has once it is closed to its place in `states`, which has one place for each run.
fn write_states(plan: &Plan, runs: &[Run], states: &mut Vec<RunState>)
    requires rows { (k : ℕ) → k < length runs.now → length (row_of runs.now k).cells
        ≡ length plan.now.dag.tasks }
    requires room { vec_len states.old ≡ length runs.now }
    ensures { AreStatesOf plan.now.dag runs.now states.new.items }
{
    for run in 0..runs.len() {
        states[run] = run_state(plan, runs[run].cells.as_slice());
    }
}

impl<'a> Core<'a> {
    /// Whether every run is closed.
    pub fn is_ended(&self) -> bool
        ensures { IsTrue result ↔ HasEnded self.now.state }
    {
        are_closed(self.state.runs.as_slice())
    }

    /// Answers what the backfill came to. `Err` hands the core back as it was, where a run isn't closed.
    pub fn into_ended(self) -> Result<Ended<'a>, Core<'a>>
        ensures ok { IfOk result (λ ended. ended ≡ ending_of self.entry ended.run_states) }
        ensures closed { OnOk result (HasEnded self.entry.state) }
        ensures back { IfErr result (λ core. (core ≡ self.entry) × ¬ (HasEnded self.entry.state)) }
    {
        if !self.is_ended() {
            return Err(self);
        }
        let Core {
            alloc: _,
            plan,
            runs,
            pools: _,
            state,
            clock: _,
            opened_runs: _,
            active_runs: _,
            mut run_states,
            journal,
        } = self;
        write_states(plan, state.runs.as_slice(), &mut run_states);
        Ok(Ended {
            plan,
            runs,
            state,
            run_states: Sequence::from_vec(run_states),
            journal: Sequence::from_vec(journal),
        })
    }
}
