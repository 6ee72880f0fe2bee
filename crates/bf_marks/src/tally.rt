//! How many instances came to each state.
ghost use Rattle.std.specs.Prelude.{◌≡◌, IfOk, map};
ghost use Rattle.bf_marks.specs.Tallies.{add, instance_tally, is_bad, nothing, one_ended, plus_of, sum, task_tally, run_tally_of, runs_tally, state_tally_of, states_tally, tally_in};

use bf_report::{InstanceReport, RunReport, TaskReport};
use bf_value::OutOfMemory;
use bf_xcom::{Outcome, RunState, TaskResult};

/// How many instances of tasks in runs have each state, where a task that didn't run counts as one instance. `retried`
/// says whether one of them took more than one try.
#[derive(Clone, Copy, Debug, PartialEq, Eq)]
pub struct Tally {
    pub success: u64,
    pub failed: u64,
    pub upstream_failed: u64,
    pub skipped: u64,
    pub no_status: u64,
    pub retried: bool,
}

impl Tally {
    /// The tally of no instances.
    pub fn nothing() -> Tally
        ensures { result ≡ nothing }
    {
        Tally {
            success: 0,
            failed: 0,
            upstream_failed: 0,
            skipped: 0,
            no_status: 0,
            retried: false,
        }
    }

    /// The tally of one instance that ended with this result.
    fn of_ended(instance: &TaskResult) -> Tally
        ensures { result ≡ one_ended instance.now.outcome instance.now.tries }
    {
        let retried = instance.tries > 1;
        let nothing = Tally::nothing();
        match instance.outcome {
            Outcome::Success(_) => Tally {
                success: 1,
                retried,
                ..nothing
            },
            Outcome::Failed => Tally {
                failed: 1,
                retried,
                ..nothing
            },
            Outcome::Skipped => Tally {
                skipped: 1,
                retried,
                ..nothing
            },
        }
    }

    /// The sums of both tallies; a count that would exceed 2^64 - 1 stays at that.
    pub fn plus(self, other: Tally) -> Tally
        ensures { result ≡ add self other }
    {
        Tally {
            success: self.success.saturating_add(other.success),
            failed: self.failed.saturating_add(other.failed),
            upstream_failed: self.upstream_failed.saturating_add(other.upstream_failed),
            skipped: self.skipped.saturating_add(other.skipped),
            no_status: self.no_status.saturating_add(other.no_status),
            retried: self.retried || other.retried,
        }
    }

    /// Whether an instance failed, is upstream_failed or has no status.
    pub fn is_bad(self) -> bool
        ensures { result ≡ is_bad self }
    {
        self.failed > 0 || self.upstream_failed > 0 || self.no_status > 0
    }
}

/// The tally of one instance of a report.
fn tally_of_instance(instance: &InstanceReport) -> Result<Tally, OutOfMemory>
    ensures { IfOk result (λ tally. tally ≡ instance_tally instance.now) }
{
    let ended = instance.result()?;
    Ok(Tally::of_ended(&ended))
}

/// The tally of these instances of a report.
fn tally_of_instances(instances: &[InstanceReport]) -> Result<Tally, OutOfMemory>
    ensures { IfOk result (λ tally. tally ≡ sum (map instance_tally instances.now)) }
{
    let mut tally = Tally::nothing();
    for instance in instances {
        tally = tally.plus(tally_of_instance(instance)?);
    }
    Ok(tally)
}

/// The tally of a task in a run: over its instances where it ran, else of its state, counted as one instance.
fn tally_of_task(task: &TaskReport) -> Result<Tally, OutOfMemory>
    ensures { IfOk result (λ tally. tally ≡ task_tally task.now) }
{
    let nothing = Tally::nothing();
    match task {
        TaskReport::NoStatus => Ok(Tally {
            no_status: 1,
            ..nothing
        }),
        TaskReport::Skipped => Ok(Tally {
            skipped: 1,
            ..nothing
        }),
        TaskReport::UpstreamFailed => Ok(Tally {
            upstream_failed: 1,
            ..nothing
        }),
        TaskReport::Ran(instance) => tally_of_instance(instance),
        TaskReport::Mapped(instances) => tally_of_instances(instances.as_slice()),
    }
}

/// The tally of task number `task` in a run; one no_status where the run has no such task.
pub fn tally_at(run: &RunReport, task: u32) -> Result<Tally, OutOfMemory>
    ensures { IfOk result (λ tally. tally ≡ tally_in task run.now) }
{
    match run.tasks.get(task as usize) {
        Some(task) => tally_of_task(task),
        None => Ok(Tally {
            no_status: 1,
            ..Tally::nothing()
        }),
    }
}

/// The tally of task number `task` over all these runs; a run without such a task counts as one no_status.
pub fn tally_in(runs: &[&RunReport], task: u32) -> Result<Tally, OutOfMemory>
    ensures { IfOk result (λ tally. tally ≡ runs_tally task (map (λ run. run.now) runs.now)) }
{
    let mut tally = Tally::nothing();
    for run in runs {
        tally = tally.plus(tally_at(run, task)?);
    }
    Ok(tally)
}

/// The tally of one run, counted by its own state.
fn state_tally(state: RunState) -> Tally
    ensures { result ≡ state_tally_of state }
{
    let nothing = Tally::nothing();
    match state {
        RunState::Success => Tally {
            success: 1,
            ..nothing
        },
        RunState::Failed => Tally {
            failed: 1,
            ..nothing
        },
    }
}

/// The tally of these runs, counted by their own states.
pub fn tally_of_run_states(runs: &[RunReport]) -> Tally
    ensures { result ≡ states_tally runs.now }
{
    let mut tally = Tally::nothing();
    for run in runs {
        tally = tally.plus(state_tally(run.state));
    }
    tally
}

/// The tally of these runs, those that a grid shows, counted by their own states.
pub fn tally_of_shown_states(runs: &[&RunReport]) -> Tally
    ensures { result ≡ states_tally (map (λ run. run.now) runs.now) }
{
    let mut tally = Tally::nothing();
    for run in runs {
        tally = tally.plus(state_tally(run.state));
    }
    tally
}

/// The tally of all tasks in a run.
pub fn run_tally(run: &RunReport) -> Result<Tally, OutOfMemory>
    ensures { IfOk result (λ tally. tally ≡ run_tally_of run.now) }
{
    let mut tally = Tally::nothing();
    for task in run.tasks.as_slice() {
        tally = tally.plus(tally_of_task(task)?);
    }
    Ok(tally)
}
