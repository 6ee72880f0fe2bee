//! What the previous run says of a task that depends on its past.
ghost use Rattle.std.specs.Prelude.{◌≡◌};
ghost use Rattle.std.specs.List.{list_all};
ghost use Rattle.bf_core.specs.Events.{value_in, cell_at, before_in};
ghost use Rattle.bf_core.specs.Deciding.{past_verdict_of, past_after};
ghost use Rattle.bf_core.specs.inner.Words.{passed, ran_ruling};

use crate::state::{Cell, Instance, Phase, State, are_finished};
use bf_rule::Verdict;
use bf_try::Outcome;

impl Phase {
    /// Whether the instance is finished and didn't fail.
    fn has_passed(&self) -> bool
        ensures { result ≡ passed self.now }
    {
        match self {
            Phase::Finished(outcome) => !matches!(outcome, Outcome::Failed),
            Phase::Waiting | Phase::Running => false,
        }
    }
}

/// Whether each instance is finished and didn't fail, so that the next run may go on (`depends_on_past`).
fn have_passed(instances: &[Instance]) -> bool
    ensures { result ≡ list_all (λ x. passed x.phase) instances.now }
{
    instances.iter().all(|instance| instance.phase.has_passed())
}

/// The verdict on a task that depends on its past, by its instances in the run before: to wait while one hasn't
/// finished, to run where none failed, else blocked.
fn past_verdict_of_instances(instances: &[Instance]) -> Verdict
    ensures { result ≡ ran_ruling instances.now }
{
    if !are_finished(instances) {
        Verdict::Wait
    } else if have_passed(instances) {
        Verdict::Run
    } else {
        Verdict::Blocked
    }
}

impl Cell {
    /// The verdict on a task that depends on its past, by its cell in the run before: to wait while that isn't
    /// settled, to run where the task was skipped or ran without a failure, else blocked.
    #[tactic(auto, using(crate::proofs::Sums::past_ran))]
    fn past_verdict(&self) -> Verdict
        ensures { result ≡ past_verdict_of (value_in self.now) }
    {
        match self {
            Cell::Undecided => Verdict::Wait,
            Cell::Blocked | Cell::UpstreamFailed => Verdict::Blocked,
            Cell::Skipped => Verdict::Run,
            Cell::Ran(instances) => past_verdict_of_instances(instances.as_slice()),
        }
    }
}

/// The verdict on a task that depends on its past, in the run after `run`, by its cell in `run`; to wait where `run` or
/// the task isn't there.
fn past_verdict(state: &State, run: u32, task: u32) -> Verdict
    ensures { result ≡ past_verdict_of (value_in (cell_at state.now run task)) }
{
    match state.cell(run, task) {
        Some(cell) => cell.past_verdict(),
        None => Verdict::Wait,
    }
}

/// The verdict on a task with its past (Airflow's `depends_on_past`): that of the run before where `verdict`, which its
/// upstreams give, is to run, the task depends on its past and `run` isn't the first; else `verdict`.
pub(crate) fn verdict_with_past(
    state: &State,
    run: u32,
    task: u32,
    depends_on_past: bool,
    verdict: Verdict,
) -> Verdict
    ensures { result ≡ past_after depends_on_past run (before_in state.now run task) verdict }
{
    if verdict == Verdict::Run && depends_on_past && run > 0 {
        past_verdict(state, run - 1, task)
    } else {
        verdict
    }
}
