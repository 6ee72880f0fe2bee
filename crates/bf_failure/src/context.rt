//! A try as what is told of it says.
ghost use Rattle.std.specs.Prelude.{◌≡◌, ◌⊎◌, None, IfNone, IfSome, option_copied, slice_get};
ghost use Rattle.bf_interval.specs.Intervals.{IsShownInterval};
ghost use Rattle.bf_failure.specs.Tried.{IsContext, IsContextOf};

use bf_interval::{Interval, Runs};
use bf_moment::Moment;
use bf_plan::{Dag, Plan, Task};
use bf_value::JobName;
use bf_words::JobContext;

/// Makes the context of the try of this name: of `task`, in a run with the data interval `run`.
fn context_in<'a>(dag: &'a Dag, task: &'a Task, run: &Interval, name: JobName) -> JobContext<'a>
    requires { IsShownInterval run.now }
    ensures { IsContext dag.entry.now task.entry.now run.now name result }
{
    JobContext {
        data_interval_start: Moment::new(run.start),
        data_interval_end: Moment::new(run.end),
        dag_id: dag.id.as_str(),
        task_id: task.id.as_str(),
        map_index: name.index,
        try_number: name.attempt,
    }
}

/// Gives the data interval of the run with this number, from 0; None where there is no such run.
fn run_at(runs: &Runs, run: u32) -> Option<&Interval>
    ensures run { option_copied result ≡ slice_get runs.now run }
    ensures shown { IfSome result (λ interval. IsShownInterval interval.now) }
{
    runs.intervals().get(run as usize)
}

/// Makes the context of the try of this name; None where the plan has no such task, or there is no such run.
pub fn context_of<'a>(plan: &'a Plan, runs: &Runs, name: JobName) -> Option<JobContext<'a>>
    ensures some { IfSome result (IsContextOf plan.entry.now.dag runs.now name) }
    ensures none { IfNone result ((slice_get plan.entry.now.dag.tasks name.task ≡ None)
        ⊎ (slice_get runs.now name.run ≡ None)) }
{
    let (Some(task), Some(run)) = (
        plan.dag().tasks.get(name.task as usize),
        run_at(runs, name.run),
    ) else {
        return None;
    };
    Some(context_in(plan.dag(), task, run, name))
}
