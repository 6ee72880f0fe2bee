//! What came of a task in a run, in words.
ghost use Rattle.std.specs.Prelude.{◌≡◌, ◌∷◌, [], IfOk, Some, option_map};
ghost use Rattle.bf_why.specs.Decided.{came_of, came_of_outcome_of, came_to_text_of};
ghost use Rattle.bf_report.specs.declared.report.InstanceReport.{InstanceReport};

use crate::counted::counts_text;
use bf_reason::Settled;
use bf_report::TaskReport;
use bf_rule::Counts;
use bf_value::{OutOfMemory, Text};
use bf_wording::count_text;
use bf_xcom::{Outcome, TaskResult};
use std::alloc::Global;

/// How an instance ended, as the end of a sentence: `was a success`, `failed` or `was skipped`.
fn outcome_text(outcome: &Outcome) -> &'static str
    ensures { result.now ≡ came_of_outcome_of outcome.now }
{
    match outcome {
        Outcome::Success(_) => "was a success",
        Outcome::Failed => "failed",
        Outcome::Skipped => "was skipped",
    }
}

/// How a task that isn't expanded ended, as the end of a sentence, from `results`, its one result. The contract says
/// nothing of other lengths.
fn result_text(results: &[TaskResult]) -> &'static str
    ensures { (instance : InstanceReport) → results.now ≡ instance.result ∷ [] → result.now
        ≡ came_of_outcome_of instance.result.outcome }
{
    match results {
        [ended, ..] => outcome_text(&ended.outcome),
        [] => "had no status",
    }
}

/// How an expanded task ended, as the end of a sentence, such as `came to 3 instances (2 success, 1 failed)`.
fn came_to_text(alloc: Global, instances: usize, counts: &Counts) -> Result<Text, OutOfMemory>
    ensures { IfOk result (λ text. text ≡ came_to_text_of instances counts.now) }
{
    let instances = count_text(alloc, instances as u64, "instance")?;
    let counts = counts_text(alloc, counts)?;
    Ok(Text::new(format!(in alloc; "came to {instances} ({counts})")?))
}

/// How a task ended in a run, as the end of a sentence, such as `was skipped` or `came to 3 instances (3 success)`.
fn settled_came_text(alloc: Global, task: &Settled<'_>) -> Result<Text, OutOfMemory>
    ensures { IfOk result (λ text. text ≡ came_of (Some task.now)) }
{
    match task.task_report() {
        TaskReport::NoStatus => Text::copy_of(alloc, "had no status"),
        TaskReport::Skipped => Text::copy_of(alloc, "was skipped"),
        TaskReport::UpstreamFailed => Text::copy_of(alloc, "was upstream_failed"),
        TaskReport::Ran(_) => Text::copy_of(alloc, result_text(task.results())),
        TaskReport::Mapped(instances) => came_to_text(alloc, instances.len(), &task.counts()),
    }
}

/// How a task ended in a run, as the end of a sentence, such as `was skipped`; it is `had no status` where `task` is
/// None.
pub(crate) fn came_text(alloc: Global, task: Option<&Settled<'_>>) -> Result<Text, OutOfMemory>
    ensures { IfOk result (λ text. text ≡ came_of (option_map (λ t. t.now) task.entry)) }
{
    match task {
        Some(task) => settled_came_text(alloc, task),
        None => Text::copy_of(alloc, "had no status"),
    }
}
