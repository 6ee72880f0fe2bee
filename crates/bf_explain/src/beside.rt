//! The tasks beside a task, with their states.
ghost use Rattle.std.specs.Prelude.{◌≡◌, ◌∷◌, ◌++◌, [], IfOk, OnOk, Some, option_map, string_bytes};
ghost use Rattle.bf_explain.specs.Beside.{instances_text_of, padded_of, state_text_of, task_line_of, task_lines_of, id_width_of};
ghost use Rattle.bf_why.specs.Decided.{id_of};
ghost use Rattle.std.specs.List.{repeat};
ghost use Rattle.bf_report.specs.declared.report.InstanceReport.{InstanceReport};
ghost use Rattle.bf_report.specs.Report.{state_word};

use bf_plan::Plan;
use bf_reason::Settled;
use bf_report::TaskReport;
use bf_rule::Counts;
use bf_value::{OutOfMemory, Text};
use bf_why::counts_text;
use bf_wording::count_text;
use bf_xcom::{Outcome, TaskResult};
use std::alloc::Global;

/// The word for how an instance ended: `success`, `failed` or `skipped`.
pub(crate) fn outcome_word(outcome: &Outcome) -> &'static str
    ensures { result.now ≡ state_word outcome.now }
{
    match outcome {
        Outcome::Success(_) => "success",
        Outcome::Failed => "failed",
        Outcome::Skipped => "skipped",
    }
}

/// The word for the state of a task that isn't expanded, from `results`, its one result. The contract says nothing of
/// other lengths.
fn result_word(results: &[TaskResult]) -> &'static str
    ensures { (instance : InstanceReport) → results.now ≡ instance.result ∷ [] → result.now
        ≡ state_word instance.result.outcome }
{
    match results {
        [ended, ..] => outcome_word(&ended.outcome),
        [] => "no_status",
    }
}

/// How many instances a task has, and how many are in each state, such as `3 instances, 2 success, 1 failed`.
fn instances_text(alloc: Global, instances: usize, counts: &Counts) -> Result<Text, OutOfMemory>
    ensures { IfOk result (λ text. text ≡ instances_text_of instances counts.now) }
{
    let instances = count_text(alloc, instances as u64, "instance")?;
    let counts = counts_text(alloc, counts)?;
    Ok(Text::new(format!(in alloc; "{instances}, {counts}")?))
}

/// The state of a task, such as `skipped`; for an expanded task that ran, its instances by state, such as `3 instances,
/// 2 success, 1 failed`.
fn settled_state_text(alloc: Global, task: &Settled<'_>) -> Result<Text, OutOfMemory>
    ensures { IfOk result (λ text. text ≡ state_text_of (Some task.now)) }
{
    match task.task_report() {
        TaskReport::NoStatus => Text::copy_of(alloc, "no_status"),
        TaskReport::Skipped => Text::copy_of(alloc, "skipped"),
        TaskReport::UpstreamFailed => Text::copy_of(alloc, "upstream_failed"),
        TaskReport::Ran(_) => Text::copy_of(alloc, result_word(task.results())),
        TaskReport::Mapped(instances) => instances_text(alloc, instances.len(), &task.counts()),
    }
}

/// The state of a task, such as `skipped`; for an expanded task that ran, its instances by state, such as `3 instances,
/// 2 success, 1 failed`. It is `no_status` where `task` is None.
pub(crate) fn state_text(alloc: Global, task: Option<&Settled<'_>>) -> Result<Text, OutOfMemory>
    ensures { IfOk result (λ text. text ≡ state_text_of (option_map (λ t. t.now) task.entry)) }
{
    match task {
        Some(task) => settled_state_text(alloc, task),
        None => Text::copy_of(alloc, "no_status"),
    }
}

/// Adds `count` spaces to `text`.
fn push_spaces(text: &mut String, count: usize) -> Result<(), OutOfMemory>
    ensures { OnOk result (string_bytes text.new
        ≡ string_bytes text.old ++ repeat count (32 ∷ [])) }
{
    for _ in 0..count {
        text.push_str(" ")?;
    }
    Ok(())
}

/// An id followed by spaces up to `width` bytes; an id of `width` bytes or more is left as it is.
pub(crate) fn padded(alloc: Global, id: &str, width: usize) -> Result<Text, OutOfMemory>
    ensures { IfOk result (λ text. text ≡ padded_of width id.now) }
{
    let mut text = String::from_str(alloc, id)?;
    push_spaces(&mut text, width.saturating_sub(id.len()))?;
    Ok(Text::new(text))
}

/// The id of task number `task`; empty where the plan has no such task.
fn id_in(plan: &Plan, task: u32) -> &str
    ensures { result.now ≡ id_of plan.now.dag task }
{
    plan.dag().id_of(task)
}

/// The length in bytes of the longest id of these tasks; 0 where there are no tasks.
fn id_width(plan: &Plan, tasks: &[u32]) -> usize
    ensures { result ≡ id_width_of plan.now.dag tasks.now }
{
    let mut width = 0;
    for task in tasks {
        width = width.max(id_in(plan, *task).len());
    }
    width
}

/// The line of a task, without a line feed: its id, padded to `width` bytes, two spaces and its state. `settled` are
/// the tasks of the run.
fn task_line(
    alloc: Global,
    plan: &Plan,
    settled: &[Settled<'_>],
    width: usize,
    task: u32,
) -> Result<Text, OutOfMemory>
    ensures { IfOk result (λ text. text ≡ task_line_of plan.now.dag settled.now width task) }
{
    let id = padded(alloc, id_in(plan, task), width)?;
    let state = state_text(alloc, settled.get(task as usize))?;
    Ok(Text::new(format!(in alloc; "{id}  {state}")?))
}

/// A line for each of these tasks, in order and without a line feed: its id in a column as wide as the longest, and its
/// state. `settled` are the tasks of the run.
pub(crate) fn task_lines(
    alloc: Global,
    plan: &Plan,
    settled: &[Settled<'_>],
    tasks: &[u32],
) -> Result<Vec<Text>, OutOfMemory>
    ensures { IfOk result (λ lines. lines.items
        ≡ task_lines_of plan.now.dag settled.now tasks.now) }
{
    let width = id_width(plan, tasks);
    let mut lines = Vec::with_capacity(alloc, tasks.len())?;
    for task in tasks {
        lines.push(task_line(alloc, plan, settled, width, *task)?)?;
    }
    Ok(lines)
}
