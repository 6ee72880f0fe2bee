//! What its past says of a task, in a sentence.
ghost use Rattle.std.specs.Prelude.{◌≡◌, ◌<◌, ◌++◌, IfOk, IfSome, OnOk, Some, length, option_map};
ghost use Rattle.bf_core.specs.Terms.{task_of};
ghost use Rattle.bf_why.specs.Decided.{past_sentence_of, past_sentences};

use crate::came::came_text;
use bf_moment::Moment;
use bf_plan::Plan;
use bf_reason::Settled;
use bf_report::RunReport;
use bf_value::{OutOfMemory, Text};
use std::alloc::Global;

/// The sentence that a task depends on its past, and how it ended in `before`, the run before. `settled` are that run's
/// tasks.
fn sentence_by_run(
    alloc: Global,
    before: &RunReport,
    settled: &[Settled<'_>],
    task: u32,
) -> Result<Text, OutOfMemory>
    requires { settled.now ≡ before.now.tasks }
    ensures { IfOk result (λ text. text ≡ past_sentence_of (Some before.now) task) }
{
    let start = Moment::new(before.interval.start);
    let came = came_text(alloc, settled.get(task as usize))?;
    let text = format!(in alloc; "It depends on its past, and in the run of {start} it {came}.")?;
    Ok(Text::new(text))
}

/// The sentence that a task depends on its past, and how it ended in `before`, the run before, whose tasks are
/// `settled`. Where that is None, it says that this is the first run.
fn past_sentence(
    alloc: Global,
    before: Option<&RunReport>,
    settled: &[Settled<'_>],
    task: u32,
) -> Result<Text, OutOfMemory>
    requires { IfSome before (λ run. settled.now ≡ run.now.tasks) }
    ensures { IfOk result (λ text. text
        ≡ past_sentence_of (option_map (λ run. run.now) before.entry) task) }
{
    match before {
        Some(before) => sentence_by_run(alloc, before, settled, task),
        None => Text::copy_of(alloc, "It depends on its past, and this is the first run."),
    }
}

/// Whether task number `task` depends on its past, as Airflow's `depends_on_past`.
fn depends_on_past(plan: &Plan, task: u32) -> bool
    requires { task < length plan.now.dag.tasks }
    ensures { result ≡ (task_of plan.now.dag task).depends_on_past }
{
    plan.dag().task(task).depends_on_past
}

/// Adds the sentence on the past of a task that depends on it; adds nothing for any other task. `before` is the run
/// before, None for the first run, and `settled` its tasks.
pub(crate) fn add_past(
    alloc: Global,
    lines: &mut Vec<Text>,
    plan: &Plan,
    before: Option<&RunReport>,
    settled: &[Settled<'_>],
    task: u32,
) -> Result<(), OutOfMemory>
    requires task { task < length plan.now.dag.tasks }
    requires before { IfSome before (λ run. settled.now ≡ run.now.tasks) }
    ensures { OnOk result (lines.new.items ≡ lines.old.items
        ++ past_sentences plan.now.dag (option_map (λ run. run.now) before.entry) task) }
{
    if depends_on_past(plan, task) {
        lines.push(past_sentence(alloc, before, settled, task)?)?;
    }
    Ok(())
}
