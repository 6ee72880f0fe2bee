//! Why a task has its state in a run, in sentences.
ghost use Rattle.std.specs.Prelude.{◌≡◌, ◌<◌, ◌++◌, IfOk, IfSome, is_some, length, option_map, slice_get};
ghost use Rattle.bf_core.specs.Terms.{task_of};
ghost use Rattle.bf_core.specs.Deciding.{counts_of_results_of};
ghost use Rattle.bf_why.specs.Why.{came_line_of, came_to_lines_of, ended_of, tried_if_there, why_of};

use crate::counted::counts_text;
use crate::decided::decided_lines;
use crate::foreign::add_foreign;
use crate::tried::tried_lines;
use bf_core::is_expanded;
use bf_plan::Plan;
use bf_reason::{Settled, StateCause};
use bf_report::{RunReport, TaskReport};
use bf_rule::Counts;
use bf_value::{OutOfMemory, Text};
use bf_wording::{add_lines, count_text, one_line};
use bf_xcom::TaskResult;
use std::alloc::Global;

/// The sentence on how an expanded task ended, such as `It came to 3 instances: 2 success, 1 failed.`
fn came_line(alloc: Global, instances: usize, counts: &Counts) -> Result<Text, OutOfMemory>
    ensures { IfOk result (λ text. text ≡ came_line_of instances counts.now) }
{
    let instances = count_text(alloc, instances as u64, "instance")?;
    let counts = counts_text(alloc, counts)?;
    Ok(Text::new(format!(in alloc; "It came to {instances}: {counts}.")?))
}

/// Sentences on how the tries of the instance of map index `index` went. Empty where there is no such instance.
fn tried_lines_at(
    alloc: Global,
    plan: &Plan,
    task: u32,
    results: &[TaskResult],
    index: usize,
) -> Result<Vec<Text>, OutOfMemory>
    requires { task < length plan.now.dag.tasks }
    ensures { IfOk result (λ lines. lines.items
        ≡ tried_if_there plan.now.dag task (slice_get results.now index)) }
{
    match results.get(index) {
        Some(ended) => tried_lines(alloc, plan, task, ended),
        None => Ok(Vec::new(alloc)),
    }
}

/// One sentence on how all instances of an expanded task ended; where `index` is given, sentences on how the tries of
/// that instance went, empty where there is no such instance.
fn expanded_lines(
    alloc: Global,
    plan: &Plan,
    task: u32,
    results: &[TaskResult],
    counts: &Counts,
    index: Option<usize>,
) -> Result<Vec<Text>, OutOfMemory>
    requires task { task < length plan.now.dag.tasks }
    requires counted { counts.now ≡ counts_of_results_of results.now }
    ensures { IfOk result (λ lines. lines.items
        ≡ came_to_lines_of plan.now.dag task results.now index) }
{
    match index {
        Some(index) => tried_lines_at(alloc, plan, task, results, index),
        None => one_line(alloc, came_line(alloc, results.len(), counts)?),
    }
}

/// Sentences on how task number `task` ended or, where `index` is given and it ran expanded, on its instance of that
/// map index. Empty where by `told`, its report, it didn't run or has no such instance.
fn ended_lines(
    alloc: Global,
    plan: &Plan,
    task: u32,
    told: &Settled<'_>,
    index: Option<usize>,
) -> Result<Vec<Text>, OutOfMemory>
    requires { task < length plan.now.dag.tasks }
    ensures { IfOk result (λ lines. lines.items ≡ ended_of plan.now.dag task told.now index) }
{
    match (told.task_report(), told.results()) {
        (TaskReport::Ran(_), [ended, ..]) => tried_lines(alloc, plan, task, ended),
        (TaskReport::Mapped(_), results) => {
            expanded_lines(alloc, plan, task, results, &told.counts(), index)
        }
        _ => Ok(Vec::new(alloc)),
    }
}

/// Whether task number `task` is expanded.
fn is_expanded_in(plan: &Plan, task: u32) -> bool
    ensures { result ≡ is_some (task_of plan.now.dag task).expand }
{
    is_expanded(plan.dag(), task)
}

/// Sentences on why a task, or its instance of map index `index`, has its state: how the graph decides it for this
/// cause, and how its tries went. `settled` are the tasks of the run, `told` is the task; `before` is the run before,
/// None for the first run, and `settled_before` its tasks.
pub fn why_lines(
    alloc: Global,
    plan: &Plan,
    settled: &[Settled<'_>],
    before: Option<&RunReport>,
    settled_before: &[Settled<'_>],
    task: u32,
    cause: StateCause,
    told: &Settled<'_>,
    index: Option<usize>,
) -> Result<Vec<Text>, OutOfMemory>
    requires task { task < length plan.now.dag.tasks }
    requires before { IfSome before (λ run. settled_before.now ≡ run.now.tasks) }
    ensures { IfOk result (λ lines. lines.items ≡ why_of plan.now.dag settled.now
        (option_map (λ run. run.now) before.entry) task cause told.now index) }
{
    let mut lines = Vec::new(alloc);
    add_foreign(alloc, &mut lines, is_expanded_in(plan, task), cause, told)?;
    let decided = decided_lines(alloc, plan, settled, before, settled_before, task, cause)?;
    add_lines(&mut lines, decided)?;
    add_lines(&mut lines, ended_lines(alloc, plan, task, told, index)?)?;
    Ok(lines)
}
