//! What came of the tries of an instance.
ghost use Rattle.std.specs.Prelude.{◌≡◌, ◌<◌, ◌≤◌, ◌+◌, ◌++◌, IfOk, OnOk, length};
ghost use Rattle.std.specs.List.{list_any};
ghost use Rattle.bf_core.specs.Terms.{task_of};
ghost use Rattle.bf_why.specs.Tried.{all_failed_text_of, failed_text_of, failings, later_text_of, not_allowed_text_of, skipped_text_of, succeeded_text_of, tried_of};
ghost use Rattle.bf_try.specs.Grades.{gives_items_in, is_source};

use bf_core::is_expanded;
use bf_plan::{Dag, Plan, Task};
use bf_value::{OutOfMemory, Text};
use bf_wording::{add_line, add_line_if, one_line, text_of_number};
use bf_xcom::{Outcome, TaskResult};
use std::alloc::Global;

const BRANCH_FAILS: &str =
    "A branch fails, too, where what it pushes names a task that isn't directly downstream of it.";

const SOURCE_FAILS: &str =
    "It fails, too, where it doesn't push a list of 0 to 1,024 items, since a task is expanded over it.";

const NOT_TOLD: &str =
    "Why a try failed isn't in a report: what its program wrote to standard error says it.";

/// The sentence on an instance that succeeded in try `tries`, from 1, after all tries before it failed.
fn later_text(alloc: Global, tries: u32) -> Result<Text, OutOfMemory>
    ensures { IfOk result (λ text. text ≡ later_text_of tries) }
{
    let before = text_of_number(alloc, u64::from(tries.saturating_sub(1)))?;
    let tries = text_of_number(alloc, u64::from(tries))?;
    let text = format!(in alloc; "Its try {tries} succeeded, behind {before} that failed.")?;
    Ok(Text::new(text))
}

/// The sentence on an instance that succeeded in try `tries`, from 1.
fn succeeded_text(alloc: Global, tries: u32) -> Result<Text, OutOfMemory>
    ensures { IfOk result (λ text. text ≡ succeeded_text_of tries) }
{
    if tries == 1 {
        Text::copy_of(alloc, "Its first try succeeded.")
    } else {
        later_text(alloc, tries)
    }
}

/// The sentence on an instance whose try `tries`, from 1, exited with 99, which skips it.
fn skipped_text(alloc: Global, tries: u32) -> Result<Text, OutOfMemory>
    ensures { IfOk result (λ text. text ≡ skipped_text_of tries) }
{
    let tries = text_of_number(alloc, u64::from(tries))?;
    let text = format!(in alloc; "Its try {tries} exited with 99, which skips it.")?;
    Ok(Text::new(text))
}

/// The sentence on an instance that failed after `tries` tries, all that the graph allows.
fn all_failed_text(alloc: Global, tries: u32) -> Result<Text, OutOfMemory>
    ensures { IfOk result (λ text. text ≡ all_failed_text_of tries) }
{
    if tries == 1 {
        return Text::copy_of(alloc, "Its one try failed.");
    }
    let tries = text_of_number(alloc, u64::from(tries))?;
    Ok(Text::new(format!(in alloc; "All its {tries} tries failed.")?))
}

/// The sentence on an instance that failed after `tries` tries, where the graph allows `most`, another number.
fn not_allowed_text(alloc: Global, tries: u32, most: u32) -> Result<Text, OutOfMemory>
    ensures { IfOk result (λ text. text ≡ not_allowed_text_of tries most) }
{
    let tries = text_of_number(alloc, u64::from(tries))?;
    let most = text_of_number(alloc, u64::from(most))?;
    let text = format!(in alloc; "Its try {tries} failed, and this graph allows {most}.")?;
    Ok(Text::new(text))
}

/// The sentence on an instance that failed after `tries` tries, where the graph allows `most`.
fn failed_text(alloc: Global, tries: u32, most: u32) -> Result<Text, OutOfMemory>
    ensures { IfOk result (λ text. text ≡ failed_text_of tries most) }
{
    if tries == most {
        all_failed_text(alloc, tries)
    } else {
        not_allowed_text(alloc, tries, most)
    }
}

/// Whether `other` is expanded over task number `task`.
fn is_expanded_over(other: &Task, task: u32) -> bool
    ensures { result ≡ is_source other.now.expand task }
{
    match other.expand {
        Some(source) => source == task,
        None => false,
    }
}

/// Whether any task of the graph is expanded over task number `task`.
fn is_source_of_some(dag: &Dag, task: u32) -> bool
    ensures { result ≡ list_any (λ other. is_source other.expand task) dag.now.tasks }
{
    dag.tasks
        .as_slice()
        .iter()
        .any(|other| is_expanded_over(other, task))
}

/// Whether a task has to push a list: it isn't expanded itself, and another task is expanded over it.
fn gives_items(dag: &Dag, task: u32) -> bool
    ensures { result ≡ gives_items_in dag.now task }
{
    !is_expanded(dag, task) && is_source_of_some(dag, task)
}

/// Adds sentences on what else fails a try of this task, where it is a branch or has to push a list, and the sentence
/// that a report doesn't tell why a try failed.
fn add_failings(
    alloc: Global,
    lines: &mut Vec<Text>,
    dag: &Dag,
    task: u32,
) -> Result<(), OutOfMemory>
    ensures { OnOk result (lines.new.items ≡ lines.old.items ++ failings dag.now task) }
{
    add_line_if(alloc, lines, dag.is_branch(task), BRANCH_FAILS)?;
    add_line_if(alloc, lines, gives_items(dag, task), SOURCE_FAILS)?;
    add_line(alloc, lines, NOT_TOLD)?;
    Ok(())
}

/// How many tries the graph allows each instance of a task: its retries and one more.
fn most_tries(plan: &Plan, task: u32) -> u32
    requires { task < length plan.now.dag.tasks }
    ensures { result ≡ (task_of plan.now.dag task).retries + 1 }
{
    plan.dag().task(task).retries + 1
}

/// Sentences on how the tries of an instance of a task went; where it failed, also on what may fail its tries.
pub(crate) fn tried_lines(
    alloc: Global,
    plan: &Plan,
    task: u32,
    ended: &TaskResult,
) -> Result<Vec<Text>, OutOfMemory>
    requires { task < length plan.now.dag.tasks }
    ensures { IfOk result (λ lines. lines.items ≡ tried_of plan.now.dag task ended.now) }
{
    match &ended.outcome {
        Outcome::Success(_) => one_line(alloc, succeeded_text(alloc, ended.tries)?),
        Outcome::Skipped => one_line(alloc, skipped_text(alloc, ended.tries)?),
        Outcome::Failed => {
            let failed = failed_text(alloc, ended.tries, most_tries(plan, task))?;
            let mut lines = one_line(alloc, failed)?;
            add_failings(alloc, &mut lines, plan.dag(), task)?;
            Ok(lines)
        }
    }
}
