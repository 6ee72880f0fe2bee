//! Why a run has its state.
ghost use Rattle.std.specs.Prelude.{◌≡◌, ◌&&◌, IfOk};
ghost use Rattle.std.specs.List.{list_any};
ghost use Rattle.bf_core.specs.Deciding.{is_blocked_in};
ghost use Rattle.bf_explain.specs.Runs.{is_or_are_of, blocked_sentence_of, foreign_run_of, ids_of, is_last_in, is_upstream_in, last_sentence_of, run_why_of, run_why_lines_of};
ghost use Rattle.bf_reason.specs.Settled.{value_among};
ghost use Rattle.bf_why.specs.Since.{failures, has_instance_of};

use bf_plan::{Dag, Plan, Task};
use bf_reason::{Settled, is_blocked};
use bf_value::{OutOfMemory, Text};
use bf_why::{States, add_id_if, has_instance_in, no_status_text};
use bf_wording::{add_lines, add_moved_line, name_list, one_line};
use bf_xcom::RunState;
use std::alloc::Global;

/// Whether task number `task` is directly upstream of `other`.
pub(crate) fn is_upstream_of(task: u32, other: &Task) -> bool
    ensures { result ≡ is_upstream_in task other.now }
{
    other.upstreams.as_slice().contains(&task)
}

/// Whether any task of the graph is directly downstream of task number `task`.
fn has_downstream(dag: &Dag, task: u32) -> bool
    ensures { result ≡ list_any (is_upstream_in task) dag.now.tasks }
{
    dag.tasks
        .as_slice()
        .iter()
        .any(|other| is_upstream_of(task, other))
}

/// Whether no task follows `task`, and an instance of it is failed or upstream_failed. `settled` are the tasks of the
/// run.
fn is_last_failed(plan: &Plan, settled: &[Settled<'_>], task: u32) -> bool
    ensures { result ≡ (is_last_in plan.now.dag task && has_instance_of settled.now failures task) }
{
    has_instance_in(settled, States::FAILURES, task) && !has_downstream(plan.dag(), task)
}

/// The ids of the tasks in `order` that no task follows and that have an instance failed or upstream_failed, in that
/// order. `settled` are the tasks of the run.
fn last_failed_ids(
    alloc: Global,
    plan: &Plan,
    settled: &[Settled<'_>],
    order: &[u32],
) -> Result<Vec<Text>, OutOfMemory>
    ensures { IfOk result (λ ids. ids.items ≡ ids_of plan.now.dag
        (λ task. is_last_in plan.now.dag task && has_instance_of settled.now failures task)
        order.now) }
{
    let mut ids = Vec::new(alloc);
    for task in order {
        let holds = is_last_failed(plan, settled, *task);
        add_id_if(alloc, &mut ids, plan, *task, holds)?;
    }
    Ok(ids)
}

/// The ids of the tasks in `order` that have no status, in that order. `settled` are the tasks of the run.
fn ids_without_status(
    alloc: Global,
    plan: &Plan,
    settled: &[Settled<'_>],
    order: &[u32],
) -> Result<Vec<Text>, OutOfMemory>
    ensures { IfOk result (λ ids. ids.items ≡ ids_of plan.now.dag
        (λ task. is_blocked_in (value_among settled.now task)) order.now) }
{
    let mut ids = Vec::new(alloc);
    for task in order {
        let holds = is_blocked(settled, *task);
        add_id_if(alloc, &mut ids, plan, *task, holds)?;
    }
    Ok(ids)
}

/// `is` for a count of 1, `are` for any other.
fn is_or_are(count: usize) -> &'static str
    ensures { result.now ≡ is_or_are_of count }
{
    if count == 1 { "is" } else { "are" }
}

/// The one sentence that the tasks of these names, which no task follows, are failed or upstream_failed. Empty where
/// there are no names.
fn last_sentence(alloc: Global, names: &[Text]) -> Result<Vec<Text>, OutOfMemory>
    ensures { IfOk result (λ lines. lines.items ≡ last_sentence_of names.now) }
{
    if names.is_empty() {
        return Ok(Vec::new(alloc));
    }
    let listed = name_list(alloc, names)?;
    let are = is_or_are(names.len());
    let text = format!(in alloc;
        "{listed}, which no task follows, {are} failed or upstream_failed."
    )?;
    one_line(alloc, Text::new(text))
}

/// The one sentence that the tasks of these names have no status. Empty where there are no names.
fn blocked_sentence(alloc: Global, names: &[Text]) -> Result<Vec<Text>, OutOfMemory>
    ensures { IfOk result (λ lines. lines.items ≡ blocked_sentence_of names.now) }
{
    if names.is_empty() {
        return Ok(Vec::new(alloc));
    }
    one_line(alloc, no_status_text(alloc, names)?)
}

/// Two sentences where a run's state isn't what its tasks make it by this graph, which is failed where `fails`: that it
/// doesn't follow, and what would. Empty where it is.
fn foreign_run(alloc: Global, state: RunState, fails: bool) -> Result<Vec<Text>, OutOfMemory>
    ensures { IfOk result (λ lines. lines.items ≡ foreign_run_of state fails) }
{
    let would_be = match (state, fails) {
        (RunState::Success, true) => "By this graph it would be failed:",
        (RunState::Failed, false) => "By this graph it would be success:",
        (RunState::Success, false) | (RunState::Failed, true) => return Ok(Vec::new(alloc)),
    };
    let first = Text::copy_of(alloc, "What the report has doesn't follow from this graph.")?;
    let mut lines = one_line(alloc, first)?;
    add_moved_line(&mut lines, Text::copy_of(alloc, would_be)?)?;
    Ok(lines)
}

/// Sentences on why a run has this state. `last` are the ids of the failed or upstream_failed tasks that no task
/// follows, `blocked` the ids of the tasks without a status; where both are empty, one sentence says so.
fn run_why(
    alloc: Global,
    state: RunState,
    last: &[Text],
    blocked: &[Text],
) -> Result<Vec<Text>, OutOfMemory>
    ensures { IfOk result (λ lines. lines.items ≡ run_why_of state last.now blocked.now) }
{
    if last.is_empty() && blocked.is_empty() {
        let mut lines = foreign_run(alloc, state, false)?;
        let text = Text::copy_of(
            alloc,
            "None of the tasks that no task follows is failed or upstream_failed, and every task has a status.",
        )?;
        add_moved_line(&mut lines, text)?;
        return Ok(lines);
    }
    let mut lines = foreign_run(alloc, state, true)?;
    add_lines(&mut lines, last_sentence(alloc, last)?)?;
    add_lines(&mut lines, blocked_sentence(alloc, blocked)?)?;
    Ok(lines)
}

/// Sentences on why a run has this state, which name tasks in the order of `order`. `settled` are the run's tasks.
pub(crate) fn run_why_lines(
    alloc: Global,
    plan: &Plan,
    state: RunState,
    settled: &[Settled<'_>],
    order: &[u32],
) -> Result<Vec<Text>, OutOfMemory>
    ensures { IfOk result (λ lines. lines.items
        ≡ run_why_lines_of plan.now.dag state settled.now order.now) }
{
    let last = last_failed_ids(alloc, plan, settled, order)?;
    let blocked = ids_without_status(alloc, plan, settled, order)?;
    run_why(alloc, state, last.as_slice(), blocked.as_slice())
}
