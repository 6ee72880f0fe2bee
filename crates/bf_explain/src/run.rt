//! A run: why it has its state, and what came of its tasks.
ghost use Rattle.std.specs.Prelude.{◌≡◌, ◌≤◌, ◌++◌, All, IfOk, OnOk, codes, length, string_bytes};
ghost use Rattle.bf_explain.specs.Beside.{task_lines_of};
ghost use Rattle.bf_explain.specs.Runs.{counts_lines_of, failed_tasks_of, is_not_tried_in, run_heading_of, run_lines_of, run_text, tasks_not_tried_of};
ghost use Rattle.bf_explain.specs.Sections.{section};
ghost use Rattle.bf_reason.specs.Settled.{IsFewTask, value_among};

use crate::beside::task_lines;
use crate::run_why::run_why_lines;
use crate::sections::{add_section, lines_text};
use bf_moment::Moment;
use bf_plan::Plan;
use bf_reason::{Settled, counts_of_tasks, settled_tasks};
use bf_report::{RunReport, run_state_word};
use bf_value::{OutOfMemory, Text};
use bf_why::{States, counts_text, has_instance_in};
use bf_wording::one_line;
use bf_xcom::TaskValue;
use std::alloc::{AllocError, Global};

/// The heading of a run, without a line feed, such as `run 2024-03-05T00:00:00Z to 2024-03-06T00:00:00Z: failed`: its
/// data interval and its state.
fn run_heading(alloc: Global, run: &RunReport) -> Result<Text, OutOfMemory>
    ensures { IfOk result (λ text. text ≡ run_heading_of run.now) }
{
    let start = Moment::new(run.interval.start);
    let end = Moment::new(run.interval.end);
    let state = run_state_word(run.state);
    Ok(Text::new(format!(in alloc; "run {start} to {end}: {state}")?))
}

/// One line with how many instances of the tasks in `order` are in each state, such as `2 success, 1 failed`. Empty
/// where `order` is empty. `settled` are the tasks of the run.
fn counts_lines(
    alloc: Global,
    settled: &[Settled<'_>],
    order: &[u32],
) -> Result<Vec<Text>, OutOfMemory>
    requires { length order.now ≤ 20_000 }
    ensures { IfOk result (λ lines. lines.items ≡ counts_lines_of settled.now order.now) }
{
    if order.is_empty() {
        return Ok(Vec::new(alloc));
    }
    let counts = counts_of_tasks(settled, order);
    one_line(alloc, counts_text(alloc, &counts)?)
}

/// The tasks in `order` that have a failed instance, in that order; upstream_failed doesn't count. `settled` are the
/// tasks of the run.
fn failed_tasks(
    alloc: Global,
    settled: &[Settled<'_>],
    order: &[u32],
) -> Result<Vec<u32>, AllocError>
    ensures { IfOk result (λ found. found.items ≡ failed_tasks_of settled.now order.now) }
{
    let failed = States {
        upstream_failed: false,
        ..States::FAILURES
    };
    order
        .iter()
        .copied()
        .filter(|task| has_instance_in(settled, failed, *task))
        .collect(alloc)
}

/// Whether task number `task` is upstream_failed or has no status; true where `settled`, the tasks of the run, lacks
/// it.
fn is_not_tried(settled: &[Settled<'_>], task: u32) -> bool
    ensures { result ≡ is_not_tried_in (value_among settled.now task) }
{
    match settled.get(task as usize) {
        Some(task) => matches!(task.value(), TaskValue::UpstreamFailed | TaskValue::Blocked),
        None => true,
    }
}

/// The tasks in `order` that are upstream_failed or have no status, in that order. `settled` are the tasks of the run.
fn tasks_not_tried(
    alloc: Global,
    settled: &[Settled<'_>],
    order: &[u32],
) -> Result<Vec<u32>, AllocError>
    ensures { IfOk result (λ found. found.items ≡ tasks_not_tried_of settled.now order.now) }
{
    order
        .iter()
        .copied()
        .filter(|task| is_not_tried(settled, *task))
        .collect(alloc)
}

/// Adds the section `failed`, with a line for each task in `order` that has a failed instance; adds nothing where no
/// task has one. `settled` are the tasks of the run.
fn add_failed(
    alloc: Global,
    lines: &mut Vec<Text>,
    plan: &Plan,
    settled: &[Settled<'_>],
    order: &[u32],
) -> Result<(), OutOfMemory>
    ensures { OnOk result (lines.new.items ≡ lines.old.items
        ++ section (codes "failed")
        (task_lines_of plan.now.dag settled.now (failed_tasks_of settled.now order.now))) }
{
    let failed = failed_tasks(alloc, settled, order)?;
    let failed = task_lines(alloc, plan, settled, failed.as_slice())?;
    add_section(alloc, lines, "failed", failed.as_slice())
}

/// Adds the section `not tried`, with a line for each task in `order` that is upstream_failed or has no status; adds
/// nothing where there is no such task. `settled` are the tasks of the run.
fn add_not_tried(
    alloc: Global,
    lines: &mut Vec<Text>,
    plan: &Plan,
    settled: &[Settled<'_>],
    order: &[u32],
) -> Result<(), OutOfMemory>
    ensures { OnOk result (lines.new.items ≡ lines.old.items
        ++ section (codes "not tried")
        (task_lines_of plan.now.dag settled.now (tasks_not_tried_of settled.now order.now))) }
{
    let left = tasks_not_tried(alloc, settled, order)?;
    let left = task_lines(alloc, plan, settled, left.as_slice())?;
    add_section(alloc, lines, "not tried", left.as_slice())
}

/// All lines that explain a run, without line feeds. `settled` are its tasks, listed in the order of `order`.
fn run_lines(
    alloc: Global,
    plan: &Plan,
    run: &RunReport,
    settled: &[Settled<'_>],
    order: &[u32],
) -> Result<Vec<Text>, OutOfMemory>
    requires tasks { settled.now ≡ run.now.tasks }
    requires few { length order.now ≤ 20_000 }
    ensures { IfOk result (λ lines. lines.items ≡ run_lines_of plan.now.dag run.now order.now) }
{
    let mut lines = one_line(alloc, run_heading(alloc, run)?)?;
    let why = run_why_lines(alloc, plan, run.state, settled, order)?;
    add_section(alloc, &mut lines, "why", why.as_slice())?;
    let counts = counts_lines(alloc, settled, order)?;
    add_section(alloc, &mut lines, "task instances", counts.as_slice())?;
    add_failed(alloc, &mut lines, plan, settled, order)?;
    add_not_tried(alloc, &mut lines, plan, settled, order)?;
    Ok(lines)
}

/// The text that explains a run: why it has its state, how many instances are in each state, and which tasks failed or
/// weren't tried. `order` holds the numbers of the tasks to list, at most 20,000, in order; no task has more than 1,024
/// instances.
pub fn explain_run(
    alloc: Global,
    plan: &Plan,
    run: &RunReport,
    order: &[u32],
) -> Result<String, OutOfMemory>
    requires few { All IsFewTask run.now.tasks }
    requires short { length order.now ≤ 20_000 }
    ensures { IfOk result (λ text. string_bytes text ≡ run_text plan.now.dag run.now order.now) }
{
    let settled = settled_tasks(alloc, run.tasks.as_slice())?;
    let lines = run_lines(alloc, plan, run, &settled, order)?;
    lines_text(alloc, lines.as_slice())
}
