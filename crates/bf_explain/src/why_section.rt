//! Why a task in a run has its state, with where it began.
ghost use Rattle.std.specs.Prelude.{◌≡◌, ◌<◌, ◌++◌, All, IfOk, length, option_copied};
ghost use Rattle.bf_explain.specs.Began.{began_lines_of};
ghost use Rattle.bf_explain.specs.Tasks.{AreRootsIf, run_before_of};
ghost use Rattle.bf_reason.specs.Runs.{tasks_before, tasks_in_run};
ghost use Rattle.bf_reason.specs.Settled.{IsFewTask};
ghost use Rattle.bf_roots.specs.Onward.{cause_among, is_tried_in};
ghost use Rattle.bf_why.specs.Why.{why_of};

use crate::began::began_lines;
use bf_plan::Plan;
use bf_reason::{Settled, cause_at, settled_tasks};
use bf_report::{Report, RunReport, TaskReport};
use bf_roots::{Root, is_tried, roots_of};
use bf_value::{OutOfMemory, Text};
use bf_why::why_lines;
use bf_wording::add_lines;
use std::alloc::Global;

/// The run before run number `run` of a report; None for run 0, and where the report has no run before it.
fn run_before(report: &Report, run: u32) -> Option<&RunReport>
    ensures { option_copied result ≡ run_before_of report.now run }
{
    if run == 0 {
        None
    } else {
        report.runs.get(run as usize - 1)
    }
}

/// The tasks of a run; empty where `run` is None.
fn tasks_or_none(run: Option<&RunReport>) -> &[TaskReport]
    ensures { result.now ≡ tasks_in_run (option_copied run.entry) }
{
    match run {
        Some(run) => run.tasks.as_slice(),
        None => &[],
    }
}

/// The roots of the state of task number `task` in run number `run`: the tasks in runs where it began. Empty where
/// `told`, its report, says that it ran, since its state began with its own tries.
pub(crate) fn roots_if_untried(
    alloc: Global,
    plan: &Plan,
    report: &Report,
    run: u32,
    task: u32,
    told: &Settled<'_>,
) -> Result<Vec<Root>, OutOfMemory>
    requires tasks { All (λ run. length run.tasks ≡ length plan.now.dag.tasks) report.now.runs }
    requires few { All (λ run. All IsFewTask run.tasks) report.now.runs }
    ensures { IfOk result (λ roots. AreRootsIf
        (is_tried_in told.now) plan.now.dag report.now run task
        roots.items) }
{
    if is_tried(told) {
        Ok(Vec::new(alloc))
    } else {
        roots_of(alloc, plan, report, run, task)
    }
}

/// Sentences on why a task, or its instance at `place` from 0, has its state in run number `run`, and on those of
/// `roots` that lie in another run or not directly upstream. `settled` are the tasks of the run and `told` is the task.
pub(crate) fn why_and_where(
    alloc: Global,
    plan: &Plan,
    report: &Report,
    run: u32,
    settled: &[Settled<'_>],
    task: u32,
    told: &Settled<'_>,
    place: Option<usize>,
    roots: &[Root],
) -> Result<Vec<Text>, OutOfMemory>
    requires task { task < length plan.now.dag.tasks }
    requires few { All (λ run. All IsFewTask run.tasks) report.now.runs }
    ensures { IfOk result (λ lines. lines.items
        ≡ why_of plan.now.dag settled.now (run_before_of report.now run) task
        (cause_among plan.now.dag settled.now (tasks_before report.now run) run task) told.now place
        ++ began_lines_of plan.now.dag report.now run task roots.now) }
{
    let before = run_before(report, run);
    let earlier = settled_tasks(alloc, tasks_or_none(before))?;
    let cause = cause_at(plan, run as usize, settled, &earlier, task);
    let mut lines = why_lines(
        alloc, plan, settled, before, &earlier, task, cause, told, place,
    )?;
    add_lines(
        &mut lines,
        began_lines(alloc, plan, report, run, task, roots)?,
    )?;
    Ok(lines)
}
