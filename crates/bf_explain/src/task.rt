//! A task in a run, or one of its instances: why it has its state, what it was given, and how it is cleared.
ghost use Rattle.std.specs.Prelude.{◌≡◌, ◌≤◌, ◌<◌, ◌++◌, ◌∷◌, [], All, IfOk, OnOk, Some, codes, length, map, slice_get, string_bytes};
ghost use Rattle.bf_explain.specs.ByHand.{AreHandLines, index_in};
ghost use Rattle.bf_explain.specs.Headings.{heading_of_state, instance_in, place_in};
ghost use Rattle.bf_explain.specs.Sections.{section};
ghost use Rattle.bf_explain.specs.Tasks.{AreTaskLines, IsTaskText, beside_sections, own_sections, why_section};
ghost use Rattle.bf_reason.specs.Settled.{IsFewTask};
ghost use Rattle.bf_report.specs.declared.report.TaskReport.{TaskReport};
ghost use Rattle.bf_why.specs.Decided.{id_of};

use crate::by_hand::{by_hand_lines, index_of};
use crate::clearing::clear_lines;
use crate::headings::{first_heading, instance_of, place_of};
use crate::neighbours::add_neighbours;
use crate::own::add_own_sections;
use crate::paths::Paths;
use crate::sections::{add_section, lines_text};
use crate::why_section::{roots_if_untried, why_and_where};
use bf_moment::Moment;
use bf_plan::Plan;
use bf_reason::{Settled, settled_tasks};
use bf_report::{Report, RunReport};
use bf_roots::Root;
use bf_value::{OutOfMemory, Text};
use bf_wording::{add_lines, one_line};
use std::alloc::Global;

/// The heading of task number `task` in a run, or of its instance at `place` from 0, and the section `why` below it.
/// `told_run` is run number `run` of the report, `settled` its tasks, `told` this task, and `roots` the places where
/// its state began.
fn heading_and_why_lines(
    alloc: Global,
    plan: &Plan,
    report: &Report,
    run: u32,
    told_run: &RunReport,
    settled: &[Settled<'_>],
    task: u32,
    told: &Settled<'_>,
    place: Option<usize>,
    roots: &[Root],
) -> Result<Vec<Text>, OutOfMemory>
    requires task { task < length plan.now.dag.tasks }
    requires few { All (λ run. All IsFewTask run.tasks) report.now.runs }
    requires tasks { settled.now ≡ told_run.now.tasks }
    ensures { IfOk result (λ lines. lines.items
        ≡ heading_of_state (id_of plan.now.dag task) told_run.now.interval.start.nanosecond told.now
        place ∷ []
        ++ why_section plan.now.dag report.now run told_run.now task told.now place roots.now) }
{
    let id = plan.dag().id_of(task);
    let mut lines = one_line(
        alloc,
        first_heading(alloc, id, told_run.interval.start, told, place)?,
    )?;
    let why = why_and_where(alloc, plan, report, run, settled, task, told, place, roots)?;
    add_section(alloc, &mut lines, "why", why.as_slice())?;
    Ok(lines)
}

/// All lines that explain task number `task` in run number `run`, or only its instance of map index `index` where one
/// is given, without line feeds. `clocks` are what the clocks of the graph's zone show at the start of each run,
/// `told_run` is that run of the report, `settled` its tasks and `told` this task.
fn explanation_lines(
    alloc: Global,
    paths: &Paths,
    plan: &Plan,
    report: &Report,
    clocks: &[Moment],
    run: u32,
    told_run: &RunReport,
    settled: &[Settled<'_>],
    task: u32,
    told: &Settled<'_>,
    index: Option<i32>,
) -> Result<Vec<Text>, OutOfMemory>
    requires task { task < length plan.now.dag.tasks }
    requires all { All (λ run. length run.tasks ≡ length plan.now.dag.tasks) report.now.runs }
    requires few { All (λ run. All IsFewTask run.tasks) report.now.runs }
    requires runs { length report.now.runs ≤ 4_096 }
    requires tasks { settled.now ≡ told_run.now.tasks }
    ensures { IfOk result (λ lines. AreTaskLines paths.now plan.now.dag report.now
        (map (λ clock. clock.at.nanosecond) clocks.now) run told_run.now task told.now index
        lines.items) }
{
    let place = place_of(index);
    let roots = roots_if_untried(alloc, plan, report, run, task, told)?;
    let roots = roots.as_slice();
    let instance = instance_of(told.task_report(), place);
    let at = index_of(told.task_report(), index);
    let hand = by_hand_lines(
        alloc,
        plan,
        told_run,
        report.version,
        clocks,
        run,
        task,
        at,
        instance,
    )?;
    let clear = clear_lines(alloc, paths, plan, report, run, task, told, index, roots)?;
    let mut lines = heading_and_why_lines(
        alloc, plan, report, run, told_run, settled, task, told, place, roots,
    )?;
    add_own_sections(alloc, &mut lines, told, place)?;
    add_section(alloc, &mut lines, "by hand", hand.as_slice())?;
    add_neighbours(alloc, &mut lines, plan, settled, task)?;
    add_lines(&mut lines, clear)?;
    Ok(lines)
}

/// The text that explains a task in run number `run`, or only its instance of map index `index` where one is given: why
/// it has its state, what it pushed and was given, how its last try is run by hand, and which command clears it.
/// `paths` are the files that this command names, `clocks` what the clocks of the graph's zone show at the start of each
/// run, and `told_run` is the run. Each run has the plan's tasks, and no task has more than 1,024 instances.
pub fn explain_task(
    alloc: Global,
    paths: &Paths,
    plan: &Plan,
    report: &Report,
    clocks: &[Moment],
    run: u32,
    told_run: &RunReport,
    task: u32,
    index: Option<i32>,
) -> Result<String, OutOfMemory>
    requires task { task < length plan.now.dag.tasks }
    requires all { All (λ run. length run.tasks ≡ length plan.now.dag.tasks) report.now.runs }
    requires few { All (λ run. All IsFewTask run.tasks) report.now.runs }
    requires runs { length report.now.runs ≤ 4_096 }
    requires told_run { slice_get report.now.runs run ≡ Some told_run.now }
    ensures { IfOk result (λ text. (told : TaskReport) → slice_get told_run.now.tasks task
        ≡ Some told
        →
        IsTaskText paths.now plan.now.dag report.now
        (map (λ clock. clock.at.nanosecond) clocks.now) run told_run.now task told index
        (string_bytes text)) }
{
    let settled = settled_tasks(alloc, told_run.tasks.as_slice())?;
    let told = &settled[task as usize];
    let lines = explanation_lines(
        alloc, paths, plan, report, clocks, run, told_run, &settled, task, told, index,
    )?;
    lines_text(alloc, lines.as_slice())
}
