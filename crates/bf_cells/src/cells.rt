//! Cells, each added behind a text.
ghost use Rattle.std.specs.Prelude.{◌≡◌, ◌++◌, ◌∷◌, [], All, IfOk, OnOk, codes, decimal, length, map, string_bytes};
ghost use Rattle.std.specs.List.{enumerate_from, flat_map};
ghost use Rattle.bf_cells.specs.Cells.{cells_text, letters_from, row};
ghost use Rattle.bf_cells.specs.inner.Rows.{word_behind};
ghost use Rattle.bf_moment.specs.Moment.{moment_text};
ghost use Rattle.bf_reason.specs.Letters.{ended_letter_of};
ghost use Rattle.bf_reason.specs.Runs.{tasks_in, tasks_before};
ghost use Rattle.bf_reason.specs.Settled.{IsFewTask};
ghost use Rattle.bf_report.specs.declared.report.Report.{Report};
ghost use Rattle.bf_report.specs.Report.{run_state_word_of};

use bf_moment::Moment;
use bf_plan::Plan;
use bf_reason::{Settled, ended_letter, letter_at, settled_tasks};
use bf_report::{Report, RunReport, TaskReport, run_state_word};
use bf_value::OutOfMemory;
use bf_xcom::TaskResult;
use std::alloc::Global;

/// Adds the letter of each task of run number `run`, from 0, which tells its state and why; a digit where the graph
/// decides otherwise. `settled` are the tasks of the run and `before` those of the run before, empty for the first.
fn push_letters(
    text: &mut String,
    plan: &Plan,
    run: usize,
    settled: &[Settled<'_>],
    before: &[Settled<'_>],
) -> Result<(), OutOfMemory>
    requires { length settled.now ≡ length plan.now.dag.tasks }
    ensures { (report : Report) → settled.now ≡ tasks_in report run → before.now
        ≡ tasks_before report run →
        OnOk result (string_bytes text.new
        ≡ string_bytes text.old ++ letters_from plan.now.dag report run 0 settled.now) }
{
    let _few = plan.dag();
    for (task, told) in settled.iter().enumerate() {
        let letter = letter_at(plan, run, settled, before, task as u32, told);
        text.push(char::from(letter))?;
    }
    Ok(())
}

/// Adds the letter of each of these instances, in order: `s`, `r`, `f` or `x`, for how it ended.
fn push_instance_letters(text: &mut String, results: &[TaskResult]) -> Result<(), OutOfMemory>
    ensures { OnOk result (string_bytes text.new
        ≡ string_bytes text.old ++ map (λ ended. ended_letter_of ended.outcome ended.tries)
        results.now) }
{
    for ended in results {
        text.push(char::from(ended_letter(ended)))?;
    }
    Ok(())
}

/// Adds a space and the letters of a task's instances where the task ran expanded; adds nothing for another task.
fn push_instances_word(text: &mut String, task: &Settled<'_>) -> Result<(), OutOfMemory>
    ensures { OnOk result (string_bytes text.new ≡ string_bytes text.old ++ word_behind task.now) }
{
    if let TaskReport::Mapped(_) = task.task_report() {
        text.push_str(" ")?;
        push_instance_letters(text, task.results())?;
    }
    Ok(())
}

/// Adds a space and the letters of its instances for each of these tasks that ran expanded, in order.
fn push_instances_words(text: &mut String, settled: &[Settled<'_>]) -> Result<(), OutOfMemory>
    ensures { OnOk result (string_bytes text.new
        ≡ string_bytes text.old ++ flat_map word_behind settled.now) }
{
    for task in settled {
        push_instances_word(text, task)?;
    }
    Ok(())
}

/// Adds the start, the end and the state of a run, each followed by a space.
fn push_interval_and_state(text: &mut String, run: &RunReport) -> Result<(), OutOfMemory>
    ensures { OnOk result (string_bytes text.new ≡ string_bytes text.old
        ++ (moment_text run.now.interval.start.nanosecond
        ++ 32 ∷ (moment_text run.now.interval.end.nanosecond
        ++ 32 ∷ (run_state_word_of run.now.state ++ 32 ∷ [])))) }
{
    let start = Moment::new(run.interval.start);
    let end = Moment::new(run.interval.end);
    let state = run_state_word(run.state);
    write!(text, "{start} {end} {state} ")?;
    Ok(())
}

/// Adds the line of run number `number`, from 0, with its line feed: its data interval, its state, a letter for each
/// task, and one for each instance of those that ran expanded. `settled` are its tasks, `before` those of the run
/// before, empty for the first.
fn push_row(
    text: &mut String,
    plan: &Plan,
    number: usize,
    run: &RunReport,
    settled: &[Settled<'_>],
    before: &[Settled<'_>],
) -> Result<(), OutOfMemory>
    requires all { length settled.now ≡ length plan.now.dag.tasks }
    requires tasks { settled.now ≡ run.now.tasks }
    ensures { (report : Report) → settled.now ≡ tasks_in report number → before.now
        ≡ tasks_before report number →
        OnOk result (string_bytes text.new
        ≡ string_bytes text.old ++ row plan.now.dag report number run.now) }
{
    push_interval_and_state(text, run)?;
    push_letters(text, plan, number, settled, before)?;
    push_instances_words(text, settled)?;
    text.push_str("\n")?;
    Ok(())
}

/// Adds the line of each run of a report, in order, with its line feed. Each run has the plan's tasks, and no task has
/// more than 1,024 instances.
fn push_rows(
    alloc: Global,
    text: &mut String,
    plan: &Plan,
    report: &Report,
) -> Result<(), OutOfMemory>
    requires tasks { All (λ run. length run.tasks ≡ length plan.now.dag.tasks) report.now.runs }
    requires few { All (λ run. All IsFewTask run.tasks) report.now.runs }
    ensures { OnOk result (string_bytes text.new ≡ string_bytes text.old
        ++ flat_map (λ p. row plan.now.dag report.now p.0 p.1) (enumerate_from 0 report.now.runs)) }
{
    let mut before = Vec::new(alloc);
    for (number, run) in report.runs.as_slice().iter().enumerate() {
        let settled = settled_tasks(alloc, run.tasks.as_slice())?;
        push_row(text, plan, number, run, &settled, &before)?;
        before = settled;
    }
    Ok(())
}

/// The cells of a report: a head with its dag id, how many tasks and runs it has and `bytes`, the length of its text,
/// then a line for each run. Each run has the plan's tasks, and no task has more than 1,024 instances.
pub fn cells_of(
    alloc: Global,
    plan: &Plan,
    report: &Report,
    bytes: u64,
) -> Result<String, OutOfMemory>
    requires tasks { All (λ run. length run.tasks ≡ length plan.now.dag.tasks) report.now.runs }
    requires few { All (λ run. All IsFewTask run.tasks) report.now.runs }
    ensures { IfOk result (λ text. string_bytes text ≡ cells_text plan.now.dag report.now bytes) }
{
    let mut text = String::new(alloc);
    let (id, tasks, runs) = (
        report.dag_id.as_str(),
        plan.dag().tasks.len(),
        report.runs.len(),
    );
    writeln!(text, "@cells 1 {id} {tasks} {runs} {bytes}")?;
    push_rows(alloc, &mut text, plan, report)?;
    Ok(text)
}
