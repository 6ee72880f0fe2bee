//! Where it began, in a sentence.
ghost use Rattle.std.specs.Prelude.{◌≡◌, ◌<◌, ◌==◌, ◌++◌, IfOk, OnOk, length, option_copied};
ghost use Rattle.std.specs.List.{flat_map, list_any};
ghost use Rattle.bf_explain.specs.Began.{began_lines_of, began_sentence_of, began_text_of, far_text, other_run_text_of, is_far_root_in, pushed_first, root_text_of, start_text_of};
ghost use Rattle.bf_reason.specs.Runs.{tasks_in};
ghost use Rattle.bf_wording.specs.Values.{value_text_of};
ghost use Rattle.bf_xcom.specs.Pulls.{pushed_by};

use bf_moment::Moment;
use bf_plan::Plan;
use bf_report::{InstanceReport, Report, RunReport, TaskReport};
use bf_roots::{Began, Root};
use bf_value::{OutOfMemory, Text};
use bf_wording::{name_list, one_line, value_text};
use std::alloc::Global;

/// How many characters of a value a sentence shows.
const MOST_CHARACTERS: usize = 200;

/// What an instance pushed, as JSON cut to 200 characters; `nothing` where it pushed nothing.
fn pushed_text(alloc: Global, instance: &InstanceReport) -> Result<Text, OutOfMemory>
    ensures { IfOk result (λ text. text
        ≡ value_text_of 200 (pushed_by instance.now.result.outcome)) }
{
    let ended = instance.result()?;
    value_text(alloc, ended.outcome.pushed(), MOST_CHARACTERS)
}

/// What the first instance of a task pushed, as JSON cut to 200 characters; `nothing` where it pushed nothing or the
/// task has no instance.
fn first_pushed_text(alloc: Global, told: Option<&TaskReport>) -> Result<Text, OutOfMemory>
    ensures { IfOk result (λ text. text
        ≡ value_text_of 200 (pushed_first (option_copied told.entry))) }
{
    match told {
        Some(TaskReport::Ran(instance)) => pushed_text(alloc, instance),
        Some(TaskReport::Mapped(instances)) => match instances.as_slice() {
            [instance, ..] => pushed_text(alloc, instance),
            [] => value_text(alloc, None, MOST_CHARACTERS),
        },
        _ => value_text(alloc, None, MOST_CHARACTERS),
    }
}

/// What happened at a root, in the words that follow its id, such as `failed` or `pushed [1]`. `told` is the report's
/// entry of that task.
fn began_text(alloc: Global, began: Began, told: Option<&TaskReport>) -> Result<Text, OutOfMemory>
    ensures { IfOk result (λ text. text ≡ began_text_of began (option_copied told.entry)) }
{
    match began {
        Began::Failed => Text::copy_of(alloc, "failed"),
        Began::Exited => Text::copy_of(alloc, "exited with 99"),
        Began::PushedNoItems => Text::copy_of(alloc, "pushed no items"),
        Began::Pushed => {
            let value = first_pushed_text(alloc, told)?;
            Ok(Text::new(format!(in alloc; "pushed {value}")?))
        }
    }
}

/// The start of a run in UTC; empty where `run` is None.
fn start_text(alloc: Global, run: Option<&RunReport>) -> Result<Text, OutOfMemory>
    ensures { IfOk result (λ text. text ≡ start_text_of (option_copied run.entry)) }
{
    match run {
        Some(run) => {
            let start = Moment::new(run.interval.start);
            Ok(Text::new(format!(in alloc; "{start}")?))
        }
        None => Text::copy_of(alloc, ""),
    }
}

/// The words ` in the run of START` for run number `other`; empty where `other` is `run`, the run explained.
pub(crate) fn other_run_text(
    alloc: Global,
    report: &Report,
    run: u32,
    other: u32,
) -> Result<Text, OutOfMemory>
    ensures { IfOk result (λ text. text ≡ other_run_text_of report.now run other) }
{
    if other == run {
        return Text::copy_of(alloc, "");
    }
    let start = start_text(alloc, report.runs.get(other as usize))?;
    Ok(Text::new(format!(in alloc; " in the run of {start}")?))
}

/// The tasks of run number `run`, from 0; empty where the report has no such run.
fn tasks_at(report: &Report, run: u32) -> &[TaskReport]
    ensures { result.now ≡ tasks_in report.now run }
{
    match report.runs.get(run as usize) {
        Some(run) => run.tasks.as_slice(),
        None => &[],
    }
}

/// A root in words, such as `load failed in the run of 2024-03-04T00:00:00Z`; its run is left out where it is `run`,
/// the run explained.
fn root_text(
    alloc: Global,
    plan: &Plan,
    report: &Report,
    run: u32,
    root: &Root,
) -> Result<Text, OutOfMemory>
    ensures { IfOk result (λ text. text ≡ root_text_of plan.now.dag report.now run root.now) }
{
    let id = plan.dag().id_of(root.task);
    let told = tasks_at(report, root.run).get(root.task as usize);
    let began = began_text(alloc, root.began, told)?;
    let there = other_run_text(alloc, report, run, root.run)?;
    Ok(Text::new(format!(in alloc; "{id} {began}{there}")?))
}

/// Whether `task` is one of `tasks`.
fn is_among(tasks: &[u32], task: u32) -> bool
    ensures { result ≡ list_any (λ other. other == task) tasks.now }
{
    tasks.contains(&task)
}

/// Whether a root lies in another run than `run`, or isn't directly upstream of `task`.
fn is_far_root(plan: &Plan, run: u32, task: u32, root: &Root) -> bool
    requires { task < length plan.now.dag.tasks }
    ensures { result ≡ is_far_root_in plan.now.dag run task root.now }
{
    let upstreams = plan.dag().task(task).upstreams.as_slice();
    root.run != run || !is_among(upstreams, root.task)
}

/// Adds a root in words to `names` where it lies in another run than `run` or isn't directly upstream of `task`; adds
/// nothing otherwise.
fn add_far_root(
    alloc: Global,
    names: &mut Vec<Text>,
    plan: &Plan,
    report: &Report,
    run: u32,
    task: u32,
    root: &Root,
) -> Result<(), OutOfMemory>
    requires { task < length plan.now.dag.tasks }
    ensures { OnOk result (names.new.items ≡ names.old.items
        ++ far_text plan.now.dag report.now run task root.now) }
{
    if is_far_root(plan, run, task, root) {
        names.push(root_text(alloc, plan, report, run, root)?)?;
    }
    Ok(())
}

/// The roots, in words and in order, that lie in another run than `run` or aren't directly upstream of `task`.
fn far_root_names(
    alloc: Global,
    plan: &Plan,
    report: &Report,
    run: u32,
    task: u32,
    roots: &[Root],
) -> Result<Vec<Text>, OutOfMemory>
    requires { task < length plan.now.dag.tasks }
    ensures { IfOk result (λ names. names.items
        ≡ flat_map (far_text plan.now.dag report.now run task) roots.now) }
{
    let mut names = Vec::new(alloc);
    for root in roots {
        add_far_root(alloc, &mut names, plan, report, run, task, root)?;
    }
    Ok(names)
}

/// The one sentence `It began where NAMES.` Empty where there are no names.
fn began_sentence(alloc: Global, names: &[Text]) -> Result<Vec<Text>, OutOfMemory>
    ensures { IfOk result (λ lines. lines.items ≡ began_sentence_of names.now) }
{
    if names.is_empty() {
        return Ok(Vec::new(alloc));
    }
    let names = name_list(alloc, names)?;
    one_line(
        alloc,
        Text::new(format!(in alloc; "It began where {names}.")?),
    )
}

/// The one sentence on the roots of a task in run number `run` that lie in another run or aren't directly upstream of
/// it. Empty where there is no such root.
pub(crate) fn began_lines(
    alloc: Global,
    plan: &Plan,
    report: &Report,
    run: u32,
    task: u32,
    roots: &[Root],
) -> Result<Vec<Text>, OutOfMemory>
    requires { task < length plan.now.dag.tasks }
    ensures { IfOk result (λ lines. lines.items
        ≡ began_lines_of plan.now.dag report.now run task roots.now) }
{
    let names = far_root_names(alloc, plan, report, run, task, roots)?;
    began_sentence(alloc, names.as_slice())
}
