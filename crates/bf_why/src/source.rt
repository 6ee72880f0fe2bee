//! What the source of its items gave a task, in a sentence.
ghost use Rattle.std.specs.Prelude.{◌≡◌, ◌++◌, ◌<◌, Bool, IfOk, OnOk, Option, length, option_map};
ghost use Rattle.bf_core.specs.Terms.{task_of};
ghost use Rattle.bf_reason.specs.declared.cause.StateCause.{StateCause};
ghost use Rattle.bf_report.specs.declared.report.TaskReport.{TaskReport};
ghost use Rattle.bf_why.specs.Decided.{expanded_sentence_of, items_text_of, source_sentences};

use crate::came::came_text;
use bf_core::is_expanded;
use bf_plan::Plan;
use bf_reason::{Settled, StateCause};
use bf_value::{OutOfMemory, Text};
use bf_wording::count_text;
use std::alloc::Global;

/// The end of a sentence on a source, such as `, which pushed no list: it failed.` A source that is None had no status.
fn no_list_text(alloc: Global, source: Option<&Settled<'_>>) -> Result<Text, OutOfMemory>
    ensures { (each : Bool) → IfOk result (λ text.
        text ≡ items_text_of each
        (option_map (λ t. t.now) source.entry) StateCause.ItemsAreMissing) }
{
    let came = came_text(alloc, source)?;
    Ok(Text::new(format!(in alloc; ", which pushed no list: it {came}.")?))
}

/// The end of a sentence on a source: how many items its list has. Where `each`, the source is expanded, and it tells
/// how many values its instances pushed.
fn counted_items_text(alloc: Global, each: bool, count: usize) -> Result<Text, OutOfMemory>
    ensures { (source : Option TaskReport) → IfOk result (λ text.
        text ≡ items_text_of each source (StateCause.Runs count)) }
{
    if each {
        let values = count_text(alloc, count as u64, "value")?;
        return Ok(Text::new(format!(in alloc; ": {values} that its instances pushed.")?));
    }
    let items = count_text(alloc, count as u64, "item")?;
    Ok(Text::new(format!(in alloc; ": {items} of the list that it pushed.")?))
}

/// The end of a sentence on a source: how many items it gave, or that it gave none, by the cause of the task expanded
/// over it. `each` says that the source is expanded, so that each of its instances gives a value.
fn items_text(
    alloc: Global,
    each: bool,
    source: Option<&Settled<'_>>,
    cause: StateCause,
) -> Result<Text, OutOfMemory>
    ensures { IfOk result (λ text. text
        ≡ items_text_of each (option_map (λ t. t.now) source.entry) cause) }
{
    match cause {
        StateCause::ItemsAreMissing => no_list_text(alloc, source),
        StateCause::Runs(count) => counted_items_text(alloc, each, count),
        _ if each => Text::copy_of(alloc, ", whose instances pushed nothing."),
        _ => Text::copy_of(alloc, ", which pushed an empty list."),
    }
}

/// The sentence that a task with this cause is expanded over `source`, and how many items that gave. `settled` are the
/// tasks of the run.
fn expanded_sentence(
    alloc: Global,
    plan: &Plan,
    settled: &[Settled<'_>],
    cause: StateCause,
    source: u32,
) -> Result<Text, OutOfMemory>
    ensures { IfOk result (λ text. text
        ≡ expanded_sentence_of plan.now.dag settled.now cause source) }
{
    let dag = plan.dag();
    let items = items_text(
        alloc,
        is_expanded(dag, source),
        settled.get(source as usize),
        cause,
    )?;
    let id = dag.id_of(source);
    Ok(Text::new(format!(in alloc; "It is expanded over {id}{items}")?))
}

/// The task that task number `task` is expanded over; None where it isn't expanded.
fn source_of(plan: &Plan, task: u32) -> Option<u32>
    requires { task < length plan.now.dag.tasks }
    ensures { result ≡ (task_of plan.now.dag task).expand }
{
    plan.dag().task(task).expand
}

/// Adds the sentence on the task that `task` is expanded over and how many items that gave, by this cause; adds nothing
/// where `task` isn't expanded.
pub(crate) fn add_source(
    alloc: Global,
    lines: &mut Vec<Text>,
    plan: &Plan,
    settled: &[Settled<'_>],
    cause: StateCause,
    task: u32,
) -> Result<(), OutOfMemory>
    requires { task < length plan.now.dag.tasks }
    ensures { OnOk result (lines.new.items ≡ lines.old.items
        ++ source_sentences plan.now.dag settled.now cause (task_of plan.now.dag task).expand) }
{
    if let Some(source) = source_of(plan, task) {
        lines.push(expanded_sentence(alloc, plan, settled, cause, source)?)?;
    }
    Ok(())
}
