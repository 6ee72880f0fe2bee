//! The lines of a report, each added behind a text.
ghost use Rattle.std.specs.Prelude.{◌≡◌, ◌++◌, ◌∷◌, [], IfOk, OnOk, decimal, codes, option_copied};
ghost use Rattle.bf_report.specs.Report.{line, state_word, value_word, item_line, pulled_word, pull_line, instance_text, untried_line, mapped_text, task_text, tasks_text, run_state_word_of, run_line, run_text, version_word_of, report_text};
ghost use Rattle.std.specs.List.{flat_map};

use crate::long_text::LongText;
use crate::report::{InstanceReport, Pull, Report, RunReport, TaskReport, Version};
use bf_moment::Moment;
use bf_value::{OutOfMemory, Text, Xval, text_of};
use bf_xcom::RunState;
use itoa::Buffer;
use std::alloc::Global;

/// Adds a value as compact JSON, or `-` for None, without a line feed.
fn push_value(
    alloc: Global,
    text: &mut LongText<'_>,
    value: Option<&Xval>,
) -> Result<(), OutOfMemory>
    ensures { OnOk result (text.new ≡ text.old
        ++ pulled_word (option_copied value.entry)) }
{
    match value {
        Some(value) => text.push_str(text_of(alloc, value)?.as_str()),
        None => text.push_str("-"),
    }
}

/// Adds a number in decimal.
fn push_number(text: &mut LongText<'_>, number: u64) -> Result<(), OutOfMemory>
    ensures { OnOk result (text.new ≡ text.old ++ decimal number) }
{
    text.push_str(Buffer::new().format(number))
}

/// Adds the rest of an instance's line: the word for how its last try ended, that try's number, what it pushed or `-`,
/// and the line feed.
fn push_result(
    alloc: Global,
    text: &mut LongText<'_>,
    instance: &InstanceReport,
) -> Result<(), OutOfMemory>
    ensures { OnOk result (text.new ≡ text.old
        ++ line (state_word instance.now.result.outcome
        ∷ decimal instance.now.result.tries ∷ value_word instance.now.result.outcome ∷ [])) }
{
    text.push_str(instance.state())?;
    text.push_str(" ")?;
    push_number(text, u64::from(instance.tries()))?;
    text.push_str(" ")?;
    push_value(alloc, text, instance.pushed())?;
    text.push_str("\n")
}

/// Adds the `@item` line of an instance; adds nothing where there is no item.
fn push_item(alloc: Global, text: &mut LongText<'_>, item: Option<&Xval>) -> Result<(), OutOfMemory>
    ensures { OnOk result (text.new ≡ text.old
        ++ item_line (option_copied item.entry)) }
{
    let Some(item) = item else {
        return Ok(());
    };
    text.push_str("@item ")?;
    text.push_str(text_of(alloc, item)?.as_str())?;
    text.push_str("\n")
}

/// Adds the `@pull` line of the pull of this number, with `-` for its value where nothing was pushed.
fn push_pull<'a>(
    alloc: Global,
    text: &mut LongText<'a>,
    number: usize,
    pull: &'a Pull,
) -> Result<(), OutOfMemory>
    ensures { OnOk result (text.new ≡ text.old ++ pull_line pull.now) }
{
    text.push_str("@pull ")?;
    text.push_str(pull.task.as_str())?;
    text.push_str(" ")?;
    text.push_pulled(alloc, number, pull.value.get())?;
    text.push_str("\n")
}

/// Adds a `@pull` line for each of these pulls.
fn push_pulls<'a>(
    alloc: Global,
    text: &mut LongText<'a>,
    pulls: &'a [Pull],
) -> Result<(), OutOfMemory>
    ensures { OnOk result (text.new ≡ text.old
        ++ flat_map pull_line pulls.now) }
{
    for (number, pull) in pulls.iter().enumerate() {
        push_pull(alloc, text, number, pull)?;
    }
    Ok(())
}

/// Adds the lines of what an instance was given: its `@item` line, if it has an item, and its `@pull` lines.
fn push_given<'a>(
    alloc: Global,
    text: &mut LongText<'a>,
    instance: &'a InstanceReport,
) -> Result<(), OutOfMemory>
    ensures { OnOk result (text.new ≡ text.old
        ++ (item_line instance.now.item ++ flat_map pull_line instance.now.pulls)) }
{
    push_item(alloc, text, instance.item())?;
    push_pulls(alloc, text, instance.pulls())
}

/// Adds all lines of the only instance of the task `id`, which isn't expanded: its map index is -1.
fn push_only_instance<'a>(
    alloc: Global,
    text: &mut LongText<'a>,
    id: &str,
    instance: &'a InstanceReport,
) -> Result<(), OutOfMemory>
    ensures { OnOk result (text.new ≡ text.old
        ++ instance_text id.now (codes "-1") instance.now) }
{
    text.push_str(id)?;
    text.push_str(" -1 ")?;
    push_result(alloc, text, instance)?;
    push_given(alloc, text, instance)
}

/// Adds all lines of the instance at this map index of the expanded task `id`: its result, item and pulls.
fn push_instance<'a>(
    alloc: Global,
    text: &mut LongText<'a>,
    id: &str,
    index: usize,
    instance: &'a InstanceReport,
) -> Result<(), OutOfMemory>
    ensures { OnOk result (text.new ≡ text.old
        ++ instance_text id.now (decimal index) instance.now) }
{
    text.push_str(id)?;
    text.push_str(" ")?;
    push_number(text, index as u64)?;
    text.push_str(" ")?;
    push_result(alloc, text, instance)?;
    push_given(alloc, text, instance)
}

/// Adds the lines of all instances of the expanded task `id`, in order of map index.
fn push_mapped<'a>(
    alloc: Global,
    text: &mut LongText<'a>,
    id: &str,
    instances: &'a [InstanceReport],
) -> Result<(), OutOfMemory>
    ensures { OnOk result (text.new ≡ text.old
        ++ mapped_text id.now instances.now) }
{
    for (index, instance) in instances.iter().enumerate() {
        push_instance(alloc, text, id, index, instance)?;
    }
    Ok(())
}

/// Adds the line of the task `id`, which had no try; `state` is the word for its state.
fn push_untried(text: &mut LongText<'_>, id: &str, state: &str) -> Result<(), OutOfMemory>
    ensures { OnOk result (text.new ≡ text.old
        ++ untried_line id.now state.now) }
{
    text.push_str(id)?;
    text.push_str(" -1 ")?;
    text.push_str(state)?;
    text.push_str(" 0 -\n")
}

/// Adds the lines of the task `id` in one run: a single line where it had no try, else those of its instances.
fn push_task<'a>(
    alloc: Global,
    text: &mut LongText<'a>,
    id: &str,
    task: &'a TaskReport,
) -> Result<(), OutOfMemory>
    ensures { OnOk result (text.new ≡ text.old
        ++ task_text id.now task.now) }
{
    match task {
        TaskReport::NoStatus => push_untried(text, id, "no_status"),
        TaskReport::Skipped => push_untried(text, id, "skipped"),
        TaskReport::UpstreamFailed => push_untried(text, id, "upstream_failed"),
        TaskReport::Ran(instance) => push_only_instance(alloc, text, id, instance),
        TaskReport::Mapped(instances) => push_mapped(alloc, text, id, instances.as_slice()),
    }
}

/// Adds the lines of a run's tasks, in order; `ids` has their ids in the same order.
fn push_tasks<'a>(
    alloc: Global,
    text: &mut LongText<'a>,
    ids: &[Text],
    tasks: &'a [TaskReport],
) -> Result<(), OutOfMemory>
    ensures { OnOk result (text.new ≡ text.old
        ++ tasks_text ids.now tasks.now) }
{
    for (id, task) in ids.iter().zip(tasks) {
        push_task(alloc, text, id.as_str(), task)?;
    }
    Ok(())
}

/// Gives the word for a run's state, `success` or `failed`.
pub fn run_state_word(state: RunState) -> &'static str
    ensures { result.now ≡ run_state_word_of state }
{
    match state {
        RunState::Success => "success",
        RunState::Failed => "failed",
    }
}

/// Adds the `@run` line of a run: its data interval and its state.
fn push_run_line(alloc: Global, text: &mut LongText<'_>, run: &RunReport) -> Result<(), OutOfMemory>
    ensures { OnOk result (text.new ≡ text.old ++ run_line run.now) }
{
    let (start, end) = (
        Moment::new(run.interval.start),
        Moment::new(run.interval.end),
    );
    let state = run_state_word(run.state);
    let line = format!(in alloc; "@run {start} {end} {state}\n")?;
    text.push_str(line.as_str())
}

/// Adds the lines of a run: its `@run` line and those of its tasks, whose ids are `ids` in the same order.
fn push_run<'a>(
    alloc: Global,
    text: &mut LongText<'a>,
    ids: &[Text],
    run: &'a RunReport,
) -> Result<(), OutOfMemory>
    ensures { OnOk result (text.new ≡ text.old
        ++ run_text ids.now run.now) }
{
    push_run_line(alloc, text, run)?;
    push_tasks(alloc, text, ids, run.tasks.as_slice())
}

/// Adds the lines of all these runs, in order; `ids` has the ids of their tasks.
fn push_runs<'a>(
    alloc: Global,
    text: &mut LongText<'a>,
    ids: &[Text],
    runs: &'a [RunReport],
) -> Result<(), OutOfMemory>
    ensures { OnOk result (text.new ≡ text.old
        ++ flat_map (run_text ids.now) runs.now) }
{
    for run in runs {
        push_run(alloc, text, ids, run)?;
    }
    Ok(())
}

/// Gives the word for a report's version on its first line, `1` or `2`.
fn version_word(version: Version) -> &'static str
    ensures { result.now ≡ version_word_of version }
{
    match version {
        Version::One => "1",
        Version::Two => "2",
    }
}

/// Makes the whole text of a report, from its `@backfill` line to its `@end` line, with the last line feed.
pub(crate) fn text_of_report<'a>(
    alloc: Global,
    report: &'a Report,
) -> Result<LongText<'a>, OutOfMemory>
    ensures { IfOk result (λ text. text ≡ report_text report.now) }
{
    let mut text = LongText::new(alloc);
    text.push_str("@backfill ")?;
    text.push_str(version_word(report.version))?;
    text.push_str(" ")?;
    text.push_str(report.dag_id.as_str())?;
    text.push_str("\n")?;
    push_runs(
        alloc,
        &mut text,
        report.tasks.as_slice(),
        report.runs.as_slice(),
    )?;
    text.push_str("@end ")?;
    push_number(&mut text, report.runs.len() as u64)?;
    text.push_str("\n")?;
    Ok(text)
}
