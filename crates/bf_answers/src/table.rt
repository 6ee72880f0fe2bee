//! The entries of a report, each added behind a text.
ghost use Rattle.std.specs.Prelude.{◌≡◌, ◌++◌, ◌∷◌, ◌<◌, IfOk, OnOk, string_bytes, drop, length};
ghost use Rattle.std.specs.List.{flat_map};
ghost use Rattle.bf_answers.specs.Answers.{instance_entries, mapped_entries, retried_entries, run_entries, task_entries, tasks_entries};
ghost use Rattle.bf_answers.specs.inner.Answers.{number_of};
ghost use Rattle.bf_answers.specs.TableText.{answers_text, entry_lines};

use crate::entry::{InstanceName, push_failed_entry, push_outcome_entry};
use bf_moment::Moment;
use bf_report::{InstanceReport, Report, RunReport, TaskReport};
use bf_value::{OutOfMemory, Text};
use std::alloc::Global;

/// Adds an entry for each of an instance's `tries` but the last, since all of these failed.
fn push_failed_tries(
    alloc: Global,
    text: &mut String,
    name: &InstanceName<'_>,
    tries: u32,
) -> Result<(), OutOfMemory>
    ensures { OnOk result (string_bytes text.new ≡ string_bytes text.old
        ++ entry_lines (retried_entries name.now.run.now name.now.task.now
        (number_of name.now.index) tries)) }
{
    for attempt in 1..tries {
        push_failed_entry(alloc, text, name, attempt)?;
    }
    Ok(())
}

/// Adds an entry for each try of an instance, in order, but none for a last try that succeeded and pushed nothing.
fn push_instance(
    alloc: Global,
    text: &mut String,
    name: &InstanceName<'_>,
    instance: &InstanceReport,
) -> Result<(), OutOfMemory>
    ensures { OnOk result (string_bytes text.new ≡ string_bytes text.old
        ++ entry_lines (instance_entries name.now.run.now name.now.task.now
        (number_of name.now.index) instance.now.result)) }
{
    let ended = instance.result()?;
    push_failed_tries(alloc, text, name, ended.tries)?;
    push_outcome_entry(alloc, text, name, ended.tries, &ended.outcome)
}

/// Adds the entries of all instances of an expanded task, by map index. `run` is the start of its run as a report
/// writes it, `task` its id.
fn push_mapped(
    alloc: Global,
    text: &mut String,
    run: &str,
    task: &str,
    instances: &[InstanceReport],
) -> Result<(), OutOfMemory>
    ensures { OnOk result (string_bytes text.new ≡ string_bytes text.old
        ++ entry_lines (mapped_entries run.now task.now instances.now)) }
{
    for (index, instance) in instances.iter().enumerate() {
        let index = Some(index);
        push_instance(alloc, text, &InstanceName { run, task, index }, instance)?;
    }
    Ok(())
}

/// Adds the entries of a task in a run; adds nothing where it didn't run. `run` is the start of the run as a report
/// writes it, `task` the task's id.
fn push_task(
    alloc: Global,
    text: &mut String,
    run: &str,
    task: &str,
    told: &TaskReport,
) -> Result<(), OutOfMemory>
    ensures { OnOk result (string_bytes text.new
        ≡ string_bytes text.old ++ entry_lines (task_entries run.now task.now told.now)) }
{
    match told {
        TaskReport::NoStatus | TaskReport::Skipped | TaskReport::UpstreamFailed => Ok(()),
        TaskReport::Ran(instance) => {
            let index = None;
            push_instance(alloc, text, &InstanceName { run, task, index }, instance)
        }
        TaskReport::Mapped(instances) => {
            push_mapped(alloc, text, run, task, instances.as_slice())
        }
    }
}

/// Adds the entries of a run's tasks, in order. `run` is the start of the run as a report writes it; `ids` are the ids
/// of `tasks`, in the same order.
fn push_tasks(
    alloc: Global,
    text: &mut String,
    run: &str,
    ids: &[Text],
    tasks: &[TaskReport],
) -> Result<(), OutOfMemory>
    ensures { OnOk result (string_bytes text.new
        ≡ string_bytes text.old ++ entry_lines (tasks_entries run.now ids.now tasks.now)) }
{
    for (id, task) in ids.iter().zip(tasks) {
        push_task(alloc, text, run, id.as_str(), task)?;
    }
    Ok(())
}

/// Adds the entries of a run. `ids` are the ids of its tasks, in order.
fn push_run(
    alloc: Global,
    text: &mut String,
    ids: &[Text],
    run: &RunReport,
) -> Result<(), OutOfMemory>
    ensures { OnOk result (string_bytes text.new
        ≡ string_bytes text.old ++ entry_lines (run_entries ids.now run.now)) }
{
    let moment = Moment::new(run.interval.start);
    let start = format!(in alloc; "{moment}")?;
    push_tasks(alloc, text, start.as_str(), ids, run.tasks.as_slice())
}

/// Adds the entries of these runs, in order. `ids` are the ids of their tasks, in order.
fn push_runs(
    alloc: Global,
    text: &mut String,
    ids: &[Text],
    runs: &[RunReport],
) -> Result<(), OutOfMemory>
    ensures { OnOk result (string_bytes text.new
        ≡ string_bytes text.old ++ entry_lines (flat_map (run_entries ids.now) runs.now)) }
{
    for run in runs {
        push_run(alloc, text, ids, run)?;
    }
    Ok(())
}

/// The bytes of a text with its first byte, a comma, replaced by `[`. The text isn't empty.
fn with_opening_bracket(text: String) -> Vec<u8>
    requires { 0 < length (string_bytes text) }
    ensures { result.items ≡ 91 ∷ drop 1 (string_bytes text) }
{
    let mut bytes = text.into_bytes();
    bytes[0] = b'[';
    bytes
}

/// The table of answers, a JSON list, by which each try ends as the report says.
pub(crate) fn json_table_of(alloc: Global, report: &Report) -> Result<Vec<u8>, OutOfMemory>
    ensures { IfOk result (λ bytes. bytes.items ≡ answers_text report.now) }
{
    let mut text = String::new(alloc);
    let (ids, runs) = (report.tasks.as_slice(), report.runs.as_slice());
    push_runs(alloc, &mut text, ids, runs)?;
    text.push_str("\n]\n")?;
    Ok(with_opening_bracket(text))
}
