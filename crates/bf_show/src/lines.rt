//! The lines of a report, each added behind a text.
ghost use Rattle.std.specs.Prelude.{◌≡◌, ◌++◌, ℕ, List, IfOk, OnOk, string_bytes};
ghost use Rattle.std.specs.List.{flat_map, zip};
ghost use Rattle.json.specs.Print.{quoted};
ghost use Rattle.serde_json.specs.Data.{unsigned};
ghost use Rattle.serde_json.specs.Written.{number_text};
ghost use Rattle.bf_moment.specs.Moment.{moment_text};
ghost use Rattle.bf_report.specs.Report.{run_state_word_of};
ghost use Rattle.bf_show.specs.JsonLines.{instance_members, untried_members, line, no_index, mapped_lines, task_lines, tasks_lines, run_lines, json_lines};
ghost use Rattle.bf_show.specs.Pieces.{key_text, run_start};

use crate::key::{Key, push_key};
use crate::members::{push_ended, push_string};
use bf_moment::Moment;
use bf_report::{InstanceReport, Report, RunReport, TaskReport};
use bf_value::{OutOfMemory, Text};
use bf_xcom::RunState;
use std::alloc::Global;

/// Adds a moment in UTC as a JSON string, in its quotes.
fn push_moment(alloc: Global, text: &mut String, moment: Moment) -> Result<(), OutOfMemory>
    ensures { OnOk result (string_bytes text.new
        ≡ string_bytes text.old ++ quoted (moment_text moment.at.nanosecond)) }
{
    let word = format!(in alloc; "{moment}")?;
    push_string(alloc, text, word.as_str())
}

/// The word for the state of a run as a JSON string, in its quotes.
fn run_state_string(state: RunState) -> &'static str
    ensures { result.now ≡ quoted (run_state_word_of state) }
{
    match state {
        RunState::Success => "\"success\"",
        RunState::Failed => "\"failed\"",
    }
}

/// What each line of a run begins with: an open JSON object with the run's data interval and state.
fn line_start_of(alloc: Global, run: &RunReport) -> Result<String, OutOfMemory>
    ensures { IfOk result (λ text. string_bytes text ≡ run_start run.now) }
{
    let mut text = String::from_str(alloc, "{\"run\":")?;
    push_moment(alloc, &mut text, Moment::new(run.interval.start))?;
    push_key(&mut text, Key::End)?;
    push_moment(alloc, &mut text, Moment::new(run.interval.end))?;
    push_key(&mut text, Key::RunState)?;
    text.push_str(run_state_string(run.state))?;
    Ok(text)
}

/// A run, and what each of its lines begins with.
#[derive(Drop)]
struct RunLines<'a> {
    run: &'a RunReport,
    start: String,
    ghost begins: { string_bytes start ≡ run_start run.now },
}

impl RunLines<'_> {
    /// Adds the beginning of a line of the run: what each of its lines begins with, and the task's id. The JSON object
    /// stays open.
    fn push_start(&self, alloc: Global, text: &mut String, id: &str) -> Result<(), OutOfMemory>
        ensures { OnOk result (string_bytes text.new
            ≡ string_bytes text.old ++ (run_start self.now.run.now
            ++ (key_text Key.Task ++ quoted id.now))) }
    {
        text.push_str(self.start.as_str())?;
        push_key(text, Key::Task)?;
        push_string(alloc, text, id)
    }

    /// Adds the beginning of a line of a task that has one line in the run, with -1 as its map index.
    fn push_only_start(&self, alloc: Global, text: &mut String, id: &str) -> Result<(), OutOfMemory>
        ensures { OnOk result (string_bytes text.new
            ≡ (string_bytes text.old ++ (run_start self.now.run.now
            ++ (key_text Key.Task ++ quoted id.now)))
            ++ (key_text Key.Index ++ number_text no_index)) }
    {
        self.push_start(alloc, text, id)?;
        push_key(text, Key::Index)?;
        text.push_str("-1")?;
        Ok(())
    }

    /// Adds the line of a task that didn't run, with its line feed. `state` is a JSON string, in its quotes.
    fn push_untried(
        &self,
        alloc: Global,
        text: &mut String,
        id: &str,
        state: &str,
    ) -> Result<(), OutOfMemory>
        ensures { OnOk result ((word : List ℕ) → state.now ≡ quoted word → string_bytes text.new
            ≡ string_bytes text.old ++ line (untried_members self.now.run.now id.now word)) }
    {
        self.push_only_start(alloc, text, id)?;
        push_key(text, Key::State)?;
        text.push_str(state)?;
        push_key(text, Key::Tries)?;
        text.push_str("0}\n")?;
        Ok(())
    }

    /// Adds the line of a task that isn't expanded, with its line feed: that of its one instance, with -1 as its map
    /// index.
    fn push_only_instance(
        &self,
        alloc: Global,
        text: &mut String,
        id: &str,
        instance: &InstanceReport,
    ) -> Result<(), OutOfMemory>
        ensures { OnOk result (string_bytes text.new ≡ string_bytes text.old
            ++ line (instance_members self.now.run.now id.now no_index instance.now)) }
    {
        self.push_only_start(alloc, text, id)?;
        push_ended(alloc, text, instance)
    }

    /// Adds the line of an expanded task's instance, with its line feed. `index` is its map index, from 0.
    fn push_instance(
        &self,
        alloc: Global,
        text: &mut String,
        id: &str,
        index: usize,
        instance: &InstanceReport,
    ) -> Result<(), OutOfMemory>
        ensures { OnOk result (string_bytes text.new ≡ string_bytes text.old
            ++ line (instance_members self.now.run.now id.now (unsigned index) instance.now)) }
    {
        self.push_start(alloc, text, id)?;
        push_key(text, Key::Index)?;
        write!(text, "{index}")?;
        push_ended(alloc, text, instance)
    }

    /// Adds the line of each instance of an expanded task, by map index, with its line feed.
    fn push_mapped(
        &self,
        alloc: Global,
        text: &mut String,
        id: &str,
        instances: &[InstanceReport],
    ) -> Result<(), OutOfMemory>
        ensures { OnOk result (string_bytes text.new ≡ string_bytes text.old
            ++ mapped_lines self.now.run.now id.now instances.now) }
    {
        for (index, instance) in instances.iter().enumerate() {
            self.push_instance(alloc, text, id, index, instance)?;
        }
        Ok(())
    }

    /// Adds the lines of a task in the run: one for each instance where it ran, else one for its state.
    fn push_task(
        &self,
        alloc: Global,
        text: &mut String,
        id: &str,
        task: &TaskReport,
    ) -> Result<(), OutOfMemory>
        ensures { OnOk result (string_bytes text.new
            ≡ string_bytes text.old ++ task_lines self.now.run.now id.now task.now) }
    {
        match task {
            TaskReport::NoStatus => self.push_untried(alloc, text, id, "\"no_status\""),
            TaskReport::Skipped => self.push_untried(alloc, text, id, "\"skipped\""),
            TaskReport::UpstreamFailed => {
                self.push_untried(alloc, text, id, "\"upstream_failed\"")
            }
            TaskReport::Ran(instance) => self.push_only_instance(alloc, text, id, instance),
            TaskReport::Mapped(instances) => {
                self.push_mapped(alloc, text, id, instances.as_slice())
            }
        }
    }

    /// Adds the lines of the run's tasks, in order. `ids` are the ids of `tasks`, in the same order.
    fn push_tasks(
        &self,
        alloc: Global,
        text: &mut String,
        ids: &[Text],
        tasks: &[TaskReport],
    ) -> Result<(), OutOfMemory>
        ensures { OnOk result (string_bytes text.new
            ≡ string_bytes text.old ++ tasks_lines self.now.run.now ids.now tasks.now) }
    {
        for (id, task) in ids.iter().zip(tasks) {
            self.push_task(alloc, text, id.as_str(), task)?;
        }
        Ok(())
    }
}

/// Adds the lines of a run, one for each task instance and for each task that didn't run. `ids` are the ids of its
/// tasks, in order.
fn push_run(
    alloc: Global,
    text: &mut String,
    ids: &[Text],
    run: &RunReport,
) -> Result<(), OutOfMemory>
    ensures { OnOk result (string_bytes text.new ≡ string_bytes text.old
        ++ run_lines ids.now run.now) }
{
    let start = line_start_of(alloc, run)?;
    let lines = RunLines { run, start };
    lines.push_tasks(alloc, text, ids, run.tasks.as_slice())
}

/// Adds the lines of these runs, in order, one for each task instance and for each task that didn't run. `ids` are the
/// ids of their tasks, in order.
fn push_runs(
    alloc: Global,
    text: &mut String,
    ids: &[Text],
    runs: &[RunReport],
) -> Result<(), OutOfMemory>
    ensures { OnOk result (string_bytes text.new
        ≡ string_bytes text.old ++ flat_map (run_lines ids.now) runs.now) }
{
    for run in runs {
        push_run(alloc, text, ids, run)?;
    }
    Ok(())
}

/// A report as lines of JSON: an object for each task instance and for each task that didn't run, each with a line
/// feed.
pub(crate) fn text_of_json_lines(alloc: Global, report: &Report) -> Result<String, OutOfMemory>
    ensures { IfOk result (λ text. string_bytes text ≡ json_lines report.now) }
{
    let mut text = String::new(alloc);
    let (ids, runs) = (report.tasks.as_slice(), report.runs.as_slice());
    push_runs(alloc, &mut text, ids, runs)?;
    Ok(text)
}
