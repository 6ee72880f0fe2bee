//! Whether a report is one of a plan over data intervals.
ghost use Rattle.std.specs.Prelude.{◌≡◌, Some, option_copied};
ghost use Rattle.std.specs.List.{list_all, zip};
ghost use Rattle.std.specs.Str.{bytes_eq};
ghost use Rattle.bf_clear.specs.Matching.{are_ids_in, are_runs_in, are_tasks_in, has_id_in, has_pulls_in, is_pull_in, is_report_in, is_run_in, is_same_interval_in, is_task_in};

use bf_interval::Interval;
use bf_plan::{Dag, Task};
use bf_report::{InstanceReport, Pull, Report, RunReport, TaskReport, Version};
use bf_value::Text;

/// Whether `task` is a task with this id; false where it is None.
fn has_id(task: Option<&Task>, id: &Text) -> bool
    ensures { result ≡ has_id_in (option_copied task.entry) id.now }
{
    match task {
        Some(task) => id.as_str() == task.id.as_str(),
        None => false,
    }
}

/// Whether each of these ids is that of the task at its place; what is past the end of the shorter list isn't looked
/// at.
fn each_has_id(ids: &[Text], tasks: &[Task]) -> bool
    ensures { result ≡ list_all (λ p. has_id_in (Some p.1) p.0) (zip ids.now tasks.now) }
{
    ids.iter()
        .zip(tasks)
        .all(|(id, task)| has_id(Some(task), id))
}

/// Whether these are exactly the ids of these tasks, in the same order.
fn are_ids_of(ids: &[Text], tasks: &[Task]) -> bool
    ensures { result ≡ are_ids_in ids.now tasks.now }
{
    ids.len() == tasks.len() && each_has_id(ids, tasks)
}

/// Whether a pull is from task number `source`; false where the graph has no such task.
fn is_pull_of(dag: &Dag, pull: &Pull, source: u32) -> bool
    ensures { result ≡ is_pull_in dag.now pull.now source }
{
    has_id(dag.tasks.get(source as usize), &pull.task)
}

/// Whether each pull is from the task whose number is at its place in `sources`; what is past the end of the shorter
/// list isn't looked at.
fn each_is_pull_of(dag: &Dag, pulls: &[Pull], sources: &[u32]) -> bool
    ensures { result ≡ list_all (λ p. is_pull_in dag.now p.0 p.1) (zip pulls.now sources.now) }
{
    pulls
        .iter()
        .zip(sources)
        .all(|(pull, source)| is_pull_of(dag, pull, *source))
}

/// Whether an instance has exactly the pulls that `task` makes, in the same order.
fn has_pulls_of(dag: &Dag, task: &Task, instance: &InstanceReport) -> bool
    ensures { result ≡ has_pulls_in dag.now task.now instance.now }
{
    let pulls = instance.pulls();
    let sources = task.pulls.as_slice();
    pulls.len() == sources.len() && each_is_pull_of(dag, pulls, sources)
}

/// Whether each of these instances has exactly the pulls that `task` makes, in the same order.
fn have_pulls_of(dag: &Dag, task: &Task, instances: &[InstanceReport]) -> bool
    ensures { result ≡ list_all (has_pulls_in dag.now task.now) instances.now }
{
    instances
        .iter()
        .all(|instance| has_pulls_of(dag, task, instance))
}

/// Whether what a report of this version has of a task matches `task`: in version 2 each of its instances has the pulls
/// that `task` makes, so one without instances matches. Always true in version 1, which has no pulls.
fn task_matches(version: Version, dag: &Dag, report: &TaskReport, task: &Task) -> bool
    ensures { result ≡ is_task_in version dag.now report.now task.now }
{
    match (version, report) {
        (Version::Two, TaskReport::Ran(instance)) => has_pulls_of(dag, task, instance),
        (Version::Two, TaskReport::Mapped(instances)) => {
            have_pulls_of(dag, task, instances.as_slice())
        }
        _ => true,
    }
}

/// Whether what a report of this version has of each task matches the one at its place in `tasks`; what is past the end
/// of the shorter list isn't looked at.
fn each_is_task_of(version: Version, dag: &Dag, reports: &[TaskReport], tasks: &[Task]) -> bool
    ensures { result ≡ list_all (λ p. is_task_in version dag.now p.0 p.1)
        (zip reports.now tasks.now) }
{
    reports
        .iter()
        .zip(tasks)
        .all(|(report, task)| task_matches(version, dag, report, task))
}

/// Whether the tasks of a run, in a report of this version, match the graph: they are as many as its tasks and, in
/// version 2, their instances have the pulls that these make.
fn tasks_match(version: Version, dag: &Dag, reports: &[TaskReport]) -> bool
    ensures { result ≡ are_tasks_in version dag.now reports.now }
{
    let tasks = dag.tasks.as_slice();
    reports.len() == tasks.len() && each_is_task_of(version, dag, reports, tasks)
}

/// Whether two data intervals have the same start and the same end.
pub(crate) fn is_same_interval(one: &Interval, other: &Interval) -> bool
    ensures { result ≡ is_same_interval_in one.now other.now }
{
    one.start == other.start && one.end == other.end
}

/// Whether a run of a report of this version is over this data interval, and its tasks match the graph.
fn run_matches(version: Version, dag: &Dag, run: &RunReport, interval: &Interval) -> bool
    ensures { result ≡ is_run_in version dag.now run.now interval.now }
{
    is_same_interval(&run.interval, interval) && tasks_match(version, dag, run.tasks.as_slice())
}

/// Whether each run is over the data interval at its place, with tasks that match the graph; what is past the end of the
/// shorter list isn't looked at.
fn each_is_run_of(version: Version, dag: &Dag, runs: &[RunReport], intervals: &[Interval]) -> bool
    ensures { result ≡ list_all (λ p. is_run_in version dag.now p.0 p.1)
        (zip runs.now intervals.now) }
{
    runs.iter()
        .zip(intervals)
        .all(|(run, interval)| run_matches(version, dag, run, interval))
}

/// Whether there are as many runs as data intervals, each over the one at its place and with tasks that match the graph.
fn runs_match(version: Version, dag: &Dag, runs: &[RunReport], intervals: &[Interval]) -> bool
    ensures { result ≡ are_runs_in version dag.now runs.now intervals.now }
{
    runs.len() == intervals.len() && each_is_run_of(version, dag, runs, intervals)
}

/// Whether a report has the dag id of the graph; its tasks and runs aren't looked at.
pub(crate) fn is_of_dag(dag: &Dag, report: &Report) -> bool
    ensures { result ≡ bytes_eq report.now.dag_id dag.now.id }
{
    report.dag_id.as_str() == dag.id.as_str()
}

/// Whether a report is one of this graph over these data intervals: it has the same dag id, the same data intervals
/// and, unless there are none, the same task ids, each in order; and in version 2 each instance has the pulls of its
/// task.
#[tactic(auto, unfolding(crate::specs::Matching::is_report_in))]
pub fn is_report_of(dag: &Dag, intervals: &[Interval], report: &Report) -> bool
    ensures { result ≡ is_report_in dag.now intervals.now report.now }
{
    let tasks = dag.tasks.as_slice();
    is_of_dag(dag, report)
        && (intervals.is_empty() || are_ids_of(report.tasks.as_slice(), tasks))
        && runs_match(report.version, dag, report.runs.as_slice(), intervals)
}
