//! What came of the tasks of a run.
ghost use Rattle.std.specs.Prelude.{◌≡◌, ◌≤◌, All, IfOk, length};
ghost use Rattle.bf_clear.specs.Entries.{value_in};
ghost use Rattle.bf_core.specs.Deciding.{counts_in, counts_of_results_of};
ghost use Rattle.bf_reason.specs.Settled.{IsFewTask, results_of};
ghost use Rattle.bf_reason.specs.inner.Settled.{IsFewValue};
ghost use Rattle.bf_rule.specs.Verdicts.{total_of};

use bf_clear::value_of;
use bf_core::counts_of_outcome;
use bf_report::TaskReport;
use bf_rule::Counts;
use bf_value::OutOfMemory;
use bf_xcom::{TaskResult, TaskValue};
use std::alloc::Global;
use std::marker::Model;

/// A task of a run as a report has it, with its value and the counts of its instances worked out once. Contracts see
/// just the report of the task.
#[derive(Drop)]
pub struct Settled<'a> {
    told: &'a TaskReport,
    value: TaskValue,
    counts: Counts,
}

impl<'a> Model for Settled<'a> {
    ghost use Rattle.std.specs.Coded.{codes};
    ghost use Rattle.bf_report.specs.contracts.report.TaskReport;
    ghost use Rattle.bf_report.specs.declared.report.TaskReport.{TaskReport};
    ghost use Rattle.bf_reason.specs.Settled.{IsCounted};

    ghost Value = { TaskReport };

    ghost coded = { Prim.hlevel (codes, TaskReport.the_row.coded) };

    ghost view = { λ s. s.told.now };

    ghost invariant = { λ s. IsCounted s.told.now s.value s.counts };
}

/// How many of these instances, at most 1,024, ended in each state.
fn counts_of_results(results: &[TaskResult]) -> Counts
    requires { length results.now ≤ 1_024 }
    ensures counts { result ≡ counts_of_results_of results.now }
    ensures few { total_of result ≤ 1_024 }
{
    let mut counts = Counts::NONE;
    for result in results {
        counts = counts.plus(counts_of_outcome(&result.outcome));
    }
    counts
}

/// How many instances of a task with this value are in each state; a task that didn't run counts as one instance.
fn counts_of(value: &TaskValue) -> Counts
    requires { IsFewValue value.now }
    ensures counts { result ≡ counts_in value.now }
    ensures few { total_of result ≤ 1_024 }
{
    match value {
        TaskValue::Blocked => Counts {
            blocked: 1,
            ..Counts::NONE
        },
        TaskValue::Skipped => Counts {
            skipped: 1,
            ..Counts::NONE
        },
        TaskValue::UpstreamFailed => Counts {
            upstream_failed: 1,
            ..Counts::NONE
        },
        TaskValue::Ran(results) => counts_of_results(results.as_slice()),
    }
}

impl<'a> Settled<'a> {
    /// Works out the value and the counts of a task, as a report has it, with at most 1,024 instances.
    pub fn new(alloc: Global, told: &'a TaskReport) -> Result<Settled<'a>, OutOfMemory>
        requires { IsFewTask told.now }
        ensures { IfOk result (λ settled. settled ≡ told.entry.now) }
    {
        let value = value_of(alloc, told)?;
        let counts = counts_of(&value);
        Ok(Settled {
            told,
            value,
            counts,
        })
    }

    /// The task as the report has it.
    pub fn task_report(&self) -> &TaskReport
        ensures { result.now ≡ self.now }
    {
        self.told
    }

    /// The value of the task, as the decisions on other tasks see it.
    pub fn value(&self) -> &TaskValue
        ensures { result.now ≡ value_in self.now }
    {
        &self.value
    }

    /// How many instances of the task are in each state, at most 1,024 in all; a task that didn't run counts as one
    /// instance.
    pub fn counts(&self) -> Counts
        ensures counts { result ≡ counts_in (value_in self.now) }
        ensures few { total_of result ≤ 1_024 }
    {
        self.counts
    }

    /// The results of the task's instances, by map index; empty where it didn't run.
    pub fn results(&self) -> &[TaskResult]
        ensures { result.now ≡ results_of (value_in self.now) }
    {
        match &self.value {
            TaskValue::Ran(results) => results.as_slice(),
            TaskValue::Blocked | TaskValue::Skipped | TaskValue::UpstreamFailed => &[],
        }
    }
}

/// Each of these tasks of a run, in order, with its value and the counts of its instances. None has more than 1,024
/// instances.
pub fn settled_tasks<'a>(
    alloc: Global,
    tasks: &'a [TaskReport],
) -> Result<Vec<Settled<'a>>, OutOfMemory>
    requires { All IsFewTask tasks.now }
    ensures { IfOk result (λ settled. settled.items ≡ tasks.entry.now) }
{
    let mut settled = Vec::with_capacity(alloc, tasks.len())?;
    for told in tasks {
        settled.push(Settled::new(alloc, told)?)?;
    }
    Ok(settled)
}
