//! What a report has of the tasks of a run and of the run before.
ghost use Rattle.std.specs.Prelude.{◌≡◌, All, IfOk};
ghost use Rattle.bf_reason.specs.Runs.{tasks_in, tasks_before};
ghost use Rattle.bf_reason.specs.Settled.{IsFewTask};
ghost use Rattle.bf_roots.specs.inner.Showing.{IsShowing};

use bf_reason::{Settled, settled_tasks};
use bf_report::{Report, TaskReport};
use bf_value::OutOfMemory;
use std::alloc::Global;

/// What a report has of the tasks of a run, `settled`, and of the run before it, `before`, empty for the first run.
#[derive(Drop)]
pub(crate) struct Window<'a> {
    pub(crate) run: u32,
    pub(crate) settled: Vec<Settled<'a>>,
    pub(crate) before: Vec<Settled<'a>>,
}

/// The tasks of run number `run`, from 0; empty where the report has no such run.
fn tasks_of(report: &Report, run: usize) -> &[TaskReport]
    requires { All (λ run. All IsFewTask run.tasks) report.now.runs }
    ensures tasks { result.now ≡ tasks_in report.now run }
    ensures few { All IsFewTask result.now }
{
    match report.runs.get(run) {
        Some(run) => run.tasks.as_slice(),
        None => &[],
    }
}

/// The tasks of the run before run number `run`; empty for run 0, and where the report has no such run.
fn tasks_before_run(report: &Report, run: usize) -> &[TaskReport]
    requires { All (λ run. All IsFewTask run.tasks) report.now.runs }
    ensures tasks { result.now ≡ tasks_before report.now run }
    ensures few { All IsFewTask result.now }
{
    if run == 0 {
        &[]
    } else {
        tasks_of(report, run - 1)
    }
}

impl<'a> Window<'a> {
    /// Reads from the report the tasks of run number `run` and of the run before. A run that the report lacks has no
    /// tasks.
    pub(crate) fn at(alloc: Global, report: &'a Report, run: u32) -> Result<Window<'a>, OutOfMemory>
        requires { All (λ run. All IsFewTask run.tasks) report.now.runs }
        ensures run { IfOk result (λ window. window.run ≡ run) }
        ensures shows { IfOk result (IsShowing report.entry.now) }
    {
        let settled = settled_tasks(alloc, tasks_of(report, run as usize))?;
        let before = settled_tasks(alloc, tasks_before_run(report, run as usize))?;
        Ok(Window {
            run,
            settled,
            before,
        })
    }

    /// The window at run number `run`: `self` where it is there already, else a new one.
    pub(crate) fn moved(
        self,
        alloc: Global,
        report: &'a Report,
        run: u32,
    ) -> Result<Window<'a>, OutOfMemory>
        requires few { All (λ run. All IsFewTask run.tasks) report.now.runs }
        requires shows { IsShowing report.now self }
        ensures run { IfOk result (λ window. window.run ≡ run) }
        ensures shows { IfOk result (IsShowing report.entry.now) }
    {
        if self.run == run {
            Ok(self)
        } else {
            Window::at(alloc, report, run)
        }
    }
}
