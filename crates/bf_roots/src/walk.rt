//! The walk from a task to the roots of its state.
ghost use Rattle.std.specs.Prelude.{◌≡◌, ◌≤◌, ◌∷◌, [], All, IfOk, OnOk, false, length};
ghost use Rattle.bf_reason.specs.Settled.{IsFewTask};
ghost use Rattle.bf_roots.specs.inner.Showing.{LooksAt};
ghost use Rattle.bf_roots.specs.Walks.{AreRootsOf, first_step_of, is_seen_in, nothing_seen};

use crate::onward::{add_root, steps_onward};
use crate::seen::{is_seen, mark_seen, unseen_rows};
use crate::step::{Root, WalkStep};
use crate::window::Window;
use bf_plan::Plan;
use bf_report::Report;
use bf_value::{OutOfMemory, Sequence};
use std::alloc::Global;

/// The state of a walk: the tasks in runs that it has seen, the steps left, the next one last, and the roots found.
#[derive(Drop)]
struct Trail {
    seen: Vec<Sequence<bool>>,
    left: Vec<WalkStep>,
    found: Vec<Root>,
}

/// The step to task number `task` in run number `run`, at which the walk looks at how the task ended.
fn first_step(run: u32, task: u32) -> WalkStep
    ensures { result ≡ first_step_of run task }
{
    WalkStep {
        run,
        task,
        began: None,
    }
}

impl Trail {
    /// A trail over `runs` runs of `tasks` tasks each, with `step` left to go and nothing seen or found.
    fn new(alloc: Global, runs: usize, tasks: usize, step: WalkStep) -> Result<Trail, OutOfMemory>
        ensures seen { IfOk result (λ trail. trail.seen.items ≡ nothing_seen runs tasks) }
        ensures left { IfOk result (λ trail. trail.left.items ≡ step ∷ []) }
        ensures found { IfOk result (λ trail. trail.found.items ≡ []) }
    {
        let seen = unseen_rows(alloc, runs, tasks)?;
        let mut left = Vec::new(alloc);
        left.push(step)?;
        let found = Vec::new(alloc);
        Ok(Trail { seen, left, found })
    }

    /// Visits the task of `step`, which isn't seen yet: marks it as seen, adds a root where something began there, and
    /// puts the steps onward before those left. `window` is at the step's run.
    fn visit(
        &mut self,
        alloc: Global,
        plan: &Plan,
        window: &Window<'_>,
        step: WalkStep,
    ) -> Result<(), OutOfMemory>
        requires unseen { is_seen_in self.old.seen.items step.run step.task ≡ false }
        requires within { length window.now.settled.items ≤ length plan.now.dag.tasks }
        ensures { OnOk result (LooksAt plan.now.dag window.now.settled.items window.now.before.items
            step self.old self.new) }
    {
        mark_seen(&mut self.seen, step.run, step.task);
        add_root(&mut self.found, &window.settled, step)?;
        let mut steps = steps_onward(alloc, plan, &window.settled, &window.before, step)?;
        steps.reverse();
        self.left.extend_from_slice(steps.as_slice())?;
        Ok(())
    }
}

/// The roots of the state of task number `task` in run number `run`: the tasks in runs where it began, in the order in
/// which the walk finds them. Each run has the plan's tasks, and no task has more than 1,024 instances. Each turn of
/// the walk to another run takes time over all tasks.
pub fn roots_of(
    alloc: Global,
    plan: &Plan,
    report: &Report,
    run: u32,
    task: u32,
) -> Result<Vec<Root>, OutOfMemory>
    requires tasks { All (λ run. length run.tasks ≡ length plan.now.dag.tasks) report.now.runs }
    requires few { All (λ run. All IsFewTask run.tasks) report.now.runs }
    ensures { IfOk result (λ roots. AreRootsOf plan.now.dag report.now run task roots.items) }
{
    let runs = report.runs.len();
    let tasks = plan.dag().tasks.len();
    let mut window = Window::at(alloc, report, run)?;
    let mut trail = Trail::new(alloc, runs, tasks, first_step(run, task))?;
    while let Some(step) = trail.left.pop() {
        if is_seen(trail.seen.as_slice(), step.run, step.task) {
            continue;
        }
        window = window.moved(alloc, report, step.run)?;
        trail.visit(alloc, plan, &window, step)?;
    }
    Ok(trail.found)
}
