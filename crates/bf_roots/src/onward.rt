//! What began at a place, and where the walk goes on from there.
ghost use Rattle.std.specs.Prelude.{◌≡◌, ◌≤◌, ◌<◌, ◌++◌, IfOk, OnOk, length, map, slice_get};
ghost use Rattle.bf_roots.specs.Onward.{tasks_of_option_of, began_in, began_by_end_in, began_by_cause_in, goes_on_in, is_tried_in, next_run_of, next_tasks_of, onward_among, onward_of, onward_if_told, roots_among, skipping_states_of, step_by};

use crate::step::{Began, Root, WalkStep};
use crate::upstreams::{blocked_branches, blocked_tasks, branches_that_skip, tasks_in_states};
use bf_core::is_expanded;
use bf_plan::Plan;
use bf_reason::{Settled, StateCause, cause_at};
use bf_report::TaskReport;
use bf_rule::Rule;
use bf_value::OutOfMemory;
use bf_why::{States, has_instance_in, is_foreign};
use std::alloc::Global;

/// Whether a report has a task as one that ran, as one instance or expanded.
pub fn is_tried(told: &Settled<'_>) -> bool
    ensures { result ≡ is_tried_in told.now }
{
    matches!(
        told.task_report(),
        TaskReport::Ran(_) | TaskReport::Mapped(_)
    )
}

/// What began at a task by how its instances ended: `Failed` where one is failed or upstream_failed, else `Exited`
/// where one is skipped, else None.
fn began_by_end(settled: &[Settled<'_>], task: u32) -> Option<Began>
    ensures { result ≡ began_by_end_in settled.now task }
{
    if has_instance_in(settled, States::FAILURES, task) {
        Some(Began::Failed)
    } else if has_instance_in(settled, States::SKIPPED, task) {
        Some(Began::Exited)
    } else {
        None
    }
}

/// What began at task number `task`: `began` where it is given, else `Failed` or `Exited` by how its instances ended.
/// None where none failed or was skipped, the task didn't run, or `settled` lacks it.
fn began_at(settled: &[Settled<'_>], task: u32, began: Option<Began>) -> Option<Began>
    ensures { result ≡ began_in settled.now task began }
{
    match (began, settled.get(task as usize)) {
        (Some(began), _) => Some(began),
        (None, Some(told)) if is_tried(told) => began_by_end(settled, task),
        (None, _) => None,
    }
}

/// Adds the task and run of `step` to `roots` where something began there; adds nothing otherwise. `settled` are the
/// tasks of the step's run.
pub(crate) fn add_root(
    roots: &mut Vec<Root>,
    settled: &[Settled<'_>],
    step: WalkStep,
) -> Result<(), OutOfMemory>
    ensures { OnOk result (roots.new.items ≡ roots.old.items ++ roots_among settled.now step) }
{
    if let Some(began) = began_at(settled, step.task, step.began) {
        roots.push(Root {
            run: step.run,
            task: step.task,
            began,
        })?;
    }
    Ok(())
}

/// The states of upstreams for which a trigger rule skips a task; none for a rule that doesn't skip, or skips for want
/// of failures. An upstream that is a success is left out, since nothing began there.
fn skipping_states(rule: Rule) -> States
    ensures { result ≡ skipping_states_of rule }
{
    match rule {
        Rule::AllSuccess
        | Rule::AllFailed
        | Rule::OneSuccess
        | Rule::NoneFailedMinOneSuccess
        | Rule::NoneSkipped => States::SKIPPED,
        Rule::AllSkipped => States::FAILURES,
        Rule::OneDone => States {
            upstream_failed: true,
            ..States::SKIPPED
        },
        Rule::AllDone | Rule::OneFailed | Rule::NoneFailed | Rule::Always => States {
            skipped: false,
            ..States::SKIPPED
        },
    }
}

/// The given task in a list of its own; the empty list for None.
fn list_of_option(alloc: Global, task: Option<u32>) -> Result<Vec<u32>, OutOfMemory>
    ensures { IfOk result (λ tasks. tasks.items ≡ tasks_of_option_of task) }
{
    let mut tasks = Vec::new(alloc);
    if let Some(task) = task {
        tasks.push(task)?;
    }
    Ok(tasks)
}

/// The tasks that made a task's state what it is, by its cause: upstreams, the task itself in the run before, or the
/// task that it is expanded over. Empty where it waits or runs.
fn next_tasks(
    alloc: Global,
    plan: &Plan,
    settled: &[Settled<'_>],
    task: u32,
    cause: StateCause,
) -> Result<Vec<u32>, OutOfMemory>
    requires { task < length plan.now.dag.tasks }
    ensures { IfOk result (λ tasks. tasks.items
        ≡ next_tasks_of plan.now.dag settled.now task cause) }
{
    let dag = plan.dag();
    let here = dag.task(task);
    let upstreams = here.upstreams.as_slice();
    match cause {
        StateCause::NotFollowed => Ok(branches_that_skip(alloc, plan, settled, upstreams, task)?),
        StateCause::BranchIsBlocked => Ok(blocked_branches(alloc, dag, settled, upstreams)?),
        StateCause::UpstreamIsBlocked => Ok(blocked_tasks(alloc, settled, upstreams)?),
        StateCause::RuleFails => Ok(tasks_in_states(alloc, settled, upstreams, States::FAILURES)?),
        StateCause::RuleSkips => {
            let states = skipping_states(here.rule);
            Ok(tasks_in_states(alloc, settled, upstreams, states)?)
        }
        StateCause::PastHasNotPassed => list_of_option(alloc, Some(task)),
        StateCause::ItemsAreMissing | StateCause::HasNoItems => list_of_option(alloc, here.expand),
        StateCause::Waits | StateCause::Runs(_) => Ok(Vec::new(alloc)),
    }
}

/// The run that the walk goes to next: the run before `run`, or 0 for run 0, where the cause is the task's past, else
/// `run`.
fn next_run(run: u32, cause: StateCause) -> u32
    ensures { result ≡ next_run_of run cause }
{
    match cause {
        StateCause::PastHasNotPassed => run.saturating_sub(1),
        _ => run,
    }
}

/// What began at the tasks that this cause leads to, where the cause tells, so that the walk ends there; None where the
/// walk has to look at them.
fn began_by_cause(cause: StateCause) -> Option<Began>
    ensures { result ≡ began_by_cause_in cause }
{
    match cause {
        StateCause::NotFollowed => Some(Began::Pushed),
        StateCause::HasNoItems => Some(Began::PushedNoItems),
        _ => None,
    }
}

/// The walk's steps from run number `run` to these tasks, in order. The cause tells in which run they are and, for some
/// causes, what began there.
fn steps_to(
    alloc: Global,
    run: u32,
    cause: StateCause,
    tasks: &[u32],
) -> Result<Vec<WalkStep>, OutOfMemory>
    ensures { IfOk result (λ steps. steps.items ≡ map (step_by run cause) tasks.now) }
{
    let run = next_run(run, cause);
    let began = began_by_cause(cause);
    let mut steps = Vec::with_capacity(alloc, tasks.len())?;
    for task in tasks {
        let task = *task;
        steps.push(WalkStep { run, task, began })?;
    }
    Ok(steps)
}

/// Whether the walk goes on from a task: by `told`, its report, the task didn't run, and its state follows from the
/// cause.
fn goes_on(is_expanded: bool, cause: StateCause, told: &Settled<'_>) -> bool
    ensures { result ≡ goes_on_in is_expanded cause told.now }
{
    !is_tried(told) && !is_foreign(is_expanded, cause, told)
}

/// The walk's steps onward from task number `task` in `run`, by this cause of its state. Empty where by `told`, its
/// report, it ran or its state doesn't follow from the cause.
fn steps_for_cause(
    alloc: Global,
    plan: &Plan,
    settled: &[Settled<'_>],
    run: u32,
    task: u32,
    cause: StateCause,
    told: &Settled<'_>,
) -> Result<Vec<WalkStep>, OutOfMemory>
    requires { task < length plan.now.dag.tasks }
    ensures { IfOk result (λ steps. steps.items
        ≡ onward_of plan.now.dag settled.now run task cause told.now) }
{
    if goes_on(is_expanded(plan.dag(), task), cause, told) {
        let tasks = next_tasks(alloc, plan, settled, task, cause)?;
        steps_to(alloc, run, cause, tasks.as_slice())
    } else {
        Ok(Vec::new(alloc))
    }
}

/// The walk's steps onward from task number `task` in run number `run`; empty where `settled` lacks it. `settled` are
/// the tasks of that run and `before` those of the run before, empty for the first.
fn steps_from(
    alloc: Global,
    plan: &Plan,
    settled: &[Settled<'_>],
    before: &[Settled<'_>],
    run: u32,
    task: u32,
) -> Result<Vec<WalkStep>, OutOfMemory>
    requires { length settled.now ≤ length plan.now.dag.tasks }
    ensures { IfOk result (λ steps. steps.items
        ≡ onward_if_told plan.now.dag settled.now before.now run task
        (slice_get settled.now task)) }
{
    match settled.get(task as usize) {
        Some(told) => {
            let cause = cause_at(plan, run as usize, settled, before, task);
            steps_for_cause(alloc, plan, settled, run, task, cause, told)
        }
        None => Ok(Vec::new(alloc)),
    }
}

/// The walk's steps onward from `step`, at most 20,000; empty where it tells already what began. `settled` are the
/// tasks of its run and `before` those of the run before, empty for the first.
pub(crate) fn steps_onward(
    alloc: Global,
    plan: &Plan,
    settled: &[Settled<'_>],
    before: &[Settled<'_>],
    step: WalkStep,
) -> Result<Vec<WalkStep>, OutOfMemory>
    requires { length settled.now ≤ length plan.now.dag.tasks }
    ensures steps { IfOk result (λ steps. steps.items
        ≡ onward_among plan.now.dag settled.now before.now step) }
    ensures few { IfOk result (λ steps. length steps.items ≤ 20_000) }
{
    let _few = plan.dag();
    if step.began.is_some() {
        return Ok(Vec::new(alloc));
    }
    steps_from(alloc, plan, settled, before, step.run, step.task)
}
