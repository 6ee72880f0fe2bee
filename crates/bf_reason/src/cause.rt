//! Why something is decided of a task in a run.
ghost use Rattle.std.specs.Prelude.{◌≡◌, ◌≤◌, ◌<◌, List, Option, Some, filter, is_some, length, not};
ghost use Rattle.std.specs.List.{list_all, list_any};
ghost use Rattle.bf_mapped.specs.Items.{items_of};
ghost use Rattle.bf_mapped.specs.declared.source.SourceValues.{SourceValues};
ghost use Rattle.bf_xcom.specs.Pulls.{pushed_value_of, only_pushed_value_in};
ghost use Rattle.bf_core.specs.Deciding.{branch_is, branch_skips, counts_in, counts_over, is_blocked_in, lets_pass_in};
ghost use Rattle.bf_core.specs.Terms.{is_failed, items, task_of, TaskResult, TaskValue, Verdict, Xval};
ghost use Rattle.bf_reason.specs.Causes.{cause_of};
ghost use Rattle.bf_reason.specs.inner.Causes.{item_count, past_lets_go_on_of, values_given};
ghost use Rattle.bf_reason.specs.Reasons.{cause_by_source_of, cause_by_verdict_of, reason};
ghost use Rattle.bf_reason.specs.Settled.{before_among, seen_among, value_among};
ghost use Rattle.bf_rule.specs.Verdicts.{total_of};

use crate::settled::Settled;
use bf_core::is_expanded;
use bf_plan::{Dag, Plan, Task};
use bf_rule::{Counts, Verdict, followed, verdict};
use bf_value::Xval;
use bf_xcom::{Outcome, TaskResult, TaskValue};

/// Why a task in a run gets its state: the step of the decision that settles it.
#[derive(Clone, Copy, Debug, PartialEq, Eq)]
pub enum StateCause {
    /// Something that decides it isn't settled yet; in a report everything is.
    Waits,
    /// It is skipped: a branch directly upstream succeeded and doesn't follow it.
    NotFollowed,
    /// It has no status: a branch directly upstream has none.
    BranchIsBlocked,
    /// It has no status: a task directly upstream has none.
    UpstreamIsBlocked,
    /// It is skipped by its trigger rule.
    RuleSkips,
    /// It is upstream_failed by its trigger rule.
    RuleFails,
    /// It has no status: it depends on its past, and neither passed nor was skipped in the run before.
    PastHasNotPassed,
    /// It is upstream_failed: the task that it is expanded over gave no list of items.
    ItemsAreMissing,
    /// It is skipped: the task that it is expanded over gave an empty list of items.
    HasNoItems,
    /// It runs, as so many instances.
    Runs(usize),
}

/// How many instances of task number `task` are in each state; one blocked instance where `settled`, the tasks of the
/// run, lacks the task.
pub fn counts_at(settled: &[Settled<'_>], task: u32) -> Counts
    ensures counts { result ≡ counts_in (value_among settled.now task) }
    ensures few { total_of result ≤ 1_024 }
{
    match settled.get(task as usize) {
        Some(settled) => settled.counts(),
        None => Counts {
            blocked: 1,
            ..Counts::NONE
        },
    }
}

/// How many instances of these tasks, at most 20,000, are in each state; a task that `settled` lacks counts as one
/// blocked instance.
pub fn counts_of_tasks(settled: &[Settled<'_>], tasks: &[u32]) -> Counts
    requires { length tasks.now ≤ 20_000 }
    ensures { result ≡ counts_over (seen_among settled.now) tasks.now }
{
    let mut counts = Counts::NONE;
    for task in tasks {
        counts = counts.plus(counts_at(settled, *task));
    }
    counts
}

/// Whether a branch with these results succeeded and doesn't follow `task`; false where there is no result.
fn results_skip(plan: &Plan, branch: u32, task: u32, results: &[TaskResult]) -> bool
    requires { task < length plan.now.dag.tasks }
    ensures { result ≡ branch_skips plan.now.dag task branch (TaskValue.Ran results.now) }
{
    let [first, ..] = results else {
        return false;
    };
    match &first.outcome {
        Outcome::Success(pushed) => !followed(plan.graph(), branch, pushed.get(), task),
        Outcome::Failed | Outcome::Skipped => false,
    }
}

/// Whether a branch with this value succeeded and doesn't follow `task`.
fn value_skips(plan: &Plan, branch: u32, task: u32, value: &TaskValue) -> bool
    requires { task < length plan.now.dag.tasks }
    ensures { result ≡ branch_skips plan.now.dag task branch value.now }
{
    match value {
        TaskValue::Ran(results) => results_skip(plan, branch, task, results.as_slice()),
        TaskValue::Blocked | TaskValue::Skipped | TaskValue::UpstreamFailed => false,
    }
}

/// Whether `upstream` is a branch that succeeded and doesn't follow `task`; false where `settled`, the tasks of the
/// run, lacks it.
pub fn is_skipping_branch(plan: &Plan, settled: &[Settled<'_>], upstream: u32, task: u32) -> bool
    requires { task < length plan.now.dag.tasks }
    ensures { result ≡ branch_is plan.now.dag (branch_skips plan.now.dag task upstream) upstream
        (Some (value_among settled.now upstream)) }
{
    match settled.get(upstream as usize) {
        Some(settled) => {
            plan.dag().is_branch(upstream) && value_skips(plan, upstream, task, settled.value())
        }
        None => false,
    }
}

/// Whether task number `task` is blocked, and so has no status; true where `settled`, the tasks of the run, lacks it.
pub fn is_blocked(settled: &[Settled<'_>], task: u32) -> bool
    ensures { result ≡ is_blocked_in (value_among settled.now task) }
{
    match settled.get(task as usize) {
        Some(settled) => matches!(settled.value(), TaskValue::Blocked),
        None => true,
    }
}

/// Whether `upstream` is a branch without a status; true for a branch that `settled`, the tasks of the run, lacks.
pub fn is_blocked_branch(dag: &Dag, settled: &[Settled<'_>], upstream: u32) -> bool
    ensures { result ≡ branch_is dag.now is_blocked_in upstream
        (Some (value_among settled.now upstream)) }
{
    dag.is_branch(upstream) && is_blocked(settled, upstream)
}

/// Whether one of these upstreams is a branch that succeeded and doesn't follow `task`.
fn has_skipping_branch(plan: &Plan, settled: &[Settled<'_>], task: u32, upstreams: &[u32]) -> bool
    requires { task < length plan.now.dag.tasks }
    ensures { result ≡ list_any (λ u. branch_is plan.now.dag (branch_skips plan.now.dag task u) u
        (Some (value_among settled.now u))) upstreams.now }
{
    upstreams.iter().any(|upstream| is_skipping_branch(plan, settled, *upstream, task))
}

/// Whether one of these upstreams is a branch without a status.
fn has_blocked_branch(plan: &Plan, settled: &[Settled<'_>], upstreams: &[u32]) -> bool
    ensures { result ≡ list_any (λ u. branch_is plan.now.dag is_blocked_in u
        (Some (value_among settled.now u))) upstreams.now }
{
    let dag = plan.dag();
    upstreams
        .iter()
        .any(|upstream| is_blocked_branch(dag, settled, *upstream))
}

/// Whether an instance failed.
fn has_failed(ended: &TaskResult) -> bool
    ensures { result ≡ is_failed ended.now.outcome }
{
    matches!(ended.outcome, Outcome::Failed)
}

/// Whether none of these instances failed; true where there are none.
fn have_passed(results: &[TaskResult]) -> bool
    ensures { result ≡ list_all (λ ended. not (is_failed ended.outcome)) results.now }
{
    results.iter().all(|ended| !has_failed(ended))
}

/// Whether a task that depends on its past may run after this value of it in the run before: it was skipped, or ran
/// without a failed instance.
#[tactic(auto, using(crate::proofs::CauseFacts::all_passed_is))]
fn lets_pass(value: &TaskValue) -> bool
    ensures { result ≡ lets_pass_in value.now }
{
    match value {
        TaskValue::Skipped => true,
        TaskValue::Ran(results) => have_passed(results.as_slice()),
        TaskValue::Blocked | TaskValue::UpstreamFailed => false,
    }
}

/// Whether a task that depends on its past may run after the run with these tasks: it was skipped there, or ran without
/// a failed instance. False where `settled` lacks it.
fn has_passed(settled: &[Settled<'_>], task: u32) -> bool
    ensures { result ≡ lets_pass_in (value_among settled.now task) }
{
    match settled.get(task as usize) {
        Some(settled) => lets_pass(settled.value()),
        None => false,
    }
}

/// Whether its past lets `task`, whose number is `number`, run in run number `run`: the task doesn't depend on it, the
/// run is the first, 0, or the task was skipped or ran without a failed instance in the run before, whose tasks are
/// `before`.
fn past_lets_go_on(task: &Task, run: usize, before: &[Settled<'_>], number: u32) -> bool
    ensures { result ≡ past_lets_go_on_of task.now.depends_on_past run
        (before_among before.now run number) }
{
    !task.depends_on_past || run == 0 || has_passed(before, number)
}

/// How many of these instances pushed a value.
fn count_pushed(results: &[TaskResult]) -> usize
    ensures { result ≡ length (filter (λ ended. is_some (pushed_value_of ended)) results.now) }
{
    results
        .iter()
        .filter(|ended| ended.outcome.pushed().is_some())
        .count()
}

/// How many items are in the list that a task which isn't expanded pushed; None where it pushed no list.
fn count_listed(results: &[TaskResult]) -> Option<usize>
    ensures { result
        ≡ item_count (items_of (SourceValues.Pushed (only_pushed_value_in results.now))) }
{
    let [first, ..] = results else {
        return None;
    };
    match first.outcome.pushed() {
        Some(Xval::List(values)) => Some(values.as_slice().len()),
        _ => None,
    }
}

/// How many items a task with these results gives the task expanded over it: the values that its instances pushed where
/// it is expanded itself, else the length of the list that it pushed. None where it pushed no list.
#[tactic(auto, using(crate::proofs::CauseFacts::pushed_count))]
fn count_of_ran(is_expanded: bool, results: &[TaskResult]) -> Option<usize>
    ensures { result ≡ item_count (items_of
        (values_given is_expanded (TaskValue.Ran results.now))) }
{
    if is_expanded {
        Some(count_pushed(results))
    } else {
        count_listed(results)
    }
}

/// How many items a task with this value gives the task expanded over it. None where it didn't run, or isn't expanded
/// and pushed no list.
fn count_given(is_expanded: bool, value: &TaskValue) -> Option<usize>
    ensures { result ≡ item_count (items_of (values_given is_expanded value.now)) }
{
    match value {
        TaskValue::Ran(results) => count_of_ran(is_expanded, results.as_slice()),
        TaskValue::Blocked | TaskValue::Skipped | TaskValue::UpstreamFailed => None,
    }
}

/// How many items `source` gives the task expanded over it. None where it didn't run, isn't expanded and pushed no
/// list, or `settled`, the tasks of the run, lacks it.
#[tactic(auto, using(crate::proofs::CauseFacts::items_by))]
fn count_items(dag: &Dag, settled: &[Settled<'_>], source: u32) -> Option<usize>
    ensures { result ≡ item_count (items (task_of dag.now source)
        (value_among settled.now source)) }
{
    match settled.get(source as usize) {
        Some(settled) => count_given(is_expanded(dag, source), settled.value()),
        None => None,
    }
}

/// The cause for a task that its rule and its past let run: whether `expand`, the task that it is expanded over, gives
/// items. Where that is None it runs as one instance.
fn cause_by_source(dag: &Dag, settled: &[Settled<'_>], expand: Option<u32>) -> StateCause
    ensures { (pulled : List (Option Xval)) →
        result ≡ cause_of (cause_by_source_of dag.now (seen_among settled.now) pulled expand) }
{
    let Some(source) = expand else {
        return StateCause::Runs(1);
    };
    match count_items(dag, settled, source) {
        None => StateCause::ItemsAreMissing,
        Some(0) => StateCause::HasNoItems,
        Some(count) => StateCause::Runs(count),
    }
}

/// The cause for task number `number` that its rule lets run: its past where that holds it back, else the items that it
/// is expanded over. `settled` are the tasks of run number `run`, and `before` those of the run before, empty for run
/// 0.
fn cause_by_past(
    dag: &Dag,
    run: usize,
    settled: &[Settled<'_>],
    before: &[Settled<'_>],
    number: u32,
) -> StateCause
    requires { number < length dag.now.tasks }
    ensures { result ≡ cause_of (cause_by_verdict_of dag.now run (seen_among settled.now)
        (before_among before.now run number) number Verdict.Run) }
{
    let task = dag.task(number);
    if past_lets_go_on(task, run, before, number) {
        cause_by_source(dag, settled, task.expand)
    } else {
        StateCause::PastHasNotPassed
    }
}

/// The cause for task number `number`, whose rule has this verdict. `settled` are the tasks of run number `run`, and
/// `before` those of the run before, empty for run 0.
fn cause_by_verdict(
    dag: &Dag,
    run: usize,
    settled: &[Settled<'_>],
    before: &[Settled<'_>],
    number: u32,
    verdict: Verdict,
) -> StateCause
    requires { number < length dag.now.tasks }
    ensures { result ≡ cause_of (cause_by_verdict_of dag.now run (seen_among settled.now)
        (before_among before.now run number) number verdict) }
{
    match verdict {
        Verdict::Wait => StateCause::Waits,
        Verdict::Blocked => StateCause::UpstreamIsBlocked,
        Verdict::Skip => StateCause::RuleSkips,
        Verdict::UpstreamFailed => StateCause::RuleFails,
        Verdict::Run => cause_by_past(dag, run, settled, before, number),
    }
}

/// The task of this number, which has at most 20,000 upstreams.
fn task_in(plan: &Plan, task: u32) -> &Task
    requires { task < length plan.now.dag.tasks }
    ensures task { result.now ≡ task_of plan.now.dag task }
    ensures few { length result.now.upstreams ≤ 20_000 }
{
    plan.dag().task(task)
}

/// Why the graph decides what it does of task number `task` in run number `run`, from 0. `settled` are the tasks of the
/// run and `before` those of the run before, empty for the first.
pub fn cause_at(
    plan: &Plan,
    run: usize,
    settled: &[Settled<'_>],
    before: &[Settled<'_>],
    task: u32,
) -> StateCause
    requires { task < length plan.now.dag.tasks }
    ensures { result ≡ cause_of (reason plan.now.dag run (seen_among settled.now)
        (before_among before.now run task) task) }
{
    let decided = task_in(plan, task);
    let upstreams = decided.upstreams.as_slice();
    if has_skipping_branch(plan, settled, task, upstreams) {
        return StateCause::NotFollowed;
    }
    if has_blocked_branch(plan, settled, upstreams) {
        return StateCause::BranchIsBlocked;
    }
    let counts = counts_of_tasks(settled, upstreams);
    let verdict = verdict(decided.rule, &counts);
    cause_by_verdict(plan.dag(), run, settled, before, task, verdict)
}
