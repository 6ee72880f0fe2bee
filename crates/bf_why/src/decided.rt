//! How a task was decided in a run, in sentences.
ghost use Rattle.std.specs.Prelude.{◌≡◌, ◌<◌, ◌++◌, ◌∷◌, [], IfOk, IfSome, Option, length, option_map};
ghost use Rattle.bf_core.specs.Terms.{task_of, Verdict};
ghost use Rattle.bf_reason.specs.declared.cause.StateCause.{StateCause};
ghost use Rattle.bf_why.specs.Decided.{decided_of, past_sentences, ruled_text_of, source_sentences};
ghost use Rattle.bf_report.specs.declared.report.RunReport.{RunReport};

use crate::past::add_past;
use crate::rule::ruled_text;
use crate::source::add_source;
use crate::upstreams::{
    blocked_branch_ids, blocked_branches_sentence, blocked_task_ids, blocked_upstreams_sentence,
    branch_sentences,
};
use bf_plan::Plan;
use bf_reason::{Settled, StateCause};
use bf_report::RunReport;
use bf_rule::Verdict;
use bf_value::{OutOfMemory, Text};
use bf_wording::one_line;
use std::alloc::Global;

/// The numbers of the tasks directly upstream of task number `task`.
fn upstreams_of(plan: &Plan, task: u32) -> &[u32]
    requires { task < length plan.now.dag.tasks }
    ensures { result.now ≡ (task_of plan.now.dag task).upstreams }
{
    plan.dag().task(task).upstreams.as_slice()
}

/// A sentence for each branch directly upstream that succeeded and doesn't follow the task, which skips it. `settled`
/// are the tasks of the run.
fn lines_by_branches(
    alloc: Global,
    plan: &Plan,
    settled: &[Settled<'_>],
    task: u32,
) -> Result<Vec<Text>, OutOfMemory>
    requires { task < length plan.now.dag.tasks }
    ensures { (before : Option RunReport) → IfOk result (λ lines.
        lines.items ≡ decided_of plan.now.dag settled.now before task StateCause.NotFollowed) }
{
    branch_sentences(alloc, plan, settled, upstreams_of(plan, task), task)
}

/// The one sentence that names the branches directly upstream without a status, which leave the task without one.
/// `settled` are the tasks of the run.
fn lines_by_blocked_branches(
    alloc: Global,
    plan: &Plan,
    settled: &[Settled<'_>],
    task: u32,
) -> Result<Vec<Text>, OutOfMemory>
    requires { task < length plan.now.dag.tasks }
    ensures { (before : Option RunReport) → IfOk result (λ lines.
        lines.items ≡ decided_of plan.now.dag settled.now before task StateCause.BranchIsBlocked) }
{
    let names = blocked_branch_ids(alloc, plan, settled, upstreams_of(plan, task))?;
    one_line(alloc, blocked_branches_sentence(alloc, names.as_slice())?)
}

/// The one sentence that names the tasks directly upstream without a status, which leave the task without one.
/// `settled` are the tasks of the run.
fn lines_by_blocked_tasks(
    alloc: Global,
    plan: &Plan,
    settled: &[Settled<'_>],
    task: u32,
) -> Result<Vec<Text>, OutOfMemory>
    requires { task < length plan.now.dag.tasks }
    ensures { (before : Option RunReport) → IfOk result (λ lines.
        lines.items ≡ decided_of plan.now.dag settled.now before task
        StateCause.UpstreamIsBlocked) }
{
    let names = blocked_task_ids(alloc, plan, settled, upstreams_of(plan, task))?;
    one_line(alloc, blocked_upstreams_sentence(alloc, names.as_slice())?)
}

/// The one sentence that a task's trigger rule gives this verdict, and on what ground. `settled` are the tasks of the
/// run.
fn lines_by_rule(
    alloc: Global,
    plan: &Plan,
    settled: &[Settled<'_>],
    task: u32,
    verdict: Verdict,
) -> Result<Vec<Text>, OutOfMemory>
    requires { task < length plan.now.dag.tasks }
    ensures { IfOk result (λ lines. lines.items
        ≡ ruled_text_of plan.now.dag settled.now task verdict ∷ []) }
{
    one_line(alloc, ruled_text(alloc, plan, settled, task, verdict)?)
}

/// The sentence that a task's trigger rule lets it run and, where it depends on its past, the one on how it ended in
/// the run before. `before` is that run, None for the first run, and `settled_before` its tasks.
fn lines_by_past(
    alloc: Global,
    plan: &Plan,
    settled: &[Settled<'_>],
    before: Option<&RunReport>,
    settled_before: &[Settled<'_>],
    task: u32,
) -> Result<Vec<Text>, OutOfMemory>
    requires task { task < length plan.now.dag.tasks }
    requires before { IfSome before (λ run. settled_before.now ≡ run.now.tasks) }
    ensures { IfOk result (λ lines. lines.items
        ≡ ruled_text_of plan.now.dag settled.now task Verdict.Run
        ∷ past_sentences plan.now.dag (option_map (λ run. run.now) before.entry) task) }
{
    let mut lines = lines_by_rule(alloc, plan, settled, task, Verdict::Run)?;
    add_past(alloc, &mut lines, plan, before, settled_before, task)?;
    Ok(lines)
}

/// Sentences that a task's trigger rule lets it run, on its past where it depends on that, and on the items that it is
/// expanded over where it is. `before` is the run before, None for the first run, and `settled_before` its tasks.
fn lines_by_source(
    alloc: Global,
    plan: &Plan,
    settled: &[Settled<'_>],
    before: Option<&RunReport>,
    settled_before: &[Settled<'_>],
    task: u32,
    cause: StateCause,
) -> Result<Vec<Text>, OutOfMemory>
    requires task { task < length plan.now.dag.tasks }
    requires before { IfSome before (λ run. settled_before.now ≡ run.now.tasks) }
    ensures { IfOk result (λ lines. lines.items
        ≡ ruled_text_of plan.now.dag settled.now task Verdict.Run
        ∷ (past_sentences plan.now.dag (option_map (λ run. run.now) before.entry) task
        ++ source_sentences plan.now.dag settled.now cause (task_of plan.now.dag task).expand)) }
{
    let mut lines = lines_by_past(alloc, plan, settled, before, settled_before, task)?;
    add_source(alloc, &mut lines, plan, settled, cause, task)?;
    Ok(lines)
}

/// Sentences on why the graph decides for this cause what becomes of a task. `settled` are the tasks of its run;
/// `before` is the run before, None for the first run, and `settled_before` its tasks.
pub(crate) fn decided_lines(
    alloc: Global,
    plan: &Plan,
    settled: &[Settled<'_>],
    before: Option<&RunReport>,
    settled_before: &[Settled<'_>],
    task: u32,
    cause: StateCause,
) -> Result<Vec<Text>, OutOfMemory>
    requires task { task < length plan.now.dag.tasks }
    requires before { IfSome before (λ run. settled_before.now ≡ run.now.tasks) }
    ensures { IfOk result (λ lines. lines.items ≡ decided_of plan.now.dag settled.now
        (option_map (λ run. run.now) before.entry) task cause) }
{
    match cause {
        StateCause::NotFollowed => lines_by_branches(alloc, plan, settled, task),
        StateCause::BranchIsBlocked => lines_by_blocked_branches(alloc, plan, settled, task),
        StateCause::UpstreamIsBlocked => lines_by_blocked_tasks(alloc, plan, settled, task),
        StateCause::RuleSkips => lines_by_rule(alloc, plan, settled, task, Verdict::Skip),
        StateCause::RuleFails => lines_by_rule(alloc, plan, settled, task, Verdict::UpstreamFailed),
        StateCause::PastHasNotPassed => lines_by_past(
            alloc,
            plan,
            settled,
            before,
            settled_before,
            task,
        ),
        StateCause::Waits
        | StateCause::ItemsAreMissing
        | StateCause::HasNoItems
        | StateCause::Runs(_) => {
            lines_by_source(alloc, plan, settled, before, settled_before, task, cause)
        }
    }
}
