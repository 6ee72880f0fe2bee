//! What the rule of a task says, in a sentence.
ghost use Rattle.std.specs.Prelude.{◌≡◌, ◌<◌, IfOk, length};
ghost use Rattle.bf_core.specs.Terms.{task_of};
ghost use Rattle.bf_why.specs.Decided.{over_instances_text_of, rule_sentence_of, ruled_text_of};
ghost use Rattle.bf_rule.specs.Verdicts.{total_of};

use crate::counted::counts_text;
use crate::since::{rule_text, since_text, verdict_text};
use bf_plan::Plan;
use bf_reason::{Settled, counts_of_tasks};
use bf_rule::{Counts, Verdict};
use bf_value::{OutOfMemory, Text};
use bf_wording::count_text;
use std::alloc::Global;

/// How many instances the counts add up to, unfinished ones included.
fn total(counts: &Counts) -> u64
    ensures { result ≡ total_of counts.now }
{
    u64::from(counts.success)
        + u64::from(counts.failed)
        + u64::from(counts.upstream_failed)
        + u64::from(counts.skipped)
        + u64::from(counts.blocked)
        + u64::from(counts.unfinished)
}

/// How many upstream instances there are and in which states, such as `3 upstream instances (2 success, 1 failed)`.
fn over_instances_text(alloc: Global, counts: &Counts) -> Result<Text, OutOfMemory>
    ensures { IfOk result (λ text. text ≡ over_instances_text_of counts.now) }
{
    let over = count_text(alloc, total(counts), "upstream instance")?;
    let counts = counts_text(alloc, counts)?;
    Ok(Text::new(format!(in alloc; "{over} ({counts})")?))
}

/// The sentence that a task's trigger rule gives this verdict, with the states of the upstream instances and the
/// ground, such as `Its rule all_success, over 1 upstream instance (1 success), says run, since all are success.`
fn rule_sentence(
    alloc: Global,
    plan: &Plan,
    settled: &[Settled<'_>],
    task: u32,
    verdict: Verdict,
) -> Result<Text, OutOfMemory>
    requires { task < length plan.now.dag.tasks }
    ensures { IfOk result (λ text. text ≡ rule_sentence_of plan.now.dag settled.now task verdict) }
{
    let dag = plan.dag();
    let decided = dag.task(task);
    let counts = counts_of_tasks(settled, decided.upstreams.as_slice());
    let over = over_instances_text(alloc, &counts)?;
    let since = since_text(alloc, dag, settled, task, verdict)?;
    let (rule, says) = (rule_text(decided.rule), verdict_text(verdict));
    let text = format!(in alloc; "Its rule {rule}, over {over}, says {says}, {since}.")?;
    Ok(Text::new(text))
}

/// The sentence that a task's trigger rule gives this verdict and on what ground. Where the task has no upstreams, it
/// says that no rule holds it back. `settled` are the tasks of the run.
pub(crate) fn ruled_text(
    alloc: Global,
    plan: &Plan,
    settled: &[Settled<'_>],
    task: u32,
    verdict: Verdict,
) -> Result<Text, OutOfMemory>
    requires { task < length plan.now.dag.tasks }
    ensures { IfOk result (λ text. text ≡ ruled_text_of plan.now.dag settled.now task verdict) }
{
    if plan.dag().task(task).upstreams.is_empty() {
        Text::copy_of(alloc, "It has no upstream tasks, so no rule holds it back.")
    } else {
        rule_sentence(alloc, plan, settled, task, verdict)
    }
}
