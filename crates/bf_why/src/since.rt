//! Since when a rule says what it says of a task.
ghost use Rattle.std.specs.Prelude.{◌≡◌, ◌<◌, ◌++◌, IfOk, OnOk, Some, length, option_map};
ghost use Rattle.std.specs.List.{flat_map};
ghost use Rattle.bf_core.specs.Terms.{task_of};
ghost use Rattle.bf_why.specs.inner.Grounds.{IsGround};
ghost use Rattle.bf_why.specs.Since.{because_of_states, name_where, rule_text_of, shared, since, since_text_of, verdict_text_of, with_share};

use crate::states::States;
use bf_plan::Dag;
use bf_reason::{Settled, counts_at};
use bf_report::TaskReport;
use bf_rule::{Rule, Verdict};
use bf_value::{OutOfMemory, Text};
use bf_wording::{name_list, text_of_number};
use std::alloc::Global;

/// Why a rule gives a verdict: a reason in words, or the states of the upstream instances that it is due to.
#[derive(Clone, Copy, Debug)]
enum Ground {
    Words(&'static str),
    States(States),
}

/// The name of a trigger rule as Airflow and graph files write it.
pub(crate) fn rule_text(rule: Rule) -> &'static str
    ensures { result.now ≡ rule_text_of rule }
{
    match rule {
        Rule::AllSuccess => "all_success",
        Rule::AllFailed => "all_failed",
        Rule::AllSkipped => "all_skipped",
        Rule::AllDone => "all_done",
        Rule::OneSuccess => "one_success",
        Rule::OneFailed => "one_failed",
        Rule::OneDone => "one_done",
        Rule::NoneFailed => "none_failed",
        Rule::NoneFailedMinOneSuccess => "none_failed_min_one_success",
        Rule::NoneSkipped => "none_skipped",
        Rule::Always => "always",
    }
}

/// The word for a verdict: `skipped`, `upstream_failed`, or `run` for any other.
pub(crate) fn verdict_text(verdict: Verdict) -> &'static str
    ensures { result.now ≡ verdict_text_of verdict }
{
    match verdict {
        Verdict::Skip => "skipped",
        Verdict::UpstreamFailed => "upstream_failed",
        Verdict::Run | Verdict::Wait | Verdict::Blocked => "run",
    }
}

/// Why a rule gives this verdict: a reason in words, or the states of the upstream instances that it is due to. A
/// verdict that the rule never gives is taken for run.
fn ground_of(rule: Rule, verdict: Verdict) -> Ground
    ensures { IsGround (since rule verdict) result }
{
    match (rule, verdict) {
        (Rule::AllSuccess, Verdict::UpstreamFailed) => Ground::States(States::FAILURES),
        (Rule::AllSuccess, Verdict::Skip) => Ground::States(States::SKIPPED),
        (Rule::AllSuccess, _) => Ground::Words("since all are success"),
        (Rule::AllFailed, Verdict::Skip) => Ground::States(States {
            skipped: true,
            ..States::SUCCESS
        }),
        (Rule::AllFailed, _) => Ground::Words("since all are failed or upstream_failed"),
        (Rule::AllSkipped, Verdict::Skip) => Ground::States(States {
            success: true,
            ..States::FAILURES
        }),
        (Rule::AllSkipped, _) => Ground::Words("since all are skipped"),
        (Rule::AllDone, _) => Ground::Words("since all are done"),
        (Rule::OneSuccess, Verdict::UpstreamFailed) => {
            Ground::Words("since none is a success and not all are skipped")
        }
        (Rule::OneSuccess, Verdict::Skip) => Ground::Words("since all are skipped"),
        (Rule::OneSuccess, _) => Ground::States(States::SUCCESS),
        (Rule::OneFailed, Verdict::Skip) => {
            Ground::Words("since none is failed or upstream_failed")
        }
        (Rule::OneFailed, _) => Ground::States(States::FAILURES),
        (Rule::OneDone, Verdict::Skip) => Ground::Words("since none is success or failed"),
        (Rule::OneDone, _) => Ground::States(States {
            failed: true,
            ..States::SUCCESS
        }),
        (Rule::NoneFailed, Verdict::UpstreamFailed)
        | (Rule::NoneFailedMinOneSuccess, Verdict::UpstreamFailed) => {
            Ground::States(States::FAILURES)
        }
        (Rule::NoneFailed, _) => Ground::Words("since none is failed or upstream_failed"),
        (Rule::NoneFailedMinOneSuccess, Verdict::Skip) => {
            Ground::Words("since none is a success")
        }
        (Rule::NoneFailedMinOneSuccess, _) => {
            Ground::Words("since none is failed or upstream_failed and not all are skipped")
        }
        (Rule::NoneSkipped, Verdict::Skip) => Ground::States(States::SKIPPED),
        (Rule::NoneSkipped, _) => Ground::Words("since none is skipped"),
        (Rule::Always, _) => Ground::Words("whatever came of them"),
    }
}

/// The id of an expanded task and how many of its `all` instances are meant, such as `load (2 of 5)`.
fn name_with_share(alloc: Global, id: &str, count: u32, all: usize) -> Result<Text, OutOfMemory>
    ensures { IfOk result (λ text. text ≡ shared id.now count all) }
{
    let count = text_of_number(alloc, u64::from(count))?;
    let all = text_of_number(alloc, all as u64)?;
    Ok(Text::new(format!(in alloc; "{id} ({count} of {all})")?))
}

/// A task in a sentence: its id, and for one that ran expanded how many of its instances are meant, such as `load (2 of
/// 5)`.
fn name_of_task(alloc: Global, id: &str, count: u32, task: &TaskReport) -> Result<Text, OutOfMemory>
    ensures { IfOk result (λ text. text ≡ with_share id.now count (Some task.now)) }
{
    match task {
        TaskReport::Mapped(instances) => name_with_share(alloc, id, count, instances.len()),
        _ => Text::copy_of(alloc, id),
    }
}

/// An upstream in a sentence: its id, and for one that ran expanded how many of its instances are meant, such as `load
/// (2 of 5)`. Just its id where `task`, its report, is None.
fn name_of(
    alloc: Global,
    id: &str,
    count: u32,
    task: Option<&Settled<'_>>,
) -> Result<Text, OutOfMemory>
    ensures { IfOk result (λ text. text
        ≡ with_share id.now count (option_map (λ t. t.now) task.entry)) }
{
    match task {
        Some(task) => name_of_task(alloc, id, count, task.task_report()),
        None => Text::copy_of(alloc, id),
    }
}

/// Adds the name of an upstream to `names` where an instance of it is in one of these states; an expanded one says how
/// many, such as `load (2 of 5)`. Adds nothing otherwise.
fn add_name(
    alloc: Global,
    dag: &Dag,
    settled: &[Settled<'_>],
    states: States,
    upstream: u32,
    names: &mut Vec<Text>,
) -> Result<(), OutOfMemory>
    ensures { OnOk result (names.new.items ≡ names.old.items
        ++ name_where dag.now settled.now states upstream) }
{
    let counts = counts_at(settled, upstream);
    let count = states.count_in(&counts);
    if count > 0 {
        let id = dag.id_of(upstream);
        names.push(name_of(alloc, id, count, settled.get(upstream as usize))?)?;
    }
    Ok(())
}

/// The names of the tasks among `upstreams` that have an instance in one of these states, in order; an expanded one
/// says how many, such as `load (2 of 5)`.
fn names_in(
    alloc: Global,
    dag: &Dag,
    settled: &[Settled<'_>],
    upstreams: &[u32],
    states: States,
) -> Result<Vec<Text>, OutOfMemory>
    ensures { IfOk result (λ names. names.items
        ≡ flat_map (name_where dag.now settled.now states) upstreams.now) }
{
    let mut names = Vec::new(alloc);
    for upstream in upstreams {
        add_name(alloc, dag, settled, states, *upstream, &mut names)?;
    }
    Ok(names)
}

/// The words `because of` and the upstreams of a task that have an instance in one of these states, such as `because of
/// load (2 of 5)`.
fn because_of(
    alloc: Global,
    dag: &Dag,
    settled: &[Settled<'_>],
    task: u32,
    states: States,
) -> Result<Text, OutOfMemory>
    requires { task < length dag.now.tasks }
    ensures { IfOk result (λ text. text
        ≡ since_text_of dag.now settled.now task (because_of_states states)) }
{
    let upstreams = dag.task(task).upstreams.as_slice();
    let names = names_in(alloc, dag, settled, upstreams, states)?;
    let names = name_list(alloc, names.as_slice())?;
    Ok(Text::new(format!(in alloc; "because of {names}")?))
}

/// The ground on which a task's trigger rule gives this verdict, such as `because of load` or `since all are success`.
/// `settled` are the tasks of the run.
#[tactic(auto, using(crate::proofs::SinceFacts::since_said, crate::proofs::SinceFacts::since_states))]
pub(crate) fn since_text(
    alloc: Global,
    dag: &Dag,
    settled: &[Settled<'_>],
    task: u32,
    verdict: Verdict,
) -> Result<Text, OutOfMemory>
    requires { task < length dag.now.tasks }
    ensures { IfOk result (λ text. text ≡ since_text_of dag.now settled.now task
        (since (task_of dag.now task).rule verdict)) }
{
    match ground_of(dag.task(task).rule, verdict) {
        Ground::Words(words) => Text::copy_of(alloc, words),
        Ground::States(states) => because_of(alloc, dag, settled, task, states),
    }
}
