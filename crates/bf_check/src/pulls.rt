//! Pulls: a task may pull only from what is settled whenever it is decided.
ghost use Rattle.std.specs.Prelude.{◌≡◌, ◌<◌, ℕ, false, [], if◌then◌else◌, length, map, option_map, Contains, IsTrue, slice_get, Option, Some, IfOk, IfErr, OnOk};
ghost use Rattle.bf_read.specs.declared.draft.TaskDraft.{TaskDraft};
ghost use Rattle.bf_check.specs.declared.pulls.Pulls.{Pulls};
ghost use Rattle.bf_graph.specs.Edges.{lists, AreInRange};
ghost use Rattle.bf_graph.specs.Reach.{Reaches};
ghost use Rattle.bf_rule.specs.Verdicts.{is_waiting};
ghost use Rattle.bf_check.specs.Checking.{rule_of, shape_in};
ghost use Rattle.bf_check.specs.inner.Looks.{pulls_in, settling_edges_of, AllMayPull, IsFoundOfPulls};
ghost use Rattle.bf_check.specs.Refusals.{HasNoneBelow, IsFaultOf};
ghost use Rattle.bf_check.specs.Schedules.{IsScheduled};

use crate::edges::numbers_of;
use crate::fault::{CheckFault, TaskFault};
use crate::looks::DraftUnderCheck;
use bf_graph::{Graph, marks_of_reaching_tasks};
use bf_read::{TaskDraft, pulls_of};
use bf_rule::Rule;
use bf_value::{OutOfMemory, Sequence, Text};
use std::alloc::Global;

/// The tasks that a task pulls from, by id and by number, in order of first use.
#[derive(Drop)]
pub(crate) struct Pulls {
    pub(crate) ids: Sequence<Text>,
    pub(crate) numbers: Sequence<u32>,
}

/// Answers whether each of `pulls` is one of `tasks`. Contracts cover only true.
fn are_among(tasks: &[u32], pulls: &[u32]) -> bool
    ensures { IsTrue result → (u : ℕ) → Contains pulls.now u → Contains tasks.now u }
{
    pulls.iter().all(|pull| tasks.contains(pull))
}

/// Answers whether each of `pulls` reaches `task` by the edges `settling`, and so is settled when `task` is decided.
fn are_settled(
    alloc: Global,
    settling: &[Vec<u32>],
    task: u32,
    pulls: &[u32],
) -> Result<bool, OutOfMemory>
    requires task { task < length settling.now }
    requires pulls { (u : ℕ) → Contains pulls.now u → u < length settling.now }
    requires in_range { AreInRange (lists settling.now) }
    ensures all { IfOk result (λ all. IsTrue all → (u : ℕ) → Contains pulls.now u
        → Reaches (lists settling.now) u task) }
    ensures not_all { IfOk result (λ all. all ≡ false → (u : ℕ) × Contains pulls.now u
        × ¬ (Reaches (lists settling.now) u task)) }
{
    // Most pulls are from direct upstreams, and need no walk.
    if are_among(settling[task as usize].as_slice(), pulls) {
        return Ok(true);
    }
    let settled = marks_of_reaching_tasks(alloc, settling, task)?;
    for pull in pulls {
        if !settled[*pull as usize] {
            return Ok(false);
        }
    }
    Ok(true)
}

/// Gives the upstreams that must be settled when a task with this rule is decided: all of them where the rule waits for
/// that, else none.
fn settling_upstreams(alloc: Global, rule: Rule, upstreams: &[u32]) -> Result<Vec<u32>, OutOfMemory>
    ensures { IfOk result (λ v. v.items ≡ if is_waiting rule then upstreams.now else []) }
{
    if rule.waits_until_settled() {
        Ok(upstreams.to_vec(alloc)?)
    } else {
        Ok(Vec::new(alloc))
    }
}

impl DraftUnderCheck<'_> {
    /// Gives for each task the upstreams that must be settled when it is decided: all of them where its rule waits for
    /// that, else none.
    pub(crate) fn settling_edges(
        &self,
        alloc: Global,
        graph: &Graph,
        rules: &[Rule],
    ) -> Result<Vec<Vec<u32>>, OutOfMemory>
        requires graph { graph.now ≡ shape_in self.now.draft.now.tasks }
        requires rules { rules.now ≡ map rule_of self.now.draft.now.tasks }
        ensures { IfOk result (λ v. lists v.items ≡ settling_edges_of self.now.draft.now.tasks) }
    {
        let mut edges = Vec::new(alloc);
        for (t, rule) in rules.iter().enumerate() {
            edges.push(settling_upstreams(alloc, *rule, graph.upstreams(t as u32))?)?;
        }
        Ok(edges)
    }

    /// Gives the tasks that the task `t` pulls from; None where one doesn't exist, or the edges `settling` don't make
    /// sure that it is settled when `t` is decided.
    fn pulls_of_task(
        &self,
        alloc: Global,
        settling: &[Vec<u32>],
        t: u32,
        task: &TaskDraft,
    ) -> Result<Option<Pulls>, OutOfMemory>
        requires settling { lists settling.now ≡ settling_edges_of self.now.draft.now.tasks }
        requires in_range { AreInRange (lists settling.now) }
        requires within { t < length settling.now }
        ensures { IfOk result (IsFoundOfPulls self.now.draft.now t task.now) }
    {
        let ids = pulls_of(alloc, task.command.as_slice())?;
        let Some(numbers) = numbers_of(alloc, self.ids, ids.as_slice())? else {
            return Ok(None);
        };
        if !are_settled(alloc, settling, t, numbers.as_slice())? {
            return Ok(None);
        }
        Ok(Some(Pulls {
            ids: Sequence::from_vec(ids),
            numbers: Sequence::from_vec(numbers),
        }))
    }

    /// Gives the tasks that each task pulls from; None for a task that pulls from one which doesn't exist, or which the
    /// edges `settling` don't make sure is settled by then.
    fn pulls_of_each(
        &self,
        alloc: Global,
        settling: &[Vec<u32>],
    ) -> Result<Vec<Option<Pulls>>, OutOfMemory>
        requires settling { lists settling.now ≡ settling_edges_of self.now.draft.now.tasks }
        requires in_range { AreInRange (lists settling.now) }
        ensures one_each { IfOk result (λ found. length found.items
            ≡ length self.now.draft.now.tasks) }
        ensures each { IfOk result (λ found. (t : ℕ) (task : TaskDraft) (one : Option Pulls)
            → slice_get self.now.draft.now.tasks t ≡ Some task → slice_get found.items t ≡ Some one
            → IsFoundOfPulls self.now.draft.now t task one) }
    {
        let mut found = Vec::new(alloc);
        for (t, task) in self.draft.tasks.as_slice().iter().enumerate() {
            found.push(self.pulls_of_task(alloc, settling, t as u32, task)?)?;
        }
        Ok(found)
    }

    /// Gives the tasks that each task pulls from. Err for a pull from a task that doesn't exist or may be unsettled by
    /// then (refusal 14), or at want of memory.
    pub(crate) fn check_pulls(
        &self,
        alloc: Global,
        graph: &Graph,
        rules: &[Rule],
    ) -> Result<Vec<Pulls>, CheckFault>
        requires graph { graph.now ≡ shape_in self.now.draft.now.tasks }
        requires rules { rules.now ≡ map rule_of self.now.draft.now.tasks }
        requires below { HasNoneBelow self.now.draft.now 14 }
        requires scheduled { IsScheduled self.now.draft.now
            (option_map (λ s. s.now) self.now.zone_file) }
        ensures pulls { IfOk result (λ pulls. pulls.items
            ≡ map (pulls_in self.now.ids.now) self.now.draft.now.tasks) }
        ensures settled { OnOk result (AllMayPull self.now.draft.now) }
        ensures ok { OnOk result (HasNoneBelow self.now.draft.now 15) }
        ensures err { IfErr result (IsFaultOf self.now.draft.now
            (option_map (λ s. s.now) self.now.zone_file)) }
    {
        let settling = self.settling_edges(alloc, graph, rules)?;
        let found = self.pulls_of_each(alloc, settling.as_slice())?;
        self.unwrap_or_refuse(alloc, TaskFault::PullNotSettled, found)
    }
}
