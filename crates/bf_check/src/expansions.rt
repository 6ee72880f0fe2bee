//! Tasks that are expanded.
ghost use Rattle.std.specs.Prelude.{◌≡◌, ◌&&◌, ℕ, List, length, map, not, option_map, is_some, position, IfOk, IfErr, OnOk};
ghost use Rattle.std.specs.List.{zip};
ghost use Rattle.bf_rule.specs.Verdicts.{is_waiting};
ghost use Rattle.bf_check.specs.Checking.{number_or_0, rule_of, shape_in};
ghost use Rattle.bf_check.specs.inner.Looks.{source_found, source_in};
ghost use Rattle.bf_check.specs.Refusals.{expands_branch, HasNoFault, HasNoneBelow, IsFaultOf};
ghost use Rattle.bf_check.specs.Schedules.{IsScheduled};

use crate::edges::place_of;
use crate::fault::{CheckFault, TaskFault};
use crate::looks::DraftUnderCheck;
use bf_graph::Graph;
use bf_plan::TaskKind;
use bf_read::TaskDraft;
use bf_rule::Rule;
use bf_value::OutOfMemory;
use std::alloc::Global;

/// Gives the number of the task over whose items a task is expanded, `Some(None)` where it isn't expanded; `None` where
/// that is none of its upstreams, whose numbers `upstreams` has.
fn source_of(task: &TaskDraft, upstreams: &[u32]) -> Option<Option<u32>>
    requires { length upstreams.now ≡ length task.now.upstreams }
    ensures { (ids : List (List ℕ)) → upstreams.now ≡ map (number_or_0 ids) task.now.upstreams
        → result ≡ source_found ids task.now }
{
    let Some(id) = &task.expand else {
        return Some(None);
    };
    let place = place_of(task.upstreams.as_slice(), id.as_str())?;
    Some(Some(upstreams[place]))
}

/// Finds the first expanded task, by its index, whose rule may decide it before its upstreams settle; None where there
/// is none. `rules` has the rule of each task.
fn first_expanded_early(tasks: &[TaskDraft], rules: &[Rule]) -> Option<usize>
    ensures { result ≡ position (λ both. is_some both.0.expand
        && not (is_waiting both.1)) (zip tasks.now rules.now) }
{
    tasks.iter().zip(rules).position(|(task, rule)| task.expand.is_some()
        && !rule.waits_until_settled())
}

/// Finds the first task, by its index, that is a branch and expanded; None where there is none.
fn first_expanded_branch(tasks: &[TaskDraft]) -> Option<usize>
    ensures { result ≡ position expands_branch tasks.now }
{
    tasks.iter().position(|task| task.expand.is_some() && task.kind == TaskKind::Branch)
}

impl DraftUnderCheck<'_> {
    /// Gives the source of each task's items, `Some(None)` where it isn't expanded; `None` for a task that is expanded
    /// over one not directly upstream of it.
    fn sources_of_each(
        &self,
        alloc: Global,
        graph: &Graph,
    ) -> Result<Vec<Option<Option<u32>>>, OutOfMemory>
        requires { graph.now ≡ shape_in self.now.draft.now.tasks }
        ensures { IfOk result (λ found. found.items
            ≡ map (source_found self.now.ids.now) self.now.draft.now.tasks) }
    {
        let mut found = Vec::new(alloc);
        for (t, task) in self.draft.tasks.as_slice().iter().enumerate() {
            found.push(source_of(task, graph.upstreams(t as u32)))?;
        }
        Ok(found)
    }

    /// Gives the source of each task's items, None where it isn't expanded. Err for a task expanded over one not
    /// directly upstream of it (refusal 15), or at want of memory.
    fn check_sources(&self, alloc: Global, graph: &Graph) -> Result<Vec<Option<u32>>, CheckFault>
        requires graph { graph.now ≡ shape_in self.now.draft.now.tasks }
        requires below { HasNoneBelow self.now.draft.now 15 }
        requires scheduled { IsScheduled self.now.draft.now
            (option_map (λ s. s.now) self.now.zone_file) }
        ensures sources { IfOk result (λ sources. sources.items
            ≡ map (source_in self.now.ids.now) self.now.draft.now.tasks) }
        ensures ok { OnOk result (HasNoneBelow self.now.draft.now 16) }
        ensures err { IfErr result (IsFaultOf self.now.draft.now
            (option_map (λ s. s.now) self.now.zone_file)) }
    {
        let found = self.sources_of_each(alloc, graph)?;
        self.unwrap_or_refuse(alloc, TaskFault::ExpandSource, found)
    }

    /// Refuses a task that is expanded under a rule which may decide it before its upstreams settle. Err for the first
    /// such task (refusal 16), or at want of memory.
    fn refuse_early_expansions(&self, alloc: Global, rules: &[Rule]) -> Result<(), CheckFault>
        requires rules { rules.now ≡ map rule_of self.now.draft.now.tasks }
        requires below { HasNoneBelow self.now.draft.now 16 }
        requires scheduled { IsScheduled self.now.draft.now
            (option_map (λ s. s.now) self.now.zone_file) }
        ensures ok { OnOk result (HasNoneBelow self.now.draft.now 17) }
        ensures err { IfErr result (IsFaultOf self.now.draft.now
            (option_map (λ s. s.now) self.now.zone_file)) }
    {
        let early = first_expanded_early(self.draft.tasks.as_slice(), rules);
        self.refuse_at(alloc, TaskFault::ExpandRule, early)
    }

    /// Refuses a task that is a branch and expanded. Err for the first such task (refusal 17), or at want of memory.
    fn refuse_expanded_branches(&self, alloc: Global) -> Result<(), CheckFault>
        requires below { HasNoneBelow self.now.draft.now 17 }
        requires scheduled { IsScheduled self.now.draft.now
            (option_map (λ s. s.now) self.now.zone_file) }
        ensures ok { OnOk result (HasNoFault self.now.draft.now) }
        ensures err { IfErr result (IsFaultOf self.now.draft.now
            (option_map (λ s. s.now) self.now.zone_file)) }
    {
        let branch = first_expanded_branch(self.draft.tasks.as_slice());
        self.refuse_at(alloc, TaskFault::BranchMisuse, branch)
    }

    /// Gives the source of each task's items, None where it isn't expanded. Err for an expansion with a bad source
    /// (refusal 15), a rule that decides early (16) or of a branch (17), or at want of memory.
    pub(crate) fn check_expansions(
        &self,
        alloc: Global,
        graph: &Graph,
        rules: &[Rule],
    ) -> Result<Vec<Option<u32>>, CheckFault>
        requires graph { graph.now ≡ shape_in self.now.draft.now.tasks }
        requires rules { rules.now ≡ map rule_of self.now.draft.now.tasks }
        requires below { HasNoneBelow self.now.draft.now 15 }
        requires scheduled { IsScheduled self.now.draft.now
            (option_map (λ s. s.now) self.now.zone_file) }
        ensures sources { IfOk result (λ sources. sources.items
            ≡ map (source_in self.now.ids.now) self.now.draft.now.tasks) }
        ensures ok { OnOk result (HasNoFault self.now.draft.now) }
        ensures err { IfErr result (IsFaultOf self.now.draft.now
            (option_map (λ s. s.now) self.now.zone_file)) }
    {
        let sources = self.check_sources(alloc, graph)?;
        self.refuse_early_expansions(alloc, rules)?;
        self.refuse_expanded_branches(alloc)?;
        Ok(sources)
    }
}
