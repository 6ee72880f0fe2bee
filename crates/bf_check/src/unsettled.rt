//! Which pull of a task is refused.
ghost use Rattle.std.specs.Prelude.{◌≡◌, ◌<◌, find, not, None, Some, length, option_copied, slice_get, IfOk, IfSome};
ghost use Rattle.bf_read.specs.declared.draft.TaskDraft.{TaskDraft};
ghost use Rattle.bf_read.specs.Drafts.{pulled_in};
ghost use Rattle.bf_check.specs.inner.Looks.{is_settled_by};
ghost use Rattle.bf_check.specs.Refusals.{IsUnsettledPull, PullsUnsettled};

use crate::edges::task_ids_of;
use crate::fault::CheckFault;
use crate::looks::DraftUnderCheck;
use bf_graph::marks_of_reaching_tasks;
use bf_read::{Draft, pulls_of};
use bf_value::{OutOfMemory, Text};
use std::alloc::Global;

impl DraftUnderCheck<'_> {
    /// Answers whether there is a task of this id, and it is marked.
    fn is_settled(&self, marks: &[bool], id: &str) -> bool
        ensures { result ≡ is_settled_by self.now.ids.now marks.now id.now }
    {
        match self.ids.number_of(id) {
            Some(number) => marks.get(number as usize).copied().unwrap_or(false),
            None => false,
        }
    }

    /// Gives the first of these ids of which no task is marked.
    fn first_unsettled<'b>(&self, marks: &[bool], pulls: &'b [Text]) -> Option<&'b Text>
        ensures { option_copied result
            ≡ find (λ id. not (is_settled_by self.now.ids.now marks.now id)) pulls.entry.now }
    {
        pulls.iter().find(|id| !self.is_settled(marks, id.as_str()))
    }

    /// Gives the ids of the tasks from which the task `t` pulls, in order of first use.
    fn pulls_at(&self, alloc: Global, t: u32) -> Result<Vec<Text>, OutOfMemory>
        requires { t < length self.now.draft.now.tasks }
        ensures { IfOk result (λ ids. (task : TaskDraft)
            → slice_get self.now.draft.now.tasks t ≡ Some task
            → ids.items ≡ pulled_in task.command) }
    {
        let task = &self.draft.tasks.as_slice()[t as usize];
        pulls_of(alloc, task.command.as_slice())
    }

    /// Gives the id of the first task from which the task `t` pulls, and which needn't be settled when `t` is decided,
    /// or isn't there; None where it may pull from all. `Err` for a refusal below 11, or at want of memory.
    fn unsettled_pull_of(&self, alloc: Global, t: u32) -> Result<Option<Text>, CheckFault>
        requires { t < length self.now.draft.now.tasks }
        ensures found { IfOk result (λ found.
            IfSome found (IsUnsettledPull self.now.draft.now t)) }
        ensures none { IfOk result (λ found. found ≡ None → (task : TaskDraft)
            → slice_get self.now.draft.now.tasks t ≡ Some task
            → ¬ (PullsUnsettled self.now.draft.now t task)) }
    {
        let graph = self.check_graph(alloc)?;
        let _limits = self.check_limits(alloc)?;
        let rules = self.check_rules(alloc)?;
        let settling = self.settling_edges(alloc, &graph, rules.as_slice())?;
        let marks = marks_of_reaching_tasks(alloc, settling.as_slice(), t)?;
        let pulls = self.pulls_at(alloc, t)?;
        match self.first_unsettled(marks.as_slice(), pulls.as_slice()) {
            Some(id) => Ok(Some(id.copy(alloc)?)),
            None => Ok(None),
        }
    }
}

/// Gives the id of the first task from which the task `t` of a draft pulls, and which needn't be settled when `t` is
/// decided, or isn't there; None where it may pull from all. `zone_file` has the bytes for the zone `file`. `Err` for a
/// refusal below 11, or at want of memory.
pub fn unsettled_pull(
    alloc: Global,
    draft: &Draft,
    zone_file: Option<&[u8]>,
    t: u32,
) -> Result<Option<Text>, CheckFault>
    requires { t < length draft.now.tasks }
    ensures found { IfOk result (λ found. IfSome found (IsUnsettledPull draft.now t)) }
    ensures none { IfOk result (λ found. found ≡ None → (task : TaskDraft)
        → slice_get draft.now.tasks t ≡ Some task → ¬ (PullsUnsettled draft.now t task)) }
{
    let ids = task_ids_of(alloc, draft)?;
    let looks = DraftUnderCheck {
        ids: &ids,
        draft,
        zone_file,
    };
    looks.unsettled_pull_of(alloc, t)
}
