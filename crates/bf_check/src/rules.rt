//! Trigger rules by their names.
ghost use Rattle.std.specs.Prelude.{◌≡◌, map, option_map, IfOk, IfErr, OnOk};
ghost use Rattle.bf_rule.specs.Names.{rule_named};
ghost use Rattle.bf_check.specs.Checking.{rule_of};
ghost use Rattle.bf_check.specs.Refusals.{HasNoneBelow, IsFaultOf};

use crate::fault::{CheckFault, TaskFault};
use crate::looks::DraftUnderCheck;
use bf_read::TaskDraft;
use bf_rule::Rule;
use bf_value::OutOfMemory;
use std::alloc::Global;

/// Gives each task's rule; None for a task whose rule has an unknown name.
fn rules_of(alloc: Global, tasks: &[TaskDraft]) -> Result<Vec<Option<Rule>>, OutOfMemory>
    ensures { IfOk result (λ found. found.items ≡ map (λ task. rule_named task.rule) tasks.now) }
{
    let mut found = Vec::new(alloc);
    for task in tasks {
        found.push(Rule::named(task.rule.as_str()))?;
    }
    Ok(found)
}

impl DraftUnderCheck<'_> {
    /// Gives each task's rule. Err for a rule that isn't a trigger rule (refusal 10), or at want of memory.
    pub(crate) fn check_rules(&self, alloc: Global) -> Result<Vec<Rule>, CheckFault>
        requires { HasNoneBelow self.now.draft.now 10 }
        ensures rules { IfOk result (λ rules. rules.items ≡ map rule_of self.now.draft.now.tasks) }
        ensures ok { OnOk result (HasNoneBelow self.now.draft.now 11) }
        ensures err { IfErr result (IsFaultOf self.now.draft.now
            (option_map (λ s. s.now) self.now.zone_file)) }
    {
        let found = rules_of(alloc, self.draft.tasks.as_slice())?;
        self.unwrap_or_refuse(alloc, TaskFault::BadRule, found)
    }
}
