//! Failed tries that are made again.
ghost use Rattle.std.specs.Prelude.{◌≡◌, option_copied};
ghost use Rattle.std.specs.FinMap;
ghost use Rattle.bf_plan.specs.Plans.{task_of};
ghost use Rattle.bf_journal.specs.Retrying.{has_failed, has_passed, some_passed, with_attempt, without_failed};

use bf_kept::KeptTries;
use bf_plan::{Dag, Plan};
use bf_try::{Entry, Ledger, Outcome, Raw};
use bf_value::{JobName, OutOfMemory};
use bf_xcom::Given;
use std::alloc::Global;

/// The tries of a ledger, less the failed ones of instances of which no try succeeded or was skipped. Those are made
/// again, as by GNU parallel's `--resume-failed`.
#[derive(Clone, Copy, Drop)]
pub(crate) struct WithoutFailed<'a> {
    pub(crate) plan: &'a Plan,
    pub(crate) tries: &'a Ledger,
}

/// Answers whether this entry's try failed; false for None.
fn has_failed_in(entry: Option<&Entry>) -> bool
    ensures { result ≡ has_failed (option_copied entry.entry) }
{
    match entry {
        Some(entry) => matches!(&entry.outcome, Outcome::Failed),
        None => false,
    }
}

/// Answers whether this entry's try succeeded or was skipped; false for None.
fn has_passed_in(entry: Option<&Entry>) -> bool
    ensures { result ≡ has_passed (option_copied entry.entry) }
{
    match entry {
        Some(entry) => !matches!(&entry.outcome, Outcome::Failed),
        None => false,
    }
}

/// Gives how often a failed try of this task is made again; 0 where there is no such task.
#[tactic(auto, unfolding(bf_plan::specs::Plans::task_of))]
fn retries_of(dag: &Dag, task: u32) -> u32
    ensures { result ≡ (task_of dag.now task).retries }
{
    match dag.tasks.get(task as usize) {
        Some(task) => task.retries,
        None => 0,
    }
}

/// Answers whether the ledger has the try numbered `attempt` of this name's instance, and that one succeeded or was
/// skipped.
fn has_passed_at(tries: &Ledger, name: JobName, attempt: u32) -> bool
    ensures { result ≡ has_passed (FinMap.get tries.now (with_attempt name attempt)) }
{
    has_passed_in(tries.get(JobName { attempt, ..name }))
}

/// Answers whether the ledger has a try of this name's instance that succeeded or was skipped.
fn instance_has_passed(plan: &Plan, tries: &Ledger, name: JobName) -> bool
    ensures { result ≡ some_passed plan.now.dag (FinMap.get tries.now) name }
{
    let last = retries_of(plan.dag(), name.task) + 1;
    (1..last + 1).any(|attempt| has_passed_at(tries, name, attempt))
}

impl<'a> WithoutFailed<'a> {
    /// Gives the kept try of this name; None where the ledger has none, or has a failed one that is to be made again:
    /// no try of its instance succeeded or was skipped.
    #[tactic(auto, unfolding(crate::specs::Retrying::without_failed))]
    pub(crate) fn entry(&self, name: JobName) -> Option<&'a Entry>
        ensures { option_copied result
            ≡ without_failed self.now.plan.now.dag (FinMap.get self.now.tries.now) name }
    {
        let entry = self.tries.get(name);
        if has_failed_in(entry) && !instance_has_passed(self.plan, self.tries, name) {
            return None;
        }
        entry
    }
}

impl KeptTries for WithoutFailed<'_> {
    ghost use Rattle.std.specs.FinMap;
    ghost use Rattle.bf_journal.specs.Retrying.{without_failed};

    ghost kept = { λ s. without_failed s.plan.now.dag (FinMap.get s.tries.now) };

    /// Gives the kept answer to the try of this name; None where the try isn't kept, or failed and is to be made again.
    fn answer(
        &self,
        alloc: Global,
        name: JobName,
        given: &Given,
    ) -> Result<Option<Raw>, OutOfMemory> {
        match self.entry(name) {
            Some(_) => self.tries.answer(alloc, name, given),
            None => Ok(None),
        }
    }
}
