//! Tries that are kept of a journal, over those that were kept before it.
ghost use Rattle.std.specs.Prelude.{◌≡◌, option_copied};
ghost use Rattle.std.specs.FinMap;
ghost use Rattle.bf_journal.specs.Since.{left_of};

use crate::retrying::WithoutFailed;
use bf_kept::KeptTries;
use bf_plan::Plan;
use bf_try::{Entry, Ledger, Raw};
use bf_value::{JobName, OutOfMemory};
use bf_xcom::Given;
use std::alloc::Global;

/// The tries kept of a journal, laid over those kept before it: `before` answers for the names that the journal
/// doesn't. Where `retry_failed`, the journal's failed tries that are to be made again aren't kept (`WithoutFailed`).
#[derive(Drop)]
pub struct Since<'a, K> {
    pub plan: &'a Plan,
    pub tries: &'a Ledger,
    pub retry_failed: bool,
    pub before: &'a K,
}

impl<K> Since<'_, K> {
    /// Gives what is kept of the journal's try of this name; None where it has none, or has a failed one that is to be
    /// made again.
    fn entry(&self, name: JobName) -> Option<&Entry>
        ensures { option_copied result
            ≡ left_of self.now.retry_failed self.now.plan.now.dag (FinMap.get self.now.tries.now)
            name }
    {
        if !self.retry_failed {
            return self.tries.get(name);
        }
        let left = WithoutFailed {
            plan: self.plan,
            tries: self.tries,
        };
        left.entry(name)
    }
}

impl<K: KeptTries> KeptTries for Since<'_, K> {
    ghost use Rattle.std.specs.FinMap;
    ghost use Rattle.bf_journal.specs.Since.{left_of, since};

    ghost kept = { λ s. since (left_of s.retry_failed s.plan.now.dag (FinMap.get s.tries.now))
        (K.kept s.before.now) };

    /// Gives the journal's answer to the try of this name, or else the one kept before; None where the try is to be
    /// made.
    fn answer(
        &self,
        alloc: Global,
        name: JobName,
        given: &Given,
    ) -> Result<Option<Raw>, OutOfMemory> {
        match self.entry(name) {
            Some(_) => self.tries.answer(alloc, name, given),
            None => self.before.answer(alloc, name, given),
        }
    }
}
