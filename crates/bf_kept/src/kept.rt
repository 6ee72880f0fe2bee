//! Tries that are kept.
use bf_try::{Ledger, Raw, answer_for};
use bf_value::{JobName, OutOfMemory};
use bf_xcom::Given;
use std::alloc::Global;

/// A store of kept tries. The relation `kept` says which these are, with what each was given and how it ended.
pub trait KeptTries {
    ghost use Rattle.std.specs.Prelude.{Option, IfOk};
    ghost use Rattle.bf_value.specs.declared.name.JobName.{JobName};
    ghost use Rattle.bf_try.specs.declared.ledger.Entry.{Entry};
    ghost use Rattle.bf_kept.specs.Kept.{IsAnsweredBy};

    /// What is kept of the try of a name.
    ghost kept: { Self → JobName → Option Entry };

    /// An answer by which the try `name`, given `given`, ends as is kept of it; None where no try of this name is kept
    /// that was given the same.
    fn answer(
        &self,
        alloc: Global,
        name: JobName,
        given: &Given,
    ) -> Result<Option<Raw>, OutOfMemory>
        ensures { IfOk result (IsAnsweredBy (kept self.now) name given.now) };
}

/// A store in which no try is kept.
#[derive(Clone, Copy, Debug)]
pub struct NothingKept;

impl KeptTries for NothingKept {
    ghost use Rattle.bf_kept.specs.Kept.{nothing};

    ghost kept = { λ _. nothing };

    /// Always None: no try is kept.
    fn answer(
        &self,
        _alloc: Global,
        _name: JobName,
        _given: &Given,
    ) -> Result<Option<Raw>, OutOfMemory> {
        Ok(None)
    }
}

/// All tries of a ledger are kept.
impl KeptTries for Ledger {
    ghost use Rattle.std.specs.FinMap;

    ghost kept = { λ s. FinMap.get s };

    /// An answer by which the try ends as the ledger has it; None where the ledger has no try of the name that was
    /// given the same.
    fn answer(
        &self,
        alloc: Global,
        name: JobName,
        given: &Given,
    ) -> Result<Option<Raw>, OutOfMemory> {
        match self.get(name) {
            Some(entry) if entry.given.is_same_as(given) => {
                Ok(Some(answer_for(alloc, &entry.outcome)?))
            }
            _ => Ok(None),
        }
    }
}
