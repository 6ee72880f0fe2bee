//! Ledgers of tries.
ghost use Rattle.std.specs.Prelude.{◌≡◌, ◌↔◌, All, None, Some, IsSome, IsTrue, IfErr, OnOk, OnErr, option_copied};
ghost use Rattle.std.specs.FinMap;
ghost use Rattle.std.specs.BTreeMap.{IsOrdered};
ghost use Rattle.bf_value.specs.Names.{name_cmp};
ghost use Rattle.bf_try.specs.Tries.{AreAlike};
ghost use Rattle.bf_try.specs.inner.Tries.{Agree};

use bf_value::JobName;
use bf_xcom::{Outcome, SharedGiven};
use std::alloc::Global;
use std::collections::BTreeMap;
use std::marker::Model;
use thiserror::Error;

/// What a ledger holds of a try: what it was given, and how it ended.
#[derive(Debug, Drop)]
pub struct Entry {
    pub given: SharedGiven,
    pub outcome: Outcome,
}

/// The tries that have ended, by name. Contracts see it as a finite map.
#[derive(Drop)]
pub struct Ledger {
    entries: BTreeMap<JobName, Entry>,
}

impl Model for Ledger {
    ghost use Rattle.std.specs.FinMap;
    ghost use Rattle.bf_value.specs.Names.{name_cmp, name_code};
    ghost use Rattle.bf_try.specs.declared.ledger.Entry.{Entry};
    ghost use Rattle.bf_try.specs.contracts.ledger.Entry;
    ghost use Rattle.std.specs.Coded.{codes};

    ghost Value = { FinMap.FinMap name_cmp Entry };

    ghost coded = { FinMap.code name_code (Prim.hlevel (codes, Entry.the_row.coded)) };

    ghost view = { λ l. FinMap.from_entries l.entries.entries };
}

/// Why an entry was not noted.
#[derive(Clone, Copy, Debug, PartialEq, Eq, Error)]
pub enum NoteFault {
    #[error("already recorded")]
    AlreadyRecorded,
    #[error("out of memory")]
    OutOfMemory,
}

impl Ledger {
    /// An empty ledger.
    pub fn new(alloc: Global) -> Self
        ensures { result ≡ FinMap.empty }
    {
        Ledger {
            entries: BTreeMap::new(alloc),
        }
    }

    /// What the ledger holds of a try; None where it has no such try.
    pub fn get(&self, name: JobName) -> Option<&Entry>
        ensures { option_copied result ≡ FinMap.get self.now name }
    {
        self.entries.get(&name)
    }

    /// Notes the entry of a try that has ended. `Err` hands the entry back and changes nothing: `AlreadyRecorded` where
    /// the ledger has the try already, else `OutOfMemory`.
    pub fn note(&mut self, name: JobName, entry: Entry) -> Result<(), (Entry, NoteFault)>
        ensures ok { OnOk result ((FinMap.get self.old name ≡ None)
            × (self.new ≡ FinMap.insert self.old name entry)) }
        ensures recorded { IfErr result
            (λ e. (e.1 ≡ NoteFault.AlreadyRecorded) ↔ IsSome (FinMap.get self.old name)) }
        ensures back { IfErr result (λ e. e.0 ≡ entry) }
        ensures err { OnErr result (self.new ≡ self.old) }
    {
        match self.entries.insert(name, entry) {
            Ok(None) => Ok(()),
            Ok(Some(held)) => Err((self.put_back(name, held), NoteFault::AlreadyRecorded)),
            Err(failed) => Err((failed.value.1, NoteFault::OutOfMemory)),
        }
    }

    /// Puts the entry back that a try had before another took its place, and gives that other. Takes no memory.
    fn put_back(&mut self, name: JobName, held: Entry) -> Entry
        requires { IsSome (FinMap.get self.old name) }
        ensures back { self.new ≡ FinMap.insert self.old name held }
        ensures other { FinMap.get self.old name ≡ Some result }
    {
        match self.entries.insert(name, held) {
            Ok(Some(other)) => other,
            Ok(None) => unreachable!(),
            Err(_) => unreachable!(),
        }
    }
}

/// Whether `other`, an entry for the same try, doesn't contradict `entry`: it has another given, or the same outcome,
/// or is missing.
fn agrees(entry: &Entry, other: Option<&Entry>) -> bool
    ensures { IsTrue result ↔ Agree entry.now (option_copied other.entry) }
{
    match other {
        Some(other) => {
            !entry.given.is_same(&other.given) || entry.outcome.is_same(&other.outcome)
        }
        None => true,
    }
}

/// Whether no entry contradicts the other ledger: that has none of these tries with the same given and another outcome.
fn all_agree(entries: &BTreeMap<JobName, Entry>, other: &Ledger) -> bool
    ensures all { IsTrue result
        ↔ All (λ e. Agree e.1 (FinMap.get other.now e.0)) entries.now.entries }
    ensures ordered { IsOrdered name_cmp entries.now }
{
    for (name, entry) in entries.iter() {
        if !agrees(entry, other.get(*name)) {
            return false;
        }
    }
    true
}

/// Whether each try that both ledgers have, and that was given the same in both, has the same outcome in both.
pub fn alike(one: &Ledger, other: &Ledger) -> bool
    ensures { IsTrue result ↔ AreAlike (FinMap.get one.now) (FinMap.get other.now) }
{
    all_agree(&one.entries, other)
}
