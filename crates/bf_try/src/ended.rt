//! The tries that have ended.
ghost use Rattle.std.specs.Prelude.{◌≡◌, None, OnOk, OnErr};
ghost use Rattle.std.specs.FinMap;
ghost use Rattle.bf_value.specs.Names.{name_cmp};

use crate::ledger::Entry;
use bf_value::{JobName, OutOfMemory};
use std::alloc::Global;
use std::marker::Model;

/// The ledger of a backfill: the tries that have ended, in the order in which they did. Contracts see it as a finite map
/// from their names, as a `Ledger`; it has no index, since a backfill looks none of them up.
#[derive(Drop)]
pub struct EndedTries {
    entries: Vec<(JobName, Entry)>,
}

impl Model for EndedTries {
    ghost use Rattle.std.specs.FinMap;
    ghost use Rattle.bf_value.specs.Names.{name_cmp, name_code};
    ghost use Rattle.bf_try.specs.declared.ledger.Entry.{Entry};
    ghost use Rattle.bf_try.specs.contracts.ledger.Entry;
    ghost use Rattle.std.specs.Coded.{codes};

    ghost Value = { FinMap.FinMap name_cmp Entry };

    ghost coded = { FinMap.code name_code (Prim.hlevel (codes, Entry.the_row.coded)) };

    ghost view = { λ l. FinMap.from_entries l.entries.items };
}

impl EndedTries {
    /// No tries.
    pub fn new(alloc: Global) -> Self
        ensures { result ≡ FinMap.empty }
    {
        EndedTries {
            entries: Vec::new(alloc),
        }
    }

    /// The tries, each with its entry: as the map, whatever their order.
    pub fn entries(&self) -> &[(JobName, Entry)]
        ensures { FinMap.from_entries result.now ≡ self.now }
    {
        self.entries.as_slice()
    }

    /// Notes the entry of a try that has ended. `Err` changes nothing.
    pub fn note(&mut self, name: JobName, entry: Entry) -> Result<(), OutOfMemory>
        requires { FinMap.get self.old name ≡ None }
        ensures ok { OnOk result (self.new ≡ FinMap.insert self.old name entry) }
        ensures err { OnErr result (self.new ≡ self.old) }
    {
        self.entries.push((name, entry))?;
        Ok(())
    }
}
