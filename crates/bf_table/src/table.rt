//! Tables of answers.
ghost use Rattle.std.specs.Prelude.{◌≡◌, ◌≢◌, IfOk, IfErr, Ok, Err};
ghost use Rattle.bf_table.specs.Tables.{refusal_number_of, table_in};

use crate::table_reader::entries_of_file;
use bf_value::{OutOfMemory, Sequence, Text};
use std::alloc::{AllocFailed, Global};
use std::error::Error;
use std::fmt;
use std::marker::Model;

/// An answer, and which tries it answers for; None for the task, index, run or attempt stands for any.
#[derive(Debug, Drop)]
pub struct TableEntry {
    /// The id of a task.
    pub task: Option<Text>,
    /// A map index, -1 for a task that isn't expanded.
    pub index: Option<i64>,
    /// The logical date of a run, in the form `2024-01-31T06:05:09Z`.
    pub run: Option<Text>,
    /// The number of a try, from 1.
    pub attempt: Option<i64>,
    pub status: u8,
    /// The last line of the output.
    pub line: Sequence<u8>,
}

/// A table of answers, in which the first entry that matches a try answers it. Contracts see the list of its entries.
#[derive(Debug, Drop)]
pub struct Table {
    entries: Sequence<TableEntry>,
}

impl Model for Table {
    ghost use Rattle.std.specs.Prelude.{List};
    ghost use Rattle.bf_table.specs.declared.table.TableEntry.{TableEntry};

    ghost Value = { List TableEntry };

    ghost view = { λ t. t.entries };
}

/// Why a table could not be read.
#[derive(Clone, Copy, Debug, PartialEq, Eq)]
pub enum TableFault {
    /// The number of the first bad entry, from 0; None where the bytes are too many, or no JSON list.
    BadTable(Option<u32>),
    OutOfMemory,
}

impl TableFault {
    /// Gives the number of the refusal in docs/FORMATS.md, 19; None for `OutOfMemory`, which refuses no table.
    pub fn refusal_number(self) -> Option<u32>
        ensures { result ≡ refusal_number_of self }
    {
        match self {
            TableFault::BadTable(_) => Some(19),
            TableFault::OutOfMemory => None,
        }
    }
}

impl fmt::Display for TableFault {
    ghost use Rattle.std.specs.Prelude.{Some};
    ghost use Rattle.bf_table.specs.Tables.{fault_text};

    ghost output = { λ fault. Some (fault_text fault) };

    /// Writes the fault in words, such as `bad table: 3`, or `bad table: file` where no entry is named.
    fn fmt<W: fmt::Write>(&self, f: &mut fmt::Formatter<W>) -> fmt::Result {
        match self {
            TableFault::BadTable(Some(number)) => write!(f, "bad table: {number}"),
            TableFault::BadTable(None) => write!(f, "bad table: file"),
            TableFault::OutOfMemory => write!(f, "out of memory"),
        }
    }
}

impl Error for TableFault {}

impl From<OutOfMemory> for TableFault {
    ghost use Rattle.bf_table.specs.declared.table.TableFault.TheVariants.{OutOfMemory};

    ghost from_gives = { λ _ e. e ≡ OutOfMemory };

    /// Gives `OutOfMemory`.
    fn from(_e: OutOfMemory) -> TableFault {
        TableFault::OutOfMemory
    }
}

impl<T: Drop> From<AllocFailed<T>> for TableFault {
    ghost use Rattle.bf_table.specs.declared.table.TableFault.TheVariants.{OutOfMemory};

    ghost from_gives = { λ _ e. e ≡ OutOfMemory };

    /// Gives `OutOfMemory`.
    fn from(_e: AllocFailed<T>) -> TableFault {
        TableFault::OutOfMemory
    }
}

impl Table {
    /// Reads a table: a JSON list of at most 8,388,608 bytes, of objects. Six keys may stand in an object: `task` (a
    /// text), `index` and `try` (whole numbers) and `run` (an existing moment, in the form `2024-01-31T06:05:09Z`) say
    /// which tries it answers for; `status` (0 to 255, by default 0) and `out` (a text, by default empty, of which the
    /// last line counts) say what. `BadTable` for the first bad entry, `OutOfMemory` at want of memory.
    pub fn read(alloc: Global, bytes: &[u8]) -> Result<Table, TableFault>
        ensures ok { IfOk result (λ table. table_in bytes.now ≡ Ok table) }
        ensures bad { IfErr result (λ fault. fault ≢ TableFault.OutOfMemory → table_in bytes.now
            ≡ Err fault) }
    {
        let entries = entries_of_file(alloc, bytes)?;
        Ok(Table {
            entries: Sequence::from_vec(entries),
        })
    }

    /// Gives the entries, in order.
    pub(crate) fn as_slice(&self) -> &[TableEntry]
        ensures { result.now ≡ self.now }
    {
        self.entries.as_slice()
    }
}
