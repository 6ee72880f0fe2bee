//! Tables of answers, which stand in for programs.
//!
//! A table is a JSON list of entries. Each names what it answers, a task, a map index, a run, a try, or any of these, and
//! gives an exit status and an output. `Table::read` reads the bytes of such a file. `TableRunner` is the `TaskRunner`
//! that answers a try by the first entry that names it, and by status 0 and no output where there is none; it looks
//! entries up by what they name, and not one after the other.
#![tactic(auto)]

mod table;
mod table_index;
mod table_reader;
mod table_runner;

pub use table::{Table, TableEntry, TableFault};
pub use table_reader::LONGEST_TABLE;
pub use table_runner::TableRunner;
