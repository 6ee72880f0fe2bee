//! Reports as tables of answers: `write_answers` writes the table by which each try ends as a report tells.
//!
//! ```text
//! [
//! {"task":"extract","index":-1,"run":"2024-01-01T00:00:00Z","try":1,"status":1},
//! {"task":"extract","index":-1,"run":"2024-01-01T00:00:00Z","try":2,"out":"[3,1]"}
//! ]
//! ```
//!
//! A try that succeeded and pushed nothing has no entry, since one that a table doesn't name ends so.
#![tactic(auto)]

mod entry;
mod laws;
mod table;
mod writing;

pub use laws::{reports_are_made_again, tables_are_read_back, tries_end_as_told};
pub use writing::write_answers;
