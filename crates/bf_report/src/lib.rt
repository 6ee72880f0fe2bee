//! Reports of a backfill.
//!
//! A report is the list of runs by date, and in each run what came of each task in file order. Its text has a head line, a
//! line for each run with the lines of its tasks behind it, and an end line. In version 2, which `report_of` makes, the item
//! and what was pulled follow the line of an instance that has been tried:
//!
//! ```text
//! @backfill 2 d
//! @run 2024-01-01T00:00:00Z 2024-01-02T00:00:00Z success
//! src -1 success 1 [3]
//! m 0 success 1 -
//! @item 3
//! @pull src [3]
//! @end 1
//! ```
#![tactic(auto)]

mod dated;
mod instances;
mod laws;
mod lines;
mod long_text;
mod report;
mod writing;

pub use dated::{ids_of, report_of};
pub use laws::alike_ledgers_report_alike;
pub use lines::run_state_word;
pub use report::{InstanceReport, Pull, Report, RunReport, TaskReport, Version};
pub use writing::write_report;
