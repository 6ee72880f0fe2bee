//! Reports read back from a device.
//!
//! `read_report` takes exactly the texts of reports by the rules, as `write_report` of bf_report writes them, one
//! spelling a report. It looks at the lines in order, and answers the first that may not stand in its place:
//!
//! - `held` gives the bytes of a device, over a room that is filled by few reads;
//! - `line` takes a line off them;
//! - `field`, `value`, `entry`, `part` and `interval` read what a line says;
//! - `ids` keeps the ids of the tasks, each found by its hash;
//! - `open` keeps the run whose tasks are read, and its task that may have more lines;
//! - `beginning` keeps the report as far as it was read, and says what may stand next.
#![tactic(auto)]

mod beginning;
mod entry;
mod fault;
mod field;
mod held;
mod ids;
mod interval;
mod laws;
mod line;
mod open;
mod part;
mod reading;
mod value;

pub use fault::ReportFault;
pub use laws::{no_two_reports_have_one_text, reports_of_backfills_keep_the_rules};
pub use reading::read_report;
