//! What the bytes of a graph file come to: its size, a plan, and the runs of its schedule in a range, which `list` prints.
//!
//! It joins reading, checking, zones, schedules and ranges for the commands: bytes go in, and a plan with its runs, or the
//! fault that is printed, comes out.
#![tactic(auto)]

mod check;
mod list;
mod plan;
mod range;

pub use check::{GraphSize, check_graph};
pub use list::write_list;
pub use plan::{DatedPlan, TimedPlan, dated_plan_in, table_in, timed_plan_in};
pub use range::{MomentRange, RunRange, Starts};
