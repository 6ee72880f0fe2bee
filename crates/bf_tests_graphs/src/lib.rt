//! Tests of what is read off graphs: trigger rules and weights.
//!
//! The plans of graph files, and runs, are lent to the tests of the crates above; what is told of the files themselves is
//! compared by tests/rows/graph_files.sh.
#![tactic(auto)]

mod plans;
#[cfg(test)]
mod pools;
mod runs;
#[cfg(test)]
mod trigger_rules;

pub use plans::{job, plan_of};
pub use runs::{daily_runs, epoch_run};
