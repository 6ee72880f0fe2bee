//! How many runs a backfill has.
//!
//! [`RunCount`] is all that the core has to know of the data intervals, so that it doesn't stand on calendars. What keeps
//! intervals tells how many there are, and that they are at most 4,096.
#![tactic(auto)]

mod runs;

pub use runs::RunCount;
