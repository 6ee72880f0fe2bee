//! How many tries a backfill may run at once.
//!
//! [`Workers`] is a number from 1 to 64 by its type. It stands this low so that the executor and the command line take the
//! same.
#![tactic(auto)]

mod workers;

pub use workers::{MOST_WORKERS, Workers};
