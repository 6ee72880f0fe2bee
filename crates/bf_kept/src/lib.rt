//! Tries that are kept from a backfill before, and a runner round a runner that answers them.
//!
//! What is kept is looked up when a ticket comes: where a try of its name is kept, and was given the same, the answer is one
//! by which the try ends as is kept of it. Every other ticket goes on to the runner.
#![tactic(auto)]

mod keeping;
mod kept;

pub use keeping::Keeping;
pub use kept::{KeptTries, NothingKept};
