//! Backfills by one worker, in the thread that asks: a scheduler's events in turn, and each try where it begins.
//!
//! No thread is started, so no memory is shared and nothing is waited for: time is at once the next moment that a try may begin at.
//! What it gives has the contract of bf_exec's `run_backfill` with one worker.
#![tactic(auto)]

mod driving;
mod resuming;

pub use driving::one_by_one;
pub use resuming::resume_one_by_one;
