//! Backfills that go on from tries that are kept of one before: by workers, and one try after the other in the thread that asks.
//!
//! The two calls stand in bf_exec and bf_plain, beside those that go on from nothing; this crate gives them one name.
#![tactic(auto)]

pub use bf_exec::resume;
pub use bf_plain::resume_one_by_one;
