//! The times of a journal: when each try started and ended, and its code, a line each.
//!
//! ```text
//! @times 1
//! 2024-03-04T00:00:00Z extract -1 1 1795789483113 1795789483115 0
//! ```
//!
//! `times_of` reads the journal of a graph and of the runs of a report, whatever it says is cleared, by `bf_journal::read_journal`: so
//! it is refused where `run` would refuse it. What is told of a try is what its record has, and a record without times is passed over.
#![tactic(auto)]

mod head;
mod lines;
mod times;

pub use head::front_of;
pub use times::times_of;
