//! What comes next in a backfill, by a look at the whole of it.
//!
//! `next_step`, `next_try` and `next_moment` go over all runs, tasks and instances of a core. They meet the contracts of
//! what bf_sched keeps over events, and are there to be compared with it: the tests of bf_tests_ready do so after each event.
#![tactic(auto)]

mod moments;
mod steps;
mod tries;

pub use moments::next_moment;
pub use steps::next_step;
pub use tries::next_try;
