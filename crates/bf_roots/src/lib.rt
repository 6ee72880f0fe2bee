//! Where it began that a task wasn't tried.
//!
//! From the task a walk goes on, depth first, to what made its state so: from one that its rule failed to the upstreams that failed, from
//! one that waits for its past to the run before, and so on, until it comes to tasks that ran. It comes to each place once. What it finds
//! there are the roots: tasks in runs, each with what came of it.
#![tactic(auto)]

mod laws;
mod onward;
mod seen;
mod step;
mod upstreams;
mod walk;
mod window;

pub use laws::each_root_is_come_to;
pub use onward::is_tried;
pub use step::{Began, Root};
pub use walk::roots_of;
