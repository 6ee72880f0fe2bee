//! Why a try failed, and what is told of it.
//!
//! A raw answer is graded by bf_try. Where the grade is failed, `find_failure` says which line of grading it came to, as a
//! `Failure`, whose words are its `Display`; `failed_line` makes the line that is told. `Telling` is a runner round a runner that
//! tells each failed try as it ends.
//!
//! A raw answer has neither the number of a signal nor the system's words for what couldn't be started. A `DetailedRunner` gives
//! them beside its answer, as a `Detail`.
#![tactic(auto)]

mod context;
mod detail;
mod failure;
mod finding;
mod laws;
mod line;
mod log;
mod teller;
mod telling;

pub use context::context_of;
pub use detail::{Detail, DetailedRunner};
pub use failure::Failure;
pub use finding::find_failure;
pub use laws::{failed_tries_have_failures, failures_are_causes};
pub use line::{failed_line, try_text};
pub use log::log_path;
pub use teller::Teller;
pub use telling::Telling;
