//! Why a run of a report, a task in a run or an instance has its state, as a text.
//!
//! A line without indentation is a heading, and what belongs to it is indented by two:
//!
//! ```text
//! total in the run of 2024-03-05T00:00:00Z: failed
//! why
//!   Its rule all_success, over 1 upstream instance (1 success), says run, since all are success.
//! ```
//!
//! Behind why stand what an instance pushed and was given, its last try as a line of a shell, the tasks beside it, and the lines that
//! clear it or where it began.
#![tactic(auto)]

mod began;
mod beside;
mod by_hand;
mod clear_line;
mod clearing;
mod given;
mod headings;
mod indexes;
mod neighbours;
mod own;
mod paths;
mod run;
mod run_why;
mod sections;
mod task;
mod variables;
mod why_section;

pub use headings::has_index;
pub use paths::Paths;
pub use run::explain_run;
pub use task::explain_task;
