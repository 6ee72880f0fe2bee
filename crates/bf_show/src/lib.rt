//! Reports shown: as lines of JSON, for programs to read.
//!
//! `write_json_lines` makes an object of each task instance, and of each task that was decided without a try, a line each:
//!
//! ```text
//! {"run":"2024-01-01T00:00:00Z","end":"2024-01-02T00:00:00Z","run_state":"failed","task":"m","index":0,"state":"success","tries":2,"value":3,"item":[3],"pulls":{"src":[[3]]}}
//! {"run":"2024-01-01T00:00:00Z","end":"2024-01-02T00:00:00Z","run_state":"failed","task":"sum","index":-1,"state":"upstream_failed","tries":0}
//! ```
#![tactic(auto)]

mod key;
mod laws;
mod lines;
mod members;
mod writing;

pub use laws::{instances_are_read_back, untried_tasks_are_read_back};
pub use members::push_string;
pub use writing::write_json_lines;
