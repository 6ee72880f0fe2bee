//! Why a task has its state in a run, in sentences.
//!
//! The reason is that of the decision (`bf_reason`), over what a report has of the tasks upstream and of the run before; here it is put
//! into words. Where the report has what the graph doesn't decide, that is told first. Behind the reason stands what came of the tries.
#![tactic(auto)]

mod came;
mod counted;
mod decided;
mod foreign;
mod looking;
mod past;
mod rule;
mod since;
mod source;
mod states;
mod tried;
mod upstreams;
mod why;

pub use counted::counts_text;
pub use foreign::is_foreign;
pub use states::{States, has_instance_in};
pub use upstreams::{add_id_if, no_status_text};
pub use why::why_lines;
