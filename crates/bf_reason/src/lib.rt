//! Why a task in a run has the state that a report tells: the line of the decision that made it so.
//!
//! `settled_tasks` works out the values of a run's tasks and counts their instances, once a run. Over these `cause_at` says for each task
//! why the graph decides what it does, which takes time over the direct upstreams of the task, and `letter_at` tells that and the state.
#![tactic(auto)]

mod cause;
mod laws;
mod letter;
mod settled;

pub use cause::{
    StateCause, cause_at, counts_at, counts_of_tasks, is_blocked, is_blocked_branch,
    is_skipping_branch,
};
pub use laws::{
    digits_tell_what_does_not_follow, letters_tell_the_states, own_reports_have_no_digit,
    the_reasons_are_those_of_the_decision,
};
pub use letter::{ended_letter, letter_at, letter_by};
pub use settled::{Settled, settled_tasks};
