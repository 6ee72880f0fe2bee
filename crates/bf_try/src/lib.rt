//! Tries: the right to run one, what a program answers, what that answer is worth, and what is kept of it.
//!
//! A `Ticket` is the right to run one try, and `Ticket::answer` turns it into a `Done`: neither can be cloned, so a
//! try is answered at most once. `grade` turns the raw answer into an `Outcome`, and a `Ledger` keeps the outcomes by
//! name. `TaskRunner` is what answers tickets.
#![tactic(auto)]

mod answers;
mod ended;
mod grading;
mod ledger;
mod runner;
mod tickets;

pub use answers::{Exit, Line, Raw, copy_of_bytes};
pub use bf_xcom::Outcome;
pub use ended::EndedTries;
pub use grading::{
    LONGEST_VALUE, MOST_ITEMS, answer_for, each_fit_is_a_grade, fits, grade, grades_fit,
};
pub use ledger::{Entry, Ledger, NoteFault, alike};
pub use runner::{RunnerFault, TaskRunner};
pub use tickets::{Done, Ticket};
