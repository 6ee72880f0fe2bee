//! The executor: it drives a backfill by a scheduler over worker threads.
//!
//! The calling thread owns the scheduler and shares nothing of it. It goes by turns: in each an event comes by itself, or a
//! try begins and is submitted over the lane of a worker that has none, or an answer is gathered and ends its try. A try that is
//! answered at once, since it is kept of another backfill or a table answers it, begins and ends in one turn, and no worker hears of it.
//!
//! What runs is always what was submitted and not gathered, each try with what it is given, and never are more tries running
//! than there are workers. No clause says that threads are used, or how long anything takes.
#![tactic(auto)]

mod at_once;
mod executor;
mod order;
mod resuming;
mod running;
mod starting;
mod turn_fault;
mod watch;

pub use at_once::AnswerAtOnce;
pub use executor::Executor;
pub use resuming::resume;
pub use running::run_backfill;
pub use turn_fault::TurnFault;
pub use watch::{Observer, Silent, Watch};
