//! The scheduler: which event comes next and which try begins, for any number of workers. It starts nothing and waits for
//! nothing itself; it says what to do, and is told what came of it.
//!
//! Below it `Ready` has a core, and keeps what comes next over the events that it lets come: bf_due the steps, and bf_waiting the tries.
#![tactic(auto)]

mod next;
mod ready;
mod scheduler;

pub use next::Next;
pub use ready::Ready;
pub use scheduler::Scheduler;
