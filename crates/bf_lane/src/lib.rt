//! Lanes between the scheduler and its workers.
//!
//! A lane has two queues of capacity 2, one of jobs and one of results, and a worker at its other end. Four kinds of step
//! go over it: the scheduler submits and gathers, the worker takes and sends back. Each queue stands under a rule by which
//! what was put in is what was taken out, followed by what it holds; so, whatever the threads' interleaving, what a lane has
//! gathered are answers to what it has submitted, in order, and each is one that its runner may give.
//!
//! A lane awaits at most one answer: a try is submitted only where none is awaited. Whoever has nothing to do sleeps on a
//! `Parker` and is woken behind each step that concerns it. No clause rests on that: what crosses is the queues' alone.
//!
//! Nothing here knows of a backfill; what it makes of tickets and answers is said of the executor.
#![tactic(auto)]

mod clock;
mod closed;
mod lane;
mod lanes;
mod messages;
mod queues;
mod relay;
mod reply;
mod service;
mod worker;

pub use clock::{Jump, MachineClock, TimeSource};
pub use closed::Closed;
pub use lane::{Lane, NotStarted, new_queues_and_seats};
pub use lanes::Lanes;
pub use messages::{Answer, Job};
pub use queues::{Queues, Seats};
pub use service::Service;
