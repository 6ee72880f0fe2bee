//! What goes through the lanes.
use bf_try::{Done, RunnerFault, Ticket};

/// A try to run, or the word to stop.
#[derive(Debug, Drop)]
pub enum Job {
    Run(Ticket),
    Stop,
}

/// What a worker sends back.
#[derive(Debug, Drop)]
pub enum Answer {
    Done(Done),
    /// The runner gave the try up, or memory was wanting.
    Gave(Ticket, RunnerFault),
}
