//! A runner that answers what is kept.
use crate::kept::KeptTries;
use bf_try::{Done, RunnerFault, TaskRunner, Ticket};
use bf_value::OutOfMemory;
use std::alloc::Global;

/// A runner that answers kept tries itself: a kept try that is given the same again ends as it did, and `runner` makes
/// every other. Where `runner` answers `at_once`, as a table does, no worker need make its tries.
#[derive(Drop)]
pub struct Keeping<'a, K, R> {
    pub alloc: Global,
    pub kept: &'a K,
    pub runner: &'a R,
    pub at_once: bool,
}

impl<'a, K: KeptTries, R: TaskRunner> TaskRunner for Keeping<'a, K, R> {
    ghost use Rattle.bf_kept.specs.Kept.{IsAnswer, MayGiveUpAnew};

    ghost may_answer = { λ s n g raw. IsAnswer (K.kept s.kept.now)
        (R.may_answer s.runner.now) n g raw };

    ghost may_give_up = { λ s n g. MayGiveUpAnew (K.kept s.kept.now)
        (R.may_give_up s.runner.now) n g };

    /// Answers the try from `kept` where it is kept there and was given the same, else has the runner make it. `Err`
    /// hands the ticket back: `GaveUp` where the runner gave the try up, `OutOfMemory` at want of memory.
    fn run(&self, ticket: Ticket) -> Result<Done, (Ticket, RunnerFault)> {
        match self.kept.answer(self.alloc, ticket.name(), ticket.given()) {
            Ok(Some(raw)) => Ok(ticket.answer(raw)),
            Ok(None) => self.runner.run(ticket),
            Err(OutOfMemory) => Err((ticket, RunnerFault::OutOfMemory)),
        }
    }
}
