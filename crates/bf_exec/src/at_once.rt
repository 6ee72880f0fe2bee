//! Tries that need no worker.
ghost use Rattle.std.specs.Prelude.{◌≡◌, IfOk, IfErr};

use bf_kept::{Keeping, KeptTries};
use bf_try::{Done, RunnerFault, TaskRunner, Ticket};
use bf_value::OutOfMemory;

/// Answers tries at once, with no worker: those whose answers are at hand, or take no waiting.
pub trait AnswerAtOnce {
    ghost use Rattle.bf_value.specs.declared.name.JobName.{JobName};
    ghost use Rattle.bf_xcom.specs.declared.values.Given.{Given};
    ghost use Rattle.bf_try.specs.declared.answers.Raw.{Raw};

    /// The try of this name, given this, may be answered so at once.
    ghost may_answer_at_once: { Self → JobName → Given → Raw → Type 0 };

    /// Answers the try of a ticket. `Err` hands the ticket back, where a worker is to make the try.
    fn answer_at_once(&self, ticket: Ticket) -> Result<Done, Ticket>
        ensures ok { IfOk result (λ d. (d.name ≡ ticket.name) × (d.given ≡ ticket.given)
            × may_answer_at_once self.now d.name d.given d.raw) }
        ensures err { IfErr result (λ back. back ≡ ticket) };
}

/// A runner whose tries are all made by workers.
#[derive(Drop)]
pub(crate) struct ByWorkers<'a, R> {
    pub runner: &'a R,
}

impl<'a, R: TaskRunner> TaskRunner for ByWorkers<'a, R> {
    ghost may_answer = { λ s n g r. R.may_answer s.runner.now n g r };

    ghost may_give_up = { λ s n g. R.may_give_up s.runner.now n g };

    /// Has the runner make the try. `Err` hands the ticket back: `GaveUp` where the runner gave the try up,
    /// `OutOfMemory` at want of memory.
    fn run(&self, ticket: Ticket) -> Result<Done, (Ticket, RunnerFault)> {
        self.runner.run(ticket)
    }
}

impl<'a, R> AnswerAtOnce for ByWorkers<'a, R> {
    ghost may_answer_at_once = { λ _ _ _ _. ⊥ };

    /// Always hands the ticket back: workers make all tries.
    fn answer_at_once(&self, ticket: Ticket) -> Result<Done, Ticket> {
        Err(ticket)
    }
}

/// A kept try is answered at once, and so is any other where the runner answers at once. Where memory is wanting for
/// that, or the runner gives the try up, a worker is to make it.
impl<'a, K: KeptTries, R: TaskRunner> AnswerAtOnce for Keeping<'a, K, R> {
    ghost use Rattle.std.specs.Prelude.{◌≡◌, true};
    ghost use Rattle.bf_kept.specs.Kept.{IsAnswer};

    ghost may_answer_at_once = { λ s n g raw. IsAnswer (K.kept s.kept.now)
        (λ m h r. (s.at_once ≡ true) × R.may_answer s.runner.now m h r) n g raw };

    /// Answers a kept try so that it ends as it did before, and any other where the runner answers at once. `Err` hands
    /// the ticket back for any other, where the runner gives the try up, and at want of memory.
    fn answer_at_once(&self, ticket: Ticket) -> Result<Done, Ticket> {
        if self.at_once {
            return match self.run(ticket) {
                Ok(done) => Ok(done),
                Err((ticket, _)) => Err(ticket),
            };
        }
        match self.kept.answer(self.alloc, ticket.name(), ticket.given()) {
            Ok(Some(raw)) => Ok(ticket.answer(raw)),
            Ok(None) | Err(OutOfMemory) => Err(ticket),
        }
    }
}
