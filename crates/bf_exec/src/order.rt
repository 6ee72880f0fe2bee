//! What a backfill is asked for, and what its workers share.
use crate::at_once::AnswerAtOnce;
use bf_plan::Plan;
use bf_try::{Done, RunnerFault, TaskRunner, Ticket};
use bf_workers::Workers;
use std::alloc::Global;
use std::thread::Parker;

/// A plan, its runs, and how many workers there are.
#[derive(Drop)]
pub(crate) struct Order<'p, 'r, N> {
    pub plan: &'p Plan,
    pub runs: &'r N,
    pub workers: Workers,
}

/// What the workers share. A trait, so that the scope of the threads sees one reference without a lifetime inside.
pub(crate) trait Shared {
    /// Where memory comes from.
    fn alloc(&self) -> Global;

    /// What the scheduler sleeps on while there is no answer.
    fn answered(&self) -> &Parker;
}

/// The runner of the tries, and what the scheduler sleeps on.
#[derive(Drop)]
pub(crate) struct Desk<'r, R> {
    pub alloc: Global,
    pub runner: &'r R,
    pub answered: Parker,
}

impl<'r, R> Shared for Desk<'r, R> {
    /// Where memory comes from.
    fn alloc(&self) -> Global {
        self.alloc
    }

    /// What the scheduler sleeps on while there is no answer.
    fn answered(&self) -> &Parker {
        &self.answered
    }
}

impl<'r, R: TaskRunner> TaskRunner for Desk<'r, R> {
    ghost may_answer = { λ d n g r. R.may_answer d.runner.now n g r };

    ghost may_give_up = { λ d n g. R.may_give_up d.runner.now n g };

    /// Has the runner make the try. `Err` hands the ticket back: `GaveUp` where the runner gave the try up,
    /// `OutOfMemory` at want of memory.
    fn run(&self, ticket: Ticket) -> Result<Done, (Ticket, RunnerFault)> {
        self.runner.run(ticket)
    }
}

impl<'r, R: AnswerAtOnce> AnswerAtOnce for Desk<'r, R> {
    ghost may_answer_at_once = { λ d n g r. R.may_answer_at_once d.runner.now n g r };

    /// Answers the try if the runner does so at once; else `Err` hands the ticket back.
    fn answer_at_once(&self, ticket: Ticket) -> Result<Done, Ticket> {
        self.runner.answer_at_once(ticket)
    }
}
