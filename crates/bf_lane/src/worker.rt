//! The worker at the other end of a lane.
ghost use Rattle.std.specs.Prelude.{◌≡◌, ◌++◌, ◌∷◌, [], true, false, Some};
ghost use Rattle.crossbeam_queue.specs.Passes.{view, IsPassOf, IsSamePass};
ghost use Rattle.bf_lane.specs.Relay.{log};
ghost use Rattle.bf_lane.specs.Lanes.{answered, asked_by, IsAllowedBy, Answers};
ghost use Rattle.bf_lane.specs.Service.{HasServed};
ghost use Rattle.bf_lane.specs.Open.{Fulfils};
ghost use Rattle.bf_lane.specs.declared.messages.Job.{Job};
ghost use Rattle.bf_lane.specs.declared.messages.Answer.{Answer};

use crate::messages::{Answer, Job};
use crate::relay::{Put, QueuePass, RuledQueue, Taken};
use crate::reply::Reply;
use crate::service::Service;
use bf_try::{TaskRunner, Ticket};
use std::sync::Wait;
use std::thread::{self, Parker};

/// Puts a value into the queue `line` by the pass `seat`; waits while the queue is full.
pub(crate) fn wait_and_put<W: Wait, T>(
    rt: &W,
    line: &RuledQueue<T>,
    seat: &mut QueuePass<T>,
    value: T,
)
    requires seat { IsPassOf line.now seat.old }
    requires puts { (view seat.old).puts ≡ true }
    ensures seat { IsSamePass seat.old seat.new }
    ensures put { view seat.new ≡ log (view seat.old).puts (view seat.old).takes
        ((view seat.old).put ++ value ∷ []) (view seat.old).taken }
{
    let mut value = value;
    for _ in rt.forever() {
        match line.try_push_as::<Put>(seat, value) {
            Ok(()) => return,
            Err(back) => {
                value = back;
                thread::yield_now();
            }
        }
    }
    unreachable!()
}

/// Takes a value out of the queue `line` by the pass `seat`; sleeps on `called` until there is one.
fn wait_and_take<W: Wait, T>(
    rt: &W,
    line: &RuledQueue<T>,
    called: &Parker,
    seat: &mut QueuePass<T>,
) -> T
    requires seat { IsPassOf line.now seat.old }
    requires takes { (view seat.old).takes ≡ true }
    ensures seat { IsSamePass seat.old seat.new }
    ensures taken { view seat.new ≡ log (view seat.old).puts (view seat.old).takes
        (view seat.old).put ((view seat.old).taken ++ result ∷ []) }
{
    for _ in rt.forever() {
        match line.try_pop_as::<Taken>(seat) {
            Some(value) => return value,
            None => called.park(rt),
        }
    }
    unreachable!()
}

/// The runner's answer to a ticket; where it gives none, the ticket with the runner's fault.
fn answer_to<K: Service, R: TaskRunner>(runner: &R, ticket: Ticket) -> Reply<K>
    requires { Fulfils (R.may_answer runner.now) (R.may_give_up runner.now) K.answers K.gives_up }
    ensures ticket { asked_by result ≡ ticket }
    ensures allowed { IsAllowedBy K.answers K.gives_up result }
{
    match runner.run(ticket) {
        Ok(done) => Reply::new(Answer::Done(done)),
        Err((ticket, fault)) => Reply::new(Answer::Gave(ticket, fault)),
    }
}

/// Where a worker finds jobs and leaves answers.
#[derive(Drop)]
pub(crate) struct Desk<'d, K: Service> {
    pub(crate) jobs: &'d RuledQueue<Job>,
    pub(crate) results: &'d RuledQueue<Reply<K>>,
    /// The worker sleeps on it while there is no job.
    pub(crate) called: &'d Parker,
    /// The scheduler sleeps on it while there is no answer.
    pub(crate) answered: &'d Parker,
}

/// Answers the jobs of a lane by the runner, until one says to stop, and wakes the scheduler behind each answer.
/// `takes` and `sends`, the worker's passes to the queues of jobs and of results, are given back.
pub(crate) fn serve<K: Service, W: Wait, R: TaskRunner>(
    rt: &W,
    desk: Desk<'_, K>,
    mut takes: QueuePass<Job>,
    mut sends: QueuePass<Reply<K>>,
    runner: &R,
) -> (QueuePass<Job>, QueuePass<Reply<K>>)
    requires jobs { IsPassOf desk.jobs.now takes × (view takes ≡ log false true [] []) }
    requires results { IsPassOf desk.results.now sends × (view sends ≡ log true false [] []) }
    requires fulfils { Fulfils (R.may_answer runner.now) (R.may_give_up runner.now) K.answers
        K.gives_up }
    ensures { HasServed K.answers K.gives_up desk.entry.jobs.now desk.entry.results.now result.0
        result.1 }
{
    for _ in rt.forever() {
        match wait_and_take(rt, desk.jobs, desk.called, &mut takes) {
            Job::Run(ticket) => {
                let answer = answer_to::<K, R>(runner, ticket);
                wait_and_put(rt, desk.results, &mut sends, answer);
                desk.answered.unpark();
            }
            Job::Stop => return (takes, sends),
        }
    }
    unreachable!()
}
