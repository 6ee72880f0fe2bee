//! The scheduler's end of a lane.
ghost use Rattle.std.specs.Prelude.{◌≡◌, ◌++◌, ◌∷◌, [], true, false, IfOk, IfSome, IfNone};
ghost use Rattle.crossbeam_queue.specs.Passes.{view, IsPassOf};
ghost use Rattle.bf_lane.specs.Relay.{log};
ghost use Rattle.bf_lane.specs.Lanes.{IsClosed, IsAllowedBy};
ghost use Rattle.bf_lane.specs.Open.{IsFresh, scheduled, awaits, Fulfils, StartsWith};
ghost use Rattle.bf_lane.specs.declared.messages.Job.TheVariants;
ghost use Rattle.bf_lane.specs.inner.Drained.{IsDrained};

use crate::closed::Closed;
use crate::messages::{Answer, Job};
use crate::queues::{Queues, Seats, Serves};
use crate::relay::{Apart, QueuePass, RuledQueue, Taken, Together};
use crate::reply::Reply;
use crate::service::Service;
use crate::worker::{Desk, serve, wait_and_put};
use bf_try::{TaskRunner, Ticket};
use std::alloc::{AllocError, Global};
use std::marker::{Model, PhantomData};
use std::sync::Wait;
use std::thread::{Parker, PromisedHandle, Scope, Threads};

/// The thread of a worker could not be started.
#[derive(Clone, Copy, Debug, PartialEq, Eq)]
pub struct NotStarted;

/// The scheduler's end of a lane. Contracts see what was submitted and gathered.
#[derive(Drop)]
pub struct Lane<'s, K: Service> {
    queues: &'s Queues<K>,
    puts: QueuePass<Job>,
    gathers: QueuePass<Reply<K>>,
    worker: PromisedHandle<(QueuePass<Job>, QueuePass<Reply<K>>), Serves<'s, K>>,
    is_busy: bool,
}

impl<'s, K: Service> Model for Lane<'s, K> {
    ghost use Rattle.crossbeam_queue.specs.Passes.{view as known};
    ghost use Rattle.bf_lane.specs.Open.{Scheduled, scheduled, IsOpen};
    ghost use Rattle.bf_lane.specs.contracts.messages.Job;
    ghost use Rattle.bf_lane.specs.contracts.messages.Answer;
    ghost use Rattle.std.specs.Coded.{codes};

    ghost Value = { Scheduled };

    ghost coded = { Prim.hlevel (codes, Job.the_row.coded, Answer.the_row.coded) };

    ghost view = { λ l. scheduled (known l.puts).put (known l.gathers).taken };

    ghost invariant = { λ l. IsOpen l.queues.now l.worker.promise.queues.now l.puts l.gathers
        l.is_busy };
}

/// The two queues of a lane, each of capacity 2, and the seats by which jobs are put and taken, and results sent and
/// gathered.
pub fn new_queues_and_seats<K: Service>(alloc: Global) -> Result<(Queues<K>, Seats<K>), AllocError>
    ensures { IfOk result (λ q. IsFresh q.0 q.1) }
{
    let (jobs, mut puts) = RuledQueue::<Job>::ruled(alloc, 2)?;
    let takes = jobs.another::<Apart>(&mut puts);
    let (results, mut sends) = RuledQueue::<Reply<K>>::ruled(alloc, 2)?;
    let gathers = results.another::<Apart>(&mut sends);
    let seats = Seats {
        puts,
        takes,
        sends,
        gathers,
    };
    let called = Parker::new();
    Ok((
        Queues {
            jobs,
            results,
            called,
        },
        seats,
    ))
}

/// Takes out and drops all that the queue `line` holds. `seat` is the pass to the queue, and notes what was taken.
fn drain<W: Wait, T: Drop>(rt: &W, line: &RuledQueue<T>, seat: &mut QueuePass<T>)
    requires seat { IsPassOf line.now seat.old }
    requires whole { ((view seat.old).puts ≡ true) × ((view seat.old).takes ≡ true) }
    ensures { IsDrained (view seat.old) (view seat.new) }
{
    for _ in rt.forever() {
        if line.pop_as::<Taken, W>(rt, seat).is_none() {
            return;
        }
    }
    unreachable!()
}

impl<'s, K: Service + Send + Sync + 's> Lane<'s, K> {
    /// Starts the worker of a lane in a thread of its own. It answers each try by the runner, and wakes `answered`
    /// behind each answer. `NotStarted` where the thread can't be started.
    pub fn start<E, W: Threads + Wait + Sync, R: TaskRunner + Sync>(
        scope: &Scope<'s, E>,
        rt: &'s W,
        queues: &'s Queues<K>,
        seats: Seats<K>,
        answered: &'s Parker,
        runner: &'s R,
    ) -> Result<Lane<'s, K>, NotStarted>
        requires fresh { IsFresh queues.now seats }
        requires fulfils { Fulfils (R.may_answer runner.now) (R.may_give_up runner.now) K.answers
            K.gives_up }
        ensures { IfOk result (λ l. l ≡ scheduled [] []) }
    {
        let Seats {
            puts,
            takes,
            sends,
            gathers,
        } = seats;
        let jobs = &queues.jobs;
        let results = &queues.results;
        let called = &queues.called;
        let started = scope.spawn_with(
            Serves {
                queues,
                of: PhantomData,
            },
            move ||
                requires { IsPassOf jobs.now takes × (view takes ≡ log false true [] [])
                    × IsPassOf results.now sends × (view sends ≡ log true false [] [])
                    × Fulfils (R.may_answer runner.now) (R.may_give_up runner.now) K.answers
                    K.gives_up }
            {
                serve::<K, W, R>(
                    rt,
                    Desk {
                        jobs,
                        results,
                        called,
                        answered,
                    },
                    takes,
                    sends,
                    runner,
                )
            },
        );
        match started {
            Ok(worker) => Ok(Lane {
                queues,
                puts,
                gathers,
                worker,
                is_busy: false,
            }),
            Err(_) => Err(NotStarted),
        }
    }

    /// Whether an answer of the worker is awaited.
    pub(crate) fn is_busy(&self) -> bool
        ensures { result ≡ awaits self.now }
    {
        self.is_busy
    }

    /// Submits a try to the worker, from which no answer is awaited yet.
    pub(crate) fn submit<W: Wait>(&mut self, rt: &W, ticket: Ticket)
        requires { awaits self.old ≡ false }
        ensures { self.new ≡ scheduled (self.old.submitted ++ TheVariants.Run ticket ∷ [])
            self.old.gathered }
    {
        wait_and_put(rt, &self.queues.jobs, &mut self.puts, Job::Run(ticket));
        self.queues.called.unpark();
        self.is_busy = true;
    }

    /// Takes the worker's answer; None where none is awaited, or it isn't there yet. Never waits.
    pub(crate) fn try_gather(&mut self) -> Option<Answer>
        ensures some { IfSome result (λ a. self.new
            ≡ scheduled self.old.submitted (self.old.gathered ++ a ∷ [])) }
        ensures allowed { IfSome result (IsAllowedBy K.answers K.gives_up) }
        ensures none { IfNone result (self.new ≡ self.old) }
    {
        if !self.is_busy {
            return None;
        }
        let reply = self.queues.results.try_pop_as::<Taken>(&mut self.gathers)?;
        self.is_busy = false;
        Some(reply.into_answer())
    }

    /// Stops the worker, waits until its thread has ended, and takes what it left in its queues.
    pub(crate) fn close<W: Threads + Wait>(self, rt: &W) -> Closed<K>
        ensures submitted { result.submitted ≡ self.entry.submitted ++ TheVariants.Stop ∷ [] }
        ensures gathered { StartsWith result.gathered self.entry.gathered }
        ensures closed { IsClosed K.answers K.gives_up result }
    {
        let Lane {
            queues,
            mut puts,
            gathers,
            worker,
            is_busy: _,
        } = self;
        wait_and_put(rt, &queues.jobs, &mut puts, Job::Stop);
        queues.called.unpark();
        let (takes, mut sends) = worker.join(rt);
        queues.jobs.absorb::<Together>(&mut puts, takes);
        queues.jobs.learn_as::<Taken>(&mut puts);
        queues.results.absorb::<Together>(&mut sends, gathers);
        drain(rt, &queues.results, &mut sends);
        Closed::from_passes(puts, sends)
    }
}
