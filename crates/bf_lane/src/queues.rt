//! The parts of a lane.
use crate::messages::Job;
use crate::relay::{QueuePass, RuledQueue};
use crate::reply::Reply;
use crate::service::Service;
use std::marker::PhantomData;
use std::thread::{Parker, Promise};

/// The two queues of a lane, and what its worker sleeps on.
#[derive(Drop)]
pub struct Queues<K: Service> {
    pub jobs: RuledQueue<Job>,
    pub results: RuledQueue<Reply<K>>,
    /// The worker sleeps on it while there is no job.
    pub called: Parker,
}

/// The passes to the queues of a lane: to put and take jobs, and to send and gather results.
#[derive(Drop)]
pub struct Seats<K: Service> {
    pub puts: QueuePass<Job>,
    pub takes: QueuePass<Job>,
    pub sends: QueuePass<Reply<K>>,
    pub gathers: QueuePass<Reply<K>>,
}

/// The promise of a worker that it serves these queues.
#[derive(Drop)]
pub(crate) struct Serves<'s, K: Service> {
    pub(crate) queues: &'s Queues<K>,
    pub(crate) of: PhantomData<K>,
}

impl<'s, K: Service> Promise<(QueuePass<Job>, QueuePass<Reply<K>>)> for Serves<'s, K> {
    ghost use Rattle.bf_lane.specs.Service.{HasServed};

    ghost kept_by = { λ p r. HasServed K.answers K.gives_up p.queues.now.jobs p.queues.now.results
        r.0 r.1 };
}
