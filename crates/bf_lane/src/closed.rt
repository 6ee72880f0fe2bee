//! Lanes whose workers have ended.
ghost use Rattle.std.specs.Prelude.{◌≡◌};
ghost use Rattle.crossbeam_queue.specs.Passes.{view};

use crate::messages::Job;
use crate::relay::QueuePass;
use crate::reply::Reply;
use crate::service::Service;
use std::marker::Model;

/// A lane whose worker has ended. Contracts see it as its four lists: what was submitted and taken, sent and gathered.
#[derive(Drop)]
pub struct Closed<K: Service> {
    jobs: QueuePass<Job>,
    results: QueuePass<Reply<K>>,
}

impl<K: Service> Model for Closed<K> {
    ghost use Rattle.crossbeam_queue.specs.Passes.{view as known};
    ghost use Rattle.bf_lane.specs.Lanes.{FourLists};
    ghost use Rattle.bf_lane.specs.contracts.messages.Job;
    ghost use Rattle.bf_lane.specs.contracts.messages.Answer;
    ghost use Rattle.std.specs.Coded.{codes};

    ghost Value = { FourLists };

    ghost coded = { Prim.hlevel (codes, Job.the_row.coded, Answer.the_row.coded) };

    ghost view = { λ c. record {
      submitted = (known c.jobs).put;
      taken = (known c.jobs).taken;
      sent = (known c.results).put;
      gathered = (known c.results).taken;
    } };
}

impl<K: Service> Closed<K> {
    /// A closed lane, by the passes to its two queues, of jobs and of results: what was put into each and taken out.
    pub(crate) fn from_passes(jobs: QueuePass<Job>, results: QueuePass<Reply<K>>) -> Closed<K>
        ensures jobs { (result.submitted ≡ (view jobs).put) × (result.taken ≡ (view jobs).taken) }
        ensures results { (result.sent ≡ (view results).put)
            × (result.gathered ≡ (view results).taken) }
    {
        Closed { jobs, results }
    }
}
