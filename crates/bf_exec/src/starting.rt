//! The start of the workers.
ghost use Rattle.std.specs.Prelude.{◌≡◌, IfOk, IfErr, length, vec_len};
ghost use Rattle.bf_lane.specs.Open.{Fulfils};
ghost use Rattle.bf_exec.specs.inner.Accounts.{AreUnused};
ghost use Rattle.bf_exec.specs.Faults.{MayFail};
ghost use Rattle.bf_exec.specs.inner.Starting.{AreFresh};

use crate::order::Shared;
use bf_core::BackfillFault;
use bf_lane::{Lane, Lanes, Queues, Seats, Service, new_queues_and_seats};
use bf_try::TaskRunner;
use bf_value::OutOfMemory;
use bf_workers::Workers;
use std::alloc::Global;
use std::sync::Wait;
use std::thread::{Scope, Threads};

/// The queues of a lane for each worker, and in the same order the seats of each lane.
pub(crate) fn all_queues_and_seats<K: Service>(
    alloc: Global,
    workers: Workers,
) -> Result<(Vec<Queues<K>>, Vec<Seats<K>>), OutOfMemory>
    ensures fresh { IfOk result (λ q. AreFresh q.0.items q.1.items) }
    ensures many { IfOk result (λ q. vec_len q.1 ≡ workers) }
{
    let mut queues = Vec::new(alloc);
    let mut seats = Vec::new(alloc);
    for _made in 0..workers.count() {
        queues.reserve(1)?;
        seats.reserve(1)?;
        let (queue, seat) = new_queues_and_seats::<K>(alloc)?;
        queues.push_reserved(queue);
        seats.push_reserved(seat);
    }
    Ok((queues, seats))
}

/// Starts a worker for each lane, and gives the lanes. `Start` where a worker can't be started, `OutOfMemory` at want
/// of memory; the workers that were started have ended then.
pub(crate) fn start_lanes<'s, K, E, W, D>(
    scope: &Scope<'s, E>,
    rt: &'s W,
    queues: &'s [Queues<K>],
    seats: Vec<Seats<K>>,
    desk: &'s D,
) -> Result<Lanes<'s, K>, BackfillFault>
where
    K: Service + Send + Sync + 's,
    W: Threads + Wait + Sync,
    D: TaskRunner + Shared + Sync,
    requires fresh { AreFresh queues.now seats.items }
    requires fulfils { Fulfils (D.may_answer desk.now) (D.may_give_up desk.now) K.answers
        K.gives_up }
    ensures unused { IfOk result AreUnused }
    ensures many { IfOk result (λ lanes. length lanes ≡ length seats.items) }
    ensures fault { IfErr result (MayFail K.gives_up) }
{
    let mut lanes = Lanes::new(desk.alloc(), desk.answered());
    let mut at = 0usize;
    for seat in seats {
        match Lane::start(scope, rt, &queues[at], seat, desk.answered(), desk) {
            Ok(lane) => {
                if lanes.push(lane, rt).is_err() {
                    drop(lanes.close(rt));
                    return Err(BackfillFault::OutOfMemory);
                }
            }
            Err(_) => {
                drop(lanes.close(rt));
                return Err(BackfillFault::Start);
            }
        }
        at += 1;
    }
    Ok(lanes)
}
