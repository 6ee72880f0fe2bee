//! A backfill by one worker, each call made again where memory was wanting, and its journal, let come again.
use crate::again::{
    RefusalFault, finish_again, next_again, raw_again, runs_again, scheduler_again, tick_again,
};
use crate::graphs::GraphCase;
use crate::replay::replay;
use bf_core::Ended;
use bf_interval::Runs;
use bf_plan::Plan;
use bf_sched::{Next, Scheduler};
use bf_try::Ticket;
use std::alloc::Global;

/// The most turns that a backfill may take before it counts as stuck; each ends long before.
const MOST_TURNS: u32 = 1_000;

/// Answers a try that has begun, as the graph says, and ends it.
fn make_try(
    alloc: Global,
    graph: GraphCase,
    scheduler: &mut Scheduler<'_>,
    ticket: Ticket,
) -> Result<(), RefusalFault> {
    let raw = raw_again(alloc, graph, ticket.name())?;
    finish_again(scheduler, ticket.answer(raw))
}

/// Lets one more event come, and answers true; false where the backfill has ended. `Stopped` where it waits for a try
/// that nothing runs.
fn turn(
    alloc: Global,
    graph: GraphCase,
    scheduler: &mut Scheduler<'_>,
) -> Result<bool, RefusalFault> {
    match next_again(scheduler)? {
        Next::Stepped => Ok(true),
        Next::Go(ticket) => {
            make_try(alloc, graph, scheduler, ticket)?;
            Ok(true)
        }
        Next::Until(moment) => tick_again(scheduler, moment),
        Next::Wait => Err(RefusalFault::Stopped),
        Next::Ended => Ok(false),
    }
}

/// Lets events come until the backfill has ended; `Stopped` where `MOST_TURNS` don't suffice.
fn all_turns(
    alloc: Global,
    graph: GraphCase,
    scheduler: &mut Scheduler<'_>,
) -> Result<(), RefusalFault> {
    for _turn in 0..MOST_TURNS {
        if !turn(alloc, graph, scheduler)? {
            return Ok(());
        }
    }
    Err(RefusalFault::Stopped)
}

/// Runs the backfill of a plan over these runs to its end.
fn ended_of<'p>(
    alloc: Global,
    graph: GraphCase,
    plan: &'p Plan,
    runs: &Runs,
) -> Result<Ended<'p>, RefusalFault> {
    let mut scheduler = scheduler_again(alloc, plan, runs)?;
    all_turns(alloc, graph, &mut scheduler)?;
    scheduler.into_ended().ok().ok_or(RefusalFault::Stopped)
}

/// Runs the backfill of a plan over so many days to its end, and then replays its journal on new cores.
pub(crate) fn backfill<'p>(
    alloc: Global,
    graph: GraphCase,
    plan: &'p Plan,
    days: u32,
) -> Result<Ended<'p>, RefusalFault> {
    let runs = runs_again(alloc, days)?;
    let ended = ended_of(alloc, graph, plan, &runs)?;
    replay(alloc, plan, &runs, ended.journal())?;
    Ok(ended)
}
