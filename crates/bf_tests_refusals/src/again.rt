//! Calls that are made again where memory was wanting.
ghost use Rattle.std.specs.Prelude.{◌≡◌};

use crate::graphs::GraphCase;
use bf_core::{Core, Illegal};
use bf_interval::Runs;
use bf_plan::Plan;
use bf_sched::{Next, Scheduler};
use bf_tests_graphs::{daily_runs, plan_of};
use bf_try::{Done, Raw};
use bf_value::{JobName, OutOfMemory};
use bf_workers::Workers;
use std::alloc::Global;
use thiserror::Error;

/// Why a backfill whose requests for memory were refused didn't come to its right end.
#[derive(Clone, Copy, Debug, PartialEq, Eq, Error)]
pub(crate) enum RefusalFault {
    #[error("a call found no memory twice")]
    Twice,
    #[error("a refused call has changed the backfill")]
    Changed,
    #[error("an event has changed nothing that is seen")]
    Unseen,
    #[error("the backfill has stopped short of its end")]
    Stopped,
}

/// What can be seen of a backfill from outside, by which a change shows.
#[derive(Clone, Copy, PartialEq, Eq)]
struct Seen {
    events: usize,
    running: u32,
    ended: bool,
    pending: Option<i64>,
}

/// Notes what can be seen of a backfill now.
fn see(scheduler: &Scheduler<'_>) -> Seen {
    Seen {
        events: scheduler.journal().len(),
        running: scheduler.running(),
        ended: scheduler.core().is_ended(),
        pending: scheduler.pending(),
    }
}

/// Checks that a backfill looks as it did `before`; else `Changed`.
fn is_still(scheduler: &Scheduler<'_>, before: Seen) -> Result<(), RefusalFault> {
    if see(scheduler) == before {
        Ok(())
    } else {
        Err(RefusalFault::Changed)
    }
}

/// Makes the plan of a graph, a second time where that finds no memory; `Twice` where the second fails too.
pub(crate) fn plan_again(alloc: Global, graph: GraphCase) -> Result<Plan, RefusalFault> {
    if let Ok(plan) = plan_of(alloc, graph.file()) {
        return Ok(plan);
    }
    plan_of(alloc, graph.file()).ok().ok_or(RefusalFault::Twice)
}

/// Makes the runs of so many days, a second time where that finds no memory; `Twice` where the second fails too.
pub(crate) fn runs_again(alloc: Global, days: u32) -> Result<Runs, RefusalFault> {
    if let Some(runs) = daily_runs(alloc, days) {
        return Ok(runs);
    }
    daily_runs(alloc, days).ok_or(RefusalFault::Twice)
}

/// Makes the scheduler of a backfill by one worker.
fn scheduler<'a>(alloc: Global, plan: &'a Plan, runs: &Runs) -> Result<Scheduler<'a>, OutOfMemory> {
    let core = Core::new(alloc, plan, runs)?;
    Scheduler::new(alloc, core, Workers::one())
}

/// Makes the scheduler of a backfill by one worker, a second time where that finds no memory; `Twice` where the second
/// fails too.
pub(crate) fn scheduler_again<'a>(
    alloc: Global,
    plan: &'a Plan,
    runs: &Runs,
) -> Result<Scheduler<'a>, RefusalFault> {
    if let Ok(scheduler) = scheduler(alloc, plan, runs) {
        return Ok(scheduler);
    }
    scheduler(alloc, plan, runs).ok().ok_or(RefusalFault::Twice)
}

/// Gives what comes next, and asks a second time where the scheduler found no memory. `Changed` where the refused call
/// changed the backfill, `Twice` where the second fails too.
pub(crate) fn next_again(scheduler: &mut Scheduler<'_>) -> Result<Next, RefusalFault> {
    let before = see(scheduler);
    if let Ok(next) = scheduler.next() {
        return Ok(next);
    }
    is_still(scheduler, before)?;
    scheduler.next().ok().ok_or(RefusalFault::Twice)
}

/// Lets the clock come to a moment and gives what the scheduler answers, a second time where that finds no memory.
/// `Changed` where the refused call changed the backfill, `Twice` where the second fails too.
pub(crate) fn tick_again(scheduler: &mut Scheduler<'_>, moment: i64) -> Result<bool, RefusalFault> {
    let before = see(scheduler);
    if let Ok(came) = scheduler.tick(moment) {
        return Ok(came);
    }
    is_still(scheduler, before)?;
    scheduler.tick(moment).ok().ok_or(RefusalFault::Twice)
}

/// Checks that a refused event may be repeated. `Stopped` where it was refused for another cause than want of memory,
/// `Changed` where the backfill doesn't look as it did `before`.
fn may_come_again(
    scheduler: &Scheduler<'_>,
    before: Seen,
    fault: Illegal,
) -> Result<(), RefusalFault> {
    if fault == Illegal::OutOfMemory {
        is_still(scheduler, before)
    } else {
        Err(RefusalFault::Stopped)
    }
}

/// Ends a try, a second time where that finds no memory. `Stopped` where it is refused for another cause, `Changed`
/// where the refused call changed the backfill, `Twice` where the second fails too.
pub(crate) fn finish_again(scheduler: &mut Scheduler<'_>, done: Done) -> Result<(), RefusalFault> {
    let before = see(scheduler);
    let Err((done, fault)) = scheduler.finish(done) else {
        return Ok(());
    };
    may_come_again(scheduler, before, fault)?;
    scheduler.finish(done).ok().ok_or(RefusalFault::Twice)
}

/// Makes the answer of a try, a second time where that finds no memory; `Twice` where the second fails too.
pub(crate) fn raw_again(
    alloc: Global,
    graph: GraphCase,
    name: JobName,
) -> Result<Raw, RefusalFault> {
    if let Ok(raw) = graph.raw(alloc, name) {
        return Ok(raw);
    }
    graph.raw(alloc, name).ok().ok_or(RefusalFault::Twice)
}
