//! Backfills of one run, without waiting.
use bf_core::{BackfillFault, Ended, Event};
use bf_exec::{Silent, Watch, run_backfill};
use bf_lane::Jump;
use bf_plain::one_by_one;
use bf_tests_graphs::{epoch_run, plan_of};
use bf_try::TaskRunner;
use bf_value::{JobName, OutOfMemory};
use bf_workers::Workers;
use bf_xcom::RunState;
use std::alloc::Global;
use std::sync::Wait;
use std::test::Fail;
use std::thread::Threads;

/// What came of a backfill: the states of its runs, and its tries in the order in which they began.
#[derive(Drop)]
pub(crate) struct Told {
    pub run_states: Vec<RunState>,
    pub begun: Vec<JobName>,
}

/// Gives what came of a backfill that has ended.
fn told_by(alloc: Global, ended: &Ended<'_>) -> Result<Told, OutOfMemory> {
    Ok(Told {
        run_states: ended.run_states().to_vec(alloc)?,
        begun: begun(alloc, ended.journal())?,
    })
}

/// Gives what came of a backfill, or the fault that stopped it.
fn told_of(
    alloc: Global,
    ended: Result<Ended<'_>, BackfillFault>,
) -> Result<Result<Told, BackfillFault>, Fail> {
    match ended {
        Ok(ended) => Ok(Ok(told_by(alloc, &ended)?)),
        Err(fault) => Ok(Err(fault)),
    }
}

/// Runs a graph's backfill of one run by so many workers, and gives what came of it, or the fault that stopped it. The
/// clock jumps to each moment that a try waits for.
pub(crate) fn backfill<W: Threads + Wait + Sync, R: TaskRunner + Sync>(
    rt: &W,
    alloc: Global,
    graph: &str,
    workers: u32,
    runner: &R,
) -> Result<Result<Told, BackfillFault>, Fail> {
    let workers = Workers::new(workers).ok_or("there can't be so many workers")?;
    let runs = epoch_run(alloc)?;
    let plan = plan_of(alloc, graph)?;
    let mut watch = Watch {
        clock: Jump::new(),
        observer: Silent,
    };
    let ended = run_backfill(rt, alloc, &plan, &runs, workers, runner, &mut watch);
    told_of(alloc, ended)
}

/// Runs a graph's backfill of one run in the calling thread, and gives what came of it, or the fault that stopped it.
pub(crate) fn alone<R: TaskRunner>(
    alloc: Global,
    graph: &str,
    runner: &R,
) -> Result<Result<Told, BackfillFault>, Fail> {
    let runs = epoch_run(alloc)?;
    let plan = plan_of(alloc, graph)?;
    told_of(alloc, one_by_one(alloc, &plan, &runs, runner))
}

/// Gives the tries of a journal in the order in which they began.
fn begun(alloc: Global, journal: &[Event]) -> Result<Vec<JobName>, OutOfMemory> {
    let mut names = Vec::new(alloc);
    for event in journal {
        if let Event::Begin(name) = event {
            names.push(*name)?;
        }
    }
    Ok(names)
}
