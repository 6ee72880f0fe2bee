//! Runners that give no answer.
use crate::backfills::{Told, alone, backfill};
use bf_core::BackfillFault;
use bf_tests_graphs::job;
use bf_try::{Done, Raw, RunnerFault, TaskRunner, Ticket};
use bf_value::Sequence;
use std::alloc::Global;
use std::process::Abort;
use std::sync::atomic::{AtomicU64, Ordering};
use std::test::Fail;

const CHAIN: &str = r#"{"dag_id":"d","schedule":"@daily",
    "tasks":[{"id":"a"},{"id":"b","upstream":["a"]},{"id":"c","upstream":["b"]}]}"#;

/// A runner that gives no answer for the second task, for this cause, lets the others succeed, and counts how often it
/// is asked.
#[derive(Drop)]
struct Quitter {
    alloc: Global,
    cause: RunnerFault,
    asked: AtomicU64,
}

impl Quitter {
    fn new(alloc: Global, cause: RunnerFault) -> Quitter {
        Quitter {
            alloc,
            cause,
            asked: AtomicU64::new(0),
        }
    }
}

impl TaskRunner for Quitter {
    ghost may_answer = { λ s n g r. Unit {0} };

    ghost may_give_up = { λ s n g. Unit {0} };

    /// Counts the call. Gives the cause for the second task, and answers status 0 for the others.
    fn run(&self, ticket: Ticket) -> Result<Done, (Ticket, RunnerFault)> {
        self.asked.fetch_add(1, Ordering::SeqCst);
        if ticket.name().task == 1 {
            return Err((ticket, self.cause));
        }
        Ok(ticket.answer(Raw::with_code(0, Sequence::new(self.alloc))))
    }
}

/// Checks that the backfill stopped for the second task's try, which was given up, and that the runner was asked twice.
fn has_given_up(rt: &impl Abort, quitter: &Quitter, told: Result<Told, BackfillFault>) {
    let name = match told {
        Err(BackfillFault::Runner(name)) => Some(name),
        _ => None,
    };
    assert_eq!(rt; name, Some(job(1, -1, 1)));
    assert_eq!(rt; quitter.asked.load(Ordering::SeqCst), 2);
}

/// Checks that the backfill stopped for want of memory, and that the runner was asked twice.
fn lacked_memory(rt: &impl Abort, quitter: &Quitter, told: Result<Told, BackfillFault>) {
    assert!(rt; matches!(told, Err(BackfillFault::OutOfMemory)));
    assert_eq!(rt; quitter.asked.load(Ordering::SeqCst), 2);
}

#[test]
fn a_try_that_is_given_up_stops_the_backfill(rt: HostRuntime) -> Result<(), Fail> {
    for workers in [1u32, 2, 8] {
        let quitter = Quitter::new(rt.alloc(), RunnerFault::GaveUp);
        let told = backfill(&rt, rt.alloc(), CHAIN, workers, &quitter)?;
        has_given_up(&rt, &quitter, told);
    }
    Ok(())
}

#[test]
fn a_runner_without_memory_stops_the_backfill(rt: HostRuntime) -> Result<(), Fail> {
    for workers in [1u32, 2, 8] {
        let quitter = Quitter::new(rt.alloc(), RunnerFault::OutOfMemory);
        let told = backfill(&rt, rt.alloc(), CHAIN, workers, &quitter)?;
        lacked_memory(&rt, &quitter, told);
    }
    Ok(())
}

#[test]
fn so_it_does_in_the_thread_that_asks(rt: HostRuntime) -> Result<(), Fail> {
    let quitter = Quitter::new(rt.alloc(), RunnerFault::GaveUp);
    has_given_up(&rt, &quitter, alone(rt.alloc(), CHAIN, &quitter)?);
    let quitter = Quitter::new(rt.alloc(), RunnerFault::OutOfMemory);
    lacked_memory(&rt, &quitter, alone(rt.alloc(), CHAIN, &quitter)?);
    Ok(())
}
