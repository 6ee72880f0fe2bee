//! Each try is asked for once.
use crate::backfills::backfill;
use bf_try::{Done, Raw, RunnerFault, TaskRunner, Ticket};
use bf_value::{JobName, Sequence};
use bf_xcom::RunState;
use std::alloc::Global;
use std::process::Abort;
use std::sync::atomic::{AtomicU64, Ordering};
use std::test::Fail;

const RETRIED: &str = r#"{"dag_id":"d","schedule":"@daily",
    "tasks":[{"id":"a","retries":2},{"id":"b","upstream":["a"]}]}"#;

/// A runner that counts the calls for each try of two tasks. The first task fails twice and succeeds at its third try.
#[derive(Drop)]
struct Counting {
    alloc: Global,
    first: [AtomicU64; 4],
    second: [AtomicU64; 4],
}

impl Counting {
    fn new(alloc: Global) -> Counting {
        Counting {
            alloc,
            first: [
                AtomicU64::new(0),
                AtomicU64::new(0),
                AtomicU64::new(0),
                AtomicU64::new(0),
            ],
            second: [
                AtomicU64::new(0),
                AtomicU64::new(0),
                AtomicU64::new(0),
                AtomicU64::new(0),
            ],
        }
    }

    /// Counts a call for the try of this name.
    fn count(&self, name: JobName) {
        let calls = if name.task == 0 {
            &self.first
        } else {
            &self.second
        };
        if let Some(calls) = calls.get(name.attempt as usize) {
            calls.fetch_add(1, Ordering::SeqCst);
        }
    }
}

impl TaskRunner for Counting {
    ghost may_answer = { λ s n g r. Unit {0} };

    ghost may_give_up = { λ s n g. ⊥ };

    /// Counts the call, and answers status 1 for the first two tries of the first task, else 0.
    fn run(&self, ticket: Ticket) -> Result<Done, (Ticket, RunnerFault)> {
        let name = ticket.name();
        self.count(name);
        let code = if name.task == 0 && name.attempt < 3 {
            1
        } else {
            0
        };
        Ok(ticket.answer(Raw::with_code(code, Sequence::new(self.alloc))))
    }
}

/// Checks how often each try was asked for; the index is the try's number.
fn are(rt: &impl Abort, calls: &[AtomicU64; 4], wanted: [u64; 4]) {
    for (calls, wanted) in calls.iter().zip(&wanted) {
        assert_eq!(rt; calls.load(Ordering::SeqCst), *wanted);
    }
}

#[test]
fn each_try_is_asked_once(rt: HostRuntime) -> Result<(), Fail> {
    for workers in [1u32, 2, 8] {
        let runner = Counting::new(rt.alloc());
        let told = backfill(&rt, rt.alloc(), RETRIED, workers, &runner)??;
        assert_eq!(rt; told.run_states.as_slice(), [RunState::Success].as_slice());
        are(&rt, &runner.first, [0, 1, 1, 1]);
        are(&rt, &runner.second, [0, 1, 0, 0]);
    }
    Ok(())
}
