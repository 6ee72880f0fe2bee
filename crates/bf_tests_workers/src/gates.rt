//! Tries run at the same time.
use crate::backfills::backfill;
use bf_try::{Done, Raw, RunnerFault, TaskRunner, Ticket};
use bf_value::Sequence;
use bf_xcom::RunState;
use std::alloc::Global;
use std::sync::atomic::{AtomicBool, Ordering};
use std::test::Fail;
use std::thread;

const TWO: &str = r#"{"dag_id":"d","schedule":"@daily","tasks":[{"id":"a"},{"id":"b"}]}"#;

/// How many times a try looks whether the other has begun, before it fails.
const MOST_TURNS: u32 = 500_000_000;

/// A runner of two tasks, whose tries wait, where they are told to, until the other has begun.
#[derive(Drop)]
struct Gate {
    alloc: Global,
    first_waits: bool,
    second_waits: bool,
    first: AtomicBool,
    second: AtomicBool,
}

impl Gate {
    fn new(alloc: Global, first_waits: bool, second_waits: bool) -> Gate {
        Gate {
            alloc,
            first_waits,
            second_waits,
            first: AtomicBool::new(false),
            second: AtomicBool::new(false),
        }
    }

    /// Notes that this task's try has begun, and waits for the other's where it is told to; false where that doesn't
    /// begin in time.
    fn pass(&self, task: u32) -> bool {
        if task == 0 {
            self.first.store(true, Ordering::SeqCst);
            !self.first_waits || waited_for(&self.second)
        } else {
            self.second.store(true, Ordering::SeqCst);
            !self.second_waits || waited_for(&self.first)
        }
    }
}

/// Waits until `other` is set, and answers true; false where it isn't set after `MOST_TURNS` looks.
fn waited_for(other: &AtomicBool) -> bool {
    for _turn in 0..MOST_TURNS {
        if other.load(Ordering::SeqCst) {
            return true;
        }
        thread::yield_now();
    }
    false
}

impl TaskRunner for Gate {
    ghost may_answer = { λ s n g r. Unit {0} };

    ghost may_give_up = { λ s n g. ⊥ };

    /// Answers status 0, or 1 where the other try was waited for in vain.
    fn run(&self, ticket: Ticket) -> Result<Done, (Ticket, RunnerFault)> {
        let passes = self.pass(ticket.name().task);
        Ok(ticket.answer(Raw::with_code(i32::from(!passes), Sequence::new(self.alloc))))
    }
}

#[test]
fn two_tries_run_at_the_same_time(rt: HostRuntime) -> Result<(), Fail> {
    for (first_waits, second_waits) in [(true, false), (false, true), (true, true)] {
        let gate = Gate::new(rt.alloc(), first_waits, second_waits);
        let told = backfill(&rt, rt.alloc(), TWO, 2, &gate)??;
        assert_eq!(rt; told.run_states.as_slice(), [RunState::Success].as_slice());
    }
    Ok(())
}
