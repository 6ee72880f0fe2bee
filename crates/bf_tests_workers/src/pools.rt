//! The order in which tries begin, and the slots that they hold.
use crate::backfills::backfill;
use bf_tests_graphs::job;
use bf_try::{Done, Raw, RunnerFault, TaskRunner, Ticket};
use bf_value::{JobName, Sequence};
use std::alloc::Global;
use std::sync::atomic::{AtomicU64, Ordering};
use std::test::Fail;

/// A task that takes both slots of its pool, and two heavier ones that take one each.
const WEIGHED: &str = r#"{"dag_id":"d","schedule":"@daily","pools":{"p":2},"tasks":[
    {"id":"a","pool":"p","pool_slots":2,"priority_weight":1},
    {"id":"b","pool":"p","priority_weight":9},{"id":"c","pool":"p","priority_weight":9}]}"#;

/// A task whose retry waits a minute, and another.
const DELAYED: &str = r#"{"dag_id":"d","schedule":"@daily",
    "tasks":[{"id":"a","retries":1,"retry_delay":60},{"id":"b"}]}"#;

/// A runner that holds the slots of each try for a while, and keeps the most that were occupied at once. Where
/// `fails_first`, the first try of the first task fails.
#[derive(Drop)]
struct Slots {
    alloc: Global,
    /// The slots of each task.
    of_tasks: [u64; 3],
    fails_first: bool,
    occupied: AtomicU64,
    most: AtomicU64,
}

impl Slots {
    fn new(alloc: Global, fails_first: bool) -> Slots {
        Slots {
            alloc,
            of_tasks: [2, 1, 1],
            fails_first,
            occupied: AtomicU64::new(0),
            most: AtomicU64::new(0),
        }
    }

    /// Gives the slots that a try takes; 0 where there is no such task.
    fn of(&self, name: JobName) -> u64 {
        match self.of_tasks.get(name.task as usize) {
            Some(slots) => *slots,
            None => 0,
        }
    }

    /// Holds the slots of a try for some turns, and counts them among the occupied ones meanwhile.
    fn hold(&self, name: JobName) {
        let slots = self.of(name);
        let before = self.occupied.fetch_add(slots, Ordering::SeqCst);
        self.most
            .fetch_max(before.wrapping_add(slots), Ordering::SeqCst);
        for _turn in 0..1_000u32 {
            std::thread::yield_now();
        }
        self.occupied.fetch_sub(slots, Ordering::SeqCst);
    }
}

impl TaskRunner for Slots {
    ghost may_answer = { λ s n g r. Unit {0} };

    ghost may_give_up = { λ s n g. ⊥ };

    /// Holds the slots of the try for a while. Answers status 1 where it is to fail, else 0.
    fn run(&self, ticket: Ticket) -> Result<Done, (Ticket, RunnerFault)> {
        let name = ticket.name();
        self.hold(name);
        let fails = self.fails_first && name.task == 0 && name.attempt == 1;
        Ok(ticket.answer(Raw::with_code(i32::from(fails), Sequence::new(self.alloc))))
    }
}

#[test]
fn tries_begin_by_weight_where_their_pool_has_room(rt: HostRuntime) -> Result<(), Fail> {
    for workers in [1u32, 2, 8] {
        let runner = Slots::new(rt.alloc(), false);
        let told = backfill(&rt, rt.alloc(), WEIGHED, workers, &runner)??;
        assert_eq!(rt;
            told.begun.as_slice(),
            [job(1, -1, 1), job(2, -1, 1), job(0, -1, 1)].as_slice()
        );
        assert_eq!(rt; runner.most.load(Ordering::SeqCst), 2);
    }
    Ok(())
}

#[test]
fn others_begin_while_a_retry_waits(rt: HostRuntime) -> Result<(), Fail> {
    let runner = Slots::new(rt.alloc(), true);
    let told = backfill(&rt, rt.alloc(), DELAYED, 1, &runner)??;
    assert_eq!(rt;
        told.begun.as_slice(),
        [job(0, -1, 1), job(1, -1, 1), job(0, -1, 2)].as_slice()
    );
    Ok(())
}
