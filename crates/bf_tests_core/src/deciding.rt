//! When a task is decided.
use crate::steps::{Answered, End, TestStep, walk};
use bf_core::Illegal;
use std::test::Fail;

const JOIN: &str = r#"{"dag_id":"d","schedule":"@daily",
    "tasks":[{"id":"x"},{"id":"y"},{"id":"z","upstream":["x","y"]}]}"#;

const EARLY: &str = r#"{"dag_id":"d","schedule":"@daily",
    "tasks":[{"id":"x"},{"id":"y"},{"id":"z","upstream":["x","y"],"rule":"one_success"}]}"#;

/// Below a branch, a task whose rule always runs it.
const ALWAYS: &str = r#"{"dag_id":"d","schedule":"@daily",
    "tasks":[{"id":"b","kind":"branch"},{"id":"z","upstream":["b"],"rule":"always"}]}"#;

static JOIN_STEPS: [Answered; 9] = [
    (TestStep::Open, Ok(())),
    (TestStep::Settle(0, 0), Ok(())),
    (TestStep::Begin(0, -1, 1), Ok(())),
    (TestStep::Settle(0, 1), Ok(())),
    (TestStep::Begin(1, -1, 1), Ok(())),
    (TestStep::End(0, -1, 1, End::Skips), Ok(())),
    (TestStep::Settle(0, 2), Err(Illegal::NotEnabled)),
    (TestStep::End(1, -1, 1, End::Fails), Ok(())),
    (TestStep::Settle(0, 2), Ok(())),
];

#[test]
fn a_waiting_rule_waits_for_the_last_upstream(rt: HostRuntime) -> Result<(), Fail> {
    walk(&rt, rt.alloc(), JOIN, &JOIN_STEPS)
}

static EARLY_STEPS: [Answered; 9] = [
    (TestStep::Open, Ok(())),
    (TestStep::Settle(0, 0), Ok(())),
    (TestStep::Begin(0, -1, 1), Ok(())),
    (TestStep::Settle(0, 1), Ok(())),
    (TestStep::Begin(1, -1, 1), Ok(())),
    (TestStep::Settle(0, 2), Err(Illegal::NotEnabled)),
    (TestStep::End(0, -1, 1, End::Succeeds), Ok(())),
    (TestStep::Settle(0, 2), Ok(())),
    (TestStep::Begin(2, -1, 1), Ok(())),
];

#[test]
fn an_early_rule_does_not_wait_for_all(rt: HostRuntime) -> Result<(), Fail> {
    walk(&rt, rt.alloc(), EARLY, &EARLY_STEPS)
}

static ALWAYS_STEPS: [Answered; 8] = [
    (TestStep::Open, Ok(())),
    (TestStep::Settle(0, 0), Ok(())),
    (TestStep::Begin(0, -1, 1), Ok(())),
    (TestStep::Settle(0, 1), Err(Illegal::NotEnabled)),
    (TestStep::End(0, -1, 1, End::Succeeds), Ok(())),
    (TestStep::Settle(0, 1), Ok(())),
    (TestStep::Begin(1, -1, 1), Err(Illegal::Stranger)),
    (TestStep::Close(0), Ok(())),
];

// What the branch doesn't follow is skipped, so it has no instance.
#[test]
fn every_rule_waits_for_a_branch(rt: HostRuntime) -> Result<(), Fail> {
    walk(&rt, rt.alloc(), ALWAYS, &ALWAYS_STEPS)
}
