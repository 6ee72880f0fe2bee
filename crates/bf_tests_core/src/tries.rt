//! The moment at which a failed try is made again.
use crate::steps::{Answered, End, TestStep, walk};
use bf_core::Illegal;
use std::test::Fail;

/// A task whose one retry waits a minute.
const RETRIED: &str = r#"{"dag_id":"d","schedule":"@daily",
    "tasks":[{"id":"a","retries":1,"retry_delay":60}]}"#;

static TO_ITS_MOMENT: [Answered; 13] = [
    (TestStep::Open, Ok(())),
    (TestStep::Settle(0, 0), Ok(())),
    (TestStep::Begin(0, -1, 1), Ok(())),
    (TestStep::Tick(1_000), Ok(())),
    (TestStep::End(0, -1, 1, End::Fails), Ok(())),
    (TestStep::Begin(0, -1, 2), Err(Illegal::NotEnabled)),
    (TestStep::Tick(1_059), Ok(())),
    (TestStep::Begin(0, -1, 2), Err(Illegal::NotEnabled)),
    (TestStep::Tick(1_060), Ok(())),
    (TestStep::Tick(1_060), Err(Illegal::NotEnabled)),
    (TestStep::Tick(-1), Err(Illegal::NotEnabled)),
    (TestStep::Begin(0, -1, 2), Ok(())),
    (TestStep::Tick(253_402_300_800), Err(Illegal::NotEnabled)),
];

#[test]
fn a_retry_begins_at_its_moment(rt: HostRuntime) -> Result<(), Fail> {
    walk(&rt, rt.alloc(), RETRIED, &TO_ITS_MOMENT)
}

static TO_THE_LAST_MOMENT: [Answered; 6] = [
    (TestStep::Open, Ok(())),
    (TestStep::Settle(0, 0), Ok(())),
    (TestStep::Begin(0, -1, 1), Ok(())),
    (TestStep::Tick(253_402_300_799), Ok(())),
    (TestStep::End(0, -1, 1, End::Fails), Ok(())),
    (TestStep::Begin(0, -1, 2), Ok(())),
];

#[test]
fn a_retry_may_begin_at_the_last_moment(rt: HostRuntime) -> Result<(), Fail> {
    walk(&rt, rt.alloc(), RETRIED, &TO_THE_LAST_MOMENT)
}
