//! Events that speak of what isn't there.
use crate::steps::{Answered, End, TestStep, walk};
use bf_core::Illegal;
use std::test::Fail;

const ONE: &str = r#"{"dag_id":"d","schedule":"@daily","tasks":[{"id":"a"}]}"#;

static STEPS: [Answered; 10] = [
    (TestStep::Open, Ok(())),
    (TestStep::Settle(0, 0), Ok(())),
    (TestStep::Settle(0, 1), Err(Illegal::Stranger)),
    (TestStep::Settle(1, 0), Err(Illegal::Stranger)),
    (TestStep::Expand(0, 1), Err(Illegal::Stranger)),
    (TestStep::Close(1), Err(Illegal::Stranger)),
    // The task has made no try, it isn't expanded, and there is no other.
    (TestStep::Begin(0, -1, 2), Err(Illegal::Stranger)),
    (TestStep::Begin(0, 0, 1), Err(Illegal::Stranger)),
    (TestStep::Begin(1, -1, 1), Err(Illegal::Stranger)),
    (TestStep::End(0, -1, 2, End::Fails), Err(Illegal::Stranger)),
];

#[test]
fn strangers_are_refused(rt: HostRuntime) -> Result<(), Fail> {
    walk(&rt, rt.alloc(), ONE, &STEPS)
}
