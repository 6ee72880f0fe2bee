//! Room in pools.
use crate::steps::{Answered, End, TestStep, core_of, take, walk};
use bf_core::{Core, Illegal};
use bf_plan::Plan;
use bf_tests_graphs::plan_of;
use std::alloc::Global;
use std::process::Abort;
use std::test::Fail;

/// A task that takes both slots of its pool, and two that take one each.
const NARROW: &str = r#"{"dag_id":"d","schedule":"@daily","pools":{"p":2},"tasks":[
    {"id":"a","pool":"p","pool_slots":2},{"id":"b","pool":"p"},{"id":"c","pool":"p"}]}"#;

static STEPS: [Answered; 11] = [
    (TestStep::Open, Ok(())),
    (TestStep::Settle(0, 0), Ok(())),
    (TestStep::Settle(0, 1), Ok(())),
    (TestStep::Settle(0, 2), Ok(())),
    (TestStep::Begin(1, -1, 1), Ok(())),
    (TestStep::Begin(2, -1, 1), Ok(())),
    (TestStep::Begin(0, -1, 1), Err(Illegal::NoRoom)),
    (TestStep::End(1, -1, 1, End::Succeeds), Ok(())),
    (TestStep::Begin(0, -1, 1), Err(Illegal::NoRoom)),
    (TestStep::End(2, -1, 1, End::Succeeds), Ok(())),
    (TestStep::Begin(0, -1, 1), Ok(())),
];

#[test]
fn a_try_waits_for_room_in_its_pool(rt: HostRuntime) -> Result<(), Fail> {
    walk(&rt, rt.alloc(), NARROW, &STEPS)
}

/// The number of the pool `p`: the pools that the file names come first.
const P: u32 = 0;

static BEGINS: [Answered; 3] = [
    (TestStep::Open, Ok(())),
    (TestStep::Settle(0, 0), Ok(())),
    (TestStep::Begin(0, -1, 1), Ok(())),
];

static ENDS: [Answered; 1] = [(TestStep::End(0, -1, 1, End::Succeeds), Ok(()))];

/// Takes these steps, and checks how many slots of the pool are then occupied.
fn are_occupied_after(
    rt: &impl Abort,
    alloc: Global,
    core: &mut Core<'_>,
    steps: &[Answered],
    slots: u32,
) -> Result<(), Fail> {
    take(rt, alloc, core, steps)?;
    assert_eq!(rt; core.plan().limits().pools.len(), 2);
    assert_eq!(rt; core.occupied(P), slots);
    Ok(())
}

/// Checks how many slots are occupied while the first try runs, and after it has ended.
fn are_occupied_in_turn(rt: &impl Abort, alloc: Global, core: &mut Core<'_>) -> Result<(), Fail> {
    are_occupied_after(rt, alloc, core, &BEGINS, 2)?;
    are_occupied_after(rt, alloc, core, &ENDS, 0)?;
    assert_eq!(rt; core.journal().len(), BEGINS.len() + ENDS.len());
    Ok(())
}

/// Checks, from the start of the plan's backfill of one run, how many slots are occupied while the first try runs, and
/// after it has ended.
fn are_occupied_over(rt: &impl Abort, alloc: Global, plan: &Plan) -> Result<(), Fail> {
    let mut core = core_of(alloc, plan)?;
    are_occupied_in_turn(rt, alloc, &mut core)
}

#[test]
fn slots_are_occupied_while_a_try_runs(rt: HostRuntime) -> Result<(), Fail> {
    let plan = plan_of(rt.alloc(), NARROW)?;
    are_occupied_over(&rt, rt.alloc(), &plan)
}
