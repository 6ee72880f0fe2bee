//! What a try is given of what other tasks pushed.
use crate::steps::{Answered, End, TestStep, core_after, list_of};
use bf_core::Core;
use bf_plan::Plan;
use bf_tests_graphs::{job, plan_of};
use bf_value::{JobName, Xval, is_same_option};
use bf_xcom::SharedValue;
use std::alloc::Global;
use std::process::Abort;
use std::test::Fail;

/// The last task pulls from the first and from the second.
const TWO: &str = r#"{"dag_id":"d","schedule":"@daily","tasks":[{"id":"x"},{"id":"y"},
    {"id":"sum","upstream":["x","y"],"rule":"all_done","command":["echo",{"pull":"x"},{"pull":"y"},{"pull":"x"}]}]}"#;

/// A task that pulls from an expanded one.
const EXPANDED: &str = r#"{"dag_id":"d","schedule":"@daily","tasks":[{"id":"src"},
    {"id":"m","upstream":["src"],"expand":"src"},
    {"id":"sum","upstream":["m"],"command":["echo",{"pull":"m"}]}]}"#;

/// Answers whether what the ledger noted is what was pulled, in order.
fn are_same(noted: &[SharedValue], pulled: &[Option<Xval>]) -> bool {
    noted.len() == pulled.len()
        && noted
            .iter()
            .zip(pulled)
            .all(|(one, other)| is_same_option(one.get(), other.as_ref()))
}

/// Checks what the ledger says that this try, which has ended, was given of its task's pulls.
fn is_noted(rt: &impl Abort, core: &Core<'_>, name: JobName, pulled: &[Option<Xval>]) {
    let tried = core.ledger().entries().iter().find(|tried| tried.0 == name);
    match tried {
        Some((_, entry)) => assert!(rt; are_same(entry.given.pulled(), pulled)),
        None => assert!(rt; false, "the try has not ended"),
    }
}

/// Takes these steps from the start of the plan's backfill of one run, and checks what this try was given of its task's
/// pulls.
fn is_given_over(
    rt: &impl Abort,
    alloc: Global,
    plan: &Plan,
    steps: &[Answered],
    name: JobName,
    pulled: &[Option<Xval>],
) -> Result<(), Fail> {
    let core = core_after(rt, alloc, plan, steps)?;
    is_noted(rt, &core, name, pulled);
    Ok(())
}

/// Takes these steps, the last of which ends the try of this name, from the start of the graph's backfill of one run,
/// and checks what that try was given of its task's pulls.
fn is_given(
    rt: &impl Abort,
    alloc: Global,
    graph: &str,
    steps: &[Answered],
    name: JobName,
    pulled: &[Option<Xval>],
) -> Result<(), Fail> {
    let plan = plan_of(alloc, graph)?;
    is_given_over(rt, alloc, &plan, steps, name, pulled)
}

/// Makes the steps of a backfill of `TWO` in which `x` and `y` end so.
fn ending(x: End, y: End) -> [Answered; 10] {
    [
        (TestStep::Open, Ok(())),
        (TestStep::Settle(0, 0), Ok(())),
        (TestStep::Begin(0, -1, 1), Ok(())),
        (TestStep::End(0, -1, 1, x), Ok(())),
        (TestStep::Settle(0, 1), Ok(())),
        (TestStep::Begin(1, -1, 1), Ok(())),
        (TestStep::End(1, -1, 1, y), Ok(())),
        (TestStep::Settle(0, 2), Ok(())),
        (TestStep::Begin(2, -1, 1), Ok(())),
        (TestStep::End(2, -1, 1, End::Succeeds), Ok(())),
    ]
}

#[test]
fn a_try_is_given_what_its_task_pulls(rt: HostRuntime) -> Result<(), Fail> {
    let steps = ending(End::PushesList(&[3, 1]), End::Pushes(7));
    let pulled = [Some(list_of(rt.alloc(), &[3, 1])?), Some(Xval::Int(7))];
    is_given(&rt, rt.alloc(), TWO, &steps, job(2, -1, 1), &pulled)
}

#[test]
fn nothing_is_pulled_from_a_failure_and_from_a_skip(rt: HostRuntime) -> Result<(), Fail> {
    let steps = ending(End::Fails, End::Skips);
    is_given(&rt, rt.alloc(), TWO, &steps, job(2, -1, 1), &[None, None])
}

static EXPANDED_STEPS: [Answered; 15] = [
    (TestStep::Open, Ok(())),
    (TestStep::Settle(0, 0), Ok(())),
    (TestStep::Begin(0, -1, 1), Ok(())),
    (TestStep::End(0, -1, 1, End::PushesList(&[3, 1, 2])), Ok(())),
    (TestStep::Expand(0, 1), Ok(())),
    (TestStep::Begin(1, 0, 1), Ok(())),
    (TestStep::Begin(1, 1, 1), Ok(())),
    (TestStep::Begin(1, 2, 1), Ok(())),
    (TestStep::End(1, 2, 1, End::Pushes(2)), Ok(())),
    (TestStep::End(1, 0, 1, End::Pushes(3)), Ok(())),
    (TestStep::End(1, 1, 1, End::Succeeds), Ok(())),
    (TestStep::Settle(0, 2), Ok(())),
    (TestStep::Begin(2, -1, 1), Ok(())),
    (TestStep::End(2, -1, 1, End::Succeeds), Ok(())),
    (TestStep::Close(0), Ok(())),
];

// The instances end in the order 2, 0, 1, and the second pushes nothing.
#[test]
fn what_instances_pushed_is_pulled_by_map_index(rt: HostRuntime) -> Result<(), Fail> {
    let pulled = [Some(list_of(rt.alloc(), &[3, 2])?)];
    is_given(
        &rt,
        rt.alloc(),
        EXPANDED,
        &EXPANDED_STEPS,
        job(2, -1, 1),
        &pulled,
    )
}
