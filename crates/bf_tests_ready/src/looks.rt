//! What is kept beside what a look finds.
use bf_core::Event;
use bf_pool::total_weights_of;
use bf_rescan::{next_moment, next_step, next_try};
use bf_sched::Ready;
use bf_value::OutOfMemory;
use std::alloc::Global;
use std::process::Abort;
use std::test::Fail;

/// Spells a step; empty for None.
fn told(alloc: Global, step: Option<Event>) -> Result<String, OutOfMemory> {
    match step {
        Some(step) => Ok(format!(in alloc; "{step:?}")?),
        None => Ok(String::new(alloc)),
    }
}

/// Checks that the next step, try and moment are those that a look at the whole backfill finds.
pub(crate) fn compare(rt: &impl Abort, alloc: Global, ready: &Ready<'_>) -> Result<(), Fail> {
    let core = ready.core();
    let plan = core.plan();
    let order = plan.graph().by_rank(alloc)?;
    let weights = total_weights_of(alloc, plan)?;
    assert_eq!(rt;
        told(alloc, ready.next_step())?.as_str(),
        told(alloc, next_step(core, order.as_slice()))?.as_str()
    );
    assert_eq!(rt; ready.next_try(), next_try(core, weights.as_slice()));
    assert_eq!(rt; ready.next_moment(), next_moment(core));
    Ok(())
}
