//! Two backfills of which each call is made again where memory was wanting: whichever request for memory is refused, they come
//! to the same events, and a refused call leaves all as it was. It prints the events; tests/toolchain/calls_made_again.sh refuses each request in
//! turn.
#![tactic(auto)]

mod again;
mod backfill;
mod graphs;
mod replay;
mod sameness;
mod shown;

use crate::again::{RefusalFault, plan_again};
use crate::backfill::backfill;
use crate::graphs::GraphCase;
use crate::shown::show;
use bf_plan::Plan;
use std::alloc::Global;
use std::process::ExitCode;

/// Prints the events of a plan's backfill over so many days; false where a line couldn't be printed.
fn tell_over(
    rt: &HostRuntime,
    alloc: Global,
    graph: GraphCase,
    plan: &Plan,
    days: u32,
) -> Result<bool, RefusalFault> {
    let ended = backfill(alloc, graph, plan, days)?;
    Ok(show(rt, ended.journal()))
}

/// Prints the events of a graph's backfill over so many days; false where a line couldn't be printed.
fn tell_of(
    rt: &HostRuntime,
    alloc: Global,
    graph: GraphCase,
    days: u32,
) -> Result<bool, RefusalFault> {
    let plan = plan_again(alloc, graph)?;
    tell_over(rt, alloc, graph, &plan, days)
}

/// Prints the events of both graphs' backfills; false where a line couldn't be printed.
fn tell(rt: &HostRuntime) -> Result<bool, RefusalFault> {
    Ok(
        tell_of(rt, rt.alloc(), GraphCase::Delayed, 2)?
            && tell_of(rt, rt.alloc(), GraphCase::Expanded, 1)?,
    )
}

fn main(rt: HostRuntime) -> ExitCode {
    let told = match tell(&rt) {
        Ok(told) => told,
        Err(fault) => {
            let _ = eprintln!(rt; "{fault}");
            false
        }
    };
    ExitCode::from(if told { 0 } else { 1 })
}
