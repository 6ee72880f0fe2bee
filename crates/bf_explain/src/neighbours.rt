//! The tasks directly upstream and downstream of a task.
ghost use Rattle.std.specs.Prelude.{◌≡◌, ◌<◌, ◌++◌, IfOk, OnOk, length};
ghost use Rattle.bf_explain.specs.Tasks.{beside_sections, downstreams_of, is_downstream_in};

use crate::beside::task_lines;
use crate::run_why::is_upstream_of;
use crate::sections::add_section;
use bf_plan::Plan;
use bf_reason::Settled;
use bf_value::{OutOfMemory, Text};
use std::alloc::Global;

/// Whether task number `other` is directly downstream of task number `task`.
fn is_downstream(plan: &Plan, task: u32, other: u32) -> bool
    requires { other < length plan.now.dag.tasks }
    ensures { result ≡ is_downstream_in plan.now.dag task other }
{
    is_upstream_of(task, plan.dag().task(other))
}

/// The numbers of the tasks directly downstream of task number `task`, in file order.
fn downstreams(alloc: Global, plan: &Plan, task: u32) -> Result<Vec<u32>, OutOfMemory>
    ensures { IfOk result (λ found. found.items ≡ downstreams_of plan.now.dag task) }
{
    let mut found = Vec::new(alloc);
    for other in 0..plan.dag().tasks.len() as u32 {
        if is_downstream(plan, task, other) {
            found.push(other)?;
        }
    }
    Ok(found)
}

/// Adds the sections `upstream` and `downstream`, with the tasks directly upstream and downstream of a task and their
/// states. A section without tasks is left out. `settled` are the tasks of the run.
pub(crate) fn add_neighbours(
    alloc: Global,
    lines: &mut Vec<Text>,
    plan: &Plan,
    settled: &[Settled<'_>],
    task: u32,
) -> Result<(), OutOfMemory>
    requires { task < length plan.now.dag.tasks }
    ensures { OnOk result (lines.new.items ≡ lines.old.items
        ++ beside_sections plan.now.dag settled.now task) }
{
    let upstreams = plan.dag().task(task).upstreams.as_slice();
    let above = task_lines(alloc, plan, settled, upstreams)?;
    let downstreams = downstreams(alloc, plan, task)?;
    let below = task_lines(alloc, plan, settled, downstreams.as_slice())?;
    add_section(alloc, lines, "upstream", above.as_slice())?;
    add_section(alloc, lines, "downstream", below.as_slice())
}
