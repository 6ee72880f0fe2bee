//! Plans of graph files.
ghost use Rattle.std.specs.Prelude.{◌≡◌};

use bf_check::{CheckFault, check};
use bf_plan::Plan;
use bf_read::{ReadFault, read_graph};
use bf_value::JobName;
use std::alloc::Global;

/// Why a graph file has no plan.
#[derive(Debug, Drop)]
pub enum PlanFault {
    Read(ReadFault),
    Check(CheckFault),
}

/// Makes the plan of a graph file, without a zone file.
pub fn plan_of(alloc: Global, graph: &str) -> Result<Plan, PlanFault> {
    match read_graph(alloc, graph.as_bytes()) {
        Ok(draft) => match check(alloc, draft, None) {
            Ok((plan, _zone)) => Ok(plan),
            Err(fault) => Err(PlanFault::Check(fault)),
        },
        Err(fault) => Err(PlanFault::Read(fault)),
    }
}

/// Names a try in the first run; `index` is -1 where the task isn't expanded.
pub fn job(task: u32, index: i32, attempt: u32) -> JobName
    ensures { result ≡ record { run = 0; task = task; index = index; attempt = attempt } }
{
    JobName {
        run: 0,
        task,
        index,
        attempt,
    }
}
