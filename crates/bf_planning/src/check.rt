//! The command `check`: whether a graph file has a fault.
ghost use Rattle.std.specs.Prelude.{IfOk, IfErr, option_map};
ghost use Rattle.bf_planning.specs.Graphs.{IsFaultIn, IsSizeOf};

use crate::plan::draft_in;
use bf_check::check;
use bf_command_fault::CommandFault;
use std::alloc::Global;

/// How many tasks a graph has, and how many edges, each counted once.
#[derive(Clone, Copy, Debug, PartialEq, Eq)]
pub struct GraphSize {
    pub tasks: usize,
    pub edges: usize,
}

/// Checks the bytes of a graph file, and gives its size. Looks at those of the zone file only where the graph's zone is
/// `file`. `Err` where the graph is refused, or at want of memory.
pub fn check_graph(
    alloc: Global,
    graph: &[u8],
    zone_file: Option<&[u8]>,
) -> Result<GraphSize, CommandFault>
    ensures size { IfOk result (IsSizeOf graph.now (option_map (λ s. s.now) zone_file.entry)) }
    ensures fault { IfErr result (IsFaultIn graph.now (option_map (λ s. s.now) zone_file.entry)) }
{
    let draft = draft_in(alloc, graph)?;
    let size = GraphSize {
        tasks: draft.tasks.len(),
        edges: draft.edge_count(),
    };
    let (plan, _zone) = check(alloc, draft, zone_file)?;
    let _sound = plan.dag();
    Ok(size)
}
