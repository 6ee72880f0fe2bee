//! The plan of a line's graph file.
ghost use Rattle.std.specs.Prelude.{◌≡◌, ℕ, List, IfOk, IfErr, OnOk};
ghost use Rattle.bf_disk.specs.Files.{AreReadable};
ghost use Rattle.bf_input.specs.Inputs.{graph_paths};
ghost use Rattle.bf_views.specs.Planned.{IsPlanningFault};
ghost use Rattle.bf_views.specs.inner.Planned.{HasZoneOf, IsPlanned};

use bf_command_fault::CommandFault;
use bf_command_line::GraphAsked;
use bf_disk::Source;
use bf_input::read_graph_files;
use bf_planning::{TimedPlan, timed_plan_in};
use std::alloc::Global;

/// The bytes of a graph file, and the plan made of them, with its zone.
#[derive(Drop)]
pub(crate) struct Planned {
    pub(crate) graph: Vec<u8>,
    pub(crate) timed: TimedPlan,
}

/// Reads the graph file, and the zone file where one is named, and makes the plan. `Err` where a file can't be read,
/// the graph is refused, or memory runs out.
pub(crate) fn read_plan<S: Source>(
    alloc: Global,
    asked: GraphAsked,
    files: &mut S,
) -> Result<Planned, CommandFault>
    ensures plan { IfOk result (IsPlanned (S.file files.old) asked) }
    ensures zone { IfOk result (HasZoneOf (S.file files.old) asked) }
    ensures readable { OnOk result (AreReadable (S.file files.old) (graph_paths asked)) }
    ensures fault { IfErr result (IsPlanningFault (S.file files.old) asked) }
    ensures stays { (p : List ℕ) → S.file files.new p ≡ S.file files.old p }
{
    let files = read_graph_files(alloc, asked, files)?;
    let timed = timed_plan_in(alloc, &files.graph, files.zone_file())?;
    Ok(Planned {
        graph: files.graph,
        timed,
    })
}
