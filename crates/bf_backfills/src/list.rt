//! The command `list`: the data intervals of a graph's schedule that start in a range.
ghost use Rattle.std.specs.Prelude.{IfOk, IfErr};
ghost use Rattle.bf_device.specs.Device.{HasHalted};
ghost use Rattle.bf_command_fault.specs.Refusal.{Leaves, Sends};
ghost use Rattle.bf_command_fault.specs.declared.status.Status.{Status};
ghost use Rattle.bf_backfills.specs.Commands.{IsListAnswer};
ghost use Rattle.bf_backfills.specs.CommandFaults.{IsListFault};

use crate::range::range_of;
use bf_command_fault::{CommandFault, Status};
use bf_command_line::ListAsked;
use bf_device::Write;
use bf_disk::Source;
use bf_input::read_graph_files;
use bf_planning::write_list;
use std::alloc::Global;

/// Does `list`: writes the data intervals of the graph's schedule that start in the range. `Err` where a moment is bad,
/// a file can't be read, or the graph or the range is refused, checked in this order; also where `out` fails or memory
/// runs out. At `Err`, `out` got nothing but the bytes that `CannotWrite` counts.
pub fn answer_list<S: Source, W: Write>(
    alloc: Global,
    asked: ListAsked,
    files: &mut S,
    out: &mut W,
) -> Result<Status, CommandFault>
    ensures answer { IfOk result (λ status. Sends
        (λ text. IsListAnswer (S.file files.old) asked text status)
        (W.written out.old) (W.written out.new)) }
    ensures fault { IfErr result (IsListFault (S.file files.old) asked) }
    ensures left { IfErr result (Leaves (HasHalted (W.failures out.old) (W.failures out.new)
        (W.interruptions out.old) (W.interruptions out.new))
        (λ text. (status : Status) × IsListAnswer (S.file files.old) asked text status)
        (W.written out.old) (W.written out.new)) }
{
    let range = range_of(&asked.range)?;
    let files = read_graph_files(alloc, asked.graph, files)?;
    write_list(alloc, &files.graph, files.zone_file(), range, out)?;
    Ok(Status::Success)
}
