//! The command `dry`: a run for each data interval of a range, answered from a table.
ghost use Rattle.std.specs.Prelude.{IfOk, IfErr};
ghost use Rattle.bf_device.specs.Device.{HasHalted};
ghost use Rattle.bf_command_fault.specs.Refusal.{Leaves, Sends};
ghost use Rattle.bf_command_fault.specs.declared.status.Status.{Status};
ghost use Rattle.bf_backfills.specs.Commands.{IsDryAnswer};
ghost use Rattle.bf_backfills.specs.CommandFaults.{IsDryFault};

use crate::range::range_of;
use bf_command_fault::{CommandFault, Status};
use bf_command_line::DryAsked;
use bf_commands::{Crew, Screen, run_dry};
use bf_device::Write;
use bf_disk::Source;
use bf_input::read_files_with_table;
use bf_process::Starter;
use std::alloc::Global;
use std::sync::Wait;
use std::thread::Threads;
use std::time::Clock;

/// Does `dry`: runs a graph over a range with a table's answers, and writes the report. `Err` where a moment is bad, a
/// file can't be read, or the graph, the table or the range is refused, checked in this order; also where a thread
/// can't be started, `out` fails, or memory runs out. At `Err`, `out` got nothing but the bytes that `CannotWrite`
/// counts.
pub fn answer_dry<RT: Starter + Screen + Threads + Wait + Clock + Sync, S: Source, W: Write>(
    rt: &RT,
    alloc: Global,
    asked: DryAsked,
    files: &mut S,
    out: &mut W,
) -> Result<Status, CommandFault>
    ensures answer { IfOk result (λ status. Sends
        (λ text. IsDryAnswer (S.file files.old) asked text status)
        (W.written out.old) (W.written out.new)) }
    ensures fault { IfErr result (IsDryFault (S.file files.old) asked) }
    ensures left { IfErr result (Leaves (HasHalted (W.failures out.old) (W.failures out.new)
        (W.interruptions out.old) (W.interruptions out.new))
        (λ text. (status : Status) × IsDryAnswer (S.file files.old) asked text status)
        (W.written out.old) (W.written out.new)) }
{
    let range = range_of(&asked.range)?;
    let files = read_files_with_table(alloc, asked.graph, asked.table, files)?;
    let graph = &files.graph;
    let crew = Crew::new(rt, alloc, asked.workers, asked.progress);
    run_dry(
        &crew,
        &graph.graph,
        graph.zone_file(),
        &files.table,
        range,
        out,
    )
    .map(Status::of_runs)
}
