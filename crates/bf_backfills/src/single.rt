//! The command `single`: one run, answered from a table.
ghost use Rattle.std.specs.Prelude.{IfOk, IfErr};
ghost use Rattle.bf_device.specs.Device.{HasHalted};
ghost use Rattle.bf_command_fault.specs.Refusal.{Leaves, Sends};
ghost use Rattle.bf_command_fault.specs.declared.status.Status.{Status};
ghost use Rattle.bf_backfills.specs.Commands.{IsSingleAnswer};
ghost use Rattle.bf_backfills.specs.CommandFaults.{IsSingleFault};

use bf_command_fault::{CommandFault, Status};
use bf_command_line::SingleAsked;
use bf_commands::{Screen, run_single};
use bf_device::Write;
use bf_disk::Source;
use bf_input::{moment_of, read_files_with_table};
use bf_process::Starter;
use std::alloc::Global;
use std::sync::Wait;
use std::thread::Threads;
use std::time::Clock;

/// Does `single`: runs a graph once with a table's answers, and writes the report. `Err` where the moment is bad, a
/// file can't be read, or the graph, the table, or a moment outside of the years 1970 to 2199 is refused, checked in
/// this order; also where `out` fails or memory runs out. At `Err`, `out` got nothing but the bytes that `CannotWrite`
/// counts.
pub fn answer_single<RT: Starter + Screen + Threads + Wait + Clock + Sync, S: Source, W: Write>(
    rt: &RT,
    alloc: Global,
    asked: SingleAsked,
    files: &mut S,
    out: &mut W,
) -> Result<Status, CommandFault>
    ensures answer { IfOk result (λ status. Sends
        (λ text. IsSingleAnswer (S.file files.old) asked text status)
        (W.written out.old) (W.written out.new)) }
    ensures fault { IfErr result (IsSingleFault (S.file files.old) asked) }
    ensures left { IfErr result (Leaves (HasHalted (W.failures out.old) (W.failures out.new)
        (W.interruptions out.old) (W.interruptions out.new))
        (λ text. (status : Status) × IsSingleAnswer (S.file files.old) asked text status)
        (W.written out.old) (W.written out.new)) }
{
    let at = moment_of(asked.at.as_str())?;
    let files = read_files_with_table(alloc, asked.graph, asked.table, files)?;
    let graph = &files.graph;
    run_single(
        rt,
        alloc,
        &graph.graph,
        graph.zone_file(),
        &files.table,
        at,
        out,
    )
    .map(Status::of_runs)
}
