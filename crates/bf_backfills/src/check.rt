//! The command `check`: whether a graph file has a fault.
ghost use Rattle.std.specs.Prelude.{IfOk, IfErr, ◌≡◌, string_bytes};
ghost use Rattle.bf_device.specs.Device.{HasHalted};
ghost use Rattle.bf_command_fault.specs.Refusal.{Leaves, Sends};
ghost use Rattle.bf_command_fault.specs.declared.status.Status.{Status};
ghost use Rattle.bf_backfills.specs.Commands.{IsCheckAnswer, size_text};
ghost use Rattle.bf_backfills.specs.CommandFaults.{IsCheckFault};

use bf_command_fault::{CommandFault, Status};
use bf_command_line::GraphAsked;
use bf_device::{Write, send};
use bf_disk::Source;
use bf_input::read_graph_files;
use bf_planning::{GraphSize, check_graph};
use bf_value::OutOfMemory;
use std::alloc::Global;

/// The line that `check` prints, with its line feed, such as `ok 3 tasks, 2 edges`; the nouns stay plural for 1.
fn size_line(alloc: Global, size: GraphSize) -> Result<String, OutOfMemory>
    ensures { IfOk result (λ line. string_bytes line ≡ size_text size) }
{
    Ok(format!(in alloc; "ok {} tasks, {} edges\n", size.tasks, size.edges)?)
}

/// Does the command `check`: reads the graph file and the zone file, and writes how many tasks and edges the graph has.
/// `Err` where a file can't be read, the graph is refused, `out` fails, or memory runs out. At `Err`, `out` got nothing
/// but the bytes that `CannotWrite` counts.
pub fn answer_check<S: Source, W: Write>(
    alloc: Global,
    asked: GraphAsked,
    files: &mut S,
    out: &mut W,
) -> Result<Status, CommandFault>
    ensures answer { IfOk result (λ status. Sends
        (λ text. IsCheckAnswer (S.file files.old) asked text status)
        (W.written out.old) (W.written out.new)) }
    ensures fault { IfErr result (IsCheckFault (S.file files.old) asked) }
    ensures left { IfErr result (Leaves (HasHalted (W.failures out.old) (W.failures out.new)
        (W.interruptions out.old) (W.interruptions out.new))
        (λ text. (status : Status) × IsCheckAnswer (S.file files.old) asked text status)
        (W.written out.old) (W.written out.new)) }
{
    let files = read_graph_files(alloc, asked, files)?;
    let size = check_graph(alloc, &files.graph, files.zone_file())?;
    let line = size_line(alloc, size)?;
    send(out, line.as_bytes())?;
    Ok(Status::Success)
}
