//! The command `answers`: a report as a table of answers.
ghost use Rattle.std.specs.Prelude.{IfOk, IfErr, string_bytes};
ghost use Rattle.bf_command_fault.specs.Refusal.{Leaves, Sends};
ghost use Rattle.bf_command_fault.specs.declared.status.Status.{Status};
ghost use Rattle.bf_device.specs.Device.{HasHalted};
ghost use Rattle.bf_views.specs.Json.{IsLoneFault};
ghost use Rattle.bf_views.specs.Tables.{IsTableAnswer};

use bf_answers::write_answers;
use bf_command_fault::{CommandFault, Status};
use bf_device::Write;
use bf_disk::Source;
use bf_input::read_report_file;
use std::alloc::Global;

/// Does `answers`: reads the report at `path`, and no graph file, and writes the table with which `dry` makes that
/// report again. `Err` where the report can't be read or is refused, `out` fails, or memory runs out. At `Err`, `out`
/// got nothing but the bytes that `CannotWrite` counts.
pub fn answer_answers<S: Source, W: Write>(
    alloc: Global,
    path: String,
    files: &mut S,
    out: &mut W,
) -> Result<Status, CommandFault>
    ensures answer { IfOk result (λ status. Sends
        (λ text. IsTableAnswer (S.file files.old) (string_bytes path) text status)
        (W.written out.old) (W.written out.new)) }
    ensures fault { IfErr result (IsLoneFault (S.file files.old) (string_bytes path)) }
    ensures left { IfErr result (Leaves (HasHalted (W.failures out.old) (W.failures out.new)
        (W.interruptions out.old) (W.interruptions out.new))
        (λ text. (status : Status)
        × IsTableAnswer (S.file files.old) (string_bytes path) text status)
        (W.written out.old) (W.written out.new)) }
{
    let report = read_report_file(alloc, path, files)?;
    write_answers(alloc, &report, out)?;
    Ok(Status::Success)
}
