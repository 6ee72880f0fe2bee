//! The command `clear --plan`: what is cleared in a report.
ghost use Rattle.std.specs.Prelude.{IfOk, IfErr, OnOk};
ghost use Rattle.bf_device.specs.Device.{HasHalted};
ghost use Rattle.bf_command_fault.specs.Refusal.{Leaves, Sends};
ghost use Rattle.bf_command_fault.specs.declared.status.Status.{Status};
ghost use Rattle.bf_commands.specs.Planned.{ClearPlanFault, IsClearPlan};
ghost use Rattle.bf_backfills.specs.Commands.{IsClearPlanAnswer};
ghost use Rattle.bf_backfills.specs.CommandFaults.{IsClearPlanFault};

use crate::clear::{ReadyToClear, read_with_report};
use crate::named::meaning_of;
use bf_command_fault::{CommandFault, Status};
use bf_command_line::ClearPlanAsked;
use bf_commands::write_clear_plan;
use bf_device::Write;
use bf_disk::Source;
use std::alloc::Global;

/// Writes what would be cleared in a report. `Err` where the report isn't of this graph and these runs, what to clear
/// isn't in it, `out` fails, or memory runs out.
fn write_plan<W: Write>(alloc: Global, ready: ReadyToClear, out: &mut W) -> Result<(), CommandFault>
    ensures ok { OnOk result (Sends
        (IsClearPlan ready.prepared.dated.plan.dag ready.prepared.dated.runs ready.report
        ready.what) (W.written out.old) (W.written out.new)) }
    ensures fault { IfErr result (ClearPlanFault ready.prepared.dated.plan.dag
        ready.prepared.dated.runs ready.report ready.what) }
    ensures left { IfErr result (Leaves (HasHalted (W.failures out.old) (W.failures out.new)
        (W.interruptions out.old) (W.interruptions out.new))
        (IsClearPlan ready.prepared.dated.plan.dag ready.prepared.dated.runs ready.report
        ready.what) (W.written out.old) (W.written out.new)) }
{
    let ReadyToClear {
        prepared,
        what,
        report,
    } = ready;
    write_clear_plan(alloc, &prepared.dated, report, &what, out)
}

/// Does `clear --plan`: writes what `clear` would make again, and starts no program. `Err` where a moment is bad, a
/// file other than the report can't be read, or the graph, the range, the report's lines, what to clear, or a report of
/// another graph or range is refused, checked in this order; also where `out` fails or memory runs out. At `Err`, `out`
/// got nothing but the bytes that `CannotWrite` counts.
pub fn answer_clear_plan<S: Source, W: Write>(
    alloc: Global,
    asked: ClearPlanAsked,
    files: &mut S,
    out: &mut W,
) -> Result<Status, CommandFault>
    ensures answer { IfOk result (λ status. Sends
        (λ text. IsClearPlanAnswer (S.file files.old) asked text status)
        (W.written out.old) (W.written out.new)) }
    ensures fault { IfErr result (IsClearPlanFault (S.file files.old) asked) }
    ensures left { IfErr result (Leaves (HasHalted (W.failures out.old) (W.failures out.new)
        (W.interruptions out.old) (W.interruptions out.new))
        (λ text. (status : Status) × IsClearPlanAnswer (S.file files.old) asked text status)
        (W.written out.old) (W.written out.new)) }
{
    let meant = meaning_of(alloc, &asked.range, &asked.cleared)?;
    let ready = read_with_report(alloc, asked.graph, None, meant, asked.report, files)?;
    write_plan(alloc, ready, out)?;
    Ok(Status::Success)
}
