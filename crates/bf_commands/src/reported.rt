//! The report of a backfill that has ended.
ghost use Rattle.std.specs.Prelude.{◌≡◌, Bool, IfOk, IfErr, length};
ghost use Rattle.std.specs.List.{list_all};
ghost use Rattle.bf_core.specs.Events.{entry_in};
ghost use Rattle.bf_device.specs.Device.{HasHalted};
ghost use Rattle.bf_command_fault.specs.Refusal.{Leaves, Sends};
ghost use Rattle.bf_planning.specs.Wanting.{IsWanting};
ghost use Rattle.bf_commands.specs.Reported.{IsReportOf, is_success_in};

use bf_command_fault::CommandFault;
use bf_core::Ended;
use bf_device::Write;
use bf_interval::Runs;
use bf_report::{RunReport, report_of, write_report};
use bf_xcom::RunState;
use std::alloc::Global;
use std::mem::forget;

/// Whether a run succeeded.
fn has_succeeded(run: &RunReport) -> bool
    ensures { result ≡ is_success_in run.now.state }
{
    matches!(run.state, RunState::Success)
}

/// Whether each of these runs succeeded; true for none.
fn all_succeeded(runs: &[RunReport]) -> bool
    ensures { result ≡ list_all (λ run. is_success_in run.state) runs.now }
{
    runs.iter().all(|run| has_succeeded(run))
}

/// Writes the report of a backfill that has ended; true where every run succeeded. `Err` where `out` fails, or at want
/// of memory.
pub(crate) fn write_ended<W: Write>(
    alloc: Global,
    runs: &Runs,
    ended: Ended<'_>,
    out: &mut W,
) -> Result<bool, CommandFault>
    requires { length runs.now ≡ ended.runs }
    ensures ok { IfOk result (λ success. Sends
        (λ text. IsReportOf ended.entry.dag runs.now (entry_in ended.entry.state.ledger) text
        success)
        (W.written out.old) (W.written out.new)) }
    ensures wanting { IfErr result IsWanting }
    ensures left { IfErr result (Leaves (HasHalted (W.failures out.old) (W.failures out.new)
        (W.interruptions out.old) (W.interruptions out.new))
        (λ text. (success : Bool) × IsReportOf ended.entry.dag runs.now
        (entry_in ended.entry.state.ledger) text success)
        (W.written out.old) (W.written out.new)) }
{
    let _named = ended.plan().dag();
    let _ended = ended.state();
    let _of_runs = runs.intervals();
    let report = report_of(alloc, runs, ended)?;
    write_report(alloc, &report, out)?;
    let success = all_succeeded(report.runs.as_slice());
    // The command ends here, and the process gives all back at once.
    forget(report);
    Ok(success)
}
