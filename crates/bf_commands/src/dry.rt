//! The command `dry`: a run for each data interval of a range, answered from a table.
ghost use Rattle.std.specs.Prelude.{ℕ, Bool, List, Option, IfOk, IfErr, option_map};
ghost use Rattle.bf_interval.specs.Runs.{IsSaid};
ghost use Rattle.bf_device.specs.Device.{HasHalted};
ghost use Rattle.bf_command_fault.specs.Refusal.{Leaves, Sends};
ghost use Rattle.bf_commands.specs.DatedRuns.{DryFault, IsDryReport};
ghost use Rattle.bf_commands.specs.OverTable.{is_single_threaded_in};
ghost use Rattle.bf_commands.specs.inner.OverTable.{IsTimedPlanOf};

use crate::backfill::write_backfill;
use crate::crew::Crew;
use bf_command_fault::CommandFault;
use bf_device::Write;
use bf_kept::NothingKept;
use bf_planning::{RunRange, TimedPlan, table_in, timed_plan_in};
use bf_process::Starter;
use bf_progress::Screen;
use std::sync::Wait;
use std::thread::Threads;
use std::time::Clock;

/// Runs a plan once for each data interval that starts in the range, with a table's answers, and writes the report;
/// true where every run succeeded. `Err` where the table or then the range is refused, a thread can't be started, `out`
/// fails, or memory runs out.
fn write_dry<RT: Starter + Screen + Threads + Wait + Clock + Sync, W: Write>(
    crew: &Crew<'_, RT>,
    timed: &TimedPlan,
    table: &[u8],
    range: RunRange,
    out: &mut W,
) -> Result<bool, CommandFault>
    requires said { IsSaid timed.now.plan.schedule }
    ensures ok { (graph : List ℕ) (file : Option (List ℕ)) → IsTimedPlanOf graph file timed.now
        → IfOk result (λ success. Sends
        (λ text. IsDryReport graph file table.now range text success)
        (W.written out.old) (W.written out.new)) }
    ensures fault { (graph : List ℕ) (file : Option (List ℕ)) → IsTimedPlanOf graph file timed.now
        → IfErr result (DryFault (is_single_threaded_in crew.now.progress) graph file table.now
        range) }
    ensures left { (graph : List ℕ) (file : Option (List ℕ)) → IsTimedPlanOf graph file timed.now
        → IfErr result (Leaves (HasHalted (W.failures out.old) (W.failures out.new)
        (W.interruptions out.old) (W.interruptions out.new))
        (λ text. (success : Bool) × IsDryReport graph file table.now range text success)
        (W.written out.old) (W.written out.new)) }
{
    let table = table_in(crew.alloc, table)?;
    let runs = timed.runs(crew.alloc, range)?;
    write_backfill(crew, &timed.plan, &runs, &NothingKept, Some(table), out)
}

/// Runs a graph once for each data interval that starts in the range, its ends included, with a table's answers, and
/// writes the report, the same for any number of workers; true where every run succeeded. `Err` where the graph, the
/// table or then the range is refused, a thread can't be started, `out` fails, or memory runs out.
pub fn run_dry<RT: Starter + Screen + Threads + Wait + Clock + Sync, W: Write>(
    crew: &Crew<'_, RT>,
    graph: &[u8],
    zone_file: Option<&[u8]>,
    table: &[u8],
    range: RunRange,
    out: &mut W,
) -> Result<bool, CommandFault>
    ensures ok { IfOk result (λ success. Sends (λ text.
        IsDryReport graph.now (option_map (λ s. s.now) zone_file.entry) table.now range text
        success)
        (W.written out.old) (W.written out.new)) }
    ensures fault { IfErr result (DryFault (is_single_threaded_in crew.now.progress) graph.now
        (option_map (λ s. s.now) zone_file.entry) table.now range) }
    ensures left { IfErr result (Leaves (HasHalted (W.failures out.old) (W.failures out.new)
        (W.interruptions out.old) (W.interruptions out.new))
        (λ text. (success : Bool)
        × IsDryReport graph.now (option_map (λ s. s.now) zone_file.entry) table.now range text
        success)
        (W.written out.old) (W.written out.new)) }
{
    let timed = timed_plan_in(crew.alloc, graph, zone_file)?;
    let written = write_dry(crew, &timed, table, range, out);
    drop(timed);
    written
}
