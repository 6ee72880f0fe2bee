//! The command `single`: one run, answered from a table.
ghost use Rattle.std.specs.Prelude.{ℕ, Bool, List, Option, IfOk, IfErr, option_map};
ghost use Rattle.bf_interval.specs.Years.{IsInYears};
ghost use Rattle.bf_moment.specs.Moment.{IsWhole};
ghost use Rattle.bf_device.specs.Device.{HasHalted};
ghost use Rattle.bf_command_fault.specs.Refusal.{Leaves, Sends};
ghost use Rattle.bf_planning.specs.Graphs.{IsPlanOf};
ghost use Rattle.bf_commands.specs.OneRun.{SingleFault, IsSingleReport};

use crate::backfill::write_backfill;
use crate::crew::Crew;
use bf_command_fault::CommandFault;
use bf_device::Write;
use bf_interval::Runs;
use bf_kept::NothingKept;
use bf_plan::Plan;
use bf_planning::{table_in, timed_plan_in};
use bf_process::Starter;
use bf_progress::Screen;
use bf_workers::Workers;
use jiff::Timestamp;
use std::alloc::Global;
use std::sync::Wait;
use std::thread::Threads;
use std::time::Clock;

/// Runs a plan once, at the moment `at` of whole seconds, with a table's answers, and writes the report; true where the
/// run succeeded. `Err` where the table or then the moment is refused, `out` fails, or memory runs out.
fn write_single<RT: Starter + Screen + Threads + Wait + Clock + Sync, W: Write>(
    rt: &RT,
    alloc: Global,
    plan: &Plan,
    table: &[u8],
    at: Timestamp,
    out: &mut W,
) -> Result<bool, CommandFault>
    requires { IsInYears at.nanosecond → IsWhole at.nanosecond }
    ensures ok { (graph : List ℕ) (file : Option (List ℕ)) → IsPlanOf graph file plan.now
        → IfOk result (λ success. Sends
        (λ text. IsSingleReport graph file table.now at text success)
        (W.written out.old) (W.written out.new)) }
    ensures fault { (graph : List ℕ) (file : Option (List ℕ)) → IsPlanOf graph file plan.now
        → IfErr result (SingleFault graph file table.now at) }
    ensures left { (graph : List ℕ) (file : Option (List ℕ)) → IsPlanOf graph file plan.now
        → IfErr result (Leaves (HasHalted (W.failures out.old) (W.failures out.new)
        (W.interruptions out.old) (W.interruptions out.new))
        (λ text. (success : Bool) × IsSingleReport graph file table.now at text success)
        (W.written out.old) (W.written out.new)) }
{
    let table = table_in(alloc, table)?;
    let runs = Runs::single_at(alloc, at)?;
    let crew = Crew::new(rt, alloc, Workers::one(), false);
    write_backfill(&crew, plan, &runs, &NothingKept, Some(table), out)
}

/// Runs a graph once, at the moment `at` of whole seconds, with a table's answers, and writes the report; true where
/// the run succeeded. `Err` where the graph, the table or then the moment is refused, `out` fails, or memory runs out.
pub fn run_single<RT: Starter + Screen + Threads + Wait + Clock + Sync, W: Write>(
    rt: &RT,
    alloc: Global,
    graph: &[u8],
    zone_file: Option<&[u8]>,
    table: &[u8],
    at: Timestamp,
    out: &mut W,
) -> Result<bool, CommandFault>
    requires { IsInYears at.nanosecond → IsWhole at.nanosecond }
    ensures ok { IfOk result (λ success. Sends
        (λ text. IsSingleReport graph.now (option_map (λ s. s.now) zone_file.entry) table.now at
        text success)
        (W.written out.old) (W.written out.new)) }
    ensures fault { IfErr result (SingleFault graph.now
        (option_map (λ s. s.now) zone_file.entry) table.now at) }
    ensures left { IfErr result (Leaves (HasHalted (W.failures out.old) (W.failures out.new)
        (W.interruptions out.old) (W.interruptions out.new))
        (λ text. (success : Bool)
        × IsSingleReport graph.now (option_map (λ s. s.now) zone_file.entry)
        table.now at text success)
        (W.written out.old) (W.written out.new)) }
{
    let timed = timed_plan_in(alloc, graph, zone_file)?;
    let written = write_single(rt, alloc, &timed.plan, table, at, out);
    drop(timed);
    written
}
