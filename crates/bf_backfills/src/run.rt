//! The command `run`: a run for each data interval of a range, with the programs of its tasks.
ghost use Rattle.std.specs.Prelude.{IfOk, IfErr};
ghost use Rattle.bf_device.specs.Device.{HasHalted};
ghost use Rattle.bf_command_fault.specs.Refusal.{Leaves, Sends};
ghost use Rattle.bf_command_fault.specs.declared.status.Status.{Status};
ghost use Rattle.bf_backfills.specs.Commands.{IsRunAnswer, machine_of};
ghost use Rattle.bf_backfills.specs.CommandFaults.{IsRunFault};

use crate::journaled::write_run_report;
use crate::launching::{launching_asked, path_named, refuse_unstartable_launcher, tells_asked};
use crate::range::range_of;
use bf_command_fault::{CommandFault, Status};
use bf_command_line::RunAsked;
use bf_commands::{Crew, Screen};
use bf_device::Write;
use bf_disk::{Journals, Launchers, Source};
use bf_input::read_graph_files;
use bf_process::Starter;
use std::alloc::Global;
use std::sync::Wait;
use std::thread::Threads;
use std::time::Clock;

/// Does `run`: starts the programs of the tasks, records their tries where a journal is named, and writes the report.
/// `Err` where a moment is bad, the launcher can't be started, a file can't be read, or the graph, the range or the
/// journal is refused, checked in this order; also where the backfill stops early, `out` fails, or memory runs out. At
/// `Err`, `out` got nothing but the bytes that `CannotWrite` counts.
pub fn answer_run<
    RT: Starter + Screen + Threads + Wait + Clock + Sync,
    J: Journals + Launchers,
    S: Source,
    W: Write,
>(
    rt: &RT,
    alloc: Global,
    asked: RunAsked,
    files: &mut S,
    journals: &J,
    out: &mut W,
) -> Result<Status, CommandFault>
where
    J::Device: Send,
    ensures answer { IfOk result (λ status. Sends
        (λ text. IsRunAnswer (RT.may_hear rt.now) (S.file files.old)
        (machine_of (J.journal journals.now) (J.startable journals.now)) asked text status)
        (W.written out.old) (W.written out.new)) }
    ensures fault { IfErr result (IsRunFault (RT.may_lose rt.now) (S.file files.old)
        (machine_of (J.journal journals.now) (J.startable journals.now)) asked) }
    ensures left { IfErr result (Leaves (HasHalted (W.failures out.old) (W.failures out.new)
        (W.interruptions out.old) (W.interruptions out.new))
        (λ text. (status : Status)
        × IsRunAnswer (RT.may_hear rt.now) (S.file files.old)
        (machine_of (J.journal journals.now) (J.startable journals.now)) asked text status)
        (W.written out.old) (W.written out.new)) }
{
    let range = range_of(&asked.range)?;
    refuse_unstartable_launcher(journals, alloc, path_named(&asked.launcher))?;
    let files = read_graph_files(alloc, asked.graph, files)?;
    let (launcher, logs) = (asked.launcher, asked.logs);
    let tells = tells_asked(rt, true, asked.quiet, asked.progress, logs.is_some());
    let crew = Crew::new(rt, alloc, asked.workers, asked.progress).with_launching(
        launching_asked(&launcher, &logs),
        tells,
    );
    write_run_report(&crew, &files, range, asked.journal, journals, out).map(Status::of_runs)
}
